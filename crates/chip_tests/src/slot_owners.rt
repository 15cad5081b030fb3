//! Owners of slots, by the order of those that ask, worked by hand.

use crate::answers::hold;
use bus_slots::{Owner, SlotState, slot_owner};

/// A slot of clock 6, which is none of refresh, that nobody asks for.
fn quiet() -> SlotState {
    SlotState {
        h: 6,
        disk: false,
        audio: None,
        plane: None,
        sprite: None,
        copper: false,
        blitter: false,
        processor: false,
        missed: 0,
        nasty: false,
    }
}

/// A slot that each asks for.
fn wanted_by_all() -> SlotState {
    SlotState {
        h: 5,
        disk: true,
        audio: Some(2),
        plane: Some(6),
        sprite: Some(7),
        copper: true,
        blitter: true,
        processor: true,
        missed: 2,
        nasty: false,
    }
}

#[test]
fn each_before_the_next(rt: HostRuntime) {
    let mut slot = wanted_by_all();
    let refresh = slot_owner(&slot);
    slot.h = 7;
    let disk = slot_owner(&slot);
    slot.disk = false;
    let audio = slot_owner(&slot);
    slot.audio = None;
    let plane = slot_owner(&slot);
    slot.plane = None;
    let owners = [refresh, disk, audio, plane];
    let want = [
        Owner::Refresh,
        Owner::Disk,
        Owner::Audio { channel: 2 },
        Owner::Plane { plane: 6 },
    ];
    hold(&rt, owners == want && last_owners(&mut slot) == LAST_OWNERS);
}

/// Who has a slot that a sprite and those behind it ask for.
static LAST_OWNERS: [Owner; 5] = [
    Owner::Sprite { sprite: 7 },
    Owner::Copper,
    Owner::Blitter,
    Owner::Processor,
    Owner::Free,
];

/// Who has the slot, where a sprite and then one after another asks for it no more.
fn last_owners(slot: &mut SlotState) -> [Owner; 5] {
    let sprite = slot_owner(slot);
    slot.sprite = None;
    let copper = slot_owner(slot);
    slot.copper = false;
    let blitter = slot_owner(slot);
    slot.blitter = false;
    let processor = slot_owner(slot);
    slot.processor = false;
    [sprite, copper, blitter, processor, slot_owner(slot)]
}

/// Who has a slot that nobody asks for, at this clock.
fn owner_at(h: u16) -> Owner {
    slot_owner(&SlotState { h, ..quiet() })
}

#[test]
fn refresh_by_the_clock_alone(rt: HostRuntime) {
    let refresh = [owner_at(1), owner_at(3), owner_at(5), owner_at(225)];
    let free = [
        owner_at(0),
        owner_at(2),
        owner_at(4),
        owner_at(7),
        owner_at(224),
        owner_at(226),
    ];
    hold(
        &rt,
        refresh == [Owner::Refresh; 4] && free == [Owner::Free; 6],
    );
}

/// Who has a slot that the blitter or the processor asks for.
fn owner_of(blitter: bool, processor: bool, missed: u8, nasty: bool) -> Owner {
    slot_owner(&SlotState {
        blitter,
        processor,
        missed,
        nasty,
        ..quiet()
    })
}

#[test]
fn processor_and_blitter_change_places(rt: HostRuntime) {
    let found = [
        owner_of(true, true, 2, false),
        owner_of(true, true, 3, false),
        owner_of(true, true, 4, false),
        owner_of(true, true, 3, true),
        owner_of(true, false, 3, false),
        owner_of(false, true, 0, true),
    ];
    let want = [
        Owner::Blitter,
        Owner::Processor,
        Owner::Processor,
        Owner::Blitter,
        Owner::Blitter,
        Owner::Processor,
    ];
    hold(&rt, found == want);
}
