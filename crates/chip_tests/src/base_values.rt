//! Each public call once; the numbers are worked by hand.

use crate::answers::hold;
use ocs_base::*;
use std::alloc::AllocError;

/// The address that a number stands for.
fn kept(raw: u32) -> u32 {
    Addr::at(raw).raw()
}

#[test]
fn addresses(rt: HostRuntime) {
    let found = [
        kept(0),
        kept(3),
        kept(0x8_0001),
        kept(0xf7_ffff),
        Addr::at(0).step(-2).raw(),
        Addr::at(0x7_fffe).step(4).raw(),
        Addr::at(8).span(),
    ];
    hold(&rt, found == [0, 2, 0, 0x7_fffe, 0x7_fffe, 2, 524_288]);
}

/// The address that a number stands for in one mebibyte, and in a chip memory of that size.
fn kept_wide(raw: u32) -> [u32; 2] {
    [
        Addr::wide(raw).raw(),
        Addr::sized(ChipSize::Mib1, raw).raw(),
    ]
}

#[test]
fn addresses_of_one_mebibyte(rt: HostRuntime) {
    let found = [
        kept_wide(0),
        kept_wide(3),
        kept_wide(0x8_0001),
        kept_wide(0x10_0003),
        kept_wide(0xff_ffff),
    ];
    let want = [[0; 2], [2; 2], [0x8_0000; 2], [2; 2], [0xf_fffe; 2]];
    hold(&rt, found == want);
}

#[test]
fn steps_in_one_mebibyte(rt: HostRuntime) {
    let found = [
        Addr::wide(0).step(-2).raw(),
        Addr::wide(0x7_fffe).step(2).raw(),
        Addr::wide(0xf_fffe).step(4).raw(),
        Addr::wide(0).step(2).step(-4).raw(),
    ];
    hold(&rt, found == [0xf_fffe, 0x8_0000, 2, 0xf_fffe]);
}

#[test]
fn spans_by_size(rt: HostRuntime) {
    let small = Addr::sized(ChipSize::Kib512, 0x8_0011);
    let found = [Addr::wide(8).span(), small.raw(), small.span()];
    hold(&rt, found == [1_048_576, 0x10, 524_288]);
}

#[test]
fn sizes_of_chip_memory(rt: HostRuntime) {
    let is_small = ChipSize::of_bytes(524_288) == ChipSize::Kib512;
    let is_great = ChipSize::of_bytes(1_048_576) == ChipSize::Mib1;
    let bytes = [ChipSize::Kib512.bytes(), ChipSize::Mib1.bytes()];
    hold(&rt, is_small && is_great && bytes == [524_288, 1_048_576]);
}

#[test]
fn registers(rt: HostRuntime) {
    let found = [
        Reg::new(0).is_some(),
        Reg::new(0x1fe).is_some(),
        Reg::new(0x200).is_some(),
        Reg::new(0x181).is_some(),
    ];
    hold(
        &rt,
        found == [true, true, false, false] && Reg::masked(0xff81).raw() == 0x180,
    );
}

/// A key at the last clock of a long field of frame 2.
const LATE_KEY: At = At {
    frame: 2,
    v: 311,
    h: 226,
    act: Act::Key { code: 0x45 },
};

/// Whether a script of three frames with a processor is that with this one event.
fn is_of_one_event(script: &Script) -> bool {
    let events = script.events();
    events.len() == 1
        && events[0] == LATE_KEY
        && script.cpu()
        && script.frames() == 3
        && script.chip() == 524_288
        && script.system() == System::Pal
}

#[test]
fn a_script_of_one_event(rt: HostRuntime) {
    let mut script = Script::new(rt.alloc(), true, 3);
    let is_pushed = script.push(LATE_KEY).is_ok();
    hold(&rt, is_pushed && is_of_one_event(&script));
}

/// Whether a script without events has this system, size of chip memory and processor.
fn is_empty_script(script: &Script, system: System, chip: ChipSize, cpu: bool) -> bool {
    script.system() == system
        && script.chip() == chip.bytes()
        && script.chip_size() == chip
        && script.cpu() == cpu
        && script.events().is_empty()
}

#[test]
fn a_script_of_ntsc(rt: HostRuntime) {
    let ntsc = Script::made(rt.alloc(), false, 1, 1_048_576, System::Ntsc);
    hold(
        &rt,
        is_empty_script(&ntsc, System::Ntsc, ChipSize::Mib1, false),
    );
}

#[test]
fn a_script_with_a_size(rt: HostRuntime) {
    let great = Script::sized(rt.alloc(), true, 2, 1_048_576);
    hold(
        &rt,
        is_empty_script(&great, System::Pal, ChipSize::Mib1, true) && great.frames() == 2,
    );
}

#[test]
fn a_script_with_the_smaller_size(rt: HostRuntime) {
    let small = Script::sized(rt.alloc(), true, 2, 524_288);
    hold(
        &rt,
        is_empty_script(&small, System::Pal, ChipSize::Kib512, true),
    );
}

#[test]
fn a_refusal_for_want_of_memory(rt: HostRuntime) {
    let refused: Result<(), OutOfMemory> = Err(OutOfMemory::from(AllocError));
    hold(&rt, refused.is_err());
}
