//! Slots of the chip bus: who gets the one access of a colour clock to chip memory, what it asks for, and what
//! the access makes.
#![tactic(auto)]

pub mod asks;

ghost use Rattle.std.specs.Prelude.{◌≡◌, ◌↔◌, []};
ghost use Rattle.serial_model.specs.declared.slots.Owner.{Owner};
ghost use Rattle.serial_model.specs.Owner.{owner_of, askers, last_owner, is_refresh as takes_refresh};

pub use serial_model::{Owner, SlotState};

/// The owner of a slot: the first that asks, in the order refresh, disk, audio, bitplane, sprite, Copper,
/// blitter, processor (Hardware Reference Manual, DMA time slots of a line). `Free` comes exactly where
/// nobody asks.
///
/// Refresh takes its four slots of each line, whoever else asks; that these are clocks 1, 3, 5 and 225 is
/// this project's profile. The processor comes before the blitter where `nasty`, BLTPRI of DMACON, is clear
/// and it has missed three clocks in a row or more (Hardware Reference Manual, blitter priority). Whether
/// a channel may ask at this clock is for the caller to know; the numbers of channels, planes and sprites
/// are handed on as they are.
#[inline(always)]
#[tactic(auto, unfolding(serial_model::specs::Owner::owner_of))]
pub fn slot_owner(s: &SlotState) -> Owner
    ensures owner { result ≡ owner_of s.now }
    ensures free { (result ≡ Owner.Free) ↔ (askers s.now ≡ []) }
{
    if is_refresh(s.h) {
        Owner::Refresh
    } else if s.disk {
        Owner::Disk
    } else if let Some(channel) = s.audio {
        Owner::Audio { channel }
    } else if let Some(plane) = s.plane {
        Owner::Plane { plane }
    } else if let Some(sprite) = s.sprite {
        Owner::Sprite { sprite }
    } else if s.copper {
        Owner::Copper
    } else {
        blitter_or_processor(s)
    }
}

/// Whether refresh takes this clock of a line.
pub fn is_refresh(h: u16) -> bool
    ensures { result ≡ takes_refresh h }
{
    matches!(h, 1 | 3 | 5 | 225)
}

/// The owner of a slot that none of those before the blitter asks for.
fn blitter_or_processor(s: &SlotState) -> Owner
    ensures { result ≡ last_owner s.now }
{
    let late = !s.nasty && s.missed >= 3;
    if s.blitter && !(s.processor && late) {
        Owner::Blitter
    } else if s.processor {
        Owner::Processor
    } else {
        Owner::Free
    }
}
