//! What decides the fetches of a line, read from the registers once.

ghost use Rattle.std.specs.Prelude.{◌≡◌, ◌≤◌, ◌<◌, ◌-◌, ℕ, IfSome, nat_lt, slice_index};
ghost use Rattle.ocs_base.specs.AddressOf.{addr_at};
ghost use Rattle.ocs_base.specs.Sizes.{bytes_of};
ghost use Rattle.serial_model.specs.Registers.{Registers};
ghost use Rattle.bitplane_dma.specs.Rules.{rules_of, first_unit, is_first, planes_by, fetched_in_slot as in_slot, bytes_by};

use crate::{fetch_end, fetch_start, has_dma, is_window_line, modulo_bytes, slot_plane};
use ocs_base::offset::{BPL1MOD, BPL2MOD, BPLCON0};
use ocs_base::{Addr, Beam, ChipSize, Reg};
use reg_file::Regs;

/// What decides at which clocks of a line which plane is fetched, and what is added to its pointer, by the
/// registers as they were when it was made. A fetch of a plane leaves it right.
#[derive(Clone, Copy)]
pub struct FetchRules {
    /// Where the line's first unit begins; None where it has none.
    first: Option<u16>,
    /// The clock from which on no unit is followed by another.
    end: u16,
    /// Whether units fetch as in high resolution.
    high: bool,
    /// The plane that each of the eight slots of a unit fetches; 0 where it fetches none.
    slots: [u8; 8],
    /// The kept words of BPL1MOD and BPL2MOD.
    odd: u16,
    even: u16,
    /// The size of chip memory, and the bits of an address in it.
    size: ChipSize,
    mask: u32,
}

impl FetchRules {
    /// Those of the beam's line, by the registers as they are now.
    #[tactic(auto, unfolding(crate::specs::Rules::slots_by))]
    pub fn of(beam: &Beam, regs: &Regs) -> FetchRules
        ensures { result ≡ rules_of beam.now.v regs.now }
    {
        let high = regs.word(Reg::masked(BPLCON0)) >= 0x8000;
        let planes = planes_in_unit(regs);
        FetchRules {
            first: first_of_line(beam, regs),
            end: fetch_end(regs).min(0xd1),
            high,
            slots: [
                fetched_in_slot(high, planes, 0),
                fetched_in_slot(high, planes, 1),
                fetched_in_slot(high, planes, 2),
                fetched_in_slot(high, planes, 3),
                fetched_in_slot(high, planes, 4),
                fetched_in_slot(high, planes, 5),
                fetched_in_slot(high, planes, 6),
                fetched_in_slot(high, planes, 7),
            ],
            odd: regs.word(Reg::masked(BPL1MOD)),
            even: regs.word(Reg::masked(BPL2MOD)),
            size: regs.size(),
            mask: regs.size().bytes() - 2,
        }
    }

    /// The address that a pointer's number names in the chip memory.
    #[inline(always)]
    pub(crate) fn address(&self, raw: u32) -> Addr
        requires { self.now.mask ≡ bytes_of self.now.size - 2 }
        ensures { result ≡ addr_at self.now.size raw }
    {
        Addr {
            value: raw & self.mask,
            size: self.size,
        }
    }

    /// Whether a further unit follows the one that began at `start`.
    #[inline(always)]
    pub(crate) fn has_next(&self, start: u16) -> bool
        ensures { result ≡ nat_lt start self.now.end }
    {
        start < self.end
    }

    /// Whether the line's first unit begins at clock `h`.
    #[inline(always)]
    pub(crate) fn begins_first(&self, h: u16) -> bool
        ensures { result ≡ is_first h self.now.first }
    {
        self.first == Some(h)
    }

    /// The plane that a slot of a unit fetches; 0 where it fetches none.
    #[inline(always)]
    pub(crate) fn slot(&self, slot: u16) -> u8
        requires within { slot < 8 }
        requires rules { (v : ℕ) × (registers : Registers) × (self.now ≡ rules_of v registers) }
        ensures plane { result ≡ slice_index self.now.slots slot }
        ensures most { result ≤ 6 }
    {
        self.slots[slot as usize]
    }

    /// How many bytes a plane's fetch at clock `h` adds to its pointer beside the word's two.
    #[inline(always)]
    pub(crate) fn bytes(&self, h: u16, start: u16, plane: u8) -> u32
        requires { start ≤ h }
        ensures value { result ≡ bytes_by self.now h start plane }
        ensures below { result < 1048576 }
    {
        if start < self.end || self.high && h - start < 4 {
            return 0;
        }
        modulo_bytes(if plane % 2 == 1 { self.odd } else { self.even })
    }
}

/// Where a line's first unit begins, if it has one.
fn first_of_line(beam: &Beam, regs: &Regs) -> Option<u16>
    ensures { result ≡ first_unit beam.now.v regs.now }
{
    let start = fetch_start(regs);
    if has_dma(regs) && start <= 0xd8 && is_window_line(beam.v, regs) {
        Some(start)
    } else {
        None
    }
}

/// How many planes a unit fetches; none without DMA.
fn planes_in_unit(regs: &Regs) -> u16
    ensures { result ≡ planes_by regs.now }
{
    let con0 = regs.word(Reg::masked(BPLCON0));
    if !has_dma(regs) {
        return 0;
    }
    (con0 / 0x1000 % 8).min(if con0 >= 0x8000 { 4 } else { 6 })
}

/// The plane that a slot of a unit fetches, where so many planes are fetched; 0 where it fetches none.
fn fetched_in_slot(high: bool, planes: u16, slot: u16) -> u8
    requires { slot < 8 }
    ensures { result ≡ in_slot high planes slot }
{
    let plane = slot_plane(high, slot);
    if plane as u16 <= planes { plane } else { 0 }
}
