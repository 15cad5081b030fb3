//! A bus on which a side is alone.

use ocs_base::{Beam, Reg};
use serial_model::{Side, SideAsk};

/// DMAEN, and the bits of the disk and of the four channels.
pub const DISK: u16 = 0x0210;

pub const ZERO: u16 = 0x0201;

pub const ALL: u16 = 0x020f;

/// What happens to a side, and what it answers. Clocks are those of line 0.
#[derive(Clone, Copy)]
pub enum Step {
    /// A register is written with a word.
    Poke(u16, u16),
    /// A tick of a clock, with this DMACON, requests these bits.
    Tick(u16, u16, u16),
    /// So many ticks, with this DMACON, request nothing.
    Quiet(u32, u16),
    /// It asks at a clock, with this DMACON, for the slot at an address, or for none.
    Ask(u16, u16, Option<u32>),
    /// It is given a word.
    Give(u16),
    /// From a clock on, with this DMACON, it is quiet for so many clocks, of a hundred.
    Still(u16, u16, u16),
    /// From a clock on, with this DMACON, so many clocks are passed over at once; each of the two up to 100.
    Skip(u16, u16, u16),
}

/// A clock of a line.
fn place(v: u16, h: u16) -> Beam {
    Beam {
        frame: 0,
        v,
        h,
        lof: true,
    }
}

/// The address of the slot that is asked for.
fn address(ask: SideAsk) -> Option<u32> {
    match ask {
        SideAsk::Nothing => None,
        SideAsk::Disk { at, .. } => Some(at.raw()),
        SideAsk::Audio { at, .. } => Some(at.raw()),
    }
}

/// Whether the side answers as a step says.
fn answers<S: Side>(side: &mut S, step: Step) -> bool {
    match step {
        Step::Poke(reg, word) => {
            side.poke(Reg::masked(reg), word);
            true
        }
        Step::Tick(h, dmacon, bits) => side.tick(&place(0, h), dmacon) == bits,
        Step::Quiet(count, dmacon) => is_quiet(side, count, dmacon),
        Step::Ask(h, dmacon, at) => address(side.ask(&place(0, h), dmacon)) == at,
        Step::Give(word) => {
            side.give(word);
            true
        }
        Step::Still(h, dmacon, clocks) => side.quiet(&place(0, h), dmacon, 100) == clocks,
        Step::Skip(h, dmacon, clocks) => skips(side, h, dmacon, clocks),
    }
}

/// Passes over so many clocks from clock `h` on, where both are 100 at most.
fn skips<S: Side>(side: &mut S, h: u16, dmacon: u16, clocks: u16) -> bool {
    let first = place(0, h);
    if first.h > 100 || clocks > 100 {
        return false;
    }
    side.skip(&first, dmacon, clocks);
    true
}

/// Whether so many ticks request nothing, at a clock at which nothing is asked for.
fn is_quiet<S: Side>(side: &mut S, count: u32, dmacon: u16) -> bool {
    for _ in 0..count {
        if side.tick(&place(0, 100), dmacon) != 0 {
            return false;
        }
    }
    true
}

/// Whether the side answers as each of the steps says, one after the other.
pub fn passes<S: Side>(side: &mut S, steps: &[Step]) -> bool {
    for step in steps {
        if !answers(side, *step) {
            return false;
        }
    }
    true
}

/// What a side answers at a clock: the bits that it requests; and the address of the slot for which it asks, with
/// the word that it stores or is given.
pub type Answer = (u16, Option<(u32, u16)>);

/// What a side answers at a clock of a line, at which it gets the slot for which it asks. Where it reads, it is
/// given `word`.
pub fn clock<S: Side>(side: &mut S, v: u16, h: u16, dmacon: u16, word: u16) -> Answer {
    let beam = place(v, h);
    let bits = side.tick(&beam, dmacon);
    let slot = match side.ask(&beam, dmacon) {
        SideAsk::Nothing => None,
        SideAsk::Disk { at, word: stored } => Some((at.raw(), stored)),
        SideAsk::Audio { at, .. } => Some((at.raw(), word)),
    };
    if let Some((_, word)) = slot {
        side.give(word);
    }
    (bits, slot)
}

/// What a side does in some lines of 227 clocks: the clocks at which it requests interrupts, with the
/// bits, and those at which it asks for a slot, with the address and the word that it stores or is given.
pub struct Lines {
    pub requests: &'static [(u32, u16)],
    pub asks: &'static [(u32, u32, u16)],
}

impl Lines {
    /// What it answers at a clock.
    fn answer(&self, clock: u32) -> Answer {
        let mut bits = 0;
        for (at, requested) in self.requests {
            if *at == clock {
                bits = *requested;
            }
        }
        let mut slot = None;
        for (at, address, word) in self.asks {
            if *at == clock {
                slot = Some((*address, *word));
            }
        }
        (bits, slot)
    }

    /// Whether a side does this in so many lines, and nothing else. Where it reads, it is given `word`.
    pub fn are_met<S: Side>(&self, side: &mut S, lines: u16, dmacon: u16, word: u16) -> bool {
        let mut passed = 0u32;
        for v in 0..lines {
            for h in 0..227 {
                if clock(side, v, h, dmacon, word) != self.answer(passed) {
                    return false;
                }
                passed = passed.wrapping_add(1);
            }
        }
        true
    }
}
