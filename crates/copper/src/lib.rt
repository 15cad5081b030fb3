//! The Copper: a small processor that waits for the beam and writes registers.
//!
//! An instruction is two words, each read from chip memory in a slot of its own (Hardware Reference Manual,
//! coprocessor hardware): MOVE where bit 0 of the first is clear; WAIT where it is set and bit 0 of the
//! second is clear; SKIP where both are set. Addresses are in bytes and wrap at the size of
//! chip memory.
#![tactic(auto)]

ghost use Rattle.std.specs.Prelude.{◌≡◌, ◌<◌, ◌≤◌, ◌+◌, ℕ, true, false};
ghost use Rattle.serial_model.specs.Copper.{copper_from, wish_of, step_copper, copper_act, bytes_after};
ghost use Rattle.serial_model.specs.Copper.{comparison_holds, is_forbidden as forbidden, is_stopped, instruction_of};
ghost use Rattle.serial_model.specs.Copper.{complete_instruction, phase_after as phase_of, length_of, act_of};
ghost use Rattle.serial_model.specs.Beam.{later_beam};
ghost use Rattle.copper.specs.Quiet.{DoesNothing, HoldsNot};

use ocs_base::{Addr, Beam, Reg};
use serial_model::CopperInstruction;
pub use serial_model::{CopperAct, CopperPhase, CopperState};
use std::marker::Model;

/// The Copper between two colour clocks. Of the machine it sees only what its calls are given.
#[derive(Drop)]
pub struct Copper {
    state: CopperState,
}

impl Model for Copper {
    ghost use Rattle.serial_model.specs.declared.copper.CopperState.{CopperState};

    ghost Value = { CopperState };

    ghost view = { λ c. c.state };
}

impl Copper {
    /// A Copper that begins to fetch at an address.
    pub fn start(at: Addr) -> Copper
        ensures { result ≡ copper_from at }
    {
        Copper {
            state: fetching_from(at),
        }
    }

    /// The same state once more.
    pub fn copied(&self) -> Copper
        ensures { result ≡ self.now }
    {
        Copper { state: self.state }
    }

    /// The Copper fetches from another address: from COP1LC at the start of a field and after a write to
    /// COPJMP1, from COP2LC after one to COPJMP2 (Hardware Reference Manual, COPJMP1). It ends a wait and
    /// starts a Copper that was stopped, and what was read of an instruction is dropped.
    pub fn jump(&mut self, to: Addr)
        ensures { self.new ≡ copper_from to }
    {
        self.state = fetching_from(to);
    }

    /// The address of the word that it asks for: Some exactly in a fetch phase, and so None while it waits
    /// or is stopped. Whether it may ask, on an even clock with DMAEN and COPEN set, is for the caller to
    /// know.
    pub fn wants(&self) -> Option<Addr>
        ensures { result ≡ wish_of self.now }
    {
        match self.state.phase {
            CopperPhase::First | CopperPhase::Second => Some(self.state.at),
            CopperPhase::Waiting | CopperPhase::Stopped => None,
        }
    }

    /// Whether a forbidden MOVE has stopped it until its next start or jump. That it stops so is this
    /// project's profile.
    pub fn stopped(&self) -> bool
        ensures { result ≡ is_stopped self.now }
    {
        matches!(self.state.phase, CopperPhase::Stopped)
    }

    /// For how many clocks of this line, from this one on and at most so many, it does nothing even with its
    /// DMA on: it neither asks for a slot nor goes on. `busy` says that the blitter is busy all the while.
    /// There may be more such clocks behind them.
    pub fn quiet(&self, beam: &Beam, busy: bool, most: u16) -> u16
        requires room { beam.now.h + most ≤ 226 }
        ensures most { result ≤ most }
        ensures quiet { (k : ℕ) → k < result → DoesNothing (later_beam k beam.now) busy self.now }
    {
        match self.state.phase {
            CopperPhase::Stopped => most,
            CopperPhase::First | CopperPhase::Second => most.min(beam.h % 2),
            CopperPhase::Waiting => {
                before_hold(beam, busy, self.state.first, self.state.second, most)
            }
        }
    }

    /// One step. It is made once on each even clock at which DMAEN and COPEN of DMACON are set (that the
    /// Copper uses even clocks is this project's profile).
    ///
    /// `fetched` is the word that it asked for, and None where it got no slot: a fetch phase then stays as it
    /// is. `busy` says that the blitter was busy before this clock's access, and `danger` is CDANG, bit 1 of
    /// COPCON. The answer is a write exactly where a MOVE is completed, at the clock of its second word, and
    /// its register is allowed: 080 or above, or 040 or above with `danger`.
    ///
    /// A WAIT compares from the step after its second word on, without a slot, and the Copper fetches again
    /// from the step after the comparison held. A SKIP compares as its second word is read, and where that
    /// holds the two words behind it are passed over without a slot.
    #[inline(always)]
    #[tactic(auto, unfolding(serial_model::specs::Copper::step_copper, serial_model::specs::Copper::copper_act))]
    pub fn step(&mut self, fetched: Option<u16>, beam: &Beam, busy: bool, danger: bool) -> CopperAct
        ensures state { self.new ≡ step_copper beam.now busy danger fetched self.old }
        ensures act { result ≡ copper_act danger fetched self.old }
    {
        match (self.state.phase, fetched) {
            (CopperPhase::First, Some(word)) => {
                self.state.first = word;
                self.state.at = bytes_on(self.state.at, 2);
                self.state.phase = CopperPhase::Second;
                CopperAct::None
            }
            (CopperPhase::Second, Some(word)) => {
                let instruction = decode(self.state.first, word, danger);
                complete(&mut self.state, &instruction, word, beam, busy);
                act(&instruction)
            }
            (CopperPhase::Waiting, _) => {
                if holds(beam, busy, self.state.first, self.state.second) {
                    self.state.phase = CopperPhase::First;
                }
                CopperAct::None
            }
            _ => CopperAct::None,
        }
    }
}

/// A Copper's state as it begins to fetch at an address.
fn fetching_from(at: Addr) -> CopperState
    ensures { result ≡ copper_from at }
{
    CopperState {
        phase: CopperPhase::First,
        at,
        first: 0,
        second: 0,
    }
}

/// The instruction of two words: MOVE where bit 0 of the first is clear, WAIT where it is set and
/// bit 0 of the second is clear, SKIP where both are set.
fn decode(first: u16, second: u16, danger: bool) -> CopperInstruction
    ensures { result ≡ instruction_of danger first second }
{
    if first % 2 == 0 {
        if is_forbidden(first, danger) {
            CopperInstruction::ForbiddenMove
        } else {
            CopperInstruction::Move {
                reg: Reg::masked(first),
                word: second,
            }
        }
    } else if second % 2 == 0 {
        CopperInstruction::Wait
    } else {
        CopperInstruction::Skip
    }
}

/// Completes an instruction, whose second word was read.
fn complete(
    state: &mut CopperState,
    instruction: &CopperInstruction,
    word: u16,
    beam: &Beam,
    busy: bool,
)
    ensures { state.new ≡ complete_instruction beam.now busy instruction.now word state.old }
{
    let bytes = length(instruction, state.first, word, beam, busy);
    state.at = bytes_on(state.at, bytes);
    state.phase = phase_after(instruction);
    state.second = word;
}

/// The phase after an instruction.
fn phase_after(instruction: &CopperInstruction) -> CopperPhase
    ensures { result ≡ phase_of instruction.now }
{
    match instruction {
        CopperInstruction::Move { .. } | CopperInstruction::Skip => CopperPhase::First,
        CopperInstruction::ForbiddenMove => CopperPhase::Stopped,
        CopperInstruction::Wait => CopperPhase::Waiting,
    }
}

/// How many bytes the Copper's address moves at the second word of an instruction, of which these are the words:
/// past the next two where a SKIP's comparison holds. No other instruction compares here.
fn length(instruction: &CopperInstruction, first: u16, second: u16, beam: &Beam, busy: bool) -> u32
    ensures length { result
        ≡ length_of (comparison_holds beam.now busy first second) instruction.now }
    ensures few { result < 8 }
{
    match instruction {
        CopperInstruction::Skip if holds(beam, busy, first, second) => 6,
        _ => 2,
    }
}

/// What an instruction makes at the clock of its second read: the write of a MOVE that is not forbidden.
fn act(instruction: &CopperInstruction) -> CopperAct
    ensures { result ≡ act_of instruction.now }
{
    match instruction {
        CopperInstruction::Move { reg, word } => CopperAct::Move {
            reg: *reg,
            word: *word,
        },
        _ => CopperAct::None,
    }
}

/// Whether a MOVE with this first word is forbidden: to a register below 040, and to one of 040 to 07E
/// while CDANG is clear (Hardware Reference Manual, COPCON; these bounds are this project's profile).
fn is_forbidden(first: u16, danger: bool) -> bool
    ensures { result ≡ forbidden danger first }
{
    let offset = Reg::masked(first).raw();
    offset < 0x40 || offset < 0x80 && !danger
}

/// The address so many bytes on, wrapping at its span.
fn bytes_on(at: Addr, bytes: u32) -> Addr
    requires { bytes < 8 }
    ensures { result ≡ bytes_after at bytes }
{
    Addr::sized(at.size, at.raw() + bytes)
}

/// Whether the comparison of a WAIT or SKIP with these words holds: the low eight bits of the line and the
/// even clock are not below those of the first word, under the mask of the second. Bit 15 of the mask, that
/// of the line's bit 7, is always set; bit 15 of the second word is BFD, which leaves the blitter out of it.
fn holds(beam: &Beam, busy: bool, first: u16, second: u16) -> bool
    ensures { result ≡ comparison_holds beam.now busy first second }
{
    let mask = 0x8000 | second & 0x7ffe;
    let place = (beam.v as u32 % 256) * 256 + beam.h as u32 / 2 * 2;
    place & mask as u32 >= (first & 0xfffe & mask) as u32 && (second >= 0x8000 || !busy)
}

/// For how many clocks of this line, from this one on and at most so many, the comparison holds at no even
/// one.
fn before_hold(beam: &Beam, busy: bool, first: u16, second: u16, most: u16) -> u16
    requires room { beam.now.h + most ≤ 226 }
    ensures most { result ≤ most }
    ensures none { (k : ℕ) → k < result → HoldsNot (later_beam k beam.now) busy first second }
{
    if is_never_met(beam, busy, first, second) {
        return most;
    }
    let mut clocks = beam.h % 2;
    while clocks < most {
        let later = Beam {
            frame: beam.frame,
            v: beam.v,
            h: beam.h + clocks,
            lof: beam.lof,
        };
        if holds(&later, busy, first, second) {
            return clocks;
        }
        clocks += 2;
    }
    most
}

/// Whether the comparison is known to hold at no clock of this line from this one on: the line is below that
/// of the first word, under the mask, or the blitter is busy and counts.
#[tactic(auto, using(crate::proofs::Quiet::never_by_line, crate::proofs::Quiet::never_by_blitter))]
fn is_never_met(beam: &Beam, busy: bool, first: u16, second: u16) -> bool
    ensures { result ≡ true → (k : ℕ) → beam.now.h + k < 256
        → comparison_holds (later_beam k beam.now) busy first second ≡ false }
{
    let masked = 0x8000 | second & 0x7ffe;
    beam.v % 256 & masked / 256 < (first & 0xfffe & masked) / 256 || second < 0x8000 && busy
}
