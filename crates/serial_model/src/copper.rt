//! What the Copper keeps between two colour clocks, its instructions, and what a step of it makes.

use ocs_base::{Addr, Reg};

/// What the Copper does at its next even clock: read the first or the second word of an instruction,
/// compare the beam with the WAIT that it has read, or nothing until its next start or jump.
#[derive(Clone, Copy)]
pub enum CopperPhase {
    First,
    Second,
    Waiting,
    Stopped,
}

/// The phase, the address of the next word that the Copper reads, and the two words of the
/// instruction that it reads or waits in.
#[derive(Clone, Copy)]
pub struct CopperState {
    pub phase: CopperPhase,
    pub at: Addr,
    pub first: u16,
    pub second: u16,
}

/// An instruction: a MOVE of a word to a register, a MOVE that is forbidden, a WAIT or a SKIP. The
/// comparison of the last two is in the two words.
#[derive(Clone, Copy)]
pub enum CopperInstruction {
    Move { reg: Reg, word: u16 },
    ForbiddenMove,
    Wait,
    Skip,
}

/// What a step of the Copper makes: nothing, or the write of a completed MOVE.
#[derive(Clone, Copy)]
pub enum CopperAct {
    None,
    Move { reg: Reg, word: u16 },
}
