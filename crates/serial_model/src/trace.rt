//! What the trace tells of a run.

use ocs_base::{Beam, Reg};

/// Who wrote or read a register.
#[derive(Clone, Copy)]
pub enum Source {
    Copper,
    Processor,
    Script,
}

/// A line of the trace: a write to a register with its word, a read of a register (CLXDAT, or the
/// script's) with the word that it gave, or an interrupt that the processor takes, with its level.
/// Each has the place of the beam at which it happened.
#[derive(Clone, Copy)]
pub enum TraceLine {
    Wrote {
        beam: Beam,
        reg: Reg,
        word: u16,
        by: Source,
    },
    Peeked {
        beam: Beam,
        reg: Reg,
        word: u16,
        by: Source,
    },
    Taken {
        beam: Beam,
        level: u8,
    },
}
