//! The processor on the bus: where its accesses go, what it waits for, and what a clock makes of it.

ghost use Rattle.std.specs.Prelude.{◌<◌};

use crate::bus::ProcessorAsk;
use ocs_base::{Addr, Reg};

/// One of the two CIAs. CIA A answers at the odd bytes of BFE000 to BFEFFF, CIA B at the even bytes
/// of BFD000 to BFDFFF (profile).
#[derive(Clone, Copy)]
pub enum CiaName {
    A,
    B,
}

/// The number of a register of a CIA, 0 to 15.
#[derive(Clone, Copy)]
pub struct CiaRegister {
    pub number: u8,
    pub ghost below: { number < 16 },
}

/// Where an access of the processor goes: to a word of chip memory, a custom register, a register of a CIA,
/// or nowhere.
#[derive(Clone, Copy)]
pub enum Target {
    Memory { at: Addr },
    Register { reg: Reg },
    Cia { cia: CiaName, reg: CiaRegister },
    Unmapped,
}

/// What the processor waits for: the slot for an access, the end of an access to a CIA, which
/// writes a `byte` or reads, the end of an access that goes nowhere, the end of so many idle
/// clocks, or nothing any more.
#[derive(Clone, Copy)]
pub enum Wait {
    Slot {
        ask: ProcessorAsk,
    },
    Cia {
        cia: CiaName,
        reg: CiaRegister,
        byte: Option<u8>,
    },
    Unmapped,
    Idle {
        clocks: u32,
    },
    Halted,
}

/// What a clock makes of the processor once the slot was given: nothing; one more clock passes of
/// what it waits for; it goes on with the word of an answer; or it makes its access to a CIA and
/// goes on.
#[derive(Clone, Copy)]
pub enum Turn {
    Rests,
    Waits {
        spent: u32,
    },
    Goes {
        word: u16,
    },
    Cia {
        cia: CiaName,
        reg: CiaRegister,
        byte: Option<u8>,
    },
}
