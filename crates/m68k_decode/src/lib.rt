//! The types and definitions that the processor's crates share: registers, places, results,
//! exceptions; with the opcodes and their clocks.
#![tactic(auto)]

pub mod outcome;
pub mod place;
pub mod regs;
pub mod row;
pub mod trap;
pub mod under;

pub use m68k_opcodes::{Instr, Mode, Size, clocks, decode, ea};
pub use outcome::{Flags, Outcome};
pub use place::Place68;
pub use regs::CpuRegs;
pub use row::{Count, Dest, GeneralRow, Op, Source, Traps, extended_byte, general_row};
pub use trap::Trap;
pub use under::Under;
