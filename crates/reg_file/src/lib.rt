//! The register file: the kept words of the custom registers, what a write does, and what a read gives.
#![tactic(auto)]

mod registers;
mod table;

pub use registers::Regs;
pub use serial_model::{Effect, Live};
