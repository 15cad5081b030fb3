//! Runs of the command line that are told as texts, for tests: what they read and write, and what
//! of a run is not as it is told. Nothing of it is part of the program.
#![tactic(auto)]

pub mod case;
mod failing;
pub mod fault;
pub mod place;
mod result;
mod same;

pub use fault::CaseFault;
