//! Runs of the command line that are told as texts, for tests: what they read, and what they are to write.
//! Nothing of it is part of the program.
#![tactic(auto)]

mod bytes;
pub mod failures;
pub mod fault;
pub mod inputs;
mod lines;
pub mod outputs;
mod own_lines;
pub mod told;

pub use fault::TextFault;
