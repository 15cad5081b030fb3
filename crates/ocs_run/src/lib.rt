//! The top call: a run from the words of the command line to the output files.
#![tactic(auto)]

mod command;
mod rewind;
mod rewind_text;
mod scene;
mod sides;
mod top;

pub use crew::{Gate, NoGate};
pub use top::ocs_main;
