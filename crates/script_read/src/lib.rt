//! The text of a script: its grammar, a reader and a printer.
#![tactic(auto)]

mod cut;
mod event;
pub mod fault;
mod parts;
mod printer;
mod reader;
mod version;

pub use fault::{BadKind, ScriptFault};
pub use printer::print_script;
pub use reader::read_script;
