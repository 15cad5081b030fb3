//! The words of the command line: what they ask for, and what is said where it was not done.
#![tactic(auto)]

mod fault;
mod order;
mod rewind_order;
mod texts;
mod words;

pub use fault::{Fault, Output};
pub use order::{Extra, Order};
pub use rewind_order::RewindOrder;
pub use texts::say_fault;
pub use words::{Command, SceneOrder, read_command};
