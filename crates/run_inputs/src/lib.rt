//! What a command has before it runs the machine: its words and the names in them, the image of chip memory
//! and the script, and what is said where they are bad.
#![tactic(auto)]

mod arguments;
pub mod fault;
pub mod inputs;
pub mod names;
pub mod texts;

pub use arguments::words_behind_name;
pub use fault::{InputFault, InputFile};
pub use inputs::{Inputs, read_inputs};
pub use names::are_names;
pub use texts::{put, put_bad_line, put_input_fault, put_named, say, say_input_fault};
