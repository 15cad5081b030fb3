//! The three files that a run writes: frames, trace and memory.
#![tactic(auto)]

pub mod fault;
pub mod files;
mod line_start;
mod lines;
mod pieces;
mod pixels;
mod words;

pub use fault::{OutFile, WriteFault};
pub use files::OutFiles;
pub use serial_model::{Source, TraceLine};
pub use words::put_memory;
