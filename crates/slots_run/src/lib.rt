//! The top call of the program that writes the log of a run's slots.
#![tactic(auto)]

mod fault;
mod file;
mod log;
mod order;
mod slot_run;
mod texts;
mod top;

pub use top::slots_main;
