//! A ring of the states that a run can go back to.
#![tactic(auto)]

pub mod entry;
pub mod ring;

pub use ring::Ring;
