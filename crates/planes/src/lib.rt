//! Bitplanes: the loads of a line, and what the planes show of them.
#![tactic(auto)]

pub mod load;
pub mod loads;
mod shown;

pub use load::Load;
pub use loads::{Loads, plane_bits, plane_span};
