//! A run in which clocks are gone to, forwards and back: from checkpoints that are kept at the starts of
//! frames, or from reset where there is none.
#![tactic(auto)]

pub mod arrived;
pub mod rewind;

pub use arrived::Arrived;
pub use rewind::Rewind;
