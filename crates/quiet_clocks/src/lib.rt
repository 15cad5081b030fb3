//! Colour clocks at which nobody asks for the bus and nothing is due: what one comes to, and many of them
//! one behind the other. Definitions stand in `specs/`; here are their laws.
#![tactic(auto)]

pub mod laws;
