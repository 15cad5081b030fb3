//! The bands of a serial run: how its picture is cut into ranges of picture steps, what is noted of
//! each, and what each shows. Definitions stand in `specs/`; here are the plain types that they speak of,
//! and their laws.
#![tactic(auto)]

pub mod event;
pub mod laws;
pub mod shadow;

pub use event::Event;
pub use shadow::{Filling, Shadow};
