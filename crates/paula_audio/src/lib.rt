//! Paula's four audio channels as a side of the machine: what each fetches and when, the interrupts
//! that they request, and what they sound (Hardware Reference Manual, audio hardware).
//!
//! The clocks of a channel's steps, what a length or a period of 0 means, and how levels are rounded
//! are this project's profile.
#![tactic(auto)]

mod channel;
mod paula;

pub use paula::Paula;
