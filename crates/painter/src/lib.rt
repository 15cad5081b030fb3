//! The painter: Denise's registers as a working state, the bitplanes and sprites of a line as rows,
//! and the pixels of a clock with what collides there.
#![tactic(auto)]

mod components;
mod field_place;
mod ham;
mod held;
mod inks;
pub mod laws;
mod names;
mod overlay;
mod painter;
mod pixels;
mod put_pair;
mod show_covered;
mod show_spans;
pub mod span;
mod sprite_state;
mod visible;
mod window;

pub use field_place::FieldPlace;
pub use painter::Painter;
