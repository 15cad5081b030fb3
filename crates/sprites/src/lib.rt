//! Sprites: the words that run on a line, their values, and the sprite in front.
#![tactic(auto)]

pub mod pixel;
pub mod runs;

pub use pixel::{SpritePixel, front};
pub use runs::{Runs, Start};
