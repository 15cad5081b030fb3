//! The sprites' pixels of a line, kept by position: the sprite in front and the collisions of a
//! pixel in a few loads.
#![tactic(auto)]

pub mod collision;
mod front;
mod laying;
pub mod rows;
pub mod words;

pub use collision::{collisions, playfield_worth};
pub use front::{pair_colours, pair_pixel};
pub use rows::SpriteRows;
pub use words::bits_as_bytes;
