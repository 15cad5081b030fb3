//! Colours: what the playfields show, the sprites' priority, and the held colour.
#![tactic(auto)]

pub mod pixel;
pub mod planes;
mod playfield;

pub use pixel::{Pixel, colour};
pub use planes::plane_count;
pub use playfield::is_sprite_hidden;
