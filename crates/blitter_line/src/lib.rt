//! Line blits: lines of one dot or of a texture, by Bresenham's algorithm (Hardware Reference Manual, blitter
//! hardware, line mode).
#![tactic(auto)]

pub mod line;
mod points;

pub use blit_words::{BlitRegs, SlotAsk};
pub use line::LineBlit;
