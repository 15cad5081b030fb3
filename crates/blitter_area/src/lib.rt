//! Area blits: rectangles of words that are read from up to three channels, joined and written by a fourth
//! (Hardware Reference Manual, blitter hardware).
#![tactic(auto)]

pub mod area;
mod asks;
mod channel;
mod data_path;

pub use area::AreaBlit;
pub use blit_words::{BlitRegs, SlotAsk};
