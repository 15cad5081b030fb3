//! The data path of the blitter: what it makes of words, and the fields and addresses that area and
//! line blits share (Hardware Reference Manual, blitter hardware).
#![tactic(auto)]

pub mod blit;
pub mod fields;
pub mod fill;
pub mod minterms;
pub mod shift;

pub use blit::{BlitRegs, LinePoint, SlotAsk, WordAsk};
pub use fields::{address_on, even_part, height, is_set};
pub use fill::fill_word;
pub use minterms::Minterms;
pub use shift::shift_input;
