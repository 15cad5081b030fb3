//! The picture state as it is kept where no word of a plane or a sprite is read.

use ocs_base::{Addr, Clock};

/// What a data register of Denise's was last filled with: a word, or the word that stood at an address
/// of memory at the start of a clock.
#[derive(Clone, Copy)]
pub enum Filling {
    Word { word: u16 },
    Fetched { at: Clock, addr: Addr },
}

/// The picture state without what a line alone has, which is its loads, the sprites' words that run and
/// the held colour, and with the fillings of its data registers in place of their words.
#[derive(Clone, Copy)]
pub struct Shadow {
    pub palette: [u16; 32],
    pub con0: u16,
    pub con1: u16,
    pub con2: u16,
    pub diwstrt: u16,
    pub diwstop: u16,
    pub clxcon: u16,
    pub latches: [Filling; 6],
    pub pos: [u16; 8],
    pub ctl: [u16; 8],
    pub words_a: [Filling; 8],
    pub words_b: [Filling; 8],
    pub armed: u8,
}
