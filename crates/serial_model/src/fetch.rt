//! What bitplanes and sprites ask of the chip bus.

use ocs_base::Addr;

/// A bitplane, 1 to 6, asks for the word at an address, which fills the plane's latch.
#[derive(Clone, Copy)]
pub struct PlaneAsk {
    pub plane: u8,
    pub at: Addr,
}

/// A sprite, 0 to 7, asks for the word at an address: a control word, which is written to SPRxPOS
/// or, `second`, to SPRxCTL; or a word of its image, for SPRxDATA or, `second`, SPRxDATB.
#[derive(Clone, Copy, PartialEq, Eq)]
pub enum SpriteAsk {
    Control { sprite: u8, second: bool, at: Addr },
    Words { sprite: u8, second: bool, at: Addr },
}

/// What a sprite reads on a line: nothing, its two control words, or two words of its image.
#[derive(Clone, Copy)]
pub enum SpriteKind {
    Nothing,
    Control,
    Words,
}
