//! A write of a word, as it is kept.

/// A write of a word to the chip memory at a colour clock. `place` is the place of the word, half its
/// address.
#[derive(Clone, Copy, PartialEq, Eq, Debug)]
pub struct Write {
    pub clock: u64,
    pub place: u32,
    pub word: u16,
}
