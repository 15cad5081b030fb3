//! What the processor asks for.

/// What the processor does next.
#[derive(Clone, Copy, PartialEq, Eq)]
pub enum Ask {
    /// It reads the word at `at`, of which it takes one half where `byte` is set: the high one at
    /// an even address.
    Read { at: u32, byte: bool },
    /// It writes `word` at `at`; where `byte` is set, `word` is that byte.
    Write { at: u32, byte: bool, word: u16 },
    /// It makes no access for that many colour clocks.
    Idle { clocks: u32 },
    /// It is halted for good.
    Halted,
}
