//! When quiet clocks are looked for, and such as are made on the bus. What a run gives does not hang on it, but
//! how fast it is.

ghost use Rattle.std.specs.Prelude.{◌≡◌};

/// The clock from which on they are looked for, as a number of colour clocks since reset, and how long the
/// last pause was: each look that finds few makes the next pause twice as long.
#[derive(Clone, Copy)]
pub struct Lookout {
    pub from: u64,
    pub pause: u8,
}

impl Lookout {
    /// At reset it looks at once.
    pub fn new() -> Lookout
        ensures pause { result.pause ≡ 0 }
        ensures from { result.from ≡ 0 }
    {
        Lookout { from: 0, pause: 0 }
    }
}
