//! One load of the planes.

ghost use Rattle.std.specs.Prelude.{◌≡◌, ◌+◌, ◌*◌, ◌≤◌};

/// What a write to BPL1DAT hands to the six planes.
#[derive(Clone, Copy, Default)]
pub struct Load {
    /// The position, in high-resolution pixels, from which planes 1, 3 and 5 show the words.
    pub odd: u32,
    /// The same for planes 2, 4 and 6.
    pub even: u32,
    /// The latches BPL1DAT to BPL6DAT.
    pub words: [u16; 6],
    /// Whether a bit is shown for one position, and not for two.
    pub hires: bool,
}

impl Load {
    ghost use Rattle.planes.specs.PlaneBit.{load_of};

    /// The load of a write at clock `h` of the line.
    pub fn at(h: u16, latches: &[u16; 6], con1: u16, hires: bool) -> Load
        ensures value { result ≡ load_of h latches.now con1 hires }
        ensures odd { result.odd ≤ 4 * h + 36 }
        ensures even { result.even ≤ 4 * h + 36 }
    {
        let start = 4 * h as u32 + 6;
        let mask = if hires { 7 } else { 15 };
        Load {
            odd: start + 2 * (con1 & mask) as u32,
            even: start + 2 * (con1 >> 4 & mask) as u32,
            words: *latches,
            hires,
        }
    }
}
