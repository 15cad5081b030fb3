//! The opcodes that are kept with what they say.

ghost use Rattle.std.specs.Prelude.{◌≡◌, ◌<◌};

use m68k_results::Fetched;

/// The opcodes that were last met, each at a place of its own among 1024. Each is decoded as it is,
/// so a place is never wrong: it has another opcode at worst.
#[derive(Clone, Copy)]
pub struct Rows {
    places: [Fetched; 1024],
}

impl Rows {
    /// No opcode but 0.
    pub fn new() -> Rows {
        Rows {
            places: [Fetched::none(); 1024],
        }
    }

    /// The opcode that stands at the place of another.
    #[inline(always)]
    pub fn kept(&self, opcode: u16) -> Fetched {
        self.places[place_of(opcode)]
    }

    /// The opcode with its instruction and its row, put at its place.
    pub fn renewed(&mut self, opcode: u16) -> Fetched
        ensures { result.opcode ≡ opcode }
    {
        let fetched = Fetched::new(opcode);
        self.places[place_of(opcode)] = fetched;
        fetched
    }
}

/// The place of an opcode.
#[inline(always)]
fn place_of(opcode: u16) -> usize
    ensures { result < 1024 }
{
    usize::from((opcode ^ (opcode >> 6)) & 0x3ff)
}
