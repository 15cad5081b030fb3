//! Minterms: three words joined bit by bit.

ghost use Rattle.std.specs.Prelude.{◌≡◌, ◌<◌};
ghost use Rattle.blit_words.specs.BlitWords.{minterm_of};
ghost use Rattle.blit_words.specs.Choice.{chosen, chosen_by_c, everywhere_of, IsChoice};

use crate::fields::is_set;

/// A choice by the bits of C: a bit of `clear` where C has a 0, and that bit turned over by one of
/// `turn` where C has a 1.
#[derive(Clone, Copy)]
struct Choice {
    clear: u16,
    turn: u16,
}

impl Choice {
    /// The two bits of LF from a place on, an even number.
    fn at(lf: u16, place: u16) -> Choice
        requires { place < 15 }
        ensures { IsChoice lf place result.clear result.turn }
    {
        let clear = everywhere(lf, place);
        Choice {
            clear,
            turn: everywhere(lf, place + 1) ^ clear,
        }
    }

    /// The chosen bits.
    #[inline(always)]
    fn by(&self, c: u16) -> u16
        ensures { result ≡ chosen_by_c self.now.clear self.now.turn c }
    {
        self.clear ^ c & self.turn
    }
}

/// LF, the byte of minterms in BLTCON0, made ready for many words: what C chooses for each pair of
/// bits of A and B.
#[derive(Clone, Copy)]
pub struct Minterms {
    pub lf: u16,
    neither: Choice,
    b_alone: Choice,
    a_alone: Choice,
    both: Choice,
    ghost neither_is: { IsChoice lf 0 neither.clear neither.turn },
    ghost b_alone_is: { IsChoice lf 2 b_alone.clear b_alone.turn },
    ghost a_alone_is: { IsChoice lf 4 a_alone.clear a_alone.turn },
    ghost both_is: { IsChoice lf 6 both.clear both.turn },
}

impl Minterms {
    /// The minterms of a byte.
    pub fn of(lf: u16) -> Minterms
        ensures { result.lf ≡ lf }
    {
        Minterms {
            lf,
            neither: Choice::at(lf, 0),
            b_alone: Choice::at(lf, 2),
            a_alone: Choice::at(lf, 4),
            both: Choice::at(lf, 6),
        }
    }

    /// Three words joined: each bit is the one of LF at 4a + 2b + c.
    pub fn join(&self, a: u16, b: u16, c: u16) -> u16
        ensures { result ≡ minterm_of self.now.lf a b c }
    {
        let low = choose(b, self.b_alone.by(c), self.neither.by(c));
        let high = choose(b, self.both.by(c), self.a_alone.by(c));
        choose(a, high, low)
    }
}

/// The bits of `set` where `by` has a 1, and of `clear` where it has a 0.
#[tactic(auto, using(crate::proofs::Choices::chosen_is))]
fn choose(by: u16, set: u16, clear: u16) -> u16
    ensures { result ≡ chosen by set clear }
{
    clear ^ by & (set ^ clear)
}

/// A bit of LF in all sixteen places.
#[tactic(auto, unfolding(crate::specs::Choice::everywhere_of))]
fn everywhere(lf: u16, place: u16) -> u16
    requires { place < 16 }
    ensures { result ≡ everywhere_of lf place }
{
    if is_set(lf, place) { 0xffff } else { 0 }
}
