//! Fill: the bits between the edges of a row.

ghost use Rattle.std.specs.Prelude.{◌≡◌, ◌+◌, ◌<◌, true, count_ones};
ghost use Rattle.blit_words.specs.BlitWords.{filled_word, one_if};
ghost use Rattle.blit_words.specs.Parity.{parities_in, is_carry};

/// A word filled from its bit 0 upwards, and the carry after it, with the carry before it. In
/// exclusive mode a bit becomes carry XOR bit and an area loses its left edge; in inclusive mode it
/// becomes carry OR bit.
#[tactic(auto, using(crate::proofs::Filling::inclusive_is, crate::proofs::Filling::carry_is))]
pub fn fill_word(exclusive: bool, carry: bool, word: u16) -> (u16, bool)
    ensures filled { result.0 ≡ filled_word exclusive (one_if carry) word }
    ensures carry { result.1 ≡ is_carry (one_if carry + count_ones word) }
{
    let odd = exclusive_fill(carry, word);
    let filled = if exclusive { odd } else { odd | word };
    (filled, odd >> 15 == 1)
}

/// The exclusive fill: the parity of the bits up to each, turned over where there is a carry.
#[tactic(auto, using(crate::proofs::Filling::without_carry, crate::proofs::Filling::with_carry))]
fn exclusive_fill(carry: bool, word: u16) -> u16
    ensures { result ≡ filled_word true (one_if carry) word }
{
    let odd = parities_of(word);
    if carry { !odd } else { odd }
}

/// A bit for each bit of a word: whether the number of 1 bits up to and with it is odd.
#[tactic(auto, using(crate::proofs::Parities::parities_is))]
fn parities_of(word: u16) -> u16
    ensures { result ≡ parities_in word }
{
    let of_2 = word ^ word << 1;
    let of_4 = of_2 ^ of_2 << 2;
    let of_8 = of_4 ^ of_4 << 4;
    of_8 ^ of_8 << 8
}
