//! The bits of three words of bitplanes, spread over the positions that show them.

ghost use Rattle.std.specs.Prelude.{◌≡◌, ◌+◌, ◌*◌, ◌/◌, ◌%◌, ◌∷◌, [], flat_map, true};
ghost use Rattle.plane_rows.specs.code.Words.{three_last, spread_bits};

use crate::once::bits_once;
use crate::twice::{bits_twice, upper_bits};

/// What 32 positions from their start on show of the words of three planes of one parity: the
/// words' bits are bits 0, 2 and 4 of a byte.
#[inline(always)]
pub fn spread(hires: bool, a: u16, b: u16, c: u16) -> [[u8; 8]; 4]
    ensures { flat_map (λ eight. eight) result ≡ spread_bits hires a b c }
{
    if hires {
        spread_once(a, b, c)
    } else {
        [
            upper_twice(a / 0x100, b / 0x100, c / 0x100),
            bytes_twice(a / 0x100, b / 0x100, c / 0x100),
            upper_twice(a, b, c),
            bytes_twice(a, b, c),
        ]
    }
}

/// What they show of such words in high resolution. Where the last of them is blank it is not looked up.
#[inline(always)]
fn spread_once(a: u16, b: u16, c: u16) -> [[u8; 8]; 4]
    ensures { flat_map (λ eight. eight) result ≡ spread_bits true a b c }
{
    if c == 0 {
        [
            two_once(a / 0x100, b / 0x100),
            two_once(a, b),
            [0; 8],
            [0; 8],
        ]
    } else {
        [
            bytes_once(a / 0x100, b / 0x100, c / 0x100),
            bytes_once(a, b, c),
            [0; 8],
            [0; 8],
        ]
    }
}

/// The four bits before the last four of each word, for two positions each.
#[inline(always)]
fn upper_twice(a: u16, b: u16, c: u16) -> [u8; 8]
    ensures { result ≡ three_last 3 (a / 16) (b / 16) (c / 16)
        ∷ three_last 3 (a / 16) (b / 16) (c / 16) ∷ three_last 2 (a / 16) (b / 16) (c / 16)
        ∷ three_last 2 (a / 16) (b / 16) (c / 16) ∷ three_last 1 (a / 16) (b / 16) (c / 16)
        ∷ three_last 1 (a / 16) (b / 16) (c / 16) ∷ three_last 0 (a / 16) (b / 16) (c / 16)
        ∷ three_last 0 (a / 16) (b / 16) (c / 16) ∷ [] }
{
    (upper_bits(a) + 4 * upper_bits(b) + 16 * upper_bits(c)).to_le_bytes()
}

/// The last four bits of each word, for two positions each.
fn bytes_twice(a: u16, b: u16, c: u16) -> [u8; 8]
    ensures { result ≡ three_last 3 a b c ∷ three_last 3 a b c ∷ three_last 2 a b c
        ∷ three_last 2 a b c ∷ three_last 1 a b c ∷ three_last 1 a b c
        ∷ three_last 0 a b c ∷ three_last 0 a b c ∷ [] }
{
    (bits_twice(a) + 4 * bits_twice(b) + 16 * bits_twice(c)).to_le_bytes()
}

/// The last eight bits of two words, for a position each.
#[inline(always)]
fn two_once(a: u16, b: u16) -> [u8; 8]
    ensures { result ≡ three_last 7 a b 0 ∷ three_last 6 a b 0 ∷ three_last 5 a b 0
        ∷ three_last 4 a b 0 ∷ three_last 3 a b 0 ∷ three_last 2 a b 0
        ∷ three_last 1 a b 0 ∷ three_last 0 a b 0 ∷ [] }
{
    (bits_once(a) + 4 * bits_once(b)).to_le_bytes()
}

/// The last eight bits of each word, for a position each.
#[inline(always)]
fn bytes_once(a: u16, b: u16, c: u16) -> [u8; 8]
    ensures { result ≡ three_last 7 a b c ∷ three_last 6 a b c ∷ three_last 5 a b c
        ∷ three_last 4 a b c ∷ three_last 3 a b c ∷ three_last 2 a b c
        ∷ three_last 1 a b c ∷ three_last 0 a b c ∷ [] }
{
    (bits_once(a) + 4 * bits_once(b) + 16 * bits_once(c)).to_le_bytes()
}
