//! Moves, logic, extension, SWAP and TAS.

ghost use Rattle.std.specs.Prelude.{◌≡◌, ◌<◌, ◌+◌, ◌*◌, ◌/◌, ◌%◌};
ghost use Rattle.m68k_decode.specs.Results.{move_of, and_of, or_of, eor_of, not_of, tst_of, clr_of, ext_of, swap_of, tas_of};

use crate::size::{low_part, plain_outcome, with_sign, without_sign};
use m68k_decode::{Flags, Outcome, Size};

/// MOVE and MOVEQ: the moved value is `a`.
pub fn op_move(size: Size, a: u32, b: u32, f: Flags) -> Outcome
    ensures { result ≡ move_of size a b f }
{
    plain_outcome(size, low_part(size, a), f)
}

/// AND.
pub fn op_and(size: Size, a: u32, b: u32, f: Flags) -> Outcome
    ensures { result ≡ and_of size a b f }
{
    plain_outcome(size, low_part(size, a) & low_part(size, b), f)
}

/// OR.
pub fn op_or(size: Size, a: u32, b: u32, f: Flags) -> Outcome
    ensures { result ≡ or_of size a b f }
{
    plain_outcome(size, low_part(size, a) | low_part(size, b), f)
}

/// EOR.
pub fn op_eor(size: Size, a: u32, b: u32, f: Flags) -> Outcome
    ensures { result ≡ eor_of size a b f }
{
    plain_outcome(size, low_part(size, a) ^ low_part(size, b), f)
}

/// NOT.
pub fn op_not(size: Size, a: u32, b: u32, f: Flags) -> Outcome
    ensures { result ≡ not_of size a b f }
{
    plain_outcome(size, low_part(size, !a), f)
}

/// TST: the value is `a`.
pub fn op_tst(size: Size, a: u32, b: u32, f: Flags) -> Outcome
    ensures { result ≡ tst_of size a b f }
{
    plain_outcome(size, low_part(size, a), f)
}

/// CLR.
pub fn op_clr(size: Size, a: u32, b: u32, f: Flags) -> Outcome
    ensures { result ≡ clr_of size a b f }
{
    plain_outcome(size, 0, f)
}

/// EXT: the size is the result's, so a word is extended from a byte and a long from a word. There
/// is no EXT to a byte; at that size the byte stays as it is.
pub fn op_ext(size: Size, a: u32, b: u32, f: Flags) -> Outcome
    ensures { result ≡ ext_of size a b f }
{
    let from = match size {
        Size::Byte | Size::Word => Size::Byte,
        Size::Long => Size::Word,
    };
    let number = with_sign(from, low_part(from, a));
    plain_outcome(size, without_sign(size, number), f)
}

/// The words of a long, the low one first.
#[tactic(auto, using(crate::proofs::Words::words_joined))]
fn swap_words(long: u32) -> u32
    ensures { result ≡ long % 65536 * 65536 + long / 65536 % 65536 }
{
    (long << 16) | (long >> 16)
}

/// A byte with its top bit set.
#[tactic(auto, using(crate::proofs::Words::byte_with_top_bit))]
fn set_top_bit(byte: u32) -> u32
    requires { byte < 256 }
    ensures { result ≡ byte % 128 + 128 }
{
    byte | 0x80
}

/// SWAP: the words of a long change places. The size says nothing.
pub fn op_swap(size: Size, a: u32, b: u32, f: Flags) -> Outcome
    ensures { result ≡ swap_of size a b f }
{
    plain_outcome(Size::Long, swap_words(a), f)
}

/// TAS: a byte is tested and its top bit is set. The size says nothing.
pub fn op_tas(size: Size, a: u32, b: u32, f: Flags) -> Outcome
    ensures { result ≡ tas_of size a b f }
{
    let byte = low_part(Size::Byte, a);
    let tested = plain_outcome(Size::Byte, byte, f);
    Outcome {
        value: set_top_bit(byte),
        ..tested
    }
}
