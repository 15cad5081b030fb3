//! Multiplication and division: words to a long, and a long by a word.

ghost use Rattle.std.specs.Prelude.{◌≡◌, ◌<◌, ◌≢◌, ◌*ℤ◌, int_div, int_rem};
ghost use Rattle.m68k_decode.specs.Results.{low, signed, is_signed, wrapped};
ghost use Rattle.m68k_decode.specs.ResultsProducts.{divided, not_divided, mulu_of, muls_of, divu_of, divs_of};

use crate::size::{low_part, plain_outcome, sign, with_sign, without_sign};
use m68k_decode::{Flags, Outcome, Size};

/// MULU: a product of two words. The size says nothing.
pub fn op_mulu(size: Size, a: u32, b: u32, f: Flags) -> Outcome
    ensures { result ≡ mulu_of size a b f }
{
    plain_outcome(
        Size::Long,
        low_part(Size::Word, a) * low_part(Size::Word, b),
        f,
    )
}

/// The product of two words with signs.
fn signed_product(a: u32, b: u32) -> u32
    requires left { a < 65536 }
    requires right { b < 65536 }
    ensures { result ≡ wrapped Size.Long (signed Size.Word a *ℤ signed Size.Word b) }
{
    let product = with_sign(Size::Word, a) * with_sign(Size::Word, b);
    without_sign(Size::Long, product)
}

/// MULS: a product of two words with signs. The size says nothing.
pub fn op_muls(size: Size, a: u32, b: u32, f: Flags) -> Outcome
    ensures { result ≡ muls_of size a b f }
{
    let product = signed_product(low_part(Size::Word, a), low_part(Size::Word, b));
    plain_outcome(Size::Long, product, f)
}

/// The quotient in the low word and the remainder in the high word.
fn divided_outcome(quotient: u32, remainder: u32, f: Flags) -> Outcome
    requires quotient { quotient < 65536 }
    requires remainder { remainder < 65536 }
    ensures { result ≡ divided quotient remainder f }
{
    Outcome {
        value: (remainder << 16) | quotient,
        flags: Flags {
            n: sign(Size::Word, quotient),
            z: quotient == 0,
            v: false,
            c: false,
            ..f
        },
    }
}

/// The quotient is no word: V is set, C is clear, the value and the other flags stay.
fn overflow_outcome(a: u32, f: Flags) -> Outcome
    ensures { result ≡ not_divided a f }
{
    Outcome {
        value: a,
        flags: Flags {
            v: true,
            c: false,
            ..f
        },
    }
}

/// DIVU: a long by a word, the low one of `b`, which is not 0. The size says nothing. On overflow
/// the value is `a`.
#[tactic(auto, unfolding(m68k_decode::specs::ResultsProducts::divu_of))]
pub fn op_divu(size: Size, a: u32, b: u32, f: Flags) -> Outcome
    requires { low Size.Word b ≢ 0 }
    ensures { result ≡ divu_of size a b f }
{
    let divisor = low_part(Size::Word, b);
    let quotient = a / divisor;
    if quotient <= 0xffff {
        divided_outcome(quotient, a % divisor, f)
    } else {
        overflow_outcome(a, f)
    }
}

/// The quotient of a long by a word, both with signs, rounded toward 0.
fn signed_quotient(a: u32, b: u32) -> i64
    requires divisor { b ≢ 0 }
    requires below { b < 65536 }
    ensures { result ≡ int_div (signed Size.Long a) (signed Size.Word b) }
{
    with_sign(Size::Long, a) / with_sign(Size::Word, b)
}

/// The remainder of that quotient, with the sign of the long.
fn signed_remainder(a: u32, b: u32) -> u32
    requires divisor { b ≢ 0 }
    requires below { b < 65536 }
    ensures { result ≡ wrapped Size.Word (int_rem (signed Size.Long a) (signed Size.Word b)) }
{
    without_sign(
        Size::Word,
        with_sign(Size::Long, a) % with_sign(Size::Word, b),
    )
}

/// A number with a sign is a word.
fn is_word(number: i64) -> bool
    ensures { result ≡ is_signed Size.Word number }
{
    (-0x8000..0x8000).contains(&number)
}

/// DIVS: DIVU with signs; the remainder has the sign of the long.
#[tactic(auto, unfolding(m68k_decode::specs::ResultsProducts::divs_of))]
pub fn op_divs(size: Size, a: u32, b: u32, f: Flags) -> Outcome
    requires { low Size.Word b ≢ 0 }
    ensures { result ≡ divs_of size a b f }
{
    let divisor = low_part(Size::Word, b);
    let quotient = signed_quotient(a, divisor);
    if is_word(quotient) {
        divided_outcome(
            without_sign(Size::Word, quotient),
            signed_remainder(a, divisor),
            f,
        )
    } else {
        overflow_outcome(a, f)
    }
}
