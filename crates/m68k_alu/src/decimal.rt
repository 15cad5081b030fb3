//! The decimal operations, on bytes of two digits.

ghost use Rattle.std.specs.Prelude.{◌≡◌, ◌<◌};
ghost use Rattle.m68k_decode.specs.ResultsDecimal.{decimal, digits_adjusted, less, less_adjusted, abcd_of, sbcd_of, nbcd_of};

use crate::size::{low_part, without_sign};
use m68k_decode::{Flags, Outcome, Size};

/// A decimal result: the carry is C and X, Z can only be cleared, N and V stay.
fn decimal_outcome(value: u32, carry: bool, f: Flags) -> Outcome
    ensures { result ≡ decimal value carry f }
{
    Outcome {
        value,
        flags: Flags {
            x: carry,
            z: f.z && value == 0,
            c: carry,
            ..f
        },
    }
}

/// The sum of two bytes, with its low digit made decimal.
fn adjusted_sum(a: u32, b: u32, extend: bool) -> u32
    requires left { a < 256 }
    requires right { b < 256 }
    ensures { result ≡ digits_adjusted a b extend }
{
    let extend = u32::from(extend);
    let sum = a + b + extend;
    if (a & 0xf) + (b & 0xf) + extend > 9 {
        sum + 6
    } else {
        sum
    }
}

/// ABCD. The size says nothing.
pub fn op_abcd(size: Size, a: u32, b: u32, f: Flags) -> Outcome
    ensures { result ≡ abcd_of size a b f }
{
    let sum = adjusted_sum(low_part(Size::Byte, a), low_part(Size::Byte, b), f.x);
    let carry = sum > 0x9f;
    let adjusted = if carry { sum + 0x60 } else { sum };
    decimal_outcome(adjusted & 0xff, carry, f)
}

/// The difference of two numbers and X.
fn less(a: u32, b: u32, extend: bool) -> i64
    requires left { a < 256 }
    requires right { b < 256 }
    ensures { result ≡ less a b extend }
{
    i64::from(a) - i64::from(b) - i64::from(extend)
}

/// The difference of two bytes, with its low digit made decimal.
fn adjusted_difference(a: u32, b: u32, extend: bool) -> i64
    requires left { a < 256 }
    requires right { b < 256 }
    ensures { result ≡ less_adjusted a b extend }
{
    let difference = less(a, b, extend);
    if less(a & 0xf, b & 0xf, extend) < 0 {
        difference - 6
    } else {
        difference
    }
}

/// SBCD. The size says nothing.
pub fn op_sbcd(size: Size, a: u32, b: u32, f: Flags) -> Outcome
    ensures { result ≡ sbcd_of size a b f }
{
    let (from, taken) = (low_part(Size::Byte, a), low_part(Size::Byte, b));
    let borrow = less(from, taken, f.x) < 0;
    let difference = adjusted_difference(from, taken, f.x);
    let adjusted = if borrow {
        difference - 0x60
    } else {
        difference
    };
    decimal_outcome(without_sign(Size::Byte, adjusted), borrow, f)
}

/// NBCD: 0 less the operand, in decimal digits. The size says nothing.
pub fn op_nbcd(size: Size, a: u32, b: u32, f: Flags) -> Outcome
    ensures { result ≡ nbcd_of size a b f }
{
    op_sbcd(size, 0, a, f)
}
