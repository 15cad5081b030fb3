//! Sums, differences and comparisons.

ghost use Rattle.std.specs.Prelude.{◌≡◌, ◌<◌};
ghost use Rattle.m68k_decode.specs.Results.{span};
ghost use Rattle.m68k_decode.specs.ResultsSums.{sum, sum_carries, sum_overflows, sum_of, difference, difference_borrows, difference_overflows};
ghost use Rattle.m68k_decode.specs.ResultsSums.{difference_of, checked, add_of, sub_of, neg_of, cmp_of, addx_of, subx_of, negx_of, chk_of};

use crate::size::{low_part, sign, with_sign};
use m68k_decode::{Flags, Outcome, Size};

/// The low bits of a sum.
fn sum_low(size: Size, a: u32, b: u32, extend: bool) -> u32
    requires left { a < span size }
    requires right { b < span size }
    ensures { result ≡ sum size a b extend }
{
    low_part(size, a.wrapping_add(b).wrapping_add(u32::from(extend)))
}

/// A sum leaves the size: its low bits are below what it was made of.
fn sum_leaves(size: Size, a: u32, b: u32, extend: bool, value: u32) -> bool
    requires left { a < span size }
    requires right { b < span size }
    requires value { value ≡ sum size a b extend }
    ensures { result ≡ sum_carries size a b extend }
{
    value < a || (extend && value == a)
}

/// A sum of numbers with signs leaves the size: two of one sign give the other.
fn sum_changes_sign(size: Size, a: u32, b: u32, extend: bool, value: u32) -> bool
    requires left { a < span size }
    requires right { b < span size }
    requires value { value ≡ sum size a b extend }
    ensures { result ≡ sum_overflows size a b extend }
{
    let negative = sign(size, a);
    negative == sign(size, b) && negative != sign(size, value)
}

/// The sum of two numbers of the size and the extend bit. `zero`: Z may be set.
fn add_with_carry(size: Size, a: u32, b: u32, extend: bool, zero: bool) -> Outcome
    requires left { a < span size }
    requires right { b < span size }
    ensures { result ≡ sum_of size a b extend zero }
{
    let value = sum_low(size, a, b, extend);
    let carry = sum_leaves(size, a, b, extend, value);
    Outcome {
        value,
        flags: Flags {
            x: carry,
            n: sign(size, value),
            z: zero && value == 0,
            v: sum_changes_sign(size, a, b, extend, value),
            c: carry,
        },
    }
}

/// The low bits of a difference.
fn difference_low(size: Size, a: u32, b: u32, extend: bool) -> u32
    requires left { a < span size }
    requires right { b < span size }
    ensures { result ≡ difference size a b extend }
{
    low_part(size, a.wrapping_sub(b).wrapping_sub(u32::from(extend)))
}

/// A difference is below 0.
fn borrows(a: u32, b: u32, extend: bool) -> bool
    ensures { result ≡ difference_borrows a b extend }
{
    a < b || (extend && a == b)
}

/// A difference of numbers with signs leaves the size: two of different signs give that of the second.
fn difference_changes_sign(size: Size, a: u32, b: u32, extend: bool, value: u32) -> bool
    requires left { a < span size }
    requires right { b < span size }
    requires value { value ≡ difference size a b extend }
    ensures { result ≡ difference_overflows size a b extend }
{
    let negative = sign(size, a);
    negative != sign(size, b) && negative != sign(size, value)
}

/// What is left of a number of the size without another and the extend bit. `zero`: Z may be set.
fn subtract_with_borrow(size: Size, a: u32, b: u32, extend: bool, zero: bool) -> Outcome
    requires left { a < span size }
    requires right { b < span size }
    ensures { result ≡ difference_of size a b extend zero }
{
    let value = difference_low(size, a, b, extend);
    let borrow = borrows(a, b, extend);
    Outcome {
        value,
        flags: Flags {
            x: borrow,
            n: sign(size, value),
            z: zero && value == 0,
            v: difference_changes_sign(size, a, b, extend, value),
            c: borrow,
        },
    }
}

/// ADD, ADDI and ADDQ.
#[inline(always)]
pub fn op_add(size: Size, a: u32, b: u32, f: Flags) -> Outcome
    ensures { result ≡ add_of size a b f }
{
    add_with_carry(size, low_part(size, a), low_part(size, b), false, true)
}

/// SUB, SUBI and SUBQ.
#[inline(always)]
pub fn op_sub(size: Size, a: u32, b: u32, f: Flags) -> Outcome
    ensures { result ≡ sub_of size a b f }
{
    subtract_with_borrow(size, low_part(size, a), low_part(size, b), false, true)
}

/// NEG.
pub fn op_neg(size: Size, a: u32, b: u32, f: Flags) -> Outcome
    ensures { result ≡ neg_of size a b f }
{
    subtract_with_borrow(size, 0, low_part(size, a), false, true)
}

/// CMP, CMPA, CMPI and CMPM: the value is `a`.
#[inline(always)]
pub fn op_cmp(size: Size, a: u32, b: u32, f: Flags) -> Outcome
    ensures { result ≡ cmp_of size a b f }
{
    let difference = op_sub(size, a, b, f);
    Outcome {
        value: low_part(size, a),
        flags: Flags {
            x: f.x,
            ..difference.flags
        },
    }
}

/// ADDX: Z is cleared where the result is not 0, and stays elsewhere.
pub fn op_addx(size: Size, a: u32, b: u32, f: Flags) -> Outcome
    ensures { result ≡ addx_of size a b f }
{
    add_with_carry(size, low_part(size, a), low_part(size, b), f.x, f.z)
}

/// SUBX, with Z as in ADDX.
pub fn op_subx(size: Size, a: u32, b: u32, f: Flags) -> Outcome
    ensures { result ≡ subx_of size a b f }
{
    subtract_with_borrow(size, low_part(size, a), low_part(size, b), f.x, f.z)
}

/// NEGX, with Z as in ADDX.
pub fn op_negx(size: Size, a: u32, b: u32, f: Flags) -> Outcome
    ensures { result ≡ negx_of size a b f }
{
    subtract_with_borrow(size, 0, low_part(size, a), f.x, f.z)
}

/// What CHK makes of N.
fn checked_sign(value: i64, bound: i64, n: bool) -> bool
    ensures { result ≡ checked value bound n }
{
    if value < 0 { true } else { n && value <= bound }
}

/// CHK: words are compared, `b` being the bound, and the value is `a`. The size says nothing. N is
/// set below 0 and cleared above the bound, and it and the other flags stay where the value is good
/// (profile).
pub fn op_chk(size: Size, a: u32, b: u32, f: Flags) -> Outcome
    ensures { result ≡ chk_of size a b f }
{
    let value = low_part(Size::Word, a);
    let number = with_sign(Size::Word, value);
    let bound = with_sign(Size::Word, low_part(Size::Word, b));
    Outcome {
        value,
        flags: Flags {
            n: checked_sign(number, bound, f.n),
            ..f
        },
    }
}
