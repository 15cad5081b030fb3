//! Shifts. A count is taken modulo 64.

ghost use Rattle.std.specs.Prelude.{◌≡◌, ◌<◌, ◌≤◌, ◌-◌, ◌*◌, ◌/◌, ◌%◌, ◌^◌, ◌==◌, ◌↔◌, IsTrue, min};
ghost use Rattle.m68k_decode.specs.Results.{half, low, span, signed};
ghost use Rattle.m68k_decode.specs.ResultsShifts.{shift_count, shift_outcome, shifted_left, last_out_left, top_bit_changes, ChangesAtSomeStep, shifted_right};
ghost use Rattle.m68k_decode.specs.ResultsShifts.{last_out_right, shifted_right_signed, last_out_right_signed, asl_of, asr_of, lsl_of, lsr_of};

use crate::size::{bit_count, low_long, low_part, sign, with_sign, without_sign};
use m68k_decode::{Flags, Outcome, Size};

/// The number shifted to the left with all its bits kept. From a count of 32 on the size's bits are all out.
#[tactic(auto, using(crate::proofs::Shifting::wide_is))]
fn shift_wide(number: u32, count: u32) -> u64
    ensures { result ≡ number * 2 ^ min count 32 }
{
    u64::from(number) << count.min(32)
}

/// The number of the size shifted to the left.
#[tactic(auto, using(crate::proofs::Shifting::left_is))]
fn shift_left(size: Size, number: u32, count: u32) -> u32
    ensures { result ≡ shifted_left size number count }
{
    low_part(size, low_long(shift_wide(number, count)))
}

/// The bit above a width, after a shift to the left.
#[tactic(auto, using(crate::proofs::Shifting::last_within, crate::proofs::Shifting::last_beyond))]
fn bit_above(width: u32, number: u32, count: u32) -> bool
    requires { width ≤ 32 }
    ensures { result ≡ (number * 2 ^ count / 2 ^ width % 2 == 1) }
{
    count <= width && (shift_wide(number, count) >> width) & 1 == 1
}

/// The last bit out to the left.
fn last_bit_left(size: Size, number: u32, count: u32) -> bool
    ensures { result ≡ last_out_left size number count }
{
    bit_above(bit_count(size), number, count)
}

/// The half of the span of a size.
fn half_of(size: Size) -> u64
    ensures { result ≡ half size }
{
    match size {
        Size::Byte => 0x80,
        Size::Word => 0x8000,
        Size::Long => 0x8000_0000,
    }
}

/// How far a number with its top bit set is below 0.
fn magnitude(size: Size, number: u32) -> u32
    requires negative { half size ≤ number }
    requires below { number < span size }
    ensures { result ≡ span size - number }
{
    low_part(size, number.wrapping_neg())
}

/// The top bit changes at some step of a shift to the left: the number with its sign leaves the size.
#[tactic(auto, using(crate::proofs::Shifting::positive_is, crate::proofs::Shifting::negative_is))]
fn sign_changes(size: Size, number: u32, count: u32) -> bool
    requires { number < span size }
    ensures { result ≡ top_bit_changes size number count }
{
    let half = half_of(size);
    if sign(size, number) {
        shift_wide(magnitude(size, number), count) > half
    } else {
        shift_wide(number, count) >= half
    }
}

/// The number of a size shifted to the right.
fn shift_right(number: u32, count: u32) -> u32
    requires { count < 64 }
    ensures { result ≡ shifted_right number count }
{
    (u64::from(number) >> count) as u32
}

/// The last bit out to the right.
fn last_bit_right(number: u32, count: u32) -> bool
    requires { count < 64 }
    ensures { result ≡ last_out_right number count }
{
    count != 0 && (u64::from(number) >> (count - 1)) & 1 == 1
}

/// The number shifted to the right, with copies of its sign.
fn shift_right_signed(size: Size, number: i64, count: u32) -> u32
    requires { count < 64 }
    ensures { result ≡ shifted_right_signed size number count }
{
    without_sign(size, number >> count)
}

/// The last bit out to the right of a number with its sign.
fn last_bit_right_signed(size: Size, number: u32, count: u32) -> bool
    requires number { number < span size }
    requires count { count < 64 }
    ensures { result ≡ last_out_right_signed size (signed size number) count }
{
    count != 0 && shift_right_signed(size, with_sign(size, number), count - 1) & 1 == 1
}

/// The flags of a shift: C is the last bit out, X is C where the count is not 0.
fn shifted_outcome(
    size: Size,
    value: u32,
    last: bool,
    overflow: bool,
    count: u32,
    f: Flags,
) -> Outcome
    ensures { result ≡ shift_outcome size value last overflow count f }
{
    Outcome {
        value,
        flags: Flags {
            x: if count == 0 { f.x } else { last },
            n: sign(size, value),
            z: value == 0,
            v: overflow,
            c: last,
        },
    }
}

/// ASL: V is set where the top bit changed at any step.
pub fn op_asl(size: Size, a: u32, b: u32, f: Flags) -> Outcome
    ensures value { result ≡ asl_of size a b f }
    ensures step { IsTrue result.flags.v ↔ ChangesAtSomeStep size (low size a) (shift_count b) }
{
    let (number, count) = (low_part(size, a), b % 64);
    let value = shift_left(size, number, count);
    let last = last_bit_left(size, number, count);
    let overflow = sign_changes(size, number, count);
    shifted_outcome(size, value, last, overflow, count, f)
}

/// ASR.
pub fn op_asr(size: Size, a: u32, b: u32, f: Flags) -> Outcome
    ensures { result ≡ asr_of size a b f }
{
    let (number, count) = (low_part(size, a), b % 64);
    let value = shift_right_signed(size, with_sign(size, number), count);
    let last = last_bit_right_signed(size, number, count);
    shifted_outcome(size, value, last, false, count, f)
}

/// LSL.
pub fn op_lsl(size: Size, a: u32, b: u32, f: Flags) -> Outcome
    ensures { result ≡ lsl_of size a b f }
{
    let (number, count) = (low_part(size, a), b % 64);
    let value = shift_left(size, number, count);
    shifted_outcome(
        size,
        value,
        last_bit_left(size, number, count),
        false,
        count,
        f,
    )
}

/// LSR.
pub fn op_lsr(size: Size, a: u32, b: u32, f: Flags) -> Outcome
    ensures { result ≡ lsr_of size a b f }
{
    let (number, count) = (low_part(size, a), b % 64);
    let value = shift_right(number, count);
    shifted_outcome(size, value, last_bit_right(number, count), false, count, f)
}
