//! Rotations. A count is taken modulo 64.

ghost use Rattle.std.specs.Prelude.{◌≡◌, ◌<◌, ◌≤◌, ◌+◌, ◌*◌, ◌^◌, ◌%◌};
ghost use Rattle.m68k_decode.specs.Results.{span, low};
ghost use Rattle.m68k_decode.specs.ResultsShifts.{rotated, rotated_left, rotated_right, one_left, one_right, GoesByStep};
ghost use Rattle.m68k_decode.specs.ResultsShifts.{rotation_outcome, with_x, extended_rotation_outcome};
ghost use Rattle.m68k_decode.specs.ResultsShifts.{rol_of, ror_of, roxl_of, roxr_of};

use crate::size::{bit_count, low_long, low_part, sign};
use m68k_decode::{Flags, Outcome, Size};

/// A number of so many bits rotated to the left.
#[tactic(auto, using(crate::proofs::Rotating::rotated_is, crate::proofs::Rotating::joined_below))]
fn rotate(width: u32, number: u64, count: u32) -> u64
    requires width { width ≤ 33 }
    requires count { count ≤ width }
    requires number { number < 2 ^ width }
    ensures rotated { result ≡ rotated width count number }
    ensures below { result < 2 ^ width }
{
    let mask = (1 << width) - 1;
    ((number << count) & mask) | (number >> (width - count))
}

/// A number of the size rotated to the left.
fn rotate_left(size: Size, number: u32, count: u32) -> u32
    requires { number < span size }
    ensures { result ≡ rotated_left size number count }
{
    let width = bit_count(size);
    low_long(rotate(width, u64::from(number), count % width))
}

/// A number of the size rotated to the right.
fn rotate_right(size: Size, number: u32, count: u32) -> u32
    requires { number < span size }
    ensures { result ≡ rotated_right size number count }
{
    let width = bit_count(size);
    low_long(rotate(width, u64::from(number), width - count % width))
}

/// The flags of a rotation without X, at a last bit out.
fn rotated_outcome(size: Size, value: u32, last: bool, count: u32, f: Flags) -> Outcome
    ensures { result ≡ rotation_outcome size value last count f }
{
    Outcome {
        value,
        flags: Flags {
            n: sign(size, value),
            z: value == 0,
            v: false,
            c: count != 0 && last,
            ..f
        },
    }
}

/// ROL.
pub fn op_rol(size: Size, a: u32, b: u32, f: Flags) -> Outcome
    ensures value { result ≡ rol_of size a b f }
    ensures step { GoesByStep (rotated_left size (low size a)) (one_left size) (low size a) }
{
    let count = b % 64;
    let value = rotate_left(size, low_part(size, a), count);
    rotated_outcome(size, value, value & 1 == 1, count, f)
}

/// ROR.
pub fn op_ror(size: Size, a: u32, b: u32, f: Flags) -> Outcome
    ensures value { result ≡ ror_of size a b f }
    ensures step { GoesByStep (rotated_right size (low size a)) (one_right size) (low size a) }
{
    let count = b % 64;
    let value = rotate_right(size, low_part(size, a), count);
    rotated_outcome(size, value, sign(size, value), count, f)
}

/// X above a number of the size.
fn with_extend_bit(size: Size, number: u32, x: bool) -> u64
    requires { number < span size }
    ensures { result ≡ with_x size number x }
{
    (u64::from(x) << bit_count(size)) + u64::from(number)
}

/// What a rotation through X gives, of a number that has X above it.
fn extended_outcome(size: Size, number: u64) -> Outcome
    requires { number < 2 * span size }
    ensures { result ≡ extended_rotation_outcome size number }
{
    let value = low_part(size, low_long(number));
    let x = (number >> bit_count(size)) == 1;
    Outcome {
        value,
        flags: Flags {
            x,
            n: sign(size, value),
            z: value == 0,
            v: false,
            c: x,
        },
    }
}

/// ROXL.
pub fn op_roxl(size: Size, a: u32, b: u32, f: Flags) -> Outcome
    ensures { result ≡ roxl_of size a b f }
{
    let width = bit_count(size) + 1;
    let number = with_extend_bit(size, low_part(size, a), f.x);
    extended_outcome(size, rotate(width, number, b % 64 % width))
}

/// ROXR.
pub fn op_roxr(size: Size, a: u32, b: u32, f: Flags) -> Outcome
    ensures { result ≡ roxr_of size a b f }
{
    let width = bit_count(size) + 1;
    let number = with_extend_bit(size, low_part(size, a), f.x);
    extended_outcome(size, rotate(width, number, width - b % 64 % width))
}
