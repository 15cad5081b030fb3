//! The numbers of a size.

ghost use Rattle.std.specs.Prelude.{◌≡◌, ◌<◌, ◌%◌};
ghost use Rattle.m68k_decode.specs.Results.{bits, low, span, is_negative, signed, wrapped, plain};

use m68k_decode::{Flags, Outcome, Size};

/// How many bits a size has.
pub(crate) fn bit_count(size: Size) -> u32
    ensures { result ≡ bits size }
{
    match size {
        Size::Byte => 8,
        Size::Word => 16,
        Size::Long => 32,
    }
}

/// The number cut to the size.
pub fn low_part(size: Size, number: u32) -> u32
    ensures { result ≡ low size number }
{
    match size {
        Size::Byte => number & 0xff,
        Size::Word => number & 0xffff,
        Size::Long => number,
    }
}

/// The low 32 bits of a number.
pub(crate) fn low_long(number: u64) -> u32
    ensures { result ≡ number % 4294967296 }
{
    (number & 0xffff_ffff) as u32
}

/// The top bit of a number of the size is set.
pub(crate) fn sign(size: Size, number: u32) -> bool
    ensures { result ≡ is_negative size number }
{
    match size {
        Size::Byte => number >= 0x80,
        Size::Word => number >= 0x8000,
        Size::Long => number >= 0x8000_0000,
    }
}

/// A number of the size, read with a sign.
pub(crate) fn with_sign(size: Size, number: u32) -> i64
    requires { number < span size }
    ensures { result ≡ signed size number }
{
    let wide = i64::from(number);
    match size {
        Size::Byte if wide >= 0x80 => wide - 0x100,
        Size::Word if wide >= 0x8000 => wide - 0x1_0000,
        Size::Long if wide >= 0x8000_0000 => wide - 0x1_0000_0000,
        _ => wide,
    }
}

/// The low bits of a number with a sign.
pub(crate) fn without_sign(size: Size, number: i64) -> u32
    ensures { result ≡ wrapped size number }
{
    let bits = number.cast_unsigned();
    match size {
        Size::Byte => (bits & 0xff) as u32,
        Size::Word => (bits & 0xffff) as u32,
        Size::Long => (bits & 0xffff_ffff) as u32,
    }
}

/// A result whose N and Z are its own: V and C are clear, X stays.
pub(crate) fn plain_outcome(size: Size, value: u32, f: Flags) -> Outcome
    ensures { result ≡ plain size value f }
{
    Outcome {
        value,
        flags: Flags {
            n: sign(size, value),
            z: value == 0,
            v: false,
            c: false,
            ..f
        },
    }
}
