//! The bit operations. All test the bit before they change it.

ghost use Rattle.std.specs.Prelude.{◌≡◌, ◌<◌};
ghost use Rattle.m68k_decode.specs.ResultsBits.{place, is_set, with_bit, without_bit, changed_bit, bit_outcome, btst_of, bchg_of, bclr_of, bset_of};

use crate::size::{bit_count, low_part};
use m68k_decode::{Flags, Outcome, Size};

/// The place of the bit that a number names: its remainder by the bits of the size.
fn place_of(size: Size, number: u32) -> u32
    ensures place { result ≡ place size number }
    ensures below { result < 32 }
{
    match size {
        Size::Byte => number % 8,
        Size::Word => number % 16,
        Size::Long => number % 32,
    }
}

/// The bit at a place is set.
fn is_bit_set(number: u32, place: u32) -> bool
    requires { place < 32 }
    ensures { result ≡ is_set number place }
{
    (number >> place) & 1 == 1
}

/// The number with the bit at a place set.
#[tactic(auto, using(crate::proofs::SingleBits::set_by_mask))]
fn set_bit(number: u32, place: u32) -> u32
    requires { place < 32 }
    ensures { result ≡ with_bit number place }
{
    number | (1 << place)
}

/// The number with the bit at a place clear.
#[tactic(auto, using(crate::proofs::SingleBits::cleared_by_mask))]
fn clear_bit(number: u32, place: u32) -> u32
    requires { place < 32 }
    ensures { result ≡ without_bit number place }
{
    number & !(1 << place)
}

/// The number with the bit at a place changed.
#[tactic(auto, using(crate::proofs::SingleBits::changed_by_mask))]
fn change_bit(number: u32, place: u32) -> u32
    requires { place < 32 }
    ensures { result ≡ changed_bit number place }
{
    number ^ (1 << place)
}

/// Z is the contrary of the bit before; the other flags stay.
fn test_outcome(value: u32, before: bool, f: Flags) -> Outcome
    ensures { result ≡ bit_outcome value before f }
{
    Outcome {
        value,
        flags: Flags { z: !before, ..f },
    }
}

/// BTST: the value is `a`.
pub fn op_btst(size: Size, a: u32, b: u32, f: Flags) -> Outcome
    ensures { result ≡ btst_of size a b f }
{
    let (value, place) = (low_part(size, a), place_of(size, b));
    test_outcome(value, is_bit_set(value, place), f)
}

/// BCHG.
pub fn op_bchg(size: Size, a: u32, b: u32, f: Flags) -> Outcome
    ensures { result ≡ bchg_of size a b f }
{
    let (value, place) = (low_part(size, a), place_of(size, b));
    test_outcome(change_bit(value, place), is_bit_set(value, place), f)
}

/// BCLR.
pub fn op_bclr(size: Size, a: u32, b: u32, f: Flags) -> Outcome
    ensures { result ≡ bclr_of size a b f }
{
    let (value, place) = (low_part(size, a), place_of(size, b));
    test_outcome(clear_bit(value, place), is_bit_set(value, place), f)
}

/// BSET.
pub fn op_bset(size: Size, a: u32, b: u32, f: Flags) -> Outcome
    ensures { result ≡ bset_of size a b f }
{
    let (value, place) = (low_part(size, a), place_of(size, b));
    test_outcome(set_bit(value, place), is_bit_set(value, place), f)
}
