//! Each operation at its edges. Flags are written XNZVC; the numbers are worked by hand from the rules.

mod logic_and_sums;
mod shifts_and_products;

use m68k_decode::{Flags, Outcome};

/// Flags from five bits, X first.
fn flags(xnzvc: u8) -> Flags {
    Flags {
        x: xnzvc & 0b10000 != 0,
        n: xnzvc & 0b01000 != 0,
        z: xnzvc & 0b00100 != 0,
        v: xnzvc & 0b00010 != 0,
        c: xnzvc & 0b00001 != 0,
    }
}

/// Whether an outcome has this value and these flags.
fn gives(got: Outcome, value: u32, xnzvc: u8) -> bool {
    got.value == value && got.flags == flags(xnzvc)
}
