//! The rows of loads that are kept.

ghost use Rattle.std.specs.Prelude.{◌≡◌, ◌≤◌, ◌<◌, ℕ, length, slice_index};
ghost use Rattle.plane_rows.specs.Line.{IsLineOf, Shows, three_planes};

use crate::line::Line;
use crate::row::Row;
use planes::{Loads, plane_bits};

/// The line of loads, each of its positions looked up in them.
pub fn line_of(loads: &Loads) -> Line
    ensures { IsLineOf result loads.now }
{
    Line {
        odd: row_of(loads, 1),
        even: row_of(loads, 2),
    }
}

/// The row of the planes of one parity, of which this is the first.
fn row_of(loads: &Loads, first: u8) -> Row
    requires least { 1 ≤ first }
    requires most { first ≤ 2 }
    ensures { Shows result.shown first loads.now }
{
    Row {
        shown: bytes_of(loads, first),
        end: 1024,
        paired: false,
    }
}

/// The bytes of that row.
fn bytes_of(loads: &Loads, first: u8) -> [u8; 1024]
    requires least { 1 ≤ first }
    requires most { first ≤ 2 }
    ensures bytes { (x : ℕ) → x < 1024 → slice_index result x ≡ three_planes first x loads.now }
    ensures long { length result ≡ 1024 }
{
    let mut bytes = [0; 1024];
    for x in 0..1024u16 {
        bytes[x as usize] = byte_at(loads, first, x);
    }
    bytes
}

/// What the plane and the next two of its parity show at a position, as bits 0, 2 and 4.
fn byte_at(loads: &Loads, first: u8, x: u16) -> u8
    requires least { 1 ≤ first }
    requires most { first ≤ 2 }
    ensures { result ≡ three_planes first x loads.now }
{
    let bits = plane_bits(loads, x, 6) / first;
    bits % 2 + 4 * (bits / 4 % 2) + 16 * (bits / 16 % 2)
}
