//! What the planes show of a list of loads.

ghost use Rattle.std.specs.Prelude.{◌≡◌, ◌<◌, ◌+◌, ◌*◌, ◌^◌};
ghost use Rattle.planes.specs.PlaneBit.{all_bits, plane_bit, word_bit};

use crate::load::Load;

/// The bits of the planes at a position, plane p as bit p - 1.
pub fn bits_of_planes(loads: &[Load], x: u32, count: u8) -> u8
    ensures value { result ≡ all_bits x count loads.now }
    ensures few { result < 2 ^ count }
{
    let all = odd_bits(loads, x) + 2 * even_bits(loads, x);
    if count < 6 {
        all & ((1 << count) - 1)
    } else {
        all
    }
}

/// The bits of planes 1, 3 and 5 as bits 0, 2 and 4.
fn odd_bits(loads: &[Load], x: u32) -> u8
    ensures { result ≡ plane_bit 1 x loads.now + 4 * plane_bit 3 x loads.now
        + 16 * plane_bit 5 x loads.now }
{
    let mut at = loads.len();
    while at > 0 {
        at -= 1;
        let load = &loads[at];
        if load.odd <= x {
            return three_bits(
                load.hires,
                x - load.odd,
                load.words[0],
                load.words[2],
                load.words[4],
            );
        }
    }
    0
}

/// The bits of planes 2, 4 and 6 as bits 0, 2 and 4.
fn even_bits(loads: &[Load], x: u32) -> u8
    ensures { result ≡ plane_bit 2 x loads.now + 4 * plane_bit 4 x loads.now
        + 16 * plane_bit 6 x loads.now }
{
    let mut at = loads.len();
    while at > 0 {
        at -= 1;
        let load = &loads[at];
        if load.even <= x {
            return three_bits(
                load.hires,
                x - load.even,
                load.words[1],
                load.words[3],
                load.words[5],
            );
        }
    }
    0
}

/// The bits of three words that stand at one place, as bits 0, 2 and 4.
fn three_bits(hires: bool, passed: u32, a: u16, b: u16, c: u16) -> u8
    ensures { result ≡ word_bit hires passed a + 4 * word_bit hires passed b
        + 16 * word_bit hires passed c }
{
    let place = if hires { passed } else { passed >> 1 };
    if place > 15 {
        return 0;
    }
    let below = 15 - place;
    (a >> below & 1) as u8 + 4 * (b >> below & 1) as u8 + 16 * (c >> below & 1) as u8
}
