//! The playfields' pixel: its colour, and the sprites that it hides.

ghost use Rattle.std.specs.Prelude.{◌≡◌, ◌≤◌, ◌<◌, ◌^◌, ◌==◌, not, if◌then◌else◌};
ghost use Rattle.std.specs.List.{All};
ghost use Rattle.priority_ham.specs.PlaneCount.{planes_of, is_set};
ghost use Rattle.priority_ham.specs.PixelColour.{colour_in, mode_of, value_of_one, value_of_two, dual_number, hides, modified, half_brite};

use crate::planes::plane_count;

/// The playfields' colour.
pub fn colour_of(con0: u16, con2: u16, bits: u8, held: u16, palette: &[u16; 32]) -> u16
    requires bits { bits < 2 ^ planes_of con0 }
    requires held { held ≤ 4095 }
    requires palette { All (λ word. word ≤ 4095) palette.now }
    ensures value { result ≡ colour_in (mode_of con0) con2 bits held palette.now }
    ensures few { result ≤ 4095 }
{
    if con0 >> 10 & 1 == 1 {
        palette[number_of_two(con2, bits) as usize]
    } else if con0 >> 15 & 1 == 1 {
        palette[bits as usize]
    } else if con0 >> 11 & 1 == 1 {
        modify(bits, held, palette)
    } else if plane_count(con0) == 6 {
        halve(bits, palette)
    } else {
        palette[bits as usize]
    }
}

/// Whether the playfields hide a pixel of a pair of sprites, 0 to 3 (Hardware Reference Manual,
/// priorities).
///
/// `con0` is BPLCON0 and `con2` BPLCON2, `bits` has plane p as its bit p - 1, of as many planes as
/// BPLCON0 says. A pair is hidden where the playfield that is chosen has a value that is not 0 and
/// a priority code that is not above the pair; codes 5 to 7 count as 4 (profile).
pub fn is_sprite_hidden(con0: u16, con2: u16, bits: u8, pair: u8) -> bool
    ensures { result ≡ hides con0 con2 bits pair }
{
    let code_of_one = (con2 & 7) as u8;
    let code_of_two = (con2 >> 3 & 7) as u8;
    if con0 >> 10 & 1 == 0 {
        return bits != 0 && code_of_two.min(4) <= pair;
    }
    let (one, two) = values(bits);
    if is_second(con2, one, two) {
        two != 0 && code_of_two.min(4) <= pair
    } else {
        one != 0 && code_of_one.min(4) <= pair
    }
}

/// The values of two playfields.
fn values(bits: u8) -> (u8, u8)
    ensures one { result.0 ≡ value_of_one bits }
    ensures two { result.1 ≡ value_of_two bits }
    ensures few { (result.0 ≤ 7) × (result.1 ≤ 7) }
{
    let one = (bits & 1) + 2 * (bits >> 2 & 1) + 4 * (bits >> 4 & 1);
    let two = (bits >> 1 & 1) + 2 * (bits >> 3 & 1) + 4 * (bits >> 5 & 1);
    (one, two)
}

/// Whether playfield 2 is chosen of two playfields with these values.
fn is_second(con2: u16, one: u8, two: u8) -> bool
    ensures { result ≡ (if is_set 6 con2 then not (two == 0) else (one == 0)) }
{
    if con2 >> 6 & 1 == 1 {
        two != 0
    } else {
        one == 0
    }
}

/// The number of the colour that two playfields name.
fn number_of_two(con2: u16, bits: u8) -> u8
    ensures value { result ≡ dual_number con2 bits }
    ensures few { result ≤ 15 }
{
    let (one, two) = values(bits);
    if !is_second(con2, one, two) {
        one
    } else if two == 0 {
        0
    } else {
        8 + two
    }
}

/// Hold and modify.
fn modify(bits: u8, held: u16, palette: &[u16; 32]) -> u16
    requires bits { bits < 64 }
    requires held { held ≤ 4095 }
    requires palette { All (λ word. word ≤ 4095) palette.now }
    ensures value { result ≡ modified bits held palette.now }
    ensures few { result ≤ 4095 }
{
    let low = (bits & 15) as u16;
    match bits >> 4 & 3 {
        0 => palette[low as usize],
        1 => (held & 0xff0) + low,
        2 => (held & 0xff) + (low << 8),
        _ => (held & 0xf00) + (low << 4) + (held & 0xf),
    }
}

/// Extra half-brite.
fn halve(bits: u8, palette: &[u16; 32]) -> u16
    requires palette { All (λ word. word ≤ 4095) palette.now }
    ensures value { result ≡ half_brite bits palette.now }
    ensures few { result ≤ 4095 }
{
    let named = palette[(bits & 31) as usize];
    if bits >> 5 & 1 == 0 {
        return named;
    }
    ((named >> 9) << 8) + ((named >> 5 & 7) << 4) + (named >> 1 & 7)
}
