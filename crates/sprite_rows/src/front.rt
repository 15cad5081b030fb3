//! The sprite in front, from the bytes of the four pairs.

ghost use Rattle.std.specs.Prelude.{◌≡◌, ◌≤◌, ◌+◌, ℕ, IfSome, slice_index};
ghost use Rattle.sprite_rows.specs.PairFront.{colour_of_byte, front_of_bytes};

use sprites::SpritePixel;

/// The pixel of the first pair whose byte is not 0, since lower-numbered sprites are in front.
#[inline(always)]
pub fn pixel_in_front(a: u8, b: u8, c: u8, d: u8, attached: u8) -> Option<SpritePixel>
    requires a { a ≤ 15 }
    requires b { b ≤ 15 }
    requires c { c ≤ 15 }
    requires d { d ≤ 15 }
    ensures value { result ≡ front_of_bytes a b c d attached }
    ensures within { IfSome result (λ s. (s.pair ≤ 3) × (s.colour ≤ 31)) }
{
    if a | b | c | d == 0 {
        None
    } else if a != 0 {
        Some(pair_pixel(0, a, attached))
    } else if b != 0 {
        Some(pair_pixel(1, b, attached))
    } else if c != 0 {
        Some(pair_pixel(2, c, attached))
    } else {
        Some(pair_pixel(3, d, attached))
    }
}

/// The pixel of a pair whose byte is not 0. Attached sprites have the colours 16 to 31 by the byte;
/// else a pair has four colours, and its even sprite is in front.
#[inline(always)]
pub fn pair_pixel(pair: u8, byte: u8, attached: u8) -> SpritePixel
    requires pair { pair ≤ 3 }
    requires byte { byte ≤ 15 }
    ensures pair { result.pair ≡ pair }
    ensures colour { result.colour ≡ colour_of_byte pair byte attached }
    ensures within { result.colour ≤ 31 }
{
    let even = byte % 4;
    let colour = if (attached >> pair) & 1 == 1 {
        16 + byte
    } else if even != 0 {
        16 + 4 * pair + even
    } else {
        16 + 4 * pair + byte / 4
    };
    SpritePixel { pair, colour }
}

/// The numbers of the colours of a pair's pixels by its bytes, of which that of 0 is never shown.
pub fn pair_colours(pair: u8, attached: u8) -> [u8; 16]
    requires { pair ≤ 3 }
    ensures value { (byte : ℕ) → byte ≤ 15
        → slice_index result byte ≡ colour_of_byte pair byte attached }
    ensures few { (byte : ℕ) → slice_index result byte ≤ 31 }
{
    if (attached >> pair) & 1 == 1 {
        return [
            16, 17, 18, 19, 20, 21, 22, 23, 24, 25, 26, 27, 28, 29, 30, 31,
        ];
    }
    let none = 16 + 4 * pair;
    let one = none + 1;
    let two = none + 2;
    let three = none + 3;
    [
        none, one, two, three, one, one, two, three, two, one, two, three, three, one, two, three,
    ]
}
