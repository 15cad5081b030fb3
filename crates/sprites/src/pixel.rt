//! The sprite in front.

ghost use Rattle.std.specs.Prelude.{◌≡◌, ◌≤◌, ◌<◌, ◌+◌, IfSome};
ghost use Rattle.std.specs.List.{All};
ghost use Rattle.sprites.specs.SpriteFront.{pixel_of, pair_pixel, front_pixel};

/// A visible pixel of a pair of sprites.
#[derive(Clone, Copy, PartialEq, Eq)]
pub struct SpritePixel {
    /// The pair, 0 to 3, of sprites 2p and 2p + 1.
    pub pair: u8,
    /// The number of its colour, 17 to 31.
    pub colour: u8,
}

/// The pixel of the sprite in front, None where no sprite shows.
///
/// `values` are the values of the eight sprites, and bit p of `attached`, p from 0 to 3, says that
/// pair p is attached (bit 7 of SPRnCTL of its odd sprite).
#[tactic(auto, unfolding(crate::specs::SpriteFront::front_pixel))]
pub fn front(values: &[u8; 8], attached: u8) -> Option<SpritePixel>
    requires { All (λ v. v ≤ 3) values.now }
    ensures value { result ≡ front_pixel values.now attached }
    ensures within { IfSome result (λ s. (s.pair ≤ 3) × (s.colour ≤ 31)) }
{
    let low = pair_in_front(values, attached, 0).or(pair_in_front(values, attached, 1));
    let high = pair_in_front(values, attached, 2).or(pair_in_front(values, attached, 3));
    low.or(high)
}

/// The pixel of a pair, whose even sprite is in front of its odd one where they are not attached.
fn pair_in_front(values: &[u8; 8], attached: u8, pair: u8) -> Option<SpritePixel>
    requires values { All (λ v. v ≤ 3) values.now }
    requires pair { pair < 4 }
    ensures value { result ≡ pair_pixel values.now attached pair }
    ensures within { IfSome result (λ s. (s.pair ≡ pair) × (s.colour ≤ 31)) }
{
    let even = values[2 * pair as usize];
    let odd = values[2 * pair as usize + 1];
    if (attached >> pair) & 1 == 1 {
        return visible(pair, 16, 4 * odd + even);
    }
    if even != 0 {
        return visible(pair, 16 + 4 * pair, even);
    }
    visible(pair, 16 + 4 * pair, odd)
}

/// The pixel with a value, of which 0 is transparent.
fn visible(pair: u8, first: u8, value: u8) -> Option<SpritePixel>
    requires { first + value < 256 }
    ensures value { result ≡ pixel_of pair first value }
    ensures within { IfSome result (λ s. (s.pair ≡ pair) × (s.colour ≡ first + value)) }
{
    if value == 0 {
        return None;
    }
    Some(SpritePixel {
        pair,
        colour: first + value,
    })
}
