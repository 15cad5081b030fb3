//! The colour of a pixel, with sprites.

ghost use Rattle.std.specs.Prelude.{◌≡◌, ◌≤◌, ◌<◌, ◌^◌, IfSome};
ghost use Rattle.std.specs.List.{All};
ghost use Rattle.priority_ham.specs.PlaneCount.{planes_of};
ghost use Rattle.priority_ham.specs.PixelColour.{playfield_colour, shown_colour};

use crate::playfield::{colour_of, is_sprite_hidden};
use ocs_base::Colour;
use sprites::SpritePixel;

/// What is shown at a pixel, and the held colour for the next one.
#[derive(Clone, Copy, PartialEq, Eq)]
pub struct Pixel {
    /// The colour that is shown.
    pub shown: Colour,
    /// The playfields' colour, before sprites, in every mode (profile).
    pub held: Colour,
}

/// The colour of a pixel inside the display window (Hardware Reference Manual, playfields and
/// priorities).
///
/// `con0` is BPLCON0 and `con2` BPLCON2, `bits` has plane p as its bit p - 1, `spr` is the sprite in
/// front, `held` the held colour of the pixel before, and `palette` the registers COLOR00 to COLOR31.
#[tactic(auto, unfolding(crate::specs::PixelColour::shown_colour, crate::specs::PixelColour::playfield_colour))]
pub fn colour(
    con0: u16,
    con2: u16,
    bits: u8,
    spr: Option<SpritePixel>,
    held: Colour,
    palette: &[u16; 32],
) -> Pixel
    requires bits { bits < 2 ^ planes_of con0 }
    requires sprite { IfSome spr (λ s. (s.pair ≤ 3) × (s.colour ≤ 31)) }
    requires held { held.0 ≤ 4095 }
    requires palette { All (λ word. word ≤ 4095) palette.now }
    ensures shown { result.shown.0 ≡ shown_colour con0 con2 bits spr held.0 palette.now }
    ensures held { result.held.0 ≡ playfield_colour con0 con2 bits held.0 palette.now }
    ensures within { (result.shown.0 ≤ 4095) × (result.held.0 ≤ 4095) }
{
    let playfields = colour_of(con0, con2, bits, held.0, palette);
    let shown = match spr {
        Some(sprite) => {
            if is_sprite_hidden(con0, con2, bits, sprite.pair) {
                playfields
            } else {
                palette[sprite.colour as usize]
            }
        }
        None => playfields,
    };
    Pixel {
        shown: Colour(shown),
        held: Colour(playfields),
    }
}
