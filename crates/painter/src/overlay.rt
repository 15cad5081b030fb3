//! A sprite over a pixel of the playfields.

ghost use Rattle.std.specs.Prelude.{◌≡◌, ◌≤◌, ◌<◌, [], Some, slice_index_or, slice_set};
ghost use Rattle.painter.specs.Inks.{counted_bits};
ghost use Rattle.painter.specs.code.Overlay.{with_front};

use crate::inks::Inks;
use sprites::SpritePixel;

/// The sprite in front over a pixel inside the display window, whose six planes have these bits: its
/// colour is shown if the playfields do not hide it.
#[inline(always)]
pub fn cover(inks: &Inks, sprite: SpritePixel, bits: usize, at: usize, into: &mut [[u8; 3]; 4])
    requires place { at ≤ 3 }
    requires colour { sprite.colour ≤ 31 }
    requires pair { sprite.pair ≤ 3 }
    requires planes { bits < 64 }
    ensures { into.new ≡ slice_set into.old at (with_front inks.now.con0 inks.now.con2
        (counted_bits inks.now.con0 bits)
        (Some sprite) (slice_index_or into.old at []) inks.now.palette) }
{
    if !inks.hides(bits, sprite.pair) {
        into[at] = inks.bytes(sprite.colour);
    }
}
