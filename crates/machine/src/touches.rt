//! How what an access makes touches the picture.

ghost use Rattle.std.specs.Prelude.{◌≡◌};
ghost use Rattle.serial_bands.specs.Shadows.{IsInRange};
ghost use Rattle.serial_model.specs.Made.{touch_of as touch_by};
ghost use Rattle.chip_set.specs.Chips.{CanDo};

use serial_model::{Denise, Made, Touch};

/// How what an access makes touches the picture: by a write to one of Denise's registers, or by a
/// fetch. Planes and sprites are in range where those of the access are.
#[inline(always)]
pub fn touch_of(made: &Made) -> Option<Touch>
    ensures touch { result ≡ touch_by made.now }
    ensures range { CanDo made.now → IsInRange result }
{
    match made {
        Made::Wrote { reg, word, .. } if Denise::has_register(*reg) => Some(Touch::Set {
            reg: *reg,
            word: *word,
        }),
        Made::Plane { plane, at } => Some(Touch::Plane {
            plane: *plane,
            at: *at,
        }),
        Made::Sprite { sprite, second, at } => Some(Touch::Sprite {
            sprite: *sprite,
            second: *second,
            at: *at,
        }),
        _ => None,
    }
}
