//! Which clocks of a line a frame's picture shows.

ghost use Rattle.std.specs.Prelude.{◌≡◌, ◌≤◌, ◌<◌, ◌+◌, ℕ};
ghost use Rattle.ocs_base.specs.Systems.{is_visible};

use crate::field_place::FieldPlace;

/// So many clocks of a line that are all visible, or none of them is.
#[derive(Drop)]
pub struct Alike {
    pub count: u16,
    pub visible: bool,
}

/// The clocks of a line from a place on, at most so many, that are visible or not as the first is.
pub fn clocks_alike(from: FieldPlace, count: u16) -> Alike
    requires place { from.h + count ≤ 228 }
    requires some { 1 ≤ count }
    ensures seen { (k : ℕ) → k < result.count → is_visible from.system from.v (from.h + k)
        ≡ result.visible }
    ensures some { 1 ≤ result.count }
    ensures most { result.count ≤ count }
{
    if from.h > 226 || !from.system.shows_line(from.v) {
        return Alike {
            count,
            visible: false,
        };
    }
    if from.h < 47 {
        return Alike {
            count: count.min(47 - from.h),
            visible: false,
        };
    }
    Alike {
        count: count.min(227 - from.h),
        visible: true,
    }
}
