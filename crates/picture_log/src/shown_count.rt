//! How many pixel bytes a run has shown, by the place of the beam.

ghost use Rattle.std.specs.Prelude.{◌≡◌};
ghost use Rattle.picture_log.specs.ShownCount.{shown_before as before, shown_behind as behind};

use ocs_base::{Beam, System};

/// The pixel bytes of a line that is shown, and of a clock that is: four pixels of three.
const LINE: u64 = 2160;

const CLOCK: u64 = 12;

/// The first clock of a line that is shown.
const FIRST_CLOCK: u16 = 47;

/// How many pixel bytes a run has shown before the picture step at this place of the beam.
pub fn shown_before(system: System, beam: &Beam) -> u64
    ensures { result ≡ before system beam.now }
{
    let above = beam.v.saturating_sub(system.top_line());
    let lines = above.min(system.shown_lines()) as u64;
    let clocks = if system.shows_line(beam.v) {
        beam.h.saturating_sub(FIRST_CLOCK) as u64
    } else {
        0
    };
    system.frame_bytes() as u64 * beam.frame as u64 + LINE * lines + CLOCK * clocks
}

/// How many it has shown behind that step.
pub fn shown_behind(system: System, beam: &Beam) -> u64
    ensures { result ≡ behind system beam.now }
{
    let clock = if system.shows(beam.v, beam.h) {
        CLOCK
    } else {
        0
    };
    shown_before(system, beam) + clock
}
