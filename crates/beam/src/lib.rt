//! The beam: where the picture is drawn, one colour clock after another.
//!
//! A colour clock is two low-resolution pixels, or four of high resolution. Lines and colour clocks are
//! counted from 0 (Hardware Reference Manual, VPOSR and VHPOSR).
#![tactic(auto)]

ghost use Rattle.std.specs.Prelude.{◌≡◌, ◌+◌, ◌<◌, ◌^◌};
ghost use Rattle.serial_model.specs.Beam.{first_place, next_place, is_line_start, is_field_start};
ghost use Rattle.ocs_base.specs.declared.system.System.TheVariants.{Pal};

use ocs_base::{Beam, System};

/// Where a run begins: frame 0, line 0, clock 0 of a long field. That it begins there is this project's
/// profile.
pub fn start() -> Beam
    ensures { result ≡ first_place }
{
    Beam {
        frame: 0,
        v: 0,
        h: 0,
        lof: true,
    }
}

/// The beam of a PAL machine comes to its next place, as by `advance_in`.
pub fn advance(b: &mut Beam, lace: bool)
    requires { b.old.frame + 1 < 2 ^ 32 }
    ensures { b.new ≡ next_place Pal lace b.old }
{
    advance_in(b, lace, System::Pal);
}

/// The beam comes to its next place, after one colour clock.
///
/// A line and a field have as many clocks and lines as the system says; a field is long while LOF
/// is set. At a change of frame LOF turns where `lace`, bit 2 (LACE) of BPLCON0, is set. A field
/// whose LOF is cleared while the last line of a long one runs ends with that line.
///
/// The greatest frame has no next place, so the caller stops before it.
pub fn advance_in(b: &mut Beam, lace: bool, system: System)
    requires { b.old.frame + 1 < 2 ^ 32 }
    ensures { b.new ≡ next_place system lace b.old }
{
    if b.h < 226 || b.h < system.last_clock(b.v) {
        b.h += 1;
    } else if b.v < system.lines(b.lof) - 1 {
        b.v += 1;
        b.h = 0;
    } else {
        b.frame += 1;
        b.v = 0;
        b.h = 0;
        b.lof = b.lof != lace;
    }
}

/// Whether this is the first clock of a line, clock 0.
pub fn at_line_start(b: &Beam) -> bool
    ensures { result ≡ is_line_start b.now }
{
    b.h == 0
}

/// Whether this is the first clock of a field: clock 0 of line 0, where the interrupt of vertical blanking is
/// requested and the Copper begins its list 1.
pub fn at_field_start(b: &Beam) -> bool
    ensures { result ≡ is_field_start b.now }
{
    b.v == 0 && b.h == 0
}
