//! One clock of a band.

ghost use Rattle.std.specs.Prelude.{◌≡◌, ◌≤◌, ◌<◌, ◌+◌, ◌*◌, ◌^◌, ℕ, true, if◌then◌else◌, length, take, drop};
ghost use Rattle.serial_model.specs.declared.picture.Denise.{Denise as DeniseValue};
ghost use Rattle.ocs_base.specs.Systems.{is_visible};
ghost use Rattle.mem_versions.specs.MemView.{Covers, word_then};
ghost use Rattle.serial_bands.specs.ClockLaws.{IsNextInField};
ghost use Rattle.serial_bands.specs.DrawnTo.{touch_by_address};
ghost use Rattle.serial_bands.specs.EventReading.{bus_touch_of};
ghost use Rattle.serial_bands.specs.RightJob.{bus_events};
ghost use Rattle.band_draw.specs.BandPainter.{IsBandPainterOf, Paints};
ghost use Rattle.band_draw.specs.Given.{IsGiven, filled_after};

use crate::band_painter::BandPainter;
use crate::touch::{bus_count, touch_all};
use band_log::Event;
use mem_versions::MemReplay;
use ocs_base::{Beam, Clock, System};
use painter::span::put;

/// The picture step of a clock, whose bytes are put into the room from the place `filled` on where
/// they are visible, and whose collision bits are added to `clx`. The answer is how many bytes of the
/// room are filled then.
#[inline(always)]
pub fn show_clock(
    painter: &mut BandPainter,
    system: System,
    beam: &Beam,
    room: &mut [u8],
    filled: usize,
    clx: &mut u16,
) -> usize
    requires place { beam.now.h ≤ 227 }
    requires room { is_visible system beam.now.v beam.now.h ≡ true
        → filled + 12 ≤ length room.old }
    ensures given { (p : DeniseValue) → IsBandPainterOf (4 * beam.now.h) painter.old p
        → IsGiven system beam.now.v beam.now.h p
        painter.new (take filled room.old) (take result room.new) clx.old clx.new }
    ensures filled { result ≡ filled_after system beam.now.v beam.now.h filled }
    ensures keeps { painter.new.keeps ≡ painter.old.keeps }
    ensures size { length room.new ≡ length room.old }
{
    let mut pixels = [[0; 3]; 4];
    if painter.show(system, beam, &mut pixels, clx) {
        put(room, filled, &pixels);
        return filled + 12;
    }
    filled
}

/// The touch of a clock's access, at clock `h` of the line, found among the events that are left
/// behind the script's; `coming` writes of the script's follow in the next clock. The answer is how
/// many events it is: one, or none.
#[inline(always)]
pub fn touch_access(
    painter: &mut BandPainter,
    h: u16,
    rest: &[Event],
    coming: usize,
    clock: Clock,
    view: &mut MemReplay,
) -> usize
    requires place { h ≤ 227 }
    requires covered { Covers view.old clock.0 }
    requires room { clock.0 + 1 < 2 ^ 64 }
    ensures touched { Paints (4 * h) (touch_by_address h (word_then view.old clock.0)
        (bus_touch_of clock.0 coming rest.now)) painter.old painter.new }
    ensures keeps { painter.new.keeps ≡ painter.old.keeps }
    ensures count { result ≡ length (bus_events clock.0 (bus_touch_of clock.0 coming rest.now)) }
    ensures within { result ≤ length rest.now }
    ensures view { view.new ≡ view.old }
{
    let count = bus_count(clock.0, coming, rest);
    touch_all(painter, h, &rest[..count], clock, view);
    count
}

/// Goes on to the next place of a field: the next clock of the line, or the first of the next line.
pub fn next_place(system: System, beam: &mut Beam)
    requires { beam.old.v < 313 }
    ensures { IsNextInField system beam.old beam.new }
{
    if beam.h < 226 || beam.h < system.last_clock(beam.v) {
        beam.h += 1;
    } else {
        beam.h = 0;
        beam.v += 1;
    }
}

/// So many events from a place on.
pub fn part(events: &[Event], from: usize, count: usize) -> &[Event]
    requires { from + count ≤ length events.now }
    ensures part { result.now ≡ take count (drop from events.now) }
    ensures few { length events.now < 2 ^ 64 }
{
    &events[from..from + count]
}

/// The events from a place on.
pub fn behind(events: &[Event], from: usize) -> &[Event]
    requires { from ≤ length events.now }
    ensures part { result.now ≡ drop from events.now }
    ensures few { length events.now < 2 ^ 64 }
{
    &events[from..]
}
