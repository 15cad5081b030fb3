//! Events that touch the picture state.

ghost use Rattle.std.specs.Prelude.{◌≡◌, ◌≤◌, ◌<◌, ◌+◌, ◌*◌, ◌^◌, ℕ, length, map, slice_get, Some};
ghost use Rattle.mem_versions.specs.MemView.{Covers, word_then};
ghost use Rattle.serial_bands.specs.DrawnTo.{touch_by_address};
ghost use Rattle.serial_bands.specs.EventReading.{touch_of_event, bus_touch_of, is_write_at as is_write};
ghost use Rattle.serial_bands.specs.RightJob.{bus_events};
ghost use Rattle.band_draw.specs.BandPainter.{Paints};
ghost use Rattle.band_draw.specs.code.Touched.{touched_by};

use crate::band_painter::BandPainter;
use band_log::Event;
use mem_versions::MemReplay;
use ocs_base::Clock;
use ocs_base::offset::SPR0DATA;

/// BPL1DAT lies two behind this.
const LATCHES: u16 = 0x10e;

/// Events at clock `h` of the line in their order. The word of a fetch is that of the colour clock.
#[inline(always)]
pub fn touch_all(
    painter: &mut BandPainter,
    h: u16,
    events: &[Event],
    clock: Clock,
    view: &mut MemReplay,
)
    requires place { h ≤ 227 }
    requires covered { Covers view.old clock.0 }
    ensures paints { Paints (4 * h)
        (touched_by h (word_then view.old clock.0) (map touch_of_event events.now))
        painter.old painter.new }
    ensures keeps { painter.new.keeps ≡ painter.old.keeps }
    ensures view { view.new ≡ view.old }
{
    for event in events {
        touch(painter, h, event, clock, view);
    }
}

/// One event at clock `h` of the line.
#[inline(always)]
fn touch(painter: &mut BandPainter, h: u16, event: &Event, clock: Clock, view: &mut MemReplay)
    requires place { h ≤ 227 }
    requires covered { Covers view.old clock.0 }
    ensures paints { Paints (4 * h) (touch_by_address h (word_then view.old clock.0)
        (Some (touch_of_event event.now))) painter.old painter.new }
    ensures keeps { painter.new.keeps ≡ painter.old.keeps }
    ensures view { view.new ≡ view.old }
{
    match event {
        Event::Set { reg, word, .. } => painter.set(h, reg.offset, *word),
        Event::Plane { plane, addr, .. } => {
            let word = view.word(clock, *addr);
            painter.set(h, LATCHES + 2 * *plane as u16, word);
        }
        Event::Sprite {
            sprite,
            second,
            addr,
            ..
        } => {
            let word = view.word(clock, *addr);
            if *sprite < 8 {
                painter.fill_sprite(*sprite, *second, word);
                return;
            }
            let half = if *second { 2 } else { 0 };
            painter.set(h, SPR0DATA + 8 * *sprite as u16 + half, word);
        }
    }
}

/// How many of the events behind the script's of a clock are those of its access: one, or none. A
/// write is the access's where it is seen by the next clock first and as many writes of that clock
/// follow behind it as the script has there, which are `coming`.
#[inline(always)]
pub fn bus_count(clock: u64, coming: usize, rest: &[Event]) -> usize
    requires { clock + 1 < 2 ^ 64 }
    ensures count { result ≡ length (bus_events clock (bus_touch_of clock coming rest.now)) }
    ensures within { result ≤ length rest.now }
{
    match rest.first() {
        Some(Event::Set { .. }) => is_write_at(clock + 1, rest, coming) as usize,
        Some(Event::Plane { at, .. }) => (at.0 == clock) as usize,
        Some(Event::Sprite { at, .. }) => (at.0 == clock) as usize,
        None => 0,
    }
}

/// Whether the event at a place is a write that the picture step of the clock is the first to see.
fn is_write_at(clock: u64, events: &[Event], place: usize) -> bool
    ensures { result ≡ is_write clock (slice_get events.now place) }
{
    match events.get(place) {
        Some(Event::Set { at, .. }) => at.0 == clock,
        _ => false,
    }
}
