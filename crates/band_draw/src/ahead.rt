//! How far nothing but fetches of bitplanes comes.

ghost use Rattle.std.specs.Prelude.{◌≡◌, ◌≤◌, ◌<◌, ◌+◌, ◌-◌, ◌*◌, ◌^◌, length, drop, slice_get, Some, IfSome};
ghost use Rattle.ocs_base.specs.Systems.{last_clock};
ghost use Rattle.mem_versions.specs.MemView.{Covers, word_then};
ghost use Rattle.serial_model.specs.Picture.{set_picture, plane_latch};
ghost use Rattle.serial_bands.specs.Run.{run_over};
ghost use Rattle.serial_bands.specs.Spans.{IsBehind};
ghost use Rattle.serial_bands.specs.declared.event.Event.TheVariants.{Plane as PlaneFetch};
ghost use Rattle.band_draw.specs.BandPainter.{Paints};
ghost use Rattle.band_draw.specs.code.Progress.{IsSource};
ghost use Rattle.band_draw.specs.code.Ahead.{IsPlaced, IsFetched, first_clock, sprite_by};

use crate::progress::Progress;
use band_log::{Event, Run};
use mem_versions::MemReplay;
use ocs_base::{Addr, Clock, System};
use serial_model::Side;

/// BPL1DAT lies two behind this.
const LATCHES: u16 = 0x10e;

/// A fetch of a bitplane, 1 to 6.
#[derive(Clone, Copy)]
pub struct Fetch {
    pub at: Clock,
    pub plane: u8,
    pub addr: Addr,
}

impl Progress {
    /// Makes the fetches of bitplanes that come before anything else touches the picture, at most to
    /// the last clock of the line and of the band. The answer is the clock up to which, without it,
    /// nothing else does.
    pub fn fetch_ahead<S: Side>(
        &mut self,
        run: &Run<S>,
        events: &[Event],
        view: &mut MemReplay,
    ) -> u64
        requires source { IsSource (run_over S.seen run.now) self.old.from self.old.to view.old }
        requires placed { IsPlaced (run_over S.seen run.now) events.now self.old }
        requires screen { self.old.beam.h ≤ 227 }
        ensures fetched { IsFetched (run_over S.seen run.now) events.now self.old self.new result }
        ensures band { result < self.old.to }
        ensures line { self.old.clock < result → self.old.beam.h + (result - self.old.clock)
            ≤ last_clock run.now.script.system self.old.beam.v }
        ensures view { view.new ≡ view.old }
    {
        let end = self.clock + self.most_clocks(run.script().system());
        let mut next = self.next;
        let mut reached = self.clock;
        while let Some(fetch) = fetch_before(events, next, end) {
            self.fetch(&fetch, view);
            next += 1;
            reached = fetch.at.0 + 1;
        }
        self.next = next;
        untouched_until(events, next, reached, end)
    }

    /// How many clocks come before the last of the line and of the band.
    fn most_clocks(&self, system: System) -> u64
        requires { self.now.clock < self.now.to }
        ensures band { self.now.clock + result < self.now.to }
        ensures line { 0 < result → self.now.beam.h + result ≤ last_clock system self.now.beam.v }
    {
        let of_line = system.last_clock(self.beam.v).saturating_sub(self.beam.h);
        (of_line as u64).min(self.to - 1 - self.clock)
    }

    /// Makes a fetch of this clock of the line or a later one. That of plane 1 is a load.
    #[inline(always)]
    fn fetch(&mut self, fetch: &Fetch, view: &mut MemReplay)
        requires order { self.old.clock ≤ fetch.now.at.0 }
        requires place { self.old.beam.h + (fetch.now.at.0 - self.old.clock) ≤ 227 }
        requires covered { Covers view.old fetch.now.at.0 }
        requires few { fetch.now.plane ≤ 6 }
        ensures paints { let h = self.old.beam.h + (fetch.now.at.0 - self.old.clock) in
            Paints (4 * h) (set_picture h (plane_latch fetch.now.plane)
            (word_then view.old fetch.now.at.0 fetch.now.addr))
            self.old.painter self.new.painter }
        ensures keeps { self.new.painter.keeps ≡ self.old.painter.keeps }
        ensures same { self.new ≡ record self.old { painter = self.new.painter } }
        ensures view { view.new ≡ view.old }
    {
        let word = view.word(fetch.at, fetch.addr);
        if fetch.plane >= 2 {
            self.painter.latch(fetch.plane, word);
            return;
        }
        let h = self.beam.h + (fetch.at.0 - self.clock) as u16;
        self.painter.set(h, LATCHES + 2 * fetch.plane as u16, word);
    }
}

/// The event at a place, where it is the fetch of a bitplane before a clock.
fn fetch_before(events: &[Event], place: usize, end: u64) -> Option<Fetch>
    ensures found { IfSome result (λ fetch. slice_get events.now place
        ≡ Some (PlaneFetch fetch.at fetch.plane fetch.addr)) }
    ensures before { IfSome result (λ fetch. fetch.at.0 < end) }
    ensures few { IfSome result (λ fetch. fetch.plane ≤ 6) }
{
    match events.get(place) {
        Some(Event::Plane { at, plane, addr }) => {
            if at.0 < end && *plane <= 6 {
                return Some(Fetch {
                    at: *at,
                    plane: *plane,
                    addr: *addr,
                });
            }
            None
        }
        _ => None,
    }
}

/// Whether the event at a place is the fetch of a sprite by a clock or the next one.
pub fn is_sprite_near(events: &[Event], place: usize, clock: u64) -> bool
    ensures { result ≡ sprite_by clock (slice_get events.now place) }
{
    match events.get(place) {
        Some(Event::Sprite { at, .. }) => at.0.saturating_sub(1) <= clock,
        _ => false,
    }
}

/// The clock, at most the last, before which from a clock on the event at a place touches nothing.
fn untouched_until(events: &[Event], place: usize, from: u64, end: u64) -> u64
    requires { from ≤ end }
    ensures least { from ≤ result }
    ensures most { result ≤ end }
    ensures behind { from < result → IsBehind result (drop place events.now) }
{
    first_touched(events, place, end).max(from).min(end)
}

/// The first clock that the event at a place may touch, or another one where there is none. A write
/// may be that of the access of the clock before its own.
fn first_touched(events: &[Event], place: usize, other: u64) -> u64
    ensures { result ≡ first_clock other (slice_get events.now place) }
{
    match events.get(place) {
        Some(Event::Set { at, .. }) => at.0.saturating_sub(1),
        Some(Event::Plane { at, .. }) => at.0,
        Some(Event::Sprite { at, .. }) => at.0,
        None => other,
    }
}
