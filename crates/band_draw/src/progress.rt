//! How far a band is drawn, and the steps from clock to clock.

ghost use Rattle.std.specs.Prelude.{◌≡◌, ◌≤◌, ◌<◌, ◌+◌, ◌*◌, ◌^◌, ℕ, List, length, take, drop, true, if◌then◌else◌};
ghost use Rattle.serial_bands.specs.Run.{run_over};
ghost use Rattle.band_draw.specs.code.Progress.{IsSource, IsFilled, IsAt, IsShown, IsEnded};

use crate::ahead::is_sprite_near;
use crate::band_painter::BandPainter;
use crate::clock::{behind, next_place, part, show_clock, touch_access};
use crate::due::{due_from, find_due};
use crate::touch::touch_all;
use band_log::{Cursor, Event, Run};
use mem_versions::MemReplay;
use ocs_base::{Beam, Clock};
use painter::FieldPlace;
use serial_model::{Denise, Side};

/// A band of a run that is drawn up to, not including, a clock.
#[derive(Drop)]
pub struct Progress {
    /// The band's first clock, and that behind its last.
    pub from: u64,
    pub to: u64,
    /// The clock that comes next, and its place.
    pub clock: u64,
    pub beam: Beam,
    /// What paints, from the picture state after the first step of that clock on.
    pub painter: BandPainter,
    /// How many of the script's events of that clock touch the picture, and the place in the script
    /// behind them.
    pub sets: usize,
    pub due: Cursor,
    /// The place of the next of the band's events.
    pub next: usize,
    /// How many bytes of the room are filled.
    pub filled: usize,
    /// The collision bits so far.
    pub clx: u16,
}

impl Progress {
    /// Draws the clocks up to the next change, at most to the last of the line and of the band, as one
    /// span: none where the next clock has a change, or where a sprite's fetch comes so soon that a clock
    /// alone is cheaper. Fetches of bitplanes are made before it is shown. Where the script writes nothing
    /// at the clock of the change, and it is not the band's last, the span takes it in, and what its
    /// access does follows.
    pub fn pass<S: Side>(
        &mut self,
        run: &Run<S>,
        events: &[Event],
        view: &mut MemReplay,
        room: &mut [u8],
    )
        requires source { IsSource (run_over S.seen run.now) self.old.from self.old.to view.old }
        requires at { IsAt (run_over S.seen run.now) events.now room.old self.old }
        ensures at { IsAt (run_over S.seen run.now) events.now room.new self.new }
        ensures from { self.new.from ≡ self.old.from }
        ensures to { self.new.to ≡ self.old.to }
        ensures clock { self.old.clock ≤ self.new.clock }
        ensures size { length room.new ≡ length room.old }
        ensures view { view.new ≡ view.old }
    {
        if is_sprite_near(events, self.next, self.clock) {
            return;
        }
        let until = self.fetch_ahead(run, events, view);
        if until == self.clock {
            return;
        }
        let script = run.script();
        let count = (until - self.clock) as u16;
        let from = FieldPlace {
            system: script.system(),
            v: self.beam.v,
            h: self.beam.h,
        };
        self.beam.h += count;
        let due = find_due(script.events(), self.due, &self.beam);
        let on = is_clock_taken(due.sets, until, self.to);
        let shown = count_with(count, on);
        self.filled = self
            .painter
            .show_span(from, shown, room, self.filled, &mut self.clx);
        self.clock = until;
        self.sets = due.sets;
        self.due = due.behind;
        if on {
            self.go_to_next(run, events, view);
        }
    }

    /// Draws a clock before the last, and comes to the next one.
    pub fn turn<S: Side>(
        &mut self,
        run: &Run<S>,
        events: &[Event],
        view: &mut MemReplay,
        room: &mut [u8],
    )
        requires source { IsSource (run_over S.seen run.now) self.old.from self.old.to view.old }
        requires at { IsAt (run_over S.seen run.now) events.now room.old self.old }
        requires more { self.old.clock + 1 < self.old.to }
        ensures at { IsAt (run_over S.seen run.now) events.now room.new self.new }
        ensures from { self.new.from ≡ self.old.from }
        ensures to { self.new.to ≡ self.old.to }
        ensures clock { self.new.clock ≡ self.old.clock + 1 }
        ensures size { length room.new ≡ length room.old }
        ensures view { view.new ≡ view.old }
    {
        let due = part(events, self.next, self.sets);
        touch_all(&mut self.painter, self.beam.h, due, Clock(self.clock), view);
        self.filled = show_clock(
            &mut self.painter,
            run.script().system(),
            &self.beam,
            room,
            self.filled,
            &mut self.clx,
        );
        self.go_to_next(run, events, view);
    }

    /// Comes to the next clock behind the picture step of one, with the touch of its access.
    #[inline(always)]
    fn go_to_next<S: Side>(&mut self, run: &Run<S>, events: &[Event], view: &mut MemReplay)
        requires source { IsSource (run_over S.seen run.now) self.old.from self.old.to view.old }
        requires shown { IsShown (run_over S.seen run.now) events.now self.old }
        requires more { self.old.clock + 1 < self.old.to }
        ensures at { (room : List ℕ)
            → IsFilled (run_over S.seen run.now) (self.old.clock + 1) room self.old
            → IsAt (run_over S.seen run.now) events.now room self.new }
        ensures from { self.new.from ≡ self.old.from }
        ensures to { self.new.to ≡ self.old.to }
        ensures clock { self.new.clock ≡ self.old.clock + 1 }
        ensures view { view.new ≡ view.old }
    {
        let script = run.script();
        let h = self.beam.h;
        let clock = Clock(self.clock);
        let rest = behind(events, self.next + self.sets);
        next_place(script.system(), &mut self.beam);
        let coming = due_from(script.events(), self.due, &self.beam);
        let count = touch_access(&mut self.painter, h, rest, coming.sets, clock, view);
        let is_last_line = self.to - self.clock <= 229;
        self.painter.clear_line(&self.beam, is_last_line);
        self.clock += 1;
        self.next += self.sets + count;
        self.sets = coming.sets;
        self.due = coming.behind;
    }

    /// Draws the last clock, and closes with the picture state after it. The write of a register by
    /// its access is left out.
    pub fn finish<S: Side>(
        &mut self,
        run: &Run<S>,
        events: &[Event],
        view: &mut MemReplay,
        room: &mut [u8],
    ) -> Denise
        requires source { IsSource (run_over S.seen run.now) self.old.from self.old.to view.old }
        requires at { IsAt (run_over S.seen run.now) events.now room.old self.old }
        requires last { self.old.clock + 1 ≡ self.old.to }
        ensures ended { IsEnded (run_over S.seen run.now) self.old.from self.old.to
            room.new result self.new.clx }
        ensures size { length room.new ≡ length room.old }
        ensures view { view.new ≡ view.old }
    {
        let system = run.script().system();
        let h = self.beam.h;
        let clock = Clock(self.clock);
        let due = part(events, self.next, self.sets);
        touch_all(&mut self.painter, h, due, clock, view);
        show_clock(
            &mut self.painter,
            system,
            &self.beam,
            room,
            self.filled,
            &mut self.clx,
        );
        let rest = behind(events, self.next + self.sets);
        touch_access(&mut self.painter, h, rest, 0, clock, view);
        self.painter.close()
    }
}

/// Whether a span takes in the clock that it comes to, at which the script makes so many writes: it
/// makes none, and the clock is not the last before `to`.
#[inline(always)]
fn is_clock_taken(sets: usize, clock: u64, to: u64) -> bool
    requires { clock < to }
    ensures none { result ≡ true → sets ≡ 0 }
    ensures more { result ≡ true → clock + 1 < to }
{
    sets == 0 && clock + 1 < to
}

/// So many clocks, and one more where it is taken in.
#[inline(always)]
fn count_with(count: u16, on: bool) -> u16
    requires { count ≤ 227 }
    ensures count { result ≡ count + (if on then 1 else 0) }
    ensures most { result ≤ count + 1 }
{
    count + on as u16
}
