//! A whole band.

ghost use Rattle.std.specs.Prelude.{◌≡◌, ◌≤◌, ◌<◌, ℕ, List, length};
ghost use Rattle.std.specs.Arc.{arc_value};
ghost use Rattle.ocs_base.specs.declared.addr.Addr.{Addr as AddrValue};
ghost use Rattle.serial_model.specs.Beam.{IsOnScreen};
ghost use Rattle.serial_bands.specs.declared.event.Event.{Event as EventValue};
ghost use Rattle.serial_bands.specs.RightJob.{IsRightJob as AreRightParts};
ghost use Rattle.serial_bands.specs.Run.{run_over};
ghost use Rattle.band_log.specs.Right.{IsRightJob, IsRightDrawn};
ghost use Rattle.band_draw.specs.code.Progress.{IsSource, IsAt, IsEnded};

use crate::band_painter::BandPainter;
use crate::due::{due_from, first_from};
use crate::progress::Progress;
use band_log::{Drawn, Event, Job, Room, Run};
use mem_versions::MemReplay;
use ocs_base::{Beam, Clock};
use serial_model::{Denise, Side};

/// Draws the band of a job that is right for its own run and number. It takes no memory: the pixels
/// go into the room of the job, whose picture state becomes that at the band's end, and which is
/// handed back with all else as it was.
pub fn draw<S: Side>(job: Job<S>) -> Drawn<S>
    requires { IsRightJob S.seen (run_over S.seen (arc_value job.run)) job.number job }
    ensures right { IsRightDrawn S.seen (run_over S.seen (arc_value job.run)) job.number result }
    ensures job { result.job
        ≡ record job { picture = result.job.picture; room = result.job.room } }
{
    let Job {
        run,
        number,
        from,
        to,
        beam,
        mut picture,
        events,
        mut view,
        mut room,
    } = job;
    let start = begin(&run, from, to, beam, picture.state());
    let end = draw_into(start, &run, events.list(), &mut view, &mut room);
    picture.set(end.closing);
    Drawn {
        clx: end.clx,
        job: Job {
            run,
            number,
            from,
            to,
            beam,
            picture,
            events,
            view,
            room,
        },
    }
}

/// A band of which no clock is drawn.
fn begin<S: Side>(run: &Run<S>, from: Clock, to: Clock, beam: Beam, opening: &Denise) -> Progress
    requires screen { IsOnScreen beam }
    requires eight { length opening.now.runs ≡ 8 }
    ensures at { (n : ℕ) (events : List EventValue) (words : ℕ → AddrValue → ℕ) (room : List ℕ)
        → AreRightParts (run_over S.seen run.now)
        n from.0 to.0 beam opening.now events words (length room)
        → IsAt (run_over S.seen run.now) events room result }
    ensures from { result.from ≡ from.0 }
    ensures to { result.to ≡ to.0 }
{
    let script = run.script().events();
    let first = first_from(script, &beam);
    let due = due_from(script, first, &beam);
    Progress {
        from: from.0,
        to: to.0,
        clock: from.0,
        beam,
        painter: BandPainter::open(opening, &beam),
        sets: due.sets,
        due: due.behind,
        next: 0,
        filled: 0,
        clx: 0,
    }
}

/// What a band that is drawn leaves.
#[derive(Drop)]
struct End {
    /// The picture state after its last clock.
    closing: Denise,
    /// Its collision bits.
    clx: u16,
}

/// Draws all clocks that are left, into a room.
fn draw_into<S: Side>(
    start: Progress,
    run: &Run<S>,
    events: &[Event],
    view: &mut MemReplay,
    room: &mut Room,
) -> End
    requires source { IsSource (run_over S.seen run.now) start.from start.to view.old }
    requires at { IsAt (run_over S.seen run.now) events.now room.old start }
    ensures ended { IsEnded (run_over S.seen run.now)
        start.from start.to room.new result.closing result.clx }
    ensures view { view.new ≡ view.old }
{
    let mut progress = start;
    let closing = draw_all(&mut progress, run, events, view, room.pixels_mut());
    End {
        closing,
        clx: progress.clx,
    }
}

/// Draws all clocks that are left, and closes with the picture state after the last.
fn draw_all<S: Side>(
    p: &mut Progress,
    run: &Run<S>,
    events: &[Event],
    view: &mut MemReplay,
    room: &mut [u8],
) -> Denise
    requires source { IsSource (run_over S.seen run.now) p.old.from p.old.to view.old }
    requires at { IsAt (run_over S.seen run.now) events.now room.old p.old }
    ensures ended { IsEnded (run_over S.seen run.now)
        p.old.from p.old.to room.new result p.new.clx }
    ensures size { length room.new ≡ length room.old }
    ensures view { view.new ≡ view.old }
{
    while p.clock < p.to - 1 {
        let before = p.clock;
        p.pass(run, events, view, room);
        if p.clock == before {
            p.turn(run, events, view, room);
        }
    }
    p.finish(run, events, view, room)
}
