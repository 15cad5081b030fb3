//! The log of the picture: the band that is open, the write that waits, and the shadow of the picture
//! state.

ghost use Rattle.std.specs.Prelude.{◌≡◌, ◌≤◌, ◌<◌, ◌+◌, ◌-◌, ◌*◌, ◌^◌, ℕ, true, length, Some, IfOk, OnOk, OnErr};
ghost use Rattle.std.specs.Arc.{arc_value};
ghost use Rattle.mem_versions.specs.Chip.{ChipValue, memory_from, after_cut, after_reads};
ghost use Rattle.mem_versions.specs.MemView.{IsViewOf};
ghost use Rattle.serial_model.specs.Beam.{is_line_start};
ghost use Rattle.serial_model.specs.declared.picture.Touch.TheVariants as T;
ghost use Rattle.serial_bands.specs.Run.{RunValue, run_over, state_of, beam_at};
ghost use Rattle.serial_bands.specs.Bands.{begins as begins_at};
ghost use Rattle.serial_bands.specs.RightJob.{event_at as event_of};
ghost use Rattle.serial_bands.specs.Shadows.{IsInRange};
ghost use Rattle.serial_bands.specs.Fetches.{fetches_in};
ghost use Rattle.serial_model.specs.Keeps.{Keeps};
ghost use Rattle.picture_log.specs.Closing.{IsClockBefore, IsClosing};
ghost use Rattle.picture_log.specs.Log.{IsLogOf, IsEnding, IsCut, IsJobOf, with_waiting, with_begin};
ghost use Rattle.picture_log.specs.Log.{with_script_touch, with_access_touch, with_write_at, blank_after};

use crate::band::OpenBand;
use crate::shadow;
use crate::shown_count::shown_before;
use band_log::{Event, Events, Job, Picture, Run, Spare};
use mem_versions::Chip;
use ocs_base::{Beam, Clock, OutOfMemory};
use serial_bands::Shadow;
use serial_model::{Denise, PlaneAsk, Side, Touch};
use std::alloc::Global;
use std::mem;
use std::sync::Arc;

/// What is kept of the picture while clocks go by. A write by an access is an event of the clock
/// behind it, and of the band only if no band begins there: it waits.
#[derive(Drop)]
pub struct Log {
    pub band: OpenBand,
    pub waiting: Option<Event>,
    pub shadow: Shadow,
}

impl Log {
    /// The log at reset: band 0 begins with clock 0. It is refused for want of memory alone.
    pub fn new(alloc: Global) -> Result<Log, OutOfMemory>
        ensures { IfOk result (λ log. (run : RunValue) (chip : ChipValue)
            → chip ≡ memory_from run.script.chip run.image → IsLogOf run 0 log chip) }
    {
        let opening = Picture::new(alloc, Denise::reset())?;
        let shadow = shadow::shadow_of(opening.state());
        let beam = Beam {
            frame: 0,
            v: 0,
            h: 0,
            lof: true,
        };
        Ok(Log {
            band: OpenBand {
                number: 0,
                from: 0,
                beam,
                opening,
                events: Events::new(alloc),
            },
            waiting: None,
            shadow,
        })
    }

    /// The write that waited belongs to the band: no other begins.
    #[inline(always)]
    pub fn take_waiting(&mut self) -> Result<(), OutOfMemory>
        ensures { OnOk result (self.new ≡ with_waiting self.old) }
    {
        if let Some(event) = self.waiting {
            self.band.events.push(event)?;
            self.waiting = None;
        }
        Ok(())
    }

    /// The band begins with this place of the beam: its opening is cleared where a line starts.
    pub fn begin(&mut self, beam: &Beam)
        ensures { self.new ≡ with_begin beam.now self.old }
    {
        self.band.beam = *beam;
        self.band.opening.clear_line(beam);
    }

    /// A touch by the script at a clock.
    pub fn note_script(&mut self, t: u64, touch: &Touch) -> Result<(), OutOfMemory>
        requires { IsInRange (Some touch.now) }
        ensures { OnOk result (self.new ≡ with_script_touch t touch.now self.old) }
    {
        self.band.events.push(event_at(t, touch))?;
        shadow::touch(&mut self.shadow, t, touch);
        Ok(())
    }

    /// A touch by the access of a clock: a fetch is an event at once, and a write waits.
    #[inline(always)]
    pub fn note_access(&mut self, t: u64, touch: &Option<Touch>) -> Result<(), OutOfMemory>
        requires range { IsInRange touch.now }
        requires room { t + 1 < 2 ^ 64 }
        ensures { OnOk result (self.new ≡ with_access_touch t touch.now self.old) }
    {
        if self.waiting.is_some() {
            self.waiting = None;
        }
        let Some(touch) = touch else {
            return Ok(());
        };
        match touch {
            Touch::Set { reg, word } => {
                self.waiting = Some(Event::Set {
                    at: Clock(t + 1),
                    reg: *reg,
                    word: *word,
                });
            }
            _ => self.band.events.push(event_at(t, touch))?,
        }
        shadow::touch(&mut self.shadow, t, touch);
        Ok(())
    }

    /// A fetch of a plane by the access of a clock, where no write waits.
    #[inline(always)]
    pub fn note_plane(&mut self, t: u64, ask: &PlaneAsk) -> Result<(), OutOfMemory>
        requires waits { self.old.waiting ≡ None }
        requires range { IsInRange (Some (T.Plane ask.now.plane ask.now.at)) }
        ensures { OnOk result (self.new
            ≡ with_access_touch t (Some (T.Plane ask.now.plane ask.now.at)) self.old) }
    {
        let at = Clock(t);
        let PlaneAsk { plane, at: addr } = *ask;
        self.band.events.push(Event::Plane { at, plane, addr })?;
        shadow::fetch_plane(&mut self.shadow, t, plane, addr);
        Ok(())
    }

    /// Ends the band before clock `to`, where the next one begins: its job, with a view of the memory,
    /// which is cut there. `shown` is how many pixel bytes the run has shown up to there. How the next
    /// band opens is not known yet. After a refusal all is as before.
    pub fn close<S: Side>(
        &mut self,
        spare: &mut Spare,
        run: &Arc<Run<S>>,
        chip: &mut Chip,
        to: u64,
        shown: u64,
    ) -> Result<Job<S>, OutOfMemory>
        requires ending { IsEnding (run_over S.seen (arc_value run.now)) to self.old chip.old }
        requires time { chip.old.newest ≤ to }
        requires count { shown ≡ length
            (state_of (run_over S.seen (arc_value run.now)) to).shown }
        ensures job { IfOk result (IsJobOf S.seen (run_over S.seen (arc_value run.now))
            self.old.band to) }
        ensures view { IfOk result (λ job. IsViewOf chip.old to job.view) }
        ensures log { OnOk result (self.new
            ≡ record self.old { band = blank_after to self.old.band }) }
        ensures chip { OnOk result (chip.new ≡ after_cut chip.old to) }
        ensures cut { OnOk result (IsCut (run_over S.seen (arc_value run.now)) to self.new
            chip.new) }
        ensures refused { OnErr result (self.new ≡ self.old) }
        ensures kept { OnErr result (chip.new ≡ chip.old) }
    {
        let system = run.script().system();
        let run = Arc::try_clone(run)?;
        let bytes = shown - shown_before(system, &self.band.beam);
        let (room, events) = spare.take(bytes as usize, self.band.events.list().len())?;
        let blank = Picture::new(spare.alloc(), Denise::reset())?;
        let view = chip.cut_replay(Clock(to))?;
        let next = OpenBand {
            number: self.band.number + 1,
            from: to,
            beam: self.band.beam,
            opening: blank,
            events,
        };
        let band = mem::replace(&mut self.band, next);
        Ok(Job {
            run,
            number: band.number,
            from: Clock(band.from),
            to: Clock(to),
            beam: band.beam,
            picture: band.opening,
            events: band.events,
            view,
            room,
        })
    }

    /// A line starts a band at clock `to`: the band before it ends, and the next one opens as the
    /// shadow says once its fetches are looked up, each of them a read of the chip memory. After a
    /// refusal all is as before.
    pub fn cut_line<S: Side>(
        &mut self,
        spare: &mut Spare,
        run: &Arc<Run<S>>,
        chip: &mut Chip,
        to: u64,
        shown: u64,
    ) -> Result<Job<S>, OutOfMemory>
        requires log { IsLogOf (run_over S.seen (arc_value run.now)) to self.old chip.old }
        requires before { self.old.band.from < to }
        requires line { is_line_start (beam_at (run_over S.seen (arc_value run.now)) to) ≡ true }
        requires begins { begins_at (run_over S.seen (arc_value run.now)) to ≡ true }
        requires time { chip.old.newest ≤ to }
        requires count { shown ≡ length
            (state_of (run_over S.seen (arc_value run.now)) to).shown }
        ensures job { IfOk result (IsJobOf S.seen (run_over S.seen (arc_value run.now))
            self.old.band to) }
        ensures log { OnOk result (IsLogOf (run_over S.seen (arc_value run.now)) to self.new
            chip.new) }
        ensures from { OnOk result (self.new.band.from ≡ to) }
        ensures number { OnOk result (self.new.band.number ≡ self.old.band.number + 1) }
        ensures chip { OnOk result (chip.new
            ≡ after_reads (after_cut chip.old to) (fetches_in self.old.shadow)) }
        ensures refused { OnErr result (self.new ≡ self.old) }
        ensures kept { OnErr result (chip.new ≡ chip.old) }
    {
        let job = self.close(spare, run, chip, to, shown)?;
        shadow::find_words(&mut self.shadow, &job.view, chip);
        self.band.opening.set(shadow::opening(&self.shadow));
        self.waiting = None;
        Ok(job)
    }

    /// A band that begins at clock `to` where CLXDAT was read opens with what was drawn of the band
    /// before it, once the write that waits is made at clock `h` of the line, where that band ended.
    pub fn open_with(&mut self, closing: Picture, h: u16)
        ensures log { (run : RunValue) (to : ℕ) (chip : ChipValue) → IsCut run to self.old chip
            → IsClosing run to closing → IsClockBefore run to h
            → IsLogOf run to self.new chip }
        ensures from { self.new.band.from ≡ self.old.band.from }
        ensures number { self.new.band.number ≡ self.old.band.number }
    {
        let mut opening = closing;
        make_write(&mut opening, h, &self.waiting);
        self.waiting = None;
        self.shadow = shadow::shadow_of(opening.state());
        self.band.opening = opening;
    }
}

/// Makes the write that waited, at clock `h` of the line.
fn make_write(picture: &mut Picture, h: u16, waiting: &Option<Event>)
    ensures { Keeps (4 * h) (with_write_at h waiting.now) picture.old picture.new }
{
    if let Some(Event::Set { reg, word, .. }) = waiting {
        picture.write(h, reg.offset, *word);
    }
}

/// A touch at a clock as an event.
#[inline(always)]
fn event_at(t: u64, touch: &Touch) -> Event
    ensures { result ≡ event_of t touch.now }
{
    let at = Clock(t);
    match touch {
        Touch::Set { reg, word } => Event::Set {
            at,
            reg: *reg,
            word: *word,
        },
        Touch::Plane { plane, at: addr } => Event::Plane {
            at,
            plane: *plane,
            addr: *addr,
        },
        Touch::Sprite {
            sprite,
            second,
            at: addr,
        } => Event::Sprite {
            at,
            sprite: *sprite,
            second: *second,
            addr: *addr,
        },
    }
}
