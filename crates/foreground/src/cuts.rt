//! Where a band ends: at a line, and where CLXDAT is read.

ghost use Rattle.std.specs.Prelude.{◌≡◌, ◌<◌, ◌-◌, ℕ, [], true, OnOk, OnErr, IfOk, length};
ghost use Rattle.serial_model.specs.Beam.{is_line_start};
ghost use Rattle.serial_bands.specs.Run.{state_of, beam_at};
ghost use Rattle.serial_bands.specs.Bands.{begins};
ghost use Rattle.serial_bands.specs.BusReads.{latched_words};
ghost use Rattle.foreground.specs.Clock.{Rises};
ghost use Rattle.foreground.specs.code.Cuts.{StandsBefore, StandsAtEnd, EndsAtLine, EndsAtRead, EndsAll, EndsPart, EndsPartAtRead};
ghost use Rattle.picture_log.specs.Closing.{IsClockBefore};
ghost use Rattle.foreground.specs.Fore.{over};
ghost use Rattle.foreground.specs.Steps.{KeepsClock};

use crate::fore::Fore;
use band_gather::{gather_all, submit};
use band_log::{Picture, Raster};
use ocs_base::OutOfMemory;
use out_files::OutFiles;
use serial_model::Side;

impl<S: Side> Fore<S> {
    /// A band begins with the line at the present clock: the one before it ends there, and is
    /// submitted. The next one opens as the shadow says, with the words of the fetches that are left
    /// looked up. `shown` is how many pixel bytes the run has shown before the clock.
    pub(crate) fn end_at_line<Q: Raster<S>>(
        &mut self,
        shown: u64,
        raster: &mut Q,
        out: &mut OutFiles,
    ) -> Result<(), OutOfMemory>
        requires stands { (first : ℕ)
            × StandsBefore self.old.machine.t first (over S.seen self.old) (Q.seen raster.old) }
        requires before { self.old.log.band.from < self.old.machine.t }
        requires count { shown ≡ length
            (state_of (over S.seen self.old).run self.old.machine.t).shown }
        requires line { is_line_start (beam_at (over S.seen self.old).run self.old.machine.t) ≡
            true }
        requires begins { begins (over S.seen self.old).run self.old.machine.t ≡ true }
        ensures ends { OnOk result (EndsAtLine self.old.machine.t (over S.seen self.old)
            (over S.seen self.new)
            (Q.seen raster.old) (Q.seen raster.new) out.old out.new) }
        ensures part { OnErr result (EndsPart self.old.machine.t (over S.seen self.old)
            (Q.seen raster.old) (Q.seen raster.new) out.old out.new) }
        ensures kept { KeepsClock (over S.seen self.old) (over S.seen self.new) }
        ensures reads { Rises 0
            (latched_words (over S.seen self.old).run self.old.log.band.from self.old.machine.t)
            self.old.machine.chip.reads self.new.machine.chip.reads }
    {
        let Fore {
            run,
            machine,
            log,
            clx,
            spare,
            gathering,
            ..
        } = self;
        let to = machine.t;
        let job = log.cut_line(spare, run, &mut machine.chip, to, shown)?;
        submit(job, raster, out, clx, spare, *gathering)?;
        Ok(())
    }

    /// The band that is open ends before clock `to`, up to which the run has shown so many pixel bytes,
    /// and all bands are gathered. The answer is the closing picture state of the last; how the next
    /// band opens is not known yet.
    pub(crate) fn end_all<Q: Raster<S>>(
        &mut self,
        to: u64,
        shown: u64,
        raster: &mut Q,
        out: &mut OutFiles,
    ) -> Result<Option<Picture>, OutOfMemory>
        requires stands { (first : ℕ)
            × StandsAtEnd to first (over S.seen self.old) (Q.seen raster.old) }
        requires count { shown ≡ length (state_of (over S.seen self.old).run to).shown }
        ensures ends { IfOk result (λ closing. EndsAll to (over S.seen self.old)
            (over S.seen self.new)
            (Q.seen raster.old) (Q.seen raster.new) out.old out.new closing) }
        ensures none { OnOk result ((Q.seen raster.new).outstanding ≡ []) }
        ensures part { OnErr result (EndsPartAtRead to (over S.seen self.old)
            (Q.seen raster.old) (Q.seen raster.new) out.old out.new) }
        ensures kept { KeepsClock (over S.seen self.old) (over S.seen self.new) }
        ensures reads { self.new.machine.chip.reads ≡ self.old.machine.chip.reads }
    {
        let Fore {
            run,
            machine,
            log,
            clx,
            spare,
            gathering,
            ..
        } = self;
        let job = log.close(spare, run, &mut machine.chip, to, shown)?;
        submit(job, raster, out, clx, spare, *gathering)?;
        let closing = gather_all(raster, out, clx, spare)?;
        Ok(closing)
    }

    /// CLXDAT is read right before the picture step of clock `to`, up to which the run has shown so many
    /// pixel bytes: the band ends there, and all bands are gathered. `h` is the clock of the line before
    /// it. The next band opens with what the last one closed with.
    pub(crate) fn end_at_read<Q: Raster<S>>(
        &mut self,
        to: u64,
        h: u16,
        shown: u64,
        raster: &mut Q,
        out: &mut OutFiles,
    ) -> Result<(), OutOfMemory>
        requires stands { (first : ℕ) × StandsAtEnd to first (over S.seen self.old)
            (Q.seen raster.old) }
        requires clock { IsClockBefore (over S.seen self.old).run to h }
        requires count { shown ≡ length (state_of (over S.seen self.old).run to).shown }
        ensures ends { OnOk result (EndsAtRead to (over S.seen self.old) (over S.seen self.new)
            (Q.seen raster.old) (Q.seen raster.new) out.old out.new) }
        ensures part { OnErr result (EndsPartAtRead to (over S.seen self.old)
            (Q.seen raster.old) (Q.seen raster.new) out.old out.new) }
        ensures kept { KeepsClock (over S.seen self.old) (over S.seen self.new) }
        ensures reads { self.new.machine.chip.reads ≡ self.old.machine.chip.reads }
    {
        match self.end_all(to, shown, raster, out)? {
            Some(closing) => {
                self.log.open_with(closing, h);
                Ok(())
            }
            None => Ok(()),
        }
    }
}
