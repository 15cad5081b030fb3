//! What precedes the first step of a clock: where a band begins, the one before it ends.

ghost use Rattle.std.specs.Prelude.{◌≡◌, ◌<◌, ℕ, true, false, IfOk, OnOk, OnErr};
ghost use Rattle.out_files.specs.OutFiles.{OutFilesValue};
ghost use Rattle.band_log.specs.Raster.{RasterValue};
ghost use Rattle.serial_bands.specs.Bands.{is_band_place as place_of_band, has_clx_read};
ghost use Rattle.serial_bands.specs.BusReads.{latched_words};
ghost use Rattle.serial_bands.specs.Clock.{due_at};
ghost use Rattle.foreground.specs.Clock.{Rises};
ghost use Rattle.foreground.specs.Fore.{over, IsUnderway, is_done, looked_up};
ghost use Rattle.picture_log.specs.Log.{with_begin};
ghost use Rattle.foreground.specs.Steps.{StandsBeforeRead, BeginsClock, BeginsPart, KeepsClock};

use crate::fore::Fore;
use band_log::Raster;
use ocs_base::OutOfMemory;
use out_files::OutFiles;
use picture_log::shown_before;
use serial_model::Side;

impl<S: Side> Fore<S> {
    /// What precedes the first step of a clock: where a band begins, the one before it ends. The
    /// answer is what the script's first read of CLXDAT in this clock sees, if it has one.
    #[inline(always)]
    pub(crate) fn begin_clock<Q: Raster<S>>(
        &mut self,
        raster: &mut Q,
        out: &mut OutFiles,
    ) -> Result<u16, OutOfMemory>
        requires underway { (first : ℕ) × IsUnderway (over S.seen self.old) first
            (Q.seen raster.old) }
        requires running { is_done (over S.seen self.old) ≡ false }
        ensures begins { IfOk result (λ clx. BeginsClock (over S.seen self.old)
            (over S.seen self.new) clx
            (Q.seen raster.old) (Q.seen raster.new) out.old out.new) }
        ensures part { OnErr result (BeginsPart (over S.seen self.old)
            (Q.seen raster.old) (Q.seen raster.new) out.old out.new) }
        ensures kept { KeepsClock (over S.seen self.old) (over S.seen self.new) }
        ensures reads { Rises 0 (looked_up (over S.seen self.old))
            self.old.machine.chip.reads self.new.machine.chip.reads }
    {
        if self.script_reads() {
            return self.begin_at_read(raster, out);
        }
        if self.log.band.from < self.machine.t {
            if self.is_band_place() {
                return self.begin_at_line(raster, out);
            }
            self.log.take_waiting()?;
            return Ok(0);
        }
        self.begin_log();
        Ok(0)
    }

    /// The script reads CLXDAT in this clock, with which a band begins therefore.
    #[inline(never)]
    fn begin_at_read<Q: Raster<S>>(
        &mut self,
        raster: &mut Q,
        out: &mut OutFiles,
    ) -> Result<u16, OutOfMemory>
        requires { StandsBeforeRead false (over S.seen self.old) (Q.seen raster.old) }
        ensures begins { IfOk result (λ clx. BeginsClock (over S.seen self.old)
            (over S.seen self.new) clx
            (Q.seen raster.old) (Q.seen raster.new) out.old out.new) }
        ensures part { OnErr result (BeginsPart (over S.seen self.old)
            (Q.seen raster.old) (Q.seen raster.new) out.old out.new) }
        ensures kept { KeepsClock (over S.seen self.old) (over S.seen self.new) }
        ensures reads { self.new.machine.chip.reads ≡ self.old.machine.chip.reads }
    {
        let clx = self.gather_clxdat(raster, false, out)?;
        self.begin_log();
        Ok(clx)
    }

    /// A band begins with this clock by its place alone.
    #[inline(never)]
    fn begin_at_line<Q: Raster<S>>(
        &mut self,
        raster: &mut Q,
        out: &mut OutFiles,
    ) -> Result<u16, OutOfMemory>
        requires underway { (first : ℕ) × IsUnderway (over S.seen self.old) first
            (Q.seen raster.old) }
        requires running { is_done (over S.seen self.old) ≡ false }
        requires before { self.old.log.band.from < self.old.machine.t }
        requires place { place_of_band self.old.run.height self.old.machine.beam ≡ true }
        requires unread { has_clx_read (due_at (over S.seen self.old).run self.old.machine.t) ≡
            false }
        ensures begins { IfOk result (λ clx. BeginsClock (over S.seen self.old)
            (over S.seen self.new) clx
            (Q.seen raster.old) (Q.seen raster.new) out.old out.new) }
        ensures part { OnErr result (BeginsPart (over S.seen self.old)
            (Q.seen raster.old) (Q.seen raster.new) out.old out.new) }
        ensures kept { KeepsClock (over S.seen self.old) (over S.seen self.new) }
        ensures reads { Rises 0
            (latched_words (over S.seen self.old).run self.old.log.band.from self.old.machine.t)
            self.old.machine.chip.reads self.new.machine.chip.reads }
    {
        let shown = shown_before(self.system(), &self.machine.beam);
        self.end_at_line(shown, raster, out)?;
        self.begin_log();
        Ok(0)
    }

    /// The open band goes on with this clock: the write that waited is an event of it.
    #[inline(always)]
    pub fn go_on(&mut self) -> Result<(), OutOfMemory>
        requires running { is_done (over S.seen self.old) ≡ false }
        requires unread { has_clx_read (due_at (over S.seen self.old).run self.old.machine.t) ≡
            false }
        requires before { self.old.log.band.from < self.old.machine.t }
        requires place { place_of_band self.old.run.height self.old.machine.beam ≡ false }
        ensures begins { OnOk result ((seen : RasterValue) (out : OutFilesValue) → BeginsClock
            (over S.seen self.old) (over S.seen self.new) 0 seen seen out out) }
        ensures reads { self.new.machine.chip.reads ≡ self.old.machine.chip.reads }
        ensures same { self.new ≡ record self.old { log = self.new.log } }
    {
        self.log.take_waiting()
    }

    /// The band begins with the present place of the beam.
    #[inline(always)]
    fn begin_log(&mut self)
        ensures { self.new
            ≡ record self.old { log = with_begin self.old.machine.beam self.old.log } }
    {
        let beam = self.machine.beam;
        self.log.begin(&beam);
    }

    /// Whether a band begins with this clock by its place: at a field's start, and at that of each line
    /// whose number is a multiple of the height.
    #[inline(always)]
    fn is_band_place(&self) -> bool
        ensures { result ≡ place_of_band self.now.run.height self.now.machine.beam }
    {
        self.machine.beam.h == 0 && self.machine.beam.v % self.run.height() == 0
    }
}
