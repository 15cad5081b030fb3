//! The end of a run: the bands that are left are gathered.

ghost use Rattle.std.specs.Prelude.{◌≡◌, ℕ, true, false, OnOk, OnErr, IsErr};
ghost use Rattle.foreground.specs.Fore.{over, CanGo, IsUnderway, is_done, Settles, GivesPart};
ghost use Rattle.foreground.specs.Steps.{KeepsClock};

use crate::fore::Fore;
use band_gather::gather_all;
use band_log::Raster;
use machine::Machine;
use mem_versions::Chip;
use ocs_base::OutOfMemory;
use out_files::OutFiles;
use picture_log::shown_before;
use serial_model::Side;

impl<S: Side> Fore<S> {
    /// Gathers the bands that are left, at the end of a run: then all its pixels and lines were given,
    /// and the memory is the run's last. No word is looked up. It may wait.
    pub fn settle<Q: Raster<S>>(
        &mut self,
        raster: &mut Q,
        out: &mut OutFiles,
    ) -> Result<(), OutOfMemory>
        requires fits { CanGo (over S.seen self.old) (Q.seen raster.old) }
        requires done { self.old.spent ≡ false → is_done (over S.seen self.old) ≡ true }
        ensures settled { OnOk result (Settles (over S.seen self.old) (over S.seen self.new)
            (Q.seen raster.old) (Q.seen raster.new) out.old out.new) }
        ensures run { (over S.seen self.new).run ≡ (over S.seen self.old).run }
        ensures fresh { OnOk result (self.new.spent ≡ false) }
        ensures reads { self.new.machine.chip.reads ≡ self.old.machine.chip.reads }
        ensures spent { OnErr result (self.new.spent ≡ true) }
        ensures part { OnErr result (self.old.spent ≡ false → GivesPart (over S.seen self.old)
            (Q.seen raster.old) (Q.seen raster.new) out.old out.new) }
        ensures nothing { self.old.spent ≡ true → IsErr result × (out.new ≡ out.old)
            × (Q.seen raster.new ≡ Q.seen raster.old) × (self.new ≡ self.old) }
    {
        if self.spent {
            return Err(OutOfMemory);
        }
        match self.gather_rest(raster, out) {
            Ok(()) => Ok(()),
            Err(refused) => {
                self.spent = true;
                Err(refused)
            }
        }
    }

    /// Gathers the bands that are left, the open one last, in which memory may be wanted.
    fn gather_rest<Q: Raster<S>>(
        &mut self,
        raster: &mut Q,
        out: &mut OutFiles,
    ) -> Result<(), OutOfMemory>
        requires underway { (first : ℕ) × IsUnderway (over S.seen self.old) first
            (Q.seen raster.old) }
        requires done { is_done (over S.seen self.old) ≡ true }
        ensures settled { OnOk result (Settles (over S.seen self.old) (over S.seen self.new)
            (Q.seen raster.old) (Q.seen raster.new) out.old out.new) }
        ensures part { OnErr result (GivesPart (over S.seen self.old)
            (Q.seen raster.old) (Q.seen raster.new) out.old out.new) }
        ensures kept { KeepsClock (over S.seen self.old) (over S.seen self.new) }
        ensures reads { self.new.machine.chip.reads ≡ self.old.machine.chip.reads }
    {
        let to = self.machine.t;
        if self.log.band.from < to {
            let shown = shown_before(self.system(), &self.machine.beam);
            self.end_all(to, shown, raster, out)?;
            return Ok(());
        }
        gather_all(raster, out, &mut self.clx, &mut self.spare)?;
        Ok(())
    }

    /// The memory at the end of a run.
    pub fn finish(self) -> Chip
        ensures { result ≡ self.machine.chip }
    {
        let Fore { machine, .. } = self;
        let Machine { chip, .. } = machine;
        chip
    }
}
