//! Reads of CLXDAT: the collision bits of all bands up to the read are gathered.

ghost use Rattle.std.specs.Prelude.{◌≡◌, ◌-◌, true, false, IfOk, IsErr, OnOk, OnErr};
ghost use Rattle.foreground.specs.code.Cuts.{ReadsClxdat};
ghost use Rattle.foreground.specs.Fore.{over};
ghost use Rattle.foreground.specs.Steps.{StandsBeforeRead, ReadsBits, ReadsPart};

use crate::fore::Fore;
use band_gather::gather_all;
use band_log::Raster;
use collisions::read_clxdat;
use ocs_base::{Beam, OutOfMemory};
use out_files::OutFiles;
use picture_log::{shown_before, shown_behind};
use serial_model::Side;

impl<S: Side> Fore<S> {
    /// The collision bits that a read of CLXDAT sees, which clears them: the band ends there, and all
    /// bands are gathered. Where not `shown`, the script reads them before the picture step of the
    /// present clock; where `shown`, the access of the clock does, and sees the pixels of this clock
    /// too. It may wait. A clock (`advance`) does this where its script or its access reads CLXDAT.
    /// After a refusal, for want of memory alone, each later call refuses and gives nothing.
    pub fn read_clxdat<Q: Raster<S>>(
        &mut self,
        raster: &mut Q,
        shown: bool,
        out: &mut OutFiles,
    ) -> Result<u16, OutOfMemory>
        requires { self.old.spent ≡ false → StandsBeforeRead shown (over S.seen self.old)
            (Q.seen raster.old) }
        ensures bits { IfOk result (λ clx. ReadsBits shown (over S.seen self.old)
            (over S.seen self.new) clx (Q.seen raster.old) (Q.seen raster.new) out.old out.new) }
        ensures fresh { OnOk result (self.new.spent ≡ false) }
        ensures reads { self.new.machine.chip.reads ≡ self.old.machine.chip.reads }
        ensures spent { OnErr result (self.new.spent ≡ true) }
        ensures part { OnErr result (self.old.spent ≡ false → ReadsPart shown
            (over S.seen self.old) (Q.seen raster.old) (Q.seen raster.new) out.old out.new) }
        ensures nothing { self.old.spent ≡ true → IsErr result × (out.new ≡ out.old)
            × (Q.seen raster.new ≡ Q.seen raster.old) × (self.new ≡ self.old) }
    {
        if self.spent {
            return Err(OutOfMemory);
        }
        match self.gather_clxdat(raster, shown, out) {
            Ok(clx) => Ok(clx),
            Err(refused) => {
                self.spent = true;
                Err(refused)
            }
        }
    }

    /// The same within a clock, where memory was not wanted before.
    #[inline(never)]
    pub(crate) fn gather_clxdat<Q: Raster<S>>(
        &mut self,
        raster: &mut Q,
        shown: bool,
        out: &mut OutFiles,
    ) -> Result<u16, OutOfMemory>
        requires { StandsBeforeRead shown (over S.seen self.old) (Q.seen raster.old) }
        ensures { ReadsClxdat shown (over S.seen self.old) (over S.seen self.new)
            (Q.seen raster.old) (Q.seen raster.new) out.old out.new result }
    {
        if shown {
            self.read_by_access(raster, out)
        } else {
            self.read_by_script(raster, out)
        }
    }

    /// The read by the access of the present clock, behind its picture step.
    fn read_by_access<Q: Raster<S>>(
        &mut self,
        raster: &mut Q,
        out: &mut OutFiles,
    ) -> Result<u16, OutOfMemory>
        requires { StandsBeforeRead true (over S.seen self.old) (Q.seen raster.old) }
        ensures { ReadsClxdat true (over S.seen self.old) (over S.seen self.new)
            (Q.seen raster.old) (Q.seen raster.new) out.old out.new result }
    {
        let _height = self.run.height();
        let to = self.machine.t + 1;
        let h = self.machine.beam.h;
        let shown = shown_behind(self.system(), &self.machine.beam);
        self.end_at_read(to, h, shown, raster, out)?;
        Ok(self.take_bits())
    }

    /// The first read by the script in the present clock, before its picture step.
    fn read_by_script<Q: Raster<S>>(
        &mut self,
        raster: &mut Q,
        out: &mut OutFiles,
    ) -> Result<u16, OutOfMemory>
        requires { StandsBeforeRead false (over S.seen self.old) (Q.seen raster.old) }
        ensures { ReadsClxdat false (over S.seen self.old) (over S.seen self.new)
            (Q.seen raster.old) (Q.seen raster.new) out.old out.new result }
    {
        let to = self.machine.t;
        if self.log.band.from < to {
            let h = clock_before(self.machine.beam.h);
            let shown = shown_before(self.system(), &self.machine.beam);
            self.end_at_read(to, h, shown, raster, out)?;
            return Ok(self.take_bits());
        }
        gather_all(raster, out, &mut self.clx, &mut self.spare)?;
        Ok(self.take_bits())
    }

    /// The collision bits that were gathered, which are cleared.
    fn take_bits(&mut self) -> u16
        ensures bits { result ≡ self.old.clx }
        ensures same { self.new ≡ record self.old { clx = 0 } }
    {
        read_clxdat(&mut self.clx)
    }
}

/// The clock of a line before this one. Where this is the first, the write that waits may be made at any: its
/// load is of the line that has ended.
pub(crate) fn clock_before(h: u16) -> u16
    ensures { result ≡ h - 1 }
{
    h.saturating_sub(1)
}
