//! The foreground's call for one clock.

ghost use Rattle.std.specs.Prelude.{◌≡◌, ◌+◌, true, false, IsErr, IfOk, OnOk, OnErr};
ghost use Rattle.serial_bands.specs.BusReads.{bus_reads};
ghost use Rattle.serial_bands.specs.Access.{access_state};
ghost use Rattle.foreground.specs.Clock.{Rises};
ghost use Rattle.foreground.specs.Slot.{IsSlotOf};
ghost use Rattle.foreground.specs.Fore.{over, CanGo, Advances, GivesPart, is_done, looked_up};

use crate::fore::Fore;
use crate::slot::Slot;
use band_log::Raster;
use ocs_base::OutOfMemory;
use out_files::OutFiles;
use serial_model::Side;

impl<S: Side> Fore<S> {
    /// One colour clock. The output files are given the lines that it adds to the trace, and the pixels
    /// of bands that were gathered, from the first of those outstanding on. The answer is what the slot of
    /// the clock was. After a refusal, for want of memory alone, a part of these was given, and each later
    /// call refuses and gives nothing. It may wait for a band.
    #[inline(always)]
    pub fn advance<Q: Raster<S>>(
        &mut self,
        raster: &mut Q,
        out: &mut OutFiles,
    ) -> Result<Slot, OutOfMemory>
        requires fits { CanGo (over S.seen self.old) (Q.seen raster.old) }
        requires running { self.old.spent ≡ false → is_done (over S.seen self.old) ≡ false }
        ensures clock { OnOk result (Advances (over S.seen self.old) (over S.seen self.new)
            (Q.seen raster.old) (Q.seen raster.new) out.old out.new) }
        ensures slot { IfOk result (λ slot. IsSlotOf slot
            (access_state (over S.seen self.old).run self.old.machine.t)) }
        ensures count { OnOk result (self.new.machine.t ≡ self.old.machine.t + 1) }
        ensures run { (over S.seen self.new).run ≡ (over S.seen self.old).run }
        ensures fresh { OnOk result (self.new.spent ≡ false) }
        ensures reads { OnOk result (Rises (bus_reads (over S.seen self.old).run self.old.machine.t)
            (bus_reads (over S.seen self.old).run self.old.machine.t + looked_up
            (over S.seen self.old))
            self.old.machine.chip.reads self.new.machine.chip.reads) }
        ensures spent { OnErr result (self.new.spent ≡ true) }
        ensures part { OnErr result (self.old.spent ≡ false → GivesPart (over S.seen self.old)
            (Q.seen raster.old) (Q.seen raster.new) out.old out.new) }
        ensures few { OnErr result (Rises 0
            (bus_reads (over S.seen self.old).run self.old.machine.t + looked_up
            (over S.seen self.old))
            self.old.machine.chip.reads self.new.machine.chip.reads) }
        ensures refused { self.old.spent ≡ true → IsErr result }
        ensures nothing { self.old.spent ≡ true → out.new ≡ out.old }
        ensures left { self.old.spent ≡ true → Q.seen raster.new ≡ Q.seen raster.old }
        ensures same { self.old.spent ≡ true → self.new ≡ self.old }
    {
        if self.spent {
            return Err(OutOfMemory);
        }
        let answer = self.advance_clock(raster, out);
        if answer.is_err() {
            self.spent = true;
        }
        answer
    }
}
