//! Checkpoints: a foreground is saved at the start of a field, and is made of what was saved again.

ghost use Rattle.std.specs.Prelude.{◌≡◌, ℕ, true, false, IfOk, IsErr, OnOk, OnErr};
ghost use Rattle.std.specs.Arc.{arc_value};
ghost use Rattle.serial_model.specs.Beam.{is_field_start};
ghost use Rattle.serial_bands.specs.Run.{run_over};
ghost use Rattle.foreground.specs.Checkpoint.{checkpoint_of, fore_from};
ghost use Rattle.foreground.specs.Fore.{over, CanGo, IsUnderway, GivesPart};
ghost use Rattle.foreground.specs.Save.{Saves, IsSaved, GoesOnFrom};
ghost use Rattle.foreground.specs.Steps.{KeepsClock};

use crate::checkpoint::Checkpoint;
use crate::fore::Fore;
use crate::lookout::Lookout;
use crate::reading::clock_before;
use band_gather::{Gathering, gather_all};
use band_log::{Cursor, Events, Picture, Raster, Run, Spare};
use machine::Machine;
use mem_versions::Chip;
use ocs_base::OutOfMemory;
use out_files::OutFiles;
use picture_log::{Log, OpenBand, shown_before};
use serial_model::Side;
use std::alloc::Global;
use std::sync::Arc;

impl<S: Side + Copy> Fore<S> {
    /// The present state, at the start of a field, to go back to: the band that is open ends there, and all
    /// bands are gathered. The foreground goes on from the same state, and its raster has nothing
    /// outstanding. No word is looked up. It may wait. After a refusal, for want of memory alone, each later
    /// call refuses and gives nothing.
    pub fn save<Q: Raster<S>>(
        &mut self,
        raster: &mut Q,
        out: &mut OutFiles,
    ) -> Result<Checkpoint<S>, OutOfMemory>
        requires fits { CanGo (over S.seen self.old) (Q.seen raster.old) }
        requires place { self.old.spent ≡ false → is_field_start self.old.machine.beam ≡ true }
        ensures saved { OnOk result (Saves (over S.seen self.old) (over S.seen self.new)
            (Q.seen raster.old) (Q.seen raster.new) out.old out.new) }
        ensures checkpoint { IfOk result (IsSaved S.seen (over S.seen self.old)
            (Q.seen raster.old)) }
        ensures run { (over S.seen self.new).run ≡ (over S.seen self.old).run }
        ensures fresh { OnOk result (self.new.spent ≡ false) }
        ensures reads { self.new.machine.chip.reads ≡ self.old.machine.chip.reads }
        ensures spent { OnErr result (self.new.spent ≡ true) }
        ensures part { OnErr result (self.old.spent ≡ false → GivesPart (over S.seen self.old)
            (Q.seen raster.old) (Q.seen raster.new) out.old out.new) }
        ensures nothing { self.old.spent ≡ true → IsErr result × (out.new ≡ out.old)
            × (Q.seen raster.new ≡ Q.seen raster.old) × (self.new ≡ self.old) }
    {
        if self.spent {
            return Err(OutOfMemory);
        }
        match self.save_here(raster, out) {
            Ok(kept) => Ok(kept),
            Err(refused) => {
                self.spent = true;
                Err(refused)
            }
        }
    }

    /// The same where memory was not wanted before.
    fn save_here<Q: Raster<S>>(
        &mut self,
        raster: &mut Q,
        out: &mut OutFiles,
    ) -> Result<Checkpoint<S>, OutOfMemory>
        requires underway { (first : ℕ) × IsUnderway (over S.seen self.old) first
            (Q.seen raster.old) }
        requires place { is_field_start self.old.machine.beam ≡ true }
        ensures saved { OnOk result (Saves (over S.seen self.old) (over S.seen self.new)
            (Q.seen raster.old) (Q.seen raster.new) out.old out.new) }
        ensures checkpoint { IfOk result (IsSaved S.seen (over S.seen self.old)
            (Q.seen raster.old)) }
        ensures part { OnErr result (GivesPart (over S.seen self.old)
            (Q.seen raster.old) (Q.seen raster.new) out.old out.new) }
        ensures kept { KeepsClock (over S.seen self.old) (over S.seen self.new) }
        ensures reads { self.new.machine.chip.reads ≡ self.old.machine.chip.reads }
    {
        self.gather_here(raster, out)?;
        match self.checkpoint() {
            Ok(kept) => Ok(kept),
            Err(refused) => Err(refused),
        }
    }

    /// The band that is open ends before the present clock, and all bands are gathered.
    fn gather_here<Q: Raster<S>>(
        &mut self,
        raster: &mut Q,
        out: &mut OutFiles,
    ) -> Result<(), OutOfMemory>
        requires underway { (first : ℕ) × IsUnderway (over S.seen self.old) first
            (Q.seen raster.old) }
        requires place { is_field_start self.old.machine.beam ≡ true }
        ensures saved { OnOk result (Saves (over S.seen self.old) (over S.seen self.new)
            (Q.seen raster.old) (Q.seen raster.new) out.old out.new) }
        ensures part { OnErr result (GivesPart (over S.seen self.old)
            (Q.seen raster.old) (Q.seen raster.new) out.old out.new) }
        ensures kept { KeepsClock (over S.seen self.old) (over S.seen self.new) }
        ensures reads { self.new.machine.chip.reads ≡ self.old.machine.chip.reads }
    {
        let to = self.machine.t;
        if self.log.band.from < to {
            let h = clock_before(self.machine.beam.h);
            let shown = shown_before(self.system(), &self.machine.beam);
            self.end_at_read(to, h, shown, raster, out)?;
            return Ok(());
        }
        gather_all(raster, out, &mut self.clx, &mut self.spare)?;
        Ok(())
    }

    /// What is kept of the foreground, where a band begins with the present clock.
    fn checkpoint(&self) -> Result<Checkpoint<S>, OutOfMemory>
        ensures { IfOk result (λ kept. kept ≡ checkpoint_of self.now) }
    {
        Ok(Checkpoint {
            run: Arc::try_clone(&self.run)?,
            t: self.machine.t,
            beam: self.machine.beam,
            kept: self.machine.chip.keep()?,
            chips: self.machine.chips.copied(),
            side: self.machine.side,
            number: self.log.band.number,
            opening: self.log.band.opening.state().copied(),
            shadow: self.log.shadow,
            next: self.cursor.next,
            clx: self.clx,
        })
    }

    /// The foreground that stands for the checkpoint's state, with the checkpoint's own run. Any raster fits
    /// it that takes bands of the run, has nothing outstanding, and whose next band is the checkpoint's. No
    /// word of its memory was read.
    pub fn load(
        alloc: Global,
        run: Arc<Run<S>>,
        from: &Checkpoint<S>,
    ) -> Result<Fore<S>, OutOfMemory>
        requires { run_over S.seen (arc_value run) ≡ run_over S.seen from.now.run }
        ensures made { IfOk result (λ fore. over S.seen fore ≡ fore_from S.seen from.now) }
        ensures goes_on { IfOk result (λ fore. GoesOnFrom S.seen from.now (over S.seen fore)) }
    {
        Fore::from_checkpoint(alloc, run, from)
    }

    /// The foreground that has what the checkpoint has, and no event of a band.
    fn from_checkpoint(
        alloc: Global,
        run: Arc<Run<S>>,
        from: &Checkpoint<S>,
    ) -> Result<Fore<S>, OutOfMemory>
        requires { run_over S.seen (arc_value run) ≡ run_over S.seen from.now.run }
        ensures { IfOk result (λ fore. over S.seen fore ≡ fore_from S.seen from.now) }
    {
        let machine = Machine {
            t: from.t,
            beam: from.beam,
            chip: Chip::back(&from.kept)?,
            chips: from.chips.copied(),
            side: from.side,
        };
        let band = OpenBand {
            number: from.number,
            from: from.t,
            beam: from.beam,
            opening: Picture::new(alloc, from.opening.copied())?,
            events: Events::new(alloc),
        };
        Ok(Fore {
            run,
            machine,
            log: Log {
                band,
                waiting: None,
                shadow: from.shadow,
            },
            cursor: Cursor { next: from.next },
            clx: from.clx,
            spent: false,
            lookout: Lookout::new(),
            spare: Spare::new(alloc),
            gathering: Gathering::Soon,
        })
    }
}
