//! The foreground of a run.

ghost use Rattle.std.specs.Prelude.{◌≡◌, ◌<◌, ◌+◌, ◌-◌, ◌^◌, IfOk};
ghost use Rattle.ocs_base.specs.Systems.{last_clock};
ghost use Rattle.std.specs.Arc.{arc_value};
ghost use Rattle.serial_bands.specs.Run.{run_over};
ghost use Rattle.foreground.specs.Fore.{over, IsNew, is_done};

use crate::lookout::Lookout;
use band_gather::Gathering;
use band_log::{Cursor, Run, Spare};
use machine::Machine;
use ocs_base::{Beam, OutOfMemory, System};
use picture_log::Log;
use reg_file::Regs;
use serial_model::{NoSide, Side};
use std::alloc::Global;
use std::marker::Model;
use std::sync::Arc;

/// The foreground of a run: the machine clock by clock, without its picture, of which it logs what
/// bands are drawn from later. A raster, which draws them, and the output files are lent to each
/// call. After a refusal for want of memory each later call refuses too, and adds nothing.
#[derive(Drop)]
pub struct Fore<S> {
    /// The run, which is shared with the jobs of its bands.
    pub run: Arc<Run<S>>,
    /// The machine without its picture.
    pub machine: Machine<S>,
    /// What is logged of the open band.
    pub log: Log,
    /// How far the script is: the events before it have happened.
    pub cursor: Cursor,
    /// The collision bits of the bands that were gathered since CLXDAT was last read.
    pub(crate) clx: u16,
    /// Whether memory was wanted before.
    pub spent: bool,
    /// When quiet clocks are looked for.
    pub lookout: Lookout,
    /// What is left of a band that was gathered.
    pub(crate) spare: Spare,
    /// When bands are gathered.
    pub(crate) gathering: Gathering,
}

impl<S> Model for Fore<S> {
    ghost use Rattle.std.specs.Arc.{arc_value};
    ghost use Rattle.foreground.specs.Fore.{ForeOf};

    ghost Value = { ForeOf S };

    ghost view = { λ f. record {
      run = arc_value f.run;
      machine = f.machine;
      log = f.log;
      next = f.cursor.next;
      clx = f.clx;
      spent = f.spent;
    } };
}

impl Fore<NoSide> {
    /// The foreground at reset of a run without a side. Any raster that takes bands of the run fits it,
    /// with none outstanding and none submitted before.
    pub fn new(alloc: Global, run: Arc<Run<NoSide>>) -> Result<Fore<NoSide>, OutOfMemory>
        ensures { IfOk result (λ fore. IsNew (run_over ⟦<NoSide as Side>⟧.seen (arc_value run))
            (over ⟦<NoSide as Side>⟧.seen fore)) }
    {
        Fore::with_side(alloc, run, NoSide)
    }
}

impl<S: Side> Fore<S> {
    /// The foreground at reset of a run over a side. The side that it takes does what the one that the
    /// run keeps does. Any raster that takes bands of the run fits it, with none outstanding and none
    /// submitted before.
    pub fn with_side(alloc: Global, run: Arc<Run<S>>, side: S) -> Result<Fore<S>, OutOfMemory>
        requires { S.seen side ≡ S.seen (arc_value run).side }
        ensures { IfOk result (λ fore. IsNew (run_over S.seen (arc_value run))
            (over S.seen fore)) }
    {
        let machine = Machine::new(
            alloc,
            run.image(),
            run.script().chip_size(),
            run.script().cpu(),
            side,
        )?;
        let log = Log::new(alloc)?;
        Ok(Fore {
            run,
            machine,
            log,
            cursor: Cursor { next: 0 },
            clx: 0,
            spent: false,
            lookout: Lookout::new(),
            spare: Spare::new(alloc),
            gathering: Gathering::Soon,
        })
    }

    /// From now on as many bands may be outstanding as a raster has places, sixteen: for one whose bands are
    /// drawn on other threads. At first one alone may be, which is the fastest where the raster draws on this
    /// thread. What the run gives is the same.
    pub fn gather_late(&mut self)
        ensures { self.new ≡ self.old }
    {
        self.gathering = Gathering::Late;
    }

    /// Whether the run has come to its end.
    #[inline(always)]
    pub fn done(&self) -> bool
        ensures { result ≡ is_done (over S.seen self.now) }
    {
        self.machine.beam.frame == self.run.script().frames()
    }

    /// Whose beam the machine of the run has.
    #[inline(always)]
    pub(crate) fn system(&self) -> System
        ensures { result ≡ (over S.seen self.now).run.script.system }
    {
        self.run.script().system()
    }

    /// How many colour clocks were done since reset.
    #[inline(always)]
    pub fn clocks(&self) -> u64
        ensures { result ≡ self.now.machine.t }
    {
        self.machine.t
    }

    /// The clock with which the beam's next line begins, as a number of colour clocks since reset.
    pub fn next_line(&self) -> u64
        requires room { self.now.machine.t + 228 < 2 ^ 64 }
        ensures { result ≡ self.now.machine.t + (last_clock (over S.seen self.now).run.script.system
            self.now.machine.beam.v - self.now.machine.beam.h) + 1 }
    {
        let here = self.machine.beam;
        let last = self.system().last_clock(here.v);
        self.machine.t + last.saturating_sub(here.h) as u64 + 1
    }

    /// The present place of the beam.
    #[inline(always)]
    pub fn beam(&self) -> Beam
        ensures { result ≡ self.now.machine.beam }
    {
        self.machine.beam
    }

    /// The kept words of the custom registers.
    pub fn regs(&self) -> &Regs
        ensures { result.now ≡ self.now.machine.chips.registers }
    {
        self.machine.chips.registers()
    }

    /// The side as it is now.
    pub fn side(&self) -> &S
        ensures { result.now ≡ self.now.machine.side }
    {
        &self.machine.side
    }

    /// How many words of chip memory were read; the count stands still at the greatest u64.
    pub fn reads(&self) -> u64
        ensures { result ≡ self.now.machine.chip.reads }
    {
        self.machine.chip.reads()
    }
}
