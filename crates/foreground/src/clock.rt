//! One colour clock.

ghost use Rattle.std.specs.Prelude.{◌≡◌, ◌+◌, ◌<◌, ◌^◌, ℕ, Bool, false, IfOk, OnOk, OnErr};
ghost use Rattle.serial_model.specs.Beam.{IsOnScreen, next_place};
ghost use Rattle.serial_model.specs.Events.{due_events, touches_of};
ghost use Rattle.serial_bands.specs.Bands.{has_clx_read};
ghost use Rattle.serial_bands.specs.BusReads.{bus_reads};
ghost use Rattle.chip_set.specs.Bus.{KeepsBus};
ghost use Rattle.chip_set.specs.Chips.{CanAsk, IsBlitAsk, kept_wish, ask_or_late};
ghost use Rattle.out_files.specs.Gives.{GivesLines};
ghost use Rattle.machine.specs.Machine.{KeepsPlace};
ghost use Rattle.machine.specs.MachineSteps.{AsksInTime};
ghost use Rattle.picture_log.specs.Log.{with_script_touches};
ghost use Rattle.foreground.specs.Script.{IsMachine, MakesEvents};
ghost use Rattle.serial_bands.specs.Access.{access_state};
ghost use Rattle.foreground.specs.Clock.{Rises};
ghost use Rattle.foreground.specs.Slot.{IsSlotOf};
ghost use Rattle.foreground.specs.Fore.{over, HasScript, IsUnderway, Advances, GivesPart, is_done, looked_up};
ghost use Rattle.foreground.specs.Steps.{HasScriptBehind, RunsEvents, EndsClock};

use crate::fore::Fore;
use crate::script::{reads_clxdat, run_script};
use crate::slot::Slot;
use band_log::{Cursor, Raster};
use ocs_base::OutOfMemory;
use out_files::OutFiles;
use serial_model::{Ask, Side};

impl<S: Side> Fore<S> {
    /// One colour clock, and what its slot was. Memory may be wanted, and then a part of what the clock gives
    /// was given.
    #[inline(always)]
    pub(crate) fn advance_clock<Q: Raster<S>>(
        &mut self,
        raster: &mut Q,
        out: &mut OutFiles,
    ) -> Result<Slot, OutOfMemory>
        requires underway { (first : ℕ) × IsUnderway (over S.seen self.old) first
            (Q.seen raster.old) }
        requires running { is_done (over S.seen self.old) ≡ false }
        ensures clock { OnOk result (Advances (over S.seen self.old) (over S.seen self.new)
            (Q.seen raster.old) (Q.seen raster.new) out.old out.new) }
        ensures part { OnErr result (GivesPart (over S.seen self.old)
            (Q.seen raster.old) (Q.seen raster.new) out.old out.new) }
        ensures slot { IfOk result (λ slot. IsSlotOf slot
            (access_state (over S.seen self.old).run self.old.machine.t)) }
        ensures count { OnOk result (self.new.machine.t ≡ self.old.machine.t + 1) }
        ensures run { (over S.seen self.new).run ≡ (over S.seen self.old).run }
        ensures spent { OnOk result (self.new.spent ≡ self.old.spent) }
        ensures reads { OnOk result (Rises (bus_reads (over S.seen self.old).run self.old.machine.t)
            (bus_reads (over S.seen self.old).run self.old.machine.t + looked_up
            (over S.seen self.old))
            self.old.machine.chip.reads self.new.machine.chip.reads) }
        ensures few { OnErr result (Rises 0
            (bus_reads (over S.seen self.old).run self.old.machine.t + looked_up
            (over S.seen self.old))
            self.old.machine.chip.reads self.new.machine.chip.reads) }
    {
        let clx = self.begin_clock(raster, out)?;
        self.run_to_timers(clx, out)?;
        let ask = self.ask_alone();
        let read = self.access_with_word(&ask, raster, out)?;
        self.end_clock(out)?;
        Ok(Slot { ask, read })
    }

    /// Whether the script reads CLXDAT in this clock.
    #[inline(always)]
    pub fn script_reads(&self) -> bool
        requires script { HasScript (over S.seen self.now).run self.now.machine.beam self.now.next }
        requires screen { IsOnScreen self.now.machine.beam }
        ensures { result ≡ has_clx_read
            (due_events self.now.machine.beam self.now.run.script.events) }
    {
        let events = self.run.script().events();
        reads_clxdat(&events[self.cursor.next..], &self.machine.beam)
    }

    /// The first two steps. `clx` is what the script's first read of CLXDAT sees.
    #[inline(always)]
    fn run_to_timers(&mut self, clx: u16, out: &mut OutFiles) -> Result<(), OutOfMemory>
        requires script { HasScript (over S.seen self.old).run self.old.machine.beam self.old.next }
        requires screen { IsOnScreen self.old.machine.beam }
        requires some { IsMachine (over S.seen self.old).machine }
        ensures events { OnOk result (RunsEvents clx (over S.seen self.old) (over S.seen self.new)
            out.old out.new) }
        ensures run { (over S.seen self.new).run ≡ (over S.seen self.old).run }
        ensures chip { self.new.machine.chip ≡ self.old.machine.chip }
        ensures told { OnErr result (GivesLines out.old out.new) }
    {
        self.machine.start();
        self.run_events(clx, out)?;
        Ok(())
    }

    /// The third step of a clock and the fourth, behind the script's events: timers and side tick, the picture has its
    /// step, and the chips ask for the slot. The answer is what a side, a plane or a sprite asks for; where none does the
    /// slot may be the Copper's, the blitter's or the processor's, whose ask `access` finds. That is to be called next.
    #[inline(always)]
    pub fn ask(&mut self) -> Option<Ask>
        ensures asks { AsksInTime (ask_or_late result self.new.machine.beam self.new.machine.chips)
            (over S.seen self.old).machine (over S.seen self.new).machine }
        ensures able { CanAsk
            (ask_or_late result self.new.machine.beam self.new.machine.chips) }
        ensures wish { IsBlitAsk (ask_or_late result self.new.machine.beam self.new.machine.chips)
            (kept_wish self.new.machine.chips) }
        ensures same { self.new ≡ record self.old { machine = self.new.machine } }
        ensures chip { self.new.machine.chip ≡ self.old.machine.chip }
    {
        self.machine.ask_in_time()
    }

    /// The same, and what whoever has the slot asks for.
    #[inline(always)]
    fn ask_alone(&mut self) -> Ask
        ensures asks { AsksInTime result
            (over S.seen self.old).machine (over S.seen self.new).machine }
        ensures able { CanAsk result }
        ensures wish { IsBlitAsk result (kept_wish self.new.machine.chips) }
        ensures same { self.new ≡ record self.old { machine = self.new.machine } }
        ensures chip { self.new.machine.chip ≡ self.old.machine.chip }
    {
        let early = self.ask();
        self.early_or_late(early)
    }

    /// What whoever has the slot asks for, where the side, a plane or a sprite asks for this.
    #[inline(always)]
    fn early_or_late(&self, early: Option<Ask>) -> Ask
        ensures { result ≡ ask_or_late early self.now.machine.beam self.now.machine.chips }
    {
        match early {
            Some(ask) => ask,
            None => self.machine.chips.late_ask(&self.machine.beam),
        }
    }

    /// Second step: the script's events of the clock. Once none is left there is nothing to do.
    #[inline(always)]
    fn run_events(&mut self, clx: u16, out: &mut OutFiles) -> Result<(), OutOfMemory>
        requires script { HasScript (over S.seen self.old).run self.old.machine.beam self.old.next }
        requires screen { IsOnScreen self.old.machine.beam }
        requires some { IsMachine (over S.seen self.old).machine }
        ensures step { OnOk result (MakesEvents clx
            (due_events self.old.machine.beam self.old.run.script.events)
            (over S.seen self.old).machine out.old (over S.seen self.new).machine out.new) }
        ensures place { OnOk result (KeepsPlace (over S.seen self.old).machine
            (over S.seen self.new).machine) }
        ensures noted { OnOk result (self.new.log ≡ with_script_touches self.old.machine.t
            (touches_of (due_events self.old.machine.beam self.old.run.script.events))
            self.old.log) }
        ensures script { OnOk result (HasScriptBehind (over S.seen self.old).run
            self.old.machine.beam
            self.old.next self.new.next) }
        ensures same { self.new ≡ record self.old {
          machine = self.new.machine;
          log = self.new.log;
          next = self.new.next;
        } }
        ensures chip { self.new.machine.chip ≡ self.old.machine.chip }
        ensures told { OnErr result (GivesLines out.old out.new) }
    {
        let events = self.run.script().events();
        if self.cursor.next == events.len() {
            return Ok(());
        }
        let mut clx = clx;
        let left = run_script(
            &events[self.cursor.next..],
            &mut self.machine,
            &mut self.log,
            &mut clx,
            out,
        )?;
        let next = events.len() - left.len();
        self.cursor = Cursor { next };
        Ok(())
    }

    /// The last two steps of a clock, behind its access: the processor takes its turn, and the beam goes on by a colour
    /// clock. An error comes where memory is wanted for the trace's line of an interrupt.
    #[inline(always)]
    pub fn end_clock(&mut self, out: &mut OutFiles) -> Result<(), OutOfMemory>
        requires screen { IsOnScreen self.old.machine.beam }
        requires frame { self.old.machine.beam.frame + 1 < 2 ^ 32 }
        requires count { self.old.machine.t + 1 < 2 ^ 64 }
        ensures ends { OnOk result (EndsClock (over S.seen self.old) (over S.seen self.new) out.old
            out.new) }
        ensures place { OnOk result ((lace : Bool)
            × (self.new.machine.beam ≡ next_place (over S.seen self.old).run.script.system lace
            self.old.machine.beam)) }
        ensures run { (over S.seen self.new).run ≡ (over S.seen self.old).run }
        ensures chip { self.new.machine.chip ≡ self.old.machine.chip }
        ensures bus { KeepsBus self.old.machine.chips self.new.machine.chips }
        ensures refused { OnErr result (out.new ≡ out.old) }
    {
        self.machine.process(out)?;
        let system = self.system();
        self.machine.advance(system);
        Ok(())
    }
}
