//! Clocks of a line that refresh, planes, sprites and the Copper leave to the blitter and the processor.

ghost use Rattle.std.specs.Prelude.{◌≡◌, ◌≤◌, ◌<◌, ◌+◌, ◌-◌, ◌^◌, true, false, is_some, Option, None, Some, IfOk, OnOk, OnErr};
ghost use Rattle.ocs_base.specs.declared.system.System.{System};
ghost use Rattle.out_files.specs.OutFiles.{OutFilesValue};
ghost use Rattle.blit_words.specs.declared.blit.SlotAsk.TheVariants as SlotAsk;
ghost use Rattle.serial_model.specs.Bus.{blit_owner_ask};
ghost use Rattle.serial_model.specs.declared.bus.Half.TheVariants as Half;
ghost use Rattle.serial_model.specs.declared.bus.Ask.TheVariants as A;
ghost use Rattle.serial_model.specs.declared.bus.Made.TheVariants as M;
ghost use Rattle.serial_model.specs.Beam.{next_place};
ghost use Rattle.serial_model.specs.Registers.{is_interlaced};
ghost use Rattle.serial_model.specs.Side.{no_side};
ghost use Rattle.serial_model.specs.State.{Chips as ChipsOf, State};
ghost use Rattle.serial_model.specs.Tick.{ask_of, run_processor, advance_beam};
ghost use Rattle.chip_set.specs.Bus.{LeavesToPlanes, LeavesBeside, KeepsBus, KeepsBeside, KeepsCias, KeepsOnBus, CiasRest, IsUnitKept};
ghost use Rattle.chip_set.specs.Bus.{ask_beside_planes, is_bus_ask, is_bus_made};
ghost use Rattle.chip_set.specs.Chips.{CanAsk, CanDo, IsBlitAsk, IsChipsOf, kept_wish};
ghost use Rattle.cpu_bus.specs.Beside.{turn_beside_of, only_waits};
ghost use Rattle.machine.specs.Ahead.{IsAccessAtOnce, IsMadeAtOnce};
ghost use Rattle.machine.specs.Machine.{machine_over, Makes, MakesQuietly};
ghost use Rattle.machine.specs.Machine.{MakesAccess, HasAskedOf, StoresMade, StaysInPlace, reads_after};
ghost use Rattle.machine.specs.MachineSteps.{AsksInTime};

use crate::machine::Machine;
use chip_set::{FetchRules, Unit};
use ocs_base::{Addr, OutOfMemory};
use out_files::OutFiles;
use serial_model::{Ask, Half, Made, PlaneAsk, Side, TraceLine};

impl<S: Side> Machine<S> {
    /// Third step of such a clock, without a side: the timers tick; and the planes' part of it, by what they have
    /// their slots in it: the plane that has the slot, if one has. Else `has_blitter_turn` tells who has it.
    /// `answer_on_bus` is to be called next. In `rest` clocks from this one on nothing is to be done for the
    /// CIAs, and then in how many from the next one on, of which `most` are of interest. The unit of bitplane
    /// fetch that runs is kept for the clocks behind this one.
    #[inline(always)]
    pub fn ask_on_bus(
        &mut self,
        rules: &FetchRules,
        rest: &mut u16,
        most: u16,
        unit: &mut Unit,
    ) -> Option<PlaneAsk>
        requires side { S.seen self.old.side ≡ no_side }
        requires leaves { LeavesBeside (Some rules.now) self.old.beam self.old.chips }
        requires rest { CiasRest self.old.t rest.old self.old.chips }
        requires unit { IsUnitKept unit.old self.old.beam.h self.old.chips.last }
        requires room { self.old.t + 1 < 2 ^ 64 }
        ensures asks { AsksInTime (ask_beside_planes result self.new.beam self.new.chips)
            (machine_over S.seen self.old) (machine_over S.seen self.new) }
        ensures able { CanAsk (ask_beside_planes result self.new.beam self.new.chips) }
        ensures wish { IsBlitAsk (ask_beside_planes result self.new.beam self.new.chips)
            (kept_wish self.new.chips) }
        ensures leaves { LeavesToPlanes self.new.beam self.new.chips }
        ensures kept { KeepsBeside (Some rules.now) self.old.chips self.new.chips }
        ensures rest { CiasRest (self.new.t + 1) rest.new self.new.chips }
        ensures most { rest.old ≤ most + 1 → rest.new ≤ most }
        ensures unit { IsUnitKept unit.new (self.new.beam.h + 1) self.new.chips.last }
        ensures same { self.new ≡ record self.old { chips = self.new.chips } }
    {
        let later = self.chips.count_or_rest(self.t, *rest);
        *rest = clocks_of_interest(*rest, later, most);
        self.chips.ask_on_bus(rules, &self.beam, unit)
    }

    /// The same where the planes have no slot: the blitter or the processor may have it.
    #[inline(always)]
    pub fn ask_without_planes(&mut self, rest: &mut u16, most: u16, unit: &Unit)
        requires side { S.seen self.old.side ≡ no_side }
        requires leaves { LeavesBeside None self.old.beam self.old.chips }
        requires rest { CiasRest self.old.t rest.old self.old.chips }
        requires unit { IsUnitKept unit.now self.old.beam.h self.old.chips.last }
        requires room { self.old.t + 1 < 2 ^ 64 }
        ensures asks { AsksInTime (ask_beside_planes None self.new.beam self.new.chips)
            (machine_over S.seen self.old) (machine_over S.seen self.new) }
        ensures able { CanAsk (ask_beside_planes None self.new.beam self.new.chips) }
        ensures wish { IsBlitAsk (ask_beside_planes None self.new.beam self.new.chips)
            (kept_wish self.new.chips) }
        ensures leaves { LeavesToPlanes self.new.beam self.new.chips }
        ensures kept { KeepsBeside None self.old.chips self.new.chips }
        ensures rest { CiasRest (self.new.t + 1) rest.new self.new.chips }
        ensures most { rest.old ≤ most + 1 → rest.new ≤ most }
        ensures unit { IsUnitKept unit.now (self.new.beam.h + 1) self.new.chips.last }
        ensures same { self.new ≡ record self.old { chips = self.new.chips } }
    {
        let later = self.chips.count_or_rest(self.t, *rest);
        *rest = clocks_of_interest(*rest, later, most);
        self.chips.ask_without_planes(&self.beam, unit);
    }

    /// Sixth step, as `process`. The answer says whether the processor left the CIAs alone.
    #[inline(always)]
    pub fn process_beside_cias(&mut self, out: &mut OutFiles) -> Result<bool, OutOfMemory>
        ensures step { OnOk result (Makes run_processor (machine_over S.seen self.old) out.old
            (machine_over S.seen self.new) out.new) }
        ensures same { self.new ≡ record self.old { chips = self.new.chips } }
        ensures bus { KeepsBus self.old.chips self.new.chips }
        ensures cias { IfOk result (λ alone. alone ≡ true
            → KeepsCias self.old.chips self.new.chips) }
        ensures refused { OnErr result (out.new ≡ out.old) }
    {
        let (begins, alone) = self.chips.process_beside_cias();
        if let Some(level) = begins {
            out.line(TraceLine::Taken {
                beam: self.beam,
                level,
            })?;
        }
        Ok(alone)
    }

    /// Seventh step, as `advance`, at a clock behind which its line goes on.
    #[inline(always)]
    pub fn advance_in_line(&mut self)
        requires line { self.old.beam.h < 226 }
        requires count { self.old.t + 1 < 2 ^ 64 }
        ensures step { (system : System) → MakesQuietly (advance_beam system)
            (machine_over S.seen self.old) (machine_over S.seen self.new) }
        ensures beam { (system : System) → self.new.beam
            ≡ next_place system (is_interlaced self.old.chips.registers) self.old.beam }
        ensures count { self.new.t ≡ self.old.t + 1 }
        ensures chip { self.new.chip ≡ self.old.chip }
        ensures chips { self.new.chips ≡ self.old.chips }
        ensures side { self.new.side ≡ self.old.side }
    {
        self.beam.h += 1;
        self.t += 1;
    }

    /// As `answer`, at such a clock, where the owner of the slot is a plane, the blitter, the processor with
    /// an access to memory, or nobody. The trace gets no line.
    #[inline(always)]
    pub fn answer_on_bus(&mut self, ask: &Ask, out: &mut OutFiles) -> Result<Made, OutOfMemory>
        requires leaves { LeavesToPlanes self.old.beam self.old.chips }
        requires can { CanAsk ask.now }
        requires bus { is_bus_ask ask.now ≡ true }
        requires wish { IsBlitAsk ask.now (kept_wish self.old.chips) }
        requires time { self.old.chip.newest ≤ self.old.t }
        requires asked { (s : State) × (ask.now ≡ ask_of s) × HasAskedOf
            (machine_over S.seen self.old) s }
        ensures access { IfOk result (λ made.
            MakesAccess ask.now 0 made (machine_over S.seen self.old) out.old
            (machine_over S.seen self.new) out.new) }
        ensures able { IfOk result CanDo }
        ensures memory { IfOk result (λ made.
            StoresMade self.old.t ask.now made self.old.chip self.new.chip) }
        ensures reads { self.new.chip.reads ≡ reads_after ask.now self.old.chip.reads }
        ensures place { StaysInPlace (machine_over S.seen self.old) (machine_over S.seen self.new) }
        ensures refused { OnErr result (out.new ≡ out.old) }
        ensures made { IfOk result (λ made. is_bus_made made ≡ true) }
        ensures side { OnOk result (S.seen self.new.side ≡ S.seen self.old.side) }
        ensures bus { OnOk result (is_some self.new.chips.blit ≡ is_some self.old.chips.blit
            → KeepsOnBus self.old.chips self.new.chips) }
    {
        self.give_side(ask);
        let made = self.chips.answer_on_bus(ask, &self.beam, &mut self.chip);
        self.carry_out(&made, 0, out)?;
        Ok(made)
    }

    /// As `answer_on_bus`, where this plane has the slot: nothing but that the processor may miss it; and the
    /// processor's turn behind it, if it only waits in it. The answer says so; else that is still to come.
    #[inline(always)]
    pub fn pass_plane(&mut self, ask: &PlaneAsk) -> bool
        requires leaves { LeavesToPlanes self.old.beam self.old.chips }
        requires can { CanAsk (A.Plane ask.now) }
        ensures only { result ≡ only_waits (turn_beside_of self.old.chips.processor) }
        ensures waits { result ≡ true → (out : OutFilesValue) → IsMadeAtOnce (A.Plane ask.now)
            (M.Plane ask.now.plane ask.now.at) (machine_over S.seen self.old) out
            (machine_over S.seen self.new) out }
        ensures left { result ≡ false → (out : OutFilesValue) → IsAccessAtOnce
            (A.Plane ask.now) (M.Plane ask.now.plane ask.now.at)
            (machine_over S.seen self.old) out (machine_over S.seen self.new) out }
        ensures same { self.new ≡ record self.old { chips = self.new.chips } }
        ensures busy { is_some self.new.chips.blit ≡ is_some self.old.chips.blit }
    {
        self.chips.wait_beside()
    }

    /// As `answer_on_bus`, where an area blit writes this word; and the processor's turn behind it, if it only
    /// waits in it. The answer says so; else that is still to come.
    #[inline(always)]
    pub fn write_for_blit(&mut self, at: Addr, word: u16) -> Result<bool, OutOfMemory>
        requires leaves { LeavesToPlanes self.old.beam self.old.chips }
        requires asks { blit_owner_ask (kept_wish self.old.chips)
            ≡ A.Blit (SlotAsk.Write at word) }
        requires time { self.old.chip.newest ≤ self.old.t }
        ensures only { IfOk result (λ waited. (c : ChipsOf) → IsChipsOf self.old.chips c
            → waited ≡ only_waits (turn_beside_of self.old.chips.processor)) }
        ensures waits { IfOk result (λ waited. waited ≡ true → (out : OutFilesValue)
            → IsMadeAtOnce (A.Blit (SlotAsk.Write at word)) (M.Stored at Half.Both word)
            (machine_over S.seen self.old) out (machine_over S.seen self.new) out) }
        ensures left { IfOk result (λ waited. waited ≡ false → (out : OutFilesValue)
            → IsAccessAtOnce (A.Blit (SlotAsk.Write at word)) (M.Stored at Half.Both word)
            (machine_over S.seen self.old) out (machine_over S.seen self.new) out) }
        ensures reads { self.new.chip.reads ≡ self.old.chip.reads }
    {
        self.chips.give_blit(0);
        self.store(at, Half::Both, word)?;
        Ok(self.chips.wait_beside())
    }

    /// The same where it reads the word at this address.
    #[inline(always)]
    pub fn read_for_blit(&mut self, at: Addr) -> bool
        requires leaves { LeavesToPlanes self.old.beam self.old.chips }
        requires asks { blit_owner_ask (kept_wish self.old.chips) ≡ A.Blit (SlotAsk.Read at) }
        ensures only { (c : ChipsOf) → IsChipsOf self.old.chips c
            → result ≡ only_waits (turn_beside_of self.old.chips.processor) }
        ensures waits { result ≡ true → (out : OutFilesValue)
            → IsMadeAtOnce (A.Blit (SlotAsk.Read at)) M.Nothing
            (machine_over S.seen self.old) out (machine_over S.seen self.new) out }
        ensures left { result ≡ false → (out : OutFilesValue)
            → IsAccessAtOnce (A.Blit (SlotAsk.Read at)) M.Nothing
            (machine_over S.seen self.old) out (machine_over S.seen self.new) out }
    {
        let word = self.chip.read(at);
        self.chips.give_blit(word);
        self.chips.wait_beside()
    }
}

/// In how many clocks from the next one on nothing is to be done for the CIAs, where `later` is known of them and
/// `most` are of interest. It was `rest` a clock before: where that was some, no more than are of interest were known.
#[inline(always)]
fn clocks_of_interest(rest: u16, later: u16, most: u16) -> u16
    ensures known { result ≤ later }
    ensures most { (0 < rest → later ≡ rest - 1) → rest ≤ most + 1 → result ≤ most }
{
    if rest > 0 { later } else { later.min(most) }
}
