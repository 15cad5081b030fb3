//! Whose access is looked for first in a clock of the bus in which no plane has the slot.

ghost use Rattle.std.specs.Prelude.{◌≡◌, ◌+◌, ◌-◌, ◌≤◌, ◌<◌, ◌^◌, true, false, IfOk, OnOk, OnErr};
ghost use Rattle.serial_model.specs.Side.{no_side};
ghost use Rattle.band_log.specs.Raster.{RasterValue};
ghost use Rattle.chip_set.specs.Bus.{LeavesToPlanes, LeavesBeside, KeepsBeside, IsClaim, CiasRest, IsUnitKept};
ghost use Rattle.chip_set.specs.Bus.{ask_beside_planes};
ghost use Rattle.chip_set.specs.Chips.{CanAsk, IsBlitAsk, kept_wish, late_ask};
ghost use Rattle.clock_loop.specs.code.BusRun.{EndsItsClock, HasAskedLate, IsWithinLine, stays_left};
ghost use Rattle.clock_loop.specs.code.BusRun.{CanMakeClocks, HasRunOnBus, HasRunInPart};
ghost use Rattle.foreground.specs.Fore.{ForeValue, over, CanGo};
ghost use Rattle.machine.specs.MachineSteps.{AsksInTime};

use crate::ahead::clocks_alone;
use crate::clock::{
    Access, blit_clock, blit_clock_apart, made_alone, process_alone, process_apart,
};
use chip_set::{BlitterClaim, FetchRules, Unit};
use foreground::Fore;
use ocs_base::OutOfMemory;
use out_files::OutFiles;
use serial_model::{PlaneAsk, Side};

/// How a loop of clocks makes the access of a clock in which no plane has the slot, if it is one to memory or
/// nobody's. All make the same one; they differ in whose they have in line, which only speed hangs on. None is
/// lent the raster: behind each call of what may wait for a band it is looked whether that has come back.
pub(crate) trait Turn<S: Side> {
    ghost use Rattle.std.specs.Prelude.{Option};
    ghost use Rattle.bitplane_dma.specs.declared.rules.FetchRules.{FetchRules};

    /// By what the planes have their slots in such clocks; None where they have none.
    ghost rules: { Self → Option FetchRules };

    /// The third and the fourth step of a clock, and the plane that has the slot, if one has. In `rest` clocks
    /// from this one on nothing is to be done for the CIAs, and then in how many from the next one on, of which
    /// `most` are of interest. The unit of bitplane fetch that runs is kept.
    fn ask(
        &self,
        fore: &mut Fore<S>,
        rest: &mut u16,
        most: u16,
        unit: &mut Unit,
    ) -> Option<PlaneAsk>
        requires side { S.seen fore.old.machine.side ≡ no_side }
        requires leaves { LeavesBeside (rules self.now) fore.old.machine.beam fore.old.machine.chips }
        requires rest { CiasRest fore.old.machine.t rest.old fore.old.machine.chips }
        requires unit { IsUnitKept unit.old fore.old.machine.beam.h fore.old.machine.chips.last }
        requires room { fore.old.machine.t + 1 < 2 ^ 64 }
        ensures asks { AsksInTime
            (ask_beside_planes result fore.new.machine.beam fore.new.machine.chips)
            (over S.seen fore.old).machine (over S.seen fore.new).machine }
        ensures able { CanAsk
            (ask_beside_planes result fore.new.machine.beam fore.new.machine.chips) }
        ensures wish { IsBlitAsk
            (ask_beside_planes result fore.new.machine.beam fore.new.machine.chips)
            (kept_wish fore.new.machine.chips) }
        ensures leaves { LeavesToPlanes fore.new.machine.beam fore.new.machine.chips }
        ensures bus { KeepsBeside (rules self.now) fore.old.machine.chips fore.new.machine.chips }
        ensures rest { CiasRest (fore.new.machine.t + 1) rest.new fore.new.machine.chips }
        ensures most { rest.old ≤ most + 1 → rest.new ≤ most }
        ensures unit { IsUnitKept unit.new (fore.new.machine.beam.h + 1)
            fore.new.machine.chips.last }
        ensures beam { fore.new.machine.beam ≡ fore.old.machine.beam }
        ensures side { fore.new.machine.side ≡ fore.old.machine.side }
        ensures same { fore.new ≡ record fore.old { machine = fore.new.machine } }
        ensures chip { fore.new.machine.chip ≡ fore.old.machine.chip };

    /// Makes the first of the next `left` clocks, as far as they come at once; that may be none. The clock
    /// `limit` comes behind them, and in `rest` of them nothing is to be done for the CIAs. The answer is how many
    /// were made.
    fn run_alone(
        &self,
        fore: &mut Fore<S>,
        claim: &BlitterClaim,
        left: u16,
        rest: u16,
        limit: u64,
        out: &mut OutFiles,
    ) -> Result<u16, OutOfMemory>
        requires fits { (seen : RasterValue) × CanGo (over S.seen fore.old) seen }
        requires fresh { fore.old.spent ≡ false }
        requires can { CanMakeClocks limit left (rules self.now) rest claim.now
            (over S.seen fore.old) }
        ensures most { IfOk result (λ made. made ≤ left) }
        ensures rest { IfOk result (λ made. made ≤ rest) }
        ensures count { IfOk result (λ made. fore.new.machine.t ≡ fore.old.machine.t + made) }
        ensures runs { OnOk result ((seen : RasterValue)
            → HasRunOnBus limit (over S.seen fore.old) (over S.seen fore.new) seen seen
            out.old out.new) }
        ensures can { IfOk result (λ made. CanMakeClocks limit (left - made) (rules self.now)
            (rest - made) claim.now (over S.seen fore.new)) }
        ensures part { OnErr result ((seen : RasterValue)
            → HasRunInPart limit (over S.seen fore.old) (over S.seen fore.new) seen seen
            out.old out.new) }
        ensures run { (over S.seen fore.new).run ≡ (over S.seen fore.old).run }
        ensures fresh { OnOk result (fore.new.spent ≡ false) }
        ensures still { OnOk result (fore.new.machine.t ≡ fore.old.machine.t
            → fore.new ≡ fore.old) };

    /// Makes the rest of it once the chips have asked for the slot, or leaves it. In how many clocks nothing is to
    /// be done for the CIAs is kept up to date.
    fn clock(
        &self,
        fore: &mut Fore<S>,
        claim: &BlitterClaim,
        rest: &mut u16,
        out: &mut OutFiles,
    ) -> Result<Access, OutOfMemory>
        requires asked { (f : ForeValue) × (seen : RasterValue) × IsWithinLine f seen
            × HasAskedLate f (over S.seen fore.old) }
        requires leaves { LeavesToPlanes fore.old.machine.beam fore.old.machine.chips }
        requires claim { IsClaim claim.now fore.old.machine.chips }
        ensures ends { EndsItsClock (late_ask fore.old.machine.beam fore.old.machine.chips)
            (over S.seen fore.old) (over S.seen fore.new) out.old out.new result }
        ensures few { rest.new ≤ rest.old }
        ensures rest { IfOk result (λ access. stays_left access ≡ true
            → CiasRest (fore.old.machine.t + 1) rest.old fore.old.machine.chips
            → CiasRest fore.new.machine.t rest.new fore.new.machine.chips) };
}

/// Where planes have slots too, by these rules: the processor's in line.
#[derive(Drop)]
pub(crate) struct AnyTurn {
    pub rules: FetchRules,
}

/// Where the blitter asks: its own in line.
pub(crate) struct BlitterTurn;

/// Where the blitter does not ask: the processor's in line.
pub(crate) struct ProcessorTurn;

impl<S: Side> Turn<S> for AnyTurn {
    ghost use Rattle.std.specs.Prelude.{None, Some};

    ghost rules = { λ t. Some t.rules };

    #[inline(always)]
    fn ask(
        &self,
        fore: &mut Fore<S>,
        rest: &mut u16,
        most: u16,
        unit: &mut Unit,
    ) -> Option<PlaneAsk> {
        fore.machine.ask_on_bus(&self.rules, rest, most, unit)
    }

    #[inline(always)]
    fn run_alone(
        &self,
        _fore: &mut Fore<S>,
        _claim: &BlitterClaim,
        _left: u16,
        _rest: u16,
        _limit: u64,
        _out: &mut OutFiles,
    ) -> Result<u16, OutOfMemory> {
        Ok(0)
    }

    #[inline(always)]
    fn clock(
        &self,
        fore: &mut Fore<S>,
        claim: &BlitterClaim,
        rest: &mut u16,
        out: &mut OutFiles,
    ) -> Result<Access, OutOfMemory> {
        if fore.machine.chips.has_blitter_turn(claim) {
            blit_clock_apart(fore, rest, out)
        } else {
            Ok(made_alone(process_alone(fore, out)?))
        }
    }
}

impl<S: Side> Turn<S> for BlitterTurn {
    ghost use Rattle.std.specs.Prelude.{None, Some};

    ghost rules = { λ t. None };

    #[inline(always)]
    fn ask(
        &self,
        fore: &mut Fore<S>,
        rest: &mut u16,
        most: u16,
        unit: &mut Unit,
    ) -> Option<PlaneAsk> {
        fore.machine.ask_without_planes(rest, most, unit);
        None
    }

    #[inline(always)]
    fn run_alone(
        &self,
        _fore: &mut Fore<S>,
        _claim: &BlitterClaim,
        _left: u16,
        _rest: u16,
        _limit: u64,
        _out: &mut OutFiles,
    ) -> Result<u16, OutOfMemory> {
        Ok(0)
    }

    #[inline(always)]
    fn clock(
        &self,
        fore: &mut Fore<S>,
        claim: &BlitterClaim,
        rest: &mut u16,
        out: &mut OutFiles,
    ) -> Result<Access, OutOfMemory> {
        if fore.machine.chips.has_blitter_turn(claim) {
            blit_clock(fore, rest, out)
        } else {
            Ok(made_alone(process_apart(fore, out)?))
        }
    }
}

impl<S: Side> Turn<S> for ProcessorTurn {
    ghost use Rattle.std.specs.Prelude.{None, Some};

    ghost rules = { λ t. None };

    #[inline(always)]
    fn ask(
        &self,
        fore: &mut Fore<S>,
        rest: &mut u16,
        most: u16,
        unit: &mut Unit,
    ) -> Option<PlaneAsk> {
        fore.machine.ask_without_planes(rest, most, unit);
        None
    }

    #[inline(always)]
    fn run_alone(
        &self,
        fore: &mut Fore<S>,
        claim: &BlitterClaim,
        left: u16,
        rest: u16,
        limit: u64,
        out: &mut OutFiles,
    ) -> Result<u16, OutOfMemory> {
        if claim.asks() {
            Ok(0)
        } else {
            clocks_alone(fore, claim, left, rest, limit, out)
        }
    }

    #[inline(always)]
    fn clock(
        &self,
        fore: &mut Fore<S>,
        claim: &BlitterClaim,
        rest: &mut u16,
        out: &mut OutFiles,
    ) -> Result<Access, OutOfMemory> {
        if fore.machine.chips.has_blitter_turn(claim) {
            blit_clock_apart(fore, rest, out)
        } else {
            Ok(made_alone(process_apart(fore, out)?))
        }
    }
}
