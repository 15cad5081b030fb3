//! Clocks at which everybody but the bitplanes rests, made one behind the other.

ghost use Rattle.std.specs.Prelude.{◌≡◌, ◌≤◌, ◌<◌, ◌+◌, ◌^◌, ℕ, true, false, Some, [], IfOk, OnOk, OnErr};
ghost use Rattle.serial_model.specs.Events.{due_events};
ghost use Rattle.serial_model.specs.PlaneFetch.{IsLastUnit, plane_ask, move_planes};
ghost use Rattle.quiet_clocks.specs.FetchClocks.{fetching_on};
ghost use Rattle.serial_model.specs.Beam.{later_beam};
ghost use Rattle.bitplane_dma.specs.Quiet.{IsUnitAt};
ghost use Rattle.bitplane_dma.specs.Rules.{rules_of};
ghost use Rattle.chip_set.specs.Quiet.{AreAtRest, fetching_in, with_fetching};
ghost use Rattle.band_log.specs.Raster.{RasterValue};
ghost use Rattle.picture_log.specs.Log.{with_waiting};
ghost use Rattle.foreground.specs.Fore.{over, IsUnderway, is_done};
ghost use Rattle.clock_loop.specs.code.Quiet.{HasPassed};
ghost use Rattle.clock_loop.specs.code.Fetches.{with_fetch, with_fetches, clocks_of_planes, HasFetched};

use crate::lookout::note_look;
use chip_set::{Chips, FetchRules};
use foreground::Fore;
use machine::Machine;
use ocs_base::{Beam, OutOfMemory};
use picture_log::Log;
use serial_model::{PlaneAsk, Side, Touch};

/// Passes over at most so many clocks of this line, if there is no side, a unit of bitplane fetch runs and
/// everybody else is known to rest: as many calls of `advance` would log as much. The answer says whether
/// there were any. Memory may be wanted.
#[inline(never)]
pub(crate) fn pass_fetches<S: Side>(
    fore: &mut Fore<S>,
    limit: u64,
    most: u16,
) -> Result<bool, OutOfMemory>
    requires underway { (first : ℕ) × (seen : RasterValue) × IsUnderway
        (over S.seen fore.old) first seen }
    requires running { is_done (over S.seen fore.old) ≡ false }
    requires before { fore.old.machine.t < limit }
    requires inner { 0 < fore.old.machine.beam.h }
    requires open { fore.old.log.band.from < fore.old.machine.t }
    requires line { fore.old.machine.beam.h + most ≤ 226 }
    requires limit { fore.old.machine.t + most ≤ limit }
    requires due { (k : ℕ) → k < most → due_events (later_beam k fore.old.machine.beam)
        fore.old.run.script.events ≡ [] }
    ensures passed { OnOk result (HasPassed limit (over S.seen fore.old)
        (over S.seen fore.new)) }
    ensures some { IfOk result (λ some. some ≡ true → fore.old.machine.t < fore.new.machine.t) }
    ensures none { IfOk result (λ some. some ≡ false → fore.new ≡ fore.old) }
    ensures run { (over S.seen fore.new).run ≡ (over S.seen fore.old).run }
    ensures reads { fore.new.machine.chip.reads ≡ fore.old.machine.chip.reads }
    ensures spent { OnErr result (fore.new.spent ≡ true) }
{
    if !fore.machine.side.is_nothing() {
        note_look(
            &mut fore.lookout,
            fore.machine.t,
            fore.machine.beam.h,
            false,
        );
        return Ok(false);
    }
    let machine = &fore.machine;
    let clocks = machine.chips.fetch_clocks(&machine.beam, machine.t, most);
    let until = machine.t.saturating_add(clocks as u64);
    note_look(&mut fore.lookout, until, machine.beam.h, clocks > 0);
    if clocks == 0 {
        return Ok(false);
    }
    match fetch_in_line(&mut fore.machine, &mut fore.log, clocks) {
        Ok(()) => Ok(true),
        Err(refusal) => {
            fore.spent = true;
            Err(refusal)
        }
    }
}

/// So many clocks of this line, at each of which a plane is fetched at most, while everybody else waits. The
/// write that waited is an event of the band.
fn fetch_in_line<S>(machine: &mut Machine<S>, log: &mut Log, clocks: u16) -> Result<(), OutOfMemory>
    requires inner { 0 < machine.old.beam.h }
    requires line { machine.old.beam.h + clocks ≤ 226 }
    requires count { machine.old.t + clocks < 2 ^ 64 }
    requires begun { IsLastUnit machine.old.chips.last }
    requires rest { AreAtRest machine.old.beam machine.old.t clocks machine.old.chips }
    ensures machine { OnOk result (HasFetched clocks machine.old machine.new) }
    ensures log { OnOk result (log.new ≡ with_fetches clocks machine.old.beam machine.old.t
        (fetching_in machine.old.chips) (with_waiting log.old)) }
    ensures chip { machine.new.chip ≡ machine.old.chip }
{
    log.take_waiting()?;
    let t = machine.t;
    fetch_planes(machine, log, clocks)?;
    machine.chips.rest(t, clocks);
    Ok(())
}

/// The planes' part of so many clocks.
#[inline(always)]
fn fetch_planes<S>(machine: &mut Machine<S>, log: &mut Log, clocks: u16) -> Result<(), OutOfMemory>
    requires inner { 0 < machine.old.beam.h }
    requires line { machine.old.beam.h + clocks ≤ 226 }
    requires count { machine.old.t + clocks < 2 ^ 64 }
    ensures machine { OnOk result (machine.new ≡ clocks_of_planes clocks machine.old) }
    ensures log { OnOk result (log.new ≡ with_fetches clocks machine.old.beam machine.old.t
        (fetching_in machine.old.chips) log.old) }
    ensures chip { machine.new.chip ≡ machine.old.chip }
{
    let rules = machine.chips.fetch_rules(&machine.beam);
    let mut passed = 0;
    while passed < clocks {
        passed += fetch_unit(&rules, machine, log, clocks - passed)?;
    }
    Ok(())
}

/// The planes' part of the clocks of the unit that runs, or of one clock where none runs; at most so many. The
/// answer is how many. By what decides the fetches of the line.
#[inline(always)]
fn fetch_unit<S>(
    rules: &FetchRules,
    machine: &mut Machine<S>,
    log: &mut Log,
    most: u16,
) -> Result<u16, OutOfMemory>
    requires inner { 0 < machine.old.beam.h }
    requires some { 0 < most }
    requires line { machine.old.beam.h + most ≤ 226 }
    requires rules { rules.now ≡ rules_of machine.old.beam.v machine.old.chips.registers }
    requires count { machine.old.t + most < 2 ^ 64 }
    ensures most { IfOk result (λ clocks. clocks ≤ most) }
    ensures some { IfOk result (λ clocks. 0 < clocks) }
    ensures machine { IfOk result (λ clocks. machine.new ≡ clocks_of_planes clocks machine.old) }
    ensures log { IfOk result (λ clocks. log.new ≡ with_fetches clocks machine.old.beam
        machine.old.t (fetching_in machine.old.chips) log.old) }
    ensures same { OnOk result (rules.now
        ≡ rules_of machine.new.beam.v machine.new.chips.registers) }
    ensures chip { machine.new.chip ≡ machine.old.chip }
{
    let Some(start) = machine.chips.plane_unit(rules, &machine.beam) else {
        machine.beam.h += 1;
        machine.t += 1;
        return Ok(1);
    };
    let beam = machine.beam;
    let clocks = most.min(start + 8 - beam.h);
    fetch_slots(
        rules,
        start,
        &beam,
        machine.t,
        clocks,
        &mut machine.chips,
        log,
    )?;
    machine.beam.h += clocks;
    machine.t += clocks as u64;
    Ok(clocks)
}

/// The fetches of so many clocks, from clock `t` on, where the beam is there, of the unit that began at
/// `start` and runs in all of them.
#[inline(always)]
fn fetch_slots(
    rules: &FetchRules,
    start: u16,
    beam: &Beam,
    t: u64,
    clocks: u16,
    chips: &mut Chips,
    log: &mut Log,
) -> Result<(), OutOfMemory>
    requires inner { 0 < beam.now.h }
    requires line { beam.now.h + clocks ≤ 226 }
    requires unit { chips.old.last ≡ Some start }
    requires low { start ≤ beam.now.h }
    requires high { beam.now.h + clocks ≤ start + 8 }
    requires begun { IsLastUnit chips.old.last }
    requires rules { rules.now ≡ rules_of beam.now.v chips.old.registers }
    requires count { t + clocks < 2 ^ 64 }
    ensures chips { OnOk result (chips.new ≡ with_fetching
        (fetching_on clocks beam.now (fetching_in chips.old)) chips.old) }
    ensures log { OnOk result (log.new ≡ with_fetches clocks beam.now t
        (fetching_in chips.old) log.old) }
    ensures same { OnOk result (rules.now ≡ rules_of beam.now.v chips.new.registers) }
    ensures next { OnOk result (chips.new.last ≡ Some start) }
{
    let mut passed = 0;
    while passed < clocks {
        fetch_slot(rules, start, beam.h + passed, t + passed as u64, chips, log)?;
        passed += 1;
    }
    Ok(())
}

/// The fetch of one of them, clock `h` of the line, if there is one.
#[inline(always)]
fn fetch_slot(
    rules: &FetchRules,
    start: u16,
    h: u16,
    t: u64,
    chips: &mut Chips,
    log: &mut Log,
) -> Result<(), OutOfMemory>
    requires unit { IsUnitAt start h chips.old.last }
    requires begun { IsLastUnit chips.old.last }
    requires rules { (v : ℕ) × (rules.now ≡ rules_of v chips.old.registers) }
    requires room { t + 1 < 2 ^ 64 }
    ensures chips { chips.new ≡ record chips.old {
      registers = move_planes h (Some start) chips.old.registers;
    } }
    ensures log { OnOk result (log.new ≡ with_fetch t
        (plane_ask h chips.old.registers (Some start)) log.old) }
    ensures same { (v : ℕ) → rules_of v chips.new.registers ≡ rules_of v chips.old.registers }
{
    if let Some(PlaneAsk { plane, at }) = chips.fetch_in_unit(rules, h, start) {
        log.note_access(t, &Some(Touch::Plane { plane, at }))?;
    }
    Ok(())
}
