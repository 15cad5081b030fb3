//! Clocks of a line that refresh, sprites and the Copper leave to the planes, the blitter and the processor,
//! made one behind the other.

ghost use Rattle.std.specs.Prelude.{◌≡◌, ◌<◌, ◌≤◌, ◌+◌, ◌-◌, ℕ, true, false, None, Some, IfOk, OnOk, OnErr};
ghost use Rattle.band_log.specs.Raster.{RasterValue};
ghost use Rattle.chip_set.specs.Bus.{LeaveBus};
ghost use Rattle.chip_set.specs.Bus.{IsUnitKept};
ghost use Rattle.clock_loop.specs.code.BusRun.{IsOpenForBus, GoesOnBus, AreOnBus, HasRunOnBus, HasRunInPart};
ghost use Rattle.clock_loop.specs.code.BusRun.{CanMakeClock, HasMadeClock, HasMadeClockInPart, IsWithinLine};
ghost use Rattle.clock_loop.specs.code.BusRun.{HasAskedLate, is_made, stays_left};
ghost use Rattle.foreground.specs.Fore.{ForeValue, over, CanGo, IsUnderway};
ghost use Rattle.clock_loop.specs.code.Line.{AreInLine};

use crate::clock::{Access, plane_clock};
use crate::line::clocks_before;
use crate::lookout::{WORTH, is_beside_refresh, is_due, note_look, wait_for_refresh};
use crate::turn::{AnyTurn, BlitterTurn, ProcessorTurn, Turn};
use band_log::Raster;
use chip_set::{BlitterClaim, FetchRules, Unit};
use foreground::Fore;
use ocs_base::OutOfMemory;
use out_files::OutFiles;
use serial_model::Side;

/// The clocks of this line that come before the clock `limit`, before the next event of the script and
/// before quiet clocks are looked for again, as far as nobody but the planes, the blitter and the
/// processor is known to need the bus in them, up to an access of the processor to a register and to the
/// end of a blit. All of it is what as many calls of `advance` give, a refusal too.
#[inline(never)]
pub(crate) fn run_on_bus<S: Side, Q: Raster<S>>(
    fore: &mut Fore<S>,
    limit: u64,
    raster: &mut Q,
    out: &mut OutFiles,
) -> Result<(), OutOfMemory>
    requires fits { CanGo (over S.seen fore.old) (Q.seen raster.old) }
    requires fresh { fore.old.spent ≡ false }
    ensures runs { OnOk result (HasRunOnBus limit (over S.seen fore.old)
        (over S.seen fore.new) (Q.seen raster.old) (Q.seen raster.new) out.old out.new) }
    ensures part { OnErr result (HasRunInPart limit (over S.seen fore.old)
        (over S.seen fore.new) (Q.seen raster.old) (Q.seen raster.new) out.old out.new) }
    ensures run { (over S.seen fore.new).run ≡ (over S.seen fore.old).run }
    ensures fresh { OnOk result (fore.new.spent ≡ false) }
    ensures still { OnOk result (fore.new.machine.t ≡ fore.old.machine.t
        → fore.new ≡ fore.old) }
    ensures spent { OnErr result (fore.new.spent ≡ true) }
{
    let (clocks, rules) = bus_clocks(fore, limit);
    let claim = fore.machine.chips.blitter_claim();
    clocks_by_claim(fore, &rules, &claim, clocks, limit, raster, out)
}

/// So many of them. Where the planes have no slots those in which the blitter asks and those in which it does
/// not have a loop of their own, which does not look for it in each clock; nothing else hangs on that.
#[inline(always)]
fn clocks_by_claim<S: Side, Q: Raster<S>>(
    fore: &mut Fore<S>,
    rules: &Option<FetchRules>,
    claim: &BlitterClaim,
    clocks: u16,
    limit: u64,
    raster: &mut Q,
    out: &mut OutFiles,
) -> Result<(), OutOfMemory>
    requires fits { CanGo (over S.seen fore.old) (Q.seen raster.old) }
    requires fresh { fore.old.spent ≡ false }
    requires bus { AreOnBus limit clocks rules.now claim.now (over S.seen fore.old) }
    ensures runs { OnOk result (HasRunOnBus limit (over S.seen fore.old)
        (over S.seen fore.new) (Q.seen raster.old) (Q.seen raster.new) out.old out.new) }
    ensures part { OnErr result (HasRunInPart limit (over S.seen fore.old)
        (over S.seen fore.new) (Q.seen raster.old) (Q.seen raster.new) out.old out.new) }
    ensures run { (over S.seen fore.new).run ≡ (over S.seen fore.old).run }
    ensures fresh { OnOk result (fore.new.spent ≡ false) }
    ensures still { OnOk result (fore.new.machine.t ≡ fore.old.machine.t
        → fore.new ≡ fore.old) }
    ensures spent { OnErr result (fore.new.spent ≡ true) }
{
    if clocks == 0 {
        return Ok(());
    }
    match rules {
        Some(rules) => clocks_of_planes(fore, rules, claim, clocks, limit, raster, out),
        None if claim.asks() => clocks_of_blit(fore, claim, clocks, limit, raster, out),
        None => clocks_of_processor(fore, claim, clocks, limit, raster, out),
    }
}

/// The same where the planes have their slots by these rules. It stands apart, as the two below do: each loop has
/// the registers of the machine that it runs on for itself.
#[inline(never)]
fn clocks_of_planes<S: Side, Q: Raster<S>>(
    fore: &mut Fore<S>,
    rules: &FetchRules,
    claim: &BlitterClaim,
    clocks: u16,
    limit: u64,
    raster: &mut Q,
    out: &mut OutFiles,
) -> Result<(), OutOfMemory>
    requires fits { CanGo (over S.seen fore.old) (Q.seen raster.old) }
    requires fresh { fore.old.spent ≡ false }
    requires bus { AreOnBus limit clocks (Some rules.now) claim.now (over S.seen fore.old) }
    ensures runs { OnOk result (HasRunOnBus limit (over S.seen fore.old)
        (over S.seen fore.new) (Q.seen raster.old) (Q.seen raster.new) out.old out.new) }
    ensures part { OnErr result (HasRunInPart limit (over S.seen fore.old)
        (over S.seen fore.new) (Q.seen raster.old) (Q.seen raster.new) out.old out.new) }
    ensures run { (over S.seen fore.new).run ≡ (over S.seen fore.old).run }
    ensures fresh { OnOk result (fore.new.spent ≡ false) }
    ensures still { OnOk result (fore.new.machine.t ≡ fore.old.machine.t
        → fore.new ≡ fore.old) }
    ensures spent { OnErr result (fore.new.spent ≡ true) }
{
    let turn = AnyTurn { rules: *rules };
    let claim = *claim;
    clocks_on_bus(fore, &turn, &claim, clocks, limit, raster, out)
}

/// The same where the planes have no slots and the blitter asks; none where it does not.
#[inline(never)]
fn clocks_of_blit<S: Side, Q: Raster<S>>(
    fore: &mut Fore<S>,
    claim: &BlitterClaim,
    clocks: u16,
    limit: u64,
    raster: &mut Q,
    out: &mut OutFiles,
) -> Result<(), OutOfMemory>
    requires fits { CanGo (over S.seen fore.old) (Q.seen raster.old) }
    requires fresh { fore.old.spent ≡ false }
    requires bus { AreOnBus limit clocks None claim.now (over S.seen fore.old) }
    ensures runs { OnOk result (HasRunOnBus limit (over S.seen fore.old)
        (over S.seen fore.new) (Q.seen raster.old) (Q.seen raster.new) out.old out.new) }
    ensures part { OnErr result (HasRunInPart limit (over S.seen fore.old)
        (over S.seen fore.new) (Q.seen raster.old) (Q.seen raster.new) out.old out.new) }
    ensures run { (over S.seen fore.new).run ≡ (over S.seen fore.old).run }
    ensures fresh { OnOk result (fore.new.spent ≡ false) }
    ensures still { OnOk result (fore.new.machine.t ≡ fore.old.machine.t
        → fore.new ≡ fore.old) }
    ensures spent { OnErr result (fore.new.spent ≡ true) }
{
    let claim = *claim;
    if claim.asks() {
        clocks_on_bus(fore, &BlitterTurn, &claim, clocks, limit, raster, out)
    } else {
        Ok(())
    }
}

/// The same where the planes have no slots and the blitter does not ask; none where it does.
#[inline(never)]
fn clocks_of_processor<S: Side, Q: Raster<S>>(
    fore: &mut Fore<S>,
    claim: &BlitterClaim,
    clocks: u16,
    limit: u64,
    raster: &mut Q,
    out: &mut OutFiles,
) -> Result<(), OutOfMemory>
    requires fits { CanGo (over S.seen fore.old) (Q.seen raster.old) }
    requires fresh { fore.old.spent ≡ false }
    requires bus { AreOnBus limit clocks None claim.now (over S.seen fore.old) }
    ensures runs { OnOk result (HasRunOnBus limit (over S.seen fore.old)
        (over S.seen fore.new) (Q.seen raster.old) (Q.seen raster.new) out.old out.new) }
    ensures part { OnErr result (HasRunInPart limit (over S.seen fore.old)
        (over S.seen fore.new) (Q.seen raster.old) (Q.seen raster.new) out.old out.new) }
    ensures run { (over S.seen fore.new).run ≡ (over S.seen fore.old).run }
    ensures fresh { OnOk result (fore.new.spent ≡ false) }
    ensures still { OnOk result (fore.new.machine.t ≡ fore.old.machine.t
        → fore.new ≡ fore.old) }
    ensures spent { OnErr result (fore.new.spent ≡ true) }
{
    let claim = *claim;
    if claim.asks() {
        Ok(())
    } else {
        clocks_on_bus(fore, &ProcessorTurn, &claim, clocks, limit, raster, out)
    }
}

/// So many of them, one behind the other.
#[inline(always)]
fn clocks_on_bus<S: Side, Q: Raster<S>, T: Turn<S>>(
    fore: &mut Fore<S>,
    turn: &T,
    claim: &BlitterClaim,
    clocks: u16,
    limit: u64,
    raster: &mut Q,
    out: &mut OutFiles,
) -> Result<(), OutOfMemory>
    requires fits { CanGo (over S.seen fore.old) (Q.seen raster.old) }
    requires fresh { fore.old.spent ≡ false }
    requires bus { AreOnBus limit clocks (T.rules turn.now) claim.now (over S.seen fore.old) }
    ensures runs { OnOk result (HasRunOnBus limit (over S.seen fore.old)
        (over S.seen fore.new) (Q.seen raster.old) (Q.seen raster.new) out.old out.new) }
    ensures part { OnErr result (HasRunInPart limit (over S.seen fore.old)
        (over S.seen fore.new) (Q.seen raster.old) (Q.seen raster.new) out.old out.new) }
    ensures run { (over S.seen fore.new).run ≡ (over S.seen fore.old).run }
    ensures fresh { OnOk result (fore.new.spent ≡ false) }
    ensures still { OnOk result (fore.new.machine.t ≡ fore.old.machine.t
        → fore.new ≡ fore.old) }
    ensures spent { OnErr result (fore.new.spent ≡ true) }
{
    let end = fore.machine.t + clocks as u64;
    clocks_up_to(fore, turn, claim, end, limit, raster, out)
}

/// Those before the clock `end`, one behind the other.
#[inline(always)]
fn clocks_up_to<S: Side, Q: Raster<S>, T: Turn<S>>(
    fore: &mut Fore<S>,
    turn: &T,
    claim: &BlitterClaim,
    end: u64,
    limit: u64,
    raster: &mut Q,
    out: &mut OutFiles,
) -> Result<(), OutOfMemory>
    requires fits { CanGo (over S.seen fore.old) (Q.seen raster.old) }
    requires fresh { fore.old.spent ≡ false }
    requires before { fore.old.machine.t ≤ end }
    requires bus { AreOnBus limit (end - fore.old.machine.t) (T.rules turn.now) claim.now
        (over S.seen fore.old) }
    ensures runs { OnOk result (HasRunOnBus limit (over S.seen fore.old)
        (over S.seen fore.new) (Q.seen raster.old) (Q.seen raster.new) out.old out.new) }
    ensures part { OnErr result (HasRunInPart limit (over S.seen fore.old)
        (over S.seen fore.new) (Q.seen raster.old) (Q.seen raster.new) out.old out.new) }
    ensures run { (over S.seen fore.new).run ≡ (over S.seen fore.old).run }
    ensures fresh { OnOk result (fore.new.spent ≡ false) }
    ensures still { OnOk result (fore.new.machine.t ≡ fore.old.machine.t
        → fore.new ≡ fore.old) }
    ensures spent { OnErr result (fore.new.spent ≡ true) }
{
    let mut rest = 0;
    let mut unit = Unit::none();
    while has_more(fore, rest, end) {
        let left = clocks_left(fore, end);
        match turn.run_alone(fore, claim, left, rest, limit, out) {
            Ok(made) => {
                rest -= made;
                if made > 0 {
                    unit = Unit::none();
                }
                if is_last(made, left) {
                    return Ok(());
                }
            }
            Err(refused) => {
                fore.spent = true;
                return Err(refused);
            }
        }
        let most = clocks_left(fore, end) - 1;
        match clock_on_bus(fore, turn, claim, &mut rest, most, &mut unit, out) {
            Ok(Access::Stays) => {}
            Ok(Access::Ends) => return Ok(()),
            Ok(Access::Other) => return finish_clock(fore, raster, out),
            Err(refused) => {
                fore.spent = true;
                return Err(refused);
            }
        }
    }
    Ok(())
}

/// Whether clocks are left before `end`, where there are at least `rest`: if these are some, nothing else is asked.
#[inline(always)]
fn has_more<S: Side>(fore: &Fore<S>, rest: u16, end: u64) -> bool
    requires { fore.now.machine.t + rest ≤ end }
    ensures some { result ≡ true → fore.now.machine.t < end }
    ensures none { result ≡ false → end ≤ fore.now.machine.t }
{
    rest > 0 || fore.machine.t < end
}

/// How many clocks are left before `end`.
#[inline(always)]
fn clocks_left<S: Side>(fore: &Fore<S>, end: u64) -> u16
    requires before { fore.now.machine.t ≤ end }
    requires line { end ≤ fore.now.machine.t + 226 }
    ensures { result ≡ end - fore.now.machine.t }
{
    (end - fore.machine.t) as u16
}

/// Whether so many clocks, if they are some, are all that were left.
#[inline(always)]
fn is_last(made: u16, left: u16) -> bool
    ensures last { result ≡ true → made ≡ left }
    ensures more { result ≡ false → 0 < left → made ≤ left → made < left }
{
    made > 0 && made == left
}

/// How many they are, as far as that is known at their begin, and by what the planes have their slots in
/// them; nothing hangs on it but how fast a run is. A glance tells whether it pays to look.
#[inline(always)]
fn bus_clocks<S: Side>(fore: &mut Fore<S>, limit: u64) -> (u16, Option<FetchRules>)
    requires { (first : ℕ) × (seen : RasterValue) × IsUnderway
        (over S.seen fore.old) first seen }
    ensures line { 0 < result.0 → AreInLine limit result.0 (over S.seen fore.old) }
    ensures leave { 0 < result.0 → LeaveBus result.1 fore.old.machine.beam result.0
        fore.old.machine.chips }
    ensures ready { 0 < result.0 → IsOpenForBus (over S.seen fore.old) }
    ensures same { fore.new ≡ fore.old }
{
    let now = fore.machine.t;
    if !fore.machine.chips.is_busy() || !is_open_for_bus(fore) {
        return (0, None);
    }
    let h = fore.machine.beam.h;
    if is_beside_refresh(h) {
        wait_for_refresh(&mut fore.lookout, now, h);
        return (0, None);
    }
    let most = clocks_before(fore, limit);
    if most < 2 {
        return (0, None);
    }
    let (clocks, rules) = fore.machine.chips.bus_clocks(&fore.machine.beam, most);
    note_look(&mut fore.lookout, now, h, clocks >= WORTH);
    (clocks, rules)
}

/// Whether they may begin with this clock: no write waits, its band has begun, and there is no side.
#[inline(always)]
fn is_open_for_bus<S: Side>(fore: &Fore<S>) -> bool
    ensures { result ≡ true → IsOpenForBus (over S.seen fore.now) }
{
    fore.log.waiting.is_none()
        && fore.log.band.from < fore.machine.t
        && fore.machine.side.is_nothing()
}

/// One of them, if its access is one to memory or nobody's. The answer says so, and whether the bus is known to
/// be left in further clocks; where the access is another it is still to be made, and the clock to be ended. That
/// memory was wanted is the caller's to note. In `rest` clocks from this one on nothing is to be done for the
/// CIAs, and then in how many from the next one on, of which `most` are of interest. The unit of bitplane fetch that
/// runs is kept from clock to clock.
#[inline(always)]
fn clock_on_bus<S: Side, T: Turn<S>>(
    fore: &mut Fore<S>,
    turn: &T,
    claim: &BlitterClaim,
    rest: &mut u16,
    most: u16,
    unit: &mut Unit,
    out: &mut OutFiles,
) -> Result<Access, OutOfMemory>
    requires can { (seen : RasterValue) × CanMakeClock (T.rules turn.now) rest.old claim.now
        (over S.seen fore.old) seen }
    requires unit { IsUnitKept unit.old fore.old.machine.beam.h fore.old.machine.chips.last }
    ensures made { IfOk result (λ access. is_made access ≡ true → (seen : RasterValue)
        → HasMadeClock (over S.seen fore.old) (over S.seen fore.new) seen seen out.old out.new) }
    ensures part { OnErr result ((seen : RasterValue) → HasMadeClockInPart (over S.seen fore.old)
        (over S.seen fore.new) seen seen out.old out.new) }
    ensures run { (over S.seen fore.new).run ≡ (over S.seen fore.old).run }
    ensures bus { IfOk result (λ access. stays_left access ≡ true
        → GoesOnBus (T.rules turn.now) rest.new (over S.seen fore.old) (over S.seen fore.new)) }
    ensures few { rest.old ≤ most + 1 → rest.new ≤ most }
    ensures unit { IfOk result (λ access. stays_left access ≡ true
        → IsUnitKept unit.new fore.new.machine.beam.h fore.new.machine.chips.last) }
    ensures asked { IfOk result (λ access. is_made access ≡ false
        → HasAskedLate (over S.seen fore.old) (over S.seen fore.new)) }
    ensures given { IfOk result (λ access. is_made access ≡ false → out.new ≡ out.old) }
{
    match turn.ask(fore, rest, most, unit) {
        Some(ask) => plane_clock(fore, &ask, rest, out),
        None => turn.clock(fore, claim, rest, out),
    }
}

/// The rest of a clock in which the access is neither one to memory nor nobody's, once the chips have asked for
/// the slot. That memory was wanted is noted.
#[inline(never)]
fn finish_clock<S: Side, Q: Raster<S>>(
    fore: &mut Fore<S>,
    raster: &mut Q,
    out: &mut OutFiles,
) -> Result<(), OutOfMemory>
    requires asked { (old : ForeValue) × IsWithinLine old (Q.seen raster.old)
        × HasAskedLate old (over S.seen fore.old) }
    ensures made { OnOk result ((old : ForeValue) → IsWithinLine old (Q.seen raster.old)
        → HasAskedLate old (over S.seen fore.old) → HasMadeClock old (over S.seen fore.new)
        (Q.seen raster.old) (Q.seen raster.new) out.old out.new) }
    ensures part { OnErr result ((old : ForeValue) → IsWithinLine old (Q.seen raster.old)
        → HasAskedLate old (over S.seen fore.old) → HasMadeClockInPart old (over S.seen fore.new)
        (Q.seen raster.old) (Q.seen raster.new) out.old out.new) }
    ensures run { (over S.seen fore.new).run ≡ (over S.seen fore.old).run }
    ensures spent { OnErr result (fore.new.spent ≡ true) }
{
    let finished = access_and_end(fore, raster, out);
    if finished.is_err() {
        fore.spent = true;
    }
    finished
}

/// The same; that memory was wanted is the caller's to note.
#[inline(always)]
fn access_and_end<S: Side, Q: Raster<S>>(
    fore: &mut Fore<S>,
    raster: &mut Q,
    out: &mut OutFiles,
) -> Result<(), OutOfMemory>
    requires asked { (old : ForeValue) × IsWithinLine old (Q.seen raster.old)
        × HasAskedLate old (over S.seen fore.old) }
    ensures made { OnOk result ((old : ForeValue) → IsWithinLine old (Q.seen raster.old)
        → HasAskedLate old (over S.seen fore.old) → HasMadeClock old (over S.seen fore.new)
        (Q.seen raster.old) (Q.seen raster.new) out.old out.new) }
    ensures part { OnErr result ((old : ForeValue) → IsWithinLine old (Q.seen raster.old)
        → HasAskedLate old (over S.seen fore.old) → HasMadeClockInPart old (over S.seen fore.new)
        (Q.seen raster.old) (Q.seen raster.new) out.old out.new) }
    ensures run { (over S.seen fore.new).run ≡ (over S.seen fore.old).run }
{
    let ask = fore.machine.chips.late_ask(&fore.machine.beam);
    fore.access_by(&ask, raster, out)?;
    fore.end_clock(out)
}
