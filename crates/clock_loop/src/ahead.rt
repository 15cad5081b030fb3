//! Clocks on the bus that everybody else leaves to the processor, made one behind the other, and both clocks of an
//! access to memory at once.

ghost use Rattle.std.specs.Prelude.{◌≡◌, ◌≤◌, ◌<◌, ◌-◌, ◌+◌, true, false, Some, None, IfOk, OnOk, OnErr};
ghost use Rattle.band_log.specs.Raster.{RasterValue};
ghost use Rattle.cpu_bus.specs.Beside.{BeginsAnew};
ghost use Rattle.clock_loop.specs.code.BusRun.{CanMakeClock, HasMadeClock, HasMadeClockInPart, GoesOnBus};
ghost use Rattle.clock_loop.specs.code.BusRun.{CanMakeClocks, HasRunOnBus, HasRunInPart};
ghost use Rattle.foreground.specs.Fore.{over, CanGo};

use crate::clock::process_alone;
use chip_set::BlitterClaim;
use foreground::Fore;
use ocs_base::OutOfMemory;
use out_files::OutFiles;
use serial_model::Side;

/// The first of the next `left` clocks, as far as the processor begins or makes an access to memory in each. The
/// planes have no slot in them, the blitter does not ask for one, and the clock `limit` comes behind them; in
/// `rest` clocks nothing is to be done for the CIAs. The answer is how many were made.
#[inline(never)]
pub(crate) fn clocks_alone<S: Side>(
    fore: &mut Fore<S>,
    claim: &BlitterClaim,
    left: u16,
    rest: u16,
    limit: u64,
    out: &mut OutFiles,
) -> Result<u16, OutOfMemory>
    requires fits { (seen : RasterValue) × CanGo (over S.seen fore.old) seen }
    requires fresh { fore.old.spent ≡ false }
    requires can { CanMakeClocks limit left None rest claim.now (over S.seen fore.old) }
    requires alone { claim.now.asks ≡ false }
    ensures most { IfOk result (λ made. made ≤ left) }
    ensures rest { IfOk result (λ made. made ≤ rest) }
    ensures count { IfOk result (λ made. fore.new.machine.t ≡ fore.old.machine.t + made) }
    ensures runs { OnOk result ((seen : RasterValue) → HasRunOnBus limit (over S.seen fore.old)
        (over S.seen fore.new) seen seen out.old out.new) }
    ensures can { IfOk result (λ made. CanMakeClocks limit (left - made) None (rest - made)
        claim.now (over S.seen fore.new)) }
    ensures part { OnErr result ((seen : RasterValue) → HasRunInPart limit (over S.seen fore.old)
        (over S.seen fore.new) seen seen out.old out.new) }
    ensures run { (over S.seen fore.new).run ≡ (over S.seen fore.old).run }
    ensures fresh { OnOk result (fore.new.spent ≡ false) }
    ensures still { OnOk result (fore.new.machine.t ≡ fore.old.machine.t
        → fore.new ≡ fore.old) }
{
    let most = left.min(rest);
    let mut made = 0;
    while made < most {
        let more = some_alone(fore, claim, left - made, rest - made, limit, out)?;
        if more == 0 {
            return Ok(made);
        }
        made += more;
    }
    Ok(made)
}

/// Some of them: those of whole accesses, or else the next one. There are none only where the next one is none.
#[inline(always)]
fn some_alone<S: Side>(
    fore: &mut Fore<S>,
    claim: &BlitterClaim,
    left: u16,
    rest: u16,
    limit: u64,
    out: &mut OutFiles,
) -> Result<u16, OutOfMemory>
    requires fits { (seen : RasterValue) × CanGo (over S.seen fore.old) seen }
    requires fresh { fore.old.spent ≡ false }
    requires can { CanMakeClocks limit left None rest claim.now (over S.seen fore.old) }
    requires some { 0 < left }
    requires more { 0 < rest }
    requires alone { claim.now.asks ≡ false }
    ensures most { IfOk result (λ made. made ≤ left) }
    ensures rest { IfOk result (λ made. made ≤ rest) }
    ensures count { IfOk result (λ made. fore.new.machine.t ≡ fore.old.machine.t + made) }
    ensures runs { OnOk result ((seen : RasterValue) → HasRunOnBus limit (over S.seen fore.old)
        (over S.seen fore.new) seen seen out.old out.new) }
    ensures can { IfOk result (λ made. CanMakeClocks limit (left - made) None (rest - made)
        claim.now (over S.seen fore.new)) }
    ensures part { OnErr result ((seen : RasterValue) → HasRunInPart limit (over S.seen fore.old)
        (over S.seen fore.new) seen seen out.old out.new) }
    ensures run { (over S.seen fore.new).run ≡ (over S.seen fore.old).run }
    ensures fresh { OnOk result (fore.new.spent ≡ false) }
    ensures still { OnOk result (fore.new.machine.t ≡ fore.old.machine.t
        → fore.new ≡ fore.old) }
{
    let made = accesses_in_two(fore, claim, left, rest, limit, out)?;
    if made > 0 {
        return Ok(made);
    }
    if clock_alone(fore, claim, rest, out)? {
        return Ok(1);
    }
    Ok(0)
}

/// Those of whole accesses to memory, both clocks of each at once.
#[inline(always)]
fn accesses_in_two<S: Side>(
    fore: &mut Fore<S>,
    claim: &BlitterClaim,
    left: u16,
    rest: u16,
    limit: u64,
    out: &mut OutFiles,
) -> Result<u16, OutOfMemory>
    requires fits { (seen : RasterValue) × CanGo (over S.seen fore.old) seen }
    requires fresh { fore.old.spent ≡ false }
    requires can { CanMakeClocks limit left None rest claim.now (over S.seen fore.old) }
    requires alone { claim.now.asks ≡ false }
    ensures most { IfOk result (λ made. made ≤ left) }
    ensures rest { IfOk result (λ made. made ≤ rest) }
    ensures count { IfOk result (λ made. fore.new.machine.t ≡ fore.old.machine.t + made) }
    ensures runs { OnOk result ((seen : RasterValue) → HasRunOnBus limit (over S.seen fore.old)
        (over S.seen fore.new) seen seen out.old out.new) }
    ensures can { IfOk result (λ made. CanMakeClocks limit (left - made) None (rest - made)
        claim.now (over S.seen fore.new)) }
    ensures part { OnErr result ((seen : RasterValue) → HasRunInPart limit (over S.seen fore.old)
        (over S.seen fore.new) seen seen out.old out.new) }
    ensures run { (over S.seen fore.new).run ≡ (over S.seen fore.old).run }
    ensures fresh { OnOk result (fore.new.spent ≡ false) }
    ensures still { OnOk result (fore.new.machine.t ≡ fore.old.machine.t
        → fore.new ≡ fore.old) }
{
    if !fore.machine.chips.begins_anew() {
        return Ok(0);
    }
    let most = left.min(rest);
    let last = most.saturating_sub(1);
    let mut made = 0;
    while made < last {
        if !access_in_two(fore, claim, left - made, rest - made, limit, out)? {
            return Ok(made);
        }
        made += 2;
    }
    Ok(made)
}

/// Both clocks of an access to memory that has just begun, if one has. The answer says so.
#[inline(always)]
fn access_in_two<S: Side>(
    fore: &mut Fore<S>,
    claim: &BlitterClaim,
    left: u16,
    rest: u16,
    limit: u64,
    out: &mut OutFiles,
) -> Result<bool, OutOfMemory>
    requires fits { (seen : RasterValue) × CanGo (over S.seen fore.old) seen }
    requires fresh { fore.old.spent ≡ false }
    requires can { CanMakeClocks limit left None rest claim.now (over S.seen fore.old) }
    requires two { 1 < left }
    requires rests { 1 < rest }
    requires alone { claim.now.asks ≡ false }
    requires anew { BeginsAnew fore.old.machine.chips.processor }
    ensures runs { IfOk result (λ made. made ≡ true → (seen : RasterValue)
        → HasRunOnBus limit (over S.seen fore.old) (over S.seen fore.new) seen seen
        out.old out.new) }
    ensures can { IfOk result (λ made. made ≡ true → CanMakeClocks limit (left - 2) None (rest - 2)
        claim.now (over S.seen fore.new)) }
    ensures anew { IfOk result (λ made. made ≡ true
        → BeginsAnew fore.new.machine.chips.processor) }
    ensures count { IfOk result (λ made. made ≡ true
        → fore.new.machine.t ≡ fore.old.machine.t + 2) }
    ensures none { IfOk result (λ made. made ≡ false → fore.new ≡ fore.old) }
    ensures given { IfOk result (λ made. made ≡ false → out.new ≡ out.old) }
    ensures part { OnErr result ((seen : RasterValue) → HasRunInPart limit (over S.seen fore.old)
        (over S.seen fore.new) seen seen out.old out.new) }
    ensures run { (over S.seen fore.new).run ≡ (over S.seen fore.old).run }
    ensures fresh { fore.new.spent ≡ false }
{
    fore.machine.access_in_two(out)
}

/// One of them. The answer is whether it was made.
#[inline(always)]
fn clock_alone<S: Side>(
    fore: &mut Fore<S>,
    claim: &BlitterClaim,
    rest: u16,
    out: &mut OutFiles,
) -> Result<bool, OutOfMemory>
    requires can { (seen : RasterValue) × CanMakeClock None rest claim.now
        (over S.seen fore.old) seen }
    requires some { 0 < rest }
    requires alone { claim.now.asks ≡ false }
    ensures made { IfOk result (λ made. made ≡ true → (seen : RasterValue) → HasMadeClock
        (over S.seen fore.old) (over S.seen fore.new) seen seen out.old out.new) }
    ensures part { OnErr result ((seen : RasterValue) → HasMadeClockInPart
        (over S.seen fore.old) (over S.seen fore.new) seen seen out.old out.new) }
    ensures run { (over S.seen fore.new).run ≡ (over S.seen fore.old).run }
    ensures bus { IfOk result (λ made. made ≡ true
        → GoesOnBus None (rest - 1) (over S.seen fore.old) (over S.seen fore.new)) }
    ensures none { IfOk result (λ made. made ≡ false → fore.new ≡ fore.old) }
    ensures given { IfOk result (λ made. made ≡ false → out.new ≡ out.old) }
{
    process_alone(fore, out)
}
