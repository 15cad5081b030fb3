//! Clocks at which nobody asks for the bus and nothing is due, passed over at once.

ghost use Rattle.std.specs.Prelude.{◌≡◌, ◌≤◌, ◌<◌, ◌+◌, ℕ, true, false, [], IfOk, OnOk, OnErr};
ghost use Rattle.serial_model.specs.Beam.{IsOnScreen, place_of, later_beam};
ghost use Rattle.serial_model.specs.Events.{due_events};
ghost use Rattle.band_log.specs.Raster.{RasterValue};
ghost use Rattle.foreground.specs.Script.{IsLeft};
ghost use Rattle.foreground.specs.Fore.{over, HasScript, IsUnderway, is_done};
ghost use Rattle.clock_loop.specs.code.Quiet.{HasPassed};

use crate::fetches::pass_fetches;
use crate::lookout::{BEHIND_SPRITES, WORTH, is_due, note_look};
use foreground::Fore;
use ocs_base::{At, Beam, OutOfMemory};
use serial_model::Side;

/// Passes over clocks of this line before the clock `limit` at which nobody asks for the bus and nothing
/// is due, if some are known to be such: as many calls of `advance` would give nothing. The answer says
/// whether there were any. Memory may be wanted.
#[inline(always)]
pub(crate) fn pass_quiet<S: Side>(fore: &mut Fore<S>, limit: u64) -> Result<bool, OutOfMemory>
    requires underway { (first : ℕ) × (seen : RasterValue) × IsUnderway
        (over S.seen fore.old) first seen }
    requires running { is_done (over S.seen fore.old) ≡ false }
    requires before { fore.old.machine.t < limit }
    ensures passed { OnOk result (HasPassed limit (over S.seen fore.old)
        (over S.seen fore.new)) }
    ensures some { IfOk result (λ some. some ≡ true → fore.old.machine.t < fore.new.machine.t) }
    ensures none { IfOk result (λ some. some ≡ false → fore.new ≡ fore.old) }
    ensures run { (over S.seen fore.new).run ≡ (over S.seen fore.old).run }
    ensures reads { fore.new.machine.chip.reads ≡ fore.old.machine.chip.reads }
    ensures spent { OnErr result (fore.new.spent ≡ true) }
{
    let h = fore.machine.beam.h;
    let due = is_due(&fore.lookout, fore.machine.t);
    if !due || h == 0 || 226 <= h || fore.machine.t <= fore.log.band.from {
        return Ok(false);
    }
    if fore.machine.chips.is_busy() {
        pause_with_side(fore, h);
        return Ok(false);
    }
    pass_in_line(fore, limit)
}

/// While chips are busy beside a side, clock `h` of a line is followed by a pause: clocks on the bus, which
/// are looked for in place of quiet ones, have no side.
#[inline(always)]
fn pause_with_side<S: Side>(fore: &mut Fore<S>, h: u16)
    ensures { fore.new ≡ fore.old }
{
    if !fore.machine.side.is_nothing() {
        note_look(&mut fore.lookout, fore.machine.t, h, false);
    }
}

/// The same within a line, where the open band goes on with this clock unless the script reads CLXDAT in
/// it.
#[inline(never)]
fn pass_in_line<S: Side>(fore: &mut Fore<S>, limit: u64) -> Result<bool, OutOfMemory>
    requires underway { (first : ℕ) × (seen : RasterValue) × IsUnderway
        (over S.seen fore.old) first seen }
    requires running { is_done (over S.seen fore.old) ≡ false }
    requires before { fore.old.machine.t < limit }
    requires inner { 0 < fore.old.machine.beam.h }
    requires last { fore.old.machine.beam.h < 226 }
    requires open { fore.old.log.band.from < fore.old.machine.t }
    ensures passed { OnOk result (HasPassed limit (over S.seen fore.old)
        (over S.seen fore.new)) }
    ensures some { IfOk result (λ some. some ≡ true → fore.old.machine.t < fore.new.machine.t) }
    ensures none { IfOk result (λ some. some ≡ false → fore.new ≡ fore.old) }
    ensures run { (over S.seen fore.new).run ≡ (over S.seen fore.old).run }
    ensures reads { fore.new.machine.chip.reads ≡ fore.old.machine.chip.reads }
    ensures spent { OnErr result (fore.new.spent ≡ true) }
{
    let most = most_clocks(fore, limit);
    let passed = fore.machine.pass_quiet(most);
    if passed == 0 {
        return pass_fetches(fore, limit, most);
    }
    let h = fore.machine.beam.h;
    let pays = passed >= WORTH || h >= BEHIND_SPRITES && fore.machine.side.is_nothing();
    note_look(&mut fore.lookout, fore.machine.t, h, pays);
    match fore.log.take_waiting() {
        Ok(()) => Ok(true),
        Err(refusal) => {
            fore.spent = true;
            Err(refusal)
        }
    }
}

/// How many clocks from this one on are in this line, before the clock `limit` and before the next event
/// of the script; nothing hangs on it but how fast a run is.
#[inline(always)]
pub(crate) fn most_clocks<S: Side>(fore: &Fore<S>, limit: u64) -> u16
    requires script { HasScript (over S.seen fore.now).run fore.now.machine.beam fore.now.next }
    requires screen { IsOnScreen fore.now.machine.beam }
    requires before { fore.now.machine.t < limit }
    requires last { fore.now.machine.beam.h < 226 }
    ensures line { fore.now.machine.beam.h + result ≤ 226 }
    ensures limit { fore.now.machine.t + result ≤ limit }
    ensures due { (k : ℕ) → k < result → due_events (later_beam k fore.now.machine.beam)
        fore.now.run.script.events ≡ [] }
{
    let rest = 226 - fore.machine.beam.h;
    let left = limit - fore.machine.t;
    let most = if left < rest as u64 {
        left as u16
    } else {
        rest
    };
    let events = fore.run.script().events();
    clocks_before_event(&events[fore.cursor.next..], &fore.machine.beam, most)
}

/// How many clocks of this line come before the first of these events, at most so many; nothing hangs on it
/// but how fast a run is. `events` are those that are left.
#[inline(always)]
fn clocks_before_event(events: &[At], beam: &Beam, most: u16) -> u16
    requires screen { IsOnScreen beam.now }
    requires queue { IsLeft (place_of beam.now) events.now }
    requires room { beam.now.h + most ≤ 226 }
    ensures most { result ≤ most }
    ensures none { (k : ℕ) → k < result → due_events (later_beam k beam.now) events.now ≡ [] }
{
    let Some((event, _)) = events.split_first() else {
        return most;
    };
    if event.frame != beam.frame || event.v != beam.v {
        return most;
    }
    most.min(event.h.saturating_sub(beam.h))
}
