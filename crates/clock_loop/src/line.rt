//! Clocks of a line that need no look around, made one behind the other.

ghost use Rattle.std.specs.Prelude.{◌≡◌, ◌≤◌, ◌<◌, ◌+◌, ◌-◌, max, ℕ, false, true, [], IfOk, OnOk, OnErr};
ghost use Rattle.serial_model.specs.Events.{due_events};
ghost use Rattle.serial_bands.specs.BusReads.{bus_reads};
ghost use Rattle.serial_model.specs.Beam.{later_beam};
ghost use Rattle.band_log.specs.Raster.{RasterValue};
ghost use Rattle.foreground.specs.Clock.{Rises};
ghost use Rattle.machine.specs.Machine.{IsSamePlace};
ghost use Rattle.foreground.specs.Fore.{over, CanGo, IsUnderway, Advances, GivesPart, is_done, looked_up};
ghost use Rattle.clock_loop.specs.RunTo.{RunsOn, RisesIn, RisesInSome};
ghost use Rattle.clock_loop.specs.code.BusRun.{HasRunOnBus, HasRunInPart};
ghost use Rattle.clock_loop.specs.code.Line.{AreInLine};

use crate::bus::run_on_bus;
use crate::lookout::{is_due, note_look};
use crate::quiet::most_clocks;
use band_log::Raster;
use foreground::Fore;
use ocs_base::OutOfMemory;
use out_files::OutFiles;
use serial_model::Side;

/// The clocks of this line that come before the clock `limit`, before the next event of the script, and
/// before quiet clocks are looked for again, as far as the open band goes on. All of it is what as many
/// calls of `advance` give, a refusal too. The answer says whether there were any.
#[inline(always)]
pub(crate) fn run_in_line<S: Side, Q: Raster<S>>(
    fore: &mut Fore<S>,
    limit: u64,
    raster: &mut Q,
    out: &mut OutFiles,
) -> Result<bool, OutOfMemory>
    requires fits { CanGo (over S.seen fore.old) (Q.seen raster.old) }
    requires fresh { fore.old.spent ≡ false }
    ensures clocks { OnOk result (RunsOn (over S.seen fore.old) (over S.seen fore.new)
        (Q.seen raster.old) (Q.seen raster.new) out.old out.new) }
    ensures on { OnOk result (fore.old.machine.t ≤ fore.new.machine.t) }
    ensures most { OnOk result (fore.new.machine.t ≤ max fore.old.machine.t limit) }
    ensures run { (over S.seen fore.new).run ≡ (over S.seen fore.old).run }
    ensures fresh { OnOk result (fore.new.spent ≡ false) }
    ensures reads { OnOk result (RisesIn (over S.seen fore.old).run fore.old.machine.t
        (fore.new.machine.t - fore.old.machine.t)
        fore.old.machine.chip.reads fore.new.machine.chip.reads) }
    ensures some { IfOk result (λ some. some ≡ true → fore.old.machine.t < fore.new.machine.t) }
    ensures none { IfOk result (λ some. some ≡ false → fore.new ≡ fore.old) }
    ensures spent { OnErr result (fore.new.spent ≡ true) }
    ensures part { OnErr result (GivesPart (over S.seen fore.old)
        (Q.seen raster.old) (Q.seen raster.new) out.old out.new) }
    ensures few { OnErr result (RisesInSome limit (over S.seen fore.old).run fore.old.machine.t
        fore.old.machine.chip.reads fore.new.machine.chip.reads) }
{
    let from = fore.machine.t;
    run_where_due(fore, limit, raster, out)?;
    run_up_to_look(fore, limit, raster, out)?;
    Ok(from < fore.machine.t)
}

/// Those on the bus, where it is time to look for them. There are none where the Copper wants the slot of this
/// clock: that is a look that has found nothing.
#[inline(always)]
fn run_where_due<S: Side, Q: Raster<S>>(
    fore: &mut Fore<S>,
    limit: u64,
    raster: &mut Q,
    out: &mut OutFiles,
) -> Result<(), OutOfMemory>
    requires fits { CanGo (over S.seen fore.old) (Q.seen raster.old) }
    requires fresh { fore.old.spent ≡ false }
    ensures runs { OnOk result (HasRunOnBus limit (over S.seen fore.old)
        (over S.seen fore.new) (Q.seen raster.old) (Q.seen raster.new) out.old out.new) }
    ensures part { OnErr result (HasRunInPart limit (over S.seen fore.old)
        (over S.seen fore.new) (Q.seen raster.old) (Q.seen raster.new) out.old out.new) }
    ensures run { (over S.seen fore.new).run ≡ (over S.seen fore.old).run }
    ensures fresh { OnOk result (fore.new.spent ≡ false) }
    ensures still { OnOk result (fore.new.machine.t ≡ fore.old.machine.t
        → fore.new ≡ fore.old) }
    ensures spent { OnErr result (fore.new.spent ≡ true) }
{
    if !is_due(&fore.lookout, fore.machine.t) {
        return Ok(());
    }
    if fore.machine.chips.copper_wish(&fore.machine.beam).is_some() {
        look_in_vain(fore);
        return Ok(());
    }
    run_on_bus(fore, limit, raster, out)
}

/// A look at this clock has found nothing.
#[inline(always)]
fn look_in_vain<S: Side>(fore: &mut Fore<S>)
    ensures { fore.new ≡ fore.old }
{
    note_look(
        &mut fore.lookout,
        fore.machine.t,
        fore.machine.beam.h,
        false,
    );
}

/// Those up to the next look, one by one.
#[inline(always)]
#[tactic(auto, using(crate::proofs::RunToLaws::runs_none))]
fn run_up_to_look<S: Side, Q: Raster<S>>(
    fore: &mut Fore<S>,
    limit: u64,
    raster: &mut Q,
    out: &mut OutFiles,
) -> Result<(), OutOfMemory>
    requires fits { CanGo (over S.seen fore.old) (Q.seen raster.old) }
    requires fresh { fore.old.spent ≡ false }
    ensures clocks { OnOk result (RunsOn (over S.seen fore.old) (over S.seen fore.new)
        (Q.seen raster.old) (Q.seen raster.new) out.old out.new) }
    ensures on { OnOk result (fore.old.machine.t ≤ fore.new.machine.t) }
    ensures most { OnOk result (fore.new.machine.t ≤ max fore.old.machine.t limit) }
    ensures run { (over S.seen fore.new).run ≡ (over S.seen fore.old).run }
    ensures fresh { OnOk result (fore.new.spent ≡ false) }
    ensures reads { OnOk result (RisesIn (over S.seen fore.old).run fore.old.machine.t
        (fore.new.machine.t - fore.old.machine.t)
        fore.old.machine.chip.reads fore.new.machine.chip.reads) }
    ensures still { OnOk result (fore.new.machine.t ≡ fore.old.machine.t
        → fore.new ≡ fore.old) }
    ensures spent { OnErr result (fore.new.spent ≡ true) }
    ensures part { OnErr result (GivesPart (over S.seen fore.old)
        (Q.seen raster.old) (Q.seen raster.new) out.old out.new) }
    ensures few { OnErr result (RisesInSome limit (over S.seen fore.old).run fore.old.machine.t
        fore.old.machine.chip.reads fore.new.machine.chip.reads) }
{
    if is_due(&fore.lookout, fore.machine.t) || 226 <= fore.machine.beam.h {
        return Ok(());
    }
    run_one_by_one(fore, limit, raster, out)
}

/// Clocks of this line before the clock `limit` and the next look, each with all that a clock may have.
#[inline(never)]
fn run_one_by_one<S: Side, Q: Raster<S>>(
    fore: &mut Fore<S>,
    limit: u64,
    raster: &mut Q,
    out: &mut OutFiles,
) -> Result<(), OutOfMemory>
    requires fits { CanGo (over S.seen fore.old) (Q.seen raster.old) }
    requires fresh { fore.old.spent ≡ false }
    ensures clocks { OnOk result (RunsOn (over S.seen fore.old) (over S.seen fore.new)
        (Q.seen raster.old) (Q.seen raster.new) out.old out.new) }
    ensures on { OnOk result (fore.old.machine.t ≤ fore.new.machine.t) }
    ensures most { OnOk result (fore.new.machine.t ≤ max fore.old.machine.t limit) }
    ensures run { (over S.seen fore.new).run ≡ (over S.seen fore.old).run }
    ensures fresh { OnOk result (fore.new.spent ≡ false) }
    ensures reads { OnOk result (RisesIn (over S.seen fore.old).run fore.old.machine.t
        (fore.new.machine.t - fore.old.machine.t)
        fore.old.machine.chip.reads fore.new.machine.chip.reads) }
    ensures still { OnOk result (fore.new.machine.t ≡ fore.old.machine.t
        → fore.new ≡ fore.old) }
    ensures spent { OnErr result (fore.new.spent ≡ true) }
    ensures part { OnErr result (GivesPart (over S.seen fore.old)
        (Q.seen raster.old) (Q.seen raster.new) out.old out.new) }
    ensures few { OnErr result (RisesInSome limit (over S.seen fore.old).run fore.old.machine.t
        fore.old.machine.chip.reads fore.new.machine.chip.reads) }
{
    let mut left = clocks_in_line(fore, limit);
    while left > 0 && fore.log.band.from < fore.machine.t {
        if let Err(refused) = clock_in_line(fore, raster, out) {
            fore.spent = true;
            return Err(refused);
        }
        left -= 1;
    }
    Ok(())
}

/// How many they are, if the open band goes on with each; nothing hangs on it but how fast a run is.
#[inline(always)]
fn clocks_in_line<S: Side>(fore: &Fore<S>, limit: u64) -> u16
    requires { (first : ℕ) × (seen : RasterValue) × IsUnderway
        (over S.seen fore.now) first seen }
    ensures { 0 < result → AreInLine limit result (over S.seen fore.now) }
{
    clocks_before(fore, limit.min(fore.lookout.from))
}

/// How many clocks of this line come before the clock `until` and before the next event of the script, as
/// far as one behind another may be made; nothing hangs on it but how fast a run is.
#[inline(always)]
pub(crate) fn clocks_before<S: Side>(fore: &Fore<S>, until: u64) -> u16
    requires { (first : ℕ) × (seen : RasterValue) × IsUnderway
        (over S.seen fore.now) first seen }
    ensures { 0 < result → AreInLine until result (over S.seen fore.now) }
{
    let h = fore.machine.beam.h;
    if h == 0 || 226 <= h || until <= fore.machine.t || fore.done() {
        return 0;
    }
    most_clocks(fore, until)
}

/// One of them. That memory was wanted is the caller's to note.
#[inline(always)]
fn clock_in_line<S: Side, Q: Raster<S>>(
    fore: &mut Fore<S>,
    raster: &mut Q,
    out: &mut OutFiles,
) -> Result<(), OutOfMemory>
    requires underway { (first : ℕ) × IsUnderway (over S.seen fore.old) first
        (Q.seen raster.old) }
    requires running { is_done (over S.seen fore.old) ≡ false }
    requires inner { 0 < fore.old.machine.beam.h }
    requires last { fore.old.machine.beam.h < 226 }
    requires due { due_events fore.old.machine.beam fore.old.run.script.events ≡ [] }
    requires before { fore.old.log.band.from < fore.old.machine.t }
    ensures clock { OnOk result (Advances (over S.seen fore.old) (over S.seen fore.new)
        (Q.seen raster.old) (Q.seen raster.new) out.old out.new) }
    ensures place { OnOk result (IsSamePlace (later_beam 1 fore.old.machine.beam)
        fore.new.machine.beam) }
    ensures part { OnErr result (GivesPart (over S.seen fore.old)
        (Q.seen raster.old) (Q.seen raster.new) out.old out.new) }
    ensures count { OnOk result (fore.new.machine.t ≡ fore.old.machine.t + 1) }
    ensures run { (over S.seen fore.new).run ≡ (over S.seen fore.old).run }
    ensures spent { OnOk result (fore.new.spent ≡ fore.old.spent) }
    ensures reads { OnOk result (Rises (bus_reads (over S.seen fore.old).run fore.old.machine.t)
        (bus_reads (over S.seen fore.old).run fore.old.machine.t + looked_up
        (over S.seen fore.old))
        fore.old.machine.chip.reads fore.new.machine.chip.reads) }
    ensures few { OnErr result (Rises 0
        (bus_reads (over S.seen fore.old).run fore.old.machine.t + looked_up
        (over S.seen fore.old))
        fore.old.machine.chip.reads fore.new.machine.chip.reads) }
{
    fore.go_on()?;
    let ask = fore.ask();
    fore.access(ask, raster, out)?;
    fore.end_clock(out)
}
