//! The call for many clocks.

ghost use Rattle.std.specs.Prelude.{◌≡◌, ◌-◌, true, false, IsErr, OnOk, OnErr};
ghost use Rattle.foreground.specs.Fore.{over, CanGo, GivesPart};
ghost use Rattle.clock_loop.specs.RunTo.{RunsOn, HasCome, RisesIn, RisesInSome};

use crate::line::run_in_line;
use crate::quiet::pass_quiet;
use band_log::Raster;
use foreground::Fore;
use ocs_base::OutOfMemory;
use out_files::OutFiles;
use serial_model::Side;

/// As many clocks as come before the clock `limit`, a number of colour clocks since reset, or up
/// to the run's end; none where that clock is the present one or is behind. All of it is what as
/// many calls of `advance` give, a refusal too. Clocks at which nobody asks for the bus and
/// nothing is due are passed over at once where they are known to be such.
pub fn run_to<S: Side, Q: Raster<S>>(
    fore: &mut Fore<S>,
    limit: u64,
    raster: &mut Q,
    out: &mut OutFiles,
) -> Result<(), OutOfMemory>
    requires fits { CanGo (over S.seen fore.old) (Q.seen raster.old) }
    ensures clocks { OnOk result (RunsOn (over S.seen fore.old) (over S.seen fore.new)
        (Q.seen raster.old) (Q.seen raster.new) out.old out.new) }
    ensures come { OnOk result (HasCome limit (over S.seen fore.old) (over S.seen fore.new)) }
    ensures run { (over S.seen fore.new).run ≡ (over S.seen fore.old).run }
    ensures fresh { OnOk result (fore.new.spent ≡ false) }
    ensures reads { OnOk result (RisesIn (over S.seen fore.old).run fore.old.machine.t
        (fore.new.machine.t - fore.old.machine.t)
        fore.old.machine.chip.reads fore.new.machine.chip.reads) }
    ensures spent { OnErr result (fore.new.spent ≡ true) }
    ensures part { OnErr result (fore.old.spent ≡ false → GivesPart (over S.seen fore.old)
        (Q.seen raster.old) (Q.seen raster.new) out.old out.new) }
    ensures few { OnErr result (RisesInSome limit (over S.seen fore.old).run fore.old.machine.t
        fore.old.machine.chip.reads fore.new.machine.chip.reads) }
    ensures refused { fore.old.spent ≡ true → IsErr result }
    ensures nothing { fore.old.spent ≡ true → out.new ≡ out.old }
    ensures left { fore.old.spent ≡ true → Q.seen raster.new ≡ Q.seen raster.old }
    ensures same { fore.old.spent ≡ true → fore.new ≡ fore.old }
{
    if fore.spent {
        return Err(OutOfMemory);
    }
    while fore.machine.t < limit && !fore.done() {
        if !pass_quiet(fore, limit)? {
            if !run_in_line(fore, limit, raster, out)? {
                fore.advance(raster, out)?;
            }
        }
    }
    Ok(())
}
