//! The rest of a clock on the bus, once the chips have asked for its slot: the access, the processor's turn, and the
//! beam. None of it is lent the raster.

ghost use Rattle.std.specs.Prelude.{◌≡◌, ◌+◌, ◌≤◌, ◌<◌, ◌^◌, Bool, true, false, is_some, None, Ok, IfOk, OnOk, OnErr};
ghost use Rattle.serial_model.specs.Beam.{next_place};
ghost use Rattle.serial_model.specs.Bus.{blit_owner_ask, processor_ask};
ghost use Rattle.serial_model.specs.declared.bus.Ask.{Ask as AskOf};
ghost use Rattle.serial_model.specs.declared.bus.Ask.TheVariants as A;
ghost use Rattle.serial_model.specs.Bus.{reads_of_ask};
ghost use Rattle.serial_bands.specs.Shadows.{IsInRange};
ghost use Rattle.picture_log.specs.Log.{with_access_touch};
ghost use Rattle.band_log.specs.Raster.{RasterValue};
ghost use Rattle.ocs_base.specs.declared.memory.OutOfMemory.{OutOfMemory as NoMemory};
ghost use Rattle.out_files.specs.OutFiles.{OutFilesValue};
ghost use Rattle.cpu_bus.specs.Bus.{wish_shown};
ghost use Rattle.chip_set.specs.Bus.{LeavesToPlanes, KeepsBus, CiasRest, is_bus_ask};
ghost use Rattle.chip_set.specs.Chips.{kept_wish};
ghost use Rattle.machine.specs.Ahead.{goes_alone};
ghost use Rattle.foreground.specs.Access.{CanAccess};
ghost use Rattle.clock_loop.specs.code.BusRun.{StaysOnBus, ServesAsk, EndsItsClock, HasAskedFor, IsWithinLine};
ghost use Rattle.clock_loop.specs.code.BusRun.{EndsAlone, EndsBeside};
ghost use Rattle.clock_loop.specs.code.BusRun.{is_made, stays_left};
ghost use Rattle.foreground.specs.Fore.{ForeValue, over};
ghost use Rattle.machine.specs.Machine.{reads_more};
ghost use Rattle.foreground.specs.Steps.{MakesAskedAccess, AccessesPart, KeepsClock, EndsClock};

use foreground::Fore;
use machine::touch_of;
use ocs_base::OutOfMemory;
use out_files::OutFiles;
use picture_log::Log;
use serial_model::{Ask, PlaneAsk, Side, Touch};

/// What came of the access of a clock.
pub(crate) enum Access {
    /// It was made, and the bus is known to be left in further clocks.
    Stays,
    /// It was made.
    Ends,
    /// It was not made: it is neither to memory nor nobody's.
    Other,
}

/// That of the blitter, out of line.
#[inline(never)]
fn blit_apart<S: Side>(fore: &mut Fore<S>, out: &mut OutFiles) -> Result<Access, OutOfMemory>
    requires can { (seen : RasterValue)
        × CanAccess (blit_owner_ask (kept_wish fore.old.machine.chips))
        (over S.seen fore.old) seen }
    requires room { fore.old.machine.t + 1 < 2 ^ 64 }
    requires waits { fore.old.log.waiting ≡ None }
    requires leaves { LeavesToPlanes fore.old.machine.beam fore.old.machine.chips }
    requires asks { is_some (kept_wish fore.old.machine.chips) ≡ true }
    ensures { ServesAsk (blit_owner_ask (kept_wish fore.old.machine.chips))
        (over S.seen fore.old) (over S.seen fore.new) out.old out.new result }
{
    match fore.machine.chips.blit_ask_in_turn() {
        Ask::Blit { ask } => serve_on_bus(fore, &Ask::Blit { ask }, out),
        _ => Ok(Access::Other),
    }
}

/// The rest of a clock in which the blitter has the slot. Which kind of access an area blit makes is asked for at
/// once, so that each has a way of its own from the ask to its end.
#[inline(always)]
pub(crate) fn blit_clock<S: Side>(
    fore: &mut Fore<S>,
    rest: &mut u16,
    out: &mut OutFiles,
) -> Result<Access, OutOfMemory>
    requires asked { (f : ForeValue) × (seen : RasterValue) × IsWithinLine f seen
        × HasAskedFor (blit_owner_ask (kept_wish fore.old.machine.chips)) f (over S.seen fore.old) }
    requires leaves { LeavesToPlanes fore.old.machine.beam fore.old.machine.chips }
    requires asks { is_some (kept_wish fore.old.machine.chips) ≡ true }
    ensures ends { EndsItsClock (blit_owner_ask (kept_wish fore.old.machine.chips))
        (over S.seen fore.old) (over S.seen fore.new) out.old out.new result }
    ensures rest { IfOk result (λ access. stays_left access ≡ true
        → CiasRest (fore.old.machine.t + 1) rest.old fore.old.machine.chips
        → CiasRest fore.new.machine.t rest.new fore.new.machine.chips) }
    ensures few { rest.new ≤ rest.old }
{
    if let Some((at, word)) = fore.machine.chips.blit_write_in_turn() {
        let waited = fore.machine.write_for_blit(at, word)?;
        return end_blit(fore, waited, rest, out);
    }
    if let Some(at) = fore.machine.chips.blit_read_in_turn() {
        let waited = fore.machine.read_for_blit(at);
        return end_blit(fore, waited, rest, out);
    }
    blit_clock_apart(fore, rest, out)
}

/// The same, with the access out of line.
#[inline(always)]
pub(crate) fn blit_clock_apart<S: Side>(
    fore: &mut Fore<S>,
    rest: &mut u16,
    out: &mut OutFiles,
) -> Result<Access, OutOfMemory>
    requires asked { (f : ForeValue) × (seen : RasterValue) × IsWithinLine f seen
        × HasAskedFor (blit_owner_ask (kept_wish fore.old.machine.chips)) f (over S.seen fore.old) }
    requires leaves { LeavesToPlanes fore.old.machine.beam fore.old.machine.chips }
    requires asks { is_some (kept_wish fore.old.machine.chips) ≡ true }
    ensures ends { EndsItsClock (blit_owner_ask (kept_wish fore.old.machine.chips))
        (over S.seen fore.old) (over S.seen fore.new) out.old out.new result }
    ensures rest { IfOk result (λ access. stays_left access ≡ true
        → CiasRest (fore.old.machine.t + 1) rest.old fore.old.machine.chips
        → CiasRest fore.new.machine.t rest.new fore.new.machine.chips) }
    ensures few { rest.new ≤ rest.old }
{
    let access = blit_apart(fore, out)?;
    end_access(fore, access, rest, out)
}

/// The end of such a clock behind an access of an area blit; the processor has taken its turn already where it has
/// waited.
#[inline(always)]
fn end_blit<S: Side>(
    fore: &mut Fore<S>,
    waited: bool,
    rest: &mut u16,
    out: &mut OutFiles,
) -> Result<Access, OutOfMemory>
    requires line { fore.old.machine.beam.h < 226 }
    requires count { fore.old.machine.t + 1 < 2 ^ 64 }
    ensures ends { OnOk result (EndsBeside waited (over S.seen fore.old).machine out.old
        (over S.seen fore.new).machine out.new) }
    ensures same { fore.new ≡ record fore.old { machine = fore.new.machine } }
    ensures chip { fore.new.machine.chip ≡ fore.old.machine.chip }
    ensures left { OnErr result (waited ≡ false) }
    ensures refused { OnErr result (out.new ≡ out.old) }
    ensures rest { OnOk result (CiasRest (fore.old.machine.t + 1) rest.old fore.old.machine.chips
        → CiasRest fore.new.machine.t rest.new fore.new.machine.chips) }
    ensures made { IfOk result (λ access. is_made access ≡ true) }
    ensures stays { IfOk result (λ access. stays_left access
        ≡ is_some fore.new.machine.chips.blit) }
    ensures few { rest.new ≤ rest.old }
{
    end_beside(fore, waited, rest, out)?;
    if fore.machine.chips.is_blitting() {
        Ok(Access::Stays)
    } else {
        Ok(Access::Ends)
    }
}

/// The end of a clock behind this access, if that was made.
#[inline(always)]
fn end_access<S: Side>(
    fore: &mut Fore<S>,
    access: Access,
    rest: &mut u16,
    out: &mut OutFiles,
) -> Result<Access, OutOfMemory>
    requires line { fore.old.machine.beam.h < 226 }
    requires count { fore.old.machine.t + 1 < 2 ^ 64 }
    ensures ends { (ask : AskOf) (old : ForeValue) (told : OutFilesValue)
        → ServesAsk {E = NoMemory} ask old (over S.seen fore.old) told out.old (Ok access)
        → EndsItsClock ask old (over S.seen fore.new) told out.new result }
    ensures same { IfOk result (λ ended. ended ≡ access) }
    ensures rest { IfOk result (λ ended. is_made ended ≡ true
        → CiasRest (fore.old.machine.t + 1) rest.old fore.old.machine.chips
        → CiasRest fore.new.machine.t rest.new fore.new.machine.chips) }
    ensures few { rest.new ≤ rest.old }
{
    match access {
        Access::Stays => {
            end_on_bus(fore, rest, out)?;
            Ok(Access::Stays)
        }
        Access::Ends => {
            end_on_bus(fore, rest, out)?;
            Ok(Access::Ends)
        }
        Access::Other => Ok(Access::Other),
    }
}

/// The rest of a clock in which the processor has the slot, if it asks, and else nobody. The answer is whether it
/// was made: all is left as it is where the processor asks for a register or accesses a CIA, and where it does what
/// is rare.
#[inline(always)]
pub(crate) fn process_alone<S: Side>(
    fore: &mut Fore<S>,
    out: &mut OutFiles,
) -> Result<bool, OutOfMemory>
    requires asked { (f : ForeValue) × (seen : RasterValue) × IsWithinLine f seen
        × HasAskedFor (processor_ask (wish_shown fore.old.machine.chips.processor)) f
        (over S.seen fore.old) }
    requires leaves { LeavesToPlanes fore.old.machine.beam fore.old.machine.chips }
    ensures alone { IfOk result (λ made. made ≡ goes_alone fore.old.machine.chips.processor) }
    ensures none { IfOk result (λ made. made ≡ false → fore.new ≡ fore.old) }
    ensures ends { EndsAlone (processor_ask (wish_shown fore.old.machine.chips.processor))
        (over S.seen fore.old) (over S.seen fore.new) out.old out.new result }
{
    if fore.machine.process_alone(out)? {
        fore.machine.advance_in_line();
        return Ok(true);
    }
    Ok(false)
}

/// The same, out of line.
#[inline(never)]
pub(crate) fn process_apart<S: Side>(
    fore: &mut Fore<S>,
    out: &mut OutFiles,
) -> Result<bool, OutOfMemory>
    requires asked { (f : ForeValue) × (seen : RasterValue) × IsWithinLine f seen
        × HasAskedFor (processor_ask (wish_shown fore.old.machine.chips.processor)) f
        (over S.seen fore.old) }
    requires leaves { LeavesToPlanes fore.old.machine.beam fore.old.machine.chips }
    ensures alone { IfOk result (λ made. made ≡ goes_alone fore.old.machine.chips.processor) }
    ensures none { IfOk result (λ made. made ≡ false → fore.new ≡ fore.old) }
    ensures ends { EndsAlone (processor_ask (wish_shown fore.old.machine.chips.processor))
        (over S.seen fore.old) (over S.seen fore.new) out.old out.new result }
{
    process_alone(fore, out)
}

/// A clock that was made alone, or left.
#[inline(always)]
pub(crate) fn made_alone(made: bool) -> Access
    ensures made { is_made result ≡ made }
    ensures stays { stays_left result ≡ made }
{
    if made { Access::Stays } else { Access::Other }
}

/// The access of the blitter, of the processor to memory, or of nobody.
#[inline(always)]
fn serve_on_bus<S: Side>(
    fore: &mut Fore<S>,
    ask: &Ask,
    out: &mut OutFiles,
) -> Result<Access, OutOfMemory>
    requires can { (seen : RasterValue) × CanAccess ask.now (over S.seen fore.old) seen }
    requires bus { is_bus_ask ask.now ≡ true }
    requires room { fore.old.machine.t + 1 < 2 ^ 64 }
    requires waits { fore.old.log.waiting ≡ None }
    requires leaves { LeavesToPlanes fore.old.machine.beam fore.old.machine.chips }
    ensures makes { OnOk result ((seen : RasterValue) → MakesAskedAccess
        (over S.seen fore.old) (over S.seen fore.new) seen seen out.old out.new) }
    ensures part { OnErr result ((seen : RasterValue) → AccessesPart
        (over S.seen fore.old) seen seen out.old out.new) }
    ensures kept { KeepsClock (over S.seen fore.old) (over S.seen fore.new) }
    ensures reads { fore.new.machine.chip.reads ≡ reads_more
        (reads_of_ask ask.now) fore.old.machine.chip.reads }
    ensures made { IfOk result (λ access. is_made access ≡ true) }
    ensures bus { IfOk result (λ access. stays_left access ≡ true
        → StaysOnBus (over S.seen fore.old) (over S.seen fore.new)) }
{
    let busy = fore.machine.chips.is_blitting();
    let made = fore.machine.answer_on_bus(ask, out)?;
    let t = fore.machine.t;
    note_touch(&mut fore.log, t, &touch_of(&made))?;
    Ok(made_access(fore.machine.chips.is_blitting() == busy))
}

/// The rest of a clock in which this plane has the slot.
#[inline(always)]
pub(crate) fn plane_clock<S: Side>(
    fore: &mut Fore<S>,
    ask: &PlaneAsk,
    rest: &mut u16,
    out: &mut OutFiles,
) -> Result<Access, OutOfMemory>
    requires asked { (f : ForeValue) × (seen : RasterValue) × IsWithinLine f seen
        × HasAskedFor (A.Plane ask.now) f (over S.seen fore.old) }
    requires leaves { LeavesToPlanes fore.old.machine.beam fore.old.machine.chips }
    ensures ends { EndsItsClock (A.Plane ask.now) (over S.seen fore.old) (over S.seen fore.new)
        out.old out.new result }
    ensures made { IfOk result (λ access. is_made access ≡ true) }
    ensures rest { IfOk result (λ access. stays_left access ≡ true
        → CiasRest (fore.old.machine.t + 1) rest.old fore.old.machine.chips
        → CiasRest fore.new.machine.t rest.new fore.new.machine.chips) }
    ensures few { rest.new ≤ rest.old }
{
    fore.log.note_plane(fore.machine.t, ask)?;
    let waited = fore.machine.pass_plane(ask);
    end_beside(fore, waited, rest, out)?;
    Ok(Access::Stays)
}

/// An access that was made; the bus is known to be left in further clocks, or not.
#[inline(always)]
fn made_access(stays: bool) -> Access
    ensures made { is_made result ≡ true }
    ensures stays { stays_left result ≡ stays }
{
    if stays { Access::Stays } else { Access::Ends }
}

/// A touch by the access of a clock, where no write waits: without one nothing is to be noted.
#[inline(always)]
fn note_touch(log: &mut Log, t: u64, touch: &Option<Touch>) -> Result<(), OutOfMemory>
    requires waits { log.old.waiting ≡ None }
    requires range { IsInRange touch.now }
    requires room { t + 1 < 2 ^ 64 }
    ensures { OnOk result (log.new ≡ with_access_touch t touch.now log.old) }
{
    match touch {
        Some(_) => log.note_access(t, touch),
        None => Ok(()),
    }
}

/// The last two steps of a clock; the first of them is made already where the processor has waited.
#[inline(always)]
fn end_beside<S: Side>(
    fore: &mut Fore<S>,
    waited: bool,
    rest: &mut u16,
    out: &mut OutFiles,
) -> Result<(), OutOfMemory>
    requires line { fore.old.machine.beam.h < 226 }
    requires count { fore.old.machine.t + 1 < 2 ^ 64 }
    ensures ends { OnOk result (EndsBeside waited (over S.seen fore.old).machine out.old
        (over S.seen fore.new).machine out.new) }
    ensures same { fore.new ≡ record fore.old { machine = fore.new.machine } }
    ensures chip { fore.new.machine.chip ≡ fore.old.machine.chip }
    ensures left { OnErr result (waited ≡ false) }
    ensures refused { OnErr result (out.new ≡ out.old) }
    ensures rest { OnOk result (CiasRest (fore.old.machine.t + 1) rest.old fore.old.machine.chips
        → CiasRest fore.new.machine.t rest.new fore.new.machine.chips) }
    ensures few { rest.new ≤ rest.old }
{
    if !waited {
        let alone = fore.machine.process_beside_cias(out)?;
        *rest = rest_beside(alone, *rest);
    }
    fore.machine.advance_in_line();
    Ok(())
}

/// The last two steps of a clock.
#[inline(always)]
fn end_on_bus<S: Side>(
    fore: &mut Fore<S>,
    rest: &mut u16,
    out: &mut OutFiles,
) -> Result<(), OutOfMemory>
    requires line { fore.old.machine.beam.h < 226 }
    requires count { fore.old.machine.t + 1 < 2 ^ 64 }
    ensures ends { OnOk result (EndsClock (over S.seen fore.old) (over S.seen fore.new) out.old
        out.new) }
    ensures place { OnOk result ((lace : Bool)
        × (fore.new.machine.beam ≡ next_place (over S.seen fore.old).run.script.system lace
        fore.old.machine.beam)) }
    ensures run { (over S.seen fore.new).run ≡ (over S.seen fore.old).run }
    ensures chip { fore.new.machine.chip ≡ fore.old.machine.chip }
    ensures side { fore.new.machine.side ≡ fore.old.machine.side }
    ensures bus { KeepsBus fore.old.machine.chips fore.new.machine.chips }
    ensures rest { OnOk result
        (CiasRest (fore.old.machine.t + 1) rest.old fore.old.machine.chips
        → CiasRest fore.new.machine.t rest.new fore.new.machine.chips) }
    ensures refused { OnErr result (out.new ≡ out.old) }
    ensures few { rest.new ≤ rest.old }
{
    let alone = fore.machine.process_beside_cias(out)?;
    *rest = rest_beside(alone, *rest);
    fore.machine.advance_in_line();
    Ok(())
}

/// In how many clocks nothing is to be done for the CIAs, where that was known of so many, and the processor
/// left them alone or not.
#[inline(always)]
fn rest_beside(alone: bool, rest: u16) -> u16
    ensures alone { alone ≡ true → result ≡ rest }
    ensures accessed { alone ≡ false → result ≡ 0 }
    ensures few { result ≤ rest }
{
    if alone { rest } else { 0 }
}
