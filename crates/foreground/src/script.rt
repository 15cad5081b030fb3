//! The script's events of a clock.

ghost use Rattle.std.specs.Prelude.{◌≡◌, ◌+◌, true, false, OnOk, OnErr, IfOk};
ghost use Rattle.serial_model.specs.Beam.{IsOnScreen, place_of};
ghost use Rattle.serial_model.specs.Events.{is_due as due_at, due_events, touches_of, made_by_act};
ghost use Rattle.serial_model.specs.Made.{is_clx_read, touch_of};
ghost use Rattle.serial_bands.specs.Bands.{has_clx_read};
ghost use Rattle.ocs_base.specs.declared.script.Act.TheVariants.{Poke};
ghost use Rattle.out_files.specs.Gives.{GivesLines};
ghost use Rattle.machine.specs.Machine.{machine_over, MakesEvent, KeepsPlace};
ghost use Rattle.picture_log.specs.Log.{with_script_touches};
ghost use Rattle.foreground.specs.Script.{IsLeft, IsRest, HasLater, IsMachine, MakesEvents, with_touch_if_any};

use machine::Machine;
use ocs_base::offset::CLXDAT;
use ocs_base::{Act, At, Beam, OutOfMemory, Reg};
use out_files::OutFiles;
use picture_log::Log;
use serial_model::{Denise, Side, Touch};

/// The events of this clock happen in their order: machine and trace have them, and the log what
/// touches the picture. `events` are those that are left, and the answer is what is left after this
/// clock. `clx` has the collision bits for the first read of CLXDAT, which clears them.
#[inline(never)]
pub fn run_script<'a, S: Side>(
    events: &'a [At],
    machine: &mut Machine<S>,
    log: &mut Log,
    clx: &mut u16,
    out: &mut OutFiles,
) -> Result<&'a [At], OutOfMemory>
    requires screen { IsOnScreen machine.old.beam }
    requires queue { IsLeft (place_of machine.old.beam) events.now }
    requires some { IsMachine (machine_over S.seen machine.old) }
    ensures step { OnOk result (MakesEvents clx.old (due_events machine.old.beam events.now)
        (machine_over S.seen machine.old) out.old (machine_over S.seen machine.new) out.new) }
    ensures place { OnOk result (KeepsPlace (machine_over S.seen machine.old)
        (machine_over S.seen machine.new)) }
    ensures noted { OnOk result (log.new ≡ with_script_touches machine.old.t
        (touches_of (due_events machine.old.beam events.now)) log.old) }
    ensures left { IfOk result (λ left. IsLeft (place_of machine.old.beam + 1) left.now) }
    ensures rest { IfOk result (λ left. IsRest events.now left.now) }
    ensures later { IfOk result (λ left. HasLater machine.old.beam events.now left.now) }
    ensures told { OnErr result (GivesLines out.old out.new) }
    ensures chip { machine.new.chip ≡ machine.old.chip }
{
    let mut left = events;
    while let Some((event, others)) = left.split_first() {
        if !is_due(&machine.beam, event) {
            return Ok(left);
        }
        happen(&event.act, machine, log, clx, out)?;
        left = others;
    }
    Ok(left)
}

/// One event happens.
fn happen<S: Side>(
    act: &Act,
    machine: &mut Machine<S>,
    log: &mut Log,
    clx: &mut u16,
    out: &mut OutFiles,
) -> Result<(), OutOfMemory>
    requires { IsMachine (machine_over S.seen machine.old) }
    ensures step { OnOk result (MakesEvent clx.old act.now (machine_over S.seen machine.old) out.old
        (machine_over S.seen machine.new) out.new) }
    ensures some { OnOk result (IsMachine (machine_over S.seen machine.new)) }
    ensures place { OnOk result (KeepsPlace (machine_over S.seen machine.old)
        (machine_over S.seen machine.new)) }
    ensures noted { OnOk result (log.new ≡ with_touch_if_any machine.old.t
        (touch_of (made_by_act act.now)) log.old) }
    ensures read { OnOk result (is_clx_read (made_by_act act.now) ≡ true → clx.new ≡ 0) }
    ensures bits { OnOk result (is_clx_read (made_by_act act.now) ≡ false → clx.new ≡ clx.old) }
    ensures told { GivesLines out.old out.new }
    ensures chip { machine.new.chip ≡ machine.old.chip }
{
    machine.act(act, *clx, out)?;
    note_event(act, machine.t, log, clx)
}

/// An event's touch is noted, if it has one, and a read of CLXDAT clears the bits.
fn note_event(act: &Act, t: u64, log: &mut Log, clx: &mut u16) -> Result<(), OutOfMemory>
    ensures noted { OnOk result (log.new
        ≡ with_touch_if_any t (touch_of (made_by_act act.now)) log.old) }
    ensures read { is_clx_read (made_by_act act.now) ≡ true → clx.new ≡ 0 }
    ensures bits { is_clx_read (made_by_act act.now) ≡ false → clx.new ≡ clx.old }
{
    match act {
        Act::Peek { reg } if reg.offset == CLXDAT => *clx = 0,
        Act::Poke { reg, word } => note_write(log, t, *reg, *word)?,
        _ => {}
    }
    Ok(())
}

/// A write by the script touches the picture where the register is one of Denise's.
fn note_write(log: &mut Log, t: u64, reg: Reg, word: u16) -> Result<(), OutOfMemory>
    ensures { OnOk result (log.new
        ≡ with_touch_if_any t (touch_of (made_by_act (Poke reg word))) log.old) }
{
    if Denise::has_register(reg) {
        log.note_script(t, &Touch::Set { reg, word })?;
    }
    Ok(())
}

/// Whether one of the events that are due at this place reads CLXDAT. `events` are those that are
/// left.
#[inline(always)]
pub fn reads_clxdat(events: &[At], beam: &Beam) -> bool
    requires screen { IsOnScreen beam.now }
    requires queue { IsLeft (place_of beam.now) events.now }
    ensures { result ≡ has_clx_read (due_events beam.now events.now) }
{
    let mut left = events;
    while let Some((event, others)) = left.split_first() {
        if !is_due(beam, event) {
            return false;
        }
        if is_clx_peek(&event.act) {
            return true;
        }
        left = others;
    }
    false
}

/// Whether an event reads CLXDAT.
fn is_clx_peek(act: &Act) -> bool
    ensures { result ≡ is_clx_read (made_by_act act.now) }
{
    match act {
        Act::Peek { reg } => reg.offset == CLXDAT,
        _ => false,
    }
}

/// Whether the event happens at this place of the beam.
#[inline(always)]
fn is_due(beam: &Beam, event: &At) -> bool
    ensures { result ≡ due_at beam.now event.now }
{
    event.frame == beam.frame && event.v == beam.v && event.h == beam.h
}
