//! The log of the slots of frames of a run, as a text.

ghost use Rattle.std.specs.Prelude.{◌≡◌, ◌≤◌, true, [], IfOk, OnOk};
ghost use Rattle.ocs_base.specs.Image.{is_image, fits_chip};
ghost use Rattle.ocs_base.specs.Limits.{IsRunnable};
ghost use Rattle.slots_run.specs.Log.{IsLogOf};
ghost use Rattle.slots_run.specs.code.SlotRun.{run_in, Stands};

use crate::slot_run::SlotRun;
use band_log::Run;
use ocs_base::{OutOfMemory, Script};
use serial_model::NoSide;
use slot_log::put_heading;
use std::alloc::Global;
use std::sync::Arc;

/// The height of the bands, in lines, on which nothing that is written depends.
const BAND_LINES: u16 = 313;

/// The log of the slots of the frames `from` up to `to`, which is not among them, of the run of a good script
/// over a good image that fits its chip memory: of those of these frames that the run has.
pub fn make_log(
    alloc: Global,
    image: Vec<u8>,
    script: Script,
    from: u32,
    to: u32,
) -> Result<Vec<u8>, OutOfMemory>
    requires image { is_image image.items ≡ true }
    requires fits { fits_chip script.chip image.items ≡ true }
    requires script { IsRunnable script }
    requires order { from ≤ to }
    ensures { IfOk result (λ text. IsLogOf image.items script from to text.items) }
{
    let mut run = begin_run(alloc, image, script)?;
    let mut text = Vec::new(alloc);
    put_log(from, to, &mut run, &mut text)?;
    Ok(text)
}

/// Appends the log of these frames to an empty text, from a run at its reset. After a refusal a part may have
/// been appended.
fn put_log(from: u32, to: u32, run: &mut SlotRun, text: &mut Vec<u8>) -> Result<(), OutOfMemory>
    requires stands { Stands run.old }
    requires first { run.old.fore.machine.t ≡ 0 }
    requires order { from ≤ to }
    requires empty { text.old.items ≡ [] }
    ensures { OnOk result (IsLogOf (run_in run.old).image (run_in run.old).script from to
        text.new.items) }
{
    let script = run.script();
    let frames = script.frames();
    put_heading(script.system(), from, to, script.chip(), text)?;
    run.go_to_frame(from.min(frames))?;
    run.note_to_frame(to.min(frames), text)?;
    Ok(())
}

/// The run at its reset.
fn begin_run(alloc: Global, image: Vec<u8>, script: Script) -> Result<SlotRun, OutOfMemory>
    requires image { is_image image.items ≡ true }
    requires fits { fits_chip script.chip image.items ≡ true }
    requires script { IsRunnable script }
    ensures stands { IfOk result Stands }
    ensures image { IfOk result (λ r. (run_in r).image ≡ image.items) }
    ensures script { IfOk result (λ r. (run_in r).script ≡ script) }
    ensures first { IfOk result (λ r. r.fore.machine.t ≡ 0) }
{
    let run = Arc::new(alloc, Run::over(image, script, BAND_LINES, NoSide))?;
    SlotRun::new(alloc, run)
}
