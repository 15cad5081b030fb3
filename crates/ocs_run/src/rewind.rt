//! The command `rewind`: the clocks of a run that are asked for are gone to, and a line is said of each.

ghost use Rattle.std.specs.Prelude.{◌≡◌, ◌≤◌, ℕ, map, true, IfOk};
ghost use Rattle.std.specs.List.{flat_map};
ghost use Rattle.ocs_base.specs.Image.{is_image, fits_chip};
ghost use Rattle.ocs_base.specs.Limits.{IsRunnable};
ghost use Rattle.ocs_words.specs.Asked.{rewind_value, HasRanges};
ghost use Rattle.ocs_run.specs.RewindAnswers.{RewindAnswers};
ghost use Rattle.ocs_run.specs.RewindText.{AreLines, line_of};
ghost use Rattle.rewind_loop.specs.Places.{Place as RunPlace, due_in, arrivals};
ghost use Rattle.rewind_loop.specs.Present.{IsPresent, run_in, states_in};
ghost use Rattle.rewind_loop.specs.Told.{told_of};
ghost use Rattle.serial_bands.specs.Run.{IsEndOf};

use crate::rewind_text::make_lines;
use band_log::Run;
use ocs_base::{OutOfMemory, Script};
use ocs_io::{Place, WriteRefusal};
use ocs_words::{Fault, RewindOrder};
use rewind_loop::Rewind;
use run_inputs::{Inputs, read_inputs};
use serial_model::NoSide;
use std::alloc::Global;
use std::sync::Arc;

/// The height of the bands, in lines, on which nothing that is said depends.
const BAND_LINES: u16 = 313;

/// Reads image and script as a run does, goes to the clocks that are asked for, and says their lines in one
/// piece. It creates no file and makes no thread.
pub fn run_rewind<P: Place>(
    alloc: Global,
    order: &RewindOrder<'_>,
    place: &mut P,
) -> Result<(), Fault>
    requires image { P.readable place.old order.now.image.now }
    requires script { P.readable place.old order.now.script.now }
    requires ranges { HasRanges order.now }
    ensures answer { RewindAnswers (rewind_value order.now) (P.outside place.old)
        (P.outside place.new) result }
    ensures files { (P.outside place.new).files ≡ (P.outside place.old).files }
{
    let Inputs { image, script } = read_inputs(alloc, order.image, order.script, place)?;
    let text = tell_clocks(alloc, order, image, script)?;
    match place.say(&text) {
        Ok(()) => Ok(()),
        Err(WriteRefusal::Failed) => Err(Fault::Unsaid),
        Err(WriteRefusal::OutOfMemory) => Err(Fault::OutOfMemory),
    }
}

/// The lines of the clocks that are asked for, of the run of a good script over a good image that fits its
/// chip memory.
fn tell_clocks(
    alloc: Global,
    order: &RewindOrder<'_>,
    image: Vec<u8>,
    script: Script,
) -> Result<Vec<u8>, OutOfMemory>
    requires image { is_image image.items ≡ true }
    requires fits { fits_chip script.chip image.items ≡ true }
    requires script { IsRunnable script }
    requires ranges { HasRanges order.now }
    ensures { IfOk result (λ text. AreLines image.items script order.now.every order.now.keep
        order.now.clocks.items text.items) }
{
    let run = Arc::new(alloc, Run::over(image, script, BAND_LINES, NoSide))?;
    let mut rewind = Rewind::new(alloc, run, order.every as u32, order.keep as usize)?;
    go_and_tell(alloc, order.clocks.as_slice(), &mut rewind)
}

/// Goes to clocks one after another, and makes the lines that are said of them.
fn go_and_tell(alloc: Global, clocks: &[u64], rewind: &mut Rewind) -> Result<Vec<u8>, OutOfMemory>
    requires every { 1 ≤ rewind.old.every }
    requires at { (keep : ℕ) × (p : RunPlace) × IsPresent keep p rewind.old }
    ensures { IfOk result (λ text. (keep end : ℕ) (p : RunPlace)
        → IsPresent keep p rewind.old → IsEndOf (run_in rewind.old) end
        → text.items ≡ flat_map line_of (map (told_of (states_in rewind.old))
        (arrivals (due_in (states_in rewind.old) rewind.old.every) keep end clocks.now p))) }
{
    let told = rewind.go_all(clocks)?;
    make_lines(alloc, &told)
}
