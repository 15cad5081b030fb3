//! The commands `run`, `sound` and `disk`: the inputs read and tested, and the run.

ghost use Rattle.std.specs.Prelude.{◌≡◌, ◌≤◌, true, string_bytes, IfOk, IfErr};
ghost use Rattle.crew.specs.Crew.{side_seen};
ghost use Rattle.ocs_base.specs.Image.{is_image, fits_chip};
ghost use Rattle.ocs_base.specs.Limits.{IsRunnable};
ghost use Rattle.ocs_base.specs.Sizes.{bytes_of};
ghost use Rattle.ocs_words.specs.Asked.{value_of, extra_value, AreApart, IsHeight};
ghost use Rattle.ocs_run.specs.Command.{OrderAnswers, out_names, IsOutOf};
ghost use Rattle.ocs_run.specs.code.Setup.{IsSetupOf};
ghost use Rattle.ocs_run.specs.Sides.{ReadableTrack};
ghost use Rattle.run_inputs.specs.Texts.{KeepsSaid};
ghost use Rattle.serial_model.specs.Side.{FitsSide};

use crate::sides::{Sides, read_sides};
use band_log::Run;
use crew::Gate;
use files_run::{Drawing, Setup, run_files};
use ocs_base::System;
use ocs_io::Place;
use ocs_words::{Fault, Order};
use out_files::OutFiles;
use run_inputs::{Inputs, read_inputs};
use std::alloc::Global;
use std::sync::Wait;
use std::thread::Threads;

/// Does what an order asks for: the image is read and its form tested, then the script, and then whether
/// the image fits the script's chip memory, and of a run that has a disk the track; and then it is run.
#[tactic(auto, using(files_run::proofs::PrefixLaws::prefixes_kept))]
pub fn run_order<
    R: Threads + Wait + Clone + Drop + Send + Sync + 'static,
    P: Place,
    G: Gate + Drop + Send + Sync + 'static,
>(rt: &R, alloc: Global, order: &Order<'_>, gate: G, place: &mut P) -> Result<(), Fault>
    requires image { P.readable place.old order.now.image.now }
    requires script { P.readable place.old order.now.script.now }
    requires track { ReadableTrack (P.readable place.old) (extra_value order.now.extra) }
    requires apart { AreApart order.now }
    requires height { IsHeight order.now.band }
    requires few { order.now.workers ≤ 32 }
    ensures answer { OrderAnswers (value_of order.now) (P.outside place.old)
        (P.outside place.new) result }
    ensures said { KeepsSaid (P.outside place.old) (P.outside place.new) }
{
    let inputs = read_inputs(alloc, order.image, order.script, place)?;
    let sides = read_sides(alloc, order.extra, inputs.script.chip_size(), place)?;
    let setup = setup_of(alloc, order, inputs, sides)?;
    let drawing = Drawing {
        workers: order.workers,
        gate,
    };
    run_files(rt, alloc, drawing, setup, order.extra.audio(), place)
}

/// What the run of an order begins with: a good script over a good image that fits its chip memory, a side
/// that does so too, and new files of the order's names.
fn setup_of(alloc: Global, order: &Order<'_>, inputs: Inputs, sides: Sides) -> Result<Setup, Fault>
    requires image { is_image inputs.image.items ≡ true }
    requires fits { fits_chip inputs.script.chip inputs.image.items ≡ true }
    requires script { IsRunnable inputs.script }
    requires side { FitsSide (bytes_of inputs.script.chip) (side_seen sides.first) }
    requires same { side_seen sides.second ≡ side_seen sides.first }
    requires apart { AreApart order.now }
    requires height { IsHeight order.now.band }
    ensures setup { IfOk result (IsSetupOf (value_of order.now) inputs.image.items inputs.script
        (side_seen sides.first)) }
    ensures memory { IfErr result (λ fault. fault ≡ Fault.OutOfMemory) }
{
    let Inputs { image, script } = inputs;
    let Sides { first, second } = sides;
    let out = out_files(alloc, order, script.system())?;
    let run = Run::over(image, script, order.band, first);
    Ok(Setup {
        run,
        side: second,
        out,
    })
}

/// Output files of the order's names, of a machine of this system.
fn out_files(alloc: Global, order: &Order<'_>, system: System) -> Result<OutFiles, Fault>
    requires { AreApart order.now }
    ensures files { IfOk result (λ out. IsOutOf (out_names (value_of order.now)) system out) }
    ensures memory { IfErr result (λ fault. fault ≡ Fault.OutOfMemory) }
{
    let frames = owned(alloc, order.frames)?;
    let trace = owned(alloc, order.trace)?;
    let memory = owned(alloc, order.memory)?;
    Ok(OutFiles::made(alloc, frames, trace, memory, system))
}

/// The text in a string of its own.
pub fn owned(alloc: Global, text: &str) -> Result<String, Fault>
    ensures text { IfOk result (λ s. string_bytes s ≡ text.now) }
    ensures memory { IfErr result (λ fault. fault ≡ Fault.OutOfMemory) }
{
    match String::from_str(alloc, text) {
        Ok(text) => Ok(text),
        Err(_) => Err(Fault::OutOfMemory),
    }
}
