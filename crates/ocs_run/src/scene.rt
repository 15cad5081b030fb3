//! The command `gen`: a scene is made from a number and run on files of its own, and the summary of these
//! is said.

ghost use Rattle.std.specs.Prelude.{◌≡◌, ◌++◌, ◌^◌, ◌<◌, ◌≤◌, ◌==◌, [], length, sum, decimal, codes, unwrap_or, IfOk, IfErr, OnOk};
ghost use Rattle.std.specs.FinMap.{get};
ghost use Rattle.ocs_io.specs.Place.{OnlySays};
ghost use Rattle.ocs_words.specs.Asked.{IsHeight};
ghost use Rattle.ocs_run.specs.Command.{IsOutOf};
ghost use Rattle.ocs_run.specs.SceneAnswers.{SceneAnswers, HasSceneFiles, scene_names};
ghost use Rattle.ocs_run.specs.SceneSummary.{IsSummary, summary_text, number_line, line_count};

use crate::command::owned;
use band_log::Run;
use crew::{CrewSide, Gate};
use files_run::{Drawing, Setup, run_files};
use ocs_base::{OutOfMemory, System};
use ocs_io::{Place, SureShelf, WriteRefusal, put_dec};
use ocs_words::{Fault, SceneOrder};
use out_files::OutFiles;
use scene_gen::scene;
use std::alloc::Global;
use std::sync::Wait;
use std::thread::Threads;

/// Runs the scene of the number and says the summary.
pub fn run_scene<
    R: Threads + Wait + Clone + Drop + Send + Sync + 'static,
    P: Place,
    G: Gate + Drop + Send + Sync + 'static,
>(rt: &R, alloc: Global, order: SceneOrder, gate: G, place: &mut P) -> Result<(), Fault>
    requires height { IsHeight order.band }
    requires few { order.workers ≤ 32 }
    ensures answer { SceneAnswers order.number (P.outside place.old)
        (P.outside place.new) result }
    ensures kept { OnlySays (P.outside place.old) (P.outside place.new) }
{
    let text = summarize(rt, alloc, order, gate)?;
    match place.say(&text) {
        Ok(()) => Ok(()),
        Err(WriteRefusal::Failed) => Err(Fault::Unsaid),
        Err(WriteRefusal::OutOfMemory) => Err(Fault::OutOfMemory),
    }
}

/// The summary of the scene's run.
fn summarize<
    R: Threads + Wait + Clone + Drop + Send + Sync + 'static,
    G: Gate + Drop + Send + Sync + 'static,
>(rt: &R, alloc: Global, order: SceneOrder, gate: G) -> Result<Vec<u8>, Fault>
    requires height { IsHeight order.band }
    requires few { order.workers ≤ 32 }
    ensures summary { IfOk result (λ text. IsSummary order.number text.items) }
    ensures memory { IfErr result (λ fault. fault ≡ Fault.OutOfMemory) }
{
    let shelf = run_on_shelf(rt, alloc, order, gate)?;
    let text = make_text(
        alloc,
        bytes_of(&shelf, "frames"),
        bytes_of(&shelf, "trace"),
        bytes_of(&shelf, "memory"),
    )?;
    Ok(text)
}

/// The files of the scene's run. Nothing refuses to write them.
fn run_on_shelf<
    R: Threads + Wait + Clone + Drop + Send + Sync + 'static,
    G: Gate + Drop + Send + Sync + 'static,
>(rt: &R, alloc: Global, order: SceneOrder, gate: G) -> Result<SureShelf, Fault>
    requires height { IsHeight order.band }
    requires few { order.workers ≤ 32 }
    ensures files { IfOk result (λ shelf. HasSceneFiles order.number shelf.files) }
    ensures memory { IfErr result (λ fault. fault ≡ Fault.OutOfMemory) }
{
    let (image, script) = scene(alloc, order.number)?;
    let out = out_files(alloc, script.system())?;
    let mut shelf = SureShelf::new(alloc);
    let run = Run::over(image, script, order.band, CrewSide::Nothing);
    let setup = Setup {
        run,
        side: CrewSide::Nothing,
        out,
    };
    let drawing = Drawing {
        workers: order.workers,
        gate,
    };
    run_files(rt, alloc, drawing, setup, None, &mut shelf)?;
    Ok(shelf)
}

/// The output files of a scene's run.
fn out_files(alloc: Global, system: System) -> Result<OutFiles, Fault>
    ensures files { IfOk result (λ out. IsOutOf scene_names system out) }
    ensures memory { IfErr result (λ fault. fault ≡ Fault.OutOfMemory) }
{
    let frames = owned(alloc, "frames")?;
    let trace = owned(alloc, "trace")?;
    let memory = owned(alloc, "memory")?;
    Ok(OutFiles::made(alloc, frames, trace, memory, system))
}

/// The bytes of a file, none where it is not there.
fn bytes_of<'a>(shelf: &'a SureShelf, name: &str) -> &'a [u8]
    ensures { result.now ≡ unwrap_or (get shelf.now.files name.now) [] }
{
    match shelf.file(name) {
        Some(bytes) => bytes,
        None => &[],
    }
}

/// The four lines.
fn make_text(
    alloc: Global,
    frames: &[u8],
    trace: &[u8],
    memory: &[u8],
) -> Result<Vec<u8>, OutOfMemory>
    requires frames { length frames.now < 2 ^ 32 }
    requires memory { length memory.now < 2 ^ 32 }
    ensures { IfOk result (λ text. text.items ≡ summary_text frames.now trace.now memory.now) }
{
    let mut text = Vec::from_slice(alloc, b"frames 10\n")?;
    put_number(&mut text, "picture ", sum_of(frames))?;
    put_number(&mut text, "trace ", count_lines(trace))?;
    put_number(&mut text, "memory ", sum_of(memory))?;
    Ok(text)
}

/// Appends a name and a number, and ends the line.
fn put_number(text: &mut Vec<u8>, name: &str, number: u64) -> Result<(), OutOfMemory>
    ensures { OnOk result (text.new.items ≡ text.old.items ++ number_line name.now number) }
{
    text.extend_from_slice(name.as_bytes())?;
    put_dec(number, text)?;
    text.push(b'\n')?;
    Ok(())
}

/// The sum of bytes.
fn sum_of(bytes: &[u8]) -> u64
    requires { length bytes.now < 2 ^ 32 }
    ensures { result ≡ sum bytes.now }
{
    let mut total = 0;
    for &byte in bytes {
        total += u64::from(byte);
    }
    total
}

/// The number of lines, each ended by a line feed.
fn count_lines(text: &[u8]) -> u64
    ensures { result ≡ line_count text.now }
{
    let mut lines = 0;
    for &byte in text {
        if byte == b'\n' {
            lines += 1;
        }
    }
    lines
}
