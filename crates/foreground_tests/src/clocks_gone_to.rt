//! Clocks of a run that are gone to, forwards and back, from reset and from checkpoints. The expected
//! places, words and sums are worked by hand.

ghost use Rattle.std.specs.Prelude.{◌≡◌, IfOk};
ghost use Rattle.ocs_base.specs.Limits.{IsRunnable};
ghost use Rattle.ocs_base.specs.declared.chip_size.ChipSize.TheVariants.{Kib512};

use crate::answers::hold;
use band_log::Run;
use ocs_base::{ChipSize, OutOfMemory, Script};
use rewind_loop::{Arrived, Rewind};
use script_read::read_script;
use serial_model::NoSide;
use std::alloc::Global;
use std::sync::Arc;
use std::test::Fail;

/// A script of three frames, for 512 KiB, that writes COLOR00 at clock 22,800, which is clock 100 of line
/// 100, and at clock 77,861, which is the first of line 30 of frame 1.
fn three_frames(alloc: Global) -> Result<Script, Fail>
    ensures runnable { IfOk result IsRunnable }
    ensures chip { IfOk result (λ script. script.chip ≡ Kib512) }
{
    let text =
        b"ocs 1\ncpu off\nframes 3\nat 0 100 100 poke 180 0f00\nat 1 30 0 poke 180 00f0\nend\n";
    let script = read_script(alloc, text)?;
    match script.chip_size() {
        ChipSize::Kib512 => Ok(script),
        ChipSize::Mib1 => Err(Fail::from("a script of version 1 is for 512 KiB")),
    }
}

/// What is told of clocks of its run, of which the checkpoints of the latest two frames are kept. The memory
/// has the words 1234 and 1.
fn told_of(alloc: Global, clocks: &[u64]) -> Result<Vec<Arrived>, Fail> {
    let script = three_frames(alloc)?;
    let image = Vec::from_slice(alloc, &[0x12, 0x34, 0, 1, 0, 0, 0, 0])?;
    let run = Arc::new(alloc, Run::new(image, script, 313))?;
    Ok(told_in(alloc, run, clocks)?)
}

/// The same of a run.
fn told_in(
    alloc: Global,
    run: Arc<Run<NoSide>>,
    clocks: &[u64],
) -> Result<Vec<Arrived>, OutOfMemory> {
    let mut rewind = Rewind::new(alloc, run, 1, 2)?;
    rewind.go_all(clocks)
}

/// The clock that was gone to, and from where; zeros where there is none.
fn clocks_of(told: &[Arrived], place: usize) -> (u64, u64) {
    match told.get(place) {
        Some(arrived) => (arrived.at, arrived.from),
        None => (0, 0),
    }
}

/// Frame, line and clock of the line.
fn beam_of(told: &[Arrived], place: usize) -> (u32, u16, u16) {
    match told.get(place) {
        Some(arrived) => (arrived.beam.frame, arrived.beam.v, arrived.beam.h),
        None => (0, 0, 0),
    }
}

/// COLOR00, and the sum of the memory.
fn words_of(told: &[Arrived], place: usize) -> (u16, u64) {
    match told.get(place) {
        Some(arrived) => (arrived.colour, arrived.sum),
        None => (0, 0),
    }
}

/// Whether this is told of the clocks 150,000, 80,000, 22,800 and 22,801.
fn is_told_of_four(told: &[Arrived]) -> bool {
    let clocks = [
        clocks_of(told, 0),
        clocks_of(told, 1),
        clocks_of(told, 2),
        clocks_of(told, 3),
    ];
    let beams = [beam_of(told, 0), beam_of(told, 1), beam_of(told, 2)];
    let words = [words_of(told, 2), words_of(told, 3)];
    let wanted = [
        (150_000, 0),
        (80_000, 71_051),
        (22_800, 0),
        (22_801, 22_800),
    ];
    clocks == wanted
        && beams == [(2, 34, 180), (1, 39, 96), (0, 100, 100)]
        && words == [(0, 4661), (0x0f00, 4661)]
}

/// Of frames 0, 1 and 2 the last two checkpoints are left, at 71,051 and 142,102: below them the run begins
/// anew, and from 22,800 to 22,801 it goes on.
#[test]
fn from_checkpoints_and_from_reset(rt: HostRuntime) -> Result<(), Fail> {
    let told = told_of(rt.alloc(), &[150_000, 80_000, 22_800, 22_801])?;
    hold(&rt, is_told_of_four(&told));
    Ok(())
}

/// Whether this is told of the clocks 80,000, 75,000 and 80,000 again.
fn is_told_of_three(told: &[Arrived]) -> bool {
    let clocks = [clocks_of(told, 1), clocks_of(told, 2)];
    let words = [words_of(told, 0), words_of(told, 1), words_of(told, 2)];
    let beams = [beam_of(told, 0), beam_of(told, 2)];
    clocks == [(75_000, 71_051), (80_000, 75_000)]
        && words == [(0x00f0, 4661), (0x0f00, 4661), (0x00f0, 4661)]
        && beams == [(1, 39, 96); 2]
}

/// A run that goes on from a checkpoint comes to the states of the one that was never left.
#[test]
fn a_loaded_run_goes_on(rt: HostRuntime) -> Result<(), Fail> {
    let told = told_of(rt.alloc(), &[80_000, 75_000, 80_000])?;
    hold(&rt, is_told_of_three(&told));
    Ok(())
}

/// Whether this is told of a clock behind the end of the run, and of the last one.
fn is_told_of_the_end(told: &[Arrived]) -> bool {
    let clocks = [clocks_of(told, 0), clocks_of(told, 1)];
    let beams = [beam_of(told, 0), beam_of(told, 1)];
    clocks == [(213_153, 0), (213_152, 142_102)] && beams == [(3, 0, 0), (2, 312, 226)]
}

/// Behind the run's end there is its last state, from wherever it was reached.
#[test]
fn the_end_of_the_run(rt: HostRuntime) -> Result<(), Fail> {
    let told = told_of(rt.alloc(), &[1_000_000, 213_152])?;
    hold(&rt, is_told_of_the_end(&told));
    Ok(())
}
