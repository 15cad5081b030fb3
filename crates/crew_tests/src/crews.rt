//! Crews whose bodies submit nothing, and a hand of a closed board.

ghost use Rattle.std.specs.Prelude.{◌≡◌, ◌<◌, ◌≤◌};
ghost use Rattle.band_board.specs.Answers.{front_view, IsFrontOf};

use band_board::{Board, Front};
use band_log::Raster;
use crew::{Bands, CrewSide, Gate, NoGate, hand_loop, with_crew};
use ocs_base::OutOfMemory;
use small_runs::small_run;
use std::alloc::Global;
use std::sync::atomic::{AtomicU64, Ordering};
use std::sync::{Arc, Wait};
use std::thread::Threads;

/// How many bands are outstanding, whatever draws them.
fn count_outstanding<Q: Raster<CrewSide>>(raster: &mut Q) -> usize
    ensures { Q.seen raster.new ≡ Q.seen raster.old }
{
    raster.outstanding()
}

/// What a body that submits nothing leaves outstanding on a crew of so many workers, how often it was called,
/// and how many bands the hands and the crew drew.
fn idle_counts<R: Threads + Wait + Clone + Drop + Send + Sync + 'static>(
    rt: &R,
    alloc: Global,
    workers: u8,
) -> Result<[u64; 4], OutOfMemory>
    requires { workers ≤ 32 }
{
    let run = Arc::new(alloc, small_run(alloc, CrewSide::Nothing)?)?;
    let mut calls = 0u64;
    let (outstanding, totals) = with_crew(
        rt,
        alloc,
        run,
        workers,
        NoGate,
        &mut |crew| {
            calls = calls.saturating_add(1);
            count_outstanding(crew)
        },
    )?;
    Ok([outstanding as u64, calls, totals.by_hands, totals.by_front])
}

#[test]
fn a_body_that_submits_nothing(rt: HostRuntime) -> Result<(), OutOfMemory> {
    for workers in [0, 2] {
        assert!(rt; idle_counts(&rt, rt.alloc(), workers)? == [0, 1, 0, 0]);
    }
    Ok(())
}

/// The workers come back where the body's answer is an error.
#[test]
fn a_body_that_gives_up(rt: HostRuntime) -> Result<(), OutOfMemory> {
    let run = Arc::new(rt.alloc(), small_run(rt.alloc(), CrewSide::Nothing)?)?;
    let (answer, _totals) = with_crew(
        &rt,
        rt.alloc(),
        run,
        3,
        NoGate,
        &mut |_crew| -> Result<(), u8> { Err(5) },
    )?;
    assert!(rt; answer == Err(5));
    Ok(())
}

/// A gate that counts the bands it is told of.
#[derive(Drop)]
struct Counter {
    bands: AtomicU64,
}

impl Gate for Counter {
    fn before(&self, _number: u64) {
        self.bands.fetch_add(1, Ordering::SeqCst);
    }
}

/// Closes a board and gives how many bands its first hand then draws, which ends.
fn drawn_once_closed<R: Wait>(
    rt: &R,
    board: &Board<Bands>,
    front: &mut Front<Bands>,
    gate: &Counter,
) -> u64
    requires ours { IsFrontOf board.now front.old }
    requires few { (front_view front.old).hands < 33 }
{
    let hand = front.split(board);
    front.close(board);
    let hand = hand_loop(rt, board, hand, gate);
    let drawn = hand.count();
    front.join(board, hand);
    drawn
}

/// The same of the board of a small run.
fn drawn_of_closed<R: Wait>(rt: &R, alloc: Global, gate: &Counter) -> Result<u64, OutOfMemory> {
    let run = Arc::new(alloc, small_run(alloc, CrewSide::Nothing)?)?;
    let (board, mut front) = Board::<Bands>::new(alloc, run)?;
    Ok(drawn_once_closed(rt, &board, &mut front, gate))
}

#[test]
fn a_hand_of_a_closed_board_ends(rt: HostRuntime) -> Result<(), OutOfMemory> {
    let gate = Counter {
        bands: AtomicU64::new(0),
    };
    let drawn = drawn_of_closed(&rt, rt.alloc(), &gate)?;
    assert!(rt; drawn == 0 && gate.bands.load(Ordering::SeqCst) == 0);
    Ok(())
}
