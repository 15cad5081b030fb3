//! The start and the end of a crew.

ghost use Rattle.std.specs.Prelude.{◌≡◌, ◌+◌, ◌≤◌, [], length, IfOk, OnErr};
ghost use Rattle.std.specs.Arc.{arc_value};
ghost use Rattle.serial_bands.specs.Run.{run_over};
ghost use Rattle.band_board.specs.Answers.{front_view, IsFrontOf};
ghost use Rattle.crew.specs.Parts.{IsStart};
ghost use Rattle.crew.specs.Crewed.{TakesCrew, TakesNewCrews, IsStatic, AreWorkersOf, IsHired, AreHired, AreHiredWith};
ghost use Rattle.crew.specs.Crewed.{IsCrewWith, Ran, RanWithCrew};

use crate::bands::{Bands, CrewSide};
use crate::closed::{Closed, Totals};
use crate::crew::Crew;
use crate::gate::Gate;
use crate::task::Task;
use crate::worker::{FreeHand, Worker};
use band_board::{Board, Front};
use band_log::Run;
use ocs_base::OutOfMemory;
use serial_model::Side;
use std::alloc::Global;
use std::snapshot::Snapshot;
use std::sync::{Arc, Wait};
use std::thread::Threads;

/// Calls the body once, on a crew of the run with so many workers, each a hand on a thread of its
/// own. The run is over a `CrewSide`. It takes all its memory first. Then it starts the threads,
/// calls the body on the caller's own thread, closes the board, also where the body's answer tells
/// of an error, and joins the threads and then the hands. It may wait.
///
/// A worker for which no thread can be made changes no answer: its hand looks once the board is
/// closed. After `OutOfMemory` the body was not called. Bands that the body left outstanding are
/// given up with the board.
pub fn with_crew<
    T,
    R: Threads + Wait + Clone + Drop + Send + Sync + 'static,
    G: Gate + Drop + Send + Sync + 'static,
    F: FnMut(&mut Crew<R, G>) -> T,
>(
    rt: &R,
    alloc: Global,
    run: Arc<Run<CrewSide>>,
    workers: u8,
    gate: G,
    body: &mut F,
) -> Result<(T, Totals), OutOfMemory>
    requires workers { workers ≤ 32 }
    requires body { TakesNewCrews F.FnMut body.old
        (run_over ⟦<CrewSide as Side>⟧.seen (arc_value run)) }
    ensures ran { IfOk result (λ ran. RanWithCrew F.FnMut body.old
        (run_over ⟦<CrewSide as Side>⟧.seen (arc_value run)) workers ran.0 body.new ran.1) }
    ensures unchanged { OnErr result (body.new ≡ body.old) }
{
    let (crew, hired) = new_crew(rt, alloc, run, workers, gate)?;
    let (answer, closed) = run_crew(rt, hired, crew, body);
    Ok((answer, closed.totals()))
}

/// A crew of the run that has offered nothing yet, and so many workers of its board.
fn new_crew<R: Clone + Drop, G: Drop>(
    rt: &R,
    alloc: Global,
    run: Arc<Run<CrewSide>>,
    workers: u8,
    gate: G,
) -> Result<(Crew<R, G>, Vec<Worker<R, G>>), OutOfMemory>
    requires { workers ≤ 32 }
    ensures { IfOk result (λ made. IsCrewWith (run_over ⟦<CrewSide as Side>⟧.seen (arc_value run))
        made.0 made.1.items workers) }
{
    let (board, front) = Board::new(alloc, run)?;
    let board = Arc::new(alloc, board)?;
    let gate = Arc::new(alloc, gate)?;
    hire_crew(rt, alloc, board, gate, front, workers)
}

/// The crew of a new front, on the front's first hand, and so many workers with the next ones.
fn hire_crew<R: Clone + Drop, G: Drop>(
    rt: &R,
    alloc: Global,
    board: Arc<Board<Bands>>,
    gate: Arc<G>,
    mut front: Front<Bands>,
    workers: u8,
) -> Result<(Crew<R, G>, Vec<Worker<R, G>>), OutOfMemory>
    requires front { IsFrontOf (arc_value board) front }
    requires start { IsStart (front_view front) }
    requires few { (front_view front).hands + workers ≤ 32 }
    ensures { IfOk result (λ made. AreHiredWith (front_view front) made.0 made.1.items workers) }
{
    let hand = front.split(&board);
    let (own, hired) = hire_all(rt, alloc, &board, &gate, &mut front, workers)?;
    Ok((Crew::new(own, board, gate, front, hand), hired))
}

/// So many workers of a board, each with the next hand of its front, and a runtime for their crew.
fn hire_all<R: Clone + Drop, G: Drop>(
    rt: &R,
    alloc: Global,
    board: &Arc<Board<Bands>>,
    gate: &Arc<G>,
    front: &mut Front<Bands>,
    workers: u8,
) -> Result<(R, Vec<Worker<R, G>>), OutOfMemory>
    requires front { IsFrontOf (arc_value board.now) front.old }
    requires few { (front_view front.old).hands + workers ≤ 33 }
    ensures { IfOk result (λ made. AreHired (arc_value board.now) front.old front.new made.1.items
        workers) }
{
    let mut hired = Vec::with_capacity(alloc, usize::from(workers))?;
    let own = hire_into(&mut hired, rt, board, gate, front, workers)?;
    Ok((own, hired))
}

/// Fills an empty list with so many workers, and gives a runtime for their crew.
fn hire_into<R: Clone + Drop, G: Drop>(
    hired: &mut Vec<Worker<R, G>>,
    rt: &R,
    board: &Arc<Board<Bands>>,
    gate: &Arc<G>,
    front: &mut Front<Bands>,
    workers: u8,
) -> Result<R, OutOfMemory>
    requires empty { hired.old.items ≡ [] }
    requires front { IsFrontOf (arc_value board.now) front.old }
    requires few { (front_view front.old).hands + workers ≤ 33 }
    ensures { IfOk result (λ own. AreHired (arc_value board.now) front.old front.new hired.new.items
        workers) }
{
    for _made in 0..workers {
        hired.push(hire(rt, board, gate, front)?)?;
    }
    Ok(rt.clone()?)
}

/// A worker of a board, with the next hand of its front.
fn hire<R: Clone + Drop, G: Drop>(
    rt: &R,
    board: &Arc<Board<Bands>>,
    gate: &Arc<G>,
    front: &mut Front<Bands>,
) -> Result<Worker<R, G>, OutOfMemory>
    requires front { IsFrontOf (arc_value board.now) front.old }
    requires few { (front_view front.old).hands + 1 ≤ 33 }
    ensures { IfOk result (λ worker. IsHired (arc_value board.now) front.old front.new worker) }
{
    let theirs = Arc::try_clone(board)?;
    let gate = Arc::try_clone(gate)?;
    let rt = rt.clone()?;
    let hand = front.split(board);
    Ok(Worker {
        board: theirs,
        gate,
        rt,
        hand,
    })
}

/// Starts a thread for each worker, calls the body on the crew, closes the board, and joins the
/// threads and the hands of the workers. It may wait.
fn run_crew<
    T,
    R: Threads + Wait + Clone + Drop + Send + Sync + 'static,
    G: Gate + Drop + Send + Sync + 'static,
    F: FnMut(&mut Crew<R, G>) -> T,
>(rt: &R, mut workers: Vec<Worker<R, G>>, mut crew: Crew<R, G>, body: &mut F) -> (T, Closed)
    requires statics { IsStatic R.row × IsStatic G.row }
    requires few { length workers.items ≤ 32 }
    requires workers { AreWorkersOf (arc_value crew.board).table.shared.table_id workers.items }
    requires body { TakesCrew F.FnMut body.old crew }
    ensures { Ran F.FnMut body.old crew result.0 body.new result.1 (length workers.items) }
{
    let Some(worker) = workers.pop() else {
        let answer = body(&mut crew);
        return (answer, crew.close());
    };
    let promise = FreeHand {
        board: Snapshot::of(&*worker.board),
    };
    let task = Task::start(rt, promise, move || worker.work());
    let (answer, mut closed) = run_crew(rt, workers, crew, body);
    let hand = task.end(rt);
    closed.join(hand);
    (answer, closed)
}
