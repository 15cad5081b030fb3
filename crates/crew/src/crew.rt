//! The raster over a board of bands.

ghost use Rattle.std.specs.Prelude.{◌≡◌, ◌<◌, length};
ghost use Rattle.std.specs.Arc.{arc_value};
ghost use Rattle.serial_bands.specs.Run.{run_over};
ghost use Rattle.band_log.specs.Right.{IsRightJob};
ghost use Rattle.band_log.specs.Raster.{Takes, with_submitted, without_first, IsRightForFirst};
ghost use Rattle.band_board.specs.Answers.{front_view, hand_view, IsFrontOf, IsFree};
ghost use Rattle.crew.specs.Parts.{IsCrew, IsStart, IsSteady, GathersFirst};

use crate::bands::{Bands, CrewSide};
use crate::closed::Closed;
use crate::gate::Gate;
use crate::hands::draw_one;
use crate::pause::Pause;
use band_board::{Board, Collected, Front, Hand};
use band_log::{Drawn, Job, Raster};
use serial_model::Side;
use std::sync::{Arc, Wait};

/// The raster of one run over a `CrewSide`, whose bands the hands of a board draw on their threads.
/// It shares the board and the gate by an `Arc` each and keeps a runtime of its own. Where the
/// first outstanding band is not drawn when it is collected, the crew draws bands itself, on a hand
/// of its own, or waits.
///
/// Its mark names its board and the number of hands, and its tint is 0.
#[derive(Drop)]
pub struct Crew<R, G> {
    rt: R,
    pub(crate) board: Arc<Board<Bands>>,
    gate: Arc<G>,
    pub(crate) front: Front<Bands>,
    pub(crate) hand: Hand<Bands>,
    waiting: usize,
    ghost is_crew: { IsCrew (arc_value board) front hand waiting },
}

impl<R: Drop, G: Drop> Crew<R, G> {
    ghost use Rattle.band_board.specs.View.{after_close};

    // The crew of a front that has offered nothing yet, and of a hand of its own.
    pub(crate) fn new(
        rt: R,
        board: Arc<Board<Bands>>,
        gate: Arc<G>,
        front: Front<Bands>,
        hand: Hand<Bands>,
    ) -> Crew<R, G>
        requires front { IsFrontOf (arc_value board) front }
        requires start { IsStart (front_view front) }
        requires hand { IsFree (arc_value board) hand }
        ensures board { arc_value result.board ≡ arc_value board }
        ensures front { front_view result.front ≡ front_view front }
    {
        Crew {
            rt,
            board,
            gate,
            front,
            hand,
            waiting: 0,
        }
    }

    // Closes the board. Bands that are still outstanding are given up with it.
    pub(crate) fn close(self) -> Closed
        ensures board { arc_value result.board ≡ arc_value self.board }
        ensures front { front_view result.front ≡ after_close (front_view self.front) }
        ensures hand { hand_view result.hand ≡ hand_view self.hand }
    {
        let Crew {
            board,
            mut front,
            hand,
            ..
        } = self;
        front.close(&board);
        Closed {
            board,
            front,
            hand,
            by_hands: 0,
        }
    }
}

impl<R: Wait, G: Gate + Sync> Raster<CrewSide> for Crew<R, G> {
    ghost use Rattle.crew.specs.Crew.{crew_seen, crew_tint};

    ghost seen = { crew_seen };

    ghost tint_is_byte = { crew_tint };

    fn submit(&mut self, job: Job<CrewSide>)
        requires few { length (crew_seen self.old).outstanding < 16 }
        requires number { job.number ≡ (crew_seen self.old).next }
        requires right { IsRightJob ⟦<CrewSide as Side>⟧.seen
            (run_over ⟦<CrewSide as Side>⟧.seen (arc_value job.run)) job.number job }
        requires bound { Takes (crew_seen self.old).bound
            (run_over ⟦<CrewSide as Side>⟧.seen (arc_value job.run)) }
        ensures { crew_seen self.new
            ≡ with_submitted (run_over ⟦<CrewSide as Side>⟧.seen (arc_value job.run)) job.number
            (crew_seen self.old) }
    {
        let _good = job.run.script();
        let number = job.number;
        self.front.offer(&self.board, number, job);
        self.waiting += 1;
    }

    fn collect(&mut self) -> Drawn<CrewSide>
        requires { 0 < length (crew_seen self.old).outstanding }
        ensures taken { crew_seen self.new ≡ without_first (crew_seen self.old) }
        ensures right { IsRightForFirst ⟦<CrewSide as Side>⟧.seen (crew_seen self.old).tint
            (crew_seen self.old).outstanding result }
    {
        let drawn = gather(
            &self.rt,
            &self.board,
            &mut self.front,
            &mut self.hand,
            &*self.gate,
        );
        self.waiting -= 1;
        drawn
    }

    fn outstanding(&self) -> usize
        ensures { result ≡ length (crew_seen self.now).outstanding }
    {
        self.waiting
    }
}

/// Collects the first outstanding band. While it is not drawn, the hand draws what is offered, or
/// waits where nothing is.
fn gather<R: Wait, G: Gate>(
    rt: &R,
    board: &Board<Bands>,
    front: &mut Front<Bands>,
    hand: &mut Hand<Bands>,
    gate: &G,
) -> Drawn<CrewSide>
    requires front { IsFrontOf board.now front.old }
    requires some { (front_view front.old).collected < (front_view front.old).published }
    requires hand { IsFree board.now hand.old }
    ensures front { IsFrontOf board.now front.new }
    ensures hand { IsFree board.now hand.new }
    ensures first { GathersFirst ⟦<CrewSide as Side>⟧.seen (front_view front.old)
        (front_view front.new) result }
{
    let mut pause = Pause::new();
    for _ in rt.forever() {
        if let Collected::Got { drawn, .. } = front.try_collect(board) {
            return drawn;
        }
        if draw_one(board, hand, gate) {
            pause = Pause::new();
        } else {
            pause.wait(rt);
        }
    }
    unreachable!()
}
