//! A worker: a hand with all that its thread needs.

ghost use Rattle.std.specs.Arc.{arc_value};
ghost use Rattle.band_board.specs.Answers.{IsFree};

use crate::bands::Bands;
use crate::gate::Gate;
use crate::hands::hand_loop;
use band_board::{Board, Hand};
use std::snapshot::Snapshot;
use std::sync::{Arc, Wait};
use std::thread::Promise;

/// A hand that holds no band, its board, the gate, and a runtime of its own.
#[derive(Drop)]
pub(crate) struct Worker<R, G> {
    pub(crate) board: Arc<Board<Bands>>,
    pub(crate) gate: Arc<G>,
    pub(crate) rt: R,
    pub(crate) hand: Hand<Bands>,
    ghost free: { IsFree (arc_value board) hand },
}

impl<R: Wait + Drop, G: Gate + Drop + Sync> Worker<R, G> {
    /// Draws bands until the board is closed and nothing is there to claim, and gives the hand
    /// back. It may wait.
    pub(crate) fn work(self) -> Hand<Bands>
        ensures { IsFree (arc_value self.board) result }
    {
        let Worker {
            board,
            gate,
            rt,
            hand,
        } = self;
        hand_loop(&rt, &board, hand, &*gate)
    }
}

/// The promise of a worker's thread: it gives back a hand of this board that holds no band.
#[derive(Drop)]
pub(crate) struct FreeHand {
    pub(crate) board: Snapshot<Board<Bands>>,
}

impl Promise<Hand<Bands>> for FreeHand {
    ghost kept_by = { λ p hand. IsFree p.board.value hand };
}
