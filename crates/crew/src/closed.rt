//! A closed board, to whose front the hands come back.

ghost use Rattle.std.specs.Prelude.{◌≡◌, ◌+◌, ◌<◌, length};
ghost use Rattle.std.specs.Arc.{arc_value};
ghost use Rattle.band_board.specs.View.{after_join};
ghost use Rattle.band_board.specs.Steps.{band_count};
ghost use Rattle.band_board.specs.Answers.{front_view, hand_view, IsFrontOf, IsHandOf, IsFree};
ghost use Rattle.crew.specs.code.Totals.{IsCounted, AreTotals};

use crate::bands::Bands;
use band_board::{Board, Front, Hand};
use std::sync::Arc;

/// How many bands of a run were drawn, and by whom.
#[derive(Clone, Copy, PartialEq, Eq)]
pub struct Totals {
    /// By the hands of the workers.
    pub by_hands: u64,
    /// By the crew's own hand, where bands were collected that were not drawn yet.
    pub by_front: u64,
}

/// What is left of a crew once its board was closed: the workers' hands come back to it.
#[derive(Drop)]
pub(crate) struct Closed {
    pub(crate) board: Arc<Board<Bands>>,
    pub(crate) front: Front<Bands>,
    pub(crate) hand: Hand<Bands>,
    pub(crate) by_hands: u64,
    ghost front_of: { IsFrontOf (arc_value board) front },
    ghost free: { IsFree (arc_value board) hand },
    ghost counted: { IsCounted by_hands (front_view front).joined },
}

impl Closed {
    /// Takes a worker's hand back and counts its bands.
    pub(crate) fn join(&mut self, hand: Hand<Bands>)
        requires few { length (front_view self.old.front).joined < 33 }
        requires free { IsFree (arc_value self.old.board) hand }
        ensures front { front_view self.new.front
            ≡ after_join (front_view self.old.front) (hand_view hand) }
        ensures board { arc_value self.new.board ≡ arc_value self.old.board }
        ensures hand { hand_view self.new.hand ≡ hand_view self.old.hand }
    {
        self.by_hands += hand.count();
        self.front.join(&self.board, hand);
    }

    /// Takes the crew's own hand back, after the others, and gives the totals.
    pub(crate) fn totals(self) -> Totals
        ensures { AreTotals (front_view self.front) (hand_view self.hand) result.by_hands
            result.by_front }
    {
        let Closed {
            board,
            mut front,
            hand,
            by_hands,
        } = self;
        let by_front = hand.count();
        front.join(&board, hand);
        Totals { by_hands, by_front }
    }
}
