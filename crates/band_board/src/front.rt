//! The front: it offers bands, collects them, and makes and joins hands.

ghost use Rattle.std.specs.Prelude.{◌≡◌, ◌+◌, ◌*◌, ◌<◌, []};
ghost use Rattle.band_board.specs.Seats.{IsFront};

use crate::board::{Board, CLOSED, PLACES};
use crate::hand::Hand;
use crate::steps::{Closes, Collects, Joins, Learns, Offers, Opens, Splits, Watches};
use crate::view::{Parcel, View};
use crate::work::Work;
use atomic_table::Seat;

/// The one that offers the bands of a board and collects them.
#[derive(Drop)]
pub struct Front<W: Work> {
    seat: Seat<Option<Parcel<W::Job, W::Drawn>>, View<W::Run>>,
    published: u64,
    collected: u64,
    hands: u64,
    ghost is_front: { IsFront seat published collected hands },
}

/// What a try to collect gives.
#[derive(Drop)]
pub enum Collected<W: Work> {
    /// The first outstanding band, drawn.
    Got { number: u64, drawn: W::Drawn },
    /// The first outstanding band is not drawn yet: its word, as it was found.
    NotYet { word: u64 },
}

impl<W: Work> Front<W> {
    ghost use Rattle.band_board.specs.Answers.{front_view, hand_view, IsFrontOf, IsHandOf, CollectsFirst};
    ghost use Rattle.band_board.specs.View.{first_view, new_front, after_offer, after_close, after_split, next_hand, after_join};
    ghost use Rattle.band_board.specs.Steps.{RightFor, IsAllIn, HoldsEachOnce};
    ghost use Rattle.band_board.specs.Seats.{vacancies};
    ghost use Rattle.std.specs.Prelude.{Option, Some, None};

    // The front of a new board, whose first seat this is.
    pub(crate) fn of(
        board: &Board<W>,
        seat: Seat<Option<Parcel<W::Job, W::Drawn>>, View<W::Run>>,
    ) -> Front<W>
        requires seat { seat.table_id ≡ board.now.table.shared.table_id }
        requires first { seat.me ≡ (first_view board.now.table.shared.key.value, []) }
        ensures board { IsFrontOf board.now result }
        ensures view { front_view result ≡ new_front board.now.table.shared.key.value }
    {
        let seat = Self::open_slots(board, seat);
        Front {
            seat,
            published: 0,
            collected: 0,
            hands: 0,
        }
    }

    // Takes all slots out, in order.
    fn open_slots(
        board: &Board<W>,
        mut seat: Seat<Option<Parcel<W::Job, W::Drawn>>, View<W::Run>>,
    ) -> Seat<Option<Parcel<W::Job, W::Drawn>>, View<W::Run>>
        requires seat { seat.table_id ≡ board.now.table.shared.table_id }
        requires first { seat.me ≡ (first_view board.now.table.shared.key.value, []) }
        ensures seat { result.table_id ≡ board.now.table.shared.table_id }
        ensures view { result.me ≡ (new_front board.now.table.shared.key.value, vacancies 0 16) }
    {
        for place in 0..PLACES {
            board.table.shared.load::<Opens>(&mut seat, place);
            seat.turn();
        }
        seat
    }

    /// Offers the next band: its job goes to the first hand that claims it.
    pub fn offer(&mut self, board: &Board<W>, number: u64, job: W::Job)
        requires board { IsFrontOf board.now self.old }
        requires next { number ≡ (front_view self.old).published }
        requires room { number < (front_view self.old).collected + 16 }
        requires right { RightFor W.right_job (front_view self.old).run number job }
        ensures board { IsFrontOf board.now self.new }
        ensures view { front_view self.new ≡ after_offer (front_view self.old) }
    {
        let shared = &board.table.shared;
        let place = (number % 16) as usize;
        shared.exchange(&mut self.seat, place, Some(Parcel::Job(job)));
        shared.store::<Offers>(&mut self.seat, place, 256 * number + 1);
        self.published += 1;
    }

    /// Looks at the first outstanding band, and takes it where it is drawn.
    pub fn try_collect(&mut self, board: &Board<W>) -> Collected<W>
        requires board { IsFrontOf board.now self.old }
        requires some { (front_view self.old).collected < (front_view self.old).published }
        ensures board { IsFrontOf board.now self.new }
        ensures band { CollectsFirst W.right_drawn (front_view self.old) (front_view self.new)
            result }
    {
        let shared = &board.table.shared;
        let number = self.collected;
        let place = (number % 16) as usize;
        let word = shared.load::<Watches>(&mut self.seat, place);
        if word % 4 != 3 {
            return Collected::NotYet { word };
        }
        shared.store::<Collects<W>>(&mut self.seat, place, 256 * (number + 16));
        let parcel = shared.exchange(&mut self.seat, place, None);
        self.seat.turn();
        self.collected += 1;
        match parcel {
            Some(Parcel::Drawn(drawn)) => Collected::Got { number, drawn },
            _ => unreachable!(),
        }
    }

    /// A new hand, with the next number. There can be 33.
    pub fn split(&mut self, board: &Board<W>) -> Hand<W>
        requires board { IsFrontOf board.now self.old }
        requires few { (front_view self.old).hands < 33 }
        ensures board { IsFrontOf board.now self.new }
        ensures hand_board { IsHandOf board.now result }
        ensures view { front_view self.new ≡ after_split (front_view self.old) }
        ensures hand { hand_view result ≡ next_hand (front_view self.old) }
    {
        let number = self.hands;
        let seat = board.table.shared.split_seat::<Splits>(&mut self.seat);
        self.hands += 1;
        Hand::of(seat, number)
    }

    /// Takes a hand back, with the list of the bands that it delivered. Once every hand was joined
    /// and nothing is outstanding, the lists together hold each published number once.
    pub fn join(&mut self, board: &Board<W>, hand: Hand<W>)
        requires board { IsFrontOf board.now self.old }
        requires hand_board { IsHandOf board.now hand }
        requires free { (hand_view hand).claim ≡ None }
        ensures board { IsFrontOf board.now self.new }
        ensures view { front_view self.new ≡ after_join (front_view self.old) (hand_view hand) }
        ensures all { IsAllIn (front_view self.new)
            → HoldsEachOnce (front_view self.new).published (front_view self.new).joined }
    {
        let shared = &board.table.shared;
        shared.join_seat::<Joins>(&mut self.seat, hand.into_seat());
        shared.load::<Learns>(&mut self.seat, 0);
    }

    /// Closes the board: hands that look learn that they need not look again. Bands can still be
    /// offered, claimed, delivered and collected.
    pub fn close(&mut self, board: &Board<W>)
        requires board { IsFrontOf board.now self.old }
        ensures board { IsFrontOf board.now self.new }
        ensures view { front_view self.new ≡ after_close (front_view self.old) }
    {
        board
            .table
            .shared
            .store::<Closes>(&mut self.seat, CLOSED, 1);
    }
}
