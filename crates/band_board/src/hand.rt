//! A hand: it claims offered bands and delivers them drawn.

ghost use Rattle.std.specs.Prelude.{◌≡◌, ℕ, ◌^◌, ◌<◌, ◌≤◌, [], length, if◌then◌else◌, Option, Some, None, IsSomeAnd};
ghost use Rattle.band_board.specs.Seats.{IsHand};

use crate::board::{Board, CLOSED, PLACES};
use crate::steps::{Delivers, Looks, Tries};
use crate::view::{Parcel, View};
use crate::work::Work;
use atomic_table::Seat;

/// One of those that draw the bands of a board. It may go to another thread.
#[derive(Drop)]
pub struct Hand<W: Work> {
    seat: Seat<Option<Parcel<W::Job, W::Drawn>>, View<W::Run>>,
    number: u64,
    band: Option<u64>,
    count: u64,
    ghost is_hand: { IsHand seat number band count },
}

/// A look at the word of a place by a claim.
#[derive(Clone, Copy, PartialEq, Eq)]
pub struct Look {
    /// The word that was found.
    pub word: u64,
    /// Where that word was offered: the other word that the one try on it found.
    pub found: Option<u64>,
}

/// What a claim gives.
#[derive(Drop)]
pub enum Claim<W: Work> {
    /// A band for the hand to draw.
    Got { number: u64, job: W::Job },
    /// No place had a band to claim when it was looked at: the looks, in the order of the places.
    Nothing { seen: [Look; 16] },
}

impl<W: Work> Hand<W> {
    ghost use Rattle.band_board.specs.declared.view.Role.TheVariants as role;
    ghost use Rattle.band_board.specs.Answers.{hand_view, IsHandOf, TriesAt, Claims};
    ghost use Rattle.band_board.specs.View.{blank_view, after_look, after_delivery};
    ghost use Rattle.band_board.specs.Steps.{RightFor};

    // A new hand, whose seat was just made.
    pub(crate) fn of(
        seat: Seat<Option<Parcel<W::Job, W::Drawn>>, View<W::Run>>,
        number: u64,
    ) -> Hand<W>
        requires number { number < 33 }
        requires view { seat.me.0 ≡ blank_view role.Hand seat.me.0.run number }
        requires slots { seat.me.1 ≡ [] }
        ensures { result.seat ≡ seat }
    {
        Hand {
            seat,
            number,
            band: None,
            count: 0,
        }
    }

    // The seat, of a hand without a band.
    pub(crate) fn into_seat(self) -> Seat<Option<Parcel<W::Job, W::Drawn>>, View<W::Run>>
        requires { (hand_view self).claim ≡ None }
        ensures seat { result ≡ self.seat }
        ensures role { result.me.0.role ≡ role.Hand }
        ensures slots { result.me.1 ≡ [] }
    {
        let Hand { seat, .. } = self;
        seat
    }

    /// Looks at the places in order, and claims the first band that it gets.
    pub fn claim(&mut self, board: &Board<W>) -> Claim<W>
        requires board { IsHandOf board.now self.old }
        requires free { (hand_view self.old).claim ≡ None }
        ensures board { IsHandOf board.now self.new }
        ensures claim { Claims W.right_job (hand_view self.old) (hand_view self.new) result }
    {
        let mut seen = [Look {
            word: 0,
            found: None,
        }; 16];
        for place in 0..PLACES {
            match self.try_place(board, place) {
                Ok((number, job)) => return Claim::Got { number, job },
                Err(look) => seen[place] = look,
            }
        }
        Claim::Nothing { seen }
    }

    // Looks at a place, and tries once to claim what is offered there.
    fn try_place(&mut self, board: &Board<W>, place: usize) -> Result<(u64, W::Job), Look>
        requires board { IsHandOf board.now self.old }
        requires free { (hand_view self.old).claim ≡ None }
        requires place { place < 16 }
        ensures board { IsHandOf board.now self.new }
        ensures tried { TriesAt W.right_job (hand_view self.old) (hand_view self.new) place result }
    {
        let shared = &board.table.shared;
        let word = shared.load::<Looks>(&mut self.seat, place);
        if word % 4 != 1 {
            return Err(Look { word, found: None });
        }
        let mine = word + 4 * self.number + 1;
        let found = shared.compare_exchange::<Tries<W>>(&mut self.seat, place, word, mine);
        if found != word {
            return Err(Look {
                word,
                found: Some(found),
            });
        }
        let number = word / 256;
        let parcel = shared.exchange(&mut self.seat, place, None);
        self.band = Some(number);
        match parcel {
            Some(Parcel::Job(job)) => Ok((number, job)),
            _ => unreachable!(),
        }
    }

    /// Delivers the band that the hand claimed, drawn.
    pub fn deliver(&mut self, board: &Board<W>, drawn: W::Drawn)
        requires board { IsHandOf board.now self.old }
        requires drawn { IsSomeAnd (hand_view self.old).claim
            (λ n. RightFor W.right_drawn (hand_view self.old).run n drawn) }
        ensures board { IsHandOf board.now self.new }
        ensures free { (hand_view self.new).claim ≡ None }
        ensures list { (n : ℕ) → (hand_view self.old).claim ≡ Some n
            → hand_view self.new ≡ after_delivery (hand_view self.old) n }
    {
        let Some(number) = self.band else {
            unreachable!()
        };
        let shared = &board.table.shared;
        let place = (number % 16) as usize;
        shared.exchange(&mut self.seat, place, Some(Parcel::Drawn(drawn)));
        shared.store::<Delivers>(&mut self.seat, place, 256 * number + 4 * self.number + 3);
        self.band = None;
        self.count += 1;
    }

    /// Whether the board was closed when this call looked.
    pub fn closed(&mut self, board: &Board<W>) -> bool
        requires board { IsHandOf board.now self.old }
        ensures board { IsHandOf board.now self.new }
        ensures look { hand_view self.new
            ≡ after_look (hand_view self.old) 16 (if result then 1 else 0) }
    {
        board.table.shared.load::<Looks>(&mut self.seat, CLOSED) == 1
    }

    /// How many bands the hand delivered: at most 2^32.
    pub fn count(&self) -> u64
        ensures count { result ≡ length (hand_view self.now).done }
        ensures most { result ≤ 2 ^ 32 }
    {
        self.count
    }
}
