//! What each step on the board's table tells the seat that makes it. These types are for the
//! proofs alone.

ghost use Rattle.band_board.specs.Steps.{TellsOpening, TellsLook, TellsWatch, TellsOffer, TellsTry, TellsDelivery, TellsCollection, TellsClose, TellsLists};
ghost use Rattle.band_board.specs.View.{after_split, next_hand, after_join, spent_view};

use crate::view::{Parcel, View};
use crate::work::Work;
use atomic_table::{Join, Play, Split};
use std::marker::PhantomData;

/// The front takes a slot out, at the start.
pub(crate) struct Opens;

impl<R, J, D> Play<Option<Parcel<J, D>>, View<R>> for Opens {
    ghost then = { TellsOpening };
}

/// A hand looks at a word.
pub(crate) struct Looks;

impl<R, J, D> Play<Option<Parcel<J, D>>, View<R>> for Looks {
    ghost then = { TellsLook };
}

/// The front looks at the word of the first outstanding band.
pub(crate) struct Watches;

impl<R, J, D> Play<Option<Parcel<J, D>>, View<R>> for Watches {
    ghost then = { TellsWatch };
}

pub(crate) struct Offers;

impl<R, J, D> Play<Option<Parcel<J, D>>, View<R>> for Offers {
    ghost then = { TellsOffer };
}

/// A hand tries to claim an offered band.
pub(crate) struct Tries<W> {
    work: PhantomData<W>,
}

impl<W: Work> Play<Option<Parcel<W::Job, W::Drawn>>, View<W::Run>> for Tries<W> {
    ghost then = { TellsTry W.right_job };
}

pub(crate) struct Delivers;

impl<R, J, D> Play<Option<Parcel<J, D>>, View<R>> for Delivers {
    ghost then = { TellsDelivery };
}

pub(crate) struct Collects<W> {
    work: PhantomData<W>,
}

impl<W: Work> Play<Option<Parcel<W::Job, W::Drawn>>, View<W::Run>> for Collects<W> {
    ghost then = { TellsCollection W.right_drawn };
}

pub(crate) struct Closes;

impl<R, J, D> Play<Option<Parcel<J, D>>, View<R>> for Closes {
    ghost then = { TellsClose };
}

/// The front learns of the joined lists.
pub(crate) struct Learns;

impl<R, J, D> Play<Option<Parcel<J, D>>, View<R>> for Learns {
    ghost then = { TellsLists };
}

/// The front makes a hand.
pub(crate) struct Splits;

impl<R> Split<View<R>> for Splits {
    ghost left = { after_split };

    ghost right = { next_hand };
}

/// The front takes in the list of a hand.
pub(crate) struct Joins;

impl<R> Join<View<R>> for Joins {
    ghost both = { after_join };

    ghost spent = { spent_view };
}
