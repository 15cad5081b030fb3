//! What is known at the board: the views of its seats, and what its slots hold.

use std::collections::LinkedList;

/// Whose view it is. A hand that was joined leaves a spent view behind.
pub enum Role {
    Front,
    Hand,
    Spent,
}

/// What the front or a hand knows of the board. No value of it is made: contracts alone speak of
/// it.
/// The fields of the other role stay as they began.
pub struct View<R> {
    pub role: Role,
    /// The run of the board; a spent view names none.
    pub run: Option<R>,
    /// The places that were looked at, each with the word that was found there. Place 16 is the
    /// mark of the close.
    pub looks: LinkedList<(u64, u64)>,
    /// The front: how many slots it has taken out.
    pub opened: u64,
    /// The front: how many bands it has offered. The next one has this number.
    pub published: u64,
    /// The front: how many bands it has collected. The first outstanding one has this number.
    pub collected: u64,
    /// The front: whether it has seen the first outstanding band drawn.
    pub noted: bool,
    /// The front: how many hands it has made.
    pub hands: u64,
    /// The front: whether it has closed the board.
    pub closed: bool,
    /// The front: the joined hands, each with its number and its list of bands.
    pub joined: LinkedList<(u64, LinkedList<u64>)>,
    /// A hand: its number.
    pub hand: u64,
    /// A hand: the band that it claimed and has not delivered.
    pub claim: Option<u64>,
    /// A hand: the bands that it delivered, oldest first.
    pub done: LinkedList<u64>,
}

/// What a slot holds: a job that nobody claimed yet, or a drawn band that is not collected yet.
#[derive(Drop)]
pub enum Parcel<J, D> {
    Job(J),
    Drawn(D),
}
