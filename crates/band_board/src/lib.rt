//! The board of bands: sixteen places on which a front offers bands in order, hands claim and
//! deliver them in any order, and the front collects them in the order in which it offered them. No
//! call waits and no lock is held: every step is one load, store or compare-exchange of a word.
#![tactic(auto)]

pub mod board;
pub mod front;
pub mod hand;
mod steps;
pub mod view;
pub mod work;

pub use board::Board;
pub use front::{Collected, Front};
pub use hand::{Claim, Hand, Look};
pub use work::Work;
