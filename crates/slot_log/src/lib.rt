//! The log of a run's slots: who has each clock of the bus, what for, and the word that is moved.
#![tactic(auto)]

mod entry;
mod heading;
mod purpose;
mod record;

pub use entry::read_address;
pub use heading::put_heading;
pub use purpose::Purpose;
pub use record::{put_record, records_tell};
