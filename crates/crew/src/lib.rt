//! Workers that draw bands: the hands of a board on threads, and the raster of the one that submits
//! the bands of a run and collects them.
#![tactic(auto)]

pub mod bands;
mod closed;
pub mod crew;
pub mod gate;
pub mod hands;
mod pause;
pub mod start;
mod task;
mod worker;

pub use bands::{Bands, CrewSide};
pub use closed::Totals;
pub use crew::Crew;
pub use gate::{Gate, NoGate};
pub use hands::hand_loop;
pub use start::with_crew;
