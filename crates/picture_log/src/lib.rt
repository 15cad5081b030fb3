//! The log of the picture: what is kept while clocks go by of what touches the picture state, and the
//! jobs, from which bands are drawn later, that are made of it.
#![tactic(auto)]

mod band;
pub mod laws;
mod log;
mod shadow;
mod shown_count;

pub use band::OpenBand;
pub use log::Log;
pub use shown_count::{shown_before, shown_behind};
