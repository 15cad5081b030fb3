//! Drawn bands are gathered: they are collected from a raster, the first first, and their pixels go to the
//! output files.
#![tactic(auto)]

mod gather;
mod gathering;

pub use gather::{gather_all, submit};
pub use gathering::Gathering;
