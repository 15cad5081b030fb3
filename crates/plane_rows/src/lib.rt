//! What the bitplanes show along a line, kept by position: rows of odd and of even planes, over which
//! each load lays the bits of its words.
#![tactic(auto)]

mod kept_loads;
mod line;
mod once;
mod row;
mod twice;
mod words;

pub use kept_loads::line_of;
pub use line::Line;
pub use row::Row;
