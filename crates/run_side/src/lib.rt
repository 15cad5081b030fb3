//! What stands beside the chips of a run of the program: nothing, Paula's four audio channels, or the
//! disk.
#![tactic(auto)]

mod side;

pub use side::RunSide;
