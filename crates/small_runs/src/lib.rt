//! What tests of several crates begin with: the files of a run, a small run, and a side that is always the
//! same. Nothing of it is part of the program.
#![tactic(auto)]

pub mod files;
pub mod run;
pub mod steady;

pub use files::out_files;
pub use run::small_run;
pub use steady::Steady;
