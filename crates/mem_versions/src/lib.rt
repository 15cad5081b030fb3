//! The chip memory with versions: words read and written at clocks, the count of reads, and views of
//! the memory at each clock between two cuts.
#![tactic(auto)]

mod changed;
pub mod chip;
mod group;
mod history;
pub mod kept;
mod pages;
pub mod replay;
mod replayed;
pub mod steps;
pub mod view;
pub mod write;

pub use chip::Chip;
pub use kept::Kept;
pub use replay::MemReplay;
pub use steps::Steps;
pub use view::MemView;
pub use write::Write;
