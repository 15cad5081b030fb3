//! A disk that is read, as a side of the machine: a track turns, and the words of it that are wanted are
//! stored in chip memory (Hardware Reference Manual, disk controller).
//!
//! Writing, the drive's motor, heads and lines, DSKBYTR and DSKDAT are left out, and the clocks at which
//! words arrive are this project's profile.
#![tactic(auto)]

mod disk;
mod queue;
mod track;

pub use disk::Disk;
