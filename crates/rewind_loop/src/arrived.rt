//! What is told of a clock that was gone to.

use ocs_base::Beam;

/// The state of a run at a clock that was gone to, and the clock from which it was reached.
#[derive(Clone, Copy)]
pub struct Arrived {
    /// The clock: the one that was asked for, or the run's last.
    pub at: u64,
    /// The clock from which the run went on: the present one, that of a checkpoint, or 0.
    pub from: u64,
    pub beam: Beam,
    /// The kept words of DMACON and COLOR00.
    pub dmacon: u16,
    pub colour: u16,
    /// The sum of the words of the memory.
    pub sum: u64,
}
