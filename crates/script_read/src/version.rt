//! The versions of a script's text, and what a head says.

use ocs_base::{ChipSize, System};

/// A version of the text, as its first line names it.
#[derive(Clone, Copy)]
pub enum Version {
    One,
    Two,
    Three,
}

/// What a head says: whether the processor is started, how many frames the run shows, how much chip memory
/// the machine has, and whose beam.
#[derive(Clone, Copy)]
pub struct Head {
    pub cpu: bool,
    pub frames: u32,
    pub chip: ChipSize,
    pub system: System,
}
