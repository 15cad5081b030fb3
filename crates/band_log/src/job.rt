//! The job of a band, and the band once it is drawn.

use crate::events::Events;
use crate::picture::Picture;
use crate::room::Room;
use crate::run::Run;
use mem_versions::MemReplay;
use ocs_base::{Beam, Clock};
use std::sync::Arc;

/// All that a band of a run is drawn from. `IsRightJob` says of which run and number it is right.
#[derive(Drop)]
pub struct Job<S> {
    /// The run that the band is of.
    pub run: Arc<Run<S>>,
    /// The band's number in the run, from 0.
    pub number: u64,
    /// The band's first picture step.
    pub from: Clock,
    /// The picture step behind its last.
    pub to: Clock,
    /// The place of the beam at the first picture step.
    pub beam: Beam,
    /// A picture state that stands for that after the first step of that clock; of a band that was
    /// drawn, for that at the end of its last clock, without the write of a register by that clock's
    /// access.
    pub picture: Picture,
    /// What touches the picture state in the band, in the order of happening.
    pub events: Events,
    /// The chip memory at each clock of the band, and at that behind its last.
    pub view: MemReplay,
    /// Room for three bytes of each visible pixel of the band.
    pub room: Room,
}

/// A band that was drawn: its pixels are in the room of its job, and the job's picture state is that at
/// its end. `IsRightFor` says of which run and number it is right, and under which tint.
#[derive(Drop)]
pub struct Drawn<S> {
    /// The job that it was drawn from.
    pub job: Job<S>,
    /// The collision bits of the band's pixels, in the places of CLXDAT.
    pub clx: u16,
}
