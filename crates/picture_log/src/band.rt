//! The band that is open.

use band_log::{Events, Picture};
use ocs_base::Beam;

/// What is kept of a band while its clocks go by.
#[derive(Drop)]
pub struct OpenBand {
    /// The band's number in the run, from 0.
    pub number: u64,
    /// Its first clock, in colour clocks since reset.
    pub from: u64,
    /// The place of the beam at that clock.
    pub beam: Beam,
    /// A picture state that stands for that after the first step of that clock.
    pub opening: Picture,
    /// What touched the picture state so far, in the order of happening.
    pub events: Events,
}
