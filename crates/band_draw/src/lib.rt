//! Draws bands from their jobs, from change to change.
#![tactic(auto)]

mod ahead;
mod band;
mod band_painter;
mod clock;
mod direct;
mod due;
mod progress;
mod touch;

pub use band::draw;
pub use band_painter::BandPainter;
pub use clock::show_clock;
pub use direct::Direct;
pub use touch::bus_count;
