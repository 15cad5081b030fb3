//! The jobs of bands, what comes back of them, and the trait of what draws them.
#![tactic(auto)]

pub mod cursor;
pub mod events;
pub mod job;
pub mod laws;
pub mod picture;
pub mod raster;
pub mod room;
pub mod run;
pub mod spare;

pub use cursor::Cursor;
pub use events::Events;
pub use job::{Drawn, Job};
pub use picture::Picture;
pub use raster::Raster;
pub use room::Room;
pub use run::Run;
pub use serial_bands::Event;
pub use serial_model::Denise;
pub use spare::Spare;
