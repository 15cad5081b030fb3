//! The outside of the emulator: named files, what is said, and numbers as text.
#![tactic(auto)]

mod files;
pub mod folder;
pub mod numbers;
pub mod place;
mod said;
pub mod shelf;
pub mod sure_shelf;
pub mod whole;

pub use folder::Folder;
pub use numbers::{dec, hex, put_dec, put_hex};
pub use place::{Place, ReadRefusal, WriteRefusal};
pub use shelf::Shelf;
pub use sure_shelf::SureShelf;
