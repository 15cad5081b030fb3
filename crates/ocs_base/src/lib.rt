//! The numbers and the script that every part of the emulator speaks of.
#![tactic(auto)]

pub mod addr;
pub mod beam;
pub mod chip_size;
pub mod memory;
pub mod offset;
pub mod reg;
pub mod script;
pub mod system;

pub use addr::Addr;
pub use beam::{Beam, Clock, Colour, time_order};
pub use chip_size::ChipSize;
pub use memory::OutOfMemory;
pub use reg::Reg;
pub use script::{Act, At, Script};
pub use system::System;
