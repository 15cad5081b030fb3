//! The serial colour-clock machine: what every part of the emulator is proved against.
//! Its definitions stand in `specs/`; here are the plain types that they speak of.
#![tactic(auto)]

pub mod bus;
pub mod copper;
pub mod fetch;
pub mod laws;
pub mod picture;
pub mod processor;
pub mod registers;
pub mod side;
pub mod slots;
pub mod trace;

pub use bus::{Ask, Half, Made, ProcessorAsk, SideAsk};
pub use copper::{CopperAct, CopperInstruction, CopperPhase, CopperState};
pub use fetch::{PlaneAsk, SpriteAsk, SpriteKind};
pub use picture::{Denise, Touch};
pub use processor::{CiaName, CiaRegister, Target, Turn, Wait};
pub use registers::{Effect, Inputs, Live, Reading, Writing};
pub use side::{NoSide, Side};
pub use slots::{Owner, SlotState};
pub use trace::{Source, TraceLine};
