//! The machine without its picture: the count of clocks, the beam, the memory, the chips and a side, with
//! what each step of a colour clock but the picture's does to them.
#![tactic(auto)]

mod ahead;
mod bus;
mod fetches;
mod machine;
mod quiet;
mod touches;

pub use machine::Machine;
pub use touches::touch_of;
