//! The foreground of a run: it advances the machine one colour clock at a time, reads no word of a plane or
//! a sprite and keeps no pixel. What the picture needs it logs; at each band's end it cuts the
//! memory and submits a job, from which the band is drawn.
#![tactic(auto)]

mod access;
mod advance;
mod begin;
mod checkpoint;
mod clock;
mod cuts;
mod fore;
mod lookout;
mod memory_sum;
mod memory_word;
mod reading;
mod save;
mod script;
mod settle;
mod slot;

pub use checkpoint::Checkpoint;
pub use fore::Fore;
pub use lookout::Lookout;
pub use slot::Slot;
