//! Interrupts and CIAs: INTENA and INTREQ with the level that they make, and the two complex interface
//! adapters with their ports, timers, time of day and interrupt control register.
#![tactic(auto)]

mod cia;
mod icr;
mod interrupts;
mod port;
mod timer;
mod tod;

pub use cia::Cia;
pub use interrupts::Irq;
