//! The MC68000, access by access.
//!
//! A `Cpu` says which access it makes next, and goes on with the word of that access. What it does
//! is the walk of the processor that `m68k_decode` defines, which begins each instruction again at
//! each access; this crate keeps a small state between two accesses, and does constant work for
//! each.
#![tactic(auto)]

mod access;
mod ask;
mod cpu;
mod dispatch;
mod entries;
mod flow;
mod general;
mod lists;
mod rows;
mod state;
mod stopped;

pub use ask::Ask;
pub use m68k_decode::CpuRegs;
pub use state::Cpu;
