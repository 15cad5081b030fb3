//! Tests of the processor's crates, of the processor on the bus, and of the interrupts and CIAs: a
//! module a crate. They stand here and not beside the code, so that they are proved once.
#![tactic(auto)]

#[cfg(test)]
mod bus;
#[cfg(test)]
mod cias;
#[cfg(test)]
mod frames;
#[cfg(test)]
mod instructions;
#[cfg(test)]
mod modes;
#[cfg(test)]
mod opcodes;
#[cfg(test)]
mod operations;
#[cfg(test)]
mod registers;
