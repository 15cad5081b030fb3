//! What an instruction's row makes of its operands, and what it leaves in the status register.
//!
//! A row of the table of instructions (`GeneralRow`) names a source, a destination and an operation.
//! Here are the value and the flags that its operation makes of these, the exception that they may
//! make, the number by which the row's clocks are taken, and the status register: its flags, the
//! conditions, privilege, and what an exception makes of it. How operands are found and results are
//! stored, access by access, is `m68k_exec`'s.
#![tactic(auto)]

mod fetched;
mod operations;
mod row_data;
mod status;

pub use fetched::Fetched;
pub use operations::{operand_trap, operation, plain_operation, status_after, trap_ea};
pub use row_data::{dest_mode, extended_value, is_program, ones, source_mode};
pub use status::{
    condition, entered_status, flags_of, has_trace, interrupt_mask, kept_status, needs_supervisor,
    with_code, with_flags,
};
