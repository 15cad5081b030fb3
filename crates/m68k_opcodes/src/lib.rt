//! The MC68000's opcodes: the instruction of each, and its clocks.
#![tactic(auto)]

mod class;
mod fields;
pub mod instr;
pub mod opcode;
pub mod operand;
pub mod timing;

pub use instr::Instr;
pub use opcode::decode;
pub use operand::{Mode, Size};
pub use timing::{clocks, ea};
