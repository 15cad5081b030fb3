//! The arithmetic of the MC68000: each operation gives a result and the flags after it.
//!
//! Every operation takes the size, `a` (the destination or the only operand), `b` (the source, the
//! count, the number of the bit or the bound) and the flags before it (M68000 Programmer's
//! Reference Manual, condition code computation). It cuts `a` and `b` to the size, and its value is
//! one of the size. SWAP, TAS, CHK, multiplication, division and the decimal operations have
//! operands of their own sizes, and the size says nothing there. A flag that the manual leaves
//! undefined stays as it was, unless the operation's definition gives it (profile).
#![tactic(auto)]

mod arithmetic;
mod bits;
mod decimal;
mod logic;
mod products;
mod rotations;
mod shifts;
mod size;

pub use arithmetic::{op_add, op_addx, op_chk, op_cmp, op_neg, op_negx, op_sub, op_subx};
pub use bits::{op_bchg, op_bclr, op_bset, op_btst};
pub use decimal::{op_abcd, op_nbcd, op_sbcd};
pub use logic::{op_and, op_clr, op_eor, op_ext, op_move, op_not, op_or, op_swap, op_tas, op_tst};
pub use products::{op_divs, op_divu, op_muls, op_mulu};
pub use rotations::{op_rol, op_ror, op_roxl, op_roxr};
pub use shifts::{op_asl, op_asr, op_lsl, op_lsr};
pub use size::low_part;
