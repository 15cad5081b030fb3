//! The results of the rows with a source, a destination and a result, and the exceptions that their
//! operands make.

ghost use Rattle.std.specs.Prelude.{◌≡◌, ◌≢◌, ◌≤◌, ◌<◌, ◌+◌, ◌*◌, ◌/◌, ◌%◌, ◌==◌, true, false};
ghost use Rattle.m68k_opcodes.specs.Modes.{ea};
ghost use Rattle.m68k_opcodes.specs.declared.operand.Size.TheVariants as S;
ghost use Rattle.m68k_decode.specs.Results.{signed, low};
ghost use Rattle.m68k_decode.specs.RowWords.{unflagged, status_logical, is_outside, word_of};
ghost use Rattle.m68k_decode.specs.RowResults.{division, result_by, status_by, trap_by, trap_ea_by};
ghost use Rattle.m68k_results.specs.Plain.{is_plain_op};

use crate::row_data::extended_value;
use crate::status::{condition, flags_of, kept_status, with_code, with_flags};
use m68k_alu::{
    op_abcd, op_add, op_addx, op_and, op_asl, op_asr, op_bchg, op_bclr, op_bset, op_btst, op_chk,
    op_clr, op_cmp, op_divs, op_divu, op_eor, op_ext, op_lsl, op_lsr, op_move, op_muls, op_mulu,
    op_nbcd, op_neg, op_negx, op_not, op_or, op_rol, op_ror, op_roxl, op_roxr, op_sbcd, op_sub,
    op_subx, op_swap, op_tas, op_tst,
};
use m68k_decode::{Flags, GeneralRow, Mode, Op, Outcome, Size, Trap, Traps, ea};

/// A value with the flags as they are.
fn outcome_with_flags(value: u32, flags: Flags) -> Outcome
    ensures { result ≡ unflagged value flags }
{
    Outcome { value, flags }
}

/// Whether a divisor is 0.
fn is_zero_word(number: u32) -> bool
    ensures { result ≡ (low S.Word number == 0) }
{
    number & 0xffff == 0
}

/// The outcome of a division by 0: it clears C.
fn zero_divide_outcome(value: u32, flags: Flags) -> Outcome
    ensures { result ≡ unflagged value (record flags { c = false }) }
{
    Outcome {
        value,
        flags: Flags { c: false, ..flags },
    }
}

/// The value and the flags that a row's operation makes: `value` is its source, `old` what stands at
/// its destination, and `sr` the status register before it. A division by 0 leaves `old`, with C
/// clear; an operation that changes the status register by a word of its own gives 0.
#[tactic(auto, unfolding(m68k_decode::specs::RowResults::result_of_op))]
pub fn operation(row: &GeneralRow, value: u32, old: u32, sr: u16) -> Outcome
    ensures { result ≡ result_by row.now.op row.now.source_size row.now.size value old sr }
{
    let size = row.size;
    let flags = flags_of(sr);
    match row.op {
        Op::Or => op_or(size, old, value, flags),
        Op::And => op_and(size, old, value, flags),
        Op::Sub => op_sub(size, old, value, flags),
        Op::Add => op_add(size, old, value, flags),
        Op::Eor => op_eor(size, old, value, flags),
        Op::Cmp => op_cmp(size, old, value, flags),
        Op::Btst => op_btst(size, old, value, flags),
        Op::Bchg => op_bchg(size, old, value, flags),
        Op::Bclr => op_bclr(size, old, value, flags),
        Op::Bset => op_bset(size, old, value, flags),
        Op::Move => op_move(size, value, 0, flags),
        Op::MoveAddress => outcome_with_flags(extended_value(row.source_size, value), flags),
        Op::Negx => op_negx(size, old, 0, flags),
        Op::Clr => op_clr(size, old, 0, flags),
        Op::Neg => op_neg(size, old, 0, flags),
        Op::Not => op_not(size, old, 0, flags),
        Op::MoveFromSr => outcome_with_flags(u32::from(sr), flags),
        Op::Nbcd => op_nbcd(size, old, 0, flags),
        Op::Swap => op_swap(size, old, 0, flags),
        Op::Ext => op_ext(size, old, 0, flags),
        Op::Tst => op_tst(size, old, 0, flags),
        Op::Tas => op_tas(size, old, 0, flags),
        Op::Chk => op_chk(size, old, value, flags),
        Op::Scc { c } => outcome_with_flags(if condition(c, flags) { 0xff } else { 0 }, flags),
        Op::AddAddress => {
            outcome_with_flags(
                op_add(size, old, extended_value(row.source_size, value), flags).value,
                flags,
            )
        }
        Op::SubAddress => {
            outcome_with_flags(
                op_sub(size, old, extended_value(row.source_size, value), flags).value,
                flags,
            )
        }
        Op::CmpAddress => op_cmp(size, old, extended_value(row.source_size, value), flags),
        Op::Addx => op_addx(size, old, value, flags),
        Op::Subx => op_subx(size, old, value, flags),
        Op::Abcd => op_abcd(size, old, value, flags),
        Op::Sbcd => op_sbcd(size, old, value, flags),
        Op::Mulu => op_mulu(size, old, value, flags),
        Op::Muls => op_muls(size, old, value, flags),
        Op::Divu => {
            if is_zero_word(value) {
                zero_divide_outcome(old, flags)
            } else {
                op_divu(size, old, value, flags)
            }
        }
        Op::Divs => {
            if is_zero_word(value) {
                zero_divide_outcome(old, flags)
            } else {
                op_divs(size, old, value, flags)
            }
        }
        Op::Asl => op_asl(size, old, value, flags),
        Op::Asr => op_asr(size, old, value, flags),
        Op::Lsl => op_lsl(size, old, value, flags),
        Op::Lsr => op_lsr(size, old, value, flags),
        Op::Roxl => op_roxl(size, old, value, flags),
        Op::Roxr => op_roxr(size, old, value, flags),
        Op::Rol => op_rol(size, old, value, flags),
        Op::Ror => op_ror(size, old, value, flags),
        Op::ImmediateToStatus { .. } | Op::MoveToStatus { .. } | Op::Other => outcome_with_flags(
            0, flags,
        ),
    }
}

/// The same for a plain operation, one of those that programs are mostly made of.
#[inline(always)]
#[tactic(auto, unfolding(m68k_decode::specs::RowResults::result_of_op, crate::specs::Plain::is_plain_op))]
pub fn plain_operation(row: &GeneralRow, value: u32, old: u32, sr: u16) -> Outcome
    requires { is_plain_op row.now.op ≡ true }
    ensures { result ≡ result_by row.now.op row.now.source_size row.now.size value old sr }
{
    let size = row.size;
    match row.op {
        Op::Or => op_or(size, old, value, flags_of(sr)),
        Op::And => op_and(size, old, value, flags_of(sr)),
        Op::Sub => op_sub(size, old, value, flags_of(sr)),
        Op::Add => op_add(size, old, value, flags_of(sr)),
        Op::Eor => op_eor(size, old, value, flags_of(sr)),
        Op::Cmp => op_cmp(size, old, value, flags_of(sr)),
        Op::Move => op_move(size, value, 0, flags_of(sr)),
        Op::MoveAddress => outcome_with_flags(extended_value(row.source_size, value), flags_of(sr)),
        Op::Clr => op_clr(size, old, 0, flags_of(sr)),
        Op::Tst => op_tst(size, old, 0, flags_of(sr)),
        Op::AddAddress => outcome_with_flags(
            op_add(
                size,
                old,
                extended_value(row.source_size, value),
                flags_of(sr),
            )
            .value,
            flags_of(sr),
        ),
        Op::SubAddress => outcome_with_flags(
            op_sub(
                size,
                old,
                extended_value(row.source_size, value),
                flags_of(sr),
            )
            .value,
            flags_of(sr),
        ),
        Op::CmpAddress => op_cmp(
            size,
            old,
            extended_value(row.source_size, value),
            flags_of(sr),
        ),
        Op::Btst => op_btst(size, old, value, flags_of(sr)),
        Op::Not => op_not(size, old, 0, flags_of(sr)),
        Op::Neg => op_neg(size, old, 0, flags_of(sr)),
        Op::Swap => op_swap(size, old, 0, flags_of(sr)),
        Op::Ext => op_ext(size, old, 0, flags_of(sr)),
        Op::ImmediateToStatus { .. }
        | Op::MoveToStatus { .. }
        | Op::Bchg
        | Op::Bclr
        | Op::Bset
        | Op::Negx
        | Op::MoveFromSr
        | Op::Nbcd
        | Op::Tas
        | Op::Chk
        | Op::Scc { .. }
        | Op::Addx
        | Op::Subx
        | Op::Abcd
        | Op::Sbcd
        | Op::Mulu
        | Op::Muls
        | Op::Divu
        | Op::Divs
        | Op::Asl
        | Op::Asr
        | Op::Lsl
        | Op::Lsr
        | Op::Roxl
        | Op::Roxr
        | Op::Rol
        | Op::Ror
        | Op::Other => outcome_with_flags(0, flags_of(sr)),
    }
}

/// OR, AND and EOR of a status register and a word.
fn status_logical(which: u8, sr: u16, value: u16) -> u16
    ensures { result ≡ status_logical which sr value }
{
    match which % 3 {
        0 => sr | value,
        1 => sr & value,
        _ => sr ^ value,
    }
}

/// The status register after an operation, of which `value` is the source, `f` the flags that it makes,
/// and `sr` the status register before it.
#[tactic(auto, unfolding(m68k_decode::specs::RowResults::status_by))]
pub fn status_after(op: Op, value: u32, f: Flags, sr: u16) -> u16
    ensures { result ≡ status_by op value f sr }
{
    let value = (value & 0xffff) as u16;
    match op {
        Op::ImmediateToStatus { which } => {
            let status = status_logical(which, sr, value);
            if which < 3 {
                with_code(sr, status)
            } else {
                kept_status(status)
            }
        }
        Op::MoveToStatus { which: 0 } => with_code(sr, value),
        Op::MoveToStatus { .. } => kept_status(value),
        _ => with_flags(sr, f),
    }
}

/// The low word, with its sign.
fn word_of(number: u32) -> i32
    ensures { result ≡ word_of number }
{
    let word = (number & 0xffff) as i32;
    if word < 0x8000 { word } else { word - 0x1_0000 }
}

/// Whether CHK traps: below 0 and above the bound.
fn is_outside(bound: u32, number: u32) -> bool
    ensures { result ≡ is_outside bound number }
{
    let number = word_of(number);
    number < 0 || word_of(bound) < number
}

/// The exception that the operands make, if they make one: zero divide where the low word of the source
/// `value` is 0, CHK where the word `old` is below 0 or above the word `value`.
#[tactic(auto, unfolding(m68k_decode::specs::RowResults::trap_by))]
pub fn operand_trap(traps: Traps, value: u32, old: u32) -> Option<Trap>
    ensures { result ≡ trap_by traps value old }
{
    match traps {
        Traps::ByZero if is_zero_word(value) => Some(Trap::ZeroDivide),
        Traps::Outside if is_outside(value, old) => Some(Trap::Chk),
        _ => None,
    }
}

/// The clocks of the source's mode, which the entries of zero divide and CHK take besides; else 0.
#[tactic(auto, unfolding(m68k_decode::specs::RowResults::trap_ea_by))]
pub fn trap_ea(traps: Traps, mode: Mode) -> u8
    ensures { result ≡ trap_ea_by traps mode }
{
    match traps {
        Traps::Never => 0,
        Traps::ByZero | Traps::Outside => ea(&mode, Size::Word) as u8,
    }
}
