//! What a row with a source, a destination and a result says of these, and what it counts.

ghost use Rattle.std.specs.Prelude.{◌≡◌, ◌≤◌, ◌<◌, ◌+◌, ◌*◌, ◌/◌, ◌%◌};
ghost use Rattle.m68k_opcodes.specs.declared.operand.Size.TheVariants as S;
ghost use Rattle.m68k_decode.specs.RowWords.{extended, ones, turns};
ghost use Rattle.m68k_decode.specs.RowResults.{count_by};
ghost use Rattle.m68k_decode.specs.RowData.{source_mode_of, dest_mode_of};
ghost use Rattle.m68k_decode.specs.General.{is_program};

use crate::status::{condition, flags_of};
use m68k_decode::{Count, Dest, Mode, Size, Source};
use m68k_ea::extended_word;

/// The source operand; a number has none.
pub fn source_mode(source: Source) -> Mode
    ensures { result ≡ source_mode_of source }
{
    match source {
        Source::Number { .. } => Mode::Imm,
        Source::Operand { mode } => mode,
    }
}

/// The destination operand.
pub fn dest_mode(dest: Dest) -> Mode
    ensures { result ≡ dest_mode_of dest }
{
    match dest {
        Dest::Nothing => Mode::Imm,
        Dest::Operand { mode } => mode,
    }
}

/// A word with its sign as a long; a long as it is.
pub fn extended_value(size: Size, value: u32) -> u32
    ensures { result ≡ extended size value }
{
    match size {
        Size::Word => extended_word((value & 0xffff) as u16),
        Size::Byte | Size::Long => value,
    }
}

/// Whether what a mode names is read as program.
#[tactic(auto, unfolding(m68k_decode::specs::General::is_program))]
pub fn is_program(mode: Mode) -> bool
    ensures { result ≡ is_program mode }
{
    matches!(mode, Mode::PcDisp | Mode::PcIndex)
}

/// The 1 bits among the low sixteen bits of a number.
#[inline(always)]
#[tactic(auto, using(crate::proofs::Counting::ones_word))]
pub fn ones(number: u32) -> u32
    ensures value { result ≡ ones 16 number }
    ensures most { result ≤ 16 }
{
    (number % 0x1_0000).count_ones()
}

/// The pairs 01 and 10 among the low `places` bits of a number and the one above them.
#[tactic(auto, using(crate::proofs::Counting::turns_step, crate::proofs::Counting::turns_none))]
fn turns(places: u8, number: u32) -> u32
    requires { places ≤ 16 }
    ensures value { result ≡ turns places number }
    ensures most { result ≤ places }
{
    if places == 0 {
        return 0;
    }
    let turn = if number % 2 == number / 2 % 2 { 0 } else { 1 };
    turn + turns(places - 1, number / 2)
}

/// The pairs 01 and 10 in a word followed by a 0.
#[tactic(auto, using(crate::proofs::Counting::turns_before_zero))]
fn turns_before_zero(word: u32) -> u32
    ensures value { result ≡ turns 16 (2 * word) }
    ensures most { result ≤ 16 }
{
    word % 2 + turns(15, word)
}

/// The count, or the place of the outcome, with which the row's clocks are to be taken.
#[tactic(auto, unfolding(m68k_decode::specs::RowResults::count_by))]
pub fn clock_count(count: Count, value: u32, sr: u16) -> u32
    ensures value { result ≡ count_by count value sr }
    ensures most { result ≤ 63 }
{
    match count {
        Count::Nothing => 0,
        Count::Ones => ones(value),
        Count::Turns => turns_before_zero(value),
        Count::Shift => value % 64,
        Count::Condition { c } => u32::from(condition(c, flags_of(sr))),
    }
}
