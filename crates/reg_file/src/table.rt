//! The custom registers by their offset from DFF000 (Hardware Reference Manual, register summary).

ghost use Rattle.std.specs.Prelude.{◌≡◌, ◌==◌, ◌%◌, unwrap_or, if◌then◌else◌};
ghost use Rattle.serial_model.specs.RegisterTable.{reading_at, writing_at, kept_bits_at};
ghost use Rattle.reg_file.specs.code.Table.{is_within, is_pointer_word, pointer_writing as pointer_writing_of, whole_word_in};

use ocs_base::Reg;
use serial_model::{Reading, Writing};

/// What a read of a register gives. An offset that is not listed reads as 0 (profile).
#[tactic(auto, using(crate::proofs::TableLaws::reading_law, std::proofs::lemmas::Bool::Decides::nat_tests))]
pub fn reading(reg: Reg) -> Reading
    ensures { result ≡ reading_at reg.offset }
{
    match reg.offset {
        0x002 => Reading::DmaAndBlitter,
        0x004 => Reading::FieldAndLine,
        0x006 => Reading::LineAndClock,
        0x00a => Reading::Joystick { port: 0 },
        0x00c => Reading::Joystick { port: 1 },
        0x00e | 0x01c | 0x01e => Reading::Elsewhere,
        _ => Reading::Zero,
    }
}

/// What a write to a register does. Nothing at an offset that is not listed (profile).
#[tactic(auto, using(crate::proofs::TableLaws::writing_law, std::proofs::lemmas::Bool::Decides::nat_tests))]
pub fn writing(reg: Reg) -> Writing
    ensures { result ≡ writing_at reg.offset }
{
    if is_colour(reg) {
        return Writing::Picture;
    }
    if is_pointer(reg) {
        return pointer_writing(reg);
    }
    match reg.offset {
        0x02a => Writing::Field,
        0x058 => Writing::Blit,
        0x088 => Writing::Jump { list: 1 },
        0x08a => Writing::Jump { list: 2 },
        0x096 => Writing::SetOrClear,
        0x09a | 0x09c => Writing::Interrupt,
        0x02e | 0x040..=0x046 | 0x060..=0x066 | 0x070..=0x074 => Writing::Plain,
        0x092..=0x094 | 0x108 | 0x10a => Writing::Plain,
        0x08e..=0x090 | 0x098 | 0x100..=0x104 | 0x110..=0x11a => Writing::Picture,
        0x140..=0x17e => Writing::Picture,
        _ => Writing::Ignored,
    }
}

/// Whether this is a colour register. They come first, since most writes of the Copper are to them.
fn is_colour(reg: Reg) -> bool
    ensures { result ≡ is_within 0x180 0x1be reg.offset }
{
    matches!(reg.offset, 0x180..=0x1be)
}

/// Whether this is one word of a pointer: of the blitter, the Copper, a bitplane or a sprite.
fn is_pointer(reg: Reg) -> bool
    ensures { result ≡ is_pointer_word reg.offset }
{
    matches!(reg.offset, 0x048..=0x056 | 0x080..=0x086 | 0x0e0..=0x0f6 | 0x120..=0x13e)
}

/// What a write to one word of a pointer does: the high word lies at a multiple of 4.
fn pointer_writing(reg: Reg) -> Writing
    ensures { result ≡ pointer_writing_of reg.offset }
{
    if reg.offset % 4 == 0 {
        Writing::PointerHigh
    } else {
        Writing::Plain
    }
}

/// The bits of a written word that a register keeps; 0 where there is none to keep, and for the high word
/// of a pointer, whose bits go by the size of chip memory.
pub fn kept_bits(reg: Reg) -> u16
    ensures { result ≡ kept_bits_at reg.offset }
{
    match some_bits(reg) {
        Some(bits) => bits,
        None => whole_word(writing(reg)),
    }
}

/// The bits that a register keeps where it keeps some of a word and drops others.
#[tactic(auto, using(crate::proofs::TableLaws::bits_law, std::proofs::lemmas::Bool::Decides::nat_tests))]
fn some_bits(reg: Reg) -> Option<u16>
    ensures { kept_bits_at reg.offset ≡ unwrap_or result (whole_word_in (writing_at reg.offset)) }
{
    if is_colour(reg) {
        return Some(0x0fff);
    }
    match reg.offset {
        0x048..=0x050 | 0x054..=0x056 | 0x080..=0x086 => Some(pointer_bits(reg)),
        0x0e0..=0x0f6 | 0x120..=0x13e => Some(pointer_bits(reg)),
        0x096 => Some(0x07ff),
        _ => None,
    }
}

/// The bits that a register keeps where it keeps all of a word or none.
fn whole_word(writing: Writing) -> u16
    ensures { result ≡ whole_word_in writing }
{
    match writing {
        Writing::Plain | Writing::Blit | Writing::Picture => 0xffff,
        Writing::Jump { .. } | Writing::Field => 0xffff,
        Writing::Ignored | Writing::Interrupt => 0,
        Writing::PointerHigh | Writing::SetOrClear => 0,
    }
}

/// The bits that one word of a pointer keeps whatever the size of chip memory: none of the high word, which
/// lies at a multiple of 4, and 15 to 1 of the low word.
fn pointer_bits(reg: Reg) -> u16
    ensures { result ≡ (if reg.offset % 4 == 0 then 0 else 65534) }
{
    if reg.offset % 4 == 0 { 0 } else { 0xfffe }
}
