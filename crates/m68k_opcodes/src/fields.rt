//! The fields of an opcode.

ghost use Rattle.std.specs.Prelude.{◌≡◌, ◌/◌, ◌%◌, ◌==◌};
ghost use Rattle.m68k_opcodes.specs.code.Parts.{size_in, mode_in, operand_in, any_of, alterable_of, word_or_long};

use crate::class::Class;
use crate::operand::{Mode, Size};

/// Bits 2 to 0: a register.
pub(crate) fn low_register(opcode: u16) -> u8
    ensures { result ≡ opcode % 8 }
{
    (opcode & 7) as u8
}

/// Bits 11 to 9: a register, or a number in its place.
pub(crate) fn high_register(opcode: u16) -> u8
    ensures { result ≡ opcode / 512 % 8 }
{
    ((opcode >> 9) & 7) as u8
}

/// Bits 5 to 3: the mode of the operand.
pub(crate) fn mode_bits(opcode: u16) -> u8
    ensures { result ≡ opcode / 8 % 8 }
{
    ((opcode >> 3) & 7) as u8
}

/// Bits 7 and 6: the size, in most rows.
pub(crate) fn size_bits(opcode: u16) -> u8
    ensures { result ≡ opcode / 64 % 4 }
{
    ((opcode >> 6) & 3) as u8
}

/// Bits 8 to 6: size and direction, or the mode of MOVE's destination.
pub(crate) fn opmode(opcode: u16) -> u8
    ensures { result ≡ opcode / 64 % 8 }
{
    ((opcode >> 6) & 7) as u8
}

/// Bits 11 to 8: the condition.
pub(crate) fn condition(opcode: u16) -> u8
    ensures { result ≡ opcode / 256 % 16 }
{
    ((opcode >> 8) & 15) as u8
}

/// Bits 7 to 0.
pub(crate) fn low_byte(opcode: u16) -> u8
    ensures { result ≡ opcode % 256 }
{
    (opcode & 0xff) as u8
}

/// Bit 8.
pub(crate) fn bit_8(opcode: u16) -> u8
    ensures { result ≡ opcode / 256 % 2 }
{
    ((opcode >> 8) & 1) as u8
}

/// The size that bits 7 and 6 say; None where they are 3.
pub(crate) fn size(opcode: u16) -> Option<Size>
    ensures { result ≡ size_in (opcode / 64 % 4) }
{
    match size_bits(opcode) {
        0 => Some(Size::Byte),
        1 => Some(Size::Word),
        2 => Some(Size::Long),
        _ => None,
    }
}

/// Long where the bit is set.
pub(crate) fn long_if(bit: bool) -> Size
    ensures { result ≡ word_or_long bit }
{
    if bit { Size::Long } else { Size::Word }
}

/// The mode that three bits of mode and three of register say.
pub(crate) fn mode(bits: u8, reg: u8) -> Option<Mode>
    ensures { result ≡ mode_in bits reg }
{
    match (bits, reg) {
        (0, _) => Some(Mode::Dn { reg }),
        (1, _) => Some(Mode::An { reg }),
        (2, _) => Some(Mode::Ind { reg }),
        (3, _) => Some(Mode::Post { reg }),
        (4, _) => Some(Mode::Pre { reg }),
        (5, _) => Some(Mode::Disp { reg }),
        (6, _) => Some(Mode::Index { reg }),
        (_, 0) => Some(Mode::Short),
        (_, 1) => Some(Mode::Long),
        (_, 2) => Some(Mode::PcDisp),
        (_, 3) => Some(Mode::PcIndex),
        (_, 4) => Some(Mode::Imm),
        _ => None,
    }
}

/// The operand that the low six bits name, where it is of the class.
pub(crate) fn operand(opcode: u16, class: Class) -> Option<Mode>
    ensures { result ≡ operand_in opcode class }
{
    match mode(mode_bits(opcode), low_register(opcode)) {
        Some(mode) if class.admits(mode) => Some(mode),
        _ => None,
    }
}

/// Every mode, but no byte of an address register.
pub(crate) fn any_of(size: Size) -> Class
    ensures { result ≡ any_of size }
{
    match size {
        Size::Byte => Class::Data,
        _ => Class::All,
    }
}

/// The alterable modes, but no byte of an address register.
pub(crate) fn alterable_of(size: Size) -> Class
    ensures { result ≡ alterable_of size }
{
    match size {
        Size::Byte => Class::DataAlterable,
        _ => Class::Alterable,
    }
}
