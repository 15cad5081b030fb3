//! Where an MC68000's operands are: the extension words of the address modes and the places that they name.
#![tactic(auto)]

ghost use Rattle.std.specs.Prelude.{◌≡◌, ◌≤◌, ◌+◌, ◌*◌, ◌%◌, length, slice_index};
ghost use Rattle.m68k_decode.specs.Places.{extensions, step_of, after_post, after_pre, displaced, index_of, indexed, immediate_of, place_of, stepped};
ghost use Rattle.m68k_decode.specs.Registers.{extended_word, address_of, with_address};
ghost use Rattle.m68k_decode.specs.declared.place.Place68.TheVariants as P;
ghost use Rattle.m68k_opcodes.specs.declared.operand.Mode.TheVariants as M;

use m68k_decode::extended_byte;
pub use m68k_decode::{CpuRegs, Mode, Place68, Size};

/// How many extension words follow the opcode for an operand.
pub fn extension_words(mode: &Mode, size: Size) -> u8
    ensures { result ≡ extensions mode.now size }
{
    match (mode, size) {
        (Mode::Long, _) | (Mode::Imm, Size::Long) => 2,
        (
            Mode::Dn { .. }
            | Mode::An { .. }
            | Mode::Ind { .. }
            | Mode::Post { .. }
            | Mode::Pre { .. },
            _,
        ) => 0,
        _ => 1,
    }
}

/// The place of an operand, with the postincrement or predecrement of its mode done in `regs`.
/// `words` are the extension words, and `pc` is the address of the first of them, from which the
/// PC-relative modes count. Addresses keep their 32 bits and wrap. A register number counts by its
/// low three bits, and A7 is the active stack pointer (M68000 Programmer's Reference Manual,
/// effective addressing).
#[inline(always)]
#[tactic(auto, unfolding(m68k_decode::specs::Places::place_of, m68k_decode::specs::Places::stepped))]
pub fn resolve(mode: &Mode, regs: &mut CpuRegs, words: &[u16], pc: u32, size: Size) -> Place68
    requires { extensions mode.now size ≤ length words.now }
    ensures place { result ≡ place_of mode.now regs.old words.now pc size }
    ensures step { regs.new ≡ stepped mode.now regs.old size }
{
    match *mode {
        Mode::Dn { reg } => Place68::Data { reg },
        Mode::An { reg } => Place68::Address { reg },
        Mode::Ind { reg } => Place68::Memory {
            at: regs.address(reg),
        },
        Mode::Post { reg } => post(regs, reg, size),
        Mode::Pre { reg } => pre(regs, reg, size),
        Mode::Disp { reg } => Place68::Memory {
            at: displacement_address(regs.address(reg), words[0]),
        },
        Mode::Index { reg } => Place68::Memory {
            at: index_address(regs, regs.address(reg), words[0]),
        },
        Mode::Short => Place68::Memory {
            at: extended_word(words[0]),
        },
        Mode::Long => Place68::Memory {
            at: long_of(words[0], words[1]),
        },
        Mode::PcDisp => Place68::Memory {
            at: displacement_address(pc, words[0]),
        },
        Mode::PcIndex => Place68::Memory {
            at: index_address(regs, pc, words[0]),
        },
        Mode::Imm => Place68::Value {
            value: immediate(words, size),
        },
    }
}

/// The place of (An)+.
#[inline(always)]
fn post(regs: &mut CpuRegs, reg: u8, size: Size) -> Place68
    ensures place { result ≡ P.Memory (address_of regs.old reg) }
    ensures step { regs.new ≡ with_address regs.old reg (after_post regs.old reg size) }
{
    let at = regs.address(reg);
    regs.set_address(reg, at.wrapping_add(step(size, reg)));
    Place68::Memory { at }
}

/// The place of -(An).
#[inline(always)]
fn pre(regs: &mut CpuRegs, reg: u8, size: Size) -> Place68
    ensures place { result ≡ P.Memory (after_pre regs.old reg size) }
    ensures step { regs.new ≡ with_address regs.old reg (after_pre regs.old reg size) }
{
    let at = regs.address(reg).wrapping_sub(step(size, reg));
    regs.set_address(reg, at);
    Place68::Memory { at }
}

/// How many bytes (An)+ and -(An) step: the stack pointer stays even.
fn step(size: Size, reg: u8) -> u32
    ensures value { result ≡ step_of size reg }
    ensures small { result ≤ 4 }
{
    match size {
        Size::Byte if reg & 7 == 7 => 2,
        Size::Byte => 1,
        Size::Word => 2,
        Size::Long => 4,
    }
}

/// An address and a displacement with its sign.
fn displacement_address(base: u32, word: u16) -> u32
    ensures { result ≡ displaced base word }
{
    base.wrapping_add(extended_word(word))
}

/// An address, the index and the displacement of an extension word.
fn index_address(regs: &CpuRegs, base: u32, word: u16) -> u32
    ensures { result ≡ indexed regs.now base word }
{
    base.wrapping_add(index(regs, word))
        .wrapping_add(extended_byte((word & 0xff) as u8))
}

/// The index that an extension word names: bit 15 says An, bits 14 to 12 the register, bit 11 long.
fn index(regs: &CpuRegs, word: u16) -> u32
    ensures { result ≡ index_of regs.now word }
{
    let reg = (word >> 12) as u8;
    let whole = if (word >> 15) & 1 == 1 {
        regs.address(reg)
    } else {
        regs.data(reg)
    };
    if (word >> 11) & 1 == 1 {
        whole
    } else {
        extended_word((whole & 0xffff) as u16)
    }
}

/// A word with its sign as 32 bits.
pub fn extended_word(word: u16) -> u32
    ensures { result ≡ extended_word word }
{
    let word = u32::from(word);
    if word < 0x8000 {
        word
    } else {
        word + 0xffff_0000
    }
}

/// A long of two words.
pub fn long_of(high: u16, low: u16) -> u32
    ensures { result ≡ high * 65536 + low }
{
    u32::from(high) * 0x1_0000 + u32::from(low)
}

/// The value of #: that of a byte is the low byte of a word.
fn immediate(words: &[u16], size: Size) -> u32
    requires { extensions M.Imm size ≤ length words.now }
    ensures { result ≡ immediate_of words.now size }
{
    match size {
        Size::Byte => u32::from(words[0] & 0xff),
        Size::Word => u32::from(words[0]),
        Size::Long => long_of(words[0], words[1]),
    }
}
