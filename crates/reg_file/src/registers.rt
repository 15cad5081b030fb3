//! The kept words of the custom registers.

ghost use Rattle.std.specs.Prelude.{◌≡◌, ◌<◌, ◌%◌, ◌+◌, ◌*◌, true, if◌then◌else◌};
ghost use Rattle.ocs_base.specs.Sizes.{is_chip_size, size_of_bytes};
ghost use Rattle.ocs_base.specs.declared.chip_size.ChipSize.TheVariants.{Kib512};
ghost use Rattle.serial_model.specs.Registers.{no_registers, kept_word, pointer_at, with_pointer, with_word, words_after, effect_of, high_bits as high_bits_of};
ghost use Rattle.irq_cia.specs.Bits.{set_or_clear as set_or_clear_of};
ghost use Rattle.serial_model.specs.Registers.{effect_in, word_at, is_closed as closed, bit_worth};
ghost use Rattle.serial_model.specs.RegisterTable.{is_pointer_high};

use crate::table::{kept_bits, reading, writing};
use ocs_base::{Addr, ChipSize, Reg, offset};
use serial_model::{Effect, Live, Reading, Writing};
use std::marker::Model;

/// The offset of DMACON.
const DMACON: usize = offset::DMACON as usize;

/// The kept words of the custom registers (Hardware Reference Manual, register summary), by half their
/// offset from DFF000. An offset without a register keeps 0 (profile). Pointers are addresses of a chip
/// memory of this size.
#[derive(Drop)]
pub struct Regs {
    size: ChipSize,
    words: [u16; 256],
}

impl Model for Regs {
    ghost use Rattle.serial_model.specs.Registers.{Registers};

    ghost Value = { Registers };

    ghost view = { λ r. record { size = r.size; words = r.words } };
}

impl Regs {
    /// The registers at reset, with 512 KiB of chip memory.
    pub fn reset() -> Regs
        ensures { result ≡ no_registers Kib512 }
    {
        Regs::reset_in(ChipSize::Kib512)
    }

    /// The registers at reset, with so many bytes of chip memory: 524,288 or 1,048,576.
    pub fn reset_for(chip: u32) -> Regs
        requires { is_chip_size chip ≡ true }
        ensures { result ≡ no_registers (size_of_bytes chip) }
    {
        Regs::reset_in(ChipSize::of_bytes(chip))
    }

    /// The registers at reset, with a chip memory of this size: every kept word is 0 (profile).
    #[tactic(auto, unfolding(serial_model::specs::Registers::no_registers))]
    pub fn reset_in(size: ChipSize) -> Regs
        ensures { result ≡ no_registers size }
    {
        Regs {
            size,
            words: [0; 256],
        }
    }

    /// The same words once more.
    pub fn copied(&self) -> Regs
        ensures { result ≡ self.now }
    {
        Regs {
            size: self.size,
            words: self.words,
        }
    }

    /// A write of a word to a register by the script, the Copper or the processor. The register
    /// keeps those bits of the word that it has. At DMACON bit 15 says whether the word's other 1
    /// bits are set or cleared in the kept word (Hardware Reference Manual, DMACON). The words of
    /// INTENA and INTREQ are not kept here, since other chips change them too. A write to a
    /// register for reading only changes nothing, nor does one to an offset without a register
    /// (profile), or to 040 to 074 where `busy` says that the blitter is busy (profile). The answer
    /// says what happens beside the kept word.
    #[tactic(auto, unfolding(serial_model::specs::Registers::words_after, serial_model::specs::Registers::effect_of))]
    pub fn poke(&mut self, reg: Reg, word: u16, busy: bool) -> Effect
        ensures words { self.new ≡ words_after busy self.old reg.offset word }
        ensures effect { result ≡ effect_of busy reg.offset word }
    {
        if is_closed(reg, busy) {
            return Effect::Nothing;
        }
        let place = &mut self.words[reg.offset as usize / 2];
        let way = writing(reg);
        match way {
            Writing::Ignored | Writing::Interrupt => {}
            Writing::SetOrClear => *place = set_or_clear(*place, word, kept_bits(reg)),
            Writing::PointerHigh => *place = word & high_bits(self.size),
            Writing::Plain
            | Writing::Jump { .. }
            | Writing::Blit
            | Writing::Picture
            | Writing::Field => *place = word & kept_bits(reg),
        }
        effect(way, word)
    }

    /// What a read of a register gives (Hardware Reference Manual, DMACONR, VPOSR, VHPOSR, JOY0DAT, JOY1DAT).
    /// DMACONR has bits 10 to 0 of DMACON, BBUSY in bit 14 and BZERO in bit 13. VPOSR has LOF in bit 15 and
    /// bit 8 of the line in bit 0, and its other bits are 0 (profile). VHPOSR has bits 7 to 0 of the line in
    /// its high byte and the colour clock, 0 to 226, in its low one. Other chips keep CLXDAT, INTENAR and
    /// INTREQR, which are 0 here. A register for writing only reads as 0, as does an offset without one
    /// (profile).
    #[tactic(auto, unfolding(serial_model::specs::Registers::word_at))]
    pub fn peek(&self, reg: Reg, live: &Live) -> u16
        ensures { result ≡ word_at live.now self.now reg.offset }
    {
        match reading(reg) {
            Reading::Zero | Reading::Elsewhere => 0,
            Reading::DmaAndBlitter => {
                (self.words[DMACON / 2] & 0x7ff) + bit(live.zero, 0x2000) + bit(live.busy, 0x4000)
            }
            Reading::FieldAndLine => live.beam.v / 256 % 2 + bit(live.beam.lof, 0x8000),
            Reading::LineAndClock => live.beam.v % 256 * 256 + live.beam.h % 256,
            Reading::Joystick { port } => { if port == 0 { live.joy0 } else { live.joy1 } }
        }
    }

    /// The kept word of a register, also of one for writing only: what the chips see, and no read of the bus.
    pub fn word(&self, reg: Reg) -> u16
        ensures { result ≡ kept_word self.now reg.offset }
    {
        self.words[reg.offset as usize / 2]
    }

    /// The size of the chip memory that the pointers are addresses of.
    #[inline(always)]
    pub fn size(&self) -> ChipSize
        ensures { result ≡ self.now.size }
    {
        self.size
    }

    /// The address in a pointer: its bits above 15 are the word at `high`, and bits 15 to 1 are those of the
    /// next register's word (Hardware Reference Manual, pointer registers). Bit 0 of BLTAPTL is kept, but is
    /// no part of the address.
    pub fn pointer(&self, high: Reg) -> Addr
        requires { is_pointer_high high.offset ≡ true }
        ensures { result ≡ pointer_at self.now high.offset }
    {
        Addr::sized(self.size, self.pointer_number(high))
    }

    /// The two kept words of a pointer as one number, the word at `high` above the next register's: its
    /// address drops bits of it.
    #[inline(always)]
    #[tactic(auto, using(crate::proofs::TableLaws::low_follows))]
    pub fn pointer_number(&self, high: Reg) -> u32
        requires { is_pointer_high high.offset ≡ true }
        ensures { result
            ≡ 65536 * kept_word self.now high.offset + kept_word self.now (high.offset + 2) }
    {
        let at = high.offset as usize / 2;
        self.words[at] as u32 * 0x1_0000 + self.words[at + 1] as u32
    }

    /// A pointer gets an address, which is to have the span of the chip memory: the register at `high` its
    /// bits above 15, and the next one bits 15 to 0, of which bit 0 is 0. This is no write on the bus, so a
    /// busy blitter does not close it.
    #[tactic(auto, using(crate::proofs::TableLaws::low_follows))]
    pub fn set_pointer(&mut self, high: Reg, to: Addr)
        requires { is_pointer_high high.offset ≡ true }
        ensures { self.new ≡ with_pointer self.old high.offset to.value }
    {
        let at = high.offset as usize / 2;
        self.words[at] = (to.raw() / 0x1_0000) as u16;
        self.words[at + 1] = (to.raw() % 0x1_0000) as u16;
    }

    /// The kept word of a register becomes what a chip leaves in it. This is no write on the bus, so a busy
    /// blitter does not close it, and all 16 bits are kept.
    pub fn set_word(&mut self, reg: Reg, word: u16)
        ensures { self.new ≡ with_word self.old reg.offset word }
    {
        self.words[reg.offset as usize / 2] = word;
    }
}

/// The bits that a pointer's high word keeps: 2 to 0 with 512 KiB of chip memory, and 3 to 0 with 1 MiB.
fn high_bits(size: ChipSize) -> u16
    ensures { result ≡ high_bits_of size }
{
    match size {
        ChipSize::Kib512 => 0x7,
        ChipSize::Mib1 => 0xf,
    }
}

/// Whether a busy blitter closes a register to a write: 040 to 074 (profile).
fn is_closed(reg: Reg, busy: bool) -> bool
    ensures { result ≡ closed busy reg.offset }
{
    busy && (0x40..=0x74).contains(&reg.offset)
}

/// The kept word of DMACON after a write: bit 15 of the written word says whether
/// its other 1 bits are set or cleared. `bits` are those that the register keeps.
fn set_or_clear(old: u16, word: u16, bits: u16) -> u16
    ensures { result ≡ set_or_clear_of bits old word }
{
    if word >= 0x8000 {
        old | word & bits
    } else {
        old & !word
    }
}

/// What a write of a word does beside the kept word, by the kind of the register.
fn effect(writing: Writing, word: u16) -> Effect
    ensures { result ≡ effect_in writing word }
{
    match writing {
        Writing::Ignored => Effect::Nothing,
        Writing::Plain | Writing::PointerHigh | Writing::SetOrClear => Effect::Kept,
        Writing::Jump { list } => Effect::Jump { list },
        Writing::Blit => Effect::Blit,
        Writing::Picture => Effect::Picture,
        Writing::Interrupt => Effect::Interrupt,
        Writing::Field => Effect::Lof {
            long: word >= 0x8000,
        },
    }
}

/// What a bit of a word adds to it: `worth` where it is set, else 0.
fn bit(set: bool, worth: u16) -> u16
    ensures { result ≡ bit_worth set worth }
{
    if set { worth } else { 0 }
}
