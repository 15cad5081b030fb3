//! Where an access of the processor goes, and what it waits for then.

ghost use Rattle.std.specs.Prelude.{◌≡◌, ℕ, ◌%◌, true, List};
ghost use Rattle.m68k_decode.specs.declared.regs.CpuRegs.{CpuRegs};
ghost use Rattle.m68k_decode.specs.declared.under.Under.{Under};
ghost use Rattle.m68k_decode.specs.Walk.{stage, next};
ghost use Rattle.m68k_exec.specs.Stands.{Stands, settled_at};
ghost use Rattle.cpu_bus.specs.Bus.{wait_by};
ghost use Rattle.ocs_base.specs.Register.{register_of};
ghost use Rattle.serial_model.specs.Processor.{target_of, target_at, wait_of, read_wait as read_wait_of, write_wait as write_wait_of, half_of};
ghost use Rattle.serial_model.specs.Processor.{register_word as register_word_of, cia_byte as cia_byte_of};
ghost use Rattle.serial_model.specs.Processor.{cia_register as cia_register_of, reaches_cia_a as reaches_a, reaches_cia_b as reaches_b};

use m68k_exec::{Ask as Access, Cpu};
use ocs_base::{Addr, ChipSize, Reg};
use serial_model::{CiaName, CiaRegister, Half, ProcessorAsk, Target, Wait};

/// The bytes of chip memory that every size of it has.
const SMALL_CHIP_BYTES: u32 = 0x8_0000;

/// Puts down what the processor waits for next, with a chip memory of this size. The read of a word in the
/// first 512 KiB of chip memory, which is most of what it does, is looked for first.
#[inline(always)]
pub fn look_ahead(wait: &mut Wait, chip: ChipSize, cpu: &Cpu)
    ensures { (r : CpuRegs) (u : Under) (ws : List ℕ) → Stands cpu.now r u ws
        → wait.new ≡ wait_of chip (next r u ws) }
{
    if !look_for_word(wait, chip, cpu) {
        look_further(wait, chip, cpu);
    }
}

/// Puts down the wait for the read of a word in the first 512 KiB of chip memory, where that comes next. The
/// answer is whether it does.
#[inline(always)]
pub fn look_for_word(wait: &mut Wait, chip: ChipSize, cpu: &Cpu) -> bool
    ensures waits { (r : CpuRegs) (u : Under) (ws : List ℕ) → Stands cpu.now r u ws
        → result ≡ true → wait.new ≡ wait_of chip (next r u ws) }
    ensures settles { (r : CpuRegs) (u : Under) (ws : List ℕ) (level : ℕ) → Stands cpu.now r u ws
        → result ≡ true → settled_at r u ws level ≡ stage r u ws }
{
    if let Some(at) = cpu.word_read() {
        let low = bus_address(at);
        if low < SMALL_CHIP_BYTES {
            *wait = Wait::Slot {
                ask: ProcessorAsk::Read {
                    at: Addr::sized(chip, low),
                },
            };
            return true;
        }
    }
    false
}

/// The same of a write.
#[inline(always)]
pub fn look_for_write(wait: &mut Wait, chip: ChipSize, cpu: &Cpu) -> bool
    ensures waits { (r : CpuRegs) (u : Under) (ws : List ℕ) → Stands cpu.now r u ws
        → result ≡ true → wait.new ≡ wait_of chip (next r u ws) }
    ensures settles { (r : CpuRegs) (u : Under) (ws : List ℕ) (level : ℕ) → Stands cpu.now r u ws
        → result ≡ true → settled_at r u ws level ≡ stage r u ws }
{
    if let Access::Write { at, byte, word } = cpu.ask() {
        let low = bus_address(at);
        if low < SMALL_CHIP_BYTES {
            *wait = Wait::Slot {
                ask: ProcessorAsk::Write {
                    at: Addr::sized(chip, low),
                    half: half(at, byte),
                    word,
                },
            };
            return true;
        }
    }
    false
}

/// The same in all cases; a write to the first 512 KiB of chip memory, and idle clocks, are looked for first.
#[inline(always)]
pub fn look_further(wait: &mut Wait, chip: ChipSize, cpu: &Cpu)
    ensures { (r : CpuRegs) (u : Under) (ws : List ℕ) → Stands cpu.now r u ws
        → wait.new ≡ wait_of chip (next r u ws) }
{
    match cpu.ask() {
        Access::Write { at, byte, word } => {
            let low = bus_address(at);
            if low < SMALL_CHIP_BYTES {
                *wait = Wait::Slot {
                    ask: ProcessorAsk::Write {
                        at: Addr::sized(chip, low),
                        half: half(at, byte),
                        word,
                    },
                };
                return;
            }
        }
        Access::Idle { clocks } => {
            *wait = Wait::Idle { clocks };
            return;
        }
        Access::Read { .. } | Access::Halted => {}
    }
    look_for_other(wait, chip, cpu);
}

/// The same in all cases, by what the processor asks for.
#[inline(never)]
fn look_for_other(wait: &mut Wait, chip: ChipSize, cpu: &Cpu)
    ensures { (r : CpuRegs) (u : Under) (ws : List ℕ) → Stands cpu.now r u ws
        → wait.new ≡ wait_of chip (next r u ws) }
{
    *wait = wait_for(chip, cpu.ask());
}

/// What the processor waits for, by what it asks for, with a chip memory of this size.
#[inline(always)]
#[tactic(auto, unfolding(crate::specs::Bus::wait_by))]
fn wait_for(chip: ChipSize, access: Access) -> Wait
    ensures { result ≡ wait_by chip access }
{
    match access {
        Access::Read { at, byte } => read_wait(target(chip, at, byte)),
        Access::Write { at, byte, word } => write_wait(at, byte, word, target(chip, at, byte)),
        Access::Idle { clocks } => Wait::Idle { clocks },
        Access::Halted => Wait::Halted,
    }
}

/// The low 24 bits of an address, which are those on the bus.
fn bus_address(at: u32) -> u32
    ensures { result ≡ at % 0x1000000 }
{
    at % 0x100_0000
}

/// Where an access goes, by the low 24 bits of its address: those below the size of chip memory are in it.
#[tactic(auto, unfolding(serial_model::specs::Processor::target_of))]
fn target(chip: ChipSize, at: u32, byte: bool) -> Target
    ensures { result ≡ target_of chip at byte }
{
    let a = bus_address(at);
    if a < chip.bytes() {
        Target::Memory {
            at: Addr::sized(chip, a),
        }
    } else if 0xdf_f000 <= a && a <= 0xdf_f1ff {
        Target::Register {
            reg: register_at(a),
        }
    } else if reaches_cia_a(a, byte) {
        Target::Cia {
            cia: CiaName::A,
            reg: cia_register(a),
        }
    } else if reaches_cia_b(a, byte) {
        Target::Cia {
            cia: CiaName::B,
            reg: cia_register(a),
        }
    } else {
        Target::Unmapped
    }
}

/// The register at an address: its bits 8 to 1 name it.
fn register_at(a: u32) -> Reg
    ensures { result ≡ register_of a }
{
    Reg::masked((a % 0x1_0000) as u16)
}

/// Whether an access reaches CIA A: in its range each odd byte, and each word.
fn reaches_cia_a(a: u32, byte: bool) -> bool
    ensures { result ≡ reaches_a a byte }
{
    0xbf_e000 <= a && a <= 0xbf_efff && (!byte || a % 2 == 1)
}

/// Whether an access reaches CIA B: in its range each even byte, and each word.
fn reaches_cia_b(a: u32, byte: bool) -> bool
    ensures { result ≡ reaches_b a byte }
{
    0xbf_d000 <= a && a <= 0xbf_dfff && (!byte || a % 2 == 0)
}

/// The register of a CIA that an address names: its bits 11 to 8.
fn cia_register(a: u32) -> CiaRegister
    ensures { result ≡ cia_register_of a }
{
    CiaRegister {
        number: (a / 256 % 16) as u8,
    }
}

/// What a read waits for.
fn read_wait(target: Target) -> Wait
    ensures { result ≡ read_wait_of target }
{
    match target {
        Target::Memory { at } => Wait::Slot {
            ask: ProcessorAsk::Read { at },
        },
        Target::Register { reg } => Wait::Slot {
            ask: ProcessorAsk::ReadRegister { reg },
        },
        Target::Cia { cia, reg } => Wait::Cia {
            cia,
            reg,
            byte: None,
        },
        Target::Unmapped => Wait::Unmapped,
    }
}

/// What a write waits for; of the write of a byte the low byte of `word` counts.
fn write_wait(at: u32, byte: bool, word: u16, target: Target) -> Wait
    ensures { result ≡ write_wait_of at byte word target }
{
    match target {
        Target::Memory { at: place } => Wait::Slot {
            ask: ProcessorAsk::Write {
                at: place,
                half: half(at, byte),
                word,
            },
        },
        Target::Register { reg } => Wait::Slot {
            ask: ProcessorAsk::WriteRegister {
                reg,
                word: register_word(byte, word),
            },
        },
        Target::Cia { cia, reg } => Wait::Cia {
            cia,
            reg,
            byte: Some(cia_byte(cia, byte, word)),
        },
        Target::Unmapped => Wait::Unmapped,
    }
}

/// The bytes of a word of memory that a write changes.
fn half(at: u32, byte: bool) -> Half
    ensures { result ≡ half_of at byte }
{
    if !byte {
        Half::Both
    } else if at % 2 == 0 {
        Half::High
    } else {
        Half::Low
    }
}

/// The word that a register gets: of the write of a byte the byte in both halves.
fn register_word(byte: bool, word: u16) -> u16
    ensures { result ≡ register_word_of byte word }
{
    if byte { word % 256 * 257 } else { word }
}

/// The byte that a CIA gets: of a word CIA A has the low byte and CIA B the high one.
fn cia_byte(cia: CiaName, byte: bool, word: u16) -> u8
    ensures { result ≡ cia_byte_of cia byte word }
{
    match cia {
        CiaName::B if !byte => (word / 256) as u8,
        _ => (word % 256) as u8,
    }
}
