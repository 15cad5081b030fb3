//! Opcodes met again, and more of them than are kept ready.

use super::{Ask, Case, Cpu, at_code, memory, registers};

/// A case of no words: the test gives the opcodes itself.
static NOTHING: Case = Case {
    set: &[],
    code: &[],
    wants: &[],
    clocks: 0,
    after: &[],
};

/// Gives a word to the access that is asked for.
fn give(cpu: &mut Cpu, word: u16) {
    if cpu.ask() != Ask::Halted {
        let _level = cpu.answer(word, 0);
    }
}

/// MOVEQ of a byte to a register.
fn moveq(register: u16, byte: u16) -> u16 {
    0x7000 + ((register & 7) << 9) + (byte & 0xff)
}

/// Whether each MOVEQ to a register gives its long.
fn moves_all(cpu: &mut Cpu, register: u16) -> bool {
    let mut right = true;
    for byte in 0..256u16 {
        let long = if byte < 0x80 {
            u32::from(byte)
        } else {
            0xffff_ff00 + u32::from(byte)
        };
        give(cpu, moveq(register, byte));
        right &= cpu.regs().d[(register & 7) as usize] == long;
    }
    right
}

/// Each MOVEQ, 2048 opcodes, twice.
#[test]
fn all_opcodes_of_moveq(rt: HostRuntime) {
    let mut cpu = at_code(&mut memory(&NOTHING, &registers(&NOTHING)));
    let mut right = true;
    for _ in 0..2 {
        for register in 0..8u16 {
            right &= moves_all(&mut cpu, register);
        }
    }
    assert!(rt; right);
}

/// Whether an opcode leaves these longs in D0 and D2.
fn leaves(cpu: &mut Cpu, opcode: u16, d0: u32, d2: u32) -> bool {
    give(cpu, opcode);
    cpu.regs().d[0] == d0 && cpu.regs().d[2] == d2
}

/// MOVEQ #1,D0 and MOVEQ #11h,D2, which are kept at the same place, in turns.
#[test]
fn opcodes_that_share_a_place(rt: HostRuntime) {
    let mut cpu = at_code(&mut memory(&NOTHING, &registers(&NOTHING)));
    let mut right = true;
    for (opcode, d0, d2) in &[
        (0x7001, 1, 0xffff_fffe),
        (0x7411, 1, 0x11),
        (0x7000, 0, 0x11),
        (0x7410, 0, 0x10),
        (0x7001, 1, 0x10),
        (0x7411, 1, 0x11),
    ] {
        right &= leaves(&mut cpu, *opcode, *d0, *d2);
    }
    assert!(rt; right);
}
