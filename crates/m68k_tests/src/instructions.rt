//! Instructions and exceptions, access by access: each row's accesses in order, the registers
//! after, and the clocks, worked by hand from the tables. A processor runs from reset over a small
//! memory.

ghost use Rattle.std.specs.Prelude.{◌<◌};

use m68k_exec::{Ask, Cpu, CpuRegs};

mod arithmetic;
mod bits;
mod exceptions;
mod flow;
mod moves;
mod rows;

/// What a row of a test wants: a read of a word (R) or of a byte (B), a write of a word (W) or of a
/// byte (C), idle clocks (I), or the halt (H).
#[derive(Clone, Copy)]
enum Want {
    R(u32),
    B(u32),
    W(u32, u16),
    C(u32, u16),
    I(u32),
    H,
}

/// A register: D0 to D7, A0 to A6, the two stack pointers, PC and SR.
#[derive(Clone, Copy)]
enum Reg {
    D(u8),
    A(u8),
    Usp,
    Ssp,
    Pc,
    Sr,
}

/// One instruction, with the exception that follows it.
struct Case {
    /// Registers before it, where they are not those of `registers`.
    set: &'static [(Reg, u32)],
    /// Its words, from 410h on.
    code: &'static [u16],
    /// Its accesses and idle clocks, from the opcode on.
    wants: &'static [Want],
    /// All its colour clocks.
    clocks: u32,
    /// The registers that it changes. PC is behind its words, where it is not named here.
    after: &'static [(Reg, u32)],
}

/// Where a case's words stand.
const CODE: u32 = 0x410;

/// What comes before them: LEA B00h,A0; MOVE A0,USP; MOVEM.L 600h,D0-D7/A0-A6; MOVE #,SR.
static BEFORE: [u16; 7] = [0x41f8, 0x0b00, 0x4e60, 0x4cf8, 0x7fff, 0x0600, 0x46fc];

/// D0 to D7 before a case.
const START_D: [u32; 8] = [
    0x1234_5678,
    3,
    0xffff_fffe,
    0x8000_0000,
    0x10,
    0x0001_0000,
    0x99,
    0x7fff_ffff,
];

/// A0 to A6 before a case. USP is B00h, SSP is C00h and SR is 2700h.
const START_A: [u32; 7] = [0x800, 0x810, 0x820, 0x831, 0x840, 0x850, 0x860];

/// The word's place in the memory, of which the low 12 bits of an address count.
fn place(at: u32) -> usize
    ensures { result < 2048 }
{
    ((at >> 1) & 2047) as usize
}

fn put_long(memory: &mut [u16; 2048], at: u32, long: u32) {
    memory[place(at)] = (long >> 16) as u16;
    memory[place(at.wrapping_add(2))] = (long & 0xffff) as u16;
}

fn set(regs: &mut CpuRegs, changes: &[(Reg, u32)]) {
    for (reg, value) in changes {
        match *reg {
            Reg::D(n) => regs.d[(n & 7) as usize] = *value,
            Reg::A(n) => regs.a[(n % 7) as usize] = *value,
            Reg::Usp => regs.usp = *value,
            Reg::Ssp => regs.ssp = *value,
            Reg::Pc => regs.pc = *value,
            Reg::Sr => regs.sr = (*value & 0xffff) as u16,
        }
    }
}

/// The registers as a case begins.
fn registers(case: &Case) -> CpuRegs {
    let mut regs = CpuRegs {
        d: START_D,
        a: START_A,
        usp: 0xb00,
        ssp: 0xc00,
        pc: CODE,
        sr: 0x2700,
    };
    set(&mut regs, case.set);
    regs
}

/// Vector n is E00h + 2n.
fn put_vectors(memory: &mut [u16; 2048]) {
    for n in 2..64u32 {
        put_long(memory, 4 * n, 0xe00 + 2 * n);
    }
}

/// A word from 800h to 8FFh is its own address.
fn put_addresses(memory: &mut [u16; 2048]) {
    for n in 0..128u16 {
        memory[1024 + n as usize] = 0x800 + 2 * n;
    }
}

/// Longs from an address on.
fn put_longs(memory: &mut [u16; 2048], at: u32, longs: &[u32]) {
    let mut at = at;
    for long in longs {
        put_long(memory, at, *long);
        at = at.wrapping_add(4);
    }
}

/// Words from an address on.
fn put_words(memory: &mut [u16; 2048], at: u32, words: &[u16]) {
    let mut at = at;
    for word in words {
        memory[place(at)] = *word;
        at = at.wrapping_add(2);
    }
}

/// The memory as a case begins; the program begins at 400h.
fn memory(case: &Case, regs: &CpuRegs) -> [u16; 2048] {
    let mut memory = [0; 2048];
    put_vectors(&mut memory);
    put_addresses(&mut memory);
    put_longs(&mut memory, 0, &[regs.ssp, 0x400]);
    put_longs(&mut memory, 0x600, &regs.d);
    put_longs(&mut memory, 0x620, &regs.a);
    put_words(&mut memory, 0x400, &BEFORE);
    put_words(&mut memory, 0x40e, &[regs.sr]);
    put_words(&mut memory, CODE, case.code);
    memory
}

/// Does what the processor asks for, at an interrupt level; the colour clocks that it takes, and
/// the interrupt that begins with it.
fn step(cpu: &mut Cpu, memory: &mut [u16; 2048], level: u8) -> (u32, Option<u8>) {
    match cpu.ask() {
        Ask::Read { at, .. } => (2, cpu.answer(memory[place(at)], level & 7)),
        Ask::Write { at, byte, word } => {
            let old = memory[place(at)];
            memory[place(at)] = match (byte, at & 1) {
                (false, _) => word,
                (true, 0) => ((word & 0xff) << 8) | (old & 0xff),
                _ => (old & 0xff00) | (word & 0xff),
            };
            (2, cpu.answer(0, level & 7))
        }
        Ask::Idle { clocks } => (clocks, cpu.answer(0, level & 7)),
        Ask::Halted => (0, None),
    }
}

/// What a processor asks, as a row of a test has it.
fn wanted(want: Want) -> Ask {
    match want {
        Want::R(at) => Ask::Read { at, byte: false },
        Want::B(at) => Ask::Read { at, byte: true },
        Want::W(at, word) => Ask::Write {
            at,
            byte: false,
            word,
        },
        Want::C(at, word) => Ask::Write {
            at,
            byte: true,
            word,
        },
        Want::I(clocks) => Ask::Idle { clocks },
        Want::H => Ask::Halted,
    }
}

fn same(a: &CpuRegs, b: &CpuRegs) -> bool {
    a.d == b.d && a.a == b.a && a.usp == b.usp && a.ssp == b.ssp && a.pc == b.pc && a.sr == b.sr
}

/// A processor that ran from reset to a case's opcode.
fn at_code(memory: &mut [u16; 2048]) -> Cpu {
    let mut cpu = Cpu::reset();
    for _ in 0..64 {
        if cpu.ask()
            == (Ask::Read {
                at: CODE,
                byte: false,
            })
        {
            break;
        }
        step(&mut cpu, memory, 0);
    }
    cpu
}

/// What is wrong with a case at an interrupt level: the place of the want that is not met, 100 for
/// its clocks, 101 for its registers.
fn fault(case: &Case, level: u8) -> Option<usize> {
    let mut regs = registers(case);
    let mut memory = memory(case, &regs);
    let mut cpu = at_code(&mut memory);
    let mut clocks = 0u32;
    for (n, want) in case.wants.iter().enumerate() {
        if cpu.ask() != wanted(*want) {
            return Some(n);
        }
        clocks = clocks.wrapping_add(step(&mut cpu, &mut memory, level).0);
    }
    if clocks != case.clocks {
        return Some(100);
    }
    regs.pc = CODE.wrapping_add(2 * (case.code.len() & 7) as u32);
    set(&mut regs, case.after);
    if same(cpu.regs(), &regs) {
        None
    } else {
        Some(101)
    }
}

/// The place of the first case that goes otherwise than it says at an interrupt level, and what is
/// wrong with it.
fn first_fault(cases: &[Case], level: u8) -> Option<(usize, usize)> {
    for (n, case) in cases.iter().enumerate() {
        if let Some(fault) = fault(case, level) {
            return Some((n, fault));
        }
    }
    None
}
