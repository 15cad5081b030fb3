//! Exceptions: their frames, vectors and clocks; interrupts, STOP and the halt.

use super::Reg::{D, Pc, Sr, Ssp};
use super::Want::{H, I, R, W};
use super::{Case, Cpu, CpuRegs, Want, at_code, first_fault, memory, registers, step, wanted};

static REFUSED: [Case; 10] = [
    // ILLEGAL.
    Case {
        set: &[],
        code: &[0x4afc],
        wants: &[
            R(0x410),
            W(0xbfe, 0x0410),
            W(0xbfc, 0x0),
            W(0xbfa, 0x2700),
            R(0x10),
            R(0x12),
            I(5),
        ],
        clocks: 17,
        after: &[(Pc, 0xe08), (Ssp, 0xbfa)],
    },
    // No instruction: SWAP of A0.
    Case {
        set: &[],
        code: &[0x4848],
        wants: &[
            R(0x410),
            W(0xbfe, 0x0410),
            W(0xbfc, 0x0),
            W(0xbfa, 0x2700),
            R(0x10),
            R(0x12),
            I(5),
        ],
        clocks: 17,
        after: &[(Pc, 0xe08), (Ssp, 0xbfa)],
    },
    // Line A.
    Case {
        set: &[],
        code: &[0xa123],
        wants: &[
            R(0x410),
            W(0xbfe, 0x0410),
            W(0xbfc, 0x0),
            W(0xbfa, 0x2700),
            R(0x28),
            R(0x2a),
            I(5),
        ],
        clocks: 17,
        after: &[(Pc, 0xe14), (Ssp, 0xbfa)],
    },
    // Line F.
    Case {
        set: &[],
        code: &[0xf000],
        wants: &[
            R(0x410),
            W(0xbfe, 0x0410),
            W(0xbfc, 0x0),
            W(0xbfa, 0x2700),
            R(0x2c),
            R(0x2e),
            I(5),
        ],
        clocks: 17,
        after: &[(Pc, 0xe16), (Ssp, 0xbfa)],
    },
    // MOVE to SR by a user: before its word.
    Case {
        set: &[(Sr, 0x0700)],
        code: &[0x46fc, 0x2700],
        wants: &[
            R(0x410),
            W(0xbfe, 0x0410),
            W(0xbfc, 0x0),
            W(0xbfa, 0x0700),
            R(0x20),
            R(0x22),
            I(5),
        ],
        clocks: 17,
        after: &[(Pc, 0xe10), (Ssp, 0xbfa), (Sr, 0x2700)],
    },
    // STOP by a user.
    Case {
        set: &[(Sr, 0x0700)],
        code: &[0x4e72, 0x2000],
        wants: &[
            R(0x410),
            W(0xbfe, 0x0410),
            W(0xbfc, 0x0),
            W(0xbfa, 0x0700),
            R(0x20),
            R(0x22),
            I(5),
        ],
        clocks: 17,
        after: &[(Pc, 0xe10), (Ssp, 0xbfa), (Sr, 0x2700)],
    },
    // RTE by a user.
    Case {
        set: &[(Sr, 0x0300)],
        code: &[0x4e73],
        wants: &[
            R(0x410),
            W(0xbfe, 0x0410),
            W(0xbfc, 0x0),
            W(0xbfa, 0x0300),
            R(0x20),
            R(0x22),
            I(5),
        ],
        clocks: 17,
        after: &[(Pc, 0xe10), (Ssp, 0xbfa), (Sr, 0x2300)],
    },
    // RESET by a user.
    Case {
        set: &[(Sr, 0x0700)],
        code: &[0x4e70],
        wants: &[
            R(0x410),
            W(0xbfe, 0x0410),
            W(0xbfc, 0x0),
            W(0xbfa, 0x0700),
            R(0x20),
            R(0x22),
            I(5),
        ],
        clocks: 17,
        after: &[(Pc, 0xe10), (Ssp, 0xbfa), (Sr, 0x2700)],
    },
    // MOVE USP by a user.
    Case {
        set: &[(Sr, 0x0700)],
        code: &[0x4e61],
        wants: &[
            R(0x410),
            W(0xbfe, 0x0410),
            W(0xbfc, 0x0),
            W(0xbfa, 0x0700),
            R(0x20),
            R(0x22),
            I(5),
        ],
        clocks: 17,
        after: &[(Pc, 0xe10), (Ssp, 0xbfa), (Sr, 0x2700)],
    },
    // ANDI to SR by a user.
    Case {
        set: &[(Sr, 0x0700)],
        code: &[0x027c, 0x0000],
        wants: &[
            R(0x410),
            W(0xbfe, 0x0410),
            W(0xbfc, 0x0),
            W(0xbfa, 0x0700),
            R(0x20),
            R(0x22),
            I(5),
        ],
        clocks: 17,
        after: &[(Pc, 0xe10), (Ssp, 0xbfa), (Sr, 0x2700)],
    },
];

static TRAPS: [Case; 11] = [
    // DIVU D5,D0 by 0: C is clear.
    Case {
        set: &[(Sr, 0x2701)],
        code: &[0x80c5],
        wants: &[
            R(0x410),
            W(0xbfe, 0x0412),
            W(0xbfc, 0x0),
            W(0xbfa, 0x2700),
            R(0x14),
            R(0x16),
            I(7),
        ],
        clocks: 19,
        after: &[(Pc, 0xe0a), (Ssp, 0xbfa), (Sr, 0x2700)],
    },
    // DIVS #0,D0.
    Case {
        set: &[],
        code: &[0x81fc, 0x0000],
        wants: &[
            R(0x410),
            R(0x412),
            W(0xbfe, 0x0414),
            W(0xbfc, 0x0),
            W(0xbfa, 0x2700),
            R(0x14),
            R(0x16),
            I(7),
        ],
        clocks: 21,
        after: &[(Pc, 0xe0a), (Ssp, 0xbfa)],
    },
    // CHK D1,D4 above the bound.
    Case {
        set: &[(Sr, 0x2708)],
        code: &[0x4981],
        wants: &[
            R(0x410),
            W(0xbfe, 0x0412),
            W(0xbfc, 0x0),
            W(0xbfa, 0x2700),
            R(0x18),
            R(0x1a),
            I(8),
        ],
        clocks: 20,
        after: &[(Pc, 0xe0c), (Ssp, 0xbfa), (Sr, 0x2700)],
    },
    // CHK D1,D2 below 0.
    Case {
        set: &[],
        code: &[0x4581],
        wants: &[
            R(0x410),
            W(0xbfe, 0x0412),
            W(0xbfc, 0x0),
            W(0xbfa, 0x2708),
            R(0x18),
            R(0x1a),
            I(8),
        ],
        clocks: 20,
        after: &[(Pc, 0xe0c), (Ssp, 0xbfa), (Sr, 0x2708)],
    },
    // CHK (A0),D0.
    Case {
        set: &[],
        code: &[0x4190],
        wants: &[
            R(0x410),
            R(0x800),
            W(0xbfe, 0x0412),
            W(0xbfc, 0x0),
            W(0xbfa, 0x2700),
            R(0x18),
            R(0x1a),
            I(8),
        ],
        clocks: 22,
        after: &[(Pc, 0xe0c), (Ssp, 0xbfa)],
    },
    // TRAPV with V.
    Case {
        set: &[(Sr, 0x2702)],
        code: &[0x4e76],
        wants: &[
            R(0x410),
            W(0xbfe, 0x0412),
            W(0xbfc, 0x0),
            W(0xbfa, 0x2702),
            R(0x1c),
            R(0x1e),
            I(5),
        ],
        clocks: 17,
        after: &[(Pc, 0xe0e), (Ssp, 0xbfa), (Sr, 0x2702)],
    },
    // TRAP #3.
    Case {
        set: &[],
        code: &[0x4e43],
        wants: &[
            R(0x410),
            W(0xbfe, 0x0412),
            W(0xbfc, 0x0),
            W(0xbfa, 0x2700),
            R(0x8c),
            R(0x8e),
            I(5),
        ],
        clocks: 17,
        after: &[(Pc, 0xe46), (Ssp, 0xbfa)],
    },
    // TRAP #3 with the trace bit: no end of its own.
    Case {
        set: &[(Sr, 0xa700)],
        code: &[0x4e43],
        wants: &[
            R(0x410),
            W(0xbfe, 0x0412),
            W(0xbfc, 0x0),
            W(0xbfa, 0xa700),
            R(0x8c),
            R(0x8e),
            I(5),
        ],
        clocks: 17,
        after: &[(Pc, 0xe46), (Ssp, 0xbfa), (Sr, 0x2700)],
    },
    // TRAP #3 by a user.
    Case {
        set: &[(Sr, 0x0000)],
        code: &[0x4e43],
        wants: &[
            R(0x410),
            W(0xbfe, 0x0412),
            W(0xbfc, 0x0),
            W(0xbfa, 0x0),
            R(0x8c),
            R(0x8e),
            I(5),
        ],
        clocks: 17,
        after: &[(Pc, 0xe46), (Ssp, 0xbfa), (Sr, 0x2000)],
    },
    // Trace of NOP.
    Case {
        set: &[(Sr, 0xa700)],
        code: &[0x4e71],
        wants: &[
            R(0x410),
            W(0xbfe, 0x0412),
            W(0xbfc, 0x0),
            W(0xbfa, 0xa700),
            R(0x24),
            R(0x26),
            I(7),
        ],
        clocks: 19,
        after: &[(Pc, 0xe12), (Ssp, 0xbfa), (Sr, 0x2700)],
    },
    // Trace of what clears the trace bit.
    Case {
        set: &[(Sr, 0xa700)],
        code: &[0x027c, 0x7fff],
        wants: &[
            R(0x410),
            R(0x412),
            I(6),
            W(0xbfe, 0x0414),
            W(0xbfc, 0x0),
            W(0xbfa, 0x2700),
            R(0x24),
            R(0x26),
            I(7),
        ],
        clocks: 27,
        after: &[(Pc, 0xe12), (Ssp, 0xbfa), (Sr, 0x2700)],
    },
];

static ADDRESS_ERRORS: [Case; 8] = [
    // MOVE.W (A3),D0.
    Case {
        set: &[],
        code: &[0x3013],
        wants: &[
            R(0x410),
            W(0xbfe, 0x0412),
            W(0xbfc, 0x0),
            W(0xbfa, 0x2700),
            W(0xbf8, 0x3013),
            W(0xbf6, 0x0831),
            W(0xbf4, 0x0),
            W(0xbf2, 0x0015),
            R(0xc),
            R(0xe),
            I(7),
        ],
        clocks: 27,
        after: &[(Pc, 0xe06), (Ssp, 0xbf2)],
    },
    // MOVE.L (A3)+,D0: the step is taken back.
    Case {
        set: &[],
        code: &[0x201b],
        wants: &[
            R(0x410),
            W(0xbfe, 0x0412),
            W(0xbfc, 0x0),
            W(0xbfa, 0x2700),
            W(0xbf8, 0x201b),
            W(0xbf6, 0x0831),
            W(0xbf4, 0x0),
            W(0xbf2, 0x0015),
            R(0xc),
            R(0xe),
            I(7),
        ],
        clocks: 27,
        after: &[(Pc, 0xe06), (Ssp, 0xbf2)],
    },
    // MOVE.W (A0)+,(A3): the source's too.
    Case {
        set: &[],
        code: &[0x3698],
        wants: &[
            R(0x410),
            R(0x800),
            W(0xbfe, 0x0412),
            W(0xbfc, 0x0),
            W(0xbfa, 0x2700),
            W(0xbf8, 0x3698),
            W(0xbf6, 0x0831),
            W(0xbf4, 0x0),
            W(0xbf2, 0x0005),
            R(0xc),
            R(0xe),
            I(7),
        ],
        clocks: 29,
        after: &[(Pc, 0xe06), (Ssp, 0xbf2)],
    },
    // MOVE.W 1(PC),D0.
    Case {
        set: &[],
        code: &[0x303a, 0x0001],
        wants: &[
            R(0x410),
            R(0x412),
            W(0xbfe, 0x0414),
            W(0xbfc, 0x0),
            W(0xbfa, 0x2700),
            W(0xbf8, 0x303a),
            W(0xbf6, 0x0413),
            W(0xbf4, 0x0),
            W(0xbf2, 0x0016),
            R(0xc),
            R(0xe),
            I(7),
        ],
        clocks: 29,
        after: &[(Pc, 0xe06), (Ssp, 0xbf2)],
    },
    // MOVE.W D0,(A3) by a user.
    Case {
        set: &[(Sr, 0x0700)],
        code: &[0x3680],
        wants: &[
            R(0x410),
            W(0xbfe, 0x0412),
            W(0xbfc, 0x0),
            W(0xbfa, 0x0700),
            W(0xbf8, 0x3680),
            W(0xbf6, 0x0831),
            W(0xbf4, 0x0),
            W(0xbf2, 0x0001),
            R(0xc),
            R(0xe),
            I(7),
        ],
        clocks: 27,
        after: &[(Pc, 0xe06), (Ssp, 0xbf2), (Sr, 0x2700)],
    },
    // JMP (A3): the next opcode.
    Case {
        set: &[],
        code: &[0x4ed3],
        wants: &[
            R(0x410),
            I(2),
            W(0xbfe, 0x0831),
            W(0xbfc, 0x0),
            W(0xbfa, 0x2700),
            W(0xbf8, 0x0),
            W(0xbf6, 0x0831),
            W(0xbf4, 0x0),
            W(0xbf2, 0x0016),
            R(0xc),
            R(0xe),
            I(7),
        ],
        clocks: 29,
        after: &[(Pc, 0xe06), (Ssp, 0xbf2)],
    },
    // Two in a row.
    Case {
        set: &[(Ssp, 0xc01)],
        code: &[0x3013],
        wants: &[R(0x410), H],
        clocks: 2,
        after: &[(Pc, 0x412)],
    },
    // TRAP on an odd stack: two in a row.
    Case {
        set: &[(Ssp, 0xc01)],
        code: &[0x4e40],
        wants: &[R(0x410), H],
        clocks: 2,
        after: &[(Pc, 0x412)],
    },
];

static INTERRUPTS: [Case; 7] = [
    // NOP at mask 5.
    Case {
        set: &[(Sr, 0x2500)],
        code: &[0x4e71],
        wants: &[R(0x410)],
        clocks: 2,
        after: &[],
    },
    // NOP at mask 4.
    Case {
        set: &[(Sr, 0x2400)],
        code: &[0x4e71],
        wants: &[
            R(0x410),
            W(0xbfe, 0x0412),
            W(0xbfc, 0x0),
            W(0xbfa, 0x2400),
            R(0x74),
            R(0x76),
            I(12),
        ],
        clocks: 24,
        after: &[(Pc, 0xe3a), (Ssp, 0xbfa), (Sr, 0x2500)],
    },
    // NOP of a user.
    Case {
        set: &[(Sr, 0x0000)],
        code: &[0x4e71],
        wants: &[
            R(0x410),
            W(0xbfe, 0x0412),
            W(0xbfc, 0x0),
            W(0xbfa, 0x0),
            R(0x74),
            R(0x76),
            I(12),
        ],
        clocks: 24,
        after: &[(Pc, 0xe3a), (Ssp, 0xbfa), (Sr, 0x2500)],
    },
    // EXG D0,D1: after its idle clock.
    Case {
        set: &[(Sr, 0x2400)],
        code: &[0xc141],
        wants: &[
            R(0x410),
            I(1),
            W(0xbfe, 0x0412),
            W(0xbfc, 0x0),
            W(0xbfa, 0x2400),
            R(0x74),
            R(0x76),
            I(12),
        ],
        clocks: 25,
        after: &[
            (D(0), 0x3),
            (D(1), 0x1234_5678),
            (Pc, 0xe3a),
            (Ssp, 0xbfa),
            (Sr, 0x2500),
        ],
    },
    // MOVE #2400h,SR: by the mask at its end.
    Case {
        set: &[],
        code: &[0x46fc, 0x2400],
        wants: &[
            R(0x410),
            R(0x412),
            I(4),
            W(0xbfe, 0x0414),
            W(0xbfc, 0x0),
            W(0xbfa, 0x2400),
            R(0x74),
            R(0x76),
            I(12),
        ],
        clocks: 30,
        after: &[(Pc, 0xe3a), (Ssp, 0xbfa), (Sr, 0x2500)],
    },
    // TRAP #3: after its entry.
    Case {
        set: &[(Sr, 0x2400)],
        code: &[0x4e43],
        wants: &[
            R(0x410),
            W(0xbfe, 0x0412),
            W(0xbfc, 0x0),
            W(0xbfa, 0x2400),
            R(0x8c),
            R(0x8e),
            I(5),
            W(0xbf8, 0x0e46),
            W(0xbf6, 0x0),
            W(0xbf4, 0x2400),
            R(0x74),
            R(0x76),
            I(12),
        ],
        clocks: 39,
        after: &[(Pc, 0xe3a), (Ssp, 0xbf4), (Sr, 0x2500)],
    },
    // NOP traced: the trace comes first.
    Case {
        set: &[(Sr, 0xa400)],
        code: &[0x4e71],
        wants: &[
            R(0x410),
            W(0xbfe, 0x0412),
            W(0xbfc, 0x0),
            W(0xbfa, 0xa400),
            R(0x24),
            R(0x26),
            I(7),
            W(0xbf8, 0x0e12),
            W(0xbf6, 0x0),
            W(0xbf4, 0x2400),
            R(0x74),
            R(0x76),
            I(12),
        ],
        clocks: 41,
        after: &[(Pc, 0xe3a), (Ssp, 0xbf4), (Sr, 0x2500)],
    },
];

static WAITING: [Case; 1] = [
    // STOP #2000h.
    Case {
        set: &[],
        code: &[0x4e72, 0x2000],
        wants: &[R(0x410), R(0x412), I(1), I(1), I(1)],
        clocks: 7,
        after: &[(Sr, 0x2000)],
    },
];

#[test]
fn refused_opcodes(rt: HostRuntime) {
    assert!(rt; first_fault(&REFUSED, 0).is_none());
}

#[test]
fn traps(rt: HostRuntime) {
    assert!(rt; first_fault(&TRAPS, 0).is_none());
}

#[test]
fn address_errors(rt: HostRuntime) {
    assert!(rt; first_fault(&ADDRESS_ERRORS, 0).is_none());
}

#[test]
fn interrupts_of_level_5(rt: HostRuntime) {
    assert!(rt; first_fault(&INTERRUPTS, 5).is_none());
}

#[test]
fn stop_waits(rt: HostRuntime) {
    assert!(rt; first_fault(&WAITING, 0).is_none());
}

/// Whether STOP ends with the first idle clock at which the level is above its mask.
fn is_ended(cpu: &mut Cpu, memory: &mut [u16; 2048]) -> bool {
    for (level, want) in &[(7, None), (0, None), (0, None), (0, None), (1, Some(1))] {
        if step(cpu, memory, *level).1 != *want {
            return false;
        }
    }
    true
}

/// Whether the processor asks for these in turn, at an interrupt level.
fn asks_for(cpu: &mut Cpu, memory: &mut [u16; 2048], level: u8, wants: &[Want]) -> bool {
    for want in wants {
        if cpu.ask() != wanted(*want) {
            return false;
        }
        step(cpu, memory, level);
    }
    true
}

/// PC and SR, and the vector of level 1.
static ENTRY_OF_LEVEL_1: [Want; 6] = [
    W(0xbfe, 0x414),
    W(0xbfc, 0),
    W(0xbfa, 0x2000),
    R(0x64),
    R(0x66),
    I(12),
];

/// STOP ends with the interrupt, which is entered.
#[test]
fn stop_ends_by_an_interrupt(rt: HostRuntime) {
    let case = &WAITING[0];
    let mut memory = memory(case, &registers(case));
    let mut cpu = at_code(&mut memory);
    let mut right = is_ended(&mut cpu, &mut memory);
    right &= asks_for(&mut cpu, &mut memory, 1, &ENTRY_OF_LEVEL_1);
    assert!(rt; right && cpu.regs().pc == 0xe32 && cpu.regs().sr == 0x2100);
}

/// Whether it is stopped as each row says, and has its mask, before each step at level 0.
fn stops_as(cpu: &mut Cpu, memory: &mut [u16; 2048], rows: &[(bool, u8)]) -> bool {
    for (is_stopped, mask) in rows {
        if cpu.is_stopped() != *is_stopped || cpu.mask() != *mask {
            return false;
        }
        step(cpu, memory, 0);
    }
    true
}

/// Whether it is stopped, and its mask, before STOP #2000h, behind each of its two words, and behind each of
/// two idle clocks. It has 8 clocks and two accesses, so it ends with its last word.
#[test]
fn what_stop_stops(rt: HostRuntime) {
    let case = &WAITING[0];
    let mut memory = memory(case, &registers(case));
    let mut cpu = at_code(&mut memory);
    let rows = &[(false, 7), (false, 7), (true, 0), (true, 0), (true, 0)];
    assert!(rt; stops_as(&mut cpu, &mut memory, rows));
}

/// Whether these are the registers behind a reset.
fn is_reset(regs: &CpuRegs) -> bool {
    let has_place = regs.pc == 0x400 && regs.ssp == 0xc00 && regs.sr == 0x2700 && regs.usp == 0;
    has_place && regs.d == [0; 8] && regs.a == [0; 7]
}

/// Reset reads SSP and PC.
#[test]
fn reset(rt: HostRuntime) {
    let case = &WAITING[0];
    let mut memory = memory(case, &registers(case));
    let mut cpu = Cpu::reset();
    let mut right = asks_for(&mut cpu, &mut memory, 7, &[R(0), R(2), R(4), R(6), I(12)]);
    right &= cpu.ask() == wanted(R(0x400));
    assert!(rt; right && is_reset(cpu.regs()));
}
