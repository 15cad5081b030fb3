//! Jumps, branches, returns and conditions.

use super::Reg::{A, D, Pc, Sr, Ssp, Usp};
use super::Want::{I, R, W};
use super::{Ask, CODE, Case, at_code, first_fault, memory, place, registers, step};

static JUMPS: [Case; 13] = [
    // JMP (A0).
    Case {
        set: &[],
        code: &[0x4ed0],
        wants: &[R(0x410), I(2)],
        clocks: 4,
        after: &[(Pc, 0x800)],
    },
    // JMP 1(PC,D1.W).
    Case {
        set: &[],
        code: &[0x4efb, 0x1001],
        wants: &[R(0x410), R(0x412), I(3)],
        clocks: 7,
        after: &[(Pc, 0x416)],
    },
    // JSR (A0).
    Case {
        set: &[],
        code: &[0x4e90],
        wants: &[R(0x410), W(0xbfc, 0x0), W(0xbfe, 0x0412), I(2)],
        clocks: 8,
        after: &[(Pc, 0x800), (Ssp, 0xbfc)],
    },
    // JSR 100h(PC).
    Case {
        set: &[],
        code: &[0x4eba, 0x0100],
        wants: &[R(0x410), R(0x412), W(0xbfc, 0x0), W(0xbfe, 0x0414), I(1)],
        clocks: 9,
        after: &[(Pc, 0x512), (Ssp, 0xbfc)],
    },
    // JSR 500h.
    Case {
        set: &[],
        code: &[0x4eb9, 0x0000, 0x0500],
        wants: &[
            R(0x410),
            R(0x412),
            R(0x414),
            W(0xbfc, 0x0),
            W(0xbfe, 0x0416),
        ],
        clocks: 10,
        after: &[(Pc, 0x500), (Ssp, 0xbfc)],
    },
    // JSR 0(A0,D1.W).
    Case {
        set: &[],
        code: &[0x4eb0, 0x1000],
        wants: &[R(0x410), R(0x412), W(0xbfc, 0x0), W(0xbfe, 0x0414), I(3)],
        clocks: 11,
        after: &[(Pc, 0x803), (Ssp, 0xbfc)],
    },
    // RTS.
    Case {
        set: &[(Ssp, 0x850)],
        code: &[0x4e75],
        wants: &[R(0x410), R(0x850), R(0x852), I(2)],
        clocks: 8,
        after: &[(Pc, 0x0850_0852), (Ssp, 0x854)],
    },
    // RTR.
    Case {
        set: &[(Ssp, 0x850)],
        code: &[0x4e77],
        wants: &[R(0x410), R(0x850), R(0x852), R(0x854), I(2)],
        clocks: 10,
        after: &[(Pc, 0x0852_0854), (Ssp, 0x856), (Sr, 0x2710)],
    },
    // RTE.
    Case {
        set: &[(Ssp, 0x850)],
        code: &[0x4e73],
        wants: &[R(0x410), R(0x850), R(0x852), R(0x854), I(2)],
        clocks: 10,
        after: &[(Pc, 0x0852_0854), (Ssp, 0x856), (Sr, 0x0010)],
    },
    // NOP.
    Case {
        set: &[],
        code: &[0x4e71],
        wants: &[R(0x410)],
        clocks: 2,
        after: &[],
    },
    // TRAPV without V.
    Case {
        set: &[(Sr, 0x271d)],
        code: &[0x4e76],
        wants: &[R(0x410)],
        clocks: 2,
        after: &[],
    },
    // RESET.
    Case {
        set: &[],
        code: &[0x4e70],
        wants: &[R(0x410), I(64)],
        clocks: 66,
        after: &[],
    },
    // LINK and stack of a user.
    Case {
        set: &[(Sr, 0x0700)],
        code: &[0x4e56, 0x0000],
        wants: &[R(0x410), R(0x412), W(0xafc, 0x0), W(0xafe, 0x0860)],
        clocks: 8,
        after: &[(A(6), 0xafc), (Usp, 0xafc)],
    },
];

static BRANCHES: [Case; 10] = [
    // BRA to itself.
    Case {
        set: &[],
        code: &[0x60fe],
        wants: &[R(0x410), I(3)],
        clocks: 5,
        after: &[(Pc, 0x410)],
    },
    // BRA with a word.
    Case {
        set: &[],
        code: &[0x6000, 0x0100],
        wants: &[R(0x410), R(0x412), I(1)],
        clocks: 5,
        after: &[(Pc, 0x512)],
    },
    // BSR.
    Case {
        set: &[],
        code: &[0x6110],
        wants: &[R(0x410), W(0xbfc, 0x0), W(0xbfe, 0x0412), I(3)],
        clocks: 9,
        after: &[(Pc, 0x422), (Ssp, 0xbfc)],
    },
    // BSR with a word.
    Case {
        set: &[],
        code: &[0x6100, 0x0100],
        wants: &[R(0x410), R(0x412), W(0xbfc, 0x0), W(0xbfe, 0x0414), I(1)],
        clocks: 9,
        after: &[(Pc, 0x512), (Ssp, 0xbfc)],
    },
    // BNE with a word, taken.
    Case {
        set: &[],
        code: &[0x6600, 0x0010],
        wants: &[R(0x410), R(0x412), I(1)],
        clocks: 5,
        after: &[(Pc, 0x422)],
    },
    // BEQ, not taken.
    Case {
        set: &[],
        code: &[0x6702],
        wants: &[R(0x410), I(2)],
        clocks: 4,
        after: &[],
    },
    // BEQ with a word, not taken.
    Case {
        set: &[],
        code: &[0x6700, 0x0010],
        wants: &[R(0x410), R(0x412), I(2)],
        clocks: 6,
        after: &[],
    },
    // DBT.
    Case {
        set: &[],
        code: &[0x50c9, 0xfffe],
        wants: &[R(0x410), R(0x412), I(2)],
        clocks: 6,
        after: &[],
    },
    // DBF D1 to itself.
    Case {
        set: &[],
        code: &[0x51c9, 0xfffe],
        wants: &[R(0x410), R(0x412), I(1)],
        clocks: 5,
        after: &[(D(1), 0x2), (Pc, 0x410)],
    },
    // DBF D5, ended.
    Case {
        set: &[],
        code: &[0x51cd, 0xfffe],
        wants: &[R(0x410), R(0x412), I(3)],
        clocks: 7,
        after: &[(D(5), 0x0001_ffff)],
    },
];

#[test]
fn jumps_and_returns(rt: HostRuntime) {
    assert!(rt; first_fault(&JUMPS, 0).is_none());
}

#[test]
fn branches(rt: HostRuntime) {
    assert!(rt; first_fault(&BRANCHES, 0).is_none());
}

/// For each condition the flags at which it is true: bit 8N + 4Z + 2V + C.
static CONDITIONS: [u16; 16] = [
    0xffff, 0x0000, 0x0505, 0xfafa, 0x5555, 0xaaaa, 0x0f0f, 0xf0f0, 0x3333, 0xcccc, 0x00ff, 0xff00,
    0xcc33, 0x33cc, 0x0c03, 0xf3fc,
];

static NOTHING: Case = Case {
    set: &[],
    code: &[],
    wants: &[],
    clocks: 0,
    after: &[],
};

/// Whether Scc of a condition sets D1 at these flags.
fn is_true(condition: u16, flags: u16) -> bool {
    let mut regs = registers(&NOTHING);
    regs.sr = 0x2700 + (flags & 15);
    let mut memory = memory(&NOTHING, &regs);
    memory[place(CODE)] = 0x50c1 + ((condition & 15) << 8);
    let mut cpu = at_code(&mut memory);
    step(&mut cpu, &mut memory, 0);
    if let Ask::Idle { .. } = cpu.ask() {
        step(&mut cpu, &mut memory, 0);
    }
    cpu.regs().d[1] == 0xff
}

/// The flags at which a condition is true, a bit for each.
fn is_true_where(condition: u16) -> u16 {
    let mut found = 0;
    for flags in 0..16u16 {
        if is_true(condition, flags) {
            found |= 1 << flags;
        }
    }
    found
}

#[test]
fn conditions(rt: HostRuntime) {
    for condition in 0..16u16 {
        assert!(rt;
            is_true_where(condition) == CONDITIONS[(condition & 15) as usize],
            "{condition}"
        );
    }
}
