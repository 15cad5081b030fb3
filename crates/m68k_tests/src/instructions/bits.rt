//! Bit operations, logic, shifts, and the setting of a byte.

use super::Reg::{A, D, Sr};
use super::Want::{B, C, I, R, W};
use super::{Case, first_fault};

static BITS: [Case; 12] = [
    // BTST D1,D0.
    Case {
        set: &[(Sr, 0x2704)],
        code: &[0x0300],
        wants: &[R(0x410), I(1)],
        clocks: 3,
        after: &[(Sr, 0x2700)],
    },
    // BTST D1,#F7h.
    Case {
        set: &[],
        code: &[0x033c, 0x00f7],
        wants: &[R(0x410), R(0x412)],
        clocks: 4,
        after: &[(Sr, 0x2704)],
    },
    // BCHG D2,(A0).
    Case {
        set: &[],
        code: &[0x0550],
        wants: &[R(0x410), B(0x800), C(0x800, 0x48)],
        clocks: 6,
        after: &[(Sr, 0x2704)],
    },
    // BCHG D4,D5.
    Case {
        set: &[],
        code: &[0x0945],
        wants: &[R(0x410), I(2)],
        clocks: 4,
        after: &[(D(5), 0x0)],
    },
    // BCLR D3,D7.
    Case {
        set: &[],
        code: &[0x0787],
        wants: &[R(0x410), I(3)],
        clocks: 5,
        after: &[(D(7), 0x7fff_fffe)],
    },
    // BSET D4,D5.
    Case {
        set: &[],
        code: &[0x09c5],
        wants: &[R(0x410), I(2)],
        clocks: 4,
        after: &[],
    },
    // BTST #7,801h by the PC.
    Case {
        set: &[],
        code: &[0x083a, 0x0007, 0x03ed],
        wants: &[R(0x410), R(0x412), R(0x414), B(0x801)],
        clocks: 8,
        after: &[(Sr, 0x2704)],
    },
    // BTST #3,D0.
    Case {
        set: &[],
        code: &[0x0800, 0x0003],
        wants: &[R(0x410), R(0x412), I(1)],
        clocks: 5,
        after: &[],
    },
    // BCHG #31,D0.
    Case {
        set: &[],
        code: &[0x0840, 0x001f],
        wants: &[R(0x410), R(0x412), I(2)],
        clocks: 6,
        after: &[(D(0), 0x9234_5678), (Sr, 0x2704)],
    },
    // BCLR #0,(A3).
    Case {
        set: &[],
        code: &[0x0893, 0x0000],
        wants: &[R(0x410), R(0x412), B(0x831), C(0x831, 0x30)],
        clocks: 8,
        after: &[(Sr, 0x2704)],
    },
    // BCLR #1,D1.
    Case {
        set: &[],
        code: &[0x0881, 0x0001],
        wants: &[R(0x410), R(0x412), I(3)],
        clocks: 7,
        after: &[(D(1), 0x1)],
    },
    // BSET #1,D1.
    Case {
        set: &[(Sr, 0x2704)],
        code: &[0x08c1, 0x0001],
        wants: &[R(0x410), R(0x412), I(2)],
        clocks: 6,
        after: &[(Sr, 0x2700)],
    },
];

static LOGIC: [Case; 12] = [
    // OR.W (A0),D0.
    Case {
        set: &[],
        code: &[0x8050],
        wants: &[R(0x410), R(0x800)],
        clocks: 4,
        after: &[(D(0), 0x1234_5e78)],
    },
    // OR.B D6,(A0).
    Case {
        set: &[],
        code: &[0x8d10],
        wants: &[R(0x410), B(0x800), C(0x800, 0x99)],
        clocks: 6,
        after: &[(Sr, 0x2708)],
    },
    // AND.L #FFFFh,D0.
    Case {
        set: &[],
        code: &[0xc0bc, 0x0000, 0xffff],
        wants: &[R(0x410), R(0x412), R(0x414), I(2)],
        clocks: 8,
        after: &[(D(0), 0x5678)],
    },
    // AND.B D1,D0.
    Case {
        set: &[],
        code: &[0xc001],
        wants: &[R(0x410)],
        clocks: 2,
        after: &[(D(0), 0x1234_5600), (Sr, 0x2704)],
    },
    // AND.W D0,(A0)+.
    Case {
        set: &[],
        code: &[0xc158],
        wants: &[R(0x410), R(0x800), W(0x800, 0x0)],
        clocks: 6,
        after: &[(A(0), 0x802), (Sr, 0x2704)],
    },
    // EOR.L D0,D2.
    Case {
        set: &[],
        code: &[0xb182],
        wants: &[R(0x410), I(2)],
        clocks: 4,
        after: &[(D(2), 0xedcb_a986), (Sr, 0x2708)],
    },
    // EOR.W D0,(A0).
    Case {
        set: &[],
        code: &[0xb150],
        wants: &[R(0x410), R(0x800), W(0x800, 0x5e78)],
        clocks: 6,
        after: &[],
    },
    // TAS D6.
    Case {
        set: &[],
        code: &[0x4ac6],
        wants: &[R(0x410)],
        clocks: 2,
        after: &[(Sr, 0x2708)],
    },
    // TAS (A0).
    Case {
        set: &[],
        code: &[0x4ad0],
        wants: &[R(0x410), B(0x800), C(0x800, 0x88), I(1)],
        clocks: 7,
        after: &[],
    },
    // SEQ D1, false.
    Case {
        set: &[],
        code: &[0x57c1],
        wants: &[R(0x410)],
        clocks: 2,
        after: &[(D(1), 0x0)],
    },
    // ST D1.
    Case {
        set: &[],
        code: &[0x50c1],
        wants: &[R(0x410), I(1)],
        clocks: 3,
        after: &[(D(1), 0xff)],
    },
    // SNE (A0) reads first.
    Case {
        set: &[],
        code: &[0x56d0],
        wants: &[R(0x410), B(0x800), C(0x800, 0xff)],
        clocks: 6,
        after: &[],
    },
];

static SHIFTS: [Case; 10] = [
    // LSL.W #4,D0.
    Case {
        set: &[],
        code: &[0xe948],
        wants: &[R(0x410), I(5)],
        clocks: 7,
        after: &[(D(0), 0x1234_6780), (Sr, 0x2711)],
    },
    // LSR.W D5,D0 by 0.
    Case {
        set: &[(Sr, 0x2711)],
        code: &[0xea68],
        wants: &[R(0x410), I(1)],
        clocks: 3,
        after: &[(Sr, 0x2710)],
    },
    // ASL.W #8,D1.
    Case {
        set: &[],
        code: &[0xe141],
        wants: &[R(0x410), I(9)],
        clocks: 11,
        after: &[(D(1), 0x300)],
    },
    // ASL.L #1,D3: the top bit changes.
    Case {
        set: &[],
        code: &[0xe383],
        wants: &[R(0x410), I(3)],
        clocks: 5,
        after: &[(D(3), 0x0), (Sr, 0x2717)],
    },
    // ASR.L D1,D3.
    Case {
        set: &[],
        code: &[0xe2a3],
        wants: &[R(0x410), I(5)],
        clocks: 7,
        after: &[(D(3), 0xf000_0000), (Sr, 0x2708)],
    },
    // ROXR.B #1,D1 with X.
    Case {
        set: &[(Sr, 0x2710)],
        code: &[0xe211],
        wants: &[R(0x410), I(2)],
        clocks: 4,
        after: &[(D(1), 0x81), (Sr, 0x2719)],
    },
    // ROL.B #1,D6.
    Case {
        set: &[],
        code: &[0xe31e],
        wants: &[R(0x410), I(2)],
        clocks: 4,
        after: &[(D(6), 0x33), (Sr, 0x2701)],
    },
    // ASL (A0).
    Case {
        set: &[],
        code: &[0xe1d0],
        wants: &[R(0x410), R(0x800), W(0x800, 0x1000)],
        clocks: 6,
        after: &[],
    },
    // LSR (A2)+.
    Case {
        set: &[],
        code: &[0xe2da],
        wants: &[R(0x410), R(0x820), W(0x820, 0x0410)],
        clocks: 6,
        after: &[(A(2), 0x822)],
    },
    // ROXL -(A1) with X.
    Case {
        set: &[(Sr, 0x2710)],
        code: &[0xe5e1],
        wants: &[R(0x410), R(0x80e), W(0x80e, 0x101d), I(1)],
        clocks: 7,
        after: &[(A(1), 0x80e), (Sr, 0x2700)],
    },
];

#[test]
fn bit_operations(rt: HostRuntime) {
    assert!(rt; first_fault(&BITS, 0).is_none());
}

#[test]
fn logic(rt: HostRuntime) {
    assert!(rt; first_fault(&LOGIC, 0).is_none());
}

#[test]
fn shifts(rt: HostRuntime) {
    assert!(rt; first_fault(&SHIFTS, 0).is_none());
}
