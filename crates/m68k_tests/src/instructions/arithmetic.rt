//! Sums, differences, comparisons, products, quotients and decimal operations.

use super::Reg::{A, D, Sr};
use super::Want::{B, C, I, R, W};
use super::{Case, first_fault};

static IMMEDIATE: [Case; 7] = [
    // ORI.B #F0h,D0.
    Case {
        set: &[],
        code: &[0x0000, 0x00f0],
        wants: &[R(0x410), R(0x412)],
        clocks: 4,
        after: &[(D(0), 0x1234_56f8), (Sr, 0x2708)],
    },
    // ANDI.W #FFh,(A1)+.
    Case {
        set: &[],
        code: &[0x0259, 0x00ff],
        wants: &[R(0x410), R(0x412), R(0x810), W(0x810, 0x0010)],
        clocks: 8,
        after: &[(A(1), 0x812)],
    },
    // SUBI.L #1,(A0).
    Case {
        set: &[],
        code: &[0x0490, 0x0000, 0x0001],
        wants: &[
            R(0x410),
            R(0x412),
            R(0x414),
            R(0x800),
            R(0x802),
            W(0x800, 0x0800),
            W(0x802, 0x0801),
        ],
        clocks: 14,
        after: &[],
    },
    // ADDI.W #FFFFh,D1.
    Case {
        set: &[],
        code: &[0x0641, 0xffff],
        wants: &[R(0x410), R(0x412)],
        clocks: 4,
        after: &[(D(1), 0x2), (Sr, 0x2711)],
    },
    // EORI.L #FFFFFFFFh,D2.
    Case {
        set: &[],
        code: &[0x0a82, 0xffff, 0xffff],
        wants: &[R(0x410), R(0x412), R(0x414), I(2)],
        clocks: 8,
        after: &[(D(2), 0x1)],
    },
    // CMPI.L #FFFFFFFEh,D2: X stays.
    Case {
        set: &[(Sr, 0x2710)],
        code: &[0x0c82, 0xffff, 0xfffe],
        wants: &[R(0x410), R(0x412), R(0x414), I(1)],
        clocks: 7,
        after: &[(Sr, 0x2714)],
    },
    // CMPI.B #9,-(A1).
    Case {
        set: &[],
        code: &[0x0c21, 0x0009],
        wants: &[R(0x410), R(0x412), B(0x80f), I(1)],
        clocks: 7,
        after: &[(A(1), 0x80f)],
    },
];

static UNARY_AND_QUICK: [Case; 9] = [
    // NEGX.B D1 with X.
    Case {
        set: &[(Sr, 0x2714)],
        code: &[0x4001],
        wants: &[R(0x410)],
        clocks: 2,
        after: &[(D(1), 0xfc), (Sr, 0x2719)],
    },
    // CLR.W (A0) reads first.
    Case {
        set: &[(Sr, 0x271b)],
        code: &[0x4250],
        wants: &[R(0x410), R(0x800), W(0x800, 0x0)],
        clocks: 6,
        after: &[(Sr, 0x2714)],
    },
    // CLR.L D0.
    Case {
        set: &[],
        code: &[0x4280],
        wants: &[R(0x410), I(1)],
        clocks: 3,
        after: &[(D(0), 0x0), (Sr, 0x2704)],
    },
    // NEG.L D3.
    Case {
        set: &[],
        code: &[0x4483],
        wants: &[R(0x410), I(1)],
        clocks: 3,
        after: &[(Sr, 0x271b)],
    },
    // NOT.W D0.
    Case {
        set: &[],
        code: &[0x4640],
        wants: &[R(0x410)],
        clocks: 2,
        after: &[(D(0), 0x1234_a987), (Sr, 0x2708)],
    },
    // ADDQ.B #8,D1.
    Case {
        set: &[],
        code: &[0x5001],
        wants: &[R(0x410)],
        clocks: 2,
        after: &[(D(1), 0xb)],
    },
    // ADDQ.L #1,D7.
    Case {
        set: &[],
        code: &[0x5287],
        wants: &[R(0x410), I(2)],
        clocks: 4,
        after: &[(D(7), 0x8000_0000), (Sr, 0x270a)],
    },
    // SUBQ.W #1,A0 changes no flag.
    Case {
        set: &[(Sr, 0x271f)],
        code: &[0x5348],
        wants: &[R(0x410), I(2)],
        clocks: 4,
        after: &[(A(0), 0x7ff)],
    },
    // ADDQ.L #1,(A0).
    Case {
        set: &[],
        code: &[0x5290],
        wants: &[
            R(0x410),
            R(0x800),
            R(0x802),
            W(0x800, 0x0800),
            W(0x802, 0x0803),
        ],
        clocks: 10,
        after: &[],
    },
];

static SUMS: [Case; 11] = [
    // SUB.W A0,D0.
    Case {
        set: &[],
        code: &[0x9048],
        wants: &[R(0x410)],
        clocks: 2,
        after: &[(D(0), 0x1234_4e78)],
    },
    // ADD.L D2,D1.
    Case {
        set: &[],
        code: &[0xd282],
        wants: &[R(0x410), I(2)],
        clocks: 4,
        after: &[(D(1), 0x1), (Sr, 0x2711)],
    },
    // ADD.L (A0),D1.
    Case {
        set: &[],
        code: &[0xd290],
        wants: &[R(0x410), R(0x800), R(0x802), I(1)],
        clocks: 7,
        after: &[(D(1), 0x0800_0805)],
    },
    // ADD.L D1,-(A1).
    Case {
        set: &[],
        code: &[0xd3a1],
        wants: &[
            R(0x410),
            R(0x80c),
            R(0x80e),
            W(0x80c, 0x080c),
            W(0x80e, 0x0811),
            I(1),
        ],
        clocks: 11,
        after: &[(A(1), 0x80c)],
    },
    // SUB.W D1,820h.
    Case {
        set: &[],
        code: &[0x9378, 0x0820],
        wants: &[R(0x410), R(0x412), R(0x820), W(0x820, 0x081d)],
        clocks: 8,
        after: &[],
    },
    // ADDA.W (A0)+,A0 adds to the stepped A0.
    Case {
        set: &[(Sr, 0x271f)],
        code: &[0xd0d8],
        wants: &[R(0x410), R(0x800), I(2)],
        clocks: 6,
        after: &[(A(0), 0x1002)],
    },
    // SUBA.L D1,A1.
    Case {
        set: &[(Sr, 0x271f)],
        code: &[0x93c1],
        wants: &[R(0x410), I(2)],
        clocks: 4,
        after: &[(A(1), 0x80d)],
    },
    // ADDA.L (A0),A1.
    Case {
        set: &[],
        code: &[0xd3d0],
        wants: &[R(0x410), R(0x800), R(0x802), I(1)],
        clocks: 7,
        after: &[(A(1), 0x0800_1012)],
    },
    // ADDX.B D1,D2.
    Case {
        set: &[(Sr, 0x2714)],
        code: &[0xd501],
        wants: &[R(0x410)],
        clocks: 2,
        after: &[(D(2), 0xffff_ff02), (Sr, 0x2711)],
    },
    // ADDX.L D4,D5.
    Case {
        set: &[],
        code: &[0xdb84],
        wants: &[R(0x410), I(2)],
        clocks: 4,
        after: &[(D(5), 0x0001_0010)],
    },
    // SUBX.L -(A1),-(A2).
    Case {
        set: &[(Sr, 0x2704)],
        code: &[0x9589],
        wants: &[
            R(0x410),
            R(0x80c),
            R(0x80e),
            R(0x81c),
            R(0x81e),
            W(0x81c, 0x0010),
            W(0x81e, 0x0010),
            I(1),
        ],
        clocks: 15,
        after: &[(A(1), 0x80c), (A(2), 0x81c), (Sr, 0x2700)],
    },
];

static COMPARISONS: [Case; 8] = [
    // CMP.L (A0),D0.
    Case {
        set: &[],
        code: &[0xb090],
        wants: &[R(0x410), R(0x800), R(0x802), I(1)],
        clocks: 7,
        after: &[],
    },
    // CMP.W A3,D1.
    Case {
        set: &[],
        code: &[0xb24b],
        wants: &[R(0x410)],
        clocks: 2,
        after: &[(Sr, 0x2709)],
    },
    // CMPA.W #FFFFh,A0.
    Case {
        set: &[],
        code: &[0xb0fc, 0xffff],
        wants: &[R(0x410), R(0x412), I(1)],
        clocks: 5,
        after: &[(Sr, 0x2701)],
    },
    // CMPM.L (A0)+,(A1)+.
    Case {
        set: &[],
        code: &[0xb388],
        wants: &[R(0x410), R(0x800), R(0x802), R(0x810), R(0x812)],
        clocks: 10,
        after: &[(A(0), 0x804), (A(1), 0x814)],
    },
    // CMPM.B (A0)+,(A0)+.
    Case {
        set: &[],
        code: &[0xb108],
        wants: &[R(0x410), B(0x800), B(0x801)],
        clocks: 6,
        after: &[(A(0), 0x802), (Sr, 0x2709)],
    },
    // CHK D4,D1 within the bound.
    Case {
        set: &[(Sr, 0x271f)],
        code: &[0x4384],
        wants: &[R(0x410), I(3)],
        clocks: 5,
        after: &[],
    },
    // TST.W (A0).
    Case {
        set: &[(Sr, 0x271b)],
        code: &[0x4a50],
        wants: &[R(0x410), R(0x800)],
        clocks: 4,
        after: &[(Sr, 0x2710)],
    },
    // TST.B D6.
    Case {
        set: &[],
        code: &[0x4a06],
        wants: &[R(0x410)],
        clocks: 2,
        after: &[(Sr, 0x2708)],
    },
];

static PRODUCTS: [Case; 6] = [
    // MULU D1,D0: two 1 bits.
    Case {
        set: &[],
        code: &[0xc0c1],
        wants: &[R(0x410), I(19)],
        clocks: 21,
        after: &[(D(0), 0x0001_0368)],
    },
    // MULU #FFFFh,D1: sixteen.
    Case {
        set: &[],
        code: &[0xc2fc, 0xffff],
        wants: &[R(0x410), R(0x412), I(33)],
        clocks: 37,
        after: &[(D(1), 0x0002_fffd)],
    },
    // MULS D2,D1: one pair.
    Case {
        set: &[],
        code: &[0xc3c2],
        wants: &[R(0x410), I(18)],
        clocks: 20,
        after: &[(D(1), 0xffff_fffa), (Sr, 0x2708)],
    },
    // DIVU D4,D6.
    Case {
        set: &[],
        code: &[0x8cc4],
        wants: &[R(0x410), I(68)],
        clocks: 70,
        after: &[(D(6), 0x0009_0009)],
    },
    // DIVU D1,D0: no word.
    Case {
        set: &[(Sr, 0x2719)],
        code: &[0x80c1],
        wants: &[R(0x410), I(68)],
        clocks: 70,
        after: &[(Sr, 0x271a)],
    },
    // DIVS D2,D6.
    Case {
        set: &[],
        code: &[0x8dc2],
        wants: &[R(0x410), I(77)],
        clocks: 79,
        after: &[(D(6), 0x0001_ffb4), (Sr, 0x2708)],
    },
];

static DECIMAL: [Case; 4] = [
    // ABCD D6,D1.
    Case {
        set: &[(Sr, 0x2704)],
        code: &[0xc306],
        wants: &[R(0x410), I(1)],
        clocks: 3,
        after: &[(D(1), 0x2), (Sr, 0x2711)],
    },
    // SBCD -(A0),-(A1).
    Case {
        set: &[(Sr, 0x2704)],
        code: &[0x8308],
        wants: &[R(0x410), B(0x7ff), B(0x80f), C(0x80f, 0x0e), I(1)],
        clocks: 9,
        after: &[(A(0), 0x7ff), (A(1), 0x80f), (Sr, 0x2700)],
    },
    // NBCD D6.
    Case {
        set: &[(Sr, 0x2704)],
        code: &[0x4806],
        wants: &[R(0x410), I(1)],
        clocks: 3,
        after: &[(D(6), 0x1), (Sr, 0x2711)],
    },
    // NBCD -(A0) of 0.
    Case {
        set: &[(Sr, 0x2704)],
        code: &[0x4820],
        wants: &[R(0x410), B(0x7ff), C(0x7ff, 0x0), I(1)],
        clocks: 7,
        after: &[(A(0), 0x7ff)],
    },
];

#[test]
fn immediates(rt: HostRuntime) {
    assert!(rt; first_fault(&IMMEDIATE, 0).is_none());
}

#[test]
fn unary_and_quick_operations(rt: HostRuntime) {
    assert!(rt; first_fault(&UNARY_AND_QUICK, 0).is_none());
}

#[test]
fn sums_and_differences(rt: HostRuntime) {
    assert!(rt; first_fault(&SUMS, 0).is_none());
}

#[test]
fn comparisons(rt: HostRuntime) {
    assert!(rt; first_fault(&COMPARISONS, 0).is_none());
}

#[test]
fn products_and_quotients(rt: HostRuntime) {
    assert!(rt; first_fault(&PRODUCTS, 0).is_none());
}

#[test]
fn decimal_operations(rt: HostRuntime) {
    assert!(rt; first_fault(&DECIMAL, 0).is_none());
}
