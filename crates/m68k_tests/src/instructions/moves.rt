//! Moves of data, addresses, lists of registers and status.

use super::Reg::{A, D, Sr, Ssp, Usp};
use super::Want::{B, C, I, R, W};
use super::{Case, first_fault};

static MOVES: [Case; 10] = [
    // MOVE.W D0,D1.
    Case {
        set: &[],
        code: &[0x3200],
        wants: &[R(0x410)],
        clocks: 2,
        after: &[(D(1), 0x5678)],
    },
    // MOVE.B (A0)+,-(A1).
    Case {
        set: &[],
        code: &[0x1318],
        wants: &[R(0x410), B(0x800), C(0x80f, 0x08)],
        clocks: 6,
        after: &[(A(0), 0x801), (A(1), 0x80f)],
    },
    // MOVE.L A0,-(A0): the value before.
    Case {
        set: &[],
        code: &[0x2108],
        wants: &[R(0x410), W(0x7fc, 0x0), W(0x7fe, 0x0800)],
        clocks: 6,
        after: &[(A(0), 0x7fc)],
    },
    // MOVE.L 4(A0),5(A1,D1.W).
    Case {
        set: &[],
        code: &[0x23a8, 0x0004, 0x1005],
        wants: &[
            R(0x410),
            R(0x412),
            R(0x804),
            R(0x806),
            R(0x414),
            W(0x818, 0x0804),
            W(0x81a, 0x0806),
            I(1),
        ],
        clocks: 15,
        after: &[],
    },
    // MOVE.L #80000000h,850h.
    Case {
        set: &[],
        code: &[0x23fc, 0x8000, 0x0000, 0x0000, 0x0850],
        wants: &[
            R(0x410),
            R(0x412),
            R(0x414),
            R(0x416),
            R(0x418),
            W(0x850, 0x8000),
            W(0x852, 0x0),
        ],
        clocks: 14,
        after: &[(Sr, 0x2708)],
    },
    // MOVE.W 822h,824h.
    Case {
        set: &[],
        code: &[0x31f8, 0x0822, 0x0824],
        wants: &[R(0x410), R(0x412), R(0x822), R(0x414), W(0x824, 0x0822)],
        clocks: 10,
        after: &[],
    },
    // MOVE.W 2(PC,D5.W),D1.
    Case {
        set: &[(D(5), 0x400)],
        code: &[0x323b, 0x5002],
        wants: &[R(0x410), R(0x412), R(0x814), I(1)],
        clocks: 7,
        after: &[(D(1), 0x814)],
    },
    // MOVE.B (A7)+,D0 steps by two.
    Case {
        set: &[(Ssp, 0x850)],
        code: &[0x101f],
        wants: &[R(0x410), B(0x850)],
        clocks: 4,
        after: &[(D(0), 0x1234_5608), (Ssp, 0x852)],
    },
    // MOVEA.W #FFF0h,A2.
    Case {
        set: &[(Sr, 0x271f)],
        code: &[0x347c, 0xfff0],
        wants: &[R(0x410), R(0x412)],
        clocks: 4,
        after: &[(A(2), 0xffff_fff0)],
    },
    // MOVEA.L (A0)+,A0.
    Case {
        set: &[],
        code: &[0x2058],
        wants: &[R(0x410), R(0x800), R(0x802)],
        clocks: 6,
        after: &[(A(0), 0x0800_0802)],
    },
];

static IN_REGISTERS: [Case; 7] = [
    // MOVEQ #-1,D0.
    Case {
        set: &[],
        code: &[0x70ff],
        wants: &[R(0x410)],
        clocks: 2,
        after: &[(D(0), 0xffff_ffff), (Sr, 0x2708)],
    },
    // EXG D0,D1.
    Case {
        set: &[],
        code: &[0xc141],
        wants: &[R(0x410), I(1)],
        clocks: 3,
        after: &[(D(0), 0x3), (D(1), 0x1234_5678)],
    },
    // EXG A0,A1.
    Case {
        set: &[],
        code: &[0xc149],
        wants: &[R(0x410), I(1)],
        clocks: 3,
        after: &[(A(0), 0x810), (A(1), 0x800)],
    },
    // EXG D0,A1.
    Case {
        set: &[],
        code: &[0xc189],
        wants: &[R(0x410), I(1)],
        clocks: 3,
        after: &[(D(0), 0x810), (A(1), 0x1234_5678)],
    },
    // SWAP D0.
    Case {
        set: &[],
        code: &[0x4840],
        wants: &[R(0x410)],
        clocks: 2,
        after: &[(D(0), 0x5678_1234)],
    },
    // EXT.W D6.
    Case {
        set: &[],
        code: &[0x4886],
        wants: &[R(0x410)],
        clocks: 2,
        after: &[(D(6), 0xff99), (Sr, 0x2708)],
    },
    // EXT.L D0.
    Case {
        set: &[],
        code: &[0x48c0],
        wants: &[R(0x410)],
        clocks: 2,
        after: &[(D(0), 0x5678)],
    },
];

static ADDRESSES: [Case; 11] = [
    // LEA -1(A0),A1.
    Case {
        set: &[],
        code: &[0x43e8, 0xffff],
        wants: &[R(0x410), R(0x412)],
        clocks: 4,
        after: &[(A(1), 0x7ff)],
    },
    // LEA 4(PC,D1.W),A2.
    Case {
        set: &[],
        code: &[0x45fb, 0x1004],
        wants: &[R(0x410), R(0x412), I(2)],
        clocks: 6,
        after: &[(A(2), 0x419)],
    },
    // PEA (A0).
    Case {
        set: &[],
        code: &[0x4850],
        wants: &[R(0x410), W(0xbfc, 0x0), W(0xbfe, 0x0800)],
        clocks: 6,
        after: &[(Ssp, 0xbfc)],
    },
    // PEA 10h(PC).
    Case {
        set: &[],
        code: &[0x487a, 0x0010],
        wants: &[R(0x410), R(0x412), W(0xbfc, 0x0), W(0xbfe, 0x0422)],
        clocks: 8,
        after: &[(Ssp, 0xbfc)],
    },
    // PEA 2(A0,D1.W).
    Case {
        set: &[],
        code: &[0x4870, 0x1002],
        wants: &[R(0x410), R(0x412), W(0xbfc, 0x0), W(0xbfe, 0x0805), I(2)],
        clocks: 10,
        after: &[(Ssp, 0xbfc)],
    },
    // LINK A6,#-8.
    Case {
        set: &[],
        code: &[0x4e56, 0xfff8],
        wants: &[R(0x410), R(0x412), W(0xbfc, 0x0), W(0xbfe, 0x0860)],
        clocks: 8,
        after: &[(A(6), 0xbfc), (Ssp, 0xbf4)],
    },
    // LINK A7,#0 stores the lowered A7.
    Case {
        set: &[],
        code: &[0x4e57, 0x0000],
        wants: &[R(0x410), R(0x412), W(0xbfc, 0x0), W(0xbfe, 0x0bfc)],
        clocks: 8,
        after: &[(Ssp, 0xbfc)],
    },
    // UNLK A5.
    Case {
        set: &[],
        code: &[0x4e5d],
        wants: &[R(0x410), R(0x850), R(0x852)],
        clocks: 6,
        after: &[(A(5), 0x0850_0852), (Ssp, 0x854)],
    },
    // UNLK A7 leaves what was read.
    Case {
        set: &[(Ssp, 0x850)],
        code: &[0x4e5f],
        wants: &[R(0x410), R(0x850), R(0x852)],
        clocks: 6,
        after: &[(Ssp, 0x0850_0852)],
    },
    // MOVE A1,USP.
    Case {
        set: &[],
        code: &[0x4e61],
        wants: &[R(0x410)],
        clocks: 2,
        after: &[(Usp, 0x810)],
    },
    // MOVE USP,A1.
    Case {
        set: &[],
        code: &[0x4e69],
        wants: &[R(0x410)],
        clocks: 2,
        after: &[(A(1), 0xb00)],
    },
];

static LISTS: [Case; 11] = [
    // MOVEP.W 1(A0),D1.
    Case {
        set: &[],
        code: &[0x0308, 0x0001],
        wants: &[R(0x410), R(0x412), B(0x801), B(0x803)],
        clocks: 8,
        after: &[(D(1), 0x2)],
    },
    // MOVEP.L 10h(A0),D1.
    Case {
        set: &[],
        code: &[0x0348, 0x0010],
        wants: &[R(0x410), R(0x412), B(0x810), B(0x812), B(0x814), B(0x816)],
        clocks: 12,
        after: &[(D(1), 0x0808_0808)],
    },
    // MOVEP.W D0,0(A0).
    Case {
        set: &[],
        code: &[0x0188, 0x0000],
        wants: &[R(0x410), R(0x412), C(0x800, 0x56), C(0x802, 0x78)],
        clocks: 8,
        after: &[],
    },
    // MOVEP.L D0,1(A0).
    Case {
        set: &[],
        code: &[0x01c8, 0x0001],
        wants: &[
            R(0x410),
            R(0x412),
            C(0x801, 0x12),
            C(0x803, 0x34),
            C(0x805, 0x56),
            C(0x807, 0x78),
        ],
        clocks: 12,
        after: &[],
    },
    // MOVEM.W D0/D1/A0,(A1).
    Case {
        set: &[],
        code: &[0x4891, 0x0103],
        wants: &[
            R(0x410),
            R(0x412),
            W(0x810, 0x5678),
            W(0x812, 0x0003),
            W(0x814, 0x0800),
        ],
        clocks: 10,
        after: &[],
    },
    // MOVEM.L D0/A1,-(A1): A1 first, as it was.
    Case {
        set: &[],
        code: &[0x48e1, 0x8040],
        wants: &[
            R(0x410),
            R(0x412),
            W(0x80c, 0x0),
            W(0x80e, 0x0810),
            W(0x808, 0x1234),
            W(0x80a, 0x5678),
        ],
        clocks: 12,
        after: &[(A(1), 0x808)],
    },
    // MOVEM.L D7,10h(A0): the list comes first.
    Case {
        set: &[],
        code: &[0x48e8, 0x0080, 0x0010],
        wants: &[
            R(0x410),
            R(0x412),
            R(0x414),
            W(0x810, 0x7fff),
            W(0x812, 0xffff),
        ],
        clocks: 10,
        after: &[],
    },
    // MOVEM.W (A0)+,D1/A2.
    Case {
        set: &[],
        code: &[0x4c98, 0x0402],
        wants: &[R(0x410), R(0x412), R(0x800), R(0x802), I(2)],
        clocks: 10,
        after: &[(D(1), 0x800), (A(2), 0x802), (A(0), 0x804)],
    },
    // MOVEM.W (A0)+,D0/A0: the end address stays.
    Case {
        set: &[],
        code: &[0x4c98, 0x0101],
        wants: &[R(0x410), R(0x412), R(0x800), R(0x802), I(2)],
        clocks: 10,
        after: &[(D(0), 0x800), (A(0), 0x804)],
    },
    // MOVEM.L 800h,D2 by the PC.
    Case {
        set: &[],
        code: &[0x4cfa, 0x0004, 0x03ec],
        wants: &[R(0x410), R(0x412), R(0x414), R(0x800), R(0x802), I(2)],
        clocks: 12,
        after: &[(D(2), 0x0800_0802)],
    },
    // MOVEM.W (A0)+ of none.
    Case {
        set: &[],
        code: &[0x4c98, 0x0000],
        wants: &[R(0x410), R(0x412), I(2)],
        clocks: 6,
        after: &[],
    },
];

static STATUS: [Case; 10] = [
    // MOVE SR,D0.
    Case {
        set: &[(Sr, 0x2715)],
        code: &[0x40c0],
        wants: &[R(0x410), I(1)],
        clocks: 3,
        after: &[(D(0), 0x1234_2715)],
    },
    // MOVE SR,(A0) reads first.
    Case {
        set: &[],
        code: &[0x40d0],
        wants: &[R(0x410), R(0x800), W(0x800, 0x2700)],
        clocks: 6,
        after: &[],
    },
    // MOVE D0,CCR.
    Case {
        set: &[],
        code: &[0x44c0],
        wants: &[R(0x410), I(4)],
        clocks: 6,
        after: &[(Sr, 0x2718)],
    },
    // MOVE #FFFFh,SR.
    Case {
        set: &[],
        code: &[0x46fc, 0xffff],
        wants: &[R(0x410), R(0x412), I(4)],
        clocks: 8,
        after: &[(Sr, 0xa71f)],
    },
    // ORI #FFh,CCR.
    Case {
        set: &[],
        code: &[0x003c, 0x00ff],
        wants: &[R(0x410), R(0x412), I(6)],
        clocks: 10,
        after: &[(Sr, 0x271f)],
    },
    // ANDI #FAh,CCR.
    Case {
        set: &[(Sr, 0x271f)],
        code: &[0x023c, 0x00fa],
        wants: &[R(0x410), R(0x412), I(6)],
        clocks: 10,
        after: &[(Sr, 0x271a)],
    },
    // EORI #5,CCR.
    Case {
        set: &[(Sr, 0x2704)],
        code: &[0x0a3c, 0x0005],
        wants: &[R(0x410), R(0x412), I(6)],
        clocks: 10,
        after: &[(Sr, 0x2701)],
    },
    // ORI #8010h,SR.
    Case {
        set: &[],
        code: &[0x007c, 0x8010],
        wants: &[R(0x410), R(0x412), I(6)],
        clocks: 10,
        after: &[(Sr, 0xa710)],
    },
    // ANDI #DFFFh,SR.
    Case {
        set: &[],
        code: &[0x027c, 0xdfff],
        wants: &[R(0x410), R(0x412), I(6)],
        clocks: 10,
        after: &[(Sr, 0x0700)],
    },
    // EORI #FFFFh,SR.
    Case {
        set: &[],
        code: &[0x0a7c, 0xffff],
        wants: &[R(0x410), R(0x412), I(6)],
        clocks: 10,
        after: &[(Sr, 0x801f)],
    },
];

#[test]
fn moves(rt: HostRuntime) {
    assert!(rt; first_fault(&MOVES, 0).is_none());
}

#[test]
fn moves_in_registers(rt: HostRuntime) {
    assert!(rt; first_fault(&IN_REGISTERS, 0).is_none());
}

#[test]
fn addresses(rt: HostRuntime) {
    assert!(rt; first_fault(&ADDRESSES, 0).is_none());
}

#[test]
fn lists(rt: HostRuntime) {
    assert!(rt; first_fault(&LISTS, 0).is_none());
}

#[test]
fn status(rt: HostRuntime) {
    assert!(rt; first_fault(&STATUS, 0).is_none());
}
