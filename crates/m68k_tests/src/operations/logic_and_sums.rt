//! Moves, logic, sums, decimal and bit operations.

use super::{flags, gives};
use m68k_alu::{
    op_abcd, op_add, op_addx, op_and, op_bchg, op_bclr, op_bset, op_btst, op_chk, op_clr, op_cmp,
    op_eor, op_ext, op_move, op_nbcd, op_neg, op_negx, op_not, op_or, op_sbcd, op_sub, op_subx,
    op_swap, op_tas, op_tst,
};
use m68k_decode::Size::{Byte, Long, Word};

#[test]
fn moves_and_logic(rt: HostRuntime) {
    let mut right = true;
    right &= gives(
        op_move(Word, 0x1234_8000, 0, flags(0b10111)),
        0x8000,
        0b11000,
    );
    right &= gives(op_move(Byte, 0xff00, 0, flags(0)), 0, 0b00100);
    right &= gives(op_and(Byte, 0xf0f0, 0xff80, flags(0b00011)), 0x80, 0b01000);
    right &= gives(
        op_or(Word, 0x0f00, 0x1_00f0, flags(0b10000)),
        0x0ff0,
        0b10000,
    );
    right &= gives(op_eor(Long, 0xffff_0000, 0xffff_0000, flags(0)), 0, 0b00100);
    right &= gives(op_not(Byte, 0x1200, 0, flags(0)), 0xff, 0b01000);
    right &= gives(op_not(Long, 0xffff_fffe, 0, flags(0)), 1, 0);
    right &= gives(
        op_tst(Long, 0x8000_0000, 0, flags(0b00111)),
        0x8000_0000,
        0b01000,
    );
    right &= gives(op_clr(Word, 0x8000, 0, flags(0b11011)), 0, 0b10100);
    assert!(rt; right);
}

#[test]
fn extension_and_exchange(rt: HostRuntime) {
    let mut right = true;
    right &= gives(op_ext(Word, 0x1280, 0, flags(0)), 0xff80, 0b01000);
    right &= gives(op_ext(Word, 0xff7f, 0, flags(0b10000)), 0x7f, 0b10000);
    right &= gives(op_ext(Long, 0x1234_8000, 0, flags(0)), 0xffff_8000, 0b01000);
    right &= gives(op_ext(Byte, 0x0180, 0, flags(0)), 0x80, 0b01000);
    right &= gives(op_swap(Word, 0x1234_5678, 0, flags(0)), 0x5678_1234, 0);
    right &= gives(
        op_swap(Byte, 0x8000, 0, flags(0b10011)),
        0x8000_0000,
        0b11000,
    );
    right &= gives(op_tas(Long, 0xff00, 0, flags(0b11011)), 0x80, 0b10100);
    right &= gives(op_tas(Byte, 0x81, 0, flags(0)), 0x81, 0b01000);
    assert!(rt; right);
}

#[test]
fn sums(rt: HostRuntime) {
    let mut right = true;
    for (a, b, value, after) in &[
        (0x7f, 0x01, 0x80, 0b01010),
        (0x80, 0x80, 0x00, 0b10111),
        (0xff, 0x01, 0x00, 0b10101),
        (0x1234_5601, 0xffff_ff02, 0x03, 0),
    ] {
        right &= gives(op_add(Byte, *a, *b, flags(0b11111)), *value, *after);
    }
    right &= gives(op_add(Word, 0x7fff, 0x7fff, flags(0)), 0xfffe, 0b01010);
    right &= gives(
        op_add(Long, 0x8000_0000, 0xffff_ffff, flags(0)),
        0x7fff_ffff,
        0b10011,
    );
    for (a, b, before, value, after) in &[
        (0xff, 0x00, 0b10100, 0x00, 0b10101),
        (0xff, 0x00, 0b10000, 0x00, 0b10001),
        (0x01, 0x01, 0b00100, 0x02, 0),
        (0x7f, 0x00, 0b10000, 0x80, 0b01010),
    ] {
        right &= gives(op_addx(Byte, *a, *b, flags(*before)), *value, *after);
    }
    assert!(rt; right);
}

#[test]
fn differences(rt: HostRuntime) {
    let mut right = true;
    for (a, b, value, after) in &[
        (0x80, 0x01, 0x7f, 0b00010),
        (0x00, 0x01, 0xff, 0b11001),
        (0x7f, 0xff, 0x80, 0b11011),
        (0x05, 0x05, 0x00, 0b00100),
    ] {
        right &= gives(op_sub(Byte, *a, *b, flags(0b10000)), *value, *after);
    }
    right &= gives(op_sub(Long, 0, 0x8000_0000, flags(0)), 0x8000_0000, 0b11011);
    right &= gives(op_neg(Byte, 0x80, 0, flags(0)), 0x80, 0b11011);
    right &= gives(op_neg(Byte, 0x00, 0, flags(0b10000)), 0x00, 0b00100);
    right &= gives(op_neg(Word, 0x01, 0, flags(0)), 0xffff, 0b11001);
    right &= gives(op_cmp(Byte, 0x00, 0x01, flags(0b10000)), 0x00, 0b11001);
    right &= gives(op_cmp(Word, 0x1_0000, 0x01, flags(0)), 0x00, 0b01001);
    assert!(rt; right);
}

#[test]
fn differences_with_x(rt: HostRuntime) {
    let mut right = true;
    right &= gives(op_subx(Byte, 0x00, 0x00, flags(0b10100)), 0xff, 0b11001);
    right &= gives(op_subx(Byte, 0x01, 0x00, flags(0b10100)), 0x00, 0b00100);
    right &= gives(op_subx(Byte, 0x01, 0x00, flags(0b10000)), 0x00, 0);
    right &= gives(op_negx(Byte, 0x00, 0, flags(0b00100)), 0x00, 0b00100);
    right &= gives(op_negx(Byte, 0x00, 0, flags(0b10100)), 0xff, 0b11001);
    right &= gives(op_negx(Byte, 0x80, 0, flags(0)), 0x80, 0b11011);
    right &= gives(op_negx(Byte, 0x80, 0, flags(0b10000)), 0x7f, 0b10001);
    assert!(rt; right);
}

#[test]
fn bounds(rt: HostRuntime) {
    let mut right = true;
    for (a, b, before, after) in &[
        (0x8000, 0x7fff, 0, 0b01000),
        (0x0005, 0x0004, 0b01111, 0b00111),
        (0x0004, 0x0004, 0b11111, 0b11111),
        (0xffff, 0x8000, 0, 0b01000),
        (0x0000, 0xffff, 0b01000, 0),
    ] {
        right &= gives(op_chk(Word, *a, *b, flags(*before)), *a, *after);
    }
    assert!(rt; right);
}

#[test]
fn decimal_digits(rt: HostRuntime) {
    let mut right = true;
    for (a, b, before, value, after) in &[
        (0x09, 0x01, 0b00100, 0x10, 0),
        (0x99, 0x01, 0b00100, 0x00, 0b10101),
        (0x45, 0x38, 0, 0x83, 0),
        (0x99, 0x99, 0b10000, 0x99, 0b10001),
        (0x01, 0x01, 0b01010, 0x02, 0b01010),
    ] {
        right &= gives(op_abcd(Byte, *a, *b, flags(*before)), *value, *after);
    }
    for (a, b, before, value, after) in &[
        (0x10, 0x01, 0b00100, 0x09, 0),
        (0x00, 0x01, 0, 0x99, 0b10001),
        (0x00, 0x00, 0b10100, 0x99, 0b10001),
        (0x50, 0x50, 0b00100, 0x00, 0b00100),
        (0x20, 0x20, 0b10000, 0x99, 0b10001),
        (0x10, 0x00, 0b10000, 0x09, 0),
    ] {
        right &= gives(op_sbcd(Byte, *a, *b, flags(*before)), *value, *after);
    }
    right &= gives(op_nbcd(Byte, 0x00, 0, flags(0b00100)), 0x00, 0b00100);
    right &= gives(op_nbcd(Byte, 0x01, 0, flags(0)), 0x99, 0b10001);
    right &= gives(op_nbcd(Byte, 0x10, 0, flags(0)), 0x90, 0b10001);
    assert!(rt; right);
}

#[test]
fn bits(rt: HostRuntime) {
    let mut right = true;
    right &= gives(op_btst(Long, 2, 33, flags(0b11111)), 2, 0b11011);
    right &= gives(op_btst(Byte, 0x7f, 15, flags(0b11011)), 0x7f, 0b11111);
    right &= gives(op_bchg(Byte, 0x80, 7, flags(0b00100)), 0, 0);
    right &= gives(op_bchg(Long, 0, 0, flags(0)), 1, 0b00100);
    right &= gives(op_bclr(Long, 0xffff_ffff, 31, flags(0)), 0x7fff_ffff, 0);
    right &= gives(op_bclr(Byte, 0x7f, 7, flags(0)), 0x7f, 0b00100);
    right &= gives(op_bset(Long, 0, 63, flags(0)), 0x8000_0000, 0b00100);
    right &= gives(op_bset(Byte, 0x08, 3, flags(0)), 0x08, 0);
    assert!(rt; right);
}
