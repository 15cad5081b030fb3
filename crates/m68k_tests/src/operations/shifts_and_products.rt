//! Shifts, rotations, multiplication and division.

use super::{flags, gives};
use m68k_alu::{
    op_asl, op_asr, op_divs, op_divu, op_lsl, op_lsr, op_muls, op_mulu, op_rol, op_ror, op_roxl,
    op_roxr,
};
use m68k_decode::Size::{Byte, Long, Word};

#[test]
fn arithmetic_left(rt: HostRuntime) {
    let mut right = true;
    for (a, count, value, after) in &[
        (0x40, 1, 0x80, 0b01010),
        (0xc0, 1, 0x80, 0b11001),
        (0x40, 2, 0x00, 0b10111),
        (0x60, 2, 0x80, 0b11011),
        (0xff, 7, 0x80, 0b11001),
        (0xff, 8, 0x00, 0b10111),
    ] {
        right &= gives(op_asl(Byte, *a, *count, flags(0)), *value, *after);
    }
    right &= gives(
        op_asl(Long, 0x8000_0001, 0, flags(0b10001)),
        0x8000_0001,
        0b11000,
    );
    for (count, value, after) in &[
        (31, 0x8000_0000, 0b01010),
        (32, 0, 0b10111),
        (33, 0, 0b00110),
        (63, 0, 0b00110),
        (64, 1, 0b00000),
    ] {
        right &= gives(op_asl(Long, 1, *count, flags(0)), *value, *after);
    }
    assert!(rt; right);
}

#[test]
fn arithmetic_right(rt: HostRuntime) {
    let mut right = true;
    for (count, value, after) in &[
        (0, 0x8000_0000, 0b11000),
        (31, 0xffff_ffff, 0b01000),
        (32, 0xffff_ffff, 0b11001),
        (33, 0xffff_ffff, 0b11001),
        (63, 0xffff_ffff, 0b11001),
    ] {
        right &= gives(
            op_asr(Long, 0x8000_0000, *count, flags(0b10011)),
            *value,
            *after,
        );
    }
    right &= gives(op_asr(Byte, 0x81, 1, flags(0)), 0xc0, 0b11001);
    right &= gives(op_asr(Byte, 0x7f, 8, flags(0b10000)), 0x00, 0b00100);
    assert!(rt; right);
}

#[test]
fn logical_shifts(rt: HostRuntime) {
    let mut right = true;
    right &= gives(op_lsl(Byte, 0x81, 1, flags(0)), 0x02, 0b10001);
    right &= gives(op_lsl(Byte, 0x40, 1, flags(0)), 0x80, 0b01000);
    right &= gives(op_lsl(Word, 1, 16, flags(0)), 0, 0b10101);
    right &= gives(op_lsl(Word, 1, 17, flags(0b10000)), 0, 0b00100);
    right &= gives(op_lsl(Long, 1, 64, flags(0b10011)), 1, 0b10000);
    right &= gives(op_lsr(Byte, 0xff81, 1, flags(0)), 0x40, 0b10001);
    for (count, value, after) in &[
        (0, 0x8000_0000, 0b01000),
        (31, 1, 0b00000),
        (32, 0, 0b10101),
        (33, 0, 0b00100),
        (63, 0, 0b00100),
    ] {
        right &= gives(
            op_lsr(Long, 0x8000_0000, *count, flags(0b00011)),
            *value,
            *after,
        );
    }
    assert!(rt; right);
}

#[test]
fn rotations(rt: HostRuntime) {
    let mut right = true;
    right &= gives(op_rol(Byte, 0x81, 1, flags(0)), 0x03, 0b00001);
    right &= gives(op_rol(Byte, 0x81, 8, flags(0b10000)), 0x81, 0b11001);
    right &= gives(op_rol(Byte, 0x81, 0, flags(0b00011)), 0x81, 0b01000);
    right &= gives(op_rol(Word, 0x8000, 33, flags(0)), 1, 0b00001);
    right &= gives(op_ror(Byte, 0x01, 1, flags(0)), 0x80, 0b01001);
    right &= gives(op_ror(Long, 1, 32, flags(0)), 1, 0);
    right &= gives(op_ror(Long, 0x8000_0000, 31, flags(0b10000)), 1, 0b10000);
    right &= gives(
        op_ror(Long, 0x8000_0000, 0, flags(0b00001)),
        0x8000_0000,
        0b01000,
    );
    assert!(rt; right);
}

#[test]
fn rotations_through_x(rt: HostRuntime) {
    let mut right = true;
    for (a, count, before, value, after) in &[
        (0x80, 1, 0, 0x00, 0b10101),
        (0x80, 2, 0, 0x01, 0),
        (0x00, 1, 0b10000, 0x01, 0),
        (0x01, 0, 0b10000, 0x01, 0b10001),
        (0x81, 9, 0b10000, 0x81, 0b11001),
    ] {
        right &= gives(op_roxl(Byte, *a, *count, flags(*before)), *value, *after);
    }
    right &= gives(
        op_roxl(Long, 0x1234_5678, 33, flags(0b10000)),
        0x1234_5678,
        0b10001,
    );
    right &= gives(op_roxl(Long, 0, 63, flags(0b10000)), 0x2000_0000, 0);
    right &= gives(op_roxr(Byte, 0x01, 1, flags(0)), 0x00, 0b10101);
    right &= gives(op_roxr(Byte, 0x00, 1, flags(0b10000)), 0x80, 0b01000);
    right &= gives(op_roxr(Word, 0x0001, 0, flags(0)), 0x0001, 0);
    right &= gives(op_roxr(Long, 0x8000_0000, 32, flags(0)), 0, 0b10101);
    assert!(rt; right);
}

#[test]
fn products(rt: HostRuntime) {
    let mut right = true;
    right &= gives(
        op_mulu(Word, 0x1_ffff, 0xffff, flags(0b10011)),
        0xfffe_0001,
        0b11000,
    );
    right &= gives(op_mulu(Word, 0x1_0000, 0xffff, flags(0)), 0, 0b00100);
    right &= gives(op_muls(Word, 0x8000, 0x8000, flags(0)), 0x4000_0000, 0);
    right &= gives(
        op_muls(Word, 0xffff, 0x7fff, flags(0)),
        0xffff_8001,
        0b01000,
    );
    assert!(rt; right);
}

#[test]
fn quotients(rt: HostRuntime) {
    let mut right = true;
    right &= gives(
        op_divu(Word, 0xffff, 0x10, flags(0b10011)),
        0x000f_0fff,
        0b10000,
    );
    right &= gives(op_divu(Word, 7, 8, flags(0)), 0x0007_0000, 0b00100);
    right &= gives(op_divu(Word, 0x8000, 1, flags(0)), 0x8000, 0b01000);
    right &= gives(
        op_divu(Word, 0x1_0000, 1, flags(0b11101)),
        0x1_0000,
        0b11110,
    );
    for (a, b, value, after) in &[
        (0x8000_0000, 0xffff, 0x8000_0000, 0b00010),
        (0xffff_fff9, 0x0002, 0xffff_fffd, 0b01000),
        (0x0000_0007, 0xfffe, 0x0001_fffd, 0b01000),
        (0xffff_8000, 0x0001, 0x0000_8000, 0b01000),
        (0x0000_8000, 0x0001, 0x0000_8000, 0b00010),
        (0xffff_7fff, 0x0001, 0xffff_7fff, 0b00010),
    ] {
        right &= gives(op_divs(Word, *a, *b, flags(0b00001)), *value, *after);
    }
    assert!(rt; right);
}
