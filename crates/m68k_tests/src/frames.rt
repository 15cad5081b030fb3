//! Vectors and frames, worked by hand.

use m68k_except::{CpuRegs, Trap, frame, vector};

fn registers(sr: u16) -> CpuRegs {
    CpuRegs {
        d: [0; 8],
        a: [0; 7],
        usp: 0,
        ssp: 0,
        pc: 0x0012_3456,
        sr,
    }
}

fn address_error(read: bool, program: bool, instruction: bool) -> Trap {
    Trap::AddressError {
        at: 0x00ab_cdef,
        opcode: 0x4e75,
        read,
        program,
        instruction,
    }
}

#[test]
fn vectors(rt: HostRuntime) {
    let kinds = [
        (address_error(true, false, true), 3),
        (Trap::Illegal, 4),
        (Trap::ZeroDivide, 5),
        (Trap::Chk, 6),
        (Trap::Trapv, 7),
        (Trap::Privilege, 8),
        (Trap::Trace, 9),
        (Trap::LineA, 10),
        (Trap::LineF, 11),
        (Trap::Interrupt { level: 1 }, 25),
        (Trap::Interrupt { level: 7 }, 31),
        (Trap::Number { v: 0 }, 32),
        (Trap::Number { v: 15 }, 47),
    ];
    let mut right = true;
    for (kind, want) in &kinds {
        right &= vector(kind) == *want;
    }
    assert!(rt; right);
}

/// Whether an exception has this frame, with this SR.
fn has_frame(kind: &Trap, sr: u16, words: &[u16]) -> bool {
    frame(kind, &registers(sr)).as_slice() == words
}

#[test]
fn short_frames(rt: HostRuntime) {
    let kinds = &[
        Trap::Illegal,
        Trap::Privilege,
        Trap::LineA,
        Trap::LineF,
        Trap::ZeroDivide,
        Trap::Chk,
        Trap::Trapv,
        Trap::Trace,
        Trap::Interrupt { level: 4 },
        Trap::Number { v: 2 },
    ];
    let mut right = true;
    for kind in kinds {
        right &= has_frame(kind, 0x8704, &[0x3456, 0x0012, 0x8704]);
    }
    assert!(rt; right);
}

#[test]
fn frames_of_address_errors(rt: HostRuntime) {
    let cases = [
        (address_error(true, false, true), 0, 0x11),
        (address_error(true, true, true), 0, 0x12),
        (address_error(false, false, true), 0x2000, 5),
        (address_error(true, true, false), 0x2000, 0x1e),
        (address_error(false, false, false), 0x2000, 0xd),
    ];
    let mut right = true;
    for (kind, sr, access) in &cases {
        let words = [0x3456, 0x0012, *sr, 0x4e75, 0xcdef, 0x00ab, *access];
        right &= has_frame(kind, *sr, &words);
    }
    assert!(rt; right);
}
