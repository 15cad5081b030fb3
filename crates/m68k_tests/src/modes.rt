//! The place of each mode, worked by hand.

ghost use Rattle.std.specs.Prelude.{◌≤◌};

use m68k_ea::{CpuRegs, Mode, Place68, Size, extension_words, resolve};

fn registers() -> CpuRegs {
    CpuRegs {
        d: [0x1_8002, 0, 0, 0, 0, 0, 0, 0x10],
        a: [0x2000, 0xffff_fffe, 0, 0, 0, 0, 0x6000],
        usp: 0x7000,
        ssp: 0x8000,
        pc: 0,
        sr: 0x2000,
    }
}

/// The number that a place holds: a register, an address or a value.
fn number(place: Place68) -> u32 {
    match place {
        Place68::Data { reg } => u32::from(reg),
        Place68::Address { reg } => 100 + u32::from(reg),
        Place68::Memory { at } => at,
        Place68::Value { value } => value,
    }
}

#[test]
fn places_of_modes(rt: HostRuntime) {
    let cases = &[
        (Mode::Dn { reg: 3 }, 3),
        (Mode::An { reg: 7 }, 107),
        (Mode::Ind { reg: 6 }, 0x6000),
        (Mode::Ind { reg: 7 }, 0x8000),
        (Mode::Disp { reg: 0 }, 0xffff_b000),
        (Mode::Short, 0xffff_9000),
        (Mode::Long, 0x9000_1234),
        (Mode::PcDisp, 0xffff_9400),
        (Mode::Imm, 0x9000),
    ];
    let mut right = true;
    for (mode, want) in cases {
        right &= is_place(mode, *want);
    }
    assert!(rt; right);
}

/// Whether this is the place of a mode, where its words are 9000 and 1234, and no register changes.
fn is_place(mode: &Mode, want: u32) -> bool {
    let mut regs = registers();
    let found = number(resolve(mode, &mut regs, &[0x9000, 0x1234], 0x400, Size::Word));
    found == want && regs.ssp == 0x8000 && regs.a[0] == 0x2000
}

/// Whether an operand of a size moves A0 by one step, and A7 by another, up behind it and down before it.
fn is_stepped(size: Size, step: u32, step_of_a7: u32) -> bool
    requires step { step ≤ 4 }
    requires step_of_a7 { step_of_a7 ≤ 4 }
{
    let mut regs = registers();
    let a0 = number(resolve(&Mode::Post { reg: 0 }, &mut regs, &[], 0, size));
    let a7 = number(resolve(&Mode::Post { reg: 7 }, &mut regs, &[], 0, size));
    let up = [regs.address(0), regs.ssp];
    regs.sr = 0;
    let down = number(resolve(&Mode::Pre { reg: 7 }, &mut regs, &[], 0, size));
    [a0, a7] == [0x2000, 0x8000]
        && up == [0x2000 + step, 0x8000 + step_of_a7]
        && [down, regs.usp, regs.ssp]
            == [
                0x7000 - step_of_a7,
                0x7000 - step_of_a7,
                0x8000 + step_of_a7,
            ]
}

#[test]
fn steps(rt: HostRuntime) {
    let found = [
        is_stepped(Size::Byte, 1, 2),
        is_stepped(Size::Word, 2, 2),
        is_stepped(Size::Long, 4, 4),
    ];
    assert!(rt; found == [true; 3]);
}

#[test]
fn wrapping_steps_and_indices(rt: HostRuntime) {
    let mut regs = registers();
    let a1 = number(resolve(&Mode::Post { reg: 1 }, &mut regs, &[], 0, Size::Long));
    let steps = [a1, regs.address(1)];
    // D0 as a word is -32766, as a long 18002; A7 is the active stack pointer; the displacement has a sign.
    let short = resolve(&Mode::Index { reg: 0 }, &mut regs, &[0x00ff], 0, Size::Word);
    let long = resolve(&Mode::Index { reg: 0 }, &mut regs, &[0x0f01], 0, Size::Word);
    let by_pc = resolve(&Mode::PcIndex, &mut regs, &[0xf880], 0x100, Size::Word);
    let places = [number(short), number(long), number(by_pc)];
    assert!(rt; steps == [0xffff_fffe, 2] && places == [0xffff_a001, 0x1_a003, 0x8080]);
}

#[test]
fn words_of_modes(rt: HostRuntime) {
    let modes = &[
        (Mode::Dn { reg: 0 }, 0),
        (Mode::Pre { reg: 7 }, 0),
        (Mode::Disp { reg: 1 }, 1),
        (Mode::Index { reg: 1 }, 1),
        (Mode::Short, 1),
        (Mode::Long, 2),
        (Mode::PcDisp, 1),
        (Mode::PcIndex, 1),
    ];
    let mut right = true;
    for (mode, want) in modes {
        right &= extension_words(mode, Size::Byte) == *want;
        right &= extension_words(mode, Size::Long) == *want;
    }
    assert!(rt; right);
}

#[test]
fn words_of_immediates(rt: HostRuntime) {
    let words = [
        extension_words(&Mode::Imm, Size::Word),
        extension_words(&Mode::Imm, Size::Long),
    ];
    let mut regs = registers();
    let numbers = [
        number(resolve(&Mode::Imm, &mut regs, &[0x9034], 0, Size::Byte)),
        number(resolve(&Mode::Imm, &mut regs, &[0x9034, 1], 0, Size::Long)),
    ];
    assert!(rt; words == [1, 2] && numbers == [0x34, 0x9034_0001]);
}
