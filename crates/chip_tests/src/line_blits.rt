//! Line blits worked by hand.

ghost use Rattle.std.specs.Prelude.{◌≡◌, ◌%◌};

use crate::answers::hold;
use crate::first_registers::one_word;
use blitter_line::{BlitRegs, LineBlit, SlotAsk};
use ocs_base::Addr;

/// A line of four points from bit 15 of word 40: two to the right in its row and two in the next,
/// whose distances are 3 and 1.
fn four_points() -> BlitRegs
    ensures { result.con1 ≡ 0x51 }
{
    BlitRegs {
        con0: 0x0bca,
        con1: 0x0051,
        size: 0x0102,
        adat: 0x8000,
        bdat: 0xffff,
        amod: -8,
        bmod: 4,
        cmod: 2,
        apt: Addr::at(0),
        bpt: Addr::at(0),
        cpt: Addr::at(0x40),
        dpt: Addr::at(0),
        aptl: 0xfffe,
        ..one_word()
    }
}

/// A line of two points from bit 15 of word 40, in the direction of this word of BLTCON1.
fn two_points(con1: u16) -> BlitRegs
    ensures { result.con1 ≡ con1 }
{
    BlitRegs {
        con0: 0x03ca,
        con1,
        size: 0x0082,
        cmod: 5,
        ..four_points()
    }
}

/// Draws the line into a memory, and gives the number of slots that it took.
fn slots(blit: &mut LineBlit, memory: &mut [u16]) -> u32 {
    let mut slots = 0;
    for asked in 1..40 {
        match blit.next() {
            SlotAsk::Read { at } => {
                blit.give(memory.get((at.raw() / 2) as usize).copied().unwrap_or(0));
            }
            SlotAsk::Write { at, word } => {
                if let Some(cell) = memory.get_mut((at.raw() / 2) as usize) {
                    *cell = word;
                }
                blit.give(0x5555);
            }
            SlotAsk::Rest => {
                blit.give(0x5555);
            }
            SlotAsk::Done => break,
        }
        slots = asked;
    }
    slots
}

/// The word at an address of the memory.
fn word_at(memory: &[u16], at: usize) -> u16 {
    memory.get(at / 2).copied().unwrap_or(0)
}

/// BZERO before a line and behind it, and the slots that it takes.
fn zeros_and_slots(blit: &mut LineBlit, memory: &mut [u16]) -> ([bool; 2], u32) {
    let before = blit.zero();
    let slots = slots(blit, memory);
    ([before, blit.zero()], slots)
}

#[test]
fn line_of_four_points(rt: HostRuntime) {
    let mut memory = [0; 64];
    let mut blit = LineBlit::start(&four_points());
    let found = zeros_and_slots(&mut blit, &mut memory);
    let words = [word_at(&memory, 0x40), word_at(&memory, 0x42)];
    let is_left = is_left_by_four_points(&blit.regs());
    hold(
        &rt,
        found == ([true, false], 16) && words == [0xc000, 0x3000] && is_left,
    );
}

/// Whether these are the registers that the line of four points leaves.
fn is_left_by_four_points(end: &BlitRegs) -> bool {
    let pointers = [end.cpt.raw(), end.dpt.raw(), end.apt.raw()];
    let words = [end.aptl, end.cdat, end.adat];
    pointers == [0x42, 0x42, 0] && words == [2, 0x2000, 0x8000]
}

/// The slots of a line of two points, and the word at an address behind it.
fn slots_and_word(con1: u16, at: usize) -> (u32, u16)
    requires { con1 % 2 ≡ 1 }
{
    let mut memory = [0; 64];
    let slots = slots(&mut LineBlit::start(&two_points(con1)), &mut memory);
    (slots, word_at(&memory, at))
}

#[test]
fn second_point_along_y(rt: HostRuntime) {
    let found = [
        slots_and_word(0x01, 0x44),
        slots_and_word(0x05, 0x3c),
        slots_and_word(0x09, 0x42),
        slots_and_word(0x0d, 0x3a),
        slots_and_word(0x41, 0x44),
        slots_and_word(0x45, 0x3c),
    ];
    let want = [
        (8, 0x4000),
        (8, 0x4000),
        (8, 0x0001),
        (8, 0x0001),
        (8, 0x8000),
        (8, 0x8000),
    ];
    hold(&rt, found == want);
}

#[test]
fn second_point_along_x(rt: HostRuntime) {
    let found = [
        slots_and_word(0x11, 0x44),
        slots_and_word(0x15, 0x42),
        slots_and_word(0x19, 0x3c),
        slots_and_word(0x1d, 0x3a),
        slots_and_word(0x51, 0x40),
        slots_and_word(0x55, 0x3e),
    ];
    let want = [
        (8, 0x4000),
        (8, 0x0001),
        (8, 0x4000),
        (8, 0x0001),
        (8, 0xc000),
        (8, 0x0001),
    ];
    hold(&rt, found == want);
}

/// The word at 40 behind a line of four points without A, by BLTCON1 and the texture.
fn first_word(con1: u16, bdat: u16) -> u16
    requires { con1 % 2 ≡ 1 }
{
    let mut regs = four_points();
    regs.con0 = 0x03ca;
    regs.con1 = con1;
    regs.bdat = bdat;
    let mut memory = [0; 64];
    slots(&mut LineBlit::start(&regs), &mut memory);
    word_at(&memory, 0x40)
}

#[test]
fn one_dot_a_row_and_texture(rt: HostRuntime) {
    let found = [
        first_word(0x0051, 0xffff),
        first_word(0x0053, 0xffff),
        first_word(0xf051, 0xa000),
        first_word(0x0051, 0x0001),
        first_word(0x0051, 0xc000),
    ];
    hold(&rt, found == [0xf000, 0x8000, 0xa000, 0x8000, 0x6000]);
}

#[test]
fn unused_channels_rest(rt: HostRuntime) {
    let mut regs = four_points();
    regs.con0 = 0x08ca;
    regs.cdat = 0x1234;
    let mut memory = [0; 64];
    let mut blit = LineBlit::start(&regs);
    let (zeros, slots) = zeros_and_slots(&mut blit, &mut memory);
    let words = [word_at(&memory, 0x40), blit.regs().cdat];
    hold(&rt, slots == 16 && words == [0, 0x1234] && !zeros[1]);
}
