//! Both kinds of blits, worked by hand.

use crate::answers::hold;
use crate::first_registers::one_word;
use blitter::{Blit, BlitRegs, SlotAsk};

/// A blit of one word from A to D, or of one point from C to D at its address.
fn word_or_point(con0: u16, con1: u16) -> BlitRegs {
    BlitRegs {
        con0,
        con1,
        adat: 0x8000,
        bdat: 0xffff,
        cmod: 4,
        ..one_word()
    }
}

/// The address and the word of the blit's one write, up to which it has written zeros alone.
fn write_of(blit: &mut Blit) -> Option<(u32, u16)> {
    for _ in 0..5 {
        if !blit.zero() {
            return None;
        }
        match blit.next() {
            SlotAsk::Read { .. } => {
                blit.give(0x0420);
            }
            SlotAsk::Write { at, word } => {
                blit.give(0);
                return Some((at.raw(), word));
            }
            SlotAsk::Rest => {
                blit.give(0xffff);
            }
            SlotAsk::Done => break,
        }
    }
    None
}

/// Whether the blit writes this word there, is at its end behind that with a word that was not 0, and leaves
/// D there.
fn is_written(blit: &mut Blit, at: u32, word: u16, end: u32) -> bool {
    write_of(blit) == Some((at, word))
        && matches!(blit.next(), SlotAsk::Done)
        && !blit.zero()
        && blit.regs().dpt.raw() == end
}

#[test]
fn one_word_and_one_point(rt: HostRuntime) {
    let mut word = Blit::start(&word_or_point(0x09f0, 0x0012));
    let mut point = Blit::start(&word_or_point(0x03ca, 0x0041));
    let found = [
        is_written(&mut word, 0x40, 0x03e0, 0x3e),
        is_written(&mut point, 0x30, 0x8420, 0x34),
    ];
    hold(&rt, found == [true; 2]);
}
