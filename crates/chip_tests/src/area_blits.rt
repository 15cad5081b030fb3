//! Area blits worked by hand.

ghost use Rattle.std.specs.Prelude.{◌≡◌, ◌%◌};

use crate::answers::hold;
use crate::first_registers::one_word;
use blitter_area::{AreaBlit, BlitRegs, SlotAsk};
use ocs_base::Addr;

/// The last word that the blit writes where reads give the words of a list in order.
fn written(blit: &mut AreaBlit, reads: &[u16]) -> Option<u16> {
    let mut given = 0;
    let mut last = None;
    for _ in 0..40 {
        match blit.next() {
            SlotAsk::Read { .. } => {
                blit.give(reads.get(given % 8).copied().unwrap_or(0));
                given = given % 8 + 1;
            }
            SlotAsk::Write { word, .. } => {
                last = Some(word);
                blit.give(0x5555);
            }
            SlotAsk::Rest => {
                blit.give(0x5555);
            }
            SlotAsk::Done => break,
        }
    }
    last
}

/// The address of the next ask: 1 for a rest, and None at the end.
fn place(blit: &AreaBlit) -> Option<u32> {
    match blit.next() {
        SlotAsk::Read { at } => Some(at.raw()),
        SlotAsk::Write { at, .. } => Some(at.raw()),
        SlotAsk::Rest => Some(1),
        SlotAsk::Done => None,
    }
}

/// Answers one ask, if there is one.
fn answer(blit: &mut AreaBlit, word: u16) {
    match blit.next() {
        SlotAsk::Done => {}
        _ => {
            blit.give(word);
        }
    }
}

/// The word that a blit of one word writes where it reads 0420, by BLTCON1.
fn fill_by(con1: u16) -> Option<u16>
    requires { con1 % 2 ≡ 0 }
{
    let mut regs = one_word();
    regs.con1 = con1;
    written(&mut AreaBlit::start(&regs), &[0x0420])
}

#[test]
fn fill_of_one_word(rt: HostRuntime) {
    let found = [
        fill_by(0x12),
        fill_by(0x0a),
        fill_by(0x0e),
        fill_by(0x1a),
        fill_by(0x18),
    ];
    let want = [
        Some(0x03e0),
        Some(0x07e0),
        Some(0xfc3f),
        Some(0x03e0),
        Some(0x0420),
    ];
    hold(&rt, found == want);
}

/// The word that the blit writes behind three reads.
fn word_behind(blit: &mut AreaBlit, reads: [u16; 3]) -> Option<u16> {
    for word in &reads {
        answer(blit, *word);
    }
    let word = match blit.next() {
        SlotAsk::Write { word, .. } => Some(word),
        _ => None,
    };
    answer(blit, 0);
    word
}

#[test]
fn cookie_cut_of_two_words(rt: HostRuntime) {
    let mut regs = one_word();
    regs.con0 = 0x4fca;
    regs.con1 = 0x4000;
    regs.size = 0x0042;
    regs.alwm = 0;
    let mut blit = AreaBlit::start(&regs);
    let found = [
        word_behind(&mut blit, [0x00ff, 0x1234, 0xaaaa]),
        word_behind(&mut blit, [0xffff, 0x5678, 0xbbbb]),
    ];
    hold(
        &rt,
        found == [Some(0xaaa3), Some(0x4bbb)] && place(&blit).is_none(),
    );
}

/// BLTCON0, and the addresses of a blit of one word: 1 for a rest, and 0 behind the end.
static ASKS: [(u16, [u32; 4]); 16] = [
    (0x0000, [1, 1, 0, 0]),
    (0x0100, [1, 0x40, 0, 0]),
    (0x0200, [1, 0x30, 0, 0]),
    (0x0300, [1, 0x30, 0x40, 0]),
    (0x0400, [1, 0x20, 1, 0]),
    (0x0500, [1, 0x20, 0x40, 0]),
    (0x0600, [1, 0x20, 0x30, 0]),
    (0x0700, [1, 0x20, 0x30, 0x40]),
    (0x0800, [0x10, 1, 0, 0]),
    (0x0900, [0x10, 0x40, 0, 0]),
    (0x0a00, [0x10, 0x30, 0, 0]),
    (0x0b00, [0x10, 0x30, 0x40, 0]),
    (0x0c00, [0x10, 0x20, 1, 0]),
    (0x0d00, [0x10, 0x20, 0x40, 0]),
    (0x0e00, [0x10, 0x20, 0x30, 0]),
    (0x0f00, [0x10, 0x20, 0x30, 0x40]),
];

/// Whether the blit asks at these addresses, each ask answered with 0, and then is at its end.
fn ends_behind(blit: &mut AreaBlit, asks: &[u32; 4]) -> bool {
    for at in asks {
        if place(blit).unwrap_or(0) != *at {
            return false;
        }
        answer(blit, 0);
    }
    place(blit).is_none()
}

/// Whether a blit of one word by this BLTCON0 asks at these addresses.
fn is_asked(con0: u16, asks: &[u32; 4]) -> bool {
    let mut regs = one_word();
    regs.con0 = con0;
    ends_behind(&mut AreaBlit::start(&regs), asks)
}

#[test]
fn asks_of_each_code(rt: HostRuntime) {
    let mut right = true;
    for (con0, asks) in &ASKS {
        right &= is_asked(*con0, asks);
    }
    hold(&rt, right);
}

/// Whether a blit of two rows of two words reads at these addresses, by BLTCON1; it rests behind each read.
fn reads_rows(con1: u16, places: &[u32; 4]) -> bool
    requires { con1 % 2 ≡ 0 }
{
    let mut regs = one_word();
    regs.con0 = 0x0800;
    regs.con1 = con1;
    regs.size = 0x0082;
    regs.amod = 3;
    let mut blit = AreaBlit::start(&regs);
    for at in places {
        if place(&blit) != Some(*at) {
            return false;
        }
        answer(&mut blit, 0);
        answer(&mut blit, 0);
    }
    place(&blit).is_none()
}

#[test]
fn rows_up_and_down(rt: HostRuntime) {
    let up = reads_rows(0, &[0x10, 0x12, 0x16, 0x18]);
    let down = reads_rows(2, &[0x10, 0x0e, 0x0a, 0x08]);
    hold(&rt, up && down);
}

/// Whether a blit of two words from A to D asks at these addresses, and leaves these pointers.
fn goes_over(apt: Addr, dpt: Addr, places: [u32; 4], end: [u32; 2]) -> bool {
    let mut regs = one_word();
    regs.size = 0x0042;
    regs.apt = apt;
    regs.dpt = dpt;
    let mut blit = AreaBlit::start(&regs);
    let is_asked = ends_behind(&mut blit, &places);
    let left = blit.regs();
    is_asked && [left.apt.raw(), left.dpt.raw()] == end
}

#[test]
fn pointers_at_the_end_of_their_span(rt: HostRuntime) {
    let both = goes_over(
        Addr::wide(0x8_0010),
        Addr::wide(0x7_fffe),
        [0x8_0010, 0x7_fffe, 0x8_0012, 0x8_0000],
        [0x8_0014, 0x8_0002],
    );
    let wide = goes_over(
        Addr::wide(0x10),
        Addr::wide(0xf_fffe),
        [0x10, 0xf_fffe, 0x12, 0],
        [0x14, 2],
    );
    let narrow = goes_over(
        Addr::at(0x10),
        Addr::at(0x7_fffe),
        [0x10, 0x7_fffe, 0x12, 0],
        [0x14, 2],
    );
    hold(&rt, both && wide && narrow);
}

/// The registers that a blit of two rows of two words leaves, for BLTCON0.
fn registers_left(con0: u16) -> BlitRegs {
    let mut regs = one_word();
    regs.con0 = con0;
    regs.size = 0x0082;
    regs.adat = 0x1234;
    regs.amod = -14;
    regs.dmod = 4;
    regs.aptl = 0x0011;
    let mut blit = AreaBlit::start(&regs);
    written(&mut blit, &[5, 6, 8, 7]);
    blit.regs()
}

/// The pointers of A, B and D that it leaves, BLTAPTL, BLTADAT and BLTCON0.
fn left_by(con0: u16) -> ([u32; 3], [u16; 3]) {
    let end = registers_left(con0);
    (
        [end.apt.raw(), end.bpt.raw(), end.dpt.raw()],
        [end.aptl, end.adat, end.con0],
    )
}

#[test]
fn registers_at_the_end(rt: HostRuntime) {
    let found = [left_by(0x09f0), left_by(0x01f0)];
    let want = [
        ([0x7fffc, 0x20, 0x50], [0xfffc, 7, 0x09f0]),
        ([0x10, 0x20, 0x50], [0x0011, 0x1234, 0x01f0]),
    ];
    hold(&rt, found == want);
}

/// BZERO behind the first and the second ask of a blit of one word, for BLTCON0.
fn zeros_by(con0: u16) -> [bool; 2] {
    let mut regs = one_word();
    regs.con0 = con0;
    regs.adat = 0;
    let mut blit = AreaBlit::start(&regs);
    answer(&mut blit, 1);
    let behind_the_first = blit.zero();
    answer(&mut blit, 1);
    [behind_the_first, blit.zero()]
}

#[test]
fn zero_falls_with_the_last_ask(rt: HostRuntime) {
    let found = [zeros_by(0x00ff), zeros_by(0x0000), zeros_by(0x08f0)];
    hold(&rt, found == [[true, false], [true, true], [true, false]]);
}
