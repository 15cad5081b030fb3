//! Instructions of the Copper, step by step, worked by hand.

ghost use Rattle.std.specs.Prelude.{◌≤◌};

use crate::answers::hold;
use copper::{Copper, CopperAct};
use ocs_base::{Addr, Beam};

/// A place of a long field.
fn beam(v: u16, h: u16) -> Beam {
    Beam {
        frame: 0,
        v,
        h,
        lof: true,
    }
}

/// A Copper that begins at an address and has read the two words of an instruction, while the blitter
/// may be busy and CDANG is clear.
fn after(at: u32, first: u16, second: u16, beam: &Beam, busy: bool) -> Copper {
    let mut copper = Copper::start(Addr::at(at));
    copper.step(Some(first), beam, busy, false);
    copper.step(Some(second), beam, busy, false);
    copper
}

/// The address of the word that a Copper asks for.
fn wanted(copper: &Copper) -> Option<u32> {
    match copper.wants() {
        Some(at) => Some(at.raw()),
        None => None,
    }
}

/// The offset and the word of a write.
fn written(act: CopperAct) -> Option<(u16, u16)> {
    match act {
        CopperAct::Move { reg, word } => Some((reg.raw(), word)),
        CopperAct::None => None,
    }
}

/// What the Copper writes in a step at which it may be given a word, and the address that it asks for next.
fn stepped(copper: &mut Copper, fetched: Option<u16>) -> (Option<(u16, u16)>, Option<u32>) {
    let act = copper.step(fetched, &beam(0, 0), false, false);
    (written(act), wanted(copper))
}

#[test]
fn a_move_waits_for_its_slots(rt: HostRuntime) {
    let mut copper = Copper::start(Addr::at(0x100));
    let mut right = stepped(&mut copper, None) == (None, Some(0x100));
    right &= stepped(&mut copper, Some(0x0180)) == (None, Some(0x102));
    right &= stepped(&mut copper, None) == (None, Some(0x102));
    right &= stepped(&mut copper, Some(0x0f00)) == (Some((0x180, 0x0f00)), Some(0x104));
    right &= stepped(&mut copper, Some(0xff82)) == (None, Some(0x106));
    right &= stepped(&mut copper, Some(0x0001)) == (Some((0x182, 0x0001)), Some(0x108));
    hold(&rt, right);
}

/// Whether a MOVE with this first word writes where it is allowed, and else stops the Copper until a jump.
fn is_allowed(first: u16, danger: bool, allowed: bool) -> bool {
    let mut copper = Copper::start(Addr::at(0));
    copper.step(Some(first), &beam(0, 0), false, danger);
    let act = copper.step(Some(7), &beam(0, 0), false, danger);
    let moves = written(act).is_some() == allowed
        && copper.stopped() != allowed
        && wanted(&copper).is_some() == allowed;
    copper.step(Some(0x0180), &beam(0, 0), false, danger);
    let stays = copper.stopped() != allowed;
    copper.jump(Addr::at(0x200));
    moves && stays && wanted(&copper) == Some(0x200) && !copper.stopped()
}

#[test]
fn forbidden_moves_stop_it(rt: HostRuntime) {
    let found = [
        is_allowed(0x003e, false, false),
        is_allowed(0x003e, true, false),
        is_allowed(0x0040, false, false),
        is_allowed(0x0040, true, true),
        is_allowed(0x007e, false, false),
        is_allowed(0x007e, true, true),
        is_allowed(0x0080, false, true),
    ];
    hold(&rt, found == [true; 7]);
}

/// The words of a WAIT, whether the blitter is busy, a line and a clock, and whether the WAIT ends there.
static WAITS: [(u16, u16, bool, u16, u16, bool); 14] = [
    (0x3041, 0xfffe, false, 47, 226, false),
    (0x3041, 0xfffe, false, 48, 63, false),
    (0x3041, 0xfffe, false, 48, 64, true),
    (0x3041, 0xfffe, false, 49, 0, true),
    (0x3041, 0xfffe, false, 256, 0, false),
    (0x8001, 0x0000, false, 127, 226, false),
    (0x8001, 0x0000, false, 128, 0, true),
    (0x8001, 0x7ffe, false, 127, 226, false),
    (0x8001, 0x7ffe, false, 128, 0, true),
    (0xff41, 0x80fe, false, 128, 62, false),
    (0xff41, 0x80fe, false, 128, 64, true),
    (0x0001, 0x7ffe, true, 9, 0, false),
    (0x0001, 0x7ffe, false, 9, 0, true),
    (0x0001, 0xfffe, true, 9, 0, true),
];

/// What a Copper in a WAIT asks for, before it sees this place of the beam and behind that; 0 where it is
/// stopped then.
fn asked_around(first: u16, second: u16, busy: bool, v: u16, h: u16) -> [Option<u32>; 2] {
    let mut copper = after(8, first, second, &beam(312, 226), busy);
    let before = wanted(&copper);
    copper.step(None, &beam(v, h), busy, false);
    let behind = if copper.stopped() {
        Some(0)
    } else {
        wanted(&copper)
    };
    [before, behind]
}

#[test]
fn waits_end_from_their_place_on(rt: HostRuntime) {
    let mut right = true;
    for (first, second, busy, v, h, holds) in &WAITS {
        let next = if *holds { Some(12) } else { None };
        right &= asked_around(*first, *second, *busy, *v, *h) == [None, next];
    }
    hold(&rt, right);
}

/// The address that is asked for behind a SKIP at an address.
fn asked_behind(at: u32, first: u16, second: u16, busy: bool, v: u16) -> Option<u32> {
    wanted(&after(at, first, second, &beam(v, 0), busy))
}

#[test]
fn skips_pass_over_two_words(rt: HostRuntime) {
    let found = [
        asked_behind(0x100, 0x0001, 0xffff, true, 0),
        asked_behind(0x100, 0x6401, 0xffff, false, 0),
        asked_behind(0x100, 0x6401, 0xffff, false, 100),
        asked_behind(0x100, 0x0001, 0x7fff, true, 0),
        asked_behind(0x7_fffc, 0x0001, 0xffff, false, 0),
    ];
    let want = [Some(0x108), Some(0x104), Some(0x108), Some(0x104), Some(4)];
    hold(&rt, found == want);
}

#[test]
fn a_jump_drops_the_first_word(rt: HostRuntime) {
    let mut copper = Copper::start(Addr::at(0x100));
    copper.step(Some(0x0182), &beam(0, 0), false, false);
    copper.jump(Addr::at(0x40));
    let mut right = wanted(&copper) == Some(0x40);
    right &= stepped(&mut copper, Some(0x0180)) == (None, Some(0x42));
    right &= stepped(&mut copper, Some(0x0123)) == (Some((0x180, 0x0123)), Some(0x44));
    hold(&rt, right);
}

/// For how many clocks from clock `h` of line `v` on, at most 100, a Copper that has read these two words
/// does nothing.
fn quiet(first: u16, second: u16, busy: bool, v: u16, h: u16) -> u16
    requires { h ≤ 126 }
{
    let beam_now = Beam {
        frame: 0,
        v,
        h,
        lof: true,
    };
    after(8, first, second, &beam(0, 0), busy).quiet(&beam_now, busy, 100)
}

/// The line of a WAIT is above, here or below; the blitter holds a WAIT up; a MOVE is read, and then the
/// Copper asks at each even clock; a forbidden MOVE stops it.
#[test]
fn clocks_at_which_it_does_nothing(rt: HostRuntime) {
    let found = [
        quiet(0x3041, 0xfffe, false, 47, 10),
        quiet(0x3041, 0xfffe, false, 48, 10),
        quiet(0x3041, 0xfffe, false, 48, 11),
        quiet(0x3041, 0xfffe, false, 48, 64),
        quiet(0x3041, 0xfffe, false, 48, 65),
        quiet(0x3041, 0xfffe, false, 49, 10),
        quiet(0x0001, 0x7ffe, true, 49, 10),
        quiet(0x0180, 0x0f00, false, 49, 10),
        quiet(0x0180, 0x0f00, false, 49, 11),
        quiet(0x003e, 0x0007, false, 49, 10),
    ];
    hold(&rt, found == [100, 54, 53, 0, 1, 0, 100, 0, 1, 100]);
}
