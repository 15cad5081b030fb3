//! Lines of sprite fetches, worked by hand from the places of the slots.

ghost use Rattle.std.specs.Prelude.{◌<◌};

use crate::answers::hold;
use crate::written_registers::registers;
use ocs_base::{Addr, Beam, Reg};
use reg_file::Regs;
use sprite_dma::{SpriteAsk, SpriteDma};

/// Steps to clocks `from` to `to` of line `v`, with the slot of clock `taken` taken by a bitplane.
/// The answer is how many control words and words of images were read, and the last ask.
fn run(
    sprites: &mut SpriteDma,
    v: u16,
    from: u16,
    to: u16,
    taken: u16,
    regs: &mut Regs,
) -> (u16, u16, Option<SpriteAsk>) {
    let mut controls = 0u16;
    let mut words = 0u16;
    let mut last = None;
    for h in from..to {
        let beam = Beam {
            frame: 0,
            v,
            h,
            lof: true,
        };
        if let Some(ask) = sprites.step(&beam, regs, h == taken) {
            match ask {
                SpriteAsk::Control { .. } => controls = controls.saturating_add(1),
                SpriteAsk::Words { .. } => words = words.saturating_add(1),
            }
            last = Some(ask);
        }
    }
    (controls, words, last)
}

/// A line, SPR2POS, SPR2CTL, and how many control words and words of images are read on it: those of sprite 2
/// by its start and stop, as the other sprites stop at line 0 and read only on line 25.
static LINES: [(u16, u16, u16, u16, u16); 14] = [
    (24, 0x0040, 0x1800, 0, 0),
    (24, 0x0040, 0xff00, 0, 0),
    (25, 0x0040, 0xff00, 16, 0),
    (26, 0x1a40, 0x1c00, 0, 2),
    (27, 0x1a40, 0x1c00, 0, 2),
    (28, 0x1a40, 0x1c00, 2, 0),
    (29, 0x1a40, 0x1c00, 0, 0),
    (44, 0x2d40, 0x2e00, 0, 0),
    (44, 0x2c40, 0x2c00, 2, 0),
    (44, 0x2c40, 0x2b00, 0, 0),
    (44, 0x2c40, 0x2e06, 0, 0),
    (300, 0x2c40, 0x2e06, 0, 2),
    (300, 0x2c40, 0x2e04, 0, 0),
    (302, 0x2c40, 0x2e02, 2, 0),
];

/// How many control words and words of images are read on a line.
fn read_on(v: u16, pos: u16, ctl: u16) -> (u16, u16) {
    let mut regs = registers(&[(0x096, 0x8220), (0x150, pos), (0x152, ctl)]);
    let (controls, words, _last) = run(&mut SpriteDma::new(), v, 0, 227, 0, &mut regs);
    (controls, words)
}

#[test]
fn lines_of_a_sprite(rt: HostRuntime) {
    let mut right = true;
    for (v, pos, ctl, controls, words) in &LINES {
        right &= read_on(*v, *pos, *ctl) == (*controls, *words);
    }
    hold(&rt, right);
}

/// Whether a sprite asks for a control word there.
fn is_control(ask: Option<SpriteAsk>, sprite: u8, second: bool, at: Addr) -> bool {
    ask == Some(SpriteAsk::Control { sprite, second, at })
}

/// The slots of sprites 0 and 7, and a pointer that wraps.
#[test]
fn slots_and_pointers(rt: HostRuntime) {
    let mut regs = registers(&[
        (0x096, 0x8220),
        (0x122, 0x1000),
        (0x13c, 0x0007),
        (0x13e, 0xfffe),
    ]);
    let mut sprites = SpriteDma::new();
    let (none, _, _) = run(&mut sprites, 25, 0, 0x15, 0, &mut regs);
    let (one, _, first) = run(&mut sprites, 25, 0x15, 0x16, 0, &mut regs);
    let (rest, _, last) = run(&mut sprites, 25, 0x16, 0x34, 0, &mut regs);
    let pointers = [regs.word(Reg::masked(0x122)), regs.word(Reg::masked(0x13e))];
    let is_first = is_control(first, 0, false, Addr::at(0x1000));
    let is_last = is_control(last, 7, true, Addr::at(0));
    hold(
        &rt,
        [none, one, rest] == [0, 1, 15] && is_first && is_last && pointers == [0x1004, 2],
    );
}

/// A bitplane takes the first slot: the kind is decided there, and the second slot reads the pair's
/// first word.
#[test]
fn a_slot_that_a_bitplane_takes(rt: HostRuntime) {
    let mut regs = registers(&[
        (0x096, 0x8220),
        (0x126, 0x2000),
        (0x148, 0x3040),
        (0x14a, 0x3200),
    ]);
    let mut sprites = SpriteDma::new();
    let (_, words, last) = run(&mut sprites, 0x30, 0, 227, 0x19, &mut regs);
    let want = SpriteAsk::Words {
        sprite: 1,
        second: true,
        at: Addr::at(0x2000),
    };
    hold(
        &rt,
        words == 1 && last == Some(want) && regs.word(Reg::masked(0x126)) == 0x2002,
    );
}

/// How many control words are read on line 25, by words written to DMACON before sprite 0's first slot and
/// behind it.
fn controls_by(before: u16, after: u16) -> u16 {
    let mut regs = registers(&[(0x096, 0x8200), (0x096, before)]);
    let mut sprites = SpriteDma::new();
    let (first, _, _) = run(&mut sprites, 25, 0, 0x16, 0, &mut regs);
    let _effect = regs.poke(Reg::masked(0x096), after, false);
    let (rest, _, _) = run(&mut sprites, 25, 0x16, 227, 0, &mut regs);
    first.saturating_add(rest)
}

/// DMA is on at the first slot alone, and at the second slot alone.
#[test]
fn dma_changes_between_the_slots(rt: HostRuntime) {
    let found = [controls_by(0x8220, 0x0020), controls_by(0x0200, 0x8220)];
    hold(&rt, found == [1, 14]);
}

/// For how many clocks from clock `h` of line `v` on, at most 200, no sprite needs a slot, with this word
/// written to DMACON. Sprite 2 has an image on lines 26 and 27, and the others have none.
fn quiet(dma: u16, v: u16, h: u16) -> u16
    requires { 0 < h }
{
    let mut regs = registers(&[(0x096, dma), (0x150, 0x1a40), (0x152, 0x1c00)]);
    let mut sprites = SpriteDma::new();
    let _read = run(&mut sprites, v, 0, h, 0, &mut regs);
    let beam = Beam {
        frame: 0,
        v,
        h,
        lof: true,
    };
    sprites.quiet(&beam, &regs, 200)
}

/// The first slots of sprites 0 and 2 are clocks 21 and 29, and the last slot of all is clock 51. On line 25
/// each sprite reads its control words.
#[test]
fn clocks_without_a_read(rt: HostRuntime) {
    let found = [
        quiet(0x8220, 25, 1),
        quiet(0x8220, 25, 21),
        quiet(0x8220, 25, 22),
        quiet(0x8220, 25, 52),
        quiet(0x8200, 25, 1),
        quiet(0x8220, 26, 1),
        quiet(0x8220, 26, 30),
        quiet(0x8220, 26, 32),
        quiet(0x8220, 29, 1),
    ];
    hold(&rt, found == [20, 0, 1, 200, 200, 28, 1, 200, 200]);
}
