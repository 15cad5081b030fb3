//! Pixels of single clocks; the values are worked by hand.

ghost use Rattle.std.specs.Prelude.{◌≡◌, ◌≤◌, ◌<◌, ◌%◌, length};

use crate::answers::hold;
use ocs_base::{Beam, Colour, Reg, System};
use painter::Painter;
use planes::Loads;
use serial_model::Denise;
use sprites::Runs;

const BLACK: [u8; 3] = [0; 3];

const RED: [u8; 3] = [255, 0, 0];

const GREEN: [u8; 3] = [0, 255, 0];

const BLUE: [u8; 3] = [0, 0, 255];

/// A place of the beam on line 0x64.
fn beam_at(h: u16) -> Beam
    requires { h ≤ 226 }
    ensures { result.h ≤ 226 }
{
    Beam {
        frame: 0,
        v: 0x64,
        h,
        lof: true,
    }
}

/// A window of lines 0x2c to 0xf3 and columns 0x81 to 0x1c0, COLOR00 black and COLOR01 red.
fn painter_with(con0: u16, con2: u16) -> Painter {
    let mut painter = Painter::reset();
    painter.set(0, Reg { offset: 0x08e }, 0x2c81);
    painter.set(0, Reg { offset: 0x090 }, 0xf4c1);
    painter.set(0, Reg { offset: 0x100 }, con0);
    painter.set(0, Reg { offset: 0x104 }, con2);
    painter.set(0, Reg { offset: 0x182 }, 0xff00);
    painter
}

/// The pixels of a clock of the line, 72 for the positions 288 to 291.
fn pixels_of(painter: &mut Painter, h: u16) -> [[u8; 3]; 4]
    requires { h ≤ 226 }
{
    let mut pixels = [BLACK; 4];
    painter.show(System::Pal, &beam_at(h), &mut pixels, &mut 0);
    pixels
}

#[test]
fn a_load_is_shown_on_its_line_alone(rt: HostRuntime) {
    let mut painter = painter_with(0x1000, 0);
    painter.set(71, Reg { offset: 0x110 }, 0x8000);
    let loaded = pixels_of(&mut painter, 72);
    painter.clear_line(&beam_at(1));
    let still = pixels_of(&mut painter, 72);
    painter.clear_line(&beam_at(0));
    let half = [BLACK, BLACK, RED, RED];
    hold(
        &rt,
        [loaded, still, pixels_of(&mut painter, 72)] == [half, half, [BLACK; 4]],
    );
}

/// A picture state of one plane whose COLOR01 is red, as `painter_with` has it.
fn picture_with(loads: Loads) -> Denise
    ensures { length result.runs ≡ 8 }
{
    let mut palette = [0; 32];
    palette[1] = 0x0f00;
    Denise {
        palette,
        con0: 0x1000,
        con1: 0,
        con2: 0,
        diwstrt: 0x2c81,
        diwstop: 0xf4c1,
        clxcon: 0,
        latches: [0; 6],
        loads,
        runs: Runs::new(),
        pos: [0; 8],
        ctl: [0; 8],
        words_a: [0; 8],
        words_b: [0; 8],
        armed: 0,
        held: Colour(0x0f00),
    }
}

#[test]
fn a_picture_state_is_opened_and_closed(rt: HostRuntime) {
    let mut loads = Loads::new();
    loads.load(71, &[0x8000, 0, 0, 0, 0, 0], 0, false);
    let picture = picture_with(loads);
    let mut painter = Painter::open(&picture);
    let opened = pixels_of(&mut painter, 72);
    let line = pixels_of(&mut Painter::open_line(&picture), 72);
    let closing = painter.close(Loads::new());
    let is_shown = [opened, line] == [[BLACK, BLACK, RED, RED], [BLACK; 4]];
    hold(
        &rt,
        is_shown && closing.held == Colour(0x0f00) && closing.diwstop == 0xf4c1,
    );
}

#[test]
fn the_left_edge_of_the_window(rt: HostRuntime) {
    let mut painter = painter_with(0x1000, 0);
    painter.set(60, Reg { offset: 0x110 }, 0xffff);
    let found = [
        pixels_of(&mut painter, 63),
        pixels_of(&mut painter, 64),
        pixels_of(&mut painter, 65),
    ];
    hold(
        &rt,
        found == [[BLACK; 4], [BLACK, BLACK, RED, RED], [RED; 4]],
    );
}

/// Whether a clock of the line is shown.
fn is_visible(painter: &mut Painter, h: u16) -> bool
    requires { h ≤ 226 }
{
    painter.show(System::Pal, &beam_at(h), &mut [BLACK; 4], &mut 0)
}

#[test]
fn visible_clocks(rt: HostRuntime) {
    let mut painter = painter_with(0x1000, 0);
    let found = [
        is_visible(&mut painter, 46),
        is_visible(&mut painter, 47),
        is_visible(&mut painter, 226),
    ];
    hold(&rt, found == [false, true, true]);
}

#[test]
fn hold_and_modify(rt: HostRuntime) {
    let mut painter = painter_with(0x6800, 0);
    painter.set(0, Reg { offset: 0x180 }, 0x0f00);
    painter.clear_line(&beam_at(0));
    painter.set(71, Reg { offset: 0x118 }, 0x8000);
    painter.set(71, Reg { offset: 0x110 }, 0x8000);
    let found = pixels_of(&mut painter, 72);
    hold(&rt, found == [RED, RED, [255, 0, 17], [255, 0, 17]]);
}

#[test]
fn half_brite(rt: HostRuntime) {
    let mut painter = painter_with(0x6000, 0);
    painter.set(71, Reg { offset: 0x11a }, 0x8000);
    painter.set(71, Reg { offset: 0x110 }, 0x8000);
    let half = [7 * 17, 0, 0];
    hold(
        &rt,
        pixels_of(&mut painter, 72) == [BLACK, BLACK, half, half],
    );
}

/// The pixels where a bit of each of two playfields is shown, by BPLCON2.
fn playfields_by(con2: u16) -> [[u8; 3]; 4] {
    let mut painter = painter_with(0x2400, con2);
    painter.set(0, Reg { offset: 0x192 }, 0x00f0);
    painter.set(71, Reg { offset: 0x112 }, 0x8000);
    painter.set(71, Reg { offset: 0x110 }, 0x8000);
    pixels_of(&mut painter, 72)
}

#[test]
fn two_playfields(rt: HostRuntime) {
    let found = [playfields_by(0x00), playfields_by(0x40)];
    hold(
        &rt,
        found == [[BLACK, BLACK, RED, RED], [BLACK, BLACK, GREEN, GREEN]],
    );
}

#[test]
fn high_resolution_and_scroll(rt: HostRuntime) {
    let mut painter = painter_with(0x9000, 0);
    painter.set(70, Reg { offset: 0x102 }, 0x000a);
    painter.set(70, Reg { offset: 0x110 }, 0x9000);
    hold(
        &rt,
        pixels_of(&mut painter, 72) == [BLACK, BLACK, RED, BLACK],
    );
}

/// A painter of one plane whose COLOR17 is green and COLOR21 blue.
fn painter_of_sprites(con2: u16) -> Painter {
    let mut painter = painter_with(0x1000, con2);
    painter.set(0, Reg { offset: 0x1a2 }, 0x00f0);
    painter.set(0, Reg { offset: 0x1aa }, 0x000f);
    painter
}

/// Sprite `sprite` is armed at HSTART 0x90 with the words ffff and 0000.
fn set_sprite(painter: &mut Painter, sprite: u16)
    requires { sprite < 8 }
{
    let from = 0x140 + 8 * sprite;
    painter.set(0, Reg { offset: from }, 0x0048);
    painter.set(0, Reg { offset: from + 2 }, 0);
    painter.set(0, Reg { offset: from + 6 }, 0);
    painter.set(0, Reg { offset: from + 4 }, 0xffff);
}

/// The collisions from one clock to another.
fn collisions_of(painter: &mut Painter, from: u16, end: u16) -> u16
    requires { end ≤ 227 }
{
    let mut clx = 0;
    for h in from..end {
        painter.show(System::Pal, &beam_at(h), &mut [BLACK; 4], &mut clx);
    }
    clx
}

/// Whether the pixels of clocks 71 to 80 are black, but for those of 72 to 79, which are green.
fn is_green_for_eight_clocks(painter: &mut Painter) -> bool {
    let mut right = true;
    for h in 71..81 {
        let want = if 72 <= h && h < 80 { GREEN } else { BLACK };
        right &= pixels_of(painter, h) == [want; 4];
    }
    right
}

#[test]
fn a_sprite_shows_sixteen_columns(rt: HostRuntime) {
    let mut painter = painter_of_sprites(0);
    set_sprite(&mut painter, 0);
    hold(&rt, is_green_for_eight_clocks(&mut painter));
}

/// The pixels behind a write to a register at the start of the line.
fn pixels_behind(painter: &mut Painter, offset: u16, word: u16) -> [[u8; 3]; 4]
    requires room { offset < 512 }
    requires even { offset % 2 ≡ 0 }
{
    painter.set(0, Reg { offset }, word);
    pixels_of(painter, 72)
}

/// A write of SPR0CTL disarms sprite 0, and one of SPR0DATA arms it.
#[test]
fn a_sprite_is_armed_by_its_words(rt: HostRuntime) {
    let mut painter = painter_of_sprites(0);
    set_sprite(&mut painter, 0);
    let before = pixels_of(&mut painter, 72);
    painter.clear_line(&beam_at(0));
    let disarmed = pixels_behind(&mut painter, 0x142, 1);
    let one = pixels_behind(&mut painter, 0x144, 0x4000);
    let armed = pixels_behind(&mut painter, 0x144, 0x8000);
    let green_half = [BLACK, BLACK, GREEN, GREEN];
    hold(
        &rt,
        [before, disarmed, one, armed] == [[GREEN; 4], [BLACK; 4], [BLACK; 4], green_half],
    );
}

#[test]
fn a_clock_is_shown_again(rt: HostRuntime) {
    let mut painter = painter_of_sprites(0);
    set_sprite(&mut painter, 0);
    set_sprite(&mut painter, 1);
    painter.set(0, Reg { offset: 0x14c }, 0x8000);
    let first = pixels_of(&mut painter, 72);
    painter.set(0, Reg { offset: 0x144 }, 0);
    pixels_of(&mut painter, 72);
    pixels_of(&mut painter, 60);
    pixels_of(&mut painter, 72);
    painter.set(0, Reg { offset: 0x140 }, 0x003c);
    let found = [
        first,
        pixels_of(&mut painter, 60),
        pixels_of(&mut painter, 72),
    ];
    hold(
        &rt,
        found == [[GREEN; 4], [BLACK; 4], [GREEN, GREEN, BLACK, BLACK]],
    );
}

/// The pixels where sprite 0 meets a bit of plane 1, by BPLCON2.
fn sprite_over_plane(con2: u16) -> [[u8; 3]; 4] {
    let mut painter = painter_of_sprites(con2);
    painter.set(71, Reg { offset: 0x110 }, 0x8000);
    set_sprite(&mut painter, 0);
    pixels_of(&mut painter, 72)
}

#[test]
fn priorities_of_sprites(rt: HostRuntime) {
    let found = [
        sprite_over_plane(0x00),
        sprite_over_plane(0x08),
        sprite_over_plane(0x20),
    ];
    hold(
        &rt,
        found == [[GREEN, GREEN, RED, RED], [GREEN; 4], [GREEN; 4]],
    );
}

/// The pixels where sprites 0 and 1 meet, by SPR0CTL and SPR1CTL.
fn pair_by(even: u16, odd: u16) -> [[u8; 3]; 4] {
    let mut painter = painter_of_sprites(0);
    set_sprite(&mut painter, 0);
    set_sprite(&mut painter, 1);
    painter.set(0, Reg { offset: 0x142 }, even);
    painter.set(0, Reg { offset: 0x14a }, odd);
    painter.set(0, Reg { offset: 0x144 }, 0xffff);
    painter.set(0, Reg { offset: 0x14c }, 0xffff);
    pixels_of(&mut painter, 72)
}

#[test]
fn an_attached_pair(rt: HostRuntime) {
    let found = [pair_by(0, 0x80), pair_by(0x80, 0)];
    hold(&rt, found == [[BLUE; 4], [GREEN; 4]]);
}

#[test]
fn no_sprite_outside_the_window(rt: HostRuntime) {
    let mut painter = painter_of_sprites(0);
    painter.set(0, Reg { offset: 0x08e }, 0x2c91);
    set_sprite(&mut painter, 0);
    hold(
        &rt,
        pixels_of(&mut painter, 72) == [BLACK, BLACK, GREEN, GREEN],
    );
}

/// The collisions of a clock in which sprite 0, another one and a bit of plane 1 meet, by CLXCON.
fn collisions_by(clxcon: u16, second: u16) -> u16
    requires { second < 8 }
{
    let mut painter = painter_of_sprites(0);
    painter.set(0, Reg { offset: 0x098 }, clxcon);
    painter.set(71, Reg { offset: 0x110 }, 0x8000);
    set_sprite(&mut painter, 0);
    set_sprite(&mut painter, second);
    collisions_of(&mut painter, 72, 73)
}

#[test]
fn collisions_by_clxcon(rt: HostRuntime) {
    let found = [
        collisions_by(0x0000, 2),
        collisions_by(0x00c3, 2),
        collisions_by(0x00c3, 3),
        collisions_by(0x20c3, 3),
    ];
    hold(&rt, found == [0x0267, 0x0206, 0x0002, 0x0206]);
}

#[test]
fn collisions_where_nothing_is_visible(rt: HostRuntime) {
    let mut painter = painter_of_sprites(0);
    painter.set(0, Reg { offset: 0x08e }, 0x2c00);
    painter.set(0, Reg { offset: 0x098 }, 0x00c3);
    set_sprite(&mut painter, 0);
    set_sprite(&mut painter, 2);
    painter.set(0, Reg { offset: 0x140 }, 0x0014);
    painter.set(0, Reg { offset: 0x150 }, 0x0016);
    let found = [
        collisions_of(&mut painter, 20, 22),
        collisions_of(&mut painter, 22, 23),
    ];
    hold(&rt, found == [0, 0x0200]);
}
