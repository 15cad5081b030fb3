//! Pixels of spans of clocks; the values are worked by hand.

ghost use Rattle.std.specs.Prelude.{◌≡◌, ◌≤◌, ◌<◌, ◌+◌, ◌*◌};

use crate::answers::hold;
use ocs_base::{Beam, Colour, Reg, System};
use painter::{FieldPlace, Painter};
use planes::Loads;

/// A window of lines 0x2c to 0xf3 and columns 0x81 to 0x1c0, COLOR00 black and COLOR01 red.
fn painter_with(con0: u16) -> Painter {
    let mut painter = Painter::reset();
    painter.set(0, Reg { offset: 0x08e }, 0x2c81);
    painter.set(0, Reg { offset: 0x090 }, 0xf4c1);
    painter.set(0, Reg { offset: 0x100 }, con0);
    painter.set(0, Reg { offset: 0x182 }, 0x0f00);
    painter
}

/// Shows so many clocks of line 0x64 from `h` on, their bytes from place 12 of the room on.
fn show(painter: &mut Painter, h: u16, count: u16, room: &mut [u8; 240], clx: &mut u16) -> usize
    requires place { h + count ≤ 228 }
    requires room { count ≤ 19 }
{
    let from = FieldPlace {
        system: System::Pal,
        v: 0x64,
        h,
    };
    painter.show_span(from, count, room, 12, clx)
}

/// Whether the bytes of a colour, 0 to 2, of the pixels from place 12 of the room on are 0, but for those
/// from one pixel to another, which are this byte.
fn has_run(room: &[u8; 240], colour: usize, from: usize, end: usize, byte: u8) -> bool
    requires { colour ≤ 2 }
{
    let mut right = true;
    for pixel in 0..48 {
        let want = if from <= pixel && pixel < end {
            byte
        } else {
            0
        };
        right &= room[12 + colour + 3 * pixel] == want;
    }
    right
}

#[test]
fn a_load_is_shown_within_a_span(rt: HostRuntime) {
    let mut painter = painter_with(0x1000);
    painter.set(71, Reg { offset: 0x110 }, 0xffff);
    let mut room = [1; 240];
    let end = show(&mut painter, 70, 12, &mut room, &mut 0);
    let is_shown = has_run(&room, 0, 10, 42, 255) && has_run(&room, 1, 0, 0, 0);
    hold(
        &rt,
        end == 156 && is_shown && [room[11], room[156]] == [1, 1],
    );
}

/// The colour that is held behind a span of so many clocks, of which pixel 18 is the last that is red.
fn held_behind(count: u16) -> Colour
    requires { count ≤ 19 }
{
    let mut painter = painter_with(0x1000);
    painter.set(71, Reg { offset: 0x110 }, 0xfffe);
    show(&mut painter, 71, count, &mut [0; 240], &mut 0);
    painter.close(Loads::new()).held
}

#[test]
fn the_last_pixel_of_a_span_is_held(rt: HostRuntime) {
    let found = [held_behind(6), held_behind(9), held_behind(10)];
    hold(&rt, found == [Colour(0x0f00), Colour(0x0f00), Colour(0)]);
}

/// Whether the first twelve pixels of the room, from place 12 on, have no red, and all green.
fn is_green(room: &[u8; 240]) -> bool {
    let mut right = true;
    for pixel in 0..12 {
        right &= [room[12 + 3 * pixel], room[13 + 3 * pixel]] == [0, 255];
    }
    right
}

#[test]
fn the_visible_clocks_of_a_border(rt: HostRuntime) {
    let mut painter = painter_with(0);
    painter.set(0, Reg { offset: 0x180 }, 0x00f0);
    let mut room = [1; 240];
    let end = show(&mut painter, 40, 10, &mut room, &mut 0);
    hold(&rt, end == 48 && is_green(&room) && room[48] == 1);
}

/// The collisions of a span of so many clocks.
fn collisions_within(count: u16) -> u16
    requires { count ≤ 19 }
{
    let mut painter = painter_with(0x2000);
    painter.set(0, Reg { offset: 0x098 }, 0x00c3);
    painter.set(71, Reg { offset: 0x112 }, 0x0100);
    painter.set(71, Reg { offset: 0x110 }, 0x0100);
    let mut clx = 0;
    show(&mut painter, 72, count, &mut [0; 240], &mut clx);
    clx
}

#[test]
fn playfields_meet_late_in_a_span(rt: HostRuntime) {
    let found = [
        collisions_within(4),
        collisions_within(5),
        collisions_within(8),
    ];
    hold(&rt, found == [0, 1, 1]);
}

/// Whether the first sixteen pixels of the room, from place 12 on, are red, and pixels 10 and 11 have some
/// blue.
fn is_red_with_blue(room: &[u8; 240]) -> bool {
    let mut right = true;
    for pixel in 0..16 {
        let blue = if pixel == 10 || pixel == 11 { 17 } else { 0 };
        right &= [room[12 + 3 * pixel], room[14 + 3 * pixel]] == [255, blue];
    }
    right
}

#[test]
fn a_span_in_hold_and_modify(rt: HostRuntime) {
    let mut painter = painter_with(0x6800);
    painter.set(0, Reg { offset: 0x180 }, 0x0f00);
    painter.clear_line(&Beam {
        frame: 0,
        v: 0x64,
        h: 0,
        lof: true,
    });
    painter.set(71, Reg { offset: 0x118 }, 0x8000);
    painter.set(71, Reg { offset: 0x110 }, 0x8000);
    let mut room = [1; 240];
    let end = show(&mut painter, 70, 4, &mut room, &mut 0);
    hold(&rt, end == 60 && is_red_with_blue(&room));
}

#[test]
fn a_sprite_within_a_span(rt: HostRuntime) {
    let mut painter = painter_with(0x1000);
    painter.set(0, Reg { offset: 0x1a2 }, 0x00f0);
    painter.set(0, Reg { offset: 0x140 }, 0x0048);
    painter.set(0, Reg { offset: 0x142 }, 0);
    painter.set(0, Reg { offset: 0x146 }, 0);
    painter.set(0, Reg { offset: 0x144 }, 0xffff);
    let mut room = [1; 240];
    let end = show(&mut painter, 70, 12, &mut room, &mut 0);
    hold(
        &rt,
        end == 156 && has_run(&room, 0, 0, 0, 0) && has_run(&room, 1, 8, 40, 255),
    );
}
