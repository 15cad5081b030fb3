//! Pixels, presence and collisions, worked by hand.

ghost use Rattle.std.specs.Prelude.{◌≤◌};

use crate::answers::hold;
use sprite_rows::{SpriteRows, collisions, playfield_worth};
use sprites::SpritePixel;

/// The colour of the sprite in front at a position, 0 where there is none.
fn colour_at(rows: &SpriteRows, x: u16, attached: u8) -> u8
    requires { x ≤ 511 }
{
    match rows.front(x, attached) {
        Some(shown) => shown.colour,
        None => 0,
    }
}

#[test]
fn words_run_for_sixteen_positions(rt: HostRuntime) {
    let mut rows = SpriteRows::new();
    rows.start(2, 100, 0x8001, 0x0001);
    let found = [
        colour_at(&rows, 99, 0),
        colour_at(&rows, 100, 0),
        colour_at(&rows, 101, 0),
        colour_at(&rows, 114, 0),
        colour_at(&rows, 115, 0),
        colour_at(&rows, 116, 0),
    ];
    rows.clear();
    hold(
        &rt,
        found == [0, 21, 0, 0, 23, 0] && rows.front(100, 0).is_none(),
    );
}

#[test]
fn words_begin_again_before_their_end(rt: HostRuntime) {
    let mut rows = SpriteRows::new();
    rows.start(0, 100, 0xffff, 0x0000);
    rows.start(1, 100, 0x0000, 0xffff);
    rows.start(0, 104, 0x0000, 0x8000);
    let found = [
        colour_at(&rows, 103, 1),
        colour_at(&rows, 104, 1),
        colour_at(&rows, 105, 1),
        colour_at(&rows, 115, 1),
        colour_at(&rows, 116, 1),
    ];
    hold(&rt, found == [25, 26, 24, 24, 0]);
}

#[test]
fn the_sprite_in_front(rt: HostRuntime) {
    let mut rows = SpriteRows::new();
    rows.start(7, 453, 0x8000, 0x8000);
    rows.start(6, 454, 0x8000, 0x0000);
    rows.start(3, 455, 0x8000, 0x0000);
    rows.start(5, 455, 0x8000, 0x8000);
    rows.start(2, 456, 0x8000, 0x8000);
    rows.start(3, 456, 0x0000, 0x8000);
    let mut right = rows.front(452, 0x0f).is_none();
    for (x, attached, pair, colour) in [
        (453, 0x00, 3, 31),
        (453, 0x08, 3, 28),
        (454, 0x00, 3, 29),
        (454, 0x08, 3, 17),
        (455, 0x00, 1, 21),
        (455, 0x02, 1, 20),
        (456, 0x00, 1, 23),
        (456, 0x02, 1, 27),
        (456, 0xfd, 1, 23),
    ] {
        right &= rows.front(x, attached) == Some(SpritePixel { pair, colour });
    }
    hold(&rt, right);
}

#[test]
fn pairs_that_are_present(rt: HostRuntime) {
    let mut rows = SpriteRows::new();
    rows.start(0, 40, 0x8000, 0x0000);
    rows.start(3, 40, 0x0000, 0x8000);
    rows.start(6, 41, 0x8000, 0x8000);
    rows.start(7, 41, 0x8000, 0x8000);
    rows.start(5, 41, 0x8000, 0x8000);
    let mut right = true;
    for (x, clxcon, present) in [
        (40, 0x0000, 0b0001),
        (40, 0x2000, 0b0011),
        (40, 0xdfff, 0b0001),
        (41, 0x0fff, 0b1000),
        (41, 0x4000, 0b1100),
        (56, 0xf000, 0b0000),
    ] {
        right &= rows.present(x, clxcon) == present;
    }
    hold(&rt, right);
}

#[test]
fn collisions_of_pairs(rt: HostRuntime) {
    let mut right = true;
    for (quiet, worth, present, want) in [
        (1, 34, 0b0000, 0x0001),
        (1, 34, 0b0001, 0x0023),
        (0, 2, 0b0100, 0x0008),
        (0, 32, 0b0100, 0x0080),
        (0, 0, 0b0011, 0x0200),
        (1, 34, 0b0101, 0x04ab),
        (1, 34, 0b1111, 0x7fff),
    ] {
        right &= collisions(quiet, worth, present) == want;
    }
    let worths = [
        playfield_worth(0, 0),
        playfield_worth(0x0041, 0b00_0000),
        playfield_worth(0x0082, 0b00_0000),
    ];
    hold(&rt, right && worths == [34, 32, 2]);
}
