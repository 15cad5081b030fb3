//! Colours of single pixels; the values are worked by hand.

ghost use Rattle.std.specs.Prelude.{◌≤◌};
ghost use Rattle.std.specs.List.{All};

use crate::answers::hold;
use ocs_base::Colour;
use priority_ham::{colour, plane_count};
use sprites::SpritePixel;

/// COLOR00 is f88, COLOR01 123, COLOR02 456, COLOR09 789, COLOR17 00f and the others 0.
fn palette() -> [u16; 32]
    ensures { All (λ word. word ≤ 4095) result }
{
    [
        0xf88, 0x123, 0x456, 0, 0, 0, 0, 0, 0, 0x789, 0, 0, 0, 0, 0, 0, 0, 0x00f, 0, 0, 0, 0, 0, 0,
        0, 0, 0, 0, 0, 0, 0, 0,
    ]
}

#[test]
fn hold_and_modify(rt: HostRuntime) {
    let mut right = true;
    for (bits, held, want) in [
        (0b01_0001, 0xf88, 0xf81),
        (0b01_0000, 0xf81, 0xf80),
        (0b10_0101, 0xf80, 0x580),
        (0b11_1010, 0x580, 0x5a0),
        (0b00_0001, 0x5a0, 0x123),
    ] {
        let pixel = colour(0x6800, 0, bits, None, Colour(held), &palette());
        right &= pixel.shown.0 == want && pixel.held.0 == want;
    }
    hold(&rt, right);
}

#[test]
fn half_brite_and_plain(rt: HostRuntime) {
    let mut right = true;
    for (con0, bits, want) in [
        (0x6000, 0b10_0000, 0x744),
        (0x7000, 0b10_0010, 0x223),
        (0x6000, 0b00_0010, 0x456),
        (0xc800, 0b00_1001, 0x789),
        (0x5000, 0b01_0001, 0x00f),
    ] {
        let pixel = colour(con0, 0, bits, None, Colour(0), &palette());
        right &= pixel.shown.0 == want;
    }
    hold(&rt, right);
}

#[test]
fn two_playfields(rt: HostRuntime) {
    let mut right = true;
    for (con2, bits, want) in [
        (0x00, 0b11, 0x123),
        (0x00, 0b10, 0x789),
        (0x40, 0b11, 0x789),
        (0x40, 0b01, 0x123),
        (0x40, 0b00, 0xf88),
    ] {
        let pixel = colour(0x2400, con2, bits, None, Colour(0), &palette());
        right &= pixel.shown.0 == want;
    }
    hold(&rt, right);
}

#[test]
fn sprites_and_playfields(rt: HostRuntime) {
    let mut right = true;
    for (con0, con2, bits, pair, want) in [
        (0x1000, 0x00, 1, 0, 0x123),
        (0x1000, 0x08, 1, 0, 0x00f),
        (0x1000, 0x00, 0, 0, 0x00f),
        (0x1000, 0x20, 1, 3, 0x00f),
        (0x1000, 0x38, 1, 3, 0x00f),
        (0x2400, 0x01, 1, 0, 0x00f),
        (0x2400, 0x01, 1, 1, 0x123),
        (0x2400, 0x08, 1, 0, 0x123),
        (0x2400, 0x08, 2, 0, 0x00f),
    ] {
        let sprite = SpritePixel { pair, colour: 17 };
        let pixel = colour(con0, con2, bits, Some(sprite), Colour(0), &palette());
        right &= pixel.shown.0 == want;
    }
    hold(&rt, right);
}

#[test]
fn numbers_of_planes(rt: HostRuntime) {
    let mut right = true;
    for (con0, want) in [
        (0x0000, 0),
        (0x6000, 6),
        (0x7000, 6),
        (0xc000, 4),
        (0xf000, 4),
        (0x3fff, 3),
    ] {
        right &= plane_count(con0) == want;
    }
    hold(&rt, right);
}
