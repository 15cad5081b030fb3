//! Single loads; the positions are worked by hand from the clock of the write and the scrolls.

ghost use Rattle.std.specs.Prelude.{◌≤◌};

use crate::answers::hold;
use planes::{Loads, plane_bits, plane_span};

/// What plane 1 shows around a position in low resolution, one before it to two behind it, where its second
/// word is 8000, by BPLCON1.
fn bits_around(con1: u16, at: u16) -> [u8; 4]
    requires least { 1 ≤ at }
    requires most { at ≤ 400 }
{
    let mut loads = Loads::new();
    loads.load(63, &[0; 6], con1, false);
    loads.load(71, &[0x8000, 0, 0, 0, 0, 0], con1, false);
    [
        plane_bits(&loads, at - 1, 1),
        plane_bits(&loads, at, 1),
        plane_bits(&loads, at + 1, 1),
        plane_bits(&loads, at + 2, 1),
    ]
}

#[test]
fn a_word_with_and_without_scroll(rt: HostRuntime) {
    let found = [
        bits_around(0x000f, 320),
        bits_around(0x0000, 290),
        bits_around(0x00f0, 290),
        bits_around(0x0001, 292),
    ];
    hold(&rt, found == [[0, 1, 1, 0]; 4]);
}

#[test]
fn planes_of_both_parities(rt: HostRuntime) {
    let mut loads = Loads::new();
    loads.load(
        71,
        &[0x8000, 0x8000, 0x4000, 0x4000, 0x0001, 0x0001],
        0x0030,
        false,
    );
    let mut right = true;
    for (x, count, want) in [
        (290, 6, 0b00_0001),
        (292, 6, 0b00_0100),
        (296, 6, 0b00_0010),
        (298, 6, 0b00_1000),
        (298, 3, 0b00_0000),
        (321, 6, 0b01_0000),
        (327, 6, 0b10_0000),
        (328, 6, 0b00_0000),
        (290, 0, 0b00_0000),
    ] {
        right &= plane_bits(&loads, x, count) == want;
    }
    hold(&rt, right);
}

#[test]
fn high_resolution(rt: HostRuntime) {
    let mut loads = Loads::new();
    loads.load(71, &[0x8001, 0, 0, 0, 0, 0], 0x000f, true);
    let mut right = true;
    for (x, want) in [(303, 0), (304, 1), (305, 0), (319, 1), (320, 0)] {
        right &= plane_bits(&loads, x, 4) == want;
    }
    hold(&rt, right);
}

/// The word f0f0 from position 290 on, in low resolution: eight positions of ones and zeros by turns.
#[test]
fn a_span_of_positions(rt: HostRuntime) {
    let mut loads = Loads::new();
    loads.load(71, &[0xf0f0, 0, 0, 0, 0, 0], 0x0000, false);
    let mut bits = [7; 20];
    plane_span(&loads, 286, 1, &mut bits);
    hold(
        &rt,
        bits == [0, 0, 0, 0, 1, 1, 1, 1, 1, 1, 1, 1, 0, 0, 0, 0, 0, 0, 0, 0],
    );
}

/// Whether 32 positions from one on are given at once as they are given one by one.
fn is_each_position(loads: &Loads, from: u16) -> bool
    requires { from ≤ 320 }
{
    let mut bits = [7; 32];
    plane_span(loads, from, 1, &mut bits);
    for i in 0..32 {
        if bits[i] != plane_bits(loads, from + i as u16, 1) {
            return false;
        }
    }
    true
}

/// The first word of a line, loaded at clock 63 with a scroll of 15, begins at position 288; the second one
/// 32 positions later.
#[test]
fn a_span_is_its_positions(rt: HostRuntime) {
    let mut loads = Loads::new();
    loads.load(63, &[0; 6], 0x000f, false);
    loads.load(71, &[0x8000, 0, 0, 0, 0, 0], 0x000f, false);
    hold(
        &rt,
        is_each_position(&loads, 288) && is_each_position(&loads, 320),
    );
}

#[test]
fn a_later_load_hides_an_earlier(rt: HostRuntime) {
    let mut loads = Loads::new();
    loads.load(10, &[0xffff; 6], 0x000f, false);
    loads.load(11, &[0; 6], 0x0000, false);
    let hidden = plane_bits(&loads, 76, 6);
    let copy = loads.copied();
    loads.clear();
    is_shared(&copy);
    let found = [hidden, plane_bits(&loads, 76, 6), plane_bits(&copy, 49, 6)];
    hold(&rt, found == [0, 0, 0b10_1010]);
}

fn is_shared<T: Send + Sync>(_value: &T) {}
