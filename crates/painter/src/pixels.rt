//! Two pixels of one low-resolution column.

ghost use Rattle.std.specs.Prelude.{◌≡◌, ◌≤◌, ◌<◌, ◌+◌, ◌*◌, ◌++◌, ℕ, true, flat_map, length, slice_index, slice_set, take};
ghost use Rattle.serial_model.specs.Picture.{colour_bytes};
ghost use Rattle.painter.specs.code.Held.{IsHeld, colour_word};
ghost use Rattle.painter.specs.Inks.{ink, ink_number, two_pixels};
ghost use Rattle.painter.specs.code.Pixels.{ink_at, modified_at, modified_along, modified_pixels, all_modified};
ghost use Rattle.plane_rows.specs.Line.{row_bits, ArePaired};
ghost use Rattle.painter.specs.SpanParts.{bytes_of_clocks, ink_pixels};

use crate::ham::{bytes_of, held_of, modify, modify_again, modify_word, word_of};
use crate::held::Held;
use crate::inks::Inks;
use crate::painter::Painter;
use crate::span::{put, put_eight};
use plane_rows::Line;

/// Two pixels outside the display window: COLOR00.
#[inline(always)]
pub fn show_border(inks: &Inks, at: usize, into: &mut [[u8; 3]; 4])
    requires { at ≤ 2 }
    ensures { let bytes = colour_bytes (slice_index inks.now.palette 0) in
        into.new ≡ slice_set (slice_set into.old at bytes) (at + 1) bytes }
{
    let bytes = inks.bytes(0);
    into[at] = bytes;
    into[at + 1] = bytes;
}

/// Two pixels inside the display window where no colour is held: the inks that their bits name, which
/// may be known to be the same.
#[inline(always)]
pub fn show_inks(
    inks: &Inks,
    line: &Line,
    paired: bool,
    x: usize,
    at: usize,
    into: &mut [[u8; 3]; 4],
)
    requires place { at ≤ 2 }
    requires room { x ≤ 1022 }
    requires pair { paired ≡ true → row_bits line.now x ≡ row_bits line.now (x + 1) }
    ensures { into.new ≡ slice_set (slice_set into.old
        at (colour_bytes (ink_at inks.now line.now x)))
        (at + 1) (colour_bytes (ink_at inks.now line.now (x + 1))) }
{
    let first = inks.bytes(inks.name(line.bits(x)));
    into[at] = first;
    if paired {
        into[at + 1] = first;
        return;
    }
    let second = inks.bytes(inks.name(line.bits(x + 1)));
    into[at + 1] = second;
}

/// Two pixels inside the display window in hold-and-modify; the second is held.
#[inline(always)]
pub fn show_modified(
    inks: &Inks,
    line: &Line,
    held: Held,
    x: usize,
    at: usize,
    into: &mut [[u8; 3]; 4],
) -> Held
    requires place { at ≤ 2 }
    requires room { x ≤ 1022 }
    ensures pixels { (colour : ℕ) → IsHeld held colour
        → (let first = modified_at inks.now line.now x colour in
        into.new ≡ slice_set (slice_set into.old at (colour_bytes first))
        (at + 1) (colour_bytes (modified_at inks.now line.now (x + 1) first))) }
    ensures held { (colour : ℕ) → IsHeld held colour
        → (let first = modified_at inks.now line.now x colour in
        IsHeld result (modified_at inks.now line.now (x + 1) first)) }
{
    let name = inks.name(line.bits(x));
    let first = modify(name, held, inks);
    let second = modify_again(name, inks.name(line.bits(x + 1)), first, inks);
    into[at] = bytes_of(first);
    into[at + 1] = bytes_of(second);
    second
}

/// The same where the bits of both positions are the same, and so make the same colour.
#[inline(always)]
fn show_pair(
    inks: &Inks,
    line: &Line,
    held: Held,
    x: usize,
    at: usize,
    into: &mut [[u8; 3]; 4],
) -> Held
    requires place { at ≤ 2 }
    requires room { x ≤ 1022 }
    requires pair { row_bits line.now x ≡ row_bits line.now (x + 1) }
    ensures pixels { (colour : ℕ) → IsHeld held colour
        → (let first = modified_at inks.now line.now x colour in
        into.new ≡ slice_set (slice_set into.old at (colour_bytes first))
        (at + 1) (colour_bytes (modified_at inks.now line.now (x + 1) first))) }
    ensures held { (colour : ℕ) → IsHeld held colour
        → (let first = modified_at inks.now line.now x colour in
        IsHeld result (modified_at inks.now line.now (x + 1) first)) }
{
    let name = inks.name(line.bits(x));
    let first = modify(name, held, inks);
    let second = modify_again(name, name, first, inks);
    into[at] = bytes_of(first);
    into[at + 1] = bytes_of(second);
    second
}

/// The same of positions whose bits may be known to be the same.
#[inline(always)]
fn show_two(
    painter: &Painter,
    paired: bool,
    held: Held,
    x: usize,
    at: usize,
    into: &mut [[u8; 3]; 4],
) -> Held
    requires place { at ≤ 2 }
    requires room { x ≤ 1022 }
    requires pair { paired ≡ true
        → row_bits painter.now.line x ≡ row_bits painter.now.line (x + 1) }
    ensures pixels { (colour : ℕ) → IsHeld held colour
        → (let first = modified_at painter.now.inks painter.now.line x colour in
        into.new ≡ slice_set (slice_set into.old at (colour_bytes first))
        (at + 1) (colour_bytes (modified_at painter.now.inks painter.now.line (x + 1) first))) }
    ensures held { (colour : ℕ) → IsHeld held colour
        → (let first = modified_at painter.now.inks painter.now.line x colour in
        IsHeld result (modified_at painter.now.inks painter.now.line (x + 1) first)) }
{
    if paired {
        show_pair(&painter.inks, &painter.line, held, x, at, into)
    } else {
        show_modified(&painter.inks, &painter.line, held, x, at, into)
    }
}

/// A pixel inside the display window where no colour is held: the ink that its bits name.
#[inline(always)]
pub fn ink_bytes(inks: &Inks, line: &Line, x: usize) -> [u8; 3]
    requires { x ≤ 1023 }
    ensures { result ≡ colour_bytes (ink_at inks.now line.now x) }
{
    inks.bytes(inks.name(line.bits(x)))
}

/// The four such pixels from a position on, which may be known to be paired.
#[inline(always)]
fn ink_clock(inks: &Inks, line: &Line, paired: bool, x: usize) -> [[u8; 3]; 4]
    requires place { x ≤ 1020 }
    requires pairs { paired ≡ true → ArePaired line.now x }
    ensures { result ≡ ink_pixels inks.now line.now x }
{
    if paired {
        let first = ink_bytes(inks, line, x);
        let second = ink_bytes(inks, line, x + 2);
        return [first, first, second, second];
    }
    [
        ink_bytes(inks, line, x),
        ink_bytes(inks, line, x + 1),
        ink_bytes(inks, line, x + 2),
        ink_bytes(inks, line, x + 3),
    ]
}

/// Two pixels of the ink that the bits of a position name, and two bytes more.
#[inline(always)]
fn two_inks(inks: &Inks, line: &Line, x: usize) -> [u8; 8]
    requires { x ≤ 1023 }
    ensures { result ≡ two_pixels (colour_bytes (ink_at inks.now line.now x)) }
{
    inks.two_pixels(inks.name(line.bits(x)))
}

/// Two pixels of the ink that these bits name, and two bytes more.
#[inline(always)]
fn named_twice(inks: &Inks, bits: u8) -> [u8; 8]
    requires { bits < 64 }
    ensures { result ≡ two_pixels (colour_bytes (ink inks.now.palette
        (ink_number inks.now.con0 inks.now.con2 bits))) }
{
    inks.two_pixels(inks.name(bits as usize))
}

/// Puts the four such pixels from a position on, which are paired, into a room with one clock more.
#[inline(always)]
fn put_pairs(room: &mut [u8], at: usize, inks: &Inks, line: &Line, x: usize)
    requires room { at + 24 ≤ length room.old }
    requires place { x ≤ 1020 }
    requires pairs { ArePaired line.now x }
    ensures bytes { take (at + 12) room.new
        ≡ take at room.old ++ flat_map (λ x. x) (ink_pixels inks.now line.now x) }
    ensures size { length room.new ≡ length room.old }
{
    put_eight(room, at, &two_inks(inks, line, x));
    put_eight(room, at + 6, &two_inks(inks, line, x + 2));
}

/// Puts any four such pixels from a position on into a room with one clock more.
#[inline(always)]
fn put_singles(room: &mut [u8], at: usize, inks: &Inks, line: &Line, x: usize)
    requires room { at + 24 ≤ length room.old }
    requires place { x ≤ 1020 }
    ensures bytes { take (at + 12) room.new
        ≡ take at room.old ++ flat_map (λ x. x) (ink_pixels inks.now line.now x) }
    ensures size { length room.new ≡ length room.old }
{
    let bits = line.four_bits(x);
    put_eight(room, at, &named_twice(inks, bits[0]));
    put_eight(room, at + 3, &named_twice(inks, bits[1]));
    put_eight(room, at + 6, &named_twice(inks, bits[2]));
    put_eight(room, at + 9, &named_twice(inks, bits[3]));
}

/// Puts four such pixels, which may be known to be paired, into a room with one clock more.
#[inline(always)]
fn put_clock(room: &mut [u8], at: usize, inks: &Inks, line: &Line, paired: bool, x: usize)
    requires room { at + 24 ≤ length room.old }
    requires place { x ≤ 1020 }
    requires pairs { paired ≡ true → ArePaired line.now x }
    ensures bytes { take (at + 12) room.new
        ≡ take at room.old ++ flat_map (λ x. x) (ink_pixels inks.now line.now x) }
    ensures size { length room.new ≡ length room.old }
{
    if paired {
        put_pairs(room, at, inks, line, x);
    } else {
        put_singles(room, at, inks, line, x);
    }
}

/// The same of so many clocks.
#[inline(always)]
fn put_clocks(
    room: &mut [u8],
    at: usize,
    inks: &Inks,
    line: &Line,
    paired: bool,
    x: usize,
    count: u16,
)
    requires room { at + 12 * count + 12 ≤ length room.old }
    requires place { x + 4 * count ≤ 1024 }
    requires pairs { paired ≡ true → ArePaired line.now x }
    ensures bytes { take (at + 12 * count) room.new ≡ take at room.old
        ++ bytes_of_clocks (λ k. ink_pixels inks.now line.now (x + 4 * k)) count }
    ensures size { length room.new ≡ length room.old }
{
    for clock in 0..count {
        let place = at + 12 * clock as usize;
        put_clock(room, place, inks, line, paired, x + 4 * clock as usize);
    }
}

/// Puts so many clocks of such pixels into a room, from a position on. Behind the last nothing is put.
pub fn put_inks(room: &mut [u8], at: usize, inks: &Inks, line: &Line, x: usize, count: u16)
    requires some { 1 ≤ count }
    requires room { at + 12 * count ≤ length room.old }
    requires place { x + 4 * count ≤ 1024 }
    ensures bytes { take (at + 12 * count) room.new ≡ take at room.old
        ++ bytes_of_clocks (λ k. ink_pixels inks.now line.now (x + 4 * k)) count }
    ensures size { length room.new ≡ length room.old }
{
    let before = count - 1;
    let paired = line.is_paired_from(x);
    if paired {
        put_clocks(room, at, inks, line, true, x, before);
    } else {
        put_clocks(room, at, inks, line, false, x, before);
    }
    let last = ink_clock(inks, line, paired, x + 4 * before as usize);
    put(room, at + 12 * before as usize, &last);
}

/// The four pixels from a position on, inside the display window, in hold-and-modify; the last is held.
#[inline(always)]
fn modified_clock(
    painter: &Painter,
    paired: bool,
    held: Held,
    x: usize,
    into: &mut [[u8; 3]; 4],
) -> Held
    requires place { x ≤ 1020 }
    requires pairs { paired ≡ true → ArePaired painter.now.line x }
    ensures pixels { (colour : ℕ) → IsHeld held colour
        → into.new ≡ modified_pixels painter.now.inks painter.now.line x colour }
    ensures held { (colour : ℕ) → IsHeld held colour
        → IsHeld result (modified_along painter.now.inks painter.now.line x colour 4) }
{
    let second = show_two(painter, paired, held, x, 0, into);
    show_two(painter, paired, second, x + 2, 2, into)
}

/// Puts the four such pixels from a position on, which are paired, into a room with one clock more. The
/// held colour before and behind them is the word of the bytes of two pixels.
#[inline(always)]
fn put_held(room: &mut [u8], at: usize, painter: &Painter, held: u64, x: usize) -> u64
    requires room { at + 24 ≤ length room.old }
    requires place { x ≤ 1020 }
    requires pairs { ArePaired painter.now.line x }
    ensures bytes { (colour : ℕ) → held ≡ colour_word colour → take (at + 12) room.new
        ≡ take at room.old
        ++ flat_map (λ x. x) (modified_pixels painter.now.inks painter.now.line x colour) }
    ensures held { (colour : ℕ) → held ≡ colour_word colour
        → result ≡ colour_word (modified_along painter.now.inks painter.now.line x colour 4) }
    ensures size { length room.new ≡ length room.old }
{
    let inks = &painter.inks;
    let first = modify_word(inks.name(painter.line.bits(x)), held, inks);
    put_eight(room, at, &first.to_le_bytes());
    let second = modify_word(inks.name(painter.line.bits(x + 2)), first, inks);
    put_eight(room, at + 6, &second.to_le_bytes());
    second
}

/// The same of so many clocks.
#[inline(always)]
fn put_held_clocks(
    room: &mut [u8],
    at: usize,
    painter: &Painter,
    held: Held,
    x: usize,
    count: u16,
) -> Held
    requires room { at + 12 * count + 12 ≤ length room.old }
    requires place { x + 4 * count ≤ 1024 }
    requires pairs { ArePaired painter.now.line x }
    ensures bytes { (colour : ℕ) → IsHeld held colour → take (at + 12 * count) room.new
        ≡ take at room.old
        ++ bytes_of_clocks (all_modified painter.now.inks painter.now.line x colour) count }
    ensures held { (colour : ℕ) → IsHeld held colour
        → IsHeld result (modified_along painter.now.inks painter.now.line x colour (4 * count)) }
    ensures size { length room.new ≡ length room.old }
{
    let mut last = word_of(held);
    for clock in 0..count {
        let here = x + 4 * clock as usize;
        last = put_held(room, at + 12 * clock as usize, painter, last, here);
    }
    held_of(last)
}

/// Puts so many clocks of such pixels into a room, from a position on; the last pixel is held. Behind it
/// nothing is put.
#[inline(always)]
pub fn put_modified(
    room: &mut [u8],
    at: usize,
    painter: &Painter,
    held: Held,
    x: usize,
    count: u16,
) -> Held
    requires some { 1 ≤ count }
    requires room { at + 12 * count ≤ length room.old }
    requires place { x + 4 * count ≤ 1024 }
    ensures bytes { (colour : ℕ) → IsHeld held colour → take (at + 12 * count) room.new
        ≡ take at room.old
        ++ bytes_of_clocks (all_modified painter.now.inks painter.now.line x colour) count }
    ensures held { (colour : ℕ) → IsHeld held colour
        → IsHeld result (modified_along painter.now.inks painter.now.line x colour (4 * count)) }
    ensures size { length room.new ≡ length room.old }
{
    if !painter.line.is_paired_from(x) {
        return put_modified_each(room, at, painter, held, x, count);
    }
    let before = count - 1;
    let between = put_held_clocks(room, at, painter, held, x, before);
    let last = x + 4 * before as usize;
    put_modified_each(room, at + 12 * before as usize, painter, between, last, 1)
}

/// The same clock by clock.
#[inline(never)]
fn put_modified_each(
    room: &mut [u8],
    at: usize,
    painter: &Painter,
    held: Held,
    x: usize,
    count: u16,
) -> Held
    requires room { at + 12 * count ≤ length room.old }
    requires place { x + 4 * count ≤ 1024 }
    ensures bytes { (colour : ℕ) → IsHeld held colour → take (at + 12 * count) room.new
        ≡ take at room.old
        ++ bytes_of_clocks (all_modified painter.now.inks painter.now.line x colour) count }
    ensures held { (colour : ℕ) → IsHeld held colour
        → IsHeld result (modified_along painter.now.inks painter.now.line x colour (4 * count)) }
    ensures size { length room.new ≡ length room.old }
{
    let paired = painter.line.is_paired_from(x);
    let mut last = held;
    for clock in 0..count {
        let mut pixels = [[0; 3]; 4];
        let here = x + 4 * clock as usize;
        last = modified_clock(painter, paired, last, here, &mut pixels);
        put(room, at + 12 * clock as usize, &pixels);
    }
    last
}
