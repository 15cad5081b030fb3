//! Which ink the bits of the planes name, by BPLCON0 and BPLCON2.

ghost use Rattle.std.specs.Prelude.{◌≡◌, ◌<◌, ◌≤◌, ◌==◌, ◌%◌, ℕ, not, min, slice_index, if◌then◌else◌};
ghost use Rattle.priority_ham.specs.PlaneCount.{is_set};
ghost use Rattle.priority_ham.specs.PixelColour.{dual_number, value_of_one as value_of_one_is, value_of_two as value_of_two_is};
ghost use Rattle.painter.specs.Inks.{ink_number, counted_bits, first_hidden};

use priority_ham::plane_count;

/// The numbers of the inks that the bits of the six planes name.
pub fn names_by(con0: u16, con2: u16) -> [u8; 64]
    ensures { (bits : ℕ) → bits < 64 → slice_index result bits ≡ ink_number con0 con2 bits }
{
    let mut names = [0; 64];
    for bits in 0..64u8 {
        names[bits as usize] = name_of(con0, con2, bits);
    }
    names
}

/// The number of the ink that the bits of the six planes name.
fn name_of(con0: u16, con2: u16, bits: u8) -> u8
    requires { bits < 64 }
    ensures { result ≡ ink_number con0 con2 bits }
{
    let counted = counted_planes(con0, bits);
    if con0 / 0x400 % 2 == 1 {
        dual_name(con2, counted)
    } else {
        counted
    }
}

/// The first pair of sprites that the playfields hide, 4 where they hide none, by the bits of the six
/// planes.
pub fn hidden_by(con0: u16, con2: u16) -> [u8; 64]
    ensures { (bits : ℕ) → bits < 64 → slice_index result bits ≡ first_hidden con0 con2 bits }
{
    let mut hidden = [0; 64];
    for bits in 0..64u8 {
        hidden[bits as usize] = hidden_of(con0, con2, bits);
    }
    hidden
}

/// The first pair of sprites that the playfields hide, 4 for none. A single playfield has the priority
/// code of playfield 2.
fn hidden_of(con0: u16, con2: u16, bits: u8) -> u8
    requires { bits < 64 }
    ensures { result ≡ first_hidden con0 con2 bits }
{
    let counted = counted_planes(con0, bits);
    if con0 / 0x400 % 2 == 0 {
        return behind(counted, con2 / 8);
    }
    let one = value_of_one(counted);
    let two = value_of_two(counted);
    if is_second_in_front(con2, one, two) {
        behind(two, con2 / 8)
    } else {
        behind(one, con2)
    }
}

/// The first pair behind a playfield's pixel of this value, 4 for none: its priority code, the last
/// three bits, of which 5 to 7 count as 4.
fn behind(value: u8, code: u16) -> u8
    ensures { result ≡ (if value == 0 then 4 else min (code % 8) 4) }
{
    if value == 0 {
        4
    } else {
        (code % 8).min(4) as u8
    }
}

/// The bits of the planes that are not above the number of planes.
pub fn counted_planes(con0: u16, bits: u8) -> u8
    requires { bits < 64 }
    ensures { result ≡ counted_bits con0 bits }
{
    if bits == 0 {
        return 0;
    }
    match plane_count(con0) {
        0 => 0,
        1 => bits % 2,
        2 => bits % 4,
        3 => bits % 8,
        4 => bits % 16,
        5 => bits % 32,
        _ => bits,
    }
}

/// The number of the ink that two playfields name.
fn dual_name(con2: u16, bits: u8) -> u8
    ensures { result ≡ dual_number con2 bits }
{
    let one = value_of_one(bits);
    let two = value_of_two(bits);
    if !is_second_in_front(con2, one, two) {
        one
    } else if two == 0 {
        0
    } else {
        8 + two
    }
}

/// The value of playfield 1, of planes 1, 3 and 5.
fn value_of_one(bits: u8) -> u8
    ensures value { result ≡ value_of_one_is bits }
    ensures few { result ≤ 7 }
{
    bits % 2 + 2 * (bits / 4 % 2) + 4 * (bits / 16 % 2)
}

/// The value of playfield 2, of planes 2, 4 and 6.
fn value_of_two(bits: u8) -> u8
    ensures value { result ≡ value_of_two_is bits }
    ensures few { result ≤ 7 }
{
    bits / 2 % 2 + 2 * (bits / 8 % 2) + 4 * (bits / 32 % 2)
}

/// Whether playfield 2 is chosen of two playfields with these values: PF2PRI, bit 6 of BPLCON2.
fn is_second_in_front(con2: u16, one: u8, two: u8) -> bool
    ensures { result ≡ (if is_set 6 con2 then not (two == 0) else (one == 0)) }
{
    if con2 / 64 % 2 == 1 {
        two != 0
    } else {
        one == 0
    }
}
