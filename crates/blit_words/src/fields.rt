//! Fields of the registers, and addresses.

ghost use Rattle.std.specs.Prelude.{◌≡◌, ◌<◌, ◌≤◌};
ghost use Rattle.ocs_base.specs.Addr.{IsEven};
ghost use Rattle.blit_words.specs.BlitWords.{is_set as bit_is_set};
ghost use Rattle.blit_words.specs.Blit.{height_of, even_part as even_part_of, address_on as address_after};

use crate::blit::BlitRegs;
use ocs_base::Addr;

/// Whether a bit of a word is set.
pub fn is_set(word: u16, place: u16) -> bool
    requires { place < 16 }
    ensures { result ≡ bit_is_set word place }
{
    (word >> place) & 1 == 1
}

/// The height of a blit in rows, or its number of points: bits 15 to 6 of BLTSIZE, 0 meaning 1024.
#[tactic(auto, unfolding(crate::specs::Blit::height_of))]
pub fn height(start: &BlitRegs) -> u16
    ensures value { result ≡ height_of start.now }
    ensures some { 1 ≤ result }
    ensures most { result ≤ 1024 }
{
    let rows = start.size / 64;
    if rows == 0 { 1024 } else { rows }
}

/// A modulo in an address: its bit 0 counts as 0. That is this project's profile.
pub fn even_part(modulo: i16) -> i32
    ensures value { result ≡ even_part_of modulo }
    ensures even { IsEven result }
{
    let wide = modulo as i32;
    wide - wide.rem_euclid(2)
}

/// The address an even number of bytes on, or back, modulo its own span.
pub fn address_on(at: Addr, bytes: i32) -> Addr
    requires { IsEven bytes }
    ensures { result ≡ address_after at bytes }
{
    at.step(bytes)
}
