//! Hold and modify.

ghost use Rattle.std.specs.Prelude.{◌≡◌, ◌<◌, ◌*◌, ◌%◌, ℕ};
ghost use Rattle.priority_ham.specs.PixelColour.{modified};
ghost use Rattle.painter.specs.code.Held.{IsHeld, held_bytes, colour_word};
ghost use Rattle.serial_model.specs.Picture.{colour_bytes};

use crate::components::{kept_by_bits, new_by_bits};
use crate::held::Held;
use crate::inks::Inks;

/// The colour that the bits of a pixel make of the held one: planes 6 and 5 say whether planes 1 to
/// 4 are a colour's number, or the new blue, red or green (Hardware Reference Manual).
#[inline(always)]
pub fn modify(bits: u8, held: Held, inks: &Inks) -> Held
    requires { bits < 64 }
    ensures { (colour : ℕ) → IsHeld held colour
        → IsHeld result (modified bits colour inks.now.palette) }
{
    let component = bits % 16 * 17;
    match bits / 16 {
        0 => hold(&inks.bytes(bits)),
        1 => Held {
            red: held.red,
            green: held.green,
            blue: component,
        },
        2 => Held {
            red: component,
            green: held.green,
            blue: held.blue,
        },
        _ => Held {
            red: held.red,
            green: component,
            blue: held.blue,
        },
    }
}

/// The same for a pixel behind one that named this number before it: the same number makes the same
/// colour of the held one, and so nothing new of it.
#[inline(always)]
pub fn modify_again(before: u8, bits: u8, held: Held, inks: &Inks) -> Held
    requires before { before < 64 }
    requires bits { bits < 64 }
    ensures { (colour : ℕ) → IsHeld held (modified before colour inks.now.palette)
        → IsHeld result (modified bits (modified before colour inks.now.palette)
        inks.now.palette) }
{
    if bits == before {
        held
    } else {
        modify(bits, held, inks)
    }
}

/// A colour to be held.
#[inline(always)]
pub fn hold(bytes: &[u8; 3]) -> Held
    ensures { (colour : ℕ) → bytes.now ≡ colour_bytes colour → IsHeld result colour }
{
    let [red, green, blue] = *bytes;
    Held { red, green, blue }
}

/// The bytes of the held colour.
#[inline(always)]
pub fn bytes_of(held: Held) -> [u8; 3]
    ensures { result ≡ held_bytes held }
{
    [held.red, held.green, held.blue]
}

/// The same of a held colour that is the word of the bytes of two pixels.
#[inline(always)]
pub fn modify_word(bits: u8, held: u64, inks: &Inks) -> u64
    requires { bits < 64 }
    ensures { (colour : ℕ) → held ≡ colour_word colour
        → result ≡ colour_word (modified bits colour inks.now.palette) }
{
    if bits < 16 {
        return u64::from_le_bytes(inks.two_pixels(bits));
    }
    (held & kept_by_bits(bits)) + new_by_bits(bits)
}

/// The word of the bytes of two pixels of a held colour.
#[inline(always)]
pub fn word_of(held: Held) -> u64
    ensures { (colour : ℕ) → IsHeld held colour → result ≡ colour_word colour }
{
    (held.red as u64 + held.green as u64 * 0x100 + held.blue as u64 * 0x1_0000) * 0x100_0001
}

/// The held colour of which a word has the bytes of two pixels.
#[inline(always)]
pub fn held_of(word: u64) -> Held
    ensures { (colour : ℕ) → word ≡ colour_word colour → IsHeld result colour }
{
    Held {
        red: (word % 0x100) as u8,
        green: (word / 0x100 % 0x100) as u8,
        blue: (word / 0x1_0000 % 0x100) as u8,
    }
}
