//! Inks: the colours that the bits of the planes name, as bytes.

ghost use Rattle.std.specs.Prelude.{◌≡◌, ◌≤◌, ◌<◌, ◌%◌, ◌/◌, ℕ, List, length, slice_index, slice_set};
ghost use Rattle.serial_model.specs.Picture.{colour_bytes};
ghost use Rattle.painter.specs.Inks.{ink, ink_number, counted_bits, halved, is_held, backdrop};
ghost use Rattle.painter.specs.Inks.{two_pixels};
ghost use Rattle.priority_ham.specs.PixelColour.{hides};

use crate::names::{hidden_by, names_by};
use std::marker::Model;

/// The registers that give the playfields' pixels their colours, with tables of what they say.
///
/// Ink n below 32 is the colour of COLOR00 to COLOR31, and ink 32 + n that colour halved.
#[derive(Drop)]
pub struct Inks {
    palette: [u16; 32],
    con0: u16,
    con2: u16,
    /// The bytes of two pixels of each ink, and two more, so that they are put as one word.
    doubled: [[u8; 8]; 64],
    names: [u8; 64],
    /// By the bits of the planes: the first pair of sprites that they hide, 4 for none.
    hidden: [u8; 64],
}

impl Model for Inks {
    ghost use Rattle.painter.specs.Inks.{InkRegisters, HasTables};

    ghost Value = { InkRegisters };

    ghost view = { λ s. record { palette = s.palette; con0 = s.con0; con2 = s.con2 } };

    ghost invariant = { λ s. HasTables s.palette s.con0 s.con2 s.doubled s.names s.hidden };
}

impl Inks {
    ghost use Rattle.painter.specs.Inks.{black};

    /// The registers at reset: all are 0, and so every ink is black.
    pub fn reset() -> Inks
        ensures { result ≡ black }
    {
        Inks {
            palette: [0; 32],
            con0: 0,
            con2: 0,
            doubled: [[0; 8]; 64],
            names: [0; 64],
            hidden: [4; 64],
        }
    }

    /// The registers with these values.
    pub fn of_registers(palette: &[u16; 32], con0: u16, con2: u16) -> Inks
        ensures { result ≡ record { palette = palette.now; con0 = con0; con2 = con2 } }
    {
        let mut inks = Inks::reset();
        inks.set_controls(con0, con2);
        for number in 0..32 {
            inks.put_colour(number, palette[number]);
        }
        inks
    }

    /// A write to one of COLOR00 to COLOR31, which keeps bits 11 to 0.
    pub fn set_colour(&mut self, number: usize, word: u16)
        requires { number < 32 }
        ensures { self.new ≡ record self.old {
          palette = slice_set self.old.palette number (word % 4096);
        } }
    {
        self.put_colour(number, word % 0x1000);
    }

    /// One of COLOR00 to COLOR31 becomes a colour.
    fn put_colour(&mut self, number: usize, colour: u16)
        requires { number < 32 }
        ensures { self.new ≡ record self.old {
          palette = slice_set self.old.palette number colour;
        } }
    {
        self.palette[number] = colour;
        let two = twice(colour);
        let half = twice(half_of(colour));
        self.doubled[number] = two;
        self.doubled[number + 32] = half;
    }

    /// A write to BPLCON0.
    pub fn set_con0(&mut self, word: u16)
        ensures { self.new ≡ record self.old { con0 = word } }
    {
        self.set_controls(word, self.con2);
    }

    /// A write to BPLCON2.
    pub fn set_con2(&mut self, word: u16)
        ensures { self.new ≡ record self.old { con2 = word } }
    {
        self.set_controls(self.con0, word);
    }

    /// BPLCON0 and BPLCON2 become these.
    fn set_controls(&mut self, con0: u16, con2: u16)
        ensures { self.new ≡ record self.old { con0 = con0; con2 = con2 } }
    {
        self.con0 = con0;
        self.con2 = con2;
        self.names = names_by(con0, con2);
        self.hidden = hidden_by(con0, con2);
    }

    /// COLOR00 to COLOR31.
    pub fn palette(&self) -> &[u16; 32]
        ensures { result.now ≡ self.now.palette }
    {
        &self.palette
    }

    /// BPLCON0.
    pub fn con0(&self) -> u16
        ensures { result ≡ self.now.con0 }
    {
        self.con0
    }

    /// BPLCON2.
    pub fn con2(&self) -> u16
        ensures { result ≡ self.now.con2 }
    {
        self.con2
    }

    /// Whether a pixel may hold the colour of the pixel before: HOMOD, with neither two playfields
    /// nor high resolution.
    pub fn holds_colour(&self) -> bool
        ensures { result ≡ is_held self.now.con0 }
    {
        self.con0 / 0x800 % 2 == 1 && self.con0 / 0x400 % 2 == 0 && self.con0 / 0x8000 == 0
    }

    /// The number of the ink that the bits of the six planes name.
    pub fn name(&self, bits: usize) -> u8
        requires { bits < 64 }
        ensures value { result ≡ ink_number self.now.con0 self.now.con2 bits }
        ensures few { result < 64 }
    {
        self.names[bits]
    }

    /// Whether a pixel of the playfields, by the bits of the six planes, hides a pair of sprites.
    #[inline(always)]
    pub fn hides(&self, bits: usize, pair: u8) -> bool
        requires planes { bits < 64 }
        requires four { pair ≤ 3 }
        ensures { result ≡ hides self.now.con0 self.now.con2
            (counted_bits self.now.con0 bits) pair }
    {
        self.hidden[bits] <= pair
    }

    /// Four pixels of COLOR00.
    #[inline(always)]
    pub fn backdrop(&self) -> [[u8; 3]; 4]
        ensures { result ≡ backdrop self.now.palette }
    {
        [self.bytes(0); 4]
    }

    /// The bytes of two pixels of COLOR00, and two more.
    #[inline(always)]
    pub fn backdrop_twice(&self) -> &[u8; 8]
        ensures { result.now ≡ two_pixels (colour_bytes (slice_index self.now.palette 0)) }
    {
        &self.doubled[0]
    }

    /// The bytes of two pixels of an ink, and two more.
    #[inline(always)]
    pub fn two_pixels(&self, number: u8) -> [u8; 8]
        requires { number < 64 }
        ensures { result ≡ two_pixels (colour_bytes (ink self.now.palette number)) }
    {
        self.doubled[number as usize]
    }

    /// The bytes of an ink.
    #[inline(always)]
    pub fn bytes(&self, number: u8) -> [u8; 3]
        requires { number < 64 }
        ensures { result ≡ colour_bytes (ink self.now.palette number) }
    {
        one_of(&self.doubled[number as usize])
    }
}

/// The bytes of a colour: red, green and blue, a component c being the byte 17c.
pub fn bytes_of(colour: u16) -> [u8; 3]
    ensures { result ≡ colour_bytes colour }
{
    [
        (colour / 256 % 16) as u8 * 17,
        (colour / 16 % 16) as u8 * 17,
        (colour % 16) as u8 * 17,
    ]
}

/// The bytes of two pixels of a colour, and two more.
#[inline(always)]
fn twice(colour: u16) -> [u8; 8]
    ensures { result ≡ two_pixels (colour_bytes colour) }
{
    let colour = colour as u64;
    let components = colour / 256 % 16 + colour / 16 % 16 * 0x100 + colour % 16 * 0x1_0000;
    (components * 17 * 0x100_0001).to_le_bytes()
}

/// The bytes of the first of two pixels.
#[inline(always)]
fn one_of(two: &[u8; 8]) -> [u8; 3]
    ensures { (bytes : List ℕ) → length bytes ≡ 3 → two.now ≡ two_pixels bytes → result ≡ bytes }
{
    let [red, green, blue, _, _, _, _, _] = *two;
    [red, green, blue]
}

/// The colour that has these bytes.
pub fn colour_of(bytes: &[u8; 3]) -> u16
    ensures { (colour : ℕ) → colour ≤ 4095 → bytes.now ≡ colour_bytes colour → result ≡ colour }
{
    let [red, green, blue] = *bytes;
    (red / 17) as u16 * 256 + (green / 17) as u16 * 16 + (blue / 17) as u16
}

/// A colour with each component halved.
fn half_of(colour: u16) -> u16
    ensures { result ≡ halved colour }
{
    colour / 512 % 8 * 256 + colour / 32 % 8 * 16 + colour / 2 % 8
}
