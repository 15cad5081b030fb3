//! The rows of a line's sprite pixels.

ghost use Rattle.std.specs.Prelude.{
  ◌≡◌,
  ◌≢◌,
  ◌≤◌,
  ◌<◌,
  ◌+◌,
  ℕ,
  List,
  Option,
  Some,
  None,
  IfSome,
  bit_or,
  false,
  max,
  replicate,
  slice_index,
  slice_set,
};
ghost use Rattle.sprites.specs.declared.runs.Start.{Start};
ghost use Rattle.sprites.specs.SpriteFront.{front_pixel};
ghost use Rattle.sprite_rows.specs.Laid.{byte_of};
ghost use Rattle.sprite_rows.specs.PairCollision.{present_pairs};
ghost use Rattle.collisions.specs.Collision.{collision_bits};

use crate::collision::{present_in, reach_of};
use crate::front::pixel_in_front;
use crate::laying::lay;
use crate::words::values_of_words;
use sprites::SpritePixel;

/// What the eight sprites show along a line (Hardware Reference Manual, sprite hardware).
///
/// Positions are low-resolution pixels from the line's begin, 0 to 453 on a line of 227 clocks. A
/// sprite's words are laid over its pair's row as they begin to run, so a position takes a byte of
/// each pair. A row reaches past the line's end, so that words that begin at its last position find
/// room.
#[derive(Drop)]
pub struct SpriteRows {
    /// A row for each pair. A byte of pair p has the value of its even sprite, 2p, as bits 0 and 1,
    /// and that of its odd one, 2p + 1, as bits 2 and 3: the one value of an attached pair.
    pairs: [[u8; 512]; 4],
    /// From here on nothing is laid.
    end: usize,
    /// The same for each pair.
    ends: [u16; 4],
    pub ghost few: { (p x : ℕ) → byte_of pairs p x ≤ 15 },
    pub ghost within: { end ≤ 512 },
    pub ghost blank: { (p x : ℕ) → end ≤ x → byte_of pairs p x ≡ 0 },
    pub ghost ended: { (p x : ℕ) → p < 4 → slice_index ends p ≤ x → byte_of pairs p x ≡ 0 },
}

impl SpriteRows {
    ghost use Rattle.sprite_rows.specs.LineValues.{
      pair_byte,
      values_at,
      StartsBy,
      SpriteStartsBy,
      IsRowsOf,
    };

    /// Rows on which no words run, as at a line's start.
    pub fn new() -> SpriteRows
        ensures rows { IsRowsOf 0 result (replicate 8 None) }
        ensures end { result.end ≡ 0 }
    {
        SpriteRows {
            pairs: [[0; 512]; 4],
            end: 0,
            ends: [0; 4],
        }
    }

    /// No words run any more, as at a line's start. Where none was laid this does nothing.
    pub fn clear(&mut self)
        ensures rows { IsRowsOf 0 self.new (replicate 8 None) }
        ensures end { self.new.end ≡ 0 }
    {
        if self.end > 0 {
            self.pairs = [[0; 512]; 4];
            self.end = 0;
            self.ends = [0; 4];
        }
    }

    /// The words of sprite `sprite`, 0 to 7, begin to run at position `x`, DATA as `word_a` and
    /// DATB as `word_b`: they show sixteen pixels, and hide the rest of the sprite's earlier words
    /// (this project's profile).
    pub fn start(&mut self, sprite: u8, x: u16, word_a: u16, word_b: u16)
        requires sprite { sprite < 8 }
        requires room { x ≤ 496 }
        ensures here { (runs : List (Option Start)) → StartsBy x runs → IsRowsOf x self.old runs →
            IsRowsOf x self.new (slice_set runs sprite
            (Some (record { x = x; word_a = word_a; word_b = word_b }))) }
        // the same from a later position on, where other sprites may have started after this one
        ensures later { (from : ℕ) → (runs : List (Option Start)) → x ≤ from →
            SpriteStartsBy sprite x runs → IsRowsOf from self.old runs →
            IsRowsOf from self.new (slice_set runs sprite
            (Some (record { x = x; word_a = word_a; word_b = word_b }))) }
        ensures end { self.new.end ≡ max self.old.end (x + 16) }
    {
        let values = values_of_words(word_a, word_b);
        let pair = (sprite / 2) as usize;
        let row = &mut self.pairs[pair];
        lay(row, sprite % 2 == 0, x as usize, values.as_flattened());
        self.ends[pair] = self.ends[pair].max(x + 16);
        self.end = self.end.max(x as usize + 16);
    }

    /// The pixel of the sprite in front at position `x`, None where no sprite shows: lower-numbered
    /// sprites are in front (Hardware Reference Manual, sprite hardware).
    ///
    /// Bit p of `attached`, p from 0 to 3, says that pair p is attached (bit 7 of SPRnCTL of its
    /// odd sprite).
    #[inline(always)]
    pub fn front(&self, x: u16, attached: u8) -> Option<SpritePixel>
        requires { x ≤ 511 }
        ensures value { (runs : List (Option Start)) → IsRowsOf x self.now runs →
            result ≡ front_pixel (values_at x runs) attached }
        ensures within { IfSome result (λ s. (s.pair ≤ 3) × (s.colour ≤ 31)) }
    {
        let at = x as usize;
        pixel_in_front(
            self.pairs[0][at],
            self.pairs[1][at],
            self.pairs[2][at],
            self.pairs[3][at],
            attached,
        )
    }

    /// The byte of a pair at position `x`: the value of its even sprite as bits 0 and 1, and that of its
    /// odd one as bits 2 and 3.
    #[inline(always)]
    pub fn byte(&self, x: u16, pair: u8) -> u8
        requires room { x ≤ 511 }
        requires pair { pair ≤ 3 }
        ensures value { (runs : List (Option Start)) → IsRowsOf x self.now runs →
            result ≡ pair_byte x runs pair }
        ensures few { result ≤ 15 }
    {
        self.pairs[pair as usize][x as usize]
    }

    /// The bytes of a pair, by position: the value of its even sprite as bits 0 and 1, and that of its odd
    /// one as bits 2 and 3.
    #[inline(always)]
    pub fn row(&self, pair: u8) -> &[u8; 512]
        requires { pair ≤ 3 }
        ensures value { (from x : ℕ) → (runs : List (Option Start)) → IsRowsOf from self.now runs →
            from ≤ x → x ≤ 511 → slice_index result.now x ≡ pair_byte x runs pair }
        ensures few { (x : ℕ) → slice_index result.now x ≤ 15 }
    {
        &self.pairs[pair as usize]
    }

    /// The one pair that may show at position `x` or behind it, 4 where more than one may.
    #[inline(always)]
    pub fn lone_from(&self, x: u16) -> u8
        ensures { result ≤ 3 → (q y : ℕ) → q < 4 → q ≢ result → x ≤ y
            → byte_of self.now.pairs q y ≡ 0 }
    {
        let [a, b, c, d] = self.ends;
        lone_of(x < a, x < b, x < c, x < d)
    }

    /// Which pairs are present at position `x` for collisions, pair p as bit p: by its even sprite,
    /// or by its odd one where `clxcon`, CLXCON, counts it (Hardware Reference Manual, collision
    /// detection: ENSP, bits 12 to 15).
    pub fn present(&self, x: u16, clxcon: u16) -> u8
        requires { x ≤ 511 }
        ensures value { (runs : List (Option Start)) → IsRowsOf x self.now runs →
            result ≡ present_pairs clxcon (values_at x runs) }
        ensures few { result < 16 }
    {
        let at = x as usize;
        present_in(
            self.pairs[0][at],
            self.pairs[1][at],
            self.pairs[2][at],
            self.pairs[3][at],
            clxcon,
        )
    }

    /// The collision bits that a pixel at position `x` has at most, whatever its planes show and
    /// CLXCON says, in the places of CLXDAT.
    #[inline(always)]
    pub fn reach(&self, x: u16) -> u16
        requires { x ≤ 511 }
        ensures { (runs : List (Option Start)) → IsRowsOf x self.now runs → (con bits : ℕ) →
            bit_or result (collision_bits con bits (values_at x runs)) ≡ result }
    {
        let at = x as usize;
        reach_of(
            self.pairs[0][at],
            self.pairs[1][at],
            self.pairs[2][at],
            self.pairs[3][at],
        )
    }

    /// The collision bits that a pixel at position `x` or behind it has at most, whatever its planes
    /// show and CLXCON says, in the places of CLXDAT.
    #[inline(always)]
    pub fn reach_from(&self, x: u16) -> u16
        ensures { (y : ℕ) → (runs : List (Option Start)) → x ≤ y → y < 512 →
            IsRowsOf y self.now runs → (con bits : ℕ) →
            bit_or result (collision_bits con bits (values_at y runs)) ≡ result }
    {
        let [a, b, c, d] = self.ends;
        reach_of((x < a) as u8, (x < b) as u8, (x < c) as u8, (x < d) as u8)
    }
}

/// The pair that may show of four, if no other may, 4 where more than one may.
fn lone_of(a: bool, b: bool, c: bool, d: bool) -> u8
    ensures a { result ≤ 3 → 0 ≢ result → a ≡ false }
    ensures b { result ≤ 3 → 1 ≢ result → b ≡ false }
    ensures c { result ≤ 3 → 2 ≢ result → c ≡ false }
    ensures d { result ≤ 3 → 3 ≢ result → d ≡ false }
{
    if a {
        return if b || c || d { 4 } else { 0 };
    }
    if b {
        return if c || d { 4 } else { 1 };
    }
    if c && d {
        4
    } else if c {
        2
    } else {
        3
    }
}
