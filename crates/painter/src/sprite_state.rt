//! The sprites' registers, and the words that run on a line.

ghost use Rattle.std.specs.Prelude.{◌≡◌, ◌≢◌, ◌≤◌, ◌<◌, ◌+◌, ◌-◌, ◌*◌, ◌/◌, ◌%◌, ◌^◌, ℕ, None, true, false, bit_and};
ghost use Rattle.std.specs.Prelude.{bit_or, length, replicate, slice_index, slice_set, IfSome};
ghost use Rattle.std.specs.List.{All};
ghost use Rattle.serial_model.specs.Picture.{sprite_values};
ghost use Rattle.sprite_rows.specs.LineValues.{pair_byte};
ghost use Rattle.sprites.specs.SpriteFront.{front_pixel as pixel_of_front};
ghost use Rattle.collisions.specs.Collision.{collision_bits};
ghost use Rattle.painter.specs.code.SpriteState.{
  run_in,
  runs_in,
  quiet_or,
  words_begun,
  has_start,
  has_start_at,
  starts_in,
  is_known_idle,
  attached_in,
};
ghost use Rattle.painter.specs.code.Starts.{IsIdle, IsSteady, IsAlone};

use collisions::{clx, playfields};
use serial_model::Denise;
use sprite_rows::{SpriteRows, collisions};
use sprites::{Runs, SpritePixel, front};
use std::marker::Model;

/// The registers of the eight sprites, with the words of each that run on the line.
///
/// Columns are low-resolution positions from the line's begin, two a clock.
#[derive(Drop)]
pub struct SpriteState {
    /// SPR0POS to SPR7POS, and so for CTL, DATA and DATB.
    pos: [u16; 8],
    ctl: [u16; 8],
    words_a: [u16; 8],
    words_b: [u16; 8],
    /// Which sprites are armed: bit n is set for sprite n.
    armed: u8,
    /// The words that run.
    runs: Runs,
    /// From this column on none of them shows a bit, if it is below 512.
    quiet_from: u16,
    /// Their pixels by position, from one column on. At 512 nothing is known of the words.
    rows: SpriteRows,
    exact_from: u16,
}

impl Model for SpriteState {
    ghost use Rattle.painter.specs.code.SpriteState.{SpriteRegisters, IsLaidOut};

    ghost Value = { SpriteRegisters };

    ghost view = { λ s. record {
      pos = s.pos;
      ctl = s.ctl;
      words_a = s.words_a;
      words_b = s.words_b;
      armed = s.armed;
      runs = s.runs;
      quiet_from = s.quiet_from;
    } };

    ghost invariant = { λ s. IsLaidOut s.quiet_from s.exact_from s.rows s.runs };
}

impl SpriteState {
    ghost use Rattle.painter.specs.code.SpriteState.{no_sprites};

    /// The registers at reset: all are 0, and no words run.
    pub fn reset() -> SpriteState
        ensures { result ≡ no_sprites }
    {
        SpriteState {
            pos: [0; 8],
            ctl: [0; 8],
            words_a: [0; 8],
            words_b: [0; 8],
            armed: 0,
            runs: Runs::new(),
            quiet_from: 0,
            rows: SpriteRows::new(),
            exact_from: 0,
        }
    }

    /// The registers of a picture state, on a line where no words run yet.
    pub fn of_registers(d: &Denise) -> SpriteState
        ensures { result ≡ record {
          pos = d.now.pos;
          ctl = d.now.ctl;
          words_a = d.now.words_a;
          words_b = d.now.words_b;
          armed = d.now.armed;
          runs = replicate 8 None;
          quiet_from = 0;
        } }
    {
        SpriteState {
            pos: d.pos,
            ctl: d.ctl,
            words_a: d.words_a,
            words_b: d.words_b,
            armed: d.armed,
            runs: Runs::new(),
            quiet_from: 0,
            rows: SpriteRows::new(),
            exact_from: 0,
        }
    }

    /// The words that run become these, of which nothing is known: up to the line's end each pixel
    /// is looked up in them.
    pub fn set_runs(&mut self, runs: Runs)
        requires { length runs ≡ 8 }
        ensures { self.new ≡ record self.old { runs = runs; quiet_from = 512 } }
    {
        self.runs = runs;
        self.quiet_from = 512;
        self.exact_from = 512;
    }

    /// SPR0POS to SPR7POS.
    pub fn pos(&self) -> &[u16; 8]
        ensures { result.now ≡ self.now.pos }
    {
        &self.pos
    }

    /// SPR0CTL to SPR7CTL.
    pub fn ctl(&self) -> &[u16; 8]
        ensures { result.now ≡ self.now.ctl }
    {
        &self.ctl
    }

    /// SPR0DATA to SPR7DATA.
    pub fn words_a(&self) -> &[u16; 8]
        ensures { result.now ≡ self.now.words_a }
    {
        &self.words_a
    }

    /// SPR0DATB to SPR7DATB.
    pub fn words_b(&self) -> &[u16; 8]
        ensures { result.now ≡ self.now.words_b }
    {
        &self.words_b
    }

    /// Which sprites are armed: bit n is set for sprite n.
    pub fn armed(&self) -> u8
        ensures { result ≡ self.now.armed }
    {
        self.armed
    }

    /// The words that run.
    pub fn runs(&self) -> Runs
        ensures { result ≡ self.now.runs }
    {
        self.runs
    }

    /// A write to SPRxPOS.
    pub fn set_position(&mut self, sprite: usize, word: u16)
        requires { sprite < 8 }
        ensures { self.new ≡ record self.old { pos = slice_set self.old.pos sprite word } }
    {
        self.pos[sprite] = word;
    }

    /// A write to SPRxCTL, which disarms the sprite.
    pub fn set_control(&mut self, sprite: usize, word: u16)
        requires { sprite < 8 }
        ensures { self.new ≡ record self.old {
          ctl = slice_set self.old.ctl sprite word;
          armed = bit_and self.old.armed (255 - 2 ^ sprite);
        } }
    {
        self.ctl[sprite] = word;
        self.armed &= !(1 << sprite);
    }

    /// A write to SPRxDATA, which arms the sprite.
    pub fn set_data(&mut self, sprite: usize, word: u16)
        requires { sprite < 8 }
        ensures { self.new ≡ record self.old {
          words_a = slice_set self.old.words_a sprite word;
          armed = bit_or self.old.armed (2 ^ sprite);
        } }
    {
        self.words_a[sprite] = word;
        self.armed |= 1 << sprite;
    }

    /// A write to SPRxDATB.
    pub fn set_second_data(&mut self, sprite: usize, word: u16)
        requires { sprite < 8 }
        ensures { self.new ≡ record self.old {
          words_b = slice_set self.old.words_b sprite word;
        } }
    {
        self.words_b[sprite] = word;
    }

    /// Forgets the words that run, as a line's start does.
    pub fn clear(&mut self)
        ensures { self.new ≡ record self.old { runs = replicate 8 None; quiet_from = 0 } }
    {
        self.runs = Runs::new();
        self.quiet_from = 0;
        self.rows.clear();
        self.exact_from = 0;
    }

    /// The words of each sprite begin to run whose HSTART is this column, where it is armed: bits 7
    /// to 0 of SPRxPOS, with bit 0 of SPRxCTL as the lowest (this project's profile).
    pub fn begin_words(&mut self, column: u16)
        requires { column ≤ 455 }
        ensures { self.new ≡ words_begun column self.old }
    {
        if self.armed == 0 || !self.may_begin_at(column) {
            return;
        }
        let starts = self.starts();
        for sprite in 0..8 {
            if starts[sprite as usize] == column {
                self.begin_words_of(sprite, column);
            }
        }
    }

    /// HSTART of each sprite, armed or not.
    #[inline(always)]
    fn starts(&self) -> [u16; 8]
        ensures { result ≡ starts_in self.now }
    {
        let [a, b, c, d, e, f, g, i] = self.pos;
        let [j, k, l, m, n, o, p, q] = self.ctl;
        [
            2 * (a % 256) + j % 2,
            2 * (b % 256) + k % 2,
            2 * (c % 256) + l % 2,
            2 * (d % 256) + m % 2,
            2 * (e % 256) + n % 2,
            2 * (f % 256) + o % 2,
            2 * (g % 256) + p % 2,
            2 * (i % 256) + q % 2,
        ]
    }

    /// The words of a sprite begin to run if its HSTART is this column, and it is armed.
    fn begin_words_of(&mut self, sprite: u8, column: u16)
        requires sprite { sprite < 8 }
        requires place { column ≤ 455 }
        ensures { self.new ≡ record self.old {
          runs = slice_set self.old.runs sprite (run_in column self.old sprite);
          quiet_from = quiet_or column self.old sprite self.old.quiet_from;
        } }
    {
        let at = sprite as usize;
        let start = 2 * (self.pos[at] % 256) + self.ctl[at] % 2;
        if self.armed >> sprite & 1 == 1 && start == column {
            self.runs
                .start(sprite, column, self.words_a[at], self.words_b[at]);
            self.quiet_from = self.quiet_from.max(column + 16);
            if column < self.exact_from {
                self.exact_from = 512;
            } else {
                self.exact_from = column;
                self.rows
                    .start(sprite, column, self.words_a[at], self.words_b[at]);
            }
        }
    }

    /// Whether it is known that no words begin at this clock, and none shows a bit from it on.
    #[inline(always)]
    pub fn is_idle(&self, h: u16) -> bool
        requires { h ≤ 227 }
        ensures known { result ≡ is_known_idle h self.now }
        ensures idle { result ≡ true → IsIdle h self.now }
    {
        self.quiet_from <= 2 * h && (self.armed == 0 || !self.may_begin(h))
    }

    /// How many clocks from `h` on, at most so many, are known to be steady: no words begin there, so
    /// that those that run stay. The words have begun whose HSTART is the first column of the first. Only
    /// speed hangs on where that is not known.
    pub fn begun_clocks(&self, h: u16, count: u16) -> u16
        requires place { h + count ≤ 228 }
        requires some { 1 ≤ count }
        requires begun { runs_in (2 * h) self.now ≡ self.now.runs }
        ensures most { result ≤ count }
        ensures steady { (k : ℕ) → k < result → IsSteady (h + k) self.now }
    {
        if self.may_begin_at(2 * h + 1) {
            return 0;
        }
        1 + self.clocks_before_start(h + 1, count - 1)
    }

    /// How many clocks from `h` on there are in which words that have begun may still show.
    pub fn clocks_running(&self, h: u16) -> u16
        ensures { result ≡ self.now.quiet_from / 2 + 1 - h }
    {
        (self.quiet_from / 2 + 1).saturating_sub(h)
    }

    /// How many clocks from `h` on, at most so many, are known to be idle: no words begin there, and
    /// none shows a bit.
    pub fn idle_clocks(&self, h: u16, count: u16) -> u16
        requires { h + count ≤ 228 }
        ensures most { result ≤ count }
        ensures idle { (k : ℕ) → k < result → IsIdle (h + k) self.now }
    {
        if 2 * h < self.quiet_from {
            return 0;
        }
        if self.armed == 0 {
            return count;
        }
        self.clocks_before_start(h, count)
    }

    /// How many clocks from `h` on, at most so many, come before each HSTART that is not before them,
    /// of a sprite that is armed or not.
    fn clocks_before_start(&self, h: u16, count: u16) -> u16
        requires { h + count ≤ 228 }
        ensures most { result ≤ count }
        ensures before { (sprite k : ℕ) → sprite < 8 → k < result
            → slice_index self.now.pos sprite % 256 ≢ h + k }
    {
        let mut least = count;
        for sprite in 0..8 {
            least = clocks_before(self.pos[sprite] % 256, h, least);
        }
        least
    }

    /// Whether a sprite, armed or not, has its HSTART at this clock.
    #[inline(always)]
    fn may_begin(&self, h: u16) -> bool
        ensures { result ≡ has_start h self.now }
    {
        let [a, b, c, d, e, f, g, i] = self.pos;
        (a % 256 == h)
            | (b % 256 == h)
            | (c % 256 == h)
            | (d % 256 == h)
            | (e % 256 == h)
            | (f % 256 == h)
            | (g % 256 == h)
            | (i % 256 == h)
    }

    /// Whether a sprite, armed or not, has its HSTART at this column.
    #[inline(always)]
    fn may_begin_at(&self, column: u16) -> bool
        ensures { result ≡ has_start_at column self.now }
    {
        let [a, b, c, d, e, f, g, i] = self.pos;
        let [j, k, l, m, n, o, p, q] = self.ctl;
        (2 * (a % 256) + j % 2 == column)
            | (2 * (b % 256) + k % 2 == column)
            | (2 * (c % 256) + l % 2 == column)
            | (2 * (d % 256) + m % 2 == column)
            | (2 * (e % 256) + n % 2 == column)
            | (2 * (f % 256) + o % 2 == column)
            | (2 * (g % 256) + p % 2 == column)
            | (2 * (i % 256) + q % 2 == column)
    }

    /// The pixel of the sprite in front at a column, None where no sprite shows (Hardware Reference
    /// Manual, sprite hardware), where these pairs are attached, pair p as bit p.
    #[inline(always)]
    pub fn front_pixel(&self, column: u16, attached: u8) -> Option<SpritePixel>
        requires { column ≤ 455 }
        ensures value { result ≡ pixel_of_front (sprite_values column self.now.runs) attached }
        ensures within { IfSome result (λ s. (s.pair ≤ 3) × (s.colour ≤ 31)) }
    {
        if column < self.exact_from {
            front(&self.values(column), attached)
        } else {
            self.rows.front(column, attached)
        }
    }

    /// The one pair that may show at a column or behind it, 4 where more than one may, or where that is
    /// not known.
    #[inline(always)]
    pub fn lone_from(&self, column: u16) -> u8
        ensures { result ≤ 3 → IsAlone column result self.now.runs }
    {
        if column < self.exact_from {
            return 4;
        }
        self.rows.lone_from(column)
    }

    /// The values of a pair's two sprites at a column, that of the odd one four times.
    #[inline(always)]
    pub fn pair_byte(&self, column: u16, pair: u8) -> u8
        requires place { column ≤ 455 }
        requires pair { pair ≤ 3 }
        ensures value { result ≡ pair_byte column self.now.runs pair }
        ensures few { result ≤ 15 }
    {
        if column < self.exact_from {
            return self.running_byte(column, pair);
        }
        self.rows.byte(column, pair)
    }

    /// The bytes of a pair, by column, where they are known from a column on.
    #[inline(always)]
    pub fn row_from(&self, column: u16, pair: u8) -> Option<&[u8; 512]>
        requires { pair ≤ 3 }
        ensures value { IfSome result (λ row. (x : ℕ) → column ≤ x → x ≤ 455
            → slice_index row.now x ≡ pair_byte x self.now.runs pair) }
        ensures few { IfSome result (λ row. (x : ℕ) → slice_index row.now x ≤ 15) }
    {
        if column < self.exact_from {
            return None;
        }
        Some(self.rows.row(pair))
    }

    /// The same, looked up in the words that run.
    fn running_byte(&self, column: u16, pair: u8) -> u8
        requires place { column ≤ 455 }
        requires pair { pair ≤ 3 }
        ensures value { result ≡ pair_byte column self.now.runs pair }
        ensures few { result ≤ 15 }
    {
        4 * self.runs.value(2 * pair + 1, column) + self.runs.value(2 * pair, column)
    }

    /// The collision bits of a pixel of a column inside the display window, by CLXCON and the bits
    /// of its planes, in the places of CLXDAT (Hardware Reference Manual, collision detection).
    #[inline(always)]
    pub fn collisions(&self, column: u16, clxcon: u16, bits: u8) -> u16
        requires { column ≤ 455 }
        ensures { result ≡ collision_bits clxcon bits (sprite_values column self.now.runs) }
    {
        if column < self.exact_from {
            return clx(clxcon, bits, &self.values(column));
        }
        let (one, two) = playfields(clxcon, bits);
        let worth = 2 * one as u16 + 32 * two as u16;
        let present = self.rows.present(column, clxcon);
        collisions((one & two) as u16, worth, present)
    }

    /// The collision bits that a pixel of a column has at most, whatever its planes show and CLXCON
    /// says, in the places of CLXDAT.
    #[inline(always)]
    pub fn reach(&self, column: u16) -> u16
        requires { column ≤ 455 }
        ensures { (con bits : ℕ) → bit_or result
            (collision_bits con bits (sprite_values column self.now.runs)) ≡ result }
    {
        if column < self.exact_from {
            return 0x7fff;
        }
        self.rows.reach(column)
    }

    /// The same of each pixel from a column on.
    #[inline(always)]
    pub fn reach_from(&self, column: u16) -> u16
        ensures { (x con bits : ℕ) → column ≤ x → x ≤ 455 → bit_or result
            (collision_bits con bits (sprite_values x self.now.runs)) ≡ result }
    {
        if column < self.exact_from {
            return 0x7fff;
        }
        self.rows.reach_from(column)
    }

    /// The values of the eight sprites at a column.
    fn values(&self, column: u16) -> [u8; 8]
        ensures values { result ≡ sprite_values column self.now.runs }
        ensures few { All (λ v. v ≤ 3) result }
    {
        [
            self.runs.value(0, column),
            self.runs.value(1, column),
            self.runs.value(2, column),
            self.runs.value(3, column),
            self.runs.value(4, column),
            self.runs.value(5, column),
            self.runs.value(6, column),
            self.runs.value(7, column),
        ]
    }

    /// Which pairs of sprites are attached, pair p as bit p: ATT, bit 7 of SPRxCTL of the odd one.
    pub fn attached_pairs(&self) -> u8
        ensures { result ≡ attached_in self.now }
    {
        (self.ctl[1] / 128 % 2
            + 2 * (self.ctl[3] / 128 % 2)
            + 4 * (self.ctl[5] / 128 % 2)
            + 8 * (self.ctl[7] / 128 % 2)) as u8
    }
}

/// How many clocks from `h` on, at most so many, come before a clock, if it is one of them.
fn clocks_before(clock: u16, h: u16, count: u16) -> u16
    requires { h + count ≤ 228 }
    ensures most { result ≤ count }
    ensures before { (k : ℕ) → k < result → clock ≢ h + k }
{
    clock.wrapping_sub(h).min(count)
}
