//! What paints a band.

ghost use Rattle.std.specs.Prelude.{◌≡◌, ◌≤◌, ◌<◌, ◌+◌, ◌*◌, ℕ, bit_or, false, true, flat_map, length, take, ◌++◌, ◌∷◌, []};
ghost use Rattle.serial_model.specs.declared.picture.Denise.{Denise as DeniseValue};
ghost use Rattle.ocs_base.specs.Systems.{is_visible};
ghost use Rattle.serial_model.specs.Beam.{is_line_start};
ghost use Rattle.serial_model.specs.Picture.{set_picture, plane_latch, sprite_data, clear_line as cleared, pixels, step_of};
ghost use Rattle.serial_model.specs.Picture.{after_step};
ghost use Rattle.serial_model.specs.StandsFor.{StandsFor};

use ocs_base::{Beam, System};
use painter::{FieldPlace, Painter};
use planes::Loads;
use serial_model::Denise;

/// A painter of a band. On its first line and its last it keeps the loads too, which its painter has
/// as pixels alone, for the picture state at the band's end.
#[derive(Drop)]
pub struct BandPainter {
    painter: Painter,
    loads: Loads,
    /// Whether the loads of this line are kept.
    keeps: bool,
}

impl BandPainter {
    ghost use Rattle.planes.specs.PlaneBit.{ShowsSame, load_of};
    ghost use Rattle.priority_ham.specs.PlaneCount.{is_hires};
    ghost use Rattle.painter.specs.Painter.{IsPainterOf};
    ghost use Rattle.painter.specs.Span.{visible_clocks};
    ghost use Rattle.band_draw.specs.BandPainter.{IsBandPainterOf, Paints, opened};
    ghost use Rattle.band_draw.specs.Given.{IsSpanGiven};

    /// One that begins with a picture state at a place of the beam.
    pub fn open(d: &Denise, beam: &Beam) -> BandPainter
        requires { length d.now.runs ≡ 8 }
        ensures opened { IsBandPainterOf (4 * beam.now.h) result (opened beam.now d.now) }
        ensures keeps { result.keeps ≡ true }
    {
        if beam.h == 0 {
            return BandPainter {
                painter: Painter::open_line(d),
                loads: Loads::new(),
                keeps: true,
            };
        }
        BandPainter {
            painter: Painter::open(d),
            loads: d.loads.copied(),
            keeps: true,
        }
    }

    /// The picture state that it has come to, on a line whose loads are kept. A held colour is one of
    /// twelve bits.
    pub fn close(&self) -> Denise
        requires { self.now.keeps ≡ true }
        ensures { (from : ℕ) (p : DeniseValue) → IsBandPainterOf from self.now p
            → p.held.0 ≤ 4095 → StandsFor from result p }
    {
        self.painter.close(self.loads.copied())
    }

    /// A write at clock `h` of the line to the register at an offset.
    #[inline(always)]
    pub fn set(&mut self, h: u16, offset: u16, word: u16)
        requires { h ≤ 227 }
        ensures paints { Paints (4 * h) (set_picture h offset word) self.old self.new }
        ensures keeps { self.new.keeps ≡ self.old.keeps }
    {
        self.painter.set_at(h, offset, word);
        if offset == 0x110 {
            self.keep_load(h);
        }
    }

    /// A word that is fetched for a bitplane, 2 to 6, at any clock of the line.
    #[inline(always)]
    pub fn latch(&mut self, plane: u8, word: u16)
        requires least { 2 ≤ plane }
        requires most { plane ≤ 6 }
        ensures paints { (h : ℕ) → Paints (4 * h) (set_picture h (plane_latch plane) word)
            self.old self.new }
        ensures keeps { self.new.keeps ≡ self.old.keeps }
    {
        self.painter.latch(plane, word);
    }

    /// A word that is fetched for a sprite, its second where `second` is so, at any clock of the line.
    #[inline(always)]
    pub fn fill_sprite(&mut self, sprite: u8, second: bool, word: u16)
        requires { sprite < 8 }
        ensures paints { (h : ℕ) → Paints (4 * h) (set_picture h (sprite_data sprite second) word)
            self.old self.new }
        ensures keeps { self.new.keeps ≡ self.old.keeps }
    {
        self.painter.fill_sprite(sprite, second, word);
    }

    /// Keeps the load of a write to BPL1DAT at clock `h` of the line that has just been made.
    fn keep_load(&mut self, h: u16)
        ensures loads { (p : DeniseValue) → IsPainterOf self.old.painter p
            → self.old.keeps ≡ true → ShowsSame (4 * h) self.new.loads
            (self.old.loads ++ load_of h p.latches p.con1 (is_hires p.con0) ∷ []) }
        ensures painter { self.new.painter ≡ self.old.painter }
        ensures keeps { self.new.keeps ≡ self.old.keeps }
    {
        if self.keeps {
            self.painter.keep_load(h, &mut self.loads);
        }
    }

    /// At a line's start its loads and running words are forgotten, and the held colour becomes
    /// COLOR00. The loads of the line that starts are kept, or not.
    #[inline(always)]
    pub fn clear_line(&mut self, beam: &Beam, keeps: bool)
        ensures start { is_line_start beam.now ≡ true → self.new.keeps ≡ keeps }
        ensures on { is_line_start beam.now ≡ false → self.new.keeps ≡ self.old.keeps }
        ensures cleared { (from : ℕ) (p : DeniseValue) → IsBandPainterOf from self.old p
            → (is_line_start beam.now ≡ false → from ≤ 4 * beam.now.h)
            → IsBandPainterOf (4 * beam.now.h) self.new (cleared beam.now p) }
    {
        self.painter.clear_line(beam);
        if beam.h == 0 {
            self.loads.clear();
            self.keeps = keeps;
        }
    }

    /// The picture step of a clock, as `Painter::show` has it.
    #[inline(always)]
    pub fn show(
        &mut self,
        system: System,
        beam: &Beam,
        into: &mut [[u8; 3]; 4],
        clx: &mut u16,
    ) -> bool
        requires { beam.now.h ≤ 227 }
        ensures visible { result ≡ is_visible system beam.now.v beam.now.h }
        ensures pixels { (from : ℕ) (p : DeniseValue) → IsBandPainterOf from self.old p
            → result ≡ true
            → flat_map (λ x. x) into.new ≡ pixels system beam.now.v beam.now.h p }
        ensures after { (p : DeniseValue) → IsBandPainterOf (4 * beam.now.h) self.old p
            → IsBandPainterOf (4 * beam.now.h + 4) self.new
            (after_step (step_of system beam.now.v beam.now.h p) p) }
        ensures clx { (from : ℕ) (p : DeniseValue) → IsBandPainterOf from self.old p
            → clx.new ≡ bit_or clx.old (step_of system beam.now.v beam.now.h p).clx }
        ensures keeps { self.new.keeps ≡ self.old.keeps }
    {
        self.painter.show(system, beam, into, clx)
    }

    /// The picture steps of `count` clocks of a line from a place on, between which nothing touches the
    /// picture, as `Painter::show_span` has them.
    pub fn show_span(
        &mut self,
        from: FieldPlace,
        count: u16,
        room: &mut [u8],
        filled: usize,
        clx: &mut u16,
    ) -> usize
        requires place { from.h + count ≤ 228 }
        requires room { filled + 12 * visible_clocks from.system from.v from.h count
            ≤ length room.old }
        ensures given { (x : ℕ) (p : DeniseValue) → IsBandPainterOf x self.old p
            → IsSpanGiven x from.system from.v from.h count p
            self.new (take filled room.old) (take result room.new) clx.old clx.new }
        ensures filled { result ≡ filled + 12 * visible_clocks from.system from.v from.h count }
        ensures keeps { self.new.keeps ≡ self.old.keeps }
        ensures size { length room.new ≡ length room.old }
    {
        self.painter.show_span(from, count, room, filled, clx)
    }
}
