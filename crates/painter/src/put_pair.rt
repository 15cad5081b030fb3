//! Clocks inside the display window over which one pair of sprites alone may show, put at once.

ghost use Rattle.std.specs.Prelude.{ℕ, bit_and, ◌≡◌, ◌≤◌, ◌<◌, ◌+◌, ◌-◌, ◌*◌, ◌++◌, length, take};
ghost use Rattle.std.specs.Prelude.{flat_map, slice_index, true, false};
ghost use Rattle.ocs_base.specs.Systems.{is_visible};
ghost use Rattle.serial_model.specs.Picture.{colour_bytes};
ghost use Rattle.serial_model.specs.Window.{is_inside};
ghost use Rattle.sprite_rows.specs.PairFront.{colour_of_byte};
ghost use Rattle.painter.specs.Inks.{ink, two_pixels};
ghost use Rattle.plane_rows.specs.Line.{row_bits, ArePaired};
ghost use Rattle.painter.specs.code.PairOver.{colour_over, pixels_over};
ghost use Rattle.painter.specs.code.Pixels.{ink_at};
ghost use Rattle.painter.specs.code.Starts.{IsSteady};
ghost use Rattle.painter.specs.code.Steady.{IsSteadyFrom};
ghost use Rattle.painter.specs.Span.{IsSpan};
ghost use Rattle.painter.specs.SpanParts.{bytes_of_clocks};

use crate::field_place::FieldPlace;
use crate::painter::Painter;
use crate::show_covered::Steady;
use crate::span::put_eight;
use sprite_rows::pair_colours;

impl Painter {
    ghost use Rattle.serial_model.specs.declared.picture.Denise.{Denise as DeniseValue};
    ghost use Rattle.painter.specs.Painter.{IsPainterOf};

    /// Puts the bytes of so many clocks at which no words begin, of which this holds, into the room, where
    /// no colour is held, the pixels of each column are the same, and the room has a clock more. The
    /// answer is whether it is so.
    pub(crate) fn put_pair(
        &self,
        from: FieldPlace,
        count: u16,
        steady: &Steady,
        room: &mut [u8],
        at: usize,
    ) -> bool
        requires place { from.h + count ≤ 228 }
        requires some { 1 ≤ count }
        requires first { (k : ℕ) → k < count → is_inside from.v (2 * (from.h + k))
            self.now.window.diwstrt self.now.window.diwstop ≡ true }
        requires second { (k : ℕ) → k < count → is_inside from.v (2 * (from.h + k) + 1)
            self.now.window.diwstrt self.now.window.diwstop ≡ true }
        requires seen { (k : ℕ) → k < count → is_visible from.system from.v (from.h + k) ≡ true }
        requires steady { (k : ℕ) → k < count → IsSteady (from.h + k) self.now.sprites }
        requires holds { IsSteadyFrom from.h steady.now self.now }
        requires alone { steady.now.lone ≤ 3 }
        requires room { at + 12 * count ≤ length room.old }
        ensures given { result ≡ true → (p : DeniseValue) (clx : ℕ) → IsPainterOf self.now p
            → bit_and clx steady.now.reach ≡ steady.now.reach
            → IsSpan from.system from.v from.h count p (record self.now {
              held = colour_bytes
                  (ink_at self.now.inks self.now.line (4 * from.h + 4 * (count - 1) + 3));
            }) (take at room.old) (take (at + 12 * count) room.new) clx clx }
        ensures same { result ≡ false → room.new ≡ room.old }
        ensures size { length room.new ≡ length room.old }
    {
        if !steady.paired || self.inks.holds_colour() {
            return false;
        }
        if room.len() - at < 12 * count as usize + 12 {
            return false;
        }
        let Some(row) = self.sprites.row_from(2 * from.h, steady.lone) else {
            return false;
        };
        self.put_clocks_over(row, steady, 2 * from.h as usize, count, room, at);
        true
    }

    /// Puts so many clocks from a column on into a room with one clock more, the pair's bytes being
    /// these.
    #[inline(always)]
    fn put_clocks_over(
        &self,
        row: &[u8; 512],
        steady: &Steady,
        column: usize,
        count: u16,
        room: &mut [u8],
        at: usize,
    )
        requires place { column + 2 * count ≤ 456 }
        requires alone { steady.now.lone ≤ 3 }
        requires few { (x : ℕ) → slice_index row.now x ≤ 15 }
        requires room { at + 12 * count + 12 ≤ length room.old }
        ensures bytes { take (at + 12 * count) room.new ≡ take at room.old
            ++ bytes_of_clocks (λ k. pixels_over self.now.inks self.now.line row.now
            steady.now.lone steady.now.attached (column + 2 * k)) count }
        ensures size { length room.new ≡ length room.old }
    {
        let colours = pair_colours(steady.lone, steady.attached);
        for clock in 0..count {
            let place = at + 12 * clock as usize;
            let here = column + 2 * clock as usize;
            self.put_clock_over(row, &colours, steady, here, room, place);
        }
    }

    /// Puts a clock of two columns, where these are the colours of the pair's bytes.
    #[inline(always)]
    fn put_clock_over(
        &self,
        row: &[u8; 512],
        colours: &[u8; 16],
        steady: &Steady,
        column: usize,
        room: &mut [u8],
        at: usize,
    )
        requires place { column + 1 ≤ 455 }
        requires alone { steady.now.lone ≤ 3 }
        requires few { (x : ℕ) → slice_index row.now x ≤ 15 }
        requires colours { (byte : ℕ) → byte ≤ 15 → slice_index colours.now byte
            ≡ colour_of_byte steady.now.lone byte steady.now.attached }
        requires low { (byte : ℕ) → slice_index colours.now byte ≤ 31 }
        requires room { at + 24 ≤ length room.old }
        ensures bytes { take (at + 12) room.new ≡ take at room.old
            ++ flat_map (λ x. x) (pixels_over self.now.inks self.now.line row.now
            steady.now.lone steady.now.attached column) }
        ensures size { length room.new ≡ length room.old }
    {
        let first = self.ink_over(row[column], colours, steady, column);
        put_eight(room, at, &self.inks.two_pixels(first));
        let second = self.ink_over(row[column + 1], colours, steady, column + 1);
        put_eight(room, at + 6, &self.inks.two_pixels(second));
    }

    /// The ink of a column's first pixel with the pair over it, whose byte is this.
    #[inline(always)]
    fn ink_over(&self, byte: u8, colours: &[u8; 16], steady: &Steady, column: usize) -> u8
        requires place { column ≤ 455 }
        requires alone { steady.now.lone ≤ 3 }
        requires few { byte ≤ 15 }
        requires colours { (byte : ℕ) → byte ≤ 15 → slice_index colours.now byte
            ≡ colour_of_byte steady.now.lone byte steady.now.attached }
        requires low { (byte : ℕ) → slice_index colours.now byte ≤ 31 }
        ensures value { ink self.now.inks.palette result ≡ colour_over self.now.inks self.now.line
            steady.now.lone steady.now.attached byte (2 * column) }
        ensures few { result < 64 }
    {
        let bits = self.line.bits(2 * column);
        if byte == 0 {
            return self.inks.name(bits);
        }
        if self.inks.hides(bits, steady.lone) {
            return self.inks.name(bits);
        }
        colours[byte as usize]
    }
}
