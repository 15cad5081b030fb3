//! Clocks inside the display window over which sprites' words run.

ghost use Rattle.std.specs.Prelude.{ℕ, bit_and, bit_or, ◌≡◌, ◌≤◌, ◌<◌, ◌+◌, ◌*◌, true, length, take};
ghost use Rattle.ocs_base.specs.Systems.{is_visible};
ghost use Rattle.serial_model.specs.Picture.{clock_collisions};
ghost use Rattle.serial_model.specs.Window.{is_inside};
ghost use Rattle.painter.specs.code.Overlay.{clock_over, covered_column};
ghost use Rattle.plane_rows.specs.Line.{row_bits};
ghost use Rattle.painter.specs.code.SpriteState.{attached_in};
ghost use Rattle.painter.specs.code.Starts.{IsSteady, IsAlone};
ghost use Rattle.painter.specs.code.Steady.{IsSteadyFrom};
ghost use Rattle.painter.specs.Span.{IsSpan};

use crate::field_place::FieldPlace;
use crate::overlay::cover;
use crate::painter::Painter;
use crate::pixels::ink_bytes;
use crate::span::put;
use sprite_rows::pair_pixel;

/// What holds of clocks of a line, up to those at which words begin.
#[derive(Clone, Copy)]
pub struct Steady {
    /// Which pairs of sprites are attached, pair p as bit p.
    pub attached: u8,
    /// The collision bits that a pixel has at most.
    pub reach: u16,
    /// The one pair of sprites that may show, 4 where more than one may, or where that is not known.
    pub lone: u8,
    /// Whether the two positions of each low-resolution column are known to show the same.
    pub paired: bool,
}

impl Painter {
    ghost use Rattle.serial_model.specs.declared.picture.Denise.{Denise as DeniseValue};
    ghost use Rattle.painter.specs.Painter.{IsPainterOf};

    /// The picture steps of so many clocks that are visible and inside the display window, with the
    /// sprites over the playfields.
    #[inline(never)]
    pub(crate) fn show_covered(
        &mut self,
        from: FieldPlace,
        count: u16,
        room: &mut [u8],
        filled: usize,
        clx: &mut u16,
    ) -> usize
        requires place { from.h + count ≤ 228 }
        requires first { (k : ℕ) → k < count → is_inside from.v (2 * (from.h + k))
            self.old.window.diwstrt self.old.window.diwstop ≡ true }
        requires second { (k : ℕ) → k < count → is_inside from.v (2 * (from.h + k) + 1)
            self.old.window.diwstrt self.old.window.diwstop ≡ true }
        requires seen { (k : ℕ) → k < count → is_visible from.system from.v (from.h + k) ≡ true }
        requires room { filled + 12 * count ≤ length room.old }
        ensures given { (p : DeniseValue) → IsPainterOf self.old p
            → IsSpan from.system from.v from.h count p self.new
            (take filled room.old) (take result room.new) clx.old clx.new }
        ensures place { result ≡ filled + 12 * count }
        ensures size { length room.new ≡ length room.old }
    {
        let mut shown = 0;
        while shown < count {
            let at = filled + 12 * shown as usize;
            shown += self.show_next(from.further(shown), count - shown, room, at, clx);
        }
        filled + 12 * count as usize
    }

    /// The picture steps of the next of so many such clocks, at least one: those before the next words
    /// begin, or the one at which they do. Those that begin at its first column are begun before it is
    /// shown, since they show from there on.
    fn show_next(
        &mut self,
        from: FieldPlace,
        count: u16,
        room: &mut [u8],
        at: usize,
        clx: &mut u16,
    ) -> u16
        requires place { from.h + count ≤ 228 }
        requires some { 1 ≤ count }
        requires first { (k : ℕ) → k < count → is_inside from.v (2 * (from.h + k))
            self.old.window.diwstrt self.old.window.diwstop ≡ true }
        requires second { (k : ℕ) → k < count → is_inside from.v (2 * (from.h + k) + 1)
            self.old.window.diwstrt self.old.window.diwstop ≡ true }
        requires seen { (k : ℕ) → k < count → is_visible from.system from.v (from.h + k) ≡ true }
        requires room { at + 12 * count ≤ length room.old }
        ensures given { (p : DeniseValue) → IsPainterOf self.old p
            → IsSpan from.system from.v from.h result p self.new
            (take at room.old) (take (at + 12 * result) room.new) clx.old clx.new }
        ensures some { 1 ≤ result }
        ensures most { result ≤ count }
        ensures window { self.new.window ≡ self.old.window }
        ensures size { length room.new ≡ length room.old }
    {
        self.sprites.begin_words(2 * from.h);
        let steady = self.sprites.begun_clocks(from.h, count);
        if steady > 0 {
            self.show_steady(from, steady, room, at, clx);
            return steady;
        }
        self.show_beginning(from, room, at, clx);
        1
    }

    /// The picture steps of so many such clocks at which no words begin.
    fn show_steady(
        &mut self,
        from: FieldPlace,
        count: u16,
        room: &mut [u8],
        filled: usize,
        clx: &mut u16,
    )
        requires place { from.h + count ≤ 228 }
        requires some { 1 ≤ count }
        requires first { (k : ℕ) → k < count → is_inside from.v (2 * (from.h + k))
            self.old.window.diwstrt self.old.window.diwstop ≡ true }
        requires second { (k : ℕ) → k < count → is_inside from.v (2 * (from.h + k) + 1)
            self.old.window.diwstrt self.old.window.diwstop ≡ true }
        requires seen { (k : ℕ) → k < count → is_visible from.system from.v (from.h + k) ≡ true }
        requires steady { (k : ℕ) → k < count → IsSteady (from.h + k) self.old.sprites }
        requires room { filled + 12 * count ≤ length room.old }
        ensures given { (p : DeniseValue) → IsPainterOf self.old p
            → IsSpan from.system from.v from.h count p self.new
            (take filled room.old) (take (filled + 12 * count) room.new)
            clx.old clx.new }
        ensures window { self.new.window ≡ self.old.window }
        ensures size { length room.new ≡ length room.old }
    {
        let steady = self.steady_from(from.h);
        if steady.lone <= 3 && *clx & steady.reach == steady.reach {
            self.show_alone(from, count, &steady, room, filled);
            return;
        }
        for shown in 0..count {
            let at = filled + 12 * shown as usize;
            self.show_steady_clock(from.further(shown), &steady, room, at, clx);
        }
    }

    /// What holds of the clocks from one on, up to those at which words begin.
    #[inline(always)]
    fn steady_from(&self, h: u16) -> Steady
        requires { h ≤ 227 }
        ensures { IsSteadyFrom h result self.now }
    {
        Steady {
            attached: self.sprites.attached_pairs(),
            reach: self.sprites.reach_from(2 * h),
            lone: self.sprites.lone_from(2 * h),
            paired: self.line.is_paired_from(4 * h as usize),
        }
    }

    /// The picture steps of so many of them, of which this holds, where one pair of sprites may show
    /// alone, and all is gathered that may collide.
    fn show_alone(
        &mut self,
        from: FieldPlace,
        count: u16,
        steady: &Steady,
        room: &mut [u8],
        filled: usize,
    )
        requires place { from.h + count ≤ 228 }
        requires some { 1 ≤ count }
        requires first { (k : ℕ) → k < count → is_inside from.v (2 * (from.h + k))
            self.old.window.diwstrt self.old.window.diwstop ≡ true }
        requires second { (k : ℕ) → k < count → is_inside from.v (2 * (from.h + k) + 1)
            self.old.window.diwstrt self.old.window.diwstop ≡ true }
        requires seen { (k : ℕ) → k < count → is_visible from.system from.v (from.h + k) ≡ true }
        requires steady { (k : ℕ) → k < count → IsSteady (from.h + k) self.old.sprites }
        requires holds { IsSteadyFrom from.h steady.now self.old }
        requires alone { steady.now.lone ≤ 3 }
        requires room { filled + 12 * count ≤ length room.old }
        ensures given { (p : DeniseValue) (clx : ℕ) → IsPainterOf self.old p
            → bit_and clx steady.now.reach ≡ steady.now.reach
            → IsSpan from.system from.v from.h count p self.new
            (take filled room.old) (take (filled + 12 * count) room.new) clx clx }
        ensures window { self.new.window ≡ self.old.window }
        ensures size { length room.new ≡ length room.old }
    {
        if self.put_pair(from, count, steady, room, filled) {
            let last = 4 * from.h as usize + 4 * (count - 1) as usize + 3;
            self.held = ink_bytes(&self.inks, &self.line, last);
            return;
        }
        self.show_alone_clocks(from, count, steady, room, filled);
    }

    /// The same, clock by clock.
    fn show_alone_clocks(
        &mut self,
        from: FieldPlace,
        count: u16,
        steady: &Steady,
        room: &mut [u8],
        filled: usize,
    )
        requires place { from.h + count ≤ 228 }
        requires first { (k : ℕ) → k < count → is_inside from.v (2 * (from.h + k))
            self.old.window.diwstrt self.old.window.diwstop ≡ true }
        requires second { (k : ℕ) → k < count → is_inside from.v (2 * (from.h + k) + 1)
            self.old.window.diwstrt self.old.window.diwstop ≡ true }
        requires seen { (k : ℕ) → k < count → is_visible from.system from.v (from.h + k) ≡ true }
        requires steady { (k : ℕ) → k < count → IsSteady (from.h + k) self.old.sprites }
        requires holds { IsSteadyFrom from.h steady.now self.old }
        requires alone { steady.now.lone ≤ 3 }
        requires room { filled + 12 * count ≤ length room.old }
        ensures given { (p : DeniseValue) (clx : ℕ) → IsPainterOf self.old p
            → bit_and clx steady.now.reach ≡ steady.now.reach
            → IsSpan from.system from.v from.h count p self.new
            (take filled room.old) (take (filled + 12 * count) room.new) clx clx }
        ensures window { self.new.window ≡ self.old.window }
        ensures size { length room.new ≡ length room.old }
    {
        for shown in 0..count {
            let at = filled + 12 * shown as usize;
            self.show_alone_clock(from.further(shown), steady, room, at);
        }
    }

    /// The picture step of one of them.
    #[inline(always)]
    fn show_alone_clock(&mut self, place: FieldPlace, steady: &Steady, room: &mut [u8], at: usize)
        requires place { place.h ≤ 227 }
        requires first { is_inside place.v (2 * place.h) self.old.window.diwstrt
            self.old.window.diwstop ≡ true }
        requires second { is_inside place.v (2 * place.h + 1) self.old.window.diwstrt
            self.old.window.diwstop ≡ true }
        requires seen { is_visible place.system place.v place.h ≡ true }
        requires steady { IsSteady place.h self.old.sprites }
        requires holds { IsSteadyFrom place.h steady.now self.old }
        requires alone { steady.now.lone ≤ 3 }
        requires room { at + 12 ≤ length room.old }
        ensures given { (p : DeniseValue) (clx : ℕ) → IsPainterOf self.old p
            → bit_and clx steady.now.reach ≡ steady.now.reach
            → IsSpan place.system place.v place.h 1 p self.new
            (take at room.old) (take (at + 12) room.new) clx clx }
        ensures window { self.new.window ≡ self.old.window }
        ensures sprites { self.new.sprites ≡ self.old.sprites }
        ensures line { self.new.line ≡ self.old.line }
        ensures size { length room.new ≡ length room.old }
    {
        let mut pixels = [[0; 3]; 4];
        self.show_inside(place.v, place.h, steady.paired, &mut pixels);
        self.put_alone(2 * place.h, 0, steady, &mut pixels);
        self.put_alone(2 * place.h + 1, 2, steady, &mut pixels);
        put(room, at, &pixels);
    }

    /// The sprite in front over the two pixels of a column of them, where there is one.
    #[inline(always)]
    fn put_alone(&self, column: u16, at: usize, steady: &Steady, into: &mut [[u8; 3]; 4])
        requires place { at ≤ 2 }
        requires room { column ≤ 455 }
        requires attached { steady.now.attached ≡ attached_in self.now.sprites }
        requires alone { steady.now.lone ≤ 3 }
        requires none { IsAlone column steady.now.lone self.now.sprites.runs }
        requires pair { steady.now.paired ≡ true → row_bits self.now.line (2 * column)
            ≡ row_bits self.now.line (2 * column + 1) }
        ensures { (p : DeniseValue) → IsPainterOf self.now p
            → into.new ≡ covered_column column at into.old p }
    {
        let byte = self.sprites.pair_byte(column, steady.lone);
        if byte == 0 {
            return;
        }
        let sprite = pair_pixel(steady.lone, byte, steady.attached);
        let first = self.line.bits(2 * column as usize);
        cover(&self.inks, sprite, first, at, into);
        if steady.paired {
            cover(&self.inks, sprite, first, at + 1, into);
            return;
        }
        let second = self.line.bits(2 * column as usize + 1);
        cover(&self.inks, sprite, second, at + 1, into);
    }

    /// The picture step of one of them, of which this holds.
    #[inline(always)]
    fn show_steady_clock(
        &mut self,
        place: FieldPlace,
        steady: &Steady,
        room: &mut [u8],
        at: usize,
        clx: &mut u16,
    )
        requires place { place.h ≤ 227 }
        requires first { is_inside place.v (2 * place.h) self.old.window.diwstrt
            self.old.window.diwstop ≡ true }
        requires second { is_inside place.v (2 * place.h + 1) self.old.window.diwstrt
            self.old.window.diwstop ≡ true }
        requires seen { is_visible place.system place.v place.h ≡ true }
        requires steady { IsSteady place.h self.old.sprites }
        requires holds { IsSteadyFrom place.h steady.now self.old }
        requires room { at + 12 ≤ length room.old }
        ensures given { (p : DeniseValue) → IsPainterOf self.old p
            → IsSpan place.system place.v place.h 1 p self.new
            (take at room.old) (take (at + 12) room.new) clx.old clx.new }
        ensures window { self.new.window ≡ self.old.window }
        ensures sprites { self.new.sprites ≡ self.old.sprites }
        ensures line { self.new.line ≡ self.old.line }
        ensures size { length room.new ≡ length room.old }
    {
        let mut pixels = [[0; 3]; 4];
        self.show_inside(place.v, place.h, false, &mut pixels);
        self.cover_clock(place.v, place.h, steady, &mut pixels, clx);
        put(room, at, &pixels);
    }

    /// The sprites over the four pixels of such a clock, and what collides there. Where all is gathered
    /// that may collide from there on, it is not looked at.
    #[inline(always)]
    fn cover_clock(&self, v: u16, h: u16, steady: &Steady, into: &mut [[u8; 3]; 4], clx: &mut u16)
        requires place { h ≤ 227 }
        requires first { is_inside v (2 * h) self.now.window.diwstrt
            self.now.window.diwstop ≡ true }
        requires second { is_inside v (2 * h + 1) self.now.window.diwstrt
            self.now.window.diwstop ≡ true }
        requires steady { IsSteady h self.now.sprites }
        requires holds { IsSteadyFrom h steady.now self.now }
        ensures pixels { (p : DeniseValue) → IsPainterOf self.now p
            → into.new ≡ clock_over v h into.old p }
        ensures clx { (p : DeniseValue) → IsPainterOf self.now p
            → clx.new ≡ bit_or clx.old (clock_collisions v h p) }
    {
        let column = 2 * h;
        self.put_front(column, 0, steady.attached, into);
        self.put_front(column + 1, 2, steady.attached, into);
        if *clx & steady.reach == steady.reach {
            return;
        }
        self.gather(column, clx);
        self.gather(column + 1, clx);
    }

    /// The picture step of one such clock at which words may begin.
    fn show_beginning(&mut self, place: FieldPlace, room: &mut [u8], at: usize, clx: &mut u16)
        requires place { place.h ≤ 227 }
        requires first { is_inside place.v (2 * place.h) self.old.window.diwstrt
            self.old.window.diwstop ≡ true }
        requires second { is_inside place.v (2 * place.h + 1) self.old.window.diwstrt
            self.old.window.diwstop ≡ true }
        requires seen { is_visible place.system place.v place.h ≡ true }
        requires room { at + 12 ≤ length room.old }
        ensures given { (p : DeniseValue) → IsPainterOf self.old p
            → IsSpan place.system place.v place.h 1 p self.new
            (take at room.old) (take (at + 12) room.new) clx.old clx.new }
        ensures window { self.new.window ≡ self.old.window }
        ensures size { length room.new ≡ length room.old }
    {
        let mut pixels = [[0; 3]; 4];
        self.show_inside(place.v, place.h, false, &mut pixels);
        self.show_sprite_columns(place.v, place.h, &mut pixels, clx);
        put(room, at, &pixels);
    }
}
