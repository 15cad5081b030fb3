//! Spans of clocks: the picture steps of many clocks of a line at once.

ghost use Rattle.std.specs.Prelude.{ℕ, bit_or, ◌≡◌, ◌≤◌, ◌<◌, ◌+◌, ◌-◌, ◌*◌, ◌++◌, [], length, take};
ghost use Rattle.std.specs.Prelude.{slice_index, true, false, if◌then◌else◌};
ghost use Rattle.serial_model.specs.Picture.{colour_bytes};
ghost use Rattle.painter.specs.code.Overlay.{quiet_collisions};
ghost use Rattle.painter.specs.Inks.{backdrop};
ghost use Rattle.plane_rows.specs.Line.{row_bits};
ghost use Rattle.painter.specs.code.Pixels.{ink_at};
ghost use Rattle.painter.specs.Span.{visible_clocks, IsSpan};
ghost use Rattle.painter.specs.code.Starts.{IsIdle};
ghost use Rattle.painter.specs.SpanParts.{bytes_of_clocks, AreClocks, AreInside, AreModified};
ghost use Rattle.painter.specs.SpanParts.{all_backdrop, all_inks, quiet_gathered};
ghost use Rattle.ocs_base.specs.Systems.{is_visible};

use crate::field_place::FieldPlace;
use crate::ham::{bytes_of, hold};
use crate::painter::Painter;
use crate::pixels::{ink_bytes, put_inks, put_modified};
use crate::span::{fill, put, put_block};
use crate::visible::{Alike, clocks_alike};
use collisions::do_playfields_meet;
use ocs_base::Beam;

/// How many clocks there are in which words show that begin at the first.
const WORD_CLOCKS: u16 = 9;

/// Clocks that were shown: how many, and the place behind their bytes.
#[derive(Drop)]
struct Part {
    count: u16,
    behind: usize,
}

impl Painter {
    ghost use Rattle.serial_model.specs.declared.picture.Denise.{Denise as DeniseValue};
    ghost use Rattle.painter.specs.Painter.{IsPainterOf};

    /// The picture steps of `count` clocks of a line from a place on, between which nothing touches
    /// the picture state. The bytes of those that are visible are put into the room from the index
    /// `filled` on; the answer is the index behind them. `clx`, CLXDAT, gathers what collides.
    pub fn show_span(
        &mut self,
        from: FieldPlace,
        count: u16,
        room: &mut [u8],
        filled: usize,
        clx: &mut u16,
    ) -> usize
        requires place { from.h + count ≤ 228 }
        requires room { filled + 12 * visible_clocks from.system from.v from.h count
            ≤ length room.old }
        ensures given { (p : DeniseValue) → IsPainterOf self.old p
            → IsSpan from.system from.v from.h count p self.new
            (take filled room.old) (take result room.new) clx.old clx.new }
        ensures filled { result ≡ filled + 12 * visible_clocks from.system from.v from.h count }
        ensures size { length room.new ≡ length room.old }
    {
        let mut at = filled;
        let mut shown = 0;
        while shown < count {
            let part = self.show_part(from.further(shown), count - shown, room, at, clx);
            shown += part.count;
            at = part.behind;
        }
        at
    }

    /// The picture steps of the next clocks, at least one and at most so many, that are shown in one
    /// way.
    fn show_part(
        &mut self,
        from: FieldPlace,
        count: u16,
        room: &mut [u8],
        at: usize,
        clx: &mut u16,
    ) -> Part
        requires place { from.h + count ≤ 228 }
        requires some { 1 ≤ count }
        requires room { at + 12 * visible_clocks from.system from.v from.h count ≤ length room.old }
        ensures given { (p : DeniseValue) → IsPainterOf self.old p
            → IsSpan from.system from.v from.h result.count p self.new
            (take at room.old) (take result.behind room.new) clx.old clx.new }
        ensures filled { result.behind
            ≡ at + 12 * visible_clocks from.system from.v from.h result.count }
        ensures some { 1 ≤ result.count }
        ensures most { result.count ≤ count }
        ensures size { length room.new ≡ length room.old }
    {
        let near = clocks_alike(from, count);
        let idle = self.sprites.idle_clocks(from.h, near.count);
        let blank = self.backdrops(from.v, from.h, idle, *clx);
        if blank > 0 {
            let behind = self.show_backdrops(blank, near.visible, room, at);
            return Part {
                count: blank,
                behind,
            };
        }
        let inside = self.inside_ahead(from.v, from.h, idle);
        if near.visible && inside > 0 {
            let behind = self.show_planes(from, inside, room, at, clx);
            return Part {
                count: inside,
                behind,
            };
        }
        self.show_running(from, &near, room, at, clx)
    }

    /// The picture steps of the next of so many clocks, at least one, in which sprites' words may run:
    /// those up to their end, or up to that of words which begin at the first.
    fn show_running(
        &mut self,
        from: FieldPlace,
        near: &Alike,
        room: &mut [u8],
        at: usize,
        clx: &mut u16,
    ) -> Part
        requires place { from.h + near.now.count ≤ 228 }
        requires some { 1 ≤ near.now.count }
        requires seen { (k : ℕ) → k < near.now.count
            → is_visible from.system from.v (from.h + k) ≡ near.now.visible }
        requires room { at + 12 * visible_clocks from.system from.v from.h near.now.count
            ≤ length room.old }
        ensures given { (p : DeniseValue) → IsPainterOf self.old p
            → IsSpan from.system from.v from.h result.count p self.new
            (take at room.old) (take result.behind room.new) clx.old clx.new }
        ensures filled { result.behind
            ≡ at + 12 * visible_clocks from.system from.v from.h result.count }
        ensures some { 1 ≤ result.count }
        ensures most { result.count ≤ near.now.count }
        ensures size { length room.new ≡ length room.old }
    {
        let running = self.sprites.clocks_running(from.h);
        let most = running.max(WORD_CLOCKS).min(near.count);
        let inside = self.window.clocks_inside(from.v, from.h, most);
        if near.visible && inside > 0 {
            let behind = self.show_covered(from, inside, room, at, clx);
            return Part {
                count: inside,
                behind,
            };
        }
        let count = running.max(1).min(near.count);
        let behind = self.show_each(from, count, room, at, clx);
        Part { count, behind }
    }

    /// The picture steps of so many clocks, one by one.
    #[inline(never)]
    fn show_each(
        &mut self,
        from: FieldPlace,
        count: u16,
        room: &mut [u8],
        filled: usize,
        clx: &mut u16,
    ) -> usize
        requires place { from.h + count ≤ 228 }
        requires room { filled + 12 * visible_clocks from.system from.v from.h count
            ≤ length room.old }
        ensures given { (p : DeniseValue) → IsPainterOf self.old p
            → IsSpan from.system from.v from.h count p self.new
            (take filled room.old) (take result room.new) clx.old clx.new }
        ensures filled { result ≡ filled + 12 * visible_clocks from.system from.v from.h count }
        ensures size { length room.new ≡ length room.old }
    {
        let mut at = filled;
        for shown in 0..count {
            at = self.show_one(from.further(shown), room, at, clx);
        }
        at
    }

    /// How many of so many idle clocks from `h` on are known to show COLOR00 alone, and to have their
    /// collisions gathered already.
    fn backdrops(&self, v: u16, h: u16, idle: u16, clx: u16) -> u16
        requires place { h + idle ≤ 228 }
        requires idle { (k : ℕ) → k < idle → IsIdle (h + k) self.now.sprites }
        ensures most { result ≤ idle }
        ensures known { AreClocks v h result self.now (all_backdrop self.now) }
        ensures clx { (p : DeniseValue) → IsPainterOf self.now p
            → clx ≡ bit_or clx (quiet_gathered v h result p) }
    {
        if idle == 0 {
            return 0;
        }
        if self.line.is_blank_from(4 * h as usize) && self.has_gathered(clx) {
            return idle;
        }
        self.window.clocks_outside(v, h, idle)
    }

    /// How many of so many idle clocks from `h` on are known to be inside the display window before the
    /// end of the last load.
    fn inside_ahead(&self, v: u16, h: u16, idle: u16) -> u16
        requires place { h + idle ≤ 228 }
        requires idle { (k : ℕ) → k < idle → IsIdle (h + k) self.now.sprites }
        ensures most { result ≤ idle }
        ensures inside { AreInside v h result self.now }
    {
        if idle == 0 {
            return 0;
        }
        let inside = self.window.clocks_inside(v, h, idle);
        inside.min(self.line.clocks_before_end(h))
    }

    /// The picture steps of so many such clocks that are visible.
    fn show_planes(
        &mut self,
        from: FieldPlace,
        count: u16,
        room: &mut [u8],
        at: usize,
        clx: &mut u16,
    ) -> usize
        requires place { from.h + count ≤ 228 }
        requires some { 1 ≤ count }
        requires inside { AreInside from.v from.h count self.old }
        requires seen { (k : ℕ) → k < count → is_visible from.system from.v (from.h + k) ≡ true }
        requires room { at + 12 * count ≤ length room.old }
        ensures given { (p : DeniseValue) → IsPainterOf self.old p
            → IsSpan from.system from.v from.h count p self.new
            (take at room.old) (take result room.new) clx.old clx.new }
        ensures place { result ≡ at + 12 * count }
        ensures size { length room.new ≡ length room.old }
    {
        self.meet_clocks(from.v, from.h, count, clx);
        if self.inks.holds_colour() {
            self.show_modified_clocks(from.h, count, room, at)
        } else {
            self.show_clocks(from.h, count, room, at)
        }
    }

    /// Puts so many such clocks into the room in hold-and-modify: the held colour goes from pixel to
    /// pixel.
    #[inline(never)]
    fn show_modified_clocks(&mut self, h: u16, count: u16, room: &mut [u8], at: usize) -> usize
        requires place { h + count ≤ 228 }
        requires some { 1 ≤ count }
        requires room { at + 12 * count ≤ length room.old }
        ensures given { (colour : ℕ) → self.old.held ≡ colour_bytes colour
            → AreModified h count colour self.old self.new (take at room.old) (take result room.new) }
        ensures place { result ≡ at + 12 * count }
        ensures size { length room.new ≡ length room.old }
    {
        let held = hold(&self.held);
        let last = put_modified(room, at, self, held, 4 * h as usize, count);
        self.held = bytes_of(last);
        at + 12 * count as usize
    }

    /// Puts so many such clocks into the room, and holds the last of their pixels.
    fn show_clocks(&mut self, h: u16, count: u16, room: &mut [u8], at: usize) -> usize
        requires place { h + count ≤ 228 }
        requires some { 1 ≤ count }
        requires room { at + 12 * count ≤ length room.old }
        ensures held { self.new ≡ record self.old {
          held = colour_bytes
              (ink_at self.old.inks self.old.line (4 * h + 4 * (count - 1) + 3));
        } }
        ensures place { result ≡ at + 12 * count }
        ensures shown { take result room.new ≡ take at room.old
            ++ bytes_of_clocks (λ k. all_inks self.old h k []) count }
        ensures size { length room.new ≡ length room.old }
    {
        let x = 4 * h as usize;
        put_inks(room, at, &self.inks, &self.line, x, count);
        let last = x + 4 * (count - 1) as usize + 3;
        self.held = ink_bytes(&self.inks, &self.line, last);
        at + 12 * count as usize
    }

    /// What the playfields gather at so many clocks where no sprite shows. Of bit 0 that is set already
    /// there is nothing to gather.
    fn meet_clocks(&self, v: u16, h: u16, count: u16, clx: &mut u16)
        requires { h + count ≤ 228 }
        ensures { (p : DeniseValue) → IsPainterOf self.now p
            → clx.new ≡ bit_or clx.old (quiet_gathered v h count p) }
    {
        if *clx % 2 == 0 {
            self.meet_each(v, h, count, clx);
        }
    }

    /// The same, clock by clock.
    #[inline(never)]
    fn meet_each(&self, v: u16, h: u16, count: u16, clx: &mut u16)
        requires { h + count ≤ 228 }
        ensures { (p : DeniseValue) → IsPainterOf self.now p
            → clx.new ≡ bit_or clx.old (quiet_gathered v h count p) }
    {
        for clock in 0..count {
            self.meet_once(v, h + clock, clx);
        }
    }

    /// What they gather at one clock.
    #[inline(always)]
    fn meet_once(&self, v: u16, h: u16, clx: &mut u16)
        requires { h ≤ 227 }
        ensures { (p : DeniseValue) → IsPainterOf self.now p
            → clx.new ≡ bit_or clx.old (quiet_collisions v h p) }
    {
        if *clx % 2 == 0 {
            self.meet_playfields(v, h, clx);
        }
    }

    /// Whether clocks where no plane shows a bit are known to add no collision of the playfields: bit
    /// 0 of CLXDAT is set, or such playfields do not meet.
    fn has_gathered(&self, clx: u16) -> bool
        ensures { result ≡ true → (v h : ℕ) (p : DeniseValue) → h ≤ 227 → IsPainterOf self.now p
            → ((x : ℕ) → 4 * h ≤ x → row_bits self.now.line x ≡ 0)
            → clx ≡ bit_or clx (quiet_collisions v h p) }
    {
        clx % 2 == 1 || !do_playfields_meet(self.clxcon, 0)
    }

    /// Puts so many clocks of COLOR00 into the room, if they are visible, and holds it.
    fn show_backdrops(&mut self, count: u16, visible: bool, room: &mut [u8], at: usize) -> usize
        requires { visible ≡ true → at + 12 * count ≤ length room.old }
        ensures held { self.new ≡ record self.old {
          held = colour_bytes (slice_index self.old.inks.palette 0);
        } }
        ensures place { result ≡ at + 12 * (if visible then count else 0) }
        ensures shown { visible ≡ true → take result room.new
            ≡ take at room.old ++ bytes_of_clocks (λ _. backdrop self.old.inks.palette) count }
        ensures hidden { visible ≡ false → take result room.new ≡ take at room.old }
        ensures size { length room.new ≡ length room.old }
    {
        self.held = self.inks.bytes(0);
        if !visible {
            return at;
        }
        if count == 4 {
            put_block(room, at, self.inks.backdrop_twice());
            return at + 48;
        }
        fill(room, at, count, &self.inks.backdrop());
        at + 12 * count as usize
    }

    /// The picture step of one clock, whose bytes are put into the room if it is visible.
    fn show_one(&mut self, place: FieldPlace, room: &mut [u8], at: usize, clx: &mut u16) -> usize
        requires place { place.h ≤ 227 }
        requires room { at + 12 * visible_clocks place.system place.v place.h 1 ≤ length room.old }
        ensures given { (p : DeniseValue) → IsPainterOf self.old p
            → IsSpan place.system place.v place.h 1 p self.new
            (take at room.old) (take result room.new) clx.old clx.new }
        ensures filled { result ≡ at + 12 * visible_clocks place.system place.v place.h 1 }
        ensures size { length room.new ≡ length room.old }
    {
        let beam = Beam {
            frame: 0,
            v: place.v,
            h: place.h,
            lof: true,
        };
        let mut pixels = [[0; 3]; 4];
        if self.show(place.system, &beam, &mut pixels, clx) {
            put(room, at, &pixels);
            return at + 12;
        }
        at
    }
}
