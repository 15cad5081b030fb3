//! What paints: Denise as a working state, and the pixels of a clock.

ghost use Rattle.std.specs.Prelude.{ℕ, bit_or, ◌≡◌, ◌≤◌, ◌<◌, ◌+◌, ◌*◌, ◌/◌, ◌%◌, ◌∷◌, ◌++◌, [], length};
ghost use Rattle.std.specs.Prelude.{replicate, slice_index, slice_set, None, true, false, flat_map};
ghost use Rattle.planes.specs.PlaneBit.{ShowsSame, load_of};
ghost use Rattle.priority_ham.specs.PlaneCount.{is_hires};
ghost use Rattle.serial_model.specs.Picture.{pixels, colour_bytes, held_after, runs_after, runs_at, sprite_values, clock_collisions};
ghost use Rattle.collisions.specs.Collision.{collision_bits};
ghost use Rattle.serial_model.specs.Window.{is_inside};
ghost use Rattle.painter.specs.code.Overlay.{with_runs, shown_bits, covered_column, covered_collisions, column_over};
ghost use Rattle.painter.specs.code.Overlay.{column_collisions, clock_over, quiet_in_column, quiet_collisions};
ghost use Rattle.painter.specs.Inks.{is_held, backdrop};
ghost use Rattle.painter.specs.code.SpriteState.{attached_in};
ghost use Rattle.painter.specs.code.Starts.{IsIdle};
ghost use Rattle.plane_rows.specs.Line.{row_bits, ArePaired};
ghost use Rattle.ocs_base.specs.Systems.{is_visible};

use crate::ham::hold;
use crate::inks::{Inks, bytes_of, colour_of};
use crate::names::counted_planes;
use crate::overlay::cover;
use crate::pixels::{show_border, show_inks, show_modified};
use crate::sprite_state::SpriteState;
use crate::window::Window;
use collisions::do_playfields_meet;
use ocs_base::{Beam, Colour, Reg, System};
use plane_rows::{Line, line_of};
use planes::Loads;
use serial_model::Denise;

/// What paints: Denise's registers as a working state, the line's bitplanes and sprites as rows,
/// and the held colour as bytes.
#[derive(Drop)]
pub struct Painter {
    /// COLOR00 to COLOR31, BPLCON0 and BPLCON2.
    pub(crate) inks: Inks,
    /// BPLCON1.
    con1: u16,
    /// DIWSTRT and DIWSTOP.
    pub(crate) window: Window,
    /// CLXCON.
    pub(crate) clxcon: u16,
    /// The latches BPL1DAT to BPL6DAT.
    latches: [u16; 6],
    /// The sprites' registers, and their words that run.
    pub(crate) sprites: SpriteState,
    /// What the loads of this line show.
    pub(crate) line: Line,
    /// The bytes of the playfields' colour of the pixel before.
    pub(crate) held: [u8; 3],
}

impl Painter {
    ghost use Rattle.serial_model.specs.declared.picture.Denise.{Denise as DeniseValue};
    ghost use Rattle.serial_model.specs.Picture.{reset_picture, set_picture, set_sprite as set_sprite_of};
    ghost use Rattle.serial_model.specs.Picture.{add_load, plane_latch, sprite_data};
    ghost use Rattle.serial_model.specs.Picture.{clear_line as cleared, step_of, after_step};
    ghost use Rattle.painter.specs.Painter.{IsPainterOf, first_colour, second_colour, with_held, clock_bytes};
    ghost use Rattle.painter.specs.Painter.{is_known_gathered, is_known_blank, is_known_backdrop};

    /// Denise at reset: every register is 0, and so every colour black.
    #[tactic(auto, unfolding(serial_model::specs::Picture::reset_picture))]
    pub fn reset() -> Painter
        ensures { IsPainterOf result reset_picture }
    {
        Painter {
            inks: Inks::reset(),
            con1: 0,
            window: Window::reset(),
            clxcon: 0,
            latches: [0; 6],
            sprites: SpriteState::reset(),
            line: Line::new(),
            held: [0; 3],
        }
    }

    /// A picture state's painter: it goes on from there. Loads that are kept and words that run
    /// make the rest of the line slower.
    pub fn open(d: &Denise) -> Painter
        requires { length d.now.runs ≡ 8 }
        ensures { IsPainterOf result d.now }
    {
        let mut painter = Painter::open_line(d);
        painter.sprites.set_runs(d.runs);
        painter.line = line_of(&d.loads);
        painter
    }

    /// The same of a picture state at a line's start, whose loads and words that run are left out.
    pub fn open_line(d: &Denise) -> Painter
        ensures { IsPainterOf result (record d.now { loads = []; runs = replicate 8 None }) }
    {
        let mut window = Window::reset();
        window.set_start(d.diwstrt);
        window.set_stop(d.diwstop);
        Painter {
            inks: Inks::of_registers(&d.palette, d.con0, d.con2),
            con1: d.con1,
            window,
            clxcon: d.clxcon,
            latches: d.latches,
            sprites: SpriteState::of_registers(d),
            line: Line::new(),
            held: bytes_of(d.held.0),
        }
    }

    /// The picture state, with these loads in place of its own. A held colour is one of twelve
    /// bits.
    pub fn close(&self, loads: Loads) -> Denise
        ensures { (p : DeniseValue) → IsPainterOf self.now p → p.held.0 ≤ 4095
            → result ≡ record p { loads = loads } }
    {
        Denise {
            palette: *self.inks.palette(),
            con0: self.inks.con0(),
            con1: self.con1,
            con2: self.inks.con2(),
            diwstrt: self.window.start(),
            diwstop: self.window.stop(),
            clxcon: self.clxcon,
            latches: self.latches,
            loads,
            runs: self.sprites.runs(),
            pos: *self.sprites.pos(),
            ctl: *self.sprites.ctl(),
            words_a: *self.sprites.words_a(),
            words_b: *self.sprites.words_b(),
            armed: self.sprites.armed(),
            held: Colour(colour_of(&self.held)),
        }
    }

    /// Keeps the load of a write to BPL1DAT at clock `h` of the line that has just been made, behind
    /// the loads that are kept.
    #[inline(never)]
    pub fn keep_load(&self, h: u16, loads: &mut Loads)
        ensures { (p : DeniseValue) → IsPainterOf self.now p → ShowsSame (4 * h) loads.new
            (loads.old ++ load_of h p.latches p.con1 (is_hires p.con0) ∷ []) }
    {
        let hires = self.inks.con0() >= 0x8000;
        loads.load(h, &self.latches, self.con1, hires);
    }

    /// A write to one of Denise's registers at clock `h` of the line. A word that is fetched for a
    /// bitplane comes as a write to the latch of its plane.
    pub fn set(&mut self, h: u16, reg: Reg, word: u16)
        requires { h ≤ 227 }
        ensures { (p : DeniseValue) → IsPainterOf self.old p
            → IsPainterOf self.new (set_picture h reg.offset word p) }
    {
        self.set_at(h, reg.offset, word);
    }

    /// The same to the register at an offset, where it is one of Denise's. The latches are written most
    /// often.
    #[inline(always)]
    pub fn set_at(&mut self, h: u16, offset: u16, word: u16)
        requires { h ≤ 227 }
        ensures { (p : DeniseValue) → IsPainterOf self.old p
            → IsPainterOf self.new (set_picture h offset word p) }
    {
        if 0x112 <= offset && offset <= 0x11a {
            self.latches[(offset - 0x110) as usize / 2] = word;
            return;
        }
        if offset == 0x110 {
            self.load(h, word);
            return;
        }
        self.set_register(h, offset, word);
    }

    /// A word that is fetched for a bitplane, 2 to 6, at any clock of the line.
    #[inline(always)]
    pub fn latch(&mut self, plane: u8, word: u16)
        requires least { 2 ≤ plane }
        requires most { plane ≤ 6 }
        ensures { (h : ℕ) (p : DeniseValue) → IsPainterOf self.old p
            → IsPainterOf self.new (set_picture h (plane_latch plane) word p) }
    {
        self.latches[plane as usize - 1] = word;
    }

    /// A word that is fetched for a sprite, its second where `second` is so, at any clock of the line.
    #[inline(always)]
    pub fn fill_sprite(&mut self, sprite: u8, second: bool, word: u16)
        requires { sprite < 8 }
        ensures { (h : ℕ) (p : DeniseValue) → IsPainterOf self.old p
            → IsPainterOf self.new (set_picture h (sprite_data sprite second) word p) }
    {
        if second {
            self.set_sprite(8 * sprite as u16 + 6, word);
        } else {
            self.set_sprite(8 * sprite as u16 + 4, word);
        }
    }

    /// The same to any register. The colours are tried first, which the Copper writes most often.
    #[inline(never)]
    #[tactic(auto, unfolding(serial_model::specs::Picture::set_picture))]
    fn set_register(&mut self, h: u16, offset: u16, word: u16)
        requires { h ≤ 227 }
        ensures { (p : DeniseValue) → IsPainterOf self.old p
            → IsPainterOf self.new (set_picture h offset word p) }
    {
        if 0x180 <= offset {
            if offset <= 0x1be {
                self.inks.set_colour((offset - 0x180) as usize / 2, word);
            }
            return;
        }
        match offset {
            0x08e => self.window.set_start(word),
            0x090 => self.window.set_stop(word),
            0x098 => self.clxcon = word,
            0x100 => self.inks.set_con0(word),
            0x102 => self.con1 = word,
            0x104 => self.inks.set_con2(word),
            0x110 => self.load(h, word),
            0x112..=0x11a => self.latches[(offset - 0x110) as usize / 2] = word,
            0x140..=0x17e => self.set_sprite(offset - 0x140, word),
            _ => {}
        }
    }

    /// A write to BPL1DAT at clock `h`: the six latches are loaded.
    #[inline(never)]
    fn load(&mut self, h: u16, word: u16)
        requires { h ≤ 227 }
        ensures { (p : DeniseValue) → IsPainterOf self.old p → IsPainterOf self.new
            (add_load h (record p { latches = slice_set p.latches 0 word })) }
    {
        self.latches[0] = word;
        let hires = self.inks.con0() >= 0x8000;
        self.line.load(h, &self.latches, self.con1, hires);
    }

    /// A write to a sprite's register, which lies so far behind SPR0POS.
    #[inline(always)]
    fn set_sprite(&mut self, from: u16, word: u16)
        requires { from < 64 }
        ensures { (p : DeniseValue) → IsPainterOf self.old p
            → IsPainterOf self.new (set_sprite_of (from / 8) (from % 8) word p) }
    {
        let sprite = from as usize / 8;
        match from % 8 {
            0 => self.sprites.set_position(sprite, word),
            2 => self.sprites.set_control(sprite, word),
            4 => self.sprites.set_data(sprite, word),
            _ => self.sprites.set_second_data(sprite, word),
        }
    }

    /// At a line's start its loads and the words that run are forgotten, and the held colour
    /// becomes COLOR00.
    #[tactic(auto, unfolding(serial_model::specs::Picture::clear_line))]
    pub fn clear_line(&mut self, beam: &Beam)
        ensures { (p : DeniseValue) → IsPainterOf self.old p
            → IsPainterOf self.new (cleared beam.now p) }
    {
        if beam.h == 0 {
            self.line.clear();
            self.sprites.clear();
            self.held = self.inks.bytes(0);
        }
    }

    /// The four pixels of a clock, of red, green and blue each. The answer is true exactly where
    /// they are visible, and only then `into` has them. At every clock the held colour goes on,
    /// sprites' words begin to run, and `clx`, CLXDAT, gathers the collisions of the pixels.
    ///
    /// Sprites are in front of the playfields by BPLCON2, and collide by CLXCON (Hardware Reference
    /// Manual, sprite hardware, priorities and collisions).
    #[inline(always)]
    pub fn show(
        &mut self,
        system: System,
        beam: &Beam,
        into: &mut [[u8; 3]; 4],
        clx: &mut u16,
    ) -> bool
        requires { beam.now.h ≤ 227 }
        ensures visible { result ≡ is_visible system beam.now.v beam.now.h }
        ensures pixels { (p : DeniseValue) → IsPainterOf self.old p → result ≡ true
            → flat_map (λ x. x) into.new ≡ pixels system beam.now.v beam.now.h p }
        ensures held { (p : DeniseValue) → IsPainterOf self.old p → IsPainterOf self.new
            (after_step (step_of system beam.now.v beam.now.h p) p) }
        ensures clx { (p : DeniseValue) → IsPainterOf self.old p
            → clx.new ≡ bit_or clx.old (step_of system beam.now.v beam.now.h p).clx }
    {
        if self.is_backdrop(beam.v, beam.h, *clx) {
            self.show_backdrop(into);
            return is_shown(system, beam);
        }
        self.show_any(system, beam, into, clx)
    }

    /// Whether it is known of a clock that its four pixels show COLOR00, with no sprite near, and
    /// that its collisions are gathered already.
    #[inline(always)]
    fn is_backdrop(&self, v: u16, h: u16, clx: u16) -> bool
        requires { h ≤ 227 }
        ensures known { result ≡ is_known_backdrop v h clx self.now }
        ensures idle { result ≡ true → IsIdle h self.now.sprites }
        ensures pixels { result ≡ true → (p : DeniseValue) → IsPainterOf self.now p
            → backdrop self.now.inks.palette ≡ clock_bytes v h p }
        ensures clx { result ≡ true → (p : DeniseValue) → IsPainterOf self.now p
            → clx ≡ bit_or clx (quiet_collisions v h p) }
    {
        self.is_blank(v, h, clx) && self.sprites.is_idle(h)
    }

    /// The same of the playfields alone, behind the last load.
    #[inline(always)]
    fn is_blank(&self, v: u16, h: u16, clx: u16) -> bool
        requires { h ≤ 227 }
        ensures known { result ≡ is_known_blank v h clx self.now }
        ensures pixels { result ≡ true → (p : DeniseValue) → IsPainterOf self.now p
            → backdrop self.now.inks.palette ≡ clock_bytes v h p }
        ensures clx { result ≡ true → (p : DeniseValue) → IsPainterOf self.now p
            → clx ≡ bit_or clx (quiet_collisions v h p) }
    {
        self.line.is_blank_from(4 * h as usize) && self.is_gathered(v, h, clx)
    }

    /// Whether a clock where no plane shows a bit is known to add no collision of the playfields: bit
    /// 0 of CLXDAT is set, or such playfields do not meet, or it is outside the display window.
    #[inline(always)]
    fn is_gathered(&self, v: u16, h: u16, clx: u16) -> bool
        requires { h ≤ 227 }
        ensures known { result ≡ is_known_gathered v h clx self.now }
        ensures clx { result ≡ true → (p : DeniseValue) → IsPainterOf self.now p
            → ((x : ℕ) → 4 * h ≤ x → row_bits self.now.line x ≡ 0)
            → clx ≡ bit_or clx (quiet_collisions v h p) }
    {
        if clx % 2 == 1 {
            return true;
        }
        if !do_playfields_meet(self.clxcon, 0) {
            return true;
        }
        self.window.excludes_clock(v, h)
    }

    /// The four pixels of any clock, and all that `show` does.
    #[inline(never)]
    fn show_any(
        &mut self,
        system: System,
        beam: &Beam,
        into: &mut [[u8; 3]; 4],
        clx: &mut u16,
    ) -> bool
        requires { beam.now.h ≤ 227 }
        ensures visible { result ≡ is_visible system beam.now.v beam.now.h }
        ensures pixels { (p : DeniseValue) → IsPainterOf self.old p → result ≡ true
            → flat_map (λ x. x) into.new ≡ pixels system beam.now.v beam.now.h p }
        ensures held { (p : DeniseValue) → IsPainterOf self.old p → IsPainterOf self.new
            (after_step (step_of system beam.now.v beam.now.h p) p) }
        ensures clx { (p : DeniseValue) → IsPainterOf self.old p
            → clx.new ≡ bit_or clx.old (step_of system beam.now.v beam.now.h p).clx }
    {
        self.show_playfields(beam.v, beam.h, into);
        self.show_sprites(beam.v, beam.h, into, clx);
        is_shown(system, beam)
    }

    /// The four pixels of a clock without sprites.
    #[inline(always)]
    fn show_playfields(&mut self, v: u16, h: u16, into: &mut [[u8; 3]; 4])
        requires { h ≤ 227 }
        ensures pixels { (p : DeniseValue) → IsPainterOf self.old p → into.new ≡ clock_bytes v h p }
        ensures held { (p : DeniseValue) → IsPainterOf self.old p
            → IsPainterOf self.new (with_held (held_after v h 4 p) p) }
    {
        if self.window.contains_clock(v, h) {
            self.show_inside(v, h, false, into);
        } else if self.window.excludes_clock(v, h) {
            self.show_outside(v, h, into);
        } else {
            self.show_columns(v, h, into);
        }
    }

    /// The four pixels of a clock inside the display window.
    #[inline(always)]
    pub(crate) fn show_inside(&mut self, v: u16, h: u16, paired: bool, into: &mut [[u8; 3]; 4])
        requires place { h ≤ 227 }
        requires pairs { paired ≡ true → ArePaired self.old.line (4 * h) }
        requires first { is_inside v (2 * h) self.old.window.diwstrt
            self.old.window.diwstop ≡ true }
        requires second { is_inside v (2 * h + 1) self.old.window.diwstrt
            self.old.window.diwstop ≡ true }
        ensures pixels { (p : DeniseValue) → IsPainterOf self.old p → into.new ≡ clock_bytes v h p }
        ensures held { (p : DeniseValue) → IsPainterOf self.old p
            → IsPainterOf self.new (with_held (held_after v h 4 p) p) }
        ensures window { self.new.window ≡ self.old.window }
        ensures sprites { self.new.sprites ≡ self.old.sprites }
        ensures line { self.new.line ≡ self.old.line }
    {
        if self.line.is_blank_from(4 * h as usize) {
            self.show_backdrop(into);
            return;
        }
        if self.inks.holds_colour() {
            self.show_held(v, h, into);
            return;
        }
        let x = 2 * (2 * h) as usize;
        let next = 2 * (2 * h + 1) as usize;
        show_inks(&self.inks, &self.line, paired, x, 0, into);
        show_inks(&self.inks, &self.line, paired, next, 2, into);
        self.held = into[3];
    }

    /// The four pixels of a clock outside the display window.
    #[inline(always)]
    fn show_outside(&mut self, v: u16, h: u16, into: &mut [[u8; 3]; 4])
        requires place { h ≤ 227 }
        requires first { is_inside v (2 * h) self.old.window.diwstrt
            self.old.window.diwstop ≡ false }
        requires second { is_inside v (2 * h + 1) self.old.window.diwstrt
            self.old.window.diwstop ≡ false }
        ensures pixels { (p : DeniseValue) → IsPainterOf self.old p → into.new ≡ clock_bytes v h p }
        ensures held { (p : DeniseValue) → IsPainterOf self.old p
            → IsPainterOf self.new (with_held (held_after v h 4 p) p) }
    {
        self.show_backdrop(into);
    }

    /// The four pixels of a clock that all show COLOR00.
    #[inline(always)]
    fn show_backdrop(&mut self, into: &mut [[u8; 3]; 4])
        ensures pixels { into.new ≡ backdrop self.old.inks.palette }
        ensures held { self.new ≡ record self.old {
          held = colour_bytes (slice_index self.old.inks.palette 0);
        } }
    {
        *into = self.inks.backdrop();
        self.held = self.inks.bytes(0);
    }

    /// The four pixels of a clock inside the display window, in hold-and-modify.
    #[inline(never)]
    fn show_held(&mut self, v: u16, h: u16, into: &mut [[u8; 3]; 4])
        requires place { h ≤ 227 }
        requires first { is_inside v (2 * h) self.old.window.diwstrt
            self.old.window.diwstop ≡ true }
        requires second { is_inside v (2 * h + 1) self.old.window.diwstrt
            self.old.window.diwstop ≡ true }
        requires held { is_held self.old.inks.con0 ≡ true }
        ensures pixels { (p : DeniseValue) → IsPainterOf self.old p → into.new ≡ clock_bytes v h p }
        ensures held { (p : DeniseValue) → IsPainterOf self.old p
            → IsPainterOf self.new (with_held (held_after v h 4 p) p) }
        ensures window { self.new.window ≡ self.old.window }
        ensures sprites { self.new.sprites ≡ self.old.sprites }
        ensures line { self.new.line ≡ self.old.line }
    {
        let x = 2 * (2 * h) as usize;
        let next = 2 * (2 * h + 1) as usize;
        let held = hold(&self.held);
        let held = show_modified(&self.inks, &self.line, held, x, 0, into);
        show_modified(&self.inks, &self.line, held, next, 2, into);
        self.held = into[3];
    }

    /// The four pixels of a clock, column by column.
    #[inline(never)]
    fn show_columns(&mut self, v: u16, h: u16, into: &mut [[u8; 3]; 4])
        requires { h ≤ 227 }
        ensures pixels { (p : DeniseValue) → IsPainterOf self.old p → into.new ≡ clock_bytes v h p }
        ensures held { (p : DeniseValue) → IsPainterOf self.old p
            → IsPainterOf self.new (with_held (held_after v h 4 p) p) }
    {
        self.show_column(v, 2 * h, 0, into);
        self.show_column(v, 2 * h + 1, 2, into);
    }

    /// The two pixels of a low-resolution column.
    fn show_column(&mut self, v: u16, column: u16, at: usize, into: &mut [[u8; 3]; 4])
        requires place { at ≤ 2 }
        requires room { column ≤ 455 }
        ensures pixels { (p : DeniseValue) → IsPainterOf self.old p → into.new ≡ slice_set
            (slice_set into.old at (colour_bytes (first_colour v column p)))
            (at + 1) (colour_bytes (second_colour v column p)) }
        ensures held { (p : DeniseValue) → IsPainterOf self.old p
            → IsPainterOf self.new (with_held (second_colour v column p) p) }
    {
        let x = 2 * column as usize;
        if !self.window.has(v, column) {
            show_border(&self.inks, at, into);
        } else if self.inks.holds_colour() {
            show_modified(&self.inks, &self.line, hold(&self.held), x, at, into);
        } else {
            show_inks(&self.inks, &self.line, false, x, at, into);
        }
        self.held = into[at + 1];
    }

    /// The sprites over the four pixels of a clock, and what collides there.
    #[inline(always)]
    fn show_sprites(&mut self, v: u16, h: u16, into: &mut [[u8; 3]; 4], clx: &mut u16)
        requires { h ≤ 227 }
        ensures pixels { (p : DeniseValue) → IsPainterOf self.old p
            → into.new ≡ clock_over v h into.old p }
        ensures runs { (p : DeniseValue) → IsPainterOf self.old p
            → IsPainterOf self.new (with_runs (runs_after h 2 p) p) }
        ensures clx { (p : DeniseValue) → IsPainterOf self.old p
            → clx.new ≡ bit_or clx.old (clock_collisions v h p) }
    {
        if !self.sprites.is_idle(h) {
            self.show_sprite_columns(v, h, into, clx);
        } else if *clx % 2 == 0 {
            self.meet_playfields(v, h, clx);
        }
    }

    /// The sprites over the four pixels of a clock, column by column, and what collides there.
    #[inline(never)]
    pub(crate) fn show_sprite_columns(
        &mut self,
        v: u16,
        h: u16,
        into: &mut [[u8; 3]; 4],
        clx: &mut u16,
    )
        requires { h ≤ 227 }
        ensures pixels { (p : DeniseValue) → IsPainterOf self.old p
            → into.new ≡ clock_over v h into.old p }
        ensures runs { (p : DeniseValue) → IsPainterOf self.old p
            → IsPainterOf self.new (with_runs (runs_after h 2 p) p) }
        ensures clx { (p : DeniseValue) → IsPainterOf self.old p
            → clx.new ≡ bit_or clx.old (clock_collisions v h p) }
        ensures window { self.new.window ≡ self.old.window }
    {
        self.show_sprite_column(v, 2 * h, 0, into, clx);
        self.show_sprite_column(v, 2 * h + 1, 2, into, clx);
    }

    /// The sprites over the two pixels of a column, and what collides there.
    #[inline(always)]
    fn show_sprite_column(
        &mut self,
        v: u16,
        column: u16,
        at: usize,
        into: &mut [[u8; 3]; 4],
        clx: &mut u16,
    )
        requires place { at ≤ 2 }
        requires room { column ≤ 455 }
        ensures pixels { (p : DeniseValue) → IsPainterOf self.old p
            → into.new ≡ column_over v column at into.old (with_runs (runs_at column p p.runs) p) }
        ensures runs { (p : DeniseValue) → IsPainterOf self.old p
            → IsPainterOf self.new (with_runs (runs_at column p p.runs) p) }
        ensures clx { (p : DeniseValue) → IsPainterOf self.old p → clx.new ≡ bit_or clx.old
            (column_collisions v column (with_runs (runs_at column p p.runs) p)) }
        ensures window { self.new.window ≡ self.old.window }
    {
        self.sprites.begin_words(column);
        if self.window.has(v, column) {
            let attached = self.sprites.attached_pairs();
            self.cover_column(column, at, attached, into, clx);
        }
    }

    /// The sprites over the two pixels of a column inside the display window, and what collides there,
    /// where these pairs are attached.
    #[inline(always)]
    pub(crate) fn cover_column(
        &self,
        column: u16,
        at: usize,
        attached: u8,
        into: &mut [[u8; 3]; 4],
        clx: &mut u16,
    )
        requires place { at ≤ 2 }
        requires room { column ≤ 455 }
        requires attached { attached ≡ attached_in self.now.sprites }
        ensures pixels { (p : DeniseValue) → IsPainterOf self.now p
            → into.new ≡ covered_column column at into.old p }
        ensures clx { (p : DeniseValue) → IsPainterOf self.now p
            → clx.new ≡ bit_or clx.old (covered_collisions column p) }
    {
        self.put_front(column, at, attached, into);
        self.gather(column, clx);
    }

    /// The sprite in front over the two pixels of such a column, where there is one.
    #[inline(always)]
    pub(crate) fn put_front(&self, column: u16, at: usize, attached: u8, into: &mut [[u8; 3]; 4])
        requires place { at ≤ 2 }
        requires room { column ≤ 455 }
        requires attached { attached ≡ attached_in self.now.sprites }
        ensures { (p : DeniseValue) → IsPainterOf self.now p
            → into.new ≡ covered_column column at into.old p }
    {
        if let Some(sprite) = self.sprites.front_pixel(column, attached) {
            let first = self.line.bits(2 * column as usize);
            let second = self.line.bits(2 * column as usize + 1);
            cover(&self.inks, sprite, first, at, into);
            cover(&self.inks, sprite, second, at + 1, into);
        }
    }

    /// What collides at the two pixels of such a column. Where all is gathered that may collide there,
    /// its planes are not looked at.
    #[inline(always)]
    pub(crate) fn gather(&self, column: u16, clx: &mut u16)
        requires { column ≤ 455 }
        ensures { (p : DeniseValue) → IsPainterOf self.now p
            → clx.new ≡ bit_or clx.old (covered_collisions column p) }
    {
        let reach = self.sprites.reach(column);
        if *clx & reach != reach {
            self.collide(column, clx);
        }
    }

    /// What collides at the two pixels of a column inside the display window. In low resolution their
    /// planes show the same.
    #[inline(never)]
    fn collide(&self, column: u16, clx: &mut u16)
        requires { column ≤ 455 }
        ensures { (p : DeniseValue) → IsPainterOf self.now p
            → clx.new ≡ bit_or clx.old (covered_collisions column p) }
    {
        let first = self.planes_at(2 * column as usize);
        let second = self.planes_at(2 * column as usize + 1);
        *clx |= self.sprites.collisions(column, self.clxcon, first);
        if second != first {
            *clx |= self.sprites.collisions(column, self.clxcon, second);
        }
    }

    /// The bits that the planes show at a high-resolution position, of as many as BPLCON0 says.
    fn planes_at(&self, x: usize) -> u8
        requires { x ≤ 1023 }
        ensures { (p : DeniseValue) → IsPainterOf self.now p → result ≡ shown_bits x p }
    {
        counted_planes(self.inks.con0(), self.line.bits(x) as u8)
    }

    /// The collisions of a clock where no sprite shows: those of the playfields with one another.
    #[inline(never)]
    pub(crate) fn meet_playfields(&self, v: u16, h: u16, clx: &mut u16)
        requires { h ≤ 227 }
        ensures { (p : DeniseValue) → IsPainterOf self.now p
            → clx.new ≡ bit_or clx.old (quiet_collisions v h p) }
    {
        self.meet_in_column(v, 2 * h, clx);
        self.meet_in_column(v, 2 * h + 1, clx);
    }

    /// The collision of the playfields with one another in a column.
    fn meet_in_column(&self, v: u16, column: u16, clx: &mut u16)
        requires { column ≤ 455 }
        ensures { (p : DeniseValue) → IsPainterOf self.now p
            → clx.new ≡ bit_or clx.old (quiet_in_column v column p) }
    {
        if !self.window.has(v, column) {
            return;
        }
        let first = self.planes_at(2 * column as usize);
        let second = self.planes_at(2 * column as usize + 1);
        if do_playfields_meet(self.clxcon, first) || do_playfields_meet(self.clxcon, second) {
            *clx |= 1;
        }
    }
}

/// Whether a frame's picture shows the beam's clock. Each system stands apart, so that its lines are
/// constants.
#[inline(always)]
fn is_shown(system: System, beam: &Beam) -> bool
    ensures { result ≡ is_visible system beam.now.v beam.now.h }
{
    match system {
        System::Pal => System::Pal.shows(beam.v, beam.h),
        System::Ntsc => System::Ntsc.shows(beam.v, beam.h),
    }
}
