//! The picture state, which Denise keeps between two picture steps, and what may change it.

ghost use Rattle.std.specs.Prelude.{◌≡◌, ◌≢◌, ◌<◌, ◌*◌, ◌/◌, ◌%◌, ℕ, slice_set};

use ocs_base::{Addr, Beam, Colour, Reg};
use planes::Loads;
use sprites::Runs;

/// The picture state.
#[derive(Drop)]
pub struct Denise {
    /// COLOR00 to COLOR31, colours of twelve bits.
    pub palette: [u16; 32],
    /// BPLCON0, BPLCON1 and BPLCON2.
    pub con0: u16,
    pub con1: u16,
    pub con2: u16,
    /// DIWSTRT and DIWSTOP, the display window.
    pub diwstrt: u16,
    pub diwstop: u16,
    /// CLXCON.
    pub clxcon: u16,
    /// The latches BPL1DAT to BPL6DAT.
    pub latches: [u16; 6],
    /// The loads of this line.
    pub loads: Loads,
    /// The sprites' words that run on this line.
    pub runs: Runs,
    /// SPR0POS to SPR7POS, and so for CTL, DATA and DATB.
    pub pos: [u16; 8],
    pub ctl: [u16; 8],
    pub words_a: [u16; 8],
    pub words_b: [u16; 8],
    /// Which sprites are armed: bit n is set for sprite n.
    pub armed: u8,
    /// The playfields' colour of the pixel before, which hold-and-modify changes.
    pub held: Colour,
}

impl Denise {
    ghost use Rattle.serial_model.specs.Picture.{reset_picture, set_picture, set_sprite as set_sprite_of, add_load, clear_line as cleared};
    ghost use Rattle.serial_model.specs.Registers.{is_picture_register};
    ghost use Rattle.serial_model.specs.StandsFor.{StandsFor};
    ghost use Rattle.serial_model.specs.Keeps.{Keeps};

    /// The picture state at reset: every register is 0, and so every colour black; nothing is loaded,
    /// runs or is armed.
    #[tactic(auto, unfolding(crate::specs::Picture::reset_picture))]
    pub fn reset() -> Denise
        ensures { result ≡ reset_picture }
    {
        Denise {
            palette: [0; 32],
            con0: 0,
            con1: 0,
            con2: 0,
            diwstrt: 0,
            diwstop: 0,
            clxcon: 0,
            latches: [0; 6],
            loads: Loads::new(),
            runs: Runs::new(),
            pos: [0; 8],
            ctl: [0; 8],
            words_a: [0; 8],
            words_b: [0; 8],
            armed: 0,
            held: Colour(0),
        }
    }

    /// Whether a register is one of Denise's.
    #[tactic(auto, using(crate::proofs::PictureRegisters::picture_law, std::proofs::lemmas::Bool::Decides::nat_tests))]
    pub fn has_register(reg: Reg) -> bool
        ensures { result ≡ is_picture_register reg.offset }
    {
        matches!(
            reg.offset,
            0x08e | 0x090 | 0x098 | 0x100..=0x104 | 0x110..=0x11a | 0x140..=0x17e | 0x180..=0x1be
        )
    }

    /// A write at clock `h` of the line to the register at an offset. What stood for a picture state
    /// then stands for that state with the same write.
    pub fn set(&mut self, h: u16, offset: u16, word: u16)
        ensures { Keeps (4 * h) (set_picture h offset word) self.old self.new }
    {
        if offset == 0x110 {
            self.load(h, word);
        } else {
            self.set_plain(offset, word);
        }
    }

    /// A write to BPL1DAT: the six latches are loaded.
    fn load(&mut self, h: u16, word: u16)
        ensures { StandsFor (4 * h) self.new
            (add_load h (record self.old { latches = slice_set self.old.latches 0 word })) }
    {
        self.latches[0] = word;
        let hires = self.con0 >> 15 & 1 == 1;
        self.loads.load(h, &self.latches, self.con1, hires);
    }

    /// A write to any other register.
    #[tactic(auto, unfolding(crate::specs::Picture::set_picture))]
    fn set_plain(&mut self, offset: u16, word: u16)
        requires { offset ≢ 0x110 }
        ensures { (h : ℕ) → self.new ≡ set_picture h offset word self.old }
    {
        match offset {
            0x08e => self.diwstrt = word,
            0x090 => self.diwstop = word,
            0x098 => self.clxcon = word,
            0x100 => self.con0 = word,
            0x102 => self.con1 = word,
            0x104 => self.con2 = word,
            0x112..=0x11a => self.latches[(offset - 0x110) as usize / 2] = word,
            0x140..=0x17e => self.set_sprite(offset - 0x140, word),
            0x180..=0x1be => self.palette[(offset - 0x180) as usize / 2] = word % 0x1000,
            _ => {}
        }
    }

    /// A write to a sprite's register, which lies so far behind SPR0POS.
    fn set_sprite(&mut self, from: u16, word: u16)
        requires { from < 64 }
        ensures { self.new ≡ set_sprite_of (from / 8) (from % 8) word self.old }
    {
        let sprite = from as usize / 8;
        match from % 8 {
            0 => self.pos[sprite] = word,
            2 => {
                self.ctl[sprite] = word;
                self.armed &= !(1 << sprite);
            }
            4 => {
                self.words_a[sprite] = word;
                self.armed |= 1 << sprite;
            }
            _ => self.words_b[sprite] = word,
        }
    }

    /// At a line's start its loads and running words are forgotten, and the held colour becomes
    /// COLOR00.
    #[tactic(auto, unfolding(crate::specs::Picture::clear_line))]
    pub fn clear_line(&mut self, beam: &Beam)
        ensures { self.new ≡ cleared beam.now self.old }
    {
        if beam.h == 0 {
            self.loads.clear();
            self.runs = Runs::new();
            self.held = Colour(self.palette[0]);
        }
    }

    /// The same picture state once more. It takes no memory.
    pub fn copied(&self) -> Denise
        ensures { result ≡ self.now }
    {
        Denise {
            palette: self.palette,
            con0: self.con0,
            con1: self.con1,
            con2: self.con2,
            diwstrt: self.diwstrt,
            diwstop: self.diwstop,
            clxcon: self.clxcon,
            latches: self.latches,
            loads: self.loads.copied(),
            runs: self.runs,
            pos: self.pos,
            ctl: self.ctl,
            words_a: self.words_a,
            words_b: self.words_b,
            armed: self.armed,
            held: self.held,
        }
    }
}

/// What changes the picture state besides the picture step itself: a write to one of Denise's
/// registers, or a word of memory that fills the latch of a bitplane, 1 to 6, or SPRxDATA or,
/// `second`, SPRxDATB of a sprite, 0 to 7. Of that word it names the address alone.
#[derive(Clone, Copy)]
pub enum Touch {
    Set { reg: Reg, word: u16 },
    Plane { plane: u8, at: Addr },
    Sprite { sprite: u8, second: bool, at: Addr },
}
