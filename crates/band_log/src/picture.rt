//! A picture state that is moved by its address.

ghost use Rattle.std.specs.Prelude.{◌≡◌, ◌*◌, IfOk};
ghost use Rattle.serial_model.specs.Keeps.{Keeps};
ghost use Rattle.serial_model.specs.Picture.{set_picture, clear_line as cleared};

use ocs_base::{Beam, OutOfMemory};
use serial_model::Denise;
use std::alloc::Global;
use std::marker::Model;

/// A picture state with memory of its own: it has some 2,000 bytes, and a job goes through many hands.
#[derive(Drop)]
pub struct Picture {
    state: Box<Denise>,
}

impl Model for Picture {
    ghost use Rattle.serial_model.specs.declared.picture.Denise.{Denise as DeniseValue};

    ghost Value = { DeniseValue };

    ghost view = { λ p. p.state.value };
}

impl Picture {
    /// Such a picture state. It is refused for want of memory alone.
    pub fn new(alloc: Global, state: Denise) -> Result<Picture, OutOfMemory>
        ensures { IfOk result (λ picture. picture ≡ state) }
    {
        Ok(Picture {
            state: Box::new(alloc, state)?,
        })
    }

    /// The picture state.
    pub fn state(&self) -> &Denise
        ensures { result.now ≡ self.now }
    {
        &self.state
    }

    /// It becomes this one.
    pub fn set(&mut self, state: Denise)
        ensures { self.new ≡ state }
    {
        *self.state = state;
    }

    /// A write at clock `h` of the line to the register at an offset. What stood for a picture state
    /// then stands for that state with the same write.
    pub fn write(&mut self, h: u16, offset: u16, word: u16)
        ensures { Keeps (4 * h) (set_picture h offset word) self.old self.new }
    {
        self.state.set(h, offset, word);
    }

    /// At a line's start its loads and running words are forgotten, and the held colour becomes COLOR00.
    pub fn clear_line(&mut self, beam: &Beam)
        ensures { self.new ≡ cleared beam.now self.old }
    {
        self.state.clear_line(beam);
    }
}
