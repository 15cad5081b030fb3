//! A side that is always the same.

ghost use Rattle.std.specs.Prelude.{[]};

use ocs_base::{Beam, Reg};
use serial_model::{Side, SideAsk};

/// A side that requests the same bits of INTREQ at each clock and asks for nothing.
#[derive(Drop)]
pub struct Steady {
    pub bits: u16,
}

impl Side for Steady {
    ghost use Rattle.serial_model.specs.declared.bus.SideAsk.TheVariants.{Nothing};

    ghost seen = { λ side. record {
      bits = λ later b dmacon. side.bits;
      ask = λ later b dmacon. Nothing;
      shows = λ later. [];
    } };

    fn poke(&mut self, _reg: Reg, _word: u16) {}

    fn tick(&mut self, _beam: &Beam, _dmacon: u16) -> u16 {
        self.bits
    }

    fn ask(&self, _beam: &Beam, _dmacon: u16) -> SideAsk {
        SideAsk::Nothing
    }

    fn give(&mut self, _word: u16) {}
}
