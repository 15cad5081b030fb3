//! What stands beside the chips and takes part in the bus.

ghost use Rattle.std.specs.Prelude.{◌≡◌, ◌≤◌, ◌+◌, true};
ghost use Rattle.serial_model.specs.Side.{SideValue, IsInTime, poke_side, tick_side, bits_of_side, ask_of_side, give_side, no_side};
ghost use Rattle.serial_model.specs.Side.{later_side, IsQuietSide};

use crate::bus::SideAsk;
use ocs_base::{Beam, Reg};

/// A side: a part of the machine beside the chips that sees each write of a register, counts colour
/// clocks, requests interrupts, and asks for slots of the bus, as disk and audio do. Its state, as
/// contracts see it, is what it does from then on.
pub trait Side: Drop {
    /// What it does from now on.
    ghost seen: { Self → SideValue };

    /// A register was written, by whomever.
    fn poke(&mut self, reg: Reg, word: u16)
        ensures { seen self.new ≡ poke_side reg word (seen self.old) };

    /// A colour clock came, with the beam at this place and this kept word of DMACON. The answer is
    /// the bits of INTREQ that it requests.
    fn tick(&mut self, beam: &Beam, dmacon: u16) -> u16
        ensures state { seen self.new ≡ tick_side beam.now dmacon (seen self.old) }
        ensures bits { result ≡ bits_of_side beam.now dmacon (seen self.old) };

    /// What it asks for at this clock: a disk at clocks 7, 9 and 11 of a line, audio's channel c, 0
    /// to 3, at clock 13 + 2c. Where it gets the slot it is given the word.
    fn ask(&self, beam: &Beam, dmacon: u16) -> SideAsk
        ensures ask { result ≡ ask_of_side beam.now dmacon (seen self.now) }
        ensures time { IsInTime beam.now result };

    /// It got the slot, with this word: the one that it stores, or the one that it reads.
    fn give(&mut self, word: u16)
        ensures { seen self.new ≡ give_side word (seen self.old) };

    /// Whether it is known to be no side, which does nothing whatever happens. One that cannot tell answers
    /// false, as a side does that does not write this call; nothing hangs on it but how fast a run is.
    #[inline(always)]
    fn is_nothing(&self) -> bool
        ensures { result ≡ true → seen self.now ≡ no_side }
    {
        false
    }

    /// For how many clocks from this one on, in the beam's line and with this kept word of DMACON, at most so
    /// many, it requests nothing and asks for nothing, as far as it knows. One that cannot tell answers 0, as a
    /// side does that does not write this call; nothing hangs on it but how fast a run is.
    #[inline(always)]
    fn quiet(&self, beam: &Beam, dmacon: u16, most: u16) -> u16
        ensures most { result ≤ most }
        ensures quiet { IsQuietSide beam.now dmacon result (seen self.now) }
    {
        0
    }

    /// So many clocks of the line came, from this one on, with this kept word of DMACON: as many ticks, of
    /// which nobody wants the answers.
    fn skip(&mut self, beam: &Beam, dmacon: u16, clocks: u16)
        requires room { beam.now.h + clocks ≤ 226 }
        ensures { seen self.new ≡ later_side clocks beam.now dmacon (seen self.old) }
    {
        let mut passed = 0;
        while passed < clocks {
            let place = Beam {
                h: beam.h + passed,
                ..*beam
            };
            self.tick(&place, dmacon);
            passed += 1;
        }
    }
}

/// No side: it asks for nothing and requests nothing.
#[derive(Clone, Copy, Drop)]
pub struct NoSide;

impl Side for NoSide {
    ghost use Rattle.serial_model.specs.Side.{no_side};

    ghost seen = { λ side. no_side };

    #[inline(always)]
    fn poke(&mut self, _reg: Reg, _word: u16) {}

    #[inline(always)]
    fn tick(&mut self, _beam: &Beam, _dmacon: u16) -> u16 {
        0
    }

    #[inline(always)]
    fn ask(&self, _beam: &Beam, _dmacon: u16) -> SideAsk {
        SideAsk::Nothing
    }

    #[inline(always)]
    fn give(&mut self, _word: u16) {}

    #[inline(always)]
    fn is_nothing(&self) -> bool {
        true
    }

    #[inline(always)]
    fn quiet(&self, _beam: &Beam, _dmacon: u16, most: u16) -> u16 {
        most
    }

    #[inline(always)]
    fn skip(&mut self, _beam: &Beam, _dmacon: u16, _clocks: u16) {}
}
