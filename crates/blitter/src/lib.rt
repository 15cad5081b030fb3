//! The blitter: a blit of either kind, by LINE of BLTCON1.
#![tactic(auto)]

ghost use Rattle.std.specs.Prelude.{◌≡◌, ◌≢◌, ℕ, List, [], ◌∷◌, ◌++◌, IfSome};
ghost use Rattle.blit_words.specs.declared.blit.BlitRegs.{BlitRegs};
ghost use Rattle.blit_words.specs.Blitter.{blit_ask, is_done as done_of, blit_zero, blit_end};

use blit_words::is_set;
pub use blit_words::{BlitRegs, SlotAsk};
use blitter_area::AreaBlit;
use blitter_line::LineBlit;
use ocs_base::Addr;

/// A blit under way. It stands for its registers at the start and the answers that it was given: `StandsFor`.
#[derive(Clone, Copy)]
pub enum Blit {
    Area(AreaBlit),
    Line(LineBlit),
}

impl Blit {
    ghost use Rattle.blitter.specs.StandsFor.{StandsFor, ForWhatItStands, slot_shown};

    /// A blit that has had no answer yet: a line where LINE, bit 0 of BLTCON1, is set, else an area.
    pub fn start(r: &BlitRegs) -> Blit
        ensures { StandsFor result r.now [] }
    {
        if is_set(r.con1, 0) {
            Blit::Line(LineBlit::start(r))
        } else {
            Blit::Area(AreaBlit::start(r))
        }
    }

    /// What the blit does with its next slot. A write is asked for with its word; Done comes once
    /// all asks have answers.
    #[inline(always)]
    pub fn next(&self) -> SlotAsk
        ensures shown { result ≡ slot_shown self.now }
        ensures ask { ForWhatItStands self.now (λ s ws. result ≡ blit_ask s ws) }
    {
        match self {
            Blit::Area(blit) => blit.next(),
            Blit::Line(blit) => blit.next(),
        }
    }

    /// The address and the word of the write that an area blit makes with its next slot, where it makes one.
    #[inline(always)]
    pub fn area_write(&self) -> Option<(Addr, u16)>
        ensures { IfSome result (λ write. slot_shown self.now ≡ SlotAsk.Write write.0 write.1) }
    {
        match self {
            Blit::Area(blit) => blit.write_ask(),
            Blit::Line(_) => None,
        }
    }

    /// The address of the read that an area blit makes with its next slot, where it makes one.
    #[inline(always)]
    pub fn area_read(&self) -> Option<Addr>
        ensures { IfSome result (λ at. slot_shown self.now ≡ SlotAsk.Read at) }
    {
        match self {
            Blit::Area(blit) => blit.read_ask(),
            Blit::Line(_) => None,
        }
    }

    /// Carries out the ask that `next` tells, which is not Done: the slot was got. The word counts
    /// only for a read. The answer says whether the blit has ended with it.
    #[inline(always)]
    pub fn give(&mut self, word: u16) -> bool
        requires { slot_shown self.old ≢ SlotAsk.Done }
        ensures gives { ForWhatItStands self.old (λ s ws. StandsFor self.new s (ws ++ word ∷ [])) }
        ensures done { result ≡ done_of (slot_shown self.new) }
        ensures ask { ForWhatItStands self.new (λ s ws. result ≡ done_of (blit_ask s ws)) }
    {
        match self {
            Blit::Area(blit) => blit.give(word),
            Blit::Line(blit) => blit.give(word),
        }
    }

    /// BZERO: whether the results so far are all 0.
    pub fn zero(&self) -> bool
        ensures { ForWhatItStands self.now (λ s ws. result ≡ blit_zero s ws) }
    {
        match self {
            Blit::Area(blit) => blit.zero(),
            Blit::Line(blit) => blit.zero(),
        }
    }

    /// The registers as they are now; at the end these stay.
    pub fn regs(&self) -> BlitRegs
        ensures { ForWhatItStands self.now (λ s ws. result ≡ blit_end s ws) }
    {
        match self {
            Blit::Area(blit) => blit.regs(),
            Blit::Line(blit) => blit.regs(),
        }
    }
}
