//! A line blit from ask to ask.

ghost use Rattle.std.specs.Prelude.{◌≡◌, ◌≢◌, ◌<◌, ℕ, List, [], ◌∷◌, ◌++◌, true};
ghost use Rattle.blit_words.specs.declared.blit.BlitRegs.{BlitRegs};
ghost use Rattle.blit_words.specs.Blit.{is_line, height_of, minterms_of};
ghost use Rattle.blit_words.specs.Blitter.{blit_ask, is_done as done_of, blit_zero, blit_end};

use crate::points::{dot, first, go_on, texture};
use blit_words::{BlitRegs, LinePoint, Minterms, SlotAsk, height, is_set};

/// A line blit under way. It stands for its registers at the start and the answers that it was
/// given: `Stands`.
///
/// It keeps the present point and its number, the place among its four asks, BLTCDAT, and whether
/// all results were 0.
#[derive(Clone, Copy)]
pub struct LineBlit {
    pub(crate) start: BlitRegs,
    pub(crate) minterms: Minterms,
    pub(crate) point: LinePoint,
    pub(crate) source: u16,
    pub(crate) zero: bool,
    pub(crate) count: u16,
    pub(crate) place: u16,
    ghost lf_is: { minterms.lf ≡ minterms_of start },
    ghost shift_below: { point.shift < 16 },
}

impl LineBlit {
    ghost use Rattle.blitter_line.specs.Walk.{Stands, ForWhatItStands, EndsPoint, IsDoneAfterAll, shown, shown_ask, word_now, reads_source, source_with};

    /// A blit that has had no answer yet, of registers with LINE, bit 0 of BLTCON1, set.
    pub fn start(r: &BlitRegs) -> LineBlit
        requires { is_line r.now ≡ true }
        ensures { Stands result r.now [] }
    {
        LineBlit {
            start: *r,
            minterms: Minterms::of(r.con0 % 256),
            point: first(r),
            source: r.cdat,
            zero: true,
            count: 0,
            place: 0,
        }
    }

    /// What the blit does with its next slot. A write is asked for with its word. Done comes
    /// exactly where all four asks of all points have answers; the number of points is the height.
    pub fn next(&self) -> SlotAsk
        ensures shown { result ≡ shown self.now }
        ensures ask { ForWhatItStands self.now (λ s ws. result ≡ blit_ask s ws) }
        ensures done { ForWhatItStands self.now (λ s ws. IsDoneAfterAll result s ws) }
    {
        self.slot_now()
    }

    /// Whether the blit has ended: no ask is left. Unlike `next` it works out no word to write.
    pub fn is_done(&self) -> bool
        ensures shown { result ≡ done_of (shown self.now) }
        ensures ask { ForWhatItStands self.now (λ s ws. result ≡ done_of (blit_ask s ws)) }
    {
        self.count >= height(&self.start)
    }

    /// What it does with its next slot, by its own state.
    fn slot_now(&self) -> SlotAsk
        ensures { result ≡ shown self.now }
    {
        if self.count < height(&self.start) {
            self.slot_ask()
        } else {
            SlotAsk::Done
        }
    }

    /// What it does with the slot of the present ask: a rest, the read of C, a rest, and the write
    /// of D. C or D is a rest where it is unused. That is this project's profile.
    fn slot_ask(&self) -> SlotAsk
        ensures { result ≡ shown_ask self.now self.now.start }
    {
        if self.reads() {
            SlotAsk::Read { at: self.point.at }
        } else if self.place == 3 && is_set(self.start.con0, 8) {
            SlotAsk::Write {
                at: self.point.at,
                word: self.word(),
            }
        } else {
            SlotAsk::Rest
        }
    }

    /// Carries out the ask that `next` tells, which is not Done: the slot was got. The word counts
    /// only for a read. The answer says whether the blit has ended with it.
    #[inline(never)]
    pub fn give(&mut self, word: u16) -> bool
        requires { shown self.old ≢ SlotAsk.Done }
        ensures gives { ForWhatItStands self.old (λ s ws. Stands self.new s (ws ++ word ∷ [])) }
        ensures done { result ≡ done_of (shown self.new) }
        ensures ask { ForWhatItStands self.new (λ s ws. result ≡ done_of (blit_ask s ws)) }
    {
        self.source = self.source_after(word);
        if self.place < 3 {
            self.place += 1;
            false
        } else {
            self.end_point();
            self.is_done()
        }
    }

    /// BZERO: whether the results so far are all 0. A result counts from its point's fourth ask on,
    /// also where D is unused.
    pub fn zero(&self) -> bool
        ensures { ForWhatItStands self.now (λ s ws. result ≡ blit_zero s ws) }
    {
        self.zero
    }

    /// The registers as they are now; at the end these stay. BLTCPT and BLTDPT are the point's
    /// address, BLTAPTL is the accumulator, and BLTCDAT is the word that was read last.
    pub fn regs(&self) -> BlitRegs
        ensures { ForWhatItStands self.now (λ s ws. result ≡ blit_end s ws) }
    {
        let mut regs = self.start;
        regs.cpt = self.point.at;
        regs.dpt = self.point.at;
        regs.aptl = self.point.sum.cast_unsigned();
        regs.cdat = self.source;
        regs
    }

    /// Whether the present ask reads C.
    fn reads(&self) -> bool
        ensures { result ≡ reads_source self.now.start self.now.place }
    {
        self.place == 1 && is_set(self.start.con0, 9)
    }

    /// BLTCDAT after the present ask, where this word answers it.
    fn source_after(&self, word: u16) -> u16
        ensures { result ≡ source_with self.now.start self.now.place word self.now.source }
    {
        if self.reads() { word } else { self.source }
    }

    /// The result of the present point.
    fn word(&self) -> u16
        ensures { result ≡ word_now self.now self.now.start }
    {
        self.minterms.join(
            dot(&self.start, &self.point),
            texture(&self.start, self.count),
            self.source,
        )
    }

    /// All asks of the present point have answers: its result counts, and the next point is the present one.
    fn end_point(&mut self)
        requires { self.old.count < height_of self.old.start }
        ensures { EndsPoint self.old self.new }
    {
        self.zero &= self.word() == 0;
        self.place = 0;
        self.count += 1;
        go_on(&self.start, &mut self.point);
    }
}
