//! An area blit from ask to ask.

ghost use Rattle.std.specs.Prelude.{◌≡◌, ◌≢◌, ◌<◌, ◌≤◌, ℕ, List, [], ◌∷◌, ◌++◌, true, false, nat_lt, if◌then◌else◌, IfSome};
ghost use Rattle.blit_words.specs.declared.blit.BlitRegs.{BlitRegs};
ghost use Rattle.blit_words.specs.declared.blit.WordAsk.{WordAsk};
ghost use Rattle.blit_words.specs.declared.blit.WordAsk.TheVariants.{D, Rest};
ghost use Rattle.blit_words.specs.Blit.{is_line, height_of, width_of};
ghost use Rattle.blit_words.specs.Blitter.{blit_ask, is_done as done_of, blit_zero, blit_end};
ghost use Rattle.blitter_area.specs.Data.{outcome_of};
ghost use Rattle.blitter_area.specs.Path.{IsPathOf};
ghost use Rattle.blitter_area.specs.Row.{IsRowOf, ask_in_row};

use crate::asks::AskRow;
use crate::channel::Pointers;
use crate::data_path::{DataPath, Outcome, Past, Words};
use blit_words::{BlitRegs, SlotAsk, WordAsk, height, is_set};
use ocs_base::Addr;

/// An area blit under way. It stands for its registers at the start and the answers that it was
/// given: `Stands`.
///
/// It keeps the present ask, a rest once it has ended, and its place in the row of asks, the column and
/// the row of the present word, the pointers of that word, the data registers, what the word before
/// left, and all results, joined by OR. The row of asks, the height and the data path are made ready at
/// the start. The outcome of the present word is ready where its write is the present ask.
#[derive(Clone, Copy)]
pub struct AreaBlit {
    pub(crate) start: BlitRegs,
    pub(crate) asks: AskRow,
    pub(crate) ask: WordAsk,
    pub(crate) height: u16,
    pub(crate) path: DataPath,
    pub(crate) pointers: Pointers,
    pub(crate) words: Words,
    pub(crate) past: Past,
    pub(crate) results: u16,
    pub(crate) row: u16,
    pub(crate) column: u16,
    pub(crate) place: u16,
    pub(crate) ready: Outcome,
    ghost asks_are: { IsRowOf asks start },
    ghost ask_is: { ask ≡ ask_in_row start row place },
    ghost height_is: { height ≡ height_of start },
    ghost path_is: { IsPathOf path start },
    ghost column_inside: { column < width_of start },
    ghost word_is: { ask ≡ D → ready.word ≡ (outcome_of start past column words).word },
    ghost past_is: { ask ≡ D → path.copies ≡ false
        → ready.past ≡ (outcome_of start past column words).past },
}

impl AreaBlit {
    ghost use Rattle.blitter_area.specs.Walk.{Stands, ForWhatItStands, EndsInputs, EndsWord, BeginsRow, IsDoneAfterAll, shown, outcome_now, aptl_now};

    /// A blit that has had no answer yet, of registers with LINE, bit 0 of BLTCON1, clear.
    pub fn start(r: &BlitRegs) -> AreaBlit
        requires { is_line r.now ≡ false }
        ensures { Stands result r.now [] }
    {
        let asks = AskRow::of(r);
        let past = Past {
            a: 0,
            b: 0,
            carry: is_set(r.con1, 2),
        };
        AreaBlit {
            start: *r,
            asks,
            ask: asks.at(0),
            height: height(r),
            path: DataPath::of(r),
            pointers: Pointers::new(r),
            words: Words {
                a: r.adat,
                b: r.bdat,
                c: r.cdat,
            },
            past,
            results: 0,
            row: 0,
            column: 0,
            place: 0,
            ready: Outcome { word: 0, past },
        }
    }

    /// What the blit does with its next slot. A write is asked for with its word. Done comes
    /// exactly where all asks of all words have answers.
    pub fn next(&self) -> SlotAsk
        ensures shown { result ≡ shown self.now }
        ensures ask { ForWhatItStands self.now (λ s ws. result ≡ blit_ask s ws) }
        ensures done { ForWhatItStands self.now (λ s ws. IsDoneAfterAll result s ws) }
    {
        self.slot_now()
    }

    /// The address and the word of the write that it makes with its next slot, where it makes one.
    #[inline(always)]
    pub fn write_ask(&self) -> Option<(Addr, u16)>
        ensures { IfSome result (λ write. shown self.now ≡ SlotAsk.Write write.0 write.1) }
    {
        match self.ask {
            WordAsk::D => Some((self.pointers.d(), self.ready.word)),
            WordAsk::A | WordAsk::B | WordAsk::C | WordAsk::Rest => None,
        }
    }

    /// The address of the read that it makes with its next slot, where it makes one.
    #[inline(always)]
    pub fn read_ask(&self) -> Option<Addr>
        ensures { IfSome result (λ at. shown self.now ≡ SlotAsk.Read at) }
    {
        match self.ask {
            WordAsk::A => Some(self.pointers.a()),
            WordAsk::B => Some(self.pointers.b()),
            WordAsk::C => Some(self.pointers.c()),
            WordAsk::D | WordAsk::Rest => None,
        }
    }

    /// Whether the blit has ended: no ask is left.
    pub fn is_done(&self) -> bool
        ensures shown { result ≡ done_of (shown self.now) }
        ensures ask { ForWhatItStands self.now (λ s ws. result ≡ done_of (blit_ask s ws)) }
    {
        self.row >= self.height
    }

    /// What it does with its next slot, by its own state.
    fn slot_now(&self) -> SlotAsk
        ensures { result ≡ shown self.now }
    {
        match self.ask {
            WordAsk::A => SlotAsk::Read {
                at: self.pointers.a(),
            },
            WordAsk::B => SlotAsk::Read {
                at: self.pointers.b(),
            },
            WordAsk::C => SlotAsk::Read {
                at: self.pointers.c(),
            },
            WordAsk::D => SlotAsk::Write {
                at: self.pointers.d(),
                word: self.ready.word,
            },
            WordAsk::Rest => self.rest_or_done(),
        }
    }

    /// The same where it makes no access: it takes the slot, or it has ended.
    fn rest_or_done(&self) -> SlotAsk
        requires { self.now.ask ≡ Rest }
        ensures { result ≡ shown self.now }
    {
        if self.row < self.height {
            SlotAsk::Rest
        } else {
            SlotAsk::Done
        }
    }

    /// Carries out the ask that `next` tells, which is not Done: the slot was got. The word counts
    /// only for a read. The answer says whether the blit has ended with it.
    #[inline(always)]
    pub fn give(&mut self, word: u16) -> bool
        requires { shown self.old ≢ SlotAsk.Done }
        ensures gives { ForWhatItStands self.old (λ s ws. Stands self.new s (ws ++ word ∷ [])) }
        ensures done { result ≡ done_of (shown self.new) }
        ensures ask { ForWhatItStands self.new (λ s ws. result ≡ done_of (blit_ask s ws)) }
    {
        match self.ask {
            WordAsk::D => self.end_word(),
            WordAsk::A | WordAsk::B | WordAsk::C | WordAsk::Rest => self.take(word),
        }
    }

    /// Takes the word that answers the present ask, which is not the write. With the last of these the
    /// outcome of the word is made ready; a blit that copies has one alone. The answer says whether the blit
    /// has ended.
    #[inline(always)]
    fn take(&mut self, word: u16) -> bool
        requires row { self.old.row < height_of self.old.start }
        requires reads { self.old.ask ≢ D }
        ensures gives { ForWhatItStands self.old (λ s ws. Stands self.new s (ws ++ word ∷ [])) }
        ensures done { result ≡ done_of (shown self.new) }
    {
        if self.path.copies {
            self.copy(word);
            return false;
        }
        self.words.take(self.ask, word);
        if self.place < self.asks.last_input {
            self.ask = self.asks.at(self.place + 1);
            self.place += 1;
            false
        } else {
            self.mix_word()
        }
    }

    /// Takes the word of A that answers the present ask of a blit that copies: it is the result, and its
    /// write comes next.
    #[inline(always)]
    fn copy(&mut self, word: u16)
        requires row { self.old.row < height_of self.old.start }
        requires reads { self.old.ask ≢ D }
        requires copies { self.old.path.copies ≡ true }
        ensures gives { ForWhatItStands self.old (λ s ws. Stands self.new s (ws ++ word ∷ [])) }
        ensures going { false ≡ done_of (shown self.new) }
    {
        self.words.a = word;
        self.ready.word = self.path.copied_word(&self.words, &self.past, self.column);
        self.ask = WordAsk::D;
        self.place = 1;
    }

    /// All inputs of the present word have answers: its outcome is made ready, by whatever path. It stands
    /// apart, so that a copied word makes no room for it. The answer says whether the blit has ended.
    #[inline(never)]
    fn mix_word(&mut self) -> bool
        requires row { self.old.row < height_of self.old.start }
        requires inputs { self.old.asks.last_input ≤ self.old.place }
        requires reads { self.old.ask ≢ D }
        ensures ends { EndsInputs self.old self.new }
        ensures done { result ≡ done_of (shown self.new) }
    {
        self.path
            .mix_into(&self.words, &self.past, self.column, &mut self.ready);
        self.end_inputs()
    }

    /// All inputs of the present word have answers, and its outcome is ready: its write comes next, or the
    /// next word where D is unused. The answer says whether the blit has ended.
    #[inline(always)]
    fn end_inputs(&mut self) -> bool
        requires row { self.old.row < height_of self.old.start }
        requires inputs { self.old.asks.last_input ≤ self.old.place }
        requires word { self.old.ready.word ≡ (outcome_now self.old).word }
        requires past { self.old.path.copies ≡ false
            → self.old.ready.past ≡ (outcome_now self.old).past }
        ensures ends { EndsInputs self.old self.new }
        ensures done { result ≡ done_of (shown self.new) }
    {
        if self.place < self.asks.last {
            self.ask = WordAsk::D;
            self.place += 1;
            false
        } else {
            self.end_word()
        }
    }

    /// BZERO: whether the results so far, after fill, are all 0. A result counts from its word's
    /// last ask on, also where D is unused.
    pub fn zero(&self) -> bool
        ensures { ForWhatItStands self.now (λ s ws. result ≡ blit_zero s ws) }
    {
        self.results == 0
    }

    /// The registers as they are now; at the end these stay. Pointers are those of the present word, and data
    /// registers have the words that were read last. BLTAPTL is the low word of A's pointer where A is used.
    pub fn regs(&self) -> BlitRegs
        ensures { ForWhatItStands self.now (λ s ws. result ≡ blit_end s ws) }
    {
        let mut regs = self.start;
        regs.apt = self.pointers.a();
        regs.bpt = self.pointers.b();
        regs.cpt = self.pointers.c();
        regs.dpt = self.pointers.d();
        regs.aptl = self.low_pointer();
        regs.adat = self.words.a;
        regs.bdat = self.words.b;
        regs.cdat = self.words.c;
        regs
    }

    /// BLTAPTL: the low word of A's pointer, or the written word where A is unused.
    fn low_pointer(&self) -> u16
        ensures { result ≡ aptl_now self.now }
    {
        if is_set(self.start.con0, 11) {
            (self.pointers.a().raw() % 65536) as u16
        } else {
            self.start.aptl
        }
    }

    /// All asks of the present word have answers, and its outcome is ready: its result counts, and the next
    /// word begins. The answer says whether the blit has ended.
    #[inline(always)]
    fn end_word(&mut self) -> bool
        requires row { self.old.row < height_of self.old.start }
        requires word { self.old.ready.word ≡ (outcome_now self.old).word }
        requires past { self.old.path.copies ≡ false
            → self.old.ready.past ≡ (outcome_now self.old).past }
        ensures ends { EndsWord self.old self.new }
        ensures done { result ≡ done_of (shown self.new) }
    {
        self.results |= self.ready.word;
        let ready = self.ready;
        self.past.follow(self.path.copies, ready);
        self.place = 0;
        self.ask = self.asks.at(0);
        self.pointers.step_word();
        if self.column < self.path.last_column {
            self.column += 1;
            false
        } else {
            self.begin_row()
        }
    }

    /// The last word of a row has ended: the next row begins, with the carry FCI. It stands apart, so that a
    /// word within a row makes no room for it. The answer says whether the blit has ended.
    #[cold]
    #[inline(never)]
    fn begin_row(&mut self) -> bool
        requires row { self.old.row < height_of self.old.start }
        requires reads { self.old.ask ≢ D }
        ensures begins { BeginsRow self.old self.new }
        ensures done { result ≡ done_of (shown self.new) }
    {
        let row = self.row + 1;
        self.ask = ask_before(self.height, row, self.ask);
        self.row = row;
        self.column = 0;
        let fci = is_set(self.start.con1, 2);
        self.past.carry = fci;
        self.pointers.step_row();
        self.is_done()
    }
}

/// An ask in a row, or a rest from the height on, where no row is left.
fn ask_before(height: u16, row: u16, ask: WordAsk) -> WordAsk
    ensures { result ≡ (if nat_lt row height then ask else Rest) }
{
    if row < height { ask } else { WordAsk::Rest }
}
