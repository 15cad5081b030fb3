//! The way of a word from the inputs to the result.

ghost use Rattle.std.specs.Prelude.{◌≡◌, ◌≤◌, ◌<◌, ◌+◌, ℕ, true, false};
ghost use Rattle.blit_words.specs.Blit.{width_of, minterms_of, shift_of_a};
ghost use Rattle.blit_words.specs.BlitWords.{masked_word, minterm_of, shifted_input};
ghost use Rattle.blit_words.specs.AreaBlit.{is_filling as fills_of, code_of};
ghost use Rattle.blitter_area.specs.code.Copies.{IsCopy};

use blit_words::{BlitRegs, Minterms, WordAsk, fill_word, is_set, shift_input};

/// The data registers of the three inputs.
#[derive(Clone, Copy)]
pub(crate) struct Words {
    pub(crate) a: u16,
    pub(crate) b: u16,
    pub(crate) c: u16,
}

impl Words {
    ghost use Rattle.blitter_area.specs.Data.{words_with};

    /// Takes the word that answers an ask.
    pub(crate) fn take(&mut self, ask: WordAsk, word: u16)
        ensures { self.new ≡ words_with ask word self.old }
    {
        match ask {
            WordAsk::A => self.a = word,
            WordAsk::B => self.b = word,
            WordAsk::C => self.c = word,
            WordAsk::D | WordAsk::Rest => {}
        }
    }
}

/// What a word leaves for the next: its A, masked, and its B, which are shifted into it, and the
/// carry of the fill.
#[derive(Clone, Copy)]
pub(crate) struct Past {
    pub(crate) a: u16,
    pub(crate) b: u16,
    pub(crate) carry: bool,
}

impl Past {
    ghost use Rattle.blitter_area.specs.Data.{past_after};

    /// Goes on to what a word leaves: where it was copied, its A is the result, and nothing else counts.
    #[inline(always)]
    pub(crate) fn follow(&mut self, copied: bool, ready: Outcome)
        ensures { self.new ≡ past_after copied self.old ready }
    {
        if copied {
            self.a = ready.word;
        } else {
            self.a = ready.past.a;
            self.b = ready.past.b;
            self.carry = ready.past.carry;
        }
    }
}

/// A result, and what its word leaves for the next in the row.
#[derive(Clone, Copy)]
pub(crate) struct Outcome {
    pub(crate) word: u16,
    pub(crate) past: Past,
}

/// The way of a word, made ready at a blit's start: minterms, direction and shifts, the masks of A with the
/// column of the second, and the fill; and whether A and D alone are used and the words of A are the results
/// as they are.
#[derive(Clone, Copy)]
pub(crate) struct DataPath {
    pub(crate) minterms: Minterms,
    pub(crate) descending: bool,
    pub(crate) shift_a: u16,
    pub(crate) shift_b: u16,
    pub(crate) first_mask: u16,
    pub(crate) last_mask: u16,
    pub(crate) last_column: u16,
    pub(crate) fills: bool,
    pub(crate) exclusive: bool,
    pub(crate) copies: bool,
    ghost copies_is: { copies ≡ true → IsCopy minterms.lf shift_a first_mask last_mask },
    ghost copies_plain: { copies ≡ true → fills ≡ false },
    ghost shift_a_below: { shift_a < 16 },
    ghost shift_b_below: { shift_b < 16 },
    ghost last_below: { last_column < 64 },
}

impl DataPath {
    ghost use Rattle.blitter_area.specs.Path.{IsPathOf, joined_with, outcome_with};

    /// The way of the words of a blit.
    pub(crate) fn of(start: &BlitRegs) -> DataPath
        ensures { IsPathOf result start.now }
    {
        let fills = is_filling(start);
        DataPath {
            minterms: Minterms::of(start.con0 % 256),
            descending: is_set(start.con1, 1),
            shift_a: start.con0 >> 12,
            shift_b: start.con1 >> 12,
            first_mask: start.afwm,
            last_mask: start.alwm,
            last_column: width(start) - 1,
            fills,
            exclusive: is_set(start.con1, 4),
            copies: !fills && is_copy(start),
        }
    }

    /// The result of a word in a column of its row, where the words of A are the results as they are.
    #[inline(always)]
    pub(crate) fn copied_word(&self, words: &Words, past: &Past, column: u16) -> u16
        requires { self.now.copies ≡ true }
        ensures { result ≡ (outcome_with self.now past.now column words.now).word }
    {
        self.copy(past.a, column, words.a)
    }

    /// A word of A behind the word before it, which is the result as it is.
    #[inline(always)]
    fn copy(&self, before: u16, column: u16, word: u16) -> u16
        requires { self.now.copies ≡ true }
        ensures masked { result ≡ masked_word self.now.first_mask self.now.last_mask
            (self.now.last_column + 1) column word }
        ensures joined { (b c : ℕ) → result ≡ minterm_of self.now.minterms.lf
            (shifted_input self.now.descending self.now.shift_a before result) b c }
    {
        word
    }

    /// Puts down the outcome of a word in a column of its row: the result, and what the word leaves for
    /// the next.
    #[inline(always)]
    pub(crate) fn mix_into(&self, words: &Words, past: &Past, column: u16, outcome: &mut Outcome)
        ensures { outcome.new ≡ outcome_with self.now past.now column words.now }
    {
        let mut masked = *words;
        masked.a = self.mask(column, words.a);
        let joined = self.join(&masked, past);
        if self.fills {
            let (word, carry) = fill_word(self.exclusive, past.carry, joined);
            outcome.word = word;
            outcome.past.a = masked.a;
            outcome.past.b = masked.b;
            outcome.past.carry = carry;
        } else {
            outcome.word = joined;
            outcome.past.a = masked.a;
            outcome.past.b = masked.b;
            outcome.past.carry = past.carry;
        }
    }

    /// The word of A under BLTAFWM in the first column of a row and under BLTALWM in the last.
    fn mask(&self, column: u16, word: u16) -> u16
        ensures { result ≡ masked_word self.now.first_mask self.now.last_mask
            (self.now.last_column + 1) column word }
    {
        let first = if column == 0 {
            word & self.first_mask
        } else {
            word
        };
        if column == self.last_column {
            first & self.last_mask
        } else {
            first
        }
    }

    /// The minterm of the inputs, A already masked.
    fn join(&self, words: &Words, past: &Past) -> u16
        ensures { result ≡ joined_with self.now past.now words.now }
    {
        let a = shift_input(self.descending, self.shift_a, past.a, words.a);
        let b = shift_input(self.descending, self.shift_b, past.b, words.b);
        self.minterms.join(a, b, words.c)
    }
}

/// The width of a blit in words: bits 5 to 0 of BLTSIZE, 0 meaning 64.
#[tactic(auto, unfolding(blit_words::specs::Blit::width_of))]
fn width(start: &BlitRegs) -> u16
    ensures value { result ≡ width_of start.now }
    ensures some { 1 ≤ result }
    ensures most { result ≤ 64 }
{
    let words = start.size % 64;
    if words == 0 { 64 } else { words }
}

/// Whether A and D alone are used, a word of A is the minterm, and A has neither a shift nor a mask with a 0.
fn is_copy(start: &BlitRegs) -> bool
    ensures path { result ≡ true → IsCopy (minterms_of start.now) (shift_of_a start.now)
        start.now.afwm start.now.alwm }
    ensures channels { result ≡ true → code_of start.now ≡ 9 }
{
    start.con0 == 0x09f0 && start.afwm == 0xffff && start.alwm == 0xffff
}

/// Whether the blit fills: in descending mode alone, with EFE or IFE. That it does so in descending
/// mode alone is this project's profile.
fn is_filling(start: &BlitRegs) -> bool
    ensures { result ≡ fills_of start.now }
{
    is_set(start.con1, 1) && (is_set(start.con1, 4) || is_set(start.con1, 3))
}
