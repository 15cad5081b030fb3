//! Lines and words off the front of a text.

ghost use Rattle.std.specs.Prelude.{◌≡◌, ◌==◌, ◌<◌, ◌∷◌, length, bytes_eq, IfSome};
ghost use Rattle.std.specs.List.{position};
ghost use Rattle.script_read.specs.Split.{words_of};
ghost use Rattle.script_read.specs.code.Cut.{words_left, IsNextLine, AreTwo, IsOne, AreEventWords};

use crate::cut::{EventWords, Line, TwoWords, Word};

/// The first line of a text, where there is one: a line feed at the end makes no further line.
#[tactic(auto, using(crate::proofs::SplitLaws::line_laws))]
pub fn next_line(text: &[u8]) -> Option<Line<'_>>
    ensures { IsNextLine text.now result }
{
    if text.is_empty() {
        return None;
    }
    match place_of(text, b'\n') {
        Some(at) => Some(Line {
            text: &text[..at],
            rest: &text[at + 1..],
        }),
        None => Some(Line { text, rest: &[] }),
    }
}

/// The first word of a line.
#[tactic(auto, using(crate::proofs::SplitLaws::word_laws))]
pub fn cut_word(text: &[u8]) -> Word<'_>
    ensures { words_of text.now ≡ result.text.now ∷ words_left result.rest }
{
    match place_of(text, b' ') {
        Some(at) => Word {
            text: &text[..at],
            rest: Some(&text[at + 1..]),
        },
        None => Word { text, rest: None },
    }
}

/// The word of a line that has one.
pub fn one_word(words: Option<&[u8]>) -> Option<&[u8]>
    ensures { IsOne (words_left words.entry) result }
{
    let word = cut_word(words?);
    match word.rest {
        None => Some(word.text),
        Some(_) => None,
    }
}

/// The words of a line that has two.
pub fn two_words(words: Option<&[u8]>) -> Option<TwoWords<'_>>
    ensures { AreTwo (words_left words.entry) result }
{
    let first = cut_word(words?);
    let second = cut_word(first.rest?);
    match second.rest {
        None => Some(TwoWords {
            first: first.text,
            second: second.text,
        }),
        Some(_) => None,
    }
}

/// The words of a line that has five or more.
pub fn event_words(line: &[u8]) -> Option<EventWords<'_>>
    ensures { AreEventWords (words_of line.now) result }
{
    let at = cut_word(line);
    let frame = cut_word(at.rest?);
    let v = cut_word(frame.rest?);
    let h = cut_word(v.rest?);
    let verb = cut_word(h.rest?);
    Some(EventWords {
        at: at.text,
        frame: frame.text,
        v: v.text,
        h: h.text,
        verb: verb.text,
        args: verb.rest,
    })
}

/// Whether two texts are the same.
pub fn same_text(text: &[u8], other: &[u8]) -> bool
    ensures { result ≡ bytes_eq text.now other.now }
{
    text == other
}

/// Where a byte stands first.
fn place_of(text: &[u8], byte: u8) -> Option<usize>
    ensures place { result ≡ position (λ b. b == byte) text.now }
    ensures within { IfSome result (λ at. at < length text.now) }
{
    text.iter().position(|b| *b == byte)
}
