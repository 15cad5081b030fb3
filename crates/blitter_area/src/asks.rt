//! The asks of a word.

ghost use Rattle.std.specs.Prelude.{◌≡◌, ◌/◌, ◌%◌, ◌<◌, ◌≤◌};
ghost use Rattle.blit_words.specs.AreaBlit.{asks_in, asks_per_word};
ghost use Rattle.blitter_area.specs.Rows.{pad_row};

use blit_words::{BlitRegs, WordAsk, is_set};

/// The asks of a word, with rests behind the last, the place of the last, and that of the last which is not
/// the write: with its answer all inputs of the word are there.
#[derive(Clone, Copy)]
pub(crate) struct AskRow {
    asks: [WordAsk; 4],
    pub(crate) last: u16,
    pub(crate) last_input: u16,
}

impl AskRow {
    ghost use Rattle.blitter_area.specs.Row.{IsRowOf, AsksAt};

    /// The asks of each word of a blit.
    pub(crate) fn of(start: &BlitRegs) -> AskRow
        ensures { IsRowOf result start.now }
    {
        let last = asks(start) - 1;
        AskRow {
            asks: ask_row(code(start)),
            last,
            last_input: if is_set(start.con0, 8) {
                last - 1
            } else {
                last
            },
        }
    }

    /// The ask at a place of a word, from 0.
    pub(crate) fn at(&self, place: u16) -> WordAsk
        ensures { AsksAt self.now place result }
    {
        if place < 4 {
            self.asks[place as usize]
        } else {
            WordAsk::Rest
        }
    }
}

/// USEA, USEB, USEC and USED of BLTCON0 as one number, from 8 down to 1.
fn code(start: &BlitRegs) -> u16
    ensures value { result ≡ start.now.con0 / 256 % 16 }
    ensures below { result < 16 }
{
    start.con0 / 256 % 16
}

/// The asks of a word by the channels in use, with rests behind the last. That they come in these
/// slots is this project's profile.
#[tactic(auto, unfolding(blit_words::specs::AreaBlit::asks_in))]
fn ask_row(code: u16) -> [WordAsk; 4]
    requires { code < 16 }
    ensures { result ≡ pad_row (asks_in code) }
{
    use WordAsk::{A, B, C, D, Rest};
    match code {
        0 => [Rest, Rest, Rest, Rest],
        1 => [Rest, D, Rest, Rest],
        2 => [Rest, C, Rest, Rest],
        3 => [Rest, C, D, Rest],
        4 => [Rest, B, Rest, Rest],
        5 => [Rest, B, D, Rest],
        6 => [Rest, B, C, Rest],
        7 => [Rest, B, C, D],
        8 => [A, Rest, Rest, Rest],
        9 => [A, D, Rest, Rest],
        10 => [A, C, Rest, Rest],
        11 => [A, C, D, Rest],
        12 => [A, B, Rest, Rest],
        13 => [A, B, D, Rest],
        14 => [A, B, C, Rest],
        _ => [A, B, C, D],
    }
}

/// How many asks a word has.
#[tactic(auto, unfolding(blit_words::specs::AreaBlit::asks_in, blit_words::specs::AreaBlit::asks_per_word))]
fn asks(start: &BlitRegs) -> u16
    ensures value { result ≡ asks_per_word start.now }
    ensures some { 2 ≤ result }
    ensures few { result ≤ 4 }
{
    match code(start) {
        0 | 1 | 2 | 8 | 9 | 10 => 2,
        7 | 15 => 4,
        _ => 3,
    }
}
