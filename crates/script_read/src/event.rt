//! The line of an event.

ghost use Rattle.std.specs.Prelude.{◌≡◌, ◌^◌, ◌<◌, false, IfSome};
ghost use Rattle.ocs_base.specs.Systems.{lines};
ghost use Rattle.script_read.specs.Words.{below, hex_number, register_named, poke_of, peek_of, joy_of, fire_of, key_of, act_of, timed, event_of};
ghost use Rattle.script_read.specs.code.Cut.{words_left};

use crate::cut::EventWords;
use crate::parts::{event_words, one_word, same_text, two_words};
use ocs_base::{Act, At, Reg, System};
use ocs_io::{dec, hex};

/// Reads an event of a run of so many frames for this system; None exactly where the line is none.
#[tactic(auto, using(crate::proofs::EventLaws::event_laws))]
pub fn read_event(system: System, frames: u32, line: &[u8]) -> Option<At>
    ensures { result ≡ event_of system frames line.now }
{
    let words = event_words(line)?;
    if same_text(words.at, b"at") {
        event_at(system, frames, words)
    } else {
        None
    }
}

/// The event that the words of a line say, the first of which is `at`.
fn event_at(system: System, frames: u32, words: EventWords<'_>) -> Option<At>
    ensures { result ≡ timed
        (below frames words.entry.frame.now) (below (lines system false) words.entry.v.now)
        (below 227 words.entry.h.now)
        (act_of words.entry.verb.now (words_left words.entry.args)) }
{
    let frame = number_below(frames, words.frame)?;
    let v = beam_line(system, words.v)?;
    let h = number_below(227, words.h)? as u16;
    let act = read_act(words.verb, words.args)?;
    Some(At { frame, v, h, act })
}

#[tactic(auto, unfolding(crate::specs::Words::act_of))]
fn read_act(verb: &[u8], args: Option<&[u8]>) -> Option<Act>
    ensures { result ≡ act_of verb.now (words_left args.entry) }
{
    if same_text(verb, b"poke") {
        read_poke(args)
    } else if same_text(verb, b"peek") {
        read_peek(args)
    } else if same_text(verb, b"joy") {
        read_joy(args)
    } else if same_text(verb, b"fire") {
        read_fire(args)
    } else if same_text(verb, b"key") {
        read_key(args)
    } else {
        None
    }
}

#[tactic(auto, using(crate::proofs::EventLaws::act_laws))]
fn read_poke(args: Option<&[u8]>) -> Option<Act>
    ensures { result ≡ poke_of (words_left args.entry) }
{
    let words = two_words(args)?;
    let reg = register(words.first)?;
    let word = hex_digits(4, words.second)?;
    Some(Act::Poke { reg, word })
}

#[tactic(auto, using(crate::proofs::EventLaws::act_laws))]
fn read_peek(args: Option<&[u8]>) -> Option<Act>
    ensures { result ≡ peek_of (words_left args.entry) }
{
    let reg = register(one_word(args)?)?;
    Some(Act::Peek { reg })
}

#[tactic(auto, using(crate::proofs::EventLaws::act_laws))]
fn read_joy(args: Option<&[u8]>) -> Option<Act>
    ensures { result ≡ joy_of (words_left args.entry) }
{
    let words = two_words(args)?;
    let port = number_below(2, words.first)? as u8;
    let word = hex_digits(4, words.second)?;
    Some(Act::Joy { port, word })
}

#[tactic(auto, using(crate::proofs::EventLaws::act_laws))]
fn read_fire(args: Option<&[u8]>) -> Option<Act>
    ensures { result ≡ fire_of (words_left args.entry) }
{
    let words = two_words(args)?;
    let port = number_below(2, words.first)? as u8;
    let down = number_below(2, words.second)? == 1;
    Some(Act::Fire { port, down })
}

#[tactic(auto, using(crate::proofs::EventLaws::act_laws))]
fn read_key(args: Option<&[u8]>) -> Option<Act>
    ensures { result ≡ key_of (words_left args.entry) }
{
    let code = hex_digits(2, one_word(args)?)? as u8;
    Some(Act::Key { code })
}

/// A register by its three digits.
#[tactic(auto, using(crate::proofs::EventLaws::register_laws))]
fn register(text: &[u8]) -> Option<Reg>
    ensures { result ≡ register_named text.now }
{
    Reg::new(hex_digits(3, text)?)
}

/// A number of so many hexadecimal digits.
#[tactic(auto, using(crate::proofs::EventLaws::hex_laws), unfolding(crate::specs::Words::hex_number))]
fn hex_digits(digits: usize, text: &[u8]) -> Option<u16>
    ensures value { result ≡ hex_number digits text.now }
    ensures fits { IfSome result (λ n. n < 16 ^ digits) }
{
    if text.len() != digits {
        return None;
    }
    hex(text)
}

/// A line of the beam that each field of the system has.
#[tactic(auto, using(crate::proofs::EventLaws::line_laws))]
fn beam_line(system: System, text: &[u8]) -> Option<u16>
    ensures { result ≡ below (lines system false) text.now }
{
    let v = number_below(system.lines(false) as u32, text)?;
    Some(v as u16)
}

/// A decimal number below a limit.
#[tactic(auto, unfolding(crate::specs::Words::below))]
fn number_below(limit: u32, text: &[u8]) -> Option<u32>
    ensures value { result ≡ below limit text.now }
    ensures fits { IfSome result (λ n. n < limit) }
{
    let n = dec(text)?;
    if n < limit as u64 {
        Some(n as u32)
    } else {
        None
    }
}
