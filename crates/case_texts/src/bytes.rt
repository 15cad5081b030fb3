//! The bytes that lines of a run tell: words of the image, words that are left in memory, and pixels.

use crate::fault::TextFault;
use crate::told::{address, colour, number, told, words};

/// Which of these lines are read.
#[derive(Clone, Copy)]
pub(crate) enum Kind {
    Image,
    Track,
    Audio,
    Left,
    Holds,
    Pixels,
}

/// The word with which these lines begin.
fn word_of(kind: Kind) -> &'static str {
    match kind {
        Kind::Image => "image",
        Kind::Track => "track",
        Kind::Audio => "audio",
        Kind::Left => "left",
        Kind::Holds => "holds",
        Kind::Pixels => "pixels",
    }
}

/// Puts what the lines of this kind tell after the bytes; words that are left or held, to their addresses in them.
pub(crate) fn push_told(bytes: &mut Vec<u8>, kind: Kind, run: &str) -> Result<(), TextFault> {
    let word = word_of(kind);
    for line in run.lines() {
        if let Some(text) = told(line, word) {
            push_text(bytes, kind, text)?;
        }
    }
    Ok(())
}

/// Puts what one of these lines tells.
fn push_text(bytes: &mut Vec<u8>, kind: Kind, text: &str) -> Result<(), TextFault> {
    match kind {
        Kind::Image | Kind::Track | Kind::Audio => push_words(bytes, text),
        Kind::Left | Kind::Holds => put(bytes, text),
        Kind::Pixels => push_pixels(bytes, text),
    }
}

/// Appends the bytes of words.
pub(crate) fn push_words(bytes: &mut Vec<u8>, text: &str) -> Result<(), TextFault> {
    for item in text.split_whitespace() {
        push_item(bytes, item)?;
    }
    Ok(())
}

/// Appends the bytes of a word that may stand there often, or a byte of two digits.
fn push_item(bytes: &mut Vec<u8>, item: &str) -> Result<(), TextFault> {
    let (count, word) = words(item)?;
    let [high, low] = word.to_be_bytes();
    if has_two_digits(item) {
        push_often(bytes, count, &[low])
    } else {
        push_often(bytes, count, &[high, low])
    }
}

/// Whether what stands there often is a byte.
fn has_two_digits(item: &str) -> bool {
    let (_count, digits) = item.split_once('*').unwrap_or(("1", item));
    digits.len() == 2
}

/// Appends bytes so often.
fn push_often(bytes: &mut Vec<u8>, count: u64, piece: &[u8]) -> Result<(), TextFault> {
    for _ in 0..count {
        bytes.extend_from_slice(piece)?;
    }
    Ok(())
}

/// Puts words to an address, both as they are told.
fn put(memory: &mut [u8], left: &str) -> Result<(), TextFault> {
    let Some((at, text)) = left.split_once(' ') else {
        return Err(TextFault::Untold("words are told"));
    };
    let mut at = address(at)?;
    for item in text.split_whitespace() {
        at = put_item(memory, at, item)?;
    }
    Ok(())
}

/// Puts a word that may stand there often to an address. The answer is the one after it.
fn put_item(memory: &mut [u8], at: usize, item: &str) -> Result<usize, TextFault> {
    let (count, word) = words(item)?;
    let mut at = at;
    for _ in 0..count {
        at = put_word(memory, at, word)?;
    }
    Ok(at)
}

/// Puts a word to an address. The answer is the one after it.
fn put_word(memory: &mut [u8], at: usize, word: u16) -> Result<usize, TextFault> {
    let end = at.saturating_add(2);
    let Some(place) = memory.get_mut(at..end) else {
        return Err(TextFault::Untold("the words end in memory"));
    };
    if place.len() == 2 {
        place.copy_from_slice(&word.to_be_bytes());
    }
    Ok(end)
}

/// Appends so many pixels of one colour.
fn push_pixels(bytes: &mut Vec<u8>, pixels: &str) -> Result<(), TextFault> {
    let Some((count, rest)) = pixels.split_once(' ') else {
        return Err(TextFault::Untold("a colour is told"));
    };
    match (colour(rest), number(count)) {
        (Ok(colour), Ok(count)) => push_often(bytes, count, &colour),
        (Err(fault), _) => Err(fault),
        (_, Err(fault)) => Err(fault),
    }
}
