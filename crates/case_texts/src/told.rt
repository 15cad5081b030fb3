//! How a run is told as a text, a line for each thing that is told; each line begins with a word that says
//! what.
//!
//! What is asked:
//!
//! - `run`: what the run shows.
//! - `bands`, `workers`: the heights of bands and the numbers of workers, each with each; 313 and 2 where
//!   they are not told.
//! - `command`: the first word of the command line; `run` where it is not told. Beside the files of `run` those
//!   of `sound` have `audio`, and those of `disk` `track`.
//! - `words`: all words of the command line in place of these; `''` is an empty one. Each such line is a command
//!   of its own, of which all that is told is so.
//!
//! What is read:
//!
//! - `cpu`, `frames`: as in the script; `off` and 1 where they are not told.
//! - `chip`: how many KiB of chip memory the machine has, 512 where it is not told. `system`: whose beam it
//!   has. The script is one of version 3 where a system is told, else of version 2 where a size is, else
//!   of version 1.
//! - `at TIME: 180=0f00 002?2240`: pokes, and peeks with the word that is read, all at one time, which stand
//!   in the trace.
//! - `input`: an event that is in no trace.
//! - `script`: a line of the script, in place of one of all these. `repeat`: how often a line stands there, and
//!   the line. `letters`: how often a text stands there that ends no line, and the text.
//! - `image`: words of memory from address 0 on, going on from line to line; `200*ffff` is a word that
//!   stands so often, and two digits are a byte.
//! - `track`: the words of the track.
//! - `scene`: the number of the scene whose image and script these are.
//! - `absent`: the file that is not there.
//!
//! What comes of it:
//!
//! - `status`: the status, 0 where it is not told. After each other one, and where the words of the command line
//!   are told, no file is made.
//! - `said`: a line that is said; `*` stands for any digit.
//! - `then`: a line of the trace that no event of the script makes. `lines`: how many lines the trace has.
//! - `left ADDRESS`: words of memory at the end; all else is as in the image.
//! - `ground`: the colour of the frames, black where it is not told. `grounds`: the colour of each frame in turn.
//!   `part`: first and last row, first and last column, and the colour of what lies there. `pixels`: so many pixels
//!   of one colour, in place of ground and parts.
//! - `audio`: the words with which the sound begins. `sounds`: how many bytes it has, 1252 where it is not told.
//! - `untold`: names of files of which only this is told: with what the trace begins, which words lie in memory
//!   (`holds ADDRESS`), and nothing of the frames but the `sum` of their bytes.
//! - `same BAND WORKERS`: the files are those of a run in these bands with so many workers.
//! - `fails CALL STATUS FRAMES TRACE MEMORY AUDIO SAID`: what comes where the call of the place that has this number
//!   fails: the status, how many bytes of each file are there, `-` where it is not, and what is said, in which `\n`
//!   ends a line. The numbers of the calls are those from 0 on, each once.

use crate::fault::TextFault;
use ocs_io::{dec, hex};

/// What the line tells, where it begins with this word.
pub fn told<'a>(line: &'a str, word: &str) -> Option<&'a str> {
    match line.split_once(' ') {
        Some((first, rest)) if first == word => Some(rest),
        _ => None,
    }
}

/// What the first line that begins with this word tells, or what stands for it.
pub fn first<'a>(run: &'a str, word: &str, or: &'a str) -> &'a str {
    for line in run.lines() {
        if let Some(rest) = told(line, word) {
            return rest;
        }
    }
    or
}

/// Whether a line begins with this word.
pub fn tells(run: &str, word: &str) -> bool {
    for line in run.lines() {
        if told(line, word).is_some() {
            return true;
        }
    }
    false
}

/// Whether this file is one of which not all is told.
pub fn is_untold(run: &str, file: &str) -> bool {
    for name in first(run, "untold", "").split(' ') {
        if name == file {
            return true;
        }
    }
    false
}

/// The words with which lines begin.
static WORDS: [&str; 35] = [
    "run", "bands", "workers", "command", "words", "cpu", "frames", "chip", "system", "at",
    "input", "script", "repeat", "letters", "image", "track", "scene", "absent", "status", "said",
    "then", "lines", "left", "ground", "grounds", "part", "pixels", "audio", "sounds", "untold",
    "holds", "sum", "same", "fails", "#",
];

/// Whether each line tells something.
pub fn is_understood(run: &str) -> bool {
    for line in run.lines() {
        let (word, _rest) = line.split_once(' ').unwrap_or(("", ""));
        if !is_word(word) {
            return false;
        }
    }
    true
}

/// Whether lines begin with this word.
fn is_word(word: &str) -> bool {
    for known in &WORDS {
        if *known == word {
            return true;
        }
    }
    false
}

/// A decimal number.
pub fn number(text: &str) -> Result<u64, TextFault> {
    dec(text.as_bytes()).ok_or(TextFault::Untold("a number is told"))
}

/// A hexadecimal number.
pub fn word(text: &str) -> Result<u16, TextFault> {
    hex(text.as_bytes()).ok_or(TextFault::Untold("a word is told"))
}

/// Two hexadecimal numbers.
fn two_words(first: &str, second: &str) -> Option<(u16, u16)> {
    match (hex(first.as_bytes()), hex(second.as_bytes())) {
        (Some(first), Some(second)) => Some((first, second)),
        _ => None,
    }
}

/// An address, of at most eight hexadecimal digits.
pub fn address(text: &str) -> Result<usize, TextFault> {
    let split = text.len().saturating_sub(4);
    let high = if split == 0 {
        "0"
    } else {
        text.get(..split).unwrap_or("")
    };
    match two_words(high, text.get(split..).unwrap_or("")) {
        Some((high, low)) => Ok(high as usize * 0x1_0000 + low as usize),
        None => Err(TextFault::Untold("a word is told")),
    }
}

/// A word, and how often it stands there.
pub fn words(item: &str) -> Result<(u64, u16), TextFault> {
    let (count, digits) = item.split_once('*').unwrap_or(("1", item));
    match (number(count), word(digits)) {
        (Ok(count), Ok(word)) => Ok((count, word)),
        (Err(fault), _) => Err(fault),
        (_, Err(fault)) => Err(fault),
    }
}

/// A colour, of three bytes in hexadecimal.
pub fn colour(text: &str) -> Result<[u8; 3], TextFault> {
    let red = text.get(0..2).unwrap_or("");
    let Some((red, rest)) = two_words(red, text.get(2..6).unwrap_or("")) else {
        return Err(TextFault::Untold("a word is told"));
    };
    let [green, blue] = rest.to_be_bytes();
    Ok([red.to_be_bytes()[1], green, blue])
}
