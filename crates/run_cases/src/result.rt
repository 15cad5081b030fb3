//! What a run gives, beside what it is told to give.

use crate::fault::CaseFault;
use crate::place::{begins, holds, is_absent};
use case_texts::inputs::image;
use case_texts::outputs::{audio, frames, memory, memory_like, said, trace};
use case_texts::told::{first, is_untold, number, tells};
use ocs_io::Shelf;
use std::alloc::Global;

/// What of a run that ended with this status is not as it should be.
pub(crate) fn wrong_part(
    alloc: Global,
    run: &str,
    ended: u8,
    shelf: &Shelf,
) -> Result<Option<&'static str>, CaseFault> {
    if u64::from(ended) != number(first(run, "status", "0"))? {
        return Ok(Some("status"));
    }
    if !has_said(alloc, run, shelf)? {
        return Ok(Some("said"));
    }
    if ended == 0 && !tells(run, "words") {
        wrong_file(alloc, run, shelf)
    } else {
        file_too_many(alloc, run, shelf)
    }
}

/// The file that was to be written and is not as it is told.
fn wrong_file(alloc: Global, run: &str, shelf: &Shelf) -> Result<Option<&'static str>, CaseFault> {
    if !has_trace(alloc, run, shelf)? {
        return Ok(Some("trace"));
    }
    if !has_frames(alloc, run, shelf)? {
        return Ok(Some("frames"));
    }
    if !has_memory(alloc, run, shelf)? {
        return Ok(Some("memory"));
    }
    if !has_audio(alloc, run, shelf)? {
        return Ok(Some("audio"));
    }
    Ok(None)
}

/// What was to be left alone and was not: a file that was made, or the image.
fn file_too_many(
    alloc: Global,
    run: &str,
    shelf: &Shelf,
) -> Result<Option<&'static str>, CaseFault> {
    for name in ["frames", "trace", "memory", "audio"] {
        if shelf.file(name).is_some() {
            return Ok(Some(name));
        }
    }
    let told = image(alloc, run)?;
    let is_kept = is_absent(run, "image") || holds(shelf, "image", &told);
    Ok(if is_kept { None } else { Some("image") })
}

/// Whether what was said is as it is told.
fn has_said(alloc: Global, run: &str, shelf: &Shelf) -> Result<bool, CaseFault> {
    let told = said(alloc, run)?;
    Ok(is_text(shelf.said(), told.as_bytes()))
}

/// Whether a text is the one that is told, in which `*` stands for any digit.
pub(crate) fn is_text(text: &[u8], told: &[u8]) -> bool {
    for (byte, wanted) in text.iter().zip(told.iter()) {
        let is_digit = *wanted == b'*' && byte.is_ascii_digit();
        if byte != wanted && !is_digit {
            return false;
        }
    }
    text.len() == told.len()
}

/// Whether the trace is as it is told.
fn has_trace(alloc: Global, run: &str, shelf: &Shelf) -> Result<bool, CaseFault> {
    let told = trace(alloc, run)?;
    let is_so = if is_untold(run, "trace") {
        begins(shelf, "trace", told.as_bytes())
    } else {
        holds(shelf, "trace", told.as_bytes())
    };
    Ok(is_so && has_lines(run, shelf)?)
}

/// Whether the trace has as many lines as are told, where that is.
fn has_lines(run: &str, shelf: &Shelf) -> Result<bool, CaseFault> {
    let count = first(run, "lines", "");
    if count.is_empty() {
        return Ok(true);
    }
    Ok(lines_in(shelf.file("trace").unwrap_or(&[])) == number(count)?)
}

/// How many lines a text has.
fn lines_in(text: &[u8]) -> u64 {
    let mut lines = 0u64;
    for byte in text {
        if *byte == b'\n' {
            lines = lines.saturating_add(1);
        }
    }
    lines
}

/// Whether the frames are as they are told.
fn has_frames(alloc: Global, run: &str, shelf: &Shelf) -> Result<bool, CaseFault> {
    if is_untold(run, "frames") {
        return has_sum(run, shelf);
    }
    let told = frames(alloc, run)?;
    Ok(holds(shelf, "frames", &told))
}

/// Whether their bytes have the sum that is told, where one is.
fn has_sum(run: &str, shelf: &Shelf) -> Result<bool, CaseFault> {
    let sum = first(run, "sum", "");
    if sum.is_empty() {
        return Ok(true);
    }
    Ok(sum_of(shelf.file("frames").unwrap_or(&[])) == number(sum)?)
}

/// The sum of bytes.
fn sum_of(bytes: &[u8]) -> u64 {
    let mut sum = 0u64;
    for byte in bytes {
        sum = sum.saturating_add(u64::from(*byte));
    }
    sum
}

/// Whether memory at the end is as it is told.
fn has_memory(alloc: Global, run: &str, shelf: &Shelf) -> Result<bool, CaseFault> {
    if is_untold(run, "memory") {
        return has_held(alloc, run, shelf);
    }
    let told = memory(alloc, run)?;
    Ok(holds(shelf, "memory", &told))
}

/// Whether the words that are told lie in it.
fn has_held(alloc: Global, run: &str, shelf: &Shelf) -> Result<bool, CaseFault> {
    let Some(memory) = shelf.file("memory") else {
        return Ok(false);
    };
    let told = memory_like(alloc, run, memory)?;
    Ok(memory == told.as_slice())
}

/// Whether the sound is as it is told, and where there is none, no such file.
fn has_audio(alloc: Global, run: &str, shelf: &Shelf) -> Result<bool, CaseFault> {
    let Some(audio_file) = shelf.file("audio") else {
        return Ok(first(run, "command", "run") != "sound");
    };
    let told = audio(alloc, run)?;
    let bytes = number(first(run, "sounds", "1252"))?;
    Ok(audio_file.len() as u64 == bytes && begins(shelf, "audio", &told))
}
