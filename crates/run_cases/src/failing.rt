//! Runs in which a call of the place fails.

use crate::case::{Order, wrong};
use crate::fault::CaseFault;
use crate::place::{failing_inputs, status};
use crate::result::is_text;
use case_texts::failures::{Failure, read_failure};
use case_texts::outputs::{audio, frames, memory, trace};
use case_texts::told::{number, told};
use ocs_io::Shelf;
use std::alloc::Global;
use std::sync::Wait;
use std::thread::Threads;

/// What comes of each call that is told to fail is so.
pub(crate) fn check_failures<R: Threads + Wait + Clone + Drop + Send + Sync + 'static>(
    rt: &R,
    alloc: Global,
    order: Order<'_>,
) -> Result<(), CaseFault> {
    for line in order.run.lines() {
        if let Some(text) = told(line, "fails") {
            check_failure(rt, alloc, order, text)?;
        }
    }
    Ok(())
}

/// What comes of one is so.
fn check_failure<R: Threads + Wait + Clone + Drop + Send + Sync + 'static>(
    rt: &R,
    alloc: Global,
    order: Order<'_>,
    text: &str,
) -> Result<(), CaseFault> {
    let failure = read_failure(text)?;
    match part_of(rt, alloc, order, &failure)? {
        Some(part) => Err(wrong(alloc, part, order.words, text)),
        None => Ok(()),
    }
}

/// The part of what comes of it that is not.
fn part_of<R: Threads + Wait + Clone + Drop + Send + Sync + 'static>(
    rt: &R,
    alloc: Global,
    order: Order<'_>,
    failure: &Failure<'_>,
) -> Result<Option<&'static str>, CaseFault> {
    let mut shelf = failing_inputs(alloc, order.run, failure.call)?;
    part_on(rt, alloc, order, failure, &mut shelf)
}

/// The part on a shelf with the files that are read, whose call fails.
fn part_on<R: Threads + Wait + Clone + Drop + Send + Sync + 'static>(
    rt: &R,
    alloc: Global,
    order: Order<'_>,
    failure: &Failure<'_>,
    shelf: &mut Shelf,
) -> Result<Option<&'static str>, CaseFault> {
    let ended = status(rt, alloc, order.words, shelf)?;
    if u64::from(ended) != failure.status {
        return Ok(Some("status"));
    }
    let said = failure.said(alloc)?;
    if !is_text(shelf.said(), said.as_bytes()) {
        return Ok(Some("said"));
    }
    wrong_file(alloc, order.run, failure, shelf)
}

/// The first of the four files that is not as it is told.
fn wrong_file(
    alloc: Global,
    run: &str,
    failure: &Failure<'_>,
    shelf: &Shelf,
) -> Result<Option<&'static str>, CaseFault> {
    let counts = &failure.counts;
    if !has_part(shelf, "frames", counts[0], frames(alloc, run)?.as_slice())? {
        return Ok(Some("frames"));
    }
    if !has_part(shelf, "trace", counts[1], trace(alloc, run)?.as_bytes())? {
        return Ok(Some("trace"));
    }
    if !has_part(shelf, "memory", counts[2], memory(alloc, run)?.as_slice())? {
        return Ok(Some("memory"));
    }
    if !has_part(shelf, "audio", counts[3], audio(alloc, run)?.as_slice())? {
        return Ok(Some("audio"));
    }
    Ok(None)
}

/// Whether the file has so many bytes, the first of the whole, or is not there where no number is told.
fn has_part(shelf: &Shelf, name: &str, count: &str, whole: &[u8]) -> Result<bool, CaseFault> {
    let Some(file) = shelf.file(name) else {
        return Ok(count == "-");
    };
    Ok(count != "-" && file.len() as u64 == number(count)? && whole.starts_with(file))
}
