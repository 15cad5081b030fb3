//! Runs whose files are those of another run of the same, in other bands and with other workers.

use crate::case::{Order, part_on, wrong};
use crate::fault::CaseFault;
use crate::place::{holds, inputs, order_in, status};
use case_texts::told::first;
use ocs_io::Shelf;
use std::alloc::Global;
use std::sync::Wait;
use std::thread::Threads;

/// A run in the bands and with the workers that are told is as it is told, and the files of the others are its.
pub(crate) fn check_same<R: Threads + Wait + Clone + Drop + Send + Sync + 'static>(
    rt: &R,
    alloc: Global,
    run: &str,
) -> Result<(), CaseFault> {
    let mut model = inputs(alloc, run)?;
    check_model(rt, alloc, run, &mut model)?;
    check_others(rt, alloc, run, &model)
}

/// That run is.
fn check_model<R: Threads + Wait + Clone + Drop + Send + Sync + 'static>(
    rt: &R,
    alloc: Global,
    run: &str,
    model: &mut Shelf,
) -> Result<(), CaseFault> {
    let (band, workers) = first(run, "same", "").split_once(' ').unwrap_or(("", ""));
    let words = order_in(alloc, run, band, workers)?;
    let order = Order {
        run,
        words: words.as_str(),
    };
    match part_on(rt, alloc, order, model)? {
        Some(part) => Err(wrong(alloc, part, order.words, "")),
        None => Ok(()),
    }
}

/// The files of the others are its.
fn check_others<R: Threads + Wait + Clone + Drop + Send + Sync + 'static>(
    rt: &R,
    alloc: Global,
    run: &str,
    model: &Shelf,
) -> Result<(), CaseFault> {
    for band in first(run, "bands", "313").split(' ') {
        for workers in first(run, "workers", "2").split(' ') {
            let words = order_in(alloc, run, band, workers)?;
            check_other(rt, alloc, run, words.as_str(), model)?;
        }
    }
    Ok(())
}

/// Those of one other are.
fn check_other<R: Threads + Wait + Clone + Drop + Send + Sync + 'static>(
    rt: &R,
    alloc: Global,
    run: &str,
    words: &str,
    model: &Shelf,
) -> Result<(), CaseFault> {
    let mut other = inputs(alloc, run)?;
    let ended = status(rt, alloc, words, &mut other)?;
    match other_part(ended, model, &other) {
        Some(part) => Err(wrong(alloc, part, words, "")),
        None => Ok(()),
    }
}

/// What of a run that ended with this status is not as of the model.
fn other_part(ended: u8, model: &Shelf, other: &Shelf) -> Option<&'static str> {
    if ended != 0 {
        return Some("status");
    }
    if !other.said().is_empty() {
        return Some("said");
    }
    for name in ["frames", "trace", "memory"] {
        if !shares(model, other, name) {
            return Some(name);
        }
    }
    None
}

/// Whether both have one file of that name.
fn shares(model: &Shelf, other: &Shelf, name: &str) -> bool {
    match model.file(name) {
        Some(file) => holds(other, name, file),
        None => false,
    }
}
