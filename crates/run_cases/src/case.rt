//! A run that is told as a text, and what of it is not as it should be.

use crate::failing::check_failures;
use crate::fault::CaseFault;
use crate::place::{inputs, order_in, status};
use crate::result::wrong_part;
use crate::same::check_same;
use case_texts::failures::are_in_order;
use case_texts::told::{first, is_understood, tells, told};
use ocs_io::Shelf;
use std::alloc::Global;
use std::sync::Wait;
use std::thread::Threads;

/// A run, and the words of a command that does it.
#[derive(Clone, Copy)]
pub(crate) struct Order<'a> {
    pub run: &'a str,
    pub words: &'a str,
}

/// A run is as it is told.
pub fn check<R: Threads + Wait + Clone + Drop + Send + Sync + 'static>(
    rt: &R,
    alloc: Global,
    run: &str,
) -> Result<(), CaseFault> {
    if !is_understood(run) {
        return Err(CaseFault::Untold("each line begins with a word that says what"));
    }
    if !are_in_order(run)? {
        return Err(CaseFault::Untold("calls are told from 0 on"));
    }
    check_orders(rt, alloc, run)
}

/// Each command of the run is as it is told.
fn check_orders<R: Threads + Wait + Clone + Drop + Send + Sync + 'static>(
    rt: &R,
    alloc: Global,
    run: &str,
) -> Result<(), CaseFault> {
    if tells(run, "same") {
        check_same(rt, alloc, run)
    } else if tells(run, "words") {
        check_words(rt, alloc, run)
    } else {
        check_bands(rt, alloc, run)
    }
}

/// Each command whose words are told is.
fn check_words<R: Threads + Wait + Clone + Drop + Send + Sync + 'static>(
    rt: &R,
    alloc: Global,
    run: &str,
) -> Result<(), CaseFault> {
    for line in run.lines() {
        if let Some(words) = told(line, "words") {
            check_order(rt, alloc, Order { run, words })?;
        }
    }
    Ok(())
}

/// The run is, in bands of each height by each number of workers.
fn check_bands<R: Threads + Wait + Clone + Drop + Send + Sync + 'static>(
    rt: &R,
    alloc: Global,
    run: &str,
) -> Result<(), CaseFault> {
    for band in first(run, "bands", "313").split(' ') {
        for workers in first(run, "workers", "2").split(' ') {
            check_band(rt, alloc, run, band, workers)?;
        }
    }
    Ok(())
}

/// The run is, in bands of this height by so many workers.
fn check_band<R: Threads + Wait + Clone + Drop + Send + Sync + 'static>(
    rt: &R,
    alloc: Global,
    run: &str,
    band: &str,
    workers: &str,
) -> Result<(), CaseFault> {
    let words = order_in(alloc, run, band, workers)?;
    let order = Order {
        run,
        words: words.as_str(),
    };
    check_order(rt, alloc, order)
}

/// A command is as it is told, also where calls of the place fail.
fn check_order<R: Threads + Wait + Clone + Drop + Send + Sync + 'static>(
    rt: &R,
    alloc: Global,
    order: Order<'_>,
) -> Result<(), CaseFault> {
    if let Some(part) = part_of(rt, alloc, order)? {
        return Err(wrong(alloc, part, order.words, ""));
    }
    check_failures(rt, alloc, order)
}

/// What is not as it is told: this part, of these words, where something fails.
pub(crate) fn wrong<'a>(
    alloc: Global,
    part: &'static str,
    words: &'a str,
    failure: &'a str,
) -> CaseFault {
    let space = if failure.is_empty() {
        ""
    } else {
        " where it fails "
    };
    match format!(in alloc; "{words}{space}{failure}") {
        Ok(run) => CaseFault::Wrong { part, run },
        Err(_refused) => CaseFault::OutOfMemory,
    }
}

/// The part of what a command gives that is not as it is told.
fn part_of<R: Threads + Wait + Clone + Drop + Send + Sync + 'static>(
    rt: &R,
    alloc: Global,
    order: Order<'_>,
) -> Result<Option<&'static str>, CaseFault> {
    let mut shelf = inputs(alloc, order.run)?;
    part_on(rt, alloc, order, &mut shelf)
}

/// The part on a shelf with the files that it reads.
pub(crate) fn part_on<R: Threads + Wait + Clone + Drop + Send + Sync + 'static>(
    rt: &R,
    alloc: Global,
    order: Order<'_>,
    shelf: &mut Shelf,
) -> Result<Option<&'static str>, CaseFault> {
    let ended = status(rt, alloc, order.words, shelf)?;
    wrong_part(alloc, order.run, ended, shelf)
}
