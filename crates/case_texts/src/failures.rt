//! What comes of a run in which a call of the place fails.

use crate::fault::TextFault;
use crate::lines::push_all;
use crate::told::{number, told};
use std::alloc::Global;

/// The number of the call, the status, how many bytes of frames, trace, memory and sound are there, and what is
/// said.
#[derive(Clone, Copy)]
pub struct Failure<'a> {
    pub call: u64,
    pub status: u64,
    pub counts: [&'a str; 4],
    said: &'a str,
}

impl<'a> Failure<'a> {
    /// What is said.
    pub fn said(&self, alloc: Global) -> Result<String, TextFault> {
        let mut said = String::new(alloc);
        push_said(&mut said, self.said).and(Ok(said))
    }
}

/// Appends a text, with the ends of its lines.
fn push_said(said: &mut String, text: &str) -> Result<(), TextFault> {
    let mut is_first = true;
    for line in text.split("\\n") {
        let end = if is_first { "" } else { "\n" };
        push_all(said, &[end, line])?;
        is_first = false;
    }
    Ok(())
}

/// What a line tells.
pub fn read_failure(line: &str) -> Result<Failure<'_>, TextFault> {
    match failure_in(line) {
        Some(failure) => Ok(failure),
        None => Err(TextFault::Untold("what comes of a failing call is told")),
    }
}

/// What it tells, where it tells all.
fn failure_in(line: &str) -> Option<Failure<'_>> {
    let (call, rest) = line.split_once(' ')?;
    let (status, rest) = rest.split_once(' ')?;
    let (counts, said) = counts_in(rest)?;
    match (number(call), number(status)) {
        (Ok(call), Ok(status)) => Some(Failure {
            call,
            status,
            counts,
            said,
        }),
        _ => None,
    }
}

/// Four counts, and what is told after them.
fn counts_in(text: &str) -> Option<([&str; 4], &str)> {
    let (frames, rest) = text.split_once(' ')?;
    let (trace, rest) = rest.split_once(' ')?;
    let (memory, rest) = rest.split_once(' ')?;
    let (audio, said) = rest.split_once(' ').unwrap_or((rest, ""));
    Some(([frames, trace, memory, audio], said))
}

/// Whether the calls of the lines that tell this are those from 0 on, each once.
pub fn are_in_order(run: &str) -> Result<bool, TextFault> {
    let mut calls = 0u64;
    for line in run.lines() {
        if let Some(text) = told(line, "fails") {
            if read_failure(text)?.call != calls {
                return Ok(false);
            }
            calls = calls.saturating_add(1);
        }
    }
    Ok(true)
}
