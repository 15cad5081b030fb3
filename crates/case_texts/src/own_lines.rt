//! Scripts whose lines are told as they stand there.

use crate::fault::TextFault;
use crate::lines::push_all;
use crate::told::{number, tells, told};

/// Whether lines of the script are told so.
pub(crate) fn has_own_lines(run: &str) -> bool {
    tells(run, "script") || tells(run, "repeat") || tells(run, "letters")
}

/// Appends these lines.
pub(crate) fn push_own_lines(script: &mut String, run: &str) -> Result<(), TextFault> {
    for line in run.lines() {
        push_own_line(script, line)?;
    }
    Ok(())
}

/// Appends what a line of the run tells of the script.
fn push_own_line(script: &mut String, line: &str) -> Result<(), TextFault> {
    if let Some(text) = told(line, "script") {
        return push_all(script, &[text, "\n"]);
    }
    if let Some(rest) = told(line, "repeat") {
        return push_counted(script, rest, "\n");
    }
    match told(line, "letters") {
        Some(rest) => push_counted(script, rest, ""),
        None => Ok(()),
    }
}

/// Appends a text as often as the number before it says, each time with this end.
fn push_counted<'a>(script: &mut String, rest: &'a str, end: &'a str) -> Result<(), TextFault> {
    let Some((count, text)) = rest.split_once(' ') else {
        return Err(TextFault::Untold("a text is told"));
    };
    for _ in 0..number(count)? {
        push_all(script, &[text, end])?;
    }
    Ok(())
}
