//! The lines of events, as the script has them and as the trace has them.

use crate::fault::TextFault;
use crate::told::told;

/// How the lines of one of the two texts are written.
#[derive(Clone, Copy)]
pub(crate) struct Form<'a> {
    /// The word before an event that is told as it is written.
    told: &'a str,
    before: &'a str,
    poke: &'a str,
    peek: &'a str,
    /// Whether the word that is read stands behind a peek.
    has_read: bool,
    end: &'a str,
}

/// Those of the script.
pub(crate) fn script_form<'a>() -> Form<'a> {
    Form {
        told: "input",
        before: "at ",
        poke: " poke ",
        peek: " peek ",
        has_read: false,
        end: "\n",
    }
}

/// Those of the trace.
pub(crate) fn trace_form<'a>() -> Form<'a> {
    Form {
        told: "then",
        before: "",
        poke: " W ",
        peek: " R ",
        has_read: true,
        end: " S\n",
    }
}

/// Appends the lines of the events of a run.
pub(crate) fn push_lines<'a>(
    text: &mut String,
    form: Form<'a>,
    run: &'a str,
) -> Result<(), TextFault> {
    for line in run.lines() {
        push_line(text, form, line)?;
    }
    Ok(())
}

/// Appends the lines of the events that a line of the run tells.
fn push_line<'a>(text: &mut String, form: Form<'a>, line: &'a str) -> Result<(), TextFault> {
    if let Some(event) = told(line, form.told) {
        return push_all(text, &[form.before, event, "\n"]);
    }
    match told(line, "at") {
        Some(events) => push_events(text, form, events),
        None => Ok(()),
    }
}

/// Appends the lines of pokes and peeks.
fn push_events<'a>(text: &mut String, form: Form<'a>, events: &'a str) -> Result<(), TextFault> {
    let Some((time, events)) = events.split_once(": ") else {
        return Err(TextFault::Untold("a time is told"));
    };
    for event in events.split_whitespace() {
        push_event(text, form, time, event)?;
    }
    Ok(())
}

/// Appends the line of a poke or a peek.
fn push_event<'a>(
    text: &mut String,
    form: Form<'a>,
    time: &'a str,
    event: &'a str,
) -> Result<(), TextFault> {
    if let Some((register, word)) = event.split_once('=') {
        return push_all(
            text,
            &[form.before, time, form.poke, register, " ", word, form.end],
        );
    }
    let Some((register, word)) = event.split_once('?') else {
        return Err(TextFault::Untold("a poke or a peek is told"));
    };
    let [space, word] = if form.has_read { [" ", word] } else { [""; 2] };
    push_all(
        text,
        &[
            form.before,
            time,
            form.peek,
            register,
            space,
            word,
            form.end,
        ],
    )
}

/// Appends texts.
pub(crate) fn push_all(text: &mut String, parts: &[&str]) -> Result<(), TextFault> {
    for part in parts {
        text.push_str(part)?;
    }
    Ok(())
}
