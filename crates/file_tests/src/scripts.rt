//! Each public call once with ample memory. The texts, lines and kinds are worked by hand from the grammar.

use crate::answers::hold;
use crate::texts::{are_bad, are_printed, is_bad};
use ocs_base::{Act, OutOfMemory, Script};
use script_read::{BadKind, read_script};
use std::alloc::Global;

/// A script without events.
const SHORT: &[u8] = b"ocs 1\ncpu off\nframes 1\nend\n";

/// Appends three head lines, an event, this event, and the end.
fn put_event(text: &mut Vec<u8>, event: &[u8]) -> Result<(), OutOfMemory> {
    text.extend_from_slice(b"ocs 1\ncpu off\nframes 2\nat 0 5 6 peek 002\n")?;
    text.extend_from_slice(event)?;
    text.extend_from_slice(b"\nend\n")?;
    Ok(())
}

/// Whether an event's line after three head lines and an event is bad, and of that kind.
fn is_bad_event(alloc: Global, event: &[u8], kind: BadKind) -> bool {
    let mut text = Vec::new(alloc);
    put_event(&mut text, event).is_ok() && is_bad(alloc, text.as_slice(), 5, kind)
}

/// Whether a script has no processor, one frame and no events.
fn is_short(alloc: Global, text: &[u8]) -> bool {
    match read_script(alloc, text) {
        Ok(short) => !short.cpu() && short.frames() == 1 && short.events().is_empty(),
        Err(_) => false,
    }
}

#[test]
fn a_script_without_events_is_read(rt: HostRuntime) {
    hold(&rt, is_short(rt.alloc(), SHORT));
}

/// Whether a script has a processor, 1000 frames and two events, of which the second is button 1 down.
fn is_of_1000_frames(script: &Script) -> bool {
    let events = script.events();
    let down = Act::Fire {
        port: 1,
        down: true,
    };
    script.cpu() && script.frames() == 1000 && events.len() == 2 && events[1].act == down
}

/// Whether a text is good and its script is that.
fn has_1000_frames(alloc: Global, text: &[u8]) -> bool {
    match read_script(alloc, text) {
        Ok(script) => is_of_1000_frames(&script),
        Err(_) => false,
    }
}

#[test]
fn scripts_are_read(rt: HostRuntime) {
    let text =
        b"ocs 1\ncpu on\nframes 1000\nat 999 311 226 poke 1fe ffff\nat 999 311 226 fire 1 1\nend";
    hold(&rt, has_1000_frames(rt.alloc(), text));
}

/// Texts, and the line that is bad and its kind.
static HEADS: [(&[u8], u32, BadKind); 14] = [
    (b"", 1, BadKind::Missing),
    (b"ocs 4\n", 1, BadKind::Header),
    (b"ocs  1\n", 1, BadKind::Header),
    (b"ocs 1\r\n", 1, BadKind::Header),
    (b"\nocs 1\n", 1, BadKind::Header),
    (b"ocs 1\n", 2, BadKind::Missing),
    (b"ocs 1\ncpu\n", 2, BadKind::Cpu),
    (b"ocs 1\ncpu On\n", 2, BadKind::Cpu),
    (b"ocs 1\ncpu on", 3, BadKind::Missing),
    (b"ocs 1\ncpu on\nframes 0\nend\n", 3, BadKind::Frames),
    (b"ocs 1\ncpu on\nframes 1001\n", 3, BadKind::Frames),
    (b"ocs 1\ncpu on\nframes 01\n", 3, BadKind::Frames),
    (b"ocs 1\ncpu off\nframes 1\n", 4, BadKind::Missing),
    (b"ocs 1\ncpu off\nframes 1\nend\n\n", 5, BadKind::Extra),
];

#[test]
fn heads_that_are_bad(rt: HostRuntime) {
    hold(&rt, are_bad(rt.alloc(), &HEADS));
}

/// Lines that are no events.
static EVENTS: [&[u8]; 26] = [
    b"",
    b"End",
    b"end ",
    b"at 00 5 6 peek 002",
    b"at 2 5 6 peek 002",
    b"at 0 312 6 peek 002",
    b"at 0 5 227 peek 002",
    b"at 0 5  6 peek 002",
    b"at\t0 5 6 peek 002",
    b" at 0 5 6 peek 002",
    b"at 0 5 6 peek 002 ",
    b"at 0 5 6 peek 002\r",
    b"at 0 5 6 peek 003",
    b"at 0 5 6 peek 200",
    b"at 0 5 6 peek 02",
    b"at 0 5 6 peek 0002",
    b"at 0 5 6 peek 00E",
    b"at 0 5 6 poke 180",
    b"at 0 5 6 poke 180 fff",
    b"at 0 5 6 poke 180 0FFF",
    b"at 0 5 6 poke 180 0fff 1",
    b"at 0 5 6 joy 2 0000",
    b"at 0 5 6 fire 0 2",
    b"at 0 5 6 key 1",
    b"at 0 5 6 press 45",
    b"at 0 5",
];

/// Whether each line is bad, and no event.
fn are_bad_events(alloc: Global, events: &[&[u8]]) -> bool {
    for event in events {
        if !is_bad_event(alloc, event, BadKind::Event) {
            return false;
        }
    }
    true
}

#[test]
fn events_that_are_bad(rt: HostRuntime) {
    hold(&rt, are_bad_events(rt.alloc(), &EVENTS));
}

#[test]
fn events_out_of_order(rt: HostRuntime) {
    let clock = is_bad_event(rt.alloc(), b"at 0 5 5 peek 002", BadKind::Order);
    let line = is_bad_event(rt.alloc(), b"at 0 4 226 key 45", BadKind::Order);
    hold(&rt, clock && line);
}

/// Appends three head lines and so many equal events.
fn put_events(text: &mut Vec<u8>, events: u32) -> Result<(), OutOfMemory> {
    text.extend_from_slice(b"ocs 1\ncpu off\nframes 1\n")?;
    for _ in 0..events {
        text.extend_from_slice(b"at 0 0 0 poke 180 0fff\n")?;
    }
    Ok(())
}

/// Appends the last line.
fn put_end(text: &mut Vec<u8>) -> bool {
    text.extend_from_slice(b"end\n").is_ok()
}

/// Whether a text of 99,999 lines is good with its end, and has too many lines with another.
fn ends_once(alloc: Global, text: &mut Vec<u8>) -> bool {
    put_events(text, 99_996).is_ok()
        && put_end(text)
        && read_script(alloc, text.as_slice()).is_ok()
        && put_end(text)
        && is_bad(alloc, text.as_slice(), 100_001, BadKind::Lines)
}

/// Whether a text of 100,000 lines lacks its end, and has too many lines with it.
fn ends_never(alloc: Global, text: &mut Vec<u8>) -> bool {
    put_events(text, 99_997).is_ok()
        && is_bad(alloc, text.as_slice(), 100_001, BadKind::Missing)
        && put_end(text)
        && is_bad(alloc, text.as_slice(), 100_001, BadKind::Lines)
}

#[test]
fn texts_of_many_lines(rt: HostRuntime) {
    hold(&rt, ends_once(rt.alloc(), &mut Vec::new(rt.alloc())));
}

#[test]
fn texts_of_too_many_lines(rt: HostRuntime) {
    hold(&rt, ends_never(rt.alloc(), &mut Vec::new(rt.alloc())));
}

/// Whether a script without events is bad behind its end where its text has the greatest size, and too long
/// with one byte more.
fn grows_too_long(alloc: Global, bytes: &mut Vec<u8>) -> bool {
    bytes.extend_from_slice(SHORT).is_ok()
        && bytes.resize(4_194_304, b'\n').is_ok()
        && is_bad(alloc, bytes.as_slice(), 5, BadKind::Extra)
        && bytes.push(b'\n').is_ok()
        && is_bad(alloc, bytes.as_slice(), 0, BadKind::Long)
}

#[test]
fn texts_that_are_long(rt: HostRuntime) {
    hold(&rt, grows_too_long(rt.alloc(), &mut Vec::new(rt.alloc())));
}

/// A script of each kind of event.
const LINES: &[u8] =
    b"ocs 1\ncpu on\nframes 2\nat 0 0 0 poke 00e 00ff\nat 0 0 1 peek 1fe\nat 0 1 0 joy 1 0203\nat 1 0 0 fire 0 1\nat 1 0 0 key 0a\nend\n";

/// Scripts, and what is printed of them.
static PRINTED: [(&[u8], &[u8]); 2] = [(LINES, LINES), (SHORT, SHORT)];

/// Whether they are printed, the short one has 27 bytes, and a kind is named.
fn prints_scripts(alloc: Global) -> bool {
    are_printed(alloc, &PRINTED) && SHORT.len() == 27 && BadKind::Missing.name() == "missing"
}

#[test]
fn scripts_are_printed(rt: HostRuntime) {
    hold(&rt, prints_scripts(rt.alloc()));
}
