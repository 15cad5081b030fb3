//! The frames, the trace, the memory, the sound and the text that a run is to give, by its own text.

use crate::bytes::{Kind, push_told};
use crate::fault::TextFault;
use crate::lines::{push_all, push_lines, trace_form};
use crate::told::{colour, first, number, tells, told};
use std::alloc::Global;

/// A frame's heading, and how many rows it has, by the system that is told.
fn heading(run: &str) -> &'static [u8] {
    if is_ntsc(run) {
        b"P6\n720 242\n255\n"
    } else {
        b"P6\n720 286\n255\n"
    }
}

fn rows(run: &str) -> u64 {
    if is_ntsc(run) { 242 } else { 286 }
}

/// Whether the run is told to be of an NTSC machine.
fn is_ntsc(run: &str) -> bool {
    first(run, "system", "") == "ntsc"
}

/// How many bytes of chip memory the machine has.
fn chip_bytes(run: &str) -> usize {
    if first(run, "chip", "512") == "1024" {
        1_048_576
    } else {
        524_288
    }
}

/// A part of a frame in one colour: its first and last row, its first and last column.
#[derive(Clone, Copy)]
struct Part {
    rows: [u64; 2],
    columns: [u64; 2],
    colour: [u8; 3],
}

/// The trace.
pub fn trace(alloc: Global, run: &str) -> Result<String, TextFault> {
    let mut trace = String::new(alloc);
    push_lines(&mut trace, trace_form(), run).and(Ok(trace))
}

/// Memory at the end.
pub fn memory(alloc: Global, run: &str) -> Result<Vec<u8>, TextFault> {
    let mut memory = Vec::new(alloc);
    push_memory(&mut memory, run).and(Ok(memory))
}

/// Memory in which the words that are held have their places, as long as this one, which it is elsewhere.
pub fn memory_like(alloc: Global, run: &str, memory: &[u8]) -> Result<Vec<u8>, TextFault> {
    let mut held = Vec::from_slice(alloc, memory)?;
    push_told(&mut held, Kind::Holds, run).and(Ok(held))
}

/// The bytes with which the sound begins.
pub fn audio(alloc: Global, run: &str) -> Result<Vec<u8>, TextFault> {
    let mut audio = Vec::new(alloc);
    push_told(&mut audio, Kind::Audio, run).and(Ok(audio))
}

/// What is said.
pub fn said(alloc: Global, run: &str) -> Result<String, TextFault> {
    let mut said = String::new(alloc);
    push_said(&mut said, run).and(Ok(said))
}

/// Appends the lines that are said.
fn push_said(said: &mut String, run: &str) -> Result<(), TextFault> {
    for line in run.lines() {
        if let Some(text) = told(line, "said") {
            push_all(said, &[text, "\n"])?;
        }
    }
    Ok(())
}

/// Appends memory at the end.
fn push_memory(memory: &mut Vec<u8>, run: &str) -> Result<(), TextFault> {
    push_told(memory, Kind::Image, run)?;
    memory.resize(chip_bytes(run), 0)?;
    push_told(memory, Kind::Left, run)
}

/// The frames file, of equal frames, or of frames that each have a colour.
pub fn frames(alloc: Global, run: &str) -> Result<Vec<u8>, TextFault> {
    let mut frames = Vec::new(alloc);
    push_frames(alloc, run, &mut frames).and(Ok(frames))
}

/// Appends the frames.
fn push_frames(alloc: Global, run: &str, frames: &mut Vec<u8>) -> Result<(), TextFault> {
    if tells(run, "grounds") {
        return push_grounds(run, frames);
    }
    for _ in 0..number(first(run, "frames", "1"))? {
        push_frame(alloc, run, frames)?;
    }
    Ok(())
}

/// Appends a frame of each colour that is told.
fn push_grounds(run: &str, frames: &mut Vec<u8>) -> Result<(), TextFault> {
    for line in run.lines() {
        if let Some(text) = told(line, "grounds") {
            push_grounds_of(run, text, frames)?;
        }
    }
    Ok(())
}

/// Appends a frame of each colour of a line.
fn push_grounds_of(run: &str, colours: &str, frames: &mut Vec<u8>) -> Result<(), TextFault> {
    for text in colours.split_whitespace() {
        frames.extend_from_slice(heading(run))?;
        push_rows(&[], colour(text)?, rows(run), frames)?;
    }
    Ok(())
}

/// Appends a frame.
fn push_frame(alloc: Global, run: &str, frames: &mut Vec<u8>) -> Result<(), TextFault> {
    frames.extend_from_slice(heading(run))?;
    if first(run, "pixels", "").is_empty() {
        push_parts(alloc, run, frames)
    } else {
        push_told(frames, Kind::Pixels, run)
    }
}

/// Appends the pixels of a frame that is told by its ground and parts.
fn push_parts(alloc: Global, run: &str, frames: &mut Vec<u8>) -> Result<(), TextFault> {
    let ground = colour(first(run, "ground", "000000"))?;
    let mut parts = Vec::new(alloc);
    read_parts(run, &mut parts)?;
    push_rows(&parts, ground, rows(run), frames)
}

/// Appends so many rows of pixels.
fn push_rows(
    parts: &[Part],
    ground: [u8; 3],
    rows: u64,
    frames: &mut Vec<u8>,
) -> Result<(), TextFault> {
    for row in 0..rows {
        for column in 0..720 {
            frames.extend_from_slice(&colour_at(parts, ground, row, column))?;
        }
    }
    Ok(())
}

/// Appends the parts of a frame.
fn read_parts(run: &str, parts: &mut Vec<Part>) -> Result<(), TextFault> {
    for line in run.lines() {
        if let Some(text) = told(line, "part") {
            parts.push(read_part(text)?)?;
        }
    }
    Ok(())
}

/// A part, of four numbers and a colour.
fn read_part(text: &str) -> Result<Part, TextFault> {
    let (rows, rest) = read_pair(text)?;
    let (columns, rest) = read_pair(rest)?;
    Ok(Part {
        rows,
        columns,
        colour: colour(rest)?,
    })
}

/// Two numbers, and what is told after them.
fn read_pair(text: &str) -> Result<([u64; 2], &str), TextFault> {
    let Some((first, rest)) = text.split_once(' ') else {
        return Err(TextFault::Untold("two numbers are told"));
    };
    let Some((last, rest)) = rest.split_once(' ') else {
        return Err(TextFault::Untold("two numbers are told"));
    };
    match (number(first), number(last)) {
        (Ok(first), Ok(last)) => Ok(([first, last], rest)),
        (Err(fault), _) => Err(fault),
        (_, Err(fault)) => Err(fault),
    }
}

/// Whether a number lies between two, or is one of them.
fn lies_in(number: u64, ends: &[u64; 2]) -> bool {
    ends[0] <= number && number <= ends[1]
}

/// The colour of a place of the frame.
fn colour_at(parts: &[Part], ground: [u8; 3], row: u64, column: u64) -> [u8; 3] {
    for part in parts {
        if lies_in(row, &part.rows) && lies_in(column, &part.columns) {
            return part.colour;
        }
    }
    ground
}
