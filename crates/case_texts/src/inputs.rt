//! The image and the script of a run that is told as a text.

use crate::bytes::{Kind, push_told, push_words};
use crate::fault::TextFault;
use crate::lines::{push_all, push_lines, script_form};
use crate::own_lines::{has_own_lines, push_own_lines};
use crate::told::first;
use std::alloc::Global;

/// The image.
pub fn image(alloc: Global, run: &str) -> Result<Vec<u8>, TextFault> {
    let mut image = Vec::new(alloc);
    push_told(&mut image, Kind::Image, run).and(Ok(image))
}

/// The track.
pub fn track(alloc: Global, run: &str) -> Result<Vec<u8>, TextFault> {
    let mut track = Vec::new(alloc);
    push_told(&mut track, Kind::Track, run).and(Ok(track))
}

/// The bytes of words.
pub fn bytes(alloc: Global, text: &str) -> Result<Vec<u8>, TextFault> {
    let mut bytes = Vec::new(alloc);
    push_words(&mut bytes, text).and(Ok(bytes))
}

/// The script.
pub fn script(alloc: Global, run: &str) -> Result<String, TextFault> {
    let mut script = String::new(alloc);
    push_script(&mut script, run).and(Ok(script))
}

/// Appends the script, of lines that are told as they stand there, or made of what is told.
fn push_script(script: &mut String, run: &str) -> Result<(), TextFault> {
    if has_own_lines(run) {
        return push_own_lines(script, run);
    }
    push_head(script, run)?;
    push_lines(script, script_form(), run)?;
    push_all(script, &["end\n"])
}

/// Appends the lines of the script before its events.
fn push_head(script: &mut String, run: &str) -> Result<(), TextFault> {
    let system = first(run, "system", "");
    let chip = first(run, "chip", if system.is_empty() { "" } else { "512" });
    push_settings(script, version(system, chip), run)?;
    push_all(script, &line_parts("chip ", chip))?;
    push_all(script, &line_parts("system ", system))
}

/// Appends the lines that each script has.
fn push_settings<'a>(script: &mut String, version: &'a str, run: &'a str) -> Result<(), TextFault> {
    let cpu = first(run, "cpu", "off");
    let frames = first(run, "frames", "1");
    push_all(
        script,
        &["ocs ", version, "\ncpu ", cpu, "\nframes ", frames, "\n"],
    )
}

/// The version of the script, by the system and the size of chip memory that are told.
fn version(system: &str, chip: &str) -> &'static str {
    if !system.is_empty() {
        "3"
    } else if !chip.is_empty() {
        "2"
    } else {
        "1"
    }
}

/// The parts of a line of the script, where there is something to say.
fn line_parts<'a>(name: &'a str, value: &'a str) -> [&'a str; 3] {
    if value.is_empty() {
        [""; 3]
    } else {
        [name, value, "\n"]
    }
}
