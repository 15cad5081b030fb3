//! Commands on files in memory.

use crate::fault::CaseFault;
use case_texts::inputs::{image, script, track};
use case_texts::told::{first, number};
use ocs_io::Shelf;
use ocs_run::{NoGate, ocs_main};
use scene_gen::scene;
use script_read::print_script;
use std::alloc::Global;
use std::sync::Wait;
use std::thread::Threads;

/// The words of a run in bands of so many lines, by so many workers.
pub fn order_in<'a>(
    alloc: Global,
    run: &'a str,
    band: &'a str,
    workers: &'a str,
) -> Result<String, CaseFault> {
    let command = first(run, "command", "run");
    let sixth = match command {
        "sound" => "audio ",
        "disk" => "track ",
        _ => "",
    };
    let words = format!(in alloc;
        "{command} image script frames trace memory {sixth}{band} {workers}"
    )?;
    Ok(words)
}

/// The status of the command with the words of a text, in which `''` is an empty one.
pub fn status<R: Threads + Wait + Clone + Drop + Send + Sync + 'static>(
    rt: &R,
    alloc: Global,
    words: &str,
    shelf: &mut Shelf,
) -> Result<u8, CaseFault> {
    let words = words_of(alloc, words)?;
    Ok(ocs_main(rt, alloc, &words, shelf, NoGate))
}

/// The words of a text.
pub fn words_of(alloc: Global, text: &str) -> Result<Vec<String>, CaseFault> {
    let mut words = Vec::new(alloc);
    push_words(alloc, text, &mut words).and(Ok(words))
}

/// Appends the words of a text.
fn push_words(alloc: Global, text: &str, words: &mut Vec<String>) -> Result<(), CaseFault> {
    for word in text.split(' ') {
        let word = if word == "''" { "" } else { word };
        words.push(String::from_str(alloc, word)?)?;
    }
    Ok(())
}

/// A shelf with the files that a run reads.
pub fn inputs(alloc: Global, run: &str) -> Result<Shelf, CaseFault> {
    let mut shelf = Shelf::new(alloc);
    put_inputs(alloc, run, &mut shelf).and(Ok(shelf))
}

/// A shelf with these files, whose call of this number fails.
pub fn failing_inputs(alloc: Global, run: &str, call: u64) -> Result<Shelf, CaseFault> {
    let mut shelf = inputs(alloc, run)?;
    shelf.fail_at(call)?;
    Ok(shelf)
}

/// A shelf with an image and a script.
pub fn shelf(alloc: Global, image: &[u8], script: &str) -> Result<Shelf, CaseFault> {
    let mut shelf = Shelf::new(alloc);
    shelf.put("image", image)?;
    shelf.put("script", script.as_bytes())?;
    Ok(shelf)
}

/// Puts the files there that a run reads.
fn put_inputs(alloc: Global, run: &str, shelf: &mut Shelf) -> Result<(), CaseFault> {
    let scene = first(run, "scene", "");
    if !scene.is_empty() {
        return put_scene(alloc, number(scene)?, shelf);
    }
    put_image(alloc, run, shelf)?;
    put_script(alloc, run, shelf)?;
    put_track(alloc, run, shelf)
}

/// Puts the image there, where it is not told to be absent.
fn put_image(alloc: Global, run: &str, shelf: &mut Shelf) -> Result<(), CaseFault> {
    if is_absent(run, "image") {
        return Ok(());
    }
    let bytes = image(alloc, run)?;
    Ok(shelf.put("image", &bytes)?)
}

/// Puts the script there, where it is not.
fn put_script(alloc: Global, run: &str, shelf: &mut Shelf) -> Result<(), CaseFault> {
    if is_absent(run, "script") {
        return Ok(());
    }
    let text = script(alloc, run)?;
    Ok(shelf.put("script", text.as_bytes())?)
}

/// Puts the track there that is told, where one is.
fn put_track(alloc: Global, run: &str, shelf: &mut Shelf) -> Result<(), CaseFault> {
    let bytes = track(alloc, run)?;
    if bytes.is_empty() {
        return Ok(());
    }
    Ok(shelf.put("track", &bytes)?)
}

/// Whether this input is told to be absent.
pub fn is_absent(run: &str, file: &str) -> bool {
    first(run, "absent", "") == file
}

/// Puts the image and the printed script of a scene there.
fn put_scene(alloc: Global, scene: u64, shelf: &mut Shelf) -> Result<(), CaseFault> {
    let Ok(number) = u32::try_from(scene) else {
        return Err(CaseFault::Untold("a scene's number is below 2^32"));
    };
    let mut text = Vec::new(alloc);
    put_scene_image(alloc, number, &mut text, shelf)?;
    Ok(shelf.put("script", &text)?)
}

/// Puts the image of a scene there, and appends its printed script to a text.
fn put_scene_image(
    alloc: Global,
    number: u32,
    text: &mut Vec<u8>,
    shelf: &mut Shelf,
) -> Result<(), CaseFault> {
    let (image, script) = scene(alloc, number)?;
    shelf.put("image", &image)?;
    Ok(print_script(&script, text)?)
}

/// Whether the file is there with these bytes.
pub fn holds(shelf: &Shelf, name: &str, bytes: &[u8]) -> bool {
    match shelf.file(name) {
        Some(file) => file == bytes,
        None => false,
    }
}

/// Whether the file is there and begins with these bytes.
pub fn begins(shelf: &Shelf, name: &str, bytes: &[u8]) -> bool {
    match shelf.file(name) {
        Some(file) => file.starts_with(bytes),
        None => false,
    }
}
