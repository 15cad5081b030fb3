//! Commands whose workers draw at once, which a gate shows that holds bands back until a later one is begun.

use crate::bars::{BANDS, SCRIPT, image, shows_bars};
use crate::told::{Told, Watch};
use ocs_base::OutOfMemory;
use ocs_io::Shelf;
use ocs_run::ocs_main;
use std::alloc::Global;
use std::sync::{Arc, Wait};
use std::thread::Threads;

/// Appends the words of a text.
fn push_words(owned: &mut Vec<String>, alloc: Global, words: &str) -> Result<(), OutOfMemory> {
    for word in words.split_whitespace() {
        owned.push(String::from_str(alloc, word)?)?;
    }
    Ok(())
}

/// The words of a text.
fn words_of(alloc: Global, words: &str) -> Result<Vec<String>, OutOfMemory> {
    let mut owned = Vec::new(alloc);
    push_words(&mut owned, alloc, words).and(Ok(owned))
}

/// The bands that a gate holds: from a number up to, not including, another.
#[derive(Clone, Copy)]
struct Held {
    from: u64,
    to: u64,
}

/// The status of the command with these words, while a gate that tells these counts holds bands.
fn status<R: Threads + Wait + Clone + Drop + Send + Sync + 'static>(
    rt: &R,
    alloc: Global,
    words: &str,
    told: &Arc<Told>,
    held: Held,
    shelf: &mut Shelf,
) -> Result<u8, OutOfMemory> {
    let owned = words_of(alloc, words)?;
    let gate = Watch::over(told, held.from, held.to)?;
    Ok(ocs_main(rt, alloc, &owned, shelf, gate))
}

/// The status of such a command, how often its gate was waited for in vain, and how often it was told of band 0
/// and of a band behind those that it holds.
fn counts<R: Threads + Wait + Clone + Drop + Send + Sync + 'static>(
    rt: &R,
    alloc: Global,
    words: &str,
    held: Held,
    shelf: &mut Shelf,
) -> Result<(u8, [u64; 3]), OutOfMemory> {
    let told = Arc::new(alloc, Told::new())?;
    let status = status(rt, alloc, words, &told, held, shelf)?;
    Ok((status, told.counts()))
}

/// Puts the image and the script of the bars on a shelf.
fn put_bars(shelf: &mut Shelf, alloc: Global) -> Result<(), OutOfMemory> {
    shelf.put("image", &image(alloc)?)?;
    shelf.put("script", SCRIPT.as_bytes())
}

/// The status of a command, how often its gate was waited for in vain, how often it was told of band 0 and
/// of a band behind those that it holds, and whether it shows the bars.
type Answer = (u8, [u64; 3], bool);

/// That of the bars in bands of 20 lines with two workers on a shelf, while a gate holds the bands before one.
fn answer_on_shelf<R: Threads + Wait + Clone + Drop + Send + Sync + 'static>(
    rt: &R,
    alloc: Global,
    to: u64,
    shelf: &mut Shelf,
) -> Result<Answer, OutOfMemory> {
    put_bars(shelf, alloc)?;
    let words = "run image script frames trace memory 20 2";
    let (status, counts) = counts(rt, alloc, words, Held { from: 0, to }, shelf)?;
    Ok((status, counts, shows_bars(alloc, shelf)?))
}

/// The same on a shelf of its own.
fn answer_of_bars<R: Threads + Wait + Clone + Drop + Send + Sync + 'static>(
    rt: &R,
    alloc: Global,
    to: u64,
) -> Result<Answer, OutOfMemory> {
    let mut shelf = Shelf::new(alloc);
    answer_on_shelf(rt, alloc, to, &mut shelf)
}

/// Band 0 is held until another is begun, by the other worker or the caller.
#[test]
fn a_band_is_drawn_beside_another(rt: HostRuntime) -> Result<(), OutOfMemory> {
    assert!(rt; answer_of_bars(&rt, rt.alloc(), 1)? == (0, [0, 1, BANDS - 1], true));
    Ok(())
}

/// Bands 0 and 1 are held until a third is begun: two workers and the caller draw at once.
#[test]
fn two_workers_draw_beside_the_caller(rt: HostRuntime) -> Result<(), OutOfMemory> {
    assert!(rt; answer_of_bars(&rt, rt.alloc(), 2)? == (0, [0, 1, BANDS - 2], true));
    Ok(())
}

/// The same of scene 0, and whether it says what a scene does.
fn answer_of_scene<R: Threads + Wait + Clone + Drop + Send + Sync + 'static>(
    rt: &R,
    alloc: Global,
) -> Result<Answer, OutOfMemory> {
    let mut shelf = Shelf::new(alloc);
    let (status, counts) = counts(rt, alloc, "gen 0 20 2", Held { from: 1, to: 3 }, &mut shelf)?;
    Ok((
        status,
        counts,
        shelf.said().starts_with(b"frames 10\npicture "),
    ))
}

/// So it is where a scene is run. Its band 0 ends where the processor reads CLXDAT, which waits for it; then
/// the bands 1 and 2 are held.
#[test]
fn workers_draw_a_scene(rt: HostRuntime) -> Result<(), OutOfMemory> {
    let (status, [in_vain, first, _later], says) = answer_of_scene(&rt, rt.alloc())?;
    assert!(rt; status == 0 && [in_vain, first] == [0, 1] && says);
    Ok(())
}
