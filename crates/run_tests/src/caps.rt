//! How much of an input is read at the most: the longest good image, script and track, and no more.

use ocs_io::{Place, ReadRefusal, Shelf, WriteRefusal};
use ocs_run::{NoGate, ocs_main};
use run_cases::CaseFault;
use run_cases::place::{shelf, words_of};
use std::alloc::Global;
use std::sync::Wait;
use std::thread::Threads;

/// The shelf that it is, and the caps with which it was asked to read, in order.
#[derive(Drop)]
struct NotingShelf {
    shelf: Shelf,
    caps: Vec<usize>,
}

impl Place for NotingShelf {
    ghost use Rattle.ocs_io.specs.Said.{IsShort};
    ghost use Rattle.ocs_io.specs.Shelf.{outside_of, IsHeld, IsAnyName};

    ghost outside = { λ p. outside_of p.shelf };

    ghost readable = { λ p name. IsAnyName name };

    ghost growable = { λ p name. IsHeld p.shelf.files name };

    ghost says_freely = { λ p piece. IsShort p.shelf.said piece };

    fn read(&mut self, name: &str, cap: usize, into: &mut Vec<u8>) -> Result<(), ReadRefusal> {
        if self.caps.push(cap).is_err() {
            return Err(ReadRefusal::OutOfMemory);
        }
        self.shelf.read(name, cap, into)
    }

    fn create(&mut self, name: &str) -> Result<(), WriteRefusal> {
        self.shelf.create(name)
    }

    fn append(&mut self, name: &str, piece: &[u8]) -> Result<(), WriteRefusal> {
        self.shelf.append(name, piece)
    }

    fn say(&mut self, piece: &[u8]) -> Result<(), WriteRefusal> {
        self.shelf.say(piece)
    }
}

/// A shelf with an image of 8 zeros, this script and a track of three bytes.
fn inputs(alloc: Global, script: &str) -> Result<Shelf, CaseFault> {
    let mut shelf = shelf(alloc, &[0; 8], script)?;
    shelf.put("track", &[0; 3])?;
    Ok(shelf)
}

/// Whether the words of a text answer this status and read up to these caps.
fn reads<R: Threads + Wait + Clone + Drop + Send + Sync + 'static>(
    rt: &R,
    alloc: Global,
    text: &str,
    script: &str,
    wanted: u8,
    caps: &[usize],
) -> Result<bool, CaseFault> {
    let mut place = NotingShelf {
        shelf: inputs(alloc, script)?,
        caps: Vec::new(alloc),
    };
    reads_on(rt, alloc, text, wanted, caps, &mut place)
}

/// Whether an answer came, and it is so.
fn is_true(answer: Result<bool, CaseFault>) -> bool {
    match answer {
        Ok(found) => found,
        Err(_fault) => false,
    }
}

/// Whether they do on a shelf that was not read yet.
fn reads_on<R: Threads + Wait + Clone + Drop + Send + Sync + 'static>(
    rt: &R,
    alloc: Global,
    text: &str,
    wanted: u8,
    caps: &[usize],
    place: &mut NotingShelf,
) -> Result<bool, CaseFault> {
    let words = words_of(alloc, text)?;
    let ended = ocs_main(rt, alloc, &words, place, NoGate);
    Ok(ended == wanted && place.caps.as_slice() == caps)
}

/// A script that is bad at its third line, so that nothing runs: image and script are read.
#[test]
fn an_image_and_a_script_are_read_up_to_their_greatest_lengths(rt: HostRuntime) {
    let alloc = rt.alloc();
    let bad = "ocs 1\ncpu off\nframes 0\nend\n";
    let run = "run image script frames trace memory 313 0";
    let rewind = "rewind image script 1 1 9";
    let found = [
        is_true(reads(&rt, alloc, run, bad, 4, &[1_048_576, 4_194_304])),
        is_true(reads(&rt, alloc, rewind, bad, 4, &[1_048_576, 4_194_304])),
    ];
    assert!(rt; found == [true; 2]);
}

/// The track is the third file that is read, and is bad.
#[test]
fn a_track_is_read_up_to_its_greatest_length(rt: HostRuntime) {
    let alloc = rt.alloc();
    let good = "ocs 1\ncpu off\nframes 1\nend\n";
    let text = "disk image script frames trace memory track 313 0";
    let caps = [1_048_576, 4_194_304, 32_768];
    assert!(rt; is_true(reads(&rt, alloc, text, good, 9, &caps)));
}
