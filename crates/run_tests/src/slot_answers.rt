//! What each status says, and what it leaves of the files.

use crate::slot_cases::{inputs, status};
use ocs_io::{Place, ReadRefusal, Shelf, WriteRefusal};
use run_cases::CaseFault;
use run_cases::place::shelf;
use slots_run::slots_main;
use std::alloc::Global;
use std::test::Fail;

/// Words of no form: no word, four and six; two names that are one; an empty name; numbers that are none,
/// beyond 1000, or not below the second.
fn no_orders() -> [&'static str; 9] {
    [
        "",
        "image script 0 1",
        "image script 0 1 out out",
        "image script 0 1 script",
        "image script 0 1 ",
        "image script 00 1 out",
        "image script 0 1001 out",
        "image script 1 1 out",
        "image script 2 1 out",
    ]
}

/// Whether the words have this status and text, and leave the file `out` so.
fn answers(
    alloc: Global,
    text: &str,
    shelf: &mut Shelf,
    answer: u8,
    said: &str,
    out: Option<&[u8]>,
) -> Result<bool, CaseFault> {
    let ended = status(alloc, text, shelf)?;
    Ok(ended == answer && shelf.said() == said.as_bytes() && shelf.file("out") == out)
}

/// Whether words of no form have the usage said.
fn says_usage(alloc: Global, text: &str) -> Result<bool, CaseFault> {
    let mut shelf = inputs(alloc)?;
    let usage = "usage: ocs-slots IMAGE SCRIPT FROM TO OUT\n";
    answers(alloc, text, &mut shelf, 2, usage, None)
}

#[test]
fn words_of_no_form(rt: HostRuntime) -> Result<(), Fail> {
    for text in no_orders() {
        assert!(rt; says_usage(rt.alloc(), text)?, "{text}");
    }
    Ok(())
}

/// Whether a bad image is told before a bad script, and the script where the image is good.
fn are_told_in_order(alloc: Global, shelf: &mut Shelf) -> Result<bool, CaseFault> {
    let order = "image script 0 1 out";
    let first = answers(alloc, order, shelf, 3, "bad image\n", None)?;
    shelf.put("image", &[0; 8])?;
    let said = "bad image\nbad script: line 3: frames\n";
    let second = answers(alloc, order, shelf, 4, said, None)?;
    Ok(first && second)
}

#[test]
fn bad_inputs(rt: HostRuntime) -> Result<(), Fail> {
    let alloc = rt.alloc();
    let mut shelf = shelf(alloc, &[0; 7], "ocs 1\ncpu off\nframes 0\nend\n")?;
    assert!(rt; are_told_in_order(alloc, &mut shelf)?);
    Ok(())
}

/// The inputs, of which the call of this number fails.
fn failing_inputs(alloc: Global, call: u64) -> Result<Shelf, CaseFault> {
    let mut shelf = inputs(alloc)?;
    shelf.fail_at(call)?;
    Ok(shelf)
}

/// Whether a run whose call of this number fails answers so and leaves no file.
fn fails_at(alloc: Global, call: u64, answer: u8, said: &str) -> Result<bool, CaseFault> {
    let mut shelf = failing_inputs(alloc, call)?;
    answers(
        alloc,
        "image script 0 1 out",
        &mut shelf,
        answer,
        said,
        None,
    )
}

/// Whether a part of a log is there, from its heading on, and the refusal was said.
fn has_part(shelf: &Shelf) -> bool {
    let out = shelf.file("out").unwrap_or(&[]);
    shelf.said() == b"cannot write out\n".as_slice()
        && out.len() > 355_000
        && out.starts_with(b"ocs-slots 3 pal 0 1 524288 10\n")
}

/// Whether a run whose append fails leaves a part of its log.
fn leaves_a_part(alloc: Global) -> Result<bool, CaseFault> {
    let mut shelf = failing_inputs(alloc, 3)?;
    let ended = status(alloc, "image script 0 1 out", &mut shelf)?;
    Ok(ended == 6 && has_part(&shelf))
}

/// The calls of the place that fail, each in turn: the two reads, the create, and the append, of which half
/// the text is left, and nothing of it to compare here but its heading.
#[test]
fn calls_that_fail(rt: HostRuntime) -> Result<(), Fail> {
    let alloc = rt.alloc();
    let found = [
        fails_at(alloc, 0, 5, "cannot read image\n")?,
        fails_at(alloc, 1, 5, "cannot read script\n")?,
        fails_at(alloc, 2, 6, "cannot write out\n")?,
        leaves_a_part(alloc)?,
    ];
    assert!(rt; found == [true; 4]);
    Ok(())
}

/// The shelf that it is, but for creates, for which it wants memory that is not there.
#[derive(Drop)]
struct FullShelf {
    shelf: Shelf,
}

impl Place for FullShelf {
    ghost use Rattle.ocs_io.specs.Said.{IsShort};
    ghost use Rattle.ocs_io.specs.Shelf.{outside_of, IsHeld, IsAnyName};

    ghost outside = { λ p. outside_of p.shelf };

    ghost readable = { λ p name. IsAnyName name };

    ghost growable = { λ p name. IsHeld p.shelf.files name };

    ghost says_freely = { λ p piece. IsShort p.shelf.said piece };

    fn read(&mut self, name: &str, cap: usize, into: &mut Vec<u8>) -> Result<(), ReadRefusal> {
        self.shelf.read(name, cap, into)
    }

    fn create(&mut self, _name: &str) -> Result<(), WriteRefusal> {
        Err(WriteRefusal::OutOfMemory)
    }

    fn append(&mut self, name: &str, piece: &[u8]) -> Result<(), WriteRefusal> {
        self.shelf.append(name, piece)
    }

    fn say(&mut self, piece: &[u8]) -> Result<(), WriteRefusal> {
        self.shelf.say(piece)
    }
}

/// The words of an order.
fn words_of_an_order(alloc: Global) -> Result<Vec<String>, CaseFault> {
    let mut words = Vec::new(alloc);
    for word in ["image", "script", "0", "1", "out"] {
        words.push(String::from_str(alloc, word)?)?;
    }
    Ok(words)
}

/// Whether memory was wanting, and no file is there.
fn has_nothing(shelf: &Shelf) -> bool {
    shelf.said() == b"out of memory\n".as_slice() && shelf.file("out").is_none()
}

#[test]
fn memory_that_is_wanting(rt: HostRuntime) -> Result<(), Fail> {
    let alloc = rt.alloc();
    let words = words_of_an_order(alloc)?;
    let mut place = FullShelf {
        shelf: inputs(alloc)?,
    };
    let ended = slots_main(alloc, &words, &mut place);
    assert!(rt; ended == 7 && has_nothing(&place.shelf));
    Ok(())
}
