//! A run that is told as a text, and the records of its frames.

use case_texts::inputs::{image, script};
use ocs_io::{Shelf, hex};
use run_cases::CaseFault;
use run_cases::place::shelf;
use slots_run::slots_main;
use std::alloc::Global;

/// The processor reads its two vectors and its first instruction while the Copper makes a MOVE; it writes
/// a word at 200, writes COLOR00, reads DMACONR, and stops. A blit of one word writes ffff to 300. In
/// line 100 the word at 100 is fetched for plane 1, in one unit that begins with clock 56.
pub fn run_told() -> &'static str {
    "run Each owner of a slot.
cpu on
frames 2
image 0000 2000 0000 0100 0180 0f00 ffff fffe 120*0000
image 33c0 0000 0200 33c0 00df f180 3039 00df f002 4e72 2700
at 0 0 0: 082=0008 088=0000 096=82c0
at 0 0 60: 040=01ff 056=0300 058=0041
at 0 100 0: 08e=2c81 090=f4c1 092=0038 094=0038 0e2=0100 100=1000 096=8100
at 0 101 0: 096=0100"
}

/// The two inputs of that run.
pub fn inputs(alloc: Global) -> Result<Shelf, CaseFault> {
    let image = image(alloc, run_told())?;
    shelf(alloc, &image, script(alloc, run_told())?.as_str())
}

/// The status of the words of a text.
pub fn status(alloc: Global, text: &str, shelf: &mut Shelf) -> Result<u8, CaseFault> {
    let mut words = Vec::new(alloc);
    for word in text.split(' ') {
        words.push(String::from_str(alloc, word)?)?;
    }
    Ok(slots_main(alloc, &words, shelf))
}

/// The records of a frame of PAL: those of a text, in order, and of each other clock that of a free slot, or
/// of refresh.
pub fn records(alloc: Global, text: &str) -> Result<Vec<u8>, CaseFault> {
    let told = bytes(alloc, text)?;
    let mut left = told.as_slice();
    let mut records = Vec::new(alloc);
    for line in 0..313_u16 {
        let [high, low] = line.to_be_bytes();
        for clock in 0..227 {
            left = put_clock([high, low, clock], left, &mut records)?;
        }
    }
    Ok(records)
}

/// Appends the record of the clock at a place, which is the first of those that are left where that is of the
/// place. The answer is what is left then.
fn put_clock<'a>(
    place: [u8; 3],
    left: &'a [u8],
    records: &mut Vec<u8>,
) -> Result<&'a [u8], CaseFault> {
    if left.len() >= 10 && left.starts_with(&place) {
        records.extend_from_slice(&left[..10])?;
        return Ok(&left[10..]);
    }
    let is_refresh = matches!(place[2], 1 | 3 | 5 | 225);
    records.extend_from_slice(&place)?;
    records.extend_from_slice(&[u8::from(is_refresh), 0, 0, 0, 0, 0, 0])?;
    Ok(left)
}

/// The bytes of a text, each of two hexadecimal digits, or two of four.
fn bytes(alloc: Global, text: &str) -> Result<Vec<u8>, CaseFault> {
    let mut bytes = Vec::new(alloc);
    for digits in text.split_whitespace() {
        let value = hex(digits.as_bytes()).ok_or("a byte is told")?;
        if digits.len() == 4 {
            bytes.push((value / 256 % 256) as u8)?;
        }
        bytes.push((value % 256) as u8)?;
    }
    Ok(bytes)
}
