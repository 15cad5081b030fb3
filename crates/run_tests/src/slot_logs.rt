//! The logs of frames.

use crate::slot_cases::{inputs, records, status};
use ocs_io::Shelf;
use run_cases::CaseFault;
use std::alloc::Global;
use std::test::Fail;

/// Frame 0: line, clock, code, address and word of each access, and of the blitter's slot without one. Its
/// first line has all owners of slots but planes. The Copper has the clocks 0, 2, 4 and 6. The processor asks for
/// its first read from clock 2 on and has clock 7, and then every second clock up to 13; its first instruction
/// is read from clock 27 on. Each instruction but STOP has two more words than its first; the write comes before
/// the last word that is read ahead of it. DMACONR has BZERO too. The blit of one word is begun by the script at
/// clock 60: it rests, and then writes. In line 100 plane 1 has a fetch.
const FIRST_FRAME: &str = "
    0000 00 03 0000 0008 0180
    0000 02 03 0000 000a 0f00
    0000 04 03 0000 000c ffff
    0000 06 03 0000 000e fffe
    0000 07 06 0000 0000 0000
    0000 09 06 0000 0002 2000
    0000 0b 06 0000 0004 0000
    0000 0d 06 0000 0006 0100
    0000 1b 06 0000 0100 33c0
    0000 1d 06 0000 0102 0000
    0000 1f 06 0000 0104 0200
    0000 21 07 0000 0200 0000
    0000 23 06 0000 0106 33c0
    0000 25 06 0000 0108 00df
    0000 27 06 0000 010a f180
    0000 29 0b 0000 0180 0000
    0000 2b 06 0000 010c 3039
    0000 2d 06 0000 010e 00df
    0000 2f 06 0000 0110 f002
    0000 31 0a 0000 0002 22c0
    0000 33 06 0000 0112 4e72
    0000 35 06 0000 0114 2700
    0000 3c 02 0000 0000 0000
    0000 3d 05 0000 0300 ffff
    0064 3f 21 0000 0100 33c0";

/// Frame 1: the Copper begins anew, and nobody else has a slot.
const SECOND_FRAME: &str = "
    0000 00 03 0000 0008 0180
    0000 02 03 0000 000a 0f00
    0000 04 03 0000 000c ffff
    0000 06 03 0000 000e fffe";

/// The file of a heading and records.
fn file(alloc: Global, heading: &str, records: &[u8]) -> Result<Vec<u8>, CaseFault> {
    let mut file = Vec::from_slice(alloc, heading.as_bytes())?;
    file.extend_from_slice(records)?;
    Ok(file)
}

/// Whether the words of a text are done, say nothing, and make this file.
fn makes(alloc: Global, text: &str, file: &[u8]) -> Result<bool, CaseFault> {
    let mut shelf: Shelf = inputs(alloc)?;
    let done = status(alloc, text, &mut shelf)? == 0;
    Ok(done && shelf.said().is_empty() && shelf.file("out") == Some(file))
}

#[test]
fn frame_in_which_each_owner_has_slots(rt: HostRuntime) -> Result<(), Fail> {
    let alloc = rt.alloc();
    let heading = "ocs-slots 3 pal 0 1 524288 10\n";
    let file = file(alloc, heading, &records(alloc, FIRST_FRAME)?)?;
    assert!(rt; makes(alloc, "image script 0 1 out", &file)?);
    Ok(())
}

/// Of the frames 1 to 999 that which the script has.
#[test]
fn later_frame(rt: HostRuntime) -> Result<(), Fail> {
    let alloc = rt.alloc();
    let heading = "ocs-slots 3 pal 1 1000 524288 10\n";
    let file = file(alloc, heading, &records(alloc, SECOND_FRAME)?)?;
    assert!(rt; makes(alloc, "image script 1 1000 out", &file)?);
    Ok(())
}

/// A frame that the script has not.
#[test]
fn no_frame(rt: HostRuntime) -> Result<(), Fail> {
    let alloc = rt.alloc();
    let heading = "ocs-slots 3 pal 2 3 524288 10\n";
    let file = file(alloc, heading, &[])?;
    assert!(rt; makes(alloc, "image script 2 3 out", &file)?);
    Ok(())
}
