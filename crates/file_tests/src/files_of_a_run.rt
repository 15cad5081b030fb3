//! The three files over files in memory; the texts and the numbers are worked by hand.

use crate::answers::hold;
use mem_versions::Chip;
use ocs_base::{Beam, OutOfMemory, Reg, System};
use ocs_io::Shelf;
use out_files::{OutFile, OutFiles, Source, TraceLine, WriteFault};
use small_runs::out_files;
use std::alloc::Global;

/// Creates the files, gives these bytes and this line, and flushes.
fn write_files(
    out: &mut OutFiles,
    shelf: &mut Shelf,
    pixels: &[u8],
    line: TraceLine,
) -> Result<(), WriteFault> {
    out.create(shelf)?;
    out.pixels(pixels)?;
    out.line(line)?;
    out.flush(shelf)
}

/// The same with files of its own.
fn write_own_files(
    shelf: &mut Shelf,
    alloc: Global,
    pixels: &[u8],
    line: TraceLine,
) -> Result<(), WriteFault> {
    let mut out = out_files(alloc)?;
    write_files(&mut out, shelf, pixels, line)
}

fn taken(level: u8) -> TraceLine {
    let beam = Beam {
        frame: 12,
        v: 0,
        h: 226,
        lof: true,
    };
    TraceLine::Taken { beam, level }
}

fn wrote(offset: u16, word: u16, by: Source) -> TraceLine {
    let beam = Beam {
        frame: 0,
        v: 48,
        h: 9,
        lof: true,
    };
    let reg = Reg::masked(offset);
    TraceLine::Wrote {
        beam,
        reg,
        word,
        by,
    }
}

fn peeked(offset: u16, word: u16, by: Source) -> TraceLine {
    let beam = Beam {
        frame: 1000,
        v: 311,
        h: 0,
        lof: true,
    };
    let reg = Reg::masked(offset);
    TraceLine::Peeked {
        beam,
        reg,
        word,
        by,
    }
}

/// Whether the files of a run with this line alone are an empty one of frames, and a trace of this text.
fn traces(shelf: &mut Shelf, alloc: Global, line: TraceLine, text: &str) -> bool {
    write_own_files(shelf, alloc, &[], line).is_ok()
        && shelf.file("trace") == Some(text.as_bytes())
        && shelf.file("frames") == Some([].as_slice())
}

/// The same with a shelf of its own.
fn is_traced(alloc: Global, line: TraceLine, text: &str) -> bool {
    traces(&mut Shelf::new(alloc), alloc, line, text)
}

/// Whether each kind of line is traced.
fn are_traced(alloc: Global) -> bool {
    let copper = wrote(0x180, 0xf00, Source::Copper);
    let script = wrote(0x9a, 0xc0de, Source::Script);
    let processor = peeked(0xe, 1, Source::Processor);
    is_traced(alloc, taken(3), "12 0 226 I 3\n")
        && is_traced(alloc, copper, "0 48 9 W 180 0f00 C\n")
        && is_traced(alloc, script, "0 48 9 W 09a c0de S\n")
        && is_traced(alloc, processor, "1000 311 0 R 00e 0001 M\n")
}

#[test]
fn each_line_of_the_trace(rt: HostRuntime) {
    hold(&rt, are_traced(rt.alloc()));
}

/// So many pixel bytes.
fn nines(alloc: Global, count: usize) -> Result<Vec<u8>, OutOfMemory> {
    let mut bytes = Vec::new(alloc);
    bytes.resize(count, 9)?;
    Ok(bytes)
}

/// Whether a file is there of so many bytes, that begins and ends with these.
fn is_framed(shelf: &Shelf, name: &str, size: usize, start: &[u8], end: &[u8]) -> bool {
    match shelf.file(name) {
        Some(file) => file.len() == size && file.starts_with(start) && file.ends_with(end),
        None => false,
    }
}

/// What becomes of so many pixel bytes: a file of this size, and what it begins and ends with.
struct Framed {
    given: usize,
    size: usize,
    start: &'static [u8],
    end: &'static [u8],
}

/// Whether these pixel bytes become a file like this.
fn becomes(out: &mut OutFiles, shelf: &mut Shelf, pixels: &[u8], want: &Framed) -> bool {
    write_files(out, shelf, pixels, taken(1)).is_ok()
        && is_framed(shelf, "frames", want.size, want.start, want.end)
}

/// Whether so many pixel bytes as are to be given become a file like this.
fn has_headings(out: &mut OutFiles, alloc: Global, want: &Framed) -> bool {
    match nines(alloc, want.given) {
        Ok(pixels) => becomes(out, &mut Shelf::new(alloc), &pixels, want),
        Err(_) => false,
    }
}

/// The same with the files of a PAL machine.
fn has_headings_of_pal(alloc: Global, want: &Framed) -> bool {
    match out_files(alloc) {
        Ok(mut out) => has_headings(&mut out, alloc, want),
        Err(_) => false,
    }
}

/// One byte more than a frame of PAL has.
static TWO_FRAMES: Framed = Framed {
    given: 617_761,
    size: 617_791,
    start: b"P6\n720 286\n255\n\x09",
    end: b"\x09P6\n720 286\n255\n\x09",
};

#[test]
fn a_heading_before_each_frame(rt: HostRuntime) {
    hold(&rt, has_headings_of_pal(rt.alloc(), &TWO_FRAMES));
}

/// Whether a call that fails ends the run, with a fault of this file.
fn is_refused(shelf: &mut Shelf, alloc: Global, call: u64, file: OutFile) -> bool {
    shelf.fail_at(call).is_ok()
        && write_own_files(shelf, alloc, &[1, 2, 3], taken(3)) == Err(WriteFault::Failed { file })
}

/// How many bytes a file has, nothing where it is not there.
fn size_of(shelf: &Shelf, name: &str) -> Option<usize> {
    match shelf.file(name) {
        Some(file) => Some(file.len()),
        None => None,
    }
}

/// A call that fails, the file that the fault is of, and how many bytes the frames and the trace have then.
type Refusal = (u64, OutFile, [Option<usize>; 2]);

/// Whether a call fails with this fault and leaves so many bytes.
fn leaves(shelf: &mut Shelf, alloc: Global, want: &Refusal) -> bool {
    is_refused(shelf, alloc, want.0, want.1)
        && [size_of(shelf, "frames"), size_of(shelf, "trace")] == want.2
}

/// Whether each of these calls is refused on a shelf of its own.
fn are_refused(alloc: Global, refusals: &[Refusal]) -> bool {
    for refusal in refusals {
        if !leaves(&mut Shelf::new(alloc), alloc, refusal) {
            return false;
        }
    }
    true
}

#[test]
fn a_create_or_append_is_refused(rt: HostRuntime) {
    let refusals = [
        (0, OutFile::Frames, [None, None]),
        (1, OutFile::Trace, [Some(0), None]),
        (2, OutFile::Memory, [Some(0), Some(0)]),
        (3, OutFile::Frames, [Some(9), Some(0)]),
        (4, OutFile::Trace, [Some(18), Some(6)]),
    ];
    hold(&rt, are_refused(rt.alloc(), &refusals));
}

/// Creates the files and appends a memory.
fn store(out: &mut OutFiles, shelf: &mut Shelf, chip: &mut Chip) -> Result<(), WriteFault> {
    out.create(shelf)?;
    out.memory(chip, shelf)
}

/// The same with files of its own.
fn store_own(shelf: &mut Shelf, alloc: Global, chip: &mut Chip) -> Result<(), WriteFault> {
    let mut out = out_files(alloc)?;
    store(&mut out, shelf, chip)
}

/// The same with the memory of an image.
fn store_image(shelf: &mut Shelf, alloc: Global, image: &[u8; 8]) -> Result<(), WriteFault> {
    let mut chip = Chip::new(alloc, image)?;
    store_own(shelf, alloc, &mut chip)
}

/// Whether the memory of an image is stored whole.
fn is_stored(shelf: &mut Shelf, alloc: Global) -> bool {
    let start = &[0x12, 0x34, 0x56, 0x78, 0, 0, 0, 1, 0];
    store_image(shelf, alloc, &[0x12, 0x34, 0x56, 0x78, 0, 0, 0, 1]).is_ok()
        && is_framed(shelf, "memory", 524_288, start, &[])
}

/// The same on a shelf of its own.
fn has_memory_file(alloc: Global) -> bool {
    is_stored(&mut Shelf::new(alloc), alloc)
}

#[test]
fn the_memory_file(rt: HostRuntime) {
    hold(&rt, has_memory_file(rt.alloc()));
}

/// Files of the same names of an NTSC machine.
fn ntsc_files(alloc: Global) -> Result<OutFiles, OutOfMemory> {
    let frames = String::from_str(alloc, "frames")?;
    let trace = String::from_str(alloc, "trace")?;
    let memory = String::from_str(alloc, "memory")?;
    Ok(OutFiles::made(alloc, frames, trace, memory, System::Ntsc))
}

/// Whether so many pixel bytes of an NTSC machine as are to be given become a file like this.
fn has_headings_of_ntsc(alloc: Global, want: &Framed) -> bool {
    match ntsc_files(alloc) {
        Ok(mut out) => has_headings(&mut out, alloc, want),
        Err(_) => false,
    }
}

/// A frame of NTSC.
static ONE_FRAME_OF_NTSC: Framed = Framed {
    given: 522_720,
    size: 522_735,
    start: b"P6\n720 242\n255\n\x09",
    end: b"\x09\x09",
};

/// One byte more than a frame of NTSC has.
static TWO_FRAMES_OF_NTSC: Framed = Framed {
    given: 522_721,
    size: 522_751,
    start: b"P6\n720 242\n255\n\x09",
    end: b"\x09P6\n720 242\n255\n\x09",
};

#[test]
fn a_heading_before_each_frame_of_ntsc(rt: HostRuntime) {
    let one = has_headings_of_ntsc(rt.alloc(), &ONE_FRAME_OF_NTSC);
    let two = has_headings_of_ntsc(rt.alloc(), &TWO_FRAMES_OF_NTSC);
    hold(&rt, one && two);
}
