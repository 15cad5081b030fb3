//! Eight bars: a Copper list that waits for the lines 60 to 67, each with a write of a shade of blue.

use ocs_base::OutOfMemory;
use ocs_io::Shelf;
use std::alloc::Global;

pub const SCRIPT: &str = "ocs 1
cpu off
frames 1
at 0 0 0 poke 082 0008
at 0 0 0 poke 088 0000
at 0 0 0 poke 096 8280
end
";

const TRACE: &str = "0 0 0 W 082 0008 S
0 0 0 W 088 0000 S
0 0 0 W 096 8280 S
0 60 4 W 180 0001 C
0 61 4 W 180 0002 C
0 62 4 W 180 0003 C
0 63 4 W 180 0004 C
0 64 4 W 180 0005 C
0 65 4 W 180 0006 C
0 66 4 W 180 0007 C
0 67 4 W 180 0008 C
";

/// The bands of its frame, 20 lines each.
pub const BANDS: u64 = 16;

/// The image, with the list at address 8.
pub fn image(alloc: Global) -> Result<Vec<u8>, OutOfMemory> {
    let mut image = Vec::new(alloc);
    image.resize(8, 0)?;
    for k in 0u8..8 {
        image.extend_from_slice(&[0x3c + k, 0x01, 0xff, 0xfe, 0x01, 0x80, 0x00, k + 1])?;
    }
    image.extend_from_slice(&[0xff, 0xff, 0xff, 0xfe])?;
    Ok(image)
}

/// Appends so many pixels of a shade of blue.
fn push_pixels(frames: &mut Vec<u8>, count: usize, blue: u8) -> Result<(), OutOfMemory> {
    for _ in 0..count {
        frames.extend_from_slice(&[0, 0, blue])?;
    }
    Ok(())
}

/// The frames file: the first bar is row 34, and the last goes on to the frame's end.
fn frames(alloc: Global) -> Result<Vec<u8>, OutOfMemory> {
    let mut frames = Vec::from_slice(alloc, b"P6\n720 286\n255\n")?;
    push_pixels(&mut frames, 24_480, 0)?;
    for blue in [17, 34, 51, 68, 85, 102, 119] {
        push_pixels(&mut frames, 720, blue)?;
    }
    push_pixels(&mut frames, 176_400, 136)?;
    Ok(frames)
}

/// Whether the file is there with these bytes.
fn holds(shelf: &Shelf, name: &str, bytes: &[u8]) -> bool {
    match shelf.file(name) {
        Some(file) => file == bytes,
        None => false,
    }
}

/// Whether the frames and the trace are those of the bars.
pub fn shows_bars(alloc: Global, shelf: &Shelf) -> Result<bool, OutOfMemory> {
    Ok(holds(shelf, "frames", &frames(alloc)?) && holds(shelf, "trace", TRACE.as_bytes()))
}
