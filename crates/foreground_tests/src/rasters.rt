//! Whole runs of the foreground over rasters that draw at once. The expected pixels, counts and clocks are
//! worked by hand.

ghost use Rattle.std.specs.Prelude.{◌≡◌, ◌≤◌, ◌<◌, length};
ghost use Rattle.band_log.specs.Right.{IsRightJob};
ghost use Rattle.band_log.specs.Raster.{Takes, with_submitted, without_first, IsRightForFirst};
ghost use Rattle.serial_bands.specs.BandShown.{tinted_bytes};

use crate::answers::hold;
use crate::runs::{run_of, run_whole};
use band_draw::Direct;
use band_log::{Drawn, Job, Raster, Room};
use ocs_base::OutOfMemory;
use ocs_io::Shelf;
use serial_model::NoSide;
use std::alloc::Global;
use std::test::Fail;

const HEADING: &[u8] = b"P6\n720 286\n255\n";

/// A raster that hands its calls to another, turns each pixel byte b of a band into 255 - b and counts the
/// jobs. Of the first three it keeps the first clock and that behind the last. (Each type of raster has the
/// whole clock loop compiled once more, so one does both.)
#[derive(Drop)]
struct Inverted {
    direct: Direct<NoSide>,
    jobs: usize,
    clocks: [(u64, u64); 3],
}

impl Raster<NoSide> for Inverted {
    ghost use Rattle.std.proofs.Common.{lit<};
    ghost use Rattle.foreground_tests.specs.Rasters.{none_seen, run_of_job, inverted};

    ghost seen = { λ raster. inverted raster.direct };

    ghost tint_is_byte = { λ raster. lit< {m = 255} {n = 256} tt };

    fn submit(&mut self, job: Job<NoSide>)
        requires few { length (inverted self.old.direct).outstanding < 16 }
        requires number { job.number ≡ (inverted self.old.direct).next }
        requires right { IsRightJob none_seen (run_of_job job) job.number job }
        requires bound { Takes (inverted self.old.direct).bound (run_of_job job) }
        ensures { inverted self.new.direct
            ≡ with_submitted (run_of_job job) job.number (inverted self.old.direct) }
    {
        if let Some(place) = self.clocks.get_mut(self.jobs) {
            *place = (job.from.0, job.to.0);
        }
        self.jobs = self.jobs.saturating_add(1);
        self.direct.submit(job)
    }

    fn collect(&mut self) -> Drawn<NoSide>
        requires { 0 < length (inverted self.old.direct).outstanding }
        ensures taken { inverted self.new.direct ≡ without_first (inverted self.old.direct) }
        ensures right { IsRightForFirst none_seen (inverted self.old.direct).tint
            (inverted self.old.direct).outstanding result }
    {
        let mut drawn = self.direct.collect();
        invert(&mut drawn.job.room);
        drawn
    }

    fn outstanding(&self) -> usize
        ensures { result ≡ length (inverted self.now.direct).outstanding }
    {
        self.direct.outstanding()
    }
}

/// Turns each byte b of a room into 255 - b.
fn invert(room: &mut Room)
    ensures { room.new ≡ tinted_bytes 255 room.old }
{
    invert_bytes(room.pixels_mut());
}

/// Turns each byte b into 255 - b.
fn invert_bytes(bytes: &mut [u8])
    ensures { bytes.new ≡ tinted_bytes 255 bytes.old }
{
    for i in 0..bytes.len() {
        bytes[i] ^= 255;
    }
}

/// The frames file of a picture that is white up to the pixel of clock 100 of line 100, and then cyan.
fn white_and_cyan(alloc: Global) -> Result<Vec<u8>, OutOfMemory> {
    let mut frames = Vec::from_slice(alloc, HEADING)?;
    for pixel in 0..286 * 720 {
        let colour: &[u8] = if pixel < 74 * 720 + 212 {
            &[0xff, 0xff, 0xff]
        } else {
            &[0x00, 0xff, 0xff]
        };
        frames.extend_from_slice(colour)?;
    }
    Ok(frames)
}

/// The files of a run over a raster that inverts, in which COLOR00 becomes red at clock 100 of line 100.
fn inverted_files(alloc: Global) -> Result<Shelf, Fail> {
    let run = run_of(alloc, &[0; 8], "at 0 100 100 poke 180 0f00\n", 20)?;
    let mut raster = Inverted {
        direct: Direct::new(alloc)?,
        jobs: 0,
        clocks: [(0, 0); 3],
    };
    let (shelf, _reads) = run_whole(alloc, run, &mut raster)?;
    Ok(shelf)
}

/// A colour is written at clock 100 of line 100, and each byte b of a pixel is given as 255 - b.
#[test]
fn pixels_are_those_that_are_collected(rt: HostRuntime) -> Result<(), Fail> {
    let frames = white_and_cyan(rt.alloc())?;
    let shelf = inverted_files(rt.alloc())?;
    hold(&rt, shelf.file("frames") == Some(frames.as_slice()));
    Ok(())
}

/// One plane of 20 words in each of 200 lines, all zero but the second: of it one low-resolution
/// pixel is white, two columns of a line.
const PLANE: &str = "at 0 0 0 poke 08e 2c81\nat 0 0 0 poke 090 f4c1\nat 0 0 0 poke 092 0038\n\
at 0 0 0 poke 094 00d0\nat 0 0 0 poke 0e0 0007\nat 0 0 0 poke 0e2 fffe\n\
at 0 0 0 poke 100 1000\nat 0 0 0 poke 102 000f\nat 0 0 0 poke 108 ffd8\n\
at 0 0 0 poke 182 0fff\nat 0 0 0 poke 096 8300\n";

/// How many bytes of the frames file are 255.
fn count_full(shelf: &Shelf) -> u32 {
    let mut full = 0u32;
    for byte in shelf.file("frames").unwrap_or(&[]) {
        if *byte == 0xff {
            full = full.saturating_add(1);
        }
    }
    full
}

/// How many bytes of the frames file are 255 in a run of the plane in bands of so many lines, and how many
/// words of memory are read.
fn full_and_reads(alloc: Global, height: u16) -> Result<(u32, u64), Fail>
    requires least { 1 ≤ height }
    requires most { height ≤ 313 }
{
    let run = run_of(alloc, &[0x80, 0, 0, 0, 0, 0, 0, 0], PLANE, height)?;
    let mut raster = Direct::new(alloc)?;
    let (shelf, reads) = run_whole(alloc, run, &mut raster)?;
    Ok((count_full(&shelf), reads))
}

/// 4,000 words of a plane are shown, and none is read but for what a band opens with.
#[test]
fn words_of_planes_are_not_read(rt: HostRuntime) -> Result<(), Fail> {
    let (one_full, one_reads) = full_and_reads(rt.alloc(), 313)?;
    let (full, reads) = full_and_reads(rt.alloc(), 100)?;
    hold(
        &rt,
        [one_full, full] == [200 * 2 * 3; 2] && one_reads <= 1 && reads <= 3,
    );
    Ok(())
}

const READS: &str = "at 0 0 0 poke 098 0041\nat 0 0 0 poke 100 1000\nat 0 50 60 poke 110 8000\n\
at 0 50 61 peek 00e\nat 0 50 62 peek 00e\nat 0 50 62 peek 00e\n";

/// How many jobs a run with reads makes, and the clocks of the first three.
fn jobs_of_reads(alloc: Global) -> Result<(usize, [(u64, u64); 3]), Fail> {
    let run = run_of(alloc, &[0; 8], READS, 313)?;
    let mut raster = Inverted {
        direct: Direct::new(alloc)?,
        jobs: 0,
        clocks: [(0, 0); 3],
    };
    let (_shelf, _reads) = run_whole(alloc, run, &mut raster)?;
    Ok((raster.jobs, raster.clocks))
}

/// A band begins with each clock in which the collision bits are read, and with no second read of it.
#[test]
fn bands_begin_with_reads(rt: HostRuntime) -> Result<(), Fail> {
    let clocks = [(0, 11_411), (11_411, 11_412), (11_412, 71_051)];
    hold(&rt, jobs_of_reads(rt.alloc())? == (3, clocks));
    Ok(())
}
