//! A read of CLXDAT by itself. The expected bits are worked by hand.

ghost use Rattle.std.specs.Prelude.{◌≡◌, ℕ, [], None, false, length};
ghost use Rattle.foreground.specs.Fore.{over, IsUnderway};

use crate::answers::hold;
use crate::runs::{CLOCKS, run_of};
use band_draw::Direct;
use band_log::{Raster, Run};
use foreground::Fore;
use ocs_base::OutOfMemory;
use out_files::OutFiles;
use serial_model::{NoSide, Side};
use small_runs::out_files;
use std::alloc::Global;
use std::sync::Arc;
use std::test::Fail;

/// The bits that the script's first read of CLXDAT sees.
fn read_first<S: Side, Q: Raster<S>>(
    fore: &mut Fore<S>,
    raster: &mut Q,
    out: &mut OutFiles,
) -> Result<Option<u16>, OutOfMemory>
    requires fresh { fore.old.spent ≡ false }
    requires fits { (first : ℕ) × IsUnderway (over S.seen fore.old) first
        (Q.seen raster.old) }
{
    for _ in 0..CLOCKS {
        if fore.done() {
            return Ok(None);
        }
        if fore.script_reads() {
            let bits = fore.read_clxdat(raster, false, out)?;
            return Ok(Some(bits));
        }
        fore.advance(raster, out)?;
    }
    Ok(None)
}

/// The same in a new run, over a raster that took no band yet.
fn read_in_run<Q: Raster<NoSide>>(
    alloc: Global,
    run: Arc<Run<NoSide>>,
    raster: &mut Q,
    out: &mut OutFiles,
) -> Result<Option<u16>, OutOfMemory>
    requires empty { (Q.seen raster.old).outstanding ≡ [] }
    requires first { (Q.seen raster.old).next ≡ 0 }
    requires unbound { (Q.seen raster.old).bound ≡ None }
{
    let mut fore = Fore::new(alloc, run)?;
    read_first(&mut fore, raster, out)
}

/// The same over a raster of its own.
fn read_of_run(
    alloc: Global,
    run: Arc<Run<NoSide>>,
    out: &mut OutFiles,
) -> Result<Option<u16>, OutOfMemory> {
    let mut raster = Direct::new(alloc)?;
    read_in_run(alloc, run, &mut raster, out)
}

/// The same with files of its own.
fn read_of(alloc: Global, run: Arc<Run<NoSide>>) -> Result<Option<u16>, OutOfMemory> {
    let mut out = out_files(alloc)?;
    read_of_run(alloc, run, &mut out)
}

/// Plane 1 alone, and playfield 2 everywhere: they meet where the word shows, from clock 61 on.
const MEETING: &str = "at 0 0 0 poke 098 0041\nat 0 0 0 poke 100 1000\nat 0 50 60 poke 110 8000\n";

/// The bits that the first read sees, in a run in which they meet and that has this line of events more.
fn bits_read(alloc: Global, read: &str) -> Result<Option<u16>, Fail> {
    let mut events = String::from_str(alloc, MEETING)?;
    events.push_str(read)?;
    let run = run_of(alloc, &[0; 8], &events, 20)?;
    Ok(read_of(alloc, run)?)
}

/// A read sees the pixels of the clocks before its own, and the bits of every band that is drawn.
#[test]
fn a_read_sees_the_clocks_before_it(rt: HostRuntime) -> Result<(), Fail> {
    let found = [
        bits_read(rt.alloc(), "")?,
        bits_read(rt.alloc(), "at 0 50 61 peek 00e\n")?,
        bits_read(rt.alloc(), "at 0 50 62 peek 00e\n")?,
        bits_read(rt.alloc(), "at 0 300 0 peek 00e\n")?,
    ];
    hold(&rt, found == [None, Some(0), Some(1), Some(1)]);
    Ok(())
}
