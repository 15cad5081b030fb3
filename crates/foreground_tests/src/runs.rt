//! Whole runs of the foreground over a raster that draws at once.

ghost use Rattle.std.specs.Prelude.{◌≡◌, ◌≤◌, ℕ, [], None, false, IfOk};
ghost use Rattle.ocs_base.specs.Limits.{IsRunnable};
ghost use Rattle.ocs_base.specs.declared.chip_size.ChipSize.TheVariants.{Kib512};
ghost use Rattle.foreground.specs.Fore.{over, IsUnderway};

use band_log::{Raster, Run};
use foreground::Fore;
use ocs_base::{ChipSize, OutOfMemory, Script};
use ocs_io::Shelf;
use out_files::{OutFiles, WriteFault};
use script_read::read_script;
use serial_model::{NoSide, Side};
use small_runs::out_files;
use std::alloc::Global;
use std::sync::Arc;
use std::test::Fail;

/// More clocks than a frame has.
pub const CLOCKS: u32 = 72_000;

/// A run of a script of one frame with these lines of events.
pub fn run_of(
    alloc: Global,
    image: &[u8; 8],
    events: &str,
    height: u16,
) -> Result<Arc<Run<NoSide>>, Fail>
    requires least { 1 ≤ height }
    requires most { height ≤ 313 }
{
    let script = script_of(alloc, events)?;
    let image = Vec::from_slice(alloc, image)?;
    Ok(Arc::new(alloc, Run::new(image, script, height))?)
}

/// A script of one frame, for 512 KiB, with these lines of events.
pub fn script_of(alloc: Global, events: &str) -> Result<Script, Fail>
    ensures runnable { IfOk result IsRunnable }
    ensures chip { IfOk result (λ script. script.chip ≡ Kib512) }
{
    let mut text = String::from_str(alloc, "ocs 1\ncpu off\nframes 1\n")?;
    text.push_str(events)?;
    text.push_str("end\n")?;
    let script = read_script(alloc, text.as_bytes())?;
    match script.chip_size() {
        ChipSize::Kib512 => Ok(script),
        ChipSize::Mib1 => Err(Fail::from("a script of version 1 is for 512 KiB")),
    }
}

/// Does all clocks of a run of one frame, and gathers the bands that are left.
pub fn run_clocks<S: Side, Q: Raster<S>>(
    fore: &mut Fore<S>,
    raster: &mut Q,
    out: &mut OutFiles,
) -> Result<(), OutOfMemory>
    requires fresh { fore.old.spent ≡ false }
    requires fits { (first : ℕ) × IsUnderway (over S.seen fore.old) first
        (Q.seen raster.old) }
{
    for _ in 0..CLOCKS {
        if fore.done() {
            return fore.settle(raster, out);
        }
        fore.advance(raster, out)?;
    }
    Ok(())
}

/// The same: how many words of memory were read.
fn count_reads<S: Side, Q: Raster<S>>(
    fore: &mut Fore<S>,
    raster: &mut Q,
    out: &mut OutFiles,
) -> Result<u64, OutOfMemory>
    requires fresh { fore.old.spent ≡ false }
    requires fits { (first : ℕ) × IsUnderway (over S.seen fore.old) first
        (Q.seen raster.old) }
{
    run_clocks(fore, raster, out)?;
    Ok(fore.reads())
}

/// The same of a new run, over a raster that took no band yet.
fn run_out<Q: Raster<NoSide>>(
    alloc: Global,
    run: Arc<Run<NoSide>>,
    raster: &mut Q,
    out: &mut OutFiles,
) -> Result<u64, OutOfMemory>
    requires empty { (Q.seen raster.old).outstanding ≡ [] }
    requires first { (Q.seen raster.old).next ≡ 0 }
    requires unbound { (Q.seen raster.old).bound ≡ None }
{
    let mut fore = Fore::new(alloc, run)?;
    count_reads(&mut fore, raster, out)
}

/// Creates the files of a run, and writes its frames and its trace.
fn write_files(out: &mut OutFiles, shelf: &mut Shelf) -> Result<(), WriteFault> {
    out.create(shelf)?;
    out.flush(shelf)
}

/// The same on a shelf of its own.
fn written_files(alloc: Global, out: &mut OutFiles) -> Result<Shelf, WriteFault> {
    let mut shelf = Shelf::new(alloc);
    write_files(out, &mut shelf)?;
    Ok(shelf)
}

/// A whole run over a raster that took no band yet: its files, and how many words of memory were read.
pub fn run_whole<Q: Raster<NoSide>>(
    alloc: Global,
    run: Arc<Run<NoSide>>,
    raster: &mut Q,
) -> Result<(Shelf, u64), Fail>
    requires empty { (Q.seen raster.old).outstanding ≡ [] }
    requires first { (Q.seen raster.old).next ≡ 0 }
    requires unbound { (Q.seen raster.old).bound ≡ None }
{
    let mut out = out_files(alloc)?;
    let reads = run_out(alloc, run, raster, &mut out)?;
    let shelf = written_files(alloc, &mut out)?;
    Ok((shelf, reads))
}
