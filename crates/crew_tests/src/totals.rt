//! Who draws the bands of a run over a crew: a worker that does not wait to be collected, or the crew itself.

ghost use Rattle.std.specs.Prelude.{◌≡◌, ◌≤◌, OnOk, IfOk};
ghost use Rattle.std.specs.Arc.{arc_value};
ghost use Rattle.ocs_base.specs.Image.{is_image as good_image, fits_chip};
ghost use Rattle.serial_model.specs.Side.{no_side};
ghost use Rattle.crew.specs.Crew.{crew_seen, side_seen};
ghost use Rattle.foreground.specs.Fore.{IsNew};
ghost use Rattle.files_run.specs.Underway.{fore_of, run_of, CanRun};

use crate::bars::{BANDS, SCRIPT, image, shows_bars};
use crate::told::{Told, Watch};
use band_log::{Raster, Run};
use clock_loop::run_to;
use crew::{Crew, CrewSide, Totals, with_crew};
use foreground::Fore;
use ocs_base::{OutOfMemory, Script};
use ocs_io::Shelf;
use out_files::OutFiles;
use script_read::read_script;
use small_runs::out_files;
use std::alloc::Global;
use std::sync::{Arc, Wait};
use std::test::Fail;
use std::thread::Threads;

/// The workers of a crew: how many, whom its gate tells of the bands, and whether the clock loop waits until
/// they have begun.
#[derive(Clone, Copy)]
struct Workers<'a> {
    count: u8,
    told: &'a Arc<Told>,
    waits: bool,
}

/// Where a band is outstanding it may wait until band 0 is about to be drawn.
fn wait_if_outstanding<Q: Raster<CrewSide>>(raster: &Q, told: &Told, waits: bool) {
    if waits && raster.outstanding() == 1 {
        told.wait_for(&told.first);
    }
}

/// Does all clocks of a run, and gathers the bands that are left. After each line it may wait.
fn run_clocks<Q: Raster<CrewSide>>(
    fore: &mut Fore<CrewSide>,
    raster: &mut Q,
    out: &mut OutFiles,
    told: &Told,
    waits: bool,
) -> Result<(), OutOfMemory>
    requires able { CanRun (fore_of fore.old) (Q.seen raster.old) }
    ensures mark { (Q.seen raster.new).mark ≡ (Q.seen raster.old).mark }
    ensures run { OnOk result ((fore_of fore.new).run ≡ (fore_of fore.old).run) }
{
    while !fore.done() {
        let limit = fore.next_line();
        run_to(fore, limit, raster, out)?;
        wait_if_outstanding(raster, told, waits);
    }
    fore.settle(raster, out)?;
    Ok(())
}

/// Runs all clocks of a foreground at reset over a crew of these workers. The answer says who drew its bands.
fn draw_over_crew<R: Threads + Wait + Clone + Drop + Send + Sync + 'static>(
    rt: &R,
    alloc: Global,
    workers: Workers<'_>,
    run: Arc<Run<CrewSide>>,
    fore: &mut Fore<CrewSide>,
    out: &mut OutFiles,
) -> Result<Totals, OutOfMemory>
    requires workers { workers.count ≤ 32 }
    requires new { IsNew (run_of (arc_value run)) (fore_of fore.old) }
{
    let Workers { count, told, waits } = workers;
    let gate = Watch::over(told, 0, 0)?;
    let mut body = |crew: &mut Crew<R, Watch>| -> Result<(), OutOfMemory>
        requires able { CanRun (fore_of fore.now) (crew_seen crew.old) }
        ensures mark { (crew_seen crew.new).mark ≡ (crew_seen crew.old).mark }
        ensures run { OnOk result ((fore_of fore.exit.now).run ≡ (fore_of fore.entry.now).run) }
    { run_clocks(fore, crew, out, told, waits) };
    let (answer, totals) = with_crew(rt, alloc, run, count, gate, &mut body)?;
    answer?;
    Ok(totals)
}

/// Whether bytes are an image.
fn is_image(image: &[u8]) -> bool
    ensures { result ≡ good_image image.now }
{
    image.len() % 2 == 0 && 8 <= image.len() && image.len() <= 1_048_576
}

/// Whether an image is not longer than the chip memory of a script.
fn fits(image: &[u8], script: &Script) -> bool
    ensures { result ≡ fits_chip script.now.chip image.now }
{
    image.len() <= script.chip() as usize
}

/// The bars' run in bands of 20 lines.
fn run_of_bars(alloc: Global) -> Result<Arc<Run<CrewSide>>, Fail>
    ensures { IfOk result (λ run. side_seen (arc_value run).side ≡ no_side) }
{
    let script = read_script(alloc, SCRIPT.as_bytes())?;
    let image = image(alloc)?;
    if !is_image(&image) || !fits(&image, &script) {
        return Err(Fail::from("image"));
    }
    Ok(Arc::new(alloc, Run::over(image, script, 20, CrewSide::Nothing))?)
}

/// Writes the files of a run.
fn write_files(out: &mut OutFiles, shelf: &mut Shelf) -> Result<(), Fail> {
    out.create(shelf)?;
    out.flush(shelf)?;
    Ok(())
}

/// The foreground at reset of a run.
fn fore_of_run(alloc: Global, run: &Arc<Run<CrewSide>>) -> Result<Fore<CrewSide>, OutOfMemory>
    requires { side_seen (arc_value run.now).side ≡ no_side }
    ensures { IfOk result (λ fore. IsNew (run_of (arc_value run.now)) (fore_of fore)) }
{
    Fore::with_side(alloc, Arc::try_clone(run)?, CrewSide::Nothing)
}

/// Runs over a crew of these workers and writes the files. The answer says who drew its bands.
fn write_over_crew<R: Threads + Wait + Clone + Drop + Send + Sync + 'static>(
    rt: &R,
    alloc: Global,
    workers: Workers<'_>,
    run: Arc<Run<CrewSide>>,
    fore: &mut Fore<CrewSide>,
    out: &mut OutFiles,
    shelf: &mut Shelf,
) -> Result<Totals, Fail>
    requires workers { workers.count ≤ 32 }
    requires new { IsNew (run_of (arc_value run)) (fore_of fore.old) }
{
    let totals = draw_over_crew(rt, alloc, workers, run, fore, out)?;
    write_files(out, shelf)?;
    Ok(totals)
}

/// The same with output files of its own.
fn files_over_crew<R: Threads + Wait + Clone + Drop + Send + Sync + 'static>(
    rt: &R,
    alloc: Global,
    workers: Workers<'_>,
    run: Arc<Run<CrewSide>>,
    fore: &mut Fore<CrewSide>,
    shelf: &mut Shelf,
) -> Result<Totals, Fail>
    requires workers { workers.count ≤ 32 }
    requires new { IsNew (run_of (arc_value run)) (fore_of fore.old) }
{
    let mut out = out_files(alloc)?;
    write_over_crew(rt, alloc, workers, run, fore, &mut out, shelf)
}

/// The same with the bars' run from reset on.
fn run_over_crew<R: Threads + Wait + Clone + Drop + Send + Sync + 'static>(
    rt: &R,
    alloc: Global,
    workers: Workers<'_>,
    shelf: &mut Shelf,
) -> Result<Totals, Fail>
    requires { workers.count ≤ 32 }
{
    let run = run_of_bars(alloc)?;
    let mut fore = fore_of_run(alloc, &run)?;
    files_over_crew(rt, alloc, workers, run, &mut fore, shelf)
}

/// Whether a run shows the bars, how often someone waited in vain, and who drew its bands.
type Answer = (bool, u64, Totals);

/// That of the bars' run over a crew of these workers, on a shelf.
fn answer_on_shelf<R: Threads + Wait + Clone + Drop + Send + Sync + 'static>(
    rt: &R,
    alloc: Global,
    workers: Workers<'_>,
    shelf: &mut Shelf,
) -> Result<Answer, Fail>
    requires { workers.count ≤ 32 }
{
    let totals = run_over_crew(rt, alloc, workers, shelf)?;
    Ok((shows_bars(alloc, shelf)?, workers.told.counts()[0], totals))
}

/// The same on a shelf of its own.
fn answer_of_workers<R: Threads + Wait + Clone + Drop + Send + Sync + 'static>(
    rt: &R,
    alloc: Global,
    workers: Workers<'_>,
) -> Result<Answer, Fail>
    requires { workers.count ≤ 32 }
{
    let mut shelf = Shelf::new(alloc);
    answer_on_shelf(rt, alloc, workers, &mut shelf)
}

/// That of so many workers, of whose bands nobody was told before, and for whom the clock loop may wait.
fn answer_of_crew<R: Threads + Wait + Clone + Drop + Send + Sync + 'static>(
    rt: &R,
    alloc: Global,
    count: u8,
    waits: bool,
) -> Result<Answer, Fail>
    requires { count ≤ 32 }
{
    let told = Arc::new(alloc, Told::new())?;
    let workers = Workers {
        count,
        told: &told,
        waits,
    };
    answer_of_workers(rt, alloc, workers)
}

/// The one worker begins with band 0 while the clock loop, which has submitted it, collects nothing yet.
#[test]
fn a_worker_does_not_wait_to_be_collected(rt: HostRuntime) -> Result<(), Fail> {
    let (shows, in_vain, totals) = answer_of_crew(&rt, rt.alloc(), 1, true)?;
    let all = totals.by_hands.saturating_add(totals.by_front);
    assert!(rt; shows && in_vain == 0 && totals.by_hands > 0 && all == BANDS);
    Ok(())
}

/// Without a worker the crew draws every band itself.
#[test]
fn a_crew_without_workers_draws_itself(rt: HostRuntime) -> Result<(), Fail> {
    let (shows, _in_vain, totals) = answer_of_crew(&rt, rt.alloc(), 0, false)?;
    assert!(rt; shows && totals.by_hands == 0 && totals.by_front == BANDS);
    Ok(())
}
