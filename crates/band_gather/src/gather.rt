//! Gathering: drawn bands are collected from a raster, and their pixels go to the output files.

ghost use Rattle.std.specs.Prelude.{◌≡◌, ◌<◌, ◌≤◌, ℕ, [], length, OnOk, OnErr, IfOk};
ghost use Rattle.std.specs.Arc.{arc_value};
ghost use Rattle.serial_bands.specs.Run.{run_over};
ghost use Rattle.band_log.specs.Raster.{with_submitted, without_first};
ghost use Rattle.band_log.specs.Right.{IsRightJob};
ghost use Rattle.band_gather.specs.Gathering.{places_of};
ghost use Rattle.band_gather.specs.Gathered.{Fits, GathersOne, GathersSome, GathersAll, GathersPart, GathersNone, Submits};

use crate::gathering::Gathering;
use band_log::{Drawn, Job, Picture, Raster, Spare};
use ocs_base::OutOfMemory;
use out_files::OutFiles;
use serial_model::Side;

/// Gathers the first outstanding band: its pixels go to the output files, and its collision bits
/// are added; its room and its events are spare then. The answer is its closing picture state. It may
/// wait for the band.
fn gather_one<S: Side, Q: Raster<S>>(
    raster: &mut Q,
    out: &mut OutFiles,
    clx: &mut u16,
    spare: &mut Spare,
) -> Result<Picture, OutOfMemory>
    requires { 0 < length (Q.seen raster.old).outstanding }
    ensures taken { Q.seen raster.new ≡ without_first (Q.seen raster.old) }
    ensures gathered { IfOk result (λ closing. GathersOne (Q.seen raster.old) (Q.seen raster.new)
        out.old out.new clx.old clx.new closing) }
    ensures part { OnErr result (GathersPart (Q.seen raster.old) (Q.seen raster.new)
        out.old out.new) }
{
    let Drawn { job, clx: bits } = raster.collect();
    let Job {
        picture,
        events,
        room,
        ..
    } = job;
    out.pixels(room.pixels())?;
    spare.keep(room, events);
    *clx |= bits;
    Ok(picture)
}

/// Gathers all outstanding bands. The answer is the closing picture state of the last, if there was
/// one. It may wait for each band.
pub fn gather_all<S: Side, Q: Raster<S>>(
    raster: &mut Q,
    out: &mut OutFiles,
    clx: &mut u16,
    spare: &mut Spare,
) -> Result<Option<Picture>, OutOfMemory>
    ensures gathered { IfOk result (λ closing. GathersAll (Q.seen raster.old) (Q.seen raster.new)
        out.old out.new clx.old clx.new closing) }
    ensures none { OnOk result ((Q.seen raster.new).outstanding ≡ []) }
    ensures part { OnErr result (GathersPart (Q.seen raster.old) (Q.seen raster.new)
        out.old out.new) }
{
    let mut last = None;
    while raster.outstanding() > 0 {
        last = Some(gather_one(raster, out, clx, spare)?);
    }
    Ok(last)
}

/// Makes a place for one more band: where as many are outstanding as may be, the first is gathered.
fn make_place<S: Side, Q: Raster<S>>(
    raster: &mut Q,
    out: &mut OutFiles,
    clx: &mut u16,
    spare: &mut Spare,
    gathering: Gathering,
) -> Result<(), OutOfMemory>
    ensures few { OnOk result (length (Q.seen raster.old).outstanding ≤ 16
        → length (Q.seen raster.new).outstanding < 16) }
    ensures kept { length (Q.seen raster.old).outstanding < places_of gathering
        → GathersNone result
        (Q.seen raster.old) (Q.seen raster.new) out.old out.new clx.old clx.new }
    ensures gathered { OnOk result (GathersSome (Q.seen raster.old) (Q.seen raster.new)
        out.old out.new clx.old clx.new) }
    ensures part { OnErr result (GathersPart (Q.seen raster.old) (Q.seen raster.new)
        out.old out.new) }
{
    let places = gathering.places();
    if raster.outstanding() < places {
        return Ok(());
    }
    gather_one(raster, out, clx, spare)?;
    Ok(())
}

/// Submits the job of the next band; where as many are outstanding as may be, the first is gathered
/// before, which may wait. After a refusal, for want of memory alone, the job is lost.
pub fn submit<S: Side, Q: Raster<S>>(
    job: Job<S>,
    raster: &mut Q,
    out: &mut OutFiles,
    clx: &mut u16,
    spare: &mut Spare,
    gathering: Gathering,
) -> Result<(), OutOfMemory>
    requires right { IsRightJob S.seen (run_over S.seen (arc_value job.run)) job.number job }
    requires fits { (first : ℕ) × Fits (run_over S.seen (arc_value job.run)) job.number job.from.0
        first
        (Q.seen raster.old) }
    ensures at_once { length (Q.seen raster.old).outstanding < places_of gathering
        → GathersNone result
        (with_submitted (run_over S.seen (arc_value job.run)) job.number (Q.seen raster.old))
        (Q.seen raster.new) out.old out.new clx.old clx.new }
    ensures submitted { OnOk result (Submits (run_over S.seen (arc_value job.run)) job.number
        job.from.0 job.to.0
        (Q.seen raster.old) (Q.seen raster.new) out.old out.new clx.old clx.new) }
    ensures part { OnErr result (GathersPart (Q.seen raster.old) (Q.seen raster.new)
        out.old out.new) }
{
    make_place(raster, out, clx, spare, gathering)?;
    raster.submit(job);
    Ok(())
}
