//! The trait of what draws bands.

ghost use Rattle.std.specs.Prelude.{◌≡◌, ◌<◌, ◌^◌, length};
ghost use Rattle.std.specs.Arc.{arc_value};
ghost use Rattle.serial_bands.specs.Run.{run_over};
ghost use Rattle.band_log.specs.Right.{IsRightJob};
ghost use Rattle.band_log.specs.Raster.{RasterValue, Takes, with_submitted, without_first, IsRightForFirst};

use crate::job::{Drawn, Job};
use serial_model::Side;

/// What draws bands of runs over a side: jobs are submitted in the order of their numbers, and what
/// was drawn of them is collected in that order, whoever draws it and when.
pub trait Raster<S: Side> {
    /// The bands that are outstanding, the next number, the run that it is bound to, its mark and
    /// its tint.
    ghost seen: { Self → RasterValue };

    /// Takes the job of the next band. Fewer than 16 bands may be outstanding; the job has the next
    /// number and is right for its own run, which is the run that the raster is bound to, if any.
    fn submit(&mut self, job: Job<S>)
        requires few { length (seen self.old).outstanding < 16 }
        requires number { job.number ≡ (seen self.old).next }
        requires right { IsRightJob S.seen (run_over S.seen (arc_value job.run)) job.number job }
        requires bound { Takes (seen self.old).bound (run_over S.seen (arc_value job.run)) }
        ensures { seen self.new ≡
            with_submitted (run_over S.seen (arc_value job.run)) job.number (seen self.old) };

    /// Gives the first of the outstanding bands, drawn: right for its run and number under the tint.
    /// One has to be outstanding. It may wait.
    fn collect(&mut self) -> Drawn<S>
        requires { 0 < length (seen self.old).outstanding }
        ensures taken { seen self.new ≡ without_first (seen self.old) }
        ensures right { IsRightForFirst S.seen (seen self.old).tint
            (seen self.old).outstanding result };

    /// How many bands are outstanding.
    fn outstanding(&self) -> usize
        ensures { result ≡ length (seen self.now).outstanding };

    /// A tint is a byte.
    ghost tint_is_byte: { (raster : Self) → (seen raster).tint < 2 ^ 8 };
}
