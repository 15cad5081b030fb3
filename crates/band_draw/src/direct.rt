//! A raster that draws its bands itself.

ghost use Rattle.std.specs.Prelude.{◌≡◌, ◌<◌, [], None, IfOk, length};
ghost use Rattle.std.specs.Arc.{arc_value};
ghost use Rattle.serial_bands.specs.Run.{run_over};
ghost use Rattle.band_log.specs.Right.{IsRightJob};
ghost use Rattle.band_log.specs.Raster.{Takes, with_submitted, without_first, IsRightForFirst};

use crate::band::draw;
use band_log::{Drawn, Job, Raster};
use ocs_base::OutOfMemory;
use serial_model::Side;
use std::alloc::Global;
use std::marker::Model;

/// How many bands may be outstanding.
const PLACES: usize = 16;

/// A raster that keeps up to 16 jobs in order, and draws each when it is collected. It is bound to
/// no run; the runs of its jobs are over sides of one type.
#[derive(Drop)]
pub struct Direct<S: Side> {
    jobs: Vec<Job<S>>,
    next: u64,
}

impl<S: Side> Model for Direct<S> {
    ghost use Rattle.std.specs.Prelude.{map};
    ghost use Rattle.band_draw.specs.Direct.{DirectValue, band_of, HasPlaces};

    ghost Value = { DirectValue S };

    ghost view = { λ d. record { bands = map band_of d.jobs.items; next = d.next } };

    ghost invariant = { λ d. HasPlaces S.seen d.jobs };
}

impl<S: Side> Direct<S> {
    ghost use Rattle.band_draw.specs.Direct.{seen_of};

    /// A raster without bands. It takes the places of its 16 jobs, so that no later call needs
    /// memory; it is refused for want of memory alone.
    pub fn new(alloc: Global) -> Result<Direct<S>, OutOfMemory>
        ensures { IfOk result (λ direct. seen_of S.seen direct ≡ record {
          outstanding = [];
          next = 0;
          bound = None;
          mark = 0;
          tint = 0;
        }) }
    {
        Direct::starting(alloc, 0)
    }

    /// As `new`, where the first band is the one of this number: a foreground that goes on from a
    /// state in the midst of a run does not begin with band 0.
    pub fn starting(alloc: Global, number: u64) -> Result<Direct<S>, OutOfMemory>
        ensures { IfOk result (λ direct. seen_of S.seen direct ≡ record {
          outstanding = [];
          next = number;
          bound = None;
          mark = 0;
          tint = 0;
        }) }
    {
        let jobs = Vec::with_capacity(alloc, PLACES)?;
        Ok(Direct { jobs, next: number })
    }
}

impl<S: Side> Raster<S> for Direct<S> {
    ghost use Rattle.band_draw.specs.Direct.{seen_of};
    ghost use Rattle.band_draw.specs.Direct.{zero_is_byte};

    ghost seen = { seen_of S.seen };

    ghost tint_is_byte = { zero_is_byte S.seen };

    fn submit(&mut self, job: Job<S>)
        requires few { length (seen_of S.seen self.old).outstanding < 16 }
        requires number { job.number ≡ (seen_of S.seen self.old).next }
        requires right { IsRightJob S.seen (run_over S.seen (arc_value job.run)) job.number job }
        requires bound { Takes (seen_of S.seen self.old).bound
            (run_over S.seen (arc_value job.run)) }
        ensures { seen_of S.seen self.new ≡
            with_submitted (run_over S.seen (arc_value job.run)) job.number
            (seen_of S.seen self.old) }
    {
        let _good = job.run.script();
        let _pushed = self.jobs.push(job);
        self.next += 1;
    }

    fn collect(&mut self) -> Drawn<S>
        requires { 0 < length (seen_of S.seen self.old).outstanding }
        ensures taken { seen_of S.seen self.new ≡ without_first (seen_of S.seen self.old) }
        ensures right { IsRightForFirst S.seen (seen_of S.seen self.old).tint
            (seen_of S.seen self.old).outstanding result }
    {
        let job = self.jobs.remove(0);
        draw(job)
    }

    fn outstanding(&self) -> usize
        ensures { result ≡ length (seen_of S.seen self.now).outstanding }
    {
        self.jobs.len()
    }
}
