//! A checkpoint of a run: what a foreground is made of again.

ghost use Rattle.std.specs.Prelude.{◌≡◌};

use band_log::Run;
use chip_set::Chips;
use mem_versions::Kept;
use ocs_base::Beam;
use serial_bands::Shadow;
use serial_model::Denise;
use std::marker::Model;
use std::sync::Arc;

/// The state of a run at the start of a field, with the number of the band that begins there. It keeps no
/// pixel, no word of a plane or a sprite that is not yet drawn, and of the memory the present words alone, in
/// pages that are shared.
#[derive(Drop)]
pub struct Checkpoint<S> {
    pub(crate) run: Arc<Run<S>>,
    /// The clock, in colour clocks since reset, and the place of the beam there.
    pub(crate) t: u64,
    pub(crate) beam: Beam,
    pub(crate) kept: Kept,
    pub(crate) chips: Chips,
    pub(crate) side: S,
    /// The next band's number, how it opens, and the shadow of that.
    pub(crate) number: u64,
    pub(crate) opening: Denise,
    pub(crate) shadow: Shadow,
    /// How many of the script's events have happened.
    pub(crate) next: usize,
    /// The collision bits since CLXDAT was last read.
    pub(crate) clx: u16,
}

impl<S> Model for Checkpoint<S> {
    ghost use Rattle.std.specs.Arc.{arc_value};
    ghost use Rattle.foreground.specs.Checkpoint.{CheckpointOf};

    ghost Value = { CheckpointOf S };

    ghost view = { λ k. record {
      run = arc_value k.run;
      t = k.t;
      beam = k.beam;
      kept = k.kept;
      chips = k.chips;
      side = k.side;
      number = k.number;
      opening = k.opening;
      shadow = k.shadow;
      next = k.next;
      clx = k.clx;
    } };
}

impl<S> Checkpoint<S> {
    /// The number of the next band, from 0: a raster fits the foreground that is made of the checkpoint if it
    /// has nothing outstanding and this next number.
    pub fn band(&self) -> u64
        ensures { result ≡ self.now.number }
    {
        self.number
    }
}
