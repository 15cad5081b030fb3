//! A small run.

ghost use Rattle.std.specs.Prelude.{◌≡◌, true, [], replicate, IfOk};
ghost use Rattle.ocs_base.specs.Sizes.{bytes_of};
ghost use Rattle.ocs_base.specs.declared.chip_size.ChipSize.TheVariants.{Kib512};
ghost use Rattle.ocs_base.specs.declared.system.System.TheVariants.{Pal};
ghost use Rattle.serial_model.specs.Side.{FitsSide};

use band_log::Run;
use ocs_base::{OutOfMemory, Script};
use serial_model::Side;
use std::alloc::Global;

/// A run of two frames over eight bytes 7, with the processor and without events, in bands of 20 lines, over
/// a side as it is at reset, which fits 512 KiB of chip memory.
pub fn small_run<S: Side>(alloc: Global, side: S) -> Result<Run<S>, OutOfMemory>
    requires side { FitsSide (bytes_of Kib512) (S.seen side) }
    ensures { IfOk result (λ run. run ≡ record {
      image = replicate 8 7;
      script = record {
        cpu = true;
        frames = 2;
        chip = Kib512;
        system = Pal;
        events = [];
      };
      height = 20;
      side = side;
    }) }
{
    let mut image = Vec::new(alloc);
    image.resize(8, 7)?;
    Ok(Run::over(image, Script::new(alloc, true, 2), 20, side))
}
