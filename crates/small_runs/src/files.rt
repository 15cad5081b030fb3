//! The files of a run.

ghost use Rattle.std.specs.Prelude.{◌≡◌, [], codes, IfOk};
ghost use Rattle.ocs_base.specs.declared.system.System.TheVariants.{Pal};

use ocs_base::OutOfMemory;
use out_files::OutFiles;
use std::alloc::Global;

/// Files named frames, trace and memory, of a PAL machine, with nothing pending and no frame begun.
pub fn out_files(alloc: Global) -> Result<OutFiles, OutOfMemory>
    ensures { IfOk result (λ out. out ≡ record {
      names = record {
        frames = codes "frames";
        trace = codes "trace";
        memory = codes "memory";
      };
      system = Pal;
      frames = [];
      trace = [];
      given = 0;
    }) }
{
    let frames = String::from_str(alloc, "frames")?;
    let trace = String::from_str(alloc, "trace")?;
    let memory = String::from_str(alloc, "memory")?;
    Ok(OutFiles::new(alloc, frames, trace, memory))
}
