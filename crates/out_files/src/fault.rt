//! Why a file was not written.

use ocs_base::OutOfMemory;
use ocs_io::WriteRefusal;
use thiserror::Error;

/// One of the files that a run writes.
#[derive(Clone, Copy, PartialEq, Eq, Debug)]
pub enum OutFile {
    Frames,
    Trace,
    Memory,
}

/// Why files were not created or written. `Failed`: the outside refused a create or an append of this
/// file, and its count of write faults rose.
#[derive(Clone, Copy, PartialEq, Eq, Debug, Error)]
pub enum WriteFault {
    #[error("the outside refused to write a file")]
    Failed { file: OutFile },
    #[error("out of memory")]
    OutOfMemory,
}

impl From<OutOfMemory> for WriteFault {
    ghost use Rattle.std.specs.Prelude.{◌≡◌};
    ghost use Rattle.out_files.specs.declared.fault.WriteFault.{WriteFault};

    ghost from_gives = { λ _ fault. fault ≡ WriteFault.OutOfMemory };

    fn from(_refused: OutOfMemory) -> WriteFault {
        WriteFault::OutOfMemory
    }
}

impl WriteFault {
    ghost use Rattle.std.specs.Prelude.{◌≡◌};
    ghost use Rattle.out_files.specs.Answers.{fault_of};

    /// The fault of a refusal that came for a file.
    pub(crate) fn of(refusal: WriteRefusal, file: OutFile) -> WriteFault
        ensures { result ≡ fault_of refusal file }
    {
        match refusal {
            WriteRefusal::Failed => WriteFault::Failed { file },
            WriteRefusal::OutOfMemory => WriteFault::OutOfMemory,
        }
    }
}
