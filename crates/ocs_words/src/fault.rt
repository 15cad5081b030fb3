//! Why a run did not come to its end.

use ocs_base::OutOfMemory;
use out_files::{OutFile, WriteFault};
use run_inputs::InputFault;

/// One of the files that a run writes: those of every run, and what it sounds.
#[derive(Clone, Copy, PartialEq, Eq, Debug)]
pub enum Output {
    File(OutFile),
    Audio,
}

/// Why a command did not do what it was asked: the words are not of the form, image and script were not
/// read, the track is bad or could not be read, a file could not be written, the summary of a scene or the
/// lines of a rewind could not be said, or memory was wanting.
#[derive(Clone, Copy, Debug)]
pub enum Fault {
    Usage,
    Inputs { fault: InputFault },
    BadTrack,
    UnreadTrack,
    Unwritten { output: Output },
    Unsaid,
    OutOfMemory,
}

impl From<OutOfMemory> for Fault {
    ghost use Rattle.std.specs.Prelude.{◌≡◌};
    ghost use Rattle.ocs_words.specs.declared.fault.Fault.{Fault};

    ghost from_gives = { λ refused fault. fault ≡ Fault.OutOfMemory };

    fn from(_refused: OutOfMemory) -> Fault {
        Fault::OutOfMemory
    }
}

impl From<InputFault> for Fault {
    ghost use Rattle.std.specs.Prelude.{◌≡◌};
    ghost use Rattle.ocs_words.specs.declared.fault.Fault.{Fault};

    ghost from_gives = { λ from fault. fault ≡ Fault.Inputs from };

    fn from(fault: InputFault) -> Fault {
        Fault::Inputs { fault }
    }
}

impl From<WriteFault> for Fault {
    ghost use Rattle.std.specs.Prelude.{◌≡◌};
    ghost use Rattle.ocs_words.specs.Fault.{of_write};

    ghost from_gives = { λ from fault. fault ≡ of_write from };

    fn from(fault: WriteFault) -> Fault {
        match fault {
            WriteFault::Failed { file } => Fault::Unwritten {
                output: Output::File(file),
            },
            WriteFault::OutOfMemory => Fault::OutOfMemory,
        }
    }
}

impl Fault {
    ghost use Rattle.std.specs.Prelude.{◌≡◌};
    ghost use Rattle.ocs_words.specs.Fault.{status_of};

    /// The exit status of the command.
    pub fn status(self) -> u8
        ensures { result ≡ status_of self }
    {
        match self {
            Fault::Usage => 2,
            Fault::Inputs { fault } => fault.status(),
            Fault::UnreadTrack => 5,
            Fault::Unwritten { .. } | Fault::Unsaid => 6,
            Fault::OutOfMemory => 7,
            Fault::BadTrack => 9,
        }
    }
}
