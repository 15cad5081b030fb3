//! Why no log was written.

use ocs_base::OutOfMemory;
use run_inputs::InputFault;

/// Why the command did not do what it was asked: the words are not of the form, image and script were not
/// read, the log could not be written, or memory was wanting.
#[derive(Clone, Copy, Debug)]
pub enum SlotsFault {
    Usage,
    Inputs { fault: InputFault },
    Unwritten,
    OutOfMemory,
}

impl From<OutOfMemory> for SlotsFault {
    ghost use Rattle.std.specs.Prelude.{◌≡◌};
    ghost use Rattle.slots_run.specs.declared.fault.SlotsFault.{SlotsFault};

    ghost from_gives = { λ refused fault. fault ≡ SlotsFault.OutOfMemory };

    fn from(_refused: OutOfMemory) -> SlotsFault {
        SlotsFault::OutOfMemory
    }
}

impl From<InputFault> for SlotsFault {
    ghost use Rattle.std.specs.Prelude.{◌≡◌};
    ghost use Rattle.slots_run.specs.declared.fault.SlotsFault.{SlotsFault};

    ghost from_gives = { λ from fault. fault ≡ SlotsFault.Inputs from };

    fn from(fault: InputFault) -> SlotsFault {
        SlotsFault::Inputs { fault }
    }
}

impl SlotsFault {
    ghost use Rattle.std.specs.Prelude.{◌≡◌};
    ghost use Rattle.slots_run.specs.Fault.{status_of};

    /// The exit status of the command.
    pub fn status(self) -> u8
        ensures { result ≡ status_of self }
    {
        match self {
            SlotsFault::Usage => 2,
            SlotsFault::Inputs { fault } => fault.status(),
            SlotsFault::Unwritten => 6,
            SlotsFault::OutOfMemory => 7,
        }
    }
}
