//! Why the inputs of a run were not read.

use script_read::BadKind;

/// One of the two inputs of every run: the image of chip memory, and the script.
#[derive(Clone, Copy, PartialEq, Eq, Debug)]
pub enum InputFile {
    Image,
    Script,
}

/// Why image and script were not read: one of them is bad, the outside refused to read one, or memory was
/// wanting.
#[derive(Clone, Copy, Debug)]
pub enum InputFault {
    BadImage,
    BadScript { line: u32, kind: BadKind },
    Unread { input: InputFile },
    OutOfMemory,
}

impl InputFault {
    ghost use Rattle.std.specs.Prelude.{◌≡◌};
    ghost use Rattle.run_inputs.specs.Fault.{status_of};

    /// The exit status of the command.
    pub fn status(self) -> u8
        ensures { result ≡ status_of self }
    {
        match self {
            InputFault::BadImage => 3,
            InputFault::BadScript { .. } => 4,
            InputFault::Unread { .. } => 5,
            InputFault::OutOfMemory => 7,
        }
    }
}
