//! The creates and appends of one file.

ghost use Rattle.std.specs.Prelude.{◌≡◌, [], OnOk};
ghost use Rattle.ocs_io.specs.Answers.{GrowsIfOk};
ghost use Rattle.out_files.specs.code.Pieces.{MakeAnswers, GiveAnswers};
ghost use Rattle.out_files.specs.Places.{LeavesPlace, WritesFiles};

use crate::fault::{OutFile, WriteFault};
use ocs_io::Place;

/// Creates a file.
pub fn make<P: Place>(place: &mut P, name: &str, file: OutFile) -> Result<(), WriteFault>
    ensures answer { MakeAnswers name.now file (P.outside place.old) (P.outside place.new) result }
    ensures growable { OnOk result (P.growable place.new name.now) }
    ensures place { LeavesPlace (WritesFiles result) P.outside P.readable P.growable place.old
        place.new }
{
    match place.create(name) {
        Ok(()) => Ok(()),
        Err(refusal) => Err(WriteFault::of(refusal, file)),
    }
}

/// Appends what is pending for a file, in one piece; nothing where nothing is pending.
pub fn give<P: Place>(
    place: &mut P,
    name: &str,
    pending: &mut Vec<u8>,
    file: OutFile,
) -> Result<(), WriteFault>
    requires { P.growable place.old name.now }
    ensures answer { GiveAnswers name.now file pending.old.items pending.new.items
        (P.outside place.old) (P.outside place.new) result }
    ensures place { LeavesPlace (WritesFiles result) P.outside P.readable P.growable place.old
        place.new }
{
    if pending.is_empty() {
        return Ok(());
    }
    match place.append(name, pending.as_slice()) {
        Ok(()) => {
            pending.clear();
            Ok(())
        }
        Err(refusal) => Err(WriteFault::of(refusal, file)),
    }
}
