//! The file that has the log.

ghost use Rattle.std.specs.Prelude.{◌≡◌, [], OnOk, OnErr, IfErr};
ghost use Rattle.ocs_io.specs.Place.{OnlyWrites, with_file, grown};
ghost use Rattle.slots_run.specs.code.File.{MayHavePart, MayHaveGrown, IsWriteFault};

use crate::fault::SlotsFault;
use ocs_io::{Place, WriteRefusal};

/// Makes a file of this text, in place of one that was there. After a refusal the file is as before, empty,
/// or has a part of the text, from the first byte on.
pub fn write_file<P: Place>(name: &str, text: &[u8], place: &mut P) -> Result<(), SlotsFault>
    ensures done { OnOk result ((P.outside place.new).files
        ≡ with_file (P.outside place.old).files name.now text.now) }
    ensures part { OnErr result (MayHavePart name.now text.now
        (P.outside place.old).files (P.outside place.new).files) }
    ensures fault { IfErr result (IsWriteFault (P.outside place.old) (P.outside place.new)) }
    ensures kept { OnlyWrites (P.outside place.old) (P.outside place.new) }
{
    create(name, place)?;
    append(name, text, place)
}

/// Makes an empty file, in place of one that was there.
fn create<P: Place>(name: &str, place: &mut P) -> Result<(), SlotsFault>
    ensures done { OnOk result ((P.outside place.new).files
        ≡ with_file (P.outside place.old).files name.now []) }
    ensures growable { OnOk result (P.growable place.new name.now) }
    ensures part { OnErr result (MayHavePart name.now [] (P.outside place.old).files
        (P.outside place.new).files) }
    ensures fault { IfErr result (IsWriteFault (P.outside place.old) (P.outside place.new)) }
    ensures kept { OnlyWrites (P.outside place.old) (P.outside place.new) }
{
    match place.create(name) {
        Ok(()) => Ok(()),
        Err(WriteRefusal::Failed) => Err(SlotsFault::Unwritten),
        Err(WriteRefusal::OutOfMemory) => Err(SlotsFault::OutOfMemory),
    }
}

/// Appends a text to a file. After a refusal a part of it may have been appended.
fn append<P: Place>(name: &str, text: &[u8], place: &mut P) -> Result<(), SlotsFault>
    requires { P.growable place.old name.now }
    ensures done { OnOk result ((P.outside place.new).files
        ≡ grown (P.outside place.old).files name.now text.now) }
    ensures part { OnErr result (MayHaveGrown name.now text.now (P.outside place.old).files
        (P.outside place.new).files) }
    ensures fault { IfErr result (IsWriteFault (P.outside place.old) (P.outside place.new)) }
    ensures kept { OnlyWrites (P.outside place.old) (P.outside place.new) }
{
    match place.append(name, text) {
        Ok(()) => Ok(()),
        Err(WriteRefusal::Failed) => Err(SlotsFault::Unwritten),
        Err(WriteRefusal::OutOfMemory) => Err(SlotsFault::OutOfMemory),
    }
}
