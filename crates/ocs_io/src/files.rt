//! Files that are kept in memory.

ghost use Rattle.std.specs.Prelude.{◌≡◌, ◌++◌, [], OnOk, OnErr, IsSome, unwrap_or, option_map, bytes_eq};
ghost use Rattle.std.specs.List.{position};
ghost use Rattle.std.specs.FinMap.{empty, get, insert};

use crate::place::ReadRefusal;
use ocs_base::OutOfMemory;
use std::alloc::Global;
use std::marker::Model;

/// A file by its name.
#[derive(Drop)]
struct File {
    name: Vec<u8>,
    bytes: Vec<u8>,
}

/// Files in memory, seen as the map from their names to their bytes.
#[derive(Drop)]
pub struct FilesInMemory {
    alloc: Global,
    kept: Vec<File>,
}

impl Model for FilesInMemory {
    ghost use Rattle.ocs_io.specs.Place.{Files};
    ghost use Rattle.ocs_io.specs.Files.{files_code};

    ghost Value = { Files };

    ghost coded = { files_code };

    ghost use Rattle.ocs_io.specs.code.KeptFiles.{files_of};

    ghost view = { λ f. files_of f.kept.items };
}

impl FilesInMemory {
    ghost use Rattle.ocs_io.specs.Shelf.{FileReads};

    /// No files.
    pub fn new(alloc: Global) -> FilesInMemory
        ensures { result ≡ empty }
    {
        FilesInMemory {
            alloc,
            kept: Vec::new(alloc),
        }
    }

    /// The bytes of a file; None exactly where no such file is there.
    pub fn bytes(&self, name: &[u8]) -> Option<&[u8]>
        ensures { option_map (λ bytes. bytes.now) result ≡ get self.now name.now }
    {
        match place_of(&self.kept, name) {
            Some(at) => Some(self.kept[at].bytes.as_slice()),
            None => None,
        }
    }

    /// Reads a whole file of at most `cap` bytes into the empty `into`. `Failed`: it is not there.
    pub fn read(&self, name: &[u8], cap: usize, into: &mut Vec<u8>) -> Result<(), ReadRefusal>
        requires { into.old.items ≡ [] }
        ensures { FileReads self.now name.now cap into.new.items result }
    {
        let Some(bytes) = self.bytes(name) else {
            return Err(ReadRefusal::Failed);
        };
        if bytes.len() > cap {
            return Err(ReadRefusal::TooLong);
        }
        match into.extend_from_slice(bytes) {
            Ok(()) => Ok(()),
            Err(_) => Err(ReadRefusal::OutOfMemory),
        }
    }

    /// Sets a file to these bytes, in place of one that was there. After a refusal all is as
    /// before.
    pub fn set(&mut self, name: &[u8], bytes: &[u8]) -> Result<(), OutOfMemory>
        ensures ok { OnOk result (self.new ≡ insert self.old name.now bytes.now) }
        ensures refused { OnErr result (self.new ≡ self.old) }
    {
        let bytes = Vec::from_slice(self.alloc, bytes)?;
        match place_of(&self.kept, name) {
            Some(at) => self.kept[at].bytes = bytes,
            None => {
                let name = Vec::from_slice(self.alloc, name)?;
                self.kept.push(File { name, bytes })?;
            }
        }
        Ok(())
    }

    /// Appends a piece to a file. After a refusal all is as before.
    pub fn grow(&mut self, name: &[u8], piece: &[u8]) -> Result<(), OutOfMemory>
        requires { IsSome (get self.old name.now) }
        ensures ok { OnOk result (self.new
            ≡ insert self.old name.now (unwrap_or (get self.old name.now) [] ++ piece.now)) }
        ensures refused { OnErr result (self.new ≡ self.old) }
    {
        if let Some(at) = place_of(&self.kept, name) {
            let file = &mut self.kept[at];
            file.bytes.extend_from_slice(piece)?;
        }
        Ok(())
    }
}

/// The place of the first file of that name.
fn place_of(files: &[File], name: &[u8]) -> Option<usize>
    ensures { result ≡ position (λ file. bytes_eq name.now file.name.items) files.now }
{
    files.iter().position(|file| name == file.name.as_slice())
}
