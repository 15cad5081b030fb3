//! A place in memory whose calls never fail.

ghost use Rattle.std.specs.Prelude.{◌≡◌, ◌++◌, [], OnOk, OnErr, option_map, unwrap_or};
ghost use Rattle.std.specs.FinMap.{empty, get};

use crate::files::FilesInMemory;
use crate::place::{Place, ReadRefusal, WriteRefusal};
use crate::said::Said;
use ocs_base::OutOfMemory;
use std::alloc::Global;
use std::marker::Model;

/// A place that keeps its files and what was said in memory. It answers nothing but Ok, `TooLong`
/// and want of memory.
#[derive(Drop)]
pub struct SureShelf {
    files: FilesInMemory,
    said: Said,
}

impl Model for SureShelf {
    ghost use Rattle.ocs_io.specs.SureShelf.{SureShelfValue, sure_shelf_code};

    ghost Value = { SureShelfValue };

    ghost coded = { sure_shelf_code };

    ghost view = { λ s. record { files = s.files; said = s.said } };
}

impl SureShelf {
    ghost use Rattle.ocs_io.specs.Answers.{HadMemory};
    ghost use Rattle.ocs_io.specs.Said.{IsShort};
    ghost use Rattle.ocs_io.specs.Shelf.{IsHeld};
    ghost use Rattle.ocs_io.specs.SureShelf.{set_file, after_saying, SureReads, SureWrites};

    /// A place without files in which nothing was said.
    pub fn new(alloc: Global) -> SureShelf
        ensures { result ≡ record { files = empty; said = [] } }
    {
        SureShelf {
            files: FilesInMemory::new(alloc),
            said: Said::new(alloc),
        }
    }

    /// Puts a file there, in place of one of the name. After a refusal all is as before.
    pub fn put(&mut self, name: &str, bytes: &[u8]) -> Result<(), OutOfMemory>
        ensures ok { OnOk result (self.new ≡ set_file self.old name.now bytes.now) }
        ensures refused { OnErr result (self.new ≡ self.old) }
    {
        self.files.set(name.as_bytes(), bytes)?;
        Ok(())
    }

    /// All that was said.
    pub fn said(&self) -> &[u8]
        ensures { result.now ≡ self.now.said }
    {
        self.said.bytes()
    }

    /// The bytes of a file; None exactly where no such file is there.
    pub fn file(&self, name: &str) -> Option<&[u8]>
        ensures { option_map (λ bytes. bytes.now) result ≡ get self.now.files name.now }
    {
        self.files.bytes(name.as_bytes())
    }

    fn read_file(&mut self, name: &[u8], cap: usize, into: &mut Vec<u8>) -> Result<(), ReadRefusal>
        requires empty { into.old.items ≡ [] }
        requires held { IsHeld self.old.files name.now }
        ensures { SureReads self.old self.new name.now cap into.new.items result }
    {
        self.files.read(name, cap, into)
    }

    fn create_file(&mut self, name: &[u8]) -> Result<(), WriteRefusal>
        ensures { SureWrites self.old (set_file self.old name.now []) self.new result }
    {
        match self.files.set(name, &[]) {
            Ok(()) => Ok(()),
            Err(_) => Err(WriteRefusal::OutOfMemory),
        }
    }

    fn append_piece(&mut self, name: &[u8], piece: &[u8]) -> Result<(), WriteRefusal>
        requires { IsHeld self.old.files name.now }
        ensures { SureWrites self.old
            (set_file self.old name.now
            (unwrap_or (get self.old.files name.now) [] ++ piece.now)) self.new result }
    {
        match self.files.grow(name, piece) {
            Ok(()) => Ok(()),
            Err(_) => Err(WriteRefusal::OutOfMemory),
        }
    }

    fn say_piece(&mut self, piece: &[u8]) -> Result<(), WriteRefusal>
        ensures exact { SureWrites self.old (after_saying self.old piece.now) self.new result }
        ensures freely { IsShort self.old.said piece.now → HadMemory result }
    {
        match self.said.add(piece) {
            Ok(()) => Ok(()),
            Err(_) => Err(WriteRefusal::OutOfMemory),
        }
    }
}

impl Place for SureShelf {
    ghost use Rattle.ocs_io.specs.Place.{Rose, OnlyReads, OnlyWrites, OnlySays, KeepsNames};
    ghost use Rattle.ocs_io.specs.Answers.{ReadAnswers, CreateAnswers, AppendAnswers, SayAnswers, GrowsIfOk, HadMemory};
    ghost use Rattle.ocs_io.specs.Said.{IsShort};
    ghost use Rattle.ocs_io.specs.Shelf.{IsHeld};
    ghost use Rattle.ocs_io.specs.SureShelf.{sure_outside, set_file, after_saying, SureReads, SureWrites};

    ghost outside = { sure_outside };

    ghost readable = { λ s name. IsHeld s.files name };

    ghost growable = { λ s name. IsHeld s.files name };

    ghost says_freely = { λ s piece. IsShort s.said piece };

    fn read(&mut self, name: &str, cap: usize, into: &mut Vec<u8>) -> Result<(), ReadRefusal>
        requires empty { into.old.items ≡ [] }
        requires readable { IsHeld self.old.files name.now }
        ensures exact { SureReads self.old self.new name.now cap into.new.items result }
        ensures answer { ReadAnswers (sure_outside self.old) name.now cap into.new.items result }
        ensures kept { OnlyReads (sure_outside self.old) (sure_outside self.new) }
        ensures cause { result ≡ Err ReadRefusal.Failed → Rose 0 0 }
        ensures names { KeepsNames (IsHeld self.old.files) (IsHeld self.old.files)
            (IsHeld self.new.files) (IsHeld self.new.files) }
    {
        self.read_file(name.as_bytes(), cap, into)
    }

    fn create(&mut self, name: &str) -> Result<(), WriteRefusal>
        ensures exact { SureWrites self.old (set_file self.old name.now []) self.new result }
        ensures answer { CreateAnswers (sure_outside self.old)
            (sure_outside self.new) name.now result }
        ensures growable { GrowsIfOk (IsHeld self.new.files name.now) result }
        ensures kept { OnlyWrites (sure_outside self.old) (sure_outside self.new) }
        ensures cause { result ≡ Err WriteRefusal.Failed → Rose 0 0 }
        ensures wanting { result ≡ Err WriteRefusal.OutOfMemory
            → sure_outside self.new ≡ sure_outside self.old }
        ensures names { KeepsNames (IsHeld self.old.files) (IsHeld self.old.files)
            (IsHeld self.new.files) (IsHeld self.new.files) }
    {
        self.create_file(name.as_bytes())
    }

    fn append(&mut self, name: &str, piece: &[u8]) -> Result<(), WriteRefusal>
        requires { IsHeld self.old.files name.now }
        ensures exact { SureWrites self.old
            (set_file self.old name.now
            (unwrap_or (get self.old.files name.now) [] ++ piece.now)) self.new result }
        ensures answer { AppendAnswers (sure_outside self.old)
            (sure_outside self.new) name.now piece.now result }
        ensures kept { OnlyWrites (sure_outside self.old) (sure_outside self.new) }
        ensures cause { result ≡ Err WriteRefusal.Failed → Rose 0 0 }
        ensures wanting { result ≡ Err WriteRefusal.OutOfMemory
            → sure_outside self.new ≡ sure_outside self.old }
        ensures names { KeepsNames (IsHeld self.old.files) (IsHeld self.old.files)
            (IsHeld self.new.files) (IsHeld self.new.files) }
    {
        self.append_piece(name.as_bytes(), piece)
    }

    fn say(&mut self, piece: &[u8]) -> Result<(), WriteRefusal>
        ensures exact { SureWrites self.old (after_saying self.old piece.now) self.new result }
        ensures answer { SayAnswers (sure_outside self.old)
            (sure_outside self.new) piece.now result }
        ensures freely { IsShort self.old.said piece.now → HadMemory result }
        ensures kept { OnlySays (sure_outside self.old) (sure_outside self.new) }
        ensures cause { result ≡ Err WriteRefusal.Failed → Rose 0 0 }
        ensures wanting { result ≡ Err WriteRefusal.OutOfMemory
            → sure_outside self.new ≡ sure_outside self.old }
        ensures names { KeepsNames (IsHeld self.old.files) (IsHeld self.old.files)
            (IsHeld self.new.files) (IsHeld self.new.files) }
    {
        self.say_piece(piece)
    }
}
