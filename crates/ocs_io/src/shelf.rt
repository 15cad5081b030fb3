//! A place in memory whose calls can be made to fail.

ghost use Rattle.std.specs.Prelude.{◌≡◌, ◌<◌, ◌^◌, ◌++◌, ◌∷◌, [], OnOk, OnErr, IsSome, option_map, if◌then◌else◌};
ghost use Rattle.std.specs.FinMap.{empty, get};
ghost use Rattle.ocs_io.specs.Halves.{half};

use crate::files::FilesInMemory;
use crate::place::{Place, ReadRefusal, WriteRefusal};
use crate::said::Said;
use ocs_base::OutOfMemory;
use std::alloc::Global;
use std::marker::Model;

/// A place that keeps its files and what was said in memory. Calls can be chosen that fail.
#[derive(Drop)]
pub struct Shelf {
    files: FilesInMemory,
    said: Said,
    read_faults: u64,
    write_faults: u64,
    say_faults: u64,
    call: u64,
    failing: Vec<u64>,
}

impl Model for Shelf {
    ghost use Rattle.ocs_io.specs.Shelf.{ShelfValue, shelf_code, AreCounts};

    ghost Value = { ShelfValue };

    ghost coded = { shelf_code };

    ghost view = { λ s. record {
      files = s.files;
      said = s.said;
      read_faults = s.read_faults;
      write_faults = s.write_faults;
      say_faults = s.say_faults;
      call = s.call;
      failing =
          s.failing.items;
    } };

    ghost invariant = { λ s. AreCounts s.read_faults s.write_faults s.say_faults };
}

impl Shelf {
    ghost use Rattle.ocs_io.specs.Shelf.{with_bytes, called, is_to_fail, AreCounts, IsHeld, ShelfReads, ShelfCreates, ShelfAppends, ShelfSays};
    ghost use Rattle.ocs_io.specs.Answers.{HadMemory};
    ghost use Rattle.ocs_io.specs.Said.{IsShort};

    /// A place without files in which nothing was said.
    pub fn new(alloc: Global) -> Shelf
        ensures { result ≡ record {
          files = empty;
          said = [];
          read_faults = 0;
          write_faults = 0;
          say_faults = 0;
          call = 0;
          failing = [];
        } }
    {
        Shelf {
            files: FilesInMemory::new(alloc),
            said: Said::new(alloc),
            read_faults: 0,
            write_faults: 0,
            say_faults: 0,
            call: 0,
            failing: Vec::new(alloc),
        }
    }

    /// Puts a file there, in place of one of the name. This is no call of the place. After a
    /// refusal all is as before.
    pub fn put(&mut self, name: &str, bytes: &[u8]) -> Result<(), OutOfMemory>
        ensures ok { OnOk result (self.new ≡ with_bytes self.old name.now bytes.now) }
        ensures refused { OnErr result (self.new ≡ self.old) }
    {
        self.files.set(name.as_bytes(), bytes)?;
        Ok(())
    }

    /// Makes the call of that number fail, counted from 0 over all calls of the place; calls past
    /// the greatest number all have that number. After a refusal all is as before.
    pub fn fail_at(&mut self, call: u64) -> Result<(), OutOfMemory>
        ensures ok { OnOk result (self.new
            ≡ record self.old { failing = self.old.failing ++ call ∷ [] }) }
        ensures refused { OnErr result (self.new ≡ self.old) }
    {
        self.failing.push(call)?;
        Ok(())
    }

    /// All that was said.
    pub fn said(&self) -> &[u8]
        ensures { result.now ≡ self.now.said }
    {
        self.said.bytes()
    }

    /// The bytes of a file; None exactly where no such file is there.
    pub fn file(&self, name: &str) -> Option<&[u8]>
        ensures { option_map (λ bytes. bytes.now) result ≡ get self.now.files name.now }
    {
        self.files.bytes(name.as_bytes())
    }

    /// Counts a call, and says whether it is to fail.
    fn begin_call(&mut self) -> bool
        ensures fails { result ≡ is_to_fail self.old }
        ensures counted { self.new ≡ called self.old }
        ensures counts { AreCounts self.old.read_faults self.old.write_faults self.old.say_faults }
    {
        let fails = self.failing.contains(&self.call);
        self.call = self.call.saturating_add(1);
        fails
    }

    /// Reads a file. Fails also where the file is not there.
    fn read_file(&mut self, name: &[u8], cap: usize, into: &mut Vec<u8>) -> Result<(), ReadRefusal>
        requires { into.old.items ≡ [] }
        ensures exact { ShelfReads self.old self.new name.now cap into.new.items result }
        ensures fits { self.old.read_faults < 2 ^ 64 }
    {
        if self.begin_call() {
            self.read_faults = self.read_faults.saturating_add(1);
            return Err(ReadRefusal::Failed);
        }
        let answer = self.files.read(name, cap, into);
        if answer == Err(ReadRefusal::Failed) {
            self.read_faults = self.read_faults.saturating_add(1);
        }
        answer
    }

    /// Makes an empty file. A failed call leaves the files as before.
    fn create_file(&mut self, name: &[u8]) -> Result<(), WriteRefusal>
        ensures exact { ShelfCreates self.old self.new name.now result }
        ensures fits { self.old.write_faults < 2 ^ 64 }
    {
        if self.begin_call() {
            self.write_faults = self.write_faults.saturating_add(1);
            return Err(WriteRefusal::Failed);
        }
        match self.files.set(name, &[]) {
            Ok(()) => Ok(()),
            Err(_) => Err(WriteRefusal::OutOfMemory),
        }
    }

    /// Appends a piece to a file, or the first half of it where the call is to fail.
    fn append_piece(&mut self, name: &[u8], piece: &[u8]) -> Result<(), WriteRefusal>
        requires { IsHeld self.old.files name.now }
        ensures exact { ShelfAppends self.old self.new name.now piece.now result }
        ensures fits { self.old.write_faults < 2 ^ 64 }
    {
        let fails = self.begin_call();
        if self.files.grow(name, kept_part(fails, piece)).is_err() {
            return Err(WriteRefusal::OutOfMemory);
        }
        if fails {
            self.write_faults = self.write_faults.saturating_add(1);
            return Err(WriteRefusal::Failed);
        }
        Ok(())
    }

    /// Says a piece, or the first half of it where the call is to fail.
    fn say_piece(&mut self, piece: &[u8]) -> Result<(), WriteRefusal>
        ensures exact { ShelfSays self.old self.new piece.now result }
        ensures fits { self.old.say_faults < 2 ^ 64 }
        ensures freely { IsShort self.old.said piece.now → HadMemory result }
    {
        let fails = self.begin_call();
        if self.said.add(kept_part(fails, piece)).is_err() {
            return Err(WriteRefusal::OutOfMemory);
        }
        if fails {
            self.say_faults = self.say_faults.saturating_add(1);
            return Err(WriteRefusal::Failed);
        }
        Ok(())
    }
}

/// The part of a piece that a call keeps: the first half, rounded down, where it fails.
fn kept_part(fails: bool, piece: &[u8]) -> &[u8]
    ensures { result.now ≡ (if fails then half piece.now else piece.now) }
{
    if fails {
        &piece[..piece.len() / 2]
    } else {
        piece
    }
}

impl Place for Shelf {
    ghost use Rattle.ocs_io.specs.Place.{Rose, OnlyReads, OnlyWrites, OnlySays, KeepsNames};
    ghost use Rattle.ocs_io.specs.Answers.{ReadAnswers, CreateAnswers, AppendAnswers, SayAnswers, GrowsIfOk, HadMemory};
    ghost use Rattle.ocs_io.specs.Said.{IsShort};
    ghost use Rattle.ocs_io.specs.Shelf.{outside_of, IsHeld, IsAnyName, ShelfReads, ShelfCreates, ShelfAppends, ShelfSays};

    ghost outside = { outside_of };

    ghost readable = { λ s name. IsAnyName name };

    ghost growable = { λ s name. IsHeld s.files name };

    ghost says_freely = { λ s piece. IsShort s.said piece };

    /// Fails where the call is to fail, and where the file is not there.
    fn read(&mut self, name: &str, cap: usize, into: &mut Vec<u8>) -> Result<(), ReadRefusal>
        requires { into.old.items ≡ [] }
        ensures exact { ShelfReads self.old self.new name.now cap into.new.items result }
        ensures answer { ReadAnswers (outside_of self.old) name.now cap into.new.items result }
        ensures kept { OnlyReads (outside_of self.old) (outside_of self.new) }
        ensures cause { result ≡ Err ReadRefusal.Failed
            → Rose self.old.read_faults self.new.read_faults }
        ensures names { KeepsNames IsAnyName (IsHeld self.old.files) IsAnyName
            (IsHeld self.new.files) }
    {
        self.read_file(name.as_bytes(), cap, into)
    }

    /// A failed create leaves the files as before.
    fn create(&mut self, name: &str) -> Result<(), WriteRefusal>
        ensures exact { ShelfCreates self.old self.new name.now result }
        ensures answer { CreateAnswers (outside_of self.old) (outside_of self.new) name.now result }
        ensures growable { GrowsIfOk (IsHeld self.new.files name.now) result }
        ensures kept { OnlyWrites (outside_of self.old) (outside_of self.new) }
        ensures cause { result ≡ Err WriteRefusal.Failed
            → Rose self.old.write_faults self.new.write_faults }
        ensures wanting { result ≡ Err WriteRefusal.OutOfMemory
            → outside_of self.new ≡ outside_of self.old }
        ensures names { KeepsNames IsAnyName (IsHeld self.old.files) IsAnyName
            (IsHeld self.new.files) }
    {
        self.create_file(name.as_bytes())
    }

    /// A failed append keeps the first half of the piece, rounded down.
    fn append(&mut self, name: &str, piece: &[u8]) -> Result<(), WriteRefusal>
        requires { IsHeld self.old.files name.now }
        ensures exact { ShelfAppends self.old self.new name.now piece.now result }
        ensures answer { AppendAnswers (outside_of self.old)
            (outside_of self.new) name.now piece.now result }
        ensures kept { OnlyWrites (outside_of self.old) (outside_of self.new) }
        ensures cause { result ≡ Err WriteRefusal.Failed
            → Rose self.old.write_faults self.new.write_faults }
        ensures wanting { result ≡ Err WriteRefusal.OutOfMemory
            → outside_of self.new ≡ outside_of self.old }
        ensures names { KeepsNames IsAnyName (IsHeld self.old.files) IsAnyName
            (IsHeld self.new.files) }
    {
        self.append_piece(name.as_bytes(), piece)
    }

    /// A failed say keeps the first half of the piece, rounded down. What stays short wants no
    /// memory.
    fn say(&mut self, piece: &[u8]) -> Result<(), WriteRefusal>
        ensures exact { ShelfSays self.old self.new piece.now result }
        ensures answer { SayAnswers (outside_of self.old) (outside_of self.new) piece.now result }
        ensures freely { IsShort self.old.said piece.now → HadMemory result }
        ensures kept { OnlySays (outside_of self.old) (outside_of self.new) }
        ensures cause { result ≡ Err WriteRefusal.Failed
            → Rose self.old.say_faults self.new.say_faults }
        ensures wanting { result ≡ Err WriteRefusal.OutOfMemory
            → outside_of self.new ≡ outside_of self.old }
        ensures names { KeepsNames IsAnyName (IsHeld self.old.files) IsAnyName
            (IsHeld self.new.files) }
    {
        self.say_piece(piece)
    }
}
