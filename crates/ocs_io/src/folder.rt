//! The place on real files and standard output: the edge that is trusted.

ghost use Rattle.std.specs.Prelude.{◌≡◌, ◌≤◌, [], length, OnOk};
ghost use Rattle.ocs_io.specs.Folder.{counts_alone};

use crate::place::{Place, ReadRefusal, WriteRefusal};
use crate::whole::{Refused, read_whole, write_whole};
use std::fs::OpenOptions;
use std::marker::Model;
use std::rt::Files;
use std::{fs, io};

/// A place on the files of the system, whose names are paths, and on standard output for what is
/// said. Each call that the system refuses raises the count of its kind, which stands still at the
/// greatest number. Nothing is told of the contents.
#[derive(Drop)]
pub struct Folder<'a, R: Files + Print> {
    rt: &'a R,
    read_faults: u64,
    write_faults: u64,
    say_faults: u64,
}

impl<'a, R: Files + Print> Model for Folder<'a, R> {
    ghost use Rattle.ocs_io.specs.Place.{Outside};
    ghost use Rattle.ocs_io.specs.Folder.{outside_code, counts_alone};
    ghost use Rattle.ocs_io.specs.Shelf.{AreCounts};

    ghost Value = { Outside };

    ghost coded = { outside_code };

    ghost view = { λ f. counts_alone f.read_faults f.write_faults f.say_faults };

    ghost invariant = { λ f. AreCounts f.read_faults f.write_faults f.say_faults };
}

impl<'a, R: Files + Print> Folder<'a, R> {
    /// The place of this process.
    pub fn new(rt: &R) -> Folder<'_, R>
        ensures { result ≡ counts_alone 0 0 0 }
    {
        Folder {
            rt,
            read_faults: 0,
            write_faults: 0,
            say_faults: 0,
        }
    }
}

impl<'a, R: Files + Print> Place for Folder<'a, R> {
    ghost use Rattle.ocs_io.specs.Place.{Rose, OnlyReads, OnlyWrites, OnlySays, KeepsNames};
    ghost use Rattle.ocs_io.specs.Answers.{ReadAnswers, CreateAnswers, AppendAnswers, SayAnswers, GrowsIfOk, HadMemory};
    ghost use Rattle.ocs_io.specs.Shelf.{IsAnyName};
    ghost use Rattle.ocs_io.specs.Folder.{CountsRead, CountsWrite, CountsSay};

    ghost outside = { λ f. f };

    ghost readable = { λ f name. IsAnyName name };

    ghost growable = { λ f name. IsAnyName name };

    ghost says_freely = { λ f piece. Unit {0} };

    fn read(&mut self, name: &str, cap: usize, into: &mut Vec<u8>) -> Result<(), ReadRefusal>
        requires { into.old.items ≡ [] }
        ensures counts { CountsRead self.old self.new result }
        ensures answer { ReadAnswers self.old name.now cap into.new.items result }
        ensures kept { OnlyReads self.old self.new }
        ensures cause { result ≡ Err ReadRefusal.Failed
            → Rose self.old.read_faults self.new.read_faults }
        ensures names { KeepsNames IsAnyName IsAnyName IsAnyName IsAnyName }
    {
        let answer = read_file(self.rt, name, cap, into);
        if answer.is_err() {
            into.clear();
        }
        if answer == Err(ReadRefusal::Failed) {
            self.read_faults = self.read_faults.saturating_add(1);
        }
        answer
    }

    fn create(&mut self, name: &str) -> Result<(), WriteRefusal>
        ensures counts { CountsWrite self.old self.new result }
        ensures answer { CreateAnswers self.old self.new name.now result }
        ensures growable { GrowsIfOk (IsAnyName name.now) result }
        ensures kept { OnlyWrites self.old self.new }
        ensures cause { result ≡ Err WriteRefusal.Failed
            → Rose self.old.write_faults self.new.write_faults }
        ensures wanting { result ≡ Err WriteRefusal.OutOfMemory → self.new ≡ self.old }
        ensures names { KeepsNames IsAnyName IsAnyName IsAnyName IsAnyName }
    {
        if fs::create(self.rt, name).is_err() {
            self.write_faults = self.write_faults.saturating_add(1);
            return Err(WriteRefusal::Failed);
        }
        Ok(())
    }

    fn append(&mut self, name: &str, piece: &[u8]) -> Result<(), WriteRefusal>
        ensures counts { CountsWrite self.old self.new result }
        ensures answer { AppendAnswers self.old self.new name.now piece.now result }
        ensures kept { OnlyWrites self.old self.new }
        ensures cause { result ≡ Err WriteRefusal.Failed
            → Rose self.old.write_faults self.new.write_faults }
        ensures wanting { result ≡ Err WriteRefusal.OutOfMemory → self.new ≡ self.old }
        ensures names { KeepsNames IsAnyName IsAnyName IsAnyName IsAnyName }
    {
        if append_to_file(self.rt, name, piece).is_err() {
            self.write_faults = self.write_faults.saturating_add(1);
            return Err(WriteRefusal::Failed);
        }
        Ok(())
    }

    fn say(&mut self, piece: &[u8]) -> Result<(), WriteRefusal>
        ensures counts { CountsSay self.old self.new result }
        ensures answer { SayAnswers self.old self.new piece.now result }
        ensures freely { HadMemory result }
        ensures kept { OnlySays self.old self.new }
        ensures cause { result ≡ Err WriteRefusal.Failed
            → Rose self.old.say_faults self.new.say_faults }
        ensures wanting { result ≡ Err WriteRefusal.OutOfMemory → self.new ≡ self.old }
        ensures names { KeepsNames IsAnyName IsAnyName IsAnyName IsAnyName }
    {
        if write_whole(&mut io::writer(self.rt), piece).is_err() {
            self.say_faults = self.say_faults.saturating_add(1);
            return Err(WriteRefusal::Failed);
        }
        Ok(())
    }
}

/// Opens a file, and reads it whole into the empty `into` if it has at most `cap` bytes.
fn read_file<R: Files>(
    rt: &R,
    name: &str,
    cap: usize,
    into: &mut Vec<u8>,
) -> Result<(), ReadRefusal>
    requires { into.old.items ≡ [] }
    ensures { OnOk result (length into.new.items ≤ cap) }
{
    let Ok(mut file) = fs::open(rt, name) else {
        return Err(ReadRefusal::Failed);
    };
    read_whole(&mut file, cap, into)
}

/// Opens a file that is there, and writes a piece at its end.
fn append_to_file<R: Files>(rt: &R, name: &str, piece: &[u8]) -> Result<(), Refused> {
    let mut options = OpenOptions::new();
    options.append(true);
    let Ok(mut file) = options.open(rt, name) else {
        return Err(Refused);
    };
    write_whole(&mut file, piece)
}
