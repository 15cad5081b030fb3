//! The trait of the outside: files read whole, files created and grown, and texts said.

ghost use Rattle.std.specs.Prelude.{◌≡◌, ℕ, List, []};
ghost use Rattle.ocs_io.specs.Place.{Outside, Rose, OnlyReads, OnlyWrites, OnlySays, KeepsNames};
ghost use Rattle.ocs_io.specs.Answers.{ReadAnswers, CreateAnswers, AppendAnswers, SayAnswers, GrowsIfOk, HadMemory};

use thiserror::Error;

/// Why a read gave no file. `TooLong`: the file has more bytes than the cap of the call. `Failed`:
/// the outside refused, and the count of read faults rose.
#[derive(Clone, Copy, PartialEq, Eq, Debug, Error)]
pub enum ReadRefusal {
    #[error("the outside refused to read")]
    Failed,
    #[error("the file has more bytes than the cap")]
    TooLong,
    #[error("out of memory")]
    OutOfMemory,
}

/// Why a create, an append or a say was refused. `Failed`: the outside refused, and the count of
/// its kind rose.
#[derive(Clone, Copy, PartialEq, Eq, Debug, Error)]
pub enum WriteRefusal {
    #[error("the outside refused to write")]
    Failed,
    #[error("out of memory")]
    OutOfMemory,
}

/// The outside: files by name, and one text that is said. Its meaning is an `Outside`: the files
/// and the said text, where the place tells them, and three counts of faults that never fall. A
/// name is `readable` where the place lets it be read, and `growable` where it lets it be appended
/// to; no call makes such a name cease to be one. It says a piece `freely` where it wants no memory
/// of its own for it.
pub trait Place {
    ghost outside: { Self → Outside };

    ghost readable: { Self → List ℕ → Type 0 };

    ghost growable: { Self → List ℕ → Type 0 };

    ghost says_freely: { Self → List ℕ → Type 0 };

    /// Reads the whole file into the empty `into`, at most `cap` bytes of it. After a refusal
    /// `into` is empty.
    fn read(&mut self, name: &str, cap: usize, into: &mut Vec<u8>) -> Result<(), ReadRefusal>
        requires empty { into.old.items ≡ [] }
        requires readable { readable self.old name.now }
        ensures answer { ReadAnswers (outside self.old) name.now cap into.new.items result }
        ensures kept { OnlyReads (outside self.old) (outside self.new) }
        ensures cause { result ≡ Err ReadRefusal.Failed
            → Rose (outside self.old).read_faults (outside self.new).read_faults }
        ensures names { KeepsNames (readable self.old) (growable self.old)
            (readable self.new) (growable self.new) };

    /// Makes an empty file of the name, in place of one that was there.
    fn create(&mut self, name: &str) -> Result<(), WriteRefusal>
        ensures answer { CreateAnswers (outside self.old) (outside self.new) name.now result }
        ensures growable { GrowsIfOk (growable self.new name.now) result }
        ensures kept { OnlyWrites (outside self.old) (outside self.new) }
        ensures cause { result ≡ Err WriteRefusal.Failed
            → Rose (outside self.old).write_faults (outside self.new).write_faults }
        ensures wanting { result ≡ Err WriteRefusal.OutOfMemory
            → outside self.new ≡ outside self.old }
        ensures names { KeepsNames (readable self.old) (growable self.old)
            (readable self.new) (growable self.new) };

    /// Appends a piece to the file. A failed append may leave a part of the piece there.
    fn append(&mut self, name: &str, piece: &[u8]) -> Result<(), WriteRefusal>
        requires { growable self.old name.now }
        ensures answer { AppendAnswers (outside self.old) (outside self.new)
            name.now piece.now result }
        ensures kept { OnlyWrites (outside self.old) (outside self.new) }
        ensures cause { result ≡ Err WriteRefusal.Failed
            → Rose (outside self.old).write_faults (outside self.new).write_faults }
        ensures wanting { result ≡ Err WriteRefusal.OutOfMemory
            → outside self.new ≡ outside self.old }
        ensures names { KeepsNames (readable self.old) (growable self.old)
            (readable self.new) (growable self.new) };

    /// Says a piece of text. A failed say may leave a part of the piece said.
    fn say(&mut self, piece: &[u8]) -> Result<(), WriteRefusal>
        ensures answer { SayAnswers (outside self.old) (outside self.new) piece.now result }
        ensures freely { says_freely self.old piece.now → HadMemory result }
        ensures kept { OnlySays (outside self.old) (outside self.new) }
        ensures cause { result ≡ Err WriteRefusal.Failed
            → Rose (outside self.old).say_faults (outside self.new).say_faults }
        ensures wanting { result ≡ Err WriteRefusal.OutOfMemory
            → outside self.new ≡ outside self.old }
        ensures names { KeepsNames (readable self.old) (growable self.old)
            (readable self.new) (growable self.new) };
}
