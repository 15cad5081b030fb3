//! The three files of a run and the text that is pending for them.

ghost use Rattle.std.specs.Prelude.{◌≡◌, ◌≢◌, [], length, OnOk, OnErr, string_bytes};
ghost use Rattle.serial_model.specs.MemoryText.{memory_text};
ghost use Rattle.mem_versions.specs.Chip.{after_reads};

use crate::fault::{OutFile, WriteFault};
use crate::line_start::LineStart;
use crate::lines::put_line;
use crate::pieces::{give, make};
use crate::pixels::put_pixels;
use crate::words::put_memory;
use mem_versions::Chip;
use ocs_base::{OutOfMemory, System};
use ocs_io::Place;
use serial_model::TraceLine;
use std::alloc::Global;
use std::marker::Model;

/// The files that a run writes, by their names, and the text that is not yet appended to the frames
/// file and to the trace. A file and what is pending for it are together the text of what was given,
/// until a flush is refused.
#[derive(Drop)]
pub struct OutFiles {
    frames_name: String,
    trace_name: String,
    memory_name: String,
    // whose frames they are
    system: System,
    frames: Vec<u8>,
    trace: Vec<u8>,
    // what the trace's lines begin with
    line_start: LineStart,
    // how many pixel bytes of the present frame were given
    given: usize,
}

impl Model for OutFiles {
    ghost use Rattle.std.specs.Prelude.{◌<◌, string_bytes};
    ghost use Rattle.out_files.specs.OutFiles.{OutFilesValue};
    ghost use Rattle.out_files.specs.Together.{AreDifferent};
    ghost use Rattle.ocs_base.specs.Systems.{frame_bytes};

    ghost Value = { OutFilesValue };

    ghost view = { λ f. record {
      names = record {
        frames = string_bytes f.frames_name;
        trace = string_bytes f.trace_name;
        memory = string_bytes f.memory_name;
      };
      system = f.system;
      frames = f.frames.items;
      trace = f.trace.items;
      given = f.given;
    } };

    ghost invariant = { λ f. record {
      within : f.given < frame_bytes f.system;
      different : AreDifferent (record {
        frames = string_bytes f.frames_name;
        trace = string_bytes f.trace_name;
        memory = string_bytes f.memory_name;
      });
    } };
}

impl OutFiles {
    ghost use Rattle.out_files.specs.OutFiles.{with_pixels, with_line};
    ghost use Rattle.out_files.specs.Answers.{CreateAnswers, AreGrowable, FlushAnswers, MemoryAnswers};
    ghost use Rattle.out_files.specs.Places.{LeavesPlace, WritesFiles};
    ghost use Rattle.out_files.specs.Together.{Begins, AddsPixels, AddsLine, StayTogether, LeavesParts, Completes};

    /// Files of these three different names for a PAL machine, with nothing pending and no frame begun.
    pub fn new(alloc: Global, frames: String, trace: String, memory: String) -> OutFiles
        requires frames_trace { string_bytes frames ≢ string_bytes trace }
        requires frames_memory { string_bytes frames ≢ string_bytes memory }
        requires trace_memory { string_bytes trace ≢ string_bytes memory }
        ensures { result ≡ record {
          names = record {
            frames = string_bytes frames;
            trace = string_bytes trace;
            memory = string_bytes memory;
          };
          system = System.Pal;
          frames = [];
          trace = [];
          given = 0;
        } }
    {
        OutFiles::made(alloc, frames, trace, memory, System::Pal)
    }

    /// Files of these three different names, with nothing pending and no frame begun.
    pub fn made(
        alloc: Global,
        frames: String,
        trace: String,
        memory: String,
        system: System,
    ) -> OutFiles
        requires frames_trace { string_bytes frames ≢ string_bytes trace }
        requires frames_memory { string_bytes frames ≢ string_bytes memory }
        requires trace_memory { string_bytes trace ≢ string_bytes memory }
        ensures { result ≡ record {
          names = record {
            frames = string_bytes frames;
            trace = string_bytes trace;
            memory = string_bytes memory;
          };
          system = system;
          frames = [];
          trace = [];
          given = 0;
        } }
    {
        OutFiles {
            frames_name: frames,
            trace_name: trace,
            memory_name: memory,
            system,
            frames: Vec::new(alloc),
            trace: Vec::new(alloc),
            line_start: LineStart::new(alloc),
            given: 0,
        }
    }

    /// Creates the files, empty, in the order frames, trace, memory. A refusal ends the call: the files
    /// before the refused one are empty, and those after it are as before.
    pub fn create<P: Place>(&mut self, place: &mut P) -> Result<(), WriteFault>
        ensures answer { CreateAnswers self.old.names (P.outside place.old)
            (P.outside place.new) result }
        ensures together { OnOk result
            (Begins self.new (P.outside place.old).files (P.outside place.new).files) }
        ensures growable { OnOk result (AreGrowable (P.growable place.new) self.old.names) }
        ensures same { self.new ≡ self.old }
        ensures place { LeavesPlace (WritesFiles result) P.outside P.readable P.growable place.old
            place.new }
    {
        make(place, self.frames_name.as_str(), OutFile::Frames)?;
        make(place, self.trace_name.as_str(), OutFile::Trace)?;
        make(place, self.memory_name.as_str(), OutFile::Memory)
    }

    /// Adds pixel bytes, red, green and blue, row by row, with the heading before the first byte of each
    /// frame. After a refusal all is as before.
    #[tactic(auto, using(crate::proofs::TogetherLaws::adds_pixels))]
    pub fn pixels(&mut self, piece: &[u8]) -> Result<(), OutOfMemory>
        ensures ok { OnOk result (self.new ≡ with_pixels self.old piece.now) }
        ensures together { OnOk result (AddsPixels self.old self.new piece.now) }
        ensures refused { OnErr result (self.new ≡ self.old) }
    {
        let before = self.frames.len();
        match put_pixels(&mut self.frames, self.system, self.given, piece) {
            Ok(given) => {
                self.given = given;
                Ok(())
            }
            Err(refused) => {
                self.frames.truncate(before);
                Err(refused)
            }
        }
    }

    /// Adds a line of the trace. After a refusal all is as before.
    #[tactic(auto, using(crate::proofs::TogetherLaws::adds_line))]
    pub fn line(&mut self, line: TraceLine) -> Result<(), OutOfMemory>
        ensures ok { OnOk result (self.new ≡ with_line self.old line) }
        ensures together { OnOk result (AddsLine self.old self.new line) }
        ensures refused { OnErr result (self.new ≡ self.old) }
    {
        let before = self.trace.len();
        match put_line(&mut self.trace, &mut self.line_start, line) {
            Ok(()) => Ok(()),
            Err(refused) => {
                self.trace.truncate(before);
                Err(refused)
            }
        }
    }

    /// Appends what is pending, first to the frames file and then to the trace, in one piece each.
    /// What a refusal left in a file is a part of what was pending for it.
    pub fn flush<P: Place>(&mut self, place: &mut P) -> Result<(), WriteFault>
        requires frames { P.growable place.old self.old.names.frames }
        requires trace { P.growable place.old self.old.names.trace }
        ensures answer { FlushAnswers self.old self.new (P.outside place.old)
            (P.outside place.new) result }
        ensures together { OnOk result (StayTogether self.old self.new (P.outside place.old).files
            (P.outside place.new).files) }
        ensures parts { OnErr result
            (LeavesParts self.old (P.outside place.old).files (P.outside place.new).files []) }
        ensures place { LeavesPlace (WritesFiles result) P.outside P.readable P.growable place.old
            place.new }
    {
        give(
            place,
            self.frames_name.as_str(),
            &mut self.frames,
            OutFile::Frames,
        )?;
        give(
            place,
            self.trace_name.as_str(),
            &mut self.trace,
            OutFile::Trace,
        )
    }

    /// Appends the words of chip memory to the memory file, the high byte of each first. Each word is
    /// read once.
    pub fn memory<P: Place>(&mut self, chip: &mut Chip, place: &mut P) -> Result<(), WriteFault>
        requires { P.growable place.old self.old.names.memory }
        ensures answer { MemoryAnswers self.old.names.memory (memory_text chip.old.words)
            (P.outside place.old) (P.outside place.new) result }
        ensures whole { OnOk result (Completes self.old (P.outside place.old).files
            (P.outside place.new).files (memory_text chip.old.words)) }
        ensures parts { OnErr result
            (LeavesParts self.old (P.outside place.old).files (P.outside place.new).files
            (memory_text chip.old.words)) }
        ensures chip { OnOk result (chip.new ≡ after_reads chip.old (length chip.old.words)) }
        ensures words { chip.new ≡ record chip.old { reads = chip.new.reads } }
        ensures same { self.new ≡ self.old }
        ensures place { LeavesPlace (WritesFiles result) P.outside P.readable P.growable place.old
            place.new }
    {
        let mut text = Vec::new(*self.frames.allocator());
        put_memory(&mut text, chip)?;
        match place.append(self.memory_name.as_str(), text.as_slice()) {
            Ok(()) => Ok(()),
            Err(refusal) => Err(WriteFault::of(refusal, OutFile::Memory)),
        }
    }
}
