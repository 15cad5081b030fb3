//! A run of which the slots are looked at.

ghost use Rattle.std.specs.Prelude.{◌≡◌, ◌≤◌, ◌<◌, ◌+◌, ◌-◌, ◌++◌, IfOk, OnOk};
ghost use Rattle.std.specs.Arc.{arc_value};
ghost use Rattle.serial_bands.specs.Run.{run_over};
ghost use Rattle.serial_model.specs.Side.{no_side};
ghost use Rattle.slot_log.specs.Record.{record_bytes};
ghost use Rattle.slots_run.specs.Log.{slot_clock, log_text};
ghost use Rattle.foreground.specs.Fore.{IsNew};
ghost use Rattle.slots_run.specs.code.SlotRun.{run_in, frame_in, fore_of, raster_of, empty_raster};
ghost use Rattle.slots_run.specs.code.SlotRun.{answer_after, Stands, GoesOn, Comes};

use band_draw::Direct;
use band_log::Run;
use clock_loop::run_to;
use foreground::{Fore, Slot};
use ocs_base::{Beam, OutOfMemory, Script};
use out_files::OutFiles;
use serial_model::NoSide;
use slot_log::{put_record, read_address};
use std::alloc::Global;
use std::sync::Arc;

/// A run without a side, at some clock of it.
#[derive(Drop)]
pub struct SlotRun {
    alloc: Global,
    fore: Fore<NoSide>,
    raster: Direct<NoSide>,
    /// What the foreground is given for its texts, anew with each frame; nobody reads it.
    out: OutFiles,
}

impl SlotRun {
    /// A run at its reset.
    pub fn new(alloc: Global, run: Arc<Run<NoSide>>) -> Result<SlotRun, OutOfMemory>
        ensures stands { IfOk result Stands }
        ensures run { IfOk result (λ r. run_in r ≡ run_over (λ side. no_side) (arc_value run)) }
        ensures first { IfOk result (λ r. r.fore.machine.t ≡ 0) }
    {
        let fore = Fore::new(alloc, run)?;
        SlotRun::at_reset(alloc, fore)
    }

    /// A run at its reset, of which this is the foreground.
    fn at_reset(alloc: Global, fore: Fore<NoSide>) -> Result<SlotRun, OutOfMemory>
        requires { IsNew (fore_of fore).run (fore_of fore) }
        ensures stands { IfOk result Stands }
        ensures run { IfOk result (λ r. run_in r ≡ (fore_of fore).run) }
        ensures first { IfOk result (λ r. r.fore.machine.t ≡ 0) }
    {
        let (raster, out) = empty_parts(alloc)?;
        Ok(SlotRun {
            alloc,
            fore,
            raster,
            out,
        })
    }

    /// The script of the run.
    pub fn script(&self) -> &Script
        ensures { result.now ≡ (run_in self.now).script }
    {
        self.fore.run.script()
    }

    /// Goes on to the first clock of a frame, or to the run's end where that is the number of its frames.
    pub fn go_to_frame(&mut self, frame: u32) -> Result<(), OutOfMemory>
        requires stands { Stands self.old }
        requires least { frame_in self.old ≤ frame }
        requires most { frame ≤ (run_in self.old).script.frames }
        ensures { OnOk result (Comes frame self.old self.new) }
    {
        while self.fore.beam().frame < frame {
            self.go_to_line()?;
        }
        Ok(())
    }

    /// Goes on to the first clock of the next line.
    fn go_to_line(&mut self) -> Result<(), OutOfMemory>
        requires stands { Stands self.old }
        requires running { frame_in self.old < (run_in self.old).script.frames }
        ensures { OnOk result (GoesOn self.old self.new) }
    {
        renew_at_frame(self.alloc, &self.fore.beam(), &mut self.out)?;
        let limit = self.fore.next_line();
        run_to(&mut self.fore, limit, &mut self.raster, &mut self.out)?;
        Ok(())
    }

    /// Goes on as `go_to_frame` does, and appends the record of each clock. After a refusal a part may have
    /// been appended.
    pub fn note_to_frame(&mut self, frame: u32, text: &mut Vec<u8>) -> Result<(), OutOfMemory>
        requires stands { Stands self.old }
        requires least { frame_in self.old ≤ frame }
        requires most { frame ≤ (run_in self.old).script.frames }
        ensures comes { OnOk result (Comes frame self.old self.new) }
        ensures noted { OnOk result (text.new.items ≡ text.old.items
            ++ log_text (run_in self.old).image (run_in self.old).script
            self.old.fore.machine.t (self.new.fore.machine.t - self.old.fore.machine.t)) }
    {
        while self.fore.beam().frame < frame {
            self.note_clock(text)?;
        }
        Ok(())
    }

    /// One clock, of which the record is appended.
    fn note_clock(&mut self, text: &mut Vec<u8>) -> Result<(), OutOfMemory>
        requires stands { Stands self.old }
        requires running { frame_in self.old < (run_in self.old).script.frames }
        ensures goes { OnOk result (GoesOn self.old self.new) }
        ensures count { OnOk result (self.new.fore.machine.t ≡ self.old.fore.machine.t + 1) }
        ensures noted { OnOk result (text.new.items ≡ text.old.items
            ++ record_bytes (slot_clock (run_in self.old).image (run_in self.old).script
            self.old.fore.machine.t)) }
    {
        let beam = self.fore.beam();
        renew_at_frame(self.alloc, &beam, &mut self.out)?;
        let slot = self.fore.advance(&mut self.raster, &mut self.out)?;
        let answer = self.answer_to(&slot);
        put_record(&beam, &slot.ask, answer, text)?;
        Ok(())
    }

    /// The word that answered what the owner of the slot of the clock before asked for; 0 where it read none.
    /// A word of memory that was read in that clock was not written in it.
    fn answer_to(&mut self, slot: &Slot) -> u16
        requires { Stands self.old }
        ensures answer { result ≡ answer_after self.old.fore.machine.chip.words slot.now }
        ensures stands { Stands self.new }
        ensures run { run_in self.new ≡ run_in self.old }
        ensures clock { self.new.fore.machine.t ≡ self.old.fore.machine.t }
    {
        match read_address(&slot.ask) {
            Some(at) => self.fore.word(at),
            None => slot.read.unwrap_or(0),
        }
    }
}

/// A raster without bands, and files that nobody reads.
fn empty_parts(alloc: Global) -> Result<(Direct<NoSide>, OutFiles), OutOfMemory>
    ensures { IfOk result (λ parts. raster_of parts.0 ≡ empty_raster) }
{
    let raster = Direct::new(alloc)?;
    let out = unread_files(alloc)?;
    Ok((raster, out))
}

/// Files that nobody reads, with nothing pending.
fn unread_files(alloc: Global) -> Result<OutFiles, OutOfMemory> {
    let frames = String::from_str(alloc, "f")?;
    let trace = String::from_str(alloc, "t")?;
    let memory = String::from_str(alloc, "m")?;
    Ok(OutFiles::new(alloc, frames, trace, memory))
}

/// At the start of a frame the files are made anew: what was pending for the frame before is given up.
fn renew_at_frame(alloc: Global, beam: &Beam, out: &mut OutFiles) -> Result<(), OutOfMemory> {
    if beam.v == 0 && beam.h == 0 {
        *out = unread_files(alloc)?;
    }
    Ok(())
}
