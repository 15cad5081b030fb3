//! The processor's access and its turn made at once, and both clocks of an access, where everybody else leaves the
//! slots to it.

ghost use Rattle.std.specs.Prelude.{◌≡◌, ◌<◌, ◌≤◌, ◌+◌, ◌^◌, ℕ, true, false, [], Some, OnOk, OnErr, IfOk};
ghost use Rattle.serial_model.specs.declared.bus.Ask.TheVariants as A;
ghost use Rattle.serial_model.specs.declared.bus.ProcessorAsk.TheVariants as P;
ghost use Rattle.cpu_bus.specs.Bus.{is_slot, wish_shown};
ghost use Rattle.cpu_bus.specs.Beside.{BeginsAnew, turn_beside_of};
ghost use Rattle.cpu_bus.specs.declared.TurnBeside.TheVariants as T;
ghost use Rattle.chip_set.specs.Bus.{LeavesToPlanes};
ghost use Rattle.serial_model.specs.Bus.{processor_ask};
ghost use Rattle.serial_model.specs.Beam.{later_beam};
ghost use Rattle.serial_model.specs.Processor.{slot_wish};
ghost use Rattle.serial_model.specs.Turns.{taken_lines};
ghost use Rattle.mem_versions.specs.Chip.{more_reads};
ghost use Rattle.machine.specs.Machine.{machine_over, reads_after};
ghost use Rattle.out_files.specs.Gives.{Gives};
ghost use Rattle.machine.specs.Ahead.{IsLeftToProcessor, IsLeftThen, IsUnseenAtOnce, goes_alone};
ghost use Rattle.machine.specs.Ahead.{EndsInTwo, IsAccessInTwo, IsAccessInPart, asks_for_memory};

use crate::machine::Machine;
use chip_set::TurnBeside;
use ocs_base::{Addr, Beam, Clock, OutOfMemory};
use out_files::OutFiles;
use serial_model::{Half, ProcessorAsk, Side, TraceLine};

impl<S: Side> Machine<S> {
    /// The access of a clock, and the processor's turn behind it, where nobody else has the slot, once the chips
    /// have asked for it. The answer is whether the two were made: the processor may access a register or a CIA,
    /// or do what is rare. Nothing changes then.
    #[inline(always)]
    pub fn process_alone(&mut self, out: &mut OutFiles) -> Result<bool, OutOfMemory>
        requires leaves { LeavesToPlanes self.old.beam self.old.chips }
        requires time { self.old.chip.newest ≤ self.old.t }
        ensures alone { IfOk result (λ made. made ≡ goes_alone self.old.chips.processor) }
        ensures made { IfOk result (λ made. made ≡ true
            → IsUnseenAtOnce (processor_ask (wish_shown self.old.chips.processor))
            (machine_over S.seen self.old) out.old (machine_over S.seen self.new) out.new) }
        ensures none { IfOk result (λ made. made ≡ false → self.new ≡ self.old) }
        ensures quiet { IfOk result (λ made. made ≡ false → out.new ≡ out.old) }
        ensures few { OnErr result (self.new.chip.reads
            ≡ reads_after (processor_ask (wish_shown self.old.chips.processor))
            self.old.chip.reads) }
        ensures refused { OnErr result (out.new ≡ out.old) }
    {
        match self.chips.turn_beside() {
            TurnBeside::Waits { .. } => Ok(self.chips.wait_beside()),
            TurnBeside::Asks => self.access_alone(out),
            TurnBeside::GoesOn => {
                self.end_idle(out)?;
                Ok(true)
            }
            TurnBeside::Other => Ok(false),
        }
    }

    /// The end of idle clocks in such a clock.
    #[inline(always)]
    fn end_idle(&mut self, out: &mut OutFiles) -> Result<(), OutOfMemory>
        requires leaves { LeavesToPlanes self.old.beam self.old.chips }
        requires over { turn_beside_of self.old.chips.processor ≡ T.GoesOn }
        ensures made { OnOk result (IsUnseenAtOnce A.Free
            (machine_over S.seen self.old) out.old (machine_over S.seen self.new) out.new) }
        ensures chip { self.new.chip ≡ self.old.chip }
        ensures refused { OnErr result (out.new ≡ out.old) }
    {
        let begins = self.chips.end_idle();
        tell_interrupt(&self.beam, begins, out)
    }

    /// The access that the processor asks for in such a clock, if it is one to memory. The answer says so.
    #[inline(always)]
    fn access_alone(&mut self, out: &mut OutFiles) -> Result<bool, OutOfMemory>
        requires leaves { LeavesToPlanes self.old.beam self.old.chips }
        requires asks { turn_beside_of self.old.chips.processor ≡ T.Asks }
        requires time { self.old.chip.newest ≤ self.old.t }
        ensures alone { IfOk result (λ made. made
            ≡ asks_for_memory (slot_wish self.old.chips.processor.wait)) }
        ensures made { IfOk result (λ made. made ≡ true
            → IsUnseenAtOnce (processor_ask (wish_shown self.old.chips.processor))
            (machine_over S.seen self.old) out.old (machine_over S.seen self.new) out.new) }
        ensures none { IfOk result (λ made. made ≡ false → self.new ≡ self.old) }
        ensures quiet { IfOk result (λ made. made ≡ false → out.new ≡ out.old) }
        ensures few { OnErr result (self.new.chip.reads
            ≡ reads_after (processor_ask (wish_shown self.old.chips.processor))
            self.old.chip.reads) }
        ensures refused { OnErr result (out.new ≡ out.old) }
    {
        match self.chips.next_ask() {
            Some(ProcessorAsk::Read { at }) => {
                self.read_alone(at, out)?;
                Ok(true)
            }
            Some(ProcessorAsk::Write { at, half, word }) => {
                self.write_alone(at, half, word, out)?;
                Ok(true)
            }
            _ => Ok(false),
        }
    }

    /// The processor reads the word at this address in such a clock, and goes on with it.
    #[inline(always)]
    fn read_alone(&mut self, at: Addr, out: &mut OutFiles) -> Result<(), OutOfMemory>
        requires leaves { LeavesToPlanes self.old.beam self.old.chips }
        requires waits { is_slot self.old.chips.processor.wait ≡ true }
        requires asks { wish_shown self.old.chips.processor ≡ Some (P.Read at) }
        ensures made { OnOk result (IsUnseenAtOnce (A.Processor (P.Read at))
            (machine_over S.seen self.old) out.old (machine_over S.seen self.new) out.new) }
        ensures reads { self.new.chip.reads ≡ more_reads 1 self.old.chip.reads }
        ensures refused { OnErr result (out.new ≡ out.old) }
    {
        let word = self.chip.read(at);
        let begins = self.chips.take_word(word);
        tell_interrupt(&self.beam, begins, out)
    }

    /// It writes this word, or its low byte as one half of a word, at this address, and goes on.
    #[inline(never)]
    fn write_alone(
        &mut self,
        at: Addr,
        half: Half,
        word: u16,
        out: &mut OutFiles,
    ) -> Result<(), OutOfMemory>
        requires leaves { LeavesToPlanes self.old.beam self.old.chips }
        requires waits { is_slot self.old.chips.processor.wait ≡ true }
        requires asks { wish_shown self.old.chips.processor ≡ Some (P.Write at half word) }
        requires time { self.old.chip.newest ≤ self.old.t }
        ensures made { OnOk result (IsUnseenAtOnce (A.Processor (P.Write at half word))
            (machine_over S.seen self.old) out.old (machine_over S.seen self.new) out.new) }
        ensures reads { self.new.chip.reads ≡ self.old.chip.reads }
        ensures refused { OnErr result (out.new ≡ out.old) }
    {
        self.store(at, half, word)?;
        let begins = self.chips.take_word(0);
        tell_interrupt(&self.beam, begins, out)
    }

    /// The two clocks of an access to memory that has just begun: in the first the processor does not ask yet, and
    /// in the second it makes the access and goes on. The answer is whether such an access has begun; nothing
    /// changes where none has.
    #[inline(always)]
    pub fn access_in_two(&mut self, out: &mut OutFiles) -> Result<bool, OutOfMemory>
        requires alone { (rest : ℕ) × IsLeftToProcessor rest (machine_over S.seen self.old) }
        requires next { IsLeftThen (machine_over S.seen self.old) out.old }
        requires anew { BeginsAnew self.old.chips.processor }
        requires time { self.old.chip.newest ≤ self.old.t }
        requires count { self.old.t + 2 < 2 ^ 64 }
        ensures some { IfOk result (λ made. made
            ≡ asks_for_memory (slot_wish self.old.chips.processor.wait)) }
        ensures clocks { IfOk result (λ made. made ≡ true
            → IsAccessInTwo (machine_over S.seen self.old) out.old
            (machine_over S.seen self.new) out.new) }
        ensures anew { IfOk result (λ made. made ≡ true
            → BeginsAnew self.new.chips.processor) }
        ensures none { IfOk result (λ made. made ≡ false → self.new ≡ self.old) }
        ensures quiet { IfOk result (λ made. made ≡ false → out.new ≡ out.old) }
        ensures part { OnErr result (IsAccessInPart (machine_over S.seen self.old) out.old
            (machine_over S.seen self.new) out.new) }
    {
        match self.chips.next_ask() {
            Some(ProcessorAsk::Read { at }) => {
                self.read_in_two(at, out)?;
                Ok(true)
            }
            Some(ProcessorAsk::Write { at, half, word }) => {
                self.write_in_two(at, half, word, out)?;
                Ok(true)
            }
            _ => Ok(false),
        }
    }

    /// Those of a read of the word at this address.
    #[inline(always)]
    fn read_in_two(&mut self, at: Addr, out: &mut OutFiles) -> Result<(), OutOfMemory>
        requires alone { (rest : ℕ) × IsLeftToProcessor rest (machine_over S.seen self.old) }
        requires next { IsLeftThen (machine_over S.seen self.old) out.old }
        requires anew { BeginsAnew self.old.chips.processor }
        requires asks { slot_wish self.old.chips.processor.wait ≡ Some (P.Read at) }
        requires count { self.old.t + 2 < 2 ^ 64 }
        ensures clocks { OnOk result (IsAccessInTwo (machine_over S.seen self.old) out.old
            (machine_over S.seen self.new) out.new) }
        ensures anew { OnOk result (BeginsAnew self.new.chips.processor) }
        ensures part { OnErr result (IsAccessInPart (machine_over S.seen self.old) out.old
            (machine_over S.seen self.new) out.new) }
    {
        let word = self.chip.read(at);
        self.end_in_two(word, out)
    }

    /// Those of a write of this word, or of its low byte as one half of a word, at this address.
    #[inline(always)]
    fn write_in_two(
        &mut self,
        at: Addr,
        half: Half,
        word: u16,
        out: &mut OutFiles,
    ) -> Result<(), OutOfMemory>
        requires alone { (rest : ℕ) × IsLeftToProcessor rest (machine_over S.seen self.old) }
        requires next { IsLeftThen (machine_over S.seen self.old) out.old }
        requires anew { BeginsAnew self.old.chips.processor }
        requires asks { slot_wish self.old.chips.processor.wait ≡ Some (P.Write at half word) }
        requires time { self.old.chip.newest ≤ self.old.t }
        requires count { self.old.t + 2 < 2 ^ 64 }
        ensures clocks { OnOk result (IsAccessInTwo (machine_over S.seen self.old) out.old
            (machine_over S.seen self.new) out.new) }
        ensures anew { OnOk result (BeginsAnew self.new.chips.processor) }
        ensures part { OnErr result (IsAccessInPart (machine_over S.seen self.old) out.old
            (machine_over S.seen self.new) out.new) }
    {
        self.store_in(Clock(self.t + 1), at, half, word)?;
        self.end_in_two(0, out)
    }

    /// Behind the access to memory that the second of two clocks makes: the processor goes on with this word, and
    /// both clocks are counted.
    #[inline(always)]
    fn end_in_two(&mut self, word: u16, out: &mut OutFiles) -> Result<(), OutOfMemory>
        requires waits { is_slot self.old.chips.processor.wait ≡ true }
        requires line { self.old.beam.h < 226 }
        requires count { self.old.t + 2 < 2 ^ 64 }
        ensures ends { OnOk result (EndsInTwo word (machine_over S.seen self.old) out.old
            (machine_over S.seen self.new) out.new) }
        ensures anew { self.old.chips.processor.on ≡ true
            → OnOk result (BeginsAnew self.new.chips.processor) }
        ensures chip { self.new.chip ≡ self.old.chip }
        ensures refused { OnErr result (out.new ≡ out.old) }
    {
        if let Some(level) = self.chips.take_word(word) {
            return self.end_with_interrupt(level, out);
        }
        self.beam.h += 2;
        self.t += 2;
        Ok(())
    }

    /// The same where an interrupt of this level begins with the second clock, behind the processor. It stands
    /// apart, so that an access without one makes no room for it.
    #[cold]
    #[inline(never)]
    fn end_with_interrupt(&mut self, level: u8, out: &mut OutFiles) -> Result<(), OutOfMemory>
        requires line { self.old.beam.h < 226 }
        requires count { self.old.t + 2 < 2 ^ 64 }
        ensures lines { OnOk result (Gives out.old out.new []
            (taken_lines (later_beam 1 self.old.beam) (Some level))) }
        ensures passed { OnOk result (self.new ≡ record self.old {
          t = self.old.t + 2;
          beam = later_beam 2 self.old.beam;
        }) }
        ensures chip { self.new.chip ≡ self.old.chip }
        ensures refused { OnErr result (out.new ≡ out.old) }
    {
        let mut beam = self.beam;
        beam.h += 1;
        out.line(TraceLine::Taken { beam, level })?;
        self.beam.h += 2;
        self.t += 2;
        Ok(())
    }
}

/// The trace has the line of an interrupt, where one begins.
#[inline(always)]
fn tell_interrupt(beam: &Beam, begins: Option<u8>, out: &mut OutFiles) -> Result<(), OutOfMemory>
    ensures lines { OnOk result (Gives out.old out.new [] (taken_lines beam.now begins)) }
    ensures refused { OnErr result (out.new ≡ out.old) }
{
    match begins {
        Some(level) => {
            out.line(TraceLine::Taken { beam: *beam, level })?;
            Ok(())
        }
        None => Ok(()),
    }
}
