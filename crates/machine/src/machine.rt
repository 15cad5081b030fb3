//! The machine without its picture: what each step of a colour clock but the picture's does.

ghost use Rattle.std.specs.Prelude.{◌≡◌, ◌+◌, ◌<◌, ◌^◌, ◌≤◌, ℕ, true, false, Some, OnOk, OnErr, IfOk};
ghost use Rattle.ocs_base.specs.Image.{is_image, fits_chip};
ghost use Rattle.out_files.specs.OutFiles.{OutFilesValue};
ghost use Rattle.serial_model.specs.declared.bus.Made.TheVariants as M;
ghost use Rattle.serial_model.specs.Beam.{IsOnScreen, next_place};
ghost use Rattle.serial_model.specs.Made.{is_clx_read};
ghost use Rattle.serial_model.specs.Registers.{is_interlaced};
ghost use Rattle.serial_model.specs.Tick.{start_clock, count_timers as count_timers_of};
ghost use Rattle.serial_model.specs.State.{State};
ghost use Rattle.serial_model.specs.Bus.{answer_processor};
ghost use Rattle.serial_model.specs.Tick.{ask_of, answer_of, run_processor, advance_beam};
ghost use Rattle.chip_set.specs.AskLaws.{is_clx_ask, reads_clx};
ghost use Rattle.chip_set.specs.Chips.{CanAsk, CanDo, IsBlitAsk, kept_wish, ask_or_late};
ghost use Rattle.chip_set.specs.Bus.{KeepsBus};
ghost use Rattle.machine.specs.Machine.{machine_over, IsMachineOf, IsReset, Makes, MakesQuietly, MakesEvent, MakesAccess};
ghost use Rattle.machine.specs.Machine.{HasAskedOf, StoresMade, StaysInPlace, KeepsPlace, reads_after};
ghost use Rattle.serial_model.specs.RegisterRead.{register_read, word_of_processor};
ghost use Rattle.machine.specs.MachineSteps.{WritesRegister, AsksInTime, GivesSide, Does, chip_after};

use chip_set::Chips;
use mem_versions::Chip;
use ocs_base::{Act, Addr, Beam, ChipSize, Clock, OutOfMemory, Reg, System};
use out_files::OutFiles;
use reg_file::Effect;
use serial_model::{Ask, Half, Made, ProcessorAsk, Side, SideAsk, Source, TraceLine};
use std::alloc::Global;

/// The machine without its picture: how many clocks are done since reset, the beam, the chip memory, the
/// chips, and what stands beside them. Collision bits and output files are the caller's.
#[derive(Drop)]
pub struct Machine<S> {
    pub t: u64,
    pub beam: Beam,
    pub chip: Chip,
    pub chips: Chips,
    pub side: S,
}

impl<S: Side> Machine<S> {
    /// The machine at reset, with a chip memory of this size that is made from the bytes of an image, and
    /// a side as it is then; `cpu` says whether the processor is started.
    #[tactic(auto, using(crate::proofs::Sizes::is_size, crate::proofs::Sizes::size_named))]
    pub fn new(
        alloc: Global,
        image: &[u8],
        size: ChipSize,
        cpu: bool,
        side: S,
    ) -> Result<Machine<S>, OutOfMemory>
        requires image { is_image image.now ≡ true }
        requires fits { fits_chip size image.now ≡ true }
        ensures { IfOk result (λ machine.
            IsReset (S.seen side) image.now size cpu (machine_over S.seen machine)) }
    {
        Ok(Machine {
            t: 0,
            beam: beam::start(),
            chip: Chip::sized(alloc, image, size.bytes())?,
            chips: Chips::reset(size, cpu),
            side,
        })
    }

    /// First step: at a field's first clock the Copper starts, and at first clocks of fields and
    /// lines the CIAs' times of day count.
    #[inline(always)]
    pub fn start(&mut self)
        ensures step { MakesQuietly start_clock (machine_over S.seen self.old)
            (machine_over S.seen self.new) }
        ensures same { self.new ≡ record self.old { chips = self.new.chips } }
    {
        self.chips.start(&self.beam);
    }

    /// An event of the second step: a poke is a write to a register, a peek a read of one, and the
    /// trace tells both; the others tell the chips. `clx` has the collision bits that a peek of
    /// CLXDAT reads; to clear them is the caller's, and so is what a poke does to the picture.
    /// After a refusal the event has not happened, but for what it tells the chips.
    pub fn act(&mut self, act: &Act, clx: u16, out: &mut OutFiles) -> Result<(), OutOfMemory>
        ensures step { OnOk result
            (MakesEvent clx act.now (machine_over S.seen self.old) out.old
            (machine_over S.seen self.new) out.new) }
        ensures place { KeepsPlace (machine_over S.seen self.old) (machine_over S.seen self.new) }
        ensures refused { OnErr result (out.new ≡ out.old) }
    {
        self.chips.tell(act);
        match act {
            Act::Poke { reg, word } => self.write_with_line(*reg, *word, Source::Script, out)?,
            Act::Peek { reg } => self.read(*reg, Source::Script, clx, out)?,
            Act::Joy { .. } | Act::Fire { .. } | Act::Key { .. } => {}
        }
        Ok(())
    }

    /// Third step, and the fifth's beginning: the timers of the CIAs tick at each fifth clock, the side
    /// ticks, CIAs and side request their interrupts, and the owner of the slot says what it asks for: None
    /// where neither the side nor a plane nor a sprite asks, and then the chips say who does (`late_owner`).
    /// The fetches of bitplanes and sprites are done with it. `answer` is to be called next. Whether there is
    /// a side is asked here alone: without one a clock has nothing of it.
    #[inline(always)]
    pub fn ask_in_time(&mut self) -> Option<Ask>
        ensures asks { AsksInTime (ask_or_late result self.new.beam self.new.chips)
            (machine_over S.seen self.old) (machine_over S.seen self.new) }
        ensures able { CanAsk (ask_or_late result self.new.beam self.new.chips) }
        ensures wish { IsBlitAsk (ask_or_late result self.new.beam self.new.chips)
            (kept_wish self.new.chips) }
        ensures same { self.new ≡ record self.old {
          chips = self.new.chips;
          side = self.new.side;
        } }
    {
        if !self.side.is_nothing() {
            return Some(self.ask_beside_side());
        }
        self.chips.count_timers(self.t, 0);
        self.chips.early_ask(&self.beam)
    }

    /// The same with a side.
    #[cold]
    #[inline(never)]
    fn ask_beside_side(&mut self) -> Ask
        ensures asks { AsksInTime result (machine_over S.seen self.old)
            (machine_over S.seen self.new) }
        ensures able { CanAsk result }
        ensures wish { IsBlitAsk result (kept_wish self.new.chips) }
        ensures same { self.new ≡ record self.old {
          chips = self.new.chips;
          side = self.new.side;
        } }
    {
        self.count_timers();
        self.ask()
    }

    /// Third step, where there may be a side.
    fn count_timers(&mut self)
        ensures step { MakesQuietly count_timers_of (machine_over S.seen self.old)
            (machine_over S.seen self.new) }
        ensures same { self.new ≡ record self.old {
          chips = self.new.chips;
          side = self.new.side;
        } }
    {
        let dmacon = self.chips.dmacon();
        let bits = self.side.tick(&self.beam, dmacon);
        self.chips.count_timers(self.t, bits);
    }

    /// The beginning of the fifth, where there may be a side.
    fn ask(&mut self) -> Ask
        ensures ask { (s : State) → IsMachineOf (machine_over S.seen self.old) s → result ≡ ask_of
            s }
        ensures chips { (s : State) → IsMachineOf (machine_over S.seen self.old) s → HasAskedOf
            (machine_over S.seen self.new) s }
        ensures able { CanAsk result }
        ensures wish { IsBlitAsk result (kept_wish self.new.chips) }
        ensures same { self.new ≡ record self.old { chips = self.new.chips } }
    {
        let dmacon = self.chips.dmacon();
        let wish = self.side.ask(&self.beam, dmacon);
        self.chips.ask(&self.beam, wish)
    }

    /// The word of a register that will answer the ask, where it reads one: to be called behind
    /// `ask_in_time` and before `answer`.
    pub fn register_word(&self, ask: &Ask, clx: u16) -> Option<u16>
        ensures { (s : State) → HasAskedOf (machine_over S.seen self.now) s → ask.now ≡ ask_of s
            → (is_clx_ask ask.now ≡ true → s.clx ≡ clx)
            → result ≡ register_read (ask_of s) (answer_of s) }
    {
        match *ask {
            Ask::Processor { ask } => self.word_of_processor(&ask, clx),
            Ask::Free
            | Ask::Side { .. }
            | Ask::Plane { .. }
            | Ask::Sprite { .. }
            | Ask::Copper { .. }
            | Ask::Blit { .. } => None,
        }
    }

    /// The same where the processor asks.
    fn word_of_processor(&self, ask: &ProcessorAsk, clx: u16) -> Option<u16>
        ensures { (s : State) → HasAskedOf (machine_over S.seen self.now) s
            → (reads_clx ask.now ≡ true → s.clx ≡ clx)
            → result ≡ word_of_processor ask.now
            (answer_processor ask.now s.beam s.clx s.chips s.memory) }
    {
        match *ask {
            ProcessorAsk::ReadRegister { reg } => Some(self.chips.peek(reg, &self.beam, clx)),
            ProcessorAsk::Read { .. }
            | ProcessorAsk::Write { .. }
            | ProcessorAsk::WriteRegister { .. } => None,
        }
    }

    /// Fifth step, its end: the owner of the slot has its word and makes its access. The answer is
    /// what that makes. It is done, but for the picture's part of it (`touch_of`). `clx` has the
    /// collision bits that a read of CLXDAT gives; to clear them is the caller's.
    #[inline(always)]
    pub fn answer(&mut self, ask: &Ask, clx: u16, out: &mut OutFiles) -> Result<Made, OutOfMemory>
        requires able { CanAsk ask.now }
        requires wish { IsBlitAsk ask.now (kept_wish self.old.chips) }
        requires time { is_clx_ask ask.now ≡ false → self.old.chip.newest ≤ self.old.t }
        requires asked { (s : State) × (ask.now ≡ ask_of s) × HasAskedOf
            (machine_over S.seen self.old) s }
        ensures access { IfOk result (λ made.
            MakesAccess ask.now clx made (machine_over S.seen self.old) out.old
            (machine_over S.seen self.new) out.new) }
        ensures able { IfOk result CanDo }
        ensures memory { IfOk result (λ made.
            StoresMade self.old.t ask.now made self.old.chip self.new.chip) }
        ensures reads { self.new.chip.reads ≡ reads_after ask.now self.old.chip.reads }
        ensures place { StaysInPlace (machine_over S.seen self.old) (machine_over S.seen self.new) }
        ensures refused { OnErr result (out.new ≡ out.old) }
    {
        self.give_side(ask);
        let made = self.chips.answer(ask, &self.beam, clx, &mut self.chip);
        self.carry_out(&made, clx, out)?;
        Ok(made)
    }

    /// A side that asked for the slot has its word: a disk the one that it stores, and audio the
    /// one that it reads.
    #[inline(always)]
    pub(crate) fn give_side(&mut self, ask: &Ask)
        ensures gives { GivesSide ask.now (machine_over S.seen self.old)
            (machine_over S.seen self.new) }
        ensures same { self.new ≡ record self.old {
          chip = self.new.chip;
          side = self.new.side;
        } }
    {
        match ask {
            Ask::Side {
                ask: SideAsk::Disk { word, .. },
            } => self.side.give(*word),
            Ask::Side {
                ask: SideAsk::Audio { at, .. },
            } => {
                let word = self.chip.read(*at);
                self.side.give(word);
            }
            _ => {}
        }
    }

    /// What an access makes is done, but for the picture's part of it.
    #[inline(always)]
    pub(crate) fn carry_out(
        &mut self,
        made: &Made,
        clx: u16,
        out: &mut OutFiles,
    ) -> Result<(), OutOfMemory>
        requires { is_clx_read made.now ≡ false → self.old.chip.newest ≤ self.old.t }
        ensures does { OnOk result (Does made.now clx (machine_over S.seen self.old) out.old
            (machine_over S.seen self.new) out.new) }
        ensures refused { OnErr result (out.new ≡ out.old) }
        ensures kept { OnErr result (self.new ≡ self.old) }
    {
        match made {
            Made::Wrote { reg, word, by } => self.write(*reg, *word, *by, out)?,
            Made::Read { reg, by } => self.read(*reg, *by, clx, out)?,
            Made::Stored { at, half, word } => self.store(*at, *half, *word)?,
            Made::Nothing | Made::Plane { .. } | Made::Sprite { .. } => {}
        }
        Ok(())
    }

    /// A write to a register, which the trace tells where there is someone to name.
    fn write(
        &mut self,
        reg: Reg,
        word: u16,
        by: Option<Source>,
        out: &mut OutFiles,
    ) -> Result<(), OutOfMemory>
        ensures does { (clx : ℕ) → OnOk result
            (Does (M.Wrote reg word by) clx (machine_over S.seen self.old) out.old
            (machine_over S.seen self.new) out.new) }
        ensures refused { OnErr result (out.new ≡ out.old) }
        ensures kept { OnErr result (self.new ≡ self.old) }
    {
        match by {
            Some(source) => self.write_with_line(reg, word, source, out),
            None => {
                self.write_register(reg, word);
                Ok(())
            }
        }
    }

    /// A write to a register with its line of the trace.
    fn write_with_line(
        &mut self,
        reg: Reg,
        word: u16,
        by: Source,
        out: &mut OutFiles,
    ) -> Result<(), OutOfMemory>
        ensures does { (clx : ℕ) → OnOk result
            (Does (M.Wrote reg word (Some by)) clx (machine_over S.seen self.old) out.old
            (machine_over S.seen self.new) out.new) }
        ensures refused { OnErr result (out.new ≡ out.old) }
        ensures kept { OnErr result (self.new ≡ self.old) }
    {
        out.line(TraceLine::Wrote {
            beam: self.beam,
            reg,
            word,
            by,
        })?;
        self.write_register(reg, word);
        Ok(())
    }

    /// A write to a register, without its line of the trace: it reaches the chips, then the side,
    /// and LOF where the register is VPOSW.
    fn write_register(&mut self, reg: Reg, word: u16)
        ensures { WritesRegister reg word (machine_over S.seen self.old)
            (machine_over S.seen self.new) }
    {
        let effect = self.chips.poke(reg, word);
        self.side.poke(reg, word);
        if let Effect::Lof { long } = effect {
            self.beam.lof = long;
        }
    }

    /// A read of a register, which the trace tells.
    fn read(
        &mut self,
        reg: Reg,
        by: Source,
        clx: u16,
        out: &mut OutFiles,
    ) -> Result<(), OutOfMemory>
        ensures does { OnOk result
            (Does (M.Read reg by) clx (machine_over S.seen self.old) out.old
            (machine_over S.seen self.new) out.new) }
        ensures refused { OnErr result (out.new ≡ out.old) }
        ensures kept { OnErr result (self.new ≡ self.old) }
    {
        let word = self.chips.peek(reg, &self.beam, clx);
        out.line(TraceLine::Peeked {
            beam: self.beam,
            reg,
            word,
            by,
        })
    }

    /// A word, or its low byte as one half of a word, is stored in memory.
    #[inline(always)]
    pub(crate) fn store(&mut self, at: Addr, half: Half, word: u16) -> Result<(), OutOfMemory>
        requires { self.old.chip.newest ≤ self.old.t }
        ensures does { (clx : ℕ) (out : OutFilesValue) → OnOk result
            (Does (M.Stored at half word) clx (machine_over S.seen self.old) out
            (machine_over S.seen self.new) out) }
        ensures stores { OnOk result (self.new.chip
            ≡ chip_after self.old.t (M.Stored at half word) self.old.chip) }
        ensures same { self.new ≡ record self.old { chip = self.new.chip } }
        ensures kept { OnErr result (self.new ≡ self.old) }
    {
        self.store_in(Clock(self.t), at, half, word)
    }

    /// The same, as of this clock.
    #[inline(always)]
    pub(crate) fn store_in(
        &mut self,
        now: Clock,
        at: Addr,
        half: Half,
        word: u16,
    ) -> Result<(), OutOfMemory>
        requires { self.old.chip.newest ≤ now.0 }
        ensures stores { OnOk result (self.new.chip
            ≡ chip_after now.0 (M.Stored at half word) self.old.chip) }
        ensures same { self.new ≡ record self.old { chip = self.new.chip } }
        ensures kept { OnErr result (self.new ≡ self.old) }
    {
        let byte = (word % 256) as u8;
        match half {
            Half::Both => self.chip.write(now, at, word),
            Half::High => self.chip.write_half(now, at, true, byte),
            Half::Low => self.chip.write_half(now, at, false, byte),
        }
    }

    /// Sixth step: the processor's part that needs no slot. An interrupt that begins with it is traced.
    #[inline(always)]
    pub fn process(&mut self, out: &mut OutFiles) -> Result<(), OutOfMemory>
        ensures step { OnOk result (Makes run_processor (machine_over S.seen self.old) out.old
            (machine_over S.seen self.new) out.new) }
        ensures same { self.new ≡ record self.old { chips = self.new.chips } }
        ensures bus { KeepsBus self.old.chips self.new.chips }
        ensures refused { OnErr result (out.new ≡ out.old) }
    {
        if let Some(level) = self.chips.process() {
            out.line(TraceLine::Taken {
                beam: self.beam,
                level,
            })?;
        }
        Ok(())
    }

    /// Seventh step: the beam advances.
    #[inline(always)]
    pub fn advance(&mut self, system: System)
        requires screen { IsOnScreen self.old.beam }
        requires frame { self.old.beam.frame + 1 < 2 ^ 32 }
        requires count { self.old.t + 1 < 2 ^ 64 }
        ensures step { MakesQuietly (advance_beam system) (machine_over S.seen self.old)
            (machine_over S.seen self.new) }
        ensures beam { self.new.beam
            ≡ next_place system (is_interlaced self.old.chips.registers) self.old.beam }
        ensures count { self.new.t ≡ self.old.t + 1 }
        ensures chip { self.new.chip ≡ self.old.chip }
        ensures chips { self.new.chips ≡ self.old.chips }
    {
        beam::advance_in(&mut self.beam, self.chips.is_interlaced(), system);
        self.t += 1;
    }
}
