//! A script: whether the processor runs, how many frames, and the timed inputs.

ghost use Rattle.std.specs.Prelude.{◌≡◌, ◌++◌, ◌∷◌, [], OnOk, OnErr};
ghost use Rattle.ocs_base.specs.Limits.{time_of};

use crate::beam::time_order;
use crate::chip_size::ChipSize;
use crate::memory::OutOfMemory;
use crate::reg::Reg;
use crate::system::System;
use std::alloc::Global;
use std::marker::Model;

/// What happens at a time of the script. `port` is 0 or 1; `word` of `Joy` is what JOY0DAT or
/// JOY1DAT reads afterwards; `code` is what the keyboard sends to CIA A.
#[derive(Clone, Copy, PartialEq, Eq)]
pub enum Act {
    Poke { reg: Reg, word: u16 },
    Peek { reg: Reg },
    Joy { port: u8, word: u16 },
    Fire { port: u8, down: bool },
    Key { code: u8 },
}

/// An act and the place of the beam at which it happens: a frame from 0, a line, 0 to 311 with PAL and
/// to 261 with NTSC, and a colour clock of the line, 0 to 226.
#[derive(Clone, Copy, PartialEq, Eq)]
pub struct At {
    pub frame: u32,
    pub v: u16,
    pub h: u16,
    pub act: Act,
}

impl At {
    /// When it happens in the order of time, as one number.
    pub fn time(&self) -> u64
        ensures { result ≡ time_of self.now }
    {
        time_order(self.frame, self.v, self.h)
    }
}

/// The timed inputs of a run.
#[derive(Drop)]
pub struct Script {
    cpu: bool,
    frames: u32,
    chip: ChipSize,
    system: System,
    events: Vec<At>,
}

impl Model for Script {
    ghost use Rattle.ocs_base.specs.Script.{ScriptValue};

    ghost Value = { ScriptValue };

    ghost view = { λ s. record {
      cpu = s.cpu;
      frames = s.frames;
      chip = s.chip;
      system = s.system;
      events = s.events.items;
    } };
}

impl Script {
    ghost use Rattle.std.specs.Prelude.{true};
    ghost use Rattle.ocs_base.specs.Sizes.{bytes_of, is_chip_size, size_of_bytes};
    ghost use Rattle.ocs_base.specs.declared.chip_size.ChipSize.TheVariants.{Kib512};

    /// A script of so many frames without events, for a PAL machine with 512 KiB of chip memory.
    pub fn new(alloc: Global, cpu: bool, frames: u32) -> Script
        ensures { result ≡ record {
          cpu = cpu;
          frames = frames;
          chip = Kib512;
          system = System.Pal;
          events = [];
        } }
    {
        Script::sized(alloc, cpu, frames, 0x8_0000)
    }

    /// A script of so many frames without events, for a PAL machine with so many bytes of chip memory:
    /// 524,288 or 1,048,576.
    pub fn sized(alloc: Global, cpu: bool, frames: u32, chip: u32) -> Script
        requires { is_chip_size chip ≡ true }
        ensures { result ≡ record {
          cpu = cpu;
          frames = frames;
          chip = size_of_bytes chip;
          system = System.Pal;
          events = [];
        } }
    {
        Script::made(alloc, cpu, frames, chip, System::Pal)
    }

    /// A script of so many frames without events, for any machine that there is.
    pub fn made(alloc: Global, cpu: bool, frames: u32, chip: u32, system: System) -> Script
        requires { is_chip_size chip ≡ true }
        ensures { result ≡ record {
          cpu = cpu;
          frames = frames;
          chip = size_of_bytes chip;
          system = system;
          events = [];
        } }
    {
        Script {
            cpu,
            frames,
            chip: ChipSize::of_bytes(chip),
            system,
            events: Vec::new(alloc),
        }
    }

    /// Appends an event. After a refusal the script is as before.
    pub fn push(&mut self, at: At) -> Result<(), OutOfMemory>
        ensures ok { OnOk result (self.new
            ≡ record self.old { events = self.old.events ++ at ∷ [] }) }
        ensures refused { OnErr result (self.new ≡ self.old) }
    {
        self.events.push(at)?;
        Ok(())
    }

    /// Whether the processor is started.
    pub fn cpu(&self) -> bool
        ensures { result ≡ self.now.cpu }
    {
        self.cpu
    }

    /// How many frames the run shows.
    pub fn frames(&self) -> u32
        ensures { result ≡ self.now.frames }
    {
        self.frames
    }

    /// The events in the order in which they were pushed.
    pub fn events(&self) -> &[At]
        ensures { result.now ≡ self.now.events }
    {
        self.events.as_slice()
    }

    /// The size of the machine's chip memory in bytes.
    pub fn chip(&self) -> u32
        ensures { result ≡ bytes_of self.now.chip }
    {
        self.chip.bytes()
    }

    /// The same as one of the sizes that there are.
    pub fn chip_size(&self) -> ChipSize
        ensures { result ≡ self.now.chip }
    {
        self.chip
    }

    /// Whose beam the machine has.
    pub fn system(&self) -> System
        ensures { result ≡ self.now.system }
    {
        self.system
    }
}
