//! Clocks at which the processor only waits, passed over at once.

ghost use Rattle.std.specs.Prelude.{◌≡◌, ◌<◌, ◌+◌, ◌-◌, ◌^◌, true, false, Some, None};
ghost use Rattle.serial_model.specs.Processor.{Processor};
ghost use Rattle.quiet_clocks.specs.QuietTurns.{clocks_of};
ghost use Rattle.cpu_bus.specs.Bus.{IsProcessorOf};
ghost use Rattle.cpu_bus.specs.Quiet.{is_timed as timed, is_passing as passing, waited, RestsFor, CanCount, WaitedNone};

use crate::{BusCpu, CIA_CLOCKS, UNMAPPED_CLOCKS};
use irq_cia::Irq;
use serial_model::Wait;

impl BusCpu {
    /// A number of clocks from this one on at which it only waits, and makes no access, as long as the
    /// interrupts stay as they are: it is off, has halted, is stopped by STOP with no interrupt above its
    /// mask, or what it waits for needs no slot and is not yet over.
    pub fn quiet(&self, irq: &Irq) -> u32
        ensures rests { RestsFor irq.now result self.now }
        ensures room { CanCount result self.now }
    {
        if !self.on {
            return u32::MAX;
        }
        if self.given.is_some() {
            return 0;
        }
        match self.wait {
            Wait::Slot { .. } => 0,
            Wait::Cia { .. } => self.left(irq, CIA_CLOCKS),
            Wait::Unmapped => self.left(irq, UNMAPPED_CLOCKS),
            Wait::Idle { clocks } if clocks > 1 => self.left(irq, clocks),
            Wait::Idle { .. } => self.left_stopped(irq),
            Wait::Halted => u32::MAX,
        }
    }

    /// Of so many clocks that something takes, those that are left but for the last.
    fn left(&self, irq: &Irq, clocks: u32) -> u32
        requires on { self.now.on ≡ true }
        requires given { self.now.given ≡ None }
        requires clocks { clocks_of self.now.wait ≡ Some clocks }
        requires timed { timed self.now.wait ≡ true }
        ensures rests { RestsFor irq.now result self.now }
        ensures room { CanCount result self.now }
    {
        clocks.saturating_sub(1).saturating_sub(self.spent)
    }

    /// The same while STOP lasts.
    fn left_stopped(&self, irq: &Irq) -> u32
        requires on { self.now.on ≡ true }
        requires given { self.now.given ≡ None }
        requires untimed { timed self.now.wait ≡ false }
        ensures { RestsFor irq.now result self.now }
    {
        if self.spent == 0 && self.cpu.is_stopped() && irq.level() <= self.cpu.mask() {
            u32::MAX
        } else {
            0
        }
    }

    /// So many clocks pass, at which it only waits.
    pub fn skip(&mut self, clocks: u32)
        requires { CanCount clocks self.old }
        ensures { (p : Processor) → IsProcessorOf self.old p → IsProcessorOf self.new
            (waited self.old clocks p) }
    {
        if self.is_passing() {
            self.spent += clocks;
        }
    }

    /// Whether it waits for something that takes its clocks and needs no slot.
    fn is_passing(&self) -> bool
        ensures { result ≡ passing self.now }
    {
        self.on && is_timed(&self.wait)
    }
}

/// Whether what it waits for takes its clocks and needs no slot.
fn is_timed(wait: &Wait) -> bool
    ensures { result ≡ timed wait.now }
{
    match wait {
        Wait::Slot { .. } | Wait::Halted => false,
        Wait::Cia { .. } | Wait::Unmapped => true,
        Wait::Idle { clocks } => *clocks > 1,
    }
}

/// No clock of waiting leaves the processor as it is.
pub fn waits_of_none()
    ensures { WaitedNone }
{}
