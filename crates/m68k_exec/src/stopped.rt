//! Whether the processor is stopped.

ghost use Rattle.std.specs.Prelude.{◌≡◌, ℕ, List};
ghost use Rattle.m68k_decode.specs.declared.regs.CpuRegs.{CpuRegs};
ghost use Rattle.m68k_decode.specs.declared.under.Under.{Under};
ghost use Rattle.m68k_decode.specs.Status.{mask_of};
ghost use Rattle.m68k_exec.specs.Stands.{Stands};
ghost use Rattle.m68k_exec.specs.Stopped.{stands_stopped};

use crate::state::{Cpu, Step};
use m68k_results::interrupt_mask;

impl Cpu {
    /// Whether STOP has stopped it, so that nothing but an interrupt wakes it: from right behind its last
    /// word on, and between any two of the clocks that it then waits.
    pub fn is_stopped(&self) -> bool
        ensures { (r : CpuRegs) (u : Under) (ws : List ℕ) → Stands self.now r u ws
            → result ≡ stands_stopped u ws }
    {
        self.done == 0 && matches!(self.machine.step, Step::Ended { .. })
    }

    /// The interrupt mask of the status register with which what is under way began, 0 to 7: only a level
    /// above it begins an interrupt.
    pub fn mask(&self) -> u8
        ensures { (r : CpuRegs) (u : Under) (ws : List ℕ) → Stands self.now r u ws
            → result ≡ mask_of r.sr }
    {
        interrupt_mask(self.context.start.sr)
    }
}
