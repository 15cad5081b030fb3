//! A word of the memory.

ghost use Rattle.std.specs.Prelude.{◌≡◌};
ghost use Rattle.mem_versions.specs.Chip.{after_reads, word_at};

use crate::fore::Fore;
use ocs_base::Addr;
use serial_model::Side;

impl<S: Side> Fore<S> {
    /// The word of the memory at an address as it is now; 0 above the memory. It is read once.
    pub fn word(&mut self, at: Addr) -> u16
        ensures word { result ≡ word_at self.old.machine.chip at }
        ensures same { self.new ≡ record self.old {
          machine = record self.old.machine { chip = after_reads self.old.machine.chip 1 };
        } }
    {
        self.machine.chip.read(at)
    }
}
