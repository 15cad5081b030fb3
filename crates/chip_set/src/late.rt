//! Who has a slot for which neither the side nor a plane nor a sprite asks.

ghost use Rattle.std.specs.Prelude.{◌≡◌};
ghost use Rattle.cpu_bus.specs.Bus.{wish_shown};
ghost use Rattle.chip_set.specs.Chips.{late_ask as asked_late, late_owner_of, ask_of_late};

use crate::chips::Chips;
use bus_slots::is_refresh;
use ocs_base::Beam;
use serial_model::ProcessorAsk;

/// Who has a slot for which neither the side nor a plane nor a sprite asks. In a slot of refresh that is
/// nobody.
#[derive(Clone, Copy)]
pub enum LateOwner {
    Copper,
    Blitter,
    Processor,
    Nobody,
}

impl Chips {
    /// Who has the slot of a clock for which neither the side nor a plane nor a sprite asks. What the owner
    /// asks for it says by itself.
    #[inline(always)]
    #[tactic(auto, unfolding(crate::specs::Chips::ask_with, serial_model::specs::Owner::owner_of))]
    pub fn late_owner(&self, beam: &Beam) -> LateOwner
        ensures owner { result ≡ late_owner_of beam.now self.now }
        ensures ask { asked_late beam.now self.now ≡ ask_of_late result beam.now self.now }
    {
        if is_refresh(beam.h) {
            return LateOwner::Nobody;
        }
        if self.copper_wish(beam).is_some() {
            return LateOwner::Copper;
        }
        let processor = self.processor.wish().is_some();
        let late = !self.is_nasty() && self.missed >= 3;
        if self.has_blitter_wish() && !(processor && late) {
            LateOwner::Blitter
        } else if processor {
            LateOwner::Processor
        } else {
            LateOwner::Nobody
        }
    }

    /// What the processor asks for.
    #[inline(always)]
    pub fn processor_wish(&self) -> Option<ProcessorAsk>
        ensures { result ≡ wish_shown self.now.processor }
    {
        self.processor.wish()
    }
}
