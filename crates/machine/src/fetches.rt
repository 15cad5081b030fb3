//! The access of a clock whose slot is a plane's, a sprite's, the Copper's or nobody's.

ghost use Rattle.std.specs.Prelude.{◌≡◌, ◌≤◌, true, IfOk, OnErr};
ghost use Rattle.serial_model.specs.State.{State};
ghost use Rattle.serial_model.specs.Tick.{ask_of};
ghost use Rattle.chip_set.specs.Bus.{is_fetch_ask};
ghost use Rattle.chip_set.specs.Chips.{CanAsk, CanDo};
ghost use Rattle.machine.specs.Machine.{machine_over};
ghost use Rattle.machine.specs.Machine.{MakesAccess, HasAskedOf, StoresMade, StaysInPlace, reads_after};

use crate::machine::Machine;
use ocs_base::OutOfMemory;
use out_files::OutFiles;
use serial_model::{Ask, Made, Side};

impl<S: Side> Machine<S> {
    /// As `answer`, where the owner of the slot is a plane, a sprite, the Copper or nobody.
    #[inline(always)]
    pub fn answer_fetch(&mut self, ask: &Ask, out: &mut OutFiles) -> Result<Made, OutOfMemory>
        requires fetch { is_fetch_ask ask.now ≡ true }
        requires able { CanAsk ask.now }
        requires time { self.old.chip.newest ≤ self.old.t }
        requires asked { (s : State) × (ask.now ≡ ask_of s) × HasAskedOf
            (machine_over S.seen self.old) s }
        ensures access { IfOk result (λ made.
            MakesAccess ask.now 0 made (machine_over S.seen self.old) out.old
            (machine_over S.seen self.new) out.new) }
        ensures able { IfOk result CanDo }
        ensures memory { IfOk result (λ made.
            StoresMade self.old.t ask.now made self.old.chip self.new.chip) }
        ensures reads { self.new.chip.reads ≡ reads_after ask.now self.old.chip.reads }
        ensures place { StaysInPlace (machine_over S.seen self.old) (machine_over S.seen self.new) }
        ensures refused { OnErr result (out.new ≡ out.old) }
    {
        self.give_side(ask);
        let made = self.chips.answer_fetch(ask, &self.beam, &mut self.chip);
        self.carry_out(&made, 0, out)?;
        Ok(made)
    }
}
