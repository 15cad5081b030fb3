//! The processor's turn made at once with what becomes of the slot: where that is another's or nobody's and it only
//! waits, where its idle clocks are over, and where it has the slot itself.

ghost use Rattle.std.specs.Prelude.{◌≡◌, true, false};
ghost use Rattle.serial_model.specs.declared.bus.Ask.{Ask as AskOf};
ghost use Rattle.serial_model.specs.declared.bus.Ask.TheVariants as A;
ghost use Rattle.serial_model.specs.Bus.{is_processor_ask};
ghost use Rattle.serial_model.specs.Processor.{Processor, slot_wish};
ghost use Rattle.serial_model.specs.State.{Chips as ChipsOf};
ghost use Rattle.serial_model.specs.Turns.{run_chips, interrupt_of};
ghost use Rattle.irq_cia.specs.Interrupts.{level_of};
ghost use Rattle.cpu_bus.specs.Bus.{IsProcessorOf, GoesOn, is_slot};
ghost use Rattle.cpu_bus.specs.Beside.{turn_beside_of, only_waits, BeginsAnew, begins_anew_of};
ghost use Rattle.cpu_bus.specs.declared.TurnBeside.TheVariants as T;
ghost use Rattle.chip_set.specs.Beside.{WaitsBeside, missing};
ghost use Rattle.chip_set.specs.Chips.{IsChipsOf};

use crate::chips::Chips;
use cpu_bus::TurnBeside;
use serial_model::ProcessorAsk;

impl Chips {
    /// What a clock makes of the processor whose slot is not its own.
    #[inline(always)]
    pub fn turn_beside(&self) -> TurnBeside
        ensures { result ≡ turn_beside_of self.now.processor }
    {
        self.processor.turn_beside()
    }

    /// The slot of a clock is another's or nobody's, and then the processor takes its turn, if it only waits in it.
    /// The answer says so; where it does more its turn is still to come.
    #[inline(always)]
    pub fn wait_beside(&mut self) -> bool
        ensures only { result ≡ only_waits (turn_beside_of self.old.processor) }
        ensures waits { result ≡ true → WaitsBeside self.old self.new }
        ensures left { result ≡ false → (ask : AskOf) → is_processor_ask ask ≡ false
            → self.new ≡ missing ask self.old }
    {
        match self.processor.turn_beside() {
            TurnBeside::Waits { spent } => {
                self.missed = 0;
                self.processor.wait(spent);
                true
            }
            TurnBeside::Asks => {
                self.missed = if self.missed < 3 { self.missed + 1 } else { 3 };
                self.processor.wait(1);
                true
            }
            TurnBeside::GoesOn | TurnBeside::Other => {
                self.missed = self.missed_beside_another();
                false
            }
        }
    }

    /// A clock in whose slot nobody is, and in which the idle clocks of the processor are over: it goes on. The
    /// answer is the level of an interrupt that begins with it.
    #[inline(always)]
    pub fn end_idle(&mut self) -> Option<u8>
        requires over { turn_beside_of self.old.processor ≡ T.GoesOn }
        ensures runs { (c : ChipsOf) → IsChipsOf (missing A.Free self.old) c
            → IsChipsOf self.new (run_chips c) }
        ensures interrupt { (c : ChipsOf) → IsChipsOf (missing A.Free self.old) c
            → result ≡ interrupt_of c }
        ensures kept { self.new ≡ record self.old { missed = 0; processor = self.new.processor } }
    {
        self.missed = 0;
        self.go_on_or_rest(0)
    }

    /// Whether the processor is on, and what it waits for has just begun.
    #[inline(always)]
    pub fn begins_anew(&self) -> bool
        ensures begins { result ≡ begins_anew_of self.now.processor }
        ensures anew { result ≡ true → BeginsAnew self.now.processor }
    {
        self.processor.begins_anew()
    }

    /// What the processor asks for from its second clock on, if it waits for a slot.
    #[inline(always)]
    pub fn next_ask(&self) -> Option<ProcessorAsk>
        ensures { result ≡ slot_wish self.now.processor.wait }
    {
        self.processor.next_ask()
    }

    /// The processor has the slot, with this word for the answer, and goes on with it. The answer is the level of
    /// an interrupt that begins with it.
    #[inline(always)]
    pub fn take_word(&mut self, word: u16) -> Option<u8>
        requires { is_slot self.old.processor.wait ≡ true }
        ensures goes { (p : Processor) → IsProcessorOf self.old.processor p
            → GoesOn word (level_of self.old.irq) p result self.new.processor }
        ensures kept { self.new ≡ record self.old { missed = 0; processor = self.new.processor } }
        ensures anew { self.old.processor.on ≡ true → BeginsAnew self.new.processor }
    {
        self.missed = 0;
        self.processor.take_word(word, &self.irq)
    }
}
