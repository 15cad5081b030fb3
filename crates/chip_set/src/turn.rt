//! The chips in the third and sixth step of a clock: the CIAs' time and interrupts, and the
//! processor's part that needs no slot.

ghost use Rattle.std.specs.Prelude.{◌≡◌, ◌<◌, ◌+◌, ◌-◌, ◌^◌, ◌==◌, true, not, Some, None};
ghost use Rattle.serial_model.specs.State.{Chips as ChipsOf};
ghost use Rattle.serial_model.specs.Cias.{answer_of_cia, access_cia as access_of_cia, pins_at, fire_pins as fire_pins_of};
ghost use Rattle.serial_model.specs.Cias.{tick_timers as ticked, line_bits as line_bits_of, time_chips};
ghost use Rattle.serial_model.specs.Turns.{go_on_with, begins_with, run_chips, interrupt_of};
ghost use Rattle.serial_model.specs.Processor.{turn_of};
ghost use Rattle.serial_model.specs.declared.processor.Turn.TheVariants.{Goes};
ghost use Rattle.chip_set.specs.Bus.{CiasRest, TimersStand, KeepsCias};
ghost use Rattle.chip_set.specs.Chips.{IsChipsOf};

use crate::chips::Chips;
use serial_model::{CiaName, CiaRegister, Inputs, Turn};

/// The interrupts of the two CIAs, as bits of INTREQ.
pub(crate) const PORTS: u16 = 0x8;

pub(crate) const EXTER: u16 = 0x2000;

/// The bits of CIA A's port A that are 0 while a fire button is down.
const FIRE0: u8 = 0x40;

const FIRE1: u8 = 0x80;

impl Chips {
    /// At each fifth clock since reset the timers of both CIAs tick. At every clock the side
    /// requests its interrupts, `bits`, as bits of INTREQ, and a CIA whose line is active its own.
    /// `t` is the number of the clock.
    #[inline(always)]
    #[tactic(auto, unfolding(serial_model::specs::Cias::time_chips))]
    pub fn count_timers(&mut self, t: u64, bits: u16)
        ensures chips { (c : ChipsOf) → IsChipsOf self.old c
            → IsChipsOf self.new (time_chips bits t c) }
        ensures kept { self.new ≡ record self.old {
          irq = self.new.irq;
          cia_a = self.new.cia_a;
          cia_b = self.new.cia_b;
        } }
    {
        self.tick_timers(t);
        if bits != 0 || self.has_line() {
            let lines = self.line_bits();
            self.irq.request(bits | lines);
        }
    }

    /// As `count_timers` without a side, where in so many clocks from this one on nothing is to be done for
    /// the CIAs. The answer is in how many from the next one on.
    #[inline(always)]
    pub fn count_or_rest(&mut self, t: u64, rest: u16) -> u16
        requires rest { CiasRest t rest self.old }
        requires room { t + 1 < 2 ^ 64 }
        ensures chips { (c : ChipsOf) → IsChipsOf self.old c
            → IsChipsOf self.new (time_chips 0 t c) }
        ensures rest { CiasRest (t + 1) result self.new }
        ensures fewer { 0 < rest → result ≡ rest - 1 }
        ensures kept { self.new ≡ record self.old {
          irq = self.new.irq;
          cia_a = self.new.cia_a;
          cia_b = self.new.cia_b;
        } }
    {
        if rest > 0 {
            return rest - 1;
        }
        self.count_timers(t, 0);
        self.clocks_behind(t)
    }

    /// In how many clocks from the one behind clock `t` on nothing is to be done for the CIAs: those before
    /// the next tick of their timers, or any while no timer is started, and none where they request an
    /// interrupt that is not requested yet.
    #[inline(always)]
    fn clocks_behind(&self, t: u64) -> u16
        requires { t + 1 < 2 ^ 64 }
        ensures { CiasRest (t + 1) result self.now }
    {
        if !self.asks_nothing_new() {
            return 0;
        }
        if self.timers_stand() {
            return u16::MAX;
        }
        (4 - t % 5) as u16
    }

    /// Whether no timer is started.
    #[inline(always)]
    fn timers_stand(&self) -> bool
        ensures { result ≡ true → TimersStand self.now }
    {
        self.cia_a.stands() && self.cia_b.stands()
    }

    /// The timers tick at each fifth clock.
    #[inline(always)]
    fn tick_timers(&mut self, t: u64)
        ensures chips { (c : ChipsOf) → IsChipsOf self.old c → IsChipsOf self.new (ticked t c) }
        ensures kept { self.new
            ≡ record self.old { cia_a = self.new.cia_a; cia_b = self.new.cia_b } }
    {
        if t % 5 == 0 {
            self.cia_a.tick();
            self.cia_b.tick();
        }
    }

    /// Whether the line of a CIA is active.
    fn has_line(&self) -> bool
        ensures { (c : ChipsOf) → IsChipsOf self.now c → result ≡ not (line_bits_of c == 0) }
    {
        self.cia_a.line() || self.cia_b.line()
    }

    /// The interrupts that the CIAs request, as bits of INTREQ.
    fn line_bits(&self) -> u16
        ensures { (c : ChipsOf) → IsChipsOf self.now c → result ≡ line_bits_of c }
    {
        (if self.cia_a.line() { PORTS } else { 0 }) + if self.cia_b.line() { EXTER } else { 0 }
    }

    /// The processor takes its turn: a clock passes of what it waits for, or it goes on. The answer
    /// is the level of an interrupt that begins with it.
    #[inline(always)]
    pub fn process(&mut self) -> Option<u8>
        ensures chips { (c : ChipsOf) → IsChipsOf self.old c → IsChipsOf self.new (run_chips c) }
        ensures interrupt { (c : ChipsOf) → IsChipsOf self.old c → result ≡ interrupt_of c }
        ensures kept { self.new ≡ record self.old {
          processor = self.new.processor;
          cia_a = self.new.cia_a;
          cia_b = self.new.cia_b;
        } }
    {
        self.process_beside_cias().0
    }

    /// The same, and whether the CIAs stay, as they do but for its access to one of them.
    #[inline(always)]
    #[tactic(auto, unfolding(serial_model::specs::Turns::run_chips, serial_model::specs::Turns::interrupt_of))]
    pub fn process_beside_cias(&mut self) -> (Option<u8>, bool)
        ensures chips { (c : ChipsOf) → IsChipsOf self.old c → IsChipsOf self.new (run_chips c) }
        ensures interrupt { (c : ChipsOf) → IsChipsOf self.old c → result.0 ≡ interrupt_of c }
        ensures kept { self.new ≡ record self.old {
          processor = self.new.processor;
          cia_a = self.new.cia_a;
          cia_b = self.new.cia_b;
        } }
        ensures cias { result.1 ≡ true → KeepsCias self.old self.new }
    {
        match self.processor.turn() {
            Turn::Rests => (None, true),
            Turn::Waits { spent } => {
                self.processor.wait(spent);
                (None, true)
            }
            Turn::Goes { word } => (self.go_on_or_rest(word), true),
            Turn::Cia { cia, reg, byte } => {
                let word = self.access_cia(cia, reg, byte);
                (self.go_on(word), false)
            }
        }
    }

    /// The processor goes on with a word, where that is its turn. One that only waits on by it, as while it
    /// is stopped by STOP, is not worked out anew.
    #[inline(always)]
    pub(crate) fn go_on_or_rest(&mut self, word: u16) -> Option<u8>
        ensures chips { (c : ChipsOf) → IsChipsOf self.old c → turn_of c.processor ≡ Goes word
            → IsChipsOf self.new (go_on_with word c) }
        ensures interrupt { (c : ChipsOf) → IsChipsOf self.old c → turn_of c.processor ≡ Goes word
            → result ≡ begins_with word c }
        ensures kept { self.new ≡ record self.old { processor = self.new.processor } }
    {
        if self.processor.quiet(&self.irq) == 0 {
            return self.go_on(word);
        }
        self.processor.skip(1);
        None
    }

    /// The processor goes on with a word, and with the interrupt level as it is now.
    #[inline(always)]
    fn go_on(&mut self, word: u16) -> Option<u8>
        ensures chips { (c : ChipsOf) → IsChipsOf self.old c
            → IsChipsOf self.new (go_on_with word c) }
        ensures interrupt { (c : ChipsOf) → IsChipsOf self.old c → result ≡ begins_with word c }
        ensures kept { self.new ≡ record self.old { processor = self.new.processor } }
    {
        self.processor.go_on_with(word, &self.irq)
    }

    /// The processor's access to a register of a CIA: a write of a byte, or a read. The answer is
    /// the word that it reads, 0 for a write.
    fn access_cia(&mut self, cia: CiaName, reg: CiaRegister, byte: Option<u8>) -> u16
        ensures chips { (c : ChipsOf) → IsChipsOf self.old c
            → IsChipsOf self.new (access_of_cia cia reg byte c) }
        ensures word { (c : ChipsOf) → IsChipsOf self.old c
            → result ≡ answer_of_cia cia reg byte c }
        ensures kept { self.new
            ≡ record self.old { cia_a = self.new.cia_a; cia_b = self.new.cia_b } }
    {
        match byte {
            Some(byte) => {
                self.write_cia(cia, reg, byte);
                0
            }
            None => self.read_cia(cia, reg),
        }
    }

    /// The processor writes a byte to a register of a CIA.
    fn write_cia(&mut self, cia: CiaName, reg: CiaRegister, byte: u8)
        ensures chips { (c : ChipsOf) → IsChipsOf self.old c
            → IsChipsOf self.new (access_of_cia cia reg (Some byte) c) }
        ensures kept { self.new
            ≡ record self.old { cia_a = self.new.cia_a; cia_b = self.new.cia_b } }
    {
        match cia {
            CiaName::A => self.cia_a.poke(reg.number, byte),
            CiaName::B => self.cia_b.poke(reg.number, byte),
        }
    }

    /// The processor reads a register of a CIA: the word has its byte in the low half for CIA A, in
    /// the high one for CIA B.
    fn read_cia(&mut self, cia: CiaName, reg: CiaRegister) -> u16
        ensures chips { (c : ChipsOf) → IsChipsOf self.old c
            → IsChipsOf self.new (access_of_cia cia reg None c) }
        ensures word { (c : ChipsOf) → IsChipsOf self.old c
            → result ≡ answer_of_cia cia reg None c }
        ensures kept { self.new
            ≡ record self.old { cia_a = self.new.cia_a; cia_b = self.new.cia_b } }
    {
        let pins = pins(cia, reg, &self.inputs);
        match cia {
            CiaName::A => self.cia_a.peek(reg.number, pins) as u16,
            CiaName::B => 256 * self.cia_b.peek(reg.number, pins) as u16,
        }
    }
}

/// The pins of the port that a register reads: all are 1 but those of the fire buttons that are down.
fn pins(cia: CiaName, reg: CiaRegister, inputs: &Inputs) -> u8
    ensures { result ≡ pins_at cia reg.number inputs.now }
{
    match cia {
        CiaName::A if reg.number == 0 => fire_pins(inputs),
        _ => 0xff,
    }
}

/// The pins of CIA A's port A.
fn fire_pins(inputs: &Inputs) -> u8
    ensures { result ≡ fire_pins_of inputs.now }
{
    0xff - (if inputs.fire1 { FIRE1 } else { 0 }) - if inputs.fire0 { FIRE0 } else { 0 }
}
