//! The processor on the bus: where its accesses go, what it waits for, and how its clocks pass.
#![tactic(auto)]

ghost use Rattle.std.specs.Prelude.{◌≡◌, ◌≤◌, ℕ, true, false, List, Some};
ghost use Rattle.cpu_bus.specs.Bus.{AdvancesBy};
ghost use Rattle.irq_cia.specs.Interrupts.{level_of};
ghost use Rattle.m68k_decode.specs.declared.regs.CpuRegs.{CpuRegs};
ghost use Rattle.m68k_decode.specs.declared.under.Under.{Under};
ghost use Rattle.m68k_decode.specs.Walk.{next};
ghost use Rattle.m68k_exec.specs.Stands.{Stands, Reaches, interrupt_if, settled_at};
ghost use Rattle.serial_model.specs.declared.processor.Wait.TheVariants as W;
ghost use Rattle.serial_model.specs.Processor.{Processor, wait_of, reset_processor, processor_wish, slot_wish, give_processor, turn_of, turn_by, after_clocks};

mod quiet;
mod target;

pub use crate::quiet::waits_of_none;
use crate::target::{look_ahead, look_for_word, look_for_write, look_further};
use irq_cia::Irq;
use m68k_exec::{Ask as Access, Cpu};
use ocs_base::ChipSize;
use serial_model::{ProcessorAsk, Turn, Wait};

/// The clocks of an access that goes nowhere, and of one to a CIA (profile).
const UNMAPPED_CLOCKS: u32 = 2;

const CIA_CLOCKS: u32 = 5;

/// What a clock makes of the processor whose slot is not its own.
#[derive(Clone, Copy)]
pub enum TurnBeside {
    /// It does not ask for the slot, and waits on: so many clocks have passed of that then.
    Waits { spent: u32 },
    /// It asks for the slot, and waits on.
    Asks,
    /// It does not ask for the slot, and goes on: its idle clocks are over with this one.
    GoesOn,
    /// Anything else: its access has its word, or goes to a CIA or nowhere, or it has halted.
    Other,
}

/// The processor, and how far it is with what it waits for. `spent` are the colour clocks that have
/// passed of that, and `given` is the word of the access that it has just made in its slot.
/// `chip` is the size of the chip memory that it sees.
#[derive(Drop)]
pub struct BusCpu {
    chip: ChipSize,
    on: bool,
    cpu: Cpu,
    wait: Wait,
    spent: u32,
    given: Option<u16>,
}

impl BusCpu {
    ghost use Rattle.cpu_bus.specs.Bus.{IsProcessorOf, GoesOn, wish_shown};

    /// The processor at reset, with a chip memory of this size on its bus; it begins the reset where it is
    /// `on`, and else does nothing at all.
    pub fn reset(chip: ChipSize, on: bool) -> BusCpu
        ensures { IsProcessorOf result (reset_processor chip on) }
    {
        let cpu = Cpu::reset();
        let mut wait = Wait::Halted;
        look_ahead(&mut wait, chip, &cpu);
        BusCpu {
            chip,
            on,
            cpu,
            wait,
            spent: 0,
            given: None,
        }
    }

    /// The same state once more.
    pub fn copied(&self) -> BusCpu
        ensures { result ≡ self.now }
    {
        BusCpu {
            chip: self.chip,
            on: self.on,
            cpu: self.cpu.copied(),
            wait: self.wait,
            spent: self.spent,
            given: self.given,
        }
    }

    /// What it asks for in the slot of this clock: an access to memory or to a register asks at
    /// each clock but its first, until it is given.
    #[inline(always)]
    #[tactic(auto, unfolding(serial_model::specs::Processor::processor_wish))]
    pub fn wish(&self) -> Option<ProcessorAsk>
        ensures shown { result ≡ wish_shown self.now }
        ensures wish { (p : Processor) → IsProcessorOf self.now p → result ≡ processor_wish p }
    {
        if self.on && self.spent != 0 {
            slot_ask(&self.wait)
        } else {
            None
        }
    }

    /// It got the slot: this word answers the access, 0 for a write.
    pub fn give(&mut self, word: u16)
        ensures { (p : Processor) → IsProcessorOf self.old p
            → IsProcessorOf self.new (give_processor word p) }
    {
        self.given = Some(word);
    }

    /// What this clock makes of it, once the slot was given.
    #[tactic(auto, unfolding(serial_model::specs::Processor::turn_of))]
    pub fn turn(&self) -> Turn
        ensures { (p : Processor) → IsProcessorOf self.now p → result ≡ turn_of p }
    {
        if !self.on {
            return Turn::Rests;
        }
        match self.given {
            Some(word) => Turn::Goes { word },
            None => self.waiting_turn(),
        }
    }

    /// What a clock makes of it while it waits.
    fn waiting_turn(&self) -> Turn
        ensures { result ≡ turn_by self.now.wait self.now.spent }
    {
        match self.wait {
            Wait::Slot { .. } => Turn::Waits { spent: 1 },
            Wait::Cia { cia, reg, byte } => self.turn_after(
                CIA_CLOCKS,
                Turn::Cia { cia, reg, byte },
            ),
            Wait::Unmapped => self.turn_after(UNMAPPED_CLOCKS, Turn::Goes { word: 0 }),
            Wait::Idle { clocks } => self.turn_after(clocks, Turn::Goes { word: 0 }),
            Wait::Halted => Turn::Rests,
        }
    }

    /// What takes so many clocks is over with the last of them.
    fn turn_after(&self, clocks: u32, over: Turn) -> Turn
        ensures { result ≡ after_clocks clocks self.now.spent over }
    {
        match self.spent.checked_add(1) {
            Some(spent) if spent < clocks => Turn::Waits { spent },
            _ => over,
        }
    }

    /// One more clock passes of what it waits for: these have passed now.
    pub fn wait(&mut self, spent: u32)
        ensures stands { (p : Processor) → IsProcessorOf self.old p
            → IsProcessorOf self.new (record p { spent = spent }) }
        ensures kept { self.new ≡ record self.old { spent = spent } }
    {
        self.spent = spent;
    }

    /// It goes on with the word of an access, which counts only for a read. `level` is the
    /// interrupt level of this clock, 0 to 7. The answer is the level of an interrupt that begins
    /// with it.
    pub fn go_on(&mut self, word: u16, level: u8) -> Option<u8>
        requires { level ≤ 7 }
        ensures { (p : Processor) → IsProcessorOf self.old p → GoesOn word level p result self.new }
    {
        let begins = advance(&mut self.cpu, word, level);
        self.spent = 0;
        self.given = None;
        if let Some(level) = begins {
            look_further(&mut self.wait, self.chip, &self.cpu);
            return Some(level);
        }
        look_ahead(&mut self.wait, self.chip, &self.cpu);
        None
    }
}

impl BusCpu {
    ghost use Rattle.cpu_bus.specs.Bus.{IsProcessorOf, IsAnswered, GoesOn, is_slot};
    ghost use Rattle.cpu_bus.specs.Beside.{turn_beside_of, slot_beside_by, idle_beside_by};
    ghost use Rattle.cpu_bus.specs.Beside.{BeginsAnew, begins_anew_of};

    /// What a clock makes of it whose slot is not its own.
    #[inline(always)]
    pub fn turn_beside(&self) -> TurnBeside
        ensures { result ≡ turn_beside_of self.now }
    {
        if !self.on {
            return TurnBeside::Waits { spent: self.spent };
        }
        if self.given.is_some() {
            return TurnBeside::Other;
        }
        match self.wait {
            Wait::Slot { .. } => self.slot_beside(),
            Wait::Idle { clocks } => self.idle_beside(clocks),
            Wait::Cia { .. } | Wait::Unmapped | Wait::Halted => TurnBeside::Other,
        }
    }

    /// The same while it waits for a slot.
    #[inline(always)]
    fn slot_beside(&self) -> TurnBeside
        ensures { result ≡ slot_beside_by self.now.spent }
    {
        if self.spent == 0 {
            TurnBeside::Waits { spent: 1 }
        } else {
            TurnBeside::Asks
        }
    }

    /// The same while it idles for so many clocks.
    #[inline(always)]
    fn idle_beside(&self, clocks: u32) -> TurnBeside
        ensures { result ≡ idle_beside_by clocks self.now.spent }
    {
        if u64::from(self.spent) + 1 < u64::from(clocks) {
            TurnBeside::Waits {
                spent: self.spent + 1,
            }
        } else {
            TurnBeside::GoesOn
        }
    }

    /// Whether it is on, and what it waits for has just begun.
    #[inline(always)]
    pub fn begins_anew(&self) -> bool
        ensures begins { result ≡ begins_anew_of self.now }
        ensures anew { result ≡ true → BeginsAnew self.now }
    {
        self.on && self.spent == 0 && self.given.is_none()
    }

    /// What it asks for from its second clock on, if it waits for a slot.
    #[inline(always)]
    pub fn next_ask(&self) -> Option<ProcessorAsk>
        ensures { result ≡ slot_wish self.now.wait }
    {
        slot_ask(&self.wait)
    }

    /// It has its slot, with this word for the answer, and goes on with it in the same clock; the interrupts are
    /// these. The answer is the level of an interrupt that begins with it.
    #[inline(always)]
    pub fn take_word(&mut self, word: u16, irq: &Irq) -> Option<u8>
        requires { is_slot self.old.wait ≡ true }
        ensures goes { (p : Processor) → IsProcessorOf self.old p
            → GoesOn word (level_of irq.now) p result self.new }
        ensures anew { self.old.on ≡ true → BeginsAnew self.new }
    {
        self.complete(word);
        if self.settle(irq) {
            return Some(irq.level());
        }
        None
    }

    /// As `go_on`, with the level of these interrupts. An access that was made in a slot, which is most of what
    /// it waits for, is looked for first.
    #[inline(always)]
    pub fn go_on_with(&mut self, word: u16, irq: &Irq) -> Option<u8>
        ensures { (p : Processor) → IsProcessorOf self.old p
            → GoesOn word (level_of irq.now) p result self.new }
    {
        if !self.waits_for_slot() {
            return self.end_wait(word, irq.level());
        }
        self.complete(word);
        if self.settle(irq) {
            return Some(irq.level());
        }
        None
    }

    /// Whether it waits for a slot, to make an access in it.
    #[inline(always)]
    fn waits_for_slot(&self) -> bool
        ensures { result ≡ is_slot self.now.wait }
    {
        matches!(self.wait, Wait::Slot { .. })
    }

    /// It goes on with the word of the access that it has made in its slot; what follows is not settled yet.
    #[inline(always)]
    fn complete(&mut self, word: u16)
        requires { is_slot self.old.wait ≡ true }
        ensures answers { (p : Processor) → IsProcessorOf self.old p → IsAnswered word self.new p }
        ensures kept { self.new ≡ record self.old { cpu = self.new.cpu } }
    {
        self.cpu.complete_access(word);
    }

    /// What follows the access begins, with the level of these interrupts. The answer is whether an interrupt
    /// begins with it. What comes most often is looked for first.
    #[inline(always)]
    fn settle(&mut self, irq: &Irq) -> bool
        ensures goes { (word : ℕ) (p : Processor) → IsAnswered word self.old p
            → GoesOn word (level_of irq.now) p (interrupt_if result (level_of irq.now)) self.new }
        ensures anew { self.old.on ≡ true → BeginsAnew self.new }
    {
        self.spent = 0;
        self.given = None;
        if look_for_word(&mut self.wait, self.chip, &self.cpu) {
            return false;
        }
        if let Some(clocks) = self.cpu.idle_clocks_left() {
            self.wait = Wait::Idle { clocks };
            return false;
        }
        if self.cpu.settle_next_instruction(irq.level()) {
            if look_for_word(&mut self.wait, self.chip, &self.cpu) {
                return false;
            }
            return self.look_on();
        }
        if look_for_write(&mut self.wait, self.chip, &self.cpu) {
            return false;
        }
        self.settle_rest(irq.level())
    }

    /// Puts down what it waits for, whatever that is. The answer is that no interrupt begins.
    #[inline(never)]
    fn look_on(&mut self) -> bool
        ensures none { result ≡ false }
        ensures waits { (r : CpuRegs) (u : Under) (ws : List ℕ) → Stands self.old.cpu r u ws
            → self.new.wait ≡ wait_of self.old.chip (next r u ws) }
        ensures kept { self.new ≡ record self.old { wait = self.new.wait } }
    {
        look_further(&mut self.wait, self.chip, &self.cpu);
        false
    }

    /// What follows an access begins, and what it waits for then is put down, whatever they are. The answer is
    /// whether an interrupt begins.
    #[inline(never)]
    fn settle_rest(&mut self, level: u8) -> bool
        ensures settles { (r : CpuRegs) (u : Under) (ws : List ℕ) → Stands self.old.cpu r u ws
            → Reaches self.new.cpu (interrupt_if result level) (settled_at r u ws level) }
        ensures waits { (r : CpuRegs) (u : Under) (ws : List ℕ) → Stands self.new.cpu r u ws
            → self.new.wait ≡ wait_of self.old.chip (next r u ws) }
        ensures kept { self.new
            ≡ record self.old { cpu = self.new.cpu; wait = self.new.wait } }
    {
        let begins = self.cpu.settle_access(level);
        look_further(&mut self.wait, self.chip, &self.cpu);
        begins
    }

    /// As `go_on`; the end of idle clocks at which the next instruction begins is looked for first.
    #[inline(never)]
    fn end_wait(&mut self, word: u16, level: u8) -> Option<u8>
        requires { level ≤ 7 }
        ensures { (p : Processor) → IsProcessorOf self.old p → GoesOn word level p result self.new }
    {
        if self.cpu.answer_next_instruction(level) {
            self.spent = 0;
            self.given = None;
            look_ahead(&mut self.wait, self.chip, &self.cpu);
            return None;
        }
        self.go_on_rest(word, level)
    }

    /// As `go_on`.
    #[inline(never)]
    fn go_on_rest(&mut self, word: u16, level: u8) -> Option<u8>
        requires { level ≤ 7 }
        ensures { (p : Processor) → IsProcessorOf self.old p → GoesOn word level p result self.new }
    {
        self.go_on(word, level)
    }
}

/// The ask of what needs a slot.
fn slot_ask(wait: &Wait) -> Option<ProcessorAsk>
    ensures { result ≡ slot_wish wait.now }
{
    match wait {
        Wait::Slot { ask } => Some(*ask),
        _ => None,
    }
}

/// The processor goes on with a word; once it is halted it stays as it is.
fn advance(cpu: &mut Cpu, word: u16, level: u8) -> Option<u8>
    requires { level ≤ 7 }
    ensures { AdvancesBy word level cpu.old result cpu.new }
{
    if let Access::Halted = cpu.ask() {
        return None;
    }
    cpu.answer(word, level)
}
