//! The processor.

ghost use Rattle.std.specs.Prelude.{◌≡◌, ◌≢◌, ◌≤◌, ◌<◌, ◌+◌, ℕ, true, false, List, [], ◌∷◌, ◌++◌, length, min, Some, None, ◌%◌};
ghost use Rattle.m68k_decode.specs.declared.regs.CpuRegs.{CpuRegs};
ghost use Rattle.m68k_decode.specs.declared.under.Under.{Under};
ghost use Rattle.m68k_decode.specs.declared.under.Under.TheVariants as U;
ghost use Rattle.m68k_decode.specs.Access.{after, next_of, idle_clocks};
ghost use Rattle.m68k_decode.specs.Walk.{stage, next, program, advance, begin, begin_again, boundary, is_traced, taking_of, regs_at_reset};
ghost use Rattle.m68k_exec.specs.declared.ask.Ask.TheVariants as A;
ghost use Rattle.m68k_exec.specs.declared.state.Step.TheVariants as T;
ghost use Rattle.m68k_exec.specs.Meaning.{meaning};
ghost use Rattle.m68k_exec.specs.Stands.{Stands, Reaches, interrupt_if, settled_at, wanted, word_read, is_halted};

use crate::access::fetch_word;
use crate::ask::Ask;
use crate::dispatch::continue_with_word;
use crate::entries::{is_instruction, start_exception, start_reset};
use crate::rows::Rows;
use crate::state::{Context, Cpu, Machine, Part, Step};
use m68k_decode::{CpuRegs, Trap, Under};
use m68k_results::{Fetched, entered_status, has_trace, interrupt_mask};

/// Sets the first step of what is under way, and the context for it.
#[tactic(auto, unfolding(m68k_decode::specs::Walk::program, m68k_decode::specs::Walk::instruction, m68k_decode::specs::Walk::taking_of))]
fn set_first_step(context: &mut Context, machine: &mut Machine, under: Under)
    ensures start { context.new.start ≡ machine.old.regs }
    ensures walk { meaning context.new machine.new ≡ program machine.old.regs under }
{
    context.start = machine.regs;
    context.fetched = Fetched::none();
    context.taking = is_taking(&under);
    context.instruction = true;
    match under {
        Under::Reset => start_reset(context, machine),
        Under::Instruction { .. } => fetch_word(context, machine, Part::Opcode),
        Under::Entry { kind, ea, .. } => {
            context.instruction = is_instruction(&kind);
            machine.regs.sr = entered_status(&kind, machine.regs.sr);
            start_exception(context, machine, kind, ea);
        }
        Under::Stopped => machine.step = Step::Ended {
            clocks: 2,
            under: Under::Stopped,
        },
        Under::Halted => machine.step = Step::Halted,
    }
}

/// Whether an address error is being taken.
#[tactic(auto, unfolding(m68k_decode::specs::Walk::taking_of))]
fn is_taking(under: &Under) -> bool
    ensures { result ≡ taking_of under.now }
{
    match *under {
        Under::Instruction { taking } | Under::Entry { taking, .. } => taking,
        _ => false,
    }
}

/// Whether a trace follows.
#[tactic(auto, unfolding(m68k_decode::specs::Walk::is_traced))]
fn is_traced(regs: &CpuRegs, under: &Under) -> bool
    ensures { result ≡ is_traced regs.now under.now }
{
    matches!(*under, Under::Instruction { .. }) && has_trace(regs.sr)
}

impl Cpu {
    /// The processor at its reset: SR is 2700h, and all other registers are 0 (profile).
    pub fn reset() -> Cpu
        ensures { Stands result regs_at_reset U.Reset [] }
    {
        let regs = CpuRegs {
            d: [0; 8],
            a: [0; 7],
            usp: 0,
            ssp: 0,
            pc: 0,
            sr: 0x2700,
        };
        Cpu::new(regs, Under::Reset)
    }

    /// The processor at the start of something.
    fn new(regs: CpuRegs, under: Under) -> Cpu
        ensures { Stands result regs under [] }
    {
        let traced = is_traced(&regs, &under);
        let mut context = Context {
            start: regs,
            fetched: Fetched::none(),
            rows: Rows::new(),
            taking: false,
            instruction: true,
        };
        let mut machine = Machine {
            regs,
            step: Step::Halted,
        };
        set_first_step(&mut context, &mut machine, under);
        Cpu {
            context,
            machine,
            done: 0,
            traced,
        }
    }

    /// What it does next: an access, or idle clocks, or nothing any more. A read of a byte asks for
    /// its whole word.
    #[tactic(auto, unfolding(m68k_decode::specs::Walk::next))]
    pub fn ask(&self) -> Ask
        ensures next { (r : CpuRegs) (u : Under) (ws : List ℕ)
            → Stands self.now r u ws
            → result ≡ wanted (next r u ws) }
        ensures halted { is_halted self.now ≡ true → result ≡ A.Halted }
    {
        match self.machine.step {
            Step::Fetch { .. } => Ask::Read {
                at: self.machine.regs.pc,
                byte: false,
            },
            Step::ReadByte { at, .. } => Ask::Read { at, byte: true },
            Step::ReadWord { at, .. } | Step::ReadHigh { at, .. } | Step::ReadLow { at, .. } =>
                Ask::Read { at, byte: false },
            Step::WriteByte { at, byte, .. } => Ask::Write {
                at,
                byte: true,
                word: byte,
            },
            Step::WriteWord { at, word, .. }
            | Step::WriteHigh { at, high: word, .. }
            | Step::Push { at, word, .. } => {
                Ask::Write {
                    at,
                    byte: false,
                    word,
                }
            }
            Step::Ended { clocks, .. } => Ask::Idle {
                clocks: idle_clocks(clocks, self.done),
            },
            Step::Broken { .. } => Ask::Idle { clocks: 0 },
            Step::Halted => Ask::Halted,
        }
    }

    /// The address of the word that it reads next: what `ask` says of most accesses, with less to do. None
    /// where it reads a byte, writes, waits or has halted.
    #[inline(always)]
    #[tactic(auto, unfolding(m68k_decode::specs::Walk::next))]
    pub fn word_read(&self) -> Option<u32>
        ensures { (r : CpuRegs) (u : Under) (ws : List ℕ) → Stands self.now r u ws
            → result ≡ word_read (wanted (next r u ws)) }
    {
        match self.machine.step {
            Step::Fetch { .. } => Some(self.machine.regs.pc),
            Step::ReadWord { at, .. } | Step::ReadHigh { at, .. } | Step::ReadLow { at, .. } => {
                Some(at)
            }
            Step::ReadByte { .. }
            | Step::WriteByte { .. }
            | Step::WriteWord { .. }
            | Step::WriteHigh { .. }
            | Step::Push { .. }
            | Step::Ended { .. }
            | Step::Broken { .. }
            | Step::Halted => None,
        }
    }
}

/// The idle clocks that a number of clocks leaves after so many accesses.
fn idle_clocks(clocks: u32, done: u32) -> u32
    ensures { (n : ℕ) → done ≡ min n 4294967295 → result ≡ idle_clocks clocks n }
{
    clocks.saturating_sub(done.saturating_mul(4)) / 2
}

/// One more access is made.
#[inline(always)]
fn count_access(done: &mut u32)
    ensures { done.new ≡ min (done.old + 1) 4294967295 }
{
    if *done < u32::MAX {
        *done += 1;
    }
}

/// Whether a number of clocks leaves no idle clocks after so many accesses.
#[inline(always)]
fn is_over(clocks: u32, done: u32) -> bool
    ensures over { (n : ℕ) → done ≡ min n 4294967295 → result ≡ true → idle_clocks clocks n ≡ 0 }
    ensures waits { (n : ℕ) → done ≡ min n 4294967295 → result ≡ false → idle_clocks clocks n ≢ 0 }
{
    u64::from(clocks) < 4 * u64::from(done) + 2
}

impl Cpu {
    /// Goes on with the word of the access that `ask` told; for idle clocks it completes all of
    /// them, and the word says nothing. `level` is the interrupt level of the clock of that access,
    /// or of the last idle clock. The answer is the level of an interrupt that begins with it:
    /// where something ended, no trace follows, and the level is above the mask.
    pub fn answer(&mut self, word: u16, level: u8) -> Option<u8>
        requires level { level ≤ 7 }
        requires asks { is_halted self.old ≡ false }
        ensures { (r : CpuRegs) (u : Under) (ws : List ℕ)
            → Stands self.old r u ws
            → Reaches self.new result (advance r u ws word level) }
    {
        if self.advance_step(word, level) {
            Some(level)
        } else {
            None
        }
    }

    /// The same; the answer is whether an interrupt begins, as it is of the functions that this calls.
    #[inline(always)]
    fn advance_step(&mut self, word: u16, level: u8) -> bool
        requires { is_halted self.old ≡ false }
        ensures { (r : CpuRegs) (u : Under) (ws : List ℕ)
            → Stands self.old r u ws
            → Reaches self.new (interrupt_if result level) (advance r u ws word level) }
    {
        if let Step::Ended { .. } = self.machine.step {
            return self.pass_boundary(level);
        }
        self.complete_access(word);
        self.settle_access(level)
    }

    /// Goes on with the word of an access; what ended or was broken off with it is not settled yet.
    #[inline(never)]
    pub fn complete_access(&mut self, word: u16)
        ensures { (r : CpuRegs) (u : Under) (ws : List ℕ)
            → Stands self.old r u ws
            → Stands self.new r u (ws ++ word ∷ []) }
    {
        count_access(&mut self.done);
        continue_with_word(&mut self.context, &mut self.machine, word);
    }

    /// Starts what follows an access, where something ended or was broken off with it. The answer is whether an
    /// interrupt begins.
    #[inline(always)]
    pub fn settle_access(&mut self, level: u8) -> bool
        ensures { (r : CpuRegs) (u : Under) (ws : List ℕ)
            → Stands self.old r u ws
            → Reaches self.new (interrupt_if result level) (settled_at r u ws level) }
    {
        match self.machine.step {
            Step::Ended { clocks, .. } => {
                if is_over(clocks, self.done) {
                    return self.pass_boundary(level);
                }
                false
            }
            Step::Broken { under } => {
                self.start_or_replace(under);
                false
            }
            _ => false,
        }
    }

    /// Starts the next instruction, where nothing comes between: as `start_or_replace` does, in fewer steps.
    #[tactic(auto, unfolding(m68k_decode::specs::Walk::begin, m68k_decode::specs::Walk::program, m68k_decode::specs::Walk::instruction, m68k_decode::specs::Walk::is_traced, m68k_decode::specs::Walk::opcode_read, m68k_decode::specs::Run::fetch, m68k_decode::specs::Run::read_word))]
    #[inline(always)]
    fn start_next_instruction(&mut self)
        requires { self.old.machine.regs.pc % 2 ≡ 0 }
        ensures { Reaches self.new None (begin self.old.machine.regs (U.Instruction false)) }
    {
        self.context.start = self.machine.regs;
        self.context.instruction = true;
        self.machine.step = Step::Fetch { part: Part::Opcode };
        self.traced = has_trace(self.machine.regs.sr);
        self.done = 0;
    }

    /// Starts what follows an end: a trace, an interrupt, or what is under way next.
    #[inline(always)]
    fn pass_boundary(&mut self, level: u8) -> bool
        ensures { (clocks : ℕ) (under : Under) → self.old.machine.step ≡ T.Ended clocks under
            → Reaches self.new (interrupt_if result level)
            (boundary self.old.traced self.old.machine.regs under level) }
    {
        if self.pass_plain_boundary(level) {
            return false;
        }
        self.pass_rare_boundary(level)
    }

    /// Starts the next instruction, where one has ended and nothing comes between. The answer is whether it
    /// does; else all stays as it is.
    #[tactic(auto, unfolding(m68k_decode::specs::Walk::boundary))]
    #[inline(always)]
    fn pass_plain_boundary(&mut self, level: u8) -> bool
        ensures passes { (clocks : ℕ) (under : Under) → self.old.machine.step ≡ T.Ended clocks under
            → result ≡ true
            → Reaches self.new None
            (boundary self.old.traced self.old.machine.regs under level) }
        ensures stays { result ≡ false → self.new ≡ self.old }
    {
        if let Step::Ended {
            under: Under::Instruction { taking: false },
            ..
        } = self.machine.step
        {
            let regs = &self.machine.regs;
            if !self.traced && level <= interrupt_mask(regs.sr) && regs.pc & 1 == 0 {
                self.start_next_instruction();
                return true;
            }
        }
        false
    }

    /// As `settle_access`, where an instruction ended with an access and the next one follows. The answer is
    /// whether that is so; else all stays as it is.
    #[inline(always)]
    pub fn settle_next_instruction(&mut self, level: u8) -> bool
        ensures settles { (r : CpuRegs) (u : Under) (ws : List ℕ) → Stands self.old r u ws
            → result ≡ true
            → Reaches self.new None (settled_at r u ws level) }
        ensures stays { result ≡ false → self.new ≡ self.old }
    {
        if let Step::Ended { clocks, .. } = self.machine.step {
            if is_over(clocks, self.done) {
                return self.pass_plain_boundary(level);
            }
        }
        false
    }

    /// As `answer`, where an instruction ends with its idle clocks and the next one follows. The answer is
    /// whether that is so; else all stays as it is.
    #[inline(always)]
    pub fn answer_next_instruction(&mut self, level: u8) -> bool
        ensures answers { (r : CpuRegs) (u : Under) (ws : List ℕ) (word : ℕ)
            → Stands self.old r u ws
            → result ≡ true
            → Reaches self.new None (advance r u ws word level) }
        ensures stays { result ≡ false → self.new ≡ self.old }
    {
        if let Step::Ended { .. } = self.machine.step {
            return self.pass_plain_boundary(level);
        }
        false
    }

    /// The idle clocks that follow an access, where something ended with it and has any.
    #[inline(always)]
    #[tactic(auto, unfolding(m68k_decode::specs::Walk::next))]
    pub fn idle_clocks_left(&self) -> Option<u32>
        ensures asks { (r : CpuRegs) (u : Under) (ws : List ℕ) (clocks : ℕ)
            → Stands self.now r u ws
            → result ≡ Some clocks
            → wanted (next r u ws) ≡ A.Idle clocks }
        ensures settles { (r : CpuRegs) (u : Under) (ws : List ℕ) (clocks level : ℕ)
            → Stands self.now r u ws
            → result ≡ Some clocks
            → settled_at r u ws level ≡ stage r u ws }
    {
        if let Step::Ended { clocks, .. } = self.machine.step {
            if !is_over(clocks, self.done) {
                return Some(idle_clocks(clocks, self.done));
            }
        }
        None
    }

    /// Starts what follows an end, in any case.
    #[tactic(auto, unfolding(m68k_decode::specs::Walk::boundary))]
    #[inline(never)]
    fn pass_rare_boundary(&mut self, level: u8) -> bool
        ensures { (clocks : ℕ) (under : Under) → self.old.machine.step ≡ T.Ended clocks under
            → Reaches self.new (interrupt_if result level)
            (boundary self.old.traced self.old.machine.regs under level) }
    {
        let Step::Ended { under, .. } = self.machine.step else {
            return false;
        };
        let taking = is_taking(&under);
        if self.traced {
            self.start_or_replace(Under::Entry {
                kind: Trap::Trace,
                ea: 0,
                taking,
            });
            return false;
        }
        if level > interrupt_mask(self.machine.regs.sr) {
            self.start_or_replace(Under::Entry {
                kind: Trap::Interrupt { level },
                ea: 0,
                taking,
            });
            return true;
        }
        self.start_or_replace(under);
        false
    }

    /// Starts with the registers as they are, or what takes its place where the first access is to an odd
    /// address.
    #[inline(never)]
    fn start_or_replace(&mut self, under: Under)
        ensures { Reaches self.new None (begin self.old.machine.regs under) }
    {
        self.start_walk(under);
        if let Step::Broken { under } = self.machine.step {
            self.start_replacement(under);
        }
    }

    /// Starts what takes the place of another.
    fn start_replacement(&mut self, under: Under)
        ensures { Reaches self.new None (begin_again self.old.machine.regs under) }
    {
        self.start_walk(under);
        if let Step::Broken { under } = self.machine.step {
            self.start_walk(under);
        }
    }

    /// Starts the walk of what is under way, with the registers as they are.
    fn start_walk(&mut self, under: Under)
        ensures { Stands self.new self.old.machine.regs under [] }
    {
        self.traced = is_traced(&self.machine.regs, &under);
        self.done = 0;
        set_first_step(&mut self.context, &mut self.machine, under);
    }

    /// The registers with which what is under way began.
    pub fn regs(&self) -> &CpuRegs
        ensures { (r : CpuRegs) (u : Under) (ws : List ℕ) → Stands self.now r u ws → result.now ≡ r }
    {
        &self.context.start
    }
}
