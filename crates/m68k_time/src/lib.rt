//! The law on time: what the MC68000 takes where each of its accesses takes two colour clocks. The
//! definitions say of an instruction which accesses it makes and, at its end, a number of clocks; here is
//! proved what these come to. And two laws on what an answer makes of the walk: where an interrupt begins,
//! and where the processor halts.
#![tactic(auto)]

ghost use Rattle.m68k_time.specs.Time.{InstructionTime, ExceptionTime};
ghost use Rattle.m68k_time.specs.Time.{AddressErrorTime, TraceTime, InterruptTime};
ghost use Rattle.m68k_time.specs.Time.{ResetTime, StoppedTime};
ghost use Rattle.m68k_time.specs.Time.{WalkEnds, WalkBreaksOff, WalkBegins, WalkGoesOn, WalkTime};
ghost use Rattle.m68k_time.specs.Boundaries.{WalkInterrupts, ProgramHalts, WalkHalts};

/// Where each access takes two colour clocks and none is to an odd address, an instruction takes half the
/// clocks that the table of instructions gives for its opcode and its outcome. The same holds of an exception
/// that an instruction leads to, together with the accesses of that instruction; of the entries of an address
/// error, a trace and an interrupt by themselves; of the reset; and of each turn that STOP waits.
pub fn time()
    ensures instructions { InstructionTime }
    ensures exceptions { ExceptionTime }
    ensures address_errors { AddressErrorTime }
    ensures traces { TraceTime }
    ensures interrupts { InterruptTime }
    ensures reset { ResetTime }
    ensures stopped { StoppedTime }
{}

/// The ends that the law speaks of are those of the processor's walk, and it has no others: its answers are
/// exactly the words that its accesses were given since it began. So four clocks for each answer of an
/// instruction that ends and two for each idle clock are the number of its opcode and outcome.
pub fn walk()
    ensures ends { WalkEnds }
    ensures breaks_off { WalkBreaksOff }
    ensures begins { WalkBegins }
    ensures goes_on { WalkGoesOn }
    ensures time { WalkTime }
{}

/// A level is answered exactly where an instruction, an entry or a clock of STOP ended, no trace follows, and
/// the level is above the mask; and it is that of the clock.
pub fn interrupts()
    ensures { WalkInterrupts }
{}

/// The processor halts exactly where an address error comes while one is being taken: a program comes to the
/// halt exactly there, and the walk after an answer is halted exactly where it was, or where the answer
/// brings such an error.
pub fn halts()
    ensures programs { ProgramHalts }
    ensures walk { WalkHalts }
{}
