//! Fetches, reads, writes, address errors and the end: what the parts of every row are made of.

ghost use Rattle.std.specs.Prelude.{◌≡◌, ◌≤◌, ◌<◌, ◌+◌, ◌*◌, ◌/◌, ◌%◌, true, false, ℕ, Bool};
ghost use Rattle.m68k_opcodes.specs.declared.operand.Size.TheVariants as S;
ghost use Rattle.m68k_decode.specs.Access.{Prog, Enter, End};
ghost use Rattle.m68k_decode.specs.Registers.{word32};
ghost use Rattle.m68k_decode.specs.Places.{extensions};
ghost use Rattle.m68k_decode.specs.Run.{Run, fault, finish, ended, fetch, place, read, read_word, write, write_word};
ghost use Rattle.m68k_decode.specs.Run.{load, store, merged, address_after, address_before, width_of};
ghost use Rattle.m68k_exec.specs.declared.state.Context.{Context};
ghost use Rattle.m68k_exec.specs.Meaning.{is_memory, meaning, run_of, fetched, valued, written, placed, role_mode, role_size};

use crate::state::{Context, Machine, Part, Role, Step, Then, Use};
use m68k_alu::low_part;
use m68k_decode::{CpuRegs, Place68, Size, Trap, Under};

/// Breaks off what is under way, at an access to an odd address.
#[tactic(auto, unfolding(m68k_decode::specs::Run::fault))]
pub fn raise_address_error(
    context: &Context,
    machine: &mut Machine,
    at: u32,
    read: bool,
    program: bool,
)
    ensures { meaning context.now machine.new
        ≡ fault (run_of context.now machine.old) at read program }
{
    let pc = machine.regs.pc;
    machine.regs = context.start;
    if context.taking {
        machine.step = Step::Broken {
            under: Under::Halted,
        };
        return;
    }
    machine.regs.pc = pc;
    machine.step = Step::Broken {
        under: Under::Entry {
            kind: Trap::AddressError {
                at,
                opcode: context.fetched.opcode,
                read,
                program,
                instruction: context.instruction,
            },
            ea: 0,
            taking: true,
        },
    };
}

/// Ends an instruction after so many clocks.
pub fn end_instruction(machine: &mut Machine, clocks: u32)
    ensures { (c : Context) → meaning c machine.new ≡ ended clocks (run_of c machine.old) }
{
    machine.step = Step::Ended {
        clocks,
        under: Under::Instruction { taking: false },
    };
}

/// Ends an instruction after the clocks of its row.
#[tactic(auto, unfolding(m68k_decode::specs::Run::finish))]
pub fn finish_row(context: &Context, machine: &mut Machine, extra: u32)
    requires { extra ≤ 63 }
    ensures { meaning context.now machine.new ≡ finish extra (run_of context.now machine.old) }
{
    end_instruction(machine, context.fetched.row_clocks(extra));
}

/// Asks for the next word of the program.
#[tactic(auto, unfolding(m68k_decode::specs::Run::fetch, m68k_decode::specs::Run::read_word))]
pub fn fetch_word(context: &Context, machine: &mut Machine, part: Part)
    ensures { meaning context.now machine.new
        ≡ fetch (run_of context.now machine.old)
        (fetched part context.now.fetched.instr machine.old.regs.pc) }
{
    let pc = machine.regs.pc;
    if pc & 1 == 1 {
        raise_address_error(context, machine, pc, true, true);
    } else {
        machine.step = Step::Fetch { part };
    }
}

/// Asks for the extension words of an operand, of which it has one or two.
#[inline(always)]
#[tactic(auto, unfolding(m68k_decode::specs::Run::place))]
pub fn fetch_extension(context: &Context, machine: &mut Machine, words: u8, role: Role)
    requires some { 0 < words }
    requires all { words
        ≡ extensions (role_mode role context.now.fetched.instr)
        (role_size role context.now.fetched.instr) }
    ensures { meaning context.now machine.new
        ≡ place (run_of context.now machine.old) (role_size role context.now.fetched.instr)
        (role_mode role context.now.fetched.instr) (placed role context.now.fetched.instr) }
{
    if words == 1 {
        fetch_word(context, machine, Part::One { role });
    } else {
        fetch_word(context, machine, Part::High { role });
    }
}

/// Asks for a value in memory.
#[inline(always)]
#[tactic(auto, unfolding(m68k_decode::specs::Run::read, m68k_decode::specs::Run::read_word))]
pub fn read_value(
    context: &Context,
    machine: &mut Machine,
    size: Size,
    program: bool,
    at: u32,
    into: Use,
)
    ensures { meaning context.now machine.new
        ≡ read (run_of context.now machine.old) size program at
        (valued into context.now.fetched.instr (run_of context.now machine.old)) }
{
    match size {
        Size::Byte => machine.step = Step::ReadByte { at, into },
        _ if at & 1 == 1 => raise_address_error(context, machine, at, true, program),
        Size::Word => machine.step = Step::ReadWord { at, into },
        Size::Long => machine.step = Step::ReadHigh { at, program, into },
    }
}

/// Asks for the low word of a long.
#[tactic(auto, unfolding(m68k_decode::specs::Run::read_word))]
pub fn read_low_word(
    context: &Context,
    machine: &mut Machine,
    program: bool,
    at: u32,
    high: u16,
    into: Use,
)
    ensures { meaning context.now machine.new
        ≡ read_word (run_of context.now machine.old) program at
        (λ l. valued into context.now.fetched.instr (run_of context.now machine.old)
        (high * 65536 + l)) }
{
    if at & 1 == 1 {
        raise_address_error(context, machine, at, true, program);
    } else {
        machine.step = Step::ReadLow { at, high, into };
    }
}

/// Asks to write a word.
#[tactic(auto, unfolding(m68k_decode::specs::Run::write_word))]
pub fn write_word(context: &Context, machine: &mut Machine, at: u32, word: u16, then: Then)
    ensures { meaning context.now machine.new
        ≡ write_word (run_of context.now machine.old) at word
        (written then context.now.fetched.instr (run_of context.now machine.old)) }
{
    if at & 1 == 1 {
        raise_address_error(context, machine, at, false, false);
    } else {
        machine.step = Step::WriteWord { at, word, then };
    }
}

/// Asks to write a value.
#[tactic(auto, unfolding(m68k_decode::specs::Run::write, m68k_decode::specs::Run::write_word))]
pub fn write_value(
    context: &Context,
    machine: &mut Machine,
    size: Size,
    at: u32,
    value: u32,
    then: Then,
)
    ensures { meaning context.now machine.new
        ≡ write (run_of context.now machine.old) size at value
        (written then context.now.fetched.instr (run_of context.now machine.old)) }
{
    match size {
        Size::Byte => machine.step = Step::WriteByte {
            at,
            byte: (value & 0xff) as u16,
            then,
        },
        _ if at & 1 == 1 => raise_address_error(context, machine, at, false, false),
        Size::Word => machine.step = Step::WriteWord {
            at,
            word: (value & 0xffff) as u16,
            then,
        },
        Size::Long => machine.step = Step::WriteHigh {
            at,
            high: (value >> 16) as u16,
            low: (value & 0xffff) as u16,
            then,
        },
    }
}

/// The value in a register or in the instruction, cut to a size.
#[tactic(auto, unfolding(m68k_decode::specs::Run::load))]
pub fn held_value(regs: &CpuRegs, size: Size, place: Place68) -> u32
    ensures { (t : Run) (program : Bool) (k : ℕ → Prog)
        → t.regs ≡ regs.now
        → is_memory place ≡ false
        → load t size program place k ≡ k result }
{
    match place {
        Place68::Data { reg } => low_part(size, regs.data(reg)),
        Place68::Address { reg } => low_part(size, regs.address(reg)),
        Place68::Value { value } => low_part(size, value),
        Place68::Memory { .. } => 0,
    }
}

/// A data register's number with another low byte, low word or whole.
#[tactic(auto, unfolding(m68k_decode::specs::Run::merged))]
pub fn merged_value(size: Size, old: u32, value: u32) -> u32
    ensures { result ≡ merged size old value }
{
    match size {
        Size::Byte => old - (old & 0xff) + (value & 0xff),
        Size::Word => old - (old & 0xffff) + (value & 0xffff),
        Size::Long => value,
    }
}

/// The address behind a byte, word or long.
pub fn address_after(size: Size, at: u32) -> u32
    ensures { result ≡ address_after size at }
{
    at.wrapping_add(width(size))
}

/// The address of a byte, word or long before another.
pub fn address_before(size: Size, at: u32) -> u32
    ensures { result ≡ address_before size at }
{
    at.wrapping_sub(width(size))
}

/// How many bytes a size has.
fn width(size: Size) -> u32
    ensures bytes { result ≡ width_of size }
    ensures small { result ≤ 4 }
{
    match size {
        Size::Byte => 1,
        Size::Word => 2,
        Size::Long => 4,
    }
}

/// Stores a result, and ends.
#[tactic(auto, unfolding(m68k_decode::specs::Run::store))]
pub fn store_result(
    context: &Context,
    machine: &mut Machine,
    size: Size,
    place: Place68,
    value: u32,
    clocks: u32,
)
    ensures { meaning context.now machine.new
        ≡ store (run_of context.now machine.old) size place value clocks }
{
    match place {
        Place68::Data { reg } => {
            let merged = merged_value(size, machine.regs.data(reg), value);
            machine.regs.set_data(reg, merged);
            end_instruction(machine, clocks);
        }
        Place68::Address { reg } => {
            machine.regs.set_address(reg, value);
            end_instruction(machine, clocks);
        }
        Place68::Value { .. } => end_instruction(machine, clocks),
        Place68::Memory { at } => write_value(
            context,
            machine,
            size,
            at,
            value,
            Then::End { clocks },
        ),
    }
}
