//! Printing a script.

ghost use Rattle.std.specs.Prelude.{◌≡◌, ◌++◌, flat_map, OnOk, OnErr};
ghost use Rattle.script_read.specs.Canonical.{spaced, act_words, event_text, first_text, cpu_text, last_text};
ghost use Rattle.script_read.specs.Canonical.{head_text, script_text, digit_of, HasWords, AllHaveWords};
ghost use Rattle.script_read.specs.code.Extends.{Extends};
ghost use Rattle.script_read.specs.code.Number.{number_text, number_part};
ghost use Rattle.script_read.specs.Printable.{IsPrintable};
ghost use Rattle.script_read.specs.Versions.{lowest};
ghost use Rattle.script_read.specs.Grammar.{script_of, Good};

use ocs_base::{Act, At, ChipSize, OutOfMemory, Reg, Script, System};
use ocs_io::{put_dec, put_hex};

/// A number as a line has it: in decimal, or in hexadecimal digits, three for a register, four for a
/// word and two for the code of a key.
#[derive(Clone, Copy)]
enum Number {
    Decimal(u64),
    Register(Reg),
    Word(u16),
    Code(u8),
}

/// Appends the canonical text of a script, in the lowest version that says it: each line ended by a line
/// feed. It is read again as the same script. After a refusal `into` is as before.
#[tactic(auto, using(crate::proofs::PrintLaws::print_laws))]
pub fn print_script(script: &Script, into: &mut Vec<u8>) -> Result<(), OutOfMemory>
    requires { IsPrintable script.now }
    ensures ok { OnOk result (into.new.items ≡ into.old.items ++ script_text script.now) }
    ensures refused { OnErr result (into.new.items ≡ into.old.items) }
    ensures reads { OnOk result (script_of (script_text script.now) ≡ Good script.now) }
{
    let size = into.len();
    let printed = put_script(script, into);
    if printed.is_err() {
        into.truncate(size);
    }
    printed
}

fn put_script(script: &Script, into: &mut Vec<u8>) -> Result<(), OutOfMemory>
    ensures ok { OnOk result (into.new.items ≡ into.old.items ++ script_text script.now) }
    ensures words { OnOk result (AllHaveWords script.now.events) }
    ensures kept { Extends into.old.items into.new.items }
{
    put_head(script, into)?;
    put_events(script.events(), into)?;
    into.extend_from_slice(b"end\n")?;
    Ok(())
}

fn put_head(script: &Script, into: &mut Vec<u8>) -> Result<(), OutOfMemory>
    ensures ok { OnOk result (into.new.items
        ≡ into.old.items ++ head_text (lowest script.now.chip script.now.system) script.now) }
    ensures kept { Extends into.old.items into.new.items }
{
    let chip = script.chip_size();
    let system = script.system();
    let frames = Number::Decimal(script.frames() as u64);
    into.extend_from_slice(first_line(chip, system))?;
    put_words(cpu_line(script.cpu()), &[frames], into)?;
    into.extend_from_slice(last_lines(chip, system))?;
    Ok(())
}

fn put_events(events: &[At], into: &mut Vec<u8>) -> Result<(), OutOfMemory>
    ensures ok { OnOk result (into.new.items ≡ into.old.items ++ flat_map event_text events.now) }
    ensures words { OnOk result (AllHaveWords events.now) }
    ensures kept { Extends into.old.items into.new.items }
{
    for at in events {
        put_event(at, into)?;
    }
    Ok(())
}

fn put_event(at: &At, into: &mut Vec<u8>) -> Result<(), OutOfMemory>
    ensures ok { OnOk result (into.new.items ≡ into.old.items ++ event_text at.now) }
    ensures words { OnOk result (HasWords at.now.act) }
    ensures kept { Extends into.old.items into.new.items }
{
    let frame = Number::Decimal(at.frame as u64);
    let v = Number::Decimal(at.v as u64);
    let h = Number::Decimal(at.h as u64);
    put_words(b"at", &[frame, v, h], into)?;
    put_act(at.act, into)?;
    into.push(b'\n')?;
    Ok(())
}

/// The words of an act, a space before each.
fn put_act(act: Act, into: &mut Vec<u8>) -> Result<(), OutOfMemory>
    ensures ok { OnOk result (into.new.items ≡ into.old.items ++ spaced (act_words act)) }
    ensures words { HasWords act }
    ensures kept { Extends into.old.items into.new.items }
{
    match act {
        Act::Poke { reg, word } => put_words(
            b" poke",
            &[Number::Register(reg), Number::Word(word)],
            into,
        ),
        Act::Peek { reg } => put_words(b" peek", &[Number::Register(reg)], into),
        Act::Joy { port, word } => put_words(
            b" joy",
            &[Number::Decimal(port as u64), Number::Word(word)],
            into,
        ),
        Act::Fire { port, down } => put_words(
            b" fire",
            &[Number::Decimal(port as u64), Number::Decimal(switch(down))],
            into,
        ),
        Act::Key { code } => put_words(b" key", &[Number::Code(code)], into),
    }
}

/// A word, and numbers after it.
fn put_words(first: &[u8], numbers: &[Number], into: &mut Vec<u8>) -> Result<(), OutOfMemory>
    ensures ok { OnOk result (into.new.items
        ≡ into.old.items ++ (first.now ++ flat_map number_part numbers.now)) }
    ensures kept { Extends into.old.items into.new.items }
{
    into.extend_from_slice(first)?;
    for number in numbers {
        put_number(*number, into)?;
    }
    Ok(())
}

/// A space and a number.
fn put_number(number: Number, into: &mut Vec<u8>) -> Result<(), OutOfMemory>
    ensures ok { OnOk result (into.new.items ≡ into.old.items ++ number_part number) }
    ensures kept { Extends into.old.items into.new.items }
{
    into.push(b' ')?;
    put_digits(number, into)?;
    Ok(())
}

/// The digits of a number. After a refusal `into` is as before.
fn put_digits(number: Number, into: &mut Vec<u8>) -> Result<(), OutOfMemory>
    ensures ok { OnOk result (into.new.items ≡ into.old.items ++ number_text number) }
    ensures refused { OnErr result (into.new.items ≡ into.old.items) }
{
    match number {
        Number::Decimal(n) => put_dec(n, into),
        Number::Register(reg) => put_hex(reg.raw(), 3, into),
        Number::Word(word) => put_hex(word, 4, into),
        Number::Code(code) => put_hex(code as u16, 2, into),
    }
}

/// The first line of the lowest version that says a script for this chip memory and system.
fn first_line(chip: ChipSize, system: System) -> &'static [u8]
    ensures { result.now ≡ first_text chip system }
{
    match system {
        System::Pal => match chip {
            ChipSize::Kib512 => b"ocs 1\n",
            ChipSize::Mib1 => b"ocs 2\n",
        },
        System::Ntsc => b"ocs 3\n",
    }
}

/// The second line, and the third up to its number.
fn cpu_line(cpu: bool) -> &'static [u8]
    ensures { result.now ≡ cpu_text cpu }
{
    if cpu {
        b"cpu on\nframes"
    } else {
        b"cpu off\nframes"
    }
}

/// What follows the number of frames: the end of its line, and the lines that later versions have.
fn last_lines(chip: ChipSize, system: System) -> &'static [u8]
    ensures { result.now ≡ last_text chip system }
{
    match system {
        System::Pal => match chip {
            ChipSize::Kib512 => b"\n",
            ChipSize::Mib1 => b"\nchip 1024\n",
        },
        System::Ntsc => match chip {
            ChipSize::Kib512 => b"\nchip 512\nsystem ntsc\n",
            ChipSize::Mib1 => b"\nchip 1024\nsystem ntsc\n",
        },
    }
}

fn switch(down: bool) -> u64
    ensures { result ≡ digit_of down }
{
    if down { 1 } else { 0 }
}
