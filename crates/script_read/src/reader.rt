//! Reading a script, line by line.

ghost use Rattle.std.specs.Prelude.{◌≡◌, ◌<◌, ◌≤◌, [], ◌∷◌, if◌then◌else◌, OnOk, IfOk, IfSome};
ghost use Rattle.script_read.specs.Split.{lines_of, words_of};
ghost use Rattle.script_read.specs.Grammar.{script_of, from_header, version_in, head_of, frames_in, kept_frames};
ghost use Rattle.script_read.specs.Grammar.{cpu_in, chip_in, system_in, body_of, body_line, after_end};
ghost use Rattle.script_read.specs.Versions.{CpuLine, FramesLine, ChipLine, SystemLine, head_lines, later_lines, blank, begun};
ghost use Rattle.ocs_io.specs.Numbers.{dec_of};
ghost use Rattle.script_read.specs.Printable.{IsPrintable};
ghost use Rattle.script_read.specs.Said.{IsSaid};
ghost use Rattle.script_read.specs.Verdict.{ReadsAs};

use crate::event::read_event;
use crate::fault::{BadKind, ScriptFault};
use crate::parts::{next_line, same_text, two_words};
use crate::version::{Head, Version};
use ocs_base::{At, ChipSize, Script, System};
use ocs_io::dec;
use std::alloc::Global;

/// The greatest size of a script in bytes.
const GREATEST_SIZE: usize = 4_194_304;

/// The greatest number of lines of a script.
const GREATEST_LINE: u32 = 100_000;

/// Reads a script of version 1, 2 or 3, which its version says. `Bad` names the first bad line.
#[tactic(auto, using(crate::proofs::RunnableLaws::runnable_laws), unfolding(crate::specs::Grammar::script_of))]
pub fn read_script(alloc: Global, bytes: &[u8]) -> Result<Script, ScriptFault>
    ensures verdict { ReadsAs (script_of bytes.now) result }
    ensures printable { IfOk result IsPrintable }
    ensures version { IfOk result (IsSaid (lines_of bytes.now)) }
{
    if bytes.len() > GREATEST_SIZE {
        return Err(bad(0, BadKind::Long));
    }
    read_header(alloc, bytes)
}

/// A fault of a line.
fn bad(line: u32, kind: BadKind) -> ScriptFault
    ensures { result ≡ ScriptFault.Bad line kind }
{
    ScriptFault::Bad { line, kind }
}

/// Reads from the first line on.
#[tactic(auto, unfolding(crate::specs::Grammar::from_header))]
fn read_header(alloc: Global, text: &[u8]) -> Result<Script, ScriptFault>
    ensures { ReadsAs (from_header (lines_of text.now)) result }
{
    let Some(line) = next_line(text) else {
        return Err(bad(1, BadKind::Missing));
    };
    match version(line.text) {
        Some(version) => read_cpu(alloc, version, line.rest),
        None => Err(bad(1, BadKind::Header)),
    }
}

/// The version that the first line names.
#[tactic(auto, unfolding(crate::specs::Grammar::version_in))]
fn version(line: &[u8]) -> Option<Version>
    ensures { result ≡ version_in line.now }
{
    if same_text(line, b"ocs 1") {
        Some(Version::One)
    } else if same_text(line, b"ocs 2") {
        Some(Version::Two)
    } else if same_text(line, b"ocs 3") {
        Some(Version::Three)
    } else {
        None
    }
}

/// Reads from the second line on.
#[tactic(auto, unfolding(crate::specs::Grammar::head_of))]
fn read_cpu(alloc: Global, version: Version, text: &[u8]) -> Result<Script, ScriptFault>
    ensures { ReadsAs (head_of (head_lines version) 2 blank (lines_of text.now)) result }
{
    let Some(line) = next_line(text) else {
        return Err(bad(2, BadKind::Missing));
    };
    match cpu(line.text) {
        Some(cpu) => read_frames(alloc, version, cpu, line.rest),
        None => Err(bad(2, BadKind::Cpu)),
    }
}

/// Whether the second line starts the processor.
#[tactic(auto, unfolding(crate::specs::Grammar::cpu_in))]
fn cpu(line: &[u8]) -> Option<bool>
    ensures { result ≡ cpu_in line.now }
{
    if same_text(line, b"cpu on") {
        Some(true)
    } else if same_text(line, b"cpu off") {
        Some(false)
    } else {
        None
    }
}

/// Reads from the third line on.
#[tactic(auto, unfolding(crate::specs::Grammar::head_of))]
fn read_frames(
    alloc: Global,
    version: Version,
    cpu: bool,
    text: &[u8],
) -> Result<Script, ScriptFault>
    ensures { ReadsAs
        (head_of (FramesLine ∷ later_lines version) 3 (record blank { cpu = cpu })
        (lines_of text.now))
        result }
{
    let Some(line) = next_line(text) else {
        return Err(bad(3, BadKind::Missing));
    };
    match frames(line.text) {
        Some(frames) => read_later(alloc, version, plain_head(cpu, frames), line.rest),
        None => Err(bad(3, BadKind::Frames)),
    }
}

/// What a head says that has no later lines: 512 KiB of chip memory, and a PAL machine.
fn plain_head(cpu: bool, frames: u32) -> Head
    ensures { begun result ≡ record blank { cpu = cpu; frames = frames } }
{
    let chip = ChipSize::Kib512;
    let system = System::Pal;
    Head {
        cpu,
        frames,
        chip,
        system,
    }
}

/// The number of frames that the third line names.
#[tactic(auto, using(crate::proofs::FrameLaws::frame_laws))]
fn frames(line: &[u8]) -> Option<u32>
    ensures { result ≡ frames_in (words_of line.now) }
{
    let words = two_words(Some(line))?;
    if same_text(words.first, b"frames") {
        frame_count(words.second)
    } else {
        None
    }
}

/// A number of frames, 1 to 1000.
fn frame_count(text: &[u8]) -> Option<u32>
    ensures { result ≡ kept_frames (dec_of text.now) }
{
    let n = dec(text)?;
    if n < 1 {
        return None;
    }
    if n <= 1000 { Some(n as u32) } else { None }
}

/// Reads from the fourth line on: a later line of the head, or the body.
#[tactic(auto, unfolding(crate::specs::Grammar::head_of))]
fn read_later(
    alloc: Global,
    version: Version,
    head: Head,
    text: &[u8],
) -> Result<Script, ScriptFault>
    ensures { ReadsAs (head_of (later_lines version) 4 (begun head) (lines_of text.now)) result }
{
    match version {
        Version::One => read_body(alloc, head, 4, text),
        Version::Two => read_chip(alloc, head, false, text),
        Version::Three => read_chip(alloc, head, true, text),
    }
}

/// Reads from the line of the chip memory on, which a line of the system may follow.
#[tactic(auto, unfolding(crate::specs::Grammar::head_of))]
fn read_chip(
    alloc: Global,
    head: Head,
    has_system: bool,
    text: &[u8],
) -> Result<Script, ScriptFault>
    ensures { ReadsAs
        (head_of (ChipLine ∷ (if has_system then SystemLine ∷ [] else [])) 4 (begun head)
        (lines_of text.now))
        result }
{
    let Some(line) = next_line(text) else {
        return Err(bad(4, BadKind::Missing));
    };
    let Some(chip) = chip(line.text) else {
        return Err(bad(4, BadKind::Chip));
    };
    let head = Head { chip, ..head };
    if has_system {
        read_system(alloc, head, line.rest)
    } else {
        read_body(alloc, head, 5, line.rest)
    }
}

/// The size of chip memory that a line names.
#[tactic(auto, unfolding(crate::specs::Grammar::chip_in))]
fn chip(line: &[u8]) -> Option<ChipSize>
    ensures { result ≡ chip_in line.now }
{
    if same_text(line, b"chip 512") {
        Some(ChipSize::Kib512)
    } else if same_text(line, b"chip 1024") {
        Some(ChipSize::Mib1)
    } else {
        None
    }
}

/// Reads from the line of the system on.
#[tactic(auto, unfolding(crate::specs::Grammar::head_of))]
fn read_system(alloc: Global, head: Head, text: &[u8]) -> Result<Script, ScriptFault>
    ensures { ReadsAs (head_of (SystemLine ∷ []) 5 (begun head) (lines_of text.now)) result }
{
    let Some(line) = next_line(text) else {
        return Err(bad(5, BadKind::Missing));
    };
    match system(line.text) {
        Some(system) => read_body(alloc, Head { system, ..head }, 6, line.rest),
        None => Err(bad(5, BadKind::System)),
    }
}

/// The system that a line names.
#[tactic(auto, unfolding(crate::specs::Grammar::system_in))]
fn system(line: &[u8]) -> Option<System>
    ensures { result ≡ system_in line.now }
{
    if same_text(line, b"system pal") {
        Some(System::Pal)
    } else if same_text(line, b"system ntsc") {
        Some(System::Ntsc)
    } else {
        None
    }
}

/// Reads the lines after the head, the first of which has the number `first`.
#[tactic(auto, using(crate::proofs::BodyLaws::body_laws))]
fn read_body(alloc: Global, head: Head, first: u32, text: &[u8]) -> Result<Script, ScriptFault>
    ensures { ReadsAs (body_of (begun head) first 0 (lines_of text.now)) result }
{
    let mut script = begin(alloc, head);
    let mut number = first;
    let mut before = 0;
    let mut rest = text;
    while let Some(line) = next_line(rest) {
        let event = match read_line(head, number, before, line.text) {
            Ok(event) => event,
            Err(kind) => return Err(bad(number, kind)),
        };
        let Some(at) = event else {
            return read_end(script, number + 1, line.rest);
        };
        before = at.time();
        if script.push(at).is_err() {
            return Err(ScriptFault::OutOfMemory);
        }
        number += 1;
        rest = line.rest;
    }
    Err(bad(number, BadKind::Missing))
}

/// The script that a head begins, without events.
fn begin(alloc: Global, head: Head) -> Script
    ensures { result ≡ begun head }
{
    Script::made(alloc, head.cpu, head.frames, head.chip.bytes(), head.system)
}

/// Reads a line after the head: an event, or none at the end line.
#[tactic(auto, unfolding(crate::specs::Grammar::body_line))]
fn read_line(head: Head, number: u32, before: u64, line: &[u8]) -> Result<Option<At>, BadKind>
    ensures line { result ≡ body_line head.system head.frames number before line.now }
    ensures number { OnOk result (number ≤ 100000) }
{
    if number > GREATEST_LINE {
        return Err(BadKind::Lines);
    }
    if same_text(line, b"end") {
        return Ok(None);
    }
    let Some(at) = read_event(head.system, head.frames, line) else {
        return Err(BadKind::Event);
    };
    if at.time() < before {
        return Err(BadKind::Order);
    }
    Ok(Some(at))
}

/// The script, where nothing follows its end line.
fn read_end(script: Script, number: u32, rest: &[u8]) -> Result<Script, ScriptFault>
    ensures { ReadsAs (after_end script number (lines_of rest.now)) result }
{
    if next_line(rest).is_none() {
        return Ok(script);
    }
    if number > GREATEST_LINE {
        Err(bad(number, BadKind::Lines))
    } else {
        Err(bad(number, BadKind::Extra))
    }
}
