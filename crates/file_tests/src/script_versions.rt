//! The three versions of the text. The texts, lines and kinds are worked by hand from the grammar.

use crate::answers::hold;
use crate::texts::{are_bad, are_printed, is_bad};
use ocs_base::{Act, Script, System};
use script_read::{BadKind, read_script};
use std::alloc::Global;

/// Texts of later versions, and the line that is bad and its kind.
static HEADS: [(&[u8], u32, BadKind); 18] = [
    (b"ocs 4\ncpu on\n", 1, BadKind::Header),
    (b"ocs 0\ncpu on\n", 1, BadKind::Header),
    (b"ocs 2", 2, BadKind::Missing),
    (b"ocs 3\ncpu on\n", 3, BadKind::Missing),
    (b"ocs 3\ncpu up\n", 2, BadKind::Cpu),
    (b"ocs 2\ncpu on\nframes 0\n", 3, BadKind::Frames),
    (b"ocs 2\ncpu off\nframes 1\n", 4, BadKind::Missing),
    (b"ocs 2\ncpu off\nframes 1\nend\n", 4, BadKind::Chip),
    (
        b"ocs 2\ncpu off\nframes 1\nchip 2048\nend\n",
        4,
        BadKind::Chip,
    ),
    (
        b"ocs 3\ncpu off\nframes 1\nchip 0512\nend\n",
        4,
        BadKind::Chip,
    ),
    (b"ocs 2\ncpu off\nframes 1\nchip 512\n", 5, BadKind::Missing),
    (b"ocs 3\ncpu off\nframes 1\nchip 512\n", 5, BadKind::Missing),
    (
        b"ocs 3\ncpu off\nframes 1\nchip 512\nsystem x\nend\n",
        5,
        BadKind::System,
    ),
    (
        b"ocs 3\ncpu off\nframes 1\nchip 512\nend\n",
        5,
        BadKind::System,
    ),
    (
        b"ocs 3\ncpu off\nframes 1\nchip 512\nsystem pal\n",
        6,
        BadKind::Missing,
    ),
    (
        b"ocs 2\ncpu off\nframes 1\nchip 512\nsystem pal\nend\n",
        5,
        BadKind::Event,
    ),
    (
        b"ocs 1\ncpu off\nframes 1\nchip 512\nend\n",
        4,
        BadKind::Event,
    ),
    (
        b"ocs 3\ncpu off\nframes 1\nchip 512\nsystem ntsc\nend\n\n",
        7,
        BadKind::Extra,
    ),
];

#[test]
fn heads_of_later_versions_that_are_bad(rt: HostRuntime) {
    hold(&rt, are_bad(rt.alloc(), &HEADS));
}

/// Texts whose chip memory is told wrongly or late, and the line that is bad and its kind.
static LINES_OF_CHIP_MEMORY: [(&[u8], u32, BadKind); 9] = [
    (b"ocs 2\ncpu on\nframes 2\nchip 2048\n", 4, BadKind::Chip),
    (b"ocs 3\ncpu on\nframes 2\nchip 2048\n", 4, BadKind::Chip),
    (b"ocs 2\ncpu on\nframes 2\nchip 1024 \n", 4, BadKind::Chip),
    (b"ocs 2\ncpu on\nframes 2\nchip 1048576\n", 4, BadKind::Chip),
    (
        b"ocs 2\ncpu on\nframes 2\nat 0 5 6 peek 002\nend\n",
        4,
        BadKind::Chip,
    ),
    (b"ocs 2\ncpu on\nframes 2\nchip 1024\n", 5, BadKind::Missing),
    (
        b"ocs 2\ncpu on\nframes 2\nchip 1024\nat 0 5 6 peek 003\nend\n",
        5,
        BadKind::Event,
    ),
    (
        b"ocs 3\ncpu on\nframes 2\nchip 1024\nend\n",
        5,
        BadKind::System,
    ),
    (
        b"ocs 1\ncpu on\nframes 2\nchip 1024\nend\n",
        4,
        BadKind::Event,
    ),
];

/// The kind is also what is said of the line, as `line 4: chip`.
#[test]
fn lines_of_chip_memory_that_are_bad(rt: HostRuntime) {
    hold(&rt, are_bad(rt.alloc(), &LINES_OF_CHIP_MEMORY));
}

/// Texts, and the bytes of their chip memory.
static CHIP_MEMORIES: [(&[u8], u32); 7] = [
    (b"ocs 1\ncpu off\nframes 1\nend\n", 524_288),
    (b"ocs 2\ncpu off\nframes 1\nchip 512\nend\n", 524_288),
    (b"ocs 2\ncpu off\nframes 1\nchip 1024\nend\n", 1_048_576),
    (
        b"ocs 3\ncpu off\nframes 1\nchip 512\nsystem pal\nend\n",
        524_288,
    ),
    (
        b"ocs 3\ncpu off\nframes 1\nchip 512\nsystem ntsc\nend\n",
        524_288,
    ),
    (
        b"ocs 3\ncpu off\nframes 1\nchip 1024\nsystem pal\nend\n",
        1_048_576,
    ),
    (
        b"ocs 3\ncpu off\nframes 1\nchip 1024\nsystem ntsc\nend\n",
        1_048_576,
    ),
];

/// Whether a text is good, and has this chip memory.
fn has_memory(alloc: Global, text: &[u8], bytes: u32) -> bool {
    match read_script(alloc, text) {
        Ok(script) => script.chip() == bytes,
        Err(_) => false,
    }
}

/// Whether each text is good, and has its chip memory.
fn have_memories(alloc: Global, cases: &[(&[u8], u32)]) -> bool {
    for (text, bytes) in cases {
        if !has_memory(alloc, text, *bytes) {
            return false;
        }
    }
    true
}

#[test]
fn chip_memory_by_text(rt: HostRuntime) {
    hold(&rt, have_memories(rt.alloc(), &CHIP_MEMORIES));
}

/// Whether a script is one of this system with so many frames, and with a processor or not.
fn has_head(script: &Script, system: System, frames: u32, cpu: bool) -> bool {
    script.system() == system && script.frames() == frames && script.cpu() == cpu
}

/// Whether a script of version 2 is read whole.
fn has_both_events(script: &Script) -> bool {
    let events = script.events();
    has_head(script, System::Pal, 2, true)
        && events.len() == 2
        && events[0].act == Act::Key { code: 0x45 }
}

/// Whether a text is good and its script is that.
fn reads_both_events(alloc: Global, text: &[u8]) -> bool {
    match read_script(alloc, text) {
        Ok(script) => has_both_events(&script),
        Err(_) => false,
    }
}

/// The first event of version 2 stands on line 5.
#[test]
fn events_of_version_2(rt: HostRuntime) {
    let text = b"ocs 2\ncpu on\nframes 2\nchip 1024\nat 0 5 6 key 45\nat 1 311 226 peek 002\nend\n";
    let early = b"ocs 2\ncpu on\nframes 2\nchip 1024\nat 0 5 6 key 45\nat 0 5 5 key 45\nend\n";
    let is_read = reads_both_events(rt.alloc(), text);
    hold(&rt, is_read && is_bad(rt.alloc(), early, 6, BadKind::Order));
}

/// Whether the one event of a script is on this line.
fn has_one_event(script: &Script, v: u16) -> bool {
    let events = script.events();
    events.len() == 1 && events[0].v == v
}

/// Whether the script of a text is of NTSC with one frame and no processor, and its one event on line 261.
fn reads_ntsc(alloc: Global, text: &[u8]) -> bool {
    match read_script(alloc, text) {
        Ok(script) => { has_head(&script, System::Ntsc, 1, false) && has_one_event(&script, 261) }
        Err(_) => false,
    }
}

#[test]
fn events_of_ntsc(rt: HostRuntime) {
    let late = b"ocs 3\ncpu off\nframes 1\nchip 512\nsystem ntsc\nat 0 262 0 poke 180 0f00\nend\n";
    let last =
        b"ocs 3\ncpu off\nframes 1\nchip 512\nsystem ntsc\nat 0 261 226 poke 180 0f00\nend\n";
    let is_read = reads_ntsc(rt.alloc(), last);
    hold(&rt, is_read && is_bad(rt.alloc(), late, 6, BadKind::Event));
}

/// Whether the script of a text is of PAL with two frames and a processor, and its one event on line 311.
fn reads_pal(alloc: Global, text: &[u8]) -> bool {
    match read_script(alloc, text) {
        Ok(script) => has_head(&script, System::Pal, 2, true) && has_one_event(&script, 311),
        Err(_) => false,
    }
}

#[test]
fn events_of_pal(rt: HostRuntime) {
    let last = b"ocs 3\ncpu on\nframes 2\nchip 512\nsystem pal\nat 1 311 226 peek 002\nend\n";
    let below = b"ocs 3\ncpu on\nframes 2\nchip 512\nsystem pal\nat 1 312 0 peek 002\nend\n";
    let is_read = reads_pal(rt.alloc(), last);
    hold(&rt, is_read && is_bad(rt.alloc(), below, 6, BadKind::Event));
}

#[test]
fn version_2_is_of_pal(rt: HostRuntime) {
    let second = b"ocs 2\ncpu on\nframes 2\nchip 512\nat 1 311 226 peek 002\nend\n";
    hold(&rt, reads_pal(rt.alloc(), second));
}

/// A script of NTSC.
const NTSC: &[u8] =
    b"ocs 3\ncpu on\nframes 10\nchip 512\nsystem ntsc\nat 0 100 100 poke 180 0f00\nend\n";

/// The same script in each version.
const THIRD: &[u8] = b"ocs 3\ncpu off\nframes 1\nchip 512\nsystem pal\nend\n";

const SECOND: &[u8] = b"ocs 2\ncpu off\nframes 1\nchip 512\nend\n";

const FIRST: &[u8] = b"ocs 1\ncpu off\nframes 1\nend\n";

/// Texts, and what is printed of their scripts.
static LOWEST_VERSIONS: [(&[u8], &[u8]); 4] = [
    (NTSC, NTSC),
    (THIRD, FIRST),
    (SECOND, FIRST),
    (FIRST, FIRST),
];

#[test]
fn the_lowest_version_is_printed(rt: HostRuntime) {
    hold(&rt, are_printed(rt.alloc(), &LOWEST_VERSIONS));
}

/// Whether two kinds have these names.
fn have_names() -> bool {
    BadKind::Chip.name() == "chip" && BadKind::System.name() == "system"
}

#[test]
fn names_of_kinds(rt: HostRuntime) {
    hold(&rt, have_names());
}

/// Scripts of 1 MiB, and what is printed of them.
const SECOND_OF_1_MIB: &[u8] = b"ocs 2\ncpu on\nframes 2\nchip 1024\nat 1 311 226 peek 002\nend\n";

const PAL_OF_1_MIB: &[u8] =
    b"ocs 3\ncpu on\nframes 2\nchip 1024\nsystem pal\nat 1 311 226 peek 002\nend\n";

const NTSC_OF_1_MIB: &[u8] =
    b"ocs 3\ncpu off\nframes 10\nchip 1024\nsystem ntsc\nat 9 261 226 key 0a\nend\n";

static SCRIPTS_OF_1_MIB: [(&[u8], &[u8]); 3] = [
    (SECOND_OF_1_MIB, SECOND_OF_1_MIB),
    (PAL_OF_1_MIB, SECOND_OF_1_MIB),
    (NTSC_OF_1_MIB, NTSC_OF_1_MIB),
];

/// 1 MiB of chip memory is said from version 2 on.
#[test]
fn one_mib_is_printed(rt: HostRuntime) {
    hold(&rt, are_printed(rt.alloc(), &SCRIPTS_OF_1_MIB));
}
