//! Places of three scenes; the numbers are worked by hand from the rules.

use crate::answers::hold;
use ocs_base::{Act, At, Reg, Script};
use scene_gen::scene;
use std::alloc::Global;

fn word_at(image: &[u8], address: usize) -> Option<u16> {
    let high = image.get(address)?;
    let low = image.get(address.saturating_add(1))?;
    Some(u16::from_be_bytes([*high, *low]))
}

fn poke(frame: u32, v: u16, h: u16, register: u16, word: u16) -> At {
    let reg = Reg::masked(register);
    At {
        frame,
        v,
        h,
        act: Act::Poke { reg, word },
    }
}

/// Whether an image has each of these words at its address.
fn has_words(image: &[u8], words: &[(usize, u16)]) -> bool {
    for (address, want) in words {
        if word_at(image, *address) != Some(*want) {
            return false;
        }
    }
    true
}

/// Whether the image of a scene has 48 KiB, and each of these words at its address.
fn has_image(alloc: Global, number: u32, words: &[(usize, u16)]) -> bool {
    match scene(alloc, number) {
        Ok((image, _)) => image.len() == 49_152 && has_words(image.as_slice(), words),
        Err(_) => false,
    }
}

/// Addresses and words of scene 0.
static WORDS_OF_SCENE_0: [(usize, u16); 36] = [
    (0x000, 0x0000),
    (0x002, 0x2000),
    (0x006, 0x0100),
    (0x008, 0x0000),
    (0x06e, 0x0140),
    (0x100, 0x33fc),
    (0x110, 0x60fa),
    (0x112, 0x0000),
    (0x140, 0x3039),
    (0x15e, 0x4e73),
    (0x300, 0x3c40),
    (0x302, 0x4c00),
    (0x304, 0xffff),
    (0x342, 0x0f0f),
    (0x344, 0x0000),
    (0x400, 0x0120),
    (0x406, 0x0300),
    (0x408, 0x0124),
    (0x40e, 0x0344),
    (0x440, 0x00e0),
    (0x446, 0x4000),
    (0x45e, 0xa000),
    (0x460, 0x3001),
    (0x462, 0xfffe),
    (0x464, 0x0182),
    (0x466, 0x0000),
    (0x46c, 0x0184),
    (0x46e, 0x0123),
    (0x4d8, 0xa801),
    (0x4dc, 0x0182),
    (0x4de, 0x010d),
    (0x4e0, 0xffff),
    (0x4e4, 0x0000),
    (0x3ffe, 0x0000),
    (0x4000, 0x4041),
    (0xbffe, 0xbdbe),
];

#[test]
fn image_of_scene_0(rt: HostRuntime) {
    hold(&rt, has_image(rt.alloc(), 0, &WORDS_OF_SCENE_0));
}

/// Addresses and words of scene 5.
static WORDS_OF_SCENE_5: [(usize, u16); 4] = [
    (0x300, 0x3c45),
    (0x466, 0x00b9),
    (0x4000, 0x404b),
    (0xbffe, 0xa9b4),
];

#[test]
fn image_of_scene_5(rt: HostRuntime) {
    hold(&rt, has_image(rt.alloc(), 5, &WORDS_OF_SCENE_5));
}

/// Addresses and words of the last scene.
static WORDS_OF_THE_LAST_SCENE: [(usize, u16); 5] = [
    (0x300, 0x3c7f),
    (0x466, 0x0fdb),
    (0x46e, 0x00fe),
    (0x4000, 0x403f),
    (0xbffe, 0xc1c0),
];

#[test]
fn image_of_the_last_scene(rt: HostRuntime) {
    hold(
        &rt,
        has_image(rt.alloc(), u32::MAX, &WORDS_OF_THE_LAST_SCENE),
    );
}

/// Frame, line, clock, register and word of a write.
type Write = (u32, u16, u16, u16, u16);

/// Whether a script has each of these writes at its place.
fn has_writes(script: &Script, writes: &[(usize, Write)]) -> bool {
    for (place, write) in writes {
        let want = poke(write.0, write.1, write.2, write.3, write.4);
        if script.events().get(*place) != Some(&want) {
            return false;
        }
    }
    true
}

/// Places and writes of scene 0.
static WRITES_OF_SCENE_0: [(usize, Write); 9] = [
    (0, (0, 0, 0, 0x08e, 0x2c81)),
    (12, (0, 0, 0, 0x096, 0x83e0)),
    (14, (0, 200, 100, 0x180, 0x0000)),
    (15, (1, 100, 0, 0x040, 0x09f0)),
    (19, (1, 100, 0, 0x052, 0x4b00)),
    (21, (1, 100, 0, 0x056, 0x5d00)),
    (22, (1, 100, 0, 0x058, 0x0210)),
    (24, (1, 200, 101, 0x180, 0x0111)),
    (104, (9, 200, 109, 0x180, 0x0999)),
];

/// Whether a script is one of ten frames with a processor, for 512 KiB, of 105 events.
fn is_of_105_events(script: &Script) -> bool {
    let has_head = script.cpu() && script.frames() == 10 && script.chip() == 524_288;
    has_head && script.events().len() == 105
}

/// Whether CLXDAT is read in the last frame of a script.
fn has_last_peek(script: &Script) -> bool {
    let peek = At {
        frame: 9,
        v: 150,
        h: 0,
        act: Act::Peek {
            reg: Reg::masked(0x00e),
        },
    };
    script.events().get(103) == Some(&peek)
}

/// Whether the script of a scene is one of 105 events that reads CLXDAT at last, and has each of these writes
/// at its place.
fn has_script(alloc: Global, number: u32, writes: &[(usize, Write)]) -> bool {
    match scene(alloc, number) {
        Ok((_, script)) => {
            is_of_105_events(&script) && has_writes(&script, writes) && has_last_peek(&script)
        }
        Err(_) => false,
    }
}

#[test]
fn script_of_scene_0(rt: HostRuntime) {
    hold(&rt, has_script(rt.alloc(), 0, &WRITES_OF_SCENE_0));
}

/// Places and writes of the last scene.
static WRITES_OF_THE_LAST_SCENE: [(usize, Write); 6] = [
    (14, (0, 200, 100, 0x180, 0x0fff)),
    (19, (1, 100, 0, 0x052, 0x4a00)),
    (21, (1, 100, 0, 0x056, 0x5a00)),
    (99, (9, 100, 0, 0x052, 0xa200)),
    (101, (9, 100, 0, 0x056, 0x4200)),
    (104, (9, 200, 109, 0x180, 0x0998)),
];

#[test]
fn script_of_the_last_scene(rt: HostRuntime) {
    hold(
        &rt,
        has_script(rt.alloc(), u32::MAX, &WRITES_OF_THE_LAST_SCENE),
    );
}
