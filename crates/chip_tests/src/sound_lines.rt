//! A sample that is played over some lines.

use crate::answers::hold;
use crate::bench::{Lines, ZERO, clock};
use ocs_base::Reg;
use paula_audio::Paula;
use serial_model::Side;

/// Channel 0 with the sample of one word at 8, 500 clocks a byte, and the full volume.
fn one_word_channel() -> Paula {
    let mut paula = Paula::reset(0x8_0000);
    for (reg, word) in &[
        (0x0a2, 0x0008),
        (0x0a4, 0x0001),
        (0x0a6, 0x01f4),
        (0x0a8, 0x0040),
    ] {
        paula.poke(Reg::masked(*reg), *word);
    }
    paula
}

/// What it does in six lines, while the word at 8 is 40C0.
static SIX_LINES: Lines = Lines {
    requests: &[(0, 0x80), (14, 0x80), (241, 0x80), (1149, 0x80)],
    asks: &[(13, 8, 0x40c0), (240, 8, 0x40c0), (1148, 8, 0x40c0)],
};

/// A word that is held keeps it from asking, so a word is fetched once for two bytes. With a length of 1
/// each word that is given is the last, and the next tick requests AUD0.
#[test]
fn a_word_is_fetched_once_for_two_bytes(rt: HostRuntime) {
    let mut paula = one_word_channel();
    hold(&rt, SIX_LINES.are_met(&mut paula, 6, ZERO, 0x40c0));
}

/// What sounds at clocks 0 and 114 of a line, while the word at 8 is 40C0.
fn sounds_of(paula: &mut Paula, v: u16) -> [(u8, u8); 2] {
    let mut sounds = [(0, 0); 2];
    for h in 0..227 {
        let _answer = clock(paula, v, h, ZERO, 0x40c0);
        if h == 0 {
            sounds[0] = paula.pair();
        }
        if h == 114 {
            sounds[1] = paula.pair();
        }
    }
    sounds
}

/// What sounds at clocks 0 and 114 of six lines: the byte 40 from clock 14 on, C0 from 514 on, and 40 again
/// from 1014 on, each for half on the left.
static SOUNDS: [[(u8, u8); 2]; 6] = [
    [(0, 0), (0x20, 0)],
    [(0x20, 0), (0x20, 0)],
    [(0x20, 0), (0xe0, 0)],
    [(0xe0, 0), (0xe0, 0)],
    [(0xe0, 0), (0x20, 0)],
    [(0x20, 0), (0x20, 0)],
];

#[test]
fn bytes_sound_for_their_period(rt: HostRuntime) {
    let mut paula = one_word_channel();
    let found = [
        sounds_of(&mut paula, 0),
        sounds_of(&mut paula, 1),
        sounds_of(&mut paula, 2),
        sounds_of(&mut paula, 3),
        sounds_of(&mut paula, 4),
        sounds_of(&mut paula, 5),
    ];
    hold(&rt, found == SOUNDS);
}
