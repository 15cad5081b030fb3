//! Audio channels step by step.

use crate::answers::hold;
use crate::bench::Step::{Ask, Give, Poke, Quiet, Skip, Still, Tick};
use crate::bench::{ALL, Step, ZERO, passes};
use ocs_base::ChipSize;
use paula_audio::Paula;

/// Registers of channel 0; those of channel n are 10n further on.
const LCH: u16 = 0x0a0;

const LCL: u16 = 0x0a2;

const LEN: u16 = 0x0a4;

const PER: u16 = 0x0a6;

const VOL: u16 = 0x0a8;

/// Whether a Paula with a memory of this size answers as the steps say.
fn answers(size: ChipSize, steps: &[Step]) -> bool {
    passes(&mut Paula::reset(size.bytes()), steps)
}

/// What is heard after the steps, if the channels answer as they say.
fn heard(steps: &[Step]) -> Option<(u8, u8)> {
    let mut paula = Paula::reset(0x8_0000);
    if passes(&mut paula, steps) {
        Some(paula.pair())
    } else {
        None
    }
}

/// The high byte of a word at some volume, as it is heard on the left.
fn byte_at(sample: u16, volume: u16) -> Option<(u8, u8)> {
    heard(&[
        Poke(VOL, volume),
        Poke(LEN, 2),
        Poke(PER, 9),
        Tick(13, ZERO, 0x80),
        Give(sample),
        Tick(14, ZERO, 0),
    ])
}

/// The first word begins at the tick behind its slot, and not at the tick that makes the channel on.
#[test]
fn a_word_begins_behind_its_slot(rt: HostRuntime) {
    let before = &[
        Poke(VOL, 64),
        Poke(LEN, 2),
        Poke(PER, 9),
        Tick(13, ZERO, 0x80),
    ];
    let at_its_slot = &[
        Poke(VOL, 64),
        Poke(LEN, 2),
        Poke(PER, 9),
        Tick(13, ZERO, 0x80),
        Give(0x4000),
    ];
    let mut right = heard(before) == Some((0, 0));
    right &= heard(at_its_slot) == Some((0, 0));
    right &= byte_at(0x4000, 64) == Some((0x20, 0));
    hold(&rt, right);
}

/// What is heard of the word 40C0, each half of which sounds for nine clocks, so many clocks behind the first
/// that it sounds, passed over at once.
fn heard_past(clocks: u16) -> Option<(u8, u8)> {
    heard(&[
        Poke(VOL, 64),
        Poke(LEN, 2),
        Poke(PER, 9),
        Tick(13, ZERO, 0x80),
        Give(0x40c0),
        Tick(14, ZERO, 0),
        Skip(20, ZERO, clocks),
    ])
}

/// The next half begins with the clock at which nine have passed, and sounds on where no word is held then.
#[test]
fn halves_begin_among_clocks_passed_over(rt: HostRuntime) {
    let found = [heard_past(0), heard_past(8), heard_past(9), heard_past(100)];
    let high = Some((0x20, 0));
    let low = Some((0xe0, 0));
    hold(&rt, found == [high, high, low, low]);
}

/// It is quiet up to its own clock where it holds no word, and past it where it holds one up to there; behind
/// it always, and never where a request is due or it begins.
#[test]
fn a_channel_is_quiet_but_for_its_own_clock(rt: HostRuntime) {
    let steps = &[
        Poke(LEN, 2),
        Poke(PER, 90),
        Still(1, 0, 100),
        Still(1, ZERO, 0),
        Tick(13, ZERO, 0x80),
        Still(1, ZERO, 12),
        Still(14, ZERO, 100),
        Give(1),
        Tick(14, ZERO, 0),
        Tick(13, ZERO, 0),
        Give(2),
        Still(1, ZERO, 0),
        Tick(14, ZERO, 0x80),
        Still(1, ZERO, 100),
        Skip(20, ZERO, 80),
        Still(1, ZERO, 12),
    ];
    hold(&rt, answers(ChipSize::Kib512, steps));
}

/// A request that is due is made as the channel goes off; then the channel begins anew.
#[test]
fn a_request_outlives_its_channel(rt: HostRuntime) {
    let steps = &[
        Poke(LCL, 8),
        Poke(LEN, 1),
        Poke(PER, 9),
        Tick(13, ZERO, 0x80),
        Ask(13, ZERO, Some(8)),
        Give(0x4000),
        Tick(14, 0x0200, 0x80),
        Tick(15, 0x0200, 0),
        Ask(13, ZERO, None),
        Tick(16, ZERO, 0x80),
        Tick(17, ZERO, 0),
    ];
    hold(&rt, answers(ChipSize::Kib512, steps));
}

/// What is heard of channel 0 behind a tick with this DMACON.
fn heard_with(dmacon: u16) -> Option<(u8, u8)> {
    heard(&[
        Poke(VOL, 64),
        Poke(LEN, 2),
        Poke(PER, 9),
        Tick(13, ZERO, 0x80),
        Give(0x4000),
        Tick(14, ZERO, 0),
        Tick(15, dmacon & 0x0201, 0),
    ])
}

/// It goes off where DMAEN or its own bit is clear, and is silent then.
#[test]
fn a_channel_that_is_off_is_silent(rt: HostRuntime) {
    let found = [
        heard_with(0x0000),
        heard_with(0x0200),
        heard_with(0x0001),
        heard_with(0x020e),
    ];
    hold(&rt, found == [Some((0, 0)); 4]);
}

/// After the last word the pointer and the length are loaded again, and the next tick requests AUD0.
#[test]
fn a_sample_begins_anew(rt: HostRuntime) {
    let steps = &[
        Poke(LCL, 8),
        Poke(LEN, 2),
        Poke(PER, 1),
        Tick(13, ZERO, 0x80),
        Give(1),
        Tick(14, ZERO, 0),
        Ask(13, ZERO, Some(10)),
        Tick(13, ZERO, 0),
        Give(2),
        Tick(14, ZERO, 0x80),
        Ask(13, ZERO, Some(8)),
    ];
    hold(&rt, answers(ChipSize::Kib512, steps));
}

/// A word goes to the channel whose clock the last tick was, and to none where it was no channel's.
#[test]
fn words_go_by_the_clock(rt: HostRuntime) {
    let to_one = &[
        Poke(LEN + 16, 2),
        Poke(LEN, 2),
        Tick(15, ALL, 0x780),
        Give(7),
        Ask(13, ALL, Some(0)),
        Ask(15, ALL, None),
    ];
    let to_none = &[
        Poke(LEN + 16, 2),
        Poke(LEN, 2),
        Tick(15, ALL, 0x780),
        Tick(14, ALL, 0),
        Give(7),
        Ask(13, ALL, Some(0)),
        Ask(15, ALL, Some(0)),
    ];
    let mut right = answers(ChipSize::Kib512, to_one);
    right &= answers(ChipSize::Kib512, to_none);
    hold(&rt, right);
}

/// A channel that is off or holds a word takes none: its pointer stays.
#[test]
fn a_word_too_many_is_lost(rt: HostRuntime) {
    let held = &[
        Poke(LEN, 3),
        Poke(PER, 1),
        Tick(13, ZERO, 0x80),
        Give(1),
        Give(2),
        Tick(14, ZERO, 0),
        Ask(13, ZERO, Some(2)),
    ];
    let off = &[
        Poke(LEN, 1),
        Tick(13, 0, 0),
        Give(1),
        Tick(13, ZERO, 0x80),
        Tick(14, ZERO, 0),
        Ask(13, ZERO, Some(0)),
    ];
    let mut right = answers(ChipSize::Kib512, held);
    right &= answers(ChipSize::Kib512, off);
    hold(&rt, right);
}

/// What is heard of the channel with this first register, clock, bit of DMACON and of INTREQ.
fn heard_of(first: u16, h: u16, dmacon: u16, bits: u16) -> Option<(u8, u8)> {
    heard(&[
        Poke(first | 2, 8),
        Poke(first | 4, 2),
        Poke(first | 6, 9),
        Poke(first | 8, 64),
        Tick(h, dmacon, bits),
        Ask(h, dmacon, Some(8)),
        Give(0x4000),
        Tick(100, dmacon, 0),
    ])
}

/// Each channel has its own clock, bit, registers and side.
#[test]
fn channels_are_apart(rt: HostRuntime) {
    let found = [
        heard_of(0x0a0, 13, 0x0201, 0x080),
        heard_of(0x0b0, 15, 0x0202, 0x100),
        heard_of(0x0c0, 17, 0x0204, 0x200),
        heard_of(0x0d0, 19, 0x0208, 0x400),
    ];
    let (left, right) = (Some((0x20, 0)), Some((0, 0x20)));
    hold(&rt, found == [left, right, right, left]);
}

/// Bits 6 to 0 of the volume count, and above 64 they are 64.
#[test]
fn volumes_end_at_64(rt: HostRuntime) {
    let mut right = true;
    for (volume, left) in &[
        (0, 0),
        (1, 0),
        (32, 0x10),
        (64, 0x20),
        (0x7f, 0x20),
        (0x80, 0),
        (0xc0, 0x20),
    ] {
        right &= byte_at(0x4000, *volume) == Some((*left, 0));
    }
    hold(&rt, right);
}

/// Levels and half their sums are rounded down: -1 at half the volume is -1, and so is half of it.
#[test]
fn levels_are_rounded_down(rt: HostRuntime) {
    let mut right = true;
    for (sample, volume, left) in &[
        (0xff00, 32, 0xff),
        (0xff00, 64, 0xff),
        (0x0100, 32, 0x00),
        (0x8000, 64, 0xc0),
        (0x7f00, 64, 0x3f),
        (0x8100, 64, 0xc0),
    ] {
        right &= byte_at(*sample, *volume) == Some((*left, 0));
    }
    hold(&rt, right);
}

/// A length of 0 is of 65,536 words, and a period of 0 of 65,536 clocks.
#[test]
fn nothing_means_65536(rt: HostRuntime) {
    let long = &[
        Poke(LCL, 8),
        Tick(13, ZERO, 0x80),
        Give(0x4000),
        Tick(14, ZERO, 0),
        Ask(13, ZERO, Some(10)),
    ];
    let mut right = answers(ChipSize::Kib512, long);
    right &= heard_behind(65_535) == Some((0x20, 0));
    right &= heard_behind(65_536) == Some((0xe0, 0));
    hold(&rt, right);
}

/// What is heard of the word 40C0 with a period of 0, behind so many clocks.
fn heard_behind(clocks: u32) -> Option<(u8, u8)> {
    heard(&[
        Poke(VOL, 64),
        Poke(LEN, 9),
        Tick(13, ZERO, 0x80),
        Give(0x40c0),
        Tick(14, ZERO, 0),
        Quiet(clocks, ZERO),
    ])
}

/// Whether a memory of this size has the address behind 7FFFE there.
fn goes_on_at(size: ChipSize, second: u32) -> bool {
    answers(
        size,
        &[
            Poke(LCH, 0x0007),
            Poke(LCL, 0xffff),
            Poke(LEN, 3),
            Tick(13, ZERO, 0x80),
            Ask(13, ZERO, Some(0x7_fffe)),
            Give(0),
            Tick(14, ZERO, 0),
            Ask(13, ZERO, Some(second)),
        ],
    )
}

/// The pointer wraps at the size of chip memory.
#[test]
fn pointers_wrap_at_the_memory(rt: HostRuntime) {
    let end = &[
        Poke(LCH, 0x000f),
        Poke(LCL, 0xfffe),
        Poke(LEN, 3),
        Tick(13, ZERO, 0x80),
        Give(0),
        Tick(14, ZERO, 0),
        Ask(13, ZERO, Some(0)),
    ];
    let mut right = goes_on_at(ChipSize::Kib512, 0);
    right &= goes_on_at(ChipSize::Mib1, 0x8_0000);
    right &= answers(ChipSize::Mib1, end);
    hold(&rt, right);
}
