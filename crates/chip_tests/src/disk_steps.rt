//! Disk reading step by step.

use crate::answers::hold;
use crate::bench::Step::{Ask, Give, Poke, Skip, Still, Tick};
use crate::bench::{DISK, Step, passes};
use disk_dma::Disk;
use ocs_base::ChipSize;
use std::alloc::Global;

const PTH: u16 = 0x020;

const PTL: u16 = 0x022;

const LEN: u16 = 0x024;

const SYNC: u16 = 0x07e;

const ADK: u16 = 0x09e;

/// Whether there is memory for a disk with the track 1111 4489 2222 3333, which is no word of DSKSYNC yet,
/// and it answers as the steps say.
fn answers(alloc: Global, size: ChipSize, steps: &[Step]) -> bool {
    let track = [0x11, 0x11, 0x44, 0x89, 0x22, 0x22, 0x33, 0x33];
    match Disk::new(alloc, &track, size.bytes()) {
        Ok(mut disk) => passes(&mut disk, steps),
        Err(_) => false,
    }
}

/// One write of DSKLEN arms alone; the second starts, whatever the first one's length was.
#[test]
fn the_second_write_starts(rt: HostRuntime) {
    let one = &[Poke(LEN, 0x8001), Tick(6, DISK, 0), Ask(7, DISK, None)];
    let two = &[
        Poke(LEN, 0x8000),
        Poke(LEN, 0x8001),
        Tick(6, DISK, 0),
        Ask(7, DISK, Some(0)),
        Give(0),
        Tick(8, DISK, 2),
    ];
    let mut right = answers(rt.alloc(), ChipSize::Kib512, one);
    right &= answers(rt.alloc(), ChipSize::Kib512, two);
    hold(&rt, right);
}

/// It is quiet up to the next word that arrives, at clocks 6 and 120; where a word waits behind its three clocks
/// alone, and never where a transfer is over. The word that arrives among clocks passed over joins.
#[test]
fn a_disk_is_quiet_between_words(rt: HostRuntime) {
    let steps = &[
        Still(1, DISK, 5),
        Still(6, DISK, 0),
        Still(7, DISK, 100),
        Still(100, DISK, 20),
        Poke(LEN, 0x8001),
        Poke(LEN, 0x8001),
        Skip(100, DISK, 21),
        Still(7, DISK, 0),
        Still(12, DISK, 100),
        Ask(7, DISK, Some(0)),
        Give(0),
        Still(12, DISK, 0),
        Tick(13, DISK, 2),
        Still(1, DISK, 5),
    ];
    hold(&rt, answers(rt.alloc(), ChipSize::Kib512, steps));
}

/// It asks at clocks 7, 9 and 11 alone, and only while DMAEN and DSKEN are set.
#[test]
fn three_clocks_are_the_disks(rt: HostRuntime) {
    let steps = &[
        Poke(LEN, 0x8003),
        Poke(LEN, 0x8003),
        Tick(120, DISK, 0),
        Ask(7, DISK, Some(0)),
        Ask(9, DISK, Some(0)),
        Ask(11, DISK, Some(0)),
        Ask(8, DISK, None),
        Ask(13, DISK, None),
        Ask(7, 0x0200, None),
        Ask(7, 0x0010, None),
    ];
    hold(&rt, answers(rt.alloc(), ChipSize::Kib512, steps));
}

/// Whether a write of this word to DSKLEN ends a transfer.
fn is_ended_by(alloc: Global, word: u16) -> bool {
    let steps = [
        Poke(LEN, 0x8003),
        Poke(LEN, 0x8003),
        Tick(6, DISK, 0),
        Poke(LEN, word),
        Ask(7, DISK, None),
        Tick(120, DISK, 0),
        Ask(7, DISK, None),
        Poke(LEN, 0x8001),
        Tick(6, DISK, 0),
        Ask(7, DISK, None),
    ];
    answers(alloc, ChipSize::Kib512, &steps)
}

/// A write with bit 15 clear, or with bit 14 set, ends a transfer and what waits of it.
#[test]
fn a_write_ends_a_transfer(rt: HostRuntime) {
    let mut right = true;
    for word in &[0x0000, 0x4001, 0x7fff, 0xc001] {
        right &= is_ended_by(rt.alloc(), *word);
    }
    hold(&rt, right);
}

/// A write that only arms leaves a running transfer as it is.
#[test]
fn arming_ends_nothing(rt: HostRuntime) {
    let steps = &[
        Poke(LEN, 0x8002),
        Poke(LEN, 0x8002),
        Tick(6, DISK, 0),
        Poke(LEN, 0x8001),
        Ask(7, DISK, Some(0)),
        Give(0),
        Tick(120, DISK, 0),
        Ask(9, DISK, Some(2)),
        Give(0),
        Tick(8, DISK, 2),
    ];
    hold(&rt, answers(rt.alloc(), ChipSize::Kib512, steps));
}

/// A transfer of no words is done at the next tick.
#[test]
fn no_words_are_done_at_once(rt: HostRuntime) {
    let steps = &[
        Poke(LEN, 0x8000),
        Poke(LEN, 0x8000),
        Tick(6, DISK, 2),
        Tick(7, DISK, 0),
        Ask(7, DISK, None),
    ];
    hold(&rt, answers(rt.alloc(), ChipSize::Kib512, steps));
}

/// Three words can wait. A fourth is lost, and still wanted: the word after it takes its place.
#[test]
fn a_lost_word_is_still_wanted(rt: HostRuntime) {
    let steps = &[
        Poke(LEN, 0x8004),
        Poke(LEN, 0x8004),
        Tick(6, DISK, 0),
        Tick(120, DISK, 0),
        Tick(6, DISK, 0),
        Tick(120, DISK, 0),
        Give(0),
        Give(0),
        Give(0),
        Ask(7, DISK, None),
        Tick(8, DISK, 0),
        Tick(6, DISK, 0),
        Ask(7, DISK, Some(6)),
        Give(0),
        Tick(8, DISK, 2),
    ];
    hold(&rt, answers(rt.alloc(), ChipSize::Kib512, steps));
}

/// With WORDSYNC the word of DSKSYNC itself does not join, and requests DSKSYN.
#[test]
fn the_sync_word_opens_the_way(rt: HostRuntime) {
    let steps = &[
        Poke(ADK, 0x8400),
        Poke(SYNC, 0x4489),
        Poke(LEN, 0x8001),
        Poke(LEN, 0x8001),
        Tick(6, DISK, 0),
        Ask(7, DISK, None),
        Tick(120, DISK, 0x1000),
        Ask(7, DISK, None),
        Tick(6, DISK, 0),
        Ask(7, DISK, Some(0)),
    ];
    hold(&rt, answers(rt.alloc(), ChipSize::Kib512, steps));
}

#[test]
fn without_wordsync_every_word_joins(rt: HostRuntime) {
    let steps = &[
        Poke(ADK, 0x8400),
        Poke(ADK, 0x0400),
        Poke(SYNC, 0x4489),
        Poke(LEN, 0x8001),
        Poke(LEN, 0x8001),
        Tick(6, DISK, 0),
        Ask(7, DISK, Some(0)),
    ];
    hold(&rt, answers(rt.alloc(), ChipSize::Kib512, steps));
}

/// DSKSYN is requested at each match, whatever DMACON and DSKLEN say.
#[test]
fn each_match_is_requested(rt: HostRuntime) {
    let steps = &[
        Poke(SYNC, 0x4489),
        Tick(6, 0, 0),
        Tick(120, 0, 0x1000),
        Tick(120, 0, 0),
    ];
    hold(&rt, answers(rt.alloc(), ChipSize::Kib512, steps));
}

/// A start forgets that the word of DSKSYNC has passed.
#[test]
fn a_start_waits_for_the_sync_word(rt: HostRuntime) {
    let steps = &[
        Poke(SYNC, 0x1111),
        Poke(ADK, 0x8400),
        Tick(6, DISK, 0x1000),
        Poke(LEN, 0x8001),
        Poke(LEN, 0x8001),
        Tick(6, DISK, 0),
        Ask(7, DISK, None),
    ];
    hold(&rt, answers(rt.alloc(), ChipSize::Kib512, steps));
}

/// Whether the pointer goes from 7FFFE to one address, and behind a write of its high half to another.
fn goes_to(alloc: Global, size: ChipSize, second: u32, third: u32) -> bool {
    let steps = [
        Poke(PTH, 0x0007),
        Poke(PTL, 0xffff),
        Poke(LEN, 0x8002),
        Poke(LEN, 0x8002),
        Tick(6, DISK, 0),
        Ask(7, DISK, Some(0x7_fffe)),
        Give(0),
        Tick(120, DISK, 0),
        Ask(7, DISK, Some(second)),
        Poke(PTH, 0x000d),
        Ask(7, DISK, Some(third)),
    ];
    answers(alloc, size, &steps)
}

/// The pointer wraps at the size of chip memory, and a write of a half of it leaves the other half as it is
/// by then.
#[test]
fn pointers_wrap_at_the_memory(rt: HostRuntime) {
    let mut right = goes_to(rt.alloc(), ChipSize::Kib512, 0, 0x5_0000);
    right &= goes_to(rt.alloc(), ChipSize::Mib1, 0x8_0000, 0xd_0000);
    hold(&rt, right);
}
