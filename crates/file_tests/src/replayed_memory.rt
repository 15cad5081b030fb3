//! Memory that is looked up in the order of clocks: each public call, with numbers worked by hand.

ghost use Rattle.std.specs.Prelude.{◌≡◌, IfOk, OnOk};
ghost use Rattle.mem_versions.specs.MemoryAt.{memory_at};

use crate::answers::{hold, is_so};
use mem_versions::{Chip, MemReplay};
use ocs_base::{Addr, Clock, OutOfMemory};
use std::alloc::Global;

/// What a word is at a clock.
#[derive(Clone, Copy)]
struct Row {
    at: u32,
    clock: u64,
    word: u16,
}

/// What each word is by the writes of `replay_of_writes`, looked up at clocks that rise, stay and fall: at 10
/// hex written at the clocks 2, 4 and 7; at 20 only at clock 8; at 230, on page 1, at clock 1; at 40 never; on
/// page 2 never; and above the memory at clock 9.
const ROWS: [Row; 14] = [
    Row {
        at: 0x10,
        clock: 2,
        word: 0x1234,
    },
    Row {
        at: 0x10,
        clock: 3,
        word: 5,
    },
    Row {
        at: 0x230,
        clock: 3,
        word: 3,
    },
    Row {
        at: 0x10,
        clock: 5,
        word: 6,
    },
    Row {
        at: 0x20,
        clock: 5,
        word: 0,
    },
    Row {
        at: 0x20,
        clock: 10,
        word: 9,
    },
    Row {
        at: 0x10,
        clock: 10,
        word: 8,
    },
    Row {
        at: 0x10,
        clock: 7,
        word: 6,
    },
    Row {
        at: 0x230,
        clock: 1,
        word: 0,
    },
    Row {
        at: 0x40,
        clock: 4,
        word: 0,
    },
    Row {
        at: 0x410,
        clock: 4,
        word: 0,
    },
    Row {
        at: 0x8_0000,
        clock: 10,
        word: 0,
    },
    Row {
        at: 0x10,
        clock: 4,
        word: 5,
    },
    Row {
        at: 0x10,
        clock: 8,
        word: 8,
    },
];

/// The memory of the clocks 0 to 10 with writes of 5, 6 and 8 to one address at the clocks 2, 4 and 7, of 9 to
/// another at clock 8, of 3 to a third at clock 1, of 1 above the memory at clock 9, and of 7 at clock 10, which
/// is kept back.
fn replay_of_writes(chip: &mut Chip) -> Result<MemReplay, OutOfMemory>
    requires newest { chip.old.newest ≡ 0 }
    requires last { chip.old.last ≡ 0 }
    ensures newest { IfOk result (λ replay. chip.new.newest ≡ 10) }
    ensures last { IfOk result (λ replay. chip.new.last ≡ 10) }
    ensures from { IfOk result (λ replay. replay.from ≡ 0) }
    ensures to { IfOk result (λ replay. replay.to ≡ 10) }
    ensures base { IfOk result (λ replay. chip.new.base
        ≡ memory_at replay.to replay.base replay.writes) }
{
    write_up_to_4(chip)?;
    write_up_to_10(chip)?;
    chip.cut_replay(Clock(10))
}

/// The first three of those writes.
fn write_up_to_4(chip: &mut Chip) -> Result<(), OutOfMemory>
    requires { chip.old.newest ≡ 0 }
    ensures newest { OnOk result (chip.new.newest ≡ 4) }
    ensures last { OnOk result (chip.new.last ≡ chip.old.last) }
{
    chip.write(Clock(1), Addr::wide(0x230), 3)?;
    chip.write(Clock(2), Addr::wide(0x10), 5)?;
    chip.write(Clock(4), Addr::wide(0x10), 6)
}

/// The other four.
fn write_up_to_10(chip: &mut Chip) -> Result<(), OutOfMemory>
    requires { chip.old.newest ≡ 4 }
    ensures newest { OnOk result (chip.new.newest ≡ 10) }
    ensures last { OnOk result (chip.new.last ≡ chip.old.last) }
{
    chip.write(Clock(7), Addr::wide(0x10), 8)?;
    chip.write(Clock(8), Addr::wide(0x20), 9)?;
    chip.write(Clock(9), Addr::wide(0x8_0000), 1)?;
    chip.write(Clock(10), Addr::wide(0x10), 7)
}

/// Whether each row is so behind the cut. No row is of a clock behind it.
fn is_resolved(chip: &mut Chip, replay: &MemReplay) -> bool
    requires from { replay.now.from ≡ 0 }
    requires to { replay.now.to ≡ 10 }
    requires base { chip.old.base
        ≡ memory_at replay.now.to replay.now.base replay.now.writes }
{
    for row in &ROWS {
        let clock = Clock(row.clock);
        if clock.0 > 10 || chip.resolve_replay(replay, clock, Addr::wide(row.at)) != row.word {
            return false;
        }
    }
    true
}

/// Whether each row is so where the memory is replayed.
fn is_replayed(replay: &mut MemReplay) -> bool
    requires from { replay.old.from ≡ 0 }
    requires to { replay.old.to ≡ 10 }
{
    for row in &ROWS {
        let clock = Clock(row.clock);
        if clock.0 > 10 || replay.word(clock, Addr::wide(row.at)) != row.word {
            return false;
        }
    }
    true
}

/// Whether the rows are so behind the cut and of the replay, and whether 14 words were read.
fn rows_are_so(alloc: Global) -> Result<bool, OutOfMemory> {
    let mut image = [0; 18];
    image[16] = 0x12;
    image[17] = 0x34;
    let mut chip = Chip::new(alloc, &image)?;
    let mut replay = replay_of_writes(&mut chip)?;
    let behind = is_resolved(&mut chip, &replay);
    Ok(behind && is_replayed(&mut replay) && chip.reads() == 14)
}

#[test]
fn words_of_a_replay(rt: HostRuntime) {
    hold(&rt, is_so(rows_are_so(rt.alloc())));
}

/// Whether of the next band, to which the write of the cut's own clock belongs, the word is 8 at clock 10, 7 at
/// clock 11, and 8 at clock 10 again; and whether of a band without writes it is 7.
fn next_is_so(alloc: Global) -> Result<bool, OutOfMemory> {
    let mut chip = Chip::new(alloc, &[0; 8])?;
    let _first = replay_of_writes(&mut chip)?;
    next_bands_are_so(&mut chip)
}

/// Whether they are so.
fn next_bands_are_so(chip: &mut Chip) -> Result<bool, OutOfMemory>
    requires newest { chip.old.newest ≡ 10 }
    requires last { chip.old.last ≡ 10 }
{
    let mut second = chip.cut_replay(Clock(12))?;
    last_band_is_so(chip, &mut second)
}

/// Whether they are so of the first of them and of the other, which is cut now.
fn last_band_is_so(chip: &mut Chip, second: &mut MemReplay) -> Result<bool, OutOfMemory>
    requires newest { chip.old.newest ≡ 12 }
    requires last { chip.old.last ≡ 12 }
    requires from { second.old.from ≡ 10 }
    requires to { second.old.to ≡ 12 }
{
    let mut third = chip.cut_replay(Clock(20))?;
    Ok(are_8_and_7(second, &mut third))
}

/// Whether the word is 8, 7 and 8 in the first, and 7 in the other.
fn are_8_and_7(second: &mut MemReplay, third: &mut MemReplay) -> bool
    requires second_from { second.old.from ≡ 10 }
    requires second_to { second.old.to ≡ 12 }
    requires third_from { third.old.from ≡ 12 }
    requires third_to { third.old.to ≡ 20 }
{
    let at = Addr::wide(0x10);
    let words = [
        second.word(Clock(10), at),
        second.word(Clock(11), at),
        second.word(Clock(10), at),
        third.word(Clock(15), at),
    ];
    words == [8, 7, 8, 7]
}

/// A write of the cut's own clock belongs to the next band.
#[test]
fn a_write_at_the_cut_of_a_replay(rt: HostRuntime) {
    hold(&rt, is_so(next_is_so(rt.alloc())));
}
