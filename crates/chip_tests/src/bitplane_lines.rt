//! Lines of fetches, worked by hand from the manual's tables of slots.

ghost use Rattle.std.specs.Prelude.{◌≡◌, ◌≤◌, ◌<◌, ◌+◌};

use crate::answers::hold;
use crate::written_registers::registers;
use bitplane_dma::{FetchRules, Fetcher, fetch_in_unit};
use ocs_base::{Beam, Reg};
use reg_file::Regs;

/// Does the writes of a clock, each given by its clock, register and word.
fn write_at(regs: &mut Regs, h: u16, writes: &[(u16, u16, u16)]) {
    for (at, offset, word) in writes {
        if *at == h {
            let _effect = regs.poke(Reg::masked(*offset), *word, false);
        }
    }
}

/// Runs a line from its first clock, with register writes at their clocks. The answer is how many fetches
/// there were, and the clock and plane of the first and of the last of them.
fn line(v: u16, regs: &mut Regs, writes: &[(u16, u16, u16)]) -> (u16, (u16, u8), (u16, u8)) {
    let mut fetcher = Fetcher::new();
    let mut count = 0u16;
    let mut first = (0, 0);
    let mut last = (0, 0);
    for h in 0..227 {
        write_at(regs, h, writes);
        let beam = Beam {
            frame: 0,
            v,
            h,
            lof: true,
        };
        if let Some(ask) = fetcher.step(&beam, regs) {
            if count == 0 {
                first = (h, ask.plane);
            }
            last = (h, ask.plane);
            count = count.saturating_add(1);
        }
    }
    (count, first, last)
}

/// How many fetches there are on a line, and the clock and the plane of the first and of the last.
type Fetches = (u16, (u16, u8), (u16, u8));

/// No fetches.
const NONE: Fetches = (0, (0, 0), (0, 0));

/// A line, DDFSTRT, DDFSTOP, the bits of DMACON, BPLCON0, and the fetches.
static FETCHES: [(u16, u16, u16, u16, u16, Fetches); 15] = [
    // One plane and six in low resolution, four in high.
    (0x2c, 0x38, 0xd0, 0x300, 0x1000, (20, (63, 1), (215, 1))),
    (0x2c, 0x38, 0xd0, 0x300, 0x6000, (120, (57, 4), (215, 1))),
    (0x2c, 0x3c, 0xd4, 0x300, 0xc000, (160, (60, 4), (219, 1))),
    // Seven planes are six, and in high resolution five are four.
    (0x2c, 0x38, 0xd0, 0x300, 0x7000, (120, (57, 4), (215, 1))),
    (0x2c, 0x3c, 0xd4, 0x300, 0xd000, (160, (60, 4), (219, 1))),
    // Lines at the ends of the window, and missing DMA.
    (0x2b, 0x38, 0xd0, 0x300, 0x1000, NONE),
    (0xf3, 0x38, 0xd0, 0x300, 0x1000, (20, (63, 1), (215, 1))),
    (0xf4, 0x38, 0xd0, 0x300, 0x1000, NONE),
    (0x2c, 0x38, 0xd0, 0x100, 0x1000, NONE),
    (0x2c, 0x38, 0xd0, 0x200, 0x1000, NONE),
    // The bounds $18 and $D8, and words above them.
    (0x2c, 0x00, 0x00, 0x300, 0x1000, (1, (31, 1), (31, 1))),
    (0x2c, 0x3a, 0xffff, 0x300, 0x1000, (21, (63, 1), (223, 1))),
    (0x2c, 0x3c, 0xd8, 0x300, 0x1000, (20, (67, 1), (219, 1))),
    (0x2c, 0xd8, 0xd8, 0x300, 0x1000, (1, (223, 1), (223, 1))),
    (0x2c, 0xdc, 0xd8, 0x300, 0x1000, NONE),
];

/// The fetches of a line whose window has lines 2C to F3.
fn fetches(v: u16, start: u16, stop: u16, dma: u16, con0: u16) -> Fetches {
    let mut regs = registers(&[
        (0x08e, 0x2c81),
        (0x090, 0xf4c1),
        (0x092, start),
        (0x094, stop),
        (0x096, 0x8000 | dma),
        (0x100, con0),
    ]);
    line(v, &mut regs, &[])
}

#[test]
fn fetches_of_a_line(rt: HostRuntime) {
    let mut right = true;
    for (v, start, stop, dma, con0, want) in &FETCHES {
        right &= fetches(*v, *start, *stop, *dma, *con0) == *want;
    }
    hold(&rt, right);
}

/// DDFSTOP below the running unit ends the train at once, with the modulo, and a later DDFSTRT
/// begins another.
#[test]
fn registers_of_the_moment(rt: HostRuntime) {
    let mut regs = registers(&[
        (0x08e, 0x2c81),
        (0x090, 0x2dc1),
        (0x092, 0x38),
        (0x094, 0xd0),
        (0x096, 0x8300),
        (0x100, 0x1000),
        (0x0e2, 0x1000),
        (0x108, 0x100),
    ]);
    let writes = [(70, 0x094, 0x38), (80, 0x092, 0x80)];
    let found = line(0x12c, &mut regs, &writes);
    hold(
        &rt,
        found == (3, (63, 1), (135, 1)) && regs.word(Reg::masked(0x0e2)) == 0x1206,
    );
}

/// Each plane's pointer moves by its words and once by its modulo, and wraps.
#[test]
fn pointers_after_a_line(rt: HostRuntime) {
    let mut regs = registers(&[
        (0x08e, 0x2c81),
        (0x090, 0xf4c1),
        (0x092, 0x3c),
        (0x094, 0xd4),
        (0x096, 0x8300),
        (0x0e0, 0x0001),
        (0x0e4, 0x0007),
        (0x0e6, 0xfffe),
        (0x100, 0xa000),
        (0x108, 0xfffd),
        (0x10a, 0x0007),
    ]);
    let found = line(0x2c, &mut regs, &[]);
    let words = [
        regs.word(Reg::masked(0x0e0)),
        regs.word(Reg::masked(0x0e2)),
        regs.word(Reg::masked(0x0e4)),
        regs.word(Reg::masked(0x0e6)),
        regs.word(Reg::masked(0x0ea)),
    ];
    hold(
        &rt,
        found == (80, (61, 2), (219, 1)) && words == [1, 0x004c, 0, 0x0054, 0],
    );
}

/// A place of line 2C.
fn place(h: u16) -> Beam
    ensures { result.h ≡ h }
{
    Beam {
        frame: 0,
        v: 0x2c,
        h,
        lof: true,
    }
}

/// Registers with which units begin at clocks 56, 64 and so on to 208 of a line.
fn registers_of_planes(con0: u16) -> Regs {
    registers(&[
        (0x08e, 0x2c81),
        (0x090, 0xf4c1),
        (0x092, 0x38),
        (0x094, 0xd0),
        (0x096, 0x8300),
        (0x100, con0),
    ])
}

/// A fetcher that came to clock `h` of the line by single clocks.
fn fetcher_at(h: u16, regs: &mut Regs) -> Fetcher {
    let mut fetcher = Fetcher::new();
    for clock in 0..h {
        let _ask = fetcher.step(&place(clock), regs);
    }
    fetcher
}

/// For how many clocks from clock `h` on, at most so many, the planes of this word of BPLCON0 need no slot.
fn quiet(con0: u16, h: u16, most: u16) -> u16
    requires inner { 0 < h }
    requires room { h + most ≤ 226 }
{
    let mut regs = registers_of_planes(con0);
    fetcher_at(h, &mut regs).quiet(&place(h), &regs, most)
}

/// One plane is fetched in the last slot of a unit, and six leave the first and the fifth free.
#[test]
fn clocks_without_a_fetch(rt: HostRuntime) {
    let found = [
        quiet(0x0000, 10, 200),
        quiet(0x1000, 40, 16),
        quiet(0x1000, 56, 100),
        quiet(0x1000, 58, 100),
        quiet(0x1000, 63, 100),
        quiet(0x1000, 64, 100),
        quiet(0x1000, 216, 10),
        quiet(0x6000, 56, 100),
        quiet(0x6000, 57, 100),
        quiet(0x6000, 60, 100),
    ];
    hold(&rt, found == [200, 16, 7, 5, 0, 7, 10, 1, 0, 1]);
}

/// The clock of the first fetch behind clocks that were passed over from clock 1 on; 0 where there is none.
fn fetch_behind(clocks: u16) -> u16
    requires { clocks ≤ 225 }
{
    let mut regs = registers_of_planes(0x1000);
    let mut fetcher = Fetcher::new();
    fetcher.skip(&place(1), &regs, clocks);
    for h in 1 + clocks..227 {
        if fetcher.step(&place(h), &mut regs).is_some() {
            return h;
        }
    }
    0
}

/// Units begin among the clocks that are passed over, the first at clock 56 and the last at clock 208.
#[test]
fn units_begin_among_clocks_passed_over(rt: HostRuntime) {
    let found = [
        fetch_behind(50),
        fetch_behind(57),
        fetch_behind(62),
        fetch_behind(100),
        fetch_behind(211),
        fetch_behind(215),
    ];
    hold(&rt, found == [63, 63, 63, 103, 215, 0]);
}

/// How many clocks there are from clock `h` to the end of the last unit, at most 100.
fn before_last_fetch(h: u16) -> u16
    requires { 0 < h }
{
    let mut regs = registers_of_planes(0x1000);
    fetcher_at(h, &mut regs).before_last_fetch(&place(h), &regs, 100)
}

/// The last unit is that of clock 208, which ends before clock 216. No unit runs before clock 56.
#[test]
fn clocks_before_the_last_fetch(rt: HostRuntime) {
    let found = [
        before_last_fetch(50),
        before_last_fetch(60),
        before_last_fetch(150),
        before_last_fetch(215),
        before_last_fetch(216),
    ];
    hold(&rt, found == [0, 100, 66, 1, 0]);
}

/// The low word of plane 1's pointer behind a line, from 1000 (hexadecimal) on, where each clock goes by what
/// decides the line's fetches; BPL1MOD is 6.
fn pointer_by_rules(con0: u16) -> u16 {
    let mut regs = registers_of_planes(con0);
    let _modulo = regs.poke(Reg::masked(0x108), 6, false);
    let _pointer = regs.poke(Reg::masked(0x0e2), 0x1000, false);
    let mut fetcher = Fetcher::new();
    for h in 1..227 {
        let here = place(h);
        let rules = FetchRules::of(&here, &regs);
        if let Some(start) = fetcher.unit_by(&rules, &here) {
            let _ask = fetch_in_unit(&rules, h, start, &mut regs);
        }
    }
    regs.word(Reg::masked(0x0e2))
}

/// Twenty units fetch plane 1 once in low resolution, and twice in high; without planes it stays.
#[test]
fn a_line_by_its_rules(rt: HostRuntime) {
    let found = [
        pointer_by_rules(0x0000),
        pointer_by_rules(0x1000),
        pointer_by_rules(0x6000),
        pointer_by_rules(0x9000),
        pointer_by_rules(0xc000),
    ];
    hold(&rt, found == [0x1000, 0x102e, 0x102e, 0x1056, 0x1056]);
}
