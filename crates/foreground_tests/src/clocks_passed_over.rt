//! Quiet clocks that the chips and the foreground pass over at once. The expected numbers and words are
//! worked by hand.

ghost use Rattle.std.specs.Prelude.{◌≡◌, ◌≤◌, ◌<◌, ◌+◌, ℕ, [], None, false};
ghost use Rattle.foreground.specs.Fore.{over, IsUnderway};
ghost use Rattle.serial_model.specs.Side.{no_side};

use crate::answers::hold;
use crate::runs::run_of;
use band_draw::Direct;
use band_log::{Raster, Run};
use chip_set::Chips;
use clock_loop::run_to;
use foreground::Fore;
use ocs_base::{Beam, ChipSize, OutOfMemory, Reg};
use out_files::OutFiles;
use serial_model::{NoSide, Side};
use small_runs::out_files;
use std::alloc::Global;
use std::sync::Arc;
use std::test::Fail;

/// One plane in low resolution, fetched at clocks 63, 71 and so on.
const PLANE: [(u16, u16); 6] = [
    (0x08e, 0x2c81),
    (0x090, 0xf4c1),
    (0x092, 0x38),
    (0x094, 0xd0),
    (0x096, 0x8300),
    (0x100, 0x1000),
];

/// DMA of the Copper, which stands before its first instruction.
const COPPER: [(u16, u16); 1] = [(0x096, 0x8280)];

/// A blit of a word, without DMA.
const BLIT: [(u16, u16); 1] = [(0x058, 0x0041)];

/// Clock `h` of line 100.
fn place(h: u16) -> Beam
    ensures { result.h ≡ h }
{
    Beam {
        frame: 0,
        v: 100,
        h,
        lof: true,
    }
}

/// Chips after these writes, with or without a processor at its reset.
fn chips_after(cpu: bool, writes: &[(u16, u16)]) -> Chips {
    let mut chips = Chips::reset(ChipSize::Kib512, cpu);
    for (offset, word) in writes.iter().copied() {
        let _effect = chips.poke(Reg::masked(offset), word);
    }
    chips
}

/// How many of the 50 clocks from clock `h` on they pass over.
fn passed(cpu: bool, writes: &[(u16, u16)], h: u16) -> u16
    requires inner { 0 < h }
    requires room { h ≤ 176 }
{
    let mut chips = chips_after(cpu, writes);
    chips.pass_quiet(&place(h), 22_700 + h as u64, 50)
}

/// All where nobody is at work, none where the processor or the Copper asks for a word, and those before the
/// fetch of a unit that begins. Behind clock 56 no unit begins any more in a line that has none.
#[test]
fn chips_pass_over_quiet_clocks(rt: HostRuntime) {
    let found = [
        passed(false, &[], 10),
        passed(true, &[], 10),
        passed(false, &PLANE, 56),
        passed(false, &PLANE, 57),
        passed(false, &COPPER, 10),
        passed(false, &COPPER, 11),
    ];
    hold(&rt, found == [50, 0, 7, 50, 0, 1]);
}

/// They are where the processor, the Copper or a blit is at work.
#[test]
fn chips_at_work_are_busy(rt: HostRuntime) {
    let found = [
        chips_after(false, &[]).is_busy(),
        chips_after(true, &[]).is_busy(),
        chips_after(false, &COPPER).is_busy(),
        chips_after(false, &BLIT).is_busy(),
    ];
    hold(&rt, found == [false, true, true, true]);
}

/// A run whose Copper waits for clock 60 of line 1, and whose script writes COLOR01 at clock 50 of it. Behind
/// the wait the Copper writes COLOR00.
fn waiting_run(alloc: Global) -> Result<Arc<Run<NoSide>>, Fail> {
    run_of(
        alloc,
        &[0x01, 0x3d, 0xff, 0xfe, 0x01, 0x80, 0x0f, 0x00],
        "at 0 0 0 poke 096 8280\nat 0 1 50 poke 182 0123\n",
        20,
    )
}

/// Does 300 clocks by single calls.
fn run_singly<S: Side, Q: Raster<S>>(
    fore: &mut Fore<S>,
    raster: &mut Q,
    out: &mut OutFiles,
) -> Result<(), OutOfMemory>
    requires fresh { fore.old.spent ≡ false }
    requires fits { (first : ℕ) × IsUnderway (over S.seen fore.old) first
        (Q.seen raster.old) }
{
    for _ in 0..300 {
        if fore.done() {
            return Ok(());
        }
        fore.advance(raster, out)?;
    }
    Ok(())
}

/// The first 300 clocks of a run, singly or by one call.
fn run_clocks<S: Side, Q: Raster<S>>(
    fore: &mut Fore<S>,
    raster: &mut Q,
    out: &mut OutFiles,
    singly: bool,
) -> Result<(), OutOfMemory>
    requires fresh { fore.old.spent ≡ false }
    requires fits { (first : ℕ) × IsUnderway (over S.seen fore.old) first
        (Q.seen raster.old) }
{
    if singly {
        run_singly(fore, raster, out)
    } else {
        run_to(fore, 300, raster, out)
    }
}

/// Where a run stands: the clocks that were done, the line and the clock of it, and the words of registers.
type Stand = (u64, u16, u16, [u16; 3]);

/// Where it stands, with the words of these registers.
fn stand_of(fore: &Fore<NoSide>, offsets: [u16; 3]) -> Stand {
    let beam = fore.beam();
    let regs = fore.regs();
    let words = [
        regs.word(Reg::masked(offsets[0])),
        regs.word(Reg::masked(offsets[1])),
        regs.word(Reg::masked(offsets[2])),
    ];
    (fore.clocks(), beam.v, beam.h, words)
}

/// The same behind its first 300 clocks, singly or by one call.
fn stand_behind<Q: Raster<NoSide>>(
    fore: &mut Fore<NoSide>,
    raster: &mut Q,
    out: &mut OutFiles,
    singly: bool,
    offsets: [u16; 3],
) -> Result<Stand, OutOfMemory>
    requires fresh { fore.old.spent ≡ false }
    requires fits { (first : ℕ) × IsUnderway (over (λ side. no_side) fore.old) first
        (Q.seen raster.old) }
{
    run_clocks(fore, raster, out, singly)?;
    Ok(stand_of(fore, offsets))
}

/// The same of a new run, over a raster that took no band yet.
fn stand_in_run<Q: Raster<NoSide>>(
    alloc: Global,
    run: Arc<Run<NoSide>>,
    raster: &mut Q,
    out: &mut OutFiles,
    singly: bool,
    offsets: [u16; 3],
) -> Result<Stand, OutOfMemory>
    requires empty { (Q.seen raster.old).outstanding ≡ [] }
    requires first { (Q.seen raster.old).next ≡ 0 }
    requires unbound { (Q.seen raster.old).bound ≡ None }
{
    let mut fore = Fore::new(alloc, run)?;
    stand_behind(&mut fore, raster, out, singly, offsets)
}

/// The same over a raster of its own.
fn stand_of_run(
    alloc: Global,
    run: Arc<Run<NoSide>>,
    out: &mut OutFiles,
    singly: bool,
    offsets: [u16; 3],
) -> Result<Stand, OutOfMemory> {
    let mut raster = Direct::new(alloc)?;
    stand_in_run(alloc, run, &mut raster, out, singly, offsets)
}

/// The same with files of its own.
fn stand_alone(
    alloc: Global,
    run: Arc<Run<NoSide>>,
    singly: bool,
    offsets: [u16; 3],
) -> Result<Stand, OutOfMemory> {
    let mut out = out_files(alloc)?;
    stand_of_run(alloc, run, &mut out, singly, offsets)
}

/// The run that waits, singly or by one call, with the words of DMACON, COLOR00 and COLOR01.
fn waiting_stand(alloc: Global, singly: bool) -> Result<Stand, Fail> {
    let run = waiting_run(alloc)?;
    Ok(stand_alone(alloc, run, singly, [0x096, 0x180, 0x182])?)
}

/// Of the 300 clocks 227 are those of line 0. The Copper goes on at clock 60 of line 1, and writes at clock
/// 64.
#[test]
fn a_run_to_a_clock_stands_where_single_clocks_do(rt: HostRuntime) -> Result<(), Fail> {
    let found = [
        waiting_stand(rt.alloc(), false)?,
        waiting_stand(rt.alloc(), true)?,
    ];
    hold(&rt, found == [(300, 1, 73, [0x0280, 0x0f00, 0x0123]); 2]);
    Ok(())
}

/// A run of two planes in low resolution from DDFSTRT 38 to DDFSTOP D0, with a modulo of 6 bytes for plane 1.
fn fetching_run(alloc: Global) -> Result<Arc<Run<NoSide>>, Fail> {
    run_of(
        alloc,
        &[0; 8],
        "at 0 0 1 poke 08e 0081\nat 0 0 2 poke 090 f4c1\nat 0 0 3 poke 092 0038\n\
        at 0 0 4 poke 094 00d0\nat 0 0 5 poke 108 0006\nat 0 0 6 poke 0e2 1000\n\
        at 0 0 7 poke 0e6 2000\nat 0 0 8 poke 100 2000\nat 0 0 9 poke 096 8300\n",
        20,
    )
}

/// The same of the run that fetches, with the low words of the pointers of planes 1 and 2, and BPLCON0.
fn fetching_stand(alloc: Global, singly: bool) -> Result<Stand, Fail> {
    let run = fetching_run(alloc)?;
    Ok(stand_alone(alloc, run, singly, [0x0e2, 0x0e6, 0x100])?)
}

/// Line 0 has twenty units, of 40 bytes a plane. Up to clock 73 of line 1 plane 2 is fetched at clocks 59 and
/// 67, and plane 1 at clocks 63 and 71.
#[test]
fn planes_are_fetched_where_single_clocks_fetch_them(rt: HostRuntime) -> Result<(), Fail> {
    let found = [
        fetching_stand(rt.alloc(), false)?,
        fetching_stand(rt.alloc(), true)?,
    ];
    hold(&rt, found == [(300, 1, 73, [0x1032, 0x202c, 0x2000]); 2]);
    Ok(())
}
