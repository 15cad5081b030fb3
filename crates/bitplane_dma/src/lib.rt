//! Bitplane DMA: when a line's units of eight slots begin, which plane each slot fetches, and where
//! the planes' pointers go.
//!
//! The slots of a unit, the two resolutions and the modulos are those of the manual (Hardware
//! Reference Manual, bitplane DMA and data-fetch start and stop). That every test is made with the
//! registers of its own clock is this project's profile.
#![tactic(auto)]

ghost use Rattle.std.specs.Prelude.{◌≡◌, ◌<◌, ◌≤◌, ◌+◌, false, IfSome, Some, None, List, ℕ, Option};
ghost use Rattle.serial_model.specs.PlaneFetch.{units_at, last_unit, last_unit_at, plane_ask, move_planes, IsLastUnit};
ghost use Rattle.serial_model.specs.PlaneFetch.{begins_unit, is_running, fetches_plane, high_resolution, begins_first as first_begins, has_next as next_follows, plane_dma};
ghost use Rattle.serial_model.specs.PlaneFetch.{ask_for_plane, plane_pointer, move_pointer};
ghost use Rattle.serial_model.specs.PlaneFetch.{fetch_start as start_of, fetch_end as end_of, fetched_plane};
ghost use Rattle.serial_model.specs.PlaneFetch.{slot_plane as plane_of_slot, added_bytes as bytes_added, modulo_bytes as bytes_of};
ghost use Rattle.serial_model.specs.Registers.{kept_word, Registers};
ghost use Rattle.quiet_clocks.specs.Plan.{unit_on};
ghost use Rattle.serial_model.specs.Beam.{later_beam};
ghost use Rattle.bitplane_dma.specs.Quiet.{FetchesNothing, IsUnitAt};
ghost use Rattle.bitplane_dma.specs.Rules.{rules_of};
ghost use Rattle.serial_model.specs.Window.{is_window_line as in_window};

mod rules;

use blit_words::even_part;
use ocs_base::offset::{BPL1MOD, BPL2MOD, BPLCON0, DDFSTOP, DDFSTRT, DIWSTOP, DIWSTRT, DMACON};
use ocs_base::{Addr, Beam, Reg};
use reg_file::Regs;
pub use rules::FetchRules;
pub use serial_model::PlaneAsk;
use std::marker::Model;

/// The first clock of a line at which a unit can begin.
const FIRST_FETCH: u16 = 0x18;

/// The planes of the slots of a unit; 0 where a slot has none.
const LOW_RESOLUTION: [u8; 8] = [0, 4, 6, 2, 0, 3, 5, 1];

const HIGH_RESOLUTION: [u8; 8] = [4, 2, 3, 1, 4, 2, 3, 1];

/// Plane fetch between two colour clocks: the clock of the line at which its last unit began, if one did. It
/// stands for the clocks at which the units of the line began.
#[derive(Drop)]
pub struct Fetcher {
    last: Option<u16>,
}

impl Model for Fetcher {
    ghost Value = { Option ℕ };

    ghost view = { λ f. f.last };

    ghost invariant = { λ f. IsLastUnit f.last };
}

impl Fetcher {
    /// No unit has begun.
    pub fn new() -> Fetcher
        ensures { result ≡ None }
    {
        Fetcher { last: None }
    }

    /// The same state once more.
    pub fn copied(&self) -> Fetcher
        ensures { result ≡ self.now }
    {
        Fetcher { last: self.last }
    }

    /// One colour clock, called at each; the units of a line are forgotten at the next one's first
    /// clock.
    ///
    /// The answer is Some exactly where a plane is fetched at this clock: the word at its pointer
    /// is for its latch. The pointer has then moved on by that word and, at the plane's last fetch
    /// of a line's last unit, by its modulo. A plane that asks has its slot before all others that
    /// may ask then.
    #[inline(always)]
    pub fn step(&mut self, beam: &Beam, regs: &mut Regs) -> Option<PlaneAsk>
        ensures units { (units : List ℕ) → self.old ≡ last_unit units →
            self.new ≡ last_unit (units_at beam.now regs.old units) }
        ensures last { self.new ≡ last_unit_at beam.now regs.old self.old }
        ensures begun { IsLastUnit self.new }
        ensures ask { result ≡ plane_ask beam.now.h regs.old self.new }
        ensures moved { regs.new ≡ move_planes beam.now.h self.new regs.old }
    {
        if beam.h != 0 && beam.h < FIRST_FETCH {
            // By the invariant of `last` no unit began so early.
            let _ = &self.last;
            return None;
        }
        self.begin(beam, regs);
        let start = self.last?;
        fetch(beam.h, start, regs)
    }

    /// Where the unit began that runs at this clock, which is not a line's first, by what decides the fetches
    /// of the line: one that begins here has begun. None where none runs.
    #[inline(always)]
    pub fn unit_by(&mut self, rules: &FetchRules, beam: &Beam) -> Option<u16>
        requires inner { 0 < beam.now.h }
        requires rules { (regs : Registers) × (rules.now ≡ rules_of beam.now.v regs) }
        ensures last { (regs : Registers) → rules.now ≡ rules_of beam.now.v regs
            → self.new ≡ last_unit_at beam.now regs self.old }
        ensures begun { IsLastUnit self.new }
        ensures some { IfSome result (λ start. IsUnitAt start beam.now.h self.new) }
        ensures none { result ≡ None → is_running beam.now.h self.new ≡ false }
    {
        if let Some(start) = self.last {
            let slot = beam.h.wrapping_sub(start);
            if slot < 8 {
                return Some(start);
            }
            if slot == 8 && rules.has_next(start) {
                self.last = Some(beam.h);
                return self.last;
            }
        }
        if rules.begins_first(beam.h) {
            self.last = Some(beam.h);
            return self.last;
        }
        None
    }

    /// For how many clocks of this line, from this one on and at most so many, the planes need no slot, while
    /// the registers stay: no plane is fetched. There may be more such clocks behind them.
    #[tactic(auto, using(crate::proofs::Quiet::quiet_off, crate::proofs::Quiet::quiet_in_unit, crate::proofs::Quiet::quiet_between))]
    pub fn quiet(&self, beam: &Beam, regs: &Regs, most: u16) -> u16
        requires inner { 0 < beam.now.h }
        ensures most { result ≤ most }
        ensures quiet { (k : ℕ) → k < result → FetchesNothing k beam.now regs.now self.now }
    {
        if !has_planes(regs) {
            return most;
        }
        match unit_now(self.last, beam, regs) {
            Some(start) if start <= beam.h && beam.h - start < 8 => {
                before_fetch(beam.h - start, regs, most)
            }
            _ => before_unit(self.last, beam, regs, most),
        }
    }

    /// For how many clocks of this line, from this one on and at most so many, no unit begins or runs, while
    /// the registers stay. There may be more such clocks behind them.
    pub fn rest(&self, beam: &Beam, regs: &Regs, most: u16) -> u16
        ensures most { result ≤ most }
        ensures begun { IsLastUnit self.now }
        ensures none { (k : ℕ) → k < result
            → begins_unit (later_beam k beam.now) regs.now self.now ≡ false }
        ensures rest { (k : ℕ) → k < result → is_running (beam.now.h + k) self.now ≡ false }
    {
        before_unit(self.last, beam, regs, most)
    }

    /// Where a unit runs at this clock, how many clocks there are, from this one on and at most so many, up
    /// to the end of the line's last unit by DDFSTOP; else none. Nothing hangs on it but how fast a run is.
    pub fn before_last_fetch(&self, beam: &Beam, regs: &Regs, most: u16) -> u16
        requires { 0 < beam.now.h }
        ensures most { result ≤ most }
        ensures begun { IsLastUnit self.now }
    {
        match unit_now(self.last, beam, regs) {
            Some(start) if start <= beam.h && beam.h - start < 8 => {
                let end = fetch_end(regs).max(start).saturating_add(8);
                most.min(end.saturating_sub(beam.h))
            }
            _ => 0,
        }
    }

    /// So many clocks of this line pass, from this one on, at which no plane is fetched, while the registers
    /// stay: units may have begun.
    pub fn skip(&mut self, beam: &Beam, regs: &Regs, clocks: u16)
        requires inner { 0 < beam.now.h }
        requires room { beam.now.h + clocks ≤ 226 }
        ensures { self.new ≡ unit_on clocks beam.now regs.now self.old }
    {
        self.last = unit_after(self.last, beam, regs, clocks);
    }

    /// Begins a unit where one begins at this clock. All begin at multiples of four.
    #[inline(always)]
    fn begin(&mut self, beam: &Beam, regs: &Regs)
        ensures { self.new ≡ last_unit_at beam.now regs.now self.old }
    {
        let last = self.last;
        if beam.h % 4 != 0 {
            return;
        }
        if beam.h == 0 {
            self.last = None;
        } else if begins(beam, last, regs) {
            self.last = Some(beam.h);
        }
    }
}

/// Whether a unit begins at this clock, where the last one began at `last`.
fn begins(beam: &Beam, last: Option<u16>, regs: &Regs) -> bool
    ensures { result ≡ begins_unit beam.now regs.now last }
{
    if let Some(start) = last {
        if start <= beam.h && beam.h - start < 8 {
            return false;
        }
        if start <= beam.h && beam.h - start == 8 && has_next(start, regs) {
            return true;
        }
    }
    begins_first(beam, regs)
}

/// Whether a unit begins at this clock as the line's first, or as the first of a further train.
fn begins_first(beam: &Beam, regs: &Regs) -> bool
    ensures { result ≡ first_begins beam.now regs.now }
{
    has_dma(regs) && beam.h <= 0xd8 && beam.h == fetch_start(regs) && is_window_line(beam.v, regs)
}

/// Whether any plane is fetched in a unit.
fn has_planes(regs: &Regs) -> bool
    ensures { result ≡ false → (plane : ℕ) → fetches_plane regs.now plane ≡ false }
{
    regs.word(Reg::masked(BPLCON0)) / 0x1000 % 8 != 0 && has_dma(regs)
}

/// Where the last unit began, with what this clock adds.
fn unit_now(last: Option<u16>, beam: &Beam, regs: &Regs) -> Option<u16>
    requires { 0 < beam.now.h }
    ensures { result ≡ last_unit_at beam.now regs.now last }
{
    if begins(beam, last, regs) {
        Some(beam.h)
    } else {
        last
    }
}

/// Where the last unit began by so many clocks on in this line.
fn unit_after(last: Option<u16>, beam: &Beam, regs: &Regs, clocks: u16) -> Option<u16>
    requires inner { 0 < beam.now.h }
    requires room { beam.now.h + clocks ≤ 226 }
    ensures { result ≡ unit_on clocks beam.now regs.now last }
{
    let mut unit = last;
    let mut passed = 0;
    while passed < clocks {
        let later = Beam {
            frame: beam.frame,
            v: beam.v,
            h: beam.h + passed,
            lof: beam.lof,
        };
        passed += pass_unit(&mut unit, &later, regs, clocks - passed);
    }
    unit
}

/// Passes over clocks of this line up to where the next unit begins, or over the one at which it begins; at
/// most so many. The answer is how many.
fn pass_unit(unit: &mut Option<u16>, beam: &Beam, regs: &Regs, most: u16) -> u16
    requires inner { 0 < beam.now.h }
    requires some { 0 < most }
    ensures some { 0 < result }
    ensures most { result ≤ most }
    ensures unit { unit.new ≡ unit_on result beam.now regs.now unit.old }
{
    let stays = stay(*unit, beam, regs, most);
    if stays > 0 {
        return stays;
    }
    *unit = unit_now(*unit, beam, regs);
    1
}

/// For how many clocks of this line, from this one on and at most so many, no unit begins.
fn stay(last: Option<u16>, beam: &Beam, regs: &Regs, most: u16) -> u16
    ensures most { result ≤ most }
    ensures none { (k : ℕ) → k < result
        → begins_unit (later_beam k beam.now) regs.now last ≡ false }
{
    match last {
        Some(start) if start <= beam.h && beam.h - start < 8 => most.min(8 - (beam.h - start)),
        _ => before_unit(last, beam, regs, most),
    }
}

/// For how many clocks of this line, from this one on and at most so many, no unit begins or runs.
fn before_unit(last: Option<u16>, beam: &Beam, regs: &Regs, most: u16) -> u16
    ensures most { result ≤ most }
    ensures none { (k : ℕ) → k < result
        → begins_unit (later_beam k beam.now) regs.now last ≡ false }
    ensures rest { (k : ℕ) → k < result → is_running (beam.now.h + k) last ≡ false }
{
    if let Some(start) = last {
        if beam.h < start || beam.h - start < 8 {
            return 0;
        }
        if beam.h - 8 == start && has_next(start, regs) {
            return 0;
        }
    }
    before_first(beam, regs, most)
}

/// For how many clocks from this slot of a unit on, at most so many, the unit goes on and fetches no plane.
fn before_fetch(slot: u16, regs: &Regs, most: u16) -> u16
    requires { slot < 8 }
    ensures most { result ≤ most }
    ensures within { slot + result ≤ 8 }
    ensures none { (k : ℕ) → k < result →
        fetches_plane regs.now (plane_of_slot (high_resolution regs.now) (slot + k)) ≡ false }
{
    let con0 = regs.word(Reg::masked(BPLCON0));
    let mut clocks = 0;
    while clocks < most && slot + clocks < 8 {
        let plane = slot_plane(con0 >= 0x8000, slot + clocks);
        if plane >= 1 && plane as u16 <= con0 / 0x1000 % 8 {
            return clocks;
        }
        clocks += 1;
    }
    clocks
}

/// For how many clocks of this line, from this one on and at most so many, none begins as the line's first,
/// or as the first of a further train.
fn before_first(beam: &Beam, regs: &Regs, most: u16) -> u16
    ensures most { result ≤ most }
    ensures none { (k : ℕ) → k < result → first_begins (later_beam k beam.now) regs.now ≡ false }
{
    let start = fetch_start(regs);
    if start < beam.h || start > 0xd8 || !has_dma(regs) || !is_window_line(beam.v, regs) {
        return most;
    }
    most.min(start - beam.h)
}

/// Whether a further unit follows the one that began at `start`.
fn has_next(start: u16, regs: &Regs) -> bool
    ensures { result ≡ next_follows regs.now start }
{
    start <= 0xd0 && start < fetch_end(regs)
}

/// The clock at which the first unit of a line begins, by DDFSTRT.
fn fetch_start(regs: &Regs) -> u16
    ensures { result ≡ start_of regs.now }
{
    regs.word(Reg::masked(DDFSTRT)).max(FIRST_FETCH) / 4 * 4
}

/// The clock from which on no unit is followed by another, by DDFSTOP.
fn fetch_end(regs: &Regs) -> u16
    ensures { result ≡ end_of regs.now }
{
    regs.word(Reg::masked(DDFSTOP)).min(0xd8) / 4 * 4
}

/// Whether DMAEN and BPLEN of DMACON are set.
fn has_dma(regs: &Regs) -> bool
    ensures { result ≡ plane_dma regs.now }
{
    regs.word(Reg::masked(DMACON)) & 0x300 == 0x300
}

/// Whether the display window has line `v`: DIWSTRT's line has its bit 8 clear, and bit 8 of DIWSTOP's is the
/// opposite of its bit 7.
fn is_window_line(v: u16, regs: &Regs) -> bool
    ensures { result ≡ in_window v (kept_word regs.now 0x8e) (kept_word regs.now 0x90) }
{
    let stop = regs.word(Reg::masked(DIWSTOP));
    let high = if stop < 0x8000 { 0x100 } else { 0 };
    regs.word(Reg::masked(DIWSTRT)) / 0x100 <= v && v < stop / 0x100 + high
}

/// The fetch of clock `h`, if there is one, where the last unit began at `start`.
fn fetch(h: u16, start: u16, regs: &mut Regs) -> Option<PlaneAsk>
    ensures ask { result ≡ plane_ask h regs.old (Some start) }
    ensures moved { regs.new ≡ move_planes h (Some start) regs.old }
{
    let plane = plane_at(h, start, regs)?;
    let bytes = added_bytes(h, start, plane, regs);
    Some(fetch_word(plane, bytes, regs))
}

/// The fetch of clock `h`, if there is one, of the unit that began at `start` and runs then.
#[inline(always)]
pub fn fetch_in_unit(rules: &FetchRules, h: u16, start: u16, regs: &mut Regs) -> Option<PlaneAsk>
    requires low { start ≤ h }
    requires high { h < start + 8 }
    requires rules { (v : ℕ) × (rules.now ≡ rules_of v regs.old) }
    ensures ask { result ≡ plane_ask h regs.old (Some start) }
    ensures moved { regs.new ≡ move_planes h (Some start) regs.old }
{
    let plane = rules.slot(h - start);
    if plane == 0 {
        return None;
    }
    let bytes = rules.bytes(h, start, plane);
    Some(fetch_word_by(rules, plane, bytes, regs))
}

/// A plane's pointer moves on by a word and so many bytes more; what it was is where the word is.
#[inline(always)]
fn fetch_word(plane: u8, bytes: u32, regs: &mut Regs) -> PlaneAsk
    requires plane { (1 ≤ plane) × (plane ≤ 6) }
    requires below { bytes < 1048576 }
    ensures ask { result ≡ ask_for_plane regs.old plane }
    ensures moved { regs.new ≡ move_pointer (plane_pointer plane) bytes regs.old }
{
    let high = Reg::masked(0xdc + 4 * plane as u16);
    let at = regs.pointer(high);
    regs.set_pointer(high, Addr::sized(at.size, at.raw() + 2 + bytes));
    PlaneAsk { plane, at }
}

/// The same by what decides the fetches of the line, which has the size of chip memory.
#[inline(always)]
fn fetch_word_by(rules: &FetchRules, plane: u8, bytes: u32, regs: &mut Regs) -> PlaneAsk
    requires plane { (1 ≤ plane) × (plane ≤ 6) }
    requires below { bytes < 1048576 }
    requires rules { (v : ℕ) × (rules.now ≡ rules_of v regs.old) }
    ensures ask { result ≡ ask_for_plane regs.old plane }
    ensures moved { regs.new ≡ move_pointer (plane_pointer plane) bytes regs.old }
{
    let high = Reg::masked(0xdc + 4 * plane as u16);
    let at = rules.address(regs.pointer_number(high));
    regs.set_pointer(high, rules.address(at.raw() + 2 + bytes));
    PlaneAsk { plane, at }
}

/// The plane that is fetched at clock `h`, if one is.
fn plane_at(h: u16, start: u16, regs: &Regs) -> Option<u8>
    ensures plane { result ≡ fetched_plane h regs.now (Some start) }
    ensures in_range { IfSome result (λ plane. (1 ≤ plane) × (plane ≤ 6)) }
{
    if h < start || h - start >= 8 || !has_dma(regs) {
        return None;
    }
    let con0 = regs.word(Reg::masked(BPLCON0));
    let plane = slot_plane(con0 >= 0x8000, h - start);
    if plane >= 1 && plane as u16 <= con0 / 0x1000 % 8 {
        Some(plane)
    } else {
        None
    }
}

/// The plane of a slot of a unit, in high or in low resolution; 0 is none.
fn slot_plane(high: bool, slot: u16) -> u8
    requires { slot < 8 }
    ensures { result ≡ plane_of_slot high slot }
{
    if high {
        HIGH_RESOLUTION[slot as usize]
    } else {
        LOW_RESOLUTION[slot as usize]
    }
}

/// How many bytes a plane's fetch at clock `h` adds to its pointer beside the word's two: the
/// modulo where it is the plane's last fetch of a last unit, else none.
fn added_bytes(h: u16, start: u16, plane: u8, regs: &Regs) -> u32
    requires { start ≤ h }
    ensures value { result ≡ bytes_added h regs.now start plane }
    ensures below { result < 1048576 }
{
    let high = regs.word(Reg::masked(BPLCON0)) >= 0x8000;
    if high && h - start < 4 || has_next(start, regs) {
        return 0;
    }
    let modulo = if plane % 2 == 1 { BPL1MOD } else { BPL2MOD };
    modulo_bytes(regs.word(Reg::masked(modulo)))
}

/// How many bytes a modulo moves an address, modulo 1 MiB, of which each span is a part: it is a signed
/// number, whose bit 0 counts as 0.
fn modulo_bytes(word: u16) -> u32
    ensures value { result ≡ bytes_of word }
    ensures below { result < 1048576 }
{
    even_part(word.cast_signed()).rem_euclid(0x10_0000) as u32
}
