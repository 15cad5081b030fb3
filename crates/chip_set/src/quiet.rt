//! Clocks at which no chip does anything but wait, passed over at once.

ghost use Rattle.std.specs.Prelude.{◌≡◌, ◌⊎◌, ◌≤◌, ◌<◌, ◌+◌, ℕ, false, true, Some, None, is_some, IfSome};
ghost use Rattle.serial_model.specs.Registers.{blitter_dma, copper_dma};
ghost use Rattle.serial_model.specs.State.{Chips as ChipsOf};
ghost use Rattle.bitplane_dma.specs.Rules.{rules_of};
ghost use Rattle.irq_cia.specs.Ticks.{HasNoUnderflow};
ghost use Rattle.cpu_bus.specs.Quiet.{RestsFor, CanCount};
ghost use Rattle.quiet_clocks.specs.PlainClock.{AsksNothingNew};
ghost use Rattle.serial_model.specs.Beam.{later_beam};
ghost use Rattle.quiet_clocks.specs.Ticks.{ticks_in};
ghost use Rattle.chip_set.specs.Chips.{IsChipsOf, plain_chips};
ghost use Rattle.serial_model.specs.PlaneFetch.{IsLastUnit, last_unit_at, is_running, plane_ask, move_planes};
ghost use Rattle.bitplane_dma.specs.Quiet.{IsUnitAt};
ghost use Rattle.chip_set.specs.Chips.{IsPlane};
ghost use Rattle.chip_set.specs.Quiet.{PassesQuiet, AreIdle, AreAtRest, AreLater, HasRested, IsCopperIdle};

use crate::chips::Chips;
use crate::turn::{EXTER, PORTS};
use bitplane_dma::{FetchRules, PlaneAsk, fetch_in_unit};
use ocs_base::Beam;

impl Chips {
    /// Passes over clocks of this line at which nobody asks for the slot and nothing is due, from clock `t`
    /// on, where the beam is there; at most so many. The answer is how many: as many as are known to be
    /// quiet, and nothing hangs on it but how fast a run is. There must be no side that does anything, and
    /// no event of the script must be due in these clocks.
    pub fn pass_quiet(&mut self, beam: &Beam, t: u64, most: u16) -> u16
        requires inner { 0 < beam.now.h }
        requires room { beam.now.h + most ≤ 226 }
        ensures most { result ≤ most }
        ensures none { result ≡ 0 → self.new ≡ self.old }
        ensures quiet { 0 < result → (c : ChipsOf) → IsChipsOf self.old c
            → PassesQuiet beam.now t result c self.new }
    {
        let clocks = self.idle_clocks(beam, t, most);
        if clocks > 0 {
            self.skip(beam, t, clocks);
        }
        clocks
    }

    /// Whether a glance tells that it does not pay to look for quiet clocks here: a blit is under way, the
    /// processor does not wait for four clocks to pass, or the Copper fetches. Nothing hangs on the answer
    /// but how fast a run is.
    #[inline(always)]
    pub fn is_busy(&self) -> bool {
        self.blit.is_some()
            || self.processor.quiet(&self.irq) < 4
            || self.copper.wants().is_some() && self.has_copper_dma()
    }

    /// For how many clocks of this line, from this one on and at most so many, everybody but the planes only
    /// waits, up to the end of the line's last unit at most. Nothing hangs on the answer but how fast a run
    /// is.
    pub fn fetch_clocks(&self, beam: &Beam, t: u64, most: u16) -> u16
        requires inner { 0 < beam.now.h }
        requires room { beam.now.h + most ≤ 226 }
        ensures most { result ≤ most }
        ensures rest { 0 < result → AreAtRest beam.now t result self.now }
        ensures begun { IsLastUnit self.now.last }
    {
        let fetches = self.fetcher.before_last_fetch(beam, &self.registers, most);
        if fetches == 0 {
            return 0;
        }
        self.rest_clocks(beam, t, fetches)
    }

    /// What decides the fetches of the beam's line, by the registers as they are now.
    pub fn fetch_rules(&self, beam: &Beam) -> FetchRules
        ensures { result ≡ rules_of beam.now.v self.now.registers }
    {
        FetchRules::of(beam, &self.registers)
    }

    /// Where the unit of bitplane fetch began that runs at this clock behind a line's first, by what decides the
    /// fetches of the line: one that begins here has begun. None where none runs.
    #[inline(always)]
    pub fn plane_unit(&mut self, rules: &FetchRules, beam: &Beam) -> Option<u16>
        requires inner { 0 < beam.now.h }
        requires rules { rules.now ≡ rules_of beam.now.v self.old.registers }
        ensures last { self.new ≡ record self.old {
          last = last_unit_at beam.now self.old.registers self.old.last;
        } }
        ensures begun { IsLastUnit self.new.last }
        ensures some { IfSome result (λ start. IsUnitAt start beam.now.h self.new.last) }
        ensures none { result ≡ None → is_running beam.now.h self.new.last ≡ false }
    {
        self.fetcher.unit_by(rules, beam)
    }

    /// The fetch of clock `h`, if there is one, of the unit that began at `start` and runs then: the plane's
    /// pointer has moved. The rules stay right.
    #[inline(always)]
    pub fn fetch_in_unit(&mut self, rules: &FetchRules, h: u16, start: u16) -> Option<PlaneAsk>
        requires unit { IsUnitAt start h self.old.last }
        requires begun { IsLastUnit self.old.last }
        requires rules { (v : ℕ) × (rules.now ≡ rules_of v self.old.registers) }
        ensures ask { result ≡ plane_ask h self.old.registers (Some start) }
        ensures able { IfSome result (λ ask. IsPlane ask.plane) }
        ensures moved { self.new ≡ record self.old {
          registers = move_planes h (Some start) self.old.registers;
        } }
        ensures same { (v : ℕ) → rules_of v self.new.registers ≡ rules_of v self.old.registers }
    {
        fetch_in_unit(rules, h, start, &mut self.registers)
    }

    /// The part of everybody else, for so many clocks from clock `t` on at which they only wait.
    pub fn rest(&mut self, t: u64, clocks: u16)
        requires few { clocks ≤ 226 }
        requires counts { CanCount clocks self.old.processor }
        requires timers_a { HasNoUnderflow (ticks_in t clocks) self.old.cia_a }
        requires timers_b { HasNoUnderflow (ticks_in t clocks) self.old.cia_b }
        ensures { HasRested t clocks self.old self.new }
    {
        self.processor.skip(clocks as u32);
        self.missed = 0;
        let ticks = ticks_among(t, clocks);
        self.cia_a.skip(ticks);
        self.cia_b.skip(ticks);
    }

    /// For how many clocks, from this one on and at most so many, they only wait, as far as that is known.
    fn idle_clocks(&self, beam: &Beam, t: u64, most: u16) -> u16
        requires inner { 0 < beam.now.h }
        requires room { beam.now.h + most ≤ 226 }
        ensures most { result ≤ most }
        ensures idle { 0 < result → AreIdle beam.now t result self.now }
    {
        let planes = self.fetcher.quiet(beam, &self.registers, most);
        if planes == 0 {
            return 0;
        }
        self.rest_clocks(beam, t, planes)
    }

    /// The same of everybody but the planes. Who asks most often is asked first.
    fn rest_clocks(&self, beam: &Beam, t: u64, most: u16) -> u16
        requires inner { 0 < beam.now.h }
        requires room { beam.now.h + most ≤ 226 }
        ensures most { result ≤ most }
        ensures rest { 0 < result → AreAtRest beam.now t result self.now }
    {
        if !self.has_blitter_rest() {
            return 0;
        }
        let waits = self.processor_rest(most);
        if waits == 0 || !self.asks_nothing_new() {
            return 0;
        }
        let copper = self.copper_rest(beam, waits);
        if copper == 0 {
            return 0;
        }
        let sprites = self.sprites.quiet(beam, &self.registers, copper);
        self.timers_rest(t, sprites)
    }

    /// Whether the blitter has no blit, or no DMA.
    fn has_blitter_rest(&self) -> bool
        ensures { result ≡ true
            → (blitter_dma self.now.registers ≡ false) ⊎ (self.now.blit ≡ None) }
    {
        self.blit.is_none() || !self.has_blitter_dma()
    }

    /// For how many clocks, at most so many, the processor only waits.
    fn processor_rest(&self, most: u16) -> u16
        ensures most { result ≤ most }
        ensures rests { RestsFor self.now.irq result self.now.processor }
        ensures counts { CanCount result self.now.processor }
    {
        let clocks = self.processor.quiet(&self.irq);
        if clocks < most as u32 {
            clocks as u16
        } else {
            most
        }
    }

    /// Whether the CIAs request no interrupt that is not requested already.
    pub(crate) fn asks_nothing_new(&self) -> bool
        ensures { result ≡ true → AsksNothingNew 0 (plain_chips self.now) }
    {
        let ports = if self.cia_a.line() { PORTS } else { 0 };
        let exter = if self.cia_b.line() { EXTER } else { 0 };
        let requested = self.irq.req();
        requested | ports + exter == requested
    }

    /// For how many clocks of this line, from this one on and at most so many, the Copper has nothing to do.
    pub(crate) fn copper_rest(&self, beam: &Beam, most: u16) -> u16
        requires room { beam.now.h + most ≤ 226 }
        ensures most { result ≤ most }
        ensures idle { (k : ℕ) → k < result → IsCopperIdle (later_beam k beam.now) self.now }
    {
        if !self.has_copper_dma() {
            return most;
        }
        self.copper.quiet(beam, self.blit.is_some(), most)
    }

    /// For how many clocks from clock `t` on, at most so many, no timer underflows.
    fn timers_rest(&self, t: u64, most: u16) -> u16
        requires few { most ≤ 226 }
        ensures most { result ≤ most }
        ensures timers_a { HasNoUnderflow (ticks_in t result) self.now.cia_a }
        ensures timers_b { HasNoUnderflow (ticks_in t result) self.now.cia_b }
    {
        let left = self.cia_a.ticks_left().min(self.cia_b.ticks_left());
        clocks_with(t, left, most)
    }

    /// So many clocks of this line pass from clock `t` on, where the beam is there, at which they only wait.
    fn skip(&mut self, beam: &Beam, t: u64, clocks: u16)
        requires inner { 0 < beam.now.h }
        requires room { beam.now.h + clocks ≤ 226 }
        requires counts { CanCount clocks self.old.processor }
        requires timers_a { HasNoUnderflow (ticks_in t clocks) self.old.cia_a }
        requires timers_b { HasNoUnderflow (ticks_in t clocks) self.old.cia_b }
        ensures { AreLater beam.now t clocks self.old self.new }
    {
        self.fetcher.skip(beam, &self.registers, clocks);
        self.rest(t, clocks);
    }
}

/// The number of ticks of the timers among so many clocks from clock `t` on.
fn ticks_among(t: u64, clocks: u16) -> u16
    requires { clocks ≤ 226 }
    ensures { result ≡ ticks_in t clocks }
{
    let place = (t % 5) as u16;
    (place + clocks + 4) / 5 - (place + 4) / 5
}

/// The greatest number of clocks from clock `t` on, at most so many, with so many ticks of the timers.
fn clocks_with(t: u64, ticks: u16, most: u16) -> u16
    requires { most ≤ 226 }
    ensures most { result ≤ most }
    ensures ticks { ticks_in t result ≤ ticks }
{
    let before_first = (5 - (t % 5) as u16) % 5;
    most.min(5 * ticks.min(46) + before_first)
}
