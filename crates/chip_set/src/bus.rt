//! Clocks that refresh, sprites and the Copper leave to the planes, the blitter and the processor.

ghost use Rattle.std.specs.Prelude.{◌≡◌, ◌≤◌, ◌<◌, ◌+◌, ◌&&◌, ℕ, true, false, None, is_some, IfSome};
ghost use Rattle.bitplane_dma.specs.Quiet.{IsUnitAt};
ghost use Rattle.bitplane_dma.specs.Rules.{rules_of};
ghost use Rattle.ocs_base.specs.declared.beam.Beam.{Beam as BeamOf};
ghost use Rattle.serial_model.specs.Bus.{blit_owner_ask, processor_ask as processor_ask_of};
ghost use Rattle.quiet_clocks.specs.PlainClock.{comes_first};
ghost use Rattle.serial_model.specs.Beam.{later_beam};
ghost use Rattle.serial_model.specs.PlaneFetch.{IsLastUnit, last_unit_at, is_running};
ghost use Rattle.serial_model.specs.Side.{IsInTime};
ghost use Rattle.serial_model.specs.State.{Chips as ChipsOf};
ghost use Rattle.serial_model.specs.Bus.{ask_at};
ghost use Rattle.serial_model.specs.declared.bus.SideAsk.{SideAsk};
ghost use Rattle.serial_model.specs.declared.bus.Ask.TheVariants as A;
ghost use Rattle.cpu_bus.specs.Bus.{wish_shown};
ghost use Rattle.quiet_clocks.specs.FetchClocks.{fetching_after, ask_of_fetching};
ghost use Rattle.chip_set.specs.Chips.{IsChipsOf, HasAsked, HasAccessed, CanAsk, CanDo, WorkingChips, plain_chips, IsAnswer, IsBlitAsk, kept_wish, late_ask as asked_late};
ghost use Rattle.chip_set.specs.Chips.{reads_by_chips, read_by, IsPlane};
ghost use Rattle.chip_set.specs.Quiet.{fetching_in, with_fetching};
ghost use Rattle.chip_set.specs.Bus.{LeavesToPlanes, LeavesBeside, LeaveBus, KeepsOnBus, KeepsBeside, KeepsCias};
ghost use Rattle.chip_set.specs.Bus.{IsClaim, IsUnitKept};
ghost use Rattle.chip_set.specs.Bus.{ask_beside_planes, is_bus_ask, is_bus_made};

use crate::chips::{Chips, read_for_blit};
use bitplane_dma::{FetchRules, PlaneAsk};
use blitter::SlotAsk;
use bus_slots::asks::{made_by, slot_ask};
use mem_versions::Chip;
use ocs_base::{Addr, Beam};
use serial_model::{Ask, CopperAct, Made, ProcessorAsk};

/// So few clocks behind the last fetch of a line are no run of their own.
const FEW: u16 = 16;

/// Whether the blitter asks for the slots of such clocks, and whether it gives way to a processor that has
/// missed three clocks. Both stay as long as such clocks go on.
#[derive(Clone, Copy)]
pub struct BlitterClaim {
    asks: bool,
    yields: bool,
}

impl BlitterClaim {
    /// Whether the blitter asks.
    #[inline(always)]
    pub fn asks(&self) -> bool
        ensures { result ≡ self.now.asks }
    {
        self.asks
    }
}

/// The unit of bitplane fetch that runs: it began at clock `start` of the line, and has the clocks before
/// `until`; none where that is past.
#[derive(Clone, Copy)]
pub struct Unit {
    pub start: u16,
    pub until: u16,
}

impl Unit {
    /// None yet.
    #[inline(always)]
    pub fn none() -> Unit
        ensures { result ≡ record { start = 0; until = 0 } }
    {
        Unit { start: 0, until: 0 }
    }
}

impl Chips {
    /// For how many clocks of this line, from this one on and at most so many, neither refresh nor sprites
    /// and the Copper need the slot, while their registers and the Copper stay and no blit begins or ends;
    /// and by what the planes have their slots in them, None where they need none. Nothing hangs on the
    /// answer but how fast a run is.
    pub fn bus_clocks(&self, beam: &Beam, most: u16) -> (u16, Option<FetchRules>)
        requires inner { 0 < beam.now.h }
        requires room { beam.now.h + most ≤ 226 }
        ensures most { result.0 ≤ most }
        ensures leave { 0 < result.0 → LeaveBus result.1 beam.now result.0 self.now }
    {
        let clocks = self.clocks_beside_planes(beam, most);
        if clocks == 0 {
            return (0, None);
        }
        let alone = self.fetcher.rest(beam, &self.registers, clocks);
        if alone > 0 {
            return (alone, None);
        }
        let fetches = self
            .fetcher
            .before_last_fetch(beam, &self.registers, clocks);
        (
            with_few_behind(fetches, clocks),
            Some(self.fetch_rules(beam)),
        )
    }

    /// The same, whatever slots the planes need.
    fn clocks_beside_planes(&self, beam: &Beam, most: u16) -> u16
        requires inner { 0 < beam.now.h }
        requires room { beam.now.h + most ≤ 226 }
        ensures most { result ≤ most }
        ensures leave { IsLastUnit self.now.last → (k : ℕ) → k < result
            → LeavesToPlanes (later_beam k beam.now) self.now }
    {
        if beam.h < 6 || 225 <= beam.h {
            return 0;
        }
        let copper = self.copper_rest(beam, most.min(225 - beam.h));
        if copper == 0 {
            return 0;
        }
        self.sprites.quiet(beam, &self.registers, copper)
    }

    /// The planes' part of such a clock, by what they have their slots in it: the plane that has its slot, if one
    /// has; else the blitter or the processor may (`has_blitter_turn`). `answer_on_bus` is to be called next. The
    /// unit of bitplane fetch that runs is kept for the clocks behind this one.
    #[inline(always)]
    pub fn ask_on_bus(
        &mut self,
        rules: &FetchRules,
        beam: &Beam,
        unit: &mut Unit,
    ) -> Option<PlaneAsk>
        requires leaves { LeavesBeside (Some rules.now) beam.now self.old }
        requires unit { IsUnitKept unit.old beam.now.h self.old.last }
        ensures ask { (c : ChipsOf) → IsChipsOf self.old c
            → ask_beside_planes result beam.now self.new ≡ ask_at SideAsk.Nothing beam.now c }
        ensures chips { (c : ChipsOf) → IsChipsOf self.old c → HasAsked beam.now c self.new }
        ensures able { CanAsk (ask_beside_planes result beam.now self.new) }
        ensures wish { IsBlitAsk (ask_beside_planes result beam.now self.new)
            (kept_wish self.new) }
        ensures leaves { LeavesToPlanes beam.now self.new }
        ensures kept { KeepsBeside (Some rules.now) self.old self.new }
        ensures cias { KeepsCias self.old self.new }
        ensures unit { IsUnitKept unit.new (beam.now.h + 1) self.new.last }
    {
        self.fetch_plane(rules, beam, unit)
    }

    /// The planes' part of such a clock in which they have no slot: the blitter or the processor may have it.
    /// Nothing is done.
    #[inline(always)]
    pub fn ask_without_planes(&self, beam: &Beam, unit: &Unit)
        requires leaves { LeavesBeside None beam.now self.now }
        requires unit { IsUnitKept unit.now beam.now.h self.now.last }
        ensures ask { (c : ChipsOf) → IsChipsOf self.now c
            → ask_beside_planes None beam.now self.now ≡ ask_at SideAsk.Nothing beam.now c }
        ensures chips { (c : ChipsOf) → IsChipsOf self.now c → HasAsked beam.now c self.now }
        ensures able { CanAsk (ask_beside_planes None beam.now self.now) }
        ensures wish { IsBlitAsk (ask_beside_planes None beam.now self.now) (kept_wish self.now) }
        ensures leaves { LeavesToPlanes beam.now self.now }
        ensures unit { IsUnitKept unit.now (beam.now.h + 1) self.now.last }
    {}

    /// The planes' part of a clock behind a line's first, by what decides the fetches of the line: the plane
    /// that is fetched at it, if one is, whose pointer has moved then. The rules stay right, and the unit that
    /// runs is kept.
    #[inline(always)]
    fn fetch_plane(&mut self, rules: &FetchRules, beam: &Beam, unit: &mut Unit) -> Option<PlaneAsk>
        requires inner { 0 < beam.now.h }
        requires begun { IsLastUnit self.old.last }
        requires rules { rules.now ≡ rules_of beam.now.v self.old.registers }
        requires unit { IsUnitKept unit.old beam.now.h self.old.last }
        ensures ask { result ≡ ask_of_fetching beam.now (fetching_in self.old) }
        ensures able { IfSome result (λ ask. IsPlane ask.plane) }
        ensures moved { self.new
            ≡ with_fetching (fetching_after beam.now (fetching_in self.old)) self.old }
        ensures next { IsLastUnit self.new.last }
        ensures same { rules.now ≡ rules_of beam.now.v self.new.registers }
        ensures unit { IsUnitKept unit.new (beam.now.h + 1) self.new.last }
    {
        let start = self.kept_unit(rules, beam, unit)?;
        self.fetch_in_unit(rules, beam.h, start)
    }

    /// As `plane_unit`, which is asked only where the unit that is kept is past; the one that runs then is
    /// kept.
    #[inline(always)]
    fn kept_unit(&mut self, rules: &FetchRules, beam: &Beam, unit: &mut Unit) -> Option<u16>
        requires inner { 0 < beam.now.h }
        requires begun { IsLastUnit self.old.last }
        requires rules { rules.now ≡ rules_of beam.now.v self.old.registers }
        requires unit { IsUnitKept unit.old beam.now.h self.old.last }
        ensures last { self.new ≡ record self.old {
          last = last_unit_at beam.now self.old.registers self.old.last;
        } }
        ensures begun { IsLastUnit self.new.last }
        ensures some { IfSome result (λ start. IsUnitAt start beam.now.h self.new.last) }
        ensures none { result ≡ None → is_running beam.now.h self.new.last ≡ false }
        ensures unit { IsUnitKept unit.new beam.now.h self.new.last }
    {
        if beam.h < unit.until {
            return Some(unit.start);
        }
        let start = self.plane_unit(rules, beam)?;
        *unit = Unit {
            start,
            until: start + 8,
        };
        Some(start)
    }

    /// Whether a blit is under way.
    #[inline(always)]
    pub fn is_blitting(&self) -> bool
        ensures { result ≡ is_some self.now.blit }
    {
        self.blit.is_some()
    }

    /// How the blitter asks for the slots of such clocks.
    #[inline(always)]
    pub fn blitter_claim(&self) -> BlitterClaim
        ensures { IsClaim result self.now }
    {
        BlitterClaim {
            asks: self.has_blitter_wish(),
            yields: !self.is_nasty(),
        }
    }

    /// Whether the blitter, which asks so, has the slot of such a clock, where no plane has it; else the
    /// processor has it if it asks.
    #[inline(always)]
    pub fn has_blitter_turn(&self, claim: &BlitterClaim) -> bool
        requires { IsClaim claim.now self.now }
        ensures asks { result ≡ true → is_some (kept_wish self.now) ≡ true }
        ensures blitter { result ≡ true → (b : BeamOf) → LeavesToPlanes b self.now
            → asked_late b self.now ≡ blit_owner_ask (kept_wish self.now) }
        ensures processor { result ≡ false → (b : BeamOf) → LeavesToPlanes b self.now
            → asked_late b self.now ≡ processor_ask_of (wish_shown self.now.processor) }
    {
        claim.asks && !self.is_processor_first(claim)
    }

    /// Whether the processor comes before the blitter, which asks so.
    #[inline(always)]
    fn is_processor_first(&self, claim: &BlitterClaim) -> bool
        requires { IsClaim claim.now self.now }
        ensures { result ≡ (comes_first (plain_chips self.now)
            && is_some (wish_shown self.now.processor)) }
    {
        claim.yields && self.missed >= 3 && self.processor.wish().is_some()
    }

    /// What the blitter asks for, where it asks.
    #[inline(always)]
    pub fn blit_ask_in_turn(&self) -> Ask
        requires { is_some (kept_wish self.now) ≡ true }
        ensures { result ≡ blit_owner_ask (kept_wish self.now) }
    {
        match &self.blit {
            Some(blit) => slot_ask(blit.next()),
            None => Ask::Free,
        }
    }

    /// The address and the word of the write that it asks for, where an area blit asks for one.
    #[inline(always)]
    pub fn blit_write_in_turn(&self) -> Option<(Addr, u16)>
        requires { is_some (kept_wish self.now) ≡ true }
        ensures { IfSome result (λ write. blit_owner_ask (kept_wish self.now)
            ≡ A.Blit (SlotAsk.Write write.0 write.1)) }
    {
        match &self.blit {
            Some(blit) => blit.area_write(),
            None => None,
        }
    }

    /// The address of the read that it asks for, where an area blit asks for one.
    #[inline(always)]
    pub fn blit_read_in_turn(&self) -> Option<Addr>
        requires { is_some (kept_wish self.now) ≡ true }
        ensures { IfSome result (λ at. blit_owner_ask (kept_wish self.now)
            ≡ A.Blit (SlotAsk.Read at)) }
    {
        match &self.blit {
            Some(blit) => blit.area_read(),
            None => None,
        }
    }

    /// As `answer`, at such a clock, where the owner of the slot is a plane, the blitter, the processor with
    /// an access to memory, or nobody: the Copper has no step.
    #[inline(always)]
    pub fn answer_on_bus(&mut self, ask: &Ask, beam: &Beam, chip: &mut Chip) -> Made
        requires leaves { LeavesToPlanes beam.now self.old }
        requires bus { is_bus_ask ask.now ≡ true }
        requires able { CanAsk ask.now }
        requires wish { IsBlitAsk ask.now (kept_wish self.old) }
        ensures access { (clx : ℕ) (side : SideAsk) (c : ChipsOf) → IsInTime beam.now side
            → HasAsked beam.now c self.old → ask.now ≡ ask_at side beam.now c
            → HasAccessed side beam.now clx c chip.old.words result self.new }
        ensures able { CanDo result }
        ensures made { is_bus_made result ≡ true }
        ensures reads { chip.new ≡ read_by (reads_by_chips ask.now) chip.old }
        ensures kept { is_some self.new.blit ≡ is_some self.old.blit
            → KeepsOnBus self.old self.new }
    {
        let word = read_on_bus(ask, chip);
        self.count_missed(ask);
        self.answer_owner(ask, word);
        made_by(ask, word, &CopperAct::None)
    }
}

/// The first so many of some clocks, or all of these where few come behind: one more look takes longer than they do.
#[inline(always)]
fn with_few_behind(first: u16, clocks: u16) -> u16
    requires { first ≤ clocks }
    ensures { result ≤ clocks }
{
    if first > 0 && clocks - first < FEW {
        clocks
    } else {
        first
    }
}

/// The word that answers the ask of such an owner.
#[inline(always)]
fn read_on_bus(ask: &Ask, chip: &mut Chip) -> u16
    requires { is_bus_ask ask.now ≡ true }
    ensures word { (b : BeamOf) (clx : ℕ) (now : WorkingChips)
        → IsAnswer ask.now b clx now chip.old.words result }
    ensures reads { chip.new ≡ read_by (reads_by_chips ask.now) chip.old }
{
    match ask {
        Ask::Blit { ask } => read_for_blit(ask, chip),
        Ask::Processor {
            ask: ProcessorAsk::Read { at },
        } => chip.read(*at),
        _ => 0,
    }
}
