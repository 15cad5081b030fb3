//! The access of a clock whose slot is a plane's, a sprite's, the Copper's or nobody's; and which access reads CLXDAT.

ghost use Rattle.std.specs.Prelude.{◌≡◌, ℕ, true};
ghost use Rattle.ocs_base.specs.declared.beam.Beam.{Beam as BeamOf};
ghost use Rattle.serial_model.specs.Side.{IsInTime};
ghost use Rattle.serial_model.specs.State.{Chips as ChipsOf};
ghost use Rattle.serial_model.specs.Bus.{ask_at};
ghost use Rattle.serial_model.specs.declared.bus.SideAsk.{SideAsk};
ghost use Rattle.chip_set.specs.Chips.{HasAsked, HasAccessed, CanAsk, CanDo, WorkingChips, IsAnswer};
ghost use Rattle.chip_set.specs.Chips.{reads_by_chips, read_by};
ghost use Rattle.chip_set.specs.Bus.{is_fetch_ask as fetch_asked};
ghost use Rattle.chip_set.specs.AskLaws.{is_clx_ask as clx_asked};
ghost use Rattle.bus_slots.specs.Asks.{made_with};

use crate::chips::Chips;
use bus_slots::asks::{made_by_copper, made_by_sprite};
use mem_versions::Chip;
use ocs_base::Beam;
use ocs_base::offset::CLXDAT;
use serial_model::{Ask, CopperAct, Made, ProcessorAsk, SpriteAsk};

/// Whether the owner of the slot is a plane, a sprite, the Copper or nobody.
#[inline(always)]
pub fn is_fetch_ask(ask: &Ask) -> bool
    ensures { result ≡ fetch_asked ask.now }
{
    match ask {
        Ask::Free | Ask::Plane { .. } | Ask::Sprite { .. } | Ask::Copper { .. } => true,
        Ask::Side { .. } | Ask::Blit { .. } | Ask::Processor { .. } => false,
    }
}

impl Chips {
    /// As `answer`, where the owner of the slot is a plane, a sprite, the Copper or nobody: then neither a
    /// blit nor the processor has a word.
    #[inline(always)]
    pub fn answer_fetch(&mut self, ask: &Ask, beam: &Beam, chip: &mut Chip) -> Made
        requires fetch { fetch_asked ask.now ≡ true }
        requires able { CanAsk ask.now }
        ensures access { (clx : ℕ) (side : SideAsk) (c : ChipsOf) → IsInTime beam.now side
            → HasAsked beam.now c self.old → ask.now ≡ ask_at side beam.now c
            → HasAccessed side beam.now clx c chip.old.words result self.new }
        ensures able { CanDo result }
        ensures reads { chip.new ≡ read_by (reads_by_chips ask.now) chip.old }
    {
        let word = read_fetch(ask, chip);
        let act = self.step_copper(beam, ask, word);
        self.count_missed(ask);
        made_by_fetch(ask, word, &act)
    }
}

/// The word that answers the ask of such an owner; 0 where nothing is read, or no chip looks at the word.
#[inline(always)]
fn read_fetch(ask: &Ask, chip: &mut Chip) -> u16
    requires { fetch_asked ask.now ≡ true }
    ensures word { (b : BeamOf) (clx : ℕ) (now : WorkingChips)
        → IsAnswer ask.now b clx now chip.old.words result }
    ensures reads { chip.new ≡ read_by (reads_by_chips ask.now) chip.old }
{
    match ask {
        Ask::Copper { at }
        | Ask::Sprite {
            ask: SpriteAsk::Control { at, .. },
        } => chip.read(*at),
        _ => 0,
    }
}

/// What its access makes, with the word that answers it, where the Copper's step makes this.
#[inline(always)]
fn made_by_fetch(ask: &Ask, word: u16, act: &CopperAct) -> Made
    requires { fetch_asked ask.now ≡ true }
    ensures { result ≡ made_with ask.now word act.now }
{
    match ask {
        Ask::Plane { ask } => Made::Plane {
            plane: ask.plane,
            at: ask.at,
        },
        Ask::Sprite { ask } => made_by_sprite(ask, word),
        _ => made_by_copper(act),
    }
}

/// Whether the owner of the slot, the processor then, asks to read CLXDAT.
pub fn is_clx_ask(ask: &Ask) -> bool
    ensures { result ≡ clx_asked ask.now }
{
    match ask {
        Ask::Processor {
            ask: ProcessorAsk::ReadRegister { reg },
        } => reg.offset == CLXDAT,
        _ => false,
    }
}
