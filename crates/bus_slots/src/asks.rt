//! The ask of a clock's slot by its owner, and what its access makes.

ghost use Rattle.std.specs.Prelude.{◌≡◌, Some};
ghost use Rattle.serial_model.specs.Bus.{copper_word as word_to_copper, plane_owner_ask, sprite_owner_ask, blit_owner_ask};
ghost use Rattle.serial_model.specs.Bus.{processor_ask as processor_ask_of};
ghost use Rattle.serial_model.specs.Bus.{made_by_copper as made_by_copper_of, made_by_sprite as made_by_sprite_of, control_register as control_register_of};
ghost use Rattle.serial_model.specs.Bus.{made_by_processor as made_by_processor_of};
ghost use Rattle.bus_slots.specs.Asks.{made_with};

use blit_words::SlotAsk;
use ocs_base::Reg;
use ocs_base::offset::{CLXDAT, SPR0POS};
use serial_model::{
    Ask, CopperAct, Half, Made, PlaneAsk, ProcessorAsk, SideAsk, Source, SpriteAsk,
};

/// The ask of a slot whose owner is a bitplane: its fetch, or none.
pub fn plane_ask(wish: Option<PlaneAsk>) -> Ask
    ensures { result ≡ plane_owner_ask wish }
{
    match wish {
        Some(ask) => Ask::Plane { ask },
        None => Ask::Free,
    }
}

/// The ask of a slot whose owner is a sprite: its fetch, or none.
pub fn sprite_ask(wish: Option<SpriteAsk>) -> Ask
    ensures { result ≡ sprite_owner_ask wish }
{
    match wish {
        Some(ask) => Ask::Sprite { ask },
        None => Ask::Free,
    }
}

/// The ask of a slot whose owner is the blitter: what the blit under way asks for, and none where it is done.
pub fn slot_ask(slot: SlotAsk) -> Ask
    ensures { result ≡ blit_owner_ask (Some slot) }
{
    match slot {
        SlotAsk::Done => Ask::Free,
        ask => Ask::Blit { ask },
    }
}

/// What the access makes, with the word that answers it, where the Copper's step makes this.
#[inline(always)]
pub fn made_by(ask: &Ask, word: u16, act: &CopperAct) -> Made
    ensures { result ≡ made_with ask.now word act.now }
{
    match ask {
        Ask::Plane { ask } => Made::Plane {
            plane: ask.plane,
            at: ask.at,
        },
        Ask::Sprite { ask } => made_by_sprite(ask, word),
        Ask::Side {
            ask: SideAsk::Disk { at, word },
        }
        | Ask::Blit {
            ask: SlotAsk::Write { at, word },
        } => Made::Stored {
            at: *at,
            half: Half::Both,
            word: *word,
        },
        Ask::Processor { ask } => made_by_processor(ask),
        Ask::Free | Ask::Side { .. } | Ask::Copper { .. } | Ask::Blit { .. } => made_by_copper(act),
    }
}

/// What a sprite's fetch makes: its control word is written to its register, its image word fills a latch.
#[inline(always)]
pub fn made_by_sprite(ask: &SpriteAsk, word: u16) -> Made
    ensures { result ≡ made_by_sprite_of ask.now word }
{
    match ask {
        SpriteAsk::Control { sprite, second, .. } => Made::Wrote {
            reg: control_register(*sprite, *second),
            word,
            by: None,
        },
        SpriteAsk::Words { sprite, second, at } => Made::Sprite {
            sprite: *sprite,
            second: *second,
            at: *at,
        },
    }
}

/// What the processor's access makes: of its reads the trace tells that of CLXDAT, which clears the
/// collision bits.
#[inline(always)]
fn made_by_processor(ask: &ProcessorAsk) -> Made
    ensures { result ≡ made_by_processor_of ask.now }
{
    match ask {
        ProcessorAsk::Read { .. } => Made::Nothing,
        ProcessorAsk::Write { at, half, word } => Made::Stored {
            at: *at,
            half: *half,
            word: *word,
        },
        ProcessorAsk::ReadRegister { reg } if reg.offset == CLXDAT => Made::Read {
            reg: *reg,
            by: Source::Processor,
        },
        ProcessorAsk::ReadRegister { .. } => Made::Nothing,
        ProcessorAsk::WriteRegister { reg, word } => Made::Wrote {
            reg: *reg,
            word: *word,
            by: Some(Source::Processor),
        },
    }
}

/// What a step of the Copper makes: a MOVE is a write.
#[inline(always)]
pub fn made_by_copper(act: &CopperAct) -> Made
    ensures { result ≡ made_by_copper_of act.now }
{
    match act {
        CopperAct::Move { reg, word } => Made::Wrote {
            reg: *reg,
            word: *word,
            by: Some(Source::Copper),
        },
        CopperAct::None => Made::Nothing,
    }
}

/// SPRxPOS or, `second`, SPRxCTL of a sprite.
fn control_register(sprite: u8, second: bool) -> Reg
    ensures { result ≡ control_register_of sprite second }
{
    Reg::masked(SPR0POS + 8 * sprite as u16 + if second { 2 } else { 0 })
}

/// The word that the Copper gets: that of its own ask alone.
pub fn copper_word(ask: &Ask, word: u16) -> Option<u16>
    ensures { result ≡ word_to_copper ask.now word }
{
    match ask {
        Ask::Copper { .. } => Some(word),
        Ask::Free
        | Ask::Side { .. }
        | Ask::Plane { .. }
        | Ask::Sprite { .. }
        | Ask::Blit { .. }
        | Ask::Processor { .. } => None,
    }
}

/// The ask of a slot whose owner is the processor: its access, or none.
pub fn processor_ask(wish: Option<ProcessorAsk>) -> Ask
    ensures { result ≡ processor_ask_of wish }
{
    match wish {
        Some(ask) => Ask::Processor { ask },
        None => Ask::Free,
    }
}
