//! What the log has of one clock.

ghost use Rattle.std.specs.Prelude.{◌≡◌, ◌<◌};
ghost use Rattle.slot_log.specs.Entry.{idle_entry, moved_entry, free_entry, side_entry, sprite_entry};
ghost use Rattle.slot_log.specs.Entry.{blit_entry, processor_entry, entry_of as entry_of_ask};
ghost use Rattle.slot_log.specs.Entry.{read_address as address_read};
ghost use Rattle.slot_log.specs.Purpose.{code_of};

use crate::purpose::Purpose;
use blit_words::SlotAsk;
use bus_slots::is_refresh;
use ocs_base::Addr;
use serial_model::{Ask, ProcessorAsk, SideAsk, SpriteAsk};

/// What there is of a clock: who has the slot and what for; the address of the word in chip memory, or the
/// offset of the register; and the word that is moved. Both are 0 where nothing is accessed.
#[derive(Clone, Copy)]
pub struct Entry {
    pub purpose: Purpose,
    pub address: u32,
    pub word: u16,
}

impl Entry {
    /// Nothing is accessed.
    fn idle(purpose: Purpose) -> Entry
        ensures { result ≡ idle_entry purpose }
    {
        Entry::moved(purpose, 0, 0)
    }

    /// A word is moved.
    fn moved(purpose: Purpose, address: u32, word: u16) -> Entry
        ensures { result ≡ moved_entry purpose address word }
    {
        Entry {
            purpose,
            address,
            word,
        }
    }
}

/// The entry of what the owner of the slot at clock `h` asks for, where this word answers it.
pub fn entry_of(h: u16, ask: &Ask, answer: u16) -> Entry
    ensures value { result ≡ entry_of_ask h answer ask.now }
    ensures code { code_of result.purpose < 128 }
{
    match *ask {
        Ask::Free => entry_of_free(h),
        Ask::Side { ask } => entry_of_side(ask, answer),
        Ask::Plane { ask } => {
            let plane = ask.plane % 8;
            Entry::moved(Purpose::PlaneReads { plane }, ask.at.raw(), answer)
        }
        Ask::Sprite { ask } => entry_of_sprite(ask, answer),
        Ask::Copper { at } => Entry::moved(Purpose::CopperReads, at.raw(), answer),
        Ask::Blit { ask } => entry_of_blit(ask, answer),
        Ask::Processor { ask } => entry_of_processor(ask, answer),
    }
}

/// A slot that nobody asks for, or that refresh takes.
fn entry_of_free(h: u16) -> Entry
    ensures value { result ≡ free_entry h }
    ensures code { code_of result.purpose < 128 }
{
    if is_refresh(h) {
        Entry::idle(Purpose::Refresh)
    } else {
        Entry::idle(Purpose::Free)
    }
}

fn entry_of_side(ask: SideAsk, answer: u16) -> Entry
    ensures value { result ≡ side_entry answer ask }
    ensures code { code_of result.purpose < 128 }
{
    match ask {
        SideAsk::Nothing => Entry::idle(Purpose::Free),
        SideAsk::Disk { at, word } => Entry::moved(Purpose::DiskWrites, at.raw(), word),
        SideAsk::Audio { channel, at } => {
            let channel = channel % 4;
            Entry::moved(Purpose::AudioReads { channel }, at.raw(), answer)
        }
    }
}

fn entry_of_sprite(ask: SpriteAsk, answer: u16) -> Entry
    ensures value { result ≡ sprite_entry answer ask }
    ensures code { code_of result.purpose < 128 }
{
    match ask {
        SpriteAsk::Control { sprite, second, at } => {
            let sprite = sprite % 8;
            let purpose = Purpose::ControlOfSprite { sprite, second };
            Entry::moved(purpose, at.raw(), answer)
        }
        SpriteAsk::Words { sprite, second, at } => {
            let sprite = sprite % 8;
            let purpose = Purpose::ImageOfSprite { sprite, second };
            Entry::moved(purpose, at.raw(), answer)
        }
    }
}

fn entry_of_blit(ask: SlotAsk, answer: u16) -> Entry
    ensures value { result ≡ blit_entry answer ask }
    ensures code { code_of result.purpose < 128 }
{
    match ask {
        SlotAsk::Read { at } => Entry::moved(Purpose::BlitterReads, at.raw(), answer),
        SlotAsk::Write { at, word } => Entry::moved(Purpose::BlitterWrites, at.raw(), word),
        SlotAsk::Rest | SlotAsk::Done => Entry::idle(Purpose::BlitterRests),
    }
}

fn entry_of_processor(ask: ProcessorAsk, answer: u16) -> Entry
    ensures value { result ≡ processor_entry answer ask }
    ensures code { code_of result.purpose < 128 }
{
    match ask {
        ProcessorAsk::Read { at } => Entry::moved(Purpose::ProcessorReads, at.raw(), answer),
        ProcessorAsk::Write { at, half, word } => {
            Entry::moved(Purpose::ProcessorWrites { half }, at.raw(), word)
        }
        ProcessorAsk::ReadRegister { reg } => {
            Entry::moved(Purpose::ProcessorReadsRegister, reg.raw() as u32, answer)
        }
        ProcessorAsk::WriteRegister { reg, word } => {
            Entry::moved(Purpose::ProcessorWritesRegister, reg.raw() as u32, word)
        }
    }
}

/// The address of the word of chip memory that the owner of the slot reads, where it reads one.
pub fn read_address(ask: &Ask) -> Option<Addr>
    ensures { result ≡ address_read ask.now }
{
    match *ask {
        Ask::Side {
            ask: SideAsk::Audio { channel: _, at },
        } => Some(at),
        Ask::Plane { ask } => Some(ask.at),
        Ask::Sprite {
            ask: SpriteAsk::Control { at, .. } | SpriteAsk::Words { at, .. },
        } => Some(at),
        Ask::Copper { at } => Some(at),
        Ask::Blit {
            ask: SlotAsk::Read { at },
        } => Some(at),
        Ask::Processor {
            ask: ProcessorAsk::Read { at },
        } => Some(at),
        _ => None,
    }
}
