//! The bytes of a clock.

ghost use Rattle.std.specs.Prelude.{◌≡◌, ◌<◌, ◌++◌, OnOk};
ghost use Rattle.serial_model.specs.MemoryText.{word_bytes};
ghost use Rattle.slot_log.specs.Record.{address_bytes, record_bytes, RecordsTell};

use crate::entry::entry_of;
use ocs_base::{Beam, OutOfMemory};
use serial_model::Ask;

/// Appends the record of a clock: the place of the beam, what the owner of its slot asks for, and the word
/// that answers it where it reads one. After a refusal a part may have been appended.
pub fn put_record(
    beam: &Beam,
    ask: &Ask,
    answer: u16,
    text: &mut Vec<u8>,
) -> Result<(), OutOfMemory>
    requires { beam.now.h < 256 }
    ensures { OnOk result (text.new.items ≡ text.old.items
        ++ record_bytes (record { beam = beam.now; ask = ask.now; answer = answer })) }
{
    let entry = entry_of(beam.h, ask, answer);
    put_word(beam.v, text)?;
    text.push(beam.h as u8)?;
    text.push(entry.purpose.code())?;
    put_address(entry.address, text)?;
    put_word(entry.word, text)
}

/// Appends a word, the high byte first.
fn put_word(word: u16, text: &mut Vec<u8>) -> Result<(), OutOfMemory>
    ensures { OnOk result (text.new.items ≡ text.old.items ++ word_bytes word) }
{
    text.extend_from_slice(&word.to_be_bytes())?;
    Ok(())
}

/// Appends an address or an offset, the highest byte first.
fn put_address(address: u32, text: &mut Vec<u8>) -> Result<(), OutOfMemory>
    ensures { OnOk result (text.new.items ≡ text.old.items ++ address_bytes address) }
{
    put_word((address / 0x1_0000) as u16, text)?;
    put_word((address % 0x1_0000) as u16, text)
}

/// The law on records: two clocks with the same record are at the same place of the beam, and have the same
/// owner and purpose of the slot, the same address or offset, and the same word.
pub fn records_tell()
    ensures { RecordsTell }
{}
