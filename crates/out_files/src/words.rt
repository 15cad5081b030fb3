//! The words of chip memory as bytes of the memory file.

ghost use Rattle.std.specs.Prelude.{◌≡◌, ◌++◌, length, OnOk};
ghost use Rattle.serial_model.specs.MemoryText.{memory_text};
ghost use Rattle.mem_versions.specs.Chip.{after_reads};

use mem_versions::Chip;
use ocs_base::OutOfMemory;

/// Appends the bytes of the whole memory, of which each word is read once. After a refusal a part may
/// have been appended.
pub fn put_memory(text: &mut Vec<u8>, chip: &mut Chip) -> Result<(), OutOfMemory>
    ensures text { OnOk result (text.new.items ≡ text.old.items ++ memory_text chip.old.words) }
    ensures chip { OnOk result (chip.new ≡ after_reads chip.old (length chip.old.words)) }
    ensures kept { chip.new ≡ record chip.old { reads = chip.new.reads } }
{
    for number in 0..chip.pages() {
        put_words(text, chip.page(number))?;
    }
    Ok(())
}

/// Appends the bytes of words, the high byte of each first.
#[tactic(auto, using(crate::proofs::WordsLaws::words_laws), unfolding(serial_model::specs::MemoryText::memory_text))]
fn put_words(text: &mut Vec<u8>, words: &[u16]) -> Result<(), OutOfMemory>
    ensures { OnOk result (text.new.items ≡ text.old.items ++ memory_text words.now) }
{
    for word in words {
        text.extend_from_slice(&word.to_be_bytes())?;
    }
    Ok(())
}
