//! The sum of the words of the memory.

ghost use Rattle.std.specs.Prelude.{◌≡◌, ◌≤◌, length, sum as sum_of_words};
ghost use Rattle.mem_versions.specs.Chip.{after_reads};

use crate::fore::Fore;
use mem_versions::Chip;
use serial_model::Side;

impl<S: Side> Fore<S> {
    /// The sum of the words of the memory as it is now, each of which is read once. It takes no
    /// memory.
    pub fn sum(&mut self) -> u64
        ensures total { result ≡ sum_of_words self.old.machine.chip.words }
        ensures same { self.new ≡ record self.old {
          machine = record self.old.machine {
            chip = after_reads self.old.machine.chip (length self.old.machine.chip.words);
          };
        } }
    {
        sum_of(&mut self.machine.chip)
    }
}

/// The sum of the words of a memory, page by page.
fn sum_of(chip: &mut Chip) -> u64
    ensures total { result ≡ sum_of_words chip.old.words }
    ensures chip { chip.new ≡ after_reads chip.old (length chip.old.words) }
{
    let mut total = 0;
    for number in 0..chip.pages() {
        total += sum_of_page(chip.page(number));
    }
    total
}

/// The sum of the words of a page.
fn sum_of_page(words: &[u16]) -> u64
    requires { length words.now ≤ 256 }
    ensures total { result ≡ sum_of_words words.now }
    ensures most { result ≤ 16777216 }
{
    let mut total = 0;
    for word in words {
        total += *word as u64;
    }
    total
}
