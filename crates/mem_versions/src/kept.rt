//! What is kept of a chip memory, so that a machine can go back to it.

ghost use Rattle.std.specs.Prelude.{◌≡◌, IfOk};

use crate::chip::{Chip, changed_pages};
use crate::history::History;
use crate::pages::Pages;
use ocs_base::OutOfMemory;
use std::alloc::Global;
use std::marker::Model;

/// The words of a chip memory at some clock, in pages that it shares with the memory and its views, and that
/// clock: of the last write or cut, whichever is the later.
#[derive(Drop)]
pub struct Kept {
    alloc: Global,
    words: Pages,
    clock: u64,
}

impl Model for Kept {
    ghost use Rattle.std.specs.Prelude.{◌<◌, ◌≤◌, length};
    ghost use Rattle.mem_versions.specs.Kept.{KeptValue};

    ghost Value = { KeptValue };

    ghost view = { λ k. record { words = k.words; clock = k.clock } };

    ghost invariant = { λ k. (0 < length k.words) × (length k.words ≤ 524288) };
}

impl Chip {
    ghost use Rattle.mem_versions.specs.Kept.{kept_of, chip_back};

    /// What is to be kept of the memory as it is now. No word is copied of pages that were not written since
    /// the last cut.
    pub fn keep(&self) -> Result<Kept, OutOfMemory>
        ensures { IfOk result (λ kept. kept ≡ kept_of self.now) }
    {
        let history = History::new(self.alloc, &self.writes, self.base.count())?;
        let words = changed_pages(&self.base, &self.words, &history)?;
        Ok(Kept {
            alloc: self.alloc,
            words,
            clock: self.last.max(self.newest),
        })
    }

    /// A memory of the kept words, with no writes, whose last cut was at the kept clock and of which nothing
    /// was read.
    pub fn back(kept: &Kept) -> Result<Chip, OutOfMemory>
        ensures { IfOk result (λ chip. chip ≡ chip_back kept.now) }
    {
        Ok(Chip {
            alloc: kept.alloc,
            words: kept.words.copied()?,
            base: kept.words.share()?,
            writes: Vec::new(kept.alloc),
            last: kept.clock,
            newest: kept.clock,
            reads: 0,
        })
    }
}
