//! What was said at a place in memory.

ghost use Rattle.std.specs.Prelude.{◌≡◌, ◌++◌, [], IsOk, OnOk, OnErr};
ghost use Rattle.ocs_io.specs.Said.{IsShort};

use ocs_base::OutOfMemory;
use smallvec::SmallVec;
use std::alloc::Global;
use std::marker::Model;

/// All that was said. The first 128 bytes stand in the value and need no memory.
#[derive(Drop)]
pub struct Said {
    bytes: SmallVec<u8, 128>,
}

impl Model for Said {
    ghost use Rattle.std.specs.Prelude.{ℕ, List, ◌≤◌};
    ghost use Rattle.std.specs.Coded.{coded_ℕ, coded_list};

    ghost Value = { List ℕ };

    ghost coded = { coded_list coded_ℕ };

    ghost view = { λ s. s.bytes.items };

    ghost invariant = { λ s. 128 ≤ s.bytes.capacity };
}

impl Said {
    /// Nothing was said.
    pub fn new(alloc: Global) -> Said
        ensures { result ≡ [] }
    {
        Said {
            bytes: SmallVec::new(alloc),
        }
    }

    /// Its bytes.
    pub fn bytes(&self) -> &[u8]
        ensures { result.now ≡ self.now }
    {
        self.bytes.as_slice()
    }

    /// Adds a piece. A text that stays short wants no memory; after a refusal all is as before.
    pub fn add(&mut self, piece: &[u8]) -> Result<(), OutOfMemory>
        ensures ok { OnOk result (self.new ≡ self.old ++ piece.now) }
        ensures refused { OnErr result (self.new ≡ self.old) }
        ensures short { IsShort self.old piece.now → IsOk result }
    {
        self.bytes.extend_from_slice(piece)?;
        Ok(())
    }
}
