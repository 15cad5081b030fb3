//! The ring and its calls.

ghost use Rattle.std.specs.Prelude.{◌≡◌, ◌≤◌, [], length, take, None, Some, IfOk, IfSome, MatchOption, All};
ghost use Rattle.ocs_rewind.specs.Ring.{EntryOf, up_to, best_of, last_entry, pushed, IsAbove};

use crate::entry::Entry;
use circular_buffer::HeapCircularBuffer;
use ocs_base::{Clock, OutOfMemory};
use std::alloc::Global;
use std::marker::Model;

/// The latest states of a run, each with the clock at which it stood, in rising clocks: at most as many as
/// were asked for when the ring was made.
#[derive(Drop)]
pub struct Ring<T> {
    entries: HeapCircularBuffer<Entry<T>>,
}

impl<T> Model for Ring<T> {
    ghost use Rattle.ocs_rewind.specs.Ring.{RingOf, IsRing};

    ghost Value = { RingOf T };

    ghost view = { λ r. record { entries = r.entries.items; keep = r.entries.capacity } };

    ghost invariant = { λ r. IsRing r.entries.items r.entries.capacity };
}

impl<T: Drop> Ring<T> {
    /// An empty ring of at most `keep` states.
    pub fn new(alloc: Global, keep: usize) -> Result<Ring<T>, OutOfMemory>
        requires { 1 ≤ keep }
        ensures { IfOk result (λ ring. ring ≡ record { entries = []; keep = keep }) }
    {
        let entries = HeapCircularBuffer::with_capacity(alloc, keep)?;
        Ok(Ring { entries })
    }

    /// A state at a clock above that of the last entry; a full ring gives up its oldest entry. It takes no
    /// memory.
    pub fn push(&mut self, at: Clock, state: T)
        requires { IsAbove at.0 (last_entry self.old.entries) }
        ensures { self.new ≡ pushed (record { at = at; state = state }) self.old }
    {
        let _oldest = self.entries.push_back(Entry { at, state });
    }

    /// The last state with a clock not above `c`, and its clock; None where there is none.
    pub fn best(&self, c: Clock) -> Option<(Clock, &T)>
        ensures best { MatchOption result (best_of c.0 self.now.entries ≡ None) (λ found.
            best_of c.0 self.now.entries ≡ Some (record { at = found.0; state = found.1.now })) }
        ensures last { IfSome result (λ found. All (λ (entry : EntryOf T). entry.at.0 ≤ found.0.0)
            (up_to c.0 self.now.entries)) }
    {
        let count = self.count_up_to(c);
        if count == 0 {
            return None;
        }
        let entry = self.entries.get(count - 1)?;
        Some((entry.at, &entry.state))
    }

    /// Drops the entries with clocks above `c`. It takes no memory.
    pub fn cut_after(&mut self, c: Clock)
        ensures { self.new ≡ record self.old { entries = up_to c.0 self.old.entries } }
    {
        let count = self.count_up_to(c);
        self.entries.truncate_back(count);
    }

    /// How many entries have clocks not above `c`: the first ones.
    fn count_up_to(&self, c: Clock) -> usize
        ensures within { result ≤ length self.now.entries }
        ensures front { take result self.now.entries ≡ up_to c.0 self.now.entries }
    {
        let _len = self.entries.len();
        let mut count = 0;
        while let Some(entry) = self.entries.get(count) {
            if entry.at > c {
                break;
            }
            count += 1;
        }
        count
    }
}
