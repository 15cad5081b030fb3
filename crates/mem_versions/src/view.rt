//! Views: the memory at each clock between two cuts.

ghost use Rattle.std.specs.Prelude.{◌≡◌, ◌+◌, ◌-◌, ◌*◌, ◌/◌, ◌^◌, ◌≤◌, length};
ghost use Rattle.mem_versions.specs.Chip.{word_index};
ghost use Rattle.mem_versions.specs.MemoryAt.{page_writes};

use crate::history::History;
use crate::pages::Pages;
use crate::steps::Steps;
use ocs_base::{Addr, Clock};
use std::marker::{Brand, Model};
use std::sync::ledger::{Blank, Ledger};

/// The chip memory at each clock from one cut to the next, whatever was written since. It shares the
/// pages of the first clock, and keeps the writes.
#[derive(Drop)]
pub struct MemView {
    from: u64,
    to: u64,
    base: Pages,
    history: History,
}

impl Model for MemView {
    ghost use Rattle.std.specs.Prelude.{◌≡◌, ◌*◌, length};
    ghost use Rattle.mem_versions.specs.MemView.{ViewValue};

    ghost Value = { ViewValue };

    ghost view = { λ v. record {
      from = v.from;
      to = v.to;
      base = v.base;
      writes = v.history.writes;
    } };

    ghost invariant = { λ v. length v.base ≡ 256 * v.history.pages };
}

impl MemView {
    ghost use Rattle.mem_versions.specs.MemView.{Covers, word_then};

    pub(crate) fn new(from: u64, to: u64, base: Pages, history: History) -> MemView
        requires { length base ≡ 256 * history.pages }
        ensures { result ≡ record {
          from = from;
          to = to;
          base = base;
          writes = history.writes;
        } }
    {
        MemView {
            from,
            to,
            base,
            history,
        }
    }

    /// The word at an address at the start of a clock that the view covers: all writes of clocks below
    /// it are made, and none other. It is 0 above the memory.
    #[inline(always)]
    pub fn at(&self, c: Clock, a: Addr) -> u16
        requires { Covers self.now c.0 }
        ensures { result ≡ word_then self.now c.0 a }
    {
        self.at_uncounted::<Brand>(c, a, Blank::new(1))
    }

    #[inline(always)]
    fn at_uncounted<L: Ledger>(&self, c: Clock, a: Addr, blank: Blank) -> u16
        requires covered { Covers self.now c.0 }
        requires name { blank.name ≡ L.name }
        requires parts { blank.parts ≡ L.parts }
        requires some { blank.parts ≡ 1 }
        ensures { result ≡ word_then self.now c.0 a }
    {
        self.at_counted::<L>(c, a, &mut Steps::new(blank))
    }

    /// The same; a step is a look at a kept write. It takes at most as many steps as the number of the
    /// view's writes to that page has binary digits.
    #[inline(always)]
    pub fn at_counted<L: Ledger>(&self, c: Clock, a: Addr, steps: &mut Steps<L>) -> u16
        requires { Covers self.now c.0 }
        ensures word { result ≡ word_then self.now c.0 a }
        ensures cost { 2 ^ (steps.new - steps.old)
            ≤ 2 * page_writes (word_index a / 256) self.now.writes + 1 }
    {
        let place = a.value / 2;
        match self.base.get(place as usize) {
            Some(word) => self.history.word_before(place, c.0, word, steps),
            None => 0,
        }
    }
}
