//! Which pages a list of writes is to.

ghost use Rattle.std.specs.Prelude.{◌≡◌, ◌≤◌, ◌<◌, ◌*◌, ◌/◌, length, slice_index, IfOk, OnOk};
ghost use Rattle.mem_versions.specs.code.Replay.{AreCovered, AreNumbered, MarksPage};

use crate::group::PAGE;
use crate::write::Write;
use ocs_base::OutOfMemory;
use std::alloc::Global;
use std::marker::Model;

/// The pages that writes are to, and for each page of the memory 0 or 1 and which of them it is. Where there
/// are no writes nothing is kept.
#[derive(Drop)]
pub(crate) struct Changed {
    pub(crate) places: Vec<u16>,
    pub(crate) numbers: Vec<u16>,
}

impl Model for Changed {
    ghost use Rattle.mem_versions.specs.code.Replay.{ChangedValue, AreNumbered};

    ghost Value = { ChangedValue };

    ghost view = { λ c. record { places = c.places.items; numbers = c.numbers.items } };

    ghost invariant = { λ c. AreNumbered c.places.items c.numbers.items };
}

impl Changed {
    /// The pages that writes are to, of a memory of so many. Where a write is to the page of the one before it
    /// the page is not looked at again.
    pub(crate) fn new(alloc: Global, writes: &[Write], pages: usize) -> Result<Changed, OutOfMemory>
        requires { pages ≤ 2048 }
        ensures size { IfOk result (λ changed. length changed.places ≤ pages) }
        ensures numbered { IfOk result (λ changed.
            AreNumbered changed.places changed.numbers) }
        ensures covered { IfOk result (λ changed.
            AreCovered changed.places writes.now (length writes.now) (256 * pages)) }
    {
        let numbers = Vec::new(alloc);
        if writes.is_empty() {
            let places = Vec::new(alloc);
            return Ok(Changed { places, numbers });
        }
        let places = vec![in alloc; 0u16; pages]?;
        let mut changed = Changed { places, numbers };
        let mut last = pages;
        for write in writes {
            let page = write.place as usize / PAGE;
            if page != last {
                if page < pages && changed.slot(write.place) == 0 {
                    changed.number(page)?;
                }
                last = page;
            }
        }
        Ok(changed)
    }

    /// One page more.
    fn number(&mut self, page: usize) -> Result<(), OutOfMemory>
        requires within { page < length self.old.places }
        requires first { slice_index self.old.places page ≡ 0 }
        ensures marked { OnOk result (MarksPage self.old.places page self.new.places) }
        ensures numbered { AreNumbered self.new.places self.new.numbers }
    {
        self.numbers.push(page as u16)?;
        self.places[page] = self.numbers.len() as u16;
        Ok(())
    }

    /// 0 where no write is to the page of a place, else 1 and which of the changed pages it is.
    #[inline(always)]
    pub(crate) fn slot(&self, place: u32) -> usize
        ensures { result ≡ slice_index self.now.places (place / 256) }
    {
        let page = place as usize / PAGE;
        if page < self.places.len() {
            self.places[page] as usize
        } else {
            0
        }
    }
}
