//! The memory of a band, looked up in the order of clocks.

ghost use Rattle.std.specs.Prelude.{◌≡◌, ◌+◌, ◌*◌, ◌/◌, ◌≤◌, ◌<◌, ◌≢◌, ℕ, length, take, slice_index, All, IfOk, OnOk, OnErr};
ghost use Rattle.mem_versions.specs.Chip.{word_index, after_reads, after_cut};
ghost use Rattle.mem_versions.specs.MemoryAt.{memory_at, words_after};
ghost use Rattle.mem_versions.specs.MemView.{Covers, word_then, IsViewOf};
ghost use Rattle.mem_versions.specs.code.Replay.{AreCovered, AreNumbered};

use crate::changed::Changed;
use crate::chip::{Chip, count_below, count_read, take_first};
use crate::group::PAGE;
use crate::pages::Pages;
use crate::replayed::{Replayed, page_words, word_of};
use crate::write::Write;
use ocs_base::{Addr, Clock, OutOfMemory};
use std::marker::Model;
use std::mem;

/// The chip memory at each clock from one cut to the next, for who looks words up mostly in the order of clocks.
/// It keeps the words of the pages that are written to, as they are behind the first of the writes.
#[derive(Drop)]
pub struct MemReplay {
    from: u64,
    to: u64,
    replayed: Replayed,
}

impl Model for MemReplay {
    ghost use Rattle.mem_versions.specs.MemView.{ViewValue};

    ghost Value = { ViewValue };

    ghost view = { λ r. record {
      from = r.from;
      to = r.to;
      base = r.replayed.base;
      writes = r.replayed.writes;
    } };
}

impl MemReplay {
    /// The word at an address at the start of a clock that the memory covers: all writes of clocks below it are
    /// made, and none other. It is 0 above the memory. It takes no memory. It is quick where clocks do not fall
    /// from call to call.
    #[inline(always)]
    pub fn word(&mut self, c: Clock, a: Addr) -> u16
        requires { Covers self.old c.0 }
        ensures word { result ≡ word_then self.old c.0 a }
        ensures same { self.new ≡ self.old }
    {
        self.replayed.word(c.0, a.value / 2)
    }

    /// The word at an address at the start of a clock that the memory covers, of the words behind it.
    fn word_behind(&self, behind: &Pages, c: Clock, a: Addr) -> u16
        requires covers { Covers self.now c.0 }
        requires behind { behind.now ≡ memory_at self.now.to self.now.base self.now.writes }
        ensures { result ≡ word_then self.now c.0 a }
    {
        let place = a.value / 2;
        if self.replayed.is_written_from(place, c.0) {
            self.replayed.searched_word(place, c.0)
        } else {
            word_of(behind, place)
        }
    }
}

impl Chip {
    /// As `cut`, for who looks words up mostly in the order of clocks. Where all writes are of clocks below this
    /// one they are not copied.
    pub fn cut_replay(&mut self, now: Clock) -> Result<MemReplay, OutOfMemory>
        requires { self.old.newest ≤ now.0 }
        ensures view { IfOk result (IsViewOf self.old now.0) }
        ensures cut { OnOk result (self.new ≡ after_cut self.old now.0) }
        ensures refused { OnErr result (self.new ≡ self.old) }
    {
        let count = count_below(&self.writes, now.0);
        let changed = Changed::new(self.alloc, &self.writes[..count], self.base.count())?;
        let after = words_behind(&self.base, &self.words, &self.writes, count, &changed)?;
        let words = page_words(self.alloc, &self.base, &changed.numbers)?;
        let writes = take_first(self.alloc, &mut self.writes, count)?;
        let base = mem::replace(&mut self.base, after);
        let replayed = Replayed::new(base, writes, changed, words);
        let from = mem::replace(&mut self.last, now.0);
        self.newest = now.0;
        Ok(MemReplay {
            from,
            to: now.0,
            replayed,
        })
    }

    /// As `resolve`, right behind the cut that gave it.
    pub fn resolve_replay(&mut self, replay: &MemReplay, c: Clock, a: Addr) -> u16
        requires covers { Covers replay.now c.0 }
        requires behind { self.old.base
            ≡ memory_at replay.now.to replay.now.base replay.now.writes }
        ensures word { result ≡ word_then replay.now c.0 a }
        ensures reads { self.new ≡ after_reads self.old 1 }
    {
        count_read(&mut self.reads);
        replay.word_behind(&self.base, c, a)
    }
}

/// The words after the first writes, of which it is known to which pages they are. Where these are all writes,
/// they are the present words.
fn words_behind(
    base: &Pages,
    words: &[u16],
    writes: &[Write],
    count: usize,
    changed: &Changed,
) -> Result<Pages, OutOfMemory>
    requires within { count ≤ length writes.now }
    requires present { words.now ≡ words_after base.now writes.now }
    requires size { 256 * length changed.now.places ≤ length base.now }
    requires numbered { AreNumbered changed.now.places changed.now.numbers }
    requires covered { AreCovered changed.now.places (take count writes.now)
        (length (take count writes.now)) (length base.now) }
    ensures { IfOk result (λ after. after ≡ words_after base.now (take count writes.now)) }
{
    if count == writes.len() {
        copied_pages(base, words, &changed.numbers)
    } else {
        written_pages(base, &writes[..count])
    }
}

/// The pages of words, of which some are other than in older pages.
fn copied_pages(base: &Pages, words: &[u16], numbers: &[u16]) -> Result<Pages, OutOfMemory>
    requires size { length words.now ≡ length base.now }
    requires within { All (λ number. 256 * number + 256 ≤ length base.now) numbers.now }
    requires unchanged { (place : ℕ) → All (λ number. number ≢ place / 256) numbers.now
        → slice_index base.now place ≡ slice_index words.now place }
    ensures { IfOk result (λ after. after ≡ words.now) }
{
    let mut after = base.share()?;
    for number in numbers {
        let start = PAGE * *number as usize;
        after.set_page(*number as usize, &words[start..start + PAGE])?;
    }
    Ok(after)
}

/// The words after writes, made one by one. It stands apart, since few cuts have writes of their own clock.
#[cold]
#[inline(never)]
fn written_pages(base: &Pages, writes: &[Write]) -> Result<Pages, OutOfMemory>
    ensures { IfOk result (λ after. after ≡ words_after base.now writes.now) }
{
    let mut after = base.share()?;
    for write in writes {
        after.set_word(write.place as usize, write.word)?;
    }
    Ok(after)
}
