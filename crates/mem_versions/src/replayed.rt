//! The words of the changed pages behind the first of a list's writes.

ghost use Rattle.std.specs.Prelude.{◌≡◌, ◌+◌, ◌-◌, ◌*◌, ◌/◌, ◌%◌, ◌^◌, ◌<◌, ◌≤◌, ℕ, false, length, take, slice_index, slice_index_or, slice_set, All, IfOk};
ghost use Rattle.std.specs.List.Sorted.{IsNonDecreasingBy};
ghost use Rattle.mem_versions.specs.declared.write.Write.{Write as WriteValue};
ghost use Rattle.mem_versions.specs.MemoryAt.{memory_at, words_after, writes_below};
ghost use Rattle.mem_versions.specs.code.History.{word_before};
ghost use Rattle.mem_versions.specs.code.Replay.{AreCovered, AreMadeBetween, AreNumbered, HoldsPages};

use crate::changed::Changed;
use crate::group::PAGE;
use crate::pages::Pages;
use crate::write::Write;
use ocs_base::OutOfMemory;
use std::alloc::Global;
use std::marker::Model;

/// Pages, writes in order of happening, and the words of the pages that these are to, as they are behind the
/// first `next` of them.
#[derive(Drop)]
pub(crate) struct Replayed {
    base: Pages,
    writes: Vec<Write>,
    changed: Changed,
    words: Vec<u16>,
    next: usize,
    /// From this clock on none of the writes is to be taken back.
    since: u64,
    /// Up to this clock, itself included, no further one is to be made.
    until: u64,
}

impl Model for Replayed {
    ghost use Rattle.mem_versions.specs.code.Replay.{ReplayedValue, IsReplayed, AreMadeBetween};

    ghost Value = { ReplayedValue };

    ghost view = { λ r. record { base = r.base; writes = r.writes.items; next = r.next } };

    ghost invariant = { λ r. IsReplayed r.base r.writes.items r.changed r.words.items r.next
        × AreMadeBetween r.since r.until r.writes.items r.next };
}

impl Replayed {
    /// None of the writes is made yet.
    pub(crate) fn new(
        base: Pages,
        writes: Vec<Write>,
        changed: Changed,
        words: Vec<u16>,
    ) -> Replayed
        requires order { IsNonDecreasingBy (λ (write : WriteValue). write.clock) writes.items }
        requires numbered { AreNumbered changed.places changed.numbers }
        requires pages { 256 * length changed.places ≤ length base }
        requires covered { AreCovered changed.places writes.items (length writes.items)
            (length base) }
        requires room { length words.items ≡ 256 * length changed.numbers }
        requires begun { HoldsPages base changed.numbers words.items (length changed.numbers) }
        ensures { result ≡ record { base = base; writes = writes.items; next = 0 } }
    {
        let (since, until) = clocks_between(&writes, 0);
        Replayed {
            base,
            writes,
            changed,
            words,
            next: 0,
            since,
            until,
        }
    }

    /// The word at a place at the start of a clock, 0 above the memory.
    #[inline(always)]
    pub(crate) fn word(&mut self, clock: u64, place: u32) -> u16
        ensures word { result ≡ slice_index (memory_at clock self.old.base self.old.writes) place }
        ensures base { self.new.base ≡ self.old.base }
        ensures writes { self.new.writes ≡ self.old.writes }
    {
        self.go_to(clock);
        self.present_word(place)
    }

    /// Makes the writes of clocks below one, and none other.
    #[inline(always)]
    fn go_to(&mut self, clock: u64)
        ensures at { take self.new.next self.old.writes ≡ writes_below clock self.old.writes }
        ensures base { self.new.base ≡ self.old.base }
        ensures writes { self.new.writes ≡ self.old.writes }
    {
        if clock > self.until {
            self.make_writes(clock);
        } else if clock < self.since {
            self.begin_anew(clock);
        }
    }

    /// Makes the next writes of clocks below one, and notes for which clocks there is nothing to do then.
    #[inline(never)]
    fn make_writes(&mut self, clock: u64)
        requires { (k : ℕ) (d : WriteValue) → k < self.old.next
            → (slice_index_or self.old.writes k d).clock < clock }
        ensures at { take self.new.next self.old.writes ≡ writes_below clock self.old.writes }
        ensures base { self.new.base ≡ self.old.base }
        ensures writes { self.new.writes ≡ self.old.writes }
    {
        while self.next < self.writes.len() && self.writes[self.next].clock < clock {
            let write = self.writes[self.next];
            let slot = self.changed.slot(write.place);
            store(&mut self.words, slot, write);
            self.next += 1;
        }
        let (since, until) = clocks_between(&self.writes, self.next);
        self.since = since;
        self.until = until;
    }

    /// Takes all writes back, and makes those of clocks below one.
    #[cold]
    #[inline(never)]
    fn begin_anew(&mut self, clock: u64)
        ensures at { take self.new.next self.old.writes ≡ writes_below clock self.old.writes }
        ensures base { self.new.base ≡ self.old.base }
        ensures writes { self.new.writes ≡ self.old.writes }
    {
        self.take_back();
        self.make_writes(clock);
    }

    /// Takes all writes back.
    fn take_back(&mut self)
        ensures base { self.new.base ≡ self.old.base }
        ensures writes { self.new.writes ≡ self.old.writes }
        ensures next { self.new.next ≡ 0 }
    {
        put_pages(&self.base, &self.changed.numbers, &mut self.words);
        self.next = 0;
        self.since = 0;
        self.until = 0;
    }

    /// The word at a place behind the writes that are made, 0 above the memory.
    #[inline(always)]
    fn present_word(&self, place: u32) -> u16
        ensures { result ≡ slice_index
            (words_after self.now.base (take self.now.next self.now.writes)) place }
    {
        let slot = self.changed.slot(place);
        if slot > 0 {
            self.words[PAGE * (slot - 1) + place as usize % PAGE]
        } else {
            word_of(&self.base, place)
        }
    }

    /// Whether any write of a clock from `clock` on is to a place: it looks at these writes alone, the newest
    /// first.
    pub(crate) fn is_written_from(&self, place: u32, clock: u64) -> bool
        ensures { result ≡ false
            → All (λ write. write.place ≡ place → write.clock < clock) self.now.writes }
    {
        let mut left = self.writes.len();
        while left > 0 && self.writes[left - 1].clock >= clock {
            if self.writes[left - 1].place == place {
                return true;
            }
            left -= 1;
        }
        false
    }

    /// The word at a place at the start of a clock, 0 above the memory. It stands apart, since few are asked for.
    #[cold]
    #[inline(never)]
    pub(crate) fn searched_word(&self, place: u32, clock: u64) -> u16
        ensures { result ≡ slice_index (memory_at clock self.now.base self.now.writes) place }
    {
        match self.base.get(place as usize) {
            Some(word) => self.word_before(place, clock, word),
            None => 0,
        }
    }

    /// The word of the last write to a place of a clock below `clock`, or `word` where there is none: it
    /// looks at one write after the other, the newest first.
    fn word_before(&self, place: u32, clock: u64, word: u16) -> u16
        ensures { result ≡ word_before place clock self.now.writes word }
    {
        let mut left = self.writes.len();
        while left > 0 {
            let write = self.writes[left - 1];
            if write.place == place && write.clock < clock {
                return write.word;
            }
            left -= 1;
        }
        word
    }
}

/// The first and the last of the clocks at which the first `next` of the writes are those that are made.
#[inline(always)]
fn clocks_between(writes: &[Write], next: usize) -> (u64, u64)
    requires order { IsNonDecreasingBy (λ (write : WriteValue). write.clock) writes.now }
    requires within { next ≤ length writes.now }
    requires early { (k : ℕ) (d : WriteValue) → k < next
        → (slice_index_or writes.now k d).clock < 2 ^ 64 - 1 }
    ensures { AreMadeBetween result.0 result.1 writes.now next }
{
    let since = if next > 0 {
        writes[next - 1].clock + 1
    } else {
        0
    };
    let until = if next < writes.len() {
        writes[next].clock
    } else {
        u64::MAX
    };
    (since, until)
}

/// Stores the word of a write in the page that stands at a slot, if any.
#[inline(always)]
fn store(words: &mut Vec<u16>, slot: usize, write: Write)
    requires { 256 * slot ≤ length words.old.items }
    ensures none { slot ≡ 0 → words.new.items ≡ words.old.items }
    ensures some { 0 < slot → words.new.items
        ≡ slice_set words.old.items (256 * (slot - 1) + write.place % 256) write.word }
{
    if slot > 0 {
        words[PAGE * (slot - 1) + write.place as usize % PAGE] = write.word;
    }
}

/// The word of pages at a place, 0 above them.
#[inline(always)]
pub(crate) fn word_of(pages: &Pages, place: u32) -> u16
    ensures { result ≡ slice_index pages.now place }
{
    match pages.get(place as usize) {
        Some(word) => word,
        None => 0,
    }
}

/// The words of some pages in one piece.
pub(crate) fn page_words(
    alloc: Global,
    base: &Pages,
    numbers: &[u16],
) -> Result<Vec<u16>, OutOfMemory>
    requires few { length numbers.now ≤ 2048 }
    requires within { All (λ number. 256 * number + 256 ≤ length base.now) numbers.now }
    ensures room { IfOk result (λ words. length words.items ≡ 256 * length numbers.now) }
    ensures begun { IfOk result (λ words.
        HoldsPages base.now numbers.now words.items (length numbers.now)) }
{
    let mut words = vec![in alloc; 0u16; PAGE * numbers.len()]?;
    put_pages(base, numbers, &mut words);
    Ok(words)
}

/// Puts the words of some pages one behind the other.
fn put_pages(base: &Pages, numbers: &[u16], words: &mut Vec<u16>)
    requires within { All (λ number. 256 * number + 256 ≤ length base.now) numbers.now }
    requires room { length words.old.items ≡ 256 * length numbers.now }
    ensures room { length words.new.items ≡ 256 * length numbers.now }
    ensures begun { HoldsPages base.now numbers.now words.new.items (length numbers.now) }
{
    for index in 0..numbers.len() {
        let page = base.page(numbers[index] as usize);
        words[PAGE * index..PAGE * index + PAGE].copy_from_slice(page);
    }
}
