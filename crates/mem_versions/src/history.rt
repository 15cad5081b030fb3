//! The writes of a view, page by page in order of address and then of happening.

ghost use Rattle.std.specs.Prelude.{◌≡◌, ◌==◌, ◌+◌, ◌-◌, ◌*◌, ◌/◌, ◌^◌, ◌<◌, ◌≤◌, ℕ, length, take, drop, filter, slice_index_or, IfOk};
ghost use Rattle.std.specs.List.Sorted.{IsNonDecreasingBy};
ghost use Rattle.mem_versions.specs.declared.write.Write.{Write as WriteValue};
ghost use Rattle.mem_versions.specs.MemoryAt.{writes_to, page_writes};
ghost use Rattle.mem_versions.specs.code.History.{word_before, IsInOrder, IsHistory, AreParts, IsPageEnd, AreToOnePage};

use crate::group::PAGE;
use crate::steps::Steps;
use crate::write::Write;
use ocs_base::OutOfMemory;
use std::alloc::Global;
use std::marker::Model;
use std::sync::ledger::Ledger;

/// How many writes to a page are passed over at one look, where there are so many.
const STRIDE: usize = 16;

/// Writes in order of place, those to one place in order of happening, and where those to each page
/// stand. Where there are no writes nothing is kept of the pages.
#[derive(Drop)]
pub struct History {
    writes: Vec<Write>,
    parts: Vec<Part>,
    pages: usize,
}

/// Where the writes to a page stand: from one place of the list up to another.
#[derive(Clone, Copy)]
pub(crate) struct Part {
    pub(crate) start: usize,
    pub(crate) end: usize,
}

impl Model for History {
    ghost use Rattle.std.specs.Prelude.{◌-◌, length};
    ghost use Rattle.mem_versions.specs.code.History.{HistoryValue, IsHistory};

    ghost Value = { HistoryValue };

    ghost view = { λ h. record { pages = h.pages; writes = h.writes.items } };

    ghost invariant = { λ h. IsHistory h.writes.items h.parts.items h.pages };
}

impl History {
    /// The history of writes that are given in order of happening, to a memory of so many pages.
    pub fn new(alloc: Global, writes: &[Write], pages: usize) -> Result<History, OutOfMemory>
        requires order { IsNonDecreasingBy (λ (write : WriteValue). write.clock) writes.now }
        ensures same { IfOk result (λ history. (place : ℕ)
            → writes_to place history.writes ≡ writes_to place writes.now) }
        ensures count { IfOk result (λ history. length history.writes ≡ length writes.now) }
        ensures pages { IfOk result (λ history. history.pages ≡ pages) }
    {
        let writes = sorted_writes(alloc, writes)?;
        let parts = kept_parts(alloc, &writes, pages)?;
        Ok(History {
            writes,
            parts,
            pages,
        })
    }

    /// The writes, in order of place.
    pub fn writes(&self) -> &[Write]
        ensures { result.now ≡ self.now.writes }
    {
        &self.writes
    }

    /// Behind a write a place up to which all writes are to its page.
    pub fn next_page(&self, index: usize) -> usize
        requires { index < length self.now.writes }
        ensures later { index < result }
        ensures within { result ≤ length self.now.writes }
        ensures same { AreToOnePage self.now.writes index result }
    {
        let number = self.writes[index].place as usize / PAGE;
        match self.parts.get(number) {
            Some(part) if part.start <= index && index < part.end => part.end,
            _ => index + 1,
        }
    }

    /// The word of the last write to a place of a clock below `clock`, or `word` where there is none. A
    /// step is a look at a kept write.
    #[inline(always)]
    pub fn word_before<L: Ledger>(
        &self,
        place: u32,
        clock: u64,
        word: u16,
        steps: &mut Steps<L>,
    ) -> u16
        requires { place < 256 * self.now.pages }
        ensures word { result ≡ word_before place clock self.now.writes word }
        ensures cost { 2 ^ (steps.new - steps.old)
            ≤ 2 * page_writes (place / 256) self.now.writes + 1 }
    {
        let writes = self.page(place as usize / PAGE);
        if writes.is_empty() {
            return word;
        }
        last_before(writes, place, clock, word, steps)
    }

    /// The writes to a page.
    #[inline(always)]
    fn page(&self, number: usize) -> &[Write]
        requires { number < self.now.pages }
        ensures writes { result.now
            ≡ filter (λ write. write.place / 256 == number) self.now.writes }
        ensures order { IsInOrder result.now }
    {
        match self.parts.get(number) {
            Some(part) => part_of(&self.writes, part),
            None => &[],
        }
    }
}

/// The writes from one place of the list to another.
#[inline(always)]
fn part_of<'a>(writes: &'a [Write], part: &Part) -> &'a [Write]
    requires order { part.now.start ≤ part.now.end }
    requires within { part.now.end ≤ length writes.now }
    ensures { result.now ≡ take (part.now.end - part.now.start) (drop part.now.start writes.now) }
{
    &writes[part.start..part.end]
}

/// The writes in order of place; those to one place stay in order.
fn sorted_writes(alloc: Global, writes: &[Write]) -> Result<Vec<Write>, OutOfMemory>
    requires { IsNonDecreasingBy (λ (write : WriteValue). write.clock) writes.now }
    ensures order { IfOk result (λ list. IsInOrder list.items) }
    ensures same { IfOk result (λ list. (place : ℕ)
        → writes_to place list.items ≡ writes_to place writes.now) }
    ensures count { IfOk result (λ list. length list.items ≡ length writes.now) }
{
    let mut list = Vec::from_slice(alloc, writes)?;
    list.sort_by_key(|write| write.place)?;
    Ok(list)
}

/// Where the writes to each of so many pages stand; nothing where there are no writes.
fn kept_parts(alloc: Global, writes: &[Write], pages: usize) -> Result<Vec<Part>, OutOfMemory>
    requires { IsInOrder writes.now }
    ensures { IfOk result (λ parts. IsHistory writes.now parts.items pages) }
{
    if writes.is_empty() {
        return Ok(Vec::new(alloc));
    }
    page_parts(alloc, writes, pages)
}

/// Where the writes to each of so many pages stand, by one walk over the writes.
fn page_parts(alloc: Global, writes: &[Write], pages: usize) -> Result<Vec<Part>, OutOfMemory>
    requires { IsInOrder writes.now }
    ensures { IfOk result (λ parts. AreParts writes.now parts.items pages) }
{
    let mut parts = Vec::with_capacity(alloc, pages)?;
    parts.resize(pages, Part { start: 0, end: 0 })?;
    let mut start = 0;
    while start < writes.len() {
        let page = writes[start].place as usize / PAGE;
        let end = page_end(writes, page, start);
        if page < pages {
            parts[page] = Part { start, end };
        }
        start = end;
    }
    Ok(parts)
}

/// Where the writes to a page end, of which the first stands at a place.
fn page_end(writes: &[Write], page: usize, start: usize) -> usize
    requires order { IsInOrder writes.now }
    requires within { start < length writes.now }
    requires first { (d : WriteValue) → (slice_index_or writes.now start d).place / 256 ≡ page }
    ensures { IsPageEnd writes.now page start result }
{
    let mut end = start + 1;
    while STRIDE < writes.len() - end && writes[end + STRIDE].place as usize / PAGE == page {
        end += STRIDE;
    }
    while end < writes.len() && writes[end].place as usize / PAGE == page {
        end += 1;
    }
    end
}

/// The word of the last of the writes to a place of a clock below `clock`, or `word` where there is
/// none, found by halving. A step is a look at a write. It stands apart, so that the look at a page without
/// writes stays short.
#[inline(never)]
fn last_before<L: Ledger>(
    writes: &[Write],
    place: u32,
    clock: u64,
    word: u16,
    steps: &mut Steps<L>,
) -> u16
    requires { IsInOrder writes.now }
    ensures word { result ≡ word_before place clock writes.now word }
    ensures cost { 2 ^ (steps.new - steps.old) ≤ 2 * length writes.now + 1 }
{
    let mut found = word;
    let mut low = 0;
    let mut high = writes.len();
    while low < high {
        let middle = low + (high - low) / 2;
        steps.tick();
        let write = writes[middle];
        if write.place == place && write.clock < clock {
            found = write.word;
            low = middle + 1;
        } else if write.place < place {
            low = middle + 1;
        } else {
            high = middle;
        }
    }
    found
}
