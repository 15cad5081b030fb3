//! The chip memory: present words, writes since the last cut, and the count of reads.

ghost use Rattle.std.specs.Prelude.{◌≡◌, ◌+◌, ◌*◌, ◌/◌, ◌%◌, ◌-◌, ◌^◌, ◌<◌, ◌≤◌, ◌++◌, true, ℕ, min, [], length, take, drop, slice_index, slice_set, IfOk, OnOk, OnErr, All};
ghost use Rattle.std.specs.Borrow.{sem};
ghost use Rattle.std.specs.List.Sorted.{IsNonDecreasingBy};
ghost use Rattle.ocs_base.specs.Memory.{words, memory_of};
ghost use Rattle.ocs_base.specs.Sizes.{bytes_of, is_chip_size, size_of_bytes};
ghost use Rattle.mem_versions.specs.declared.write.Write.{Write as WriteValue};
ghost use Rattle.mem_versions.specs.MemoryAt.{words_after, writes_below, writes_from, writes_to};
ghost use Rattle.mem_versions.specs.Chip.{word_index};

use crate::group::PAGE;
use crate::history::History;
use crate::pages::Pages;
use crate::view::MemView;
use crate::write::Write;
use ocs_base::{Addr, ChipSize, Clock, OutOfMemory};
use std::alloc::{AllocError, AllocFailed, Global};
use std::marker::Model;
use std::mem;

/// The chip memory of the machine: 512 KiB or 1 MiB as words, from address 0 on. The present words
/// stand in one piece, those of the last cut in pages that its views share. It keeps each write since
/// the last cut, and counts the words that are read; the count stands still at the greatest u64.
#[derive(Drop)]
pub struct Chip {
    pub(crate) alloc: Global,
    pub(crate) words: Vec<u16>,
    pub(crate) base: Pages,
    pub(crate) writes: Vec<Write>,
    pub(crate) last: u64,
    pub(crate) newest: u64,
    pub(crate) reads: u64,
}

impl Model for Chip {
    ghost use Rattle.mem_versions.specs.Chip.{ChipValue};
    ghost use Rattle.mem_versions.specs.Sound.{IsSound};

    ghost Value = { ChipValue };

    ghost view = { λ c. record {
      last = c.last;
      base = c.base;
      writes = c.writes.items;
      words = c.words.items;
      newest = c.newest;
      reads = c.reads;
    } };

    ghost invariant = { λ c. IsSound c.base c.words.items c.writes.items c.newest };
}

impl Chip {
    ghost use Rattle.mem_versions.specs.Chip.{memory_from, word_index, word_at, page_of, after_reads, after_write, after_cut, with_half};
    ghost use Rattle.mem_versions.specs.MemView.{Covers, word_then, IsViewOf};
    ghost use Rattle.ocs_base.specs.declared.chip_size.ChipSize.TheVariants.{Kib512};
    ghost use Rattle.mem_versions.specs.Lending.{CountsPage};

    /// The memory of 512 KiB that an image makes at clock 0: the bytes of the image from address 0 on, the
    /// high byte of each word first, and zeros behind them.
    pub fn new(alloc: Global, image: &[u8]) -> Result<Chip, OutOfMemory>
        requires even { length image.now % 2 ≡ 0 }
        requires least { 8 ≤ length image.now }
        requires most { length image.now ≤ 524288 }
        ensures { IfOk result (λ chip. chip ≡ memory_from Kib512 image.now) }
    {
        Chip::sized(alloc, image, 0x8_0000)
    }

    /// The memory of so many bytes, 524,288 or 1,048,576, that an image makes at clock 0.
    pub fn sized(alloc: Global, image: &[u8], chip: u32) -> Result<Chip, OutOfMemory>
        requires size { is_chip_size chip ≡ true }
        requires even { length image.now % 2 ≡ 0 }
        requires least { 8 ≤ length image.now }
        requires most { length image.now ≤ chip }
        ensures { IfOk result (λ made. made ≡ memory_from (size_of_bytes chip) image.now) }
    {
        let size = ChipSize::of_bytes(chip);
        let words = image_words(alloc, image, size)?;
        let base = Pages::new(alloc, &words)?;
        Ok(Chip {
            alloc,
            words,
            base,
            writes: Vec::new(alloc),
            last: 0,
            newest: 0,
            reads: 0,
        })
    }

    /// The present word at an address, 0 above the memory; one more read.
    pub fn read(&mut self, at: Addr) -> u16
        ensures word { result ≡ word_at self.old at }
        ensures reads { self.new ≡ after_reads self.old 1 }
    {
        count_read(&mut self.reads);
        present_word(&self.words, at)
    }

    /// The present words of a page, from address 512 times its number on; 256 more reads.
    pub fn page(&mut self, number: usize) -> &[u16]
        requires { 256 * number + 256 ≤ length self.old.words }
        ensures* reads { sem 𝓛 (CountsPage self.entry) }
        ensures words { result.now ≡ page_of self.old number }
        ensures size { length result.now ≡ 256 }
    {
        self.reads = self.reads.saturating_add(PAGE as u64);
        &self.words[PAGE * number..PAGE * number + PAGE]
    }

    /// How many words were read since the memory was made.
    pub fn reads(&self) -> u64
        ensures { result ≡ self.now.reads }
    {
        self.reads
    }

    /// How many pages of 256 words the memory has: those of 1 MiB at the most.
    pub fn pages(&self) -> usize
        ensures size { length self.now.words ≡ 256 * result }
        ensures some { 0 < result }
        ensures few { result ≤ 2048 }
    {
        self.base.count()
    }

    /// Writes a word at a clock, not below that of the newest write or cut; above the memory no word
    /// changes. Every view stays as it was. After a refusal all is as before.
    #[inline(always)]
    pub fn write(&mut self, now: Clock, at: Addr, word: u16) -> Result<(), OutOfMemory>
        requires { self.old.newest ≤ now.0 }
        ensures ok { OnOk result (self.new ≡ after_write self.old now.0 at word) }
        ensures refused { OnErr result (self.new ≡ self.old) }
    {
        if self.writes.len() < self.writes.capacity() {
            self.note_write(now, at, word)
        } else {
            self.write_where_full(now, at, word)
        }
    }

    /// The same where there is no room for one more write. It stands apart, so that a write for which there is
    /// room makes none for it.
    #[cold]
    #[inline(never)]
    fn write_where_full(&mut self, now: Clock, at: Addr, word: u16) -> Result<(), OutOfMemory>
        requires { self.old.newest ≤ now.0 }
        ensures ok { OnOk result (self.new ≡ after_write self.old now.0 at word) }
        ensures refused { OnErr result (self.new ≡ self.old) }
    {
        self.note_write(now, at, word)
    }

    /// The same, whether there is room or not.
    #[inline(always)]
    fn note_write(&mut self, now: Clock, at: Addr, word: u16) -> Result<(), OutOfMemory>
        requires { self.old.newest ≤ now.0 }
        ensures ok { OnOk result (self.new ≡ after_write self.old now.0 at word) }
        ensures refused { OnErr result (self.new ≡ self.old) }
    {
        let place = at.value / 2;
        self.writes.push(Write {
            clock: now.0,
            place,
            word,
        })?;
        put_word(&mut self.words, place as usize, word);
        self.newest = now.0;
        Ok(())
    }

    /// Writes the high or the low byte of the word at an address, at a clock; no read is counted. After a
    /// refusal all is as before.
    pub fn write_half(
        &mut self,
        now: Clock,
        at: Addr,
        high: bool,
        byte: u8,
    ) -> Result<(), OutOfMemory>
        requires { self.old.newest ≤ now.0 }
        ensures ok { OnOk result (self.new
            ≡ after_write self.old now.0 at (with_half (word_at self.old at) high byte)) }
        ensures refused { OnErr result (self.new ≡ self.old) }
    {
        let word = half_replaced(present_word(&self.words, at), high, byte);
        self.write(now, at, word)
    }

    /// Begins a new version at a clock, not below that of the newest write or cut, and gives a view
    /// of the clocks from the last cut to this one. Pages that were not written since are shared,
    /// those that were are copied; but where a write of this very clock was made the writes before it
    /// are made again. After a refusal all is as before.
    pub fn cut(&mut self, now: Clock) -> Result<MemView, OutOfMemory>
        requires { self.old.newest ≤ now.0 }
        ensures view { IfOk result (IsViewOf self.old now.0) }
        ensures cut { OnOk result (self.new ≡ after_cut self.old now.0) }
        ensures refused { OnErr result (self.new ≡ self.old) }
    {
        let count = count_below(&self.writes, now.0);
        let history = History::new(self.alloc, &self.writes[..count], self.base.count())?;
        let words = pages_after(&self.base, &self.words, &self.writes, count, &history)?;
        let base = mem::replace(&mut self.base, words);
        let view = MemView::new(self.last, now.0, base, history);
        remove_first(&mut self.writes, count);
        self.last = now.0;
        self.newest = now.0;
        Ok(view)
    }

    /// The word at an address at the start of a clock that a view covers, 0 above the memory; one more
    /// read.
    pub fn resolve(&mut self, view: &MemView, c: Clock, a: Addr) -> u16
        requires { Covers view.now c.0 }
        ensures word { result ≡ word_then view.now c.0 a }
        ensures reads { self.new ≡ after_reads self.old 1 }
    {
        count_read(&mut self.reads);
        view.at(c, a)
    }
}

/// How many of the writes have clocks below one: they come first.
pub(crate) fn count_below(writes: &[Write], clock: u64) -> usize
    requires { IsNonDecreasingBy (λ (write : WriteValue). write.clock) writes.now }
    ensures within { result ≤ length writes.now }
    ensures below { take result writes.now ≡ writes_below clock writes.now }
    ensures from { drop result writes.now ≡ writes_from clock writes.now }
{
    writes.partition_point(|write| write.clock < clock)
}

/// The words after the first writes. Where these are all, they are the present words.
fn pages_after(
    base: &Pages,
    words: &[u16],
    writes: &[Write],
    count: usize,
    history: &History,
) -> Result<Pages, OutOfMemory>
    requires within { count ≤ length writes.now }
    requires present { words.now ≡ words_after base.now writes.now }
    requires same { (place : ℕ) → writes_to place history.now.writes
        ≡ writes_to place (take count writes.now) }
    ensures { IfOk result (λ after. after ≡ words_after base.now (take count writes.now)) }
{
    if count == writes.len() {
        return changed_pages(base, words, history);
    }
    let mut after = base.share()?;
    for write in &writes[..count] {
        after.set_word(write.place as usize, write.word)?;
    }
    Ok(after)
}

/// The pages of words, which share with older pages those that none of the writes is to.
pub(crate) fn changed_pages(
    base: &Pages,
    words: &[u16],
    history: &History,
) -> Result<Pages, OutOfMemory>
    requires size { length words.now ≡ length base.now }
    requires unchanged { (place : ℕ) → writes_to place history.now.writes ≡ []
        → slice_index base.now place ≡ slice_index words.now place }
    ensures { IfOk result (λ pages. pages ≡ words.now) }
{
    let mut after = base.share()?;
    let count = after.count();
    let mut next = 0;
    while next < history.writes().len() {
        let page = history.writes()[next].place as usize / PAGE;
        if page < count {
            after.set_page(page, &words[PAGE * page..PAGE * page + PAGE])?;
        }
        next = history.next_page(next);
    }
    Ok(after)
}

/// One more read; the count stands still at the greatest u64.
#[inline(always)]
pub(crate) fn count_read(reads: &mut u64)
    ensures { reads.new ≡ min (reads.old + 1) (2 ^ 64 - 1) }
{
    if *reads < u64::MAX {
        *reads += 1;
    }
}

/// The present word at an address, 0 above the memory.
#[inline(always)]
fn present_word(words: &[u16], at: Addr) -> u16
    ensures { result ≡ slice_index words.now (word_index at) }
{
    let place = at.value as usize / 2;
    if place < words.len() { words[place] } else { 0 }
}

/// Writes a word at a place; above the memory no word changes.
#[inline(always)]
fn put_word(words: &mut Vec<u16>, place: usize, word: u16)
    ensures { words.new.items ≡ slice_set words.old.items place word }
{
    if place < words.len() {
        words[place] = word;
    }
}

/// Takes the first writes out of a list. Where these are all they are not copied. After a refusal all is as
/// before.
pub(crate) fn take_first(
    alloc: Global,
    writes: &mut Vec<Write>,
    count: usize,
) -> Result<Vec<Write>, OutOfMemory>
    requires { count ≤ length writes.old.items }
    ensures first { IfOk result (λ list. list.items ≡ take count writes.old.items) }
    ensures rest { OnOk result (writes.new.items ≡ drop count writes.old.items) }
    ensures refused { OnErr result (writes.new ≡ writes.old) }
{
    if count == writes.len() {
        let none = Vec::with_capacity(alloc, count)?;
        return Ok(mem::replace(writes, none));
    }
    copy_first(alloc, writes, count)
}

/// The same where not all are taken. It stands apart, so that where all are taken it costs nothing.
#[cold]
#[inline(never)]
fn copy_first(
    alloc: Global,
    writes: &mut Vec<Write>,
    count: usize,
) -> Result<Vec<Write>, OutOfMemory>
    requires { count ≤ length writes.old.items }
    ensures first { IfOk result (λ list. list.items ≡ take count writes.old.items) }
    ensures rest { OnOk result (writes.new.items ≡ drop count writes.old.items) }
    ensures refused { OnErr result (writes.new ≡ writes.old) }
{
    let first = Vec::from_slice(alloc, &writes[..count])?;
    remove_first(writes, count);
    Ok(first)
}

/// Removes the first writes.
fn remove_first(writes: &mut Vec<Write>, count: usize)
    requires { count ≤ length writes.old.items }
    ensures { writes.new.items ≡ drop count writes.old.items }
{
    writes.rotate_left(count);
    writes.truncate(writes.len() - count);
}

/// The words of the chip memory of a size that an image makes.
fn image_words(alloc: Global, image: &[u8], size: ChipSize) -> Result<Vec<u16>, OutOfMemory>
    requires { length image.now ≤ bytes_of size }
    ensures { IfOk result (λ list. list.items ≡ memory_of size image.now) }
{
    let count = size.bytes() as usize / 2;
    let mut list = Vec::with_capacity(alloc, count)?;
    push_words(&mut list, image)?;
    list.resize(count, 0)?;
    Ok(list)
}

/// Appends the words that bytes make.
fn push_words(into: &mut Vec<u16>, bytes: &[u8]) -> Result<(), OutOfMemory>
    ensures { OnOk result (into.new.items ≡ into.old.items ++ words bytes.now) }
{
    let mut rest = bytes;
    while let [high, low, after @ ..] = rest {
        into.push(u16::from_be_bytes([*high, *low]))?;
        rest = after;
    }
    Ok(())
}

ghost use Rattle.mem_versions.specs.Chip.{with_half};

/// The word with one of its halves replaced.
fn half_replaced(word: u16, high: bool, byte: u8) -> u16
    ensures { result ≡ with_half word high byte }
{
    let [first, second] = word.to_be_bytes();
    if high {
        u16::from_be_bytes([byte, second])
    } else {
        u16::from_be_bytes([first, byte])
    }
}
