//! Groups of pages: words in pages that several owners share, copied where a shared page is written.

ghost use Rattle.std.specs.Prelude.{◌≡◌, ◌+◌, ◌*◌, ◌/◌, ◌%◌, ◌^◌, ◌<◌, ◌≤◌, ℕ, length, take, drop, slice_get, slice_index, slice_set, IfOk, OnOk, OnErr, All};
ghost use Rattle.std.specs.Arc.{arc_value};
ghost use Rattle.std.specs.List.{flat_map};
ghost use Rattle.mem_versions.specs.code.Pages.{HasPage};

use ocs_base::OutOfMemory;
use std::alloc::Global;
use std::marker::Model;
use std::sync::Arc;

/// How many words a page has.
pub const PAGE: usize = 256;

/// The words of a page.
type Page = [u16; 256];

/// Words that fill whole pages, page by page.
#[derive(Drop)]
pub struct Group {
    list: Vec<Arc<Page>>,
}

impl Model for Group {
    ghost use Rattle.std.specs.Prelude.{◌≡◌, ◌<◌, ◌^◌, ℕ, List, All, length};
    ghost use Rattle.std.specs.List.{flat_map};
    ghost use Rattle.std.specs.Arc.{arc_value};

    ghost Value = { List ℕ };

    ghost view = { λ g. flat_map arc_value g.list.items };

    ghost invariant = { λ g. (length g.list.items < 2 ^ 56)
        × All (λ page. length (arc_value page) ≡ 256) g.list.items };
}

impl Group {
    /// The pages of words that fill whole pages.
    pub fn new(alloc: Global, words: &[u16]) -> Result<Group, OutOfMemory>
        requires { length words.now % 256 ≡ 0 }
        ensures { IfOk result (λ group. group ≡ words.now) }
    {
        let list = page_list(alloc, words)?;
        Ok(Group { list })
    }

    /// One more owner of each page; no word is copied.
    pub fn share(&self) -> Result<Group, OutOfMemory>
        ensures { IfOk result (λ group. group ≡ self.now) }
    {
        let list = self.list.clone()?;
        Ok(Group { list })
    }

    /// The word at a place.
    #[inline(always)]
    pub fn word(&self, place: usize) -> u16
        requires { place < length self.now }
        ensures { result ≡ slice_index self.now place }
    {
        self.list[place / PAGE][place % PAGE]
    }

    /// The words of a page.
    pub fn page(&self, number: usize) -> &[u16]
        requires { 256 * number + 256 ≤ length self.now }
        ensures words { result.now ≡ take 256 (drop (256 * number) self.now) }
        ensures size { length result.now ≡ 256 }
    {
        self.list[number].as_slice()
    }

    /// Writes a word at a place. After a refusal all is as before.
    pub fn set_word(&mut self, alloc: Global, place: usize, word: u16) -> Result<(), OutOfMemory>
        requires { place < length self.old }
        ensures ok { OnOk result (self.new ≡ slice_set self.old place word) }
        ensures refused { OnErr result (self.new ≡ self.old) }
    {
        write_word(alloc, &mut self.list[place / PAGE], place % PAGE, word)
    }

    /// Replaces the words of a page by others. After a refusal all is as before.
    pub fn set_page(
        &mut self,
        alloc: Global,
        number: usize,
        words: &[u16],
    ) -> Result<(), OutOfMemory>
        requires within { 256 * number + 256 ≤ length self.old }
        requires size { length words.now ≡ 256 }
        ensures ok { OnOk result (HasPage self.old number words.now self.new) }
        ensures refused { OnErr result (self.new ≡ self.old) }
    {
        let page = Arc::new(alloc, page_of(words, 0))?;
        self.list[number] = page;
        Ok(())
    }
}

/// The pages of words, each with one owner.
fn page_list(alloc: Global, words: &[u16]) -> Result<Vec<Arc<Page>>, OutOfMemory>
    requires { length words.now % 256 ≡ 0 }
    ensures words { IfOk result (λ list. flat_map arc_value list.items ≡ words.now) }
    ensures room { IfOk result (λ list. length list.items < 2 ^ 56) }
    ensures size { IfOk result (λ list. All (λ page. length (arc_value page) ≡ 256) list.items) }
{
    let count = words.len() / PAGE;
    let mut list = Vec::with_capacity(alloc, count)?;
    for number in 0..count {
        list.push(Arc::new(alloc, page_of(words, number))?)?;
    }
    Ok(list)
}

/// The words of one page.
fn page_of(words: &[u16], number: usize) -> Page
    requires { 256 * number + 256 ≤ length words.now }
    ensures words { result ≡ take 256 (drop (256 * number) words.now) }
    ensures size { length result ≡ 256 }
{
    let start = number * PAGE;
    let mut page = [0; PAGE];
    page.copy_from_slice(&words[start..start + PAGE]);
    page
}

/// Writes a word of a page: in place where the page has no other owner, else in a copy of it.
fn write_word(
    alloc: Global,
    page: &mut Arc<Page>,
    index: usize,
    word: u16,
) -> Result<(), OutOfMemory>
    requires { index < 256 }
    ensures ok { OnOk result (arc_value page.new ≡ slice_set (arc_value page.old) index word) }
    ensures refused { OnErr result (arc_value page.new ≡ arc_value page.old) }
{
    if let Some(words) = Arc::get_mut(page) {
        words[index] = word;
        return Ok(());
    }
    *page = changed_copy(alloc, page, index, word)?;
    Ok(())
}

/// A copy of a page with a word written. It stands apart, so that a write in place pays for no copy.
#[cold]
#[inline(never)]
fn changed_copy(
    alloc: Global,
    page: &Page,
    index: usize,
    word: u16,
) -> Result<Arc<Page>, OutOfMemory>
    requires { index < 256 }
    ensures { IfOk result (λ copy. arc_value copy ≡ slice_set page.now index word) }
{
    let mut copy = *page;
    copy[index] = word;
    Ok(Arc::new(alloc, copy)?)
}
