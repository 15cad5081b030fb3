//! Words in pages that several owners share, copied where a shared page is written. Pages stand in
//! groups, which are shared too: one more owner of all is one more of each group.

ghost use Rattle.std.specs.Prelude.{◌≡◌, ◌+◌, ◌*◌, ◌/◌, ◌%◌, ◌^◌, ◌<◌, ◌≤◌, ℕ, length, take, drop, slice_get, slice_set, IfOk, OnOk, OnErr, All};
ghost use Rattle.std.specs.Arc.{arc_value};
ghost use Rattle.std.specs.List.{flat_map};
ghost use Rattle.mem_versions.specs.code.Pages.{HasPage};

use crate::group::{Group, PAGE};
use ocs_base::OutOfMemory;
use std::alloc::Global;
use std::marker::Model;
use std::sync::Arc;

/// How many words a group of pages has.
const GROUP: usize = 8192;

/// How many pages a group has.
const PAGES: usize = 32;

/// The words of chip memory, group by group of pages.
#[derive(Drop)]
pub struct Pages {
    alloc: Global,
    groups: Vec<Arc<Group>>,
}

impl Model for Pages {
    ghost use Rattle.std.specs.Prelude.{◌≡◌, ◌<◌, ◌^◌, ℕ, List, All, length};
    ghost use Rattle.std.specs.List.{flat_map};
    ghost use Rattle.std.specs.Arc.{arc_value};

    ghost Value = { List ℕ };

    ghost view = { λ p. flat_map arc_value p.groups.items };

    ghost invariant = { λ p. (length p.groups.items < 2 ^ 51)
        × All (λ group. length (arc_value group) ≡ 8192) p.groups.items };
}

impl Pages {
    /// The pages of words that fill whole groups.
    pub fn new(alloc: Global, words: &[u16]) -> Result<Pages, OutOfMemory>
        requires { length words.now % 8192 ≡ 0 }
        ensures { IfOk result (λ pages. pages ≡ words.now) }
    {
        let groups = group_list(alloc, words)?;
        Ok(Pages { alloc, groups })
    }

    /// One more owner of each page; no word is copied.
    pub fn share(&self) -> Result<Pages, OutOfMemory>
        ensures { IfOk result (λ pages. pages ≡ self.now) }
    {
        let groups = self.groups.clone()?;
        Ok(Pages {
            alloc: self.alloc,
            groups,
        })
    }

    /// The word at a place; none behind the last page.
    #[inline(always)]
    pub fn get(&self, place: usize) -> Option<u16>
        ensures { result ≡ slice_get self.now place }
    {
        match self.groups.get(place / GROUP) {
            Some(group) => Some(group.word(place % GROUP)),
            None => None,
        }
    }

    /// The words of a page.
    pub fn page(&self, number: usize) -> &[u16]
        requires { 256 * number + 256 ≤ length self.now }
        ensures words { result.now ≡ take 256 (drop (256 * number) self.now) }
        ensures size { length result.now ≡ 256 }
    {
        self.groups[number / PAGES].page(number % PAGES)
    }

    /// How many pages there are.
    pub fn count(&self) -> usize
        ensures size { length self.now ≡ 256 * result }
        ensures room { result < 2 ^ 56 }
    {
        PAGES * self.groups.len()
    }

    /// Writes a word at a place; behind the last page nothing is written. After a refusal all is as before.
    #[inline(always)]
    pub fn set_word(&mut self, place: usize, word: u16) -> Result<(), OutOfMemory>
        ensures ok { OnOk result (self.new ≡ slice_set self.old place word) }
        ensures refused { OnErr result (self.new ≡ self.old) }
    {
        if place / GROUP < self.groups.len() {
            self.set_held_word(place, word)
        } else {
            Ok(())
        }
    }

    /// Replaces the words of a page by others. After a refusal all is as before.
    pub fn set_page(&mut self, number: usize, words: &[u16]) -> Result<(), OutOfMemory>
        requires within { 256 * number + 256 ≤ length self.old }
        requires size { length words.now ≡ 256 }
        ensures ok { OnOk result (HasPage self.old number words.now self.new) }
        ensures refused { OnErr result (self.new ≡ self.old) }
    {
        replace_page(
            self.alloc,
            &mut self.groups[number / PAGES],
            number % PAGES,
            words,
        )
    }

    /// The words in one piece, with no other owner.
    pub fn copied(&self) -> Result<Vec<u16>, OutOfMemory>
        ensures { IfOk result (λ list. list.items ≡ self.now) }
    {
        let mut list = Vec::with_capacity(self.alloc, PAGE * self.count())?;
        for number in 0..self.count() {
            list.extend_from_slice(self.page(number))?;
        }
        Ok(list)
    }

    /// Writes a word at a place that a page has. After a refusal all is as before.
    fn set_held_word(&mut self, place: usize, word: u16) -> Result<(), OutOfMemory>
        requires { place < length self.old }
        ensures ok { OnOk result (self.new ≡ slice_set self.old place word) }
        ensures refused { OnErr result (self.new ≡ self.old) }
    {
        write_word(
            self.alloc,
            &mut self.groups[place / GROUP],
            place % GROUP,
            word,
        )
    }
}

/// The groups of words, each with one owner.
fn group_list(alloc: Global, words: &[u16]) -> Result<Vec<Arc<Group>>, OutOfMemory>
    requires { length words.now % 8192 ≡ 0 }
    ensures words { IfOk result (λ list. flat_map arc_value list.items ≡ words.now) }
    ensures room { IfOk result (λ list. length list.items < 2 ^ 51) }
    ensures size { IfOk result (λ list. All (λ group. length (arc_value group) ≡ 8192) list.items) }
{
    let count = words.len() / GROUP;
    let mut list = Vec::with_capacity(alloc, count)?;
    for number in 0..count {
        let start = number * GROUP;
        let group = Group::new(alloc, &words[start..start + GROUP])?;
        list.push(Arc::new(alloc, group)?)?;
    }
    Ok(list)
}

/// Writes a word of a group: in place where the group has no other owner, else in a copy that shares
/// the other pages.
fn write_word(
    alloc: Global,
    group: &mut Arc<Group>,
    index: usize,
    word: u16,
) -> Result<(), OutOfMemory>
    requires { index < length (arc_value group.old) }
    ensures ok { OnOk result (arc_value group.new ≡ slice_set (arc_value group.old) index word) }
    ensures refused { OnErr result (arc_value group.new ≡ arc_value group.old) }
{
    if let Some(own) = Arc::get_mut(group) {
        return own.set_word(alloc, index, word);
    }
    *group = changed_copy(alloc, group, index, word)?;
    Ok(())
}

/// Replaces a page of a group: in place where the group has no other owner, else in a copy that
/// shares the other pages.
fn replace_page(
    alloc: Global,
    group: &mut Arc<Group>,
    number: usize,
    words: &[u16],
) -> Result<(), OutOfMemory>
    requires within { 256 * number + 256 ≤ length (arc_value group.old) }
    requires size { length words.now ≡ 256 }
    ensures ok { OnOk result (HasPage (arc_value group.old) number words.now (arc_value group.new)) }
    ensures refused { OnErr result (arc_value group.new ≡ arc_value group.old) }
{
    if let Some(own) = Arc::get_mut(group) {
        return own.set_page(alloc, number, words);
    }
    let mut copy = group.share()?;
    copy.set_page(alloc, number, words)?;
    *group = Arc::new(alloc, copy)?;
    Ok(())
}

/// A copy of a group with a word written. It stands apart, so that a write in place pays for no copy.
#[cold]
#[inline(never)]
fn changed_copy(
    alloc: Global,
    group: &Group,
    index: usize,
    word: u16,
) -> Result<Arc<Group>, OutOfMemory>
    requires { index < length group.now }
    ensures { IfOk result (λ copy. arc_value copy ≡ slice_set group.now index word) }
{
    let mut copy = group.share()?;
    copy.set_word(alloc, index, word)?;
    Ok(Arc::new(alloc, copy)?)
}
