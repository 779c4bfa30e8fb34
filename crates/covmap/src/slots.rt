//! Slots in ascending order of keys. A slot has a key, and either a committed value or none (an empty slot).
//!
//! A page holds at most 256 slots, so inserting a key moves only a few others. One binary search finds a page by the pages' last
//! keys, and another finds a slot on this page. Looking up all keys in order costs no search if each returned place is the guess
//! for the next look-up. Contracts see the pages, but a caller needs only the list of all slots and the places of keys.

ghost use Rattle.std.specs.Prelude.{◌≡◌, ◌+◌, ◌^◌, ◌<◌, None, [], ◌∷◌, ◌++◌, IfErr, IfNone, IfOk, IfSome, OnErr, OnOk, true, is_some, length, option_map};
ghost use Rattle.std.specs.declared.cmp.Ordering.TheVariants.{Less};
ghost use Rattle.std.specs.List.{AllByRecursion};
ghost use Rattle.covmap.specs.Slots.{AreSlots, IsAscending, IsCut, IsGap, IsPlace, following, ends_before, filled, lead, order_at, page_at, slot_at, slots_of, value_at, with_empty, with_page_split};
ghost use Rattle.covmap.specs.Staged.{column_of, with_page};
ghost use Rattle.covmap.specs.Assigned.{with_slot};
ghost use Rattle.covmap.specs.SlotPlace.{at};

pub(crate) mod growth;
pub(crate) mod images;
pub(crate) mod page;
pub(crate) mod run;
pub(crate) mod staged;

use crate::entries::Entries;
use crate::key::{Key, Query, Value};
use crate::slots::page::Page;
use std::alloc::{AllocError, Allocator};
use std::cmp::Ordering;
use std::marker::Model;

/// The largest number of slots on a page.
const PAGE_SLOTS: usize = 256;

/// The number of slots that a full page keeps when it is split.
const HALF: usize = 128;

/// The place of a key: the number of its page, and the number of its slot on this page.
#[derive(Clone, Copy)]
pub struct SlotIndex {
    page: usize,
    index: usize,
}

impl SlotIndex {
    /// The place of the first slot.
    pub fn first() -> SlotIndex {
        SlotIndex { page: 0, index: 0 }
    }
}

/// Slots in ascending order of their keys. Each slot has a committed value or is empty. Contracts see the pages of slots.
#[derive(Drop)]
pub(crate) struct Slots<K: Key, V, A: Allocator> {
    pages: Vec<Page<K, V, A>, A>,
}

impl<K: Key, V, A: Allocator> Model for Slots<K, V, A> {
    ghost use Rattle.std.specs.Prelude.{List, Option};

    ghost Value = { List (List (K × Option V)) };

    ghost use Rattle.covmap.specs.Slots.{AreSlots};

    ghost view = { λ slots. slots.pages.items };

    ghost invariant = { λ slots. AreSlots K.cmp slots.pages.items };
}

impl<K: Key, V, A: Allocator> Slots<K, V, A> {
    /// An empty list of slots.
    pub(crate) fn new(alloc: A) -> Slots<K, V, A>
        ensures { result ≡ [] }
    {
        Slots {
            pages: Vec::new(alloc),
        }
    }

    /// The number of the first page whose last key isn't less than the queried key.
    fn page_of<Q: Query<K, A>>(&self, query: Q) -> usize
        ensures { result ≡ lead (ends_before (λ key. K.cmp key (Q.named query))) self.now }
    {
        let mut low = 0;
        let mut high = self.pages.len();
        while low < high {
            let middle = low + (high - low) / 2;
            if self.pages[middle].ends_before(query) {
                low = middle + 1;
            } else {
                high = middle;
            }
        }
        low
    }
}

impl<K: Key, V, A: Allocator> Slots<K, V, A> {
    /// The place where the queried key is, or would be inserted. Exactly the keys before this place are less than the queried key.
    fn cut<Q: Query<K, A>>(&self, query: Q) -> SlotIndex
        ensures cut { IsCut (λ key. K.cmp key (Q.named query)) self.now (at result) }
        ensures whole { AreSlots K.cmp self.now }
    {
        let page = self.page_of(query);
        let index = match self.page(page) {
            Some(page) => page.index_of(query),
            None => 0,
        };
        SlotIndex { page, index }
    }

    /// Returns the place of the queried key, or `Err` with the place where this key would be inserted. Costs no search if the key
    /// is at `guess`, or if the returned place is right after `guess`. A key to be inserted at `guess` costs a search only if
    /// `guess` is the first slot of a page.
    pub(crate) fn find<Q: Query<K, A>>(
        &self,
        query: Q,
        guess: SlotIndex,
    ) -> Result<SlotIndex, SlotIndex>
        ensures found { IfOk result (λ place. IsPlace (λ key. K.cmp key (Q.named query)) self.now (at place)) }
        ensures absent { IfErr result (λ place. IsGap (λ key. K.cmp key (Q.named query)) self.now (at place)) }
        ensures whole { AreSlots K.cmp self.now }
    {
        match self.compare_at(guess, query) {
            Ordering::Less => self.find_after(query, guess),
            Ordering::Equal => Ok(guess),
            Ordering::Greater => self.find_before(query, guess),
        }
    }

    /// Like `find`, for a key before `guess`. Looks right after the slot before `guess` if that slot is on the same page and has a
    /// smaller key. Searches all slots otherwise.
    fn find_before<Q: Query<K, A>>(
        &self,
        query: Q,
        guess: SlotIndex,
    ) -> Result<SlotIndex, SlotIndex>
        ensures found { IfOk result (λ place. IsPlace (λ key. K.cmp key (Q.named query)) self.now (at place)) }
        ensures absent { IfErr result (λ place. IsGap (λ key. K.cmp key (Q.named query)) self.now (at place)) }
    {
        if guess.index > 0 {
            let before = SlotIndex {
                page: guess.page,
                index: guess.index - 1,
            };
            if self.compare_at(before, query).is_lt() {
                return self.find_after(query, before);
            }
        }
        self.search(query)
    }

    /// Like `find`, for a key that must be greater than the key at `place`.
    fn find_after<Q: Query<K, A>>(&self, query: Q, place: SlotIndex) -> Result<SlotIndex, SlotIndex>
        requires { order_at (λ key. K.cmp key (Q.named query)) (slot_at self.now (at place)) ≡ Less }
        ensures found { IfOk result (λ place. IsPlace (λ key. K.cmp key (Q.named query)) self.now (at place)) }
        ensures absent { IfErr result (λ place. IsGap (λ key. K.cmp key (Q.named query)) self.now (at place)) }
    {
        let next = self.following(place);
        match self.compare_at(next, query) {
            Ordering::Less => self.search(query),
            Ordering::Equal => Ok(next),
            Ordering::Greater => Err(next),
        }
    }

    /// Like `find`, by a binary search among all slots.
    fn search<Q: Query<K, A>>(&self, query: Q) -> Result<SlotIndex, SlotIndex>
        ensures found { IfOk result (λ place. IsPlace (λ key. K.cmp key (Q.named query)) self.now (at place)) }
        ensures absent { IfErr result (λ place. IsGap (λ key. K.cmp key (Q.named query)) self.now (at place)) }
    {
        let place = self.cut(query);
        if self.compare_at(place, query).is_eq() {
            return Ok(place);
        }
        Err(place)
    }

    /// Compares the key at `place` with the queried key. Returns `Greater` if `place` has no slot.
    fn compare_at<Q: Query<K, A>>(&self, place: SlotIndex, query: Q) -> Ordering
        ensures order { result ≡ order_at (λ key. K.cmp key (Q.named query)) (slot_at self.now (at place)) }
        ensures whole { AreSlots K.cmp self.now }
    {
        match self.key_at(place) {
            Some(key) => query.compare(key),
            None => Ordering::Greater,
        }
    }

    /// The place right after `place`, which must have a slot: the next slot of the same page, or the first slot of the next page.
    fn following(&self, place: SlotIndex) -> SlotIndex
        requires { place.index < length (page_at self.now place.page) }
        ensures next { at result ≡ following self.now (at place) }
        ensures whole { AreSlots K.cmp self.now }
    {
        let len = self.len_of(place.page);
        let index = place.index + 1;
        if index < len {
            return SlotIndex {
                page: place.page,
                index,
            };
        }
        SlotIndex {
            page: place.page + 1,
            index: 0,
        }
    }

    /// The key of the slot at `place`, or `None` if `place` has no slot.
    fn key_at(&self, place: SlotIndex) -> Option<&K>
        ensures key { option_map (λ key. key.now) result ≡ option_map (λ slot. slot.0) (slot_at self.now (at place)) }
        ensures whole { AreSlots K.cmp self.now }
    {
        match self.page(place.page) {
            Some(page) => page.key(place.index),
            None => None,
        }
    }

    /// Does nothing, but proves that each page has 1 to 256 slots and that all keys ascend.
    pub(crate) fn are_whole(&self)
        ensures { AreSlots K.cmp self.now }
    {
        let _ = &self.pages;
    }

    /// The number of pages.
    fn count(&self) -> usize
        ensures { result ≡ length self.now }
    {
        self.pages.len()
    }

    /// The number of slots on page `number`, or 0 if this page doesn't exist.
    pub(crate) fn len_of(&self, number: usize) -> usize
        ensures long { result ≡ length (page_at self.now number) }
        ensures whole { AreSlots K.cmp self.now }
        ensures fits { length self.now < 2 ^ 64 }
    {
        match self.page(number) {
            Some(page) => page.len(),
            None => 0,
        }
    }

    /// The page `number`, or `None` if this page doesn't exist.
    fn page(&self, number: usize) -> Option<&Page<K, V, A>>
        ensures some { IfSome result (λ page. page_at self.now number ≡ page.now) }
        ensures none { IfNone result (page_at self.now number ≡ []) }
        ensures ascending { IsAscending K.cmp (page_at self.now number) }
        ensures whole { AreSlots K.cmp self.now }
        ensures fits { length self.now < 2 ^ 64 }
    {
        self.pages.get(number)
    }
}

impl<K: Key, V, A: Allocator> Slots<K, V, A> {
    /// Returns an iterator over the slots that have a value, in order.
    pub(crate) fn entries(&self) -> Entries<'_, K, V, A>
        ensures { result ≡ filled (slots_of self.now) }
    {
        Entries::of(&self.pages)
    }
}

impl<K: Key, V: Value, A: Allocator> Slots<K, V, A> {
    /// The value in the slot at `place`, if any.
    pub(crate) fn value_at(&self, place: SlotIndex) -> Option<V>
        ensures { result ≡ value_at self.now (at place) }
    {
        match self.page(place.page) {
            Some(page) => page.value(place.index),
            None => None,
        }
    }

    /// Copies the values of page `number`, one for each slot.
    fn column(&self, alloc: A, number: usize) -> Result<Vec<Option<V>, A>, AllocError>
        ensures { IfOk result (λ column. column.items ≡ column_of (page_at self.now number)) }
    {
        match self.page(number) {
            Some(page) => page.column(alloc),
            None => Ok(Vec::new(alloc)),
        }
    }

    /// Replaces the values of page `number` with `column`, one value for each slot.
    pub(crate) fn fill(&mut self, number: usize, column: Vec<Option<V>, A>)
        requires there { number < length self.old }
        requires fits { length column.items ≡ length (page_at self.old number) }
        ensures { self.new ≡ with_page number column.items self.old }
    {
        self.pages[number].fill(column);
    }

    /// Replaces the value in the slot at `place`, which must have a value. `None` empties the slot.
    pub(crate) fn write(&mut self, place: SlotIndex, value: Option<V>)
        requires page { place.page < length self.old }
        requires slot { is_some (value_at self.old (at place)) ≡ true }
        ensures { self.new ≡ with_slot (at place) value self.old }
    {
        self.pages[place.page].write(place.index, value);
    }
}

impl<K: Key + Drop, V: Value, A: Allocator + Copy> Slots<K, V, A> {
    /// Inserts an empty slot for `key` at `place`, on a page that must have room.
    fn insert(&mut self, place: SlotIndex, key: K) -> Result<(), AllocError>
        requires there { place.page < length self.old }
        requires room { length (page_at self.old place.page) < 256 }
        requires gap { IsGap (λ other. K.cmp other key) self.old (at place) }
        ensures ok { OnOk result (self.new ≡ with_empty (at place) key self.old) }
        ensures err { OnErr result (self.new ≡ self.old) }
    {
        self.pages[place.page].insert(place.index, key)
    }

    /// Appends a page with an empty slot for `key`, which must be the greatest key.
    fn push_page(&mut self, alloc: A, key: K) -> Result<(), AllocError>
        requires { AllByRecursion (λ slot. K.cmp slot.0 key ≡ Less) (slots_of self.old) }
        ensures ok { OnOk result (self.new ≡ self.old ++ ((key, None) ∷ []) ∷ []) }
        ensures err { OnErr result (self.new ≡ self.old) }
    {
        let page = Page::of(alloc, key)?;
        push(&mut self.pages, page)?;
        Ok(())
    }

    /// Moves the second half of page `number`, which must be full, to a new page right after this page.
    fn split(&mut self, alloc: A, number: usize) -> Result<(), AllocError>
        requires there { number < length self.old }
        requires full { length (page_at self.old number) ≡ 256 }
        ensures ok { OnOk result (self.new ≡ with_page_split number self.old) }
        ensures fits { length self.old < 2 ^ 64 }
        ensures err { OnErr result (self.new ≡ self.old) }
    {
        self.pages.reserve(1)?;
        let following = self.pages[number].split(alloc)?;
        self.pages.insert(number + 1, following)?;
        Ok(())
    }
}

/// Appends an item. Reserves capacity for only one item if the list is empty, since most lists of pages have one page.
fn push<T: Drop, A: Allocator>(list: &mut Vec<T, A>, item: T) -> Result<(), AllocError>
    ensures ok { OnOk result (list.new.items ≡ list.old.items ++ item ∷ []) }
    ensures err { OnErr result (list.new.items ≡ list.old.items) }
{
    if list.is_empty() {
        list.reserve_exact(1)?;
    }
    list.push(item)?;
    Ok(())
}
