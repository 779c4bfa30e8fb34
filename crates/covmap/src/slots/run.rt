//! Makes slots for the keys of a run.

ghost use Rattle.std.specs.Prelude.{◌≡◌, ◌<◌, ◌≤◌, Some, IfOk, OnErr, OnOk, false, length, slice_get};
ghost use Rattle.covmap.specs.RunPage.{AreBefore, FirstHere, IsGrown};
ghost use Rattle.covmap.specs.SlotPlace.{at};
ghost use Rattle.covmap.specs.Slots.{IsAscending, IsGap, filled, page_at, slots_of};
ghost use Rattle.covmap.specs.Staged.{AreColumnsOf, staged_of};

use crate::key::{Addend, Key, Query, Value};
use crate::slots::growth::make_slot;
use crate::slots::page::Page;
use crate::slots::staged::StagedColumns;
use crate::slots::{PAGE_SLOTS, SlotIndex, Slots, push};
use std::alloc::{AllocError, Allocator};

/// The number of items below which the rest of a run is short. A new key above all others goes to the last page if the run is short
/// and the last page isn't full. Otherwise the key begins a new page.
const SHORT_RUN: usize = 32;

impl SlotIndex {
    /// The place of slot `index` on the same page.
    pub(crate) fn at(self, index: usize) -> SlotIndex {
        SlotIndex {
            page: self.page,
            index,
        }
    }
}

impl<K: Key, V, A: Allocator> Slots<K, V, A> {
    /// Whether the last page exists and isn't full.
    fn has_room(&self) -> bool {
        match self.pages.last() {
            Some(page) => page.len() < PAGE_SLOTS,
            None => false,
        }
    }

    /// Whether a new key that belongs at `place` goes to an existing page. `len` is the number of items left in the run.
    #[inline]
    fn takes(&self, place: SlotIndex, len: usize) -> bool
        ensures { result ≡ false → length self.now ≤ place.page }
    {
        if place.page < self.count() {
            return true;
        }
        // A short run fills the last page first, so that short runs don't leave nearly empty pages.
        self.has_room() && len < SHORT_RUN
    }

    /// The place, on the page of `guess`, at which to look for a key first. Searches only this page.
    fn guess_near<Q: Query<K, A>>(&self, query: Q, guess: SlotIndex) -> SlotIndex
    where
        V: Value,
    {
        match self.page(guess.page) {
            Some(page) => guess.at(page.guess_near(guess.index, query)),
            None => guess,
        }
    }

    /// The page `number`, which must exist.
    pub(crate) fn page_there(&self, number: usize) -> &Page<K, V, A>
        requires { number < length self.now }
        ensures page { result.now ≡ page_at self.now number }
        ensures ascending { IsAscending K.cmp (page_at self.now number) }
    {
        &self.pages[number]
    }
}

impl<K: Key + Drop, V: Value, A: Allocator + Copy> Slots<K, V, A> {
    /// Appends a page with empty slots for the keys at the front of `run`, which must exceed all existing keys.
    fn push_run<Q: Query<K, A>, M: Addend<V>>(
        &mut self,
        alloc: A,
        run: &[(Q, M)],
    ) -> Result<(), AllocError>
        requires some { 0 < length run.now }
        requires last { AreBefore K.cmp Q.named (slots_of self.old) run.now }
        ensures ok { OnOk result (IsGrown K.cmp Q.named run.now self.old self.new) }
        ensures err { OnErr result (self.new ≡ self.old) }
    {
        let page = Page::of_run(alloc, run)?;
        push(&mut self.pages, page)?;
        Ok(())
    }
}

/// Returns the place of the run's first key. Inserts empty slots first if this key has no slot: one for this key, and one for each
/// following key that is greater than the key before and belongs to the same page.
pub(crate) fn make_slots<
    K: Key + Drop,
    V: Value,
    A: Allocator + Copy,
    Q: Query<K, A>,
    M: Addend<V>,
>(
    slots: &mut Slots<K, V, A>,
    staged: &mut StagedColumns<V, A>,
    alloc: A,
    run: &[(Q, M)],
    guess: SlotIndex,
) -> Result<SlotIndex, AllocError>
    requires some { 0 < length run.now }
    requires columns { AreColumnsOf slots.old staged.old }
    ensures columns { AreColumnsOf slots.new staged.new }
    ensures committed { filled (slots_of slots.new) ≡ filled (slots_of slots.old) }
    ensures staged { OnOk result (filled (slots_of (staged_of slots.new staged.new)) ≡ filled (slots_of (staged_of slots.old staged.old))) }
    ensures place { IfOk result (λ place. FirstHere K.cmp Q.named (page_at slots.new place.page) place.index run.now) }
{
    let (query, _) = run[0];
    match slots.find(query, slots.guess_near(query, guess)) {
        Ok(place) => Ok(place),
        Err(place) => make_absent(slots, staged, alloc, run, place),
    }
}

/// Like `make_slots`, for a run whose first key has no slot. The key would be inserted at `place`.
#[inline]
fn make_absent<K: Key + Drop, V: Value, A: Allocator + Copy, Q: Query<K, A>, M: Addend<V>>(
    slots: &mut Slots<K, V, A>,
    staged: &mut StagedColumns<V, A>,
    alloc: A,
    run: &[(Q, M)],
    place: SlotIndex,
) -> Result<SlotIndex, AllocError>
    requires some { 0 < length run.now }
    requires columns { AreColumnsOf slots.old staged.old }
    requires gap { (item : _) → slice_get run.now 0 ≡ Some item → IsGap (λ key. K.cmp key (Q.named item.0)) slots.old (at place) }
    ensures columns { AreColumnsOf slots.new staged.new }
    ensures committed { filled (slots_of slots.new) ≡ filled (slots_of slots.old) }
    ensures staged { OnOk result (filled (slots_of (staged_of slots.new staged.new)) ≡ filled (slots_of (staged_of slots.old staged.old))) }
    ensures place { IfOk result (λ place. FirstHere K.cmp Q.named (page_at slots.new place.page) place.index run.now) }
{
    if slots.takes(place, run.len()) {
        return make_within(slots, staged, alloc, run, place);
    }
    put_run(slots, staged, alloc, run)
}

/// Like `make_absent`, but inserts each slot separately instead of appending a page for many keys.
#[inline]
fn make_within<K: Key + Drop, V: Value, A: Allocator + Copy, Q: Query<K, A>, M: Addend<V>>(
    slots: &mut Slots<K, V, A>,
    staged: &mut StagedColumns<V, A>,
    alloc: A,
    run: &[(Q, M)],
    place: SlotIndex,
) -> Result<SlotIndex, AllocError>
    requires some { 0 < length run.now }
    requires columns { AreColumnsOf slots.old staged.old }
    ensures columns { AreColumnsOf slots.new staged.new }
    ensures committed { filled (slots_of slots.new) ≡ filled (slots_of slots.old) }
    ensures staged { OnOk result (filled (slots_of (staged_of slots.new staged.new)) ≡ filled (slots_of (staged_of slots.old staged.old))) }
    ensures place { IfOk result (λ place. FirstHere K.cmp Q.named (page_at slots.new place.page) place.index run.now) }
{
    make_ahead(slots, staged, alloc, run, place)?;
    let (query, _) = run[0];
    make_slot(slots, staged, alloc, query, place)
}

/// Inserts empty slots for the keys at the front of `run`. Stops when the page is full, or after the first key that belongs to
/// another page or isn't greater than the run's preceding key. Making these slots ahead saves work: once the page has a column of
/// staged values, each new slot must be inserted into the column too.
fn make_ahead<K: Key + Drop, V: Value, A: Allocator + Copy, Q: Query<K, A>, M: Addend<V>>(
    slots: &mut Slots<K, V, A>,
    staged: &mut StagedColumns<V, A>,
    alloc: A,
    run: &[(Q, M)],
    first: SlotIndex,
) -> Result<(), AllocError>
    requires { AreColumnsOf slots.old staged.old }
    ensures columns { AreColumnsOf slots.new staged.new }
    ensures committed { filled (slots_of slots.new) ≡ filled (slots_of slots.old) }
    ensures staged { OnOk result (filled (slots_of (staged_of slots.new staged.new)) ≡ filled (slots_of (staged_of slots.old staged.old))) }
{
    let mut place = first;
    let mut count = 0;
    while count < run.len() {
        let (query, _) = run[count];
        let guess = slots.guess_near(query, place);
        let next = make_slot(slots, staged, alloc, query, guess)?;
        if next.page != first.page || slots.len_of(next.page) == PAGE_SLOTS {
            return Ok(());
        }
        if count > 0 && next.index <= place.index {
            return Ok(());
        }
        place = next;
        count += 1;
    }
    Ok(())
}

/// Appends a page with empty slots for the keys at the front of `run`. Returns the place of the first slot.
fn put_run<K: Key + Drop, V: Value, A: Allocator + Copy, Q: Query<K, A>, M: Addend<V>>(
    slots: &mut Slots<K, V, A>,
    staged: &mut StagedColumns<V, A>,
    alloc: A,
    run: &[(Q, M)],
) -> Result<SlotIndex, AllocError>
    requires some { 0 < length run.now }
    requires columns { AreColumnsOf slots.old staged.old }
    requires last { AreBefore K.cmp Q.named (slots_of slots.old) run.now }
    ensures columns { AreColumnsOf slots.new staged.new }
    ensures committed { filled (slots_of slots.new) ≡ filled (slots_of slots.old) }
    ensures staged { OnOk result (filled (slots_of (staged_of slots.new staged.new)) ≡ filled (slots_of (staged_of slots.old staged.old))) }
    ensures place { IfOk result (λ place. FirstHere K.cmp Q.named (page_at slots.new place.page) place.index run.now) }
{
    let count = slots.count();
    slots.push_run(alloc, run)?;
    Ok(SlotIndex {
        page: count,
        index: 0,
    })
}
