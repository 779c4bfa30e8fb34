//! Staged values, stored beside the slots until a commit or a rollback.

ghost use Rattle.std.specs.Prelude.{◌≡◌, ◌↔◌, ◌+◌, ◌^◌, ◌<◌, ◌≤◌, nat_lt, None, [], ◌∷◌, ◌++◌, IfNone, IfOk, IfSome, IsTrue, OnErr, OnOk, length, map, option_map, slice_get};
ghost use Rattle.std.specs.List.{AllByRecursion, insert};
ghost use Rattle.std.specs.Option.{option_to_list};
ghost use Rattle.covmap.specs.Staged.{AreAscending, AreColumnsOf, IsSplit, IsTouched, IsWidened, staged_of, moved, number_after, with_value_at};
ghost use Rattle.covmap.specs.SlotPlace.{at};
ghost use Rattle.covmap.specs.Slots.{lead, page_at, value_at, value_in};

pub(crate) mod images;
pub(crate) mod run;

use crate::key::{Addend, Key, Value, copy_of};
use crate::map::Sum;
use crate::slots::{HALF, SlotIndex, Slots};
use std::alloc::{AllocError, Allocator};
use std::marker::Model;

/// The columns of staged values, each with the number of its page. A column has an optional value for each slot. A page on which
/// nothing is staged has no column. Contracts see the numbers and the columns.
#[derive(Drop)]
pub(crate) struct StagedColumns<V, A: Allocator> {
    columns: Vec<(usize, Vec<Option<V>, A>), A>,
}

impl<V, A: Allocator> Model for StagedColumns<V, A> {
    ghost use Rattle.std.specs.Prelude.{ℕ, List, Option, map};
    ghost use Rattle.covmap.specs.Staged.{AreAscending};

    ghost Value = { List (ℕ × List (Option V)) };

    ghost view = { λ staged. map (λ column. (column.0, column.1.items)) staged.columns.items };

    ghost invariant = { λ staged. AreAscending (map (λ column. (column.0, column.1.items)) staged.columns.items) };
}

impl<V, A: Allocator> StagedColumns<V, A> {
    /// An empty list of columns, so nothing is staged. Never allocates.
    pub(crate) fn new(alloc: A) -> StagedColumns<V, A>
        ensures { result ≡ [] }
    {
        StagedColumns {
            columns: Vec::new(alloc),
        }
    }

    /// Removes and returns the column with the greatest page number. Returns `None` and frees the list's memory if the list is
    /// empty.
    pub(crate) fn pop(&mut self) -> Option<(usize, Vec<Option<V>, A>)>
        ensures some { IfSome result (λ column. self.old ≡ self.new ++ (column.0, column.1.items) ∷ []) }
        ensures none { IfNone result (self.new ≡ []) }
        ensures same { IfNone result (self.old ≡ []) }
        ensures ascending { AreAscending self.old }
    {
        pop_last(&mut self.columns)
    }

    /// The number of columns that belong to pages before `page`. Costs no search if the last column belongs to `page`.
    fn index_of(&self, page: usize) -> usize
        ensures { result ≡ lead (λ column. nat_lt column.0 page) self.now }
    {
        let last = self.columns.len().saturating_sub(1);
        if self.has(last, page) {
            return last;
        }
        self.search(page)
    }

    /// Like `index_of`, by a binary search among all columns.
    fn search(&self, page: usize) -> usize
        ensures { result ≡ lead (λ column. nat_lt column.0 page) self.now }
    {
        let mut low = 0;
        let mut high = self.columns.len();
        while low < high {
            let middle = low + (high - low) / 2;
            if self.columns[middle].0 < page {
                low = middle + 1;
            } else {
                high = middle;
            }
        }
        low
    }

    /// Whether the column at `index` exists and belongs to `page`.
    fn has(&self, index: usize, page: usize) -> bool
        ensures there { IsTrue result ↔ (option_map (λ column. column.0) (slice_get self.now index) ≡ Some page) }
        ensures ascending { AreAscending self.now }
    {
        match self.columns.get(index) {
            Some(column) => column.0 == page,
            None => false,
        }
    }
}

impl<V: Drop, A: Allocator> StagedColumns<V, A> {
    /// Discards all columns, and frees their memory.
    pub(crate) fn clear(&mut self)
        ensures { self.new ≡ [] }
    {
        self.columns.clear();
        self.columns.shrink_to_fit();
    }
}

impl<V: Value, A: Allocator> StagedColumns<V, A> {
    /// Returns the index of the column of `page`. Makes this column first, with the committed values, if the page has no column.
    fn touch<K: Key>(
        &mut self,
        alloc: A,
        slots: &Slots<K, V, A>,
        page: usize,
    ) -> Result<usize, AllocError>
        requires there { page < length slots.now }
        requires columns { AreColumnsOf slots.now self.old }
        ensures ok { IfOk result (IsTouched slots.now self.old self.new page) }
        ensures err { OnErr result (self.new ≡ self.old) }
    {
        // Staging in order uses the last column again and again.
        let last = self.columns.len().saturating_sub(1);
        if self.has(last, page) {
            return Ok(last);
        }
        let index = self.search(page);
        if self.has(index, page) {
            return Ok(index);
        }
        let column = slots.column(alloc, page)?;
        insert_first(&mut self.columns, index, (page, column))?;
        Ok(index)
    }

    /// Stages `value` in the slot at `place`, which must exist.
    pub(crate) fn put<K: Key>(
        &mut self,
        alloc: A,
        slots: &Slots<K, V, A>,
        place: SlotIndex,
        value: V,
    ) -> Result<(), AllocError>
        requires page { place.page < length slots.now }
        requires slot { place.index < length (page_at slots.now place.page) }
        requires columns { AreColumnsOf slots.now self.old }
        ensures columns { AreColumnsOf slots.now self.new }
        ensures ok { OnOk result (staged_of slots.now self.new ≡ with_value_at (at place) value (staged_of slots.now self.old)) }
        ensures err { OnErr result (self.new ≡ self.old) }
    {
        let index = self.touch(alloc, slots, place.page)?;
        self.columns[index].1[place.index] = Some(value);
        Ok(())
    }

    /// Adds `addend` to the staged value of the slot at `place`, which must exist. Returns the value before and after.
    pub(crate) fn add<K: Key, M: Addend<V>>(
        &mut self,
        alloc: A,
        slots: &Slots<K, V, A>,
        place: SlotIndex,
        addend: M,
    ) -> Result<Sum<V>, AllocError>
        requires page { place.page < length slots.now }
        requires slot { place.index < length (page_at slots.now place.page) }
        requires columns { AreColumnsOf slots.now self.old }
        requires fits { M.fits addend (value_at (staged_of slots.now self.old) (at place)) }
        ensures columns { AreColumnsOf slots.now self.new }
        ensures before { IfOk result (λ sum. sum.before ≡ value_at (staged_of slots.now self.old) (at place)) }
        ensures after { IfOk result (λ sum. sum.after ≡ M.sum addend sum.before) }
        ensures ok { IfOk result (λ sum. staged_of slots.now self.new ≡ with_value_at (at place) sum.after (staged_of slots.now self.old)) }
        ensures err { OnErr result (self.new ≡ self.old) }
    {
        let index = self.touch(alloc, slots, place.page)?;
        let before = self.value_of(index, place.index);
        let after = addend.plus(&before);
        self.columns[index].1[place.index] = Some(after.copy());
        Ok(Sum {
            before,
            after,
            place,
        })
    }

    /// The staged value of the slot at `place`, if any.
    pub(crate) fn value_at<K: Key>(&self, slots: &Slots<K, V, A>, place: SlotIndex) -> Option<V>
        requires page { place.page < length slots.now }
        requires columns { AreColumnsOf slots.now self.now }
        ensures { result ≡ value_at (staged_of slots.now self.now) (at place) }
    {
        let index = self.index_of(place.page);
        if self.has(index, place.page) {
            return self.value_of(index, place.index);
        }
        slots.value_at(place)
    }

    /// The value at index `at` of the column at index `index`.
    fn value_of(&self, index: usize, at: usize) -> Option<V>
        ensures { (column : _) → slice_get self.now index ≡ Some column → result ≡ value_in (slice_get column.1 at) }
    {
        match self.columns.get(index) {
            Some(column) => match column.1.get(at) {
                Some(value) => copy_of(value),
                None => None,
            },
            None => None,
        }
    }
}

impl<V: Value, A: Allocator + Copy> StagedColumns<V, A> {
    /// Updates the columns after an empty slot was inserted at `place`. Inserts an empty value into the page's column, if the page
    /// has one.
    pub(crate) fn insert_empty(&mut self, place: SlotIndex) -> Result<(), AllocError>
        requires { AllByRecursion (λ column. column.0 ≡ place.page → place.index ≤ length column.1) self.old }
        ensures ok { OnOk result (IsWidened place.page place.index self.old self.new) }
    {
        let index = self.index_of(place.page);
        if !self.has(index, place.page) {
            return Ok(());
        }
        insert_empty(&mut self.columns[index].1, place.index)?;
        Ok(())
    }

    /// Updates the columns after page `page` was split in two. Adds 1 to the number of each later page's column. Splits the page's
    /// own column, if the page has one.
    pub(crate) fn split(&mut self, page: usize) -> Result<(), AllocError>
        requires numbers { AllByRecursion (λ column. column.0 + 1 < 2 ^ 64) self.old }
        requires full { AllByRecursion (λ column. column.0 ≡ page → length column.1 ≡ 256) self.old }
        requires fits { page + 1 < 2 ^ 64 }
        ensures ok { OnOk result (IsSplit page self.old self.new) }
    {
        self.renumber(page);
        let index = self.index_of(page);
        if !self.has(index, page) {
            return Ok(());
        }
        self.columns.reserve(1)?;
        let following = self.columns[index].1.split_off(HALF)?;
        self.columns.insert(index + 1, (page + 1, following))?;
        Ok(())
    }

    /// Adds 1 to the page number of each column that belongs to a page after `page`.
    fn renumber(&mut self, page: usize)
        requires { AllByRecursion (λ column. column.0 + 1 < 2 ^ 64) self.old }
        ensures { self.new ≡ map (moved page) self.old }
    {
        renumber(&mut self.columns, page);
    }
}

/// Removes and returns the last item. Returns `None` and frees the list's memory if the list is empty.
fn pop_last<T, A: Allocator>(list: &mut Vec<T, A>) -> Option<T>
    ensures items { list.old.items ≡ list.new.items ++ option_to_list result }
    ensures some { IfSome result (λ last. list.old.items ≡ list.new.items ++ last ∷ []) }
    ensures none { IfNone result (list.new.items ≡ []) }
    ensures same { IfNone result (list.old.items ≡ []) }
{
    if list.is_empty() {
        list.shrink_to_fit();
    }
    list.pop()
}

/// Inserts `item` at `index`. Reserves capacity for only one item if the list is empty, since most lists of columns have one
/// column.
fn insert_first<T: Drop, A: Allocator>(
    list: &mut Vec<T, A>,
    index: usize,
    item: T,
) -> Result<(), AllocError>
    requires { index ≤ length list.old.items }
    ensures ok { OnOk result (list.new.items ≡ insert list.old.items index item) }
    ensures err { OnErr result (list.new.items ≡ list.old.items) }
{
    if list.is_empty() {
        list.reserve_exact(1)?;
    }
    list.insert(index, item)?;
    Ok(())
}

/// Inserts an empty value at `index`.
fn insert_empty<V: Drop, A: Allocator>(
    column: &mut Vec<Option<V>, A>,
    index: usize,
) -> Result<(), AllocError>
    requires { index ≤ length column.old.items }
    ensures ok { OnOk result (column.new.items ≡ insert column.old.items index None) }
    ensures err { OnErr result (column.new.items ≡ column.old.items) }
{
    if index == column.len() {
        column.push(None)?;
        return Ok(());
    }
    column.insert(index, None)?;
    Ok(())
}

/// Adds 1 to the page number of each column that belongs to a page after `page`.
fn renumber<V, A: Allocator>(columns: &mut [(usize, Vec<Option<V>, A>)], page: usize)
    requires { AllByRecursion (λ column. column.0 + 1 < 2 ^ 64) columns.old }
    ensures { columns.new ≡ map (λ column. (number_after page column.0, column.1)) columns.old }
{
    for index in 0..columns.len() {
        columns[index].0 = number_after(page, columns[index].0);
    }
}

/// The number that page `number` gets when page `page` is split in two.
fn number_after(page: usize, number: usize) -> usize
    requires { number + 1 < 2 ^ 64 }
    ensures { result ≡ number_after page number }
{
    if page < number { number + 1 } else { number }
}
