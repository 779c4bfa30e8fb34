//! Adds a run of keys with addends to the slots of one page.

ghost use Rattle.std.specs.Prelude.{◌≡◌, ◌<◌, ◌≤◌, None, Some, [], ◌++◌, IfOk, OnOk, true, false, length, slice_get, slice_set};
ghost use Rattle.std.specs.List.{insert};
ghost use Rattle.std.specs.declared.cmp.Ordering.TheVariants.{Equal};
ghost use Rattle.covmap.specs.Run.{reports_one};
ghost use Rattle.covmap.specs.RunPage.{FirstHere, FitHere, IsAlong, IsNewPage, value_summed};
ghost use Rattle.covmap.specs.Slots.{IsAscending, ends_before, order_at, value_in};

use crate::key::{Addend, Key, Query, ReportingAddend, Value};
use crate::slots::PAGE_SLOTS;
use crate::slots::page::Page;
use std::alloc::{AllocError, Allocator};
use std::cmp::Ordering;

/// The number of slots that `search_near` compares with a key before it searches the page.
const NEAR: usize = 4;

/// How far a run was added on one page.
#[derive(Clone, Copy)]
pub(crate) struct Along {
    /// The number of items that were added.
    pub(crate) count: usize,
    /// The slot after the last added item's slot.
    pub(crate) next: usize,
}

impl<K: Key, V: Value, A: Allocator> Page<K, V, A> {
    /// Adds the addends at the front of `run` to the values of `column`. Slot `start` must have the run's first key. Stops at the
    /// first key that has no slot on this page after the slot of the run's preceding key. Skips the slots of keys that aren't in
    /// the run.
    pub(crate) fn add_along<Q: Query<K, A>, N: Drop, M: ReportingAddend<V, N>>(
        &self,
        column: &mut [Option<V>],
        start: usize,
        run: &[(Q, M)],
        reports: &mut Vec<(Q, N), A>,
    ) -> Result<Along, AllocError>
        requires ascending { IsAscending K.cmp self.now }
        requires long { length column.old ≡ length self.now }
        requires first { FirstHere K.cmp Q.named self.now start run.now }
        requires fits { FitHere K.cmp Q.named M.fits M.sum self.now run.now column.old }
        ensures long { length column.new ≡ length column.old }
        ensures some { IfOk result (λ along. 0 < length run.now → 0 < along.count) }
        ensures count { IfOk result (λ along. along.count ≤ length run.now) }
        ensures added { IfOk result (λ along. IsAlong K.cmp Q.named M.sum M.reports self.now run.now along.count column.old column.new reports.old.items reports.new.items) }
    {
        let mut next = start;
        let mut count = 0;
        while count < run.len() {
            let (query, addend) = run[count];
            let index = self.guess_near(next, query);
            if !self.order(index, query).is_eq() {
                return Ok(Along { count, next });
            }
            add_at(column, index, query, addend, reports)?;
            next = index.saturating_add(1);
            count += 1;
        }
        Ok(Along { count, next })
    }

    /// The slot in which to look for a key first: `start`, one of the next slots, or the result of a search on the page. Usually
    /// the key is at `start`, so only the comparison with slot `start` is inlined.
    #[inline(always)]
    pub(crate) fn guess_near<Q: Query<K, A>>(&self, start: usize, query: Q) -> usize
        requires { IsAscending K.cmp self.now }
        ensures { order_at (λ key. K.cmp key (Q.named query)) (slice_get self.now start) ≡ Equal → result ≡ start }
    {
        if self.order(start, query).is_eq() {
            return start;
        }
        self.search_near(start, query)
    }

    /// Like `guess_near`, for a key that isn't at `start`. Promises nothing, since any slot is a correct guess for such a key.
    fn search_near<Q: Query<K, A>>(&self, start: usize, query: Q) -> usize
        requires { IsAscending K.cmp self.now }
    {
        if !self.order(start, query).is_lt() {
            return start;
        }
        for index in start..start.saturating_add(NEAR) {
            if !self.order(index, query).is_lt() {
                return index;
            }
        }
        self.index_of(query)
    }

    /// Compares the key of slot `index` with the queried key. Returns `Greater` if this slot doesn't exist.
    fn order<Q: Query<K, A>>(&self, index: usize, query: Q) -> Ordering
        ensures { result ≡ order_at (λ key. K.cmp key (Q.named query)) (slice_get self.now index) }
    {
        match self.key(index) {
            Some(key) => query.compare(key),
            None => Ordering::Greater,
        }
    }
}

impl<K: Drop, V: Value, A: Allocator + Copy> Page<K, V, A> {
    /// Makes a page of empty slots for the keys at the front of `run`. Stops when the page is full, or at the first key that isn't
    /// greater than the run's preceding key.
    pub(crate) fn of_run<Q: Query<K, A>, M: Addend<V>>(
        alloc: A,
        run: &[(Q, M)],
    ) -> Result<Page<K, V, A>, AllocError>
    where
        K: Key,
        requires { 0 < length run.now }
        ensures { IfOk result (λ page. IsNewPage K.cmp Q.named run.now page) }
    {
        let most = run.len().min(PAGE_SLOTS);
        let mut page = Page::with_room(alloc, most)?;
        page.push_front(alloc, run, most)?;
        Ok(page)
    }

    /// A page without slots, and with capacity for `len` slots.
    #[inline]
    fn with_room(alloc: A, len: usize) -> Result<Page<K, V, A>, AllocError>
        ensures { IfOk result (λ page. page ≡ []) }
    {
        Ok(Page {
            keys: Vec::with_capacity(alloc, len)?,
            values: Vec::new(alloc),
        })
    }

    /// Appends empty slots for the first `most` keys of `run` to the page, which must have no slots. Stops at the first key that
    /// isn't greater than the run's preceding key.
    #[inline]
    fn push_front<Q: Query<K, A>, M: Addend<V>>(
        &mut self,
        alloc: A,
        run: &[(Q, M)],
        most: usize,
    ) -> Result<(), AllocError>
    where
        K: Key,
        requires none { self.old ≡ [] }
        requires some { 0 < most }
        requires there { most ≤ length run.now }
        requires fits { most ≤ 256 }
        ensures { OnOk result (IsNewPage K.cmp Q.named run.now self.new) }
    {
        let mut count = 0;
        while count < most {
            let (query, _) = run[count];
            let is_pushed = self.push_greater(alloc, count, query)?;
            if !is_pushed {
                return Ok(());
            }
            count += 1;
        }
        Ok(())
    }

    /// Appends an empty slot for the queried key if this key is greater than all others on the page. Returns whether the slot was
    /// appended. `len` must be the page's number of slots.
    #[inline]
    fn push_greater<Q: Query<K, A>>(
        &mut self,
        alloc: A,
        len: usize,
        query: Q,
    ) -> Result<bool, AllocError>
    where
        K: Key,
        requires { len ≡ length self.old }
        ensures greater { IfOk result (λ pushed. pushed ≡ ends_before (λ key. K.cmp key (Q.named query)) self.old) }
        ensures pushed { IfOk result (λ pushed. pushed ≡ true → self.new ≡ insert self.old len (Q.named query, None)) }
        ensures same { IfOk result (λ pushed. pushed ≡ false → self.new ≡ self.old) }
    {
        if !self.ends_before(query) {
            return Ok(false);
        }
        self.insert(len, query.key(alloc)?)?;
        Ok(true)
    }
}

/// Adds `addend` to the value at index `slot` of `column`. Appends `query` and the addend's report, if any, to `reports`.
fn add_at<V: Drop, A: Allocator, Q: Copy, N: Drop, M: ReportingAddend<V, N>>(
    column: &mut [Option<V>],
    slot: usize,
    query: Q,
    addend: M,
    reports: &mut Vec<(Q, N), A>,
) -> Result<(), AllocError>
    requires there { slot < length column.old }
    requires fits { M.fits addend (value_in (slice_get column.old slot)) }
    ensures column { column.new ≡ value_summed M.sum slot (query, addend) column.old }
    ensures reports { OnOk result (reports.new.items ≡ reports.old.items ++ reports_one query (M.reports addend (value_in (slice_get column.old slot)) (M.sum addend (value_in (slice_get column.old slot))))) }
{
    let note = sum_at(column, slot, addend);
    push_reports(reports, query, note)
}

/// Adds `addend` to the value at index `slot` of `column`. Returns the addend's report, if any.
#[inline]
fn sum_at<V: Drop, N, M: ReportingAddend<V, N>>(
    column: &mut [Option<V>],
    slot: usize,
    addend: M,
) -> Option<N>
    requires there { slot < length column.old }
    requires fits { M.fits addend (value_in (slice_get column.old slot)) }
    ensures column { column.new ≡ slice_set column.old slot (Some (M.sum addend (value_in (slice_get column.old slot)))) }
    ensures report { result ≡ M.reports addend (value_in (slice_get column.old slot)) (M.sum addend (value_in (slice_get column.old slot))) }
{
    let after = addend.plus(&column[slot]);
    let note = addend.report(&column[slot], &after);
    column[slot] = Some(after);
    note
}

/// Appends `query` and the report `note`, if any, to `reports`.
fn push_reports<Q: Copy, N: Drop, A: Allocator>(
    reports: &mut Vec<(Q, N), A>,
    query: Q,
    note: Option<N>,
) -> Result<(), AllocError>
    ensures { OnOk result (reports.new.items ≡ reports.old.items ++ reports_one query note) }
{
    match note {
        Some(note) => {
            reports.push((query, note))?;
            Ok(())
        }
        None => Ok(()),
    }
}
