//! A page of slots: a list of ascending keys, and a list of the keys' values. The second list may be shorter.
//!
//! The lists are separate, so that a search reads only keys, and a commit replaces all values of a page at once. A slot past the
//! end of the list of values is empty, so a page without committed values uses memory only for its keys.

ghost use Rattle.std.specs.Prelude.{◌≡◌, ◌<◌, ◌≤◌, ◌-◌, ◌++◌, None, [], ◌∷◌, IfNone, IfOk, IfSome, OnErr, OnOk, true, is_some, length, map, drop, option_map, slice_get, slice_set, take};
ghost use Rattle.std.specs.List.{insert};
ghost use Rattle.covmap.specs.Staged.{column_of, with_column};
ghost use Rattle.covmap.specs.Slots.{IsAscending, beside, empty, ends_before, is_before, lead, value_in};

pub(crate) mod images;
pub(crate) mod run;

use crate::key::{Key, Query, Value, copy_of};
use crate::slots::HALF;
use std::alloc::{AllocError, Allocator};
use std::marker::Model;

/// A page of slots. Contracts see each key with its optional value.
#[derive(Drop)]
pub(crate) struct Page<K, V, A: Allocator> {
    keys: Vec<K, A>,
    values: Vec<Option<V>, A>,
}

impl<K, V, A: Allocator> Model for Page<K, V, A> {
    ghost use Rattle.std.specs.Prelude.{◌≤◌, List, Option, length};
    ghost use Rattle.covmap.specs.Slots.{beside};

    ghost Value = { List (K × Option V) };

    ghost view = { λ page. beside page.keys.items page.values.items };

    ghost invariant = { λ page. length page.values.items ≤ length page.keys.items };
}

/// The slots of a page from a certain slot on. Contracts see each key with its optional value.
#[derive(Drop)]
pub(crate) struct Rest<'a, K, V> {
    keys: &'a [K],
    values: &'a [Option<V>],
}

impl<'a, K, V> Model for Rest<'a, K, V> {
    ghost use Rattle.std.specs.Prelude.{List, Option};
    ghost use Rattle.covmap.specs.Slots.{beside};

    ghost Value = { List (K × Option V) };

    ghost view = { λ rest. beside rest.keys.now rest.values.now };
}

impl<K, V, A: Allocator> Page<K, V, A> {
    /// A page with one empty slot, for `key`, and without capacity for more slots.
    pub(crate) fn of(alloc: A, key: K) -> Result<Page<K, V, A>, AllocError>
    where
        K: Drop,
        V: Drop,
        A: Copy,
        ensures { IfOk result (λ page. page ≡ (key, None) ∷ []) }
    {
        let mut keys = Vec::with_capacity(alloc, 1)?;
        keys.push(key)?;
        Ok(Page {
            keys,
            values: Vec::new(alloc),
        })
    }

    /// The number of slots.
    pub(crate) fn len(&self) -> usize
        ensures { result ≡ length self.now }
    {
        self.keys.len()
    }

    /// The key of slot `index`, if this slot exists.
    pub(crate) fn key(&self, index: usize) -> Option<&K>
        ensures { option_map (λ key. key.now) result ≡ option_map (λ slot. slot.0) (slice_get self.now index) }
    {
        self.keys.get(index)
    }

    /// All slots of the page.
    pub(crate) fn slots(&self) -> Rest<'_, K, V>
        ensures { result ≡ self.now }
    {
        Rest {
            keys: &self.keys,
            values: &self.values,
        }
    }
}

impl<'a, K, V> Rest<'a, K, V> {
    /// An empty list of slots.
    pub(crate) fn none() -> Rest<'a, K, V>
        ensures { result ≡ [] }
    {
        Rest {
            keys: &[],
            values: &[],
        }
    }

    /// The first slot's key and value, and the other slots. Returns `None` if no slot is left.
    pub(crate) fn split_first(&self) -> Option<(&'a K, Option<&'a V>, Rest<'a, K, V>)>
        ensures some { IfSome result (λ parts. self.now ≡ (parts.0.now, option_map (λ value. value.now) parts.1) ∷ parts.2) }
        ensures none { IfNone result (self.now ≡ []) }
    {
        let (key, keys) = self.keys.split_first()?;
        let Some((value, values)) = self.values.split_first() else {
            return Some((key, None, Rest { keys, values: &[] }));
        };
        Some((key, value.as_ref(), Rest { keys, values }))
    }
}

impl<K: Key, V, A: Allocator> Page<K, V, A> {
    /// Whether the last key of the page is less than the queried key.
    pub(crate) fn ends_before<Q: Query<K, A>>(&self, query: Q) -> bool
        ensures { result ≡ ends_before (λ key. K.cmp key (Q.named query)) self.now }
    {
        match self.keys.last() {
            Some(key) => query.compare(key).is_lt(),
            None => true,
        }
    }

    /// The index of the first slot whose key isn't less than the queried key.
    pub(crate) fn index_of<Q: Query<K, A>>(&self, query: Q) -> usize
        requires { IsAscending K.cmp self.now }
        ensures { result ≡ lead (is_before (λ key. K.cmp key (Q.named query))) self.now }
    {
        let mut low = 0;
        let mut high = self.keys.len();
        while low < high {
            let middle = low + (high - low) / 2;
            if query.compare(&self.keys[middle]).is_lt() {
                low = middle + 1;
            } else {
                high = middle;
            }
        }
        low
    }
}

impl<K, V: Value, A: Allocator> Page<K, V, A> {
    /// The value in slot `index`, if any.
    pub(crate) fn value(&self, index: usize) -> Option<V>
        ensures { result ≡ value_in (option_map (λ slot. slot.1) (slice_get self.now index)) }
    {
        match self.values.get(index) {
            Some(value) => copy_of(value),
            None => None,
        }
    }

    /// A copy of all values, one for each slot.
    pub(crate) fn column(&self, alloc: A) -> Result<Vec<Option<V>, A>, AllocError>
        ensures { IfOk result (λ column. column.items ≡ column_of self.now) }
    {
        let mut column = copies(&self.values, alloc)?;
        fill_up(&mut column, self.keys.len())?;
        Ok(column)
    }

    /// Replaces the values of the page with `column`, which must have one value for each slot.
    pub(crate) fn fill(&mut self, column: Vec<Option<V>, A>)
        requires { length column.items ≡ length self.old }
        ensures { self.new ≡ with_column self.old column.items }
    {
        self.values = column;
    }

    /// Replaces the value in slot `index`, which must have a value. `None` empties the slot.
    pub(crate) fn write(&mut self, index: usize, value: Option<V>)
        requires { is_some (value_in (option_map (λ slot. slot.1) (slice_get self.old index))) ≡ true }
        ensures { self.new ≡ with_column self.old (slice_set (column_of self.old) index value) }
    {
        self.values[index] = value;
    }
}

impl<K: Drop, V: Value, A: Allocator + Copy> Page<K, V, A> {
    /// Inserts an empty slot for `key` at `index`, which is usually the page's end.
    #[inline(always)]
    pub(crate) fn insert(&mut self, index: usize, key: K) -> Result<(), AllocError>
        requires { index ≤ length self.old }
        ensures ok { OnOk result (self.new ≡ insert self.old index (key, None)) }
        ensures err { OnErr result (self.new ≡ self.old) }
    {
        if index == self.keys.len() {
            self.keys.push(key)?;
            return Ok(());
        }
        self.insert_before(index, key)
    }

    /// Inserts an empty slot for `key` before slot `index`, which must exist.
    fn insert_before(&mut self, index: usize, key: K) -> Result<(), AllocError>
        requires { index < length self.old }
        ensures ok { OnOk result (self.new ≡ insert self.old index (key, None)) }
        ensures err { OnErr result (self.new ≡ self.old) }
    {
        if self.values.len() <= index {
            self.keys.insert(index, key)?;
            return Ok(());
        }
        // Reserves capacity for the value first, so that the keys don't change if an allocation fails.
        self.values.reserve(1)?;
        self.keys.insert(index, key)?;
        self.values.insert(index, None)?;
        Ok(())
    }

    /// Moves the second half of the page, which must be full, to a new page. Returns the new page.
    pub(crate) fn split(&mut self, alloc: A) -> Result<Page<K, V, A>, AllocError>
        requires { length self.old ≡ 256 }
        ensures front { OnOk result (self.new ≡ take 128 self.old) }
        ensures back { IfOk result (λ page. page ≡ drop 128 self.old) }
        ensures err { OnErr result (self.new ≡ self.old) }
    {
        let values = self.values_from(alloc, HALF)?;
        let keys = self.keys.split_off(HALF)?;
        self.values.truncate(HALF);
        Ok(Page { keys, values })
    }
}

impl<K, V: Value, A: Allocator> Page<K, V, A> {
    /// Copies the list of values from slot `start` on. Slots past the end of the list are empty.
    fn values_from(&self, alloc: A, start: usize) -> Result<Vec<Option<V>, A>, AllocError>
        ensures values { IfOk result (λ values. beside (drop start (map (λ slot. slot.0) self.now)) values.items ≡ drop start self.now) }
        ensures fits { IfOk result (λ values. length values.items ≤ length self.now - start) }
    {
        if self.values.len() <= start {
            return Ok(Vec::new(alloc));
        }
        copies(self.values.split_at(start).1, alloc)
    }
}

/// Appends empty values until the column has `len` values. Reserves capacity for no more than `len` values.
fn fill_up<V: Drop, A: Allocator>(
    column: &mut Vec<Option<V>, A>,
    len: usize,
) -> Result<(), AllocError>
    ensures { OnOk result (column.new.items ≡ column.old.items ++ empty (len - length column.old.items)) }
{
    column.reserve_exact(len.saturating_sub(column.len()))?;
    while column.len() < len {
        column.push(None)?;
    }
    Ok(())
}

/// Copies the values.
fn copies<V: Value, A: Allocator>(
    values: &[Option<V>],
    alloc: A,
) -> Result<Vec<Option<V>, A>, AllocError>
    ensures { IfOk result (λ copies. copies.items ≡ values.now) }
{
    values.iter().map(|value| copy_of(value)).collect(alloc)
}
