//! The map with committed and staged values.

mod images;
mod run;

use crate::entries::Entries;
use crate::key::{Addend, Key, Query, Value};
use crate::slots::growth::make_slot;
use crate::slots::staged::StagedColumns;
use crate::slots::{SlotIndex, Slots};
use std::alloc::{AllocError, Allocator};
use std::marker::Model;

/// A finite map with committed and staged values. The staged value of a key is its committed value, until another value is staged.
///
/// Contracts see two lists of entries, the committed and the staged entries, each in ascending order of keys. A commit replaces the
/// committed entries with the staged entries.
///
/// A look-up costs no search if its key comes right after the key of the last look-up. Repeating the last look-up costs no search
/// either, unless a run was staged in between.
#[derive(Drop)]
pub struct StagedMap<K: Key, V, A: Allocator> {
    slots: Slots<K, V, A>,
    staged: StagedColumns<V, A>,
    cursor: SlotIndex,
}

impl<K: Key, V, A: Allocator> Model for StagedMap<K, V, A> {
    ghost use Rattle.covmap.specs.Staged.{AreColumnsOf};
    ghost use Rattle.covmap.specs.MapData.{MapData, map_data};

    ghost Value = { MapData K V };

    ghost view = { λ map. map_data map.slots map.staged };

    ghost invariant = { λ map. AreColumnsOf map.slots map.staged };
}

/// The effect of an addend on the value of a key.
#[derive(Drop)]
pub struct Sum<V> {
    /// The staged value before the addend was added; `None` if the key had no value.
    pub before: Option<V>,
    /// The staged value after the addend was added.
    pub after: V,
    /// The place of the key.
    pub place: SlotIndex,
}

impl<K: Key, V, A: Allocator + Copy> StagedMap<K, V, A> {
    ghost use Rattle.std.specs.Prelude.{◌≡◌, []};

    /// A map without entries. Never allocates.
    pub fn new(alloc: A) -> StagedMap<K, V, A>
        ensures committed { result.committed ≡ [] }
        ensures staged { result.staged ≡ [] }
    {
        StagedMap {
            slots: Slots::new(alloc),
            staged: StagedColumns::new(alloc),
            cursor: SlotIndex::first(),
        }
    }
}

impl<K: Key, V, A: Allocator> StagedMap<K, V, A> {
    ghost use Rattle.std.specs.Prelude.{◌≡◌, ◌↔◌, [], IsTrue};
    ghost use Rattle.covmap.specs.Puts.{ArePairs};

    /// The committed entries in ascending order of their keys.
    pub fn entries(&self) -> Entries<'_, K, V, A>
        ensures { result ≡ self.now.committed }
    {
        self.slots.entries()
    }

    /// Does nothing, but proves that the keys of the committed entries ascend.
    pub fn ascends(&self)
        ensures { ArePairs K.cmp self.now.committed }
    {
        self.slots.are_whole();
    }

    /// Whether no key has a committed value.
    pub fn is_empty(&self) -> bool
        ensures { IsTrue result ↔ (self.now.committed ≡ []) }
    {
        let mut entries = self.entries();
        entries.next().is_none()
    }

    /// The guess for the next look-up: a place at, or right after, the last key that was looked up or staged.
    pub fn cursor(&self) -> SlotIndex {
        self.cursor
    }
}

impl<K: Key, V: Drop, A: Allocator> StagedMap<K, V, A> {
    ghost use Rattle.std.specs.Prelude.{◌≡◌};

    /// Discards the staged values. Never allocates.
    pub fn rollback(&mut self)
        ensures committed { self.new.committed ≡ self.old.committed }
        ensures staged { self.new.staged ≡ self.old.committed }
    {
        self.staged.clear();
    }
}

impl<K: Key, V: Value, A: Allocator> StagedMap<K, V, A> {
    ghost use Rattle.std.specs.Prelude.{◌≡◌, true, is_some};
    ghost use Rattle.covmap.specs.Assigned.{assigned};
    ghost use Rattle.covmap.specs.Puts.{ArePairs, value_of};

    /// The staged value of a key.
    pub fn lookup_staged<Q: Query<K, A>>(&mut self, query: Q) -> Option<V>
        ensures value { result ≡ value_of K.cmp (Q.named query) self.old.staged }
        ensures same { self.new ≡ self.old }
        ensures committed { ArePairs K.cmp self.old.committed }
        ensures staged { ArePairs K.cmp self.old.staged }
    {
        match self.slots.find(query, self.cursor) {
            Ok(place) => {
                self.cursor = place;
                self.staged.value_at(&self.slots, place)
            }
            Err(place) => {
                self.cursor = place;
                None
            }
        }
    }

    /// The committed value of a key, and the guess for the next look-up.
    pub fn lookup_at<Q: Query<K, A>>(&self, query: Q, guess: SlotIndex) -> (Option<V>, SlotIndex)
        ensures value { result.0 ≡ value_of K.cmp (Q.named query) self.now.committed }
        ensures whole { ArePairs K.cmp self.now.committed }
    {
        match self.slots.find(query, guess) {
            Ok(place) => (self.slots.value_at(place), place),
            Err(place) => (None, place),
        }
    }

    /// The staged value of a key, and the guess for the next look-up.
    pub fn staged_at<Q: Query<K, A>>(&self, query: Q, guess: SlotIndex) -> (Option<V>, SlotIndex)
        ensures value { result.0 ≡ value_of K.cmp (Q.named query) self.now.staged }
        ensures whole { ArePairs K.cmp self.now.staged }
    {
        match self.slots.find(query, guess) {
            Ok(place) => (self.staged.value_at(&self.slots, place), place),
            Err(place) => (None, place),
        }
    }

    /// The committed value of a key.
    pub fn lookup<Q: Query<K, A>>(&mut self, query: Q) -> Option<V>
        ensures value { result ≡ value_of K.cmp (Q.named query) self.old.committed }
        ensures same { self.new ≡ self.old }
        ensures whole { ArePairs K.cmp self.old.committed }
    {
        let (value, place) = self.lookup_at(query, self.cursor);
        self.cursor = place;
        value
    }

    /// Replaces the committed value of a key, which must have one. `None` removes the entry. Discards all staged values. Never
    /// allocates.
    pub fn replace<Q: Query<K, A>>(&mut self, query: Q, value: Option<V>)
        requires { is_some (value_of K.cmp (Q.named query) self.old.committed) ≡ true }
        ensures committed { self.new.committed ≡ assigned K.cmp (Q.named query) value self.old.committed }
        ensures staged { self.new.staged ≡ self.new.committed }
    {
        self.staged.clear();
        if let Ok(place) = self.slots.find(query, self.cursor) {
            self.cursor = place;
            self.slots.write(place, value);
        }
    }

    /// Commits the staged values. Never allocates.
    pub fn commit(&mut self)
        ensures committed { self.new.committed ≡ self.old.staged }
        ensures staged { self.new.staged ≡ self.old.staged }
    {
        while let Some((number, column)) = self.staged.pop() {
            self.slots.fill(number, column);
        }
    }
}

impl<K: Key + Drop, V: Value, A: Allocator + Copy> StagedMap<K, V, A> {
    ghost use Rattle.std.specs.Prelude.{◌≡◌, IfOk, OnOk};
    ghost use Rattle.covmap.specs.Puts.{ArePairs, put, value_of};

    /// Stages a value for a key.
    ///
    /// # Errors
    ///
    /// `AllocError` if an allocation failed. The staged values are then unspecified, so call `rollback`.
    pub fn stage<Q: Query<K, A>>(&mut self, alloc: A, query: Q, value: V) -> Result<(), AllocError>
        ensures committed { self.new.committed ≡ self.old.committed }
        ensures ok { OnOk result (self.new.staged ≡ put K.cmp (Q.named query) value self.old.staged) }
    {
        let place = make_slot(&mut self.slots, &mut self.staged, alloc, query, self.cursor)?;
        self.cursor = place;
        self.slots.are_whole();
        self.staged.put(alloc, &self.slots, place, value)
    }

    /// Stages the sum of a key's staged value and an addend. Looks up the key only once. The look-up costs no search if `guess` is
    /// the place of the key, or of the key right before.
    ///
    /// # Errors
    ///
    /// `AllocError` if an allocation failed. The staged values are then unspecified, so call `rollback`.
    pub fn stage_sum<Q: Query<K, A>, M: Addend<V>>(
        &mut self,
        alloc: A,
        query: Q,
        addend: M,
        guess: SlotIndex,
    ) -> Result<Sum<V>, AllocError>
        requires { M.fits addend (value_of K.cmp (Q.named query) self.old.staged) }
        ensures committed { self.new.committed ≡ self.old.committed }
        ensures before { IfOk result (λ sum. sum.before ≡ value_of K.cmp (Q.named query) self.old.staged) }
        ensures after { IfOk result (λ sum. sum.after ≡ M.sum addend sum.before) }
        ensures ok { IfOk result (λ sum. self.new.staged ≡ put K.cmp (Q.named query) sum.after self.old.staged) }
        ensures staged { ArePairs K.cmp self.old.staged }
    {
        self.slots.are_whole();
        let place = make_slot(&mut self.slots, &mut self.staged, alloc, query, guess)?;
        self.cursor = place;
        self.slots.are_whole();
        self.staged.add(alloc, &self.slots, place, addend)
    }
}
