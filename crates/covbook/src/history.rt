//! The history of a book, with reserved capacity for its next entries.

use crate::entry::{Entry, MAX_ENTRIES, Receipt};
use crate::keep::Keep;
use covdata::Memory;
use std::alloc::Allocator;
use std::marker::Model;

/// The entries of a book. Contracts see the entries as plain data, and the capacity for entries.
#[derive(Drop)]
pub(crate) struct History<A: Allocator, K: Keep<Of = Entry<A>>> {
    kept: Vec<K, A>,
}

impl<A: Allocator, K: Keep<Of = Entry<A>>> Model for History<A, K> {
    ghost use Rattle.std.specs.Prelude.{map, vec_capacity};
    ghost use Rattle.covbook.specs.EntryView.{entry_data};
    ghost use Rattle.covbook.specs.Held.{HistoryData};

    ghost Value = { HistoryData };

    ghost view = { λ a. record { entries = map (λ k. entry_data (K.shows k)) a.kept.items; room = vec_capacity a.kept } };
}

impl<A: Allocator, K: Keep<Of = Entry<A>>> History<A, K> {
    ghost use Rattle.std.specs.Prelude.{◌≡◌, ◌↔◌, ◌<◌, ◌++◌, [], ◌∷◌, length, IsTrue, OnOk, map};
    ghost use Rattle.covbook.specs.EntryView.{entry_data};
    ghost use Rattle.covbook.specs.Step.{max_entries};

    /// A history without entries.
    pub(crate) fn new(alloc: A) -> History<A, K>
        ensures { result.entries ≡ [] }
    {
        History {
            kept: Vec::new(alloc),
        }
    }

    /// The stored parts of the entries, in order.
    pub(crate) fn get(&self) -> &[K]
        ensures { map (λ k. entry_data (K.shows k)) result.now ≡ self.now.entries }
    {
        self.kept.as_slice()
    }

    /// How many entries the history has, which is also the next entry's index.
    pub(crate) fn place(&self) -> u64
        ensures { result ≡ length self.now.entries }
    {
        self.get().len() as u64
    }

    /// Whether the history has the maximum number of entries (`MAX_ENTRIES`).
    pub(crate) fn is_full(&self) -> bool
        ensures { IsTrue result ↔ (length self.now.entries ≡ max_entries) }
    {
        self.place() == MAX_ENTRIES
    }

    /// Reserves capacity for one more entry.
    pub(crate) fn make_room(&mut self) -> Result<(), Memory>
        ensures entries { self.new.entries ≡ self.old.entries }
        ensures room { OnOk result (length self.new.entries < self.new.room) }
    {
        self.kept.reserve(1)?;
        Ok(())
    }

    /// Appends an entry. The history must have capacity for it.
    pub(crate) fn append(&mut self, entry: Entry<A>)
        requires { length self.old.entries < self.old.room }
        ensures { self.new.entries ≡ self.old.entries ++ entry_data entry ∷ [] }
    {
        self.kept.push_reserved(K::keep(entry));
    }

    /// Consumes the history and returns the stored parts of its entries.
    pub(crate) fn into_kept(self) -> Vec<K, A>
        ensures { map (λ k. entry_data (K.shows k)) result.items ≡ self.entries }
    {
        self.kept
    }
}

impl<A: Allocator + Copy, K: Keep<Of = Entry<A>>> History<A, K> {
    ghost use Rattle.std.specs.Prelude.{◌≡◌, length, IfOk};
    ghost use Rattle.covbook.specs.EntryView.{entry_data, receipt_data};
    ghost use Rattle.covbook.specs.Step.{receipt_of};

    /// Makes the receipt of `entry` as the history's next entry.
    pub(crate) fn receipt(&self, alloc: A, entry: &Entry<A>) -> Result<Receipt<A>, Memory>
        ensures { IfOk result (λ r. receipt_data r ≡ receipt_of (length self.now.entries) (entry_data entry.now)) }
    {
        entry.receipt(alloc, self.place())
    }
}
