//! Entries, receipts, and lists of both.

use crate::op::{Answer, Op};
use covdata::Memory;
use covtable::Totals;
use std::alloc::{Allocator, Global};
use std::marker::Model;

/// The maximum number of entries in one history.
pub const MAX_ENTRIES: u64 = 1_048_576;

/// One operation of a job on a book, the answer to it, and the totals after it.
#[derive(Drop)]
pub struct Entry<A: Allocator = Global> {
    pub job: u32,
    pub op: Op<A>,
    pub answer: Answer<A>,
    pub after: Totals,
}

impl<A: Allocator + Copy> Entry<A> {
    ghost use Rattle.std.specs.Prelude.{◌≡◌, IfOk};
    ghost use Rattle.covbook.specs.EntryView.{entry_data, receipt_data};
    ghost use Rattle.covbook.specs.Step.{receipt_of};

    /// Makes the receipt of this entry at the index `place`, with copies of the entry's operation and answer.
    pub(crate) fn receipt(&self, alloc: A, place: u64) -> Result<Receipt<A>, Memory>
        ensures { IfOk result (λ r. receipt_data r ≡ receipt_of place (entry_data self.now)) }
    {
        Ok(Receipt {
            place,
            op: self.op.copy(alloc)?,
            answer: self.answer.copy(alloc)?,
        })
    }
}

/// What a job gets for an operation: the index of the operation's entry in the history (`place`, counted from 0), the operation,
/// and the answer.
#[derive(Drop)]
pub struct Receipt<A: Allocator = Global> {
    pub place: u64,
    pub op: Op<A>,
    pub answer: Answer<A>,
}

/// A list of entries. Contracts see the entries as plain data.
#[derive(Drop)]
pub struct Entries<A: Allocator = Global> {
    entries: Vec<Entry<A>, A>,
}

impl<A: Allocator> Model for Entries<A> {
    ghost use Rattle.std.specs.Prelude.{List, map};
    ghost use Rattle.covbook.specs.Op.{EntryData};
    ghost use Rattle.covbook.specs.EntryView.{entry_data};

    ghost Value = { List EntryData };

    ghost view = { λ a. map entry_data a.entries.items };
}

impl<A: Allocator> Entries<A> {
    ghost use Rattle.std.specs.Prelude.{◌≡◌, ◌++◌, [], ◌∷◌, OnOk, OnErr, map};
    ghost use Rattle.covbook.specs.EntryView.{entry_data};

    /// The empty list. Never allocates.
    pub fn new(alloc: A) -> Entries<A>
        ensures { result ≡ [] }
    {
        Entries {
            entries: Vec::new(alloc),
        }
    }

    /// The list of these entries.
    pub(crate) fn of(entries: Vec<Entry<A>, A>) -> Entries<A>
        ensures { result ≡ map entry_data entries.items }
    {
        Entries { entries }
    }

    /// Appends an entry. On `Memory`, drops the entry and leaves the list unchanged.
    pub fn push(&mut self, entry: Entry<A>) -> Result<(), Memory>
        ensures ok { OnOk result (self.new ≡ self.old ++ entry_data entry ∷ []) }
        ensures err { OnErr result (self.new ≡ self.old) }
    {
        self.entries.push(entry)?;
        Ok(())
    }

    /// The entries in order.
    pub fn get(&self) -> &[Entry<A>]
        ensures { map entry_data result.now ≡ self.now }
    {
        self.entries.as_slice()
    }
}

/// A list of receipts. Contracts see the receipts as plain data.
#[derive(Drop)]
pub struct Receipts<A: Allocator = Global> {
    receipts: Vec<Receipt<A>, A>,
}

impl<A: Allocator> Model for Receipts<A> {
    ghost use Rattle.std.specs.Prelude.{List, map};
    ghost use Rattle.covbook.specs.Op.{ReceiptData};
    ghost use Rattle.covbook.specs.EntryView.{receipt_data};

    ghost Value = { List ReceiptData };

    ghost view = { λ a. map receipt_data a.receipts.items };
}

impl<A: Allocator> Receipts<A> {
    ghost use Rattle.std.specs.Prelude.{◌≡◌, ◌++◌, [], ◌∷◌, OnOk, OnErr, map};
    ghost use Rattle.covbook.specs.EntryView.{receipt_data};

    /// The empty list.
    pub fn new(alloc: A) -> Receipts<A>
        ensures { result ≡ [] }
    {
        Receipts {
            receipts: Vec::new(alloc),
        }
    }

    /// The list of these receipts. Never allocates.
    pub fn of(receipts: Vec<Receipt<A>, A>) -> Receipts<A>
        ensures { result ≡ map receipt_data receipts.items }
    {
        Receipts { receipts }
    }

    /// Appends a receipt. On `Memory`, drops the receipt and leaves the list unchanged.
    pub fn push(&mut self, receipt: Receipt<A>) -> Result<(), Memory>
        ensures ok { OnOk result (self.new ≡ self.old ++ receipt_data receipt ∷ []) }
        ensures err { OnErr result (self.new ≡ self.old) }
    {
        self.receipts.push(receipt)?;
        Ok(())
    }

    /// The receipts in order.
    pub fn get(&self) -> &[Receipt<A>]
        ensures { map receipt_data result.now ≡ self.now }
    {
        self.receipts.as_slice()
    }
}
