//! Steps that are ready to be finished.

use crate::entry::{Entry, Receipt};
use covdata::Bytes;
use covtable::Totals;
use std::alloc::Allocator;
use std::marker::Model;

/// The effect of a step on a store with plans `P` and renamings `R`.
#[derive(Drop)]
pub(crate) enum Change<A: Allocator, P: Drop, R: Drop> {
    /// No change: the operation prints a text or has no effect.
    Nothing,
    /// Adds the planned submission.
    Hold(P),
    /// Drops the test of this name.
    Drop(Bytes<A>),
    /// Renames a test as planned.
    Rename(R),
}

/// A step that its book can finish without allocating. Contracts see the step's entry and index, its effect on the store, and the
/// totals after it. Dropping a `Ready` cancels the step: the book's history and content stay as they are. `P` and `R` are the plans
/// and the renamings of the book's store.
#[derive(Drop)]
pub struct Ready<A: Allocator, P: Drop, R: Drop> {
    entry: Entry<A>,
    receipt: Receipt<A>,
    change: Change<A, P, R>,
}

impl<A: Allocator, P: Drop, R: Drop> Model for Ready<A, P, R> {
    ghost use Rattle.std.specs.Prelude.{◌≡◌};
    ghost use Rattle.covtable.specs.Totals.{AreTotals};
    ghost use Rattle.covbook.specs.EntryView.{entry_data, receipt_data};
    ghost use Rattle.covbook.specs.Ready.{ReadyData};
    ghost use Rattle.covbook.specs.ChangeView.{change_data};
    ghost use Rattle.covbook.specs.Op.{IsLawfulOp};
    ghost use Rattle.covbook.specs.Step.{receipt_of};
    ghost use Rattle.covbook.specs.View.{op_data};

    ghost Value = { ReadyData P R };

    ghost view = { λ a. record { place = a.receipt.place; entry = entry_data a.entry; change = change_data a.change; after = a.entry.after } };

    ghost invariant = { λ a. (receipt_data a.receipt ≡ receipt_of a.receipt.place (entry_data a.entry)) × AreTotals a.entry.after × IsLawfulOp (op_data a.entry.op) };
}

impl<A: Allocator, P: Drop, R: Drop> Ready<A, P, R> {
    ghost use Rattle.std.specs.Prelude.{◌≡◌};
    ghost use Rattle.covtable.specs.Totals.{AreTotals};
    ghost use Rattle.covbook.specs.EntryView.{entry_data, receipt_data};
    ghost use Rattle.covbook.specs.ChangeView.{change_data};
    ghost use Rattle.covbook.specs.Op.{IsLawfulOp};
    ghost use Rattle.covbook.specs.Step.{receipt_of};
    ghost use Rattle.covbook.specs.View.{op_data};

    /// Makes the step that appends `entry`, makes `change` to the store, and returns `receipt`.
    pub(crate) fn new(
        entry: Entry<A>,
        receipt: Receipt<A>,
        change: Change<A, P, R>,
    ) -> Ready<A, P, R>
        requires receipt { receipt_data receipt ≡ receipt_of receipt.place (entry_data entry) }
        requires totals { AreTotals entry.after }
        requires lawful { IsLawfulOp (op_data entry.op) }
        ensures place { result.place ≡ receipt.place }
        ensures entry { result.entry ≡ entry_data entry }
        ensures change { result.change ≡ change_data change }
        ensures after { result.after ≡ entry.after }
    {
        Ready {
            entry,
            receipt,
            change,
        }
    }

    /// The totals after the step. Never allocates.
    pub fn after(&self) -> Totals
        ensures value { result ≡ self.now.after }
        ensures bounds { AreTotals result }
    {
        self.entry.after
    }

    /// The entry that the step appends. Never allocates.
    pub fn entry(&self) -> &Entry<A>
        ensures { entry_data result.now ≡ self.now.entry }
    {
        &self.entry
    }

    /// Splits the step into its entry, its receipt, and its change to the store.
    pub(crate) fn into_parts(self) -> (Entry<A>, Receipt<A>, Change<A, P, R>)
        ensures entry { entry_data result.0 ≡ self.entry }
        ensures receipt { receipt_data result.1 ≡ receipt_of self.place self.entry }
        ensures change { change_data result.2 ≡ self.change }
        ensures lawful { IsLawfulOp (op_data result.0.op) }
    {
        (self.entry, self.receipt, self.change)
    }
}
