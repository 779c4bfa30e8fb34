//! Submissions to be added to a book, packed or not.

use crate::op::Op;
use crate::shared::{PackedRef, SubRef};
use covdata::Memory;
use covreport::Table;
use covtable::Refuse;
use std::alloc::Allocator;

/// A shared submission, packed or not. Contracts see the submission.
pub(crate) trait Submitted<A: Allocator + Copy> {
    ghost use Rattle.std.specs.Prelude.{◌≡◌, ◌≢◌, ◌<◌, ◌++◌, [], ◌∷◌, None, IfErr, IfOk, OnErr};
    ghost use Rattle.covdata.specs.Lawful.{IsLawful};
    ghost use Rattle.covdata.specs.Row.{SubmissionData, items_in, rows_of};
    ghost use Rattle.covtable.specs.Content.{content_at};
    ghost use Rattle.covtable.specs.RefuseView.{refuse_data};
    ghost use Rattle.covtable.specs.Refuse.{IsRefusedAt};
    ghost use Rattle.covtable.specs.Shown.{SameContent, StandsFor, max_members};
    ghost use Rattle.covtable.specs.Table.{Table as Rows, clash_at};
    ghost use Rattle.covtable.specs.Totals.{totals_of};
    ghost use Rattle.covbook.specs.Op.{SubmitOp};
    ghost use Rattle.covbook.specs.View.{op_data};

    // The submission as plain data.
    ghost says: { Self → SubmissionData };

    /// Returns the operation that adds this submission. The submission is shared, not copied.
    fn to_op(&self) -> Result<Op<A>, Memory>
        ensures { IfOk result (λ op. op_data op ≡ SubmitOp (says self.now)) };

    /// How many items the submission has.
    fn count_items(&self) -> u64
        ensures count { result ≡ items_in (says self.now).sects }
        ensures lawful { IsLawful (says self.now) };

    /// How many inconsistent lines the submission's input has.
    fn count_odd(&self) -> u64
        ensures { result ≡ (says self.now).odd };

    /// Prepares to add the submission to `store`, as `Table::prepare` does.
    fn prepare_in<T: Table<A>>(&self, alloc: A, store: &mut T) -> Result<T::Plan, Refuse<A>>
        requires { (T.shown store.old).members < max_members }
        ensures content { SameContent (T.shown store.old) (T.shown store.new) }
        ensures planned { IfOk result (λ plan. T.plans store.new (says self.now) plan) }
        ensures after { IfOk result (λ plan. (table : Rows) → StandsFor (T.shown store.old) table → T.planned_totals plan ≡ totals_of (content_at (table ++ rows_of (says self.now) ∷ []))) }
        ensures agrees { IfOk result (λ _. (table : Rows) → StandsFor (T.shown store.old) table → clash_at table (says self.now) ≡ None) }
        ensures refused { IfErr result (λ e. (table : Rows) → StandsFor (T.shown store.old) table → IsRefusedAt table (says self.now) (refuse_data e)) }
        ensures some { OnErr result (rows_of (says self.now) ≢ []) };
}

impl<A: Allocator + Copy> Submitted<A> for SubRef<A> {
    ghost says = { λ submission. submission };

    fn to_op(&self) -> Result<Op<A>, Memory> {
        Ok(Op::Submit(self.copy()?))
    }

    fn count_items(&self) -> u64 {
        self.get().items()
    }

    fn count_odd(&self) -> u64 {
        self.get().odd()
    }

    fn prepare_in<T: Table<A>>(&self, alloc: A, store: &mut T) -> Result<T::Plan, Refuse<A>> {
        store.prepare(alloc, self.get())
    }
}

impl<A: Allocator + Copy> Submitted<A> for PackedRef<A> {
    ghost says = { λ submission. submission };

    fn to_op(&self) -> Result<Op<A>, Memory> {
        Ok(Op::SubmitPacked(self.copy()?))
    }

    fn count_items(&self) -> u64 {
        self.get().items()
    }

    fn count_odd(&self) -> u64 {
        self.get().odd()
    }

    fn prepare_in<T: Table<A>>(&self, alloc: A, store: &mut T) -> Result<T::Plan, Refuse<A>> {
        store.prepare_packed(alloc, self.get())
    }
}
