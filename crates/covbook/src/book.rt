//! The book: a table of counts, and the history of its operations with their answers.

use crate::entry::{Entries, Entry, Receipt};
use crate::history::History;
use crate::keep::Keep;
use crate::op::{Answer, Op};
use crate::ready::{Change, Ready};
use crate::shared::TextRef;
use crate::submitted::Submitted;
use covdata::{Bytes, Memory};
use covreport::{Choice, Printing, Table, summary_text, trace_text};
use covtable::laws::renaming_keeps_totals;
use covtable::{Refuse, Totals};
use std::alloc::Allocator;
use std::marker::Model;
use thiserror::Error;

/// Why a book rejects a step.
#[derive(Clone, Copy, Debug, PartialEq, Eq, Error)]
pub enum BookFault {
    /// The history is full: it has 1,048,576 entries. `step` checks this first.
    #[error("book full")]
    Full = 1,
    /// An allocation failed.
    #[error("out of memory")]
    Memory = 2,
}

impl BookFault {
    ghost use Rattle.std.specs.Prelude.{◌≡◌};
    ghost use Rattle.covbook.specs.Fault.{fault_number};

    /// The number of the error, from 1.
    pub fn number(self) -> u32
        ensures { result ≡ fault_number self }
    {
        self as u32
    }
}

impl From<Memory> for BookFault {
    ghost use Rattle.std.specs.Prelude.{◌≡◌};
    ghost use Rattle.covbook.specs.declared.book.BookFault.TheVariants as faults;

    ghost from_gives = { λ _ e. e ≡ faults.Memory };

    fn from(_refused: Memory) -> BookFault {
        BookFault::Memory
    }
}

/// A table of counts with its history. Contracts see the history, which is always legal: its operations result in its answers and
/// in the table. Contracts also see what `finish` relies on: the capacity for entries, and the model of the store.
///
/// `T` is the store. `K` is the part of each entry that the book stores: all of it, its answer, or nothing. Contracts see whole
/// entries in any case.
#[derive(Drop)]
pub struct Book<A: Allocator, T: Table<A>, K: Keep<Of = Entry<A>> = Entry<A>> {
    store: T,
    accepted: u64,
    history: History<A, K>,
}

impl<A: Allocator, T: Table<A>, K: Keep<Of = Entry<A>>> Model for Book<A, T, K> {
    ghost use Rattle.covbook.specs.Held.{BookData, IsBook};

    ghost Value = { BookData T };

    ghost view = { λ a. record { entries = a.history.entries; room = a.history.room; store = T.shown a.store; held = a.store } };

    ghost invariant = { λ a. IsBook (T.shown a.store) a.accepted a.history.entries };
}

impl<A: Allocator + Copy, T: Table<A>> Book<A, T> {
    ghost use Rattle.std.specs.Prelude.{◌≡◌, [], map};
    ghost use Rattle.covtable.specs.Shown.{StandsFor};
    ghost use Rattle.covbook.specs.Op.{AreLawfulOps};
    ghost use Rattle.covbook.specs.Step.{IsLegal, table_of, ops_in};
    ghost use Rattle.covbook.specs.EntryView.{entry_data};

    /// An empty book that stores whole entries. Never allocates.
    pub fn new(alloc: A) -> Book<A, T>
        ensures { result.entries ≡ [] }
    {
        Book::keeping(alloc)
    }

    /// The history's entries, in order. The history is legal, and each submission in it is lawful. The store represents the table
    /// after the last entry.
    pub fn entries(&self) -> &[Entry<A>]
        ensures entries { map entry_data result.now ≡ self.now.entries }
        ensures legal { IsLegal self.now.entries }
        ensures lawful { AreLawfulOps (ops_in self.now.entries) }
        ensures stands { StandsFor self.now.store (table_of (ops_in self.now.entries)) }
    {
        self.history.get()
    }
}

impl<A: Allocator + Copy, T: Table<A>, K: Keep<Of = Entry<A>>> Book<A, T, K> {
    ghost use Rattle.std.specs.Prelude.{◌≡◌, ◌↔◌, ◌+◌, ◌<◌, ◌≤◌, ◌++◌, [], ◌∷◌, length, IsTrue, IfOk, OnOk, OnErr, Err, map};
    ghost use Rattle.covtable.specs.Shown.{SameContent, StandsFor};
    ghost use Rattle.covtable.specs.Totals.{AreTotals};
    ghost use Rattle.covtable.specs.Without.{sections_of_test, without_test};
    ghost use Rattle.covbook.specs.ChangeView.{change_data};
    ghost use Rattle.covbook.specs.Op.{SubmitOp, DropTestOp, RenameOp, AcceptedAnswer, DroppedAnswer, RenamedAnswer, TextAnswer, AreLawfulOps, IsLawfulOp};
    ghost use Rattle.covbook.specs.Step.{IsLegal, answer_of, last_totals, next_entry, receipt_of, table_after, table_of, totals_at, ops_in, max_entries};
    ghost use Rattle.covbook.specs.MayFail.{PrintingMayFail, TextMayFail};
    ghost use Rattle.covbook.specs.Texts.{IsText};
    ghost use Rattle.covbook.specs.View.{op_data, answer_data};
    ghost use Rattle.covbook.specs.EntryView.{entry_data, receipt_data};
    ghost use Rattle.covbook.specs.Held.{SameBook};
    ghost use Rattle.covbook.specs.Ready.{DropChange, HasRoom, HoldChange, RenameChange, IsNextOf, IsPlanned, IsAfter, IsReadyOf, IsReadyFor};

    /// An empty book that stores only the `K` part of each entry. Never allocates.
    pub fn keeping(alloc: A) -> Book<A, T, K>
        ensures { result.entries ≡ [] }
    {
        Book {
            store: T::new(alloc),
            accepted: 0,
            history: History::new(alloc),
        }
    }

    /// How many entries the history has: at most 1,048,576. Never allocates.
    pub fn len(&self) -> u64
        ensures value { result ≡ length self.now.entries }
        ensures few { length self.now.entries ≤ max_entries }
    {
        self.history.place()
    }

    /// Whether the history is full, so that `step` would return `Full`. Never allocates.
    pub fn is_full(&self) -> bool
        ensures full { IsTrue result ↔ (length self.now.entries ≡ max_entries) }
        ensures few { length self.now.entries ≤ max_entries }
    {
        self.history.is_full()
    }

    /// The stored parts of the history's entries, in order. The history is legal, each submission in it is lawful, and the store
    /// represents the table after the last entry. Never allocates.
    pub fn kept(&self) -> &[K]
        ensures entries { map (λ k. entry_data (K.shows k)) result.now ≡ self.now.entries }
        ensures legal { IsLegal self.now.entries }
        ensures lawful { AreLawfulOps (ops_in self.now.entries) }
        ensures stands { StandsFor self.now.store (table_of (ops_in self.now.entries)) }
    {
        self.history.get()
    }

    /// The totals after the last entry, or zeros if there are no entries. Never allocates.
    pub fn totals(&self) -> Totals
        ensures last { result ≡ last_totals self.now.entries }
        ensures table { result ≡ totals_at (table_of (ops_in self.now.entries)) }
        ensures bounds { AreTotals result }
    {
        self.store.totals()
    }

    /// The store, which represents the table after the last entry. From the store, a caller can print texts that no `Op` prints.
    /// Never allocates.
    pub fn store(&self) -> &T
        ensures held { result.now ≡ self.now.held }
        ensures store { T.shown result.now ≡ self.now.store }
        ensures stands { StandsFor self.now.store (table_of (ops_in self.now.entries)) }
    {
        &self.store
    }

    /// Performs one step: answers the operation and appends its entry. Calls `ready` and then `finish`. A failed step changes
    /// neither history nor table.
    pub fn step(&mut self, alloc: A, job: u32, op: &Op<A>) -> Result<Receipt<A>, BookFault>
        ensures answer { IfOk result (λ r. answer_data r.answer ≡ answer_of (table_of (ops_in self.old.entries)) (op_data op.now)) }
        ensures place { IfOk result (λ r. r.place ≡ length self.old.entries) }
        ensures asked { IfOk result (λ r. op_data r.op ≡ op_data op.now) }
        ensures entry { OnOk result (self.new.entries ≡ self.old.entries ++ next_entry self.old.entries job (op_data op.now) ∷ []) }
        ensures legal { IsLegal self.new.entries }
        ensures refused { OnErr result (SameBook self.old self.new) }
        ensures full { (result ≡ Err BookFault.Full) ↔ (length self.old.entries ≡ max_entries) }
    {
        let ready = self.ready(alloc, job, op)?;
        Ok(self.finish(ready))
    }

    /// Does the first half of a step, which can fail: finds the answer, makes the entry, and reserves capacity for the entry. For a
    /// submission or a rename, prepares the store's change. For a drop, finds the number of the test's sections, and the totals
    /// without the test. Never changes history or table. `finish` does the second half, and the book must not change in between.
    /// Dropping the `Ready` cancels the step.
    pub fn ready(
        &mut self,
        alloc: A,
        job: u32,
        op: &Op<A>,
    ) -> Result<Ready<A, T::Plan, T::Renaming>, BookFault>
        ensures same { SameBook self.old self.new }
        ensures ready { IfOk result (λ r. IsReadyFor T.plans T.renames self.new job (op_data op.now) r) }
        ensures after { IfOk result (λ r. IsAfter self.old (op_data op.now) r.after) }
        ensures legal { IsLegal self.new.entries }
        ensures full { (result ≡ Err BookFault.Full) ↔ (length self.old.entries ≡ max_entries) }
    {
        if self.history.is_full() {
            return Err(BookFault::Full);
        }
        Ok(self.made_ready(alloc, job, op)?)
    }

    /// Does the second half of a step: appends the step's entry and changes the store. The book must be as `Book::ready` left it.
    /// Never allocates.
    pub fn finish(&mut self, ready: Ready<A, T::Plan, T::Renaming>) -> Receipt<A>
        requires { IsReadyOf T.plans T.renames self.old ready }
        ensures receipt { receipt_data result ≡ receipt_of (length self.old.entries) (next_entry self.old.entries ready.entry.job ready.entry.op) }
        ensures entry { self.new.entries ≡ self.old.entries ++ next_entry self.old.entries ready.entry.job ready.entry.op ∷ [] }
        ensures legal { IsLegal self.new.entries }
    {
        let (entry, receipt, change) = ready.into_parts();
        match change {
            Change::Nothing => self.note(entry),
            Change::Hold(plan) => self.hold(plan, entry),
            Change::Drop(test) => self.drop_test(&test, entry),
            Change::Rename(renaming) => self.rename(renaming, entry),
        }
        receipt
    }

    /// Prepares the step of `op`, after reserving capacity for the entry. The history must not be full.
    fn made_ready(
        &mut self,
        alloc: A,
        job: u32,
        op: &Op<A>,
    ) -> Result<Ready<A, T::Plan, T::Renaming>, Memory>
        requires { length self.old.entries < max_entries }
        ensures same { SameBook self.old self.new }
        ensures ready { IfOk result (λ r. IsReadyFor T.plans T.renames self.new job (op_data op.now) r) }
    {
        self.make_room()?;
        match op {
            Op::Submit(submission) => self.submission_ready(alloc, job, submission),
            Op::SubmitPacked(submission) => self.submission_ready(alloc, job, submission),
            Op::DropTest(test) => self.drop_ready(alloc, job, test),
            Op::Rename { old, new } => self.rename_ready(alloc, job, old, new),
            Op::Report | Op::Extract(_) | Op::Remove(_) | Op::Summary => {
                self.text_ready(alloc, job, op)
            }
        }
    }

    /// Reserves capacity for one more entry.
    fn make_room(&mut self) -> Result<(), Memory>
        requires { length self.old.entries < max_entries }
        ensures same { SameBook self.old self.new }
        ensures room { OnOk result (HasRoom self.new) }
    {
        self.history.make_room()?;
        Ok(())
    }

    /// Prepares the step that adds `submission`. If the submission clashes, the step changes only the history.
    fn submission_ready<S: Submitted<A>>(
        &mut self,
        alloc: A,
        job: u32,
        submission: &S,
    ) -> Result<Ready<A, T::Plan, T::Renaming>, Memory>
        requires { HasRoom self.old }
        ensures same { SameBook self.old self.new }
        ensures ready { IfOk result (λ r. IsReadyFor T.plans T.renames self.new job (SubmitOp (S.says submission.now)) r) }
    {
        let op = submission.to_op()?;
        let items = submission.count_items();
        match submission.prepare_in(alloc, &mut self.store) {
            Ok(plan) => {
                let answer = self.accepted_answer(items, submission.count_odd());
                let after = self.store.totals_after(&plan);
                let entry = Entry {
                    job,
                    op,
                    answer,
                    after,
                };
                self.ready_to_change(alloc, entry, Change::Hold(plan))
            }
            Err(refuse) => {
                let answer = clash_of(refuse)?;
                self.ready_to_note(alloc, job, op, answer)
            }
        }
    }

    /// The answer that accepts the next submission, with `items` items and `odd` inconsistent lines.
    fn accepted_answer(&self, items: u64, odd: u64) -> Answer<A>
        ensures { answer_data result ≡ AcceptedAnswer (length (table_of (ops_in self.now.entries)) + 1) items odd }
    {
        Answer::Accepted {
            number: self.accepted + 1,
            items,
            odd,
        }
    }

    /// Prepares the step that drops `test`. The answer is `NoSuchTest` if the table has no row of the test.
    fn drop_ready(
        &self,
        alloc: A,
        job: u32,
        test: &Bytes<A>,
    ) -> Result<Ready<A, T::Plan, T::Renaming>, Memory>
        requires { HasRoom self.now }
        ensures { IfOk result (λ r. IsReadyFor T.plans T.renames self.now job (DropTestOp test.now) r) }
    {
        let op = Op::DropTest(test.copy(alloc)?);
        if !self.store.has_test(test.get()) {
            return self.ready_to_note(alloc, job, op, Answer::NoSuchTest);
        }
        let change = Change::Drop(test.copy(alloc)?);
        let (answer, after) = self.drop_answer(test.get());
        let entry = Entry {
            job,
            op,
            answer,
            after,
        };
        self.ready_to_change(alloc, entry, change)
    }

    /// The answer to the drop of `test`, and the totals without this test.
    fn drop_answer(&self, test: &[u8]) -> (Answer<A>, Totals)
        ensures answer { answer_data result.0 ≡ DroppedAnswer (sections_of_test test.now (table_of (ops_in self.now.entries))) }
        ensures totals { result.1 ≡ totals_at (without_test test.now (table_of (ops_in self.now.entries))) }
        ensures bounds { AreTotals result.1 }
    {
        let (sections, after) = self.store.after_drop(test);
        (Answer::Dropped { sections }, after)
    }

    /// Prepares the step that renames `old` to `new`. The answer is `NoSuchTest` if the table has no row of `old`. The totals don't
    /// change.
    fn rename_ready(
        &mut self,
        alloc: A,
        job: u32,
        old: &Bytes<A>,
        new: &Bytes<A>,
    ) -> Result<Ready<A, T::Plan, T::Renaming>, Memory>
        requires { HasRoom self.old }
        ensures same { SameBook self.old self.new }
        ensures ready { IfOk result (λ r. IsReadyFor T.plans T.renames self.new job (RenameOp old.now new.now) r) }
    {
        let op = Op::Rename {
            old: old.copy(alloc)?,
            new: new.copy(alloc)?,
        };
        if !self.store.has_test(old.get()) {
            return self.ready_to_note(alloc, job, op, Answer::NoSuchTest);
        }
        let renaming = self.store.prepare_rename(alloc, old.get(), new.get())?;
        // Proof only: the totals don't change.
        renaming_keeps_totals();
        let entry = Entry {
            job,
            op,
            answer: Answer::Renamed {
                sections: self.store.sections_moved(&renaming),
            },
            after: self.store.totals(),
        };
        self.ready_to_change(alloc, entry, Change::Rename(renaming))
    }

    /// Prepares the step of an operation that prints. The step's entry and receipt share the printed text.
    fn text_ready(
        &self,
        alloc: A,
        job: u32,
        op: &Op<A>,
    ) -> Result<Ready<A, T::Plan, T::Renaming>, Memory>
        requires room { HasRoom self.now }
        requires text { IsText (op_data op.now) }
        ensures { IfOk result (λ r. IsReadyFor T.plans T.renames self.now job (op_data op.now) r) }
    {
        let text = TextRef::of(alloc, self.text_of(alloc, op)?)?;
        let op = op.copy(alloc)?;
        self.ready_to_note(alloc, job, op, Answer::Text(text))
    }

    /// Prepares the step that appends `entry` and makes `change` to the store.
    fn ready_to_change(
        &self,
        alloc: A,
        entry: Entry<A>,
        change: Change<A, T::Plan, T::Renaming>,
    ) -> Result<Ready<A, T::Plan, T::Renaming>, Memory>
        requires room { HasRoom self.now }
        requires next { IsNextOf self.now (entry_data entry) }
        requires planned { IsPlanned T.plans T.renames self.now.held (table_of (ops_in self.now.entries)) (op_data entry.op) (change_data change) }
        requires bounds { AreTotals entry.after }
        requires lawful { IsLawfulOp (op_data entry.op) }
        ensures { IfOk result (λ r. IsReadyFor T.plans T.renames self.now entry.job (op_data entry.op) r) }
    {
        let receipt = self.history.receipt(alloc, &entry)?;
        Ok(Ready::new(entry, receipt, change))
    }

    /// Prepares the step that appends an entry with `answer`. The operation must not change the table.
    fn ready_to_note(
        &self,
        alloc: A,
        job: u32,
        op: Op<A>,
        answer: Answer<A>,
    ) -> Result<Ready<A, T::Plan, T::Renaming>, Memory>
        requires room { HasRoom self.now }
        requires answer { answer_data answer ≡ answer_of (table_of (ops_in self.now.entries)) (op_data op) }
        requires still { table_after (table_of (ops_in self.now.entries)) (op_data op) ≡ table_of (ops_in self.now.entries) }
        requires lawful { IsLawfulOp (op_data op) }
        ensures { IfOk result (λ r. IsReadyFor T.plans T.renames self.now job (op_data op) r) }
    {
        let after = self.store.totals();
        let entry = Entry {
            job,
            op,
            answer,
            after,
        };
        self.ready_to_change(alloc, entry, Change::Nothing)
    }

    /// Adds the submission of `plan` to the store, and appends the entry.
    fn hold(&mut self, plan: T::Plan, entry: Entry<A>)
        requires room { HasRoom self.old }
        requires next { IsNextOf self.old (entry_data entry) }
        requires planned { IsPlanned T.plans T.renames self.old.held (table_of (ops_in self.old.entries)) (op_data entry.op) (HoldChange plan) }
        requires lawful { IsLawfulOp (op_data entry.op) }
        ensures entry { self.new.entries ≡ self.old.entries ++ entry_data entry ∷ [] }
        ensures legal { IsLegal self.new.entries }
    {
        self.store.commit(plan);
        self.accepted += 1;
        self.history.append(entry);
    }

    /// Drops `test` from the store, and appends the entry.
    fn drop_test(&mut self, test: &Bytes<A>, entry: Entry<A>)
        requires room { HasRoom self.old }
        requires next { IsNextOf self.old (entry_data entry) }
        requires planned { IsPlanned T.plans T.renames self.old.held (table_of (ops_in self.old.entries)) (op_data entry.op) (DropChange test.now) }
        requires lawful { IsLawfulOp (op_data entry.op) }
        ensures entry { self.new.entries ≡ self.old.entries ++ entry_data entry ∷ [] }
        ensures legal { IsLegal self.new.entries }
    {
        self.store.drop_leaving(test.get(), entry.after);
        self.history.append(entry);
    }

    /// Renames a test as `renaming` plans, and appends the entry.
    fn rename(&mut self, renaming: T::Renaming, entry: Entry<A>)
        requires room { HasRoom self.old }
        requires next { IsNextOf self.old (entry_data entry) }
        requires planned { IsPlanned T.plans T.renames self.old.held (table_of (ops_in self.old.entries)) (op_data entry.op) (RenameChange renaming) }
        requires lawful { IsLawfulOp (op_data entry.op) }
        ensures entry { self.new.entries ≡ self.old.entries ++ entry_data entry ∷ [] }
        ensures legal { IsLegal self.new.entries }
    {
        self.store.commit_rename(renaming);
        self.history.append(entry);
    }

    /// Appends the entry of an operation that must not change the table.
    fn note(&mut self, entry: Entry<A>)
        requires room { HasRoom self.old }
        requires next { IsNextOf self.old (entry_data entry) }
        requires still { table_after (table_of (ops_in self.old.entries)) (op_data entry.op) ≡ table_of (ops_in self.old.entries) }
        requires lawful { IsLawfulOp (op_data entry.op) }
        ensures entry { self.new.entries ≡ self.old.entries ++ entry_data entry ∷ [] }
        ensures legal { IsLegal self.new.entries }
    {
        self.history.append(entry);
    }

    /// Returns the text that the operation asks for, of the current table. Appends no entry. An empty report never fails.
    pub fn text_of(&self, alloc: A, op: &Op<A>) -> Result<Bytes<A>, Memory>
        requires { IsText (op_data op.now) }
        ensures text { IfOk result (λ t. TextAnswer t ≡ answer_of (table_of (ops_in self.now.entries)) (op_data op.now)) }
        ensures refused { OnErr result (TextMayFail (op_data op.now) self.now.store.sections) }
    {
        match op {
            Op::Submit(_) | Op::SubmitPacked(_) | Op::DropTest(_) | Op::Rename { .. } => {
                unreachable!()
            }
            Op::Report => trace_text(alloc, &self.store, &Choice::All),
            Op::Extract(patterns) => {
                trace_text(alloc, &self.store, &Choice::Extract(patterns.copy(alloc)?))
            }
            Op::Remove(patterns) => {
                trace_text(alloc, &self.store, &Choice::Remove(patterns.copy(alloc)?))
            }
            Op::Summary => summary_text(alloc, &self.store.totals()),
        }
    }

    /// Prepares to print the text that the operation asks for, of the current table. Appends no entry. Reserves all memory that
    /// printing needs, so nothing is printed if an allocation fails. Never fails for a report without functions.
    pub fn printing(&self, alloc: A, op: &Op<A>) -> Result<Printing<'_, A, T>, Memory>
        requires { IsText (op_data op.now) }
        ensures text { IfOk result (λ p. TextAnswer p ≡ answer_of (table_of (ops_in self.now.entries)) (op_data op.now)) }
        ensures refused { OnErr result (PrintingMayFail (op_data op.now) self.now.store.sections) }
    {
        match op {
            Op::Submit(_) | Op::SubmitPacked(_) | Op::DropTest(_) | Op::Rename { .. } => {
                unreachable!()
            }
            Op::Report => Printing::of_store(alloc, &self.store, Choice::All),
            Op::Extract(patterns) => {
                Printing::of_store(alloc, &self.store, Choice::Extract(patterns.copy(alloc)?))
            }
            Op::Remove(patterns) => {
                Printing::of_store(alloc, &self.store, Choice::Remove(patterns.copy(alloc)?))
            }
            Op::Summary => {
                let text = summary_text(alloc, &self.store.totals())?;
                Ok(Printing::of_text(text))
            }
        }
    }
}

impl<A: Allocator, T: Table<A>> Book<A, T> {
    ghost use Rattle.std.specs.Prelude.{◌≡◌};
    ghost use Rattle.covbook.specs.Op.{AreLawfulOps};
    ghost use Rattle.covbook.specs.Step.{ops_in};

    /// Consumes the book and returns its entries. Each submission in the entries is lawful. Never allocates.
    pub fn into_entries(self) -> Entries<A>
        ensures entries { result ≡ self.entries }
        ensures lawful { AreLawfulOps (ops_in self.entries) }
    {
        Entries::of(self.history.into_kept())
    }
}

ghost use Rattle.std.specs.Prelude.{◌≡◌, Some, None, MatchResult};
ghost use Rattle.covtable.specs.RefuseView.{refuse_data};
ghost use Rattle.covbook.specs.Refusal.{refusal_answer};
ghost use Rattle.covbook.specs.View.{answer_data};

/// Turns a clash into an answer. Returns `Memory` if `refuse` is a failed allocation.
fn clash_of<A: Allocator>(refuse: Refuse<A>) -> Result<Answer<A>, Memory>
    ensures { MatchResult result (λ a. refusal_answer (refuse_data refuse) ≡ Some (answer_data a)) (λ _. refusal_answer (refuse_data refuse) ≡ None) }
{
    match refuse {
        Refuse::Clash {
            file,
            line,
            held,
            given,
        } => Ok(Answer::Clash {
            file,
            line,
            held,
            given,
        }),
        Refuse::Memory => Err(Memory),
    }
}
