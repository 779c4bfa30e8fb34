//! The interface of a store.
//!
//! It stands in this crate, since a store calls the functions of this crate that read its sections and files. Only the store can name
//! the types of its iterators.

use crate::choice::Choice;
use crate::printer::Printer;
use crate::tracefile::PrintedFunction;
use covdata::{Memory, Submission};
use covpacked::PackedSubmission;
use covtable::{FileTotals, Refuse, Totals};
use std::alloc::Allocator;

/// A store that represents a table of counts. Contracts see the store's sections, and how many submissions the store has.
///
/// A submission is added in two steps. `prepare` compares checksums, allocates all memory and returns a plan. `commit` adds the
/// submission and never allocates. Renaming a test also takes two steps, `prepare_rename` and `commit_rename`. So does
/// dropping a test, by `after_drop` and `drop_leaving`, which never allocate.
pub trait Table<A: Allocator>: Drop {
    ghost use Rattle.std.specs.Prelude.{◌≡◌, ◌≢◌, ◌<◌, ◌≤◌, ℕ, List, ◌++◌, [], ◌∷◌, IfOk, IfErr, None, OnErr, filter, map, vec_capacity};
    ghost use Rattle.std.specs.Str.{bytes_eq};
    ghost use Rattle.std.specs.List.{list_any};
    ghost use Rattle.covdata.specs.Row.{SubmissionData, rows_of};
    ghost use Rattle.covtable.specs.declared.totals.Totals.{Totals};
    ghost use Rattle.covtable.specs.Content.{content_at};
    ghost use Rattle.covtable.specs.Files.{files_with_totals};
    ghost use Rattle.covtable.specs.Refuse.{IsRefusedAt};
    ghost use Rattle.covtable.specs.RefuseView.{refuse_data};
    ghost use Rattle.covtable.specs.Renamed.{renamed};
    ghost use Rattle.covtable.specs.Shown.{SameContent, ShownData, StandsFor, max_members};
    ghost use Rattle.covtable.specs.Table.{Table as Rows, all_rows, clash_at};
    ghost use Rattle.covtable.specs.Totals.{AreTotals, totals_of};
    ghost use Rattle.covtable.specs.ValuesView.{file_totals_data};
    ghost use Rattle.covtable.specs.Without.{sections_of_test, without_test};
    ghost use Rattle.covreport.specs.Choice.{is_chosen};
    ghost use Rattle.covreport.specs.ChoiceView.{choice_data};
    ghost use Rattle.covreport.specs.Put.{HasPut};
    ghost use Rattle.covreport.specs.Report.{report_text};
    ghost use Rattle.covreport.specs.Room.{most_functions as most_functions_of};

    /// A submission that the store is prepared to add.
    type Plan: Drop;

    /// A rename that the store is prepared to perform.
    type Renaming: Drop;

    // What the store shows of itself.
    ghost shown: { Self → ShownData };

    // Whether the store is as `prepare` left it when it made this plan for this submission.
    ghost plans: { Self → SubmissionData → Self.Plan → Type 0 };

    // Whether the store is as `prepare_rename` left it when it made this rename from an old name to a new name.
    ghost renames: { Self → List ℕ → List ℕ → Self.Renaming → Type 0 };

    // The totals of the store after the commit of a plan.
    ghost planned_totals: { Self.Plan → Totals };

    // The number of sections that a rename moves.
    ghost moved_sections: { Self.Renaming → ℕ };

    /// Returns an empty store. Never allocates.
    fn new(alloc: A) -> Self
        ensures { StandsFor (shown result) [] };

    /// Prepares to add `submission`, and returns a plan for `commit`. The content of the store doesn't change. By the contract of
    /// `Ok`, no checksum of the submission clashes, the plan has the totals that the store will have after `commit`, and the plan
    /// belongs to the store as this call leaves it.
    ///
    /// # Errors
    ///
    /// `Clash` with the first checksum of the submission that differs from the checksum that the store, or an earlier record of the
    /// submission, has for the same line. `Memory` if an allocation failed, even if the submission also clashes. A submission
    /// without items always succeeds, since it allocates nothing.
    fn prepare(&mut self, alloc: A, submission: &Submission<A>) -> Result<Self::Plan, Refuse<A>>
        requires { (shown self.old).members < max_members }
        ensures content { SameContent (shown self.old) (shown self.new) }
        ensures planned { IfOk result (λ plan. plans self.new submission.now plan) }
        ensures after { IfOk result (λ plan. (table : Rows) → StandsFor (shown self.old) table → planned_totals plan ≡ totals_of (content_at (table ++ rows_of submission.now ∷ []))) }
        ensures agrees { IfOk result (λ _. (table : Rows) → StandsFor (shown self.old) table → clash_at table submission.now ≡ None) }
        ensures refused { IfErr result (λ e. (table : Rows) → StandsFor (shown self.old) table → IsRefusedAt table submission.now (refuse_data e)) }
        ensures some { OnErr result (rows_of submission.now ≢ []) };

    /// Like [`prepare`](Table::prepare), for a packed submission.
    ///
    /// # Errors
    ///
    /// As [`prepare`](Table::prepare).
    fn prepare_packed(
        &mut self,
        alloc: A,
        submission: &PackedSubmission<A>,
    ) -> Result<Self::Plan, Refuse<A>>
        requires { (shown self.old).members < max_members }
        ensures content { SameContent (shown self.old) (shown self.new) }
        ensures planned { IfOk result (λ plan. plans self.new submission.now plan) }
        ensures after { IfOk result (λ plan. (table : Rows) → StandsFor (shown self.old) table → planned_totals plan ≡ totals_of (content_at (table ++ rows_of submission.now ∷ []))) }
        ensures agrees { IfOk result (λ _. (table : Rows) → StandsFor (shown self.old) table → clash_at table submission.now ≡ None) }
        ensures refused { IfErr result (λ e. (table : Rows) → StandsFor (shown self.old) table → IsRefusedAt table submission.now (refuse_data e)) }
        ensures some { OnErr result (rows_of submission.now ≢ []) };

    /// The totals of the store after the commit of `plan`. Never allocates.
    fn totals_after(&self, plan: &Self::Plan) -> Totals
        ensures value { result ≡ planned_totals plan.now }
        ensures bounds { AreTotals result };

    /// Adds the submission of `plan`. The store must be as `prepare` left it. Never allocates.
    fn commit(&mut self, plan: Self::Plan)
        requires { (s : SubmissionData) × plans self.old s plan }
        ensures stands { (s : SubmissionData) (table : Rows) → plans self.old s plan → StandsFor (shown self.old) table → StandsFor (shown self.new) (table ++ rows_of s ∷ []) };

    /// Prepares to rename the test `old` to `new`, and returns a renaming for `commit_rename`. The content of the store doesn't
    /// change. If another test is named `new`, the commit will merge both tests. If no file has points of `old`, or if both names
    /// are equal, the commit will change nothing. By the contract of `Ok`, the renaming has the number of sections of `old`, and
    /// belongs to the store as this call leaves it.
    ///
    /// # Errors
    ///
    /// `Memory` if an allocation failed. A rename that does nothing always succeeds, since it allocates nothing.
    fn prepare_rename(&mut self, alloc: A, old: &[u8], new: &[u8]) -> Result<Self::Renaming, Memory>
        ensures content { SameContent (shown self.old) (shown self.new) }
        ensures planned { IfOk result (λ renaming. renames self.new old.now new.now renaming) }
        ensures sections { IfOk result (λ renaming. (table : Rows) → StandsFor (shown self.old) table → moved_sections renaming ≡ sections_of_test old.now table) }
        ensures apart { OnErr result (old.now ≢ new.now) }
        ensures some { OnErr result ((table : Rows) → StandsFor (shown self.old) table → sections_of_test old.now table ≢ 0) };

    /// The number of sections that `renaming` moves. Never allocates.
    fn sections_moved(&self, renaming: &Self::Renaming) -> u64
        ensures { result ≡ moved_sections renaming.now };

    /// Performs the prepared rename. The store must be as `prepare_rename` left it. The values of a point that both tests have are
    /// added up. The totals don't change. Never allocates.
    fn commit_rename(&mut self, renaming: Self::Renaming)
        requires { (old new : List ℕ) × renames self.old old new renaming }
        ensures stands { (old new : List ℕ) (table : Rows) → renames self.old old new renaming → StandsFor (shown self.old) table → StandsFor (shown self.new) (renamed old new table) };

    /// Whether the store has a section of this test. Never allocates.
    fn has_test(&self, test: &[u8]) -> bool
        ensures value { result ≡ list_any (λ s. bytes_eq s.key.test test.now) (shown self.now).sections }
        ensures rows { (table : Rows) → StandsFor (shown self.now) table → result ≡ list_any (λ row. bytes_eq row.test test.now) (all_rows table) };

    /// Returns the number of sections of the test, and the totals that the store would have without the test. Never allocates.
    fn after_drop(&self, test: &[u8]) -> (u64, Totals)
        ensures sections { (table : Rows) → StandsFor (shown self.now) table → result.0 ≡ sections_of_test test.now table }
        ensures totals { (table : Rows) → StandsFor (shown self.now) table → result.1 ≡ totals_of (content_at (without_test test.now table)) }
        ensures bounds { AreTotals result.1 };

    /// Drops a test with its points. Other tests keep their points. `totals` must be those that `after_drop` returns. Never
    /// allocates.
    fn drop_leaving(&mut self, test: &[u8], totals: Totals)
        requires { (table : Rows) → StandsFor (shown self.old) table → totals ≡ totals_of (content_at (without_test test.now table)) }
        ensures { (table : Rows) → StandsFor (shown self.old) table → StandsFor (shown self.new) (without_test test.now table) };

    /// The totals over all files and tests. Never allocates.
    fn totals(&self) -> Totals
        ensures value { result ≡ totals_of (shown self.now).sections }
        ensures bounds { AreTotals result };

    /// Returns the files that have points, ascending by path, each with its totals over all tests: what `list_files` gives of the
    /// files. Allocates nothing if no file has points.
    ///
    /// # Errors
    ///
    /// `Memory` if an allocation failed.
    fn files<'s>(&'s self, alloc: A) -> Result<Vec<FileTotals<'s>, A>, Memory>
        ensures files { IfOk result (λ files. map file_totals_data files.items ≡ files_with_totals (shown self.now).sections) }
        ensures some { OnErr result (files_with_totals (shown self.now).sections ≢ []) };

    /// The totals of all tests in the chosen files: what `without_others` leaves of the totals. Never allocates.
    fn chosen_totals(&self, choice: &Choice<A>) -> Totals
        ensures value { result ≡ totals_of (filter (λ s. is_chosen (choice_data choice.now) s.key.file) (shown self.now).sections) }
        ensures bounds { AreTotals result };

    /// The maximum number of functions in a section of the chosen files: what `most_functions_in` gives of the sections. Never
    /// allocates.
    fn most_functions(&self, choice: &Choice<A>) -> usize
        ensures { result ≡ most_functions_of (choice_data choice.now) (shown self.now).sections };

    /// Prints the sections of all chosen files, ascending by file and then by test, until the printer wants no more pieces: what
    /// `put_sections` prints of the sections. A section is a test of a file, with at least one point. `functions` is a buffer, which
    /// must have capacity for the functions of any one section. Never allocates.
    fn put_sections<'s, P: Printer>(
        &'s self,
        choice: &Choice<A>,
        functions: &mut Vec<PrintedFunction<'s>, A>,
        out: &mut P,
    )
        requires { most_functions_of (choice_data choice.now) (shown self.now).sections ≤ vec_capacity functions.old }
        ensures { HasPut P.text P.is_open out.old out.new (report_text (choice_data choice.now) (shown self.now).sections) };
}
