//! The table: all rows of all accepted submissions.

ghost use Rattle.covrows.specs.Data.{row_data};
ghost use Rattle.covtable.specs.Clash.{Agree, checksums_in};
ghost use Rattle.covtable.specs.Totals.{AreTotals};
ghost use Rattle.std.specs.Prelude.{map};

use crate::clash::first_clash;
use crate::content::Sections;
use crate::copies::{copy_rows, push_sects, renamed_rows, replace};
use crate::counts::totals_of;
use crate::files::Files;
use crate::row::Row;
use crate::selection::Selection;
use covdata::{Memory, Submission};
use covpacked::{PackedSubmission, unpack};
use covtable::{Refuse, TableSections, Totals};
use std::alloc::{Allocator, Global};

/// A table of counts as a plain list: each row of each accepted submission, in order, and the number of submissions.
#[derive(Drop)]
pub struct Rows<A: Allocator = Global> {
    pub(crate) rows: Vec<Row<A>, A>,
    members: u64,
    ghost agree: { Agree (checksums_in (map row_data rows.items)) },
}

/// A submission that a table is prepared to add: all rows after the commit, if the submission has rows, and their totals.
#[derive(Drop)]
pub struct Plan<A: Allocator = Global> {
    rows: Option<Vec<Row<A>, A>>,
    pub(crate) after: Totals,
    ghost bounds: { AreTotals after },
}

/// A rename that a table is prepared to perform: all rows after the rename, if it changes any, and the number of sections that it
/// moves.
#[derive(Drop)]
pub struct Renaming<A: Allocator = Global> {
    rows: Option<Vec<Row<A>, A>>,
    pub(crate) sections: u64,
}

impl<A: Allocator + Copy> Rows<A> {
    ghost use Rattle.std.specs.Prelude.{◌≡◌, ◌≢◌, ◌<◌, ◌+◌, ◌^◌, ◌++◌, ℕ, List, [], count_by, filter, length, not, IfOk, IfErr, None, OnErr};
    ghost use Rattle.std.specs.List.{list_any};
    ghost use Rattle.std.specs.Str.{bytes_eq};
    ghost use Rattle.covdata.specs.Row.{SubmissionData, rows_of};
    ghost use Rattle.covrows.specs.Counted.{is_selected};
    ghost use Rattle.covrows.specs.View.{IsPlanOf, IsRenamingOf, IsRefusedBy, files_left, rows_after, rows_in, sections_left, shown_of};
    ghost use Rattle.covtable.specs.Clash.{clash_of};
    ghost use Rattle.covtable.specs.Content.{content_of};
    ghost use Rattle.covtable.specs.Files.{files_with_totals};
    ghost use Rattle.covtable.specs.RefuseView.{refuse_data};
    ghost use Rattle.covtable.specs.Shown.{max_members};
    ghost use Rattle.covtable.specs.Totals.{totals_of};
    ghost use Rattle.covtable.specs.Without.{is_of_test};

    /// A table without rows. Never allocates.
    pub(crate) fn empty(alloc: A) -> Rows<A>
        ensures rows { rows_in result ≡ [] }
        ensures members { result.members ≡ 0 }
    {
        Rows {
            rows: Vec::new(alloc),
            members: 0,
        }
    }

    /// Prepares to add a submission. The table doesn't change.
    pub(crate) fn plan(&self, alloc: A, submission: &Submission<A>) -> Result<Plan<A>, Refuse<A>>
        requires { self.now.members < max_members }
        ensures planned { IfOk result (λ plan. IsPlanOf self.now submission.now plan) }
        ensures after { IfOk result (λ plan. plan.after ≡ totals_of (content_of (rows_in self.now ++ rows_of submission.now))) }
        ensures agrees { IfOk result (λ _. clash_of (rows_in self.now) (rows_of submission.now) ≡ None) }
        ensures refused { IfErr result (λ e. IsRefusedBy (rows_in self.now) submission.now (refuse_data e)) }
        ensures some { OnErr result (rows_of submission.now ≢ []) }
    {
        if submission.items() == 0 {
            return Ok(self.plan_nothing());
        }
        let rows = self.rows_with(alloc, submission)?;
        if let Some(clash) = first_clash(rows.as_slice(), self.rows.len()) {
            return Err(clash.refuse(alloc));
        }
        let after = totals_of(rows.as_slice(), &Selection::All);
        Ok(Plan {
            rows: Some(rows),
            after,
        })
    }

    /// Copies of all rows, and the rows of a submission.
    fn rows_with(&self, alloc: A, submission: &Submission<A>) -> Result<Vec<Row<A>, A>, Memory>
        ensures { IfOk result (λ rows. map row_data rows.items ≡ rows_in self.now ++ rows_of submission.now) }
    {
        let mut rows = copy_rows(alloc, self.rows.as_slice())?;
        push_sects(&mut rows, alloc, submission.sects())?;
        Ok(rows)
    }

    /// Like `plan`, for a packed submission.
    pub(crate) fn plan_packed(
        &self,
        alloc: A,
        submission: &PackedSubmission<A>,
    ) -> Result<Plan<A>, Refuse<A>>
        requires { self.now.members < max_members }
        ensures planned { IfOk result (λ plan. IsPlanOf self.now submission.now plan) }
        ensures after { IfOk result (λ plan. plan.after ≡ totals_of (content_of (rows_in self.now ++ rows_of submission.now))) }
        ensures agrees { IfOk result (λ _. clash_of (rows_in self.now) (rows_of submission.now) ≡ None) }
        ensures refused { IfErr result (λ e. IsRefusedBy (rows_in self.now) submission.now (refuse_data e)) }
        ensures some { OnErr result (rows_of submission.now ≢ []) }
    {
        if submission.items() == 0 {
            return Ok(self.plan_nothing());
        }
        let unpacked = unpack(alloc, submission)?;
        self.plan(alloc, &unpacked)
    }

    /// The plan of a submission without rows.
    fn plan_nothing(&self) -> Plan<A>
        ensures rows { result.rows ≡ None }
        ensures after { result.after ≡ totals_of (content_of (rows_in self.now)) }
    {
        Plan {
            rows: None,
            after: self.totals_where(&Selection::All),
        }
    }

    /// Adds the submission of `plan`.
    pub(crate) fn add(&mut self, plan: Plan<A>)
        requires { (s : SubmissionData) × IsPlanOf self.old s plan }
        ensures rows { rows_in self.new ≡ rows_after plan.rows (rows_in self.old) }
        ensures members { self.new.members ≡ self.old.members + 1 }
    {
        let Plan { rows, .. } = plan;
        replace(&mut self.rows, rows);
        self.members += 1;
    }

    /// Prepares to rename the test `old` to `new`. The table doesn't change.
    pub(crate) fn plan_rename(
        &self,
        alloc: A,
        old: &[u8],
        new: &[u8],
    ) -> Result<Renaming<A>, Memory>
        ensures planned { IfOk result (λ renaming. IsRenamingOf self.now old.now new.now renaming) }
        ensures sections { IfOk result (λ renaming. renaming.sections ≡ count_by (λ s. bytes_eq s.key.test old.now) (content_of (rows_in self.now))) }
        ensures apart { OnErr result (old.now ≢ new.now) }
        ensures some { OnErr result (count_by (λ s. bytes_eq s.key.test old.now) (content_of (rows_in self.now)) ≢ 0) }
    {
        let sections = self.sections_of(old);
        if sections == 0 {
            return Ok(Renaming {
                rows: None,
                sections,
            });
        }
        if old == new {
            return Ok(Renaming {
                rows: None,
                sections,
            });
        }
        let rows = renamed_rows(alloc, self.rows.as_slice(), old, new)?;
        Ok(Renaming {
            rows: Some(rows),
            sections,
        })
    }

    /// Performs the prepared rename.
    pub(crate) fn rename(&mut self, renaming: Renaming<A>)
        requires { (old new : List ℕ) × IsRenamingOf self.old old new renaming }
        ensures rows { rows_in self.new ≡ rows_after renaming.rows (rows_in self.old) }
        ensures members { self.new.members ≡ self.old.members }
    {
        replace(&mut self.rows, renaming.rows);
    }

    /// Whether the table has a row of this test.
    pub(crate) fn has_row_of(&self, test: &[u8]) -> bool
        ensures { result ≡ list_any (is_of_test test.now) (rows_in self.now) }
    {
        for row in self.rows.as_slice() {
            if row.is_of_test(test) {
                return true;
            }
        }
        false
    }

    /// The number of sections of the test.
    pub(crate) fn sections_of(&self, test: &[u8]) -> u64
        ensures { result ≡ count_by (λ s. bytes_eq s.key.test test.now) (content_of (rows_in self.now)) }
    {
        let mut count = 0;
        let mut sections = self.sections();
        while let Some(section) = sections.next_section() {
            if section.key.test == test {
                count += 1;
            }
        }
        count
    }

    /// Drops the rows of a test.
    pub(crate) fn drop_rows_of(&mut self, test: &[u8])
        ensures rows { rows_in self.new ≡ filter (λ row. not (is_of_test test.now row)) (rows_in self.old) }
        ensures members { self.new.members ≡ self.old.members }
    {
        self.rows.retain(|row| !row.is_of_test(test));
    }

    /// The totals of the selected rows.
    pub(crate) fn totals_where(&self, selection: &Selection<'_, A>) -> Totals
        ensures value { result ≡ totals_of (filter (λ s. is_selected selection.now s.key) (content_of (rows_in self.now))) }
        ensures bounds { AreTotals result }
    {
        totals_of(self.rows.as_slice(), selection)
    }

    /// The sections, ascending by file and then by test.
    pub(crate) fn sections(&self) -> Sections<'_, A>
        ensures whole { sections_left result ≡ content_of (rows_in self.now) }
        ensures few { length (rows_in self.now) < 2 ^ 64 }
    {
        let rows = self.rows.as_slice();
        Sections { rows, last: None }
    }

    /// The files, ascending by path.
    pub(crate) fn all_files(&self) -> Files<'_, A>
        ensures { files_left result ≡ files_with_totals (content_of (rows_in self.now)) }
    {
        let rows = self.rows.as_slice();
        Files { rows, last: None }
    }
}
