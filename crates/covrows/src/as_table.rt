//! The rows as a `Table`.

use crate::rows::{Plan, Renaming, Rows};
use crate::selection::Selection;
use covdata::{Memory, Submission};
use covpacked::PackedSubmission;
use covreport::{
    Choice, PrintedFunction, Printer, Table, list_files, most_functions_in, put_sections,
};
use covtable::{FileTotals, Refuse, Totals};
use std::alloc::Allocator;

impl<A: Allocator + Copy> Table<A> for Rows<A> {
    ghost use Rattle.covrows.specs.View.{IsPlanOf, IsRenamingOf, shown_of};

    type Plan = Plan<A>;

    type Renaming = Renaming<A>;

    ghost shown = { shown_of };

    ghost plans = { IsPlanOf };

    ghost renames = { IsRenamingOf };

    ghost planned_totals = { λ plan. plan.after };

    ghost moved_sections = { λ renaming. renaming.sections };

    fn new(alloc: A) -> Rows<A> {
        Rows::empty(alloc)
    }

    fn prepare(&mut self, alloc: A, submission: &Submission<A>) -> Result<Plan<A>, Refuse<A>> {
        self.plan(alloc, submission)
    }

    fn prepare_packed(
        &mut self,
        alloc: A,
        submission: &PackedSubmission<A>,
    ) -> Result<Plan<A>, Refuse<A>> {
        self.plan_packed(alloc, submission)
    }

    fn totals_after(&self, plan: &Plan<A>) -> Totals {
        plan.after
    }

    fn commit(&mut self, plan: Plan<A>) {
        self.add(plan);
    }

    fn prepare_rename(&mut self, alloc: A, old: &[u8], new: &[u8]) -> Result<Renaming<A>, Memory> {
        self.plan_rename(alloc, old, new)
    }

    fn sections_moved(&self, renaming: &Renaming<A>) -> u64 {
        renaming.sections
    }

    fn commit_rename(&mut self, renaming: Renaming<A>) {
        self.rename(renaming);
    }

    fn has_test(&self, test: &[u8]) -> bool {
        self.has_row_of(test)
    }

    fn after_drop(&self, test: &[u8]) -> (u64, Totals) {
        (
            self.sections_of(test),
            self.totals_where(&Selection::Without(test)),
        )
    }

    fn drop_leaving(&mut self, test: &[u8], _totals: Totals) {
        self.drop_rows_of(test);
    }

    fn totals(&self) -> Totals {
        self.totals_where(&Selection::All)
    }

    fn files<'s>(&'s self, alloc: A) -> Result<Vec<FileTotals<'s>, A>, Memory> {
        list_files(alloc, self.all_files())
    }

    fn chosen_totals(&self, choice: &Choice<A>) -> Totals {
        self.totals_where(&Selection::Chosen(choice))
    }

    fn most_functions(&self, choice: &Choice<A>) -> usize {
        most_functions_in(self.sections(), choice)
    }

    fn put_sections<'s, P: Printer>(
        &'s self,
        choice: &Choice<A>,
        functions: &mut Vec<PrintedFunction<'s>, A>,
        out: &mut P,
    ) {
        put_sections(self.sections(), choice, functions, out);
    }
}
