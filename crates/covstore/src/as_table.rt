//! The store as a `Table`. Each call is the store's own call of the same name.

use crate::content::{Branches, Functions, Lines, Section, Sections};
use crate::files::Files;
use crate::plan::Plan;
use crate::renaming::Renaming;
use crate::store::Store;
use covdata::{Memory, Submission};
use covhtml::{PointsTable, SectionPoints, section_points};
use covpacked::PackedSubmission;
use covreport::{
    Choice, PrintedFunction, Printer, Table, list_files, most_functions_in, put_sections,
    without_others,
};
use covtable::{FileTotals, Refuse, TableFiles, TableSection, TableSections, Totals};
use std::alloc::Allocator;

impl<A: Allocator + Copy> Table<A> for Store<A> {
    ghost use Rattle.covstore.specs.Renaming.{IsRenamingOf};
    ghost use Rattle.covstore.specs.Store.{IsPlanOf, shown_of};

    type Plan = Plan;

    type Renaming = Renaming<A>;

    ghost shown = { shown_of };

    ghost plans = { IsPlanOf };

    ghost renames = { IsRenamingOf };

    ghost planned_totals = { λ plan. plan.after };

    ghost moved_sections = { λ renaming. renaming.sections };

    fn new(alloc: A) -> Store<A> {
        Store::new(alloc)
    }

    fn prepare(&mut self, alloc: A, submission: &Submission<A>) -> Result<Plan, Refuse<A>> {
        Store::prepare(self, alloc, submission)
    }

    fn prepare_packed(
        &mut self,
        alloc: A,
        submission: &PackedSubmission<A>,
    ) -> Result<Plan, Refuse<A>> {
        Store::prepare_packed(self, alloc, submission)
    }

    fn totals_after(&self, plan: &Plan) -> Totals {
        plan.after()
    }

    fn commit(&mut self, plan: Plan) {
        Store::commit(self, plan);
    }

    fn prepare_rename(&mut self, alloc: A, old: &[u8], new: &[u8]) -> Result<Renaming<A>, Memory> {
        Store::prepare_rename(self, alloc, old, new)
    }

    fn sections_moved(&self, renaming: &Renaming<A>) -> u64 {
        renaming.sections()
    }

    fn commit_rename(&mut self, renaming: Renaming<A>) {
        Store::commit_rename(self, renaming);
    }

    fn has_test(&self, test: &[u8]) -> bool {
        Store::has_test(self, test)
    }

    fn after_drop(&self, test: &[u8]) -> (u64, Totals) {
        Store::after_drop(self, test)
    }

    fn drop_leaving(&mut self, test: &[u8], totals: Totals) {
        Store::drop_leaving(self, test, totals);
    }

    fn totals(&self) -> Totals {
        Store::totals(self)
    }

    fn files<'s>(&'s self, alloc: A) -> Result<Vec<FileTotals<'s>, A>, Memory> {
        list_files(alloc, Store::files(self))
    }

    fn chosen_totals(&self, choice: &Choice<A>) -> Totals {
        without_others(Store::files(self), choice, Store::totals(self))
    }

    fn most_functions(&self, choice: &Choice<A>) -> usize {
        most_functions_in(self.sections(), choice)
    }

    fn put_sections<'s, P: Printer>(
        &'s self,
        choice: &Choice<A>,
        functions: &mut Vec<PrintedFunction<'s>, A>,
        out: &mut P,
    ) {
        put_sections(self.sections(), choice, functions, out);
    }
}

impl<A: Allocator + Copy> PointsTable<A> for Store<A> {
    fn sections_of<'s>(
        &'s self,
        alloc: A,
        file: &[u8],
    ) -> Result<Vec<SectionPoints<'s, A>, A>, Memory> {
        let mut sections = Vec::new(alloc);
        let Some(own) = self.file_sections(alloc, file)? else {
            return Ok(sections);
        };
        for section in own {
            sections.push(section_points(alloc, &section)?)?;
        }
        Ok(sections)
    }
}

impl<'s, A: Allocator> TableSection<'s> for Section<'s, A> {
    type Functions = Functions<'s, A>;

    type Branches = Branches<'s, A>;

    type Lines = Lines<'s, A>;

    ghost shown = { λ section. section };

    ghost functions_left = { λ functions. functions };

    ghost branches_left = { λ branches. branches };

    ghost lines_left = { λ lines. lines };

    fn file(&self) -> &'s [u8] {
        Section::file(self)
    }

    fn test(&self) -> &'s [u8] {
        Section::test(self)
    }

    fn functions(&self) -> Functions<'s, A> {
        Section::functions(self)
    }

    fn branches(&self) -> Branches<'s, A> {
        Section::branches(self)
    }

    fn lines(&self) -> Lines<'s, A> {
        Section::lines(self)
    }
}

impl<'s, A: Allocator> TableSections<'s> for Sections<'s, A> {
    type Section = Section<'s, A>;

    ghost left = { λ sections. sections };

    fn next_section(&mut self) -> Option<Section<'s, A>> {
        self.next()
    }
}

impl<'s, A: Allocator + Copy> TableFiles<'s> for Files<'s, A> {
    ghost left = { λ files. files };

    fn next_file(&mut self) -> Option<FileTotals<'s>> {
        self.next()
    }
}
