//! The branches of a section.

ghost use Rattle.std.specs.Prelude.{◌≡◌, ◌++◌};
ghost use Rattle.std.specs.List.{flat_map};
ghost use Rattle.covdata.specs.Printed.{printed};
ghost use Rattle.covreport.specs.Report.{branch_records};
ghost use Rattle.covtable.specs.Value.{is_taken as value_is_taken};

use super::record::put_branch;
use super::totals::put_totals_if_any;
use crate::printer::Printer;
use covdata::{RecordBuffer, Tally, TotalKind};
use covtable::TableSection;

/// Prints the branch records of a section, and the section's branch totals.
pub(super) fn put_branches<'s, C: TableSection<'s>, P: Printer>(section: &C, out: &mut P)
    ensures { P.text out.new ≡ P.text out.old ++ flat_map printed (branch_records (C.shown section.now).branches) }
{
    let mut record = RecordBuffer::new();
    let mut tally = Tally::NONE;
    for branch in section.branches() {
        put_branch(&branch, &mut record, out);
        tally = tally.and(is_taken(branch.taken));
    }
    put_totals_if_any(TotalKind::BranchFound, TotalKind::BranchHit, tally, out);
}

/// Whether a branch was taken at least once.
fn is_taken(taken: Option<u128>) -> bool
    ensures { result ≡ value_is_taken taken }
{
    taken.is_some_and(|times| times > 0)
}
