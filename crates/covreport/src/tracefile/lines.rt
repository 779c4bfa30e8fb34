//! The lines of a section.

ghost use Rattle.std.specs.Prelude.{◌≡◌, ◌++◌};
ghost use Rattle.std.specs.List.{flat_map};
ghost use Rattle.covdata.specs.Printed.{printed};
ghost use Rattle.covreport.specs.Report.{line_records};

use super::record::put_count;
use super::totals::put_totals;
use crate::printer::Printer;
use covdata::{RecordBuffer, Tally, TotalKind};
use covtable::TableSection;

/// Prints the line records of a section, and the section's line totals.
pub(super) fn put_lines<'s, C: TableSection<'s>, P: Printer>(section: &C, out: &mut P)
    ensures { P.text out.new ≡ P.text out.old ++ flat_map printed (line_records (C.shown section.now).lines) }
{
    let mut record = RecordBuffer::new();
    let mut tally = Tally::NONE;
    for line in section.lines() {
        put_count(&line, &mut record, out);
        tally = tally.and(line.count > 0);
    }
    put_totals(TotalKind::LineFound, TotalKind::LineHit, tally, out);
}
