//! The totals of a section.

ghost use Rattle.std.specs.Prelude.{◌≡◌, ◌++◌};
ghost use Rattle.std.specs.List.{flat_map};
ghost use Rattle.covdata.specs.Printed.{printed};
ghost use Rattle.covreport.specs.Report.{totals, totals_if_any};

use super::record::put_total;
use crate::printer::Printer;
use covdata::{Tally, TotalKind};

/// Prints how many points of a kind are found and hit, in two records.
pub(super) fn put_totals<P: Printer>(found: TotalKind, hit: TotalKind, tally: Tally, out: &mut P)
    ensures { P.text out.new ≡ P.text out.old ++ flat_map printed (totals found hit tally.found tally.hit) }
{
    put_total(found, tally.found, out);
    put_total(hit, tally.hit, out);
}

/// Prints how many points of a kind are found and hit, unless no points are found.
pub(super) fn put_totals_if_any<P: Printer>(
    found: TotalKind,
    hit: TotalKind,
    tally: Tally,
    out: &mut P,
)
    ensures { P.text out.new ≡ P.text out.old ++ flat_map printed (totals_if_any found hit tally.found tally.hit) }
{
    if tally.found == 0 {
        return;
    }
    put_totals(found, hit, tally, out);
}
