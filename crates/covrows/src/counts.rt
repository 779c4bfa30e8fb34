//! The totals of rows.

ghost use Rattle.std.specs.Prelude.{◌≡◌, ◌<◌, ◌^◌, ◌&&◌, filter, length, map};
ghost use Rattle.std.specs.List.{list_any};
ghost use Rattle.covrows.specs.Counted.{count_last, is_last_of, is_selected, same_points, takes as takes_data};
ghost use Rattle.covrows.specs.Data.{row_data};
ghost use Rattle.covtable.specs.Content.{content_of};
ghost use Rattle.covtable.specs.Totals.{AreTotals, totals_of as totals_of_sections};

use crate::row::Row;
use crate::said::is_same_point;
use crate::selection::{Kind, Selection};
use covtable::Totals;
use std::alloc::Allocator;

/// The totals of the selected rows.
pub(crate) fn totals_of<A: Allocator>(rows: &[Row<A>], selection: &Selection<'_, A>) -> Totals
    requires { length rows.now < 2 ^ 64 }
    ensures value { result ≡ totals_of_sections (filter (λ s. is_selected selection.now s.key) (content_of (map row_data rows.now))) }
    ensures bounds { AreTotals result }
{
    Totals {
        lf: count(rows, selection, Kind::Lines, false),
        lh: count(rows, selection, Kind::Lines, true),
        ff: count(rows, selection, Kind::Functions, false),
        fh: count(rows, selection, Kind::Functions, true),
        bf: count(rows, selection, Kind::Branches, false),
        bh: count(rows, selection, Kind::Branches, true),
    }
}

/// How many different points of a kind the selected rows have, and only those with a count above 0 if `hit`. A point counts at its
/// last row.
fn count<A: Allocator>(rows: &[Row<A>], selection: &Selection<'_, A>, kind: Kind, hit: bool) -> u64
    requires { length rows.now < 2 ^ 64 }
    ensures { result ≡ count_last (takes_data (is_selected selection.now) kind hit) (map row_data rows.now) }
{
    let mut count = 0;
    for at in 0..rows.len() {
        count += u64::from(is_last(&rows[at], &rows[at + 1..], selection, kind, hit));
    }
    count
}

/// Whether the row is counted, and none of the rows after it that is counted has its point.
fn is_last<A: Allocator>(
    row: &Row<A>,
    after: &[Row<A>],
    selection: &Selection<'_, A>,
    kind: Kind,
    hit: bool,
) -> bool
    ensures { result ≡ is_last_of (takes_data (is_selected selection.now) kind hit) (row_data row.now) (map row_data after.now) }
{
    takes(row, selection, kind, hit) && !comes_again(row, after, selection, kind, hit)
}

/// Whether one of the rows is counted and has the point of `row`.
fn comes_again<A: Allocator>(
    row: &Row<A>,
    rows: &[Row<A>],
    selection: &Selection<'_, A>,
    kind: Kind,
    hit: bool,
) -> bool
    ensures { result ≡ list_any (λ other. takes_data (is_selected selection.now) kind hit other && same_points (row_data row.now) other) (map row_data rows.now) }
{
    for other in rows {
        if takes(other, selection, kind, hit) && has_same_point(row, other) {
            return true;
        }
    }
    false
}

/// Whether the row is counted.
fn takes<A: Allocator>(row: &Row<A>, selection: &Selection<'_, A>, kind: Kind, hit: bool) -> bool
    ensures { result ≡ takes_data (is_selected selection.now) kind hit (row_data row.now) }
{
    selection.takes(row) && (!hit || row.item.is_hit()) && kind.has(&row.item)
}

/// Whether two rows have the same point of the same file.
fn has_same_point<A: Allocator>(left: &Row<A>, right: &Row<A>) -> bool
    ensures { result ≡ same_points (row_data left.now) (row_data right.now) }
{
    left.file.get() == right.file.get() && is_same_point(&left.item, &right.item)
}
