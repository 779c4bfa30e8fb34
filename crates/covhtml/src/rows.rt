//! The lines of a source file that have points.

ghost use Rattle.std.specs.Prelude.{◌≡◌, ◌≤◌, None, count_by, drop, length, map};
ghost use Rattle.covtable.specs.Value.{is_taken as is_taken_value};
ghost use Rattle.covtable.specs.ValuesView.{branch_data};
ghost use Rattle.covhtml.specs.RowView.{row_data};
ghost use Rattle.covhtml.specs.Rows.{branches_hit as hit_among, first_missed as number_of_first, is_missed as is_missed_count, last_missed as number_of_last, rows_after as after_line};

use covtable::BranchValue;

/// A line of a source file that has points.
#[derive(Clone, Copy)]
pub struct Row<'a> {
    /// The line's number.
    pub number: u64,
    /// The line's execution count, or `None` if only its branches have counts (geninfo(1): `DA:`).
    pub count: Option<u128>,
    /// The line's branches, in the order in which they are shown (geninfo(1): `BRDA:`).
    pub branches: &'a [BranchValue],
}

/// The rows from the first one with a number above `line` on. In ascending rows, these are the rows of all later lines.
pub(crate) fn rows_after<'r, 'a>(line: u64, rows: &'r [Row<'a>]) -> &'r [Row<'a>]
    ensures { map row_data result.now ≡ after_line line (map row_data rows.now) }
{
    &rows[rows_up_to(line, rows)..]
}

/// How many rows come before the first one with a number above `line`.
fn rows_up_to(line: u64, rows: &[Row<'_>]) -> usize
    ensures within { result ≤ length rows.now }
    ensures rest { map row_data (drop result rows.now) ≡ after_line line (map row_data rows.now) }
{
    for (place, row) in rows.iter().enumerate() {
        if row.number > line {
            return place;
        }
    }
    rows.len()
}

/// The number of the first row that was found and never run.
pub(crate) fn first_missed(rows: &[Row<'_>]) -> Option<u64>
    ensures { result ≡ number_of_first (map row_data rows.now) }
{
    for row in rows {
        if is_missed(row.count) {
            return Some(row.number);
        }
    }
    None
}

/// The number of the last row that was found and never run.
pub(crate) fn last_missed(rows: &[Row<'_>]) -> Option<u64>
    ensures { result ≡ number_of_last None (map row_data rows.now) }
{
    let mut last = None;
    for row in rows {
        if is_missed(row.count) {
            last = Some(row.number);
        }
    }
    last
}

/// Whether a line with this count was found and never run.
pub(crate) fn is_missed(count: Option<u128>) -> bool
    ensures { result ≡ is_missed_count count }
{
    count.is_some_and(|times| times == 0)
}

/// The number of branches.
pub(crate) fn branches_found(branches: &[BranchValue]) -> u64
    ensures { result ≡ length (map branch_data branches.now) }
{
    branches.len() as u64
}

/// How many of the branches were taken at least once.
pub(crate) fn branches_hit(branches: &[BranchValue]) -> u64
    ensures { result ≡ hit_among (map branch_data branches.now) }
{
    taken_among(branches) as u64
}

/// How many of the branches were taken at least once.
fn taken_among(branches: &[BranchValue]) -> usize
    ensures { result ≡ count_by (λ b. is_taken_value b.taken) branches.now }
{
    branches
        .iter()
        .filter(|branch| is_taken(branch.taken))
        .count()
}

/// Whether a branch was taken at least once.
fn is_taken(taken: Option<u128>) -> bool
    ensures { result ≡ is_taken_value taken }
{
    taken.is_some_and(|times| times > 0)
}
