//! The values of points of a section.

ghost use Rattle.std.specs.Prelude.{◌≡◌, map, option_map, unwrap_or, option_to_list, ◌++◌};
ghost use Rattle.covdata.specs.PointView.{branch_point_data};
ghost use Rattle.covdata.specs.Points.{least as least_number};
ghost use Rattle.covrows.specs.Data.{key_data, row_data};
ghost use Rattle.covtable.specs.Value as value;
ghost use Rattle.covtable.specs.Value.{items_at};

use crate::key::Key;
use crate::row::Row;
use crate::said::{checksum_said, function_added, line_added, start_said, taken_said};
use covdata::BranchPoint;
use std::alloc::Allocator;

/// The count of a line.
pub(crate) fn line_value<A: Allocator>(rows: &[Row<A>], key: Key<'_>, line: u64) -> u128
    ensures { result ≡ value.line_value line (items_at (key_data key.entry) (map row_data rows.now)) }
{
    let mut sum = 0u128;
    for row in rows {
        sum = sum.saturating_add(line_added(row, key, line));
    }
    sum
}

/// The checksum of a line, if it has one.
pub(crate) fn line_checksum<'s, A: Allocator>(
    rows: &'s [Row<A>],
    key: Key<'_>,
    line: u64,
) -> Option<&'s [u8]>
    ensures { option_map (λ said. said.now) result ≡ value.line_checksum line (items_at (key_data key.entry) (map row_data rows.now)) }
{
    for row in rows {
        if row.has_key(key) {
            let said = checksum_said(&row.item, line);
            if said.is_some() {
                return said;
            }
        }
    }
    None
}

/// The count of a function.
pub(crate) fn function_count<A: Allocator>(rows: &[Row<A>], key: Key<'_>, name: &[u8]) -> u128
    ensures { result ≡ value.function_count name.now (items_at (key_data key.entry) (map row_data rows.now)) }
{
    let mut sum = 0u128;
    for row in rows {
        sum = sum.saturating_add(function_added(row, key, name));
    }
    sum
}

/// The start line of a function: the least one that an item gives.
pub(crate) fn function_start<A: Allocator>(rows: &[Row<A>], key: Key<'_>, name: &[u8]) -> u64
    ensures { result ≡ value.function_start name.now (items_at (key_data key.entry) (map row_data rows.now)) }
{
    let mut least = None;
    for row in rows {
        least = lesser_start(least, start_said(row, key, name));
    }
    least.unwrap_or(0)
}

/// The lesser of two start lines, if there are any.
fn lesser_start(least: Option<u64>, said: Option<u64>) -> Option<u64>
    ensures { result ≡ least_number (option_to_list least ++ option_to_list said) }
{
    match (least, said) {
        (Some(least), Some(said)) => Some(least.min(said)),
        (Some(least), None) => Some(least),
        (None, said) => said,
    }
}

/// How often a branch was taken.
pub(crate) fn branch_value<A: Allocator>(
    rows: &[Row<A>],
    key: Key<'_>,
    point: BranchPoint,
) -> Option<u128>
    ensures { result ≡ value.branch_value (branch_point_data point) (items_at (key_data key.entry) (map row_data rows.now)) }
{
    let mut sum = None;
    for row in rows {
        sum = sum_if_any(sum, taken_said(row, key, point));
    }
    sum
}

/// The sum of two numbers, if there are any.
fn sum_if_any(sum: Option<u128>, said: Option<u128>) -> Option<u128>
    ensures { result ≡ value.sum_if_any (option_to_list sum ++ option_to_list said) }
{
    match (sum, said) {
        (Some(sum), Some(said)) => Some(sum.saturating_add(said)),
        (Some(sum), None) => Some(sum),
        (None, said) => said,
    }
}
