//! The files, sections and points of rows in ascending order: each call finds the one after the last.

ghost use Rattle.std.specs.Prelude.{◌≡◌, map, option_map, option_to_list};
ghost use Rattle.std.specs.Cmp.Lexicographic.{slice_cmp};
ghost use Rattle.std.specs.Ordering.{nat_cmp};
ghost use Rattle.covdata.specs.PointView.{branch_point_data};
ghost use Rattle.covdata.specs.Points.{branch_points, func_points, line_points};
ghost use Rattle.covrows.specs.Above.{IsNextAbove, is_above, is_below, least_of, lesser};
ghost use Rattle.covrows.specs.Data.{key_data, row_data};
ghost use Rattle.covtable.specs.Value.{branch_cmp, items_at, key_cmp, key_of_row};

use crate::key::Key;
use crate::row::Row;
use crate::said::{branch_of, function_of, line_of};
use covdata::BranchPoint;
use std::alloc::Allocator;

/// The lesser of `least` and `next`, or `least` if `next` isn't above `last`.
fn lesser<T: Ord + Copy>(last: Option<T>, least: Option<T>, next: T) -> Option<T>
    ensures { result ≡ lesser T.cmp last least next }
{
    if is_above(last, next) && is_below(next, least) {
        Some(next)
    } else {
        least
    }
}

/// Like `lesser`, if there is a next one.
fn lesser_if<T: Ord + Copy>(last: Option<T>, least: Option<T>, next: Option<T>) -> Option<T>
    ensures { result ≡ least_of T.cmp last least (option_to_list next) }
{
    match next {
        Some(next) => lesser(last, least, next),
        None => least,
    }
}

/// Whether `next` is above `last`, if there is a last one.
fn is_above<T: Ord + Copy>(last: Option<T>, next: T) -> bool
    ensures { result ≡ is_above T.cmp last next }
{
    match last {
        Some(last) => last.cmp(&next).is_lt(),
        None => true,
    }
}

/// Whether `next` is below `least`, if there is a least one.
fn is_below<T: Ord + Copy>(next: T, least: Option<T>) -> bool
    ensures { result ≡ is_below T.cmp next least }
{
    match least {
        Some(least) => next.cmp(&least).is_lt(),
        None => true,
    }
}

/// The first file above `last`.
pub(crate) fn next_file<'s, A: Allocator>(
    rows: &'s [Row<A>],
    last: Option<&'s [u8]>,
) -> Option<&'s [u8]>
    ensures { IsNextAbove (slice_cmp nat_cmp) (option_map (λ file. file.now) last.entry) (map (λ row. row.file) (map row_data rows.now)) (option_map (λ file. file.now) result) }
{
    let mut least = None;
    for row in rows {
        least = lesser(last, least, row.file.get());
    }
    least
}

/// The first key above `last`.
pub(crate) fn next_key<'s, A: Allocator>(
    rows: &'s [Row<A>],
    last: Option<Key<'s>>,
) -> Option<Key<'s>>
    ensures { IsNextAbove key_cmp (option_map key_data last.entry) (map key_of_row (map row_data rows.now)) (option_map key_data result) }
{
    let mut least = None;
    for row in rows {
        least = lesser(last, least, row.key());
    }
    least
}

/// The first function of the section above `last`.
pub(crate) fn next_function<'s, A: Allocator>(
    rows: &'s [Row<A>],
    key: Key<'s>,
    last: Option<&'s [u8]>,
) -> Option<&'s [u8]>
    ensures { IsNextAbove (slice_cmp nat_cmp) (option_map (λ name. name.now) last.entry) (func_points (items_at (key_data key.entry) (map row_data rows.now))) (option_map (λ name. name.now) result) }
{
    let mut least = None;
    for row in rows {
        least = lesser_if(last, least, function_of(row, key));
    }
    least
}

/// The first branch of the section above `last`.
pub(crate) fn next_branch<A: Allocator>(
    rows: &[Row<A>],
    key: Key<'_>,
    last: Option<BranchPoint>,
) -> Option<BranchPoint>
    ensures { IsNextAbove branch_cmp (option_map branch_point_data last) (branch_points (items_at (key_data key.entry) (map row_data rows.now))) (option_map branch_point_data result) }
{
    let mut least = None;
    for row in rows {
        least = lesser_if(last, least, branch_of(row, key));
    }
    least
}

/// The first line of the section above `last`.
pub(crate) fn next_line<A: Allocator>(
    rows: &[Row<A>],
    key: Key<'_>,
    last: Option<u64>,
) -> Option<u64>
    ensures { IsNextAbove nat_cmp last (line_points (items_at (key_data key.entry) (map row_data rows.now))) result }
{
    let mut least = None;
    for row in rows {
        least = lesser_if(last, least, line_of(row, key));
    }
    least
}
