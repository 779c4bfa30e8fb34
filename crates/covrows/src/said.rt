//! What an item says of a point.

ghost use Rattle.std.specs.Prelude.{◌≡◌, [], option_map, option_to_list};
ghost use Rattle.covdata.specs.PointView.{branch_point_data};
ghost use Rattle.covdata.specs.Points.{branch_point, func_point, line_point};
ghost use Rattle.covdata.specs.Row.{item_data};
ghost use Rattle.covrows.specs.Counted.{same_point};
ghost use Rattle.covrows.specs.Data.{at_key, key_data, row_data};
ghost use Rattle.covtable.specs.Value as value;

use crate::key::Key;
use crate::row::Row;
use covdata::{BranchPoint, Item};
use std::alloc::Allocator;

/// The name of the function that the item counts. `None` if it is of another kind.
fn function_name<A: Allocator>(item: &Item<A>) -> Option<&[u8]>
    ensures { option_to_list (option_map (λ name. name.now) result) ≡ func_point (item_data item.now) }
{
    match item {
        Item::Func { name, .. } => Some(name.get()),
        Item::Line { .. } | Item::Branch { .. } => None,
    }
}

/// What the row adds to the count of this line of a section.
pub(crate) fn line_added<A: Allocator>(row: &Row<A>, key: Key<'_>, wanted: u64) -> u128
    ensures { result ≡ at_key (value.line_added wanted) 0 (key_data key.entry) (row_data row.now) }
{
    if !row.has_key(key) {
        return 0;
    }
    match &row.item {
        Item::Line { line, count, .. } if *line == wanted => *count,
        Item::Line { .. } | Item::Func { .. } | Item::Branch { .. } => 0,
    }
}

/// The checksum that the item gives for this line.
pub(crate) fn checksum_said<A: Allocator>(item: &Item<A>, wanted: u64) -> Option<&[u8]>
    ensures { option_to_list (option_map (λ said. said.now) result) ≡ value.checksum_said wanted (item_data item.now) }
{
    match item {
        Item::Line {
            line,
            checksum: Some(checksum),
            ..
        } if *line == wanted => Some(checksum.get()),
        Item::Line { .. } | Item::Func { .. } | Item::Branch { .. } => None,
    }
}

/// What the row adds to the count of this function of a section.
pub(crate) fn function_added<A: Allocator>(row: &Row<A>, key: Key<'_>, wanted: &[u8]) -> u128
    ensures { result ≡ at_key (value.function_added wanted.now) 0 (key_data key.entry) (row_data row.now) }
{
    if !row.has_key(key) {
        return 0;
    }
    match &row.item {
        Item::Func { name, count, .. } if name.get() == wanted => *count,
        Item::Line { .. } | Item::Func { .. } | Item::Branch { .. } => 0,
    }
}

/// The start line that the row gives for this function of a section.
pub(crate) fn start_said<A: Allocator>(row: &Row<A>, key: Key<'_>, wanted: &[u8]) -> Option<u64>
    ensures { option_to_list result ≡ at_key (value.start_said wanted.now) [] (key_data key.entry) (row_data row.now) }
{
    if !row.has_key(key) {
        return None;
    }
    match &row.item {
        Item::Func { name, line, .. } if name.get() == wanted => Some(*line),
        Item::Line { .. } | Item::Func { .. } | Item::Branch { .. } => None,
    }
}

/// How often the row says that this branch of a section was taken.
pub(crate) fn taken_said<A: Allocator>(
    row: &Row<A>,
    key: Key<'_>,
    wanted: BranchPoint,
) -> Option<u128>
    ensures { option_to_list result ≡ at_key (value.taken_said (branch_point_data wanted)) [] (key_data key.entry) (row_data row.now) }
{
    if !row.has_key(key) {
        return None;
    }
    match &row.item {
        Item::Branch {
            line,
            block,
            branch,
            taken,
        } if *line == wanted.line && *block == wanted.block && *branch == wanted.branch => *taken,
        Item::Line { .. } | Item::Func { .. } | Item::Branch { .. } => None,
    }
}

/// The name of the function that the row counts in a section.
pub(crate) fn function_of<'s, A: Allocator>(row: &'s Row<A>, key: Key<'_>) -> Option<&'s [u8]>
    ensures { option_to_list (option_map (λ name. name.now) result) ≡ at_key func_point [] (key_data key.entry) (row_data row.now) }
{
    if !row.has_key(key) {
        return None;
    }
    function_name(&row.item)
}

/// The branch that the row counts in a section.
pub(crate) fn branch_of<A: Allocator>(row: &Row<A>, key: Key<'_>) -> Option<BranchPoint>
    ensures { option_to_list (option_map branch_point_data result) ≡ at_key branch_point [] (key_data key.entry) (row_data row.now) }
{
    if !row.has_key(key) {
        return None;
    }
    row.item.branch_point()
}

/// The line that the row counts in a section.
pub(crate) fn line_of<A: Allocator>(row: &Row<A>, key: Key<'_>) -> Option<u64>
    ensures { option_to_list result ≡ at_key line_point [] (key_data key.entry) (row_data row.now) }
{
    if !row.has_key(key) {
        return None;
    }
    row.item.line_point()
}

/// Whether the items count the same point.
pub(crate) fn is_same_point<A: Allocator>(left: &Item<A>, right: &Item<A>) -> bool
    ensures { result ≡ same_point (item_data left.now) (item_data right.now) }
{
    match left {
        Item::Line { line, .. } => right.line_point() == Some(*line),
        Item::Func { name, .. } => function_name(right).is_some_and(|other| name.get() == other),
        Item::Branch {
            line,
            block,
            branch,
            ..
        } => right.branch_point()
            == Some(BranchPoint {
                line: *line,
                block: *block,
                branch: *branch,
            }),
    }
}
