//! Compares items with expected items.

use covpacked::ItemRef;
use std::process::Abort;
use std::test::*;

/// Checks that `given` is the item `wanted`. A failure names the item by `number`.
pub(super) fn check_item(
    rt: &impl Abort,
    number: usize,
    given: Option<ItemRef<'_>>,
    wanted: ItemRef<'_>,
) {
    match given {
        Some(item) => assert!(rt; is_same(item, wanted), "item {number} is another one"),
        None => panic!(rt; "there is no item {number}"),
    }
}

/// Whether the items are equal.
fn is_same(given: ItemRef<'_>, wanted: ItemRef<'_>) -> bool {
    match wanted {
        ItemRef::Line {
            line,
            count,
            checksum,
        } => is_line(given, line, count, checksum),
        ItemRef::Func { name, line, count } => is_function(given, name, line, count),
        ItemRef::Branch {
            line,
            block,
            branch,
            taken,
        } => is_branch(given, line, block, branch, taken),
    }
}

/// Whether `given` is the item of this line, with this count and checksum.
fn is_line(given: ItemRef<'_>, line: u64, count: u128, checksum: Option<&[u8]>) -> bool {
    match given {
        ItemRef::Line {
            line: own_line,
            count: own_count,
            checksum: own_checksum,
        } => own_line == line && own_count == count && own_checksum == checksum,
        ItemRef::Func { .. } | ItemRef::Branch { .. } => false,
    }
}

/// Whether `given` is the item of this function, with this start line and count.
fn is_function(given: ItemRef<'_>, name: &[u8], line: u64, count: u128) -> bool {
    match given {
        ItemRef::Func {
            name: own_name,
            line: own_line,
            count: own_count,
        } => own_name == name && own_line == line && own_count == count,
        ItemRef::Line { .. } | ItemRef::Branch { .. } => false,
    }
}

/// Whether `given` is the item of this branch, with this `taken`.
fn is_branch(given: ItemRef<'_>, line: u64, block: u64, branch: u64, taken: Option<u128>) -> bool {
    match given {
        ItemRef::Branch {
            line: own_line,
            block: own_block,
            branch: own_branch,
            taken: own_taken,
        } => own_line == line && own_block == block && own_branch == branch && own_taken == taken,
        ItemRef::Line { .. } | ItemRef::Func { .. } => false,
    }
}
