//! Sample items, known by their numbers. The first ten are of all kinds, packed into short and into long words.

use super::made;
use super::same::check_item;
use super::wrappers::push;
use covpacked::{ItemRef, PackedItems, PackedSects};
use std::alloc::Allocator;
use std::process::Abort;
use std::test::*;

/// The numbers of the first ten sample items.
pub(super) const ALL: [usize; 10] = [0, 1, 2, 3, 4, 5, 6, 7, 8, 9];

/// The sample item with this number.
pub(super) fn item(number: usize) -> ItemRef<'static> {
    match number {
        0 => line_of(1, 7, None),
        1 => line_of(1_073_741_824, 0, None),
        2 => line_of(3, 2, Some(b"abc")),
        3 => function_of(b"main", 10, 4),
        4 => branch_of(5, 0, 1, Some(3)),
        5 => branch_of(5, 70_000, 2, None),
        6 => line_of(12, 4_294_967_296, Some(b"d/+=")),
        7 => branch_of(6, 65_535, 3, None),
        8 => function_of(b"f\xff, g", 18_446_744_073_709_551_615, 0),
        9 => line_of(2, 340_282_366_920_938_463_463_374_607_431_768_211_455, None),
        10..=17 => similar_line(number),
        20..=24 => similar_function(number),
        30..=36 => similar_branch(number),
        _ => started(number),
    }
}

/// Line 10, and lines that differ from it in only one detail.
fn similar_line(number: usize) -> ItemRef<'static> {
    match number {
        10 => line_of(3, 2, Some(b"abc")),
        11 => line_of(4, 2, Some(b"abc")),
        12 => line_of(3, 1, Some(b"abc")),
        13 => line_of(3, 2, None),
        14 => line_of(3, 2, Some(b"ab")),
        15 => line_of(3, 2, Some(b"abd")),
        16 => line_of(3, 4_294_967_298, None),
        _ => line_of(3, 18_446_744_073_709_551_618, None),
    }
}

/// Function 20, and functions that differ from it in only one detail.
fn similar_function(number: usize) -> ItemRef<'static> {
    match number {
        20 => function_of(b"main", 3, 2),
        21 => function_of(b"mail", 3, 2),
        22 => function_of(b"mai", 3, 2),
        23 => function_of(b"main", 4, 2),
        _ => function_of(b"main", 3, 1),
    }
}

/// Branch 30, and branches that differ from it in only one detail.
fn similar_branch(number: usize) -> ItemRef<'static> {
    match number {
        30 => branch_of(3, 0, 1, Some(2)),
        31 => branch_of(4, 0, 1, Some(2)),
        32 => branch_of(3, 1, 1, Some(2)),
        33 => branch_of(3, 0, 0, Some(2)),
        34 => branch_of(3, 0, 1, Some(1)),
        35 => branch_of(3, 0, 1, Some(0)),
        _ => branch_of(3, 0, 1, None),
    }
}

/// The functions 3 and 8, with other start lines.
fn started(number: usize) -> ItemRef<'static> {
    match number {
        40 => function_of(b"main", 0, 4),
        41 => function_of(b"main", 11, 4),
        42 => function_of(b"main", 1_073_741_824, 4),
        43 => function_of(b"main", 18_446_744_073_709_551_615, 4),
        44 => function_of(b"main", 5, 4),
        _ => function_of(b"f\xff, g", 9, 0),
    }
}

/// The item of a line.
pub(super) fn line_of(line: u64, count: u128, checksum: Option<&'static [u8]>) -> ItemRef<'static> {
    ItemRef::Line {
        line,
        count,
        checksum,
    }
}

/// The item of a function.
pub(super) fn function_of(name: &'static [u8], line: u64, count: u128) -> ItemRef<'static> {
    ItemRef::Func { name, line, count }
}

/// The item of a branch.
pub(super) fn branch_of(
    line: u64,
    block: u64,
    branch: u64,
    taken: Option<u128>,
) -> ItemRef<'static> {
    ItemRef::Branch {
        line,
        block,
        branch,
        taken,
    }
}

/// Pushes the sample items with these numbers.
pub(super) fn push_numbers<A: Allocator>(
    rt: &impl Abort,
    sects: &mut PackedSects<A>,
    numbers: &[usize],
) {
    for number in numbers {
        made(rt, push(sects, item(*number)));
    }
}

/// Checks that `items` are the sample items with these numbers.
pub(super) fn check_numbers(rt: &impl Abort, items: PackedItems<'_>, numbers: &[usize]) {
    assert!(rt;
        items.len() == numbers.len(),
        "there are more or fewer items"
    );
    let mut items = items;
    for number in numbers {
        check_item(rt, *number, items.next(), item(*number));
    }
    assert!(rt; items.next().is_none(), "there is one more item");
}
