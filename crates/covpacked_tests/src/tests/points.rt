//! Tests an item's line or branch, and whether the item is hit.

use super::mixed::item;
use covdata::BranchPoint;
use std::process::Abort;
use std::test::*;

/// The lines of the first ten sample items.
const LINES: [Option<u64>; 10] = [
    Some(1),
    Some(1_073_741_824),
    Some(3),
    None,
    None,
    None,
    Some(12),
    None,
    None,
    Some(2),
];

#[test]
fn lines(rt: HostRuntime) {
    for (number, wanted) in LINES.iter().enumerate() {
        assert!(rt; item(number).line_point() == *wanted, "item {number}");
    }
}

/// The branch of the sample item with this number, which is among the first ten.
fn branch_of(number: usize) -> Option<BranchPoint> {
    let (line, block, branch) = match number {
        4 => (5, 0, 1),
        5 => (5, 70_000, 2),
        7 => (6, 65_535, 3),
        _ => return None,
    };
    Some(BranchPoint {
        line,
        block,
        branch,
    })
}

#[test]
fn branches(rt: HostRuntime) {
    for number in 0..10 {
        assert!(rt;
            item(number).branch_point() == branch_of(number),
            "item {number}"
        );
    }
}

/// A count above 0 is a hit. A count of 0, or a branch whose block was never executed, isn't a hit. Item 35 is a branch that was
/// taken 0 times.
#[test]
fn hits(rt: HostRuntime) {
    for number in [0, 2, 3, 4, 6, 9] {
        assert!(rt; item(number).is_hit(), "item {number}");
    }
    for number in [1, 5, 7, 8, 35] {
        assert!(rt; !item(number).is_hit(), "item {number}");
    }
}
