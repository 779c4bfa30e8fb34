//! Reads items by index, by the iterator and in two parts.

use super::mixed::{ALL, check_numbers, item, push_numbers};
use super::same::check_item;
use covpacked::{PackedItems, PackedSects};
use std::process::Abort;
use std::test::*;

/// Packed sections with the first ten sample items in the open section.
fn open_all(rt: &(impl Abort + AllocGlobal)) -> PackedSects {
    let mut sects = PackedSects::new(rt.alloc());
    push_numbers(rt, &mut sects, &ALL);
    sects
}

/// Checks that `items` have these numbers, also by index. An index past the end has no item.
fn check_indices(rt: &impl Abort, items: &PackedItems<'_>, numbers: &[usize]) {
    check_numbers(rt, items.copy(), numbers);
    assert!(rt; items.is_empty() == numbers.is_empty());
    for (at, number) in numbers.iter().enumerate() {
        check_item(rt, *number, items.get(at), item(*number));
    }
    assert!(rt; items.get(numbers.len()).is_none());
    assert!(rt; items.get(18_446_744_073_709_551_615).is_none());
}

/// A copy has the original's remaining items, even while the original is iterated.
#[test]
fn by_iterator_and_index(rt: HostRuntime) {
    let sects = open_all(&rt);
    let mut items = sects.items();
    for first in ALL {
        let (_, left) = ALL.split_at(first.min(ALL.len()));
        check_indices(&rt, &items, left);
        check_item(&rt, first, items.next(), item(first));
    }
    check_indices(&rt, &items, &[]);
}

/// Checks that the first `mid` items, and the others, have the numbers in these two parts.
fn check_parts(rt: &impl Abort, items: &PackedItems<'_>, mid: usize, numbers: &[usize]) {
    assert!(rt; mid <= items.len() && mid <= numbers.len());
    let (before, after) = numbers.split_at(mid);
    let (first, others) = items.split_at(mid);
    check_indices(rt, &first, before);
    check_indices(rt, &others, after);
}

/// The two parts of a split, at any index, are together all items. A part can be split again.
#[test]
fn in_two_parts(rt: HostRuntime) {
    let sects = open_all(&rt);
    let items = sects.items();
    for mid in 0..=10 {
        check_parts(&rt, &items, mid, &ALL);
    }
    assert!(rt; items.len() >= 3);
    check_parts(&rt, &items.split_at(3).1, 4, &[3, 4, 5, 6, 7, 8, 9]);
}

#[test]
fn no_items(rt: HostRuntime) {
    let sects = PackedSects::new(rt.alloc());
    check_parts(&rt, &sects.items(), 0, &[]);
}
