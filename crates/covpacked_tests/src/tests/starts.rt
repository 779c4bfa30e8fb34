//! Replaces a function's start line.

use super::mixed::{ALL, check_numbers, push_numbers};
use super::sections::{Section, check_sections, push_sections};
use super::wrappers::set_start;
use covpacked::PackedSects;
use std::process::Abort;
use std::test::*;

/// A closed section of two functions, which doesn't change: `set_start` counts the index from the open section's first item.
const CLOSED: &[Section<'static>] = &[(b"t", b"a.c", &[3, 8])];

/// Pushes items, sets the start line of the item at index `at`, and pushes item 7: the items are `wanted` then.
fn check(
    rt: &(impl Abort + AllocGlobal),
    pushed: &[usize],
    at: usize,
    line: u64,
    wanted: &[usize],
) {
    let mut sects = PackedSects::new(rt.alloc());
    push_sections(rt, &mut sects, CLOSED);
    push_numbers(rt, &mut sects, pushed);
    set_start(&mut sects, at, line);
    push_numbers(rt, &mut sects, &[7]);
    check_numbers(rt, sects.items(), wanted);
    check_sections(rt, sects.sects(), CLOSED);
}

/// Items of all kinds before and after the function don't change.
#[test]
fn between_other_items(rt: HostRuntime) {
    let all = [
        (0, 40),
        (11, 41),
        (1_073_741_824, 42),
        (18_446_744_073_709_551_615, 43),
    ];
    for (line, main) in all {
        check(&rt, &ALL, 3, line, &[0, 1, 2, main, 4, 5, 6, 7, 8, 9, 7]);
    }
}

#[test]
fn of_the_last_item(rt: HostRuntime) {
    check(&rt, &[4, 8], 1, 9, &[4, 45, 7]);
    check(&rt, &[0, 3], 1, 5, &[0, 44, 7]);
}

/// `set_start` doesn't change an item of another kind, in a short or a long word.
#[test]
fn of_another_kind(rt: HostRuntime) {
    for at in [0, 1, 2, 4, 5, 6, 7, 9] {
        check(&rt, &ALL, at, 77, &[0, 1, 2, 3, 4, 5, 6, 7, 8, 9, 7]);
    }
}
