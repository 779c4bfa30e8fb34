//! Removes items of the open section.

use super::mixed::{check_numbers, push_numbers};
use super::sections::{Section, check_sections, push_sections};
use covpacked::PackedSects;
use std::process::Abort;
use std::test::*;

/// A section that is closed before each test, and doesn't change: `remove` counts indices from the open section's first item.
const CLOSED: Section<'static> = (b"t", b"a.c", &[3, 2]);

/// Three lists of numbers or places.
type Lists = (&'static [usize], &'static [usize], &'static [usize]);

/// Takes steps, and closes the section then. Each step has the items pushed, the places removed then, and the items left.
fn check(rt: &(impl Abort + AllocGlobal), steps: &[Lists]) {
    let mut sects = PackedSects::new(rt.alloc());
    push_sections(rt, &mut sects, &[CLOSED]);
    let mut open: &[usize] = &[];
    for (pushed, places, left) in steps {
        push_numbers(rt, &mut sects, pushed);
        sects.remove(places);
        check_numbers(rt, sects.items(), left);
        open = left;
    }
    push_sections(rt, &mut sects, &[(b"t", b"b.c", &[])]);
    check_sections(rt, sects.sects(), &[CLOSED, (b"t", b"b.c", open)]);
}

/// Places to remove from the first six sample items, the items left, and the items after item 8 is pushed. The last two rows show
/// that `remove` ignores an index past the end.
const OF_SIX: &[Lists] = &[
    (&[], &[0, 1, 2, 3, 4, 5], &[0, 1, 2, 3, 4, 5, 8]),
    (&[0], &[1, 2, 3, 4, 5], &[1, 2, 3, 4, 5, 8]),
    (&[3], &[0, 1, 2, 4, 5], &[0, 1, 2, 4, 5, 8]),
    (&[5], &[0, 1, 2, 3, 4], &[0, 1, 2, 3, 4, 8]),
    (&[0, 5], &[1, 2, 3, 4], &[1, 2, 3, 4, 8]),
    (&[1, 2, 4], &[0, 3, 5], &[0, 3, 5, 8]),
    (&[0, 1, 2, 3, 4, 5], &[], &[8]),
    (&[6], &[0, 1, 2, 3, 4, 5], &[0, 1, 2, 3, 4, 5, 8]),
    (
        &[4, 7, 18_446_744_073_709_551_615],
        &[0, 1, 2, 3, 5],
        &[0, 1, 2, 3, 5, 8],
    ),
];

#[test]
fn of_six(rt: HostRuntime) {
    for (places, left, then) in OF_SIX {
        check(
            &rt,
            &[(&[0, 1, 2, 3, 4, 5], *places, *left), (&[8], &[], *then)],
        );
    }
}

/// `remove` does nothing in an open section without items. Then items are removed twice, pushed, and removed once more.
#[test]
fn several_times(rt: HostRuntime) {
    check(
        &rt,
        &[
            (&[], &[0, 1], &[]),
            (&[2, 3, 4, 5, 6, 7], &[0, 3], &[3, 4, 6, 7]),
            (&[], &[1], &[3, 6, 7]),
            (&[9, 1], &[2, 3], &[3, 6, 1]),
        ],
    );
}

/// Removes all items of the open section, and then pushes one item.
#[test]
fn all_at_once(rt: HostRuntime) {
    let mut sects = PackedSects::new(rt.alloc());
    push_sections(&rt, &mut sects, &[CLOSED]);
    push_numbers(&rt, &mut sects, &[0, 1, 2]);
    assert_eq!(rt; sects.open_len(), 3);
    sects.forget();
    push_numbers(&rt, &mut sects, &[8]);
    check_numbers(&rt, sects.items(), &[8]);
    check_sections(&rt, sects.sects(), &[CLOSED]);
}
