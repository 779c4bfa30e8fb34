//! Six sample sections, made of the sample items in `mixed`.

use super::made;
use super::mixed::{check_numbers, push_numbers};
use super::wrappers::close;
use covpacked::{PackedSect, PackedSects, PackedSectsIter};
use std::alloc::Allocator;
use std::process::Abort;
use std::test::*;

/// A section: its test's name, its source file, and the numbers of its items.
pub(super) type Section<'a> = (&'a [u8], &'a [u8], &'a [usize]);

/// The sample sections. They have ten items in all.
const SAMPLES: &[Section<'static>] = &[
    (b"t", b"a.c", &[0, 3]),
    (b"t", b"b.c", &[]),
    (b"", b"b.c", &[2, 4, 8]),
    (b"unit tests, all", b"/src/c d.c", &[1]),
    (b"t", b"a.c", &[5, 6]),
    (b"u", b"e.c", &[7, 9]),
];

/// The first `count` sample sections.
pub(super) fn samples(count: usize) -> &'static [Section<'static>] {
    let all = SAMPLES;
    all.split_at(count.min(all.len())).0
}

/// Pushes the items of each section, and closes it.
pub(super) fn push_sections<A: Allocator>(
    rt: &impl Abort,
    sects: &mut PackedSects<A>,
    sections: &[Section<'_>],
) {
    for (test, file, numbers) in sections {
        push_numbers(rt, sects, numbers);
        made(rt, close(sects, test, file));
        assert!(rt;
            sects.open_len() == 0,
            "a closed item is in the open section"
        );
    }
}

/// Checks that `sect` is this section.
fn check_sect(rt: &impl Abort, sect: PackedSect<'_>, wanted: &Section<'_>) {
    let (test, file, numbers) = wanted;
    assert!(rt; sect.test == *test, "there is another test");
    assert!(rt; sect.file == *file, "there is another source file");
    check_numbers(rt, sect.items, numbers);
}

/// Checks that the next of `sects` is this section.
fn check_next(rt: &impl Abort, sects: &mut PackedSectsIter<'_>, wanted: &Section<'_>) {
    match sects.next() {
        Some(sect) => check_sect(rt, sect, wanted),
        None => panic!(rt; "there is no such section"),
    }
}

/// Checks that `sects` are these sections.
pub(super) fn check_sections(
    rt: &impl Abort,
    sects: PackedSectsIter<'_>,
    sections: &[Section<'_>],
) {
    let mut sects = sects;
    for section in sections {
        check_next(rt, &mut sects, section);
    }
    assert!(rt; sects.next().is_none(), "there is one more section");
}
