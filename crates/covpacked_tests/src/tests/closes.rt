//! Closes sections.

use super::mixed::{check_numbers, push_numbers};
use super::sections::{Section, check_sections, push_sections, samples};
use covpacked::PackedSects;
use std::process::Abort;
use std::test::*;

/// Closes these sections, and reads all of them back.
fn check(rt: &(impl Abort + AllocGlobal), sections: &[Section<'_>]) {
    let mut sects = PackedSects::new(rt.alloc());
    push_sections(rt, &mut sects, sections);
    check_sections(rt, sects.sects(), sections);
}

/// A section isn't listed before it is closed.
#[test]
fn an_open_section(rt: HostRuntime) {
    let mut sects = PackedSects::new(rt.alloc());
    push_sections(&rt, &mut sects, samples(1));
    push_numbers(&rt, &mut sects, &[5]);
    check_numbers(&rt, sects.items(), &[5]);
    check_sections(&rt, sects.sects(), samples(1));
}

/// Closes 0 to 6 sections and reads all of them back each time.
#[test]
fn six_sections(rt: HostRuntime) {
    for count in 0..=6 {
        check(&rt, samples(count));
    }
}

/// A test name comes twice in a row, and again after another name. Names that share only a prefix stay distinct.
const NAMES_OF_TESTS: &[Section<'static>] = &[
    (b"unit", b"a.c", &[0, 2]),
    (b"unit", b"b.c", &[4]),
    (b"unix", b"b.c", &[8, 6, 1]),
    (b"unit", b"c.c", &[3]),
    (b"unit2", b"c.c", &[9]),
    (b"uni", b"c.c", &[7]),
];

/// Empty names are kept: as the first name, as a repeated name and after other names.
const EMPTY_NAMES: &[Section<'static>] = &[
    (b"", b"a.c", &[0]),
    (b"", b"b.c", &[2]),
    (b"t", b"", &[3]),
    (b"", b"", &[4]),
];

/// Sections without items are kept: at the front, between other sections and at the end.
const WITHOUT_ITEMS: &[Section<'static>] = &[
    (b"t", b"a.c", &[]),
    (b"t", b"b.c", &[6, 5]),
    (b"t", b"c.c", &[]),
    (b"t", b"d.c", &[]),
    (b"t", b"e.c", &[1]),
    (b"t", b"f.c", &[]),
];

/// Names keep all bytes, even bytes that no name in a tracefile can have.
const ODD_BYTES: &[Section<'static>] = &[
    (b"\0\xff\n\r", b"a b,c\xc3\xa9\0", &[8]),
    (b"\0\xff\n", b"\r\n", &[2]),
];

#[test]
fn names_and_sections_without_items(rt: HostRuntime) {
    for sections in [NAMES_OF_TESTS, EMPTY_NAMES, WITHOUT_ITEMS, ODD_BYTES] {
        check(&rt, sections);
    }
}
