//! Compares packed submissions with packed and with unpacked submissions. No two samples are equal, but many differ in only one
//! detail.

use super::made;
use super::packs::{packed_of, submission_of};
use super::sections::Section;
use super::wrappers::{is_same, is_same_as, packed};
use covpacked::PackedSubmission;
use std::process::Abort;
use std::test::*;

/// A sample: its sections, and the number of inconsistent lines.
type Sample = (&'static [Section<'static>], u64);

/// The samples, as several tables: the proof of a function that names a table grows faster than the table.
fn tables() -> [&'static [Sample]; 3] {
    [of_one_section(), of_several_sections(), of_one_item()]
}

/// Samples without a section, or with one.
fn of_one_section() -> &'static [Sample] {
    OF_ONE_SECTION
}

const OF_ONE_SECTION: &[Sample] = &[
    (&[], 0),
    (&[(b"t", b"a.c", &[10, 20, 30])], 0),
    (&[(b"t", b"a.c", &[10, 20, 34])], 0),
    (&[(b"t", b"a.c", &[10, 21, 30])], 0),
    (&[(b"t", b"a.c", &[11, 20, 30])], 0),
    (&[(b"t", b"a.c", &[20, 10, 30])], 0),
    (&[(b"t", b"a.c", &[10, 30, 20])], 0),
    (&[(b"t", b"a.c", &[10, 20])], 0),
    (&[(b"t", b"a.c", &[20, 30])], 0),
    (&[(b"t", b"a.c", &[10, 20, 30, 30])], 0),
    (&[(b"t", b"a.c", &[])], 0),
    (&[(b"u", b"a.c", &[10, 20, 30])], 0),
    (&[(b"", b"a.c", &[10, 20, 30])], 0),
    (&[(b"t", b"a.h", &[10, 20, 30])], 0),
    (&[(b"ta", b".c", &[10, 20, 30])], 0),
    (&[(b"t", b"a.c", &[10, 20, 30])], 1),
    (&[(b"t", b"a.c", &[10, 20, 30])], 4_294_967_296),
    (&[(b"t", b"a.c", &[10, 20, 30])], 18_446_744_073_709_551_615),
];

/// Samples with several sections.
fn of_several_sections() -> &'static [Sample] {
    OF_SEVERAL_SECTIONS
}

const OF_SEVERAL_SECTIONS: &[Sample] = &[
    (&[(b"t", b"a.c", &[10, 20, 30]), (b"u", b"b.c", &[13])], 0),
    (&[(b"t", b"a.c", &[10, 20, 30]), (b"u", b"b.c", &[])], 0),
    (&[(b"t", b"a.c", &[10, 20, 30]), (b"t", b"b.c", &[13])], 0),
    (&[(b"t", b"a.c", &[10, 20, 30]), (b"u", b"c.c", &[13])], 0),
    (&[(b"u", b"b.c", &[13]), (b"t", b"a.c", &[10, 20, 30])], 0),
    (&[(b"t", b"a.c", &[10, 20]), (b"u", b"b.c", &[30, 13])], 0),
    (
        &[
            (b"t", b"a.c", &[10, 20, 30]),
            (b"u", b"b.c", &[13]),
            (b"u", b"b.c", &[13]),
        ],
        0,
    ),
];

/// Samples with one item.
fn of_one_item() -> &'static [Sample] {
    OF_ONE_ITEM
}

const OF_ONE_ITEM: &[Sample] = &[
    (&[(b"t", b"a.c", &[10])], 0),
    (&[(b"t", b"a.c", &[11])], 0),
    (&[(b"t", b"a.c", &[12])], 0),
    (&[(b"t", b"a.c", &[13])], 0),
    (&[(b"t", b"a.c", &[14])], 0),
    (&[(b"t", b"a.c", &[15])], 0),
    (&[(b"t", b"a.c", &[16])], 0),
    (&[(b"t", b"a.c", &[17])], 0),
    (&[(b"t", b"a.c", &[20])], 0),
    (&[(b"t", b"a.c", &[21])], 0),
    (&[(b"t", b"a.c", &[22])], 0),
    (&[(b"t", b"a.c", &[23])], 0),
    (&[(b"t", b"a.c", &[24])], 0),
    (&[(b"t", b"a.c", &[30])], 0),
    (&[(b"t", b"a.c", &[31])], 0),
    (&[(b"t", b"a.c", &[32])], 0),
    (&[(b"t", b"a.c", &[33])], 0),
    (&[(b"t", b"a.c", &[34])], 0),
    (&[(b"t", b"a.c", &[35])], 0),
    (&[(b"t", b"a.c", &[36])], 0),
];

/// Whether `first` equals a sample. Packed and unpacked, the sample must compare alike.
fn is_sample(
    rt: &(impl Abort + AllocGlobal),
    first: &PackedSubmission,
    sections: &[Section<'_>],
    odd: u64,
) -> bool {
    let given = submission_of(rt, rt.alloc(), sections, odd);
    let is_equal = is_same_as(first, &given);
    assert!(rt; is_same(first, &made(rt, packed(rt.alloc(), &given))) == is_equal);
    is_equal
}

/// Compares `first`, the packed sample with this number, with each sample.
fn check(rt: &(impl Abort + AllocGlobal), first: &PackedSubmission, number: usize) {
    let mut other = 0usize;
    for table in tables() {
        for (sections, odd) in table {
            let is_equal = is_sample(rt, first, sections, *odd);
            assert!(rt;
                is_equal == (number == other),
                "samples {number} and {other}"
            );
            other = other.wrapping_add(1);
        }
    }
}

/// Compares the samples of a table with each sample. The first one of the table has this number.
fn check_table(rt: &(impl Abort + AllocGlobal), table: &[Sample], first: usize) {
    for (place, (sections, odd)) in table.iter().enumerate() {
        let sample = packed_of(rt, rt.alloc(), sections, *odd);
        check(rt, &sample, first.wrapping_add(place));
    }
}

#[test]
fn samples(rt: HostRuntime) {
    let mut first = 0usize;
    for table in tables() {
        check_table(&rt, table, first);
        first = first.wrapping_add(table.len());
    }
}
