//! Packs and unpacks submissions.

use super::made;
use super::mixed::item;
use super::sections::{Section, check_sections, samples};
use super::wrappers::{bytes, packed, unpacked};
use covdata::{Bytes, Item, Items, Sect, Sects, Submission};
use covpacked::{ItemRef, PackedSubmission, ReadText};
use std::alloc::Allocator;
use std::process::Abort;
use std::test::*;

/// Copies the optional checksum.
fn checksum_of<A: Allocator>(
    rt: &impl Abort,
    alloc: A,
    checksum: Option<&[u8]>,
) -> Option<Bytes<A>> {
    match checksum {
        Some(text) => Some(made(rt, bytes(alloc, text))),
        None => None,
    }
}

/// Returns an owned copy of the item.
fn owned<A: Allocator>(rt: &impl Abort, alloc: A, item: ItemRef<'_>) -> Item<A> {
    match item {
        ItemRef::Line {
            line,
            count,
            checksum,
        } => Item::Line {
            line,
            count,
            checksum: checksum_of(rt, alloc, checksum),
        },
        ItemRef::Func { name, line, count } => Item::Func {
            name: made(rt, bytes(alloc, name)),
            line,
            count,
        },
        ItemRef::Branch {
            line,
            block,
            branch,
            taken,
        } => Item::Branch {
            line,
            block,
            branch,
            taken,
        },
    }
}

/// The sample items with these numbers.
fn items_of<A: Allocator + Copy>(rt: &impl Abort, alloc: A, numbers: &[usize]) -> Items<A> {
    let mut items = Items::new(alloc);
    for number in numbers {
        made(rt, items.push(owned(rt, alloc, item(*number))));
    }
    items
}

/// The section in memory of its own.
fn sect_of<A: Allocator + Copy>(rt: &impl Abort, alloc: A, section: &Section<'_>) -> Sect<A> {
    let (test, file, numbers) = section;
    Sect {
        test: made(rt, bytes(alloc, test)),
        file: made(rt, bytes(alloc, file)),
        items: items_of(rt, alloc, numbers),
    }
}

/// A submission of these sections, with `odd` inconsistent lines.
pub(super) fn submission_of<A: Allocator + Copy>(
    rt: &impl Abort,
    alloc: A,
    sections: &[Section<'_>],
    odd: u64,
) -> Submission<A> {
    let mut sects = Sects::new(alloc);
    for section in sections {
        made(rt, sects.push(sect_of(rt, alloc, section)));
    }
    made(rt, Submission::of(sects, odd))
}

/// A packed submission of these sections, with `odd` inconsistent lines.
pub(super) fn packed_of<A: Allocator + Copy>(
    rt: &impl Abort,
    alloc: A,
    sections: &[Section<'_>],
    odd: u64,
) -> PackedSubmission<A> {
    made(rt, packed(alloc, &submission_of(rt, alloc, sections, odd)))
}

/// A submission of the first sample sections: the numbers of its sections, items and inconsistent lines, and its last test.
pub(super) type Sample = (usize, u64, u64, Option<&'static [u8]>);

fn check_number(rt: &impl Abort, given: u64, wanted: u64) {
    assert!(rt; given == wanted, "{given} instead of {wanted}");
}

/// Checks the counts and the last test of a submission, packed or not.
fn check_read<S: ReadText>(rt: &impl Abort, read: &S, wanted: &Sample) {
    check_number(rt, read.count_sections(), wanted.0 as u64);
    check_number(rt, read.count_items(), wanted.1);
    check_number(rt, read.count_odd(), wanted.2);
    assert!(rt;
        read.last_test() == wanted.3,
        "another test is the last one"
    );
}

/// Checks that `packed` is the sample.
pub(super) fn check_packed<A: Allocator>(
    rt: &impl Abort,
    packed: &PackedSubmission<A>,
    wanted: &Sample,
) {
    check_sections(rt, packed.sects(), samples(wanted.0));
    check_read(rt, packed, wanted);
}

/// Packs the sample, and checks the result. Then unpacks it, and packs it again.
fn check(rt: &(impl Abort + AllocGlobal), wanted: &Sample) {
    let given = submission_of(rt, rt.alloc(), samples(wanted.0), wanted.2);
    check_read(rt, &given, wanted);
    let first = made(rt, packed(rt.alloc(), &given));
    check_packed(rt, &first, wanted);
    let own = made(rt, unpacked(rt.alloc(), &first));
    check_packed(rt, &made(rt, packed(rt.alloc(), &own)), wanted);
}

#[test]
fn there_and_back(rt: HostRuntime) {
    let all: [Sample; 8] = [
        (0, 0, 0, None),
        (0, 0, 3, None),
        (1, 2, 7, Some(b"t")),
        (2, 2, 1, Some(b"t")),
        (3, 5, 18_446_744_073_709_551_615, Some(b"")),
        (4, 6, 0, Some(b"unit tests, all")),
        (5, 8, 1, Some(b"t")),
        (6, 10, 0, Some(b"u")),
    ];
    for wanted in all {
        check(&rt, &wanted);
    }
}
