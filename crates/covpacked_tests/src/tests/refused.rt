//! Tries each call in heaps of more and more capacity, beginning with none, until the call succeeds. A failed call changes nothing,
//! and succeeds when repeated with ample capacity.

use super::heap::{AMPLE, narrow, new_heap, widen};
use super::made;
use super::mixed::{check_numbers, item};
use super::packs::{Sample, check_packed, packed_of, submission_of};
use super::sections::{Section, check_sections, samples};
use super::wrappers::{close, is_same_as, packed, push, unpacked};
use bumpalo::Bump;
use covdata::{Memory, Submission};
use covpacked::{PackedSects, PackedSubmission};
use std::alloc::Allocator;
use std::process::Abort;
use std::test::*;

/// All sample sections, with one inconsistent line.
const ALL_SECTIONS: Sample = (6, 10, 1, Some(b"u"));

/// Checks that the open section has these items, after the first `closed` sample sections.
fn check_open(rt: &impl Abort, sects: &PackedSects<&Bump>, numbers: &[usize], closed: usize) {
    check_numbers(rt, sects.items(), numbers);
    check_sections(rt, sects.sects(), samples(closed));
}

/// Pushes the sample item `number` after the items `open`. Returns whether an allocation failed.
fn push_one(
    rt: &impl Abort,
    heap: &Bump,
    sects: &mut PackedSects<&Bump>,
    number: usize,
    open: &[usize],
    closed: usize,
) -> bool {
    let is_refused = push(sects, item(number)).is_err();
    if is_refused {
        check_open(rt, sects, open, closed);
        widen(heap);
        made(rt, push(sects, item(number)));
    }
    is_refused
}

/// Pushes these sample items. Returns whether an allocation failed.
fn push_some(
    rt: &impl Abort,
    heap: &Bump,
    sects: &mut PackedSects<&Bump>,
    numbers: &[usize],
    closed: usize,
) -> bool {
    let mut is_refused = false;
    for (at, number) in numbers.iter().enumerate() {
        let (open, _) = numbers.split_at(at.min(numbers.len()));
        is_refused |= push_one(rt, heap, sects, *number, open, closed);
    }
    is_refused
}

/// Closes a sample section whose items are open already. Returns whether an allocation failed.
fn close_one(
    rt: &impl Abort,
    heap: &Bump,
    sects: &mut PackedSects<&Bump>,
    section: &Section<'_>,
    closed: usize,
) -> bool {
    let (test, file, numbers) = section;
    let is_refused = close(sects, test, file).is_err();
    if is_refused {
        check_open(rt, sects, numbers, closed);
        widen(heap);
        made(rt, close(sects, test, file));
    }
    check_open(rt, sects, &[], closed.wrapping_add(1));
    is_refused
}

/// Pushes and closes all sample sections. Returns whether an allocation failed.
fn closes(rt: &impl Abort, heap: &Bump, room: usize) -> bool {
    let mut sects = PackedSects::new(heap);
    let mut is_refused = false;
    narrow(rt, heap, room);
    for (closed, section) in samples(6).iter().enumerate() {
        is_refused |= push_some(rt, heap, &mut sects, section.2, closed);
        is_refused |= close_one(rt, heap, &mut sects, section, closed);
    }
    is_refused
}

/// Whether packing all sample sections was refused. If not, the result must be right.
fn is_refused(rt: &impl Abort, first: Result<PackedSubmission<&Bump>, Memory>) -> bool {
    match first {
        Ok(all) => {
            check_packed(rt, &all, &ALL_SECTIONS);
            false
        }
        Err(_refused) => true,
    }
}

/// Packs all sample sections, and once more with ample capacity. Returns whether the first was refused.
fn packs(rt: &impl Abort, heap: &Bump, room: usize) -> bool {
    let given = submission_of(rt, heap, samples(6), 1);
    narrow(rt, heap, room);
    let was_refused = is_refused(rt, packed(heap, &given));
    widen(heap);
    assert!(rt;
        !is_refused(rt, packed(heap, &given)),
        "refused with ample memory"
    );
    was_refused
}

/// Whether unpacking `all` was refused. If not, the result must equal `all`.
fn is_unpack_refused<A: Allocator>(
    rt: &impl Abort,
    all: &PackedSubmission<A>,
    first: Result<Submission<A>, Memory>,
) -> bool {
    match first {
        Ok(own) => {
            assert!(rt; is_same_as(all, &own), "another submission was unpacked");
            false
        }
        Err(_refused) => true,
    }
}

/// Unpacks all sample sections, and once more with ample capacity. Returns whether the first was refused.
fn unpacks(rt: &impl Abort, heap: &Bump, room: usize) -> bool {
    let all = packed_of(rt, heap, samples(6), 1);
    narrow(rt, heap, room);
    let was_refused = is_unpack_refused(rt, &all, unpacked(heap, &all));
    widen(heap);
    assert!(rt;
        !is_unpack_refused(rt, &all, unpacked(heap, &all)),
        "refused with ample memory"
    );
    was_refused
}

/// A call that is tried.
enum Call {
    Close,
    Pack,
    Unpack,
}

/// Makes the call in a heap with this capacity. Returns whether an allocation failed.
fn is_call_refused(rt: &(impl Abort + AllocGlobal), call: &Call, room: usize) -> bool {
    let heap = new_heap(rt);
    match call {
        Call::Close => closes(rt, &heap, room),
        Call::Pack => packs(rt, &heap, room),
        Call::Unpack => unpacks(rt, &heap, room),
    }
}

/// Tries the call in heaps with a capacity of 0, 1, 2 and so on, until it succeeds. An allocation must fail in the first heap.
fn check_rising(rt: &(impl Abort + AllocGlobal), call: &Call) {
    assert!(rt; is_call_refused(rt, call, 0), "no growth is met");
    for room in 1..AMPLE {
        if !is_call_refused(rt, call, room) {
            return;
        }
    }
    panic!(rt; "refused in each heap");
}

#[test]
fn sections(rt: HostRuntime) {
    check_rising(&rt, &Call::Close);
}

#[test]
fn submissions(rt: HostRuntime) {
    check_rising(&rt, &Call::Pack);
    check_rising(&rt, &Call::Unpack);
}

/// Unpacking a submission without sections never allocates.
#[test]
fn nothing_is_unpacked(rt: HostRuntime) {
    let heap = new_heap(&rt);
    let all = packed_of(&rt, &heap, &[], 3);
    narrow(&rt, &heap, 0);
    assert!(rt;
        !is_unpack_refused(&rt, &all, unpacked(&heap, &all)),
        "an allocation was made"
    );
}
