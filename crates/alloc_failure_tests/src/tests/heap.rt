//! Heaps whose capacity is known to the byte, and the calls that are tried in them.

use super::copies::Copied;
use super::lists::Listed;
use super::maps::Mapped;
use super::prints::Printed;
use super::readers::Input;
use super::said::Step;
use super::sessions::Session;
use super::shared::InBook;
use super::stores::Change;
use super::values::Made;
use super::{copies, lists, maps, prints, readers, sessions, shared, steps, stores, values};
use bumpalo::Bump;
use std::alloc::AllocError;
use std::process::Abort;
use std::sync::Wait;
use std::test::*;

/// How many bytes of capacity a heap has beyond the first limit that is tried, and how many heaps are tried at most.
const AMPLE: usize = 60_000;

/// Returns a heap with at least `room` bytes of capacity. The heap has several blocks, so it never reuses freed memory: each
/// allocation needs new capacity.
fn new_heap(rt: &(impl Abort + AllocGlobal), room: usize) -> Bump {
    let heap = Bump::new(rt.alloc());
    take(rt, &heap, 1);
    take(rt, &heap, room / 2);
    take(rt, &heap, heap.chunk_capacity().wrapping_add(1));
    heap
}

/// Uses up `bytes` bytes of the heap for good.
fn take(rt: &impl Abort, heap: &Bump, bytes: usize) {
    let taken: Result<Vec<u8, &Bump>, AllocError> = Vec::with_capacity(heap, bytes);
    if taken.is_err() {
        panic!(rt; "no memory for a heap");
    }
}

/// Limits the heap to exactly `room` bytes of capacity: uses up the rest, and forbids further blocks.
pub(super) fn narrow(rt: &impl Abort, heap: &Bump, room: usize) {
    let left = heap.chunk_capacity();
    assert!(rt; room <= left, "a heap is too small");
    take(rt, heap, left.wrapping_sub(room));
    heap.set_allocation_limit(Some(0));
    assert_eq!(rt; heap.chunk_capacity(), room);
}

/// Allows further blocks again, so that the heap has ample capacity.
pub(super) fn widen(heap: &Bump) {
    heap.set_allocation_limit(None);
}

/// A call that is tried, by the module that makes it.
#[derive(Clone, Copy)]
pub(super) enum Call<'a> {
    Copy(Copied<'a>),
    List(Listed),
    Map(Mapped),
    Print(Printed<'a>),
    /// Reads an input, into a packed submission or not.
    Read(Input<'a>, bool),
    Session(Session<'a>),
    Shared(InBook<'a>),
    /// Takes a step, in two halves or not.
    Step(Step<'a>, bool),
    Store(Change<'a>),
    Value(Made),
}

/// Makes the call with a capacity of `room` bytes, and returns whether an allocation failed. A failed call is repeated with ample
/// capacity.
fn is_refused<R: Wait + Abort + AllocGlobal>(
    rt: &R,
    heap: &Bump,
    room: usize,
    call: Call<'_>,
) -> bool {
    match call {
        Call::Copy(copied) => copies::is_refused(rt, heap, room, copied),
        Call::List(listed) => lists::is_refused(rt, heap, room, listed),
        Call::Map(mapped) => maps::is_refused(rt, heap, room, mapped),
        Call::Print(printed) => prints::is_refused(rt, heap, room, printed),
        Call::Read(input, is_packed) => readers::is_refused(rt, heap, room, input, is_packed),
        Call::Session(session) => sessions::is_refused(rt, heap, room, session),
        Call::Shared(in_book) => shared::is_refused(rt, heap, room, in_book),
        Call::Step(step, in_halves) => steps::is_refused(rt, heap, room, step, in_halves),
        Call::Store(change) => stores::is_refused(rt, heap, room, change),
        Call::Value(value) => values::is_refused(rt, heap, room, value),
    }
}

/// Makes the call in a new heap of at least `most` bytes, with a capacity of `room` bytes.
fn is_refused_anew<R: Wait + Abort + AllocGlobal>(
    rt: &R,
    most: usize,
    room: usize,
    call: Call<'_>,
) -> bool {
    let heap = new_heap(rt, most);
    is_refused(rt, &heap, room, call)
}

/// Tries each call in heaps with a capacity of 0, 1, 2 and so on, until the call succeeds. In the first heap, an allocation must
/// fail.
pub(super) fn check_rising<R: Wait + Abort + AllocGlobal>(rt: &R, calls: &[Call<'_>]) {
    check_rising_by(rt, 1, 1, calls);
}

/// Like `check_rising`, for calls that allocate much: the capacities are 0, then `first`, and then rise by `more` bytes.
/// Capacities between 0 and `first` aren't tried, since each call's first allocation is known to fail with less than `first`.
pub(super) fn check_rising_by<R: Wait + Abort + AllocGlobal>(
    rt: &R,
    first: usize,
    more: usize,
    calls: &[Call<'_>],
) {
    for call in calls {
        check_call(rt, first, more, *call);
    }
}

/// Tries one call as `check_rising_by` says.
fn check_call<R: Wait + Abort + AllocGlobal>(rt: &R, first: usize, more: usize, call: Call<'_>) {
    let most = first.wrapping_add(AMPLE);
    assert!(rt; is_refused_anew(rt, most, 0, call), "no growth is met");
    let mut room = first;
    for _heap in 0..AMPLE {
        if !is_refused_anew(rt, most, room, call) {
            return;
        }
        room = room.wrapping_add(more);
    }
    panic!(rt; "refused in each heap");
}

/// Checks that each call succeeds in a heap without capacity, and so never allocates.
pub(super) fn check_none<R: Wait + Abort + AllocGlobal>(rt: &R, calls: &[Call<'_>]) {
    for call in calls {
        assert!(rt;
            !is_refused_anew(rt, AMPLE, 0, *call),
            "refused without a growth"
        );
    }
}
