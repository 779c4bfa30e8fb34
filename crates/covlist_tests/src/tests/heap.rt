//! Heaps whose capacity is known to the byte.

use bumpalo::Bump;
use std::alloc::AllocError;
use std::process::Abort;
use std::test::*;

/// The minimum capacity of a new heap.
pub(super) const AMPLE: usize = 20_000;

/// A heap with at least the capacity `AMPLE`. The heap has several blocks, so it never reuses freed memory: each allocation needs
/// new capacity.
pub(super) fn new_heap(rt: &(impl Abort + AllocGlobal)) -> Bump {
    let heap = Bump::new(rt.alloc());
    take(rt, &heap, 1);
    take(rt, &heap, AMPLE);
    take(rt, &heap, heap.chunk_capacity().wrapping_add(1));
    heap
}

/// Uses up `bytes` bytes of the heap for good.
fn take(rt: &impl Abort, heap: &Bump, bytes: usize) {
    let taken: Result<Vec<u8, &Bump>, AllocError> = Vec::with_capacity(heap, bytes);
    if taken.is_err() {
        panic!(rt; "no memory for a heap");
    }
}

/// Limits the heap to a capacity of `room` bytes: uses up the rest, and forbids further blocks.
pub(super) fn narrow(rt: &impl Abort, heap: &Bump, room: usize) {
    let left = heap.chunk_capacity();
    assert!(rt; room <= left, "a heap is too small");
    take(rt, heap, left.wrapping_sub(room));
    heap.set_allocation_limit(Some(0));
    assert_eq!(rt; heap.chunk_capacity(), room);
}

/// Allows further blocks again, so that the heap has ample capacity.
pub(super) fn widen(heap: &Bump) {
    heap.set_allocation_limit(None);
}
