//! Steps of a book. A failed allocation changes neither the entries nor the totals.

use super::heap::{Call, check_rising, narrow, widen};
use super::made;
use super::said::{BEGUN, STEPS, Step, check_entry, check_told};
use super::wrappers::op_of;
use bumpalo::Bump;
use covbook::{Book, BookFault, Op, Receipt};
use covreport::Table;
use covstore::Store;
use std::alloc::Allocator;
use std::process::Abort;
use std::test::*;

/// A book with the step `BEGUN`, of job 3.
fn begun<A: Allocator + Copy, T: Table<A>>(rt: &impl Abort, alloc: A) -> Book<A, T> {
    let mut book = Book::new(alloc);
    let op = op_of(rt, alloc, BEGUN.asked);
    made(rt, taken(alloc, &mut book, 3, &op, false));
    book
}

/// Performs the step `op` as `job`, in one call or in two halves.
fn taken<A: Allocator + Copy, T: Table<A>>(
    alloc: A,
    book: &mut Book<A, T>,
    job: u32,
    op: &Op<A>,
    in_halves: bool,
) -> Result<Receipt<A>, BookFault> {
    if in_halves {
        let ready = book.ready(alloc, job, op)?;
        Ok(book.finish(ready))
    } else {
        book.step(alloc, job, op)
    }
}

/// Checks that the book has `entries` entries, and checks the last one by `check_entry`. The last entry's totals must be the
/// book's.
fn check_book<A: Allocator + Copy, T: Table<A>>(
    rt: &impl Abort,
    alloc: A,
    book: &Book<A, T>,
    entries: usize,
    job: u32,
    step: Step<'_>,
) {
    assert_eq!(rt; book.entries().len(), entries);
    let last = book.entries().last();
    check_entry(rt, alloc, last, job, step);
    assert!(rt; matches!(last, Some(entry) if entry.after == book.totals()));
}

/// A step that is tried in one call or in two halves, and the heap that its book allocates from.
#[derive(Clone, Copy)]
struct Tried<'a> {
    heap: &'a Bump,
    step: Step<'a>,
    in_halves: bool,
}

/// Checks the receipt of the second step of the book, and the book after it.
fn check_receipt<A: Allocator + Copy, T: Table<A>>(
    rt: &impl Abort,
    alloc: A,
    book: &Book<A, T>,
    receipt: &Receipt<A>,
    step: Step<'_>,
) {
    assert_eq!(rt; receipt.place, 1);
    let totals = book.totals();
    check_told(rt, alloc, &receipt.op, &receipt.answer, totals, step);
    check_book(rt, alloc, book, 2, 4, step);
}

/// Performs the step `op`, which is that of `tried`, as job 4 in the book of `begun`, and checks the result. Returns whether an
/// allocation failed. Leaves the heap with ample capacity.
fn is_step_refused<A: Allocator + Copy, T: Table<A>>(
    rt: &impl Abort,
    alloc: A,
    book: &mut Book<A, T>,
    op: &Op<A>,
    tried: Tried<'_>,
) -> bool {
    let taken = taken(alloc, book, 4, op, tried.in_halves);
    widen(tried.heap);
    match taken {
        Ok(receipt) => {
            check_receipt(rt, alloc, book, &receipt, tried.step);
            false
        }
        Err(fault) => {
            assert_eq!(rt; fault, BookFault::Memory);
            check_book(rt, alloc, book, 1, 3, BEGUN);
            true
        }
    }
}

/// Performs the step in the book of `begun` with a capacity of `room`, and returns whether an allocation failed.
fn is_refused_in<A: Allocator + Copy, T: Table<A>>(
    rt: &impl Abort,
    alloc: A,
    room: usize,
    tried: Tried<'_>,
) -> bool {
    let mut book: Book<A, T> = begun(rt, alloc);
    let op = op_of(rt, alloc, tried.step.asked);
    narrow(rt, tried.heap, room);
    let is_refused = is_step_refused(rt, alloc, &mut book, &op, tried);
    if is_refused {
        assert!(rt;
            !is_step_refused(rt, alloc, &mut book, &op, tried),
            "refused again"
        );
    }
    is_refused
}

/// `is_refused_in` with a book over a `Store`.
fn is_refused_in_store<A: Allocator + Copy>(
    rt: &impl Abort,
    alloc: A,
    room: usize,
    tried: Tried<'_>,
) -> bool {
    is_refused_in::<A, Store<A>>(rt, alloc, room, tried)
}

/// `is_refused_in_store` with the heap as allocator.
pub(super) fn is_refused(
    rt: &impl Abort,
    heap: &Bump,
    room: usize,
    step: Step<'_>,
    in_halves: bool,
) -> bool {
    is_refused_in_store(
        rt,
        heap,
        room,
        Tried {
            heap,
            step,
            in_halves,
        },
    )
}

#[test]
fn steps(rt: HostRuntime) {
    for step in STEPS {
        check_rising(&rt, &[Call::Step(*step, false), Call::Step(*step, true)]);
    }
}
