//! Steps that fail because memory ran out, or because the history is full.

ghost use Rattle.std.specs.Prelude.{◌≡◌};

use super::books::{first_of, history_of, opened, started};
use super::wrappers::done;
use covbook::{BookFault, Op};
use covjobs::{Name, Seat, Shared, Start};
use covreport::Table;
use covrows::Rows;
use linked_list_allocator::LocalHeap;
use std::alloc::{Allocator, Global};
use std::marker::Brand;
use std::process::Abort;
use std::sync::Wait;
use std::test::*;

/// Asks for summaries until one fails, at most `most` times. Returns how many were answered, and the error.
fn summaries<L: Name, A: Allocator + Copy, R: Wait, T: Table<A>>(
    rt: &R,
    alloc: A,
    book: &Shared<L, A, T>,
    seat: &mut Seat<L, A>,
    most: u64,
) -> (u64, Option<BookFault>) {
    for answered in 0..most {
        if let Err(fault) = done(rt, alloc, book, seat, &Op::Summary) {
            return (answered, Some(fault));
        }
    }
    (most, None)
}

/// Checks that `calls` of the seat's calls succeeded, and that the seat saw only the entries of these calls.
fn check_seat<L: Name, A: Allocator>(rt: &impl Abort, seat: &Seat<L, A>, calls: u64) {
    assert_eq!(rt; (seat.calls(), seat.seen()), (calls, calls));
}

/// Asks for summaries until the heap is full, and returns how many were answered. Checks that the failed call doesn't change the
/// seat. At the end, frees a block that it reserved at the start.
fn fill_heap<L: Name, A: Allocator + Copy, R: Wait + Abort, T: Table<A>>(
    rt: &R,
    alloc: A,
    book: &Shared<L, A, T>,
    seat: &mut Seat<L, A>,
) -> u64 {
    let Ok(room) = vec![in alloc; 0u8; 600_000] else {
        panic!(rt; "no room from the start");
    };
    let (succeeded, fault) = summaries(rt, alloc, book, seat, 10_000);
    assert_eq!(rt; fault, Some(BookFault::Memory));
    assert!(rt; succeeded > 1);
    check_seat(rt, seat, succeeded);
    drop(room);
    succeeded
}

/// Fills the heap with the seat's calls. Checks that the same call succeeds once memory is free again, and gets the next index.
/// Returns how many calls have succeeded.
fn check_refusal<L: Name, A: Allocator + Copy, R: Wait + Abort, T: Table<A>>(
    rt: &R,
    alloc: A,
    book: &Shared<L, A, T>,
    seat: &mut Seat<L, A>,
) -> u64 {
    let succeeded = fill_heap(rt, alloc, book, seat);
    match done(rt, alloc, book, seat, &Op::Summary) {
        Ok(done) => assert_eq!(rt; done.receipt.place, succeeded),
        Err(_fault) => panic!(rt; "a step is refused"),
    }
    let calls = succeeded.wrapping_add(1);
    check_seat(rt, seat, calls);
    calls
}

/// Fills the heap with calls of a book's only seat. Checks that the seat works again after memory is freed.
fn no_room<L: Name, A: Allocator + Copy, R: Wait + Abort, T: Table<A>>(
    rt: &R,
    alloc: A,
    start: Start<A>,
)
    requires name { start.name ≡ L.name }
    requires jobs { start.jobs ≡ L.parts }
    requires book { start.book ≡ L.book }
{
    let (book, mut seats) = opened::<L, A, T>(rt, alloc, start);
    let calls = check_refusal(rt, alloc, &book, first_of(rt, seats.as_mut_slice()));
    check_length(rt, book, seats, calls);
}

/// Closes the book, and checks that its history has one entry per successful call.
fn check_length<L: Name, A: Allocator + Copy, R: Wait + Abort, T: Table<A>>(
    rt: &R,
    book: Shared<L, A, T>,
    seats: Vec<Seat<L, A>, A>,
    calls: u64,
) {
    let entries = history_of(rt, book, seats);
    assert_eq!(rt; entries.get().len() as u64, calls);
}

/// Like `no_room`, with a new book over a `Rows`.
fn no_room_anew<A: Allocator + Copy, R: Wait + Abort>(rt: &R, alloc: A) {
    no_room::<Brand, A, R, Rows<A>>(rt, alloc, started(rt, alloc, 1));
}

#[test]
fn a_heap_without_room(rt: HostRuntime) -> Result<(), Fail> {
    let heap = LocalHeap::new(rt.alloc(), 800_000)?;
    no_room_anew(&rt, &heap);
    Ok(())
}

/// Asks for summaries until the history is full, which has at most 1,048,576 entries. Checks that the failed call doesn't change the
/// seat.
fn fill_book<L: Name, R: Wait + Abort + AllocGlobal, T: Table<Global>>(
    rt: &R,
    book: &Shared<L, Global, T>,
    seat: &mut Seat<L>,
) {
    let refused = summaries(rt, rt.alloc(), book, seat, 1_048_577);
    assert_eq!(rt; refused, (1_048_576, Some(BookFault::Full)));
    check_seat(rt, seat, 1_048_576);
}

fn full<L: Name, R: Wait + Abort + AllocGlobal, T: Table<Global>>(rt: &R, start: Start)
    requires name { start.name ≡ L.name }
    requires jobs { start.jobs ≡ L.parts }
    requires book { start.book ≡ L.book }
{
    let (book, mut seats) = opened::<L, _, T>(rt, rt.alloc(), start);
    fill_book(rt, &book, first_of(rt, seats.as_mut_slice()));
    check_length(rt, book, seats, 1_048_576);
}

#[test]
fn a_full_book(rt: HostRuntime) {
    full::<Brand, _, Rows>(&rt, started(&rt, rt.alloc(), 1));
}
