//! Tests of a shared book, used by one thread. A failed allocation changes neither the history, nor the seat, nor what readers see.

ghost use Rattle.std.specs.Prelude.{◌≡◌};

use super::heap::{Call, check_none, check_rising, check_rising_by, narrow, widen};
use super::made;
use super::said::{BEGUN, STEPS, Step, check_entry, check_told};
use super::wrappers::op_of;
use bumpalo::Bump;
use covbook::{BookFault, Entries, Op};
use covdata::Memory;
use covjobs::{Done, Live, Name, OpenFault, ReaderFault, Seat, Seats, Shared, Start, open_book};
use covreport::Table;
use covstore::Store;
use covtable::Totals;
use std::alloc::Allocator;
use std::marker::Brand;
use std::process::Abort;
use std::sync::Wait;
use std::test::*;

fn start<A: Allocator + Copy>(alloc: A, jobs: u32) -> Result<Start<A>, OpenFault> {
    Start::new(alloc, jobs)
}

fn open<L: Name, A: Allocator + Copy, T: Table<A>>(
    alloc: A,
    start: Start<A>,
) -> Result<(Shared<L, A, T>, Seats<L, A>), Memory>
    requires name { start.name ≡ L.name }
    requires jobs { start.jobs ≡ L.parts }
    requires book { start.book ≡ L.book }
{
    open_book::<L, A, T>(alloc, start)
}

fn perform<L: Name, A: Allocator + Copy, R: Wait, T: Table<A>>(
    rt: &R,
    alloc: A,
    book: &Shared<L, A, T>,
    seat: &mut Seat<L, A>,
    op: &Op<A>,
) -> Result<Done<L, A>, BookFault> {
    book.perform(rt, alloc, seat, op)
}

fn reader<L: Name, A: Allocator + Copy, R: Wait, T: Table<A>>(
    rt: &R,
    book: &Shared<L, A, T>,
) -> Result<Live<L, A>, ReaderFault> {
    book.reader(rt)
}

/// Closes the book with all its seats, and returns the book's history.
fn history_of<L: Name, A: Allocator + Copy, R: Wait + Abort, T: Table<A>>(
    rt: &R,
    book: Shared<L, A, T>,
    seats: Vec<Seat<L, A>, A>,
) -> Entries<A> {
    match book.close(rt, Seats::of(seats)) {
        Ok((entries, _news)) => entries,
        Err(_back) => panic!(rt; "a seat is missing"),
    }
}

/// Checks that the reader `live` reports `upto` entries and the totals `totals`.
fn check_live<L: Name, A: Allocator>(
    rt: &impl Abort,
    live: &mut Live<L, A>,
    upto: u64,
    totals: Totals,
) {
    let reading = live.totals();
    assert_eq!(rt; reading.upto, upto);
    assert_eq!(rt; reading.totals, totals);
}

/// Checks that the seat made `calls` successful calls, and has seen as many entries.
fn check_seat<L: Name, A: Allocator>(rt: &impl Abort, seat: &Seat<L, A>, calls: u64) {
    assert_eq!(rt; (seat.calls(), seat.seen()), (calls, calls));
}

/// Opens a book, and returns whether that succeeded. An open book must have three seats, no entry, and a reader that reports no
/// entry.
fn opens<L: Name, A: Allocator + Copy, R: Wait + Abort, T: Table<A>>(
    rt: &R,
    alloc: A,
    start: Start<A>,
) -> bool
    requires name { start.name ≡ L.name }
    requires jobs { start.jobs ≡ L.parts }
    requires book { start.book ≡ L.book }
{
    let Ok((book, seats)) = open::<L, A, T>(alloc, start) else {
        return false;
    };
    assert_eq!(rt; seats.get().len(), 3);
    check_live(rt, &mut made(rt, reader(rt, &book)), 0, Totals::default());
    let entries = history_of(rt, book, seats.into_vec());
    assert_eq!(rt; entries.get().len(), 0);
    true
}

/// Opens a new book for three jobs, and returns whether that succeeded. Making the book's `Start` never allocates.
fn opens_anew<A: Allocator + Copy>(rt: &(impl Wait + Abort), alloc: A) -> bool {
    opens::<Brand, A, _, Store<A>>(rt, alloc, made(rt, start(alloc, 3)))
}

/// Whether a book can't be opened with a capacity of `room`. A failure drops the book's `Start`, so the second try, with ample
/// capacity, makes a new `Start`.
fn is_not_opened(rt: &(impl Wait + Abort), heap: &Bump, room: usize) -> bool {
    narrow(rt, heap, room);
    let is_opened = opens_anew(rt, heap);
    widen(heap);
    assert!(rt; is_opened || opens_anew(rt, heap));
    !is_opened
}

/// Makes a `Start`, and returns whether that failed. A `Start` must not allocate.
fn starts(rt: &impl Abort, heap: &Bump, room: usize) -> bool {
    narrow(rt, heap, room);
    let first = start(heap, 64);
    first.is_err()
}

/// What is done with a book, and the heap's capacity for it.
#[derive(Clone, Copy)]
struct Narrow<'a> {
    heap: &'a Bump,
    room: usize,
    used: Use<'a>,
}

/// What is done with a book whose memory is limited.
#[derive(Clone, Copy)]
pub(super) enum Use<'a> {
    Perform(Step<'a>),
    /// Makes a reader.
    Read,
    /// Appends the seats to a list.
    HandIn,
}

/// Opens the book and uses it as `tried` says. Returns whether an allocation failed.
fn uses<L: Name, A: Allocator + Copy, R: Wait + Abort, T: Table<A>>(
    rt: &R,
    alloc: A,
    start: Start<A>,
    tried: Narrow<'_>,
) -> bool
    requires name { start.name ≡ L.name }
    requires jobs { start.jobs ≡ L.parts }
    requires book { start.book ≡ L.book }
{
    let (book, seats) = made(rt, open::<L, A, T>(alloc, start));
    match tried.used {
        Use::Perform(step) => performs(rt, alloc, book, seats, tried, step),
        Use::Read => reads(rt, &book, tried),
        Use::HandIn => hands_in(rt, alloc, seats, tried),
    }
}

/// Like `uses`, with a new book over a `Store`.
fn uses_store<A: Allocator + Copy, R: Wait + Abort>(
    rt: &R,
    alloc: A,
    jobs: u32,
    tried: Narrow<'_>,
) -> bool {
    uses::<Brand, A, R, Store<A>>(rt, alloc, made(rt, start(alloc, jobs)), tried)
}

/// Like `uses`, with a new book: one with nine jobs for `HandIn`, otherwise one with one job.
fn uses_anew<R: Wait + Abort>(rt: &R, heap: &Bump, room: usize, used: Use<'_>) -> bool {
    let jobs = if matches!(used, Use::HandIn) { 9 } else { 1 };
    let tried = Narrow { heap, room, used };
    uses_store(rt, heap, jobs, tried)
}

/// Performs the step `step` in a book with one submission and a reader. Checks the history at the end. Returns whether an
/// allocation failed.
fn performs<L: Name, A: Allocator + Copy, R: Wait + Abort, T: Table<A>>(
    rt: &R,
    alloc: A,
    book: Shared<L, A, T>,
    seats: Seats<L, A>,
    tried: Narrow<'_>,
    step: Step<'_>,
) -> bool {
    let mut seats = seats.into_vec();
    let is_refused = match seats.first_mut() {
        Some(seat) => asks(rt, alloc, &book, seat, tried, step),
        None => panic!(rt; "no seat"),
    };
    let entries = history_of(rt, book, seats);
    assert_eq!(rt; entries.get().len(), 2);
    check_entry(rt, alloc, entries.get().first(), 0, BEGUN);
    check_entry(rt, alloc, entries.get().last(), 0, step);
    is_refused
}

/// Submits a text, and returns the totals after it.
fn begins<L: Name, A: Allocator + Copy, R: Wait + Abort, T: Table<A>>(
    rt: &R,
    alloc: A,
    book: &Shared<L, A, T>,
    seat: &mut Seat<L, A>,
) -> Totals {
    let op = op_of(rt, alloc, BEGUN.asked);
    made(rt, perform(rt, alloc, book, seat, &op))
        .news
        .reading()
        .totals
}

/// Performs the operation with the limited capacity.
fn perform_narrowly<L: Name, A: Allocator + Copy, R: Wait + Abort, T: Table<A>>(
    rt: &R,
    alloc: A,
    book: &Shared<L, A, T>,
    seat: &mut Seat<L, A>,
    op: &Op<A>,
    tried: Narrow<'_>,
) -> Result<Done<L, A>, BookFault> {
    narrow(rt, tried.heap, tried.room);
    let done = perform(rt, alloc, book, seat, op);
    widen(tried.heap);
    done
}

/// Submits a text, and then tries the operation of `step` with the limited capacity. Returns whether an allocation failed.
fn asks<L: Name, A: Allocator + Copy, R: Wait + Abort, T: Table<A>>(
    rt: &R,
    alloc: A,
    book: &Shared<L, A, T>,
    seat: &mut Seat<L, A>,
    tried: Narrow<'_>,
    step: Step<'_>,
) -> bool {
    let totals = begins(rt, alloc, book, seat);
    let mut live = made(rt, reader(rt, book));
    let op = op_of(rt, alloc, step.asked);
    match perform_narrowly(rt, alloc, book, seat, &op, tried) {
        Ok(done) => {
            check_done(rt, alloc, seat, &done, &mut live, step);
            false
        }
        Err(fault) => {
            assert_eq!(rt; fault, BookFault::Memory);
            check_seat(rt, seat, 1);
            check_live(rt, &mut live, 1, totals);
            let done = made(rt, perform(rt, alloc, book, seat, &op));
            check_done(rt, alloc, seat, &done, &mut live, step);
            true
        }
    }
}

/// Checks the seat after its second call, the call's receipt, by `check_told`, and that the totals after the call are published.
fn check_done<L: Name, A: Allocator + Copy>(
    rt: &impl Abort,
    alloc: A,
    seat: &Seat<L, A>,
    done: &Done<L, A>,
    live: &mut Live<L, A>,
    step: Step<'_>,
) {
    check_seat(rt, seat, 2);
    let reading = done.news.reading();
    assert_eq!(rt; (done.receipt.place, reading.upto), (1, 2));
    check_told(
        rt,
        alloc,
        &done.receipt.op,
        &done.receipt.answer,
        reading.totals,
        step,
    );
    check_live(rt, live, 2, reading.totals);
}

/// Makes a reader with the limited capacity, and returns whether that failed.
fn reads<L: Name, A: Allocator + Copy, R: Wait + Abort, T: Table<A>>(
    rt: &R,
    book: &Shared<L, A, T>,
    tried: Narrow<'_>,
) -> bool {
    narrow(rt, tried.heap, tried.room);
    let first = reader(rt, book);
    widen(tried.heap);
    match first {
        Ok(mut live) => {
            check_live(rt, &mut live, 0, Totals::default());
            false
        }
        Err(_fault) => true,
    }
}

/// Appends the seats of nine jobs to a list with the limited capacity, and returns whether an allocation failed. A failed
/// allocation drops the seat and leaves the list unchanged.
fn hands_in<L: Name, A: Allocator + Copy>(
    rt: &impl Abort,
    alloc: A,
    seats: Seats<L, A>,
    tried: Narrow<'_>,
) -> bool {
    let mut list = Seats::new(alloc);
    let mut refused = None;
    narrow(rt, tried.heap, tried.room);
    for seat in seats.into_vec() {
        let job = seat.job();
        if list.push(seat).is_err() {
            widen(tried.heap);
            assert_eq!(rt; (refused, list.get().len()), (None, job as usize));
            refused = Some(job);
        }
    }
    check_jobs(rt, list.get(), refused);
    refused.is_some()
}

/// Checks that the seats are those of the jobs 0 to 8 in ascending order, without the job `given_up`.
fn check_jobs<L: Name, A: Allocator>(rt: &impl Abort, seats: &[Seat<L, A>], given_up: Option<u32>) {
    let mut job = 0u32;
    for seat in seats {
        if given_up == Some(job) {
            job = job.wrapping_add(1);
        }
        assert_eq!(rt; seat.job(), job);
        job = job.wrapping_add(1);
    }
    let wanted = if given_up.is_some() { 8 } else { 9 };
    assert_eq!(rt; seats.len(), wanted);
}

/// A call on books that are shared.
#[derive(Clone, Copy)]
pub(super) enum InBook<'a> {
    Start,
    Open,
    Use(Use<'a>),
}

/// Makes the call with a capacity of `room`, and returns whether an allocation failed.
pub(super) fn is_refused<R: Wait + Abort>(
    rt: &R,
    heap: &Bump,
    room: usize,
    in_book: InBook<'_>,
) -> bool {
    match in_book {
        InBook::Start => starts(rt, heap, room),
        InBook::Open => is_not_opened(rt, heap, room),
        InBook::Use(used) => uses_anew(rt, heap, room, used),
    }
}

#[test]
fn books_are_opened(rt: HostRuntime) {
    check_rising_by(&rt, 1, 64, &[Call::Shared(InBook::Open)]);
}

#[test]
fn starts_and_readers_take_no_memory(rt: HostRuntime) {
    check_none(
        &rt,
        &[
            Call::Shared(InBook::Start),
            Call::Shared(InBook::Use(Use::Read)),
        ],
    );
}

#[test]
fn shared_steps(rt: HostRuntime) {
    for step in STEPS {
        check_rising_by(&rt, 1, 8, &[Call::Shared(InBook::Use(Use::Perform(*step)))]);
    }
}

#[test]
fn seats(rt: HostRuntime) {
    check_rising(&rt, &[Call::Shared(InBook::Use(Use::HandIn))]);
}
