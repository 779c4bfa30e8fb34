//! Functions for a shared book, from its opening to its history. They panic on an error. A function that returned early would have
//! to drop its book and its seats on each way out, and each way out would need a proof.

ghost use Rattle.std.specs.Prelude.{◌≡◌};

use super::collecting::{bytes, submission, trace};
use super::wrappers::{close, done, start};
use covbook::{Entries, JobLog, Op, Reading, Readings, Receipt, Receipts};
use covjobs::{Done, Name, News, Seat, Shared, Start, open_book};
use covreport::Table;
use std::alloc::{Allocator, Global};
use std::process::Abort;
use std::sync::Wait;

/// The small tracefile.
pub(super) const SMALL: &[u8] = b"TN:t\nSF:/a.c\nDA:1,2\nDA:2,0\nLF:2\nLH:1\nend_of_record\n";

/// Makes the start of a book for `jobs` jobs.
pub(super) fn started<A: Allocator + Copy>(rt: &impl Abort, alloc: A, jobs: u32) -> Start<A> {
    match start(alloc, jobs) {
        Ok(start) => start,
        Err(_fault) => panic!(rt; "no start"),
    }
}

/// Opens a book, and returns it with the seats of its jobs.
pub(super) fn opened<L: Name, A: Allocator + Copy, T: Table<A>>(
    rt: &impl Abort,
    alloc: A,
    start: Start<A>,
) -> (Shared<L, A, T>, Vec<Seat<L, A>, A>)
    requires name { start.name ≡ L.name }
    requires jobs { start.jobs ≡ L.parts }
    requires book { start.book ≡ L.book }
{
    match open_book::<L, A, T>(alloc, start) {
        Ok((book, seats)) => (book, seats.into_vec()),
        Err(_refused) => panic!(rt; "no book is opened"),
    }
}

/// The first of the seats.
pub(super) fn first_of<'a, L: Name, A: Allocator>(
    rt: &impl Abort,
    seats: &'a mut [Seat<L, A>],
) -> &'a mut Seat<L, A> {
    match seats.first_mut() {
        Some(seat) => seat,
        None => panic!(rt; "no seat"),
    }
}

/// Closes the book with all of its seats. Returns the book's history, and news of this history.
pub(super) fn closed<L: Name, A: Allocator + Copy, R: Wait + Abort, T: Table<A>>(
    rt: &R,
    book: Shared<L, A, T>,
    seats: Vec<Seat<L, A>, A>,
) -> (Entries<A>, News<L>) {
    match close(rt, book, seats) {
        Ok((entries, news)) => (entries, news),
        Err(_back) => panic!(rt; "a seat is missing"),
    }
}

/// Closes the book with all of its seats, and returns its history.
pub(super) fn history_of<L: Name, A: Allocator + Copy, R: Wait + Abort, T: Table<A>>(
    rt: &R,
    book: Shared<L, A, T>,
    seats: Vec<Seat<L, A>, A>,
) -> Entries<A> {
    closed(rt, book, seats).0
}

/// The operations that the tests perform.
#[derive(Clone, Copy)]
pub(super) enum Ask {
    /// Submits the small tracefile.
    Submit,
    /// Drops the test `x`.
    Drop,
    /// Renames the test `t` to `v`.
    Rename,
    Report,
    Summary,
}

/// The operation that `ask` stands for.
pub(super) fn op_of(rt: &impl Abort, alloc: Global, ask: Ask) -> Op {
    match ask {
        Ask::Submit => submit(rt, alloc),
        Ask::Drop => Op::DropTest(bytes(rt, alloc, b"x")),
        Ask::Rename => rename(rt, alloc),
        Ask::Report => Op::Report,
        Ask::Summary => Op::Summary,
    }
}

/// The operation that submits the small tracefile.
fn submit(rt: &impl Abort, alloc: Global) -> Op {
    Op::Submit(submission(rt, alloc, &trace(rt, alloc, SMALL)))
}

/// The operation that renames the test `t` to `v`.
fn rename(rt: &impl Abort, alloc: Global) -> Op {
    Op::Rename {
        old: bytes(rt, alloc, b"t"),
        new: bytes(rt, alloc, b"v"),
    }
}

/// Performs the operation with the seat. Returns the receipt and the news, and panics on an error.
pub(super) fn done_of<L: Name, R: Wait + Abort, T: Table<Global>>(
    rt: &R,
    alloc: Global,
    book: &Shared<L, Global, T>,
    seat: &mut Seat<L>,
    op: &Op,
) -> Done<L> {
    match done(rt, alloc, book, seat, op) {
        Ok(done) => done,
        Err(_fault) => panic!(rt; "a step is refused"),
    }
}

/// Performs the operation with the seat. Returns the receipt, and panics on an error.
pub(super) fn receipt_of<L: Name, R: Wait + Abort, T: Table<Global>>(
    rt: &R,
    alloc: Global,
    book: &Shared<L, Global, T>,
    seat: &mut Seat<L>,
    op: &Op,
) -> Receipt {
    done_of(rt, alloc, book, seat, op).receipt
}

/// Appends the receipt to the log.
pub(super) fn keep(rt: &impl Abort, log: &mut JobLog, receipt: Receipt) {
    if log.receipts.push(receipt).is_err() {
        panic!(rt; "out of memory");
    }
}

/// Performs the operation that `ask` stands for, and appends the receipt to the log.
pub(super) fn perform<L: Name, R: Wait + Abort, T: Table<Global>>(
    rt: &R,
    alloc: Global,
    book: &Shared<L, Global, T>,
    seat: &mut Seat<L>,
    log: &mut JobLog,
    ask: Ask,
) {
    let op = op_of(rt, alloc, ask);
    keep(rt, log, receipt_of(rt, alloc, book, seat, &op));
}

/// Appends the reading to the readings.
pub(super) fn keep_reading(rt: &impl Abort, readings: &mut Readings, reading: Reading) {
    if readings.push(reading).is_err() {
        panic!(rt; "out of memory");
    }
}

/// A log of the job without receipts and readings.
pub(super) fn empty_log(alloc: Global, job: u32) -> JobLog {
    JobLog {
        job,
        receipts: Receipts::new(alloc),
        readings: Readings::new(alloc),
    }
}

/// Makes an empty log for each seat.
pub(super) fn empty_logs<L: Name>(
    rt: &impl Abort,
    alloc: Global,
    seats: &[Seat<L>],
) -> Vec<JobLog> {
    let mut logs = Vec::new(alloc);
    for seat in seats {
        if logs.push(empty_log(alloc, seat.job())).is_err() {
            panic!(rt; "out of memory");
        }
    }
    logs
}
