//! A book isn't closed while one of its seats is missing.

ghost use Rattle.std.specs.Prelude.{◌≡◌};

use super::books::{Ask, first_of, history_of, op_of, opened, receipt_of, started};
use super::said::check_entries;
use super::wrappers::{close, none};
use covjobs::{CloseFault, Name, Seat, Seats, Shared, Start};
use covreport::Table;
use covrows::Rows;
use std::alloc::Global;
use std::marker::Brand;
use std::process::Abort;
use std::sync::Wait;
use std::test::*;

/// The expected entries: job 0 submits before the first failed close, and asks for a summary after it.
const ENTRIES: &[u8] = b"\
0 submit: accepted 1 2 0 
0 summary: Summary coverage rate:
  lines......: 50.0% (1 of 2 lines)
  functions..: no data found
  branches...: no data found

";

/// Tries to close the book without the seat of `job`. Checks that this fails, and returns the book and the other seats.
fn close_without<L: Name, R: Wait + Abort, T: Table<Global>>(
    rt: &R,
    book: Shared<L, Global, T>,
    seats: Vec<Seat<L>>,
    job: u32,
) -> (Shared<L, Global, T>, Vec<Seat<L>>) {
    match close(rt, book, seats) {
        Ok(_closed) => panic!(rt; "no seat is missing"),
        Err((book, seats, fault)) => {
            assert_eq!(rt; fault, CloseFault::Missing { job });
            (book, seats.into_vec())
        }
    }
}

/// Performs the operation with the first seat. Checks that the call succeeds, that the seat is job 0's, and that `calls` of the
/// seat's calls have succeeded so far.
fn check_usable<L: Name, R: Wait + Abort + AllocGlobal, T: Table<Global>>(
    rt: &R,
    book: &Shared<L, Global, T>,
    seats: &mut [Seat<L>],
    ask: Ask,
    calls: u64,
) {
    let seat = first_of(rt, seats);
    let op = op_of(rt, rt.alloc(), ask);
    let _receipt = receipt_of(rt, rt.alloc(), book, seat, &op);
    check_calls(rt, seat, calls);
}

/// Checks that the seat is job 0's, and that `calls` of the seat's calls have succeeded.
fn check_calls<L: Name>(rt: &impl Abort, seat: &Seat<L>, calls: u64) {
    assert_eq!(rt; (seat.job(), seat.calls()), (0, calls));
}

/// Appends `last`, the seat that was held back, to the seats.
fn with_last<L: Name>(rt: &impl Abort, seats: Vec<Seat<L>>, last: Option<Seat<L>>) -> Vec<Seat<L>> {
    let mut seats = Seats::of(seats);
    if let Some(seat) = last {
        if seats.push(seat).is_err() {
            panic!(rt; "out of memory");
        }
    }
    seats.into_vec()
}

/// Checks that the book isn't closed without the second seat, and that the first seat works before and after this attempt.
fn refused_once<L: Name, R: Wait + Abort + AllocGlobal, T: Table<Global>>(
    rt: &R,
    book: Shared<L, Global, T>,
    mut seats: Vec<Seat<L>>,
) -> (Shared<L, Global, T>, Vec<Seat<L>>) {
    check_usable(rt, &book, seats.as_mut_slice(), Ask::Submit, 1);
    let (book, mut seats) = close_without(rt, book, seats, 1);
    check_usable(rt, &book, seats.as_mut_slice(), Ask::Summary, 2);
    (book, seats)
}

/// Tries to close a book of two seats: first without the second seat, then without any seat, and at last with both. Checks that the
/// operations before and after a failed close are in the history.
fn kept_back<L: Name, R: Wait + Abort + AllocGlobal, T: Table<Global>>(rt: &R, start: Start)
    requires name { start.name ≡ L.name }
    requires jobs { start.jobs ≡ L.parts }
    requires book { start.book ≡ L.book }
{
    let (book, mut seats) = opened::<L, _, T>(rt, rt.alloc(), start);
    assert_eq!(rt; seats.len(), 2);
    let last = seats.pop();
    let (book, seats) = refused_once(rt, book, seats);
    let (book, _none) = close_without(rt, book, none(rt.alloc()), 0);
    let entries = history_of(rt, book, with_last(rt, seats, last));
    check_entries(rt, entries.get(), ENTRIES);
}

#[test]
fn seats_kept_back(rt: HostRuntime) {
    kept_back::<Brand, _, Rows>(&rt, started(&rt, rt.alloc(), 2));
}
