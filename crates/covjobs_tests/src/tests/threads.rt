//! Four threads at one book.

ghost use Rattle.std.specs.Prelude.{◌≡◌};

use super::books::{
    Ask, empty_logs, history_of, keep, op_of, opened, perform, receipt_of, started,
};
use super::collecting::check_last;
use super::wrappers::gathered;
use covbook::{Answer, Entry, JobLog, Op};
use covjobs::{Name, Seat, Shared, Start};
use covreport::Table;
use covrows::Rows;
use std::alloc::Global;
use std::marker::Brand;
use std::process::Abort;
use std::sync::Wait;
use std::test::*;
use std::thread;
use std::thread::Threads;

const MERGED: &[u8] = b"TN:t\nSF:/a.c\nDA:1,400\nDA:2,0\nLF:2\nLH:1\nend_of_record\n";

/// Performs `op` fifty times with the seat, and appends the receipts to the log.
fn ask_often<L: Name, R: Wait + Abort, T: Table<Global>>(
    rt: &R,
    alloc: Global,
    book: &Shared<L, Global, T>,
    seat: &mut Seat<L>,
    log: &mut JobLog,
    op: &Op,
) {
    for _time in 0..50 {
        keep(rt, log, receipt_of(rt, alloc, book, seat, op));
    }
}

/// Lets each job perform `op` fifty times, in a thread of its own.
fn ask_at_once<
    L: Name + Send + Sync,
    R: Threads + Wait + Abort + Sync,
    T: Table<Global, Plan: Send, Renaming: Send> + Send,
>(
    rt: &R,
    alloc: Global,
    book: &Shared<L, Global, T>,
    seats: &mut [Seat<L>],
    logs: &mut [JobLog],
    op: &Op,
) {
    thread::scope(thread::scope_env(), rt, |scope| {
        for (seat, log) in seats.iter_mut().zip(logs.iter_mut()) {
            if scope
                .spawn(move || ask_often(rt, alloc, book, seat, log, op))
                .is_err()
            {
                panic!(rt; "no thread");
            }
        }
    });
}

/// Whether the entry is an accepted submission whose number is greater by 1 than `number_before`.
fn has_next_number(entry: &Entry, number_before: u64) -> bool {
    match &entry.answer {
        Answer::Accepted { number, .. } => {
            *number > number_before && *number - number_before == 1
        }
        _ => false,
    }
}

/// How many entries at the front are accepted submissions with the numbers 1, 2, 3 and so on.
fn accepted_first(entries: &[Entry]) -> usize {
    for (place, entry) in entries.iter().enumerate() {
        if !has_next_number(entry, place as u64) {
            return place;
        }
    }
    entries.len()
}

/// Lets the first job ask for the report, after the threads have ended.
fn ask_for_report<L: Name, R: Wait + Abort, T: Table<Global>>(
    rt: &R,
    alloc: Global,
    book: &Shared<L, Global, T>,
    seats: &mut [Seat<L>],
    logs: &mut [JobLog],
) {
    if let (Some(seat), Some(log)) = (seats.first_mut(), logs.first_mut()) {
        perform(rt, alloc, book, seat, log, Ask::Report);
    }
}

/// Checks that the history has the calls of all jobs and then the report, and that `gather` accepts the history with the logs.
fn check_history(rt: &impl Abort, entries: &[Entry], logs: &[JobLog]) {
    assert_eq!(rt; entries.len(), 201);
    assert_eq!(rt; accepted_first(entries), 200);
    check_last(rt, entries, MERGED);
    assert!(rt; gathered(entries, logs).is_ok());
}

fn at_once<
    L: Name + Send + Sync,
    R: Threads + Wait + Abort + AllocGlobal + Sync,
    T: Table<Global, Plan: Send, Renaming: Send> + Send,
>(rt: &R, start: Start)
    requires name { start.name ≡ L.name }
    requires jobs { start.jobs ≡ L.parts }
    requires book { start.book ≡ L.book }
{
    let alloc = rt.alloc();
    let (book, mut seats) = opened::<L, _, T>(rt, alloc, start);
    let mut logs = empty_logs(rt, alloc, seats.as_slice());
    let small = op_of(rt, alloc, Ask::Submit);
    ask_at_once(
        rt,
        alloc,
        &book,
        seats.as_mut_slice(),
        logs.as_mut_slice(),
        &small,
    );
    ask_for_report(rt, alloc, &book, seats.as_mut_slice(), logs.as_mut_slice());
    check_history(rt, history_of(rt, book, seats).get(), logs.as_slice());
}

#[test]
fn four_threads(rt: HostRuntime) {
    at_once::<Brand, _, Rows>(&rt, started(&rt, rt.alloc(), 4));
}
