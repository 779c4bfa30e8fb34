//! Two jobs that take turns, in one thread, and keep logs. `gather` checks their logs against the book's history. It finds two
//! errors that no contract of a single call excludes: an answer from an old copy of the book, and a closed history that isn't the
//! book's own but another legal one. The contracts also allow a book that rejects all steps; these tests don't.

ghost use Rattle.std.specs.Prelude.{◌≡◌};

use super::books::{Ask, empty_logs, history_of, keep_reading, opened, perform, started};
use super::said::{check_entries, check_receipts};
use super::wrappers::gathered;
use covbook::{Entries, Entry, GatherFault, JobLog, Reading};
use covjobs::{Name, Seat, Shared, Start};
use covreport::Table;
use covrows::Rows;
use covtable::Totals;
use std::alloc::Global;
use std::marker::Brand;
use std::process::Abort;
use std::sync::Wait;
use std::test::*;

/// The expected receipts: those of job 0, and then those of job 1.
const RECEIPTS: &[u8] = b"\
0 submit: accepted 1 2 0 
2 summary: Summary coverage rate:
  lines......: 50.0% (1 of 2 lines)
  functions..: no data found
  branches...: no data found

4 report: TN:t
SF:/a.c
DA:1,4
DA:2,0
LF:2
LH:1
end_of_record

1 submit: accepted 2 2 0 
3 drop: no such test
5 summary: Summary coverage rate:
  lines......: 50.0% (1 of 2 lines)
  functions..: no data found
  branches...: no data found

";

const ENTRIES: &[u8] = b"\
0 submit: accepted 1 2 0 
1 submit: accepted 2 2 0 
0 summary: Summary coverage rate:
  lines......: 50.0% (1 of 2 lines)
  functions..: no data found
  branches...: no data found

1 drop: no such test
0 report: TN:t
SF:/a.c
DA:1,4
DA:2,0
LF:2
LH:1
end_of_record

1 summary: Summary coverage rate:
  lines......: 50.0% (1 of 2 lines)
  functions..: no data found
  branches...: no data found

";

const OF_A_RENAME: &[u8] = b"\
0 submit: accepted 1 2 0 
1 submit: accepted 2 2 0 
0 summary: Summary coverage rate:
  lines......: 50.0% (1 of 2 lines)
  functions..: no data found
  branches...: no data found

1 rename: renamed 1 
0 report: TN:v
SF:/a.c
DA:1,4
DA:2,0
LF:2
LH:1
end_of_record

1 summary: Summary coverage rate:
  lines......: 50.0% (1 of 2 lines)
  functions..: no data found
  branches...: no data found

";

/// The operations that the two jobs ask for in turn.
const ASKED: [Ask; 6] = [
    Ask::Submit,
    Ask::Submit,
    Ask::Summary,
    Ask::Drop,
    Ask::Report,
    Ask::Summary,
];

/// Like `ASKED`, but with a rename in place of the drop.
const ASKED_TO_RENAME: [Ask; 6] = [
    Ask::Submit,
    Ask::Submit,
    Ask::Summary,
    Ask::Rename,
    Ask::Report,
    Ask::Summary,
];

/// Like `ASKED`, but with a summary in place of the second submit.
const ASKED_WITH_ONE_SUBMIT: [Ask; 6] = [
    Ask::Submit,
    Ask::Summary,
    Ask::Summary,
    Ask::Drop,
    Ask::Report,
    Ask::Summary,
];

/// Submits at the end alone.
const ASKED_TO_SUBMIT_LAST: [Ask; 6] = [
    Ask::Summary,
    Ask::Report,
    Ask::Drop,
    Ask::Summary,
    Ask::Submit,
    Ask::Submit,
];

/// Lets two jobs take turns to perform the operations, and stores each receipt in the job's log.
fn keep_turns<L: Name, R: Wait + Abort, T: Table<Global>>(
    rt: &R,
    alloc: Global,
    book: &Shared<L, Global, T>,
    seats: &mut [Seat<L>],
    logs: &mut [JobLog],
    asks: &[Ask],
) {
    for (at, ask) in asks.iter().enumerate() {
        if let (Some(seat), Some(log)) = (seats.get_mut(at % 2), logs.get_mut(at % 2)) {
            perform(rt, alloc, book, seat, log, *ask);
        }
    }
}

/// Appends three numbers of the seat: its job, its successful calls, and the entries that it has seen.
fn put_seat<L: Name>(rt: &impl Abort, numbers: &mut Vec<u64>, seat: &Seat<L>) {
    for number in [seat.job() as u64, seat.calls(), seat.seen()] {
        if numbers.push(number).is_err() {
            panic!(rt; "out of memory");
        }
    }
}

/// Checks the numbers of the seats, as `put_seat` appends them.
fn check_seats<L: Name>(rt: &(impl Abort + AllocGlobal), seats: &[Seat<L>], wanted: &[u64]) {
    let mut numbers = Vec::new(rt.alloc());
    for seat in seats {
        put_seat(rt, &mut numbers, seat);
    }
    assert_eq!(rt; numbers.as_slice(), wanted);
}

fn in_turn<L: Name, R: Wait + Abort + AllocGlobal, T: Table<Global>>(
    rt: &R,
    start: Start,
    asks: &[Ask],
) -> (Entries, Vec<JobLog>)
    requires name { start.name ≡ L.name }
    requires jobs { start.jobs ≡ L.parts }
    requires book { start.book ≡ L.book }
{
    let (book, mut seats) = opened::<L, _, T>(rt, rt.alloc(), start);
    let mut logs = empty_logs(rt, rt.alloc(), seats.as_slice());
    check_seats(rt, seats.as_slice(), &[0, 0, 0, 1, 0, 0]);
    keep_turns(
        rt,
        rt.alloc(),
        &book,
        seats.as_mut_slice(),
        logs.as_mut_slice(),
        asks,
    );
    check_seats(rt, seats.as_slice(), &[0, 3, 5, 1, 3, 6]);
    (history_of(rt, book, seats), logs)
}

/// Opens a book, and lets two jobs take turns to perform the six operations. Returns the book's history and the logs.
fn history<R: Wait + Abort + AllocGlobal>(rt: &R, asks: &[Ask]) -> (Entries, Vec<JobLog>) {
    in_turn::<Brand, _, Rows>(rt, started(rt, rt.alloc(), 2), asks)
}

/// Checks the history of the six operations, and that `gather` accepts it with the logs. Returns the logs.
fn check_history<R: Wait + Abort + AllocGlobal>(
    rt: &R,
    asks: &[Ask],
    wanted: &[u8],
) -> Vec<JobLog> {
    let (entries, logs) = history(rt, asks);
    check_entries(rt, entries.get(), wanted);
    assert!(rt; gathered(entries.get(), logs.as_slice()).is_ok());
    logs
}

#[test]
fn six_calls(rt: HostRuntime) {
    let logs = check_history(&rt, &ASKED, ENTRIES);
    check_receipts(&rt, logs.as_slice(), RECEIPTS);
}

/// A rename has an entry like any other operation, and `gather` accepts the rename's receipt.
#[test]
fn a_rename_among_six_calls(rt: HostRuntime) {
    let _logs = check_history(&rt, &ASKED_TO_RENAME, OF_A_RENAME);
}

/// Checks that `gather` rejects the logs for the reason `wanted`.
fn check_rejected(rt: &impl Abort, entries: &[Entry], logs: &[JobLog], wanted: GatherFault) {
    assert!(rt; gathered(entries, logs) == Err(wanted));
}

/// Exchanges the first logs of both lists.
fn exchange_first(logs: &mut [JobLog], others: &mut [JobLog]) {
    if let (Some(log), Some(other)) = (logs.first_mut(), others.first_mut()) {
        std::mem::swap(log, other);
    }
}

/// `gather` rejects a stale report, whose answer misses the second of two submissions. It is the third receipt of job 0.
#[test]
fn answer_from_an_old_copy(rt: HostRuntime) {
    let (_old_entries, mut old_logs) = history(&rt, &ASKED_WITH_ONE_SUBMIT);
    let (entries, mut logs) = history(&rt, &ASKED);
    exchange_first(logs.as_mut_slice(), old_logs.as_mut_slice());
    let stale = GatherFault::Differs { log: 0, index: 2 };
    check_rejected(&rt, entries.get(), logs.as_slice(), stale);
}

/// `gather` rejects the history of another book, although this history is legal and has as many entries as the logs have receipts.
#[test]
fn another_history(rt: HostRuntime) {
    let (_entries, logs) = history(&rt, &ASKED);
    let (entries, _logs) = history(&rt, &ASKED_TO_SUBMIT_LAST);
    let first = GatherFault::Differs { log: 0, index: 0 };
    check_rejected(&rt, entries.get(), logs.as_slice(), first);
}

/// Appends this reading to the first log.
fn read_in_first(rt: &impl Abort, logs: &mut [JobLog], reading: Reading) {
    if let Some(log) = logs.first_mut() {
        keep_reading(rt, &mut log.readings, reading);
    }
}

/// `gather` rejects a reading of zeros after two submissions.
#[test]
fn a_bad_reading(rt: HostRuntime) {
    let (entries, mut logs) = history(&rt, &ASKED);
    let reading = Reading {
        upto: 2,
        totals: Totals::default(),
    };
    read_in_first(&rt, logs.as_mut_slice(), reading);
    let bad = GatherFault::BadReading { log: 0, index: 0 };
    check_rejected(&rt, entries.get(), logs.as_slice(), bad);
}
