//! Histories: their answers, entries and totals, steps that are prepared and dropped, and the length of a history.

use super::steps::{Step, check_lines, check_steps};
use super::words::op_of;
use super::wrappers::{entries, ready, step, totals};
use covbook::{Book, BookFault, Op, Ready};
use covreport::Table;
use covrows::Rows;
use std::alloc::Global;
use std::process::Abort;
use std::test::*;

/// The report of the submission `DA:1,2;DA:2,0`.
const REPORT: &[u8] = b"TN:t\nSF:/a.c\nDA:1,2\nDA:2,0\nLF:2\nLH:1\nend_of_record\n";

const TEXTS: &[Step<'static>] = &[
    (5, b"submit DA:1,2;DA:2,0", b"a120", 2, 1),
    (6, b"extract *.h|/a.?", REPORT, 2, 1),
    (7, b"remove *.h|/a.?|x", b"", 2, 1),
    (5, b"report", REPORT, 2, 1),
];

/// A clash has an entry, like every other answer, but takes no submission number.
const CLASHES: &[Step<'static>] = &[
    (1, b"submit DA:7,1,k;LF:9", b"a111", 1, 1),
    (2, b"submit DA:7,1,l", b"c7kl", 1, 1),
    (1, b"submit DA:7,1,k;LF:9", b"a211", 1, 1),
];

/// A drop removes the test's counts from the totals, but the number of the test's submission isn't used again. The drop of an
/// unknown test has an entry too.
const DROPS: &[Step<'static>] = &[
    (5, b"submit DA:1,2;DA:2,0", b"a120", 2, 1),
    (6, b"drop tt", b"n", 2, 1),
    (7, b"drop t", b"d1", 0, 0),
    (7, b"drop t", b"n", 0, 0),
    (5, b"submit DA:1,2;DA:2,0", b"a220", 2, 1),
];

/// Packed submissions add up with unpacked ones. A packed submission that clashes adds nothing.
const PACKED: &[Step<'static>] = &[
    (0, b"packed DA:1,2,k;DA:2,0", b"a120", 2, 1),
    (8, b"submit DA:2,3", b"a210", 2, 2),
    (8, b"packed DA:1,5,l", b"c1kl", 2, 2),
    (8, b"packed DA:1,1", b"a310", 2, 2),
    (
        0,
        b"report",
        b"TN:t\nSF:/a.c\nDA:1,3,k\nDA:2,3\nLF:2\nLH:2\nend_of_record\n",
        2,
        2,
    ),
];

/// Performs the steps in a new book, which has no lines, and checks each step.
fn check_new<T: Table<Global>>(
    rt: &(impl Abort + AllocGlobal),
    steps: &[Step<'_>],
) -> Result<(), Fail> {
    let mut book: Book<Global, T> = Book::new(rt.alloc());
    check_lines(rt, &totals(&book), 0, 0);
    check_steps(rt, &mut book, steps)
}

#[test]
fn histories(rt: HostRuntime) -> Result<(), Fail> {
    for steps in [TEXTS, CLASHES, DROPS, PACKED] {
        check_new::<Rows>(&rt, steps)?;
    }
    Ok(())
}

/// Checks that the entry of a prepared step is job 3's, that the entry has the totals after the step, and how many lines these
/// have found and hit.
fn check_ready<P: Drop, R: Drop>(
    rt: &impl Abort,
    ready: &Ready<Global, P, R>,
    found: u64,
    hit: u64,
) {
    let entry = ready.entry();
    assert!(rt; entry.job == 3 && entry.after == ready.after());
    check_lines(rt, &entry.after, found, hit);
}

/// Prepares a step of job 3, checks it, and drops it.
fn check_prepared<T: Table<Global>>(
    rt: &(impl Abort + AllocGlobal),
    book: &mut Book<Global, T>,
    words: &[u8],
    found: u64,
    hit: u64,
) -> Result<(), Fail> {
    let op = op_of(rt.alloc(), words)?;
    match ready(rt.alloc(), book, 3, &op) {
        Ok(ready) => check_ready(rt, &ready, found, hit),
        Err(_fault) => panic!(rt; "a step is refused"),
    }
    Ok(())
}

/// Prepares and drops a step before and after a step in two halves.
fn check_halves<T: Table<Global>>(rt: &(impl Abort + AllocGlobal)) -> Result<(), Fail> {
    let mut book: Book<Global, T> = Book::new(rt.alloc());
    check_prepared(rt, &mut book, b"submit DA:1,2;DA:2,0", 2, 1)?;
    check_steps(
        rt,
        &mut book,
        &[(8, b"submit DA:1,2;DA:2,0", b"a120", 2, 1)],
    )?;
    check_prepared(rt, &mut book, b"packed DA:2,1;DA:3,0", 3, 2)?;
    check_steps(rt, &mut book, &[(0, b"report", REPORT, 2, 1)])
}

/// A step can be done in two halves. Without the second half, the step has no effect.
#[test]
fn halves_of_a_step(rt: HostRuntime) -> Result<(), Fail> {
    check_halves::<Rows>(&rt)
}

/// Whether the book's next step, a summary, gets this index or this error.
fn is_next<T: Table<Global>>(
    alloc: Global,
    book: &mut Book<Global, T>,
    wanted: Result<u64, BookFault>,
) -> bool {
    match step(alloc, book, 0, &Op::Summary) {
        Ok(receipt) => wanted == Ok(receipt.place),
        Err(fault) => wanted == Err(fault),
    }
}

/// Fills a new book, and checks that its next step fails.
fn check_full<T: Table<Global>>(rt: &(impl Abort + AllocGlobal)) {
    let mut book: Book<Global, T> = Book::new(rt.alloc());
    for place in 0..1_048_576u64 {
        assert!(rt; is_next(rt.alloc(), &mut book, Ok(place)));
    }
    assert!(rt; is_next(rt.alloc(), &mut book, Err(BookFault::Full)));
    assert!(rt; entries(&book).len() == 1_048_576);
}

/// A history can have 1,048,576 entries and no more.
#[test]
fn a_full_book(rt: HostRuntime) {
    check_full::<Rows>(&rt);
}

#[test]
fn numbers_of_faults(rt: HostRuntime) {
    assert_eq!(rt;
        (BookFault::Full.number(), BookFault::Memory.number()),
        (1, 2)
    );
    assert_eq!(rt; (BookFault::Full as u32, BookFault::Memory as u32), (1, 2));
}
