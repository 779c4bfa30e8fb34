//! Readers that get a book's totals without a lock.

ghost use Rattle.std.specs.Prelude.{◌≡◌};

use super::books::{
    Ask, closed, done_of, empty_log, first_of, keep, keep_reading, op_of, opened, receipt_of,
    started,
};
use super::wrappers::{gathered, learn, reader, reading, totals};
use covbook::{Entry, JobLog, Reading, Readings};
use covjobs::{Live, Name, News, ReaderFault, Seat, Shared, Start};
use covreport::Table;
use covrows::Rows;
use std::alloc::Global;
use std::marker::Brand;
use std::process::Abort;
use std::sync::Wait;
use std::test::*;
use std::thread::{Threads, join};

/// Makes a reader of the book. Panics on an error.
fn reader_of<L: Name, R: Wait + Abort, T: Table<Global>>(
    rt: &R,
    book: &Shared<L, Global, T>,
) -> Live<L> {
    match reader(rt, book) {
        Ok(live) => live,
        Err(_fault) => panic!(rt; "no reader"),
    }
}

/// Checks that the reading covers `upto` entries, and that its totals are `found` lines, `hit` of them hit, and nothing else.
fn check_reading(rt: &impl Abort, reading: Reading, upto: u64, found: u64, hit: u64) {
    let totals = reading.totals;
    assert_eq!(rt; reading.upto, upto);
    assert_eq!(rt; (totals.lf, totals.lh), (found, hit));
    assert_eq!(rt; (totals.ff, totals.fh, totals.bf, totals.bh), (0, 0, 0, 0));
}

/// Checks that the reader reports no entries.
fn check_none<L: Name>(rt: &impl Abort, live: &mut Live<L>) {
    check_reading(rt, totals(live), 0, 0, 0);
}

/// Checks that the reader reports the totals of the small tracefile, after `upto` entries.
fn check_small<L: Name>(rt: &impl Abort, live: &mut Live<L>, upto: u64) {
    check_reading(rt, totals(live), upto, 2, 1);
}

/// Checks that the news cover `upto` entries, and have the totals of the small tracefile.
fn check_news<L: Name>(rt: &impl Abort, news: &News<L>, upto: u64) {
    check_reading(rt, reading(news), upto, 2, 1);
}

/// Lets job 0 submit the small tracefile, and returns the news.
fn submitted<L: Name, R: Wait + Abort, T: Table<Global>>(
    rt: &R,
    alloc: Global,
    book: &Shared<L, Global, T>,
    seats: &mut [Seat<L>],
) -> News<L> {
    let op = op_of(rt, alloc, Ask::Submit);
    done_of(rt, alloc, book, first_of(rt, seats), &op).news
}

/// Makes a reader, which reports no entries. After a submit, the reader reports it, although it learns no news.
fn asked_reader<L: Name, R: Wait + Abort + AllocGlobal, T: Table<Global>>(
    rt: &R,
    book: &Shared<L, Global, T>,
    seats: &mut [Seat<L>],
) -> Live<L> {
    let mut asked = reader_of(rt, book);
    check_none(rt, &mut asked);
    let _news = submitted(rt, rt.alloc(), book, seats);
    check_small(rt, &mut asked, 1);
    asked
}

/// Checks that `early`, which was made before the book's only entry, reports no entries until it learns the news of the closed
/// book.
fn check_early<L: Name>(rt: &impl Abort, mut early: Live<L>, news: &News<L>) {
    check_none(rt, &mut early);
    learn(&mut early, news);
    check_small(rt, &mut early, 1);
}

/// Closes a book after its only entry. `asked`, which read this entry before the close, still reports it. So does `late`, which was
/// made after the entry.
fn kept_over_close<L: Name, R: Wait + Abort + AllocGlobal, T: Table<Global>>(rt: &R, start: Start)
    requires name { start.name ≡ L.name }
    requires jobs { start.jobs ≡ L.parts }
    requires book { start.book ≡ L.book }
{
    let (book, mut seats) = opened::<L, _, T>(rt, rt.alloc(), start);
    let early = reader_of(rt, &book);
    let mut asked = asked_reader(rt, &book, seats.as_mut_slice());
    let mut late = reader_of(rt, &book);
    let (_entries, news) = closed(rt, book, seats);
    check_small(rt, &mut asked, 1);
    check_small(rt, &mut late, 1);
    check_early(rt, early, &news);
}

#[test]
fn readers_of_a_closed_book(rt: HostRuntime) {
    kept_over_close::<Brand, _, Rows>(&rt, started(&rt, rt.alloc(), 1));
}

/// Makes `count` readers of the book.
fn readers_of<L: Name, R: Wait + Abort, T: Table<Global>>(
    rt: &R,
    alloc: Global,
    book: &Shared<L, Global, T>,
    count: u64,
) -> Vec<Live<L>> {
    let mut readers = Vec::new(alloc);
    for _reader in 0..count {
        if readers.push(reader_of(rt, book)).is_err() {
            panic!(rt; "out of memory");
        }
    }
    readers
}

/// Whether the book has no place for one more reader.
fn has_no_place<L: Name, R: Wait, T: Table<Global>>(rt: &R, book: &Shared<L, Global, T>) -> bool {
    match reader(rt, book) {
        Ok(_live) => false,
        Err(fault) => fault == ReaderFault::NoPlace,
    }
}

/// Checks that after a call, a book has places for 64 readers, and for no more. Drops the readers before it closes the book.
fn all_places<L: Name, R: Wait + Abort + AllocGlobal, T: Table<Global>>(rt: &R, start: Start)
    requires name { start.name ≡ L.name }
    requires jobs { start.jobs ≡ L.parts }
    requires book { start.book ≡ L.book }
{
    let (book, mut seats) = opened::<L, _, T>(rt, rt.alloc(), start);
    let _news = submitted(rt, rt.alloc(), &book, seats.as_mut_slice());
    let readers = readers_of(rt, rt.alloc(), &book, 64);
    assert!(rt; has_no_place(rt, &book));
    drop(readers);
    let _closed = closed(rt, book, seats);
}

#[test]
fn places_for_readers(rt: HostRuntime) {
    all_places::<Brand, _, Rows>(&rt, started(&rt, rt.alloc(), 1));
}

/// How often the small tracefile is submitted, and how often the totals are read at the same time.
const TIMES: u64 = 1000;

/// The result of many submits: the seats, and the job's log.
#[derive(Drop)]
struct Told<L: Name> {
    seats: Vec<Seat<L>>,
    log: JobLog,
}

/// Lets job 0 submit the small tracefile `TIMES` times.
fn submit_often<L: Name, R: Wait + Abort, T: Table<Global>>(
    rt: &R,
    alloc: Global,
    book: &Shared<L, Global, T>,
    mut seats: Vec<Seat<L>>,
) -> Told<L> {
    let mut log = empty_log(alloc, 0);
    submit_each(
        rt,
        alloc,
        book,
        first_of(rt, seats.as_mut_slice()),
        &mut log,
    );
    Told { seats, log }
}

/// Submits the small tracefile `TIMES` times, and appends the receipts to the log.
fn submit_each<L: Name, R: Wait + Abort, T: Table<Global>>(
    rt: &R,
    alloc: Global,
    book: &Shared<L, Global, T>,
    seat: &mut Seat<L>,
    log: &mut JobLog,
) {
    let small = op_of(rt, alloc, Ask::Submit);
    for _time in 0..TIMES {
        keep(rt, log, receipt_of(rt, alloc, book, seat, &small));
    }
}

/// A reader, and the readings that it made.
#[derive(Drop)]
struct Watched<L: Name> {
    live: Live<L>,
    readings: Readings,
}

/// Reads the totals `TIMES` times. Checks that the number of entries never falls.
fn watch<L: Name>(rt: &impl Abort, alloc: Global, mut live: Live<L>) -> Watched<L> {
    let mut readings = Readings::new(alloc);
    let mut seen = 0;
    for _time in 0..TIMES {
        let reading = totals(&mut live);
        check_rises(rt, reading, seen);
        seen = reading.upto;
        keep_reading(rt, &mut readings, reading);
    }
    Watched { live, readings }
}

/// Checks that the reading covers at least `seen` and at most `TIMES` entries, and has the totals after these entries.
fn check_rises(rt: &impl Abort, reading: Reading, seen: u64) {
    assert!(rt; seen <= reading.upto);
    assert!(rt; reading.upto <= TIMES);
    if reading.upto == 0 {
        check_reading(rt, reading, 0, 0, 0);
    } else {
        check_reading(rt, reading, reading.upto, 2, 1);
    }
}

/// Lets the reader learn the news of the closed book and read once more. Returns all readings of the reader.
fn read_last<L: Name>(rt: &impl Abort, watched: Watched<L>, news: &News<L>) -> Readings {
    let Watched {
        mut live,
        mut readings,
    } = watched;
    learn(&mut live, news);
    let reading = totals(&mut live);
    check_reading(rt, reading, TIMES, 2, 1);
    keep_reading(rt, &mut readings, reading);
    readings
}

/// Checks that the closed book has an entry for each submit, and that `gather` accepts its history with the log.
fn check_history(rt: &impl Abort, entries: &[Entry], log: JobLog) {
    assert_eq!(rt; entries.len(), 1000);
    assert_eq!(rt; log.readings.get().len(), 1001);
    assert!(rt; gathered(entries, &[log]).is_ok());
}

/// Closes the book, and checks its history with the log and the reader's readings.
fn check_closed<L: Name, R: Wait + Abort, T: Table<Global>>(
    rt: &R,
    book: Shared<L, Global, T>,
    told: Told<L>,
    watched: Watched<L>,
) {
    let Told { seats, mut log } = told;
    let (entries, news) = closed(rt, book, seats);
    check_news(rt, &news, TIMES);
    log.readings = read_last(rt, watched, &news);
    check_history(rt, entries.get(), log);
}

fn read_while_written<
    L: Name + Send + Sync,
    R: Threads + Wait + Abort + AllocGlobal + Sync,
    T: Table<Global, Plan: Send, Renaming: Send> + Send,
>(rt: &R, start: Start)
    requires name { start.name ≡ L.name }
    requires jobs { start.jobs ≡ L.parts }
    requires book { start.book ≡ L.book }
{
    let alloc = rt.alloc();
    let (book, seats) = opened::<L, _, T>(rt, alloc, start);
    let live = reader_of(rt, &book);
    let (told, watched) = join(
        rt,
        || submit_often(rt, alloc, &book, seats),
        || watch(rt, alloc, live),
    );
    check_closed(rt, book, told, watched);
}

#[test]
fn read_at_once(rt: HostRuntime) {
    read_while_written::<Brand, _, Rows>(&rt, started(&rt, rt.alloc(), 1));
}
