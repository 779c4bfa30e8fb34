//! Measures how much readers slow down the threads that submit.

ghost use Rattle.std.specs.Prelude.{◌≡◌};

use crate::wrappers::{open_book, perform, read, reader, shared};
use covbook::Op;
use covjobs::{Live, Name, Seat, Seats, Shared, Start};
use covreport::Table;
use covstore::Store;
use std::alloc::{AllocError, Global};
use std::marker::Brand;
use std::sync::Wait;
use std::sync::atomic::{AtomicU64, Ordering};
use std::thread;
use std::thread::Threads;
use std::time::{Clock, Instant};

/// The number of lines that the submitted tracefile counts.
const LINES: u64 = 100;

/// The parameters of a measurement.
#[derive(Clone, Copy)]
pub(crate) struct PacePlan {
    pub(crate) submitters: u32,
    pub(crate) readers: u64,
    pub(crate) submits: u64,
}

/// A thread that submits: its seat, and the duration of its slowest submit in nanoseconds.
#[derive(Drop)]
struct Submitter<L: Name> {
    seat: Seat<L>,
    slowest: u64,
}

/// A thread that reads: its reader, and the number of its readings.
#[derive(Drop)]
struct Watcher<L: Name> {
    live: Live<L>,
    readings: u64,
}

/// A tracefile with one section, which counts `LINES` lines. Every second line is hit.
fn tracefile(alloc: Global) -> Result<String, AllocError> {
    let mut text = String::from_str(alloc, "TN:pace\nSF:/src/pace.c\n")?;
    for line in 1..=LINES {
        put_line(&mut text, line)?;
    }
    text.push_str("end_of_record\n")?;
    Ok(text)
}

/// Appends the record that counts the line.
fn put_line(text: &mut String, line: u64) -> Result<(), AllocError> {
    let count = line % 2;
    let record = format!(in *text.allocator(); "DA:{line},{count}\n")?;
    text.push_str(record.as_str())
}

/// An operation that submits the text of `tracefile`.
fn submit(alloc: Global) -> anyhow::Result<Op> {
    let text = tracefile(alloc)?;
    let given = read(alloc, text.as_bytes())?;
    Ok(Op::Submit(shared(alloc, given)?))
}

/// Measures a new book. Returns the line to print: submits per second, the slowest submit in microseconds, and readings per second.
pub(crate) fn started<R: Threads + Wait + Clock + Sync>(
    rt: &R,
    alloc: Global,
    plan: PacePlan,
) -> anyhow::Result<String> {
    let start = Start::new(alloc, plan.submitters)?;
    measured::<Brand, _, Store>(rt, alloc, start, plan)
}

/// Opens the book, measures it, and returns the line to print.
fn measured<
    L: Name + Send + Sync,
    R: Threads + Wait + Clock + Sync,
    T: Table<Global, Plan: Send, Renaming: Send> + Send,
>(rt: &R, alloc: Global, start: Start, plan: PacePlan) -> anyhow::Result<String>
    requires name { start.name ≡ L.name }
    requires jobs { start.jobs ≡ L.parts }
    requires book { start.book ≡ L.book }
{
    let (book, seats) = open_book::<L, _, T>(alloc, start)?;
    let mut submitters = submitters_of(alloc, seats)?;
    let mut watchers = watchers_of(rt, alloc, &book, plan.readers)?;
    let submitting = submitters.as_mut_slice();
    let nanos = timed(rt, alloc, &book, plan, submitting, watchers.as_mut_slice())?;
    line_of(alloc, nanos, submitters.as_slice(), watchers.as_slice())
}

/// Makes a submitter for each seat.
fn submitters_of<L: Name>(alloc: Global, seats: Seats<L>) -> anyhow::Result<Vec<Submitter<L>>> {
    let mut submitters = Vec::new(alloc);
    for seat in seats.into_vec() {
        submitters.push(Submitter { seat, slowest: 0 })?;
    }
    Ok(submitters)
}

/// Makes `readers` watchers, each with a reader of the book.
fn watchers_of<L: Name, R: Wait, T: Table<Global>>(
    rt: &R,
    alloc: Global,
    book: &Shared<L, Global, T>,
    readers: u64,
) -> anyhow::Result<Vec<Watcher<L>>> {
    let mut watchers = Vec::new(alloc);
    for _ in 0..readers {
        let live = reader(rt, book)?;
        watchers.push(Watcher { live, readings: 0 })?;
    }
    Ok(watchers)
}

/// Runs all threads, and returns how many nanoseconds that took.
fn timed<
    L: Name + Send + Sync,
    R: Threads + Wait + Clock + Sync,
    T: Table<Global, Plan: Send, Renaming: Send> + Send,
>(
    rt: &R,
    alloc: Global,
    book: &Shared<L, Global, T>,
    plan: PacePlan,
    submitters: &mut [Submitter<L>],
    watchers: &mut [Watcher<L>],
) -> anyhow::Result<u128> {
    let op = submit(alloc)?;
    let begun = Instant::now(rt)?;
    run(rt, alloc, book, &op, plan.submits, submitters, watchers);
    Ok(begun.elapsed(rt)?.as_nanos())
}

/// Returns the line to print with the result of a measurement.
fn line_of<L: Name>(
    alloc: Global,
    nanos: u128,
    submitters: &[Submitter<L>],
    watchers: &[Watcher<L>],
) -> anyhow::Result<String> {
    let submits = a_second(submits_of(submitters), nanos);
    let slowest = slowest_of(submitters) / 1000;
    let readings = a_second(readings_of(watchers), nanos);
    Ok(format!(in alloc;
        "{submits} submits a second, the slowest {slowest} microseconds, {readings} readings a second"
    )?)
}

/// How many submits succeeded.
fn submits_of<L: Name>(submitters: &[Submitter<L>]) -> u64 {
    let mut submits: u64 = 0;
    for it in submitters {
        submits = submits.saturating_add(it.seat.calls());
    }
    submits
}

/// The duration of the slowest submit, in nanoseconds.
fn slowest_of<L: Name>(submitters: &[Submitter<L>]) -> u64 {
    let mut slowest: u64 = 0;
    for it in submitters {
        slowest = slowest.max(it.slowest);
    }
    slowest
}

/// How many readings were taken.
fn readings_of<L: Name>(watchers: &[Watcher<L>]) -> u64 {
    let mut readings: u64 = 0;
    for it in watchers {
        readings = readings.saturating_add(it.readings);
    }
    readings
}

/// The rate per second of something that happens `times` times in `nanos` nanoseconds.
fn a_second(times: u64, nanos: u128) -> u128 {
    u128::from(times).saturating_mul(1_000_000_000) / nanos.max(1)
}

/// Runs all threads, and waits until they have ended. The watchers read the totals until the last submitter has ended.
fn run<
    L: Name + Send + Sync,
    R: Threads + Wait + Clock + Sync,
    T: Table<Global, Plan: Send, Renaming: Send> + Send,
>(
    rt: &R,
    alloc: Global,
    book: &Shared<L, Global, T>,
    op: &Op,
    submits: u64,
    submitters: &mut [Submitter<L>],
    watchers: &mut [Watcher<L>],
) {
    let running = AtomicU64::new(submitters.len() as u64);
    let running = &running;
    thread::scope(thread::scope_env(), rt, |scope| {
        for watcher in watchers.iter_mut() {
            let _ = scope.spawn(move || watch(watcher, running));
        }
        for submitter in submitters.iter_mut() {
            let started = scope.spawn(move || {
                submit_often(rt, alloc, book, op, submits, submitter);
                running.fetch_sub(1, Ordering::SeqCst);
            });
            if started.is_err() {
                running.fetch_sub(1, Ordering::SeqCst);
            }
        }
    });
}

/// Reads the totals without a pause, until no submitter is running, and counts the readings.
fn watch<L: Name>(watcher: &mut Watcher<L>, running: &AtomicU64) {
    for _ in 0..u64::MAX {
        if running.load(Ordering::SeqCst) == 0 {
            return;
        }
        watcher.live.totals();
        watcher.readings = watcher.readings.saturating_add(1);
    }
}

/// Submits `submits` times, up to the first failure, and stores the duration of the slowest submit. The seat counts the successful
/// submits.
fn submit_often<L: Name, R: Wait + Clock, T: Table<Global>>(
    rt: &R,
    alloc: Global,
    book: &Shared<L, Global, T>,
    op: &Op,
    submits: u64,
    submitter: &mut Submitter<L>,
) {
    for _ in 0..submits {
        match submit_once(rt, alloc, book, op, &mut submitter.seat) {
            Some(nanos) => submitter.slowest = submitter.slowest.max(nanos),
            None => return,
        }
    }
}

/// Submits once, and returns the duration in nanoseconds. Returns `None` if the submit failed or the clock can't be read.
fn submit_once<L: Name, R: Wait + Clock, T: Table<Global>>(
    rt: &R,
    alloc: Global,
    book: &Shared<L, Global, T>,
    op: &Op,
    seat: &mut Seat<L>,
) -> Option<u64> {
    let begun = Instant::now(rt).ok()?;
    perform(rt, alloc, book, seat, op).ok()?;
    let taken = begun.elapsed(rt).ok()?;
    u64::try_from(taken.as_nanos()).ok()
}
