//! One round of a soak, with a shared book of its own.

ghost use Rattle.std.specs.Prelude.{◌≡◌};

use crate::alone::check_alone;
use crate::job::Job;
use covbook::{Entries, JobLog, Logs, Op, gather};
use covjobs::{Live, Name, News, Seat, Seats, Shared, Start, open_book};
use covreport::Table;
use std::alloc::Global;
use std::sync::Wait;
use std::thread;
use std::thread::Threads;

/// The results of all jobs, when all have ended.
#[derive(Drop)]
struct HandedIn<L: Name> {
    seats: Seats<L>,
    logs: Logs,
    lives: Vec<Live<L>>,
}

/// Runs the round with this seed. Each job makes `calls` random calls, and then the first job asks for the report. Checks the
/// history against the jobs' logs, and against the answers of a single thread. Returns the number of calls.
pub(crate) fn soaked<
    L: Name + Send + Sync,
    R: Threads + Wait + Sync,
    T: Table<Global, Plan: Send, Renaming: Send> + Send,
>(rt: &R, alloc: Global, start: Start, calls: u64, seed: u64) -> anyhow::Result<u64>
    requires name { start.name ≡ L.name }
    requires jobs { start.jobs ≡ L.parts }
    requires book { start.book ≡ L.book }
{
    let (book, seats) = open_book::<L, _, T>(alloc, start)?;
    let handed = worked(rt, alloc, &book, seats, calls, seed)?;
    let wanted = (handed.logs.get().len() as u64)
        .saturating_mul(calls)
        .saturating_add(1);
    let made = calls_of(handed.seats.get());
    if made != wanted {
        return Err(anyhow::Error::msg("another number of calls"));
    }
    let (entries, news) = closed(rt, book, handed.seats)?;
    check_news(&entries, &news, handed.lives, made)?;
    if let Err(fault) = gather(entries.get(), handed.logs.get()) {
        return Err(anyhow::anyhow!("not gathered: {fault:?}"));
    }
    check_alone::<T>(alloc, entries.get(), handed.logs.get())?;
    Ok(made)
}

/// Lets all jobs make their random calls at the same time. Then lets the first job ask for the report. Returns the jobs' results.
fn worked<
    L: Name + Send + Sync,
    R: Threads + Wait + Sync,
    T: Table<Global, Plan: Send, Renaming: Send> + Send,
>(
    rt: &R,
    alloc: Global,
    book: &Shared<L, Global, T>,
    seats: Seats<L>,
    calls: u64,
    seed: u64,
) -> anyhow::Result<HandedIn<L>> {
    let mut jobs = Vec::new(alloc);
    for seat in seats.into_vec() {
        let live = book.reader(rt)?;
        jobs.push(Job::new(alloc, seat, live, seed))?;
    }
    work_at_once(rt, alloc, book, jobs.as_mut_slice(), calls);
    if let Some(first) = jobs.first_mut() {
        first.ask(rt, alloc, book, &Op::Report)?;
    }
    hand_in(alloc, jobs)
}

/// Lets each job make its random calls in a thread of its own, and waits until all have ended.
fn work_at_once<
    L: Name + Send + Sync,
    R: Threads + Wait + Sync,
    T: Table<Global, Plan: Send, Renaming: Send> + Send,
>(rt: &R, alloc: Global, book: &Shared<L, Global, T>, jobs: &mut [Job<L>], calls: u64) {
    thread::scope(thread::scope_env(), rt, |scope| {
        for job in jobs.iter_mut() {
            // If a thread can't be started, `ended` of the thread's job stays an error.
            let _ = scope.spawn(move || job.work(rt, alloc, book, calls));
        }
    });
}

/// The results of the jobs, if all of them ended well.
fn hand_in<L: Name>(alloc: Global, jobs: Vec<Job<L>>) -> anyhow::Result<HandedIn<L>> {
    let mut seats = Seats::new(alloc);
    let mut logs = Logs::new(alloc);
    let mut lives = Vec::new(alloc);
    for job in jobs {
        let (seat, log, live) = job.into_parts()?;
        seats.push(seat)?;
        logs.push(log)?;
        lives.push(live)?;
    }
    Ok(HandedIn { seats, logs, lives })
}

/// How many calls of these seats succeeded.
fn calls_of<L: Name>(seats: &[Seat<L>]) -> u64 {
    let mut calls: u64 = 0;
    for seat in seats {
        calls = calls.saturating_add(seat.calls());
    }
    calls
}

/// Closes the book, and returns its history and news of this history.
fn closed<L: Name, R: Wait, T: Table<Global>>(
    rt: &R,
    book: Shared<L, Global, T>,
    seats: Seats<L>,
) -> anyhow::Result<(Entries, News<L>)> {
    match book.close(rt, seats) {
        Ok(closed) => Ok(closed),
        Err((_book, _seats, fault)) => Err(fault.into()),
    }
}

/// Checks that the history has one entry per call, that the news cover all entries, and that each reader that learns the news then
/// reports their totals.
fn check_news<L: Name>(
    entries: &Entries,
    news: &News<L>,
    lives: Vec<Live<L>>,
    made: u64,
) -> anyhow::Result<()> {
    let last = news.reading();
    if entries.get().len() as u64 != made || last.upto != made {
        return Err(anyhow::Error::msg("another number of entries than of calls"));
    }
    for mut live in lives {
        live.learn(news);
        if live.totals() != last {
            return Err(anyhow::Error::msg("a reading behind the end differs"));
        }
    }
    Ok(())
}
