//! Checks that a single thread gets the same answers as the jobs.

use covbook::{Answer, Book, Entry, JobLog, Op, SubRef};
use covread::read_trace;
use covreport::Table;
use covtable::Totals;
use std::alloc::Global;

/// Checks that a single thread with its own book gets the same answers and totals for the history's operations in order. The
/// thread's book must also print the report that job 0 got last. An empty book that gets this report as a submission must then have
/// the same totals and print the same report.
pub(crate) fn check_alone<T: Table<Global>>(
    alloc: Global,
    entries: &[Entry],
    logs: &[JobLog],
) -> anyhow::Result<()> {
    let mut book: Book<Global, T> = Book::new(alloc);
    for entry in entries {
        check_step(alloc, &mut book, entry)?;
    }
    match last_text(logs) {
        Some(report) => check_report(alloc, &mut book, report),
        None => Err(anyhow::Error::msg("the last call wasn't answered by a report")),
    }
}

/// Performs the entry's operation on `book`, and checks the book's answer and totals against the entry.
fn check_step<T: Table<Global>>(
    alloc: Global,
    book: &mut Book<Global, T>,
    entry: &Entry,
) -> anyhow::Result<()> {
    let receipt = book.step(alloc, entry.job, &entry.op)?;
    let place = receipt.place;
    if !receipt.answer.is_same(&entry.answer) {
        return Err(anyhow::anyhow!("one thread is answered otherwise at place {place}"));
    }
    if book.totals() != entry.after {
        return Err(anyhow::anyhow!("one thread has other totals at place {place}"));
    }
    Ok(())
}

/// The text of the answer to the first job's last call. Returns `None` if the answer isn't a text.
fn last_text(logs: &[JobLog]) -> Option<&[u8]> {
    let receipt = logs.first()?.receipts.get().last()?;
    text_of(&receipt.answer)
}

/// The answer's text. Returns `None` if the answer isn't a text.
fn text_of(answer: &Answer) -> Option<&[u8]> {
    match answer {
        Answer::Text(text) => Some(text.get().get()),
        _ => None,
    }
}

/// Checks that the book prints `report`, and that an empty book does so too, with the same totals, after `report` is submitted.
fn check_report<T: Table<Global>>(
    alloc: Global,
    book: &mut Book<Global, T>,
    report: &[u8],
) -> anyhow::Result<()> {
    let totals = book.totals();
    check_printed(alloc, book, report, totals)?;
    let mut back: Book<Global, T> = Book::new(alloc);
    let submission = SubRef::of(alloc, read_trace(alloc, report)?)?;
    back.step(alloc, 0, &Op::Submit(submission))?;
    check_printed(alloc, &mut back, report, totals)
}

/// Checks that the book prints this report and has these totals.
fn check_printed<T: Table<Global>>(
    alloc: Global,
    book: &mut Book<Global, T>,
    report: &[u8],
    totals: Totals,
) -> anyhow::Result<()> {
    let printed = book.step(alloc, 0, &Op::Report)?;
    if text_of(&printed.answer) != Some(report) {
        return Err(anyhow::Error::msg("another report"));
    }
    if book.totals() != totals {
        return Err(anyhow::Error::msg("other totals of a report"));
    }
    Ok(())
}
