//! Performs steps on a book, and checks their receipts and entries.

use super::words::{answer_of, op_of};
use super::wrappers::{entries, is_same_answer, is_same_op, taken, totals};
use covbook::{Answer, Book, Entry, Op, Receipt};
use covreport::Table;
use covtable::Totals;
use std::alloc::Global;
use std::process::Abort;
use std::test::*;

/// A step: its job, the words of its operation and of its answer, and how many lines are found and hit after it.
pub(super) type Step<'s> = (u32, &'s [u8], &'s [u8], u64, u64);

/// Checks the answer.
pub(super) fn check_answer(rt: &(impl Abort + AllocGlobal), answer: &Answer, words: &[u8]) {
    assert!(rt; is_same_answer(answer, &answer_of(rt, words)), "{words:?}");
}

/// Checks that the last entry has this job and operation, and that the receipt has the entry's index, operation and answer.
fn check_receipt(rt: &impl Abort, entries: &[Entry], job: u32, op: &Op, receipt: &Receipt) {
    let Some((entry, before)) = entries.split_last() else {
        panic!(rt; "no entry");
    };
    assert!(rt; before.len() as u64 == receipt.place && entry.job == job);
    assert!(rt; is_same_op(&entry.op, op) && is_same_op(&receipt.op, op));
    assert!(rt; is_same_answer(&entry.answer, &receipt.answer));
}

/// Checks how many lines are found and hit in the totals.
pub(super) fn check_lines(rt: &impl Abort, totals: &Totals, found: u64, hit: u64) {
    assert!(rt; totals.lf == found && totals.lh == hit);
}

/// Checks that the last entry has these totals.
fn check_last(rt: &impl Abort, entries: &[Entry], totals: &Totals) {
    match entries.last() {
        Some(entry) => assert!(rt; entry.after == *totals),
        None => panic!(rt; "no entry"),
    }
}

/// Checks how many lines are found and hit in the book's totals, which the last entry has too.
fn check_totals<T: Table<Global>>(rt: &impl Abort, book: &Book<Global, T>, found: u64, hit: u64) {
    let now = totals(book);
    check_lines(rt, &now, found, hit);
    check_last(rt, entries(book), &now);
}

/// Performs the operation of a step, and checks its receipt, its entry and the totals.
fn check_op<T: Table<Global>>(
    rt: &(impl Abort + AllocGlobal),
    book: &mut Book<Global, T>,
    op: &Op,
    step: Step<'_>,
) {
    let (job, _asked, answered, found, hit) = step;
    let receipt = taken(rt, book, job, op);
    check_receipt(rt, entries(book), job, op, &receipt);
    check_answer(rt, &receipt.answer, answered);
    check_totals(rt, book, found, hit);
}

/// Performs a step, and checks its receipt, its entry and the totals.
fn check_step<T: Table<Global>>(
    rt: &(impl Abort + AllocGlobal),
    book: &mut Book<Global, T>,
    step: Step<'_>,
) -> Result<(), Fail> {
    let op = op_of(rt.alloc(), step.1)?;
    check_op(rt, book, &op, step);
    Ok(())
}

/// Performs the steps, and checks each step's receipt, its entry and the totals after it.
pub(super) fn check_steps<T: Table<Global>>(
    rt: &(impl Abort + AllocGlobal),
    book: &mut Book<Global, T>,
    steps: &[Step<'_>],
) -> Result<(), Fail> {
    for step in steps {
        check_step(rt, book, *step)?;
    }
    Ok(())
}
