//! Wraps calls of other crates in functions without contracts. The tests look only at values, and their proofs are faster without
//! contracts. The functions panic on an error: one that returned early would have to drop what it owns on that way out.

use covbook::{
    Answer, Book, BookFault, Entry, GatherFault, JobLog, Op, PackedRef, Ready, Receipt, SubRef,
    TextRef,
};
use covdata::Bytes;
use covread::{read_trace, read_trace_packed};
use covreport::Table;
use covtable::Totals;
use std::alloc::Global;
use std::process::Abort;
use std::test::*;

pub(super) fn bytes_of(rt: &(impl Abort + AllocGlobal), bytes: &[u8]) -> Bytes {
    match Bytes::of(rt.alloc(), bytes) {
        Ok(copy) => copy,
        Err(_refused) => panic!(rt; "out of memory"),
    }
}

/// The answer that is this text.
pub(super) fn text_of(rt: &(impl Abort + AllocGlobal), text: &[u8]) -> Answer {
    match TextRef::of(rt.alloc(), bytes_of(rt, text)) {
        Ok(shared) => Answer::Text(shared),
        Err(_refused) => panic!(rt; "out of memory"),
    }
}

/// The `Submit` operation of the text.
pub(super) fn read(alloc: Global, text: &[u8]) -> Result<Op, Fail> {
    Ok(Op::Submit(SubRef::of(alloc, read_trace(alloc, text)?)?))
}

/// The `SubmitPacked` operation of the text.
pub(super) fn read_packed(alloc: Global, text: &[u8]) -> Result<Op, Fail> {
    let submission = read_trace_packed(alloc, text)?;
    Ok(Op::SubmitPacked(PackedRef::of(alloc, submission)?))
}

pub(super) fn step<T: Table<Global>>(
    alloc: Global,
    book: &mut Book<Global, T>,
    job: u32,
    op: &Op,
) -> Result<Receipt, BookFault> {
    book.step(alloc, job, op)
}

/// Performs a step in its two halves.
fn step_in_halves<T: Table<Global>>(
    alloc: Global,
    book: &mut Book<Global, T>,
    job: u32,
    op: &Op,
) -> Result<Receipt, BookFault> {
    let ready = book.ready(alloc, job, op)?;
    Ok(book.finish(ready))
}

/// Performs a step. For jobs from 8 on, performs it in two halves.
fn take<T: Table<Global>>(
    alloc: Global,
    book: &mut Book<Global, T>,
    job: u32,
    op: &Op,
) -> Result<Receipt, BookFault> {
    if job < 8 {
        step(alloc, book, job, op)
    } else {
        step_in_halves(alloc, book, job, op)
    }
}

/// Performs a step as `take` does, and returns its receipt.
pub(super) fn taken<T: Table<Global>>(
    rt: &(impl Abort + AllocGlobal),
    book: &mut Book<Global, T>,
    job: u32,
    op: &Op,
) -> Receipt {
    match take(rt.alloc(), book, job, op) {
        Ok(receipt) => receipt,
        Err(_fault) => panic!(rt; "a step is refused"),
    }
}

pub(super) fn ready<T: Table<Global>>(
    alloc: Global,
    book: &mut Book<Global, T>,
    job: u32,
    op: &Op,
) -> Result<Ready<Global, T::Plan, T::Renaming>, BookFault> {
    book.ready(alloc, job, op)
}

pub(super) fn entries<T: Table<Global>>(book: &Book<Global, T>) -> &[Entry] {
    book.entries()
}

pub(super) fn totals<T: Table<Global>>(book: &Book<Global, T>) -> Totals {
    book.totals()
}

pub(super) fn gathered(entries: &[Entry], logs: &[JobLog]) -> Result<(), GatherFault> {
    covbook::gather(entries, logs)
}

pub(super) fn copied_op(rt: &(impl Abort + AllocGlobal), op: &Op) -> Op {
    match op.copy(rt.alloc()) {
        Ok(copy) => copy,
        Err(_refused) => panic!(rt; "out of memory"),
    }
}

pub(super) fn copied_answer(rt: &(impl Abort + AllocGlobal), answer: &Answer) -> Answer {
    match answer.copy(rt.alloc()) {
        Ok(copy) => copy,
        Err(_refused) => panic!(rt; "out of memory"),
    }
}

pub(super) fn is_same_op(one: &Op, other: &Op) -> bool {
    one.is_same(other)
}

pub(super) fn is_same_answer(one: &Answer, other: &Answer) -> bool {
    one.is_same(other)
}
