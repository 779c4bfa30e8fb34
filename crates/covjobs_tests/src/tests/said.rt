//! Writes receipts, entries and answers as text, and compares the text.

use super::check_bytes;
use covbook::{Answer, Answered, Entry, JobLog, Op, Receipt};
use std::alloc::AllocError;
use std::process::Abort;
use std::test::*;

/// Appends `piece`.
fn put(rt: &impl Abort, text: &mut Vec<u8>, piece: &[u8]) {
    if text.extend_from_slice(piece).is_err() {
        panic!(rt; "out of memory");
    }
}

/// Appends a number and a space.
fn put_number(rt: &impl Abort, text: &mut Vec<u8>, number: u64) {
    let decimal: Result<String, AllocError> = format!(in *text.allocator(); "{number} ");
    match decimal {
        Ok(decimal) => put(rt, text, decimal.as_bytes()),
        Err(_refused) => panic!(rt; "out of memory"),
    }
}

/// Appends `word` and a number.
fn put_counted(rt: &impl Abort, text: &mut Vec<u8>, word: &[u8], number: u64) {
    put(rt, text, word);
    put_number(rt, text, number);
}

/// Appends the word `accepted` and the numbers of an accepted submission.
fn put_accepted(rt: &impl Abort, text: &mut Vec<u8>, number: u64, items: u64, odd: u64) {
    put_counted(rt, text, b"accepted ", number);
    put_number(rt, text, items);
    put_number(rt, text, odd);
}

/// The name of the operation.
fn op_word(op: &Op) -> &'static [u8] {
    match op {
        Op::Submit(_) | Op::SubmitPacked(_) => b"submit: ",
        Op::DropTest(_) => b"drop: ",
        Op::Rename { .. } => b"rename: ",
        Op::Report => b"report: ",
        Op::Extract(_) => b"extract: ",
        Op::Remove(_) => b"remove: ",
        Op::Summary => b"summary: ",
    }
}

/// Appends the answer with its numbers or its text. For a clash, appends only the word `clash` and the line.
fn put_answer(rt: &impl Abort, text: &mut Vec<u8>, answer: &Answer) {
    match answer {
        Answer::Accepted { number, items, odd } => put_accepted(rt, text, *number, *items, *odd),
        Answer::Clash { line, .. } => put_counted(rt, text, b"clash ", *line),
        Answer::Dropped { sections } => put_counted(rt, text, b"dropped ", *sections),
        Answer::Renamed { sections } => put_counted(rt, text, b"renamed ", *sections),
        Answer::NoSuchTest => put(rt, text, b"no such test"),
        Answer::Text(printed) => put(rt, text, printed.get().get()),
    }
}

/// Appends the number, the operation, the answer and a line feed.
fn put_said(rt: &impl Abort, text: &mut Vec<u8>, number: u64, op: &Op, answer: &Answer) {
    put_number(rt, text, number);
    put(rt, text, op_word(op));
    put_answer(rt, text, answer);
    put(rt, text, b"\n");
}

/// Appends the place, the operation and the answer of each receipt.
fn put_receipts(rt: &impl Abort, text: &mut Vec<u8>, receipts: &[Receipt]) {
    for receipt in receipts {
        put_said(rt, text, receipt.place, &receipt.op, &receipt.answer);
    }
}

/// Checks the text of all receipts, log by log.
pub(super) fn check_receipts(rt: &(impl Abort + AllocGlobal), logs: &[JobLog], wanted: &[u8]) {
    let mut text = Vec::new(rt.alloc());
    for log in logs {
        put_receipts(rt, &mut text, log.receipts.get());
    }
    check_bytes(rt, text.as_slice(), wanted);
}

/// Checks the text of all entries: of each the job, the operation and the answer.
pub(super) fn check_entries(rt: &(impl Abort + AllocGlobal), entries: &[Entry], wanted: &[u8]) {
    let mut text = Vec::new(rt.alloc());
    for entry in entries {
        put_said(
            rt,
            &mut text,
            u64::from(entry.job),
            &entry.op,
            &entry.answer,
        );
    }
    check_bytes(rt, text.as_slice(), wanted);
}

/// Checks the text of all answers, with a line feed after each.
pub(super) fn check_answers(rt: &(impl Abort + AllocGlobal), kept: &[Answered], wanted: &[u8]) {
    let mut text = Vec::new(rt.alloc());
    for answered in kept {
        put_answer(rt, &mut text, &answered.answer);
        put(rt, &mut text, b"\n");
    }
    check_bytes(rt, text.as_slice(), wanted);
}
