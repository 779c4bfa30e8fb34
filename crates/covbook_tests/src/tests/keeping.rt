//! A book that stores only the answers of its history. Sessions have a book that stores nothing of it, and the other tests here one
//! that stores all of it.

use super::steps::check_answer;
use super::words::op_of;
use covbook::{Answered, Book, Op};
use covreport::Table;
use covrows::Rows;
use std::alloc::Global;
use std::process::Abort;
use std::test::*;

const REPORT: &[u8] = b"TN:t\nSF:/a.c\nDA:7,1,k\nLF:1\nLH:1\nend_of_record\n";

/// Operations with their answers. The second submission clashes with the first one.
const STEPS: &[(&[u8], &[u8])] = &[
    (b"submit DA:7,1,k", b"a110"),
    (b"report", REPORT),
    (b"submit DA:7,1,l", b"c7kl"),
];

/// Performs a step, and checks its answer.
fn check_step<T: Table<Global>>(
    rt: &(impl Abort + AllocGlobal),
    book: &mut Book<Global, T, Answered>,
    asked: &[u8],
    answered: &[u8],
) -> Result<(), Fail> {
    let op = op_of(rt.alloc(), asked)?;
    match book.step(rt.alloc(), 3, &op) {
        Ok(receipt) => check_answer(rt, &receipt.answer, answered),
        Err(_fault) => panic!(rt; "a step is refused"),
    }
    Ok(())
}

/// Checks the report that the book prints without a step.
fn check_report<T: Table<Global>>(
    rt: &(impl Abort + AllocGlobal),
    book: &Book<Global, T, Answered>,
) {
    match book.text_of(rt.alloc(), &Op::Report) {
        Ok(text) => assert!(rt; text.get() == REPORT),
        Err(_refused) => panic!(rt; "no memory for the report"),
    }
}

/// Checks the stored answers. As many answers are stored as the book has entries.
fn check_kept<T: Table<Global>>(rt: &(impl Abort + AllocGlobal), book: &Book<Global, T, Answered>) {
    assert!(rt; book.kept().len() == STEPS.len() && book.len() == 3);
    for (kept, (_asked, answered)) in book.kept().iter().zip(STEPS.iter()) {
        check_answer(rt, &kept.answer, answered);
    }
}

/// Performs `STEPS` in a new book that stores only the answers, and checks its report and the stored answers.
fn check_keeping<T: Table<Global>>(rt: &(impl Abort + AllocGlobal)) -> Result<(), Fail> {
    let mut book: Book<Global, T, Answered> = Book::keeping(rt.alloc());
    for (asked, answered) in STEPS {
        check_step(rt, &mut book, asked, answered)?;
    }
    check_report(rt, &book);
    check_kept(rt, &book);
    Ok(())
}

#[test]
fn a_book_that_keeps_answers(rt: HostRuntime) -> Result<(), Fail> {
    check_keeping::<Rows>(&rt)
}
