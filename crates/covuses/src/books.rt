//! A use of covbook.

ghost use Rattle.std.specs.Prelude.{◌≡◌, [], ◌∷◌, IfOk};
ghost use Rattle.covbook.specs.Op.{SubmitOp, ReportOp};
ghost use Rattle.covbook.specs.Step.{answer_of, table_of};
ghost use Rattle.covbook.specs.View.{answer_data};

use covbook::{Answer, Book, BookFault, Op, SubRef};
use covdata::Submission;
use covreport::Table;
use std::alloc::Global;

/// Returns a new book's answers to a submission, and then to a report.
pub fn answers<T: Table<Global>>(
    alloc: Global,
    submission: Submission,
) -> Result<(Answer, Answer), BookFault>
    ensures first { IfOk result (λ a. answer_data a.0 ≡ answer_of [] (SubmitOp submission)) }
    ensures second { IfOk result (λ a. answer_data a.1 ≡ answer_of (table_of (SubmitOp submission ∷ [])) ReportOp) }
{
    let mut book: Book<Global, T> = Book::new(alloc);
    let submit = Op::Submit(SubRef::of(alloc, submission)?);
    let first = book.step(alloc, 1, &submit)?;
    let second = book.step(alloc, 2, &Op::Report)?;
    Ok((first.answer, second.answer))
}
