//! The book of one collector: a table of counts, and the history of its operations with their answers.
//!
//! An `Op` is an operation on the table: add a submission, drop or rename a test, or print a text. `Book::step` answers an
//! operation, appends an entry for it to the history, and returns to the calling job a `Receipt` with the entry's index and answer.
//! The history is always legal: running its operations from an empty table yields the same answers.
//!
//! A step can also be taken in two halves, with other work between them. `Book::ready` does everything that can fail, and returns a
//! `Ready` with the totals after the step (`Ready::after`). `Book::finish` does the rest, and never allocates.
//!
//! Each job that shares a book stores its receipts and its readings of the totals in a `JobLog`. `gather` checks that the history
//! is a merge of these logs and that each reading has the right totals. If not, `gather` returns the first error.
//!
//! A book works over any store that implements `covreport::Table`. The crate `covnamed` has the book over covstore's `Store`.
//!
//! A book stores its whole history by default. `Book::keeping` makes a book that stores only the answers (`Answered`), or nothing
//! (`Snapshot<Entry>`). The rest of each entry then exists only in proofs. The contracts of `Book` always describe whole entries,
//! so they are the same for all books.
//!
//! An example over any table, proved and run in `covuses`: job 1 submits, then job 2 asks for a report. The first answer is
//! `Answer::Accepted` or `Answer::Clash`, the second is `Answer::Text`.
//!
//! ```text
//! pub fn answers<T: Table<Global>>(
//!     alloc: Global,
//!     submission: Submission,
//! ) -> Result<(Answer, Answer), BookFault> {
//!     let mut book: Book<Global, T> = Book::new(alloc);
//!     let submit = Op::Submit(SubRef::of(alloc, submission)?);
//!     let first = book.step(alloc, 1, &submit)?;
//!     let second = book.step(alloc, 2, &Op::Report)?;
//!     Ok((first.answer, second.answer))
//! }
//! ```
#![tactic(auto)]

mod book;
mod entry;
mod gather_fault;
mod gathering;
mod history;
mod keep;
pub mod laws;
mod log;
mod op;
mod places;
mod reading;
mod ready;
mod shared;
mod submitted;

pub use book::{Book, BookFault};
pub use entry::{Entries, Entry, MAX_ENTRIES, Receipt, Receipts};
pub use gather_fault::GatherFault;
pub use gathering::gather;
pub use keep::{Answered, Keep};
pub use log::{JobLog, Logs};
pub use op::{Answer, Op};
pub use reading::{Reading, Readings};
pub use ready::Ready;
pub use shared::{PackedRef, SubRef, TextRef};
