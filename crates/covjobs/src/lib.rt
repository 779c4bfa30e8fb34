//! A book that many jobs share, and workers that collect inputs into it.
//!
//! The shared book is covlock's, and the workers are covworkers'. This crate re-exports both. Of the book:
//!
//! - `open_book` makes a book and one `Seat` per job out of a `Start`.
//! - `Shared::perform` performs one step of the book with a seat, under the book's lock.
//! - `Shared::reader` makes a reader of the totals (`Live`), which works without the lock.
//! - `Shared::close` takes all seats back and returns the history.
//!
//! `collect` does all of this for inputs that are in memory. It opens a book, and each job parses and submits its share of the
//! inputs: a single job on the calling thread, each of several jobs in its own thread. Then `collect` performs a last operation,
//! closes the book, and calls `gather`, which checks the history against the jobs' logs. `collect_owned` also frees each input
//! after parsing. `collect_into_book` stores no history and no logs, and returns the book. Its inputs are read when their turn
//! comes, in one part or several (`LateInput`).
//!
//! This crate also re-exports covbook's operations (`Op`), logs (`JobLog`, with `Receipt`s and `Reading`s), and `gather`, which
//! checks that the logs match the closed history (`Entries`). So a user needs only this crate, and a store: the book is over any
//! `covreport::Table`. The crate `covnamed` has the calls over covstore's `Store`.
//!
//! A sketch, which no test runs:
//!
//! ```text
//! fn run<L: Name, T: Table<Global>>(rt: &impl Wait, alloc: Global, start: Start) -> Result<(), Fail>
//!     requires name { start.name ≡ L.name }
//!     requires jobs { start.jobs ≡ L.parts }
//!     requires book { start.book ≡ L.book }
//! {
//!     let (book, seats) = open_book::<L, Global, T>(alloc, start)?;
//!     let mut live = book.reader(rt)?; // for a thread that watches: live.totals()
//!     // each thread: book.perform(rt, alloc, &mut seat, &op)?
//!     match book.close(rt, seats) {
//!         Ok((entries, news)) => .., // all seats were handed in
//!         Err((book, seats, CloseFault::Missing { job })) => ..,
//!     }
//! }
//! run::<Brand, Store>(&rt, alloc, Start::new(alloc, 4)?)
//! ```
#![tactic(auto)]

mod collected;
mod input;

pub use collected::{collect, collect_owned};
pub use covworkers::{
    CollectFault, Collected, CollectedBook, Gate, Given, IntoBookFault, LateFault, LateInput,
    NoGate, Part, Refused, RefusedInput, collect_into_book,
};
// `gather` also checks a reader that isn't a job, if its readings are in a log without receipts and with a job number of no seat.
pub use covbook::{Answered, Book, BookFault, Entries, JobLog, Keep, Op, Reading, Receipt, gather};
pub use covlock::{
    CloseFault, Done, Live, MAX_JOBS, MAX_READERS, Name, News, OpenFault, ReaderFault, Seat, Seats,
    Shared, Start, open_book, open_book_keeping,
};
pub use input::Input;
