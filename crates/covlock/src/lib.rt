//! One book that many threads share under a lock.
//!
//! `open_book` makes a book and one `Seat` per job out of a `Start`. With a seat, a thread performs steps of the book
//! (`Shared::perform`), each under the book's lock. `Shared::close` takes all seats back and returns the history, which has each
//! successful call exactly once, with its operation and answer.
//!
//! `open_book_keeping` makes a book that stores less of its history (covbook's `Keep`), and `Shared::close_book` returns the book
//! itself. Each contract speaks of the whole history, whatever is stored.
//!
//! A reader of the totals (`Shared::reader`, `Live`) needs no lock and never waits. `perform` and `close` return news of the
//! history. After a reader learns news (`Live::learn`), it reports at least the entries of the news.
//!
//! A function that uses a book is generic in the book's name `L: Name`. Its caller chooses `Brand` for `L`, and states in an
//! `Invariants.antt` that `Brand` is the name of the start (`docs/ARCHITECTURE.md` has the lines). So the seats, news and readers
//! of two books have different types if the books are opened in two such functions. Two books that one function opens at `Brand`
//! have the same types: then the compiler accepts a seat of one book for the other book, and only the prover rejects such a call.
//!
//! covjobs re-exports all of this, so a user of covjobs lists no other crate. The page of covjobs has a sketch.
#![tactic(auto)]

mod latest;
mod seat;
mod seat_list;
mod shared;
mod shared_state;
mod start;

pub use covbook::Reading;
pub use covnews::{Live, Name, News, ReaderFault};
pub use seat::Seat;
pub use seat_list::Seats;
pub use shared::{CloseFault, Done, MAX_READERS, Shared, open_book, open_book_keeping};
pub use start::{MAX_JOBS, OpenFault, Start};
