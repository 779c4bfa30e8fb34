//! Publishes a shared book's totals to readers that never wait.
//!
//! A `Publisher` belongs to the holder of the book's lock. The publisher first notes each new entry (`Publisher::note`). Then it
//! shows readers how many entries there are and the totals after them (`Publisher::publish`). A reader (`Live`) gets the shown
//! totals at any time, without a lock or a wait: `left_right` has two copies of what is shown.
//!
//! `News`, which `publish` returns, have the length of a published history and the totals after it. A reader that has learned news
//! never reports fewer entries than the news have, even if it wasn't shown these entries, and even after the book is closed.
//!
//! The published history is legal (covbook's `IsLegal`) and only grows at its end. So of any two published histories, one is a
//! prefix of the other. Memory holds only the history's length, its last totals and a token without bytes; the entries themselves
//! stay in the book. The contracts of `Publisher`, `News` and `Live` see the list of the entries. The book's name `L: Name` in
//! their types says which book they belong to.
//!
//! A sketch, which no test runs:
//!
//! ```text
//! fn run<L: Name>(rt: &impl Wait, alloc: Global, seed: HistorySeed, mut book: covnamed::Book) -> Result<(), Fail>
//!     requires book { seed.book ≡ L.book }
//!     requires empty { book.entries ≡ [] }
//! {
//!     let mut publisher = Publisher::<L>::new(alloc, seed, 64)?;
//!     let mut live = publisher.reader()?; // may go to another thread
//!     let ready = book.ready(alloc, 0, &Op::Summary)?;
//!     let Some(_noted) = publisher.note(ready.entry()) else {
//!         return Err(..); // nothing has changed, and dropping `ready` cancels the step
//!     };
//!     book.finish(ready);
//!     live.learn(&publisher.publish(rt));
//!     assert_eq!(live.totals().upto, 1);
//!     live.learn(&publisher.close(rt));
//!     Ok(())
//! }
//! run::<Brand>(&rt, alloc, HistorySeed::new(), covnamed::Book::new(alloc))
//! ```
#![tactic(auto)]

mod fault;
mod ghost_history;
pub mod laws;
mod live;
mod name;
mod news;
mod noted;
mod publisher;
mod snapshot;
mod snapshot_cell;

pub use fault::ReaderFault;
pub use live::Live;
pub use name::{HistorySeed, Name};
pub use news::News;
pub use publisher::Publisher;
