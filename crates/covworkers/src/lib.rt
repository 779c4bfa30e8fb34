//! Workers that collect inputs into a book that many jobs share (covlock).
//!
//! Each job reads its share of the inputs and submits what it read: a single job on the calling thread, each of several jobs in
//! its own thread. A [`LateInput`] is read when its turn comes, in one part or several. `collect_into_book` stores no history and
//! no logs, and returns the book. covjobs collects inputs in memory, and stores the whole history.
//!
//! This crate uses no reader, since a [`LateInput`] reads itself.
#![tactic(auto)]

mod book_fault;
mod collect_fault;
mod collected;
mod done;
mod gate;
mod given;
mod into_book;
mod late;
mod late_fault;
mod part;
mod readers;
mod refused;
mod shares;
mod stop;
mod worker;
mod workers;

pub use book_fault::IntoBookFault;
pub use collect_fault::CollectFault;
pub use collected::{Collected, collect_named};
pub use gate::{Gate, NoGate};
pub use given::Given;
pub use into_book::{CollectedBook, collect_into_book};
pub use late::LateInput;
pub use late_fault::LateFault;
pub use part::Part;
pub use refused::{Refused, RefusedInput};
