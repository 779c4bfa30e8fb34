//! Shows on a terminal how much of a call's files is read.
//!
//! [`ShowsProgress`] is a folder over another one. It counts the files that are opened and the bytes that are read. While a call reads,
//! a thread of its own writes one line to the terminal, at most five times a second, and the line is erased when the call has read all.
//! So a terminal that is stopped or slow delays no reading. Nothing is written where standard error is no terminal.
//!
//! The thread starts with the folder and sleeps until a call reads, since Rattle proves no thread that a trait's method starts.
//!
//! No contract speaks of the line. What contracts say of the folder is what they say of the one below.
//!
//! A sketch, which no test runs:
//!
//! ```text
//! let folder = ShowsProgress::new(FromFiles::new(&rt), rt, rt.stderr());
//! folder.begin_reading(names);
//! let file = folder.open("a.info")?;
//! ..
//! folder.end_reading();
//! ```
#![tactic(auto)]

mod counted;
mod counts;
mod line;
mod showing;
mod shows;

pub use counted::Counted;
pub use shows::ShowsProgress;
