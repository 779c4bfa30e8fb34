//! A session of the coverage collector: it reads commands and writes the answers of one book.
//!
//! `session` reads commands from a source, and writes the answers to a sink (covstream). `program` runs a session as a program
//! does, with an exit status and a line about an error. `laws` has theorems about all sessions. Other callers get the lines about
//! an error, a rejected text and a clash from `line_of`, `refused_line` and `clash_line`, and an error's exit status from
//! `status_of`.
//!
//! An example, proved and run in `covuses`: a function that returns the answers of a session to these commands. `Kept` is the
//! caller's `Sink`, which stores all bytes that it takes.
//!
//! ```text
//! pub fn answers_to(alloc: Global, commands: &[u8]) -> Result<Vec<u8>, SessionFault> {
//!     let mut source = FromRead::new(commands);
//!     let mut sink = Kept {
//!         text: Vec::new(alloc),
//!         failed: 0,
//!     };
//!     session(alloc, &mut source, &mut sink)?;
//!     Ok(sink.text)
//! }
//! ```
#![tactic(auto)]

pub mod laws;
mod program;
pub mod session;

pub use program::{line_of, run_session, status_of};
pub use session::{SessionFault, clash_line, put_bytes, refused_line};
