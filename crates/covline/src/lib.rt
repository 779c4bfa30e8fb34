//! Lines of lcov tracefiles (geninfo(1) of LCOV 1.x, section FILES): reads and prints the record of a line.
//!
//! The crate cuts a text into lines and parses each line separately. A printed record parses back to the same record. The types of
//! records, items, sections and submissions are covdata's. This crate re-exports them.
//!
//! An example, proved and run in `covuses`, prints the `DA:` lines of a tracefile again. `PrintFault` is the caller's own error
//! type, made from a `LineFault` or from `Memory`.
//!
//! ```text
//! pub fn counted_lines(alloc: Global, text: &[u8]) -> Result<Bytes, PrintFault> {
//!     let mut printed = Bytes::new(alloc);
//!     for line in lines(text) {
//!         let record = read_line(line)?;
//!         if let TraceLine::Line { .. } = record {
//!             put_line(&record, &mut printed)?;
//!         }
//!     }
//!     Ok(printed)
//! }
//! ```
#![tactic(auto)]

pub mod fields;
mod iter;
pub mod laws;
mod print;
mod reader;
mod text_lines;

pub use covdata::{
    BadSubmission, Bytes, Item, Items, LineFault, Memory, Sect, Sects, Submission, TotalKind,
    TraceLine, good_test,
};
pub use iter::Lines;
pub use laws::{each_line_has_one_meaning, lines_are_the_text};
pub use print::put_line;
pub use reader::{BranchLine, LineCount, read_line, strip_key, try_branch_line, try_line_count};
pub use text_lines::{first_line, lines, without_returns};
