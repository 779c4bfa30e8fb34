//! Checks single inputs, without adding up their counts: how many sections, items and inconsistent lines an input has, and which
//! lines are skipped.
//!
//! covread or covlcov2 reads the input, so a check returns the same error as the reader. Skipped lines are no error: a tracefile
//! may have records of later versions (`FNL:`), and gcov's output has `call` lines. The summary counts the skipped lines, and shows
//! the first one. An input of skipped lines alone, such as a page of HTML, is read as an empty submission. Empty lines, and lines
//! of a kind that is known to have no counts, aren't counted as skipped.
//!
//! An example, proved and run in `covuses`: the summary line of a tracefile.
//!
//! ```text
//! pub fn check_line(alloc: Global, text: &[u8]) -> Result<Vec<u8>, ReadFault> {
//!     let summary = check_trace(alloc, text)?;
//!     let line = summary_line(alloc, &summary)?;
//!     Ok(line)
//! }
//! ```
#![tactic(auto)]

mod check;
mod format;
pub mod laws;
mod output;
mod skipped_lines;
mod start;
mod text_summary;

pub use check::{check_gcov, check_lcov2, check_trace, summary_of};
pub use format::Format;
pub use laws::{a_beginning_is_one_word, skipped_lines_are_unique};
pub use output::summary_line;
pub use text_summary::{SkippedLine, TextSummary};
