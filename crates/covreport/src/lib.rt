//! Prints the merged tracefile of a store (geninfo(1), FILES), with all files or only the files that patterns choose (lcov(1),
//! `--extract` and `--remove`). Also prints summaries of totals (lcov(1), `--summary`).
//!
//! `trace_text` returns the whole text of a tracefile. A `Printing` prints a text piece by piece to the caller's `Printer`, and its
//! `print` never allocates.
//!
//! A store implements [`Table`], so crates that use a store by this trait are not proved again if the code of the store changes.
//!
//! `chosen_totals` returns the totals of the chosen files, for a summary of only these files.
//!
//! An example, proved and run in `covuses`: the merged tracefile of the files that match a pattern, and the summary of all files.
//!
//! ```text
//! pub fn reports<T: Table<Global>>(
//!     alloc: Global,
//!     store: &T,
//!     pattern: &[u8],
//! ) -> Result<(Bytes, Bytes), PatternFault> {
//!     let mut patterns = Patterns::new(alloc);
//!     patterns.add(alloc, pattern)?;
//!     let tracefile = trace_text(alloc, store, &Choice::Extract(patterns))?;
//!     let summary = summary_text(alloc, &store.totals())?;
//!     Ok((tracefile, summary))
//! }
//! ```
#![tactic(auto)]

mod choice;
mod files;
pub mod laws;
mod noted;
mod pattern;
mod patterns;
mod printer;
mod printing;
mod summary;
mod table;
mod tracefile;

pub use choice::Choice;
pub use files::list_files;
pub use noted::Noted;
pub use pattern::matches;
pub use patterns::{MAX_PATTERN_BYTES, MAX_PATTERNS, PatternFault, Patterns};
pub use printer::Printer;
pub use printing::Printing;
pub use summary::{chosen_totals, put_tenths, summary_text, tenths, without_others};
pub use table::Table;
pub use tracefile::{PrintedFunction, most_functions_in, put_sections, trace_text};
