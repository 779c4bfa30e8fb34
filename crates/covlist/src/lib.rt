//! Lists the source files of a store with their totals, as a table (lcov(1), `--list`) or as JSON (RFC 8259). `summary_json` prints
//! only totals, as JSON. `matches_a_file` and `takes_a_file` say whether a pattern or a choice takes any file.
//!
//! For people, `list_table` prints a control byte in a file's name as `\x` and two digits, and a backslash twice. So each file has
//! one line, and no two names look the same. For programs, `list_json` prints a name as a string under `file` if the name is UTF-8,
//! and otherwise in hexadecimal under `file_hex`.
//!
//! An example: the table of all files, and the totals as JSON.
//!
//! ```text
//! pub fn lists(alloc: Global, store: &Store) -> Result<(Bytes, Bytes), Memory> {
//!     let table = list_table(alloc, store, &Choice::All)?;
//!     let totals = summary_json(alloc, &store.totals())?;
//!     Ok((table, totals))
//! }
//! ```
#![tactic(auto)]

mod json_text;
pub mod laws;
mod matching;
mod numbers;
mod shown;
mod table;

pub use json_text::{list_json, summary_json};
pub use matching::{matches_a_file, takes_a_file};
pub use shown::{put_shown_lines, put_shown_name};
pub use table::list_table;
