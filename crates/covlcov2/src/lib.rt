//! Reads tracefiles of LCOV 2 (geninfo(1) of LCOV 2.x, TRACEFILE FORMAT): turns an input into a submission, or returns the input's
//! first error.
//!
//! Each line is first parsed by itself, and then translated into records of version 1 for covread's reader: an `FNA:` line into the
//! start line and the count of its function, a branch with an expression into a branch with a number.
//!
//! An example, proved and run in `covuses`: the number of items of a tracefile of LCOV 2.
//!
//! ```text
//! pub fn items_of_lcov2(alloc: Global, text: &[u8]) -> Result<u64, ReadFault> {
//!     let submission = read_lcov2(alloc, text)?;
//!     Ok(submission.items())
//! }
//! ```
#![tactic(auto)]

mod indexes;
mod laws;
mod line;
mod marked;
mod numbers;
mod read;
mod read_line;
mod reader;
mod take_fault;

pub use laws::{
    each_lcov2_line_has_one_meaning, each_lcov2_text_has_one_outcome,
    what_is_read_as_lcov2_is_lawful,
};
pub use line::Lcov2Line;
pub use read::{read_lcov2, read_lcov2_packed};
pub use read_line::read_lcov2_line;
