//! Reads coverage data: turns an input into a submission, or returns the input's first error.
//!
//! An input is a tracefile (geninfo(1) of LCOV 1.x, section FILES) or gcov's annotated source (gcov(1), and the GCC manual's
//! chapter on gcov). A reader passes over the input once, and copies the items, so the input can be freed after reading.
//!
//! This example, proved and run in `covuses`, reads an input of either format. It relies on the fact that gcov's output, read as a
//! tracefile, has no items.
//!
//! ```text
//! pub fn read_either(alloc: Global, test: &[u8], text: &[u8]) -> Result<Submission, ReadFault> {
//!     let submission = read_trace(alloc, text)?;
//!     if submission.items() > 0 {
//!         return Ok(submission);
//!     }
//!     read_gcov(alloc, test, text)
//! }
//! ```
#![tactic(auto)]

mod gcov;
mod lawful;
mod trace;
mod wide;

pub use covdata::{MAX_BYTES, ReadFault};
pub use gcov::{
    an_early_fault_is_told, each_gcov_text_has_one_outcome, fits_no_shape, read_gcov,
    read_gcov_packed,
};
pub use lawful::what_is_read_is_lawful;
pub use trace::{
    OpenSection, PlacementFault, Reader, each_text_has_one_outcome, fault_at, laws, read_trace,
    read_trace_packed, take_branch, take_line_count,
};
