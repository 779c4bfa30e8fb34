//! Reads tracefiles above the size limit (64 MiB) in chunks (pieces).
//!
//! A chunk is a run of whole sections: it ends with a line that begins with `end_of_record`, or at the end of the file. Each chunk
//! is read by itself, after a prefix (`front`) of up to two lines: the line of the current test's name unless that name is empty,
//! and in LCOV 2 an `FNL:` line if there was one since the last path. The chunks together are read as the whole file would be, and
//! each error has its line number in the file.
//!
//! An example: reads a chunk, or returns the chunk's error with the line number in the whole file. After a success,
//! `carried.pass(..)` goes on to the next chunk.
//!
//! ```text
//! pub fn read_piece(alloc: Global, carried: &Carried, piece: &[u8]) -> Result<Submission, ReadFault> {
//!     let mut text = carried.front(alloc)?;
//!     text.append(piece)?;
//!     match read_trace(alloc, text.get()) {
//!         Ok(submission) => Ok(submission),
//!         Err(fault) => Err(carried.moved(fault)),
//!     }
//! }
//! ```
#![tactic(auto)]

mod carried;
mod cut;
pub mod laws;

pub use carried::Carried;
pub use cut::whole_sections;
pub use laws::{
    a_block_without_sections_is_in_no_piece, pieces_are_read_as_the_whole,
    pieces_are_read_one_by_one, the_whole_is_read_in_pieces, two_parts_are_read_as_one,
};
