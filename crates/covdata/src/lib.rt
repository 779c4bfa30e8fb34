//! The types of coverage data: records, items, sections and submissions (geninfo(1) of LCOV 1.x, section FILES).
//!
//! A record ([`TraceLine`]) is what one line of a tracefile says. A section ([`Sect`]) holds the items (the counts of lines,
//! functions and branches) of one test and one source file. Sections with lawful names and checksums make a [`Submission`]: the
//! content of one input. A [`ReadFault`] is the first error of an input.
//!
//! covline parses records. A [`RecordBuffer`] builds the text of one. A crate that reads no text takes its types from here, so that a change of a reader leaves its
//! proofs as they are.
#![tactic(auto)]

mod bytes;
mod checks;
mod fault;
mod item;
mod memory;
mod names;
mod point;
mod record_buffer;
mod sect;
mod submission;
mod tally;
mod trace_line;
mod version;

pub use bytes::{Bytes, append_number};
pub use fault::{MAX_BYTES, ReadFault};
pub use item::{Item, Items};
pub use memory::Memory;
pub use names::{good_checksum, good_test, is_checksum_byte};
pub use point::BranchPoint;
pub use record_buffer::RecordBuffer;
pub use sect::{Sect, Sects};
pub use submission::{BadSubmission, Submission};
pub use tally::Tally;
pub use trace_line::{LineFault, TotalKind, TraceLine};
pub use version::LcovVersion;
