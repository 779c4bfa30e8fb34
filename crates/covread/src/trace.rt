//! Reads a tracefile (geninfo(1) of LCOV 1.x, section FILES).

mod functions;
pub mod laws;
mod placement_fault;
mod points;
mod read;
mod reader;
mod section;
mod settle;
mod tally;

pub use laws::each_text_has_one_outcome;
pub use placement_fault::PlacementFault;
pub use read::{fault_at, read_trace, read_trace_packed, take_branch, take_line_count};
pub use reader::{OpenSection, Reader};
