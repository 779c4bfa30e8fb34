//! Packed submissions: eight bytes for a line, sixteen for a branch, and more for a function, a checksum or a large number.
//!
//! [`PackedSects`] collects items and closes sections. [`PackedSubmission`] is the content of an input, like covdata's
//! `Submission`. A packed submission consists of four lists, however many sections it has: a word for each item, further numbers,
//! the bytes of all texts, and the locations of each section's names. Callers read items by index or by an iterator, as
//! [`ItemRef`]s, which borrow names and checksums. Contracts see the same sections and items as for a `Submission`.
#![tactic(auto)]

mod convert;
mod item_ref;
mod packed_items;
mod packed_sects;
mod packed_submission;
mod parts;
mod read_text;
mod same;
mod sect_iter;

pub use convert::{pack, unpack};
pub use item_ref::ItemRef;
pub use packed_items::PackedItems;
pub use packed_sects::PackedSects;
pub use packed_submission::PackedSubmission;
pub use read_text::ReadText;
pub use sect_iter::{PackedSect, PackedSectsIter};
