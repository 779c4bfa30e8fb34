//! Stages the items of a section beside the committed values, in the section's test and in the file's index.

mod by_line;
pub(crate) mod copied;
mod counted;
pub(crate) mod fault;
mod one_item;
pub(crate) mod point_run;
pub(crate) mod section;
mod sole;
