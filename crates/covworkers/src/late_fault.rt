//! Why the next part of an input couldn't be read.

use covdata::ReadFault;
use std::fmt::Display;
use thiserror::Error;

/// Why the next part of an input couldn't be read. `F` is the error of a rejected input.
#[derive(Clone, Copy, Debug, PartialEq, Eq, Error)]
#[error_bound(F: Display)]
pub enum LateFault<F = ReadFault> {
    /// The input is invalid. A `ReadFault` has the line number.
    #[error("{0}")]
    Refused(F),
    /// The input can't be read.
    #[error("can't be read")]
    Unreadable,
    /// An allocation failed.
    #[error("out of memory")]
    Memory,
}
