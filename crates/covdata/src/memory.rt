//! The error of functions that can fail only by running out of memory.

use std::alloc::{AllocError, AllocFailed};
use thiserror::Error;

/// An allocation failed: out of memory.
#[derive(Clone, Copy, Debug, PartialEq, Eq, Error)]
#[error("out of memory")]
pub struct Memory;

impl From<AllocError> for Memory {
    fn from(_refused: AllocError) -> Memory {
        Memory
    }
}

impl<T: Drop> From<AllocFailed<T>> for Memory {
    fn from(_refused: AllocFailed<T>) -> Memory {
        Memory
    }
}
