//! Why no reader could be made.
ghost use Rattle.std.specs.Prelude.{◌≡◌};
ghost use Rattle.covnews.specs.ReaderFault.{reader_fault_number};

use thiserror::Error;

/// Why no reader could be made.
#[derive(Clone, Copy, Debug, PartialEq, Eq, Error)]
pub enum ReaderFault {
    /// All places for readers are taken. May also be returned earlier, if no free place is found.
    #[error("NoPlace")]
    NoPlace = 1,
    /// An allocation failed. No call returns this error today, since making a reader never allocates.
    #[error("out of memory")]
    Memory = 2,
}

impl ReaderFault {
    /// The number of the error, from 1.
    pub fn number(self) -> u32
        ensures { result ≡ reader_fault_number self }
    {
        self as u32
    }
}
