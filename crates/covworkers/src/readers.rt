//! Whether jobs read the totals.

/// Whether jobs read the totals after each submit.
#[derive(Clone, Copy)]
pub(crate) enum Readers {
    /// Each job has a reader, as long as the book has places for readers.
    ForEachJob,
    /// No job has a reader.
    None,
}
