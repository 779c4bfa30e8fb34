//! The rows of the index that are written so far.

ghost use Rattle.covtable.specs.Totals.{AreTotals};

use covdata::Bytes;
use covtable::Totals;

/// A source file that has a page.
#[derive(Drop)]
pub(crate) struct Entry<'s> {
    /// The name of the page.
    pub(crate) page: Bytes,
    /// The source file's path.
    pub(crate) path: &'s [u8],
    /// The file's totals.
    pub(crate) totals: Totals,
    ghost are_totals: { AreTotals totals },
}

/// A directory that has a page.
#[derive(Drop)]
pub(crate) struct Linked<'s> {
    /// The name of the page.
    pub(crate) page: Bytes,
    /// The directory's path.
    pub(crate) path: &'s [u8],
    /// The totals of the directory's files.
    pub(crate) totals: Totals,
    ghost are_totals: { AreTotals totals },
}
