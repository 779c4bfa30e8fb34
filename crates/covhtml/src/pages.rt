//! What pages show.

ghost use Rattle.covtable.specs.Totals.{AreTotals};

use crate::rows::Row;
use covtable::{FunctionValue, Totals};

/// A source file in the index.
#[derive(Clone, Copy)]
pub struct IndexedFile<'a> {
    /// The name of the file's page, as `page_name` returns it.
    pub page: &'a [u8],
    /// The source file's path.
    pub path: &'a [u8],
    /// The file's totals, as `list` shows them.
    pub totals: Totals,
    ghost are_totals: { AreTotals totals },
}

/// A directory in the index.
#[derive(Clone, Copy)]
pub struct Directory<'a> {
    /// The directory's path.
    pub path: &'a [u8],
    /// The totals of the directory's files.
    pub totals: Totals,
    /// The directory's files, in the order of their rows.
    pub files: &'a [IndexedFile<'a>],
    ghost are_totals: { AreTotals totals },
}

/// The page that lists all source files.
#[derive(Clone, Copy)]
pub struct IndexPage<'a> {
    /// The title of the page.
    pub title: &'a [u8],
    /// A date that the page shows under its title, if any. Without one, the same input gives the same page on each day.
    pub date: Option<&'a [u8]>,
    /// The totals of all files.
    pub totals: Totals,
    /// The directories, in the order of the page.
    pub directories: &'a [Directory<'a>],
    ghost are_totals: { AreTotals totals },
}

/// A directory in an index of directories.
#[derive(Clone, Copy)]
pub struct IndexedDirectory<'a> {
    /// The name of the directory's page, as `directory_page_name` returns it.
    pub page: &'a [u8],
    /// The directory's path.
    pub path: &'a [u8],
    /// The totals of the directory's files.
    pub totals: Totals,
    ghost are_totals: { AreTotals totals },
}

/// The page that lists all directories, each of which has a page of its own.
#[derive(Clone, Copy)]
pub struct DirectoryIndex<'a> {
    /// The title of the page.
    pub title: &'a [u8],
    /// A date that the page shows under its title, if any.
    pub date: Option<&'a [u8]>,
    /// The totals of all files.
    pub totals: Totals,
    /// The directories, in the order of their rows.
    pub directories: &'a [IndexedDirectory<'a>],
    ghost are_totals: { AreTotals totals },
}

/// What a test has of a source file.
#[derive(Clone, Copy)]
pub struct TestTotals<'a> {
    /// The test's name.
    pub test: &'a [u8],
    /// The totals of the file's points in this test.
    pub totals: Totals,
    ghost are_totals: { AreTotals totals },
}

/// The page of a source file.
#[derive(Clone, Copy)]
pub struct SourcePage<'a> {
    /// The source file's path, which is the page's title.
    pub path: &'a [u8],
    /// The file's totals, as `list` shows them.
    pub totals: Totals,
    /// The file's functions, in the order of their rows.
    pub functions: &'a [FunctionValue<'a>],
    /// The tests that have points of the file, in the order of their rows. None are shown if the list is empty.
    pub tests: &'a [TestTotals<'a>],
    /// The lines that have points, ascending by number.
    pub rows: &'a [Row<'a>],
    /// The text of the source file. Lines that it doesn't have are shown without a text, so it may be empty.
    pub source: &'a [u8],
    ghost are_totals: { AreTotals totals },
}
