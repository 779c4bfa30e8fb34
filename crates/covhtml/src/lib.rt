//! The text of pages that show coverage in a browser: an index of source files, and a page for each source file. Pages are HTML
//! without scripts, and load nothing but the style sheet beside them.
//!
//! `put_index_page` and `put_source_page` print a page piece by piece to the caller's `Printer`, and never allocate. A `PointsTable`
//! gives the points of a file in each of its tests, `joined` adds them up, and `rows_of` sorts them by line. `page_name` returns the
//! name of a source file's page. `STYLE` is the text of `style.css`. No function opens a file.
//!
//! Texts from outside, such as paths and source lines, can't end the element or the attribute that they stand in: `put_shown` says
//! how they are printed.
//!
//! An example: the name and the text of a source file's page.
//!
//! ```text
//! pub fn source_page<P: Printer>(alloc: Global, page: &SourcePage, printer: &mut P) -> Result<Bytes, Memory> {
//!     let name = page_name(alloc, 1, page.path)?;
//!     put_source_page(page, printer);
//!     Ok(name)
//! }
//! ```
#![tactic(auto)]

mod cells;
mod directory_pages;
mod frame;
mod index_page;
pub mod laws;
mod markup;
mod names;
mod numbers;
mod over_tests;
mod pages;
mod points;
mod rates;
mod rows;
mod section_rows;
mod shown;
mod source_page;
mod source_rows;
mod style_sheet;

pub use directory_pages::{put_directory_index, put_directory_page};
pub use index_page::{name_of, put_index_page};
pub use names::{directory_page_name, page_name};
pub use over_tests::{joined, tests_of};
pub use pages::{
    Directory, DirectoryIndex, IndexPage, IndexedDirectory, IndexedFile, SourcePage, TestTotals,
};
pub use points::{Points, PointsTable, SectionPoints, section_points};
pub use rows::Row;
pub use section_rows::rows_of;
pub use shown::put_shown;
pub use source_page::put_source_page;
pub use style_sheet::STYLE;
