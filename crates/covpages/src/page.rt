//! The files of the folder, as texts.

use covhtml::{
    Directory, DirectoryIndex, IndexPage, STYLE, SourcePage, put_directory_index,
    put_directory_page, put_index_page, put_source_page,
};
use covreport::Printer;
use covworld::PrintedText;

/// A file of the folder.
#[derive(Clone, Copy)]
pub(crate) enum Page<'a> {
    /// `index.html`.
    Index(IndexPage<'a>),
    /// `index.html` if directories have pages of their own.
    Directories(DirectoryIndex<'a>),
    /// The page of a directory.
    Directory(Directory<'a>),
    /// The page of a source file.
    Source(SourcePage<'a>),
    /// `style.css`.
    Style,
}

impl<'a> PrintedText for Page<'a> {
    ghost use Rattle.covpages.specs.View.{page_text};

    ghost text = { page_text };

    fn print_to<P: Printer>(self, printer: &mut P) {
        match self {
            Page::Index(page) => put_index_page(&page, printer),
            Page::Directories(page) => put_directory_index(&page, printer),
            Page::Directory(page) => put_directory_page(&page, printer),
            Page::Source(page) => put_source_page(&page, printer),
            Page::Style => printer.put(STYLE),
        }
    }
}
