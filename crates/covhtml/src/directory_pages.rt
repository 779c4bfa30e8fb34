//! Prints pages of directories, for an index with many source files.

ghost use Rattle.std.specs.Prelude.{◌≡◌, ◌++◌, flat_map, map};
ghost use Rattle.covhtml.specs.DirectoryPages.{directory_index, directory_page, directory_row, directory_table, file_table};
ghost use Rattle.covhtml.specs.PagesView.{directory_data, directory_index_data, indexed_directory_data};

use crate::frame::{put_head, put_heading};
use crate::index_page::{put_date, put_files};
use crate::markup::{BACK, DIRECTORIES, FILE_TABLE, FOOT, TABLE_END};
use crate::pages::{Directory, DirectoryIndex, IndexedDirectory};
use crate::rates::{put_cards, put_totals_cells};
use crate::shown::put_shown;
use covreport::Printer;

/// Prints an index of directories: the title, the date if one is given, the totals, and a row for each directory, with a link to the
/// directory's page and the directory's totals. Never allocates.
pub fn put_directory_index<P: Printer>(page: &DirectoryIndex<'_>, out: &mut P)
    ensures { P.text out.new ≡ P.text out.old ++ directory_index (directory_index_data page.now) }
{
    put_head(page.title, out);
    put_heading(page.title, out);
    put_date(page.date, out);
    put_cards(&page.totals, out);
    put_directory_table(page.directories, out);
    out.put(FOOT);
}

/// Prints the table of directories.
fn put_directory_table<P: Printer>(directories: &[IndexedDirectory<'_>], out: &mut P)
    ensures { P.text out.new ≡ P.text out.old ++ directory_table (map indexed_directory_data directories.now) }
{
    out.put(DIRECTORIES);
    put_rows(directories, out);
    out.put(TABLE_END);
}

/// Prints the rows of directories.
fn put_rows<P: Printer>(directories: &[IndexedDirectory<'_>], out: &mut P)
    ensures { P.text out.new ≡ P.text out.old ++ flat_map directory_row (map indexed_directory_data directories.now) }
{
    for directory in directories {
        put_row(directory, out);
    }
}

/// Prints the row of a directory.
fn put_row<P: Printer>(directory: &IndexedDirectory<'_>, out: &mut P)
    ensures { P.text out.new ≡ P.text out.old ++ directory_row (indexed_directory_data directory.now) }
{
    out.put(b"<tr><th scope=\"row\"><a href=\"");
    put_shown(directory.page, out);
    out.put(b"\">");
    put_shown(directory.path, out);
    out.put(b"</a>");
    put_totals_cells(&directory.totals, out);
}

/// Prints the page of a directory: its totals, and a row for each of its files, with a link to the file's page and the file's
/// totals. Never allocates.
pub fn put_directory_page<P: Printer>(directory: &Directory<'_>, out: &mut P)
    ensures { P.text out.new ≡ P.text out.old ++ directory_page (directory_data directory.now) }
{
    put_head(directory.path, out);
    out.put(BACK);
    put_heading(directory.path, out);
    put_cards(&directory.totals, out);
    put_file_table(directory, out);
    out.put(FOOT);
}

/// Prints the table of a directory's files.
fn put_file_table<P: Printer>(directory: &Directory<'_>, out: &mut P)
    ensures { P.text out.new ≡ P.text out.old ++ file_table (directory_data directory.now) }
{
    out.put(FILE_TABLE);
    put_files(directory.files, out);
    out.put(TABLE_END);
}
