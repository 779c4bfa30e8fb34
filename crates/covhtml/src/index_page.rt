//! Prints the index of source files.

ghost use Rattle.std.specs.Prelude.{◌≡◌, ◌++◌, flat_map, map, option_map};
ghost use Rattle.covhtml.specs.IndexPage.{begins_name as begins_name_after, date_line, directory_part, directory_rows, directory_start, file_row, index_page, name_of as name_of_path, total_row};
ghost use Rattle.covtable.specs.Totals.{AreTotals};
ghost use Rattle.covhtml.specs.PagesView.{directory_data, index_page_data, indexed_file_data};

use crate::frame::{put_head, put_heading};
use crate::markup::{DIRECTORY, FILES, FOOT, TABLE_END};
use crate::pages::{Directory, IndexPage, IndexedFile};
use crate::rates::{put_cards, put_rate, put_totals_cells};
use crate::shown::put_shown;
use covreport::Printer;
use covtable::Totals;

/// Prints the index: the title, the date if one is given, the totals, and the directories. A directory has its rate of lines hit,
/// can be opened and closed, and has a row for each of its files, with a link to the file's page and the file's totals. Its own
/// totals come last. Never allocates.
pub fn put_index_page<P: Printer>(page: &IndexPage<'_>, out: &mut P)
    ensures { P.text out.new ≡ P.text out.old ++ index_page (index_page_data page.now) }
{
    put_head(page.title, out);
    put_heading(page.title, out);
    put_date(page.date, out);
    put_cards(&page.totals, out);
    put_directories(page.directories, out);
    out.put(FOOT);
}

/// Prints the date, if one is given.
pub(crate) fn put_date<P: Printer>(date: Option<&[u8]>, out: &mut P)
    ensures { P.text out.new ≡ P.text out.old ++ date_line (option_map (λ d. d.now) date.entry) }
{
    let Some(date) = date else {
        return;
    };
    out.put(b"<p>");
    put_shown(date, out);
    out.put(b"</p>\n");
}

/// Prints the directories.
fn put_directories<P: Printer>(directories: &[Directory<'_>], out: &mut P)
    ensures { P.text out.new ≡ P.text out.old ++ flat_map directory_part (map directory_data directories.now) }
{
    for directory in directories {
        put_directory(directory, out);
    }
}

/// Prints a directory with its files.
fn put_directory<P: Printer>(directory: &Directory<'_>, out: &mut P)
    ensures { P.text out.new ≡ P.text out.old ++ directory_part (directory_data directory.now) }
{
    put_directory_start(directory, out);
    put_directory_rows(directory, out);
    out.put(TABLE_END);
    out.put(b"</details>\n");
}

/// Prints a directory up to the rows of its files.
fn put_directory_start<P: Printer>(directory: &Directory<'_>, out: &mut P)
    ensures { P.text out.new ≡ P.text out.old ++ directory_start (directory_data directory.now) }
{
    out.put(DIRECTORY);
    put_shown(directory.path, out);
    out.put(b" ");
    put_rate(directory.totals.lh, directory.totals.lf, out);
    out.put(FILES);
}

/// Prints the rows of a directory: its files, and then its totals.
fn put_directory_rows<P: Printer>(directory: &Directory<'_>, out: &mut P)
    ensures { P.text out.new ≡ P.text out.old ++ directory_rows (directory_data directory.now) }
{
    put_files(directory.files, out);
    put_total(&directory.totals, out);
}

/// Prints the row of totals.
fn put_total<P: Printer>(totals: &Totals, out: &mut P)
    requires { AreTotals totals.now }
    ensures { P.text out.new ≡ P.text out.old ++ total_row totals.now }
{
    out.put(b"<tr class=\"t\"><th scope=\"row\">Total");
    put_totals_cells(totals, out);
}

/// Prints the rows of files.
pub(crate) fn put_files<P: Printer>(files: &[IndexedFile<'_>], out: &mut P)
    ensures { P.text out.new ≡ P.text out.old ++ flat_map file_row (map indexed_file_data files.now) }
{
    for file in files {
        put_file(file, out);
    }
}

/// Prints the row of a file.
fn put_file<P: Printer>(file: &IndexedFile<'_>, out: &mut P)
    ensures { P.text out.new ≡ P.text out.old ++ file_row (indexed_file_data file.now) }
{
    out.put(b"<tr><th scope=\"row\"><a href=\"");
    put_shown(file.page, out);
    out.put(b"\">");
    put_shown(name_of(file.path), out);
    out.put(b"</a>");
    put_totals_cells(&file.totals, out);
}

/// What follows the last slash of a path, except a slash at its end. The whole path if it has no other slash.
pub fn name_of(path: &[u8]) -> &[u8]
    ensures { result.now ≡ name_of_path path.now }
{
    let mut name = path;
    let mut rest = path;
    while let Some((byte, after)) = rest.split_first() {
        rest = after;
        if begins_name(*byte, after) {
            name = after;
        }
    }
    name
}

/// Whether a name begins after `byte`, which comes right before `after`.
fn begins_name(byte: u8, after: &[u8]) -> bool
    ensures { result ≡ begins_name_after byte after.now }
{
    byte == b'/' && !after.is_empty()
}
