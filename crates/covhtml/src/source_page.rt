//! Prints the page of a source file.

ghost use Rattle.std.specs.Prelude.{◌≡◌, ◌++◌, flat_map, map};
ghost use Rattle.covtable.specs.ValuesView.{function_data};
ghost use Rattle.covhtml.specs.PagesView.{source_page_data, test_totals_data};
ghost use Rattle.covhtml.specs.RowView.{row_data};
ghost use Rattle.covhtml.specs.SourcePage.{function_row, function_table, line_table, missed_links, source_front, source_page, tables, test_name, test_row, test_table};

use crate::cells::{put_count_cell, put_line_link};
use crate::frame::{put_head, put_heading};
use crate::markup::{BACK, FOOT, FUNCTIONS, LINES, TABLE_END, TESTS};
use crate::pages::{SourcePage, TestTotals};
use crate::rates::{put_cards, put_totals_cells};
use crate::rows::{Row, first_missed, last_missed};
use crate::shown::put_shown;
use crate::source_rows::{put_row_zero, put_rows};
use covreport::Printer;
use covtable::FunctionValue;

/// Prints the page of a source file: its totals, its functions, its tests, and a row for each line. A row has the line's number, which is an
/// anchor (`#L12`), its count, how many of its branches were taken, and its text. Counts above 99999 are shortened, and their
/// titles have all digits. Lines that were never run are linked from one to the next.
///
/// A line with points that the source doesn't have is shown without a text. Never allocates.
pub fn put_source_page<P: Printer>(page: &SourcePage<'_>, out: &mut P)
    ensures { P.text out.new ≡ P.text out.old ++ source_page (source_page_data page.now) }
{
    put_front(page, out);
    put_line_table(page.rows, page.source, out);
    out.put(FOOT);
}

/// Prints what stands above the table of lines.
fn put_front<P: Printer>(page: &SourcePage<'_>, out: &mut P)
    ensures { P.text out.new ≡ P.text out.old ++ source_front (source_page_data page.now) }
{
    put_head(page.path, out);
    out.put(BACK);
    put_heading(page.path, out);
    put_cards(&page.totals, out);
    put_tables(page, out);
    put_missed_links(first_missed(page.rows), last_missed(page.rows), out);
}

/// Prints the tables of functions and of tests.
fn put_tables<P: Printer>(page: &SourcePage<'_>, out: &mut P)
    ensures { P.text out.new ≡ P.text out.old ++ tables (source_page_data page.now) }
{
    put_function_table(page.functions, out);
    put_test_table(page.tests, out);
}

/// Prints the table of tests, if there are tests.
fn put_test_table<P: Printer>(tests: &[TestTotals<'_>], out: &mut P)
    ensures { P.text out.new ≡ P.text out.old ++ test_table (map test_totals_data tests.now) }
{
    if tests.is_empty() {
        return;
    }
    out.put(TESTS);
    put_test_rows(tests, out);
    out.put(TABLE_END);
    out.put(b"</details>\n");
}

/// Prints the rows of tests.
fn put_test_rows<P: Printer>(tests: &[TestTotals<'_>], out: &mut P)
    ensures { P.text out.new ≡ P.text out.old ++ flat_map test_row (map test_totals_data tests.now) }
{
    for test in tests {
        put_test_row(test, out);
    }
}

/// Prints the row of a test.
fn put_test_row<P: Printer>(test: &TestTotals<'_>, out: &mut P)
    ensures { P.text out.new ≡ P.text out.old ++ test_row (test_totals_data test.now) }
{
    out.put(b"<tr><th scope=\"row\">");
    put_test_name(test.test, out);
    put_totals_cells(&test.totals, out);
}

/// Prints the name of a test, which may be empty.
fn put_test_name<P: Printer>(name: &[u8], out: &mut P)
    ensures { P.text out.new ≡ P.text out.old ++ test_name name.now }
{
    if name.is_empty() {
        out.put(b"<i>no name</i>");
    } else {
        put_shown(name, out);
    }
}

/// Prints the table of functions, if there are functions.
fn put_function_table<P: Printer>(functions: &[FunctionValue<'_>], out: &mut P)
    ensures { P.text out.new ≡ P.text out.old ++ function_table (map function_data functions.now) }
{
    if functions.is_empty() {
        return;
    }
    out.put(FUNCTIONS);
    put_function_rows(functions, out);
    out.put(TABLE_END);
    out.put(b"</details>\n");
}

/// Prints the rows of functions.
fn put_function_rows<P: Printer>(functions: &[FunctionValue<'_>], out: &mut P)
    ensures { P.text out.new ≡ P.text out.old ++ flat_map function_row (map function_data functions.now) }
{
    for function in functions {
        put_function_row(function, out);
    }
}

/// Prints the row of a function.
fn put_function_row<P: Printer>(function: &FunctionValue<'_>, out: &mut P)
    ensures { P.text out.new ≡ P.text out.old ++ function_row (function_data function.now) }
{
    out.put(b"<tr><td>");
    put_shown(function.name, out);
    out.put(b"<td>");
    put_line_link(function.line, out);
    put_count_cell(function.count, out);
    out.put(b"\n");
}

/// Prints links to the first and the last line that was never run.
fn put_missed_links<P: Printer>(first: Option<u64>, last: Option<u64>, out: &mut P)
    ensures { P.text out.new ≡ P.text out.old ++ missed_links first last }
{
    let Some(first) = first else {
        return;
    };
    let Some(last) = last else {
        return;
    };
    out.put(b"<p>Not run: first line ");
    put_line_link(first, out);
    out.put(b", last line ");
    put_line_link(last, out);
    out.put(b"</p>\n");
}

/// Prints the table of lines.
fn put_line_table<P: Printer>(rows: &[Row<'_>], source: &[u8], out: &mut P)
    ensures { P.text out.new ≡ P.text out.old ++ line_table (map row_data rows.now) source.now }
{
    out.put(LINES);
    put_row_zero(rows, out);
    put_rows(rows, source, out);
    out.put(TABLE_END);
}
