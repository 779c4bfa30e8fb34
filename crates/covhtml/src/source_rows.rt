//! Prints the rows of the table of lines.

ghost use Rattle.std.specs.Prelude.{◌≡◌, ◌++◌, map};
ghost use Rattle.covline.specs.Lines.{lines_of};
ghost use Rattle.covhtml.specs.RowView.{row_data};
ghost use Rattle.covhtml.specs.Rows.{blank_cells, cells_of, other_row, other_rows, row_cells, row_start, row_zero, rows_below, source_row};

use crate::cells::{class_of, put_branch_cell, put_line_count_cell, put_line_link};
use crate::numbers::put_number;
use crate::rows::{Row, rows_after};
use crate::shown::put_shown;
use covline::lines;
use covreport::Printer;

/// Prints a row for each line of the source, and then the rows of later lines.
pub(crate) fn put_rows<P: Printer>(rows: &[Row<'_>], source: &[u8], out: &mut P)
    ensures { P.text out.new ≡ P.text out.old ++ rows_below 0 (map row_data rows.now) (lines_of source.now) }
{
    let mut rest = rows;
    let mut line: u64 = 0;
    for text in lines(source) {
        rest = rows_after(line, rest);
        line += 1;
        put_source_row(line, rest, text, out);
    }
    put_other_rows(rows_after(line, rest), out);
}

/// Prints the row of a line of the source. `rows` are those from this line on.
fn put_source_row<P: Printer>(line: u64, rows: &[Row<'_>], text: &[u8], out: &mut P)
    ensures { P.text out.new ≡ P.text out.old ++ source_row line (map row_data rows.now) text.now }
{
    put_cells(line, rows, out);
    put_shown(text, out);
    out.put(b"\n");
}

/// Prints the cells of a line, up to the beginning of the last one.
fn put_cells<P: Printer>(line: u64, rows: &[Row<'_>], out: &mut P)
    ensures { P.text out.new ≡ P.text out.old ++ cells_of line (map row_data rows.now) }
{
    let Some((row, later)) = rows.split_first() else {
        return put_blank_cells(line, out);
    };
    if row.number == line {
        put_row_cells(row, later, out);
    } else {
        put_blank_cells(line, out);
    }
}

/// Prints the cells of a line with points, up to the beginning of the last one.
fn put_row_cells<P: Printer>(row: &Row<'_>, later: &[Row<'_>], out: &mut P)
    ensures { P.text out.new ≡ P.text out.old ++ row_cells (row_data row.now) (map row_data later.now) }
{
    put_row_start(row.number, class_of(row), out);
    put_line_count_cell(row.count, later, out);
    put_branch_cell(row.branches, out);
    out.put(b"<td>");
}

/// Prints the cells of a line without points, up to the beginning of the last one.
fn put_blank_cells<P: Printer>(line: u64, out: &mut P)
    ensures { P.text out.new ≡ P.text out.old ++ blank_cells line }
{
    put_row_start(line, b"", out);
    out.put(b"<td><td><td>");
}

/// Prints the beginning of a row, and its first cell.
fn put_row_start<P: Printer>(line: u64, class: &[u8], out: &mut P)
    ensures { P.text out.new ≡ P.text out.old ++ row_start line class.now }
{
    out.put(b"<tr id=\"L");
    put_number(line, out);
    out.put(b"\"");
    out.put(class);
    out.put(b"><td>");
    put_line_link(line, out);
}

/// Prints rows of lines that the source doesn't have.
fn put_other_rows<P: Printer>(rows: &[Row<'_>], out: &mut P)
    ensures { P.text out.new ≡ P.text out.old ++ other_rows (map row_data rows.now) }
{
    for (place, row) in rows.iter().enumerate() {
        put_other_row(row, &rows[place + 1..], out);
    }
}

/// Prints the row of a line that the source doesn't have.
fn put_other_row<P: Printer>(row: &Row<'_>, later: &[Row<'_>], out: &mut P)
    ensures { P.text out.new ≡ P.text out.old ++ other_row (row_data row.now) (map row_data later.now) }
{
    put_row_cells(row, later, out);
    out.put(b"\n");
}

/// Prints the row of line 0 if the first row is of this line.
pub(crate) fn put_row_zero<P: Printer>(rows: &[Row<'_>], out: &mut P)
    ensures { P.text out.new ≡ P.text out.old ++ row_zero (map row_data rows.now) }
{
    let Some((row, later)) = rows.split_first() else {
        return;
    };
    if row.number == 0 {
        put_other_row(row, later, out);
    }
}
