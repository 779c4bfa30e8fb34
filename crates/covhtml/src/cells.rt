//! Prints the cells of a row in the table of lines.

ghost use Rattle.std.specs.Prelude.{◌≡◌, ◌++◌, decimal, flat_map, map};
ghost use Rattle.covdata.specs.Printed.{taken_text};
ghost use Rattle.covtable.specs.ValuesView.{branch_data};
ghost use Rattle.covhtml.specs.RowView.{row_data};
ghost use Rattle.covhtml.specs.Rows.{branch_cell, class_of as class_of_row, count_cell, line_count_cell, line_link, missed_cell, next_link, shortened, shortened_cell, taken_item};

use crate::numbers::{put_count, put_number, put_numbers};
use crate::rows::{Row, branches_found, branches_hit, first_missed, is_missed};
use covreport::Printer;
use covtable::BranchValue;
use itoa::Buffer;

/// The maximum count that is printed with all its digits.
const MOST_PLAIN: u128 = 99_999;

/// Prints a line's number as a link to the line.
pub(crate) fn put_line_link<P: Printer>(line: u64, out: &mut P)
    ensures { P.text out.new ≡ P.text out.old ++ line_link line }
{
    out.put(b"<a href=\"#L");
    put_number(line, out);
    out.put(b"\">");
    put_number(line, out);
    out.put(b"</a>");
}

/// Prints a cell with a count. A count above 99999 is shortened, and the cell's title has the exact count.
pub(crate) fn put_count_cell<P: Printer>(count: u128, out: &mut P)
    ensures { P.text out.new ≡ P.text out.old ++ count_cell count }
{
    if count > MOST_PLAIN {
        put_long_count(count, out);
    } else {
        out.put(b"<td>");
        put_count(count, out);
    }
}

/// Prints a cell with a count that is shortened.
fn put_long_count<P: Printer>(count: u128, out: &mut P)
    ensures { P.text out.new ≡ P.text out.old ++ shortened_cell (decimal count) }
{
    let mut digits = Buffer::new();
    put_shortened_cell(digits.format(count).as_bytes(), out);
}

/// Prints a cell with a shortened number. The cell's title has all the digits.
fn put_shortened_cell<P: Printer>(digits: &[u8], out: &mut P)
    ensures { P.text out.new ≡ P.text out.old ++ shortened_cell digits.now }
{
    out.put(b"<td title=\"");
    out.put(digits);
    out.put(b"\">");
    put_shortened(digits, out);
}

/// Prints a number by its first two digits and a power of ten.
fn put_shortened<P: Printer>(digits: &[u8], out: &mut P)
    ensures { P.text out.new ≡ P.text out.old ++ shortened digits.now }
{
    match digits {
        [first, second, ..] => {
            out.put(&[*first, b'.', *second, b'e']);
            put_number((digits.len() - 1) as u64, out);
        }
        _ => out.put(digits),
    }
}

/// Prints the cell with a line's count. `later` are the rows of later lines.
pub(crate) fn put_line_count_cell<P: Printer>(count: Option<u128>, later: &[Row<'_>], out: &mut P)
    ensures { P.text out.new ≡ P.text out.old ++ line_count_cell count (map row_data later.now) }
{
    let Some(count) = count else {
        return out.put(b"<td>");
    };
    if count == 0 {
        put_missed_cell(later, out);
    } else {
        put_count_cell(count, out);
    }
}

/// Prints the cell with the count of a line that was never run.
fn put_missed_cell<P: Printer>(later: &[Row<'_>], out: &mut P)
    ensures { P.text out.new ≡ P.text out.old ++ missed_cell (map row_data later.now) }
{
    out.put(b"<td>0");
    put_next_link(first_missed(later), out);
}

/// Prints a link to the next line that was never run.
fn put_next_link<P: Printer>(next: Option<u64>, out: &mut P)
    ensures { P.text out.new ≡ P.text out.old ++ next_link next }
{
    let Some(line) = next else {
        return;
    };
    out.put(b" <a href=\"#L");
    put_number(line, out);
    out.put(b"\" title=\"next line not run\">&darr;");
    put_number(line, out);
    out.put(b"</a>");
}

/// Prints the cell with a line's branches.
pub(crate) fn put_branch_cell<P: Printer>(branches: &[BranchValue], out: &mut P)
    ensures { P.text out.new ≡ P.text out.old ++ branch_cell (map branch_data branches.now) }
{
    let found = branches_found(branches);
    if found == 0 {
        return out.put(b"<td>");
    }
    out.put(b"<td title=\"taken");
    put_taken_items(branches, out);
    out.put(b"\">");
    put_numbers(branches_hit(branches), found, out);
}

/// Prints how often each branch was taken.
fn put_taken_items<P: Printer>(branches: &[BranchValue], out: &mut P)
    ensures { P.text out.new ≡ P.text out.old ++ flat_map taken_item (map branch_data branches.now) }
{
    for branch in branches {
        put_taken_item(branch, out);
    }
}

/// Prints how often a branch was taken.
fn put_taken_item<P: Printer>(branch: &BranchValue, out: &mut P)
    ensures { P.text out.new ≡ P.text out.old ++ taken_item (branch_data branch.now) }
{
    out.put(b" ");
    put_taken(branch.taken, out);
}

/// Prints how often a branch was taken, or `-` if its block was never executed.
fn put_taken<P: Printer>(taken: Option<u128>, out: &mut P)
    ensures { P.text out.new ≡ P.text out.old ++ taken_text taken }
{
    match taken {
        Some(taken) => put_count(taken, out),
        None => out.put(b"-"),
    }
}

/// The attribute that marks a row.
pub(crate) fn class_of(row: &Row<'_>) -> &'static [u8]
    ensures { result.now ≡ class_of_row (row_data row.now) }
{
    if is_missed(row.count) {
        return b" class=\"n\"";
    }
    if branches_hit(row.branches) < branches_found(row.branches) {
        return b" class=\"p\"";
    }
    if row.count.is_some() {
        b" class=\"y\""
    } else {
        b""
    }
}
