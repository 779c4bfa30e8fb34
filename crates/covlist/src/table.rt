//! Prints the table of files with their totals.

ghost use Rattle.std.specs.Prelude.{◌≡◌, ◌≤◌, ◌++◌, ◌∷◌, [], IfOk, OnOk, flat_map};
ghost use Rattle.covtable.specs.ValuesView.{file_totals_data};
ghost use Rattle.covtable.specs.Totals.{AreTotals};
ghost use Rattle.covreport.specs.ChoiceView.{choice_data};
ghost use Rattle.covlist.specs.Chosen.{chosen_among, chosen_files, totals_of_chosen};
ghost use Rattle.covlist.specs.Shown.{shown_name};
ghost use Rattle.covlist.specs.Table.{cell, file_row, heading, headings, list_table_of, numbers as numbers_of, numbers_width as width_of_numbers, percentage, rate, right_aligned, row};

use crate::numbers::{digits, put_spaces};
use crate::shown::put_shown_name;
use covdata::{Bytes, Memory};
use covreport::{Choice, Table, chosen_totals, put_tenths, tenths};
use covtable::{FileTotals, Totals};
use std::alloc::Allocator;

/// Returns the table of the chosen files (lcov(1), `--list`): a line of headings, a row for each file, ascending by path, and a row
/// `Total` with the totals of the chosen files. For lines, functions and branches, a row has the percentage of points hit (`-` if
/// no points are found), and how many points are hit and found. The file's name comes last, as `put_shown_name` prints it. If no
/// file is chosen, `Total` is the only row.
///
/// # Errors
///
/// `Memory` if an allocation failed.
pub fn list_table<A: Allocator + Copy, T: Table<A>>(
    alloc: A,
    store: &T,
    choice: &Choice<A>,
) -> Result<Bytes<A>, Memory>
    ensures { IfOk result (λ t. t ≡ list_table_of (chosen_files (choice_data choice.now) (T.shown store.now).sections) (totals_of_chosen (choice_data choice.now) (T.shown store.now).sections)) }
{
    let all = chosen_totals(store, choice);
    let mut text = Bytes::new(alloc);
    put_headings(&all, &mut text)?;
    put_rows(alloc, store, choice, &all, &mut text)?;
    put_row(&all, b"Total", &all, &mut text)?;
    Ok(text)
}

/// Appends the rows of the chosen files.
fn put_rows<A: Allocator + Copy, T: Table<A>>(
    alloc: A,
    store: &T,
    choice: &Choice<A>,
    all: &Totals,
    text: &mut Bytes<A>,
) -> Result<(), Memory>
    ensures { OnOk result (text.new ≡ text.old ++ flat_map (file_row all.now) (chosen_files (choice_data choice.now) (T.shown store.now).sections)) }
{
    let files = store.files(alloc)?;
    for file in files {
        put_if_chosen(choice, all, file, text)?;
    }
    Ok(())
}

/// Appends the row of `file`, if `choice` takes this file.
fn put_if_chosen<A: Allocator>(
    choice: &Choice<A>,
    all: &Totals,
    file: FileTotals<'_>,
    text: &mut Bytes<A>,
) -> Result<(), Memory>
    requires { AreTotals file.totals }
    ensures { OnOk result (text.new ≡ text.old ++ flat_map (file_row all.now) (chosen_among (choice_data choice.now) (file_totals_data file.entry ∷ []))) }
{
    if !choice.takes(file.path) {
        return Ok(());
    }
    put_row(all, file.path, &file.totals, text)
}

/// Appends the line of headings.
fn put_headings<A: Allocator>(all: &Totals, text: &mut Bytes<A>) -> Result<(), Memory>
    ensures { OnOk result (text.new ≡ text.old ++ headings all.now) }
{
    put_heading(all.lf, b"Lines", text)?;
    text.append(b"  ")?;
    put_heading(all.ff, b"Functions", text)?;
    text.append(b"  ")?;
    put_heading(all.bf, b"Branches", text)?;
    text.append(b"  File\n")
}

/// Appends the heading of a column whose largest number is `most`.
fn put_heading<A: Allocator>(most: u64, label: &[u8], text: &mut Bytes<A>) -> Result<(), Memory>
    ensures { OnOk result (text.new ≡ text.old ++ heading most label.now) }
{
    let width = 7 + numbers_width(most);
    put_spaces(width.saturating_sub(label.len()), text)?;
    text.append(label)
}

/// The width of the numbers hit and found in a column, with the slash between them. `most` is the column's largest number.
fn numbers_width(most: u64) -> usize
    ensures value { result ≡ width_of_numbers most }
    ensures narrow { result ≤ 41 }
{
    2 * digits(most) + 1
}

/// Appends a row with the totals `own` and a name. The totals `all` determine the widths of the columns.
fn put_row<A: Allocator>(
    all: &Totals,
    name: &[u8],
    own: &Totals,
    text: &mut Bytes<A>,
) -> Result<(), Memory>
    requires { AreTotals own.now }
    ensures { OnOk result (text.new ≡ text.old ++ row all.now (shown_name name.now) own.now) }
{
    put_cell(all.lf, own.lh, own.lf, text)?;
    text.append(b"  ")?;
    put_cell(all.ff, own.fh, own.ff, text)?;
    text.append(b"  ")?;
    put_cell(all.bf, own.bh, own.bf, text)?;
    text.append(b"  ")?;
    put_shown_name(name, text)?;
    text.append(b"\n")
}

/// Appends the percentage of points hit, and how many points are hit and found. `most` is the column's largest number.
fn put_cell<A: Allocator>(
    most: u64,
    hit: u64,
    found: u64,
    text: &mut Bytes<A>,
) -> Result<(), Memory>
    requires { hit ≤ found }
    ensures { OnOk result (text.new ≡ text.old ++ cell most hit found) }
{
    put_rate(hit, found, text)?;
    text.append(b" ")?;
    put_numbers(numbers_width(most), hit, found, text)
}

/// Appends the percentage of points hit, or `-` if no points are found, padded to 6 characters.
fn put_rate<A: Allocator>(hit: u64, found: u64, text: &mut Bytes<A>) -> Result<(), Memory>
    requires { hit ≤ found }
    ensures { OnOk result (text.new ≡ text.old ++ right_aligned 6 (rate hit found)) }
{
    if found == 0 {
        return text.append(b"     -");
    }
    put_percentage(tenths(hit, found), text)
}

/// Appends tenths of a percent as a percentage, padded to 6 characters.
fn put_percentage<A: Allocator>(tenths: u32, text: &mut Bytes<A>) -> Result<(), Memory>
    ensures { OnOk result (text.new ≡ text.old ++ right_aligned 6 (percentage tenths)) }
{
    let whole = u64::from(tenths / 10);
    let part = u64::from(tenths % 10);
    let len = digits(whole) + 1 + digits(part) + 1;
    put_spaces(6usize.saturating_sub(len), text)?;
    put_tenths(tenths, text)?;
    text.append(b"%")
}

/// Appends how many points are hit and found, with a slash in between, padded to `width` characters.
fn put_numbers<A: Allocator>(
    width: usize,
    hit: u64,
    found: u64,
    text: &mut Bytes<A>,
) -> Result<(), Memory>
    ensures { OnOk result (text.new ≡ text.old ++ right_aligned width (numbers_of hit found)) }
{
    let len = digits(hit) + 1 + digits(found);
    put_spaces(width.saturating_sub(len), text)?;
    text.append_number(hit)?;
    text.append(b"/")?;
    text.append_number(found)
}
