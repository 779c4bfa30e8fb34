//! Copies of rows.

ghost use Rattle.std.specs.Prelude.{◌≡◌, ◌++◌, map, IfOk, OnOk, option_map};
ghost use Rattle.covdata.specs.Row.{item_data, rows_of_sect};
ghost use Rattle.covdata.specs.SectView.{sect_data};
ghost use Rattle.std.specs.List.{flat_map};
ghost use Rattle.covtable.specs.Renamed.{renamed_row as renamed_row_data};
ghost use Rattle.covrows.specs.Data.{row_data};
ghost use Rattle.covrows.specs.View.{rows_after};

use crate::row::Row;
use covdata::{Bytes, Item, Memory, Sect};
use std::alloc::Allocator;

/// Appends the rows of all sections.
pub(crate) fn push_sects<A: Allocator + Copy>(
    rows: &mut Vec<Row<A>, A>,
    alloc: A,
    sects: &[Sect<A>],
) -> Result<(), Memory>
    ensures { OnOk result (map row_data rows.new.items ≡ map row_data rows.old.items ++ flat_map rows_of_sect (map sect_data sects.now)) }
{
    for sect in sects {
        push_sect(rows, alloc, sect)?;
    }
    Ok(())
}

/// Appends the rows of a section.
fn push_sect<A: Allocator + Copy>(
    rows: &mut Vec<Row<A>, A>,
    alloc: A,
    sect: &Sect<A>,
) -> Result<(), Memory>
    ensures { OnOk result (map row_data rows.new.items ≡ map row_data rows.old.items ++ rows_of_sect (sect_data sect.now)) }
{
    let items = sect.items.get();
    for item in items {
        rows.push(row_of(alloc, sect.test.get(), sect.file.get(), item)?)?;
    }
    Ok(())
}

/// Copies rows.
pub(crate) fn copy_rows<A: Allocator + Copy>(
    alloc: A,
    rows: &[Row<A>],
) -> Result<Vec<Row<A>, A>, Memory>
    ensures { IfOk result (λ copies. map row_data copies.items ≡ map row_data rows.now) }
{
    let mut copies = Vec::new(alloc);
    for row in rows {
        copies.push(row_of(alloc, row.test.get(), row.file.get(), &row.item)?)?;
    }
    Ok(copies)
}

/// Copies rows. Those of the test `old` get the test `new`.
pub(crate) fn renamed_rows<A: Allocator + Copy>(
    alloc: A,
    rows: &[Row<A>],
    old: &[u8],
    new: &[u8],
) -> Result<Vec<Row<A>, A>, Memory>
    ensures { IfOk result (λ copies. map row_data copies.items ≡ map (renamed_row_data old.now new.now) (map row_data rows.now)) }
{
    let mut renamed = Vec::new(alloc);
    for row in rows {
        renamed.push(renamed_row(alloc, row, old, new)?)?;
    }
    Ok(renamed)
}

/// Replaces the rows, if there are others.
pub(crate) fn replace<A: Allocator>(rows: &mut Vec<Row<A>, A>, others: Option<Vec<Row<A>, A>>)
    ensures { map row_data rows.new.items ≡ rows_after others (map row_data rows.old.items) }
{
    if let Some(others) = others {
        *rows = others;
    }
}

/// Copies a row. If it is of the test `old`, the copy is of the test `new`.
fn renamed_row<A: Allocator + Copy>(
    alloc: A,
    row: &Row<A>,
    old: &[u8],
    new: &[u8],
) -> Result<Row<A>, Memory>
    ensures { IfOk result (λ copy. row_data copy ≡ renamed_row_data old.now new.now (row_data row.now)) }
{
    let test = if row.is_of_test(old) {
        new
    } else {
        row.test.get()
    };
    row_of(alloc, test, row.file.get(), &row.item)
}

/// A row with copies of a test, a file and an item.
fn row_of<A: Allocator + Copy>(
    alloc: A,
    test: &[u8],
    file: &[u8],
    item: &Item<A>,
) -> Result<Row<A>, Memory>
    ensures { IfOk result (λ row. row_data row ≡ record { test = test.now; file = file.now; item = item_data item.now }) }
{
    Ok(Row {
        test: Bytes::of(alloc, test)?,
        file: Bytes::of(alloc, file)?,
        item: copy_item(alloc, item)?,
    })
}

/// Copies an item.
fn copy_item<A: Allocator + Copy>(alloc: A, item: &Item<A>) -> Result<Item<A>, Memory>
    ensures { IfOk result (λ copy. item_data copy ≡ item_data item.now) }
{
    match item {
        Item::Line {
            line,
            count,
            checksum,
        } => Ok(Item::Line {
            line: *line,
            count: *count,
            checksum: copy_checksum(alloc, checksum)?,
        }),
        Item::Func { name, line, count } => Ok(Item::Func {
            name: name.copy(alloc)?,
            line: *line,
            count: *count,
        }),
        Item::Branch {
            line,
            block,
            branch,
            taken,
        } => Ok(Item::Branch {
            line: *line,
            block: *block,
            branch: *branch,
            taken: *taken,
        }),
    }
}

/// Copies an optional checksum.
fn copy_checksum<A: Allocator + Copy>(
    alloc: A,
    checksum: &Option<Bytes<A>>,
) -> Result<Option<Bytes<A>>, Memory>
    ensures { IfOk result (λ copy. copy ≡ checksum.now) }
{
    match checksum {
        Some(text) => Ok(Some(text.copy(alloc)?)),
        None => Ok(None),
    }
}
