//! Checksums of rows, and the first clash of them.

ghost use Rattle.std.specs.Prelude.{◌≡◌, ◌≤◌, [], ◌∷◌, IfOk, drop, length, map, option_map, option_to_list, take};
ghost use Rattle.std.specs.List.{find};
ghost use Rattle.covrows.specs.Data.{checksum_data, clash_data, row_data};
ghost use Rattle.covtable.specs.Clash.{checksum_of_row, checksums_in, clash_of as clash_of_rows, differs as differs_data};
ghost use Rattle.covrows.specs.View.{IsClashOrMemory};
ghost use Rattle.covtable.specs.Refuse.{ClashRefuse};
ghost use Rattle.covtable.specs.RefuseView.{refuse_data};

use crate::row::Row;
use covdata::{Bytes, Item, Memory};
use covtable::Refuse;
use std::alloc::Allocator;

/// The checksum of a line of a file.
#[derive(Clone, Copy, Drop)]
struct Checksum<'s> {
    file: &'s [u8],
    line: u64,
    text: &'s [u8],
}

/// A given checksum, and a held one of the same line of the same file that differs from it.
#[derive(Clone, Copy, Drop)]
pub(crate) struct Clash<'s> {
    given: Checksum<'s>,
    held: &'s [u8],
}

impl<'s> Clash<'s> {
    /// The refusal of a submission with this clash.
    pub(crate) fn refuse<A: Allocator + Copy>(&self, alloc: A) -> Refuse<A>
        ensures { IsClashOrMemory (clash_data self.now) (refuse_data result) }
    {
        match self.copy(alloc) {
            Ok(refuse) => refuse,
            Err(_refused) => Refuse::Memory,
        }
    }

    /// The refusal with copies of the checksums.
    fn copy<A: Allocator + Copy>(&self, alloc: A) -> Result<Refuse<A>, Memory>
        ensures { IfOk result (λ refuse. refuse_data refuse ≡ ClashRefuse (clash_data self.now)) }
    {
        Ok(Refuse::Clash {
            file: Bytes::of(alloc, self.given.file)?,
            line: self.given.line,
            held: Bytes::of(alloc, self.held)?,
            given: Bytes::of(alloc, self.given.text)?,
        })
    }
}

/// The first clash of the rows from index `from` on with the rows before them.
pub(crate) fn first_clash<'s, A: Allocator>(rows: &'s [Row<A>], from: usize) -> Option<Clash<'s>>
    ensures { option_map clash_data result ≡ clash_of_rows (map row_data (take from rows.now)) (map row_data (drop from rows.now)) }
{
    for at in from..rows.len() {
        let clash = clash_of(&rows[at], &rows[..at]);
        if clash.is_some() {
            return clash;
        }
    }
    None
}

/// The clash of a row with the rows before it.
fn clash_of<'s, A: Allocator>(row: &'s Row<A>, before: &'s [Row<A>]) -> Option<Clash<'s>>
    ensures { option_map clash_data result ≡ clash_of_rows (map row_data before.now) (row_data row.now ∷ []) }
{
    let given = checksum_of(row)?;
    let held = differing(before, given)?;
    Some(Clash { given, held })
}

/// The first checksum of the rows that differs from a given one.
fn differing<'s, A: Allocator>(rows: &'s [Row<A>], given: Checksum<'_>) -> Option<&'s [u8]>
    ensures { option_map (λ held. held.now) result ≡ option_map (λ held. held.checksum) (find (differs_data (checksum_data given.entry)) (checksums_in (map row_data rows.now))) }
{
    for row in rows {
        if let Some(held) = checksum_of(row) {
            if differs(given, held) {
                return Some(held.text);
            }
        }
    }
    None
}

/// Whether these are different checksums of the same line of the same file.
fn differs(left: Checksum<'_>, right: Checksum<'_>) -> bool
    ensures { result ≡ differs_data (checksum_data left.entry) (checksum_data right.entry) }
{
    left.file == right.file && left.line == right.line && left.text != right.text
}

/// The checksum of a row, if it has one.
fn checksum_of<A: Allocator>(row: &Row<A>) -> Option<Checksum<'_>>
    ensures { option_to_list (option_map checksum_data result) ≡ checksum_of_row (row_data row.now) }
{
    match &row.item {
        Item::Line {
            line,
            checksum: Some(text),
            ..
        } => Some(Checksum {
            file: row.file.get(),
            line: *line,
            text: text.get(),
        }),
        Item::Line { checksum: None, .. } | Item::Func { .. } | Item::Branch { .. } => None,
    }
}
