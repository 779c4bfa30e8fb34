//! Lists of the files of a store.

ghost use Rattle.std.specs.Prelude.{◌≡◌, ◌≢◌, [], map, IfOk, OnErr};
ghost use Rattle.covtable.specs.ValuesView.{file_totals_data};

use covdata::Memory;
use covtable::{FileTotals, TableFiles};
use std::alloc::Allocator;

/// Returns the files that are left, in the iterator's order. Allocates nothing if no file is left.
///
/// # Errors
///
/// `Memory` if an allocation failed.
pub fn list_files<'s, A: Allocator, I: TableFiles<'s>>(
    alloc: A,
    mut files: I,
) -> Result<Vec<FileTotals<'s>, A>, Memory>
    ensures files { IfOk result (λ list. map file_totals_data list.items ≡ I.left files) }
    ensures some { OnErr result (I.left files ≢ []) }
{
    let mut list = Vec::new(alloc);
    while let Some(file) = files.next_file() {
        list.push(file)?;
    }
    Ok(list)
}
