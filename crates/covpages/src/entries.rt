//! The source files that the index lists, by their directories.

ghost use Rattle.std.specs.Prelude.{◌≡◌, ◌≤◌, length, drop, take, IfOk, OnOk, map};
ghost use Rattle.std.specs.Cmp.Lexicographic.{slice_cmp};
ghost use Rattle.std.specs.Ordering.{nat_cmp};
ghost use Rattle.covhtml.specs.PagesView.{directory_data, indexed_directory_data, indexed_file_data};
ghost use Rattle.covpages.specs.Directories.{HaveSameFiles, Rises, count_in as count_in_directory, directories_of, directory_of as directory_of_path, first_path as first_path_of, run, totals_together};
ghost use Rattle.covpages.specs.View.{entry_data, linked_data};
ghost use Rattle.covtable.specs.Totals.{AreTotals};
ghost use Rattle.covtable.specs.TotalsExchanged.{FitTotals};

use crate::listed::{Entry, Linked};
use covdata::Memory;
use covhtml::{Directory, IndexedDirectory, IndexedFile, name_of};
use covtable::Totals;
use std::alloc::Global;
use std::cmp::Ordering;

/// The directories of an index of directories.
pub(crate) fn indexed_directories<'e>(
    alloc: Global,
    linked: &'e [Linked<'e>],
) -> Result<Vec<IndexedDirectory<'e>>, Memory>
    ensures { IfOk result (λ directories. map indexed_directory_data directories.items ≡ map linked_data linked.now) }
{
    let mut directories = Vec::new(alloc);
    for directory in linked {
        directories.push(IndexedDirectory {
            page: directory.page.get(),
            path: directory.path,
            totals: directory.totals,
        })?;
    }
    Ok(directories)
}

/// The files of the index, by their directories, ascending. The files of a directory keep their order.
pub(crate) fn indexed<'e, 's: 'e>(
    alloc: Global,
    entries: &'e [Entry<'s>],
) -> Result<Vec<IndexedFile<'e>>, Memory>
    ensures rises { IfOk result (λ files. Rises (map indexed_file_data files.items)) }
    ensures same { IfOk result (λ files. HaveSameFiles (map indexed_file_data files.items) (map entry_data entries.now)) }
    ensures totals { IfOk result (λ files. totals_together (map indexed_file_data files.items) ≡ totals_together (map entry_data entries.now)) }
{
    let mut files = files_of(alloc, entries)?;
    sort(&mut files)?;
    Ok(files)
}

/// The files of these entries, in their order.
fn files_of<'e, 's: 'e>(
    alloc: Global,
    entries: &'e [Entry<'s>],
) -> Result<Vec<IndexedFile<'e>>, Memory>
    ensures { IfOk result (λ files. map indexed_file_data files.items ≡ map entry_data entries.now) }
{
    let mut files = Vec::new(alloc);
    for entry in entries {
        files.push(IndexedFile {
            page: entry.page.get(),
            path: entry.path,
            totals: entry.totals,
        })?;
    }
    Ok(files)
}

/// Sorts files by their directories. The files of a directory keep their order.
fn sort(files: &mut Vec<IndexedFile<'_>>) -> Result<(), Memory>
    ensures rises { OnOk result (Rises (map indexed_file_data files.new.items)) }
    ensures same { OnOk result (HaveSameFiles (map indexed_file_data files.new.items) (map indexed_file_data files.old.items)) }
    ensures totals { OnOk result (totals_together (map indexed_file_data files.new.items) ≡ totals_together (map indexed_file_data files.old.items)) }
{
    files.sort_by(by_directory)?;
    Ok(())
}

/// Compares the directories of two files.
fn by_directory(one: &IndexedFile<'_>, other: &IndexedFile<'_>) -> Ordering
    ensures { result ≡ slice_cmp nat_cmp (directory_of_path one.now.path.now) (directory_of_path other.now.path.now) }
{
    directory_of(one.path).cmp(directory_of(other.path))
}

/// The directories of files that are in the order of their directories.
pub(crate) fn directories<'e>(
    alloc: Global,
    files: &'e [IndexedFile<'e>],
) -> Result<Vec<Directory<'e>>, Memory>
    requires rises { Rises (map indexed_file_data files.now) }
    requires fits { FitTotals (totals_together (map indexed_file_data files.now)) }
    ensures { IfOk result (λ directories. map directory_data directories.items ≡ directories_of (map indexed_file_data files.now)) }
{
    let mut directories = Vec::new(alloc);
    let mut rest = files;
    while !rest.is_empty() {
        let count = count_in(first_path(rest), rest);
        directories.push(first_directory(rest, count))?;
        rest = files_from(count, rest);
    }
    Ok(directories)
}

/// The files without the first `count` ones.
fn files_from<'s, 'e>(count: usize, files: &'s [IndexedFile<'e>]) -> &'s [IndexedFile<'e>]
    requires { count ≤ length files.now }
    ensures { result.now ≡ drop count files.now }
{
    &files[count..]
}

/// The path of the directory of the first file. No path if there are no files.
fn first_path<'e>(files: &[IndexedFile<'e>]) -> &'e [u8]
    ensures { result.now ≡ first_path_of (map indexed_file_data files.now) }
{
    match files.first() {
        Some(first) => directory_of(first.path),
        None => b"",
    }
}

/// The first `count` files, as the directory of the first one.
fn first_directory<'e>(files: &'e [IndexedFile<'e>], count: usize) -> Directory<'e>
    requires within { count ≤ length files.now }
    requires fits { FitTotals (totals_together (take count (map indexed_file_data files.now))) }
    ensures { directory_data result ≡ run (first_path_of (map indexed_file_data files.now)) (take count (map indexed_file_data files.now)) }
{
    let own = &files[..count];
    Directory {
        path: first_path(files),
        totals: totals_of(own),
        files: own,
    }
}

/// How many files come before the first one that isn't in this directory.
fn count_in(directory: &[u8], files: &[IndexedFile<'_>]) -> usize
    ensures count { result ≡ count_in_directory directory.now (map indexed_file_data files.now) }
    ensures within { result ≤ length files.now }
{
    for (place, file) in files.iter().enumerate() {
        if directory_of(file.path) != directory {
            return place;
        }
    }
    files.len()
}

/// What files have together.
fn totals_of(files: &[IndexedFile<'_>]) -> Totals
    requires { FitTotals (totals_together (map indexed_file_data files.now)) }
    ensures sum { result ≡ totals_together (map indexed_file_data files.now) }
    ensures bounds { AreTotals result }
{
    let mut totals = Totals::none();
    for file in files {
        totals = totals.plus(file.totals);
    }
    totals
}

/// The directory of a path: what comes before the slash before its name, `/` if nothing does, and `.` if there is no such slash.
fn directory_of(path: &[u8]) -> &[u8]
    ensures { result.now ≡ directory_of_path path.now }
{
    let front = &path[..path.len() - name_of(path).len()];
    let Some((_, directory)) = front.split_last() else {
        return b".";
    };
    if directory.is_empty() {
        b"/"
    } else {
        directory
    }
}
