//! Walks over the files of a store: drops a test, finds the files with a test, and adds up totals without a test.

ghost use Rattle.std.specs.Prelude.{◌≡◌, ◌≢◌, ℕ, List, [], true, count_by, map, IfOk, OnErr};
ghost use Rattle.std.specs.List.{AllByRecursion};
ghost use Rattle.covstore.specs.FileDrops.{AreWithoutTest, IsWithoutTest};
ghost use Rattle.covtable.specs.TotalsExchanged.{FitTotals};
ghost use Rattle.covstore.specs.FileView.{file_committed};
ghost use Rattle.covstore.specs.StoreView.{AreSettledBut, IsSettledBut, files_committed};
ghost use Rattle.covstore.specs.Renaming.{names_with};
ghost use Rattle.covstore.specs.State.{FileData, IsConsistentFile, has_points_of, totals_in};

use crate::boxed::Boxed;
use crate::file::File;
use crate::path::Path;
use covdata::Memory;
use covtable::Totals;
use std::alloc::Allocator;
use std::collections::BTreeMap;

/// Drops the test from every file. A file whose last test is dropped stays, without tests. Never allocates.
pub(crate) fn drop_from_files<K: Ord + Drop, A: Allocator + Copy>(
    files: &mut BTreeMap<K, Boxed<File<A>, A>, A>,
    test: &[u8],
)
    requires { AllByRecursion (λ pair. IsConsistentFile (file_committed pair.1)) files.old.entries }
    ensures committed { (name : K → List ℕ) → AreWithoutTest test.now (files_committed name files.old.entries) (files_committed name files.new.entries) }
    ensures settled { (name : K → List ℕ) (touched : List (List ℕ × List ℕ)) → AreSettledBut name touched files.old.entries → AreSettledBut name touched files.new.entries }
{
    // The closure keeps every file. `retain` is used because its contract, unlike the contract of a plain walk, says how each file
    // changes.
    files.retain(
        |_, file|
            requires { IsConsistentFile (file_committed file.old) }
            ensures stays { result ≡ true }
            ensures committed { IsWithoutTest test.entry.now (file_committed file.old) (file_committed file.new) }
            ensures settled { (tests : List (List ℕ)) → IsSettledBut tests file.old → IsSettledBut tests file.new }
        {
            file.get_mut().drop_test(test);
            true
        },
    );
}

/// Returns the number of files in which the test has points, and the totals that all files would have if the test were dropped.
/// Never allocates.
pub(crate) fn count_without<A: Allocator + Copy>(
    files: &BTreeMap<Path<A>, Boxed<File<A>, A>, A>,
    test: &[u8],
) -> (u64, Totals)
    requires whole { AllByRecursion (λ pair. IsConsistentFile pair.1) (files_committed (λ name. name.items) files.now.entries) }
    requires fits { (after : List (List ℕ × FileData)) × AreWithoutTest test.now (files_committed (λ name. name.items) files.now.entries) after × FitTotals (totals_in after) }
    ensures sections { result.0 ≡ count_by (λ pair. has_points_of test.now pair.1) (files_committed (λ name. name.items) files.now.entries) }
    ensures totals { (after : List (List ℕ × FileData)) → AreWithoutTest test.now (files_committed (λ name. name.items) files.now.entries) after → result.1 ≡ totals_in after }
{
    let mut sections = 0;
    let mut totals = Totals::none();
    for (_, file) in files.iter() {
        let (has_points, rest) = file.get().without_test(test);
        sections += u64::from(has_points);
        totals = totals.plus(rest);
    }
    (sections, totals)
}

/// The number of files in which the test has points. Never allocates.
pub(crate) fn count_sections<A: Allocator + Copy>(
    files: &BTreeMap<Path<A>, Boxed<File<A>, A>, A>,
    test: &[u8],
) -> u64
    ensures { result ≡ count_by (λ pair. has_points_of test.now pair.1) (files_committed (λ name. name.items) files.now.entries) }
{
    let mut sections = 0;
    for (_, file) in files.iter() {
        sections += u64::from(file.get().has_test(test));
    }
    sections
}

/// The names of the files in which the test has points.
pub(crate) fn names_with<A: Allocator + Copy>(
    files: &BTreeMap<Path<A>, Boxed<File<A>, A>, A>,
    alloc: A,
    test: &[u8],
) -> Result<Vec<Vec<u8, A>, A>, Memory>
    ensures names { IfOk result (λ names. map (λ name. name.items) names.items ≡ names_with test.now (files_committed (λ name. name.items) files.now.entries)) }
    ensures some { OnErr result (names_with test.now (files_committed (λ name. name.items) files.now.entries) ≢ []) }
{
    let mut names = Vec::new(alloc);
    for (name, file) in files.iter() {
        if file.get().has_test(test) {
            names.push(Vec::from_slice(alloc, name.as_slice())?)?;
        }
    }
    Ok(names)
}
