//! The index of a file: how many tests have each point, and the checksums of the lines.

ghost use Rattle.std.specs.Prelude.{◌≡◌, OnOk};
ghost use Rattle.covstore.specs.PointIndexDrops.{totals_by};

mod drops;

use crate::file_checksums::FileChecksums;
use crate::index::drops::{
    branches_without, functions_without, lines_without, release_checksums, uncount_branches,
    uncount_functions, uncount_lines,
};
use crate::keys::{Branch, FunctionName};
use crate::kind_index::KindIndex;
use crate::point_index::KindTally;
use crate::sums::{BranchSum, FunctionSum, LineSum};
use crate::test::Test;
use covtable::Totals;
use std::alloc::{AllocError, Allocator};

/// The index of a file. Counts for each point how many tests have the point, and how many tests hit the point (value above 0). Also
/// stores the checksums of the file's lines. Before a second test is added, the index follows the file's only test and stores no
/// counts.
#[derive(Drop)]
pub(crate) struct FileIndex<A: Allocator> {
    pub lines: KindIndex<u64, LineSum, A>,
    pub functions: KindIndex<FunctionName<A>, FunctionSum, A>,
    pub branches: KindIndex<Branch, BranchSum, A>,
    pub checksums: FileChecksums<A>,
}

impl<A: Allocator + Copy> FileIndex<A> {
    ghost use Rattle.covstore.specs.FileIndexView.{index_staged, index_committed, empty_index};
    ghost use Rattle.std.specs.Prelude.{List, ◌∷◌};
    ghost use Rattle.covstore.specs.State.{IsIndexOf};
    ghost use Rattle.covstore.specs.FileIndex.{FileIndexData, index_totals};
    ghost use Rattle.covstore.specs.Sums.{TestData};
    ghost use Rattle.covstore.specs.TestView.{test_committed};
    ghost use Rattle.covstore.specs.Follows.{CountsAll, Follows, FollowsCommitted, FollowsRolledBack, StillFollows, no_test};

    /// The index of a file without tests.
    pub(crate) fn new() -> FileIndex<A>
        ensures committed { index_committed result ≡ empty_index }
        ensures staged { index_staged result ≡ empty_index }
        ensures follows { Follows no_test result }
    {
        FileIndex {
            lines: KindIndex::new(),
            functions: KindIndex::new(),
            branches: KindIndex::new(),
            checksums: FileChecksums::new(),
        }
    }

    /// Makes the index count points, unless it does so already. If the index follows a test, `test` must be that test.
    ///
    /// # Errors
    ///
    /// `AllocError` if an allocation failed.
    pub(crate) fn start_counting(&mut self, alloc: A, test: &Test<A>) -> Result<(), AllocError>
        requires { Follows test.now self.old }
        ensures committed { index_committed self.new ≡ index_committed self.old }
        ensures staged { index_staged self.new ≡ index_staged self.old }
        ensures follows { StillFollows self.old test.now self.new }
        ensures ok { OnOk result (CountsAll self.new) }
    {
        self.lines.start_counting(alloc, &test.lines)?;
        self.functions.start_counting(alloc, &test.functions)?;
        self.branches.start_counting(alloc, &test.branches)
    }

    /// Commits the staged values. If the index follows a test, `test` must be that test, already committed.
    pub(crate) fn commit(&mut self, test: &Test<A>)
        requires { FollowsCommitted test.now self.old }
        ensures committed { index_committed self.new ≡ index_staged self.old }
        ensures staged { index_staged self.new ≡ index_staged self.old }
        ensures follows { StillFollows self.old test.now self.new }
    {
        self.lines.commit(&test.lines);
        self.functions.commit(&test.functions);
        self.branches.commit(&test.branches);
        self.checksums.commit();
    }

    /// Discards the staged values. If the index follows a test, `test` must be that test, already rolled back.
    pub(crate) fn rollback(&mut self, test: &Test<A>)
        requires { FollowsRolledBack test.now self.old }
        ensures committed { index_committed self.new ≡ index_committed self.old }
        ensures staged { index_staged self.new ≡ index_committed self.old }
        ensures follows { StillFollows self.old test.now self.new }
    {
        self.lines.rollback(&test.lines);
        self.functions.rollback(&test.functions);
        self.branches.rollback(&test.branches);
        self.checksums.rollback();
    }

    /// The staged totals of the file.
    pub(crate) fn totals(&self) -> Totals
        ensures { result ≡ index_totals (index_staged self.now) }
    {
        totals_of(
            self.lines.staged(),
            self.functions.staged(),
            self.branches.staged(),
        )
    }

    /// Removes the test whose points are `points` from the counts, and discards all staged values. If the index follows a test,
    /// `points` must be that test.
    pub(crate) fn uncount_test(&mut self, points: &Test<A>)
        requires follows { Follows points.now self.old }
        requires counted { (others : List TestData) × IsIndexOf (test_committed points.now ∷ others) (index_committed self.old) }
        ensures committed { (others : List TestData) → IsIndexOf (test_committed points.now ∷ others) (index_committed self.old) → IsIndexOf others (index_committed self.new) }
        ensures texts { (index_committed self.new).texts ≡ (index_committed self.old).texts }
        ensures staged { index_staged self.new ≡ index_committed self.new }
        ensures follows { StillFollows self.old no_test self.new }
    {
        uncount_lines(&mut self.lines, &points.lines);
        uncount_functions(&mut self.functions, &points.functions);
        uncount_branches(&mut self.branches, &points.branches);
        release_checksums(&mut self.checksums, &points.lines);
    }

    /// The committed totals of the file.
    pub(crate) fn committed_totals(&self) -> Totals
        ensures { result ≡ index_totals (index_committed self.now) }
    {
        totals_of(
            self.lines.committed(),
            self.functions.committed(),
            self.branches.committed(),
        )
    }

    /// Returns the committed totals that the file would have without the test whose points are `points`. If the index follows a
    /// test, `points` must be that test.
    pub(crate) fn totals_without(&self, points: &Test<A>) -> Totals
        requires follows { Follows points.now self.now }
        requires counted { (others : List TestData) × IsIndexOf (test_committed points.now ∷ others) (index_committed self.now) }
        ensures { (others : List TestData) (rest : FileIndexData) → IsIndexOf (test_committed points.now ∷ others) (index_committed self.now) → IsIndexOf others rest → result ≡ index_totals rest }
    {
        totals_of(
            lines_without(&self.lines, &points.lines),
            functions_without(&self.functions, &points.functions),
            branches_without(&self.branches, &points.branches),
        )
    }
}

/// Combines the tallies of the three kinds of points into a file's totals.
fn totals_of(lines: KindTally, functions: KindTally, branches: KindTally) -> Totals
    ensures { result ≡ totals_by lines functions branches }
{
    Totals {
        lf: lines.found,
        lh: lines.hit,
        ff: functions.found,
        fh: functions.hit,
        bf: branches.found,
        bh: branches.hit,
    }
}
