//! Removes a test from a file's index, or computes the totals without a test. If the index counts points, this takes a walk over
//! the test's points. Each kind of points has functions of its own, because calls of the generic functions are expensive to prove.

ghost use Rattle.std.specs.Prelude.{◌≡◌, None, IfSome};
ghost use Rattle.std.specs.Cmp.Lexicographic.{slice_cmp};
ghost use Rattle.std.specs.Ordering.{nat_cmp};
ghost use Rattle.covstore.specs.SoleTest.{no_points};
ghost use Rattle.covstore.specs.Kinds.{branch_above, function_above, line_above};
ghost use Rattle.covstore.specs.PointIndexDrops.{AreHoldersWith, AreWith, IsTallyWithout, LosesHolders, LosesTest};
ghost use Rattle.covtable.specs.Value.{branch_cmp};

use crate::file_checksums::FileChecksums;
use crate::keys::{Branch, FunctionName, PointKey};
use crate::kind_index::{Counts, KindIndex};
use crate::point_index::{KindTally, PointIndex};
use crate::sole_test::SoleTest;
use crate::sums::{BranchSum, FunctionSum, LineSum, PointSum};
use covmap::StagedMap;
use std::alloc::Allocator;

/// Removes the test whose points of one kind are `points` from the counts `kept`, and discards the staged counts. If the counts
/// follow a test, `points` must be that test's points.
fn uncount_kind<'a, K: PointKey<'a, A> + Drop, S: PointSum, A: Allocator + Copy>(
    kept: &mut KindIndex<K, S, A>,
    points: &'a StagedMap<K, S, A>,
)
    requires follows { IfSome kept.old.follows (λ seen. seen ≡ points.now) }
    requires counted { AreWith K.cmp S.above points.now.committed kept.old.committed }
    ensures committed { LosesTest K.cmp S.above points.now.committed kept.old.committed kept.new.committed }
    ensures staged { kept.new.staged ≡ kept.new.committed }
    ensures follows { IfSome kept.new.follows (λ seen. seen ≡ no_points) }
    ensures counts { kept.old.follows ≡ None → kept.new.follows ≡ None }
{
    match &mut kept.counts {
        Counts::OfOneTest(sole) => *sole = SoleTest::none(),
        Counts::OfTests(counts) => drop_counted(counts.get_mut(), points),
    }
}

/// `uncount_kind` for the lines.
#[inline]
pub(super) fn uncount_lines<A: Allocator + Copy>(
    kept: &mut KindIndex<u64, LineSum, A>,
    points: &StagedMap<u64, LineSum, A>,
)
    requires follows { IfSome kept.old.follows (λ seen. seen ≡ points.now) }
    requires counted { AreWith nat_cmp line_above points.now.committed kept.old.committed }
    ensures committed { LosesTest nat_cmp line_above points.now.committed kept.old.committed kept.new.committed }
    ensures staged { kept.new.staged ≡ kept.new.committed }
    ensures follows { IfSome kept.new.follows (λ seen. seen ≡ no_points) }
    ensures counts { kept.old.follows ≡ None → kept.new.follows ≡ None }
{
    uncount_kind(kept, points);
}

/// `uncount_kind` for the functions.
#[inline]
pub(super) fn uncount_functions<A: Allocator + Copy>(
    kept: &mut KindIndex<FunctionName<A>, FunctionSum, A>,
    points: &StagedMap<FunctionName<A>, FunctionSum, A>,
)
    requires follows { IfSome kept.old.follows (λ seen. seen ≡ points.now) }
    requires counted { AreWith (slice_cmp nat_cmp) function_above points.now.committed kept.old.committed }
    ensures committed { LosesTest (slice_cmp nat_cmp) function_above points.now.committed kept.old.committed kept.new.committed }
    ensures staged { kept.new.staged ≡ kept.new.committed }
    ensures follows { IfSome kept.new.follows (λ seen. seen ≡ no_points) }
    ensures counts { kept.old.follows ≡ None → kept.new.follows ≡ None }
{
    uncount_kind(kept, points);
}

/// `uncount_kind` for the branches.
#[inline]
pub(super) fn uncount_branches<A: Allocator + Copy>(
    kept: &mut KindIndex<Branch, BranchSum, A>,
    points: &StagedMap<Branch, BranchSum, A>,
)
    requires follows { IfSome kept.old.follows (λ seen. seen ≡ points.now) }
    requires counted { AreWith branch_cmp branch_above points.now.committed kept.old.committed }
    ensures committed { LosesTest branch_cmp branch_above points.now.committed kept.old.committed kept.new.committed }
    ensures staged { kept.new.staged ≡ kept.new.committed }
    ensures follows { IfSome kept.new.follows (λ seen. seen ≡ no_points) }
    ensures counts { kept.old.follows ≡ None → kept.new.follows ≡ None }
{
    uncount_kind(kept, points);
}

/// Removes the test whose points are `points` from the counts `kept`, and discards the staged counts.
fn drop_counted<'a, K: PointKey<'a, A> + Drop, S: PointSum, A: Allocator + Copy>(
    kept: &mut PointIndex<K, A>,
    points: &'a StagedMap<K, S, A>,
)
    requires { AreWith K.cmp S.above points.now.committed kept.old.committed }
    ensures committed { LosesTest K.cmp S.above points.now.committed kept.old.committed kept.new.committed }
    ensures staged { kept.new.staged ≡ kept.new.committed }
{
    kept.rollback();
    points.ascends();
    for (key, sum) in points.entries() {
        kept.take_test_off(key.name(), sum.is_above());
    }
}

/// Removes the test whose lines are `lines` from the holders of the lines' checksums, and discards the staged holders.
pub(super) fn release_checksums<A: Allocator + Copy>(
    checksums: &mut FileChecksums<A>,
    lines: &StagedMap<u64, LineSum, A>,
)
    requires { AreHoldersWith lines.now.committed checksums.old.committed }
    ensures committed { LosesHolders lines.now.committed checksums.old.committed checksums.new.committed }
    ensures staged { checksums.new.staged ≡ checksums.new.committed }
    ensures texts { checksums.new.texts ≡ checksums.old.texts }
{
    checksums.rollback();
    lines.ascends();
    for (line, sum) in lines.entries() {
        if sum.has_checksum {
            checksums.release(*line);
        }
    }
}

/// Returns the committed tally that `kept` would have without the test whose points are `points`. If the counts follow a test,
/// `points` must be that test's points.
fn tally_without<'a, K: PointKey<'a, A>, S: PointSum, A: Allocator>(
    kept: &KindIndex<K, S, A>,
    points: &'a StagedMap<K, S, A>,
) -> KindTally
    requires follows { IfSome kept.now.follows (λ seen. seen ≡ points.now) }
    requires counted { AreWith K.cmp S.above points.now.committed kept.now.committed }
    ensures { IsTallyWithout K.cmp S.above points.now.committed kept.now.committed result }
{
    match &kept.counts {
        Counts::OfOneTest(_) => KindTally { found: 0, hit: 0 },
        Counts::OfTests(counts) => tally_without_counted(counts.get(), points),
    }
}

/// `tally_without` for the lines.
#[inline]
pub(super) fn lines_without<A: Allocator>(
    kept: &KindIndex<u64, LineSum, A>,
    points: &StagedMap<u64, LineSum, A>,
) -> KindTally
    requires follows { IfSome kept.now.follows (λ seen. seen ≡ points.now) }
    requires counted { AreWith nat_cmp line_above points.now.committed kept.now.committed }
    ensures { IsTallyWithout nat_cmp line_above points.now.committed kept.now.committed result }
{
    tally_without(kept, points)
}

/// `tally_without` for the functions.
#[inline]
pub(super) fn functions_without<A: Allocator>(
    kept: &KindIndex<FunctionName<A>, FunctionSum, A>,
    points: &StagedMap<FunctionName<A>, FunctionSum, A>,
) -> KindTally
    requires follows { IfSome kept.now.follows (λ seen. seen ≡ points.now) }
    requires counted { AreWith (slice_cmp nat_cmp) function_above points.now.committed kept.now.committed }
    ensures { IsTallyWithout (slice_cmp nat_cmp) function_above points.now.committed kept.now.committed result }
{
    tally_without(kept, points)
}

/// `tally_without` for the branches.
#[inline]
pub(super) fn branches_without<A: Allocator>(
    kept: &KindIndex<Branch, BranchSum, A>,
    points: &StagedMap<Branch, BranchSum, A>,
) -> KindTally
    requires follows { IfSome kept.now.follows (λ seen. seen ≡ points.now) }
    requires counted { AreWith branch_cmp branch_above points.now.committed kept.now.committed }
    ensures { IsTallyWithout branch_cmp branch_above points.now.committed kept.now.committed result }
{
    tally_without(kept, points)
}

/// Returns the committed tally that `kept` would have without the test whose points are `points`.
fn tally_without_counted<'a, K: PointKey<'a, A>, S: PointSum, A: Allocator>(
    kept: &PointIndex<K, A>,
    points: &'a StagedMap<K, S, A>,
) -> KindTally
    requires { AreWith K.cmp S.above points.now.committed kept.now.committed }
    ensures { IsTallyWithout K.cmp S.above points.now.committed kept.now.committed result }
{
    let mut walk = kept.walk();
    points.ascends();
    for (key, sum) in points.entries() {
        walk = kept.walk_without(walk, key.name(), sum.is_above());
    }
    walk.tally
}
