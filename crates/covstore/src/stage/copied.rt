//! Adds the points of a test to another test of the same file.

ghost use Rattle.std.specs.Prelude.{◌≡◌, None, length, IfSome, OnOk};
ghost use Rattle.covmap.specs.Puts.{ArePairs};
ghost use Rattle.covmap.specs.Run.{summed};
ghost use Rattle.covstore.specs.FileIndexView.{KeepsCommitted, index_staged};
ghost use Rattle.covstore.specs.Follows.{Follows, StillFollows};
ghost use Rattle.covstore.specs.Items.{HasRoomForRun, KeepsCountsOfKind};
ghost use Rattle.covstore.specs.Renaming.{AddsPoints, HasHolders, HasRoomForPoints, held_again};
ghost use Rattle.covstore.specs.Runs.{as_run};
ghost use Rattle.covstore.specs.TestView.{test_staged, test_committed};
ghost use Rattle.std.specs.Ordering.{nat_cmp};

use crate::file_checksums::FileChecksums;
use crate::index::FileIndex;
use crate::keys::PointKey;
use crate::kind_index::KindIndex;
use crate::stage::one_item::stage_addend;
use crate::sums::{BranchAddend, FunctionAddend, LineAddend, LineSum, PointAddend, PointSum};
use crate::test::Test;
use covdata::Memory;
use covmap::{SlotIndex, StagedMap};
use std::alloc::{AllocError, Allocator};

/// Adds the points of `source` to `test`, and stages the changes in the index. Both tests must belong to the file of `index`.
pub(crate) fn stage_points<A: Allocator + Copy>(
    test: &mut Test<A>,
    index: &mut FileIndex<A>,
    alloc: A,
    source: &Test<A>,
) -> Result<(), Memory>
    requires follows { Follows test.old index.old }
    requires room { HasRoomForPoints (test_committed source.now) (test_staged test.old) (index_staged index.old) }
    ensures test_committed { test_committed test.new ≡ test_committed test.old }
    ensures index_committed { KeepsCommitted index.old index.new }
    ensures follows { StillFollows index.old test.new index.new }
    ensures ok { OnOk result (AddsPoints (test_committed source.now) (test_staged test.old) (index_staged index.old) (test_staged test.new) (index_staged index.new)) }
{
    hold_again(&mut index.checksums, alloc, &source.lines, &test.lines)?;
    add_points::<LineAddend, _, _, _>(&mut test.lines, &mut index.lines, alloc, &source.lines)?;
    add_points::<FunctionAddend, _, _, _>(
        &mut test.functions,
        &mut index.functions,
        alloc,
        &source.functions,
    )?;
    add_points::<BranchAddend, _, _, _>(
        &mut test.branches,
        &mut index.branches,
        alloc,
        &source.branches,
    )?;
    Ok(())
}

/// Stages the checksums of `lines` as held by one more test, whose lines are `points`. A checksum that this test holds already
/// isn't counted again. Each checksum must have a holder.
fn hold_again<A: Allocator + Copy>(
    checksums: &mut FileChecksums<A>,
    alloc: A,
    lines: &StagedMap<u64, LineSum, A>,
    points: &StagedMap<u64, LineSum, A>,
) -> Result<(), Memory>
    requires { HasHolders lines.now.committed checksums.old.staged }
    ensures ascending { ArePairs nat_cmp lines.now.committed }
    ensures committed { checksums.new.committed ≡ checksums.old.committed }
    ensures texts { checksums.new.texts ≡ checksums.old.texts }
    ensures ok { OnOk result (checksums.new.staged ≡ held_again lines.now.committed points.now.staged checksums.old.staged) }
{
    let mut place = SlotIndex::first();
    lines.ascends();
    for (line, sum) in lines.entries() {
        if sum.has_checksum {
            let (own, next) = points.staged_at(*line, place);
            checksums.hold_again(alloc, *line, LineSum::is_checked(&own))?;
            place = next;
        }
    }
    Ok(())
}

/// Adds the sums of `source` to the sums of a test at the same points, and stages the changes in the index.
fn add_points<'a, M: PointAddend<S>, K: PointKey<'a, A> + Drop, S: PointSum, A: Allocator + Copy>(
    points: &mut StagedMap<K, S, A>,
    kept: &mut KindIndex<K, S, A>,
    alloc: A,
    source: &'a StagedMap<K, S, A>,
) -> Result<(), AllocError>
    requires follows { IfSome kept.old.follows (λ seen. seen ≡ points.old) }
    requires room { HasRoomForRun K.cmp S.above points.old.staged kept.old.staged (length source.now.committed) }
    ensures test_committed { points.new.committed ≡ points.old.committed }
    ensures index_committed { kept.new.committed ≡ kept.old.committed }
    ensures follows { IfSome kept.new.follows (λ seen. seen ≡ points.new) }
    ensures counted { kept.old.follows ≡ None → kept.new.follows ≡ None }
    ensures test { OnOk result (points.new.staged ≡ summed K.cmp (λ key. key) M.sum (as_run M.addend source.now.committed) points.old.staged) }
    ensures counts { OnOk result (KeepsCountsOfKind K.cmp S.above points.old.staged points.new.staged kept.old.staged kept.new.staged) }
{
    for (key, sum) in source.entries() {
        stage_addend(points, kept, alloc, key.name(), M::of(sum))?;
    }
    Ok(())
}
