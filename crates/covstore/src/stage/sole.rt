//! Stages items of one kind in the only test of a file, and in an index that follows this test and doesn't count points.

ghost use Rattle.std.specs.Prelude.{◌≡◌, ◌+◌, ◌≤◌, length, IfOk, OnOk};
ghost use Rattle.covmap.specs.Puts.{put, value_of};
ghost use Rattle.covmap.specs.Run.{summed};
ghost use Rattle.covstore.specs.Items.{HasRoomForRun, HasRoomOfKind, KeepsCountsOfKind};
ghost use Rattle.covstore.specs.SoleTest.{counts_of};

use crate::sole_test::SoleTest;
use crate::sums::{PointAddend, PointSum};
use covmap::{Key, Query, StagedMap};
use std::alloc::{AllocError, Allocator};

/// Adds `addend` to the test's staged sum at a point, and to the staged tally `sole`. Returns the test's earlier sum at the point,
/// or `None` if the test didn't have the point. A failed allocation keeps the committed points, but discards the staged ones.
pub(crate) fn stage_sole_addend<
    K: Key + Drop,
    S: PointSum,
    A: Allocator + Copy,
    Q: Query<K, A>,
    M: PointAddend<S>,
>(
    points: &mut StagedMap<K, S, A>,
    sole: &mut SoleTest<K, S, A>,
    alloc: A,
    query: Q,
    addend: M,
) -> Result<Option<S>, AllocError>
    requires follows { sole.old ≡ points.old }
    requires room { HasRoomOfKind K.cmp S.above points.old.staged (counts_of S.above points.old.staged) }
    ensures test_committed { points.new.committed ≡ points.old.committed }
    ensures follows { sole.new ≡ points.new }
    ensures before { IfOk result (λ before. before ≡ value_of K.cmp (Q.named query) points.old.staged) }
    ensures test { OnOk result (points.new.staged ≡ put K.cmp (Q.named query) (M.sum addend (value_of K.cmp (Q.named query) points.old.staged)) points.old.staged) }
    ensures counts { OnOk result (KeepsCountsOfKind K.cmp S.above points.old.staged points.new.staged (counts_of S.above points.old.staged) (counts_of S.above points.new.staged)) }
    ensures few { OnOk result (length (counts_of S.above points.new.staged) ≤ length (counts_of S.above points.old.staged) + 1) }
{
    let added = match points.stage_sum(alloc, query, addend, points.cursor()) {
        Ok(added) => added,
        Err(refused) => {
            points.rollback();
            sole.rollback(points);
            return Err(refused);
        }
    };
    let change = addend.report(&added.before, &added.after);
    sole.follow(points, change);
    Ok(added.before)
}

/// Stages a run of items in the test and in the tally `sole`. A failed allocation keeps the committed points, but may discard the
/// staged ones.
pub(crate) fn stage_sole_run<
    K: Key + Drop,
    S: PointSum,
    A: Allocator + Copy,
    Q: Query<K, A>,
    M: PointAddend<S>,
>(
    points: &mut StagedMap<K, S, A>,
    sole: &mut SoleTest<K, S, A>,
    alloc: A,
    run: &[(Q, M)],
) -> Result<(), AllocError>
    requires follows { sole.old ≡ points.old }
    requires room { HasRoomForRun K.cmp S.above points.old.staged (counts_of S.above points.old.staged) (length run.now) }
    ensures test_committed { points.new.committed ≡ points.old.committed }
    ensures follows { sole.new ≡ points.new }
    ensures test { OnOk result (points.new.staged ≡ summed K.cmp Q.named M.sum run.now points.old.staged) }
    ensures counts { OnOk result (KeepsCountsOfKind K.cmp S.above points.old.staged points.new.staged (counts_of S.above points.old.staged) (counts_of S.above points.new.staged)) }
{
    let mut changes = Vec::with_capacity(alloc, run.len())?;
    if let Err(refused) = points.stage_run(alloc, run, &mut changes) {
        points.rollback();
        sole.rollback(points);
        return Err(refused);
    }
    sole.follow_run(points, changes.as_slice());
    Ok(())
}
