//! Stages items of one kind, in their test and in an index that counts points instead of following a test.

ghost use Rattle.std.specs.Prelude.{◌≡◌, ◌+◌, ◌≤◌, length, IfOk, OnOk};
ghost use Rattle.covmap.specs.Puts.{put, value_of};
ghost use Rattle.covmap.specs.Run.{summed};
ghost use Rattle.covstore.specs.Items.{HasRoomForRun, HasRoomOfKind, KeepsCountsOfKind};

use crate::point_index::PointIndex;
use crate::sums::{PointAddend, PointSum};
use covmap::{Key, Query, StagedMap};
use std::alloc::{AllocError, Allocator};

/// Adds `addend` to the test's staged sum at a point, and stages the change of the point's counts in the index. Returns the test's
/// earlier sum at the point, or `None` if the test didn't have the point.
pub(crate) fn stage_counted_addend<
    K: Key + Drop,
    S: PointSum,
    A: Allocator + Copy,
    Q: Query<K, A>,
    M: PointAddend<S>,
>(
    points: &mut StagedMap<K, S, A>,
    kept: &mut PointIndex<K, A>,
    alloc: A,
    query: Q,
    addend: M,
) -> Result<Option<S>, AllocError>
    requires { HasRoomOfKind K.cmp S.above points.old.staged kept.old.staged }
    ensures test_committed { points.new.committed ≡ points.old.committed }
    ensures index_committed { kept.new.committed ≡ kept.old.committed }
    ensures before { IfOk result (λ before. before ≡ value_of K.cmp (Q.named query) points.old.staged) }
    ensures test { OnOk result (points.new.staged ≡ put K.cmp (Q.named query) (M.sum addend (value_of K.cmp (Q.named query) points.old.staged)) points.old.staged) }
    ensures counts { OnOk result (KeepsCountsOfKind K.cmp S.above points.old.staged points.new.staged kept.old.staged kept.new.staged) }
    ensures few { OnOk result (length kept.new.staged ≤ length kept.old.staged + 1) }
{
    let added = points.stage_sum(alloc, query, addend, points.cursor())?;
    let change = addend.report(&added.before, &added.after);
    kept.add(alloc, query, change, added.place)?;
    Ok(added.before)
}

/// Stages a run of items in the test and in the index.
pub(crate) fn stage_counted_run<
    K: Key + Drop,
    S: PointSum,
    A: Allocator + Copy,
    Q: Query<K, A>,
    M: PointAddend<S>,
>(
    points: &mut StagedMap<K, S, A>,
    kept: &mut PointIndex<K, A>,
    alloc: A,
    run: &[(Q, M)],
) -> Result<(), AllocError>
    requires { HasRoomForRun K.cmp S.above points.old.staged kept.old.staged (length run.now) }
    ensures test_committed { points.new.committed ≡ points.old.committed }
    ensures index_committed { kept.new.committed ≡ kept.old.committed }
    ensures test { OnOk result (points.new.staged ≡ summed K.cmp Q.named M.sum run.now points.old.staged) }
    ensures counts { OnOk result (KeepsCountsOfKind K.cmp S.above points.old.staged points.new.staged kept.old.staged kept.new.staged) }
{
    let mut changes = Vec::with_capacity(alloc, run.len())?;
    points.stage_run(alloc, run, &mut changes)?;
    kept.add_run(alloc, changes.as_slice())
}
