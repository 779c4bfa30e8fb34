//! Stages a run of items of one kind, in their test and in the file's index.

ghost use Rattle.std.specs.Prelude.{◌≡◌, None, length, IfSome, OnOk};
ghost use Rattle.covmap.specs.Run.{summed};
ghost use Rattle.covstore.specs.Items.{HasRoomForRun, KeepsCountsOfKind};

use crate::kind_index::{Counts, KindIndex};
use crate::stage::counted::stage_counted_run;
use crate::stage::one_item::stage_addend;
use crate::stage::sole::stage_sole_run;
use crate::sums::{PointAddend, PointSum};
use covmap::{Key, Query, StagedMap};
use std::alloc::{AllocError, Allocator};

/// Stages a run of items of one kind, in their test and in the file's index.
pub(crate) fn stage_whole_run<
    K: Key + Drop,
    S: PointSum,
    A: Allocator + Copy,
    Q: Query<K, A>,
    M: PointAddend<S>,
>(
    points: &mut StagedMap<K, S, A>,
    kept: &mut KindIndex<K, S, A>,
    alloc: A,
    run: &[(Q, M)],
) -> Result<(), AllocError>
    requires follows { IfSome kept.old.follows (λ seen. seen ≡ points.old) }
    requires room { HasRoomForRun K.cmp S.above points.old.staged kept.old.staged (length run.now) }
    ensures test_committed { points.new.committed ≡ points.old.committed }
    ensures index_committed { kept.new.committed ≡ kept.old.committed }
    ensures follows { IfSome kept.new.follows (λ seen. seen ≡ points.new) }
    ensures counted { kept.old.follows ≡ None → kept.new.follows ≡ None }
    ensures test { OnOk result (points.new.staged ≡ summed K.cmp Q.named M.sum run.now points.old.staged) }
    ensures counts { OnOk result (KeepsCountsOfKind K.cmp S.above points.old.staged points.new.staged kept.old.staged kept.new.staged) }
{
    if run.is_empty() {
        return Ok(());
    }
    match &mut kept.counts {
        Counts::OfOneTest(sole) => stage_sole_run(points, sole, alloc, run),
        Counts::OfTests(counts) => stage_counted_run(points, counts.get_mut(), alloc, run),
    }
}

/// Stages a run of items of one kind, one by one. This is faster than `stage_whole_run` if the items aren't in the order of
/// their points.
pub(crate) fn stage_one_by_one<
    K: Key + Drop,
    S: PointSum,
    A: Allocator + Copy,
    Q: Query<K, A>,
    M: PointAddend<S>,
>(
    points: &mut StagedMap<K, S, A>,
    kept: &mut KindIndex<K, S, A>,
    alloc: A,
    run: &[(Q, M)],
) -> Result<(), AllocError>
    requires follows { IfSome kept.old.follows (λ seen. seen ≡ points.old) }
    requires room { HasRoomForRun K.cmp S.above points.old.staged kept.old.staged (length run.now) }
    ensures test_committed { points.new.committed ≡ points.old.committed }
    ensures index_committed { kept.new.committed ≡ kept.old.committed }
    ensures follows { IfSome kept.new.follows (λ seen. seen ≡ points.new) }
    ensures counted { kept.old.follows ≡ None → kept.new.follows ≡ None }
    ensures test { OnOk result (points.new.staged ≡ summed K.cmp Q.named M.sum run.now points.old.staged) }
    ensures counts { OnOk result (KeepsCountsOfKind K.cmp S.above points.old.staged points.new.staged kept.old.staged kept.new.staged) }
{
    let mut rest = run;
    while let Some((item, others)) = rest.split_first() {
        let (query, addend) = *item;
        stage_addend(points, kept, alloc, query, addend)?;
        rest = others;
    }
    Ok(())
}
