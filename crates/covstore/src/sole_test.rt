//! The tallies of a kind of points in a file that has at most one test.

ghost use Rattle.std.specs.Prelude.{◌≡◌, ◌+◌, ◌<◌, ◌≤◌, ◌^◌, length, count_by, IfOk};
ghost use Rattle.covstore.specs.PointIndexCounts.{found_of, hit_of};
ghost use Rattle.covstore.specs.SoleTest.{after_commit, after_rollback, counts_of, no_points};

use crate::point_index::{KindTally, PointIndex};
use crate::sums::{PointSum, TestsAddend};
use covmap::{CopyKey, Key, StagedMap};
use std::alloc::{AllocError, Allocator};
use std::marker::Model;
use std::snapshot::Snapshot;

/// The tallies of a kind of points in a file that has at most one test. The points are stored only in the test, and no counts are
/// stored, since each point counts once. Contracts see the test's points as of the last `follow`, `follow_run`, `commit` or
/// `rollback`.
#[derive(Drop)]
pub(crate) struct SoleTest<K: Key, S: PointSum, A: Allocator> {
    seen: Option<Snapshot<StagedMap<K, S, A>>>,
    totals: KindTally,
    staged_totals: KindTally,
}

impl<K: Key, S: PointSum, A: Allocator> Model for SoleTest<K, S, A> {
    ghost use Rattle.std.specs.Prelude.{option_map};
    ghost use Rattle.covmap.specs.MapData.{MapData};
    ghost use Rattle.covstore.specs.PointIndex.{IsTallyOf};
    ghost use Rattle.covstore.specs.SoleTest.{counts_of, points_seen};

    ghost Value = { MapData K S };

    ghost view = { λ t. points_seen (option_map (λ seen. seen.value) t.seen) };

    ghost invariant = { λ t. IsTallyOf (counts_of S.above (points_seen (option_map (λ seen. seen.value) t.seen)).committed) t.totals × IsTallyOf (counts_of S.above (points_seen (option_map (λ seen. seen.value) t.seen)).staged) t.staged_totals };
}

impl<K: Key, S: PointSum, A: Allocator> SoleTest<K, S, A> {
    ghost use Rattle.covstore.specs.SoleTest.{found_by, hit_by};

    /// The tallies of a file without tests.
    pub(crate) fn none() -> SoleTest<K, S, A>
        ensures { result ≡ no_points }
    {
        let none = KindTally { found: 0, hit: 0 };
        SoleTest {
            seen: None,
            totals: none,
            staged_totals: none,
        }
    }

    /// Updates the staged tally after an item was staged in the test. `points` are the test's points. `change` is the change of the
    /// item's point; `None` changes nothing.
    pub(crate) fn follow(&mut self, points: &StagedMap<K, S, A>, change: Option<TestsAddend>)
        requires few { length (counts_of S.above self.old.staged) < 2 ^ 63 }
        requires committed { points.now.committed ≡ self.old.committed }
        requires found { found_of (counts_of S.above points.now.staged) ≡ found_of (counts_of S.above self.old.staged) + found_by change }
        requires hit { hit_of (counts_of S.above points.now.staged) ≡ hit_of (counts_of S.above self.old.staged) + hit_by change }
        ensures { self.new ≡ points.now }
    {
        self.seen = Some(Snapshot::of(points));
        self.staged_totals = self.staged_totals.with_change(change);
    }

    /// Updates the staged tally after a run of items was staged in the test. `points` are the test's points. `changes` are the
    /// changes of the items' points.
    pub(crate) fn follow_run<Q>(
        &mut self,
        points: &StagedMap<K, S, A>,
        changes: &[(Q, TestsAddend)],
    )
        requires few { length (counts_of S.above self.old.staged) + length changes.now ≤ 2 ^ 63 }
        requires committed { points.now.committed ≡ self.old.committed }
        requires found { found_of (counts_of S.above points.now.staged) ≡ found_of (counts_of S.above self.old.staged) + count_by (λ item. item.1.is_new) changes.now }
        requires hit { hit_of (counts_of S.above points.now.staged) ≡ hit_of (counts_of S.above self.old.staged) + count_by (λ item. item.1.is_hit) changes.now }
        ensures { self.new ≡ points.now }
    {
        self.seen = Some(Snapshot::of(points));
        self.staged_totals = self.staged_totals.with_reports(changes);
    }

    /// Commits the staged tally after the test's points were committed.
    pub(crate) fn commit(&mut self, points: &StagedMap<K, S, A>)
        requires { points.now ≡ after_commit self.old }
        ensures { self.new ≡ points.now }
    {
        self.seen = Some(Snapshot::of(points));
        self.totals = self.staged_totals;
    }

    /// Discards the staged tally after the test's points were rolled back.
    pub(crate) fn rollback(&mut self, points: &StagedMap<K, S, A>)
        requires { points.now ≡ after_rollback self.old }
        ensures { self.new ≡ points.now }
    {
        self.seen = Some(Snapshot::of(points));
        self.staged_totals = self.totals;
    }

    /// The staged tally.
    pub(crate) fn staged(&self) -> KindTally
        ensures found { result.found ≡ found_of (counts_of S.above self.now.staged) }
        ensures hit { result.hit ≡ hit_of (counts_of S.above self.now.staged) }
    {
        self.staged_totals
    }

    /// The committed tally.
    pub(crate) fn committed(&self) -> KindTally
        ensures found { result.found ≡ found_of (counts_of S.above self.now.committed) }
        ensures hit { result.hit ≡ hit_of (counts_of S.above self.now.committed) }
    {
        self.totals
    }
}

impl<K: CopyKey<A> + Drop, S: PointSum, A: Allocator + Copy> SoleTest<K, S, A> {
    /// Makes an index in which each of the test's points counts once. `points` must be the test's points as of the last update.
    ///
    /// # Errors
    ///
    /// `AllocError` if an allocation failed.
    pub(crate) fn counted(
        &self,
        alloc: A,
        points: &StagedMap<K, S, A>,
    ) -> Result<PointIndex<K, A>, AllocError>
        requires { self.now ≡ points.now }
        ensures committed { IfOk result (λ counts. counts.committed ≡ counts_of S.above self.now.committed) }
        ensures staged { IfOk result (λ counts. counts.staged ≡ counts_of S.above self.now.staged) }
    {
        let counts = points.images(alloc)?;
        Ok(PointIndex::of(counts, self.totals, self.staged_totals))
    }
}
