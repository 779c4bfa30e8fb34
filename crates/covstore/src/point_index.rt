//! The counts of a kind of points: how many tests of a file have each point, and how many tests hit the point (value above 0). Also
//! the tally of all points.

ghost use Rattle.std.specs.Prelude.{◌≡◌, ◌+◌, ◌<◌, ◌≤◌, ◌^◌, IfSome, OnOk, length};
ghost use Rattle.covstore.specs.PointIndex.{changed};
ghost use Rattle.covstore.specs.PointIndexCounts.{found_of, hit_of, tests_fit, test_counts_with};
ghost use Rattle.covmap.specs.Puts.{ArePairs, value_of};
ghost use Rattle.covmap.specs.Run.{FitRun, summed};

use crate::sums::{TestCounts, TestsAddend};
use covmap::{Key, Query, SlotIndex, StagedMap};
use std::alloc::{AllocError, Allocator};
use std::marker::Model;

/// How many points are found, and how many are hit.
#[derive(Clone, Copy)]
pub(crate) struct KindTally {
    pub found: u64,
    pub hit: u64,
}

impl KindTally {
    ghost use Rattle.std.specs.Prelude.{nat_lt, count_by};
    ghost use Rattle.covstore.specs.PointIndexCounts.{is_above_at, is_new, one_if};
    ghost use Rattle.covstore.specs.PointIndexDrops.{CanBeLess, IsLess};
    ghost use Rattle.covstore.specs.SoleTest.{found_by, hit_by};

    /// Returns the tally after a point's counts grow from `before` to `after`. The point is newly found if `before` is `None`. The
    /// point is newly hit if some test hits it in `after` but none in `before`.
    fn more(self, before: &Option<TestCounts>, after: &TestCounts) -> KindTally
        requires found { self.found < 2 ^ 63 }
        requires hit { self.hit < 2 ^ 63 }
        requires rises { IfSome before.now (λ numbers. numbers.hit ≤ after.now.hit) }
        ensures found { result.found ≡ self.found + one_if (is_new before.now) }
        ensures hit { result.hit + one_if (is_above_at (λ numbers. nat_lt 0 numbers.hit) before.now) ≡ self.hit + one_if (nat_lt 0 after.now.hit) }
    {
        let was_hit = TestCounts::is_hit(before);
        let is_new = before.is_none();
        KindTally {
            found: self.found + u64::from(is_new),
            hit: self.hit + u64::from(after.hit.get() > 0 && !was_hit),
        }
    }

    /// Returns the tally after a point is newly found, newly hit, or both. `None` changes nothing.
    pub(crate) fn with_change(self, change: Option<TestsAddend>) -> KindTally
        requires found { self.found < 2 ^ 63 }
        requires hit { self.hit < 2 ^ 63 }
        ensures found { result.found ≡ self.found + found_by change }
        ensures hit { result.hit ≡ self.hit + hit_by change }
    {
        match change {
            Some(more) => KindTally {
                found: self.found + u64::from(more.is_new),
                hit: self.hit + u64::from(more.is_hit),
            },
            None => self,
        }
    }

    /// Returns the tally after the counts of several points grow. `reports` lists the points that are newly found, newly hit, or
    /// both.
    pub(crate) fn with_reports<Q>(self, reports: &[(Q, TestsAddend)]) -> KindTally
        requires found { self.found + length reports.now ≤ 2 ^ 63 }
        requires hit { self.hit + length reports.now ≤ 2 ^ 63 }
        ensures found { result.found ≡ self.found + count_by (λ item. item.1.is_new) reports.now }
        ensures hit { result.hit ≡ self.hit + count_by (λ item. item.1.is_hit) reports.now }
    {
        let mut tally = self;
        for item in reports {
            tally.found += u64::from(item.1.is_new);
            tally.hit += u64::from(item.1.is_hit);
        }
        tally
    }

    /// Returns the tally after a point's counts fall from `before` to `after`. If no test has the point any more, one point fewer
    /// is found. If the point was hit and isn't hit any more, one point fewer is hit.
    fn less(self, before: &TestCounts, after: &Option<TestCounts>) -> KindTally
        requires { CanBeLess self before.now after.now }
        ensures { IsLess self before.now after.now result }
    {
        // A point never becomes hit when its counts fall. So if `stays_hit` is false, the point was hit before and isn't hit any
        // more.
        let stays = after.is_some();
        let stays_hit = (before.hit.get() > 0) == TestCounts::is_hit(after);
        KindTally {
            found: if stays { self.found } else { self.found - 1 },
            hit: if stays_hit { self.hit } else { self.hit - 1 },
        }
    }
}

/// A walk over the points of a test. `tally` is the tally without this test's share in the points that the walk has passed. `place`
/// is the slot that is tried first for the next point.
#[derive(Clone, Copy)]
pub(crate) struct TallyWalk {
    pub tally: KindTally,
    place: SlotIndex,
}

/// The counts of a kind of points: how many tests of a file have each point, and how many tests hit the point (value above 0). Both
/// counts of a point have a committed and a staged value. Contracts see the points with their counts.
#[derive(Drop)]
pub(crate) struct PointIndex<K: Key, A: Allocator> {
    counts: StagedMap<K, TestCounts, A>,
    totals: KindTally,
    staged_totals: KindTally,
}

impl<K: Key, A: Allocator> Model for PointIndex<K, A> {
    ghost use Rattle.covstore.specs.declared.sums.TestCounts.{TestCounts};
    ghost use Rattle.covmap.specs.MapData.{MapData};
    ghost use Rattle.covstore.specs.PointIndex.{IsTallyOf};

    ghost Value = { MapData K TestCounts };

    ghost view = { λ k. k.counts };

    ghost invariant = { λ k. IsTallyOf k.counts.committed k.totals × IsTallyOf k.counts.staged k.staged_totals };
}

impl<K: Key + Drop, A: Allocator + Copy> PointIndex<K, A> {
    ghost use Rattle.covstore.specs.PointIndex.{IsTallyOf};

    /// Makes an index of `counts`. `totals` is the tally of the committed counts, and `staged_totals` the tally of the staged
    /// counts.
    pub(crate) fn of(
        counts: StagedMap<K, TestCounts, A>,
        totals: KindTally,
        staged_totals: KindTally,
    ) -> PointIndex<K, A>
        requires committed { IsTallyOf counts.committed totals }
        requires staged { IsTallyOf counts.staged staged_totals }
        ensures { result ≡ counts }
    {
        PointIndex {
            counts,
            totals,
            staged_totals,
        }
    }

    /// Stages a test's change of a point's counts. `None` changes nothing. `guess` is the point's slot in the test's map. The point
    /// is found without a search if it has the same slot in this index, as is usual if the test has all points of the file.
    pub(crate) fn add<Q: Query<K, A>>(
        &mut self,
        alloc: A,
        query: Q,
        change: Option<TestsAddend>,
        guess: SlotIndex,
    ) -> Result<(), AllocError>
        requires few { length self.old.staged < 2 ^ 63 }
        requires room { IfSome (value_of K.cmp (Q.named query) self.old.staged) (λ numbers. (numbers.tests ≤ 2 ^ 63) × (numbers.hit ≤ 2 ^ 63)) }
        ensures committed { self.new.committed ≡ self.old.committed }
        ensures ok { OnOk result (self.new.staged ≡ changed K.cmp (Q.named query) change self.old.staged) }
    {
        let Some(more) = change else {
            return Ok(());
        };
        let added = match self.counts.stage_sum(alloc, query, more, guess) {
            Ok(added) => added,
            Err(refused) => {
                self.counts.rollback();
                self.staged_totals = self.totals;
                return Err(refused);
            }
        };
        self.staged_totals = self.staged_totals.more(&added.before, &added.after);
        Ok(())
    }

    /// Stages a batch of changes to the counts of several points. A failed allocation may discard the staged values.
    pub(crate) fn add_run<Q: Query<K, A>>(
        &mut self,
        alloc: A,
        changes: &[(Q, TestsAddend)],
    ) -> Result<(), AllocError>
        requires few { length self.old.staged + length changes.now ≤ 2 ^ 63 }
        requires ascending { ArePairs K.cmp self.old.staged }
        requires fits { FitRun K.cmp Q.named tests_fit test_counts_with changes.now self.old.staged }
        ensures committed { self.new.committed ≡ self.old.committed }
        ensures ok { OnOk result (self.new.staged ≡ summed K.cmp Q.named test_counts_with changes.now self.old.staged) }
    {
        if changes.is_empty() {
            return Ok(());
        }
        let mut reports = Vec::with_capacity(alloc, changes.len())?;
        if let Err(refused) = self.counts.stage_run(alloc, changes, &mut reports) {
            self.counts.rollback();
            self.staged_totals = self.totals;
            return Err(refused);
        }
        self.staged_totals = self.staged_totals.with_reports(reports.as_slice());
        Ok(())
    }

    /// Commits the staged values.
    pub(crate) fn commit(&mut self)
        ensures committed { self.new.committed ≡ self.old.staged }
        ensures staged { self.new.staged ≡ self.old.staged }
    {
        self.counts.commit();
        self.totals = self.staged_totals;
    }

    /// Discards the staged values.
    pub(crate) fn rollback(&mut self)
        ensures committed { self.new.committed ≡ self.old.committed }
        ensures staged { self.new.staged ≡ self.old.committed }
    {
        self.counts.rollback();
        self.staged_totals = self.totals;
    }

    /// The staged tally: how many points are found, and how many are hit.
    pub(crate) fn staged(&self) -> KindTally
        ensures found { result.found ≡ found_of self.now.staged }
        ensures hit { result.hit ≡ hit_of self.now.staged }
    {
        self.staged_totals
    }

    /// The committed tally: how many points are found, and how many are hit.
    pub(crate) fn committed(&self) -> KindTally
        ensures found { result.found ≡ found_of self.now.committed }
        ensures hit { result.hit ≡ hit_of self.now.committed }
    {
        self.totals
    }
}

impl<K: Key, A: Allocator> PointIndex<K, A> {
    ghost use Rattle.std.specs.Prelude.{List};
    ghost use Rattle.covstore.specs.declared.sums.TestCounts.{TestCounts};
    ghost use Rattle.covstore.specs.PointIndex.{IsTallyOf};
    ghost use Rattle.covstore.specs.PointIndexDrops.{CanLose, IsTallyAt, counts_without};

    /// Removes one test from the committed counts of a point, and discards the staged values. `was_above` says whether that test
    /// hits the point. The index must have the point.
    pub(crate) fn take_test_off<Q: Query<K, A>>(&mut self, query: Q, was_above: bool)
        requires { CanLose was_above (value_of K.cmp (Q.named query) self.old.committed) }
        ensures committed { self.new.committed ≡ counts_without K.cmp (Q.named query) was_above self.old.committed }
        ensures staged { self.new.staged ≡ self.new.committed }
    {
        if let Some(before) = self.counts.lookup(query) {
            let after = before.fewer(was_above);
            self.totals = self.totals.less(&before, &after);
            self.staged_totals = self.totals;
            self.counts.replace(query, after);
        }
    }

    /// Returns a walk that hasn't passed any point. The walk's tally is the committed tally.
    pub(crate) fn walk(&self) -> TallyWalk
        ensures { IsTallyOf self.now.committed result.tally }
    {
        TallyWalk {
            tally: self.totals,
            place: SlotIndex::first(),
        }
    }

    /// Returns `walk` after one more point. The new tally counts one test fewer at that point. `was_above` says whether the test
    /// hits the point. The index doesn't change.
    pub(crate) fn walk_without<Q: Query<K, A>>(
        &self,
        walk: TallyWalk,
        query: Q,
        was_above: bool,
    ) -> TallyWalk
        requires lose { CanLose was_above (value_of K.cmp (Q.named query) self.now.committed) }
        requires at { (others : List (K × TestCounts)) × IsTallyAt K.cmp (Q.named query) self.now.committed others walk.tally }
        ensures { (others : List (K × TestCounts)) → IsTallyAt K.cmp (Q.named query) self.now.committed others walk.tally → IsTallyOf (counts_without K.cmp (Q.named query) was_above others) result.tally }
    {
        let (numbers, place) = self.counts.lookup_at(query, walk.place);
        let Some(before) = numbers else {
            return walk;
        };
        let after = before.fewer(was_above);
        TallyWalk {
            tally: walk.tally.less(&before, &after),
            place,
        }
    }
}
