//! The index of a file's points of one kind: how many tests have each point. Before the file gets a second test, the index stores
//! only tallies.

ghost use Rattle.std.specs.Prelude.{◌≡◌, None, IfSome, OnOk};
ghost use Rattle.covstore.specs.KindData.{empty_kind};
ghost use Rattle.covstore.specs.PointIndexCounts.{found_of, hit_of};
ghost use Rattle.covstore.specs.SoleTest.{after_commit, after_rollback};

use crate::boxed::Boxed;
use crate::point_index::{KindTally, PointIndex};
use crate::sole_test::SoleTest;
use crate::sums::PointSum;
use covmap::{CopyKey, Key, StagedMap};
use std::alloc::{AllocError, Allocator};
use std::marker::Model;

/// The counts of a kind of points, in one of two forms.
#[derive(Drop)]
pub(crate) enum Counts<K: Key, S: PointSum, A: Allocator> {
    /// The file has at most one test, which the counts follow. Each point of the test counts once.
    OfOneTest(SoleTest<K, S, A>),
    /// The points of all tests are counted. The counts are boxed, since few files have several tests.
    OfTests(Boxed<PointIndex<K, A>, A>),
}

/// For each point of one kind, how many tests of a file have the point, and how many tests hit the point (value above 0). Most
/// files have only one test, whose points imply both numbers. So points aren't counted until the file gets a second test. Contracts
/// see the counts and, while the counts follow the only test, the test's points.
#[derive(Drop)]
pub(crate) struct KindIndex<K: Key, S: PointSum, A: Allocator> {
    pub counts: Counts<K, S, A>,
}

impl<K: Key, S: PointSum, A: Allocator> Model for KindIndex<K, S, A> {
    ghost use Rattle.covstore.specs.KindData.{KindData};

    ghost Value = { KindData K S };

    ghost use Rattle.covstore.specs.KindIndex.{kind_data};

    ghost view = { λ k. kind_data S.above k.counts };
}

impl<K: Key + Drop, S: PointSum, A: Allocator + Copy> KindIndex<K, S, A> {
    /// The index of a file without tests.
    pub(crate) fn new() -> KindIndex<K, S, A>
        ensures { result ≡ empty_kind }
    {
        KindIndex {
            counts: Counts::OfOneTest(SoleTest::none()),
        }
    }

    /// The staged tally: how many points are found, and how many are hit.
    pub(crate) fn staged(&self) -> KindTally
        ensures found { result.found ≡ found_of self.now.staged }
        ensures hit { result.hit ≡ hit_of self.now.staged }
    {
        match &self.counts {
            Counts::OfOneTest(sole) => sole.staged(),
            Counts::OfTests(counts) => counts.get().staged(),
        }
    }

    /// The committed tally: how many points are found, and how many are hit.
    pub(crate) fn committed(&self) -> KindTally
        ensures found { result.found ≡ found_of self.now.committed }
        ensures hit { result.hit ≡ hit_of self.now.committed }
    {
        match &self.counts {
            Counts::OfOneTest(sole) => sole.committed(),
            Counts::OfTests(counts) => counts.get().committed(),
        }
    }

    /// Commits the staged values. If the counts follow a test, `points` must be that test's points, already committed.
    pub(crate) fn commit(&mut self, points: &StagedMap<K, S, A>)
        requires { IfSome self.old.follows (λ seen. points.now ≡ after_commit seen) }
        ensures committed { self.new.committed ≡ self.old.staged }
        ensures staged { self.new.staged ≡ self.old.staged }
        ensures follows { IfSome self.new.follows (λ seen. seen ≡ points.now) }
        ensures counted { self.old.follows ≡ None → self.new.follows ≡ None }
    {
        match &mut self.counts {
            Counts::OfOneTest(sole) => sole.commit(points),
            Counts::OfTests(counts) => counts.get_mut().commit(),
        }
    }

    /// Discards the staged values. If the counts follow a test, `points` must be that test's points, already rolled back.
    pub(crate) fn rollback(&mut self, points: &StagedMap<K, S, A>)
        requires { IfSome self.old.follows (λ seen. points.now ≡ after_rollback seen) }
        ensures committed { self.new.committed ≡ self.old.committed }
        ensures staged { self.new.staged ≡ self.old.committed }
        ensures follows { IfSome self.new.follows (λ seen. seen ≡ points.now) }
        ensures counted { self.old.follows ≡ None → self.new.follows ≡ None }
    {
        match &mut self.counts {
            Counts::OfOneTest(sole) => sole.rollback(points),
            Counts::OfTests(counts) => counts.get_mut().rollback(),
        }
    }
}

impl<K: CopyKey<A> + Drop, S: PointSum, A: Allocator + Copy> KindIndex<K, S, A> {
    /// Makes the index count points, unless it does so already. If the counts follow a test, `points` must be that test's points.
    ///
    /// # Errors
    ///
    /// `AllocError` if an allocation failed.
    pub(crate) fn start_counting(
        &mut self,
        alloc: A,
        points: &StagedMap<K, S, A>,
    ) -> Result<(), AllocError>
        requires { IfSome self.old.follows (λ seen. seen ≡ points.now) }
        ensures committed { self.new.committed ≡ self.old.committed }
        ensures staged { self.new.staged ≡ self.old.staged }
        ensures follows { IfSome self.new.follows (λ seen. seen ≡ points.now) }
        ensures counted { self.old.follows ≡ None → self.new.follows ≡ None }
        ensures ok { OnOk result (self.new.follows ≡ None) }
    {
        if let Counts::OfOneTest(sole) = &self.counts {
            let counted = sole.counted(alloc, points)?;
            self.counts = Counts::OfTests(Boxed::new(alloc, counted)?);
        }
        Ok(())
    }
}
