//! Stages a run: a list of keys with addends.

ghost use Rattle.std.specs.Prelude.{◌≡◌, ◌<◌, ◌≤◌, ◌++◌, IfOk, OnOk, length, take};
ghost use Rattle.covmap.specs.Run.{FitRun, summed, reports_run};

use crate::key::{Key, Query, ReportingAddend, Value};
use crate::map::StagedMap;
use crate::slots::run::make_slots;
use std::alloc::{AllocError, Allocator};

impl<K: Key + Drop, V: Value, A: Allocator + Copy> StagedMap<K, V, A> {
    /// Adds each item's addend to the staged value of the item's key, in the order of `run`, and stages the sums. Appends the
    /// addends' reports to `reports`. Keys may come in any order and may repeat.
    ///
    /// Ascending keys that have slots cost one look-up per page. New keys above all existing keys begin a new page together, unless
    /// fewer than 32 items are left and the last page isn't full. Any other new key is inserted separately.
    ///
    /// # Errors
    ///
    /// `AllocError` if an allocation failed. The staged values are then unspecified, so call `rollback`.
    pub fn stage_run<Q: Query<K, A>, N: Drop, M: ReportingAddend<V, N>>(
        &mut self,
        alloc: A,
        run: &[(Q, M)],
        reports: &mut Vec<(Q, N), A>,
    ) -> Result<(), AllocError>
        requires { FitRun K.cmp Q.named M.fits M.sum run.now self.old.staged }
        ensures committed { self.new.committed ≡ self.old.committed }
        ensures ok { OnOk result (self.new.staged ≡ summed K.cmp Q.named M.sum run.now self.old.staged) }
        ensures reports { OnOk result (reports.new.items ≡ reports.old.items ++ reports_run K.cmp Q.named M.sum M.reports run.now self.old.staged) }
    {
        let mut rest = run;
        while !rest.is_empty() {
            let count = self.stage_some(alloc, rest, reports)?;
            rest = rest.split_at(count).1;
        }
        Ok(())
    }

    /// Stages one or more items at the front of a run, which must not be empty. Returns the number of items staged.
    fn stage_some<Q: Query<K, A>, N: Drop, M: ReportingAddend<V, N>>(
        &mut self,
        alloc: A,
        run: &[(Q, M)],
        reports: &mut Vec<(Q, N), A>,
    ) -> Result<usize, AllocError>
        requires some { 0 < length run.now }
        requires fits { FitRun K.cmp Q.named M.fits M.sum run.now self.old.staged }
        ensures committed { self.new.committed ≡ self.old.committed }
        ensures count { IfOk result (λ count. (0 < count) × (count ≤ length run.now)) }
        ensures ok { IfOk result (λ count. self.new.staged ≡ summed K.cmp Q.named M.sum (take count run.now) self.old.staged) }
        ensures reports { IfOk result (λ count. reports.new.items ≡ reports.old.items ++ reports_run K.cmp Q.named M.sum M.reports (take count run.now) self.old.staged) }
    {
        let place = make_slots(&mut self.slots, &mut self.staged, alloc, run, self.cursor)?;
        let along = self
            .staged
            .add_run(alloc, &self.slots, place, run, reports)?;
        self.cursor = place.at(along.next);
        Ok(along.count)
    }
}
