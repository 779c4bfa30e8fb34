//! Adds a run of keys with addends to the staged values of one page.

ghost use Rattle.std.specs.Prelude.{◌≡◌, ◌<◌, ◌≤◌, ◌++◌, IfOk, length, take};
ghost use Rattle.covmap.specs.Run.{FitRun, summed, reports_run};
ghost use Rattle.covmap.specs.RunPage.{FirstHere};
ghost use Rattle.covmap.specs.Slots.{filled, page_at, slots_of};
ghost use Rattle.covmap.specs.Staged.{AreColumnsOf, staged_of};

use crate::key::{Key, Query, ReportingAddend, Value};
use crate::slots::page::run::Along;
use crate::slots::staged::StagedColumns;
use crate::slots::{SlotIndex, Slots};
use std::alloc::{AllocError, Allocator};

impl<V: Value, A: Allocator> StagedColumns<V, A> {
    /// Adds the addends at the front of `run` to the staged values. The slot at `place` must have the run's first key. Stops at the
    /// first key that has no slot on the same page after the slot of the run's preceding key.
    pub(crate) fn add_run<K: Key, Q: Query<K, A>, N: Drop, M: ReportingAddend<V, N>>(
        &mut self,
        alloc: A,
        slots: &Slots<K, V, A>,
        place: SlotIndex,
        run: &[(Q, M)],
        reports: &mut Vec<(Q, N), A>,
    ) -> Result<Along, AllocError>
        requires some { 0 < length run.now }
        requires first { FirstHere K.cmp Q.named (page_at slots.now place.page) place.index run.now }
        requires columns { AreColumnsOf slots.now self.old }
        requires fits { FitRun K.cmp Q.named M.fits M.sum run.now (filled (slots_of (staged_of slots.now self.old))) }
        ensures columns { AreColumnsOf slots.now self.new }
        ensures count { IfOk result (λ along. (0 < along.count) × (along.count ≤ length run.now)) }
        ensures ok { IfOk result (λ along. filled (slots_of (staged_of slots.now self.new)) ≡ summed K.cmp Q.named M.sum (take along.count run.now) (filled (slots_of (staged_of slots.now self.old)))) }
        ensures reports { IfOk result (λ along. reports.new.items ≡ reports.old.items ++ reports_run K.cmp Q.named M.sum M.reports (take along.count run.now) (filled (slots_of (staged_of slots.now self.old)))) }
    {
        slots.are_whole();
        let index = self.touch(alloc, slots, place.page)?;
        let page = slots.page_there(place.page);
        let along = page.add_along(&mut self.columns[index].1, place.index, run, reports)?;
        Ok(along)
    }
}
