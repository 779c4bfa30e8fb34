//! Inputs that are in memory.

use covbook::{PackedRef, SubRef};
use covdata::{Bytes, ReadFault, Submission};
use covlcov2::{read_lcov2, read_lcov2_packed};
use covpacked::PackedSubmission;
use covread::{read_gcov, read_gcov_packed, read_trace, read_trace_packed};
use covworkers::{Given, LateFault, LateInput, Part};
use std::alloc::{Allocator, Global};

/// An input in memory: the bytes of one file, and their format.
#[derive(Drop)]
pub enum Input<A: Allocator = Global> {
    /// A tracefile (geninfo(1), FILES).
    Trace(Bytes<A>),
    /// A tracefile of LCOV 2 (geninfo(1) of LCOV 2.x, TRACEFILE FORMAT).
    Lcov2(Bytes<A>),
    /// gcov's annotated source `text` (gcov(1)). Its counts belong to the test that `test` names.
    Gcov { test: Bytes<A>, text: Bytes<A> },
}

impl<A: Allocator + Copy> Input<A> {
    ghost use Rattle.covjobs.specs.Inputs.{GrowsLate, IsOutcomeOf};
    ghost use Rattle.covjobs.specs.InputView.{input_data};

    /// Parses the input. Returns its submission, or why the input is rejected. Fails with `Memory` also if the submission can't be
    /// made shareable.
    #[tactic(auto, using(crate::proofs::Outcomes::late_outcome))]
    pub fn read(&self, alloc: A) -> Result<SubRef<A>, ReadFault>
        ensures { IsOutcomeOf (input_data self.now) result }
    {
        Ok(SubRef::of(alloc, self.submission(alloc)?)?)
    }

    /// Like `read`, but returns a packed submission.
    #[tactic(auto, using(crate::proofs::Outcomes::late_outcome))]
    pub fn read_packed(&self, alloc: A) -> Result<PackedRef<A>, ReadFault>
        ensures { IsOutcomeOf (input_data self.now) result }
    {
        Ok(PackedRef::of(alloc, self.packed_submission(alloc)?)?)
    }

    /// Parses the input.
    #[tactic(auto, using(crate::proofs::Outcomes::trace_outcome, crate::proofs::Outcomes::lcov2_outcome, crate::proofs::Outcomes::gcov_outcome))]
    fn submission(&self, alloc: A) -> Result<Submission<A>, ReadFault>
        ensures outcome { IsOutcomeOf (input_data self.now) result }
        ensures memory { GrowsLate (input_data self.now) result }
    {
        match self {
            Input::Trace(text) => read_trace(alloc, text.get()),
            Input::Lcov2(text) => read_lcov2(alloc, text.get()),
            Input::Gcov { test, text } => read_gcov(alloc, test.get(), text.get()),
        }
    }

    /// Like `submission`, but returns a packed submission.
    #[tactic(auto, using(crate::proofs::Outcomes::trace_outcome, crate::proofs::Outcomes::lcov2_outcome, crate::proofs::Outcomes::gcov_outcome))]
    fn packed_submission(&self, alloc: A) -> Result<PackedSubmission<A>, ReadFault>
        ensures outcome { IsOutcomeOf (input_data self.now) result }
        ensures memory { GrowsLate (input_data self.now) result }
    {
        match self {
            Input::Trace(text) => read_trace_packed(alloc, text.get()),
            Input::Lcov2(text) => read_lcov2_packed(alloc, text.get()),
            Input::Gcov { test, text } => read_gcov_packed(alloc, test.get(), text.get()),
        }
    }
}

/// An input in memory. It has one part, and is freed after it is read. Without memory to read it, it is rejected with
/// `ReadFault::Memory`.
impl<A: Allocator + Copy> LateInput<A> for Input<A> {
    ghost use Rattle.covworkers.specs.Collect.{IsReadWhole};
    ghost use Rattle.covjobs.specs.Inputs.{IsOutcomeOf};
    ghost use Rattle.covjobs.specs.InputView.{input_data};

    ghost may_give = { λ late. IsReadWhole (IsOutcomeOf (input_data late)) };

    ghost may_fail = { λ late. ⊥ };

    ghost most = { λ late. 1 };

    ghost may_run_out = { λ late. ⊥ };

    type Fault = ReadFault;

    fn read_part(self, alloc: A) -> Result<Part<Self, A>, LateFault> {
        match self.read(alloc) {
            Ok(submission) => Ok(Part::Last(Given::plain(submission))),
            Err(fault) => Err(LateFault::Refused(fault)),
        }
    }
}

/// A borrowed input in memory. It has one part, and its owner keeps it.
impl<'a, A: Allocator + Copy> LateInput<A> for &'a Input<A> {
    ghost use Rattle.covworkers.specs.Collect.{IsReadWhole};
    ghost use Rattle.covjobs.specs.Inputs.{IsOutcomeOf};
    ghost use Rattle.covjobs.specs.InputView.{input_data};

    ghost may_give = { λ late. IsReadWhole (IsOutcomeOf (input_data late.now)) };

    ghost may_fail = { λ late. ⊥ };

    ghost most = { λ late. 1 };

    ghost may_run_out = { λ late. ⊥ };

    type Fault = ReadFault;

    fn read_part(self, alloc: A) -> Result<Part<Self, A>, LateFault> {
        match Input::read(self, alloc) {
            Ok(submission) => Ok(Part::Last(Given::plain(submission))),
            Err(fault) => Err(LateFault::Refused(fault)),
        }
    }
}
