//! Inputs that are read when their turn comes.

use crate::late_fault::LateFault;
use crate::part::Part;
use std::alloc::Allocator;

/// An input that is read when a worker reaches it, such as a file. It has one part or several, and each part is a submission of its
/// own. Reading consumes the input: its memory is freed or returned to the owner before the last part is submitted.
pub trait LateInput<A: Allocator>: Drop {
    ghost use Rattle.std.specs.Prelude.{◌≡◌, ℕ, Err};
    ghost use Rattle.covworkers.specs.Collect.{OutcomeData};
    ghost use Rattle.covworkers.specs.Late.{IsNextPart};
    ghost use Rattle.covworkers.specs.declared.late_fault.LateFault.TheVariants as faults;

    // The outcomes that the input may have: the submissions read of it, and the error if the rest of the input is rejected.
    ghost may_give: { Self → OutcomeData Self.Fault → Type 0 };

    // Whether the input may turn out to be unreadable.
    ghost may_fail: { Self → Type 0 };

    // The greatest number of parts that the input can have.
    ghost most: { Self → ℕ };

    // Whether a read may fail with `LateFault::Memory`. By default it may.
    ghost may_run_out: { Self → Type 0 } = { λ _. Unit {0} };

    /// Why an input is rejected.
    type Fault: Drop;

    /// Reads the next part of the input. Returns the part, ready to be submitted, and the rest of the input unless the part is the
    /// last one. An error ends the input, but parts submitted earlier stay submitted.
    fn read_part(self, alloc: A) -> Result<Part<Self, A>, LateFault<Self::Fault>>
        ensures next { IsNextPart may_give may_fail most self result }
        ensures memory { result ≡ Err faults.Memory → may_run_out self };
}
