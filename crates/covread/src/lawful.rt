//! The law that readers return only lawful submissions.

ghost use Rattle.std.specs.Prelude.{ℕ, List, Ok};
ghost use Rattle.covdata.specs.Row.{SubmissionData};
ghost use Rattle.covdata.specs.Lawful.{IsLawful};
ghost use Rattle.covread.specs.Outcome.{IsOutcome};
ghost use Rattle.covread.specs.GcovOutcome as gcov;

/// A submission that is read from an input is lawful: its names and checksums fit into lines, its counts into 128 bits, its other
/// numbers into 64 bits, and it doesn't have too many items. The law holds for tracefiles, and for gcov's annotated source with any
/// test name.
pub fn what_is_read_is_lawful()
    ensures trace { (text : List ℕ) (submission : SubmissionData) → IsOutcome text (Ok submission) → IsLawful submission }
    ensures gcov { (test text : List ℕ) (submission : SubmissionData) → gcov.IsOutcome test text (Ok submission) → IsLawful submission }
{}
