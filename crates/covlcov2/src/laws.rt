//! Laws of reading tracefiles of LCOV 2. Each law is the contract of a function that does nothing.

ghost use Rattle.std.specs.Prelude.{◌≡◌, ◌⊎◌, ℕ, List, Result, Ok};
ghost use Rattle.covdata.specs.declared.trace_line.LineFault.{LineFault};
ghost use Rattle.covdata.specs.Lawful.{IsLawful};
ghost use Rattle.covdata.specs.Row.{SubmissionData};
ghost use Rattle.covdata.specs.declared.fault.ReadFault.{ReadFault as Fault};
ghost use Rattle.covlcov2.specs.Spells.{Lcov2Data, Lcov2Spells, HasLcov2Fault};
ghost use Rattle.covlcov2.specs.Outcome.{IsOutcome};

use covline::laws::printed_records_spell;
use covline::{each_line_has_one_meaning, lines_are_the_text};

/// Each line of a tracefile of LCOV 2 has exactly one meaning, or exactly one error.
pub fn each_lcov2_line_has_one_meaning()
    ensures one_meaning { (line : List ℕ) (x y : Lcov2Data) → Lcov2Spells line x → Lcov2Spells line y → x ≡ y }
    ensures no_fault_beside { (line : List ℕ) (says : Lcov2Data) (fault : LineFault) → Lcov2Spells line says → ¬ HasLcov2Fault line fault }
    ensures one_fault { (line : List ℕ) (x y : LineFault) → HasLcov2Fault line x → HasLcov2Fault line y → x ≡ y }
    ensures some { (line : List ℕ) → ((says : Lcov2Data) × Lcov2Spells line says) ⊎ ((fault : LineFault) × HasLcov2Fault line fault) }
{}

/// Each tracefile of LCOV 2 has exactly one outcome: a submission or an error.
pub fn each_lcov2_text_has_one_outcome()
    ensures some { (text : List ℕ) → (outcome : Result SubmissionData Fault) × IsOutcome text outcome }
    ensures one { (text : List ℕ) (x y : Result SubmissionData Fault) → IsOutcome text x → IsOutcome text y → x ≡ y }
{
    each_line_has_one_meaning();
    each_lcov2_line_has_one_meaning();
    lines_are_the_text();
    printed_records_spell();
}

/// A submission that is read from a tracefile of LCOV 2 is lawful: its names and checksums fit into lines, its counts into 128
/// bits, its other numbers into 64 bits, and it doesn't have too many items.
pub fn what_is_read_as_lcov2_is_lawful()
    ensures { (text : List ℕ) (submission : SubmissionData) → IsOutcome text (Ok submission) → IsLawful submission }
{
    each_line_has_one_meaning();
    each_lcov2_line_has_one_meaning();
    lines_are_the_text();
    printed_records_spell();
}
