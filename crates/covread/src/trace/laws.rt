//! Laws of reading tracefiles. Each law is the contract of a function that only cites covline's laws of lines.

ghost use Rattle.std.specs.Prelude.{◌≡◌, ℕ, List, Result};
ghost use Rattle.covdata.specs.Row.{SubmissionData};
ghost use Rattle.covdata.specs.declared.fault.ReadFault.{ReadFault as Fault};
ghost use Rattle.covread.specs.Outcome.{IsOutcome};

use covline::each_line_has_one_meaning;

/// Each input has exactly one outcome: a submission or an error.
pub fn each_text_has_one_outcome()
    ensures some { (text : List ℕ) → (outcome : Result SubmissionData Fault) × IsOutcome text outcome }
    ensures one { (text : List ℕ) (x y : Result SubmissionData Fault) → IsOutcome text x → IsOutcome text y → x ≡ y }
{
    each_line_has_one_meaning();
}
