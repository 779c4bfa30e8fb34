//! Laws of reading gcov's output. Each law is the contract of a function that does nothing.

ghost use Rattle.std.specs.Prelude.{◌≡◌, ◌≤◌, ℕ, List, length, Result, Err};
ghost use Rattle.covdata.specs.Row.{SubmissionData};
ghost use Rattle.covline.specs.Lines.{lines_of};
ghost use Rattle.covdata.specs.Lawful.{IsGoodTest};
ghost use Rattle.covdata.specs.declared.fault.ReadFault.{ReadFault as Fault};
ghost use Rattle.covread.specs.Gcov.{Says, LineSays};
ghost use Rattle.covread.specs.Outcome.{max_bytes};
ghost use Rattle.covread.specs.GcovOutcome.{IsOutcome, Answers, FaultsEarly, GrowsLate};

/// Each line has exactly one meaning, or exactly one error of its own. For each test name, each input has exactly one outcome: a
/// submission or an error.
pub fn each_gcov_text_has_one_outcome()
    ensures some_line { (line : List ℕ) → (says : Says) × LineSays line says }
    ensures one_line { (line : List ℕ) (x y : Says) → LineSays line x → LineSays line y → x ≡ y }
    ensures some { (test text : List ℕ) → (outcome : Result SubmissionData Fault) × IsOutcome test text outcome }
    ensures one { (test text : List ℕ) (x y : Result SubmissionData Fault) → IsOutcome test text x → IsOutcome test text y → x ≡ y }
{}

/// `read_gcov` returns the first error even if memory is short, provided that no path or function comes before the invalid line.
/// The input must be within the size limit, and a tracefile must be able to hold the test's name.
pub fn an_early_fault_is_told()
    ensures { (test text : List ℕ) (answer : Result SubmissionData Fault) (fault : Fault) → Answers test text answer → GrowsLate text answer
        → length text ≤ max_bytes → IsGoodTest test → FaultsEarly (lines_of text) fault → answer ≡ Err fault }
{}
