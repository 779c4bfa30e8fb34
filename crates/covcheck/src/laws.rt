//! Laws of what a check reports. Each law is the contract of a function that does nothing.

ghost use Rattle.std.specs.Prelude.{◌≡◌, ◌≢◌, ◌<◌, ◌≤◌, ℕ, [], List, length};
ghost use Rattle.covcheck.specs.TextSummary.{AreLinesThat};
ghost use Rattle.covcheck.specs.Skipped.{start_of, IsSkippedGcov, IsSkippedLcov2, IsSkippedRecord};
ghost use Rattle.covcheck.specs.SummaryLine.{shown};

/// The list of an input's skipped lines is unique, so the number of skipped lines and the first one are determined.
pub fn skipped_lines_are_unique()
    ensures trace { (text : List ℕ) (x y : List (ℕ × List ℕ)) → AreLinesThat IsSkippedRecord text x → AreLinesThat IsSkippedRecord text y → x ≡ y }
    ensures lcov2 { (text : List ℕ) (x y : List (ℕ × List ℕ)) → AreLinesThat IsSkippedLcov2 text x → AreLinesThat IsSkippedLcov2 text y → x ≡ y }
    ensures gcov { (text : List ℕ) (x y : List (ℕ × List ℕ)) → AreLinesThat IsSkippedGcov text x → AreLinesThat IsSkippedGcov text y → x ≡ y }
{}

/// The beginning of a line is printed as one word. It has at most 16 bytes, and is empty only if the line is. Each byte is printed
/// as a visible ASCII character.
pub fn a_beginning_is_one_word()
    ensures some { (line : List ℕ) → line ≢ [] → 0 < length (start_of line) }
    ensures few { (line : List ℕ) → length (start_of line) ≤ 16 }
    ensures shown { (byte : ℕ) → (32 < shown byte) × (shown byte < 127) }
{}
