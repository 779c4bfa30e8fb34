//! Checks one input.

ghost use Rattle.std.specs.Prelude.{◌≡◌, ◌⊎◌, [], Result, Err};
ghost use Rattle.covdata.specs.Row.{SubmissionData};
ghost use Rattle.covdata.specs.declared.fault.ReadFault.{ReadFault as Fault};
ghost use Rattle.covdata.specs.declared.fault.ReadFault.TheVariants.{Memory as NoMemory};
ghost use Rattle.covread.specs.Outcome.{Answers, GrowsLate, IsOutcome};
ghost use Rattle.covread.specs.GcovOutcome as gcov;
ghost use Rattle.covlcov2.specs.Outcome as lcov2;
ghost use Rattle.covcheck.specs.TextSummary.{Holds, Tells};
ghost use Rattle.covcheck.specs.Skipped.{IsSkippedGcov, IsSkippedIn, IsSkippedLcov2, IsSkippedRecord};

use crate::format::Format;
use crate::skipped_lines::skipped_lines_in;
use crate::text_summary::TextSummary;
use covdata::ReadFault;
use covlcov2::read_lcov2_packed;
use covpacked::ReadText;
use covread::{read_gcov_packed, read_trace_packed};
use std::alloc::Allocator;

/// Reads a tracefile (geninfo(1) of LCOV 1.x, section FILES). Returns its summary, or the error of `read_trace`. Frees the
/// submission.
pub fn check_trace<'a, A: Allocator + Copy>(
    alloc: A,
    text: &'a [u8],
) -> Result<TextSummary<'a>, ReadFault>
    // The result is the summary of the reader's submission, or the reader's error. `Memory` is returned only if there is a path
    // line.
    ensures answers { (read : Result SubmissionData Fault) × Answers text.now read × GrowsLate text.now read × Tells IsSkippedRecord text.now read result }
    // Whatever the text's specified outcome is, the result is its summary or its error, or `Memory`.
    ensures only { (outcome : Result SubmissionData Fault) → IsOutcome text.now outcome → (result ≡ Err NoMemory) ⊎ Tells IsSkippedRecord text.now outcome result }
{
    let submission = read_trace_packed(alloc, text)?;
    Ok(summary_of(&submission, text, Format::Trace))
}

/// Reads a tracefile of LCOV 2 (geninfo(1) of LCOV 2.x, TRACEFILE FORMAT). Returns its summary, or the error of `read_lcov2`. Frees
/// the submission.
pub fn check_lcov2<'a, A: Allocator + Copy>(
    alloc: A,
    text: &'a [u8],
) -> Result<TextSummary<'a>, ReadFault>
    // The result is the summary of the reader's submission, or the reader's error. `Memory` is returned only if there is a path
    // line.
    ensures answers { (read : Result SubmissionData Fault) × lcov2.Answers text.now read × lcov2.GrowsLate text.now read × Tells IsSkippedLcov2 text.now read result }
    // Whatever the text's specified outcome is, the result is its summary or its error, or `Memory`.
    ensures only { (outcome : Result SubmissionData Fault) → lcov2.IsOutcome text.now outcome → (result ≡ Err NoMemory) ⊎ Tells IsSkippedLcov2 text.now outcome result }
{
    let submission = read_lcov2_packed(alloc, text)?;
    Ok(summary_of(&submission, text, Format::Lcov2))
}

/// Reads gcov's annotated source (gcov(1)), as counts of the test with the empty name. Returns the source's summary, or the error
/// of `read_gcov`. Frees the submission.
pub fn check_gcov<'a, A: Allocator + Copy>(
    alloc: A,
    text: &'a [u8],
) -> Result<TextSummary<'a>, ReadFault>
    // The result is the summary of the reader's submission, or the reader's error. `Memory` is returned only if there is a path or
    // function line before any error.
    ensures answers { (read : Result SubmissionData Fault) × gcov.Answers [] text.now read × gcov.GrowsLate text.now read × Tells IsSkippedGcov text.now read result }
    // Whatever the text's specified outcome is, the result is its summary or its error, or `Memory`.
    ensures only { (outcome : Result SubmissionData Fault) → gcov.IsOutcome [] text.now outcome → (result ≡ Err NoMemory) ⊎ Tells IsSkippedGcov text.now outcome result }
{
    let submission = read_gcov_packed(alloc, b"", text)?;
    Ok(summary_of(&submission, text, Format::Gcov))
}

/// The summary of the input `text`, which must have been read as `submission`. Doesn't check this. Never allocates.
pub fn summary_of<'a, S: ReadText>(
    submission: &S,
    text: &'a [u8],
    format: Format,
) -> TextSummary<'a>
    ensures { Holds (IsSkippedIn format) text.now (S.says submission.now) result }
{
    let skipped = skipped_lines_in(text, format);
    TextSummary {
        sections: submission.count_sections(),
        items: submission.count_items(),
        odd: submission.count_odd(),
        skipped: skipped.count,
        first: skipped.first,
    }
}
