//! Uses of covread, covlcov2 and covcheck.

ghost use Rattle.std.specs.Prelude.{◌⊎◌, ◌≡◌, IfOk, Ok};
ghost use Rattle.covread.specs.Outcome as trace;
ghost use Rattle.covread.specs.GcovOutcome as gcov;
ghost use Rattle.covlcov2.specs.Outcome as lcov2;
ghost use Rattle.covdata.specs.Row.{SubmissionData, items_in};
ghost use Rattle.covcheck.specs.declared.text_summary.TextSummary.{TextSummary as SummaryData};
ghost use Rattle.covcheck.specs.TextSummary.{Holds};
ghost use Rattle.covcheck.specs.Skipped.{IsSkippedRecord};
ghost use Rattle.covcheck.specs.SummaryLine.{summary_text};

use covcheck::{check_trace, summary_line};
use covdata::{ReadFault, Submission};
use covlcov2::read_lcov2;
use covread::{read_gcov, read_trace};
use std::alloc::Global;

/// Reads the text as a tracefile, or as gcov's annotated source if the tracefile has no items. The source's counts belong to the
/// test `test`. No line of gcov's output is a record of a tracefile, so this output, read as a tracefile, has no items.
pub fn read_either(alloc: Global, test: &[u8], text: &[u8]) -> Result<Submission, ReadFault>
    ensures { IfOk result (λ s. trace.IsOutcome text.now (Ok s) ⊎ gcov.IsOutcome test.now text.now (Ok s)) }
{
    let submission = read_trace(alloc, text)?;
    if submission.items() > 0 {
        return Ok(submission);
    }
    read_gcov(alloc, test, text)
}

/// The number of items of a tracefile of LCOV 2.
pub fn items_of_lcov2(alloc: Global, text: &[u8]) -> Result<u64, ReadFault>
    ensures { IfOk result (λ items. (read : SubmissionData) × lcov2.IsOutcome text.now (Ok read) × (items ≡ items_in read.sects)) }
{
    let submission = read_lcov2(alloc, text)?;
    Ok(submission.items())
}

/// The summary line of a tracefile.
pub fn check_line(alloc: Global, text: &[u8]) -> Result<Vec<u8>, ReadFault>
    ensures { IfOk result (λ line. (summary : SummaryData) × (read : SubmissionData) × trace.IsOutcome text.now (Ok read)
        × Holds IsSkippedRecord text.now read summary × (line.items ≡ summary_text summary)) }
{
    let summary = check_trace(alloc, text)?;
    let line = summary_line(alloc, &summary)?;
    Ok(line)
}
