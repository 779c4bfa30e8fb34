//! Reads gcov's annotated source in one pass.

ghost use Rattle.std.specs.Prelude.{◌≡◌, ◌≤◌, length, Result};
ghost use Rattle.covdata.specs.Row.{SubmissionData};
ghost use Rattle.covdata.specs.declared.fault.ReadFault.{ReadFault as Fault};
ghost use Rattle.covread.specs.Outcome.{max_bytes, IsOrMemory};
ghost use Rattle.covread.specs.GcovOutcome.{IsOutcome, Answers, GrowsLate};
ghost use Rattle.covread.specs.Gcov.{says_of};
ghost use Rattle.covread.specs.GcovReading.{shape_of};
ghost use Rattle.covread.specs.GcovSteps.{held_data, line_step, line_grows, StepsTo, ReadsTo};

use crate::gcov::line::{OwnFault, read_line};
use crate::gcov::reader::Reader;
use covdata::{LineFault, MAX_BYTES, ReadFault, Submission, good_test};
use covline::lines;
use covpacked::{PackedSubmission, unpack};
use std::alloc::Allocator;

/// Reads gcov's annotated source (gcov(1)) as counts of this test. Returns the source's submission or first error.
/// [`read_gcov_packed`] returns a packed submission, with less memory and time.
pub fn read_gcov<A: Allocator + Copy>(
    alloc: A,
    test: &[u8],
    text: &[u8],
) -> Result<Submission<A>, ReadFault>
    // The result is the text's specified outcome, or `Memory`.
    ensures answers { Answers test.now text.now result }
    // Every specified outcome of the text equals the result, unless the result is `Memory`.
    ensures only { (outcome : Result SubmissionData Fault) → IsOutcome test.now text.now outcome → IsOrMemory result outcome }
    // `Memory` is returned only if there is a path or function line before any error: nothing is stored earlier.
    ensures memory { GrowsLate text.now result }
{
    let packed = read_gcov_packed(alloc, test, text)?;
    Ok(unpack(alloc, &packed)?)
}

/// Reads gcov's annotated source (gcov(1)) as counts of this test. Returns the source's packed submission or first error.
pub fn read_gcov_packed<A: Allocator + Copy>(
    alloc: A,
    test: &[u8],
    text: &[u8],
) -> Result<PackedSubmission<A>, ReadFault>
    // The result is the text's specified outcome, or `Memory`.
    ensures answers { Answers test.now text.now result }
    // Every specified outcome of the text equals the result, unless the result is `Memory`.
    ensures only { (outcome : Result SubmissionData Fault) → IsOutcome test.now text.now outcome → IsOrMemory result outcome }
    // `Memory` is returned only if there is a path or function line before any error: nothing is stored earlier.
    ensures memory { GrowsLate text.now result }
{
    if text.len() > MAX_BYTES {
        return Err(ReadFault::TooLong);
    }
    if !good_test(test) {
        return Err(ReadFault::BadTest);
    }
    read_lines(alloc, test, text)?.finish()
}

/// Processes all lines of the input.
fn read_lines<'a, A: Allocator + Copy>(
    alloc: A,
    test: &'a [u8],
    text: &'a [u8],
) -> Result<Reader<'a, A>, ReadFault>
    requires { length text.now ≤ max_bytes }
    ensures { ReadsTo test.now text.now result }
{
    let mut reader = Reader::new(alloc, test);
    let mut at: u64 = 0;
    for line in lines(text) {
        at += 1;
        take_line(&mut reader, at, line)?;
    }
    Ok(reader)
}

/// Processes line number `at`.
fn take_line<'a, A: Allocator + Copy>(
    reader: &mut Reader<'a, A>,
    at: u64,
    line: &'a [u8],
) -> Result<(), ReadFault>
    ensures steps { StepsTo result (held_data reader.new) (line_grows (held_data reader.old) (says_of (shape_of line.now))) (line_step reader.old.test.now at (held_data reader.old) (says_of (shape_of line.now))) }
    ensures test { reader.new.test.now ≡ reader.old.test.now }
{
    match read_line(line) {
        Ok(says) => reader.take(at, says),
        Err(OwnFault::Instances) => Err(ReadFault::Instances { at }),
        Err(OwnFault::Percent) => Err(ReadFault::Percent { at }),
        Err(OwnFault::BadMark) => Err(ReadFault::BadMark { at }),
        Err(OwnFault::NumberTooLarge) => Err(ReadFault::Line {
            at,
            fault: LineFault::NumberTooLarge,
        }),
    }
}
