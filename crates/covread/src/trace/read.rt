//! Reads a tracefile in one pass.

ghost use Rattle.std.specs.Prelude.{◌≡◌, ◌≤◌, ◌<◌, ◌∷◌, ℕ, IfOk, length, List, Result, option_map};
ghost use Rattle.covdata.specs.Row.{SubmissionData};
ghost use Rattle.covdata.specs.declared.fault.ReadFault.{ReadFault as Fault};
ghost use Rattle.covread.specs.Outcome.{max_bytes, IsOutcome, Answers, GrowsLate, IsOrMemory};
ghost use Rattle.covline.specs.Lines.{lines_of};
ghost use Rattle.covdata.specs.Records.{LineData, Branch, Line};
ghost use Rattle.covline.specs.Spells.{Spells};
ghost use Rattle.covread.specs.TraceSteps.{held_data, HasRoom, IsOpen, ReadsTo, TakesLine, fault_at};

use crate::trace::placement_fault::PlacementFault;
use crate::trace::reader::Reader;
use covdata::{BranchPoint, MAX_BYTES, ReadFault, Submission};
use covline::{
    each_line_has_one_meaning, first_line, lines_are_the_text, read_line, try_branch_line,
    try_line_count,
};
use covpacked::{PackedSubmission, unpack};
use std::alloc::Allocator;

/// Reads a tracefile (geninfo(1), section FILES). Returns its submission or its first error. [`read_trace_packed`] returns a packed
/// submission, with less memory and time.
pub fn read_trace<A: Allocator + Copy>(alloc: A, text: &[u8]) -> Result<Submission<A>, ReadFault>
    // The result is the text's specified outcome, or `Memory`.
    ensures answers { Answers text.now result }
    // Every specified outcome of the text equals the result, unless the result is `Memory`.
    ensures only { (outcome : Result SubmissionData Fault) → IsOutcome text.now outcome → IsOrMemory result outcome }
    // `Memory` is returned only if there is a path line: nothing is stored before it.
    ensures memory { GrowsLate text.now result }
{
    let packed = read_trace_packed(alloc, text)?;
    Ok(unpack(alloc, &packed)?)
}

/// Reads a tracefile (geninfo(1), section FILES). Returns its packed submission or its first error.
pub fn read_trace_packed<A: Allocator + Copy>(
    alloc: A,
    text: &[u8],
) -> Result<PackedSubmission<A>, ReadFault>
    // The result is the text's specified outcome, or `Memory`.
    ensures answers { Answers text.now result }
    // Every specified outcome of the text equals the result, unless the result is `Memory`.
    ensures only { (outcome : Result SubmissionData Fault) → IsOutcome text.now outcome → IsOrMemory result outcome }
    // `Memory` is returned only if there is a path line: nothing is stored before it.
    ensures memory { GrowsLate text.now result }
{
    // The proof cites this law.
    each_line_has_one_meaning();
    if text.len() > MAX_BYTES {
        return Err(ReadFault::TooLong);
    }
    read_lines(alloc, text)?.finish()
}

/// Processes all lines of the input.
fn read_lines<'a, A: Allocator + Copy>(alloc: A, text: &'a [u8]) -> Result<Reader<'a, A>, ReadFault>
    requires { length text.now ≤ max_bytes }
    ensures { ReadsTo text.now result }
{
    // The proof cites these laws.
    each_line_has_one_meaning();
    lines_are_the_text();
    let mut reader = Reader::new(alloc);
    let mut at: u64 = 0;
    let mut rest = text;
    while !rest.is_empty() {
        at += 1;
        rest = take_first(&mut reader, alloc, at, rest)?;
    }
    Ok(reader)
}

/// Processes the first line of `text`, which must not be empty, and returns what follows the line. `text` is the rest of an input,
/// and `at` the line's number. Most lines are `DA:` or `BRDA:` lines, so these are tried first, before the line is cut off.
#[inline(always)]
fn take_first<'a, A: Allocator + Copy>(
    reader: &mut Reader<'a, A>,
    alloc: A,
    at: u64,
    text: &'a [u8],
) -> Result<&'a [u8], ReadFault>
    requires some { 0 < length text.now }
    requires room { (inside : List LineData) × HasRoom reader.old inside }
    ensures { (line left : List ℕ) × (lines_of text.now ≡ line ∷ lines_of left) × IfOk result (λ rest. rest.now ≡ left)
        × ((inside : List LineData) → IsOpen reader.old inside → TakesLine result (held_data reader.old inside) reader.new line at) }
{
    if let Some(first) = try_line_count(text) {
        take_line_count(reader, at, first.line, first.count, first.checksum)?;
        return Ok(first.rest);
    }
    if let Some(first) = try_branch_line(text) {
        take_branch(reader, at, first.point, first.taken)?;
        return Ok(first.rest);
    }
    let (line, rest) = first_line(text);
    take_line(reader, alloc, at, line)?;
    Ok(rest)
}

/// Processes a `DA:` record: the count of the source line `line`. `at` is the record's line number in the tracefile.
#[inline(always)]
pub fn take_line_count<A: Allocator + Copy>(
    reader: &mut Reader<'_, A>,
    at: u64,
    line: u64,
    count: u64,
    checksum: Option<&[u8]>,
) -> Result<(), ReadFault>
    requires { (inside : List LineData) × HasRoom reader.old inside }
    ensures { (text : List ℕ) → Spells text (Line line count (option_map (λ c. c.now) checksum.entry)) → (inside : List LineData) → IsOpen reader.old inside → TakesLine result (held_data reader.old inside) reader.new text at }
{
    match reader.keep_count(line, count, checksum) {
        Ok(()) => Ok(()),
        Err(why) => Err(fault_at(why, at)),
    }
}

/// Processes a `BRDA:` record: how often a branch was taken. `at` is the record's line number in the tracefile.
#[inline(always)]
pub fn take_branch<A: Allocator + Copy>(
    reader: &mut Reader<'_, A>,
    at: u64,
    point: BranchPoint,
    taken: Option<u64>,
) -> Result<(), ReadFault>
    requires { (inside : List LineData) × HasRoom reader.old inside }
    ensures { (text : List ℕ) → Spells text (Branch point.line point.block point.branch taken) → (inside : List LineData) → IsOpen reader.old inside → TakesLine result (held_data reader.old inside) reader.new text at }
{
    match reader.keep_branch(point, taken) {
        Ok(()) => Ok(()),
        Err(why) => Err(fault_at(why, at)),
    }
}

/// Processes line number `at`.
fn take_line<'a, A: Allocator + Copy>(
    reader: &mut Reader<'a, A>,
    alloc: A,
    at: u64,
    line: &'a [u8],
) -> Result<(), ReadFault>
    requires { (inside : List LineData) × HasRoom reader.old inside }
    ensures { (inside : List LineData) → IsOpen reader.old inside → TakesLine result (held_data reader.old inside) reader.new line.now at }
{
    let says = match read_line(line) {
        Ok(says) => says,
        Err(fault) => return Err(ReadFault::Line { at, fault }),
    };
    match reader.take(alloc, says) {
        Ok(()) => Ok(()),
        Err(why) => Err(fault_at(why, at)),
    }
}

/// Turns the reason `why` into an error of the input. `at` is the number of the rejected line.
pub fn fault_at(why: PlacementFault, at: u64) -> ReadFault
    ensures { result ≡ fault_at why at }
{
    match why {
        PlacementFault::Outside => ReadFault::Outside { at },
        PlacementFault::Inside => ReadFault::Inside { at },
        PlacementFault::Memory => ReadFault::Memory,
    }
}
