//! Reads a tracefile of LCOV 2 in one pass.

ghost use Rattle.std.specs.Prelude.{◌≡◌, ◌≤◌, ◌<◌, ◌∷◌, ℕ, IfOk, length, List, Option, Some, false, Result, option_map};
ghost use Rattle.covdata.specs.Row.{SubmissionData};
ghost use Rattle.covline.specs.Lines.{lines_of};
ghost use Rattle.covdata.specs.Records.{LineData, Line};
ghost use Rattle.covline.specs.Spells.{Spells};
ghost use Rattle.covdata.specs.declared.fault.ReadFault.{ReadFault as Fault};
ghost use Rattle.covread.specs.Outcome.{max_bytes, IsOrMemory};
ghost use Rattle.covread.specs.TraceSteps.{held_data};
ghost use Rattle.covlcov2.specs.Spells.{Lcov2Data, Edge, Lcov2Spells};
ghost use Rattle.covlcov2.specs.Outcome.{IsOutcome, Answers, GrowsLate};
ghost use Rattle.covlcov2.specs.Steps.{HasLineRoom, IsHeld, ReadsTo, TakesLcov2Line};

use crate::laws::each_lcov2_line_has_one_meaning;
use crate::marked::try_marked_branch;
use crate::numbers::Block;
use crate::read_line::read_lcov2_line;
use crate::reader::Lcov2Reader;
use covdata::{BranchPoint, MAX_BYTES, ReadFault, Submission};
use covline::laws::printed_records_spell;
use covline::{
    each_line_has_one_meaning, first_line, lines_are_the_text, try_branch_line, try_line_count,
};
use covpacked::{PackedSubmission, unpack};
use covread::{take_branch, take_line_count};
use std::alloc::Allocator;

/// Reads a tracefile of LCOV 2 (geninfo(1) of LCOV 2.x, TRACEFILE FORMAT). Returns its submission or its first error. The error is
/// `Misplaced` for an `FNA:` line outside of sections, or without an `FNL:` line of its index above it in its section.
/// [`read_lcov2_packed`] returns a packed submission, with less memory and time.
pub fn read_lcov2<A: Allocator + Copy>(alloc: A, text: &[u8]) -> Result<Submission<A>, ReadFault>
    // The result is the text's specified outcome, or `Memory`.
    ensures answers { Answers text.now result }
    // Every specified outcome of the text equals the result, unless the result is `Memory`.
    ensures only { (outcome : Result SubmissionData Fault) → IsOutcome text.now outcome → IsOrMemory result outcome }
    // `Memory` is returned only if there is a path line: nothing is stored before it.
    ensures memory { GrowsLate text.now result }
{
    let packed = read_lcov2_packed(alloc, text)?;
    Ok(unpack(alloc, &packed)?)
}

/// Like [`read_lcov2`], but returns a packed submission.
pub fn read_lcov2_packed<A: Allocator + Copy>(
    alloc: A,
    text: &[u8],
) -> Result<PackedSubmission<A>, ReadFault>
    // The result is the text's specified outcome, or `Memory`.
    ensures answers { Answers text.now result }
    // Every specified outcome of the text equals the result, unless the result is `Memory`.
    ensures only { (outcome : Result SubmissionData Fault) → IsOutcome text.now outcome → IsOrMemory result outcome }
    // `Memory` is returned only if there is a path line: nothing is stored before it.
    ensures memory { GrowsLate text.now result }
{
    // The proof cites this law.
    each_lcov2_line_has_one_meaning();
    if text.len() > MAX_BYTES {
        return Err(ReadFault::TooLong);
    }
    read_lines(alloc, text)?.plain.finish()
}

/// Processes all lines of the input.
fn read_lines<'a, A: Allocator + Copy>(
    alloc: A,
    text: &'a [u8],
) -> Result<Lcov2Reader<'a, A>, ReadFault>
    requires { length text.now ≤ max_bytes }
    ensures { ReadsTo text.now result }
{
    // The proof cites these laws.
    each_line_has_one_meaning();
    each_lcov2_line_has_one_meaning();
    lines_are_the_text();
    printed_records_spell();
    let mut reader = Lcov2Reader::new(alloc);
    let mut at: u64 = 0;
    let mut rest = text;
    while !rest.is_empty() {
        at += 1;
        rest = take_first(&mut reader, alloc, at, rest)?;
    }
    Ok(reader)
}

/// Processes the first line of `text`, which must not be empty, and returns what follows the line. `text` is the rest of an input,
/// and `at` the line's number. Most lines are `DA:` or `BRDA:` lines, so these are tried first, before the line is cut off.
#[inline]
fn take_first<'a, A: Allocator + Copy>(
    reader: &mut Lcov2Reader<'a, A>,
    alloc: A,
    at: u64,
    text: &'a [u8],
) -> Result<&'a [u8], ReadFault>
    requires some { 0 < length text.now }
    requires room { (above : List Lcov2Data) × (inside : List LineData) × HasLineRoom reader.old above inside }
    ensures { (line left : List ℕ) × (lines_of text.now ≡ line ∷ lines_of left) × IfOk result (λ rest. rest.now ≡ left)
        × ((above : List Lcov2Data) (inside : List LineData) → IsHeld reader.old above inside → TakesLcov2Line result above (held_data reader.old.plain inside) reader.new line at) }
{
    if let Some(first) = try_line_count(text) {
        take_count(reader, at, first.line, first.count, first.checksum)?;
        return Ok(first.rest);
    }
    if let Some(first) = try_branch_line(text) {
        take_numbered(reader, alloc, at, first.point, first.taken)?;
        return Ok(first.rest);
    }
    if let Some(first) = try_marked_branch(text) {
        take_numbered(reader, alloc, at, first.point, first.taken)?;
        return Ok(first.rest);
    }
    let (line, rest) = first_line(text);
    take_line(reader, alloc, at, line)?;
    Ok(rest)
}

/// Processes a `DA:` record: the count of the source line `line`. `at` is the record's line number in the tracefile.
#[inline]
fn take_count<A: Allocator + Copy>(
    reader: &mut Lcov2Reader<'_, A>,
    at: u64,
    line: u64,
    count: u64,
    checksum: Option<&[u8]>,
) -> Result<(), ReadFault>
    requires { (above : List Lcov2Data) × (inside : List LineData) × HasLineRoom reader.old above inside }
    ensures { (text : List ℕ) → Spells text (Line line count (option_map (λ c. c.now) checksum.entry)) → (above : List Lcov2Data) (inside : List LineData) → IsHeld reader.old above inside → TakesLcov2Line result above (held_data reader.old.plain inside) reader.new text at }
{
    take_line_count(&mut reader.plain, at, line, count, checksum)
}

/// Processes a `BRDA:` record of a branch that isn't excluded and has a number instead of an expression. `at` is the record's line
/// number in the tracefile.
#[inline]
fn take_numbered<A: Allocator + Copy>(
    reader: &mut Lcov2Reader<'_, A>,
    alloc: A,
    at: u64,
    point: BranchPoint,
    taken: Option<u64>,
) -> Result<(), ReadFault>
    requires { (above : List Lcov2Data) × (inside : List LineData) × HasLineRoom reader.old above inside }
    ensures { (text : List ℕ) → Lcov2Spells text (Edge false point.line point.block (Some point.branch) taken) → (above : List Lcov2Data) (inside : List LineData) → IsHeld reader.old above inside → TakesLcov2Line result above (held_data reader.old.plain inside) reader.new text at }
{
    if reader.plain.section.is_none() {
        return Err(ReadFault::Outside { at });
    }
    let block = Block {
        line: point.line,
        block: point.block,
    };
    let branch = match reader.indexes.number(alloc, block, Some(point.branch)) {
        Ok(branch) => branch,
        Err(_) => return Err(ReadFault::Memory),
    };
    take_branch(
        &mut reader.plain,
        at,
        BranchPoint { branch, ..point },
        taken,
    )
}

/// Processes line number `at`.
fn take_line<'a, A: Allocator + Copy>(
    reader: &mut Lcov2Reader<'a, A>,
    alloc: A,
    at: u64,
    line: &'a [u8],
) -> Result<(), ReadFault>
    requires { (above : List Lcov2Data) × (inside : List LineData) × HasLineRoom reader.old above inside }
    ensures { (above : List Lcov2Data) (inside : List LineData) → IsHeld reader.old above inside → TakesLcov2Line result above (held_data reader.old.plain inside) reader.new line.now at }
{
    let says = match read_lcov2_line(line) {
        Ok(says) => says,
        Err(fault) => return Err(ReadFault::Line { at, fault }),
    };
    match reader.take(alloc, says) {
        Ok(()) => Ok(()),
        Err(why) => Err(why.at(at)),
    }
}
