//! Finds what fails a strict run: files that aren't clean, and patterns that match no file.

ghost use Rattle.std.specs.Prelude.{◌≡◌, ◌++◌, IfOk, IfErr, OnOk, IsTrue, map};
ghost use Rattle.std.specs.List.{flat_map};
ghost use Rattle.covcheck.specs.SummaryLine.{summary_text};
ghost use Rattle.covjobs.specs.InputView.{input_data};
ghost use Rattle.covworkers.specs.Late.{IsLateOutcome};
ghost use Rattle.covtable.specs.ValuesView.{file_totals_data};
ghost use Rattle.covreport.specs.ChoiceView.{choice_data};
ghost use Rattle.covbook.specs.View.{op_data};
ghost use Rattle.covrun.specs.Files.{IsUncleanFault};
ghost use Rattle.covrun.specs.Strict.{HoldsIn, IsStrictOutcome, is_clean as is_clean_summary, patterns_of_choice, patterns_of_op, unmatched_line};

use crate::messages::MATCHES_NO_FILE;
use crate::text_fault::TextFault;
use covbook::{Op, PackedRef};
use covcheck::{Format, TextSummary, summary_line, summary_of};
use covdata::{Bytes, Memory};
use covjobs::Input;
use covlist::{matches_a_file, put_shown_name};
use covpacked::PackedSubmission;
use covreport::{Choice, Patterns};
use covtable::FileTotals;
use covworkers::LateFault;
use std::alloc::Global;

/// Parses `input` for a strict run. Rejects an input that isn't clean, with its summary line.
pub(crate) fn read_strictly(alloc: Global, input: &Input) -> Result<PackedRef, LateFault<TextFault>>
    ensures { IsLateOutcome (IsStrictOutcome (input_data input.now)) ⊥ result }
{
    let submission = match input.read_packed(alloc) {
        Ok(submission) => submission,
        Err(fault) => return Err(LateFault::Refused(TextFault::Faulty(fault))),
    };
    let summary = summary_of_input(input, submission.get());
    refuse_unless_clean(alloc, &summary)?;
    Ok(submission)
}

/// Rejects an input whose `summary` isn't clean, with the summary line.
pub(crate) fn refuse_unless_clean(
    alloc: Global,
    summary: &TextSummary<'_>,
) -> Result<(), LateFault<TextFault>>
    ensures clean { IfOk result (λ _. IsTrue (is_clean_summary summary.now)) }
    ensures unclean { IfErr result (IsUncleanFault summary.now) }
{
    if is_clean(summary) {
        return Ok(());
    }
    match summary_line(alloc, summary) {
        Ok(line) => Err(LateFault::Refused(TextFault::Unclean(line))),
        Err(_) => Err(LateFault::Memory),
    }
}

/// The summary of `input`, which was read as `submission`.
fn summary_of_input<'a>(input: &'a Input, submission: &PackedSubmission) -> TextSummary<'a>
    ensures { HoldsIn (input_data input.now) submission.now result }
{
    match input {
        Input::Trace(text) => summary_of(submission, text.get(), Format::Trace),
        Input::Lcov2(text) => summary_of(submission, text.get(), Format::Lcov2),
        Input::Gcov { text, .. } => summary_of(submission, text.get(), Format::Gcov),
    }
}

/// Whether the input with this `summary` is clean: it has an item, no inconsistent line and no skipped line.
pub(crate) fn is_clean(summary: &TextSummary<'_>) -> bool
    ensures { result ≡ is_clean_summary summary.now }
{
    summary.items > 0 && summary.odd == 0 && summary.skipped == 0
}

/// Appends to `lines` a line about each pattern of `op` that matches none of `files`.
pub(crate) fn add_unmatched_of_op(
    op: &Op,
    files: &[FileTotals<'_>],
    lines: &mut Bytes,
) -> Result<(), Memory>
    ensures { OnOk result (lines.new ≡ lines.old ++ flat_map (unmatched_line (map file_totals_data files.now)) (patterns_of_op (op_data op.now))) }
{
    match op {
        Op::Extract(patterns) | Op::Remove(patterns) => add_unmatched(patterns, files, lines),
        _ => Ok(()),
    }
}

/// Appends to `lines` a line about each pattern of `choice` that matches none of `files`.
pub(crate) fn add_unmatched_of_choice(
    choice: &Choice,
    files: &[FileTotals<'_>],
    lines: &mut Bytes,
) -> Result<(), Memory>
    ensures { OnOk result (lines.new ≡ lines.old ++ flat_map (unmatched_line (map file_totals_data files.now)) (patterns_of_choice (choice_data choice.now))) }
{
    match choice {
        Choice::All => Ok(()),
        Choice::Extract(patterns) | Choice::Remove(patterns) => add_unmatched(
            patterns, files, lines,
        ),
        Choice::Filter { includes, excludes } => {
            add_unmatched(includes, files, lines)?;
            add_unmatched(excludes, files, lines)
        }
    }
}

/// Appends to `lines` a line about each of `patterns` that matches none of `files`.
fn add_unmatched(
    patterns: &Patterns,
    files: &[FileTotals<'_>],
    lines: &mut Bytes,
) -> Result<(), Memory>
    ensures { OnOk result (lines.new ≡ lines.old ++ flat_map (unmatched_line (map file_totals_data files.now)) patterns.now) }
{
    for pattern in patterns.get() {
        add_if_unmatched(pattern.get(), files, lines)?;
    }
    Ok(())
}

/// Appends to `lines` a line about `pattern` if it matches none of `files`.
fn add_if_unmatched(
    pattern: &[u8],
    files: &[FileTotals<'_>],
    lines: &mut Bytes,
) -> Result<(), Memory>
    ensures { OnOk result (lines.new ≡ lines.old ++ unmatched_line (map file_totals_data files.now) pattern.now) }
{
    if matches_a_file(pattern, files) {
        return Ok(());
    }
    put_shown_name(pattern, lines)?;
    lines.append(MATCHES_NO_FILE)?;
    Ok(())
}
