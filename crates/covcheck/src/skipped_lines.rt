//! Finds the skipped lines of an input.

ghost use Rattle.std.specs.Prelude.{◌≡◌, ℕ, List, length, None, Some, IfSome, MatchOption};
ghost use Rattle.covcheck.specs.TextSummary.{AreLinesThat, IsFirstOf};
ghost use Rattle.covcheck.specs.Skipped.{start_of, IsSkippedIn};

use crate::format::Format;
use crate::start::start_of;
use crate::text_summary::SkippedLine;
use covline::lines;

/// The skipped lines of an input: their number, and the first one.
#[derive(Clone, Copy)]
pub(crate) struct SkippedLines<'a> {
    /// The number of skipped lines.
    pub(crate) count: u64,
    /// The first skipped line.
    pub(crate) first: Option<SkippedLine<'a>>,
}

/// Counts the lines of the input that this format skips, and finds the first one.
pub(crate) fn skipped_lines_in(text: &[u8], format: Format) -> SkippedLines<'_>
    ensures { (lines : List (ℕ × List ℕ)) × AreLinesThat (IsSkippedIn format) text.now lines × (result.count ≡ length lines) × IsFirstOf lines result.first }
{
    let mut count: u64 = 0;
    let mut first = None;
    let mut at: u64 = 0;
    for line in lines(text) {
        at += 1;
        if format.skips(line) {
            count += 1;
            first = first_with(first, line, at);
        }
    }
    SkippedLines { count, first }
}

/// Returns `first` if it is `Some`, and otherwise the skipped line `line` with its number `at`.
fn first_with<'a>(
    first: Option<SkippedLine<'a>>,
    line: &'a [u8],
    at: u64,
) -> Option<SkippedLine<'a>>
    ensures kept { IfSome first.entry (λ f. result ≡ Some f) }
    ensures new { first.entry ≡ None → MatchOption result ⊥ (λ f. (f.at ≡ at) × (f.start.now ≡ start_of line.now)) }
{
    match first {
        Some(first) => Some(first),
        None => Some(SkippedLine {
            start: start_of(line),
            at,
        }),
    }
}
