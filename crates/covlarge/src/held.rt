//! The summary of all chunks of a tracefile.

ghost use Rattle.std.specs.Prelude.{◌≡◌, IfOk, IsSome, OnOk, OnErr};
ghost use Rattle.covlarge.specs.HeldView.{first_data, format_of, moved_line, with_first, with_numbers};
ghost use Rattle.covlarge.specs.Summary.{HoldsOn, nothing_held, skipped_data, summary_data};
ghost use Rattle.covlarge.specs.Version.{IsSkippedOf};

use covcheck::{Format, SkippedLine, TextSummary, summary_of};
use covdata::{Bytes, LcovVersion, Memory};
use covpacked::PackedSubmission;
use std::alloc::Global;
use std::marker::Model;

/// The first skipped line: its number in the whole tracefile, and its beginning.
#[derive(Drop)]
struct FirstSkipped {
    at: u64,
    start: Bytes,
}

/// The summary of all chunks of a tracefile: how many sections, items, inconsistent lines (`odd`) and skipped lines they have, and
/// the first skipped line. Numbers saturate at 2^64 - 1. Contracts see these numbers and this line.
#[derive(Drop)]
pub struct Held {
    sections: u64,
    items: u64,
    odd: u64,
    skipped: u64,
    first: Option<FirstSkipped>,
}

impl Model for Held {
    ghost use Rattle.covlarge.specs.Summary.{SummaryData};
    ghost use Rattle.covlarge.specs.HeldView.{first_data};

    ghost Value = { SummaryData };

    ghost view = { λ h. record { sections = h.sections; items = h.items; odd = h.odd; skipped = h.skipped; first = first_data h.first } };
}

impl Held {
    /// The summary before the first chunk.
    pub(crate) fn new() -> Held
        ensures { result ≡ nothing_held }
    {
        Held {
            sections: 0,
            items: 0,
            odd: 0,
            skipped: 0,
            first: None,
        }
    }

    /// Adds the summary of the next chunk, `piece`, which was read as `submission`. The earlier chunks have `lines` lines. Changes
    /// nothing if an allocation fails.
    pub(crate) fn add(
        &mut self,
        alloc: Global,
        version: LcovVersion,
        lines: u64,
        piece: &[u8],
        submission: &PackedSubmission,
    ) -> Result<(), Memory>
        ensures added { OnOk result (HoldsOn (IsSkippedOf version) lines self.old piece.now submission.now self.new) }
        ensures kept { OnErr result (self.new ≡ self.old) }
    {
        let summary = summary_of(submission, piece, format_of(version));
        self.keep_first(alloc, lines, summary.first)?;
        self.add_numbers(&summary);
        Ok(())
    }

    /// Stores `line`, the next chunk's first skipped line, unless an earlier chunk has a skipped line. The earlier chunks have
    /// `lines` lines.
    fn keep_first(
        &mut self,
        alloc: Global,
        lines: u64,
        line: Option<SkippedLine<'_>>,
    ) -> Result<(), Memory>
        ensures added { OnOk result (self.new ≡ with_first self.old (moved_line lines line.entry)) }
        ensures kept { OnErr result (self.new ≡ self.old) }
    {
        if self.first.is_none() {
            self.first = first_skipped(alloc, lines, line)?;
        }
        Ok(())
    }

    /// Adds the numbers of the next chunk's summary.
    fn add_numbers(&mut self, summary: &TextSummary<'_>)
        ensures { self.new ≡ with_numbers self.old summary.now }
    {
        self.sections = self.sections.saturating_add(summary.sections);
        self.items = self.items.saturating_add(summary.items);
        self.odd = self.odd.saturating_add(summary.odd);
        self.skipped = self.skipped.saturating_add(summary.skipped);
    }

    /// Returns the summary as covcheck's type, as if the tracefile were read as a whole.
    pub fn summary(&self) -> TextSummary<'_>
        ensures { summary_data result ≡ self.now }
    {
        TextSummary {
            sections: self.sections,
            items: self.items,
            odd: self.odd,
            skipped: self.skipped,
            first: skipped_line(&self.first),
        }
    }
}

/// Copies a chunk's skipped line, with the line number in the whole tracefile. The earlier chunks have `lines` lines. Never fails if
/// there is no skipped line.
fn first_skipped(
    alloc: Global,
    lines: u64,
    line: Option<SkippedLine<'_>>,
) -> Result<Option<FirstSkipped>, Memory>
    ensures copied { IfOk result (λ first. first_data first ≡ moved_line lines line.entry) }
    ensures cause { OnErr result (IsSome line.entry) }
{
    match line {
        Some(line) => Ok(Some(FirstSkipped {
            at: lines.saturating_add(line.at),
            start: Bytes::of(alloc, line.start)?,
        })),
        None => Ok(None),
    }
}

/// Borrows the line as covcheck's type.
fn skipped_line(first: &Option<FirstSkipped>) -> Option<SkippedLine<'_>>
    ensures { skipped_data result ≡ first_data first.now }
{
    match first {
        Some(line) => Some(SkippedLine {
            start: line.start.get(),
            at: line.at,
        }),
        None => None,
    }
}

/// The format of covcheck for tracefiles of this version.
fn format_of(version: LcovVersion) -> Format
    ensures { result ≡ format_of version }
{
    match version {
        LcovVersion::One => Format::Trace,
        LcovVersion::Two => Format::Lcov2,
    }
}
