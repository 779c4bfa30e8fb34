//! A use of covreport.

ghost use Rattle.std.specs.Prelude.{◌≡◌, [], ◌∷◌, IfOk};
ghost use Rattle.covtable.specs.Totals.{totals_of};
ghost use Rattle.covreport.specs.Choice.{Extracted};
ghost use Rattle.covreport.specs.Report.{report_text};
ghost use Rattle.covreport.specs.Summary.{summary_of};

use covdata::Bytes;
use covreport::{Choice, PatternFault, Patterns, Table, summary_text, trace_text};
use std::alloc::Global;

/// The merged tracefile of the files that match the pattern, and the summary of all files.
pub fn reports<T: Table<Global>>(
    alloc: Global,
    store: &T,
    pattern: &[u8],
) -> Result<(Bytes, Bytes), PatternFault>
    ensures tracefile { IfOk result (λ r. r.0 ≡ report_text (Extracted (pattern.now ∷ [])) (T.shown store.now).sections) }
    ensures summary { IfOk result (λ r. r.1 ≡ summary_of (totals_of (T.shown store.now).sections)) }
{
    let mut patterns = Patterns::new(alloc);
    patterns.add(alloc, pattern)?;
    let tracefile = trace_text(alloc, store, &Choice::Extract(patterns))?;
    let summary = summary_text(alloc, &store.totals())?;
    Ok((tracefile, summary))
}
