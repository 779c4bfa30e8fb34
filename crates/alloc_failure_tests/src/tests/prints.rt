//! Prints texts, and chooses the files to print by patterns.

ghost use Rattle.covtable.specs.Totals.{AreTotals};

use super::heap::{Call, check_rising, narrow, widen};
use super::stores::holding;
use super::texts::{SMALL, TRACED};
use super::wrappers::{add, bytes, list_of, printed, put};
use super::{check_bytes, made};
use bumpalo::Bump;
use covline::{lines, read_line};
use covreport::{Choice, PatternFault, Patterns, summary_text};
use std::alloc::Allocator;
use std::process::Abort;
use std::test::*;

/// Prints `line` after another line. A failed allocation doesn't change the text.
fn puts_line(rt: &impl Abort, heap: &Bump, room: usize, line: &[u8]) -> bool {
    let mut text = made(rt, bytes(heap, b"TN:t\n"));
    let record = made(rt, read_line(line));
    narrow(rt, heap, room);
    let first = put(&record, &mut text);
    widen(heap);
    let is_refused = first.is_err();
    if is_refused {
        check_bytes(rt, text.get(), b"TN:t\n");
        made(rt, put(&record, &mut text));
    }
    check_line(rt, text.get(), line);
    is_refused
}

/// Checks that the text is the line `TN:t` followed by `line`.
fn check_line(rt: &impl Abort, text: &[u8], line: &[u8]) {
    let Some(rest) = text.strip_prefix(b"TN:t\n") else {
        panic!(rt; "another beginning");
    };
    assert_eq!(rt; rest.strip_suffix(b"\n"), Some(line));
}

/// Printed lines of all kinds.
const LINES: &[u8] = b"\
TN:another test
SF:/src/a.c
FN:18446744073709551615,a_function
FNDA:340282366920938463463374607431768211455,a_function
FNF:1
FNH:1
BRDA:18446744073709551615,18446744073709551614,18446744073709551613,-
BRDA:1,0,1,340282366920938463463374607431768211455
BRF:2
BRH:1
DA:1,2
DA:1,2,abc
LF:2
LH:1
end_of_record
";

/// Adds a pattern to a list of `held` patterns. A failed allocation doesn't change the list.
fn adds_pattern(rt: &impl Abort, heap: &Bump, room: usize, held: usize) -> bool {
    let mut list = Patterns::new(heap);
    for _pattern in 0..held {
        made(rt, add(heap, &mut list, b"/b/*"));
    }
    narrow(rt, heap, room);
    let first = add(heap, &mut list, b"/a/?.c");
    widen(heap);
    if let Err(fault) = first {
        assert!(rt; fault == PatternFault::Memory);
        assert!(rt; list.get().len() == held && !list.any_matches(b"/a/x.c"));
        made(rt, add(heap, &mut list, b"/a/?.c"));
    }
    assert!(rt; list.get().len() > held && list.any_matches(b"/a/x.c"));
    first.is_err()
}

/// Prints a store with only the tracefile `text`, or its files that match a pattern. All files match, so the report must equal
/// `text`.
fn prints_report(rt: &impl Abort, heap: &Bump, room: usize, text: &[u8], is_chosen: bool) -> bool {
    let store = holding(rt, heap, text);
    let choice = if is_chosen {
        Choice::Extract(list_of(rt, heap, &[b"*.c"]))
    } else {
        Choice::All
    };
    narrow(rt, heap, room);
    let first = printed(heap, &store, &choice);
    widen(heap);
    let (report, is_refused) = match first {
        Ok(report) => (report, false),
        Err(_refused) => (made(rt, printed(heap, &store, &choice)), true),
    };
    check_bytes(rt, report.get(), text);
    is_refused
}

const SUMMARY: &[u8] = b"\
Summary coverage rate:
  lines......: 50.0% (2 of 4 lines)
  functions..: 100.0% (1 of 1 function)
  branches...: 66.7% (2 of 3 branches)
";

/// Prints the summary of `TRACED`.
fn prints_summary(rt: &impl Abort, heap: &Bump, room: usize) -> bool {
    let totals = holding(rt, heap, TRACED).totals();
    narrow(rt, heap, room);
    let first = summary_text(heap, &totals);
    widen(heap);
    let (summary, is_refused) = match first {
        Ok(summary) => (summary, false),
        Err(_refused) => (made(rt, summary_text(heap, &totals)), true),
    };
    check_bytes(rt, summary.get(), SUMMARY);
    is_refused
}

/// What is printed, or added to what is printed.
#[derive(Clone, Copy)]
pub(super) enum Printed<'a> {
    Line(&'a [u8]),
    /// A pattern, for a list of so many patterns.
    Pattern(usize),
    /// The report of a tracefile, with a choice of files or not.
    Report(&'a [u8], bool),
    Summary,
}

/// Prints with a capacity of `room`, and returns whether an allocation failed.
pub(super) fn is_refused(rt: &impl Abort, heap: &Bump, room: usize, printed: Printed<'_>) -> bool {
    match printed {
        Printed::Line(line) => puts_line(rt, heap, room, line),
        Printed::Pattern(held) => adds_pattern(rt, heap, room, held),
        Printed::Report(text, is_chosen) => prints_report(rt, heap, room, text, is_chosen),
        Printed::Summary => prints_summary(rt, heap, room),
    }
}

#[test]
fn lines_of_all_kinds(rt: HostRuntime) {
    for line in lines(LINES) {
        check_rising(&rt, &[Call::Print(Printed::Line(line))]);
    }
}

#[test]
fn patterns(rt: HostRuntime) {
    for held in 0..10 {
        check_rising(&rt, &[Call::Print(Printed::Pattern(held))]);
    }
}

#[test]
fn reports_and_summaries(rt: HostRuntime) {
    check_rising(
        &rt,
        &[
            Call::Print(Printed::Report(SMALL, false)),
            Call::Print(Printed::Report(TRACED, false)),
            Call::Print(Printed::Report(SMALL, true)),
            Call::Print(Printed::Summary),
        ],
    );
}
