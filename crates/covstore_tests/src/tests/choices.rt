//! Reports and totals of chosen files, and rates.

use super::check_bytes;
use super::held::{NOTHING, store_of};
use super::printing::check_printed;
use super::wrappers::list_of;
use covreport::{Choice, PatternFault, chosen_totals, tenths, trace_text};
use covstore::{Store, Totals};
use std::alloc::Global;
use std::process::Abort;
use std::test::*;

/// A tracefile of two files. The first file has two tests, and the second file has fewer functions than the first.
pub(super) const GIVEN: &[u8] =
    b"TN:t\nSF:/a.c\nFN:9,f\nFN:2,g\nFNDA:0,f\nFNDA:3,g\nBRDA:4,0,0,-\nBRDA:4,0,1,2\nDA:4,1,sum\nDA:5,0\nend_of_record\n\
    TN:t\nSF:/b.c\nFN:7,h\nFNDA:340282366920938463463374607431768211455,h\nDA:7,18446744073709551616\nend_of_record\n\
    TN:u\nSF:/a.c\nFN:9,f\nFNDA:0,f\nDA:4,0\nDA:5,1\nend_of_record\n";

/// The report of the first file.
pub(super) const FIRST: &[u8] =
    b"TN:t\nSF:/a.c\nFN:2,g\nFN:9,f\nFNDA:3,g\nFNDA:0,f\nFNF:2\nFNH:1\nBRDA:4,0,0,-\nBRDA:4,0,1,2\nBRF:2\nBRH:1\nDA:4,1,sum\nDA:5,0\nLF:2\nLH:1\nend_of_record\n\
    TN:u\nSF:/a.c\nFN:9,f\nFNDA:0,f\nFNF:1\nFNH:0\nDA:4,0\nDA:5,1\nLF:2\nLH:1\nend_of_record\n";

/// The report of the second file.
const SECOND: &[u8] =
    b"TN:t\nSF:/b.c\nFN:7,h\nFNDA:340282366920938463463374607431768211455,h\nFNF:1\nFNH:1\nDA:7,18446744073709551616\nLF:1\nLH:1\nend_of_record\n";

/// The report of both files.
const BOTH: &[u8] =
    b"TN:t\nSF:/a.c\nFN:2,g\nFN:9,f\nFNDA:3,g\nFNDA:0,f\nFNF:2\nFNH:1\nBRDA:4,0,0,-\nBRDA:4,0,1,2\nBRF:2\nBRH:1\nDA:4,1,sum\nDA:5,0\nLF:2\nLH:1\nend_of_record\n\
    TN:u\nSF:/a.c\nFN:9,f\nFNDA:0,f\nFNF:1\nFNH:0\nDA:4,0\nDA:5,1\nLF:2\nLH:1\nend_of_record\n\
    TN:t\nSF:/b.c\nFN:7,h\nFNDA:340282366920938463463374607431768211455,h\nFNF:1\nFNH:1\nDA:7,18446744073709551616\nLF:1\nLH:1\nend_of_record\n";

/// The totals of the first file.
const OF_FIRST: Totals = Totals {
    lf: 2,
    lh: 2,
    ff: 2,
    fh: 1,
    bf: 2,
    bh: 1,
};

/// The totals of the second file.
const OF_SECOND: Totals = Totals {
    lf: 1,
    lh: 1,
    ff: 1,
    fh: 1,
    bf: 0,
    bh: 0,
};

/// The totals of both files.
const OF_BOTH: Totals = Totals {
    lf: 3,
    lh: 3,
    ff: 3,
    fh: 2,
    bf: 2,
    bh: 1,
};

/// A choice of files: its kind, and one or two lists of patterns.
type Words<'s> = (&'s [u8], &'s [u8], &'s [u8]);

/// Choices, each with the report of the chosen files and their totals. Without includes, all files are chosen. Otherwise, the files
/// are chosen that match one of the includes. Excludes then remove the files that match one of the excludes.
const CHOICES: &[(Words<'static>, &[u8], Totals)] = &[
    ((b"all", b"", b""), BOTH, OF_BOTH),
    ((b"extract", b"*.h|/a.?", b""), FIRST, OF_FIRST),
    ((b"extract", b"/b.?", b""), SECOND, OF_SECOND),
    ((b"extract", b"", b""), b"", NOTHING),
    ((b"remove", b"/x|/a.?", b""), SECOND, OF_SECOND),
    ((b"remove", b"*.h|/c.?", b""), BOTH, OF_BOTH),
    ((b"filter", b"", b""), BOTH, OF_BOTH),
    ((b"filter", b"/a.?", b""), FIRST, OF_FIRST),
    ((b"filter", b"", b"/x|/b*"), FIRST, OF_FIRST),
    ((b"filter", b"", b"/a*"), SECOND, OF_SECOND),
    ((b"filter", b"/a*|/b*", b"*b.c"), FIRST, OF_FIRST),
    ((b"filter", b"/b*", b"/*"), b"", NOTHING),
];

/// The choice that these words describe.
fn choice_of(alloc: Global, words: Words<'_>) -> Result<Choice, PatternFault> {
    let (kind, one, other) = words;
    match kind {
        b"extract" => Ok(Choice::Extract(list_of(alloc, one)?)),
        b"remove" => Ok(Choice::Remove(list_of(alloc, one)?)),
        b"filter" => filter(alloc, one, other),
        _ => Ok(Choice::All),
    }
}

/// The choice by includes and excludes.
fn filter(alloc: Global, one: &[u8], other: &[u8]) -> Result<Choice, PatternFault> {
    Ok(Choice::Filter {
        includes: list_of(alloc, one)?,
        excludes: list_of(alloc, other)?,
    })
}

/// Checks the report of the chosen files.
fn check_text(rt: &(impl Abort + AllocGlobal), store: &Store, choice: &Choice, wanted: &[u8]) {
    match trace_text(rt.alloc(), store, choice) {
        Ok(text) => check_bytes(rt, text.get(), wanted),
        Err(_refused) => panic!(rt; "out of memory"),
    }
}

/// The totals of the chosen files.
fn chosen(store: &Store, choice: &Choice) -> Totals {
    chosen_totals(store, choice)
}

/// Checks the totals of the chosen files and their report, as one text and printed piece by piece.
fn check_choice(
    rt: &(impl Abort + AllocGlobal),
    store: &Store,
    choice: Choice,
    text: &[u8],
    totals: Totals,
) {
    assert!(rt; chosen(store, &choice) == totals);
    check_text(rt, store, &choice, text);
    check_printed(rt, store, choice, usize::MAX, text);
}

#[test]
fn choices(rt: HostRuntime) -> Result<(), Fail> {
    let store = store_of(&rt, GIVEN)?;
    for (words, text, totals) in CHOICES {
        check_choice(&rt, &store, choice_of(rt.alloc(), *words)?, text, *totals);
    }
    Ok(())
}

/// The rate of `hit` points out of `found`, in tenths of a percent. Panics if `found` is 0 or less than `hit`.
fn rate(rt: &impl Abort, hit: u64, found: u64) -> u32 {
    assert!(rt; found > 0);
    assert!(rt; hit <= found);
    tenths(hit, found)
}

#[test]
fn rates(rt: HostRuntime) {
    assert_eq!(rt; rate(&rt, 2, 3), 667);
    assert_eq!(rt; rate(&rt, u64::MAX, u64::MAX), 1_000);
}
