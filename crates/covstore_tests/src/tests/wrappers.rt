//! Wrappers without contracts around functions of other crates. A test looks only at values, and without contracts its proof is
//! faster.

use covdata::{Bytes, Memory, ReadFault, Submission, TraceLine};
use covpacked::PackedSubmission;
use covread::{read_trace, read_trace_packed};
use covreport::{PatternFault, Patterns, matches};
use std::alloc::Global;
use std::process::Abort;
use std::test::*;

pub(super) fn put_line(record: &TraceLine<'_>, text: &mut Bytes) -> Result<(), Memory> {
    covline::put_line(record, text)
}

pub(super) fn read(alloc: Global, text: &[u8]) -> Result<Submission, ReadFault> {
    read_trace(alloc, text)
}

pub(super) fn read_packed(alloc: Global, text: &[u8]) -> Result<PackedSubmission, ReadFault> {
    read_trace_packed(alloc, text)
}

pub(super) fn is_match(pattern: &[u8], path: &[u8]) -> bool {
    matches(pattern, path)
}

pub(super) fn add(
    alloc: Global,
    patterns: &mut Patterns,
    pattern: &[u8],
) -> Result<(), PatternFault> {
    patterns.add(alloc, pattern)
}

pub(super) fn copied_patterns(alloc: Global, patterns: &Patterns) -> Result<Patterns, Memory> {
    patterns.copy(alloc)
}

pub(super) fn any_matches(patterns: &Patterns, path: &[u8]) -> bool {
    patterns.any_matches(path)
}

/// Makes a list of `patterns`, which are separated by bars. Makes the empty list if there are no bytes.
pub(super) fn list_of(alloc: Global, patterns: &[u8]) -> Result<Patterns, PatternFault> {
    let mut list = Patterns::new(alloc);
    if patterns.is_empty() {
        return Ok(list);
    }
    for pattern in patterns.split(|byte| *byte == b'|') {
        add(alloc, &mut list, pattern)?;
    }
    Ok(list)
}

/// Returns `times` copies of `bytes`, one after another.
pub(super) fn repeated(rt: &(impl Abort + AllocGlobal), bytes: &[u8], times: usize) -> Vec<u8> {
    let mut all = Vec::new(rt.alloc());
    for _time in 0..times {
        assert!(rt; all.extend_from_slice(bytes).is_ok());
    }
    all
}
