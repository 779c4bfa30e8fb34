//! Wraps calls of the tested crates in functions without contracts. A test looks only at values, and its proof is faster without
//! contracts.

use covcheck::{TextSummary, check_gcov, check_trace, summary_line};
use covdata::{
    BadSubmission, BranchPoint, Bytes, Item, Items, Memory, ReadFault, Sect, Sects, Submission,
    TraceLine,
};
use covpacked::PackedSubmission;
use covread::{fits_no_shape, read_gcov, read_gcov_packed, read_trace, read_trace_packed};
use std::alloc::Global;
use std::test::*;

pub(super) fn bytes_of(alloc: Global, bytes: &[u8]) -> Result<Bytes, Memory> {
    Bytes::of(alloc, bytes)
}

pub(super) fn copy_of(alloc: Global, bytes: &Bytes) -> Result<Bytes, Memory> {
    bytes.copy(alloc)
}

pub(super) fn append(text: &mut Bytes, bytes: &[u8]) -> Result<(), Memory> {
    text.append(bytes)
}

pub(super) fn put_line(record: &TraceLine<'_>, text: &mut Bytes) -> Result<(), Memory> {
    covline::put_line(record, text)
}

/// Parses a text's first line if it is a `DA:` line. Returns its line number, its count, its checksum (empty if it has none), and
/// the number of bytes after it.
pub(super) fn counted_first(text: &[u8]) -> Option<(u64, u64, &[u8], usize)> {
    let first = covline::try_line_count(text)?;
    let checksum = first.checksum.unwrap_or(b"");
    Some((first.line, first.count, checksum, first.rest.len()))
}

/// Parses a text's first line if it is a `BRDA:` line. Returns the branch, its count, and the number of bytes after the line.
pub(super) fn branch_first(text: &[u8]) -> Option<(BranchPoint, Option<u64>, usize)> {
    let first = covline::try_branch_line(text)?;
    Some((first.point, first.taken, first.rest.len()))
}

/// The length of a text's first line, and the number of bytes after this line.
pub(super) fn cut_first(text: &[u8]) -> (usize, usize) {
    if text.is_empty() {
        return (0, 0);
    }
    let (line, rest) = covline::first_line(text);
    (line.len(), rest.len())
}

pub(super) fn submission_of(sects: Sects, odd: u64) -> Result<Submission, (Sects, BadSubmission)> {
    Submission::of(sects, odd)
}

pub(super) fn copied_submission(
    alloc: Global,
    submission: &Submission,
) -> Result<Submission, Memory> {
    submission.copy(alloc)
}

pub(super) fn copied_sects(alloc: Global, sects: &Sects) -> Result<Sects, Memory> {
    sects.copy(alloc)
}

pub(super) fn copied_items(alloc: Global, items: &Items) -> Result<Items, Memory> {
    items.copy(alloc)
}

pub(super) fn read(alloc: Global, text: &[u8]) -> Result<Submission, ReadFault> {
    read_trace(alloc, text)
}

pub(super) fn annotated(alloc: Global, test: &[u8], text: &[u8]) -> Result<Submission, ReadFault> {
    read_gcov(alloc, test, text)
}

pub(super) fn read_packed(alloc: Global, text: &[u8]) -> Result<PackedSubmission, ReadFault> {
    read_trace_packed(alloc, text)
}

pub(super) fn annotated_packed(
    alloc: Global,
    test: &[u8],
    text: &[u8],
) -> Result<PackedSubmission, ReadFault> {
    read_gcov_packed(alloc, test, text)
}

/// Whether a packed submission equals an unpacked one.
pub(super) fn is_packed(packed: &PackedSubmission, given: &Submission) -> bool {
    packed.is_same_as(given)
}

/// Appends the records of a function.
fn put_function(name: &[u8], line: u64, count: u128, text: &mut Bytes) -> Result<(), Memory> {
    put_line(&TraceLine::FuncStart { line, name }, text)?;
    put_line(&TraceLine::FuncCount { count, name }, text)
}

/// Appends the records of an item. A function has two records: its start line and its count.
fn put_item(item: &Item, text: &mut Bytes) -> Result<(), Memory> {
    match item {
        Item::Line {
            line,
            count,
            checksum,
        } => put_line(
            &TraceLine::Line {
                line: *line,
                count: u128::from(*count),
                checksum: checksum.as_ref().map(|text| text.get()),
            },
            text,
        ),
        Item::Func { name, line, count } => {
            put_function(name.get(), *line, u128::from(*count), text)
        }
        Item::Branch {
            line,
            block,
            branch,
            taken,
        } => put_line(
            &TraceLine::Branch {
                line: *line,
                block: *block,
                branch: *branch,
                taken: taken.map(|times| u128::from(times)),
            },
            text,
        ),
    }
}

/// Appends the items in order.
fn put_items(items: &[Item], text: &mut Bytes) -> Result<(), Memory> {
    for item in items {
        put_item(item, text)?;
    }
    Ok(())
}

/// Appends a section with its items.
fn put_sect(sect: &Sect, text: &mut Bytes) -> Result<(), Memory> {
    put_line(&TraceLine::Test(sect.test.get()), text)?;
    put_line(&TraceLine::Path(sect.file.get()), text)?;
    put_items(sect.items.get(), text)?;
    put_line(&TraceLine::End, text)
}

/// The sections as a tracefile.
pub(super) fn text_of(alloc: Global, sects: &[Sect]) -> Result<Bytes, Memory> {
    let mut text = Bytes::new(alloc);
    for sect in sects {
        put_sect(sect, &mut text)?;
    }
    Ok(text)
}

pub(super) fn checked(alloc: Global, text: &[u8]) -> Result<TextSummary<'_>, ReadFault> {
    check_trace(alloc, text)
}

pub(super) fn checked_gcov(alloc: Global, text: &[u8]) -> Result<TextSummary<'_>, ReadFault> {
    check_gcov(alloc, text)
}

pub(super) fn told(alloc: Global, summary: &TextSummary<'_>) -> Result<Vec<u8>, Memory> {
    summary_line(alloc, summary)
}

pub(super) fn without_shape(line: &[u8]) -> bool {
    fits_no_shape(line)
}
