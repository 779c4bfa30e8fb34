//! Reads inputs, and checks each submission by its printed report.

use super::heap::{Call, check_rising_by, narrow, widen};
use super::stores::{stored, stored_packed};
use super::texts::{ANNOTATED, CHECKED, LCOV2, SMALL, TRACED};
use super::wrappers::{printed, read, read_packed};
use super::{check_bytes, made};
use bumpalo::Bump;
use covdata::{ReadFault, Submission};
use covlcov2::{read_lcov2, read_lcov2_packed};
use covpacked::PackedSubmission;
use covread::{read_gcov, read_gcov_packed};
use covreport::Choice;
use covstore::Store;
use std::process::Abort;
use std::test::*;

/// The format of an input.
#[derive(Clone, Copy)]
enum Format {
    Trace,
    /// gcov's annotated source, as counts of the test `t`.
    Annotated,
    Lcov2,
}

/// An input, its number of items, and the printed report of its submission. In a tracefile, a function has two items: its start
/// line and its count.
#[derive(Clone, Copy)]
pub(super) struct Input<'a> {
    format: Format,
    text: &'a [u8],
    items: u64,
    wanted: &'a [u8],
}

fn read_as<'h>(heap: &'h Bump, input: Input<'_>) -> Result<Submission<&'h Bump>, ReadFault> {
    match input.format {
        Format::Trace => read(heap, input.text),
        Format::Annotated => read_gcov(heap, b"t", input.text),
        Format::Lcov2 => read_lcov2(heap, input.text),
    }
}

fn read_packed_as<'h>(
    heap: &'h Bump,
    input: Input<'_>,
) -> Result<PackedSubmission<&'h Bump>, ReadFault> {
    match input.format {
        Format::Trace => read_packed(heap, input.text),
        Format::Annotated => read_gcov_packed(heap, b"t", input.text),
        Format::Lcov2 => read_lcov2_packed(heap, input.text),
    }
}

/// Checks that the store prints `wanted`.
fn check_report<'h>(rt: &impl Abort, heap: &'h Bump, store: &Store<&'h Bump>, wanted: &[u8]) {
    let report = made(rt, printed(heap, store, &Choice::All));
    check_bytes(rt, report.get(), wanted);
}

/// Reads the input, and checks the submission, which must have no inconsistent line. Returns whether an allocation failed. Leaves
/// the heap with ample capacity.
fn is_plain_refused(rt: &impl Abort, heap: &Bump, input: Input<'_>) -> bool {
    let given = read_as(heap, input);
    widen(heap);
    match given {
        Ok(given) => {
            assert_eq!(rt; (given.items(), given.odd()), (input.items, 0));
            check_report(rt, heap, &stored(rt, heap, &given), input.wanted);
            false
        }
        Err(fault) => {
            assert_eq!(rt; fault, ReadFault::Memory);
            true
        }
    }
}

/// Like `is_plain_refused`, with a packed submission.
fn is_packed_refused(rt: &impl Abort, heap: &Bump, input: Input<'_>) -> bool {
    let given = read_packed_as(heap, input);
    widen(heap);
    match given {
        Ok(given) => {
            assert_eq!(rt; (given.items(), given.odd()), (input.items, 0));
            check_report(rt, heap, &stored_packed(rt, heap, &given), input.wanted);
            false
        }
        Err(fault) => {
            assert_eq!(rt; fault, ReadFault::Memory);
            true
        }
    }
}

/// Reads the input with a capacity of `room`, and returns whether an allocation failed.
pub(super) fn is_refused(
    rt: &impl Abort,
    heap: &Bump,
    room: usize,
    input: Input<'_>,
    is_packed: bool,
) -> bool {
    narrow(rt, heap, room);
    if is_packed {
        let is_refused = is_packed_refused(rt, heap, input);
        assert!(rt;
            !is_refused || !is_packed_refused(rt, heap, input),
            "refused again"
        );
        return is_refused;
    }
    let is_refused = is_plain_refused(rt, heap, input);
    assert!(rt;
        !is_refused || !is_plain_refused(rt, heap, input),
        "refused again"
    );
    is_refused
}

/// The inputs that are read.
const INPUTS: &[Input<'static>] = &[
    Input {
        format: Format::Trace,
        text: SMALL,
        items: 2,
        wanted: SMALL,
    },
    Input {
        format: Format::Trace,
        text: CHECKED,
        items: 2,
        wanted: CHECKED,
    },
    Input {
        format: Format::Annotated,
        text: ANNOTATED,
        items: 8,
        wanted: TRACED,
    },
    Input {
        format: Format::Lcov2,
        text: LCOV2,
        items: 9,
        wanted: TRACED,
    },
];

#[test]
fn inputs(rt: HostRuntime) {
    for input in INPUTS {
        check_rising_by(
            &rt,
            1,
            16,
            &[Call::Read(*input, false), Call::Read(*input, true)],
        );
    }
}
