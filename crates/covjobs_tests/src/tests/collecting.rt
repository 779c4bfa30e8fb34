//! Collects inputs with several jobs.

use super::books::{Ask, SMALL, op_of};
use super::check_bytes;
use super::said::check_entries;
use covbook::{Answer, Entry, JobLog, Op, PackedRef, SubRef};
use covdata::{Bytes, ReadFault};
use covjobs::{Input, collect, collect_owned};
use covrows::Rows;
use covworkers::{CollectFault, Collected, Gate, NoGate, RefusedInput};
use std::alloc::Global;
use std::process::Abort;
use std::sync::Wait;
use std::test::*;
use std::thread::Threads;

/// A copy of the text.
pub(super) fn bytes(rt: &impl Abort, alloc: Global, text: &[u8]) -> Bytes {
    match Bytes::of(alloc, text) {
        Ok(bytes) => bytes,
        Err(_refused) => panic!(rt; "out of memory"),
    }
}

/// The tracefile as an input.
pub(super) fn trace(rt: &impl Abort, alloc: Global, text: &[u8]) -> Input {
    Input::Trace(bytes(rt, alloc, text))
}

/// The tracefile of LCOV 2 as an input.
fn lcov2(rt: &impl Abort, alloc: Global, text: &[u8]) -> Input {
    Input::Lcov2(bytes(rt, alloc, text))
}

/// The annotated source as an input of the test `t`.
fn annotated(rt: &impl Abort, alloc: Global, text: &[u8]) -> Input {
    Input::Gcov {
        test: bytes(rt, alloc, b"t"),
        text: bytes(rt, alloc, text),
    }
}

/// These tracefiles as inputs.
pub(super) fn traces(rt: &impl Abort, alloc: Global, texts: &[&[u8]]) -> Vec<Input> {
    let mut inputs = Vec::new(alloc);
    for text in texts {
        if inputs.push(trace(rt, alloc, text)).is_err() {
            panic!(rt; "out of memory");
        }
    }
    inputs
}

/// Collects the inputs with `jobs` jobs and the last operation `last`.
pub(super) fn answered<R: Threads + Wait + Sync + AllocGlobal, G: Gate + Sync>(
    rt: &R,
    inputs: &[Input],
    last: &Op,
    jobs: u32,
    gate: &G,
) -> Result<Collected, CollectFault> {
    collect::<R, G, Rows>(rt, rt.alloc(), inputs, last, jobs, gate)
}

/// Collects the inputs with `jobs` jobs and the last operation `last`. Panics on an error.
fn collected_after<R: Threads + Wait + Sync + AllocGlobal + Abort, G: Gate + Sync>(
    rt: &R,
    inputs: &[Input],
    last: &Op,
    jobs: u32,
    gate: &G,
) -> Collected {
    match answered(rt, inputs, last, jobs, gate) {
        Ok(collected) => collected,
        Err(_fault) => panic!(rt; "nothing is collected"),
    }
}

/// Collects the inputs with `jobs` jobs. The last operation is a report. Panics on an error.
pub(super) fn collected_of<R: Threads + Wait + Sync + AllocGlobal + Abort, G: Gate + Sync>(
    rt: &R,
    inputs: &[Input],
    jobs: u32,
    gate: &G,
) -> Collected {
    collected_after(rt, inputs, &Op::Report, jobs, gate)
}

/// Collects one input with one job. Checks the entries.
fn check_collected<R: Threads + Wait + Sync + AllocGlobal + Abort>(
    rt: &R,
    input: Input,
    last: &Op,
    wanted: &[u8],
) {
    let collected = collected_after(rt, &[input], last, 1, &NoGate);
    check_entries(rt, collected.entries.get(), wanted);
}

/// The last operation renames the input's test.
#[test]
fn a_rename_at_the_end(rt: HostRuntime) {
    let last = op_of(&rt, rt.alloc(), Ask::Rename);
    let wanted = b"0 submit: accepted 1 2 0 \n0 rename: renamed 1 \n";
    check_collected(&rt, trace(&rt, rt.alloc(), SMALL), &last, wanted);
}

/// The expected entries for a tracefile of LCOV 2. The report has the records of version 1 that the tracefile's lines represent.
const LCOV2_ENTRIES: &[u8] = b"\
0 submit: accepted 1 4 0 
0 report: TN:t
SF:/a.c
FN:1,f
FNDA:2,f
FNF:1
FNH:1
BRDA:1,0,0,3
BRF:1
BRH:1
DA:1,2
LF:1
LH:1
end_of_record

";

#[test]
fn a_tracefile_of_lcov2(rt: HostRuntime) {
    let text = b"TN:t\nSF:/a.c\nFNL:0,1,3\nFNA:0,2,f\nBRDA:1,e0,a,3\nDA:1,2\nend_of_record\n";
    check_collected(
        &rt,
        lcov2(&rt, rt.alloc(), text),
        &Op::Report,
        LCOV2_ENTRIES,
    );
}

/// Whether only the input with this index is rejected, because its first line is a record outside of any section.
pub(super) fn is_outside(refused: &[RefusedInput], index: usize) -> bool {
    match refused.split_first() {
        Some((first, [])) => {
            first.index == index && first.fault == ReadFault::Outside { at: 1 }
        },
        _ => false,
    }
}

/// Checks how many receipts and readings the log has.
fn check_log(rt: &impl Abort, log: Option<&JobLog>, receipts: usize, readings: usize) {
    match log {
        Some(log) => {
            assert_eq!(rt; log.receipts.get().len(), receipts);
            assert_eq!(rt; log.readings.get().len(), readings);
        }
        None => panic!(rt; "no log"),
    }
}

/// The expected entries for `SMALL` twice.
const ENTRIES: &[u8] = b"\
0 submit: accepted 1 2 0 
0 submit: accepted 2 2 0 
0 report: TN:t
SF:/a.c
DA:1,4
DA:2,0
LF:2
LH:1
end_of_record

";

/// Collects three inputs with two jobs, and checks both logs. The second input is invalid, and job 1 has no other. Job 0 submits two
/// inputs and then asks for the report. It reads the totals once after each submit, but not after the report.
fn one_refused<R: Threads + Wait + Sync + AllocGlobal + Abort>(rt: &R) {
    let inputs = traces(rt, rt.alloc(), &[SMALL, b"DA:1,1", SMALL]);
    let collected = collected_of(rt, inputs.as_slice(), 2, &NoGate);
    assert!(rt; is_outside(collected.refused.get(), 1));
    check_entries(rt, collected.entries.get(), ENTRIES);
    check_logs(rt, collected.logs.get());
}

/// Checks that the first of two logs has three receipts and two readings, and the other none.
fn check_logs(rt: &impl Abort, logs: &[JobLog]) {
    assert_eq!(rt; logs.len(), 2);
    check_log(rt, logs.first(), 3, 2);
    check_log(rt, logs.get(1), 0, 0);
}

#[test]
fn a_refused_input(rt: HostRuntime) {
    one_refused(&rt);
}

/// The submission of the input.
pub(super) fn submission(rt: &impl Abort, alloc: Global, input: &Input) -> SubRef {
    match input.read(alloc) {
        Ok(submission) => submission,
        Err(_fault) => panic!(rt; "an input is refused"),
    }
}

/// The packed submission of the input.
fn packed(rt: &impl Abort, alloc: Global, input: &Input) -> PackedRef {
    match input.read_packed(alloc) {
        Ok(submission) => submission,
        Err(_fault) => panic!(rt; "an input is refused"),
    }
}

/// Checks that `input`, read packed, is the same submission as the tracefile `wanted`, read unpacked.
fn check_packed(rt: &impl Abort, alloc: Global, input: &Input, wanted: &[u8]) {
    let wanted = submission(rt, alloc, &trace(rt, alloc, wanted));
    assert!(rt; packed(rt, alloc, input).is_same_as(&wanted));
}

/// Each kind of input can be read packed.
#[test]
fn packed_inputs(rt: HostRuntime) {
    let alloc = rt.alloc();
    let one = trace(&rt, alloc, b"SF:/a.c\nDA:1,2\nend_of_record\n");
    check_packed(&rt, alloc, &one, b"TN:\nSF:/a.c\nDA:1,2\nend_of_record\n");
    let text = b"TN:t\nSF:/a.c\nBRDA:1,e0,a,3\nDA:1,2\nend_of_record\n";
    check_packed(
        &rt,
        alloc,
        &lcov2(&rt, alloc, text),
        b"TN:t\nSF:/a.c\nBRDA:1,0,0,3\nDA:1,2\nend_of_record\n",
    );
    let text = b"        -:    0:Source:tmp.c\n        3:    3:  if (x)\n";
    check_packed(
        &rt,
        alloc,
        &annotated(&rt, alloc, text),
        b"TN:t\nSF:tmp.c\nDA:3,3\nend_of_record\n",
    );
}

/// Collects owned inputs with `jobs` jobs. The last operation is a report.
pub(super) fn answered_by_owned<R: Threads + Wait + Sync + AllocGlobal>(
    rt: &R,
    inputs: Vec<Input>,
    jobs: u32,
) -> Result<Collected, CollectFault> {
    collect_owned::<R, NoGate, Rows>(rt, rt.alloc(), inputs, &Op::Report, jobs, &NoGate)
}

/// Checks that the answer of the last entry is the text `wanted`.
pub(super) fn check_last(rt: &impl Abort, entries: &[Entry], wanted: &[u8]) {
    match entries.last() {
        Some(entry) => match &entry.answer {
            Answer::Text(text) => check_bytes(rt, text.get().get(), wanted),
            _ => panic!(rt; "the last answer is no text"),
        },
        None => panic!(rt; "no entry"),
    }
}

/// A tracefile with a line that `SMALL` has too, a line that `SMALL` doesn't have, and a section of another test.
pub(super) const OTHERS: &[u8] = b"\
TN:t
SF:/a.c
DA:1,3
DA:4,1
end_of_record
TN:u
SF:/a.c
DA:2,5
end_of_record
";

/// `SMALL` twice and `OTHERS`, added up. The count of line 1 is 2 + 3 + 2.
pub(super) const ADDED_UP: &[u8] = b"\
TN:t
SF:/a.c
DA:1,7
DA:2,0
DA:4,1
LF:3
LH:2
end_of_record
TN:u
SF:/a.c
DA:2,5
LF:1
LH:1
end_of_record
";

/// Collects four owned inputs with three jobs. The second input is invalid, and job 0 has two of the others.
fn owned_by_three<R: Threads + Wait + Sync + AllocGlobal + Abort>(rt: &R) {
    let inputs = traces(rt, rt.alloc(), &[SMALL, b"DA:1,1", OTHERS, SMALL]);
    match answered_by_owned(rt, inputs, 3) {
        Ok(collected) => {
            assert!(rt; is_outside(collected.refused.get(), 1));
            check_last(rt, collected.entries.get(), ADDED_UP);
        },
        Err(_fault) => panic!(rt; "nothing is collected"),
    }
}

#[test]
fn owned_inputs(rt: HostRuntime) {
    owned_by_three(&rt);
}
