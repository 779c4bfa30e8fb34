//! Tests with expected values that were worked out by hand from geninfo(1) of LCOV 2.3.1, section TRACEFILE FORMAT. Expected
//! submissions are written as tracefiles of version 1.

use covdata::{ReadFault, Submission};
use covlcov2::{read_lcov2, read_lcov2_packed};
use covread::read_trace;
use std::alloc::Global;
use std::process::Abort;
use std::test::*;

mod faults;
mod forms;
mod hostile;

/// The submission of a tracefile of LCOV 2.
fn read(alloc: Global, text: &[u8]) -> Result<Submission, ReadFault> {
    read_lcov2(alloc, text)
}

/// The submission of a tracefile of version 1.
fn read_plain(alloc: Global, text: &[u8]) -> Result<Submission, ReadFault> {
    read_trace(alloc, text)
}

/// Whether `text`, read as LCOV 2, is the same submission as `wanted`, also if it is read as a packed submission.
fn is_read_as(alloc: Global, text: &[u8], wanted: &Submission) -> Result<bool, ReadFault> {
    Ok(read(alloc, text)?.is_same(wanted) && read_lcov2_packed(alloc, text)?.is_same_as(wanted))
}

/// Whether `text`, read as LCOV 2, is the same submission as `wanted`, read as version 1.
fn reads_as(alloc: Global, text: &[u8], wanted: &[u8]) -> Result<bool, ReadFault> {
    is_read_as(alloc, text, &read_plain(alloc, wanted)?)
}

/// Checks the printed error.
fn check_words(
    rt: &(impl Abort + AllocGlobal),
    fault: ReadFault,
    wanted: &str,
) -> Result<(), Fail> {
    let words: String = format!(in rt.alloc(); "{fault}")?;
    assert!(rt; words.as_str() == wanted, "{words} instead of {wanted}");
    Ok(())
}

/// Checks the printed error of the input.
fn check_fault(rt: &(impl Abort + AllocGlobal), text: &[u8], wanted: &str) -> Result<(), Fail> {
    match read(rt.alloc(), text) {
        Ok(_) => panic!(rt; "there is no fault, but {wanted}"),
        Err(fault) => check_words(rt, fault, wanted),
    }
}
