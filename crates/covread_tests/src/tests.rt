//! Tests public calls with ample memory. Expected values were worked out by hand from the formats (geninfo(1), section FILES;
//! gcov(1)).

use covdata::{ReadFault, Submission};
use std::process::Abort;
use std::test::*;

mod annotated;
mod checks;
mod hostile;
mod limits;
mod records;
mod wrappers;

/// Checks that the bytes are as expected. The tests call this function, since a comparison in a test's own body would be a part of
/// the test's proof.
fn check_bytes(rt: &impl Abort, given: &[u8], wanted: &[u8]) {
    assert_eq!(rt; given, wanted);
}

/// Checks the printed error, with a line feed.
fn check_fault(
    rt: &(impl Abort + AllocGlobal),
    fault: &ReadFault,
    wanted: &[u8],
) -> Result<(), Fail> {
    let words: String = format!(in rt.alloc(); "{fault}\n")?;
    check_bytes(rt, words.as_bytes(), wanted);
    Ok(())
}

/// Checks the printed submission of an example with this name.
fn check_printed(
    rt: &(impl Abort + AllocGlobal),
    name: &str,
    given: &Submission,
    wanted: &[u8],
) -> Result<(), Fail> {
    let printed = wrappers::text_of(rt.alloc(), given.sects())?;
    assert!(rt; printed.get() == wanted, "{name}");
    Ok(())
}

/// Checks the printed submission, or the printed error, of an example with this name.
fn check_told(
    rt: &(impl Abort + AllocGlobal),
    name: &str,
    given: Result<Submission, ReadFault>,
    wanted: &[u8],
) -> Result<(), Fail> {
    match given {
        Ok(submission) => check_printed(rt, name, &submission, wanted),
        Err(fault) => check_fault(rt, &fault, wanted),
    }
}

/// The numbers of sections, items and inconsistent lines of an input, or its error.
type Counted = Result<(usize, u64, u64), ReadFault>;

fn counted(given: Result<Submission, ReadFault>) -> Counted {
    let submission = given?;
    Ok((
        submission.sects().len(),
        submission.items(),
        submission.odd(),
    ))
}

/// Checks the numbers of an input, or its error.
fn check_counted(rt: &impl Abort, given: Result<Submission, ReadFault>, wanted: Counted) {
    let given = counted(given);
    assert!(rt; given == wanted, "{given:?} instead of {wanted:?}");
}
