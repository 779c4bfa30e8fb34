//! Tries each call in a heap without capacity, and then in heaps with more and more capacity, until the call succeeds. Expected
//! values were worked out by hand from the formats.

use std::process::Abort;
use std::test::*;

mod copies;
mod heap;
mod lists;
mod maps;
mod prints;
mod readers;
mod said;
mod sessions;
mod shared;
mod steps;
mod stores;
mod texts;
mod values;
mod wrappers;

/// Checks that `given` and `wanted` are the same bytes. The tests call this function, since a comparison in a test's own body would
/// be part of the test's proof.
fn check_bytes(rt: &impl Abort, given: &[u8], wanted: &[u8]) {
    assert_eq!(rt; given, wanted);
}

/// Returns the value of a call that had ample memory. Panics if the call failed.
fn made<T, E: Drop>(rt: &impl Abort, given: Result<T, E>) -> T {
    match given {
        Ok(value) => value,
        Err(_refused) => panic!(rt; "refused with ample memory"),
    }
}
