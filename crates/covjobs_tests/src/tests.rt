//! The book that threads share, and the inputs that workers collect. Expected values were worked out by hand from the formats.

use std::process::Abort;
use std::test::*;

mod books;
mod closing;
mod collecting;
mod gates;
mod into_book;
mod jobs;
mod readers;
mod refusals;
mod said;
mod threads;
mod turns;
mod wrappers;

/// Checks that the bytes are as expected. The tests call this, since a comparison in a test's own body would be a part of that
/// test's proof.
fn check_bytes(rt: &impl Abort, given: &[u8], wanted: &[u8]) {
    assert_eq!(rt; given, wanted);
}
