//! The store and its reports. Expected values were worked out by hand from the formats.

use std::process::Abort;
use std::test::*;

mod choices;
mod drops;
mod held;
mod images;
mod maps;
mod patterns;
mod plans;
mod printing;
mod renames;
mod runs;
mod wrappers;

/// Checks that `given` equals `wanted`. The tests call this, since a comparison in a test's own body would be a part of that test's
/// proof.
fn check_bytes(rt: &impl Abort, given: &[u8], wanted: &[u8]) {
    assert_eq!(rt; given, wanted);
}
