//! Tests of packed items, sections and submissions, with expected values written by hand.

use std::process::Abort;
use std::test::*;

mod closes;
mod edges;
mod heap;
mod mixed;
mod packs;
mod points;
mod reads;
mod refused;
mod removes;
mod room;
mod same;
mod sames;
mod sections;
mod starts;
mod wrappers;

/// Returns the value of a call with ample memory. Panics if the call failed.
fn made<T, E: Drop>(rt: &impl Abort, given: Result<T, E>) -> T {
    match given {
        Ok(value) => value,
        Err(_refused) => panic!(rt; "refused with ample memory"),
    }
}
