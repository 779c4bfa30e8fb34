//! Tests of covdata, covline, covread and covcheck (records, readers, checks): their public calls with ample memory, also calls
//! that no session makes. The tests have a crate of their own, so that the tested crates are proved only once, and their mutants
//! can be tried while the tests are proved. This crate doesn't depend on the store, so it can be proved at the same time as the
//! store.
#![tactic(auto)]

#[cfg(test)]
mod tests;
