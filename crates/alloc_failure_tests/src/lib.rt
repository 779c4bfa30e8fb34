//! Tests in which memory runs out: each allocation of a call fails in turn. The tests are a crate of their own, so that no crate
//! with functions is proved a second time for its tests.
#![tactic(auto)]

#[cfg(test)]
mod tests;
