//! Tests of sessions: each input with its expected output. The tests are a crate of their own, so that covsession is proved only
//! once, and its mutants are tried while the tests are proved.
#![tactic(auto)]

#[cfg(test)]
mod tests;
