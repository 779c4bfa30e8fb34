//! Tests of thresholds: which arguments are rates, and the lines about totals below their thresholds. The tests are a crate of
//! their own, so that covlimit is proved once, and covlimit's mutants are tried while the tests are proved.
#![tactic(auto)]

#[cfg(test)]
mod tests;
