//! Tests of the command line: parsed commands, errors, and help texts. The tests are a crate of their own, so that the command line
//! is proved only once, and its mutants are tried while the tests are proved.
#![tactic(auto)]

#[cfg(test)]
mod tests;
