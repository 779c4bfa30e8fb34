//! Tests of whole runs of the program: from arguments and files to the two output streams and the exit status. The tests are a
//! crate of their own, so that covrun is proved only once, and its mutants are tried while the tests are proved.
#![tactic(auto)]

#[cfg(test)]
mod tests;
