//! Tests of covbook's book and of `gather`: the public calls with ample memory, and what no session reaches. This crate has only
//! tests.
#![tactic(auto)]

#[cfg(test)]
mod tests;
