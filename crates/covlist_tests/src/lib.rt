//! Tests of covlist: lists of files as a table and as JSON. This crate has only tests.
#![tactic(auto)]

#[cfg(test)]
mod tests;
