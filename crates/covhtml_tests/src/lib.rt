//! Tests of covhtml: texts, names and whole pages. This crate has only tests.
#![tactic(auto)]

#[cfg(test)]
mod tests;
