//! Tests of the store, of its map and of its reports (covstore, covmap, covreport): public calls with ample memory, and cases that
//! no session reaches. This crate has only tests.
#![tactic(auto)]

#[cfg(test)]
mod tests;
