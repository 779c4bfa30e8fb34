//! Tests of covpacked's packed items, sections and submissions, and of the memory that these use. The tests are a separate crate,
//! so that covpacked is proved only once.
#![tactic(auto)]

#[cfg(test)]
mod tests;
