//! The examples of the crates' pages. They use the crates as a caller does. Each example is proved, and run by a test.
#![tactic(auto)]

pub mod books;
pub mod calls;
pub mod counts;
pub mod reading;
pub mod records;
pub mod reports;
pub mod sessions;
pub mod stores;
pub mod streams;
#[cfg(test)]
mod tests;
