//! Tests of byte streams (covstream): readers and writers of std as sources and sinks, and reading in blocks. This is a crate of
//! its own, so that covstream is proved once.
#![tactic(auto)]

#[cfg(test)]
mod tests;
