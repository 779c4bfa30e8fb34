//! Tests of covlarge, which reads tracefiles of any length: the chunks, the state carried over between chunks, the summary of the
//! whole tracefile, and how reading ends. The tests are a crate of their own, so that covlarge is proved only once.
#![tactic(auto)]

#[cfg(test)]
mod tests;
