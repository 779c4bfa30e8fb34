//! Tests of covpieces, which reads tracefiles in chunks: where a block is cut, and the state carried over between chunks. The tests
//! have a crate of their own, so that covpieces is proved only once.
#![tactic(auto)]

#[cfg(test)]
mod tests;
