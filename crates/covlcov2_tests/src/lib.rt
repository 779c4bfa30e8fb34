//! Tests of covlcov2, the reader of tracefiles of LCOV 2: an example of each form and each error, and hostile inputs. The tests
//! have a crate of their own, so that covlcov2 is proved only once.
#![tactic(auto)]

#[cfg(test)]
mod tests;
