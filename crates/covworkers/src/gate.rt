//! Hooks that a worker calls around each of its submits.

use std::sync::Wait;

/// Hooks that a worker calls right before and right after each submit, outside the book's lock. A test uses them to observe that
/// workers run at the same time. `call` is the number of the job's earlier submits. `after` is also called if the submit failed.
pub trait Gate {
    /// Called before the job submits.
    fn before<R: Wait>(&self, rt: &R, job: u32, call: u64);

    /// Called after the job has submitted.
    fn after<R: Wait>(&self, rt: &R, job: u32, call: u64);
}

/// A gate that does nothing.
#[derive(Clone, Copy, Debug)]
pub struct NoGate;

impl Gate for NoGate {
    fn before<R: Wait>(&self, _rt: &R, _job: u32, _call: u64) {}

    fn after<R: Wait>(&self, _rt: &R, _job: u32, _call: u64) {}
}
