//! How many jobs may share a book, and the numbers of the faults.

use super::collecting::{answered, answered_by_owned};
use super::into_book;
use super::wrappers::start;
use covbook::{GatherFault, Op};
use covjobs::{CloseFault, OpenFault, ReaderFault};
use covworkers::{CollectFault, IntoBookFault, NoGate};
use std::alloc::Global;
use std::process::Abort;
use std::sync::Wait;
use std::test::*;
use std::thread::Threads;

/// Whether no book can be made for this number of jobs.
fn is_bad(alloc: Global, jobs: u32) -> bool {
    match start(alloc, jobs) {
        Err(OpenFault::BadJobs) => true,
        _ => false,
    }
}

/// Whether `collect` rejects this number of jobs.
fn is_bad_to_collect<R: Threads + Wait + Sync + AllocGlobal>(rt: &R, jobs: u32) -> bool {
    match answered(rt, &[], &Op::Report, jobs, &NoGate) {
        Err(CollectFault::BadJobs) => true,
        _ => false,
    }
}

/// Whether `collect_owned` rejects this number of jobs.
fn is_bad_for_owned<R: Threads + Wait + Sync + AllocGlobal>(rt: &R, jobs: u32) -> bool {
    match answered_by_owned(rt, Vec::new(rt.alloc()), jobs) {
        Err(CollectFault::BadJobs) => true,
        _ => false,
    }
}

/// Whether `collect_into_book` rejects this number of jobs.
fn is_bad_for_a_book<R: Threads + Wait + Sync + AllocGlobal + Abort>(rt: &R, jobs: u32) -> bool {
    let bad = IntoBookFault::Collect(CollectFault::BadJobs);
    into_book::ends_with(rt, "s", jobs, bad)
}

/// Checks whether this number of jobs is rejected.
fn check_jobs<R: Threads + Wait + Sync + AllocGlobal + Abort>(rt: &R, jobs: u32, wanted: bool) {
    assert!(rt; is_bad(rt.alloc(), jobs) == wanted);
    assert!(rt; is_bad_to_collect(rt, jobs) == wanted);
    assert!(rt; is_bad_for_owned(rt, jobs) == wanted);
    assert!(rt; is_bad_for_a_book(rt, jobs) == wanted);
}

#[test]
fn numbers_of_jobs(rt: HostRuntime) {
    for (jobs, wanted) in [(0, true), (1, false), (64, false), (65, true)] {
        check_jobs(&rt, jobs, wanted);
    }
}

/// Checks the numbers of faults.
fn check_numbers(rt: &impl Abort, given: &[u32], wanted: &[u32]) {
    assert_eq!(rt; given, wanted);
}

#[test]
fn numbers_of_faults(rt: HostRuntime) {
    let open = [OpenFault::BadJobs.number(), OpenFault::Memory.number()];
    check_numbers(&rt, &open, &[1, 2]);
    let close = CloseFault::Missing { job: 7 };
    check_numbers(&rt, &[close.number()], &[1]);
    let reader = [ReaderFault::NoPlace.number(), ReaderFault::Memory.number()];
    check_numbers(&rt, &reader, &[1, 2]);
}

/// Checks the number of the fault, alone and in an `IntoBookFault`.
fn check_number(rt: &impl Abort, fault: CollectFault, wanted: u32) {
    assert_eq!(rt; fault.number(), wanted);
    assert_eq!(rt; IntoBookFault::Collect(fault).number(), wanted);
}

#[test]
fn numbers_of_collect_faults(rt: HostRuntime) {
    check_number(&rt, CollectFault::BadJobs, 1);
    check_number(&rt, CollectFault::Full, 2);
    check_number(&rt, CollectFault::Memory, 3);
    let missing = GatherFault::Missing { place: 0 };
    check_number(&rt, CollectFault::Gather(missing), 4);
    check_number(&rt, CollectFault::NotLast, 5);
    assert_eq!(rt; IntoBookFault::Unread { index: 3 }.number(), 6);
}
