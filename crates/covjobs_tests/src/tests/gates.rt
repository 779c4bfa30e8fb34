//! Workers run at the same time: in a gate, one worker waits until another has done something.

use super::books::SMALL;
use super::collecting::{collected_of, traces};
use covbook::{Entry, JobLog};
use covworkers::{Collected, Gate};
use std::process::Abort;
use std::sync::Wait;
use std::sync::atomic::{AtomicU64, Ordering};
use std::test::*;
use std::thread::Threads;

/// How often a worker looks for an event before it gives up.
const MAX_TURNS: u64 = 1_000_000_000;

/// Events as bits: a job comes to its first submit, or has submitted for the first time. Job 1 may also come to its second submit.
const BEFORE_0: u64 = 1;

const AFTER_0: u64 = 2;

const BEFORE_1: u64 = 4;

const AFTER_1: u64 = 8;

const AGAIN_1: u64 = 16;

/// The event that `job` comes to its submit `call`, or 0.
fn event_before(job: u32, call: u64) -> u64 {
    match (job, call) {
        (0, 0) => BEFORE_0,
        (1, 0) => BEFORE_1,
        (1, 1) => AGAIN_1,
        _ => 0,
    }
}

/// The event that `job` has made its submit `call`, or 0.
fn event_after(job: u32, call: u64) -> u64 {
    match (job, call) {
        (0, 0) => AFTER_0,
        (1, 0) => AFTER_1,
        _ => 0,
    }
}

/// A gate for two jobs. Each of its two rules has an event, at which a job waits, and the event that it waits for.
#[derive(Drop)]
struct Meeting {
    rules: [(u64, u64); 2],
    /// The sum of the events that have happened.
    happened: AtomicU64,
    /// How many rules have been met.
    met: AtomicU64,
}

impl Meeting {
    fn new(rules: [(u64, u64); 2]) -> Meeting {
        Meeting {
            rules,
            happened: AtomicU64::new(0),
            met: AtomicU64::new(0),
        }
    }

    /// Notes an event, and waits as the rules say.
    fn happen(&self, event: u64) {
        self.happened.fetch_add(event, Ordering::SeqCst);
        for (at, awaited) in self.rules {
            if at == event && self.is_seen(awaited) {
                self.met.fetch_add(1, Ordering::SeqCst);
            }
        }
    }

    /// Waits until the event has happened. Returns `false` if it still hasn't after `MAX_TURNS` looks.
    fn is_seen(&self, event: u64) -> bool {
        for _turn in 0..MAX_TURNS {
            if self.happened.load(Ordering::SeqCst) & event != 0 {
                return true;
            }
        }
        false
    }
}

impl Gate for Meeting {
    fn before<R: Wait>(&self, _rt: &R, job: u32, call: u64) {
        self.happen(event_before(job, call));
    }

    fn after<R: Wait>(&self, _rt: &R, job: u32, call: u64) {
        self.happen(event_after(job, call));
    }
}

/// Lets two jobs collect the tracefiles with these rules. Checks that both rules are met.
fn collected_with<R: Threads + Wait + Sync + AllocGlobal + Abort>(
    rt: &R,
    texts: &[&[u8]],
    rules: [(u64, u64); 2],
) -> Collected {
    let gate = Meeting::new(rules);
    let inputs = traces(rt, rt.alloc(), texts);
    let collected = collected_of(rt, inputs.as_slice(), 2, &gate);
    assert_eq!(rt; gate.met.load(Ordering::SeqCst), 2);
    collected
}

/// Lets two jobs submit one input each, with these rules. Checks that the history has three entries: both submits and the report.
fn check_two<R: Threads + Wait + Sync + AllocGlobal + Abort>(rt: &R, rules: [(u64, u64); 2]) {
    let collected = collected_with(rt, &[SMALL, SMALL], rules);
    assert_eq!(rt; collected.entries.get().len(), 3);
}

/// First, both jobs come to their submits before either submits. Then each job waits once until the other has submitted.
#[test]
fn both_at_once(rt: HostRuntime) {
    check_two(&rt, [(BEFORE_0, BEFORE_1), (BEFORE_1, BEFORE_0)]);
    check_two(&rt, [(BEFORE_0, AFTER_1), (AFTER_1, BEFORE_0)]);
    check_two(&rt, [(BEFORE_1, AFTER_0), (AFTER_0, BEFORE_1)]);
}

/// Checks that each log has exactly one reading, and that this reading covers `upto` entries.
fn check_readings(rt: &impl Abort, logs: &[JobLog], upto: u64) {
    for log in logs {
        match log.readings.get().split_first() {
            Some((reading, [])) => assert_eq!(rt; reading.upto, upto),
            _ => panic!(rt; "another number of readings"),
        }
    }
}

/// A job's reading covers all entries published by then, not only the job's own, and comes before the last operation. Here each job
/// reads the totals after both submits.
#[test]
fn a_reading_sees_other_jobs(rt: HostRuntime) {
    let rules = [(AFTER_0, AFTER_1), (AFTER_1, AFTER_0)];
    let collected = collected_with(&rt, &[SMALL, SMALL], rules);
    check_readings(&rt, collected.logs.get(), 2);
}

/// Checks that the first entry is of job `job`.
fn check_first(rt: &impl Abort, entries: &[Entry], job: u32) {
    match entries.first() {
        Some(entry) => assert_eq!(rt; entry.job, job),
        None => panic!(rt; "no entry"),
    }
}

/// A gate's `after` is called after the submit. In this call, job 0 lets job 1 begin, and waits until job 1 has submitted once. By
/// then, job 0's own submit is complete, so the first entry is of job 0.
#[test]
fn after_is_after_the_submit(rt: HostRuntime) {
    let rules = [(BEFORE_1, AFTER_0), (AFTER_0, AGAIN_1)];
    let collected = collected_with(&rt, &[SMALL, SMALL, SMALL, SMALL], rules);
    check_first(&rt, collected.entries.get(), 0);
}

/// A gate that counts its calls around the submits of job 0.
#[derive(Drop)]
struct Steps {
    /// The number of calls, or at least `WRONG` after a call that came out of order.
    taken: AtomicU64,
}

/// More calls than a test makes.
const WRONG: u64 = 1000;

impl Steps {
    /// Counts a call of the gate, which must be of job 0, and have the number `step`.
    fn take(&self, job: u32, step: u64) {
        let taken = self.taken.load(Ordering::SeqCst);
        let counted = if job == 0 && step == taken { 1 } else { WRONG };
        self.taken
            .store(taken.saturating_add(counted), Ordering::SeqCst);
    }
}

impl Gate for Steps {
    fn before<R: Wait>(&self, _rt: &R, job: u32, call: u64) {
        self.take(job, call.saturating_mul(2));
    }

    fn after<R: Wait>(&self, _rt: &R, job: u32, call: u64) {
        self.take(job, call.saturating_mul(2).saturating_add(1));
    }
}

/// Lets one job collect three inputs with `gate`. The second input is invalid.
fn one_job<R: Threads + Wait + Sync + AllocGlobal + Abort>(rt: &R, gate: &Steps) {
    let inputs = traces(rt, rt.alloc(), &[SMALL, b"DA:1,1", SMALL]);
    let collected = collected_of(rt, inputs.as_slice(), 1, gate);
    assert_eq!(rt; collected.entries.get().len(), 3);
}

/// A gate is called before and after each submit, with the submit's number, but not for an invalid input or the last operation.
#[test]
fn around_each_submit(rt: HostRuntime) {
    let gate = Steps {
        taken: AtomicU64::new(0),
    };
    one_job(&rt, &gate);
    assert_eq!(rt; gate.taken.load(Ordering::SeqCst), 4);
}
