//! Collects many inputs into one history, with jobs that run at the same time.

ghost use Rattle.std.specs.Prelude.{◌≡◌, ◌↔◌, ◌<◌, Err, IfOk, map};
ghost use Rattle.covbook.specs.View.{op_data};
ghost use Rattle.covworkers.specs.declared.collect_fault.CollectFault.TheVariants as faults;
ghost use Rattle.covjobs.specs.Inputs.{IsCollected};
ghost use Rattle.covjobs.specs.InputView.{input_data};
ghost use Rattle.covlock.specs.Start.{AreJobs};

use crate::input::Input;
use covbook::Op;
use covdata::Memory;
use covlock::Start;
use covreport::Table;
use covworkers::{CollectFault, Collected, Gate, IntoBookFault, collect_named};
use std::alloc::Global;
use std::marker::Brand;
use std::sync::Wait;
use std::thread::Threads;

/// Collects inputs in a store `S`, with `jobs` jobs that run at the same time, each in its own thread. A single job runs on the
/// calling thread. Job j of n processes the inputs j, j + n, j + 2n and so on, in order: the job parses an input outside the book's lock, and then
/// submits it. If an input is invalid, the job notes it as rejected and goes on. After each submit, the job reads the totals once,
/// without the lock, unless the book had no place for the job's reader. After all jobs have ended, job 0 performs the operation
/// `last`. Waits for the jobs.
///
/// Counts add up as with lcov(1), --add-tracefile. Errors: `BadJobs` if and only if `jobs` isn't 1 to 64; `Full`; `Memory`, also if
/// a worker can't be started; `Gather` and `NotLast` if the history doesn't match the logs, which never happens.
pub fn collect<
    R: Threads + Wait + Sync,
    G: Gate + Sync,
    S: Table<Global, Plan: Send, Renaming: Send> + Send,
>(
    rt: &R,
    alloc: Global,
    inputs: &[Input],
    last: &Op,
    jobs: u32,
    gate: &G,
) -> Result<Collected, CollectFault>
    ensures collected { IfOk result (λ c. IsCollected (map input_data inputs.now) jobs (op_data last.now) c.entries c.logs c.refused) }
    ensures bad { (result ≡ Err faults.BadJobs) ↔ (AreJobs jobs → ⊥) }
{
    let start = Start::new(alloc, jobs)?;
    let inputs = lent(alloc, inputs)?;
    match collect_named::<R, G, Brand, &Input, S>(rt, alloc, inputs, last, jobs, gate, start) {
        Ok(collected) => Ok(collected),
        Err(IntoBookFault::Collect(fault)) => Err(fault),
        // An input in memory can always be read.
        Err(IntoBookFault::Unread { index: _ }) => unreachable!(),
    }
}

/// Like `collect`, but consumes the inputs: frees each input after parsing it, before the submit.
pub fn collect_owned<
    R: Threads + Wait + Sync,
    G: Gate + Sync,
    S: Table<Global, Plan: Send, Renaming: Send> + Send,
>(
    rt: &R,
    alloc: Global,
    inputs: Vec<Input>,
    last: &Op,
    jobs: u32,
    gate: &G,
) -> Result<Collected, CollectFault>
    ensures collected { IfOk result (λ c. IsCollected (map input_data inputs.items) jobs (op_data last.now) c.entries c.logs c.refused) }
    ensures bad { (result ≡ Err faults.BadJobs) ↔ (AreJobs jobs → ⊥) }
{
    let start = Start::new(alloc, jobs)?;
    match collect_named::<R, G, Brand, Input, S>(rt, alloc, inputs, last, jobs, gate, start) {
        Ok(collected) => Ok(collected),
        Err(IntoBookFault::Collect(fault)) => Err(fault),
        // An input in memory can always be read.
        Err(IntoBookFault::Unread { index: _ }) => unreachable!(),
    }
}

/// Returns a reference to each input, in order.
fn lent(alloc: Global, inputs: &[Input]) -> Result<Vec<&Input>, Memory>
    ensures { IfOk result (λ lent. map (λ input. input_data input.now) lent.items ≡ map input_data inputs.now) }
{
    let mut lent = Vec::with_capacity(alloc, inputs.len())?;
    for input in inputs {
        lent.push(input)?;
    }
    Ok(lent)
}
