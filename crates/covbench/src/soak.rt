//! Rounds of random calls. Each round has a new book.

use crate::round::soaked;
use covjobs::Start;
use covstore::Store;
use std::alloc::Global;
use std::marker::Brand;
use std::sync::Wait;
use std::thread::Threads;

/// The parameters of a soak.
#[derive(Clone, Copy)]
pub(crate) struct SoakPlan {
    pub(crate) threads: u32,
    pub(crate) rounds: u64,
    pub(crate) calls: u64,
    pub(crate) seed: u64,
}

/// Runs all rounds, and returns their total number of calls. Stops at the first failure, and returns it with the round's seed.
pub(crate) fn all_rounds<R: Threads + Wait + Sync>(
    rt: &R,
    alloc: Global,
    plan: SoakPlan,
) -> anyhow::Result<u64> {
    let mut made: u64 = 0;
    for turn in 0..plan.rounds {
        let seed = plan.seed.wrapping_add(turn);
        match one_round(rt, alloc, plan, seed) {
            Ok(calls) => made = made.saturating_add(calls),
            Err(fault) => return Err(anyhow::anyhow!("seed {seed}: {fault}")),
        }
    }
    Ok(made)
}

/// Runs the round with this seed, and returns its number of calls.
fn one_round<R: Threads + Wait + Sync>(
    rt: &R,
    alloc: Global,
    plan: SoakPlan,
    seed: u64,
) -> anyhow::Result<u64> {
    let start = Start::new(alloc, plan.threads)?;
    soaked::<Brand, _, Store>(rt, alloc, start, plan.calls, seed)
}
