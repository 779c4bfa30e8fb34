//! covbench tests and measures a book that many threads share. `bench/soak` and `bench/readers.sh` call it.
//!
//! ```text
//! covbench soak THREADS ROUNDS CALLS SEED
//! covbench pace SUBMITTERS READERS SUBMITS
//! ```
//!
//! `soak`: in each round, THREADS threads (1 to 64) make CALLS random calls each on one shared book, and read its totals in
//! between. Then covbench closes the book and checks two things: the history matches the threads' logs, and a single thread gets
//! the same answers for the same operations in the same order. The first round has the seed SEED, and each later round the next
//! number. If a check fails, covbench reports the round's seed and ends with status 1. Otherwise it prints one line at the end.
//!
//! `pace`: SUBMITTERS threads (1 to 64) submit one small tracefile to one shared book, SUBMITS times each, while READERS others (0
//! to 64) read the totals without a pause. covbench prints one line: submits per second, the slowest submit in microseconds, and
//! readings per second.
//!
//! With any other arguments, covbench prints the two usage lines above.
#![tactic(auto)]

mod alone;
mod job;
mod pace;
mod random;
mod random_op;
mod round;
mod soak;
mod wrappers;

use crate::pace::{PacePlan, started};
use crate::soak::{SoakPlan, all_rounds};
use std::env;

/// The two ways to call the program.
const USAGE: &str =
    "covbench soak THREADS ROUNDS CALLS SEED\ncovbench pace SUBMITTERS READERS SUBMITS";

/// The parsed command line.
#[derive(Clone, Copy)]
enum Plan {
    Soak(SoakPlan),
    Pace(PacePlan),
}

fn main(rt: HostRuntime) -> anyhow::Result<()> {
    let mut words = Vec::new(rt.alloc());
    for word in env::args(&rt)? {
        words.push(word)?;
    }
    match plan_of(words.as_slice()) {
        Some(Plan::Soak(plan)) => {
            let calls = all_rounds(&rt, rt.alloc(), plan)?;
            println!(rt; "rounds {} calls {calls} differences 0", plan.rounds)?;
        }
        Some(Plan::Pace(plan)) => {
            let line = started(&rt, rt.alloc(), plan)?;
            println!(rt; "{line}")?;
        }
        None => println!(rt; "{USAGE}")?,
    }
    Ok(())
}

/// Parses the command line, whose first argument is the program's name. Returns `None` if it is invalid.
fn plan_of(words: &[String]) -> Option<Plan> {
    match words.get(1)?.as_str() {
        "soak" => Some(Plan::Soak(soak_of(words)?)),
        "pace" => Some(Plan::Pace(pace_of(words)?)),
        _ => None,
    }
}

/// Parses the arguments of `soak`. Returns `None` if they are invalid.
fn soak_of(words: &[String]) -> Option<SoakPlan> {
    let [_name, _soak, threads, rounds, calls, seed] = words else {
        return None;
    };
    Some(SoakPlan {
        threads: threads.as_str().parse::<u32>().ok()?,
        rounds: number(rounds)?,
        calls: number(calls)?,
        seed: number(seed)?,
    })
}

/// Parses the arguments of `pace`. Returns `None` if they are invalid.
fn pace_of(words: &[String]) -> Option<PacePlan> {
    let [_name, _pace, submitters, readers, submits] = words else {
        return None;
    };
    Some(PacePlan {
        submitters: submitters.as_str().parse::<u32>().ok()?,
        readers: number(readers)?,
        submits: number(submits)?,
    })
}

/// Parses a number. Returns `None` if the argument isn't one.
fn number(word: &String) -> Option<u64> {
    word.as_str().parse::<u64>().ok()
}
