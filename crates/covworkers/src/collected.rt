//! Collects many inputs into one history, with jobs that run at the same time.

ghost use Rattle.std.specs.Prelude.{◌≡◌, ◌<◌, Err, IfOk, IfErr};
ghost use Rattle.covbook.specs.View.{op_data};
ghost use Rattle.covworkers.specs.declared.collect_fault.CollectFault.TheVariants as faults;
ghost use Rattle.covworkers.specs.Collect.{IsCollectedFrom};
ghost use Rattle.covworkers.specs.declared.book_fault.IntoBookFault.TheVariants as into_book;
ghost use Rattle.covworkers.specs.Late.{IsUnreadFault};
ghost use Rattle.covworkers.specs.Work.{seats_in, logs_in, refused_in};
ghost use Rattle.std.specs.List.Sorted.{IsPermutation, IsNonDecreasingBy};
ghost use Rattle.covworkers.specs.declared.refused.RefusedInput.{RefusedInput};

use crate::book_fault::IntoBookFault;
use crate::collect_fault::CollectFault;
use crate::done::{all_done, ask_last};
use crate::gate::Gate;
use crate::late::LateInput;
use crate::readers::Readers;
use crate::refused::Refused;
use crate::worker::Worker;
use covbook::laws::{a_run_goes_on, order_does_not_matter};
use covbook::{Entries, Logs, Op, gather};
use covdata::{Memory, ReadFault};
use covlock::{Name, Seats, Start, open_book};
use covreport::Table;
use std::alloc::Global;
use std::sync::Wait;
use std::thread::Threads;

/// The result of covjobs' `collect`.
#[derive(Drop)]
pub struct Collected {
    /// The history. Its last entry is that of the last operation.
    pub entries: Entries,
    /// A log of each job, from job 0 on: its receipts, and its readings of the totals.
    pub logs: Logs,
    /// The rejected inputs, in the inputs' order. They aren't in the history.
    pub refused: Refused,
}

/// Like covjobs' `collect_owned`, but for any `LateInput` whose error is a `ReadFault`, and with a book opened from `start`
/// in a store `S`.
pub fn collect_named<
    R: Threads + Wait + Sync,
    G: Gate + Sync,
    L: Name + Send + Sync,
    T: LateInput<Global, Fault = ReadFault> + Send,
    S: Table<Global, Plan: Send, Renaming: Send> + Send,
>(
    rt: &R,
    alloc: Global,
    inputs: Vec<T>,
    last: &Op,
    jobs: u32,
    gate: &G,
    start: Start,
) -> Result<Collected, IntoBookFault>
    requires name { start.name ≡ L.name }
    requires parts { start.jobs ≡ L.parts }
    requires book { start.book ≡ L.book }
    requires jobs { start.jobs ≡ jobs }
    requires some { 0 < jobs }
    ensures collected { IfOk result (λ c. IsCollectedFrom T.may_give inputs.items jobs (op_data last.now) c.entries c.logs c.refused) }
    ensures unread { IfErr result (IsUnreadFault T.may_give T.may_fail inputs.items) }
    ensures jobs_are_good { result ≡ Err (into_book.Collect faults.BadJobs) → ⊥ }
{
    let (book, seats) = open_book::<L, Global, S>(alloc, start)?;
    let mut workers = all_done(
        rt,
        alloc,
        &book,
        gate,
        seats,
        jobs,
        Readers::ForEachJob,
        inputs,
    )?;
    let end = ask_last(rt, alloc, &book, &mut workers, last)?;
    let (seats, logs, refused) = hand_in(alloc, workers)?;
    let entries = match book.close(rt, seats) {
        Ok((entries, _news)) => entries,
        // No seat is missing: each worker returns its own.
        Err(_back) => unreachable!(),
    };
    gather(entries.get(), logs.get())?;
    if entries.get().len() as u64 != end {
        return Err(IntoBookFault::Collect(CollectFault::NotLast));
    }
    a_run_goes_on();
    order_does_not_matter();
    Ok(Collected {
        entries,
        logs,
        refused,
    })
}

/// Splits the workers into their seats, their logs, and the rejected inputs in the inputs' order.
fn hand_in<L: Name>(
    alloc: Global,
    workers: Vec<Worker<L>>,
) -> Result<(Seats<L>, Logs, Refused), Memory>
    ensures seats { IfOk result (λ r. r.0 ≡ seats_in workers.items) }
    ensures logs { IfOk result (λ r. r.1 ≡ logs_in workers.items) }
    ensures refused { IfOk result (λ r. IsPermutation (refused_in workers.items) r.2) }
    ensures ascending { IfOk result (λ r. IsNonDecreasingBy (λ (i : RefusedInput ReadFault). i.index) r.2) }
{
    let mut seats = Seats::new(alloc);
    let mut logs = Logs::new(alloc);
    let mut refused = Refused::new(alloc);
    for worker in workers {
        let (seat, log, own_refused) = worker.into_parts();
        seats.push(seat)?;
        logs.push(log)?;
        refused.append(own_refused)?;
    }
    refused.sort();
    Ok((seats, logs, refused))
}
