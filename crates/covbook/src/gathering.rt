//! Checks the entries of a history against the logs of the jobs.

ghost use Rattle.std.specs.Prelude.{◌≡◌, ◌≢◌, ◌↔◌, ◌+◌, ◌<◌, ◌≤◌, [], Err, IfOk, IsOk, IsTrue, MatchOption, length, map, take};
ghost use Rattle.std.specs.List.{All};
ghost use Rattle.covbook.specs.declared.gather_fault.GatherFault.{GatherFault};
ghost use Rattle.covbook.specs.EntryView.{entry_data, receipt_data};
ghost use Rattle.covbook.specs.Gather.{IsGathered, IsGatherFault, IsReadingOf, claims_of, claims_of_log, job_claims, log_claims, reading_claims, receipt_claims};
ghost use Rattle.covbook.specs.GatherSteps.{Returns};
ghost use Rattle.covbook.specs.LogView.{log_data};
ghost use Rattle.covbook.specs.Step.{last_totals, receipt_of};

use crate::entry::{Entry, Receipt};
use crate::gather_fault::GatherFault;
use crate::log::JobLog;
use crate::places::least_missing;
use crate::reading::Reading;
use covtable::Totals;
use std::alloc::Allocator;

/// Checks that the entries are a merge of the logs and that the readings are right. That is: the logs' jobs differ, the `place`s
/// ascend within each log, each receipt matches an entry of the log's job at its `place`, each entry has a receipt, and each
/// reading has the totals after its number of entries. Otherwise returns the first error, in the order that `GatherFault` states.
/// Never allocates. Takes time linear in the number of entries, receipts, readings and compared bytes, and quadratic in the number
/// of logs.
pub fn gather<A: Allocator>(entries: &[Entry<A>], logs: &[JobLog<A>]) -> Result<(), GatherFault>
    ensures gathered { IsOk result ↔ IsGathered (map entry_data entries.now) (map log_data logs.now) }
    ensures fault { (fault : GatherFault) → (result ≡ Err fault) ↔ IsGatherFault (map entry_data entries.now) (map log_data logs.now) fault }
{
    check_jobs(logs)?;
    check_logs(entries, logs)?;
    match least_missing(entries.len() as u64, logs) {
        Some(place) => Err(GatherFault::Missing { place }),
        None => Ok(()),
    }
}

/// Checks that each log's job differs from the jobs of all earlier logs.
fn check_jobs<A: Allocator>(logs: &[JobLog<A>]) -> Result<(), GatherFault>
    ensures { Returns result (job_claims 0 [] (map log_data logs.now)) }
{
    for (number, log) in logs.iter().enumerate() {
        if !is_new_job(log.job, &logs[..number]) {
            return Err(GatherFault::SameJob { log: number });
        }
    }
    Ok(())
}

/// Whether none of the logs is a log of `job`.
fn is_new_job<A: Allocator>(job: u32, logs: &[JobLog<A>]) -> bool
    ensures { IsTrue result ↔ All (λ log. log.job ≢ job) logs.now }
{
    logs.iter().all(|log| log.job != job)
}

/// Checks the receipts and the readings of all logs against the history.
fn check_logs<A: Allocator>(entries: &[Entry<A>], logs: &[JobLog<A>]) -> Result<(), GatherFault>
    ensures { Returns result (log_claims (map entry_data entries.now) 0 (map log_data logs.now)) }
{
    for (number, log) in logs.iter().enumerate() {
        check_log(entries, number, log)?;
    }
    Ok(())
}

/// Checks `log` against the history: first its receipts, then its readings. An error names the log by `number`.
fn check_log<A: Allocator>(
    entries: &[Entry<A>],
    number: usize,
    log: &JobLog<A>,
) -> Result<(), GatherFault>
    ensures { Returns result (claims_of_log (map entry_data entries.now) number (log_data log.now)) }
{
    check_receipts(entries, number, log)?;
    check_readings(entries, number, log)?;
    Ok(())
}

/// Checks each receipt of `log` against its entry, and that the `place`s ascend. An error names the log by `number`.
fn check_receipts<A: Allocator>(
    entries: &[Entry<A>],
    number: usize,
    log: &JobLog<A>,
) -> Result<(), GatherFault>
    ensures { Returns result (receipt_claims (map entry_data entries.now) (log_data log.now).job number 0 0 (log_data log.now).receipts) }
{
    let receipts = log.receipts.get();
    let mut least = 0;
    for (index, receipt) in receipts.iter().enumerate() {
        least = check_receipt(entries, log.job, number, index, least, receipt)?;
    }
    Ok(())
}

/// Checks that the receipt matches the job's entry at its `place`, and that `place` is at least `least`. Returns the next receipt's
/// `least`.
fn check_receipt<A: Allocator>(
    entries: &[Entry<A>],
    job: u32,
    log: usize,
    index: usize,
    least: u64,
    receipt: &Receipt<A>,
) -> Result<u64, GatherFault>
    ensures told { Returns result (claims_of (map entry_data entries.now) job log index least (receipt_data receipt.now)) }
    ensures next { IfOk result (λ n. n ≡ receipt.now.place + 1) }
{
    let Some(entry) = entries.get(receipt.place as usize) else {
        return Err(GatherFault::Stranger { log, index });
    };
    if entry.job != job {
        return Err(GatherFault::Stranger { log, index });
    }
    if !is_receipt_of(receipt, entry) {
        return Err(GatherFault::Differs { log, index });
    }
    if receipt.place < least {
        return Err(GatherFault::Backwards { log, index });
    }
    Ok(receipt.place + 1)
}

/// Whether the receipt has the operation and the answer of the entry.
fn is_receipt_of<A: Allocator>(receipt: &Receipt<A>, entry: &Entry<A>) -> bool
    ensures { IsTrue result ↔ (receipt_of receipt.now.place (entry_data entry.now) ≡ receipt_data receipt.now) }
{
    entry.op.is_same(&receipt.op) && entry.answer.is_same(&receipt.answer)
}

/// Checks the readings of `log` against the history. An error names the log by `number`.
fn check_readings<A: Allocator>(
    entries: &[Entry<A>],
    number: usize,
    log: &JobLog<A>,
) -> Result<(), GatherFault>
    ensures { Returns result (reading_claims (map entry_data entries.now) number 0 (log_data log.now).readings) }
{
    let readings = log.readings.get();
    for (index, reading) in readings.iter().enumerate() {
        if !is_reading_of(reading, entries) {
            return Err(GatherFault::BadReading { log: number, index });
        }
    }
    Ok(())
}

/// Whether the history has the reading's totals after its first `upto` entries. Returns `false` if the history has fewer entries.
fn is_reading_of<A: Allocator>(reading: &Reading, entries: &[Entry<A>]) -> bool
    ensures { IsTrue result ↔ IsReadingOf (map entry_data entries.now) reading.now }
{
    match totals_after(entries, reading.upto) {
        Some(totals) => totals == reading.totals,
        None => false,
    }
}

/// The totals after the first `upto` entries, or zeros if `upto` is 0. Returns `None` if there are fewer than `upto` entries.
fn totals_after<A: Allocator>(entries: &[Entry<A>], upto: u64) -> Option<Totals>
    ensures { MatchOption result (length entries.now < upto) (λ totals. (upto ≤ length entries.now) × (totals ≡ last_totals (take upto (map entry_data entries.now)))) }
{
    if upto == 0 {
        return Some(Totals::default());
    }
    let last = entries.get((upto - 1) as usize)?;
    Some(last.after)
}
