//! The indices (`place`) of receipts.

ghost use Rattle.std.specs.Prelude.{◌≡◌, map};
ghost use Rattle.covbook.specs.Gather.{Rise, places_in, places_of};
ghost use Rattle.covbook.specs.GatherSteps.{AreApart, ReturnsLeast, below};
ghost use Rattle.covbook.specs.LogView.{log_data};

use crate::log::JobLog;
use std::alloc::Allocator;

/// Returns the least index below `count` that no receipt of the logs has, or `None` if each index has a receipt. No two receipts
/// may have the same index. So all indices below n have receipts if and only if n receipts have an index below n, and a binary
/// search finds the least missing index.
pub(crate) fn least_missing<A: Allocator>(count: u64, logs: &[JobLog<A>]) -> Option<u64>
    requires { AreApart (map log_data logs.now) }
    ensures { ReturnsLeast result count (places_in (map log_data logs.now)) }
{
    if receipts_below(logs, count) == count {
        return None;
    }
    // no index below `told` is missing, and some index below `beyond` is missing
    let mut told = 0;
    let mut beyond = count;
    while told + 1 < beyond {
        let middle = told + (beyond - told) / 2;
        if receipts_below(logs, middle) == middle {
            told = middle;
        } else {
            beyond = middle;
        }
    }
    Some(told)
}

/// How many receipts of the logs have an index below `place`.
fn receipts_below<A: Allocator>(logs: &[JobLog<A>], place: u64) -> u64
    requires { AreApart (map log_data logs.now) }
    ensures { result ≡ below place (places_in (map log_data logs.now)) }
{
    let mut count = 0;
    for log in logs {
        count += log_below(log, place);
    }
    count
}

/// How many receipts of the log have an index below `place`, by binary search. The receipts' indices must ascend.
fn log_below<A: Allocator>(log: &JobLog<A>, place: u64) -> u64
    requires { Rise (places_of (log_data log.now)) }
    ensures { result ≡ below place (places_of (log_data log.now)) }
{
    let receipts = log.receipts.get();
    receipts.partition_point(|receipt| receipt.place < place) as u64
}
