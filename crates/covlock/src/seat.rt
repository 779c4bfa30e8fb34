//! The handle of a job at a shared book.

use crate::latest::later;
use covbook::{MAX_ENTRIES, Receipt};
use covdata::Memory;
use covnews::{Name, News};
use std::alloc::{Allocator, Global};
use std::marker::Model;
use std::snapshot::Snapshot;
use std::sync::ledger::{Book, Share};

/// What each call adds to its seat's share of the count (2^41), beside the place of its entry. It is more than the places of all
/// entries together.
const CALL_WEIGHT: u64 = 2_199_023_255_552;

/// The seat (handle) of one job at a shared book. Contracts see the job, the number and the receipts of its successful calls, and how
/// many entries of the history the job has seen: all up to the entry of its last successful call. The share counts the calls and
/// their places.
#[derive(Drop)]
pub struct Seat<L: Name, A: Allocator = Global> {
    job: u32,
    calls: u64,
    seen: u64,
    /// The receipts, which have no bytes. There is room for one per entry of a full history, so that storing one can't fail.
    receipts: Vec<Snapshot<Receipt<A>>, A>,
    latest: Option<News<L>>,
    share: Share<L>,
}

impl<L: Name, A: Allocator> Model for Seat<L, A> {
    ghost use Rattle.std.specs.Prelude.{◌≡◌, ◌≤◌, map, vec_capacity};
    ghost use Rattle.covbook.specs.EntryView.{receipt_data};
    ghost use Rattle.covbook.specs.Step.{max_entries};
    ghost use Rattle.covlock.specs.Latest.{history_of};
    ghost use Rattle.covlock.specs.Logs.{IsLogged};
    ghost use Rattle.covlock.specs.Seat.{SeatData};

    ghost Value = { SeatData };

    ghost view = { λ a. record { job = a.job; calls = a.calls; seen = a.seen; receipts = map (λ r. receipt_data r.value) a.receipts.items } };

    ghost invariant = { λ a. (a.share.parts ≡ 1) × (max_entries ≤ vec_capacity a.receipts) × IsLogged (record { job = a.job; calls = a.calls; seen = a.seen; receipts = map (λ r. receipt_data r.value) a.receipts.items }) (history_of a.latest) a.share.amount };
}

impl<L: Name, A: Allocator> Seat<L, A> {
    ghost use Rattle.std.specs.Prelude.{◌≡◌, ◌+◌, ◌<◌, ◌≤◌, IfOk};
    ghost use Rattle.covbook.specs.EntryView.{receipt_data};
    ghost use Rattle.covbook.specs.Step.{max_entries};
    ghost use Rattle.covbook.specs.View.{op_data};
    ghost use Rattle.covlock.specs.Call.{IsNewsOf};
    ghost use Rattle.covlock.specs.Latest.{history_of};
    ghost use Rattle.covlock.specs.Logs.{IsLogged};
    ghost use Rattle.covlock.specs.Seat.{fresh_seat, after_call};
    ghost use Rattle.covlock.specs.Weight.{weight_at};

    /// Makes the seat of a job without calls. `share` must be one part of the count of calls, with the amount 0.
    pub(crate) fn new(alloc: A, job: u32, share: Share<L>) -> Result<Seat<L, A>, Memory>
        requires part { share.parts ≡ 1 }
        requires none { share.amount ≡ 0 }
        ensures { IfOk result (λ seat. seat ≡ fresh_seat job) }
    {
        let receipts = Vec::with_capacity(alloc, MAX_ENTRIES as usize)?;
        Ok(Seat {
            job,
            calls: 0,
            seen: 0,
            receipts,
            latest: None,
            share,
        })
    }

    /// The number of the job. Like `calls` and `seen`, never allocates.
    pub fn job(&self) -> u32
        ensures { result ≡ self.now.job }
    {
        self.job
    }

    /// The number of the job's successful calls.
    pub fn calls(&self) -> u64
        ensures { result ≡ self.now.calls }
    {
        self.calls
    }

    /// How many entries the job has seen: all up to the entry of its last successful call, or 0 before the first call.
    pub fn seen(&self) -> u64
        ensures { result ≡ self.now.seen }
    {
        self.seen
    }

    /// Counts a call, with its receipt and news, in the seat and in the book's count.
    pub(crate) fn count_call(&mut self, count: &mut Book<L>, receipt: &Receipt<A>, news: &News<L>)
        requires few { receipt.now.place < max_entries }
        requires seen { self.old.seen ≤ receipt.now.place }
        requires news { IsNewsOf self.old.job (op_data receipt.now.op) (receipt_data receipt.now) news.now }
        ensures seat { self.new ≡ after_call self.old (receipt_data receipt.now) }
        ensures total { count.new.total ≡ count.old.total + weight_at receipt.now.place }
    {
        count.add(&mut self.share, CALL_WEIGHT + receipt.place);
        self.receipts.push_reserved(Snapshot::of(receipt));
        self.latest = Some(later(&self.latest, news));
        self.calls += 1;
        self.seen = receipt.place + 1;
    }

    /// Consumes the seat, and returns its share of the count and its latest news.
    pub(crate) fn into_parts(self) -> (Share<L>, Option<News<L>>)
        ensures part { result.0.parts ≡ 1 }
        ensures log { IsLogged self (history_of result.1) result.0.amount }
    {
        let Seat {
            job: _,
            calls: _,
            seen: _,
            receipts: _,
            latest,
            share,
        } = self;
        (share, latest)
    }
}
