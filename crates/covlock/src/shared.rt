//! A book that threads share.

use crate::seat::Seat;
use crate::seat_list::{Seats, seats_for};
use crate::shared_state::SharedState;
use crate::start::Start;
use covbook::{Book, BookFault, Entries, Entry, Keep, Op, Receipt};
use covdata::Memory;
use covnews::{Live, Name, News, Publisher, ReaderFault};
use covreport::Table;
use std::alloc::{Allocator, Global};
use std::marker::Model;
use std::sync::{Mutex, Wait};
use thiserror::Error;

/// The greatest number of readers of one book.
pub const MAX_READERS: u32 = 64;

/// A book with a lock. Threads share this value by reference. `T` is the book's store, and `K` is the part of each entry that the
/// book stores. Contracts see the number of jobs. A book that is dropped without being closed leaks the memory that it shares with its readers (some 17 KB).
#[derive(Drop)]
pub struct Shared<L: Name, A: Allocator, T: Table<A>, K: Keep<Of = Entry<A>> = Entry<A>> {
    jobs: u32,
    shared_state: Mutex<SharedState<L, A, T, K>>,
}

impl<L: Name, A: Allocator, T: Table<A>, K: Keep<Of = Entry<A>>> Model for Shared<L, A, T, K> {
    ghost use Rattle.std.specs.Prelude.{◌≡◌};
    ghost use Rattle.covlock.specs.Shared.{SharedData};

    ghost Value = { SharedData };

    ghost view = { λ a. record { jobs = a.jobs } };

    ghost invariant = { λ a. a.jobs ≡ L.parts };
}

/// The result of a successful call: the call's receipt, and news of the history up to the call's entry.
#[derive(Drop)]
pub struct Done<L: Name, A: Allocator = Global> {
    pub receipt: Receipt<A>,
    pub news: News<L>,
}

/// Why a book couldn't be closed.
#[derive(Clone, Copy, Debug, PartialEq, Eq, Error)]
pub enum CloseFault {
    /// Fault 1: `job` is the lowest job whose seat is missing.
    #[error("Missing {job}")]
    Missing { job: u32 },
}

impl CloseFault {
    ghost use Rattle.std.specs.Prelude.{◌≡◌};
    ghost use Rattle.covlock.specs.CloseFault.{close_number};

    /// The number of the error, from 1.
    pub fn number(self) -> u32
        ensures { result ≡ close_number self }
    {
        match self {
            CloseFault::Missing { job: _ } => 1,
        }
    }
}

ghost use Rattle.std.specs.Prelude.{◌≡◌, IfOk};
ghost use Rattle.covlock.specs.Seat.{first_seats};

/// Opens an empty book, with a seat for each job from 0 on. On `Memory`, drops the start.
pub fn open_book<L: Name, A: Allocator + Copy, T: Table<A>>(
    alloc: A,
    start: Start<A>,
) -> Result<(Shared<L, A, T>, Seats<L, A>), Memory>
    requires name { start.name ≡ L.name }
    requires jobs { start.jobs ≡ L.parts }
    requires book { start.book ≡ L.book }
    ensures jobs { IfOk result (λ r. r.0.jobs ≡ start.jobs) }
    ensures seats { IfOk result (λ r. r.1 ≡ first_seats start.jobs) }
{
    open_book_keeping(alloc, start)
}

/// Like `open_book`, but the book stores only the `K` part of each entry. Contracts see whole entries in any case.
pub fn open_book_keeping<L: Name, A: Allocator + Copy, T: Table<A>, K: Keep<Of = Entry<A>>>(
    alloc: A,
    start: Start<A>,
) -> Result<(Shared<L, A, T, K>, Seats<L, A>), Memory>
    requires name { start.name ≡ L.name }
    requires jobs { start.jobs ≡ L.parts }
    requires book { start.book ≡ L.book }
    ensures jobs { IfOk result (λ r. r.0.jobs ≡ start.jobs) }
    ensures seats { IfOk result (λ r. r.1 ≡ first_seats start.jobs) }
{
    let (jobs, count, seed) = start.into_parts();
    let (count, mut all) = count.open::<L>();
    let seats = seats_for(alloc, jobs, &mut all)?;
    let publisher = Publisher::new(alloc, seed, MAX_READERS)?;
    let shared_state = Mutex::new(SharedState::new(Book::keeping(alloc), count, all, publisher));
    Ok((Shared { jobs, shared_state }, seats))
}

impl<L: Name, A: Allocator + Copy, T: Table<A>, K: Keep<Of = Entry<A>>> Shared<L, A, T, K> {
    ghost use Rattle.std.specs.Prelude.{◌≡◌, ◌≤◌, IfOk, IfErr, MatchResult};
    ghost use Rattle.covbook.specs.declared.book.BookFault.TheVariants as faults;
    ghost use Rattle.covbook.specs.View.{op_data};
    ghost use Rattle.covbook.specs.EntryView.{receipt_data};
    ghost use Rattle.covbook.specs.Step.{max_entries};
    ghost use Rattle.covlock.specs.Call.{IsReceiptFor, IsNewsOf};
    ghost use Rattle.covlock.specs.Seat.{after_call};

    /// Performs one step of the book for the seat's job. The answer follows from the table after the earlier steps, which form a
    /// legal history. The news are of the history up to this step's entry, and readers see this history from then on. Waits for the
    /// lock, which this call holds only for the step, and for readers that still read what was shown two steps ago. Returns `Full`
    /// if the history is full, or if the seat has seen more entries than the history has, which never happens with a seat of this
    /// book. After a call that filled the history, `Full` is the only error for its seat. A failed call changes neither the book, nor
    /// the seat, nor what readers see.
    pub fn perform<R: Wait>(
        &self,
        rt: &R,
        alloc: A,
        seat: &mut Seat<L, A>,
        op: &Op<A>,
    ) -> Result<Done<L, A>, BookFault>
        ensures asked { IfOk result (λ d. op_data d.receipt.op ≡ op_data op.now) }
        ensures told { IfOk result (λ d. IsReceiptFor (op_data op.now) (receipt_data d.receipt)) }
        ensures news { IfOk result (λ d. IsNewsOf seat.old.job (op_data op.now) (receipt_data d.receipt) d.news) }
        ensures seen { IfOk result (λ d. seat.old.seen ≤ d.receipt.place) }
        ensures seat { MatchResult result (λ d. seat.new ≡ after_call seat.old (receipt_data d.receipt)) (λ _. seat.new ≡ seat.old) }
        ensures full { IfErr result (λ f. max_entries ≤ seat.old.seen → f ≡ faults.Full) }
    {
        let (receipt, news) = self.shared_state.lock(rt).step(rt, alloc, seat, op)?;
        Ok(Done { receipt, news })
    }
}

impl<L: Name, A: Allocator, T: Table<A>, K: Keep<Of = Entry<A>>> Shared<L, A, T, K> {
    ghost use Rattle.std.specs.Prelude.{◌≡◌, ◌≤◌, length, IfOk, IfErr, MatchResult};
    ghost use Rattle.std.specs.List.{AllByRecursion};
    ghost use Rattle.covbook.specs.Gather.{IsGathered};
    ghost use Rattle.covbook.specs.Op.{AreLawfulOps};
    ghost use Rattle.covbook.specs.Step.{IsLegal, ops_in};
    ghost use Rattle.covlock.specs.Seat.{calls_in, logs_of};
    ghost use Rattle.covnews.specs.declared.fault.ReaderFault.TheVariants as reader_faults;
    ghost use Rattle.covlock.specs.Handed.{AllAreSeated, IsLeastMissing};
    ghost use Rattle.covlock.specs.CloseFault.{told_job};

    /// Makes a reader of the totals. The reader itself never waits, but this call waits for the lock. Returns `NoPlace` if 64
    /// readers were made, including dropped ones, or earlier if no free place is found. Never allocates, so it doesn't return
    /// `Memory`.
    pub fn reader<R: Wait>(&self, rt: &R) -> Result<Live<L, A>, ReaderFault>
        ensures legal { IfOk result (λ live. IsLegal live) }
        ensures fault { IfErr result (λ fault. fault ≡ reader_faults.NoPlace) }
    {
        self.shared_state.lock(rt).reader()
    }

    /// Like `close`, but returns the book itself, with its table of counts. Contracts see the whole history, whatever part is
    /// stored.
    pub fn close_book<R: Wait>(
        self,
        rt: &R,
        seats: Seats<L, A>,
    ) -> Result<(Book<A, T, K>, News<L>), (Shared<L, A, T, K>, Seats<L, A>, CloseFault)>
        ensures seated { MatchResult result (λ _. AllAreSeated self.jobs seats) (λ back. IsLeastMissing self.jobs seats (told_job back.2)) }
        ensures history { IfOk result (λ closed. IsLegal closed.0.entries) }
        ensures lawful { IfOk result (λ closed. AreLawfulOps (ops_in closed.0.entries)) }
        ensures gathered { IfOk result (λ closed. IsGathered closed.0.entries (logs_of seats)) }
        ensures calls { IfOk result (λ closed. length closed.0.entries ≡ calls_in seats) }
        ensures seen { IfOk result (λ closed. AllByRecursion (λ s. s.seen ≤ length closed.0.entries) seats) }
        ensures news { IfOk result (λ closed. closed.1 ≡ closed.0.entries) }
        ensures back { MatchResult result (λ _. Unit {0}) (λ back. (back.0 ≡ self) × (back.1 ≡ seats)) }
    {
        if let Some(job) = seats.missing(self.jobs) {
            return Err((self, seats, CloseFault::Missing { job }));
        }
        Ok(self.shared_state.into_inner().close(rt, seats))
    }
}

impl<L: Name, A: Allocator, T: Table<A>> Shared<L, A, T> {
    ghost use Rattle.std.specs.Prelude.{◌≡◌, ◌≤◌, length, IfOk, MatchResult};
    ghost use Rattle.std.specs.List.{AllByRecursion};
    ghost use Rattle.covbook.specs.Gather.{IsGathered};
    ghost use Rattle.covbook.specs.Op.{AreLawfulOps};
    ghost use Rattle.covbook.specs.Step.{IsLegal, ops_in};
    ghost use Rattle.covlock.specs.Seat.{calls_in, logs_of};
    ghost use Rattle.covlock.specs.Handed.{AllAreSeated, IsLeastMissing};
    ghost use Rattle.covlock.specs.CloseFault.{told_job};

    /// Closes the book if `seats` has the seat of each job. Returns the book's history, whose submissions are lawful, and news of
    /// this history. The history has the entry of each successful call exactly once, in the order of each seat's calls. If a seat is missing, returns the book, the seats, and the lowest job without a seat. Never allocates. May
    /// wait for readers that are inside a read. After the close, each reader reports the longest history that it saw or learned.
    pub fn close<R: Wait>(
        self,
        rt: &R,
        seats: Seats<L, A>,
    ) -> Result<(Entries<A>, News<L>), (Shared<L, A, T>, Seats<L, A>, CloseFault)>
        ensures seated { MatchResult result (λ _. AllAreSeated self.jobs seats) (λ back. IsLeastMissing self.jobs seats (told_job back.2)) }
        ensures history { IfOk result (λ closed. IsLegal closed.0) }
        ensures lawful { IfOk result (λ closed. AreLawfulOps (ops_in closed.0)) }
        ensures gathered { IfOk result (λ closed. IsGathered closed.0 (logs_of seats)) }
        ensures calls { IfOk result (λ closed. length closed.0 ≡ calls_in seats) }
        ensures seen { IfOk result (λ closed. AllByRecursion (λ s. s.seen ≤ length closed.0) seats) }
        ensures news { IfOk result (λ closed. closed.1 ≡ closed.0) }
        ensures back { MatchResult result (λ _. Unit {0}) (λ back. (back.0 ≡ self) × (back.1 ≡ seats)) }
    {
        match self.close_book(rt, seats) {
            Ok((book, news)) => Ok((book.into_entries(), news)),
            Err(back) => Err(back),
        }
    }
}
