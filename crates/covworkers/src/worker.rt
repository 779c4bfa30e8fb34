//! The worker of one job.

use crate::gate::Gate;
use crate::given::Given;
use crate::late::LateInput;
use crate::late_fault::LateFault;
use crate::part::Part;
use crate::readers::Readers;
use crate::refused::{Refused, RefusedInput};
use crate::shares::Placed;
use crate::stop::{Refusal, Stop};
use covbook::{BookFault, Entry, JobLog, Keep, Op, Readings, Receipt, Receipts};
use covdata::{Memory, ReadFault};
use covlock::{Done, Live, Name, News, Seat, Shared};
use covreport::Table;
use std::alloc::{Allocator, Global};
use std::marker::Model;
use std::snapshot::Snapshot;
use std::sync::Wait;

/// A job at work: its seat, receipts, readings of the totals, rejected inputs, and reader if it has one. `P` is the part of each
/// receipt that is stored. Contracts see whole receipts, and whether the job has a reader. The receipts are those of the seat.
#[derive(Drop)]
pub(crate) struct Worker<
    L: Name,
    A: Allocator = Global,
    P: Keep<Of = Receipt<A>> = Receipt<A>,
    F: Drop = ReadFault,
> {
    seat: Seat<L, A>,
    receipts: Vec<P, A>,
    readings: Readings<A>,
    refused: Refused<A, F>,
    live: Option<Live<L, A>>,
}

impl<L: Name, A: Allocator, P: Keep<Of = Receipt<A>>, F: Drop> Model for Worker<L, A, P, F> {
    ghost use Rattle.std.specs.Prelude.{is_some, map};
    ghost use Rattle.covbook.specs.EntryView.{receipt_data};
    ghost use Rattle.covworkers.specs.Work.{AreReceiptsOf, WorkerData};

    ghost Value = { WorkerData F };

    ghost view = { λ a. record { seat = a.seat; receipts = map (λ p. receipt_data (P.shows p)) a.receipts.items; has_reader = is_some a.live; readings = a.readings; refused = a.refused } };

    ghost invariant = { λ a. AreReceiptsOf a.seat (map (λ p. receipt_data (P.shows p)) a.receipts.items) };
}

impl<L: Name, A: Allocator + Copy, P: Keep<Of = Receipt<A>>, F: Drop> Worker<L, A, P, F> {
    ghost use Rattle.std.specs.Prelude.{◌≡◌, ◌<◌, ◌++◌, [], ◌∷◌, None, Some, IfOk, IfErr, IfSome, IsTrue, OnErr, is_some, length, map};
    ghost use Rattle.covbook.specs.Op.{SubmitOp};
    ghost use Rattle.covbook.specs.View.{op_data};
    ghost use Rattle.covworkers.specs.Collect.{ops_in, refusal, submitted, whole, HasRead};
    ghost use Rattle.covworkers.specs.Late.{chances_of};
    ghost use Rattle.covworkers.specs.Stops.{IsStopAt};
    ghost use Rattle.covworkers.specs.Work.{Asks, HasParts, IsReading, ReadsOn, Takes};
    ghost use Rattle.covlock.specs.Seat.{fresh_seat};

    /// A worker that has done nothing yet.
    fn new(alloc: A, seat: Seat<L, A>, live: Option<Live<L, A>>) -> Worker<L, A, P, F>
        requires { seat ≡ fresh_seat seat.job }
        ensures seat { result.seat ≡ seat }
        ensures receipts { result.receipts ≡ [] }
        ensures reader { result.has_reader ≡ is_some live }
        ensures readings { result.readings ≡ [] }
        ensures refused { result.refused ≡ [] }
    {
        Worker {
            seat,
            receipts: Vec::new(alloc),
            readings: Readings::new(alloc),
            refused: Refused::new(alloc),
            live,
        }
    }

    /// Reads the input part by part. `first` is the job's first failed call or list allocation before this input. As long as none
    /// has failed, submits each part before reading the next one, or notes that the input is rejected. Returns the job's first
    /// failure up to the end of this input, and how many submissions were read of the input (at most 2^64 - 1). The input is consumed
    /// before its last part is submitted.
    fn go_on<R: Wait, G: Gate, T: LateInput<A, Fault = F>, K: Keep<Of = Entry<A>>, S: Table<A>>(
        &mut self,
        rt: &R,
        alloc: A,
        book: &Shared<L, A, S, K>,
        gate: &G,
        placed: Placed<T>,
        first: Option<BookFault>,
    ) -> Result<(Option<BookFault>, u64), Stop>
        ensures job { self.new.seat.job ≡ self.old.seat.job }
        ensures outcome { IfOk result (λ r. HasParts (T.may_give placed.input) r.1) }
        ensures taken { IfOk result (λ r. r.0 ≡ None → (first ≡ None) × Takes (T.may_give placed.input) placed.index (ops_in self.old.receipts) (ops_in self.new.receipts) self.old.refused self.new.refused) }
        ensures kept { IfSome first (λ f. IfOk result (λ r. r.0 ≡ Some f)) }
        ensures idle { IfSome first (λ _. IfOk result (λ _. (self.new.receipts ≡ self.old.receipts) × (self.new.refused ≡ self.old.refused))) }
        ensures stop { IfErr result (IsStopAt placed.index (T.may_fail placed.input)) }
        ensures read { IfOk result (λ r. r.0 ≡ None → HasRead self.old.has_reader self.old.receipts self.old.readings → HasRead self.new.has_reader self.new.receipts self.new.readings) }
        ensures reader { self.new.has_reader ≡ self.old.has_reader }
    {
        let Placed { index, input } = placed;
        let mut fault = first;
        let mut left = Some(input);
        let mut parts: u64 = 0;
        while let Some(input) = left {
            let (rest, after, more) = self.take_part(rt, alloc, book, gate, index, input, fault)?;
            left = rest;
            fault = after;
            parts = parts.saturating_add(more);
        }
        Ok((fault, parts))
    }

    /// Reads the next part of the input. `first` is the job's first failed call or list allocation before this part. If `first` is
    /// `None`, submits the part, or notes that the input is rejected. Returns the rest of the input, the job's first failure up to the
    /// end of this part, and 1 if the part is a submission, else 0.
    fn take_part<R: Wait, G: Gate, T: LateInput<A, Fault = F>, K: Keep<Of = Entry<A>>, S: Table<A>>(
        &mut self,
        rt: &R,
        alloc: A,
        book: &Shared<L, A, S, K>,
        gate: &G,
        index: usize,
        input: T,
        first: Option<BookFault>,
    ) -> Result<(Option<T>, Option<BookFault>, u64), Stop>
        ensures job { self.new.seat.job ≡ self.old.seat.job }
        ensures reader { self.new.has_reader ≡ self.old.has_reader }
        ensures reading { IfOk result (λ r. IsReading (chances_of T.may_give T.may_fail) index input first self.old r.0 r.1 r.2 self.new) }
        ensures fewer { IfOk result (λ r. IfSome r.0 (λ rest. T.most rest < T.most input)) }
        ensures stop { IfErr result (IsStopAt index (T.may_fail input)) }
    {
        let (part, rest) = next_part(alloc, index, input, first)?;
        let parts = parts_in(&part);
        match first {
            Some(fault) => Ok((rest, Some(fault), parts)),
            None => Ok((
                rest,
                self.take(rt, alloc, book, gate, index, part).err(),
                parts,
            )),
        }
    }

    /// Submits a part of an input, or notes that the input is rejected.
    fn take<R: Wait, G: Gate, K: Keep<Of = Entry<A>>, S: Table<A>>(
        &mut self,
        rt: &R,
        alloc: A,
        book: &Shared<L, A, S, K>,
        gate: &G,
        index: usize,
        part: Result<Given<A>, F>,
    ) -> Result<(), BookFault>
        ensures job { self.new.seat.job ≡ self.old.seat.job }
        ensures submits { IfOk result (λ _. ops_in self.new.receipts ≡ ops_in self.old.receipts ++ map SubmitOp (submitted (whole part))) }
        ensures tells { IfOk result (λ _. self.new.refused ≡ self.old.refused ++ refusal index (whole part)) }
        ensures read { IfOk result (λ _. HasRead self.old.has_reader self.old.receipts self.old.readings → HasRead self.new.has_reader self.new.receipts self.new.readings) }
        ensures reader { self.new.has_reader ≡ self.old.has_reader }
    {
        match part {
            Ok(submission) => self.submit(rt, alloc, book, gate, submission),
            Err(fault) => Ok(self.refuse(RefusedInput { index, fault })?),
        }
    }

    /// Notes that an input is rejected.
    fn refuse(&mut self, input: RefusedInput<F>) -> Result<(), Memory>
        ensures seat { self.new.seat ≡ self.old.seat }
        ensures receipts { self.new.receipts ≡ self.old.receipts }
        ensures reader { self.new.has_reader ≡ self.old.has_reader }
        ensures readings { self.new.readings ≡ self.old.readings }
        ensures refused { IfOk result (λ _. self.new.refused ≡ self.old.refused ++ input ∷ []) }
    {
        self.refused.push(input)?;
        Ok(())
    }

    /// Submits `submission` between the two calls of `gate`, and stores the receipt. Then stores a reading if the job has a reader.
    fn submit<R: Wait, G: Gate, K: Keep<Of = Entry<A>>, S: Table<A>>(
        &mut self,
        rt: &R,
        alloc: A,
        book: &Shared<L, A, S, K>,
        gate: &G,
        submission: Given<A>,
    ) -> Result<(), BookFault>
        ensures job { self.new.seat.job ≡ self.old.seat.job }
        ensures asked { IfOk result (λ _. ops_in self.new.receipts ≡ ops_in self.old.receipts ++ SubmitOp submission ∷ []) }
        ensures read { IfOk result (λ _. HasRead self.old.has_reader self.old.receipts self.old.readings → HasRead self.new.has_reader self.new.receipts self.new.readings) }
        ensures reader { self.new.has_reader ≡ self.old.has_reader }
        ensures refused { self.new.refused ≡ self.old.refused }
    {
        let (job, call) = (self.seat.job(), self.seat.calls());
        gate.before(rt, job, call);
        let kept = self.ask(rt, alloc, book, &submission.into_op());
        gate.after(rt, job, call);
        self.read(&kept?)?;
        Ok(())
    }

    /// Performs the operation and stores the receipt. Returns news of the history up to and including the receipt's entry, which
    /// the job has now seen. Reserves memory for the receipt first, so the receipt of each successful call is stored.
    pub(crate) fn ask<R: Wait, K: Keep<Of = Entry<A>>, S: Table<A>>(
        &mut self,
        rt: &R,
        alloc: A,
        book: &Shared<L, A, S, K>,
        op: &Op<A>,
    ) -> Result<News<L>, BookFault>
        ensures job { self.new.seat.job ≡ self.old.seat.job }
        ensures asked { IfOk result (λ _. Asks self.old.receipts self.new.receipts self.new.seat.seen (op_data op.now)) }
        ensures news { IfOk result (λ news. length news ≡ self.new.seat.seen) }
        ensures reader { self.new.has_reader ≡ self.old.has_reader }
        ensures readings { self.new.readings ≡ self.old.readings }
        ensures refused { self.new.refused ≡ self.old.refused }
    {
        self.receipts.reserve(1).map_err(|_| BookFault::Memory)?;
        let Done { receipt, news } = book.perform(rt, alloc, &mut self.seat, op)?;
        self.receipts.push_reserved(P::keep(receipt));
        Ok(news)
    }

    /// Stores one reading if the job has a reader. The reading covers at least as many entries as the news. Never fails for a job
    /// without a reader.
    fn read(&mut self, news: &News<L>) -> Result<(), Memory>
        ensures read { IfOk result (λ _. ReadsOn self.old.has_reader news.now self.old.readings self.new.readings) }
        ensures cause { OnErr result (IsTrue self.old.has_reader) }
        ensures reader { self.new.has_reader ≡ self.old.has_reader }
        ensures seat { self.new.seat ≡ self.old.seat }
        ensures receipts { self.new.receipts ≡ self.old.receipts }
        ensures refused { self.new.refused ≡ self.old.refused }
    {
        if let Some(live) = &mut self.live {
            read_once(live, news, &mut self.readings)?;
        }
        Ok(())
    }
}

ghost use Rattle.std.specs.Prelude.{◌≡◌, ◌<◌, IfOk, OnOk};
ghost use Rattle.covworkers.specs.Work.{ReadsOnce};

/// Appends one reading of `live`, which learns the news first.
fn read_once<L: Name, A: Allocator>(
    live: &mut Live<L, A>,
    news: &News<L>,
    readings: &mut Readings<A>,
) -> Result<(), Memory>
    ensures { OnOk result (ReadsOnce news.now readings.old readings.new) }
{
    live.learn(news);
    readings.push(live.totals())
}

impl<L: Name, A: Allocator, P: Keep<Of = Receipt<A>>, F: Drop> Worker<L, A, P, F> {
    ghost use Rattle.std.specs.Prelude.{◌≡◌, length};
    ghost use Rattle.covworkers.specs.Work.{HasReceipts};

    /// How many submissions the job has made: one for each receipt.
    pub(crate) fn submissions(&self) -> u64
        ensures { result ≡ length self.now.receipts }
    {
        self.receipts.len() as u64
    }

    /// How many entries of the history the job has seen: all up to and including the entry of its last successful call.
    pub(crate) fn seen(&self) -> u64
        ensures { result ≡ self.now.seat.seen }
    {
        self.seat.seen()
    }

    /// Consumes the worker, and returns the job's seat and its rejected inputs.
    pub(crate) fn into_seat(self) -> (Seat<L, A>, Refused<A, F>)
        ensures seat { result.0 ≡ self.seat }
        ensures refused { result.1 ≡ self.refused }
        ensures receipts { HasReceipts self }
    {
        let Worker {
            seat,
            receipts: _,
            readings: _,
            refused,
            live: _,
        } = self;
        (seat, refused)
    }
}

impl<L: Name, A: Allocator> Worker<L, A> {
    ghost use Rattle.std.specs.Prelude.{◌≡◌};

    /// Consumes the worker, and returns the job's seat, its log, and its rejected inputs.
    pub(crate) fn into_parts(self) -> (Seat<L, A>, JobLog<A>, Refused<A>)
        ensures seat { result.0 ≡ self.seat }
        ensures job { result.1.job ≡ self.seat.job }
        ensures receipts { result.1.receipts ≡ self.receipts }
        ensures readings { result.1.readings ≡ self.readings }
        ensures refused { result.2 ≡ self.refused }
    {
        let Worker {
            seat,
            receipts,
            readings,
            refused,
            live: _,
        } = self;
        let job = seat.job();
        let log = JobLog {
            job,
            receipts: Receipts::of(receipts),
            readings,
        };
        (seat, log, refused)
    }
}

ghost use Rattle.std.specs.Prelude.{is_some};
ghost use Rattle.covworkers.specs.Late.{chances_of};
ghost use Rattle.covworkers.specs.Shares.{share_of};
ghost use Rattle.covworkers.specs.Work.{HasEnded, IsPartOf, MayHaveReader, work_of};
ghost use Rattle.covlock.specs.Seat.{fresh_seat};

/// Does the work of one of `jobs` jobs: processes the job's share of the inputs, in order. After a failed call or list allocation,
/// only reads the remaining inputs. Stops at an input that can't be read, or at one during which memory runs out. The job has no
/// readings if the book has no place for its reader.
pub(crate) fn work<
    R: Wait,
    G: Gate,
    L: Name,
    A: Allocator + Copy,
    T: LateInput<A>,
    K: Keep<Of = Entry<A>>,
    P: Keep<Of = Receipt<A>>,
    S: Table<A>,
>(
    rt: &R,
    alloc: A,
    book: &Shared<L, A, S, K>,
    gate: &G,
    seat: Seat<L, A>,
    jobs: u32,
    readers: Readers,
    inputs: &Snapshot<Vec<T>>,
    share: Vec<Placed<T>>,
) -> Result<Worker<L, A, P, T::Fault>, Stop>
    requires share { share.items ≡ share_of inputs.now.value.items jobs seat.job }
    requires fresh { seat ≡ fresh_seat seat.job }
    ensures { HasEnded (chances_of T.may_give T.may_fail) (work_of inputs.now.value.items jobs readers seat) result }
{
    let live = reader_of(rt, book, readers);
    let mut worker = Worker::new(alloc, seat, live);
    let mut first: Option<BookFault> = None;
    // How many submissions were read. As long as nothing failed, each one has a receipt.
    let mut parts: u64 = 0;
    for placed in share {
        let (fault, more) = worker.go_on(rt, alloc, book, gate, placed, first)?;
        first = fault;
        parts = counted(first, worker.submissions(), parts, more);
    }
    match first {
        None => Ok(worker),
        Some(fault) => Err(Stop::Refused(Refusal {
            fault,
            upto: usize::MAX,
            parts,
        })),
    }
}

ghost use Rattle.covworkers.specs.Stops.{counted_of};

/// How many submissions a job has read after one more input, of which it read `more`: those that it `submitted`, if nothing failed
/// (`first`). Otherwise `more` than `before`, or 2^64 - 1 if that is less.
fn counted(first: Option<BookFault>, submitted: u64, before: u64, more: u64) -> u64
    ensures { result ≡ counted_of first submitted before more }
{
    match first {
        None => submitted,
        Some(_) => before.saturating_add(more),
    }
}

ghost use Rattle.covworkers.specs.Work.{one_if_read};

/// Returns 1 if the part is a submission, and 0 if it is an error.
fn parts_in<A: Allocator, F: Drop>(part: &Result<Given<A>, F>) -> u64
    ensures { result ≡ one_if_read part.now }
{
    match part {
        Ok(_) => 1,
        Err(_) => 0,
    }
}

ghost use Rattle.std.specs.Prelude.{IfErr, IfSome};
ghost use Rattle.covworkers.specs.Stops.{IsStopAt, of_late};

/// Reads the next part of the input. Returns the part, or why the input is rejected, and the rest of the input. Fails with the
/// job's stop if the input can't be read, or if memory runs out. `first` is the job's first failed call or list allocation before
/// this part.
fn next_part<A: Allocator, T: LateInput<A>>(
    alloc: A,
    index: usize,
    input: T,
    first: Option<BookFault>,
) -> Result<(Result<Given<A>, T::Fault>, Option<T>), Stop>
    ensures part { IfOk result (λ r. IsPartOf T.may_give input r.0 r.1) }
    ensures fails { IfOk result (λ r. IfSome r.1 (λ rest. T.may_fail rest → T.may_fail input)) }
    ensures fewer { IfOk result (λ r. IfSome r.1 (λ rest. T.most rest < T.most input)) }
    ensures stop { IfErr result (IsStopAt index (T.may_fail input)) }
{
    match input.read_part(alloc) {
        Ok(Part::Last(submission)) => Ok((Ok(submission), None)),
        Ok(Part::More(submission, rest)) => Ok((Ok(submission), Some(rest))),
        Err(fault) => Ok((Err(refused_text(index, first, fault)?), None)),
    }
}

/// Returns why the input is rejected. Fails with the job's stop if the input can't be read, or if memory ran out. A stop for memory
/// has the earlier error `first`, if any.
fn refused_text<F: Drop>(
    index: usize,
    first: Option<BookFault>,
    fault: LateFault<F>,
) -> Result<F, Stop>
    ensures { result ≡ of_late index first fault }
{
    match fault {
        LateFault::Refused(fault) => Ok(fault),
        LateFault::Unreadable => Err(Stop::Unread(index)),
        LateFault::Memory => Err(Stop::Refused(Refusal {
            fault: first.unwrap_or(BookFault::Memory),
            upto: index,
            parts: 0,
        })),
    }
}

/// Makes a reader of the book, if `readers` asks for one per job and the book has a place for it.
fn reader_of<R: Wait, L: Name, A: Allocator, K: Keep<Of = Entry<A>>, S: Table<A>>(
    rt: &R,
    book: &Shared<L, A, S, K>,
    readers: Readers,
) -> Option<Live<L, A>>
    ensures { MayHaveReader readers (is_some result) }
{
    match readers {
        Readers::None => None,
        // The only error is that no place is left: a reader never allocates.
        Readers::ForEachJob => book.reader(rt).ok(),
    }
}
