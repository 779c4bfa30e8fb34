//! The state behind the lock of a shared book, and the steps under the lock.

use crate::seat::Seat;
use crate::seat_list::Seats;
use covbook::{Book, BookFault, Entry, Keep, Op, Receipt};
use covnews::{Live, Name, News, Publisher, ReaderFault};
use covreport::Table;
use std::alloc::Allocator;
use std::marker::Model;
use std::sync::Wait;
use std::sync::ledger::{Book as Count, Share};

/// The state behind the lock of a shared book: the book, the count of its calls, and the publisher of its history. The seats have
/// the shares of the count. Contracts see the history.
#[derive(Drop)]
pub(crate) struct SharedState<L: Name, A: Allocator, T: Table<A>, K: Keep<Of = Entry<A>>> {
    book: Book<A, T, K>,
    count: Count<L>,
    /// An empty share of the count, to which `close` adds the shares of the seats.
    rest: Share<L>,
    publisher: Publisher<L, A>,
}

impl<L: Name, A: Allocator, T: Table<A>, K: Keep<Of = Entry<A>>> Model for SharedState<L, A, T, K> {
    ghost use Rattle.std.specs.Prelude.{List};
    ghost use Rattle.covbook.specs.Op.{EntryData};
    ghost use Rattle.covlock.specs.SharedState.{IsAtRest};

    ghost Value = { List EntryData };

    ghost view = { λ a. a.book.entries };

    ghost invariant = { λ a. IsAtRest a.book.entries a.publisher.noted a.publisher.published a.count.total a.rest.parts a.rest.amount };
}

impl<L: Name, A: Allocator + Copy, T: Table<A>, K: Keep<Of = Entry<A>>> SharedState<L, A, T, K> {
    ghost use Rattle.std.specs.Prelude.{◌≡◌, ◌↔◌, ◌⊎◌, ◌<◌, ◌≤◌, ◌++◌, [], ◌∷◌, length, IfOk, IfErr, OnOk, OnErr, Err, MatchResult};
    ghost use Rattle.covbook.specs.declared.book.BookFault.TheVariants as faults;
    ghost use Rattle.covbook.specs.View.{op_data};
    ghost use Rattle.covbook.specs.EntryView.{receipt_data};
    ghost use Rattle.covbook.specs.Step.{next_entry, max_entries};
    ghost use Rattle.covlock.specs.Call.{IsReceiptAfter, IsNewsOf};
    ghost use Rattle.covlock.specs.Seat.{after_call};

    /// Makes the state of an empty book. `count` and `rest` must count no calls, and the noted and published history must be empty.
    pub(crate) fn new(
        book: Book<A, T, K>,
        count: Count<L>,
        rest: Share<L>,
        publisher: Publisher<L, A>,
    ) -> SharedState<L, A, T, K>
        requires book { book.entries ≡ [] }
        requires count { count.total ≡ 0 }
        requires parts { rest.parts ≡ 0 }
        requires amount { rest.amount ≡ 0 }
        requires noted { publisher.noted ≡ [] }
        requires published { publisher.published ≡ [] }
        ensures { result ≡ [] }
    {
        SharedState {
            book,
            count,
            rest,
            publisher,
        }
    }

    /// Performs one step of the book for the seat's job, and publishes the history with the step's entry. First does everything
    /// that can fail, so a failure changes neither the history, nor what is published, nor the seat. Waits for readers that still
    /// read what was published two steps ago.
    pub(crate) fn step<R: Wait>(
        &mut self,
        rt: &R,
        alloc: A,
        seat: &mut Seat<L, A>,
        op: &Op<A>,
    ) -> Result<(Receipt<A>, News<L>), BookFault>
        ensures told { IfOk result (λ r. IsReceiptAfter self.old (op_data op.now) (receipt_data r.0)) }
        ensures entry { OnOk result (self.new ≡ self.old ++ next_entry self.old seat.old.job (op_data op.now) ∷ []) }
        ensures news { IfOk result (λ r. IsNewsOf seat.old.job (op_data op.now) (receipt_data r.0) r.1) }
        ensures published { IfOk result (λ r. r.1 ≡ self.new) }
        ensures seat { MatchResult result (λ r. seat.new ≡ after_call seat.old (receipt_data r.0)) (λ _. seat.new ≡ seat.old) }
        ensures seen { IfOk result (λ r. seat.old.seen ≤ r.0.place) }
        ensures refused { OnErr result (self.new ≡ self.old) }
        ensures full { (result ≡ Err faults.Full) ↔ ((length self.old ≡ max_entries) ⊎ (length self.old < seat.old.seen)) }
        ensures most { IfErr result (λ f. max_entries ≤ seat.old.seen → f ≡ faults.Full) }
    {
        if self.book.len() < seat.seen() {
            return Err(BookFault::Full);
        }
        let ready = self.book.ready(alloc, seat.job(), op)?;
        // `None` never happens, since no other publisher has this history; no contract says so. The error is `Memory` and not
        // `Full`, since `Full` has a cause that callers can see. Nothing has changed yet.
        let Some(_noted) = self.publisher.note(ready.entry()) else {
            return Err(BookFault::Memory);
        };
        let receipt = self.book.finish(ready);
        let news = self.publisher.publish(rt);
        seat.count_call(&mut self.count, &receipt, &news);
        Ok((receipt, news))
    }
}

impl<L: Name, A: Allocator, T: Table<A>, K: Keep<Of = Entry<A>>> SharedState<L, A, T, K> {
    ghost use Rattle.std.specs.Prelude.{◌≡◌, ◌≤◌, length, IfOk, IfErr};
    ghost use Rattle.std.specs.List.{AllByRecursion};
    ghost use Rattle.covbook.specs.Gather.{IsGathered};
    ghost use Rattle.covbook.specs.Op.{AreLawfulOps};
    ghost use Rattle.covbook.specs.Step.{IsLegal, ops_in};
    ghost use Rattle.covlock.specs.Handed.{AllAreSeated};
    ghost use Rattle.covlock.specs.Seat.{calls_in, logs_of};
    ghost use Rattle.covnews.specs.declared.fault.ReaderFault.TheVariants as reader_faults;

    /// Makes one more reader. It begins with the whole history, all of which is published.
    pub(crate) fn reader(&mut self) -> Result<Live<L, A>, ReaderFault>
        ensures live { IfOk result (λ live. live ≡ self.old) }
        ensures fault { IfErr result (λ fault. fault ≡ reader_faults.NoPlace) }
        ensures legal { IsLegal self.old }
        ensures same { self.new ≡ self.old }
    {
        self.publisher.reader()
    }

    /// Takes all seats back, and returns the book and news of its history. Waits for readers that are inside a read.
    pub(crate) fn close<R: Wait>(self, rt: &R, seats: Seats<L, A>) -> (Book<A, T, K>, News<L>)
        requires { AllAreSeated L.parts seats }
        ensures history { result.0.entries ≡ self }
        ensures news { result.1 ≡ self }
        ensures legal { IsLegal self }
        ensures lawful { AreLawfulOps (ops_in self) }
        ensures gathered { IsGathered self (logs_of seats) }
        ensures calls { length self ≡ calls_in seats }
        ensures seen { AllByRecursion (λ s. s.seen ≤ length self) seats }
    {
        let SharedState {
            book,
            mut count,
            mut rest,
            publisher,
        } = self;
        let news = publisher.close(rt);
        seats.give_shares(&mut rest, news.copy());
        count.audit(&mut rest);
        (book, news)
    }
}
