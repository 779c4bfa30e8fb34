//! Lists of seats.

use crate::latest::longest;
use crate::seat::Seat;
use covdata::Memory;
use covnews::{Name, News};
use std::alloc::{Allocator, Global};
use std::marker::Model;
use std::sync::ledger::Share;

/// A list of seats. Contracts see the model of each seat, in order.
#[derive(Drop)]
pub struct Seats<L: Name, A: Allocator = Global> {
    seats: Vec<Seat<L, A>, A>,
}

impl<L: Name, A: Allocator> Model for Seats<L, A> {
    ghost use Rattle.std.specs.Prelude.{List};
    ghost use Rattle.covlock.specs.Seat.{SeatData};

    ghost Value = { List SeatData };

    ghost view = { λ a. a.seats.items };
}

impl<L: Name, A: Allocator> Seats<L, A> {
    ghost use Rattle.std.specs.Prelude.{◌≡◌, ◌+◌, ◌≤◌, ◌++◌, [], ◌∷◌, length, IsTrue, OnOk, OnErr, true, MatchOption, IfOk};
    ghost use Rattle.covbook.specs.Kept.{IsPrefix};
    ghost use Rattle.covlock.specs.Logs.{AreLogged};
    ghost use Rattle.covlock.specs.Seat.{first_seats};
    ghost use Rattle.covlock.specs.Handed.{is_seated, AllAreSeated, IsLeastMissing};

    /// The empty list. Never allocates.
    pub fn new(alloc: A) -> Seats<L, A>
        ensures { result ≡ [] }
    {
        Seats {
            seats: Vec::new(alloc),
        }
    }

    /// The list of these seats. Never allocates.
    pub fn of(seats: Vec<Seat<L, A>, A>) -> Seats<L, A>
        ensures { result ≡ seats.items }
    {
        Seats { seats }
    }

    /// Consumes the list, and returns its seats in order. Never allocates.
    pub fn into_vec(self) -> Vec<Seat<L, A>, A>
        ensures { result.items ≡ self }
    {
        self.seats
    }

    /// Appends a seat. On `Memory`, drops the seat and leaves the list unchanged.
    pub fn push(&mut self, seat: Seat<L, A>) -> Result<(), Memory>
        ensures ok { OnOk result (self.new ≡ self.old ++ seat ∷ []) }
        ensures err { OnErr result (self.new ≡ self.old) }
    {
        self.seats.push(seat)?;
        Ok(())
    }

    /// The seats in order.
    pub fn get(&self) -> &[Seat<L, A>]
        ensures { result.now ≡ self.now }
    {
        self.seats.as_slice()
    }

    /// Whether the list has a seat of this job.
    fn has(&self, job: u32) -> bool
        ensures { result ≡ is_seated self.now job }
    {
        self.get().iter().any(|seat| job == seat.job())
    }

    /// The least job below `jobs` without a seat in the list. Returns `None` if all these jobs have one.
    pub(crate) fn missing(&self, jobs: u32) -> Option<u32>
        ensures { MatchOption result (AllAreSeated jobs self.now) (λ job. IsLeastMissing jobs self.now job) }
    {
        for job in 0..jobs {
            if !self.has(job) {
                return Some(job);
            }
        }
        None
    }

    /// Consumes the seats and adds their shares to the share `to`. Returns the longest of `news` and the seats' latest news, so the
    /// seats' logs are logs of one history.
    pub(crate) fn give_shares(self, to: &mut Share<L>, news: News<L>) -> News<L>
        requires few { to.old.parts ≤ L.parts }
        ensures parts { to.new.parts ≡ to.old.parts + length self }
        ensures few { to.new.parts ≤ L.parts }
        ensures logs { AreLogged result self to.old.amount to.new.amount }
        ensures news { IsPrefix news result }
    {
        let mut all = news;
        for seat in self.seats {
            let (share, latest) = seat.into_parts();
            to.merge(share);
            all = longest(all, &latest);
        }
        all
    }
}

ghost use Rattle.std.specs.Prelude.{◌≡◌, IfOk};
ghost use Rattle.covlock.specs.Seat.{first_seats};

/// Makes a seat without calls for each job from 0 to `jobs - 1`. Each seat gets one part of the share `all`.
pub(crate) fn seats_for<L: Name, A: Allocator + Copy>(
    alloc: A,
    jobs: u32,
    all: &mut Share<L>,
) -> Result<Seats<L, A>, Memory>
    requires parts { all.old.parts ≡ jobs }
    requires none { all.old.amount ≡ 0 }
    ensures seats { IfOk result (λ s. s ≡ first_seats jobs) }
    ensures parts { IfOk result (λ _. all.new.parts ≡ 0) }
    ensures none { IfOk result (λ _. all.new.amount ≡ 0) }
{
    let mut seats = Seats::new(alloc);
    for job in 0..jobs {
        let seat = Seat::new(alloc, job, all.split_off(1, 0))?;
        seats.push(seat)?;
    }
    Ok(seats)
}
