//! Wraps calls in functions without `ensures` clauses: tests look only at values, and are proved faster without such clauses.

use covbook::{BookFault, Entries, Entry, GatherFault, JobLog, Op, Reading, gather};
use covjobs::{
    CloseFault, Done, Live, Name, News, OpenFault, ReaderFault, Seat, Seats, Shared, Start,
};
use covreport::Table;
use std::alloc::{Allocator, Global};
use std::sync::Wait;

pub(super) fn start<A: Allocator + Copy>(alloc: A, jobs: u32) -> Result<Start<A>, OpenFault> {
    Start::new(alloc, jobs)
}

/// Performs the operation with the seat, and returns the receipt and the news.
pub(super) fn done<L: Name, A: Allocator + Copy, R: Wait, T: Table<A>>(
    rt: &R,
    alloc: A,
    book: &Shared<L, A, T>,
    seat: &mut Seat<L, A>,
    op: &Op<A>,
) -> Result<Done<L, A>, BookFault> {
    book.perform(rt, alloc, seat, op)
}

pub(super) fn close<L: Name, A: Allocator + Copy, R: Wait, T: Table<A>>(
    rt: &R,
    book: Shared<L, A, T>,
    seats: Vec<Seat<L, A>, A>,
) -> Result<(Entries<A>, News<L>), (Shared<L, A, T>, Seats<L, A>, CloseFault)> {
    book.close(rt, Seats::of(seats))
}

pub(super) fn reader<L: Name, R: Wait, T: Table<Global>>(
    rt: &R,
    book: &Shared<L, Global, T>,
) -> Result<Live<L>, ReaderFault> {
    book.reader(rt)
}

pub(super) fn learn<L: Name>(live: &mut Live<L>, news: &News<L>) {
    live.learn(news);
}

pub(super) fn totals<L: Name>(live: &mut Live<L>) -> Reading {
    live.totals()
}

pub(super) fn reading<L: Name>(news: &News<L>) -> Reading {
    news.reading()
}

/// An empty list of seats.
pub(super) fn none<L: Name>(alloc: Global) -> Vec<Seat<L>> {
    Seats::new(alloc).into_vec()
}

pub(super) fn gathered(entries: &[Entry], logs: &[JobLog]) -> Result<(), GatherFault> {
    gather(entries, logs)
}
