//! A job of the shared book.

use crate::random::Random;
use crate::random_op::random_op;
use covbook::{JobLog, Op, Readings, Receipts};
use covjobs::{Live, Name, News, Seat, Shared};
use covreport::Table;
use std::alloc::Global;
use std::sync::Wait;

/// A job: its seat, its reader, its random numbers, and its log.
#[derive(Drop)]
pub(crate) struct Job<L: Name> {
    seat: Seat<L>,
    live: Live<L>,
    random: Random,
    log: JobLog,
    /// The largest number of entries that the job has read or learned of. No later reading may have fewer.
    known: u64,
    /// How the job's work ended; an error until it ends.
    ended: anyhow::Result<()>,
}

impl<L: Name> Job<L> {
    /// A job that has done nothing yet.
    pub(crate) fn new(alloc: Global, seat: Seat<L>, live: Live<L>, seed: u64) -> Job<L> {
        let job = seat.job();
        Job {
            seat,
            live,
            random: Random::of(seed, job),
            log: JobLog {
                job,
                receipts: Receipts::new(alloc),
                readings: Readings::new(alloc),
            },
            known: 0,
            ended: Err(anyhow::Error::msg("a thread wasn't started")),
        }
    }

    /// Makes `calls` random calls, or stops at the first error. Stores the outcome in `ended`.
    pub(crate) fn work<R: Wait, T: Table<Global>>(
        &mut self,
        rt: &R,
        alloc: Global,
        book: &Shared<L, Global, T>,
        calls: u64,
    ) {
        self.ended = self.call_often(rt, alloc, book, calls);
    }

    /// Makes `calls` random calls, and stores the receipts. Learns the news of about two thirds of the calls. Reads the totals
    /// after about two thirds of the calls.
    fn call_often<R: Wait, T: Table<Global>>(
        &mut self,
        rt: &R,
        alloc: Global,
        book: &Shared<L, Global, T>,
        calls: u64,
    ) -> anyhow::Result<()> {
        for _call in 0..calls {
            let op = random_op(alloc, &mut self.random)?;
            let news = self.ask(rt, alloc, book, &op)?;
            if !self.random.one_in(3) {
                self.learn(&news);
            }
            if !self.random.one_in(3) {
                self.read()?;
            }
        }
        Ok(())
    }

    /// Makes one call, stores its receipt, and returns its news.
    pub(crate) fn ask<R: Wait, T: Table<Global>>(
        &mut self,
        rt: &R,
        alloc: Global,
        book: &Shared<L, Global, T>,
        op: &Op,
    ) -> anyhow::Result<News<L>> {
        let done = book.perform(rt, alloc, &mut self.seat, op)?;
        self.log.receipts.push(done.receipt)?;
        Ok(done.news)
    }

    /// Learns the news.
    fn learn(&mut self, news: &News<L>) {
        self.live.learn(news);
        self.known = self.known.max(news.reading().upto);
    }

    /// Reads the totals, and stores the reading. Fails if the reading has fewer entries than were read or learned of before.
    fn read(&mut self) -> anyhow::Result<()> {
        let reading = self.live.totals();
        if reading.upto < self.known {
            return Err(anyhow::Error::msg("a reading went back"));
        }
        self.known = reading.upto;
        self.log.readings.push(reading)?;
        Ok(())
    }

    /// The job's seat, its log and its reader, if its work ended well.
    pub(crate) fn into_parts(self) -> anyhow::Result<(Seat<L>, JobLog, Live<L>)> {
        let Job {
            seat,
            live,
            random: _,
            log,
            known: _,
            ended,
        } = self;
        match ended {
            Ok(()) => Ok((seat, log, live)),
            Err(fault) => Err(fault),
        }
    }
}
