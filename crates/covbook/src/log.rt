//! The log of a job: its receipts and readings.

use crate::entry::Receipts;
use crate::reading::Readings;
use covdata::Memory;
use std::alloc::{Allocator, Global};
use std::marker::Model;

/// The receipts of one job, in the order of its calls, and its readings of the totals.
#[derive(Drop)]
pub struct JobLog<A: Allocator = Global> {
    pub job: u32,
    pub receipts: Receipts<A>,
    pub readings: Readings<A>,
}

/// A list of logs. Contracts see the logs as plain data.
#[derive(Drop)]
pub struct Logs<A: Allocator = Global> {
    logs: Vec<JobLog<A>, A>,
}

impl<A: Allocator> Model for Logs<A> {
    ghost use Rattle.std.specs.Prelude.{List, map};
    ghost use Rattle.covbook.specs.Gather.{LogData};
    ghost use Rattle.covbook.specs.LogView.{log_data};

    ghost Value = { List LogData };

    ghost view = { λ a. map log_data a.logs.items };
}

impl<A: Allocator> Logs<A> {
    ghost use Rattle.std.specs.Prelude.{◌≡◌, ◌++◌, [], ◌∷◌, OnOk, OnErr, map};
    ghost use Rattle.covbook.specs.LogView.{log_data};

    /// The empty list. Never allocates.
    pub fn new(alloc: A) -> Logs<A>
        ensures { result ≡ [] }
    {
        Logs {
            logs: Vec::new(alloc),
        }
    }

    /// Appends a log. On `Memory`, drops the log and leaves the list unchanged.
    pub fn push(&mut self, log: JobLog<A>) -> Result<(), Memory>
        ensures ok { OnOk result (self.new ≡ self.old ++ log_data log ∷ []) }
        ensures err { OnErr result (self.new ≡ self.old) }
    {
        self.logs.push(log)?;
        Ok(())
    }

    /// The logs in order.
    pub fn get(&self) -> &[JobLog<A>]
        ensures { map log_data result.now ≡ self.now }
    {
        self.logs.as_slice()
    }
}
