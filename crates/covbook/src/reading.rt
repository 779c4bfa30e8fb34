//! Readings of the totals, and lists of readings.

use covdata::Memory;
use covtable::Totals;
use std::alloc::{Allocator, Global};
use std::marker::Model;

/// A number of entries, and the totals after that many entries of a history.
#[derive(Clone, Copy, Debug, PartialEq, Eq)]
pub struct Reading {
    /// The number of entries. The totals after no entries are zeros.
    pub upto: u64,
    pub totals: Totals,
}

/// A list of readings. Contracts see the readings.
#[derive(Drop)]
pub struct Readings<A: Allocator = Global> {
    readings: Vec<Reading, A>,
}

impl<A: Allocator> Model for Readings<A> {
    ghost use Rattle.std.specs.Prelude.{List};
    ghost use Rattle.covbook.specs.declared.reading.Reading.{Reading};

    ghost Value = { List Reading };

    ghost view = { λ a. a.readings.items };
}

impl<A: Allocator> Readings<A> {
    ghost use Rattle.std.specs.Prelude.{◌≡◌, ◌++◌, [], ◌∷◌, OnOk, OnErr};

    /// The empty list. Never allocates.
    pub fn new(alloc: A) -> Readings<A>
        ensures { result ≡ [] }
    {
        Readings {
            readings: Vec::new(alloc),
        }
    }

    /// Appends a reading. On `Memory`, drops the reading and leaves the list unchanged.
    pub fn push(&mut self, reading: Reading) -> Result<(), Memory>
        ensures ok { OnOk result (self.new ≡ self.old ++ reading ∷ []) }
        ensures err { OnErr result (self.new ≡ self.old) }
    {
        self.readings.push(reading)?;
        Ok(())
    }

    /// The readings in order.
    pub fn get(&self) -> &[Reading]
        ensures { result.now ≡ self.now }
    {
        self.readings.as_slice()
    }
}
