//! The type of a noted history's entries.

use covbook::Entry;
use std::marker::Model;

/// An entry of the noted history. It exists only in proofs: no value of this type is made.
#[derive(Drop)]
pub struct NotedEntry {
    entry: Entry,
}

impl Model for NotedEntry {
    ghost use Rattle.covbook.specs.EntryView.{entry_data};
    ghost use Rattle.covbook.specs.Op.{EntryData};

    ghost Value = { EntryData };

    ghost view = { λ noted. entry_data noted.entry };
}
