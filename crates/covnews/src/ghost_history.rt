//! The noted history. Its entries exist only in proofs; memory holds only the history's length, as a `logbook::Word`. A token says
//! that a prefix of the noted history was seen.

use crate::noted::NotedEntry;
use covbook::Entry;
use logbook::{Gain, Plain, Play, Rule, Seen, Word};
use std::alloc::Allocator;

/// The length of a noted history, as a word in memory.
pub(crate) type Length = Word<NotedEntry, u64, Legality>;

/// A token, without bytes, which says that a prefix of a noted history was seen.
pub(crate) type SeenHistory = Seen<NotedEntry, u64, Legality>;

/// The rule of a noted history: the history is always legal, and the word in memory holds the history's length.
pub struct Legality;

impl Rule<NotedEntry, u64> for Legality {
    ghost use Rattle.std.specs.Prelude.{[]};
    ghost use base.Fml.{ftrue};
    ghost use Rattle.covnews.specs.History.{IsNoted};

    ghost holds = { λ words history. IsNoted words history };

    ghost first = { [] };

    ghost hinted = { λ _ _. Unit {0} };

    ghost shows = { λ _. [] };

    ghost keeps = { λ _ _. ftrue };

    ghost moves = { λ _ _ _ _. Unit {0} };
}

/// What a caller gains from a step: nothing.
pub struct NoGain;

impl Gain<NotedEntry, u64> for NoGain {
    ghost use base.Fml.{ftrue};

    ghost after = { λ _ _ _. ftrue };
}

/// The update that appends an entry to the noted history.
pub struct Append;

impl Play<NotedEntry, u64> for Append {
    ghost use Rattle.covnews.specs.History.{Appends};

    ghost then = { Appends };
}

impl<A: Allocator> Plain<Entry<A>, NotedEntry, u64> for Append {
    ghost use Rattle.std.specs.Prelude.{None};
    ghost use Rattle.covbook.specs.EntryView.{entry_data};

    ghost ask = { λ entry. entry_data entry };

    ghost state = { λ _. None };
}
