//! The stored parts of entries and receipts.

use crate::entry::{Entry, Receipt};
use crate::op::Answer;
use std::alloc::{Allocator, Global};
use std::snapshot::Snapshot;

/// The stored part of an entry or a receipt. Contracts see the whole entry or receipt, whatever part is stored.
pub trait Keep: Drop {
    /// The type of the whole: an entry or a receipt.
    type Of;

    ghost use Rattle.std.specs.Prelude.{◌≡◌};

    /// Maps a stored part to the whole entry or receipt.
    ghost shows: { Self → Self.Of };

    /// Returns this type's part of `whole`, and drops the rest. Never allocates.
    fn keep(whole: Self::Of) -> Self
        ensures { shows result ≡ whole };
}

/// Stores a whole entry.
impl<A: Allocator> Keep for Entry<A> {
    type Of = Entry<A>;

    ghost shows = { λ entry. entry };

    fn keep(whole: Entry<A>) -> Entry<A> {
        whole
    }
}

/// Stores a whole receipt.
impl<A: Allocator> Keep for Receipt<A> {
    type Of = Receipt<A>;

    ghost shows = { λ receipt. receipt };

    fn keep(whole: Receipt<A>) -> Receipt<A> {
        whole
    }
}

/// Stores nothing. The entry or receipt exists only in proofs, so it uses no memory in a list.
impl<T: Drop> Keep for Snapshot<T> {
    type Of = T;

    ghost shows = { λ kept. kept.value };

    fn keep(whole: T) -> Snapshot<T> {
        Snapshot::of(&whole)
    }
}

/// The answer of an entry. The rest of the entry exists only in proofs.
#[derive(Drop)]
pub struct Answered<A: Allocator = Global> {
    pub answer: Answer<A>,
    /// The whole entry, which exists only in proofs and uses no memory.
    pub entry: Snapshot<Entry<A>>,
}

impl<A: Allocator> Keep for Answered<A> {
    type Of = Entry<A>;

    ghost shows = { λ kept. record kept.entry.value { answer = kept.answer } };

    fn keep(whole: Entry<A>) -> Answered<A> {
        let entry = Snapshot::of(&whole);
        Answered {
            answer: whole.answer,
            entry,
        }
    }
}
