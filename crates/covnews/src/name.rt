//! The name of a shared book, and the seed of its noted history.

use crate::ghost_history::{Legality, Length, SeenHistory};
use crate::noted::NotedEntry;
use logbook::{Seen, Start, Word};
use std::marker::{Brand, Model};
use std::sync::ledger::Ledger;

/// The name (brand) of a shared book. It names the count of the book's calls (`Ledger`) and the book's noted history. It has no
/// functions. Values whose types have the same name belong to the same book.
pub trait Name: Ledger {
    ghost use Rattle.logbook.specs.Pages.{Book};

    // The noted history of the book.
    ghost book: { Book };
}

impl Name for Brand {
    ghost book = { record { number = 0; log_name = 0; cells_name = 0 } };
}

/// The seed of a noted history without entries. Contracts see which history this is.
#[derive(Drop)]
pub struct HistorySeed {
    length: Length,
    seen: SeenHistory,
}

impl Model for HistorySeed {
    ghost use Rattle.std.specs.Prelude.{◌≡◌, []};
    ghost use Rattle.covnews.specs.History.{length_of};
    ghost use Rattle.covnews.specs.Publisher.{HistorySeedData};

    ghost Value = { HistorySeedData };

    ghost view = { λ seed. record { book = seed.seen.book } };

    ghost invariant = { λ seed. (seed.seen.log ≡ []) × (seed.length ≡ length_of seed.seen.book) };
}

impl HistorySeed {
    ghost use Rattle.std.specs.Prelude.{◌≡◌, []};
    ghost use Rattle.covnews.specs.History.{length_of};

    /// The seed of a new book's history. Never allocates.
    pub fn new() -> HistorySeed {
        let (seen, mut first, _second) = Seen::open(Start::alone(), 0, 0);
        HistorySeed {
            length: Word::tracked(0, &mut first),
            seen,
        }
    }

    /// Splits the seed into the history's length and the token of the empty history.
    pub(crate) fn into_parts(self) -> (Length, SeenHistory)
        ensures length { result.0 ≡ length_of self.book }
        ensures book { result.1.book ≡ self.book }
        ensures empty { result.1.log ≡ [] }
    {
        (self.length, self.seen)
    }
}
