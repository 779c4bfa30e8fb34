//! News of a noted history.

use crate::ghost_history::{Append, Length, NoGain, SeenHistory};
use crate::name::Name;
use crate::noted::NotedEntry;
use crate::snapshot::Snapshot;
use covbook::{Entry, Reading};
use covtable::Totals;
use logbook::Offer;
use std::alloc::Allocator;
use std::marker::{Model, PhantomData};

/// The length that the noted history had at one time, and the totals after its last entry at that time. Contracts see the entries
/// up to then, which are a legal history. Callers get news only of published histories: from `Publisher::publish`, from
/// `Publisher::close`, and as copies.
#[derive(Drop)]
pub struct News<L: Name> {
    snapshot: Snapshot,
    name: PhantomData<L>,
}

impl<L: Name> Model for News<L> {
    ghost use Rattle.std.specs.Prelude.{◌≡◌, List};
    ghost use Rattle.covbook.specs.Op.{EntryData};
    ghost use Rattle.covbook.specs.Step.{IsLegal};

    ghost Value = { List EntryData };

    ghost view = { λ news. news.snapshot.seen.log };

    ghost invariant = { λ news. (news.snapshot.seen.book ≡ L.book) × IsLegal news.snapshot.seen.log };
}

impl<L: Name> News<L> {
    ghost use Rattle.std.specs.Prelude.{◌≡◌, ◌<◌, ◌⊎◌, ◌++◌, ◌∷◌, [], length, IfSome};
    ghost use Rattle.covbook.specs.EntryView.{entry_data};
    ghost use Rattle.covbook.specs.Step.{ComesNext, IsLegal, last_totals, max_entries};
    ghost use Rattle.covnews.specs.History.{IsPrefix, length_of};

    /// How many entries the history has, and the totals after the last of them. Never allocates.
    pub fn reading(&self) -> Reading
        ensures upto { result.upto ≡ length self.now }
        ensures totals { result.totals ≡ last_totals self.now }
        ensures legal { IsLegal self.now }
    {
        Reading {
            upto: self.snapshot.upto,
            totals: self.snapshot.totals,
        }
    }

    /// A copy of the news. Never allocates.
    pub fn copy(&self) -> News<L>
        ensures { result ≡ self.now }
    {
        News {
            snapshot: self.snapshot.copy(),
            name: PhantomData,
        }
    }

    /// News of the empty history.
    pub(crate) fn first(seen: SeenHistory) -> News<L>
        requires book { seen.book ≡ L.book }
        requires empty { seen.log ≡ [] }
        ensures { result ≡ [] }
    {
        News {
            snapshot: Snapshot {
                upto: 0,
                totals: Totals::default(),
                seen,
            },
            name: PhantomData,
        }
    }

    /// News of the snapshot's history.
    pub(crate) fn of(snapshot: &Snapshot) -> News<L>
        requires { snapshot.now.seen.book ≡ L.book }
        ensures { result ≡ snapshot.now.seen.log }
    {
        let mut seen = snapshot.seen.again();
        seen.learn(&snapshot.seen);
        News {
            snapshot: snapshot.copy(),
            name: PhantomData,
        }
    }

    /// The snapshot of the history.
    pub(crate) fn snapshot(&self) -> &Snapshot
        ensures book { result.now.seen.book ≡ L.book }
        ensures history { result.now.seen.log ≡ self.now }
    {
        &self.snapshot
    }

    /// Returns a copy of the news with the longer history, or of `self` if both histories are equally long. Both are of one book,
    /// so the shorter history is a prefix of the longer one.
    pub fn longer(&self, other: &News<L>) -> News<L>
        ensures one { (result ≡ self.now) ⊎ (result ≡ other.now) }
        ensures this { IsPrefix self.now result }
        ensures that { IsPrefix other.now result }
    {
        let mut both = self.snapshot.seen.again();
        both.learn(&other.snapshot.seen);
        if self.snapshot.upto < other.snapshot.upto {
            other.copy()
        } else {
            self.copy()
        }
    }

    /// Appends the next entry to the noted history, and returns news of the history with this entry. If the noted history has more
    /// entries than `self`, appends nothing and returns `None`, which never happens if nobody else has the word of the history.
    pub(crate) fn appended<A: Allocator>(
        &self,
        history: &Length,
        entry: &Entry<A>,
    ) -> Option<News<L>>
        requires history { history.now ≡ length_of L.book }
        requires few { length self.now < max_entries }
        requires next { ComesNext self.now (entry_data entry.now) }
        ensures { IfSome result (λ news. news ≡ self.now ++ entry_data entry.now ∷ []) }
    {
        let mut seen = self.snapshot.seen.again();
        let mut offer: Offer<NotedEntry, u64, _, NoGain> = seen.plain::<NoGain, Entry<A>, Append>(
            entry,
        );
        let mut pen = seen.no_pen();
        let upto = self.snapshot.upto;
        let next = upto + 1;
        let found = history.compare_exchange::<Append, NoGain>(
            upto, next, &mut seen, &mut offer, &mut pen,
        );
        if found != upto {
            return None;
        }
        let snapshot = Snapshot {
            upto: next,
            totals: entry.after,
            seen,
        };
        Some(News {
            snapshot,
            name: PhantomData,
        })
    }
}
