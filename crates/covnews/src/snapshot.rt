//! The snapshots that readers are shown.
ghost use Rattle.std.specs.Prelude.{◌≡◌};
ghost use Rattle.covnews.specs.Snapshot.{Describes};

use crate::ghost_history::SeenHistory;
use crate::name::Name;
use covtable::Totals;
use crossbeam_utils::rule::{Outcome, Protocol};
use left_right::Absorb;
use left_right::reader::Reader;
use left_right::writer::Writer;
use std::alloc::AllocError;
use std::marker::PhantomData;

/// The length of a noted history, and the totals after its last entry. The token `seen` says which history this is: contracts see
/// the history's entries as `seen.log`.
#[derive(Drop)]
pub struct Snapshot {
    pub upto: u64,
    pub totals: Totals,
    pub seen: SeenHistory,
    pub ghost describes: { Describes upto totals seen.log },
}

impl Snapshot {
    /// Returns a copy of the snapshot.
    pub(crate) fn copy(&self) -> Snapshot
        ensures { result ≡ self.now }
    {
        Snapshot {
            upto: self.upto,
            totals: self.totals,
            seen: self.seen.again(),
        }
    }
}

impl Absorb<Snapshot> for Snapshot {
    type State = Snapshot;

    ghost state = { λ snapshot. snapshot };

    ghost applied = { λ _ next. next };

    ghost never_fails = { Unit {0} };

    fn absorb_first(&mut self, next: &Snapshot, _other: &Snapshot) -> Result<(), AllocError> {
        *self = next.copy();
        Ok(())
    }
}

/// The rule of what readers are shown: each snapshot is of the book with the name `L`.
pub struct OfBook<L> {
    name: PhantomData<L>,
}

impl<L: Name> Protocol<Snapshot, ()> for OfBook<L> {
    ghost use Rattle.std.specs.Prelude.{◌≡◌};

    ghost holds = { λ snapshot _. snapshot.seen.book ≡ L.book };

    ghost first = { tt };
}

impl<L: Name> Outcome<Snapshot, ()> for OfBook<L> {
    ghost use Rattle.std.specs.Prelude.{◌≡◌};

    ghost then = { λ _ _ shown _. shown.seen.book ≡ L.book };
}

/// The writer that shows snapshots to readers.
pub(crate) type SnapshotWriter<L, A> = Writer<Snapshot, Snapshot, (), OfBook<L>, A>;

/// The reader of the snapshot that is shown.
pub(crate) type SnapshotReader<L, A> = Reader<Snapshot, (), OfBook<L>, A>;
