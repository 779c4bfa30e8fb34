//! The publisher of a history.

use crate::fault::ReaderFault;
use crate::ghost_history::Length;
use crate::live::Live;
use crate::name::{HistorySeed, Name};
use crate::news::News;
use crate::snapshot_cell::SnapshotCell;
use covbook::Entry;
use covdata::Memory;
use std::alloc::{Allocator, Global};
use std::marker::Model;
use std::sync::Wait;

/// The publisher of a book's history. Contracts see the noted history, the published history, and how many more readers can be
/// made.
///
/// A publisher that is dropped without being closed leaks the memory that it shares with its readers (some 17 KB for 64 readers).
/// The readers still see what was published last.
#[derive(Drop)]
pub struct Publisher<L: Name, A: Allocator = Global> {
    history: Length,
    noted: News<L>,
    snapshot_cell: SnapshotCell<L, A>,
    places: u32,
}

impl<L: Name, A: Allocator> Model for Publisher<L, A> {
    ghost use Rattle.std.specs.Prelude.{◌≡◌};
    ghost use Rattle.covnews.specs.History.{length_of};
    ghost use Rattle.covnews.specs.Publisher.{PublisherData};

    ghost Value = { PublisherData };

    ghost view = { λ publisher. record { noted = publisher.noted; published = publisher.snapshot_cell; places = publisher.places } };

    ghost invariant = { λ publisher. publisher.history ≡ length_of L.book };
}

impl<L: Name, A: Allocator + Copy> Publisher<L, A> {
    ghost use Rattle.std.specs.Prelude.{◌≡◌, ◌<◌, [], IfOk};

    /// Makes a publisher of the empty history, with places for `readers` readers. Allocates all the memory that it will ever need.
    pub fn new(alloc: A, seed: HistorySeed, readers: u32) -> Result<Publisher<L, A>, Memory>
        requires book { seed.book ≡ L.book }
        requires readers { 0 < readers }
        ensures noted { IfOk result (λ publisher. publisher.noted ≡ []) }
        ensures published { IfOk result (λ publisher. publisher.published ≡ []) }
        ensures places { IfOk result (λ publisher. publisher.places ≡ readers) }
    {
        let (history, seen) = seed.into_parts();
        let noted = News::first(seen);
        let snapshot_cell = SnapshotCell::new(alloc, &noted, readers)?;
        Ok(Publisher {
            history,
            noted,
            snapshot_cell,
            places: readers,
        })
    }
}

impl<L: Name, A: Allocator> Publisher<L, A> {
    ghost use Rattle.std.specs.Prelude.{◌≡◌, ◌-◌, ◌<◌, ◌++◌, ◌∷◌, [], length, IfOk, IfErr, IfSome, IfNone, OnOk, OnErr, Err};
    ghost use Rattle.covbook.specs.EntryView.{entry_data};
    ghost use Rattle.covbook.specs.Step.{ComesNext, max_entries};
    ghost use Rattle.covnews.specs.declared.fault.ReaderFault.TheVariants as faults;

    /// Notes the next entry of the history, for `publish`. Returns `None`, and changes nothing, if another publisher has noted an
    /// entry of this history. The types exclude this, but no contract says so. Never allocates.
    pub fn note(&mut self, entry: &Entry<A>) -> Option<()>
        requires few { length self.old.noted < max_entries }
        requires next { ComesNext self.old.noted (entry_data entry.now) }
        ensures noted { IfSome result (λ _. self.new ≡ record self.old { noted = self.old.noted ++ entry_data entry.now ∷ [] }) }
        ensures none { IfNone result (self.new ≡ self.old) }
    {
        self.noted = self.noted.appended(&self.history, entry)?;
        Some(())
    }

    /// Publishes the noted history, and returns news of this history. Never fails, so readers are shown every entry in the news.
    /// Waits for readers that are still inside a read of what was shown before the last `publish`.
    pub fn publish<R: Wait>(&mut self, rt: &R) -> News<L>
        ensures published { self.new ≡ record self.old { published = self.old.noted } }
        ensures news { result ≡ self.old.noted }
    {
        self.snapshot_cell.show(rt, &self.noted);
        self.noted.copy()
    }

    /// Makes one more reader, which begins with the published history. Returns `NoPlace` if no place is left, or if no free place
    /// is found. Each reader takes one place, even after it is dropped. Never allocates, so it doesn't return `Memory`.
    pub fn reader(&mut self) -> Result<Live<L, A>, ReaderFault>
        ensures live { IfOk result (λ live. live ≡ self.old.published) }
        ensures place { OnOk result (self.new ≡ record self.old { places = self.old.places - 1 }) }
        ensures refused { OnErr result (self.new ≡ self.old) }
        ensures fault { IfErr result (λ fault. fault ≡ faults.NoPlace) }
        ensures none { self.old.places ≡ 0 → result ≡ Err faults.NoPlace }
    {
        if self.places == 0 {
            return Err(ReaderFault::NoPlace);
        }
        let Ok(reader) = self.snapshot_cell.reader() else {
            return Err(ReaderFault::NoPlace);
        };
        self.places -= 1;
        Ok(Live::new(self.snapshot_cell.news(), reader))
    }

    /// Ends publishing, and returns news of the published history. From then on, each reader reports the longest history that it
    /// saw or learned. Waits for readers that are inside a read.
    pub fn close<R: Wait>(self, rt: &R) -> News<L>
        ensures { result ≡ self.published }
    {
        let Publisher {
            history: _,
            noted: _,
            snapshot_cell,
            places: _,
        } = self;
        let news = snapshot_cell.news();
        snapshot_cell.close(rt);
        news
    }
}
