//! Readers that never wait.

use crate::name::Name;
use crate::news::News;
use crate::snapshot::{OfBook, SnapshotReader};
use core::mem::replace_with;
use covbook::Reading;
use std::alloc::{Allocator, Global};
use std::marker::Model;
use std::thread;

/// A reader of the published totals. It never waits. Contracts see the longest history that the reader saw or learned: at first the
/// history that was published when the reader was made.
#[derive(Drop)]
pub struct Live<L: Name, A: Allocator = Global> {
    longest: News<L>,
    reader: SnapshotReader<L, A>,
}

impl<L: Name, A: Allocator> Model for Live<L, A> {
    ghost use Rattle.std.specs.Prelude.{List};
    ghost use Rattle.covbook.specs.Op.{EntryData};

    ghost Value = { List EntryData };

    ghost view = { λ live. live.longest };
}

/// Returns the reader, and news of the published history: `None` if the reader gets no view of that history, as after a close.
fn look<L: Name, A: Allocator>(
    reader: SnapshotReader<L, A>,
) -> (SnapshotReader<L, A>, Option<News<L>>) {
    match reader.enter_as::<OfBook<L>>() {
        Ok(reading) => {
            let news = News::of(reading.get());
            (reading.leave(), Some(news))
        }
        Err(reader) => (reader, None),
    }
}

impl<L: Name, A: Allocator> Live<L, A> {
    ghost use Rattle.std.specs.Prelude.{◌≡◌, ◌⊎◌, length};
    ghost use Rattle.covbook.specs.Step.{IsLegal, last_totals};
    ghost use Rattle.covnews.specs.History.{IsPrefix};

    /// A reader that begins with these news.
    pub(crate) fn new(news: News<L>, reader: SnapshotReader<L, A>) -> Live<L, A>
        ensures { result ≡ news }
    {
        Live {
            longest: news,
            reader,
        }
    }

    /// Learns the news: from now on, readings have at least the entries of the news. Never allocates or waits.
    pub fn learn(&mut self, news: &News<L>)
        ensures one { (self.new ≡ self.old) ⊎ (self.new ≡ news.now) }
        ensures own { IsPrefix self.old self.new }
        ensures news { IsPrefix news.now self.new }
    {
        self.longest = self.longest.longer(news);
    }

    /// Returns a reading of the longest history that this reader saw or learned, or of the published history if that is longer.
    /// After a close, the reader no longer gets a view of the published history. Never allocates or waits.
    pub fn totals(&mut self) -> Reading
        ensures own { IsPrefix self.old self.new }
        ensures legal { IsLegal self.new }
        ensures upto { result.upto ≡ length self.new }
        ensures totals { result.totals ≡ last_totals self.new }
    {
        let news = self.published();
        self.learn(&news);
        self.longest.reading()
    }

    /// Returns news of the published history. If the reader gets no view of this history, returns news of the longest history that
    /// the reader saw or learned.
    fn published(&mut self) -> News<L>
        ensures { self.new ≡ self.old }
    {
        // The publisher waits for readers inside a read. A reader that yields its processor before a read is rarely suspended
        // during the read, even with more readers than processors.
        thread::yield_now();
        match replace_with(&mut self.reader, (), |reader, _| look(reader)) {
            Some(news) => news,
            None => self.longest.copy(),
        }
    }
}
