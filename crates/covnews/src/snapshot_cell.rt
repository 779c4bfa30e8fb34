//! A cell with the snapshot that readers are shown.
ghost use Rattle.std.specs.Prelude.{◌≡◌, ◌++◌, ◌∷◌, [], drop};

use crate::name::Name;
use crate::news::News;
use crate::snapshot::{OfBook, Snapshot, SnapshotReader, SnapshotWriter};
use core::mem::{ManuallyDrop, replace_with};
use std::alloc::{AllocError, Allocator};
use std::marker::Model;
use std::sync::{Wait, WaitMethods};

/// A cell with the snapshot that readers are shown. Contracts see the history of this snapshot.
pub(crate) struct SnapshotCell<L: Name, A: Allocator> {
    writer: SnapshotWriter<L, A>,
}

impl<L: Name, A: Allocator> Model for SnapshotCell<L, A> {
    ghost use Rattle.std.specs.Prelude.{◌≡◌, List};
    ghost use Rattle.covbook.specs.Op.{EntryData};

    ghost Value = { List EntryData };

    ghost view = { λ snapshot_cell. snapshot_cell.writer.desk.shown.value.seen.log };

    ghost invariant = { λ snapshot_cell. snapshot_cell.writer.desk.shown.value.seen.book ≡ L.book };
}

/// A cell that is dropped without being closed leaks its memory, some 17 KB for 64 readers. To free this memory, the drop would
/// have to wait for readers, and a drop has no runtime to wait with. The readers still see what was shown last.
impl<L: Name, A: Allocator> Drop for SnapshotCell<L, A> {
    fn drop(self) {
        let SnapshotCell { writer } = self;
        // Sound, since nothing is freed: the table that the readers share stays where it is.
        let _left = unsafe { ManuallyDrop::new_unchecked(writer) };
    }
}

/// Appends a snapshot to the list of snapshots to show. The list's capacity was reserved when the book was opened, so the first try
/// succeeds. No contract of `left_right` says so, so this function repeats a failed try until there is memory.
fn append<L: Name, A: Allocator, R: Wait>(
    rt: &R,
    writer: &mut SnapshotWriter<L, A>,
    snapshot: &Snapshot,
)
    ensures desk { writer.new.desk ≡ writer.old.desk }
    ensures pending { drop writer.new.behind writer.new.log.items ≡ drop writer.old.behind writer.old.log.items ++ snapshot.now ∷ [] }
{
    for _ in rt.forever() {
        if writer.append(snapshot.copy()).is_ok() {
            return;
        }
    }
    unreachable!()
}

impl<L: Name, A: Allocator + Copy> SnapshotCell<L, A> {
    ghost use Rattle.std.specs.Prelude.{◌≡◌, ◌<◌, IfOk};

    /// A cell that shows the history of the news, with places for `readers` readers.
    pub(crate) fn new(
        alloc: A,
        news: &News<L>,
        readers: u32,
    ) -> Result<SnapshotCell<L, A>, AllocError>
        requires { 0 < readers }
        ensures { IfOk result (λ snapshot_cell. snapshot_cell ≡ news.now) }
    {
        let snapshot = news.snapshot();
        let writer = SnapshotWriter::new(
            alloc,
            snapshot.copy(),
            snapshot.copy(),
            readers as usize,
        )?;
        let mut snapshot_cell = SnapshotCell { writer };
        // This first append reserves capacity for four snapshots. The list never has more than three: the next snapshot, and those
        // that the last `show` published. The first `show` publishes two, since this one is still waiting, and each later `show`
        // publishes one.
        snapshot_cell
            .writer
            .append(snapshot.copy())
            .map_err(|_| AllocError)?;
        Ok(snapshot_cell)
    }
}

impl<L: Name, A: Allocator> SnapshotCell<L, A> {
    ghost use Rattle.std.specs.Prelude.{◌≡◌};

    /// Makes one more reader in a free place. Fails if none is found.
    pub(crate) fn reader(&self) -> Result<SnapshotReader<L, A>, AllocError> {
        self.writer.factory().reader()
    }

    /// News of the history that is shown.
    pub(crate) fn news(&self) -> News<L>
        ensures { result ≡ self.now }
    {
        News::of(self.writer.published())
    }

    /// Shows the history of `news` in place of the current one. Waits for readers of the snapshot before the current one.
    pub(crate) fn show<R: Wait>(&mut self, rt: &R, news: &News<L>)
        ensures { self.new ≡ news.now }
    {
        append(rt, &mut self.writer, news.snapshot());
        let _never_fails = replace_with(&mut self.writer, rt, |writer, rt| {
            writer.publish_as::<OfBook<L>, R>(rt)
        });
    }

    /// Closes the cell. Waits for readers that are inside a read. Later reads see nothing.
    pub(crate) fn close<R: Wait>(self, rt: &R) {
        let SnapshotCell { writer } = self;
        writer.take(rt);
    }
}
