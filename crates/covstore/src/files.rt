//! An iterator over the files of a store, each with its totals. The iterator never allocates.

use crate::boxed::Boxed;
use crate::file::File;
use crate::path::Path;
use covtable::FileTotals;
use std::alloc::{Allocator, Global};
use std::collections::btree_map::Iter;
use std::marker::Model;

/// An iterator over the files that have points, ascending by path, each with its totals. Contracts see the files that are left.
#[derive(Drop)]
pub struct Files<'a, A: Allocator = Global> {
    files: Iter<'a, Path<A>, Boxed<File<A>, A>>,
}

impl<'a, A: Allocator> Model for Files<'a, A> {
    ghost use Rattle.std.specs.Prelude.{List};
    ghost use Rattle.covtable.specs.Files.{FileTotalsData};
    ghost use Rattle.covstore.specs.FilesView.{files_with_points};
    ghost use Rattle.covstore.specs.StoreView.{files_committed};

    ghost Value = { List FileTotalsData };

    ghost view = { λ f. files_with_points (files_committed (λ name. name.items) f.files) };
}

impl<'a, A: Allocator> Files<'a, A> {
    ghost use Rattle.std.specs.Prelude.{◌≡◌};
    ghost use Rattle.covstore.specs.FilesView.{files_with_points};
    ghost use Rattle.covstore.specs.StoreView.{files_committed};

    /// Returns an iterator over the files in `files` that have points.
    pub(crate) fn of(files: Iter<'a, Path<A>, Boxed<File<A>, A>>) -> Files<'a, A>
        ensures { result ≡ files_with_points (files_committed (λ name. name.items) files.entry) }
    {
        Files { files }
    }
}

impl<'a, A: Allocator + Copy> Iterator for Files<'a, A> {
    ghost use Rattle.std.specs.Iterator.{YieldsFirstBy, item_count};
    ghost use Rattle.covtable.specs.ValuesView.{file_totals_data};

    type Item = FileTotals<'a>;

    ghost next_gives = { YieldsFirstBy file_totals_data (λ s. s) };

    ghost remaining = { item_count (λ s. s) };

    fn next(&mut self) -> Option<FileTotals<'a>> {
        loop {
            let (name, file) = self.files.next()?;
            let totals = file.get().committed_totals();
            if !totals.finds_nothing() {
                return Some(FileTotals {
                    path: name.as_slice(),
                    totals,
                });
            }
        }
    }
}
