//! The files of a table, ascending by path.

ghost use Rattle.std.specs.Prelude.{◌<◌, ◌^◌, length};

use crate::counts::totals_of;
use crate::next::next_file;
use crate::row::Row;
use crate::selection::Selection;
use covtable::{FileTotals, TableFiles};
use std::alloc::Allocator;

/// An iterator over the files above the last one, each with its totals.
#[derive(Drop)]
pub(crate) struct Files<'s, A: Allocator> {
    pub(crate) rows: &'s [Row<A>],
    pub(crate) last: Option<&'s [u8]>,
    ghost few: { length rows.now < 2 ^ 64 },
}

impl<'s, A: Allocator> TableFiles<'s> for Files<'s, A> {
    ghost use Rattle.covrows.specs.View.{files_left};

    ghost left = { files_left };

    fn next_file(&mut self) -> Option<FileTotals<'s>> {
        let path = next_file(self.rows, self.last)?;
        self.last = Some(path);
        Some(FileTotals {
            path,
            totals: totals_of(self.rows, &Selection::File(path)),
        })
    }
}
