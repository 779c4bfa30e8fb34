//! Which rows are counted.

ghost use Rattle.std.specs.Prelude.{◌≡◌};
ghost use Rattle.covdata.specs.Row.{item_data};
ghost use Rattle.covrows.specs.Counted.{has_kind, is_selected};
ghost use Rattle.covrows.specs.Data.{row_data};
ghost use Rattle.covtable.specs.Value.{key_of_row};

use crate::row::Row;
use covdata::Item;
use covreport::Choice;
use std::alloc::Allocator;

/// Which rows are counted, by their file and their test.
#[derive(Drop)]
pub(crate) enum Selection<'s, A: Allocator> {
    /// All rows.
    All,
    /// Those of a file.
    File(&'s [u8]),
    /// Those of all tests but one.
    Without(&'s [u8]),
    /// Those of the chosen files.
    Chosen(&'s Choice<A>),
}

impl<'s, A: Allocator> Selection<'s, A> {
    /// Whether the row is selected.
    pub(crate) fn takes(&self, row: &Row<A>) -> bool
        ensures { result ≡ is_selected self.now (key_of_row (row_data row.now)) }
    {
        match self {
            Selection::All => true,
            Selection::File(file) => row.file.get() == *file,
            Selection::Without(test) => !row.is_of_test(test),
            Selection::Chosen(choice) => choice.takes(row.file.get()),
        }
    }
}

/// A kind of points.
#[derive(Clone, Copy, Drop)]
pub(crate) enum Kind {
    Lines,
    Functions,
    Branches,
}

impl Kind {
    /// Whether the item counts a point of this kind.
    pub(crate) fn has<A: Allocator>(self, item: &Item<A>) -> bool
        ensures { result ≡ has_kind self (item_data item.now) }
    {
        match self {
            Kind::Lines => matches!(item, Item::Line { .. }),
            Kind::Functions => matches!(item, Item::Func { .. }),
            Kind::Branches => matches!(item, Item::Branch { .. }),
        }
    }
}
