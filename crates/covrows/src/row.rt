//! Rows: items with their test and their source file.

use crate::key::Key;
use covdata::{Bytes, Item};
use std::alloc::Allocator;

/// An item with its test and its source file.
#[derive(Drop)]
pub(crate) struct Row<A: Allocator> {
    pub(crate) test: Bytes<A>,
    pub(crate) file: Bytes<A>,
    pub(crate) item: Item<A>,
}

impl<A: Allocator> Row<A> {
    ghost use Rattle.std.specs.Prelude.{◌≡◌};
    ghost use Rattle.covtable.specs.Value.{has_key, key_of_row};
    ghost use Rattle.covtable.specs.Without.{is_of_test};
    ghost use Rattle.covrows.specs.Data.{key_data, row_data};

    /// The row's file and test.
    pub(crate) fn key(&self) -> Key<'_>
        ensures { key_data result ≡ key_of_row (row_data self.now) }
    {
        Key {
            file: self.file.get(),
            test: self.test.get(),
        }
    }

    /// Whether the row is of this file and this test.
    pub(crate) fn has_key(&self, key: Key<'_>) -> bool
        ensures { result ≡ has_key (key_data key.entry) (row_data self.now) }
    {
        self.file.get() == key.file && self.test.get() == key.test
    }

    /// Whether the row is of this test.
    pub(crate) fn is_of_test(&self, test: &[u8]) -> bool
        ensures { result ≡ is_of_test test.now (row_data self.now) }
    {
        self.test.get() == test
    }
}
