//! The sections of a table, and the points of a section, each in ascending order.

ghost use Rattle.std.specs.Prelude.{◌<◌, ◌^◌, length};

use crate::key::Key;
use crate::next::{next_branch, next_function, next_key, next_line};
use crate::row::Row;
use crate::values::{branch_value, function_count, function_start, line_checksum, line_value};
use covdata::BranchPoint;
use covtable::{BranchValue, FunctionValue, LineValue, TableSection, TableSections};
use std::alloc::Allocator;

/// An iterator over the sections above the last one.
#[derive(Drop)]
pub(crate) struct Sections<'s, A: Allocator> {
    pub(crate) rows: &'s [Row<A>],
    pub(crate) last: Option<Key<'s>>,
    ghost few: { length rows.now < 2 ^ 64 },
}

impl<'s, A: Allocator> TableSections<'s> for Sections<'s, A> {
    ghost use Rattle.covrows.specs.View.{sections_left};

    type Section = Section<'s, A>;

    ghost left = { sections_left };

    fn next_section(&mut self) -> Option<Section<'s, A>> {
        let key = next_key(self.rows, self.last)?;
        self.last = Some(key);
        Some(Section {
            rows: self.rows,
            key,
        })
    }
}

/// The rows of a file and a test.
#[derive(Drop)]
pub(crate) struct Section<'s, A: Allocator> {
    rows: &'s [Row<A>],
    pub(crate) key: Key<'s>,
    ghost few: { length rows.now < 2 ^ 64 },
}

impl<'s, A: Allocator> TableSection<'s> for Section<'s, A> {
    ghost use Rattle.covrows.specs.View.{branches_left, functions_left, lines_left, section_shown};

    type Functions = Functions<'s, A>;

    type Branches = Branches<'s, A>;

    type Lines = Lines<'s, A>;

    ghost shown = { section_shown };

    ghost functions_left = { functions_left };

    ghost branches_left = { branches_left };

    ghost lines_left = { lines_left };

    fn file(&self) -> &'s [u8] {
        self.key.file
    }

    fn test(&self) -> &'s [u8] {
        self.key.test
    }

    fn functions(&self) -> Functions<'s, A> {
        Functions {
            rows: self.rows,
            key: self.key,
            last: None,
        }
    }

    fn branches(&self) -> Branches<'s, A> {
        Branches {
            rows: self.rows,
            key: self.key,
            last: None,
        }
    }

    fn lines(&self) -> Lines<'s, A> {
        Lines {
            rows: self.rows,
            key: self.key,
            last: None,
        }
    }
}

/// An iterator over the functions of a section above the last one.
#[derive(Drop)]
pub(crate) struct Functions<'s, A: Allocator> {
    rows: &'s [Row<A>],
    key: Key<'s>,
    last: Option<&'s [u8]>,
}

impl<'s, A: Allocator> Iterator for Functions<'s, A> {
    ghost use Rattle.std.specs.Iterator.{YieldsFirstBy, item_count};
    ghost use Rattle.covtable.specs.ValuesView.{function_data};
    ghost use Rattle.covrows.specs.View.{functions_left};

    type Item = FunctionValue<'s>;

    ghost next_gives = { YieldsFirstBy function_data functions_left };

    ghost remaining = { item_count functions_left };

    fn next(&mut self) -> Option<FunctionValue<'s>> {
        let name = next_function(self.rows, self.key, self.last)?;
        self.last = Some(name);
        Some(FunctionValue {
            line: function_start(self.rows, self.key, name),
            name,
            count: function_count(self.rows, self.key, name),
        })
    }
}

/// An iterator over the branches of a section above the last one.
#[derive(Drop)]
pub(crate) struct Branches<'s, A: Allocator> {
    rows: &'s [Row<A>],
    key: Key<'s>,
    last: Option<BranchPoint>,
}

impl<'s, A: Allocator> Iterator for Branches<'s, A> {
    ghost use Rattle.std.specs.Iterator.{YieldsFirstBy, item_count};
    ghost use Rattle.covtable.specs.ValuesView.{branch_data};
    ghost use Rattle.covrows.specs.View.{branches_left};

    type Item = BranchValue;

    ghost next_gives = { YieldsFirstBy branch_data branches_left };

    ghost remaining = { item_count branches_left };

    fn next(&mut self) -> Option<BranchValue> {
        let point = next_branch(self.rows, self.key, self.last)?;
        self.last = Some(point);
        Some(BranchValue {
            line: point.line,
            block: point.block,
            branch: point.branch,
            taken: branch_value(self.rows, self.key, point),
        })
    }
}

/// An iterator over the lines of a section above the last one.
#[derive(Drop)]
pub(crate) struct Lines<'s, A: Allocator> {
    rows: &'s [Row<A>],
    key: Key<'s>,
    last: Option<u64>,
}

impl<'s, A: Allocator> Iterator for Lines<'s, A> {
    ghost use Rattle.std.specs.Iterator.{YieldsFirstBy, item_count};
    ghost use Rattle.covtable.specs.ValuesView.{line_data};
    ghost use Rattle.covrows.specs.View.{lines_left};

    type Item = LineValue<'s>;

    ghost next_gives = { YieldsFirstBy line_data lines_left };

    ghost remaining = { item_count lines_left };

    fn next(&mut self) -> Option<LineValue<'s>> {
        let line = next_line(self.rows, self.key, self.last)?;
        self.last = Some(line);
        Some(LineValue {
            line,
            count: line_value(self.rows, self.key, line),
            checksum: line_checksum(self.rows, self.key, line),
        })
    }
}
