//! Iterators over the functions, branches and lines of a section, each with its value.

use crate::file_checksums::FileChecksums;
use crate::keys::{Branch, FunctionName};
use crate::sums::{BranchSum, FunctionSum, LineSum};
use covmap::{Entries, SlotIndex};
use covtable::{BranchValue, FunctionValue, LineValue};
use std::alloc::{Allocator, Global};
use std::marker::Model;

/// An iterator over the functions of a section, ascending by the bytes of their names. Contracts see the functions that are left.
#[derive(Drop)]
pub struct Functions<'a, A: Allocator = Global> {
    rest: Entries<'a, FunctionName<A>, FunctionSum, A>,
}

impl<'a, A: Allocator> Model for Functions<'a, A> {
    ghost use Rattle.std.specs.Prelude.{List, map};
    ghost use Rattle.covtable.specs.Content.{FunctionValueData};
    ghost use Rattle.covstore.specs.State.{function_seen};

    ghost Value = { List FunctionValueData };

    ghost view = { λ f. map function_seen f.rest };
}

impl<'a, A: Allocator> Functions<'a, A> {
    ghost use Rattle.std.specs.Prelude.{◌≡◌, map};
    ghost use Rattle.covstore.specs.State.{function_seen};

    /// Returns an iterator over the functions in `rest`.
    pub(super) fn of(rest: Entries<'a, FunctionName<A>, FunctionSum, A>) -> Functions<'a, A>
        ensures { result ≡ map function_seen rest.entry }
    {
        Functions { rest }
    }
}

impl<'a, A: Allocator> Iterator for Functions<'a, A> {
    ghost use Rattle.std.specs.Iterator.{YieldsFirstBy, item_count};
    ghost use Rattle.covtable.specs.ValuesView.{function_data};

    type Item = FunctionValue<'a>;

    ghost next_gives = { YieldsFirstBy function_data (λ s. s) };

    ghost remaining = { item_count (λ s. s) };

    fn next(&mut self) -> Option<FunctionValue<'a>> {
        let (name, sum) = self.rest.next()?;
        Some(FunctionValue {
            line: sum.line.get(),
            name: name.get(),
            count: sum.count.get(),
        })
    }
}

/// An iterator over the branches of a section, ascending by line, block and number. Contracts see the branches that are left.
#[derive(Drop)]
pub struct Branches<'a, A: Allocator = Global> {
    rest: Entries<'a, Branch, BranchSum, A>,
}

impl<'a, A: Allocator> Model for Branches<'a, A> {
    ghost use Rattle.std.specs.Prelude.{List, map};
    ghost use Rattle.covtable.specs.Content.{BranchValueData};
    ghost use Rattle.covstore.specs.State.{branch_seen};

    ghost Value = { List BranchValueData };

    ghost view = { λ b. map branch_seen b.rest };
}

impl<'a, A: Allocator> Branches<'a, A> {
    ghost use Rattle.std.specs.Prelude.{◌≡◌, map};
    ghost use Rattle.covstore.specs.State.{branch_seen};

    /// Returns an iterator over the branches in `rest`.
    pub(super) fn of(rest: Entries<'a, Branch, BranchSum, A>) -> Branches<'a, A>
        ensures { result ≡ map branch_seen rest.entry }
    {
        Branches { rest }
    }
}

impl<'a, A: Allocator> Iterator for Branches<'a, A> {
    ghost use Rattle.std.specs.Iterator.{YieldsFirstBy, item_count};
    ghost use Rattle.covtable.specs.ValuesView.{branch_data};

    type Item = BranchValue;

    ghost next_gives = { YieldsFirstBy branch_data (λ s. s) };

    ghost remaining = { item_count (λ s. s) };

    fn next(&mut self) -> Option<BranchValue> {
        let (branch, sum) = self.rest.next()?;
        let point = branch.get();
        Some(BranchValue {
            line: point.line,
            block: point.block,
            branch: point.branch,
            taken: sum.times.get(),
        })
    }
}

/// An iterator over the lines of a section, ascending by number. Contracts see the lines that are left.
#[derive(Drop)]
pub struct Lines<'a, A: Allocator = Global> {
    rest: Entries<'a, u64, LineSum, A>,
    checksums: &'a FileChecksums<A>,
    /// The slot that is tried first for the next checksum.
    guess: SlotIndex,
}

impl<'a, A: Allocator> Model for Lines<'a, A> {
    ghost use Rattle.std.specs.Prelude.{List, map};
    ghost use Rattle.covtable.specs.Content.{LineValueData};
    ghost use Rattle.covstore.specs.State.{line_seen};

    ghost Value = { List LineValueData };

    ghost view = { λ l. map (line_seen l.checksums.now.texts) l.rest };
}

impl<'a, A: Allocator> Lines<'a, A> {
    ghost use Rattle.std.specs.Prelude.{◌≡◌, map};
    ghost use Rattle.covstore.specs.State.{line_seen};

    /// Returns an iterator over the lines in `rest`. `checksums` are the checksums of the file.
    pub(super) fn of(
        rest: Entries<'a, u64, LineSum, A>,
        checksums: &'a FileChecksums<A>,
    ) -> Lines<'a, A>
        ensures { result ≡ map (line_seen checksums.now.texts) rest.entry }
    {
        Lines {
            rest,
            checksums,
            guess: SlotIndex::first(),
        }
    }
}

impl<'a, A: Allocator> Iterator for Lines<'a, A> {
    ghost use Rattle.std.specs.Iterator.{YieldsFirstBy, item_count};
    ghost use Rattle.covtable.specs.ValuesView.{line_data};

    type Item = LineValue<'a>;

    ghost next_gives = { YieldsFirstBy line_data (λ s. s) };

    ghost remaining = { item_count (λ s. s) };

    fn next(&mut self) -> Option<LineValue<'a>> {
        let (line, sum) = self.rest.next()?;
        let mut checksum = None;
        if sum.has_checksum {
            let (text, next) = self.checksums.text_at(*line, self.guess);
            checksum = text;
            self.guess = next;
        }
        Some(LineValue {
            line: *line,
            count: sum.count.get(),
            checksum,
        })
    }
}
