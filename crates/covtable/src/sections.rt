//! How a store shows its files and its sections.
//!
//! Functions that read a store take one of these iterators. A store's own calls pass them on (covreport's `Table`), since a trait's
//! associated type can't name the lifetime of a borrow, and a bound on a trait's method can't either.

use crate::totals::FileTotals;
use crate::values::{BranchValue, FunctionValue, LineValue};

/// One test of a file with its points, borrowed from a store. Contracts see the points with their values.
pub trait TableSection<'s>: Drop {
    ghost use Rattle.std.specs.Prelude.{◌≡◌, ◌<◌, ◌^◌, List, length};
    ghost use Rattle.std.specs.Iterator.{IsFinite};
    ghost use Rattle.covtable.specs.Content.{BranchValueData, FunctionValueData, LineValueData, SectionData};
    ghost use Rattle.covtable.specs.ValuesView.{branch_data, function_data, line_data};
    ghost use Rattle.covtable.specs.Walks.{GivesInTurn};

    /// An iterator over the functions, ascending by the bytes of their names.
    type Functions: Iterator<Item = FunctionValue<'s>> + Drop;

    /// An iterator over the branches, ascending by line, block and number.
    type Branches: Iterator<Item = BranchValue> + Drop;

    /// An iterator over the lines, ascending by number.
    type Lines: Iterator<Item = LineValue<'s>> + Drop;

    // The section as plain data.
    ghost shown: { Self → SectionData };

    // The functions that an iterator still gives.
    ghost functions_left: { Self.Functions → List FunctionValueData };

    // The branches that an iterator still gives.
    ghost branches_left: { Self.Branches → List BranchValueData };

    // The lines that an iterator still gives.
    ghost lines_left: { Self.Lines → List LineValueData };

    /// The source file's path.
    fn file(&self) -> &'s [u8]
        ensures { result.now ≡ (shown self.now).key.file };

    /// The test's name.
    fn test(&self) -> &'s [u8]
        ensures { result.now ≡ (shown self.now).key.test };

    /// The functions, ascending by the bytes of their names. There are fewer than 2^64 functions.
    fn functions(&self) -> Self::Functions
        ensures value { functions_left result ≡ (shown self.now).functions }
        ensures few { length (functions_left result) < 2 ^ 64 }
        ensures steps { GivesInTurn function_data functions_left Self.Functions.next_gives }
        ensures can { Self.Functions.can_next result }
        ensures ends { IsFinite (Self.Functions.remaining result) };

    /// The branches, ascending by line, block and number. There are fewer than 2^64 branches.
    fn branches(&self) -> Self::Branches
        ensures value { branches_left result ≡ (shown self.now).branches }
        ensures few { length (branches_left result) < 2 ^ 64 }
        ensures steps { GivesInTurn branch_data branches_left Self.Branches.next_gives }
        ensures can { Self.Branches.can_next result }
        ensures ends { IsFinite (Self.Branches.remaining result) };

    /// The lines, ascending by number. There are fewer than 2^64 lines.
    fn lines(&self) -> Self::Lines
        ensures value { lines_left result ≡ (shown self.now).lines }
        ensures few { length (lines_left result) < 2 ^ 64 }
        ensures steps { GivesInTurn line_data lines_left Self.Lines.next_gives }
        ensures can { Self.Lines.can_next result }
        ensures ends { IsFinite (Self.Lines.remaining result) };
}

/// An iterator over the sections of a store, ascending by file and then by test.
pub trait TableSections<'s>: Drop {
    ghost use Rattle.std.specs.Prelude.{List};
    ghost use Rattle.std.specs.Iterator.{YieldsFirstBy};
    ghost use Rattle.covtable.specs.Content.{SectionData};

    /// A section of the store.
    type Section: TableSection<'s>;

    // The sections that are left.
    ghost left: { Self → List SectionData };

    /// Returns the next section, or `None` if no section is left.
    fn next_section(&mut self) -> Option<Self::Section>
        ensures { YieldsFirstBy Self.Section.shown left self.old result self.new };
}

/// An iterator over the files of a store that have points, ascending by path. Each file comes with its totals over all tests.
pub trait TableFiles<'s>: Drop {
    ghost use Rattle.std.specs.Prelude.{List};
    ghost use Rattle.std.specs.Iterator.{YieldsFirstBy};
    ghost use Rattle.covtable.specs.Files.{FileTotalsData};
    ghost use Rattle.covtable.specs.ValuesView.{file_totals_data};

    // The files that are left.
    ghost left: { Self → List FileTotalsData };

    /// Returns the next file, or `None` if no file is left.
    fn next_file(&mut self) -> Option<FileTotals<'s>>
        ensures { YieldsFirstBy file_totals_data left self.old result self.new };
}
