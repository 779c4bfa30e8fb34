//! The points of a file, copied out of a table.

ghost use Rattle.std.specs.Prelude.{◌≡◌, IfOk, map};
ghost use Rattle.covtable.specs.ValuesView.{branch_data, function_data, line_data};
ghost use Rattle.covhtml.specs.PointsView.{section_data};

use covdata::Memory;
use covreport::Table;
use covtable::{BranchValue, FunctionValue, LineValue, TableSection};
use std::alloc::Allocator;

/// Points with their values.
#[derive(Drop)]
pub struct Points<'s, A: Allocator> {
    /// The functions, ascending by the bytes of their names.
    pub functions: Vec<FunctionValue<'s>, A>,
    /// The branches, ascending by line, block and number.
    pub branches: Vec<BranchValue, A>,
    /// The lines, ascending by number.
    pub lines: Vec<LineValue<'s>, A>,
}

/// A test of a file with its points.
#[derive(Drop)]
pub struct SectionPoints<'s, A: Allocator> {
    /// The file's path.
    pub file: &'s [u8],
    /// The test's name.
    pub test: &'s [u8],
    /// The points of the file in this test.
    pub points: Points<'s, A>,
}

/// A table that gives the points of its files, one file at a time.
pub trait PointsTable<A: Allocator>: Table<A> {
    ghost use Rattle.std.specs.Prelude.{◌≡◌, IfOk, map};
    ghost use Rattle.covtable.specs.Totals.{own_sections};
    ghost use Rattle.covhtml.specs.PointsView.{section_data};

    /// Returns the sections of the file called `file`, ascending by test.
    ///
    /// # Errors
    ///
    /// `Memory` if an allocation failed.
    fn sections_of<'s>(
        &'s self,
        alloc: A,
        file: &[u8],
    ) -> Result<Vec<SectionPoints<'s, A>, A>, Memory>
        ensures { IfOk result (λ sections. map section_data sections.items ≡ own_sections file.now (Self.shown self.now).sections) };
}

/// Copies a section.
///
/// # Errors
///
/// `Memory` if an allocation failed.
pub fn section_points<'s, A: Allocator + Copy, C: TableSection<'s>>(
    alloc: A,
    section: &C,
) -> Result<SectionPoints<'s, A>, Memory>
    ensures { IfOk result (λ points. section_data points ≡ C.shown section.now) }
{
    Ok(SectionPoints {
        file: section.file(),
        test: section.test(),
        points: Points {
            functions: functions_of(alloc, section)?,
            branches: branches_of(alloc, section)?,
            lines: lines_of(alloc, section)?,
        },
    })
}

/// The functions of a section, in its order.
fn functions_of<'s, A: Allocator, C: TableSection<'s>>(
    alloc: A,
    section: &C,
) -> Result<Vec<FunctionValue<'s>, A>, Memory>
    ensures { IfOk result (λ functions. map function_data functions.items ≡ (C.shown section.now).functions) }
{
    let mut functions = Vec::new(alloc);
    for function in section.functions() {
        functions.push(function)?;
    }
    Ok(functions)
}

/// The branches of a section, in its order.
fn branches_of<'s, A: Allocator, C: TableSection<'s>>(
    alloc: A,
    section: &C,
) -> Result<Vec<BranchValue, A>, Memory>
    ensures { IfOk result (λ branches. map branch_data branches.items ≡ (C.shown section.now).branches) }
{
    let mut branches = Vec::new(alloc);
    for branch in section.branches() {
        branches.push(branch)?;
    }
    Ok(branches)
}

/// The lines of a section, in its order.
fn lines_of<'s, A: Allocator, C: TableSection<'s>>(
    alloc: A,
    section: &C,
) -> Result<Vec<LineValue<'s>, A>, Memory>
    ensures { IfOk result (λ lines. map line_data lines.items ≡ (C.shown section.now).lines) }
{
    let mut lines = Vec::new(alloc);
    for line in section.lines() {
        lines.push(line)?;
    }
    Ok(lines)
}
