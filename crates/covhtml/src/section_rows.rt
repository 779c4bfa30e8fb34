//! The rows of a file's page.

ghost use Rattle.std.specs.Prelude.{◌≡◌, ◌++◌, IfOk, OnOk, map};
ghost use Rattle.covtable.specs.ValuesView.{branch_data, line_data};
ghost use Rattle.covhtml.specs.RowView.{row_data};
ghost use Rattle.covhtml.specs.SectionRows.{behind, branch_rows, branches_after as after_line, branches_from as from_line, front, is_of, line_rows, section_rows};

use crate::rows::Row;
use covdata::Memory;
use covtable::{BranchValue, LineValue};
use std::alloc::Allocator;

/// Returns the rows of a file's page: a row for each line that has a count or branches. Both lists ascend by line.
///
/// # Errors
///
/// `Memory` if an allocation failed.
pub fn rows_of<'b, A: Allocator>(
    alloc: A,
    lines: &[LineValue<'_>],
    branches: &'b [BranchValue],
) -> Result<Vec<Row<'b>, A>, Memory>
    ensures { IfOk result (λ rows. map row_data rows.items ≡ section_rows (map line_data lines.now) (map branch_data branches.now)) }
{
    let mut rows = Vec::new(alloc);
    push_rows(lines, branches, &mut rows)?;
    Ok(rows)
}

/// Appends the rows of a file.
fn push_rows<'b, A: Allocator>(
    lines: &[LineValue<'_>],
    branches: &'b [BranchValue],
    rows: &mut Vec<Row<'b>, A>,
) -> Result<(), Memory>
    ensures { OnOk result (map row_data rows.new.items ≡ map row_data rows.old.items ++ section_rows (map line_data lines.now) (map branch_data branches.now)) }
{
    let mut rest = branches;
    for line in lines {
        push_line_rows(line, rest, rows)?;
        rest = branches_after(line.line, rest);
    }
    push_branch_rows(rest, rows)
}

/// Appends the row of a line with its branches, behind the rows of earlier lines that have only branches.
fn push_line_rows<'b, A: Allocator>(
    line: &LineValue<'_>,
    branches: &'b [BranchValue],
    rows: &mut Vec<Row<'b>, A>,
) -> Result<(), Memory>
    ensures { OnOk result (map row_data rows.new.items ≡ map row_data rows.old.items ++ line_rows (line_data line.now) (map branch_data branches.now)) }
{
    let rest = branches_from(line.line, branches);
    let earlier = &branches[..branches.len() - rest.len()];
    let own = own_branches(line.line, rest);
    push_branch_rows(earlier, rows)?;
    rows.push(Row {
        number: line.line,
        count: Some(line.count),
        branches: own,
    })?;
    Ok(())
}

/// Appends a row for each line that has some of these branches.
fn push_branch_rows<'b, A: Allocator>(
    branches: &'b [BranchValue],
    rows: &mut Vec<Row<'b>, A>,
) -> Result<(), Memory>
    ensures { OnOk result (map row_data rows.new.items ≡ map row_data rows.old.items ++ branch_rows (map branch_data branches.now)) }
{
    let mut rest = branches;
    while let Some((first, _)) = rest.split_first() {
        let own = own_branches(first.line, rest);
        rows.push(Row {
            number: first.line,
            count: None,
            branches: own,
        })?;
        rest = without_own(first.line, rest);
    }
    Ok(())
}

/// The branches from the first one on that isn't of an earlier line.
fn branches_from(line: u64, branches: &[BranchValue]) -> &[BranchValue]
    ensures { map branch_data result.now ≡ from_line line (map branch_data branches.now) }
{
    let mut rest = branches;
    while let Some((branch, others)) = rest.split_first() {
        if branch.line >= line {
            break;
        }
        rest = others;
    }
    rest
}

/// The branches after those of a line.
fn branches_after(line: u64, branches: &[BranchValue]) -> &[BranchValue]
    ensures { map branch_data result.now ≡ after_line line (map branch_data branches.now) }
{
    without_own(line, branches_from(line, branches))
}

/// The branches of a line, if the first branch is of this line.
fn own_branches(line: u64, branches: &[BranchValue]) -> &[BranchValue]
    ensures { map branch_data result.now ≡ front (is_of line) (map branch_data branches.now) }
{
    &branches[..branches.len() - without_own(line, branches).len()]
}

/// The branches without those of a line, if the first branch is of this line.
fn without_own(line: u64, branches: &[BranchValue]) -> &[BranchValue]
    ensures { map branch_data result.now ≡ behind (is_of line) (map branch_data branches.now) }
{
    let mut rest = branches;
    while let Some((branch, others)) = rest.split_first() {
        if branch.line != line {
            break;
        }
        rest = others;
    }
    rest
}
