//! Adds up the points of a file over its tests.

ghost use Rattle.std.specs.Prelude.{◌≡◌, ◌++◌, List, IfOk, OnOk, map};
ghost use Rattle.std.specs.declared.cmp.Ordering.{Ordering as Ordered};
ghost use Rattle.covtable.specs.Content.{BranchValueData, FunctionValueData, LineValueData};
ghost use Rattle.covtable.specs.Totals.{AreTotals};
ghost use Rattle.covtable.specs.ValuesView.{branch_data, function_data, line_data};
ghost use Rattle.covhtml.specs.Points.{branch_order, branches_plus, function_order, functions_plus, line_order, lines_plus, merged as merged_points, merged_after, no_points, points_of, points_plus, taken_plus as taken_in_both, test_of, tests_of as tests_in, totals_in};
ghost use Rattle.covhtml.specs.PagesView.{test_totals_data};
ghost use Rattle.covhtml.specs.PointsView.{points_data, section_data};

use crate::pages::TestTotals;
use crate::points::{Points, SectionPoints};
use crate::rows::branches_hit;
use covdata::Memory;
use covtable::{BranchValue, FunctionValue, LineValue, Totals};
use std::alloc::Allocator;
use std::cmp::Ordering;

/// Adds up the points of a file's sections. Each point is there once, with the sum of its counts.
///
/// # Errors
///
/// `Memory` if an allocation failed.
pub fn joined<'s, A: Allocator + Copy>(
    alloc: A,
    sections: Vec<SectionPoints<'s, A>, A>,
) -> Result<Points<'s, A>, Memory>
    ensures { IfOk result (λ points. points_data points ≡ points_of (map section_data sections.entry.items)) }
{
    let mut left = sections;
    let Some(last) = left.pop() else {
        return Ok(Points::none(alloc));
    };
    let mut all = last.points;
    while let Some(section) = left.pop() {
        all = section.points.plus(alloc, &all)?;
    }
    Ok(all)
}

/// Returns the tests of a file's sections, each with the totals of its own points, if there are several.
///
/// # Errors
///
/// `Memory` if an allocation failed.
pub fn tests_of<'s, A: Allocator>(
    alloc: A,
    sections: &[SectionPoints<'s, A>],
) -> Result<Vec<TestTotals<'s>, A>, Memory>
    ensures { IfOk result (λ tests. map test_totals_data tests.items ≡ tests_in (map section_data sections.now)) }
{
    let mut tests = Vec::new(alloc);
    if sections.len() > 1 {
        push_tests(sections, &mut tests)?;
    }
    Ok(tests)
}

/// Appends a test for each section.
fn push_tests<'s, A: Allocator>(
    sections: &[SectionPoints<'s, A>],
    tests: &mut Vec<TestTotals<'s>, A>,
) -> Result<(), Memory>
    ensures { OnOk result (map test_totals_data tests.new.items ≡ map test_totals_data tests.old.items ++ map test_of (map section_data sections.now)) }
{
    for section in sections {
        tests.push(TestTotals {
            test: section.test,
            totals: section.points.totals(),
        })?;
    }
    Ok(())
}

impl<'s, A: Allocator> Points<'s, A> {
    /// How many points there are, and how many of them are hit.
    fn totals(&self) -> Totals
        ensures value { result ≡ totals_in (points_data self.now) }
        ensures bounds { AreTotals result }
    {
        Totals {
            lf: self.lines.len() as u64,
            lh: self.lines.iter().filter(|line| line.count > 0).count() as u64,
            ff: self.functions.len() as u64,
            fh: self.functions.iter().filter(|it| it.count > 0).count() as u64,
            bf: self.branches.len() as u64,
            bh: branches_hit(self.branches.as_slice()),
        }
    }
}

impl<'s, A: Allocator + Copy> Points<'s, A> {
    /// No points.
    fn none(alloc: A) -> Points<'s, A>
        ensures { points_data result ≡ no_points }
    {
        Points {
            functions: Vec::new(alloc),
            branches: Vec::new(alloc),
            lines: Vec::new(alloc),
        }
    }

    /// Adds up these points and those of `other`.
    fn plus(&self, alloc: A, other: &Points<'s, A>) -> Result<Points<'s, A>, Memory>
        ensures { IfOk result (λ points. points_data points ≡ points_plus (points_data self.now) (points_data other.now)) }
    {
        Ok(Points {
            functions: merged(alloc, self.functions.as_slice(), other.functions.as_slice())?,
            branches: merged(alloc, self.branches.as_slice(), other.branches.as_slice())?,
            lines: merged(alloc, self.lines.as_slice(), other.lines.as_slice())?,
        })
    }
}

/// A point that several tests may have.
trait TestedPoint: Copy {
    // The point as plain data.
    ghost Value: { Type 0 };

    ghost value: { Self → Value };

    ghost order: { Value → Value → Ordered };

    ghost sum: { Value → Value → Value };

    /// How the point is ordered among those of its kind.
    fn compare(&self, other: &Self) -> Ordering
        ensures { result ≡ order (value self.now) (value other.now) };

    /// The point with the counts of both.
    fn plus(&self, other: &Self) -> Self
        ensures { value result ≡ sum (value self.now) (value other.now) };
}

impl<'s> TestedPoint for FunctionValue<'s> {
    ghost Value = { FunctionValueData };

    ghost value = { function_data };

    ghost order = { function_order };

    ghost sum = { functions_plus };

    fn compare(&self, other: &Self) -> Ordering {
        self.name.cmp(other.name)
    }

    fn plus(&self, other: &Self) -> Self {
        FunctionValue {
            line: self.line.min(other.line),
            name: self.name,
            count: self.count.saturating_add(other.count),
        }
    }
}

impl TestedPoint for BranchValue {
    ghost Value = { BranchValueData };

    ghost value = { branch_data };

    ghost order = { branch_order };

    ghost sum = { branches_plus };

    fn compare(&self, other: &Self) -> Ordering {
        let by_number = self.branch.cmp(&other.branch);
        let by_block = self.block.cmp(&other.block).then(by_number);
        self.line.cmp(&other.line).then(by_block)
    }

    fn plus(&self, other: &Self) -> Self {
        BranchValue {
            line: self.line,
            block: self.block,
            branch: self.branch,
            taken: taken_plus(self.taken, other.taken),
        }
    }
}

impl<'s> TestedPoint for LineValue<'s> {
    ghost Value = { LineValueData };

    ghost value = { line_data };

    ghost order = { line_order };

    ghost sum = { lines_plus };

    fn compare(&self, other: &Self) -> Ordering {
        self.line.cmp(&other.line)
    }

    fn plus(&self, other: &Self) -> Self {
        LineValue {
            line: self.line,
            count: self.count.saturating_add(other.count),
            checksum: self.checksum,
        }
    }
}

/// How often a branch was taken in two tests together.
fn taken_plus(one: Option<u128>, other: Option<u128>) -> Option<u128>
    ensures { result ≡ taken_in_both one other }
{
    match (one, other) {
        (None, _) => other,
        (Some(_), None) => one,
        (Some(taken), Some(more)) => Some(taken.saturating_add(more)),
    }
}

/// Puts two ascending lists of points together, and adds up points that are in both.
fn merged<X: TestedPoint, A: Allocator>(
    alloc: A,
    one: &[X],
    other: &[X],
) -> Result<Vec<X, A>, Memory>
    ensures { IfOk result (λ all. map X.value all.items ≡ merged_points X.order X.sum (map X.value one.now) (map X.value other.now)) }
{
    let mut all = Vec::new(alloc);
    let mut rest = other;
    for point in one {
        rest = push_up_to(point, rest, &mut all)?;
    }
    for point in rest {
        all.push(*point)?;
    }
    Ok(all)
}

/// Appends the points of `rest` that come before `point`, and then `point` with the counts that it has in both. Returns the points
/// of `rest` that come after.
fn push_up_to<'r, X: TestedPoint, A: Allocator>(
    point: &X,
    rest: &'r [X],
    all: &mut Vec<X, A>,
) -> Result<&'r [X], Memory>
    ensures { IfOk result (λ after. (more : List X.Value → List X.Value) → map X.value all.new.items ++ more (map X.value after.now)
        ≡ map X.value all.old.items ++ merged_after X.order X.sum (X.value point.now) more (map X.value rest.now)) }
{
    let mut left = rest;
    while let Some((next, after)) = left.split_first() {
        match point.compare(next) {
            Ordering::Less => break,
            Ordering::Equal => {
                all.push(point.plus(next))?;
                return Ok(after);
            }
            Ordering::Greater => {
                all.push(*next)?;
                left = after;
            }
        }
    }
    all.push(*point)?;
    Ok(left)
}
