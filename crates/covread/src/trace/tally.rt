//! Compares the totals that a section states with the section's own totals.

ghost use Rattle.std.specs.Prelude.{◌≡◌, ◌<◌, ◌^◌, List, true, IfOk, count_by, length, map};
ghost use Rattle.std.specs.List.{list_any};
ghost use Rattle.covdata.specs.Records.{LineData};
ghost use Rattle.covread.specs.TracePoints.{AreTotals, Counts, hits_said};
ghost use Rattle.covread.specs.TraceTally.{AreFew, HasTotals, differs, has, is_other, own_value, stated_record, states};

use crate::trace::points::{Point, Points, totals_of};
use covdata::{BranchPoint, Memory, Tally, TotalKind};
use covpacked::PackedItems;
use std::alloc::Allocator;

/// A total that a line states.
#[derive(Clone, Copy, Drop)]
pub struct StatedTotal {
    pub kind: TotalKind,
    pub value: u64,
}

/// The kind of points that a total counts.
#[derive(Clone, Copy)]
enum PointKind {
    Functions,
    Branches,
    Lines,
}

/// How many functions a section has, and how many of them are hit.
#[derive(Clone, Copy, Drop)]
pub struct FunctionTotals {
    /// The number of functions with a start line.
    pub found: u64,
    /// The number of functions with a start line and an execution count above 0.
    pub hit: u64,
}

/// A section's totals of functions, and its branches and lines.
#[derive(Clone, Copy, Drop)]
pub struct SectionPoints {
    pub functions: FunctionTotals,
    pub branches: Points<BranchPoint>,
    pub lines: Points<u64>,
}

/// A section's own totals. Branches are tallied only if the section states a total of branches, and lines only if it states a total
/// of lines. Otherwise the tally is 0.
#[derive(Clone, Copy)]
struct OwnTotals {
    functions: FunctionTotals,
    branches: Tally,
    lines: Tally,
}

/// The number of stated totals that differ from the section's own totals. The section's own totals are computed from `has` and
/// `items`.
pub fn odd_totals<A: Allocator + Copy>(
    alloc: A,
    totals: &[StatedTotal],
    has: SectionPoints,
    items: &PackedItems<'_>,
) -> Result<u64, Memory>
    requires totals { (inside : List LineData) × HasTotals totals.now has items.now inside }
    requires few { AreFew items.now }
    ensures { IfOk result (λ odd. (inside : List LineData) → HasTotals totals.now has items.now inside → odd ≡ count_by (is_other inside) inside) }
{
    let own = OwnTotals {
        functions: has.functions,
        branches: stated_totals(alloc, totals, PointKind::Branches, has.branches, items)?,
        lines: stated_totals(alloc, totals, PointKind::Lines, has.lines, items)?,
    };
    Ok(count_odd(totals, &own))
}

/// The tally of the points if `totals` has a total of this `sort`, and zeros otherwise.
fn stated_totals<P: Point, A: Allocator + Copy>(
    alloc: A,
    totals: &[StatedTotal],
    sort: PointKind,
    points: Points<P>,
    items: &PackedItems<'_>,
) -> Result<Tally, Memory>
    requires counts { Counts P.cmp points (hits_said P.points items.now) }
    requires fits { length (hits_said P.points items.now) < 2 ^ 64 }
    ensures { IfOk result (λ own. list_any (states sort) (map stated_record totals.now) ≡ true → AreTotals P.cmp P.points own items.now) }
{
    if any_states(totals, sort) {
        totals_of::<P, A>(alloc, points, items)
    } else {
        Ok(Tally::NONE)
    }
}

/// Whether `totals` has a total of this `sort`.
fn any_states(totals: &[StatedTotal], sort: PointKind) -> bool
    ensures { result ≡ list_any (states sort) (map stated_record totals.now) }
{
    for stated in totals {
        if sort.has(stated.kind) {
            return true;
        }
    }
    false
}

impl PointKind {
    /// Whether a total of kind `kind` counts points of this sort.
    fn has(self, kind: TotalKind) -> bool
        ensures { result ≡ has self kind }
    {
        match self {
            PointKind::Functions => matches!(kind, TotalKind::FuncFound | TotalKind::FuncHit),
            PointKind::Branches => matches!(kind, TotalKind::BranchFound | TotalKind::BranchHit),
            PointKind::Lines => matches!(kind, TotalKind::LineFound | TotalKind::LineHit),
        }
    }
}

impl OwnTotals {
    /// The section's own total of this kind.
    fn total(&self, kind: TotalKind) -> u64
        ensures { result ≡ own_value self.now kind }
    {
        match kind {
            TotalKind::FuncFound => self.functions.found,
            TotalKind::FuncHit => self.functions.hit,
            TotalKind::BranchFound => self.branches.found,
            TotalKind::BranchHit => self.branches.hit,
            TotalKind::LineFound => self.lines.found,
            TotalKind::LineHit => self.lines.hit,
        }
    }

    /// Whether the stated total differs from the section's own.
    fn differs(&self, stated: StatedTotal) -> bool
        ensures { result ≡ differs self.now (stated_record stated) }
    {
        stated.value != self.total(stated.kind)
    }
}

/// How many of the stated totals differ from the section's own.
fn count_odd(totals: &[StatedTotal], own: &OwnTotals) -> u64
    ensures { result ≡ count_by (differs own.now) (map stated_record totals.now) }
{
    let mut odd: u64 = 0;
    for stated in totals {
        if own.differs(*stated) {
            odd += 1;
        }
    }
    odd
}
