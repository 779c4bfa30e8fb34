//! Counts the different lines and branches among the items of a section.

ghost use Rattle.std.specs.Prelude.{◌≡◌, ◌<◌, ◌^◌, ◌++◌, List, [], ◌∷◌, true, Some, IfOk, option_map, MatchOption, length};
ghost use Rattle.covdata.specs.Row.{ItemData};
ghost use Rattle.covdata.specs.Points.{line_point};
ghost use Rattle.covpacked.specs.ItemRefs.{item_ref_data};
ghost use Rattle.covread.specs.declared.trace.points.Hit.{Hit as HitOf};
ghost use Rattle.covread.specs.TracePoints.{AreTotals, Counts, IsAscent, IsTally, branch_key, goes_on, hits_said};

use covdata::{BranchPoint, Memory, Tally};
use covpacked::{ItemRef, PackedItems};
use std::alloc::Allocator;

/// The identity of a line or a branch within a section.
pub trait Point: Ord + Copy + Drop {
    ghost points: { ItemData → List Self };

    /// The item's point of this kind. Returns `None` for an item of another kind.
    fn of(item: &ItemRef<'_>) -> Option<Self>
        ensures { MatchOption result (points (item_ref_data item.now) ≡ []) (λ p. points (item_ref_data item.now) ≡ p ∷ []) };
}

impl Point for u64 {
    ghost points = { line_point };

    fn of(item: &ItemRef<'_>) -> Option<u64> {
        item.line_point()
    }
}

impl Point for BranchPoint {
    ghost points = { branch_key };

    fn of(item: &ItemRef<'_>) -> Option<BranchPoint> {
        item.branch_point()
    }
}

/// An item's point, and whether the item's count is above 0.
#[derive(Clone, Copy, PartialEq, Eq, PartialOrd, Ord, Drop)]
pub struct Hit<P> {
    pub point: P,
    pub is_hit: bool,
}

/// A tally of points in ascending order. The last point isn't counted yet, since the next point may equal it.
#[derive(Clone, Copy, Drop)]
pub struct Ascent<P> {
    /// The tally of the different points below the last one.
    pub below: Tally,
    pub last: Option<Hit<P>>,
}

/// Whether the points so far ascend, and their tally if they do.
#[derive(Clone, Copy, Drop)]
pub enum Points<P> {
    /// The points ascend, as in most tracefiles, and are counted one by one.
    Ascending(Ascent<P>),
    /// A point was less than the point before it, so the points have to be sorted.
    Scattered,
}

impl<P: Point> Ascent<P> {
    /// The ascent without points.
    pub fn new() -> Ascent<P>
        ensures { IsAscent P.cmp result [] }
    {
        Ascent {
            below: Tally::NONE,
            last: None,
        }
    }

    /// Whether `point` is at least the last point. Returns `true` if there is no last point.
    fn goes_on_to(&self, point: P) -> bool
        ensures { result ≡ goes_on P.cmp self.now.last point }
    {
        match &self.last {
            Some(last) => last.point.cmp(&point).is_le(),
            None => true,
        }
    }

    /// Adds a point, which must be at least the last one. Works in place: to copy an `Ascent` takes as long as all other work for a
    /// line.
    fn add(&mut self, next: Hit<P>)
        requires ascends { goes_on P.cmp self.old.last next.point ≡ true }
        requires fits { (seen : List (HitOf P)) × IsAscent P.cmp self.old seen × length seen < 2 ^ 64 }
        ensures ascent { (seen : List (HitOf P)) → IsAscent P.cmp self.old seen → IsAscent P.cmp self.new (seen ++ next ∷ []) }
        ensures last { option_map (λ h. h.point) self.new.last ≡ Some next.point }
    {
        if let Some(last) = &mut self.last {
            if last.point.cmp(&next.point).is_lt() {
                self.below = self.below.and(last.is_hit);
                last.point = next.point;
                last.is_hit = next.is_hit;
                return;
            }
            last.point = next.point;
            last.is_hit = last.is_hit || next.is_hit;
            return;
        }
        self.last = Some(next);
    }

    /// The tally of the different points.
    fn tally(self) -> Tally
        requires { (seen : List (HitOf P)) × IsAscent P.cmp self seen × length seen < 2 ^ 64 }
        ensures { (seen : List (HitOf P)) → IsAscent P.cmp self seen → IsTally P.cmp result seen }
    {
        match &self.last {
            Some(last) => self.below.and(last.is_hit),
            None => self.below,
        }
    }
}

impl<P: Point> Points<P> {
    /// Adds the next point.
    pub fn take(&mut self, next: Hit<P>)
        requires { (seen : List (HitOf P)) × Counts P.cmp self.old seen × length seen < 2 ^ 64 }
        ensures { (seen : List (HitOf P)) → Counts P.cmp self.old seen → Counts P.cmp self.new (seen ++ next ∷ []) }
    {
        if let Points::Ascending(ascent) = self {
            if ascent.goes_on_to(next.point) {
                ascent.add(next);
                return;
            }
        }
        *self = Points::Scattered;
    }
}

/// The tally of the different points of `items`, all of which must have been added to `points`. Allocates nothing if the points
/// ascend. Otherwise sorts them, in O(n log n) time.
pub fn totals_of<P: Point, A: Allocator + Copy>(
    alloc: A,
    points: Points<P>,
    items: &PackedItems<'_>,
) -> Result<Tally, Memory>
    requires counts { Counts P.cmp points (hits_said P.points items.now) }
    requires fits { length (hits_said P.points items.now) < 2 ^ 64 }
    ensures { IfOk result (λ own. AreTotals P.cmp P.points own items.now) }
{
    match points {
        Points::Ascending(ascent) => Ok(ascent.tally()),
        Points::Scattered => Ok(sorted_totals(hits_of::<P, A>(alloc, items)?)),
    }
}

/// The `Hit` of each item of this kind, in the order of the items.
fn hits_of<P: Point, A: Allocator + Copy>(
    alloc: A,
    items: &PackedItems<'_>,
) -> Result<Vec<Hit<P>, A>, Memory>
    ensures { IfOk result (λ hits. hits.items ≡ hits_said P.points items.now) }
{
    let mut hits = Vec::new(alloc);
    for item in items.copy() {
        match P::of(&item) {
            Some(point) => hits.push(Hit {
                point,
                is_hit: item.is_hit(),
            })?,
            None => {}
        }
    }
    Ok(hits)
}

/// Sorts the points, and returns the tally of the different points.
fn sorted_totals<P: Point, A: Allocator>(mut hits: Vec<Hit<P>, A>) -> Tally
    requires { length hits.items < 2 ^ 64 }
    ensures { IsTally P.cmp result hits.items }
{
    hits.sort_unstable();
    let mut ascent = Ascent::new();
    for hit in hits.as_slice() {
        ascent.add(*hit);
    }
    ascent.tally()
}
