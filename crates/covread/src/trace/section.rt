//! Collects the lines of an open section.

ghost use Rattle.std.specs.Prelude.{◌≡◌, ℕ};
ghost use Rattle.covdata.specs.Points.{is_hit};
ghost use Rattle.covdata.specs.Row.{BranchItem};

use crate::trace::functions::{Functions, take_start};
use crate::trace::points::{Ascent, Hit, Points};
use crate::trace::tally::StatedTotal;
use covdata::{BranchPoint, Memory, TraceLine};
use covpacked::PackedSects;
use std::alloc::Allocator;
use std::collections::BTreeMap;

/// A function's count. When the section ends, the count's item gets the function's least start line.
#[derive(Clone, Copy, Drop)]
pub struct PendingCount<'a> {
    /// The index of the count's item among the section's items.
    pub at: usize,
    /// The function's name.
    pub name: &'a [u8],
    /// Whether the count is above 0.
    pub is_hit: bool,
}

/// The state of an open section, except for its items, which are in a `PackedSects`. The item of a function's count has the start
/// line 0 until the section ends. Counts of functions, and totals, wait for the section's end, since they depend on later lines.
#[derive(Drop)]
pub struct SectionBuilder<'a, A: Allocator> {
    /// The functions with a start line.
    pub functions: Functions<'a, A>,
    /// The counts of functions.
    pub waiting: Vec<PendingCount<'a>, A>,
    /// The source lines that the items count.
    pub lines: Points<u64>,
    /// The branches that the items count.
    pub branches: Points<BranchPoint>,
    /// The stated totals.
    pub totals: Vec<StatedTotal, A>,
}

impl<'a, A: Allocator + Copy> SectionBuilder<'a, A> {
    ghost use Rattle.std.specs.Prelude.{◌≡◌, ◌+◌, ◌<◌, ◌^◌, ◌++◌, ◌∷◌, [], List, OnOk, length, option_map};
    ghost use Rattle.covdata.specs.Row.{ItemData};
    ghost use Rattle.covdata.specs.Records.{LineData, FuncStart, FuncCount, Branch, Line, line_data};
    ghost use Rattle.covread.specs.TraceSection.{IsBuiltOf, IsKept};
    ghost use Rattle.covread.specs.TraceTally.{stated_record};

    /// The builder before the section's first line.
    pub fn new(alloc: A) -> SectionBuilder<'a, A>
        ensures { IsBuiltOf result [] [] }
    {
        SectionBuilder {
            functions: BTreeMap::new(alloc),
            waiting: Vec::new(alloc),
            lines: Points::Ascending(Ascent::new()),
            branches: Points::Ascending(Ascent::new()),
            totals: Vec::new(alloc),
        }
    }

    /// Adds a record, which must be a start line, a count or a total.
    pub fn take(&mut self, sects: &mut PackedSects<A>, line: TraceLine<'a>) -> Result<(), Memory>
        requires room { (inside : List LineData) × IsBuiltOf self.old sects.old.items inside × length inside + 1 < 2 ^ 64 }
        requires kept { IsKept (line_data line) }
        ensures sects { sects.new.sects ≡ sects.old.sects }
        ensures built { OnOk result ((inside : List LineData) → IsBuiltOf self.old sects.old.items inside → IsBuiltOf self.new sects.new.items (inside ++ line_data line.entry ∷ [])) }
    {
        match line {
            TraceLine::FuncStart { line, name } => self.take_start(sects, line, name),
            TraceLine::FuncCount { count, name } => self.take_function_count(sects, count, name),
            TraceLine::Branch {
                line,
                block,
                branch,
                taken,
            } => self.take_branch(
                sects,
                BranchPoint {
                    line,
                    block,
                    branch,
                },
                taken,
            ),
            TraceLine::Line {
                line,
                count,
                checksum,
            } => self.take_line(sects, line, count, checksum),
            TraceLine::Total { kind, value } => self.take_total(StatedTotal { kind, value }),
            TraceLine::Test(_) | TraceLine::Path(_) | TraceLine::End | TraceLine::Skip => {
                unreachable!()
            }
        }
    }

    /// Adds a start line of a function.
    fn take_start(
        &mut self,
        sects: &mut PackedSects<A>,
        line: u64,
        name: &'a [u8],
    ) -> Result<(), Memory>
        ensures sects { sects.new.sects ≡ sects.old.sects }
        ensures built { OnOk result ((inside : List LineData) → IsBuiltOf self.old sects.old.items inside → IsBuiltOf self.new sects.new.items (inside ++ FuncStart line name.now ∷ [])) }
    {
        take_start(&mut self.functions, name, line)?;
        sects.push_function(name, line, 0)
    }

    /// Adds a count of a function.
    fn take_function_count(
        &mut self,
        sects: &mut PackedSects<A>,
        count: u128,
        name: &'a [u8],
    ) -> Result<(), Memory>
        ensures sects { sects.new.sects ≡ sects.old.sects }
        ensures built { OnOk result ((inside : List LineData) → IsBuiltOf self.old sects.old.items inside → IsBuiltOf self.new sects.new.items (inside ++ FuncCount count name.now ∷ [])) }
    {
        self.waiting.push(PendingCount {
            at: sects.open_len(),
            name,
            is_hit: count > 0,
        })?;
        sects.push_function(name, 0, count)
    }

    /// Adds the count of a branch. Allocates only in `sects`.
    #[inline(always)]
    pub fn take_branch(
        &mut self,
        sects: &mut PackedSects<A>,
        branch: BranchPoint,
        taken: Option<u128>,
    ) -> Result<(), Memory>
        requires { (inside : List LineData) × IsBuiltOf self.old sects.old.items inside × length inside + 1 < 2 ^ 64 }
        ensures sects { sects.new.sects ≡ sects.old.sects }
        ensures built { OnOk result ((inside : List LineData) → IsBuiltOf self.old sects.old.items inside → IsBuiltOf self.new sects.new.items (inside ++ Branch branch.line branch.block branch.branch taken ∷ [])) }
    {
        sects.push_branch(branch, taken)?;
        self.branches.take(Hit {
            point: branch,
            is_hit: is_above(taken),
        });
        Ok(())
    }

    /// Adds the execution count of a line. Allocates only in `sects`.
    #[inline(always)]
    pub fn take_line(
        &mut self,
        sects: &mut PackedSects<A>,
        line: u64,
        count: u128,
        checksum: Option<&[u8]>,
    ) -> Result<(), Memory>
        requires { (inside : List LineData) × IsBuiltOf self.old sects.old.items inside × length inside + 1 < 2 ^ 64 }
        ensures sects { sects.new.sects ≡ sects.old.sects }
        ensures built { OnOk result ((inside : List LineData) → IsBuiltOf self.old sects.old.items inside → IsBuiltOf self.new sects.new.items (inside ++ Line line count (option_map (λ c. c.now) checksum.entry) ∷ [])) }
    {
        sects.push_line(line, count, checksum)?;
        let is_hit = count > 0;
        self.lines.take(Hit {
            point: line,
            is_hit,
        });
        Ok(())
    }

    /// Adds a stated total.
    fn take_total(&mut self, stated: StatedTotal) -> Result<(), Memory>
        ensures { OnOk result ((items : List ItemData) (inside : List LineData) → IsBuiltOf self.old items inside → IsBuiltOf self.new items (inside ++ stated_record stated ∷ [])) }
    {
        self.totals.push(stated)?;
        Ok(())
    }
}

/// Whether a branch was taken.
#[inline(always)]
fn is_above(taken: Option<u128>) -> bool
    ensures { (line block branch : ℕ) → result ≡ is_hit (BranchItem line block branch taken) }
{
    match taken {
        Some(count) => count > 0,
        None => false,
    }
}
