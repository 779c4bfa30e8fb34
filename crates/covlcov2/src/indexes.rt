//! What later lines of a section need from earlier lines: start lines by index, and the numbering of branches.

ghost use Rattle.std.specs.Prelude.{◌≡◌, ◌∷◌, ℕ, List, [], Option, Bool, OnOk, IfOk};
ghost use Rattle.covlcov2.specs.Spells.{Lcov2Data, Leader, Edge};
ghost use Rattle.covlcov2.specs.Reads.{branch_number, leader};
ghost use Rattle.covlcov2.specs.Steps.{AreIndexes};

use crate::numbers::{Block, Numbers};
use covdata::Memory;
use std::alloc::Allocator;
use std::collections::BTreeMap;

/// What later lines of an open section need from its earlier lines.
#[derive(Drop)]
pub struct Indexes<A: Allocator> {
    /// The start line of each index with an `FNL:` line.
    pub leaders: BTreeMap<u64, u64, A>,
    /// The numbering of branches.
    pub numbers: Numbers<A>,
}

impl<A: Allocator + Copy> Indexes<A> {
    /// The state before a section's first line.
    pub fn new(alloc: A) -> Indexes<A>
        ensures { AreIndexes result [] }
    {
        Indexes {
            leaders: BTreeMap::new(alloc),
            numbers: Numbers::new(alloc),
        }
    }

    /// Resets the state for a new section.
    pub fn clear(&mut self, alloc: A)
        ensures { AreIndexes self.new [] }
    {
        self.leaders.clear();
        self.numbers.clear(alloc);
    }

    /// The start line of the index. Returns `None` if no `FNL:` line has the index.
    pub fn start_of(&self, index: u64) -> Option<u64>
        ensures { (above : List Lcov2Data) → AreIndexes self.now above → result ≡ leader index above }
    {
        self.leaders.get(&index).copied()
    }

    /// Stores the start line of an index, and replaces an earlier one.
    pub fn lead(&mut self, index: u64, line: u64) -> Result<(), Memory>
        ensures { OnOk result ((above : List Lcov2Data) → AreIndexes self.old above → AreIndexes self.new (Leader index line ∷ above)) }
    {
        self.leaders.insert(index, line)?;
        Ok(())
    }

    /// Adds a branch to the block, and returns the branch's number. `given` is the number in the branch's line, or `None` if the
    /// branch has an expression.
    #[inline]
    pub fn number(&mut self, alloc: A, block: Block, given: Option<u64>) -> Result<u64, Memory>
        ensures number { IfOk result (λ n. (above : List Lcov2Data) → AreIndexes self.old above → n ≡ branch_number above block.line block.block given) }
        ensures counted { OnOk result ((above : List Lcov2Data) (is_excluded : Bool) (taken : Option ℕ) → AreIndexes self.old above → AreIndexes self.new (Edge is_excluded block.line block.block given taken ∷ above)) }
    {
        self.numbers.number(alloc, block, given)
    }
}
