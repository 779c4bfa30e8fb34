//! Numbers the branches of an open section.

ghost use Rattle.std.specs.Prelude.{◌≡◌, ◌∷◌, ◌<◌, ◌^◌, ◌||◌, ◌&&◌, ◌==◌, ℕ, List, [], Option, Some, Bool, max, not, OnOk, IfOk};
ghost use Rattle.std.specs.BTreeMap.{get, Updates};
ghost use Rattle.std.specs.Option.{is_some};
ghost use Rattle.covlcov2.specs.Spells.{Lcov2Data, Edge};
ghost use Rattle.covlcov2.specs.Reads.{branch_number, number_from, one_more as one_more_of};
ghost use Rattle.covlcov2.specs.Numbers.{HasNumbers, HasRuns, block_cmp, next_in_run, next_in_runs, numbering_of, numbering_after, ArePut, IsPut};

use covdata::Memory;
use std::alloc::Allocator;
use std::collections::BTreeMap;

/// A block of branches on the source line `line`. `block` is the block's number on this line.
#[derive(Clone, Copy, PartialEq, Eq, PartialOrd, Ord, Drop)]
pub struct Block {
    pub line: u64,
    pub block: u64,
}

/// Successive branches of one block. `next` is one more than their greatest number, but at most 2^64 - 1.
#[derive(Clone, Copy, Drop)]
pub struct Run {
    pub block: Block,
    pub next: u64,
}

/// The runs of a section in which no branch has an expression.
#[derive(Drop)]
pub struct Runs<A: Allocator> {
    /// The runs before the current one.
    pub ended: Vec<Run, A>,
    /// The run of the last branch. Before the first branch, `next` is 0.
    pub current: Run,
}

/// The next number of a block, and whether a branch of the block has an expression.
#[derive(Clone, Copy, Drop)]
pub struct Numbering {
    pub next: u64,
    pub has_expression: bool,
}

/// Numbers the branches of an open section.
#[derive(Drop)]
pub enum Numbers<A: Allocator> {
    /// No branch has an expression yet, so each branch keeps its number. The runs are stored to number branches from the first
    /// expression on.
    Given(Runs<A>),
    /// A branch has an expression. A block without branches isn't in the map.
    Assigned(BTreeMap<Block, Numbering, A>),
}

impl<A: Allocator + Copy> Numbers<A> {
    /// The numbering of a section without branches.
    pub fn new(alloc: A) -> Numbers<A>
        ensures { HasNumbers result [] }
    {
        Numbers::Given(Runs::new(alloc))
    }

    /// Discards all branches. Keeps the capacity for runs if no branch has an expression.
    pub fn clear(&mut self, alloc: A)
        ensures { HasNumbers self.new [] }
    {
        match self {
            Numbers::Given(runs) => runs.clear(),
            Numbers::Assigned(_) => *self = Numbers::new(alloc),
        }
    }

    /// Adds a branch to the block, and returns the branch's number. `given` is the number in the branch's line, or `None` if the
    /// branch has an expression.
    #[inline]
    pub fn number(&mut self, alloc: A, block: Block, given: Option<u64>) -> Result<u64, Memory>
        ensures number { IfOk result (λ n. (above : List Lcov2Data) → HasNumbers self.old above → n ≡ branch_number above block.line block.block given) }
        ensures counted { OnOk result ((above : List Lcov2Data) (is_excluded : Bool) (taken : Option ℕ) → HasNumbers self.old above → HasNumbers self.new (Edge is_excluded block.line block.block given taken ∷ above)) }
    {
        match self {
            Numbers::Given(runs) => match given {
                Some(number) => {
                    runs.add(block, number)?;
                    Ok(number)
                }
                None => {
                    let mut numberings = by_block(alloc, runs)?;
                    let number = number_in(&mut numberings, block, None)?;
                    *self = Numbers::Assigned(numberings);
                    Ok(number)
                }
            },
            Numbers::Assigned(numberings) => number_in(numberings, block, given),
        }
    }
}

impl<A: Allocator> Runs<A> {
    /// The runs of a section without branches.
    fn new(alloc: A) -> Runs<A>
        ensures { (q : Block) → next_in_runs q result ≡ 0 }
    {
        Runs {
            ended: Vec::new(alloc),
            current: no_run(),
        }
    }

    /// Discards all runs. Keeps their capacity.
    fn clear(&mut self)
        ensures { (q : Block) → next_in_runs q self.new ≡ 0 }
    {
        self.ended.clear();
        self.current = no_run();
    }

    /// Adds a branch of the block with this number.
    #[inline]
    fn add(&mut self, block: Block, number: u64) -> Result<(), Memory>
        ensures { OnOk result ((q : Block) → next_in_runs q self.new ≡ max (next_in_runs q self.old) (next_in_run q (record { block = block; next = one_more_of number }))) }
    {
        let next = one_more(number);
        if self.current.block == block {
            self.current.next = self.current.next.max(next);
            return Ok(());
        }
        self.ended.push(self.current)?;
        self.current = Run { block, next };
        Ok(())
    }
}

/// A run without branches.
fn no_run() -> Run
    ensures { result.next ≡ 0 }
{
    Run {
        block: Block { line: 0, block: 0 },
        next: 0,
    }
}

/// One more than the number, but at most 2^64 - 1.
#[inline]
fn one_more(number: u64) -> u64
    ensures { result ≡ one_more_of number }
{
    number.saturating_add(1)
}

/// The numbering of each block that has a run.
fn by_block<A: Allocator + Copy>(
    alloc: A,
    runs: &Runs<A>,
) -> Result<BTreeMap<Block, Numbering, A>, Memory>
    ensures { IfOk result (HasRuns runs.now) }
{
    let mut numberings = BTreeMap::new(alloc);
    put_runs(&mut numberings, runs.ended.as_slice())?;
    put_run(&mut numberings, runs.current)?;
    Ok(numberings)
}

/// Adds runs to the numberings of their blocks.
fn put_runs<A: Allocator + Clone>(
    numberings: &mut BTreeMap<Block, Numbering, A>,
    runs: &[Run],
) -> Result<(), Memory>
    ensures { OnOk result (ArePut runs.now numberings.old numberings.new) }
{
    for run in runs {
        put_run(numberings, *run)?;
    }
    Ok(())
}

/// Adds a run to the numbering of its block.
fn put_run<A: Allocator + Clone>(
    numberings: &mut BTreeMap<Block, Numbering, A>,
    run: Run,
) -> Result<(), Memory>
    ensures { OnOk result (IsPut run numberings.old numberings.new) }
{
    let before = numbering_in(numberings, run.block);
    numberings.insert(
        run.block,
        Numbering {
            next: before.next.max(run.next),
            has_expression: before.has_expression,
        },
    )?;
    Ok(())
}

/// The numbering of the block. The next number of a block without branches is 0.
fn numbering_in<A: Allocator>(numberings: &BTreeMap<Block, Numbering, A>, block: Block) -> Numbering
    ensures { result ≡ numbering_of (get block_cmp numberings.now block) }
{
    match numberings.get(&block) {
        Some(numbering) => *numbering,
        None => Numbering {
            next: 0,
            has_expression: false,
        },
    }
}

/// Adds a branch to the block's numbering, and returns the branch's number. `given` is the number in the branch's line, or `None`
/// if the branch has an expression.
fn number_in<A: Allocator + Clone>(
    numberings: &mut BTreeMap<Block, Numbering, A>,
    block: Block,
    given: Option<u64>,
) -> Result<u64, Memory>
    ensures number { IfOk result (λ n. n ≡ number_from (numbering_of (get block_cmp numberings.old block)).has_expression (numbering_of (get block_cmp numberings.old block)).next given) }
    ensures counted { OnOk result (Updates block_cmp numberings.old numberings.new block (Some (numbering_after (numbering_of (get block_cmp numberings.old block)) given))) }
{
    let before = numbering_in(numberings, block);
    let number = number_below(before, given);
    numberings.insert(
        block,
        Numbering {
            next: before.next.max(one_more(number)),
            has_expression: before.has_expression || given.is_none(),
        },
    )?;
    Ok(number)
}

/// The number of the next branch of a block with this numbering. `given` is the number in the branch's line, or `None` if the
/// branch has an expression.
fn number_below(numbering: Numbering, given: Option<u64>) -> u64
    ensures { result ≡ number_from numbering.has_expression numbering.next given }
{
    match given {
        Some(number) if !numbering.has_expression => number,
        _ => numbering.next,
    }
}
