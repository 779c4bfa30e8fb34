//! The state of the LCOV 2 reader between two lines: the state of the version 1 reader after the translated records, and what later
//! lines need from the lines since the last path.

ghost use Rattle.std.specs.Prelude.{◌≡◌, ℕ, List, [], ◌∷◌, Option, Some, None, Ok, Err, cond};
ghost use Rattle.covdata.specs.Records.{LineData, Path, Total, Branch, line_data};
ghost use Rattle.covread.specs.TraceSteps.{held_data, empty, HasRoom, IsOpen};
ghost use Rattle.covlcov2.specs.declared.take_fault.TakeFault.TheVariants as outside;
ghost use Rattle.covlcov2.specs.Spells.{Lcov2Data, Plain, Leader, Alias, Edge, lcov2_data};
ghost use Rattle.covlcov2.specs.Steps.{HasLineRoom, IsHeld, IsQuiet, Lcov2Steps, Given, StandsFor, counts_functions};

use crate::indexes::Indexes;
use crate::line::Lcov2Line;
use crate::numbers::Block;
use crate::take_fault::{TakeFault, placed};
use covdata::{TotalKind, TraceLine};
use covread::Reader;
use std::alloc::Allocator;

/// The state of the reader between two lines.
#[derive(Drop)]
pub struct Lcov2Reader<'a, A: Allocator> {
    /// The state of the version 1 reader.
    pub plain: Reader<'a, A>,
    /// What later lines of the open section need from its earlier lines. Not used outside of sections.
    pub indexes: Indexes<A>,
    /// Whether an `FNL:` line came since the last path.
    pub is_grouped: bool,
}

impl<'a, A: Allocator + Copy> Lcov2Reader<'a, A> {
    /// The reader before the first line.
    pub fn new(alloc: A) -> Lcov2Reader<'a, A>
        ensures empty { held_data result.plain [] ≡ empty }
        ensures held { IsHeld result [] [] }
    {
        Lcov2Reader {
            plain: Reader::new(alloc),
            indexes: Indexes::new(alloc),
            is_grouped: false,
        }
    }

    /// Processes the record of one line.
    pub fn take(&mut self, alloc: A, line: Lcov2Line<'a>) -> Result<(), TakeFault>
        requires { (above : List Lcov2Data) × (inside : List LineData) × HasLineRoom self.old above inside }
        ensures { (above : List Lcov2Data) (inside : List LineData) → IsHeld self.old above inside → Lcov2Steps result above (held_data self.old.plain inside) self.new (lcov2_data line.entry) }
    {
        match line {
            Lcov2Line::Plain(says) => self.take_plain(alloc, says),
            Lcov2Line::Leader { index, line } => self.take_leader(index, line),
            Lcov2Line::Alias { index, count, name } => self.take_alias(alloc, index, count, name),
            Lcov2Line::Edge {
                is_excluded,
                line,
                block,
                number,
                taken,
            } => self.take_edge(alloc, is_excluded, Block { line, block }, number, taken),
        }
    }

    /// Processes a record of version 1.
    fn take_plain(&mut self, alloc: A, says: TraceLine<'a>) -> Result<(), TakeFault>
        requires { (above : List Lcov2Data) × (inside : List LineData) × HasLineRoom self.old above inside }
        ensures { (above : List Lcov2Data) (inside : List LineData) → IsHeld self.old above inside → Lcov2Steps result above (held_data self.old.plain inside) self.new (Plain (line_data says.entry)) }
    {
        match says {
            TraceLine::Path(path) => self.take_path(alloc, path),
            TraceLine::Total { kind, value } => self.take_total(alloc, kind, value),
            TraceLine::Skip => Ok(()),
            TraceLine::Test(_)
            | TraceLine::FuncStart { .. }
            | TraceLine::FuncCount { .. }
            | TraceLine::Branch { .. }
            | TraceLine::Line { .. }
            | TraceLine::End => self.pass(alloc, says),
        }
    }

    /// Passes a record of version 1 on unchanged. The record must not change `indexes` or `is_grouped`.
    fn pass(&mut self, alloc: A, says: TraceLine<'a>) -> Result<(), TakeFault>
        requires { (above : List Lcov2Data) × (inside : List LineData) × HasLineRoom self.old above inside }
        ensures { (above : List Lcov2Data) (inside : List LineData) (line : Lcov2Data) → IsHeld self.old above inside → StandsFor above line (line_data says.entry) → IsQuiet above line → Lcov2Steps result above (held_data self.old.plain inside) self.new line }
    {
        give(&mut self.plain, alloc, says)
    }

    /// Begins a section. Resets `indexes` and `is_grouped`.
    fn take_path(&mut self, alloc: A, path: &'a [u8]) -> Result<(), TakeFault>
        requires { (above : List Lcov2Data) × (inside : List LineData) × HasLineRoom self.old above inside }
        ensures { (above : List Lcov2Data) (inside : List LineData) → IsHeld self.old above inside → Lcov2Steps result above (held_data self.old.plain inside) self.new (Plain (Path path.now)) }
    {
        match give(&mut self.plain, alloc, TraceLine::Path(path)) {
            Ok(()) => {
                self.indexes.clear(alloc);
                self.is_grouped = false;
                Ok(())
            }
            Err(why) => Err(why),
        }
    }

    /// Processes a total. Ignores totals of functions below an `FNL:` line.
    fn take_total(&mut self, alloc: A, kind: TotalKind, value: u64) -> Result<(), TakeFault>
        requires { (above : List Lcov2Data) × (inside : List LineData) × HasLineRoom self.old above inside }
        ensures { (above : List Lcov2Data) (inside : List LineData) → IsHeld self.old above inside → Lcov2Steps result above (held_data self.old.plain inside) self.new (Plain (Total kind value)) }
    {
        if self.is_grouped && counts_functions(kind) {
            return Ok(());
        }
        self.pass(alloc, TraceLine::Total { kind, value })
    }

    /// Processes an `FNL:` line. Stores the start line of its index only if a section is open.
    fn take_leader(&mut self, index: u64, line: u64) -> Result<(), TakeFault>
        ensures { (above : List Lcov2Data) (inside : List LineData) → IsHeld self.old above inside → Lcov2Steps result above (held_data self.old.plain inside) self.new (Leader index line) }
    {
        if self.plain.section.is_some() {
            match self.indexes.lead(index, line) {
                Ok(()) => {}
                Err(_) => return Err(TakeFault::Memory),
            }
        }
        self.is_grouped = true;
        Ok(())
    }

    /// Processes an `FNA:` line, which stands for two records: the function's start line, found by `index`, and the function's
    /// count. Returns `Misplaced` outside of sections, or if the index has no start line.
    fn take_alias(
        &mut self,
        alloc: A,
        index: u64,
        count: u128,
        name: &'a [u8],
    ) -> Result<(), TakeFault>
        requires { (above : List Lcov2Data) × (inside : List LineData) × HasLineRoom self.old above inside }
        ensures { (above : List Lcov2Data) (inside : List LineData) → IsHeld self.old above inside → Lcov2Steps result above (held_data self.old.plain inside) self.new (Alias index count name.now) }
    {
        if self.plain.section.is_none() {
            return Err(TakeFault::Misplaced);
        }
        let line = match self.indexes.start_of(index) {
            Some(line) => line,
            None => return Err(TakeFault::Misplaced),
        };
        match give(&mut self.plain, alloc, TraceLine::FuncStart { line, name }) {
            Ok(()) => give(&mut self.plain, alloc, TraceLine::FuncCount { count, name }),
            Err(why) => Err(why),
        }
    }

    /// Processes a branch. `given` is the number in the branch's line, or `None` if the branch has an expression. An excluded
    /// branch is numbered too.
    fn take_edge(
        &mut self,
        alloc: A,
        is_excluded: bool,
        block: Block,
        given: Option<u64>,
        taken: Option<u128>,
    ) -> Result<(), TakeFault>
        requires { (above : List Lcov2Data) × (inside : List LineData) × HasLineRoom self.old above inside }
        ensures { (above : List Lcov2Data) (inside : List LineData) → IsHeld self.old above inside → Lcov2Steps result above (held_data self.old.plain inside) self.new (Edge is_excluded block.line block.block given taken) }
    {
        if self.plain.section.is_none() {
            return outside_edge(is_excluded);
        }
        let branch = match self.indexes.number(alloc, block, given) {
            Ok(branch) => branch,
            Err(_) => return Err(TakeFault::Memory),
        };
        if is_excluded {
            return Ok(());
        }
        give(
            &mut self.plain,
            alloc,
            TraceLine::Branch {
                line: block.line,
                block: block.block,
                branch,
                taken,
            },
        )
    }
}

/// Whether totals of this kind count functions.
fn counts_functions(kind: TotalKind) -> bool
    ensures { result ≡ counts_functions kind }
{
    match kind {
        TotalKind::FuncFound | TotalKind::FuncHit => true,
        TotalKind::BranchFound | TotalKind::BranchHit | TotalKind::LineFound | TotalKind::LineHit =>
            false,
    }
}

/// Checks a branch outside of sections, where only excluded branches are allowed.
fn outside_edge(is_excluded: bool) -> Result<(), TakeFault>
    ensures { result ≡ cond is_excluded (Ok tt) (Err outside.Outside) }
{
    if is_excluded {
        return Ok(());
    }
    Err(TakeFault::Outside)
}

/// Passes a record to the version 1 reader.
#[inline]
fn give<'a, A: Allocator + Copy>(
    reader: &mut Reader<'a, A>,
    alloc: A,
    says: TraceLine<'a>,
) -> Result<(), TakeFault>
    requires { (inside : List LineData) × HasRoom reader.old inside }
    ensures { (inside : List LineData) → IsOpen reader.old inside → Given result (held_data reader.old inside) reader.new (line_data says.entry) }
{
    match reader.take(alloc, says) {
        Ok(()) => Ok(()),
        Err(why) => Err(placed(why)),
    }
}
