//! The state of the tracefile reader between two lines.

ghost use Rattle.std.specs.Prelude.{◌≡◌, List, [], option_map};
ghost use Rattle.covdata.specs.Records.{LineData, line_data, Test, Path, Branch, Line, End};
ghost use Rattle.covread.specs.TraceSection.{IsKept};
ghost use Rattle.covread.specs.TraceSteps.{held_data, empty, IsOpen, HasRoom, Steps, ends, EndsLawfully};

use crate::trace::placement_fault::PlacementFault;
use crate::trace::section::SectionBuilder;
use crate::trace::settle::settle;
use crate::wide::wide;
use covdata::{BranchPoint, ReadFault, TraceLine};
use covpacked::{PackedSects, PackedSubmission};
use std::alloc::Allocator;

/// A section that isn't closed yet.
#[derive(Drop)]
pub struct OpenSection<'a, A: Allocator> {
    /// The section's path.
    pub file: &'a [u8],
    /// The state after the section's lines so far.
    pub builder: SectionBuilder<'a, A>,
}

/// The state of the reader between two lines.
#[derive(Drop)]
pub struct Reader<'a, A: Allocator> {
    /// The name in the last `TN:` line. Empty before the first `TN:` line.
    pub test: &'a [u8],
    /// The open section.
    pub section: Option<OpenSection<'a, A>>,
    /// The closed sections, and the items of the open one.
    pub sects: PackedSects<A>,
    /// The number of inconsistent lines in the closed sections.
    pub odd: u64,
}

impl<'a, A: Allocator + Copy> Reader<'a, A> {
    /// The reader before the first line, with an empty test name.
    pub fn new(alloc: A) -> Reader<'a, A>
        ensures held { held_data result [] ≡ empty }
        ensures closed { IsOpen result [] }
    {
        Reader {
            test: &[],
            section: None,
            sects: PackedSects::new(alloc),
            odd: 0,
        }
    }

    /// Processes the record of one line.
    pub fn take(&mut self, alloc: A, line: TraceLine<'a>) -> Result<(), PlacementFault>
        requires { (inside : List LineData) × HasRoom self.old inside }
        ensures { (inside : List LineData) → IsOpen self.old inside → Steps result (held_data self.old inside) self.new (line_data line.entry) }
    {
        match line {
            TraceLine::Test(name) => self.name_test(name),
            TraceLine::Path(path) => self.begin(alloc, path),
            TraceLine::FuncStart { .. }
            | TraceLine::FuncCount { .. }
            | TraceLine::Branch { .. }
            | TraceLine::Line { .. }
            | TraceLine::Total { .. } => self.keep(line),
            TraceLine::End => self.end(alloc),
            TraceLine::Skip => Ok(()),
        }
    }

    /// Stores the test name of the sections that follow.
    fn name_test(&mut self, name: &'a [u8]) -> Result<(), PlacementFault>
        ensures { (inside : List LineData) → IsOpen self.old inside → Steps result (held_data self.old inside) self.new (Test name.now) }
    {
        if self.section.is_some() {
            return Err(PlacementFault::Inside);
        }
        self.test = name;
        Ok(())
    }

    /// Begins a section.
    fn begin(&mut self, alloc: A, path: &'a [u8]) -> Result<(), PlacementFault>
        ensures { (inside : List LineData) → IsOpen self.old inside → Steps result (held_data self.old inside) self.new (Path path.now) }
    {
        if self.section.is_some() {
            return Err(PlacementFault::Inside);
        }
        self.sects.forget();
        self.section = Some(OpenSection {
            file: path,
            builder: SectionBuilder::new(alloc),
        });
        Ok(())
    }

    /// Adds a record to the open section.
    fn keep(&mut self, line: TraceLine<'a>) -> Result<(), PlacementFault>
        requires room { (inside : List LineData) × HasRoom self.old inside }
        requires kept { IsKept (line_data line) }
        ensures { (inside : List LineData) → IsOpen self.old inside → Steps result (held_data self.old inside) self.new (line_data line.entry) }
    {
        if let Some(section) = &mut self.section {
            section.builder.take(&mut self.sects, line)?;
            return Ok(());
        }
        Err(PlacementFault::Outside)
    }

    /// Adds the count of a source line to the open section.
    #[inline(always)]
    pub fn keep_count(
        &mut self,
        line: u64,
        count: u64,
        checksum: Option<&[u8]>,
    ) -> Result<(), PlacementFault>
        requires { (inside : List LineData) × HasRoom self.old inside }
        ensures { (inside : List LineData) → IsOpen self.old inside → Steps result (held_data self.old inside) self.new (Line line count (option_map (λ c. c.now) checksum.entry)) }
    {
        if let Some(section) = &mut self.section {
            section
                .builder
                .take_line(&mut self.sects, line, u128::from(count), checksum)?;
            return Ok(());
        }
        Err(PlacementFault::Outside)
    }

    /// Adds the count of a branch to the open section. `taken` is how often the branch was taken, or `None` if the branch's block
    /// was never executed.
    #[inline(always)]
    pub fn keep_branch(
        &mut self,
        point: BranchPoint,
        taken: Option<u64>,
    ) -> Result<(), PlacementFault>
        requires { (inside : List LineData) × HasRoom self.old inside }
        ensures { (inside : List LineData) → IsOpen self.old inside → Steps result (held_data self.old inside) self.new (Branch point.line point.block point.branch taken) }
    {
        if let Some(section) = &mut self.section {
            section
                .builder
                .take_branch(&mut self.sects, point, wide(taken))?;
            return Ok(());
        }
        Err(PlacementFault::Outside)
    }

    /// Closes the open section: completes its items, counts its inconsistent lines, and stores it with the test's name.
    fn end(&mut self, alloc: A) -> Result<(), PlacementFault>
        requires { (inside : List LineData) × HasRoom self.old inside }
        ensures { (inside : List LineData) → IsOpen self.old inside → Steps result (held_data self.old inside) self.new End }
    {
        let Some(section) = self.section.take() else {
            return Err(PlacementFault::Outside);
        };
        let OpenSection { file, builder } = section;
        let odd = settle(alloc, &mut self.sects, builder)?;
        self.odd += odd;
        self.sects.close(self.test, file)?;
        Ok(())
    }

    /// Returns the submission after the last line. Fails if a section is still open.
    pub fn finish(self) -> Result<PackedSubmission<A>, ReadFault>
        requires { EndsLawfully (held_data self []) }
        ensures { result ≡ ends (held_data self.entry []) }
    {
        let Reader {
            section,
            sects,
            odd,
            ..
        } = self;
        if section.is_some() {
            return Err(ReadFault::OpenEnd);
        }
        Ok(PackedSubmission::of_lawful(sects, odd))
    }
}
