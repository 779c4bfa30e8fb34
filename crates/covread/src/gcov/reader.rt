//! The state of the gcov reader between two lines.

ghost use Rattle.std.specs.Prelude.{true, is_some, ◌≡◌, [], ◌++◌, map, MatchResult, OnOk, OnErr};
ghost use Rattle.covdata.specs.Lawful.{IsLawful};
ghost use Rattle.covdata.specs.declared.fault.ReadFault.TheVariants.{Memory as NoMemory};
ghost use Rattle.covread.specs.GcovView.{line_data};
ghost use Rattle.covread.specs.GcovItems.{func_item, line_item};
ghost use Rattle.covread.specs.GcovSteps.{func_data, held_data, section_data, empty, closed, step, step_path, step_source, step_branch, step_func, step_block, grows, StepsTo, submission_held, ends, EndsTo};

use crate::gcov::line::GcovLine;
use crate::wide::wide;
use covdata::{BranchPoint, ReadFault};
use covpacked::{PackedSects, PackedSubmission};
use std::alloc::Allocator;

/// A function whose source line hasn't come yet.
#[derive(Clone, Copy)]
pub struct Function<'a> {
    /// The function's name.
    pub name: &'a [u8],
    /// The function's execution count.
    pub count: u128,
}

/// The source line and the block of the branches that follow.
#[derive(Clone, Copy)]
pub struct BranchAnchor {
    /// The last source line.
    pub line: u64,
    /// The number of the last block after the last source line, or 0 if there was none.
    pub block: u64,
}

/// The section of the last path.
#[derive(Drop)]
pub struct OpenSection<'a> {
    /// The section's path.
    pub file: &'a [u8],
    /// The section's last source line, with that line's last block.
    pub anchor: Option<BranchAnchor>,
}

/// The state of the reader between two lines.
#[derive(Drop)]
pub struct Reader<'a, A: Allocator> {
    /// The name of the test.
    pub test: &'a [u8],
    /// The functions that wait for the next source line.
    pub waiting: Vec<Function<'a>, A>,
    /// The open section.
    pub section: Option<OpenSection<'a>>,
    /// The closed sections, and the items of the open one.
    pub sects: PackedSects<A>,
}

impl<'a, A: Allocator + Copy> Reader<'a, A> {
    /// The reader before the first line.
    pub fn new(alloc: A, test: &'a [u8]) -> Reader<'a, A>
        ensures held { held_data result ≡ empty }
        ensures test { result.test.now ≡ test.now }
    {
        Reader {
            test,
            waiting: Vec::new(alloc),
            section: None,
            sects: PackedSects::new(alloc),
        }
    }

    /// Processes line number `at`, whose meaning is `line`.
    pub fn take(&mut self, at: u64, line: GcovLine<'a>) -> Result<(), ReadFault>
        ensures steps { StepsTo result (held_data self.new) (grows (held_data self.old) (line_data line.entry)) (step self.old.test.now at (held_data self.old) (line_data line.entry)) }
        ensures test { self.new.test.now ≡ self.old.test.now }
    {
        match line {
            GcovLine::Path(path) => self.begin(at, path),
            GcovLine::Source { line, count } => self.source(at, line, count),
            GcovLine::Function { name, count } => self.wait(Function {
                name,
                count: u128::from(count),
            }),
            GcovLine::Branch { branch, taken } => self.branch(at, branch, taken),
            GcovLine::Block { block } => {
                self.enter(block);
                Ok(())
            }
            GcovLine::Skip => Ok(()),
        }
    }

    /// Begins a source file. Fails if the path is empty, or if functions still wait for their source line.
    fn begin(&mut self, at: u64, path: &'a [u8]) -> Result<(), ReadFault>
        ensures steps { StepsTo result (held_data self.new) true (step_path self.old.test.now at (held_data self.old) path.now) }
        ensures test { self.new.test.now ≡ self.old.test.now }
    {
        if path.is_empty() {
            return Err(ReadFault::NoSource { at });
        }
        if !self.waiting.is_empty() {
            return Err(ReadFault::LostFunction);
        }
        self.close()?;
        self.sects.forget();
        self.section = Some(OpenSection {
            file: path,
            anchor: None,
        });
        Ok(())
    }

    /// Closes the open section. Does nothing if none is open.
    fn close(&mut self) -> Result<(), ReadFault>
        ensures ok { OnOk result (held_data self.new ≡ record { waiting = map func_data self.old.waiting.items; section = None; sects = self.old.sects.sects ++ closed self.old.test.now (held_data self.old).section }) }
        ensures err { OnErr result (result ≡ Err NoMemory) }
        ensures late { OnErr result (is_some (held_data self.old).section ≡ true) }
        ensures test { self.new.test.now ≡ self.old.test.now }
    {
        if let Some(section) = self.section.take() {
            self.sects.close(self.test, section.file)?;
        }
        Ok(())
    }

    /// Processes a source line, at which the waiting functions begin.
    fn source(&mut self, at: u64, line: u64, count: Option<u64>) -> Result<(), ReadFault>
        ensures steps { StepsTo result (held_data self.new) (is_some (held_data self.old).section) (step_source at (held_data self.old).section (held_data self.old) line count) }
        ensures test { self.new.test.now ≡ self.old.test.now }
    {
        if let Some(section) = &mut self.section {
            push_functions(&mut self.sects, &self.waiting, line)?;
            push_line(&mut self.sects, line, count)?;
            section.anchor = Some(BranchAnchor { line, block: 0 });
            self.waiting.clear();
            return Ok(());
        }
        Err(ReadFault::NoSource { at })
    }

    /// Processes a function, which waits for the next source line.
    fn wait(&mut self, function: Function<'a>) -> Result<(), ReadFault>
        ensures steps { StepsTo result (held_data self.new) true (Ok (step_func (held_data self.old) function.entry.name.now function.entry.count)) }
        ensures test { self.new.test.now ≡ self.old.test.now }
    {
        self.waiting.push(function)?;
        Ok(())
    }

    /// Processes a branch of the last source line.
    fn branch(&mut self, at: u64, branch: u64, taken: Option<u64>) -> Result<(), ReadFault>
        ensures steps { StepsTo result (held_data self.new) (is_some (held_data self.old).section) (step_branch at (held_data self.old).section (held_data self.old) branch taken) }
        ensures test { self.new.test.now ≡ self.old.test.now }
    {
        if let Some(section) = &self.section {
            if let Some(BranchAnchor { line, block }) = section.anchor {
                let point = BranchPoint {
                    line,
                    block,
                    branch,
                };
                self.sects.push_branch(point, wide(taken))?;
                return Ok(());
            }
        }
        Err(ReadFault::Misplaced { at })
    }

    /// Processes a block of the last source line. The branches that follow belong to this block. Does nothing if no section is
    /// open, or if the open section has no source line yet.
    fn enter(&mut self, block: u64)
        ensures held { held_data self.new ≡ step_block (held_data self.old) block }
        ensures test { self.new.test.now ≡ self.old.test.now }
    {
        if let Some(section) = &mut self.section {
            if let Some(anchor) = &mut section.anchor {
                anchor.block = block;
            }
        }
    }

    /// Returns the submission after the last line. Fails if functions still wait for a source line.
    pub fn finish(mut self) -> Result<PackedSubmission<A>, ReadFault>
        requires { IsLawful (submission_held self.test.now (held_data self)) }
        ensures { EndsTo result (is_some (held_data self.entry).section) (ends self.entry.test.now (held_data self.entry)) }
    {
        if !self.waiting.is_empty() {
            return Err(ReadFault::LostFunction); // No source line comes any more.
        }
        self.close()?;
        let Reader { sects, .. } = self;
        Ok(PackedSubmission::of_lawful(sects, 0))
    }
}

/// Appends `functions` to the open section, with `line` as their start line.
fn push_functions<A: Allocator>(
    sects: &mut PackedSects<A>,
    functions: &[Function<'_>],
    line: u64,
) -> Result<(), ReadFault>
    ensures sects { sects.new.sects ≡ sects.old.sects }
    ensures ok { OnOk result (sects.new.items ≡ sects.old.items ++ map (func_item line) (map func_data functions.now)) }
    ensures err { OnErr result (result ≡ Err NoMemory) }
{
    for function in functions {
        sects.push_function(function.name, line, function.count)?;
    }
    Ok(())
}

/// Appends the count of a line to the open section, if the line has code.
fn push_line<A: Allocator>(
    sects: &mut PackedSects<A>,
    line: u64,
    count: Option<u64>,
) -> Result<(), ReadFault>
    ensures sects { sects.new.sects ≡ sects.old.sects }
    ensures ok { OnOk result (sects.new.items ≡ sects.old.items ++ line_item line count) }
    ensures err { OnErr result (result ≡ Err NoMemory) }
{
    if let Some(count) = count {
        sects.push_line(line, u128::from(count), None)?;
    }
    Ok(())
}
