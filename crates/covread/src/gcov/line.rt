//! Parses one line of gcov's output.

ghost use Rattle.std.specs.Prelude.{◌≡◌};
ghost use Rattle.covread.specs.Gcov.{Numbered, bare_says, fit, branch_says, source_says, says_of};
ghost use Rattle.covread.specs.GcovReading.{shape_of};
ghost use Rattle.covread.specs.GcovView.{Gives, shape_data};

use crate::gcov::shape::{Shape, shape_of};
use crate::gcov::text::{are_digits, number, without_last};
use covline::strip_key;

/// An error that a line has by itself, whatever the other lines are.
#[derive(Clone, Copy)]
pub enum OwnFault {
    /// Counts of template instances follow.
    Instances,
    /// A branch has a percentage instead of a count.
    Percent,
    /// A mark or a branch's count has no known form.
    BadMark,
    /// A number of 2^64 or more.
    NumberTooLarge,
}

/// The meaning of a line. Paths and names are slices of the line.
#[derive(Clone, Copy)]
pub enum GcovLine<'a> {
    /// The path of a source file.
    Path(&'a [u8]),
    /// A source line, with its execution count if the line has code.
    Source { line: u64, count: Option<u64> },
    /// A function's count; the function begins at the next source line.
    Function { name: &'a [u8], count: u64 },
    /// How often a branch of the last source line was taken, or `None` if the branch's block was never executed.
    Branch { branch: u64, taken: Option<u64> },
    /// The number of the block of the branches that follow.
    Block { block: u64 },
    /// A line that is skipped.
    Skip,
}

/// Parses the line.
pub(crate) fn read_line(line: &[u8]) -> Result<GcovLine<'_>, OwnFault>
    ensures { Gives result (says_of (shape_of line.now)) }
{
    read_shape(shape_of(line))
}

/// Parses a line of this shape.
fn read_shape(shape: Shape<'_>) -> Result<GcovLine<'_>, OwnFault>
    ensures { Gives result (says_of (shape_data shape.entry)) }
{
    match shape {
        Shape::Instances => Err(OwnFault::Instances),
        Shape::Function { name, count } => Ok(GcovLine::Function {
            name,
            count: fit(count)?,
        }),
        Shape::Never { branch } => Ok(GcovLine::Branch {
            branch: fit(branch)?,
            taken: None,
        }),
        Shape::Taken { branch, word } => read_branch(branch, word),
        Shape::Block { line, block } => {
            fit(line)?;
            Ok(GcovLine::Block { block: fit(block)? })
        }
        Shape::Numbered { mark, line, text } => read_numbered(mark, line, text),
        Shape::Other => Ok(GcovLine::Skip),
    }
}

/// The number that the digits spell, or the error `NumberTooLarge` if the number is 2^64 or more.
fn fit(digits: &[u8]) -> Result<u64, OwnFault>
    ensures { result ≡ fit digits.now }
{
    number(digits).ok_or(OwnFault::NumberTooLarge)
}

/// Parses a branch from its number and its count `word`. A `word` that isn't a number is the error even if `branch` is too large.
fn read_branch<'a>(branch: &[u8], word: &[u8]) -> Result<GcovLine<'a>, OwnFault>
    ensures { Gives result (branch_says branch.now word.now) }
{
    if are_digits(word) {
        let branch = fit(branch)?;
        let taken = Some(fit(word)?);
        return Ok(GcovLine::Branch { branch, taken });
    }
    if are_digits(without_last(word, b'%')) {
        Err(OwnFault::Percent)
    } else {
        Err(OwnFault::BadMark)
    }
}

/// Parses a line with a mark and a line number. Line number 0 stands for the source file as a whole.
fn read_numbered<'a>(mark: &[u8], line: &[u8], text: &'a [u8]) -> Result<GcovLine<'a>, OwnFault>
    ensures { Gives result (says_of (Numbered mark.now line.now text.now)) }
{
    if number(line) != Some(0) {
        return read_source(mark, line);
    }
    match strip_key(text, b"Source:") {
        Some(path) => Ok(GcovLine::Path(path)),
        None => Ok(GcovLine::Skip),
    }
}

/// Parses a source line that has no code.
fn read_bare<'a>(line: &[u8]) -> Result<GcovLine<'a>, OwnFault>
    ensures { Gives result (bare_says line.now) }
{
    let line = fit(line)?;
    Ok(GcovLine::Source { line, count: None })
}

/// Parses a source line. A mark of no known form is the error even if `line` is too large.
fn read_source<'a>(mark: &[u8], line: &[u8]) -> Result<GcovLine<'a>, OwnFault>
    ensures { Gives result (source_says mark.now line.now) }
{
    if mark == b"-".as_slice() {
        return read_bare(line);
    }
    if mark == b"#####".as_slice() || mark == b"=====".as_slice() {
        let line = fit(line)?;
        return Ok(GcovLine::Source {
            line,
            count: Some(0),
        });
    }
    let times = without_last(mark, b'*');
    if !are_digits(times) {
        return Err(OwnFault::BadMark);
    }
    let line = fit(line)?;
    let count = Some(fit(times)?);
    Ok(GcovLine::Source { line, count })
}
