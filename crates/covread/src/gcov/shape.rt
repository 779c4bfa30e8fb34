//! Finds the shape of a line: the first of seven shapes that the line fits. Copies nothing.

ghost use Rattle.std.specs.Prelude.{◌≡◌, ◌↔◌, option_map, IsTrue};
ghost use Rattle.covread.specs.Gcov.{IsShapeOf, Other};
ghost use Rattle.covread.specs.GcovReading.{function_shape, function_of, branch_front, branch_rest, branch_shape, never_of, taken_of, block_of, numbered_rest, after_mark, numbered_shape, other_shape, any_shape, shape_of};
ghost use Rattle.covread.specs.GcovView.{shape_data};

use crate::gcov::text::{
    Class, after_all, after_last_called, after_spaces, ends_word, is_name, split_some,
};
use covline::strip_key;

/// The shape of a line, with the bytes of its parts.
#[derive(Clone, Copy)]
pub(crate) enum Shape<'a> {
    /// `-----`: counts of template instances follow.
    Instances,
    /// `function NAME called COUNT ..`.
    Function {
        name: &'a [u8],
        count: &'a [u8],
    },
    /// `branch NUMBER never executed`.
    Never {
        branch: &'a [u8],
    },
    /// `branch NUMBER taken WORD ..`.
    Taken {
        branch: &'a [u8],
        word: &'a [u8],
    },
    /// `MARK: LINE-block NUMBER`.
    Block {
        line: &'a [u8],
        block: &'a [u8],
    },
    /// `MARK: LINE:TEXT`.
    Numbered {
        mark: &'a [u8],
        line: &'a [u8],
        text: &'a [u8],
    },
    /// Any other line.
    Other,
}

/// Whether a line of gcov's output fits no known shape, so that it is skipped. The known shapes are lines about template instances,
/// functions, branches or blocks, and lines that begin with a mark and a line number. A blank line fits no known shape.
pub fn fits_no_shape(line: &[u8]) -> bool
    ensures { IsTrue result ↔ IsShapeOf line.now Other }
{
    is_other(shape_of(line))
}

/// Whether the shape is `Other`.
fn is_other(shape: Shape<'_>) -> bool
    ensures { IsTrue result ↔ (shape_data shape.entry ≡ Other) }
{
    matches!(shape, Shape::Other)
}

/// The shape of the line.
pub(crate) fn shape_of(line: &[u8]) -> Shape<'_>
    ensures { shape_data result ≡ shape_of line.now }
{
    match any_shape(line) {
        Some(shape) => shape,
        None => Shape::Other,
    }
}

/// The shape of the line. Returns `None` if only `Other` fits.
fn any_shape(line: &[u8]) -> Option<Shape<'_>>
    ensures { option_map shape_data result ≡ any_shape line.now }
{
    if let Some(_) = strip_key(line, b"-----") {
        return Some(Shape::Instances);
    }
    if let Some(text) = strip_key(line, b"function ") {
        return function_shape(text);
    }
    other_shape(line)
}

/// The shape of a line that doesn't begin with `-----` or `function `. A line that begins with `branch` but isn't a branch line may
/// still be a numbered line, since a mark may begin with `branch` too.
fn other_shape(line: &[u8]) -> Option<Shape<'_>>
    ensures { option_map shape_data result ≡ other_shape line.now }
{
    if let Some(text) = strip_key(line, b"branch") {
        if let Some(shape) = branch_shape(text) {
            return Some(shape);
        }
    }
    numbered_shape(line)
}

/// The shape of a function line. `text` is what follows `function `.
fn function_shape(text: &[u8]) -> Option<Shape<'_>>
    ensures { option_map shape_data result ≡ function_shape text.now }
{
    let found = after_last_called(text)?;
    let (count, rest) = split_some(found, Class::Digit)?;
    let name = &text[..text.len().saturating_sub(found.len() + b" called ".len())];
    if is_name(name) && ends_word(rest) {
        Some(Shape::Function { name, count })
    } else {
        None
    }
}

/// The shape of a branch line. `text` is what follows `branch`.
fn branch_shape(text: &[u8]) -> Option<Shape<'_>>
    ensures { option_map shape_data result ≡ branch_shape text.now }
{
    let (branch, text) = branch_front(text)?;
    branch_rest(branch, text)
}

/// Splits what follows `branch` into the branch's number and what follows the spaces after the number.
fn branch_front(text: &[u8]) -> Option<(&[u8], &[u8])>
    ensures { option_map (λ parts. (parts.0.now, parts.1.now)) result ≡ branch_front text.now }
{
    let text = after_spaces(text)?;
    let (branch, text) = split_some(text, Class::Digit)?;
    let rest = after_spaces(text)?;
    Some((branch, rest))
}

/// The shape of a branch line. `branch` is its number, and `text` is what follows the spaces after the number.
fn branch_rest<'a>(branch: &'a [u8], text: &'a [u8]) -> Option<Shape<'a>>
    ensures { option_map shape_data result ≡ branch_rest branch.now text.now }
{
    if let Some(rest) = strip_key(text, b"never executed") {
        return ends_word(rest).then_some(Shape::Never { branch });
    }
    if let Some(text) = strip_key(text, b"taken") {
        return taken(branch, text);
    }
    None
}

/// The shape of a branch line. `branch` is its number, and `text` is what follows `taken`.
fn taken<'a>(branch: &'a [u8], text: &'a [u8]) -> Option<Shape<'a>>
    ensures { option_map shape_data result ≡ taken_of branch.now text.now }
{
    let text = after_spaces(text)?;
    let (word, _) = split_some(text, Class::Word)?;
    Some(Shape::Taken { branch, word })
}

/// The shape of a line that begins with a mark, a colon and a number.
fn numbered_shape(text: &[u8]) -> Option<Shape<'_>>
    ensures { option_map shape_data result ≡ numbered_shape text.now }
{
    let text = after_all(text, Class::Space);
    let (mark, text) = split_some(text, Class::Mark)?;
    after_mark(mark, text)
}

/// The shape of a numbered line. `mark` is its mark, and `text` is what follows the mark.
fn after_mark<'a>(mark: &'a [u8], text: &'a [u8]) -> Option<Shape<'a>>
    ensures { option_map shape_data result ≡ after_mark mark.now text.now }
{
    let text = strip_key(text, b":")?;
    let text = after_all(text, Class::Space);
    let (line, text) = split_some(text, Class::Digit)?;
    numbered_rest(mark, line, text)
}

/// The shape of a numbered line. `mark` is its mark, `line` its number, and `text` what follows the number.
fn numbered_rest<'a>(mark: &'a [u8], line: &'a [u8], text: &'a [u8]) -> Option<Shape<'a>>
    ensures { option_map shape_data result ≡ numbered_rest mark.now line.now text.now }
{
    if let Some(text) = strip_key(text, b"-block") {
        return block(line, text);
    }
    if let Some(text) = strip_key(text, b":") {
        return Some(Shape::Numbered { mark, line, text });
    }
    None
}

/// The shape of a block line. `line` is the source line's number, and `text` is what follows `-block`.
fn block<'a>(line: &'a [u8], text: &'a [u8]) -> Option<Shape<'a>>
    ensures { option_map shape_data result ≡ block_of line.now text.now }
{
    let text = after_spaces(text)?;
    let (block, _) = split_some(text, Class::Digit)?;
    Some(Shape::Block { line, block })
}
