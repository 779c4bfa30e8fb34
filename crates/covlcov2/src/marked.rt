//! Parses a branch with a mark `e` or `f` in a text's first line, without cutting the line off. Most branches of C++ have such a
//! mark.

ghost use Rattle.std.specs.Prelude.{◌≡◌, Option, Some, false, IfSome, option_map};
ghost use Rattle.covdata.specs.PointView.{branch_point_data};
ghost use Rattle.covlcov2.specs.Spells.{Edge};
ghost use Rattle.covlcov2.specs.Fronts.{BeginsWithLcov2Line, after_mark, marked_front};

use covdata::BranchPoint;
use covline::fields::{after_feed, front_taken, small_field};
use covline::{BranchLine, strip_key};

/// Parses the first line of the text in one pass if it is `BRDA:<line>,<mark><block>,<branch>,<taken>` with the mark `e` or `f`,
/// numbers below 2^64 and a line feed. Returns `None` for any other line: the caller then cuts the line off and parses it.
/// covline's `try_branch_line` does the same for branches without marks.
#[inline]
pub fn try_marked_branch(text: &[u8]) -> Option<BranchLine<'_>>
    ensures { IfSome result (λ f. BeginsWithLcov2Line text.now (Edge false f.point.line f.point.block (Some f.point.branch) f.taken) f.rest.now) }
{
    front_marked(text)
}

/// The text after a mark `e` or `f` at its front. Returns `None` if the text doesn't begin with one of these marks.
fn skip_mark(text: &[u8]) -> Option<&[u8]>
    ensures { option_map (λ rest. rest.now) result ≡ after_mark text.now }
{
    match text {
        [b'e' | b'f', rest @ ..] => Some(rest),
        _ => None,
    }
}

/// Parses the first line for `try_marked_branch`, from left to right.
#[inline]
fn front_marked(text: &[u8]) -> Option<BranchLine<'_>>
    ensures { option_map (λ f. ((branch_point_data f.point, f.taken), f.rest.now)) result ≡ marked_front text.now }
{
    let (line, rest) = small_field(strip_key(text, b"BRDA:")?)?;
    let (block, rest) = small_field(skip_mark(rest)?)?;
    let (branch, rest) = small_field(rest)?;
    let (taken, rest) = front_taken(rest)?;
    let rest = after_feed(rest)?;
    let point = BranchPoint {
        line,
        block,
        branch,
    };
    Some(BranchLine { point, taken, rest })
}
