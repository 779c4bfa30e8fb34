//! The lines of a text.

ghost use Rattle.std.specs.Prelude.{◌≡◌, ◌∷◌, ◌<◌, ◌≤◌, length};
ghost use Rattle.covline.specs.Lines.{lines_of, strip, IsFirstCut};

use crate::iter::Lines;
use memchr::memchr;

/// Returns an iterator over the text's lines in order, blank lines included. A line comes without its line feed and the carriage
/// returns at its end. The last line needs no line feed.
pub fn lines(text: &[u8]) -> Lines<'_>
    ensures value { result ≡ text.now }
    ensures few { length (lines_of text.now) ≤ length text.now }
{
    Lines::of(text)
}

/// The first line of `text`, and the text after the line feed. `text` must not be empty.
pub fn first_line(text: &[u8]) -> (&[u8], &[u8])
    requires { 0 < length text.now }
    ensures lines { lines_of text.now ≡ result.0.now ∷ lines_of result.1.now }
    ensures cut { IsFirstCut text.now result.0.now result.1.now }
{
    match memchr(b'\n', text) {
        Some(end) => (without_returns(&text[..end]), &text[end + 1..]),
        None => (without_returns(text), &text[text.len()..]),
    }
}

/// The text without the carriage returns at its end.
pub fn without_returns(text: &[u8]) -> &[u8]
    ensures { result.now ≡ strip text.now }
{
    let mut line = text;
    while let Some((last, front)) = line.split_last() {
        if *last != b'\r' {
            break;
        }
        line = front;
    }
    line
}
