//! Cuts a block of bytes of a tracefile after its last whole section.

ghost use Rattle.std.specs.Prelude.{◌≡◌, ◌≤◌, ◌↔◌, length, take, drop, codes, count_by, option_map, IsTrue};
ghost use Rattle.covline.specs.Lines.{lines_of, strip};
ghost use Rattle.covline.specs.Spells.{Begins};
ghost use Rattle.covpieces.specs.Sections.{AreWholeSections, EndsSection, grouped_after};
ghost use Rattle.covpieces.specs.LastLines.{EndsInFeed, HasNoFeed, HasWholeLines, IsLastCut, IsShorter, grouping_of, is_feed};

use covline::{strip_key, without_returns};
use memchr::memrchr;

/// The length of the whole sections at the front of the text: up to and including the last line that begins with `end_of_record`
/// and has a line feed. Returns 0 if the text has no such line. Searches from the end.
pub fn whole_sections(text: &[u8]) -> usize
    ensures { AreWholeSections text.now result }
{
    let mut rest = &text[..after_last_feed(text)];
    while let Some(front) = without_last_line(rest) {
        rest = front;
    }
    rest.len()
}

/// The length of the text up to and including its last line feed. Returns 0 if the text has no line feed.
fn after_last_feed(text: &[u8]) -> usize
    ensures within { result ≤ length text.now }
    ensures whole { HasWholeLines (take result text.now) }
    ensures rest { HasNoFeed (drop result text.now) }
{
    match memrchr(b'\n', text) {
        Some(at) => at + 1,
        None => 0,
    }
}

/// The text without its last line. Returns `None` if that line ends a section, or if the text is empty.
fn without_last_line(text: &[u8]) -> Option<&[u8]>
    requires { HasWholeLines text.now }
    ensures { IsShorter text.now (option_map (λ front. front.now) result) }
{
    if text.is_empty() {
        return None;
    }
    let (front, line) = cut_last_line(text);
    if ends_section(line) {
        return None;
    }
    Some(front)
}

/// The text before its last line, and the last line without its line feed. The text must end in a line feed.
fn cut_last_line(text: &[u8]) -> (&[u8], &[u8])
    requires { EndsInFeed text.now }
    ensures { IsLastCut text.now result.0.now result.1.now }
{
    let end = text.len() - 1;
    let start = after_last_feed(&text[..end]);
    (&text[..start], &text[start..end])
}

/// Whether the line ends a section.
fn ends_section(line: &[u8]) -> bool
    ensures { IsTrue result ↔ Begins (strip line.now) (codes "end_of_record") }
{
    strip_key(without_returns(line), b"end_of_record").is_some()
}

/// Whether functions are grouped, by an `FNL:` line, after the lines of `text`. `is_grouped` is whether functions are grouped
/// before. Searches from the end for a line that decides this.
pub(crate) fn grouped_after(is_grouped: bool, text: &[u8]) -> bool
    requires { HasWholeLines text.now }
    ensures { result ≡ grouped_after is_grouped (lines_of text.now) }
{
    let mut rest = text;
    while !rest.is_empty() {
        let (front, line) = cut_last_line(rest);
        match grouping_of(without_returns(line)) {
            Some(decided) => return decided,
            None => rest = front,
        }
    }
    is_grouped
}

/// Whether functions are grouped after this line: `true` after an `FNL:` line, `false` after a path. Returns `None` for any other
/// line.
fn grouping_of(line: &[u8]) -> Option<bool>
    ensures { result ≡ grouping_of line.now }
{
    if strip_key(line, b"SF:").is_some() {
        return Some(false);
    }
    if strip_key(line, b"FNL:").is_some() {
        return Some(true);
    }
    None
}

/// How many lines the text has.
pub(crate) fn count_lines(text: &[u8]) -> u64
    requires { HasWholeLines text.now }
    ensures value { result ≡ length (lines_of text.now) }
    ensures few { result ≤ length text.now }
{
    count_feeds(text) as u64
}

/// How many of the bytes are line feeds.
fn count_feeds(text: &[u8]) -> usize
    ensures { result ≡ count_by is_feed text.now }
{
    text.iter().filter(|byte| **byte == b'\n').count()
}
