//! Parses a session's command lines.

ghost use Rattle.std.specs.Prelude.{◌≡◌, ◌≢◌, ℕ, List, [], codes, option_map};
ghost use Rattle.covline.specs.Lines.{strip};
ghost use Rattle.covsession.specs.Command.{before_space, IsNaming, IsWord, IsWordWith};

use covline::without_returns;
use memchr::memchr;

/// How a pattern chooses files.
#[derive(Clone, Copy)]
pub enum Pick {
    /// `extract`: the files that match the pattern. Without a pattern, no file.
    Extract,
    /// `remove`: the files that don't match the pattern. Without a pattern, all files.
    Remove,
}

/// The format of a text that follows a command line.
#[derive(Clone, Copy)]
pub enum Format<'a> {
    /// A tracefile (geninfo(1) of LCOV 1.x).
    Tracefile,
    /// gcov's annotated source (gcov(1)), whose counts get this test name.
    Annotated(&'a [u8]),
}

/// A parsed command line.
#[derive(Clone, Copy)]
pub enum Word<'a> {
    /// Nothing: the line is blank.
    Blank,
    /// `report`: the merged tracefile.
    Report,
    /// `summary`: the totals of points found and hit.
    Summary,
    /// `extract` or `remove`: a choice of files. The pattern is what follows the line's first space, if there is a space.
    Choose(Pick, Option<&'a [u8]>),
    /// `drop`: drops the test with this name.
    Drop(&'a [u8]),
    /// `rename`: two lines follow, the old and the new name of a test.
    Rename,
    /// `trace` or `gcov`: a text of this format follows.
    Text(Format<'a>),
    /// An unknown command.
    Other,
}

/// Parses a command line.
pub fn word_of(line: &[u8]) -> Word<'_>
    ensures { IsWord (strip line.now) result }
{
    let words = without_returns(line);
    if words.is_empty() {
        Word::Blank
    } else if words == b"report".as_slice() {
        Word::Report
    } else if words == b"summary".as_slice() {
        Word::Summary
    } else if words == b"rename".as_slice() {
        Word::Rename
    } else if words == b"trace".as_slice() {
        Word::Text(Format::Tracefile)
    } else {
        word_with_argument(words)
    }
}

/// Parses a command line other than `report`, `summary`, `rename`, `trace` and a blank line.
fn word_with_argument(words: &[u8]) -> Word<'_>
    requires some { words.now ≢ [] }
    requires no_report { words.now ≢ codes "report" }
    requires no_summary { words.now ≢ codes "summary" }
    requires no_rename { words.now ≢ codes "rename" }
    requires no_trace { words.now ≢ codes "trace" }
    ensures { IsWord words.now result }
{
    let (name, argument) = split_at_space(words);
    if name == b"extract".as_slice() {
        Word::Choose(Pick::Extract, argument)
    } else if name == b"remove".as_slice() {
        Word::Choose(Pick::Remove, argument)
    } else if name == b"gcov".as_slice() {
        Word::Text(Format::Annotated(test_named(argument)))
    } else if name == b"drop".as_slice() {
        Word::Drop(test_named(argument))
    } else {
        Word::Other
    }
}

/// The test's name: the argument, or the empty name if the line has no argument.
fn test_named(argument: Option<&[u8]>) -> &[u8]
    ensures { (line word : List ℕ) → IsWordWith line word (option_map (λ p. p.now) argument.entry) → IsNaming word result.now line }
{
    match argument {
        Some(test) => test,
        None => b"",
    }
}

/// Returns the parts of a line before and after the first space, or the whole line and `None` if there is no space.
fn split_at_space(words: &[u8]) -> (&[u8], Option<&[u8]>)
    ensures name { result.0.now ≡ before_space words.now }
    ensures whole { IsWordWith words.now result.0.now (option_map (λ p. p.now) result.1) }
{
    match memchr(b' ', words) {
        Some(at) => (&words[..at], Some(&words[at + 1..])),
        None => (words, None),
    }
}
