//! Prints the summary line of an input.

ghost use Rattle.std.specs.Prelude.{◌≡◌, ◌++◌, IfOk, OnOk, decimal, map};
ghost use Rattle.covcheck.specs.SummaryLine.{first_text, summary_text, shown};

use crate::text_summary::{SkippedLine, TextSummary};
use covdata::{Memory, append_number};
use std::alloc::Allocator;

/// Returns the summary line of an input, with a line feed but without the file's name. An example is
/// `sections 3 items 40 odd 6 skipped 9 first FNL at 3`.
pub fn summary_line<A: Allocator>(alloc: A, summary: &TextSummary<'_>) -> Result<Vec<u8, A>, Memory>
    ensures { IfOk result (λ line. line.items ≡ summary_text summary.now) }
{
    let mut line = Vec::new(alloc);
    put_number(&mut line, b"sections ", summary.sections)?;
    put_number(&mut line, b" items ", summary.items)?;
    put_number(&mut line, b" odd ", summary.odd)?;
    put_number(&mut line, b" skipped ", summary.skipped)?;
    put_first(&mut line, summary.first)?;
    line.push(b'\n')?;
    Ok(line)
}

/// Appends `words`, and then the number in decimal.
fn put_number<A: Allocator>(line: &mut Vec<u8, A>, words: &[u8], number: u64) -> Result<(), Memory>
    ensures { OnOk result (line.new.items ≡ line.old.items ++ (words.now ++ decimal number)) }
{
    line.extend_from_slice(words)?;
    append_number(line, number)
}

/// Appends the beginning and the number of the first skipped line, if there is one.
fn put_first<A: Allocator>(
    line: &mut Vec<u8, A>,
    first: Option<SkippedLine<'_>>,
) -> Result<(), Memory>
    ensures { OnOk result (line.new.items ≡ line.old.items ++ first_text first.entry) }
{
    let Some(first) = first else {
        return Ok(());
    };
    line.extend_from_slice(b" first ")?;
    put_shown(line, first.start)?;
    put_number(line, b" at ", first.at)
}

/// Appends the bytes in printed form.
fn put_shown<A: Allocator>(line: &mut Vec<u8, A>, text: &[u8]) -> Result<(), Memory>
    ensures { OnOk result (line.new.items ≡ line.old.items ++ map shown text.now) }
{
    for byte in text {
        line.push(shown(*byte))?;
    }
    Ok(())
}

/// The printed form of a byte: a question mark for a space and for any byte that isn't printable ASCII. Any other byte is
/// unchanged.
fn shown(byte: u8) -> u8
    ensures { result ≡ shown byte }
{
    if byte.is_ascii_graphic() { byte } else { b'?' }
}
