//! Turns arguments of the command line into `String`s. Each argument must be UTF-8.

ghost use Rattle.std.specs.Prelude.{◌≡◌, ◌++◌, ◌∷◌, [], IfOk, IfErr, OnOk, codes, encode_utf8, map};
ghost use Rattle.std.specs.Str.{IsUtf8};
ghost use Rattle.std.specs.String.{string_bytes};
ghost use Rattle.covcommand.specs.Word.{shown, not_text, IsWordFault};
ghost use Rattle.covcommand.specs.declared.fault.CommandFault.TheVariants as faults;

use crate::fault::CommandFault;
use covdata::Memory;
use itoa::Buffer;
use std::alloc::Global;

/// Returns the argument `word` as a `String`. The argument has the index `place`, and the program's name has index 1.
///
/// Errors: `Line` if the argument isn't UTF-8, and `Memory`. The text of `Line` has the argument's index, and the argument with `?`
/// for each byte that isn't printable ASCII.
pub fn word_at(alloc: Global, place: usize, word: &[u8]) -> Result<String, CommandFault>
    ensures text { IfOk result (λ text. string_bytes text ≡ word.now) }
    ensures takes { IsUtf8 word.now → IfErr result (λ fault. fault ≡ faults.Memory) }
    ensures told { IfErr result (IsWordFault place word.now) }
{
    match std::str::from_utf8(word) {
        Ok(text) => Ok(String::from_str(alloc, text)?),
        Err(_) => Err(CommandFault::Line(not_text(alloc, place, word)?)),
    }
}

/// Returns the error's text: the argument `word` at index `place` isn't UTF-8.
fn not_text(alloc: Global, place: usize, word: &[u8]) -> Result<String, Memory>
    ensures { IfOk result (λ text. string_bytes text ≡ not_text place word.now) }
{
    let mut text = String::from_str(alloc, "error: word ")?;
    text.push_str(Buffer::new().format(place))?;
    text.push_str(" isn't UTF-8: ")?;
    push_shown(&mut text, word)?;
    text.push_str("\n")?;
    Ok(text)
}

/// Appends the printed form of each byte to `text`.
fn push_shown(text: &mut String, bytes: &[u8]) -> Result<(), Memory>
    ensures { OnOk result (string_bytes text.new ≡ string_bytes text.old ++ map shown bytes.now) }
{
    for byte in bytes {
        text.push(shown(*byte))?;
    }
    Ok(())
}

/// The printed form of a byte: printable ASCII, including the space, is unchanged; any other byte becomes a question mark.
fn shown(byte: u8) -> char
    ensures { encode_utf8 result ≡ shown byte ∷ [] }
{
    match byte {
        b' '..=b'~' => byte as char,
        _ => '?',
    }
}
