//! Words of a call that clap doesn't take as they are written.

ghost use Rattle.std.specs.Prelude.{◌≡◌, IfOk, map};
ghost use Rattle.std.specs.String.{string_bytes};
ghost use Rattle.covcommand.specs.Spelling.{spelled_out as spelled_words, spelled_word as spelled_if};

use covdata::Memory;
use std::alloc::Global;

/// The words of a call as `command` takes them: `--one-test` alone becomes `--one-test=`, the empty name. Otherwise clap would take the
/// next word, a file, for the name. Words from `--` on are names, and stay as they are.
pub fn spelled_out(alloc: Global, words: &[String]) -> Result<Vec<String>, Memory>
    ensures { IfOk result (λ spelled. map string_bytes spelled.items ≡ spelled_words (map string_bytes words.now)) }
{
    let mut spelled = Vec::with_capacity(alloc, words.len())?;
    let mut are_names = false;
    for word in words {
        are_names = are_names || word.as_str() == "--";
        spelled.push(spelled_word(alloc, word.as_str(), are_names)?)?;
    }
    Ok(spelled)
}

/// A word as `command` takes it. `is_name` says that the word stays as it is.
fn spelled_word(alloc: Global, word: &str, is_name: bool) -> Result<String, Memory>
    ensures { IfOk result (λ spelled. string_bytes spelled ≡ spelled_if is_name word.now) }
{
    if !is_name && word == "--one-test" {
        Ok(String::from_str(alloc, "--one-test=")?)
    } else {
        Ok(String::from_str(alloc, word)?)
    }
}
