//! Tests of `word_at`: arguments as text.

use super::put_fault;
use covcommand::{CommandFault, word_at};
use std::alloc::Global;
use std::process::Abort;
use std::test::*;

/// Indexes, arguments, and the expected texts or errors. A UTF-8 argument is returned unchanged. The error of any other argument
/// has its index, and its bytes with `?` for each unprintable one.
const WORDS: [(usize, &[u8], &str); 5] = [
    (2, b"my files/a.info", "my files/a.info"),
    (3, b"gr\xc3\xb6\xc3\x9fe.info", "größe.info"),
    (4, b"", ""),
    (3, b"a\xff.info", "2 2 error: word 3 isn't UTF-8: a?.info"),
    (
        12,
        b"\xc3( ~\x7f\n\x1b",
        "2 2 error: word 12 isn't UTF-8: ?( ~???",
    ),
];

#[test]
fn words_as_text(rt: HostRuntime) {
    for (place, word, wanted) in WORDS {
        check_word(&rt, place, word, wanted);
    }
}

/// Checks that `word_at` returns `wanted` for the argument `word` at index `place`, or an error with the text `wanted`.
fn check_word(rt: &(impl Abort + AllocGlobal), place: usize, word: &[u8], wanted: &str) {
    let given = told_of(rt, taken(rt.alloc(), place, word));
    assert!(rt; given.as_str() == wanted, "{given}");
}

/// Calls `word_at`. This function has no contract.
fn taken(alloc: Global, place: usize, word: &[u8]) -> Result<String, CommandFault> {
    word_at(alloc, place, word)
}

/// Returns the text in `taken`, or its error as text.
fn told_of(rt: &(impl Abort + AllocGlobal), taken: Result<String, CommandFault>) -> String {
    match taken {
        Ok(text) => text,
        Err(fault) => {
            let mut text = String::new(rt.alloc());
            put_fault(rt, &mut text, &fault);
            text
        }
    }
}
