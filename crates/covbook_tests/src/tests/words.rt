//! Operations and answers that words describe.

use super::wrappers::{bytes_of, read, read_packed, text_of};
use covbook::{Answer, Op};
use covdata::Bytes;
use covreport::{PatternFault, Patterns};
use std::alloc::{AllocError, Global};
use std::process::Abort;
use std::test::*;

/// The value of a digit.
pub(super) fn number_of(digit: u8) -> u64 {
    u64::from(digit.wrapping_sub(b'0'))
}

/// The operation that these words describe. A submission is written as the lines of a section of `/a.c`, separated by semicolons.
/// The word `packed` makes it a packed submission. The tests of `rename` have names of one letter.
pub(super) fn op_of(alloc: Global, words: &[u8]) -> Result<Op, Fail> {
    if let Some(lines) = words.strip_prefix(b"submit ") {
        read(alloc, &section_of(alloc, lines)?)
    } else if let Some(lines) = words.strip_prefix(b"packed ") {
        read_packed(alloc, &section_of(alloc, lines)?)
    } else if let Some(test) = words.strip_prefix(b"drop ") {
        Ok(Op::DropTest(Bytes::of(alloc, test)?))
    } else if let Some([old, b' ', new]) = words.strip_prefix(b"rename ") {
        rename_op(alloc, *old, *new)
    } else {
        printing_op(alloc, words)
    }
}

fn rename_op(alloc: Global, old: u8, new: u8) -> Result<Op, Fail> {
    Ok(Op::Rename {
        old: Bytes::of(alloc, &[old])?,
        new: Bytes::of(alloc, &[new])?,
    })
}

/// The operation that prints a text.
fn printing_op(alloc: Global, words: &[u8]) -> Result<Op, Fail> {
    if let Some(patterns) = words.strip_prefix(b"extract ") {
        Ok(Op::Extract(list_of(alloc, patterns)?))
    } else if let Some(patterns) = words.strip_prefix(b"remove ") {
        Ok(Op::Remove(list_of(alloc, patterns)?))
    } else {
        plain_op(words)
    }
}

fn plain_op(words: &[u8]) -> Result<Op, Fail> {
    match words {
        b"report" => Ok(Op::Report),
        b"summary" => Ok(Op::Summary),
        _ => Err(Fail::new("no operation")),
    }
}

/// Splits the patterns at `|`, and returns their list.
fn list_of(alloc: Global, patterns: &[u8]) -> Result<Patterns, PatternFault> {
    let mut list = Patterns::new(alloc);
    for pattern in patterns.split(|byte| *byte == b'|') {
        list.add(alloc, pattern)?;
    }
    Ok(list)
}

/// A section of `/a.c` with these lines, which semicolons separate.
fn section_of(alloc: Global, lines: &[u8]) -> Result<Vec<u8>, AllocError> {
    let mut text = Vec::from_slice(alloc, b"TN:t\nSF:/a.c\n")?;
    for byte in lines {
        text.push(if *byte == b';' { b'\n' } else { *byte })?;
    }
    text.extend_from_slice(b"\nend_of_record\n")?;
    Ok(text)
}

/// The answer that these words describe: `a` with the three numbers of an accepted submission, `d` or `r` with the number of
/// sections that were dropped or renamed, `n` for an unknown test, and `c` with a line of `/a.c` and the two checksums that clash
/// there, each of one byte. All other words are the text of a text answer.
pub(super) fn answer_of(rt: &(impl Abort + AllocGlobal), words: &[u8]) -> Answer {
    match words {
        [b'a', number, items, odd] => Answer::Accepted {
            number: number_of(*number),
            items: number_of(*items),
            odd: number_of(*odd),
        },
        [b'd', sections] => Answer::Dropped {
            sections: number_of(*sections),
        },
        [b'r', sections] => Answer::Renamed {
            sections: number_of(*sections),
        },
        [b'n'] => Answer::NoSuchTest,
        [b'c', line, held, given] => clash_of(rt, *line, *held, *given),
        _ => text_of(rt, words),
    }
}

fn clash_of(rt: &(impl Abort + AllocGlobal), line: u8, held: u8, given: u8) -> Answer {
    Answer::Clash {
        file: bytes_of(rt, b"/a.c"),
        line: number_of(line),
        held: bytes_of(rt, &[held]),
        given: bytes_of(rt, &[given]),
    }
}
