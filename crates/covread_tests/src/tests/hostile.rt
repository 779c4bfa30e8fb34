//! Tests inputs that are cut off, numbers of a million digits, and names with unusual bytes.

use super::wrappers::{annotated, read};
use super::{Counted, check_counted, check_told};
use covdata::{LineFault, ReadFault};
use std::alloc::Global;
use std::process::Abort;
use std::test::*;

/// The error of a line that is invalid by itself.
fn fault_at(at: u64, fault: LineFault) -> Counted {
    Err(ReadFault::Line { at, fault })
}

/// The expected result for the first `n` bytes of the input in `first_bytes`.
fn wanted_of(n: usize) -> Counted {
    match n {
        0..=7 => Ok((0, 0, 0)),
        8 => fault_at(2, LineFault::EmptyPath),
        16..=18 => fault_at(3, LineFault::BadLine),
        23..=25 => fault_at(4, LineFault::BadLine),
        30 => fault_at(5, LineFault::BadLine),
        35 => fault_at(6, LineFault::BadLine),
        50..=51 => Ok((1, 2, 0)),
        _ => Err(ReadFault::OpenEnd),
    }
}

/// Reads every prefix of an input. The last line of a prefix may lack its line feed.
#[test]
fn first_bytes(rt: HostRuntime) {
    let text = b"TN:t\nSF:/a.c\nDA:1,2\nDA:2,0\nLF:2\nLH:1\nend_of_record\n";
    assert!(rt; text.len() == 51);
    for n in 0..=text.len() {
        check_counted(&rt, read(rt.alloc(), &text[..n]), wanted_of(n));
    }
}

/// Appends a million zeros for a `*`, a million nines for a `+`, and any other byte as it is.
fn push_filled(filled: &mut Vec<u8>, byte: u8) -> Result<(), Fail> {
    let (digit, times) = match byte {
        b'*' => (b'0', 1_000_000),
        b'+' => (b'9', 1_000_000),
        other => (other, 1),
    };
    for _ in 0..times {
        filled.push(digit)?;
    }
    Ok(())
}

/// The text with a million zeros for each `*`, and a million nines for each `+`.
fn filled(alloc: Global, text: &[u8]) -> Result<Vec<u8>, Fail> {
    let mut filled = Vec::new(alloc);
    for byte in text {
        push_filled(&mut filled, *byte)?;
    }
    Ok(filled)
}

/// Checks the printed submission, or the error, of an input. First replaces `*` and `+`, by `filled`, in the input and in the
/// expected text.
fn check_filled(
    rt: &(impl Abort + AllocGlobal),
    name: &str,
    text: &[u8],
    wanted: &[u8],
) -> Result<(), Fail> {
    let text = filled(rt.alloc(), text)?;
    let wanted = filled(rt.alloc(), wanted)?;
    check_told(rt, name, read(rt.alloc(), &text), &wanted)
}

#[test]
fn long_numbers(rt: HostRuntime) -> Result<(), Fail> {
    for (name, text, wanted) in LONG_NUMBERS {
        check_filled(&rt, name, text, wanted)?;
    }
    Ok(())
}

/// An example: its name, the input, and the printed submission or error.
type Example = (&'static str, &'static [u8], &'static [u8]);

/// Leading zeros of a number don't matter, nor do the digits of a negative count.
const LONG_NUMBERS: &[Example] = &[
    (
        "zeros in a path, a line number and a count",
        b"SF:*\nDA:*1,*2\nend_of_record\n",
        b"TN:\nSF:*\nDA:1,2\nend_of_record\n",
    ),
    (
        "zeros in a line number",
        b"SF:/a.c\nDA:*1,1\nend_of_record\n",
        b"TN:\nSF:/a.c\nDA:1,1\nend_of_record\n",
    ),
    (
        "nines in a count",
        b"SF:/a.c\nDA:1,+\nend_of_record\n",
        b"NumberTooLarge at 2\n",
    ),
    (
        "nines in a count below 0",
        b"SF:/a.c\nDA:1,-+\nend_of_record\n",
        b"TN:\nSF:/a.c\nDA:1,0\nend_of_record\n",
    ),
    (
        "a letter after nines",
        b"SF:/a.c\nDA:1,+x\nend_of_record\n",
        b"BadLine at 2\n",
    ),
];

#[test]
fn names(rt: HostRuntime) -> Result<(), Fail> {
    for (name, text, wanted) in NAMES {
        check_told(&rt, name, read(rt.alloc(), text), wanted)?;
    }
    Ok(())
}

/// Only an LF ends a line, and only CRs right before it are dropped. Every other byte can be a part of a name.
const NAMES: &[Example] = &[
    (
        "a CR in a name",
        b"TN:a\rb\nSF:/a.c\nend_of_record\n",
        b"TN:a\rb\nSF:/a.c\nend_of_record\n",
    ),
    (
        "three CRs before each LF",
        b"TN:a\r\r\r\nSF:/a.c\r\r\r\nDA:1,1,k\r\r\r\nend_of_record\r\r\r\n",
        b"TN:a\nSF:/a.c\nDA:1,1,k\nend_of_record\n",
    ),
    (
        "bytes 0 and 255",
        b"TN:\x00\xff\nSF:\xff\x00\nFN:1,\x00\xff\nDA:1,1,\x00\xff\nend_of_record\x00\n",
        b"TN:\x00\xff\nSF:\xff\x00\nFN:1,\x00\xff\nFNDA:0,\x00\xff\nDA:1,1,\x00\xff\nend_of_record\n",
    ),
];

/// Names in annotated source may have any byte but a line feed. Carriage returns at a line's end are stripped.
#[test]
fn bytes_of_annotated_names(rt: HostRuntime) -> Result<(), Fail> {
    let text = b"-:0:Source:\xff\r\x00\r\r\r\nfunction \x00\r\xff called 2\n1:3:\x00\xff\n";
    check_told(
        &rt,
        "bytes of annotated names",
        annotated(rt.alloc(), b"\x00\r\xff", text),
        b"TN:\x00\r\xff\nSF:\xff\r\x00\nFN:3,\x00\r\xff\nFNDA:2,\x00\r\xff\nDA:3,1\nend_of_record\n",
    )
}
