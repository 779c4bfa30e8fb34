//! Tests the reader of gcov's annotated source: the items that it returns, and inputs that no session passes to it.

use super::wrappers::{annotated, annotated_packed, is_packed, read};
use super::{Counted, check_counted};
use covdata::ReadFault;
use std::process::Abort;
use std::test::*;

mod items;
mod real;

/// A packed submission of gcov's output equals the submission of a tracefile with the same items, but not a submission of another
/// test.
#[test]
fn packed(rt: HostRuntime) -> Result<(), Fail> {
    let text = b"        -:    0:Source:tmp.c
        3:    3:  if (x)
        3:    3-block  2
branch  0 taken 2 (fallthrough)
branch  1 never executed
    #####:    4:  f();
";
    let wanted = b"TN:t\nSF:tmp.c\nDA:3,3\nBRDA:3,2,0,2\nBRDA:3,2,1,-\nDA:4,0\nend_of_record\n";
    let packed = annotated_packed(rt.alloc(), b"t", text)?;
    assert!(rt; is_packed(&packed, &read(rt.alloc(), wanted)?));
    assert!(rt; !is_packed(&packed, &annotated(rt.alloc(), b"u", text)?));
    Ok(())
}

/// Checks the numbers of gcov's output, or its error.
fn check(rt: &(impl Abort + AllocGlobal), test: &[u8], text: &[u8], wanted: Counted) {
    check_counted(rt, annotated(rt.alloc(), test, text), wanted);
}

/// Reads prefixes of one input, each of one line more.
#[test]
fn first_lines(rt: HostRuntime) -> Result<(), Fail> {
    let mut text: Vec<u8> = Vec::new(rt.alloc());
    for (line, wanted) in FIRST_LINES {
        text.extend_from_slice(line)?;
        check(&rt, b"t", text.as_slice(), *wanted);
    }
    Ok(())
}

/// The lines of an input, each with the numbers of the input up to the line.
const FIRST_LINES: &[(&[u8], Counted)] = &[
    (b"        -:    0:Source:tmp.c\n", Ok((1, 0, 0))),
    (b"        -:    0:Runs:1\n", Ok((1, 0, 0))),
    (b"        -:    1:#include <stdio.h>\n", Ok((1, 0, 0))),
    (
        b"function main called 1 returned 100% blocks executed 80%\n",
        Err(ReadFault::LostFunction),
    ),
    (b"        1:    2:int main(void)\n", Ok((1, 2, 0))),
    (b"       3*:    3:  if (x)\n", Ok((1, 3, 0))),
    (b"        3:    3-block  2\n", Ok((1, 3, 0))),
    (b"branch  0 taken 2 (fallthrough)\n", Ok((1, 4, 0))),
    (b"branch  1 taken 1\n", Ok((1, 5, 0))),
    (b"call    2 returned 3\n", Ok((1, 5, 0))),
    (b"    #####:    4:  f();\n", Ok((1, 6, 0))),
    (b"branch  0 never executed\n", Ok((1, 7, 0))),
    (b"    =====:    5:  g();\n", Ok((1, 8, 0))),
];

/// Test names that no tracefile can hold are rejected. No session passes such a name to the reader.
#[test]
fn names(rt: HostRuntime) {
    check(&rt, b"t", b"", Ok((0, 0, 0)));
    for name in UNLAWFUL_NAMES {
        check(&rt, name, b"", Err(ReadFault::BadTest));
    }
}

const UNLAWFUL_NAMES: &[&[u8]] = &[b"a\nb", b"\n", b"a\r", b"\r"];
