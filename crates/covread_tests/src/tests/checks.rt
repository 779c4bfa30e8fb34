//! Tests the summary line of a check, with ample memory.

use super::wrappers::{checked, checked_gcov, told, without_shape};
use super::{check_bytes, check_fault};
use covcheck::TextSummary;
use covdata::ReadFault;
use std::process::Abort;
use std::test::*;

/// Checks an input's summary line, or its error.
fn check(
    rt: &(impl Abort + AllocGlobal),
    given: Result<TextSummary<'_>, ReadFault>,
    wanted: &[u8],
) -> Result<(), Fail> {
    match given {
        Ok(summary) => check_bytes(rt, &told(rt.alloc(), &summary)?, wanted),
        Err(fault) => check_fault(rt, &fault, wanted)?,
    }
    Ok(())
}

#[test]
fn checked_tracefiles(rt: HostRuntime) -> Result<(), Fail> {
    for (text, wanted) in TRACEFILES {
        check(&rt, checked(rt.alloc(), text), wanted)?;
    }
    Ok(())
}

/// The summary shows at most 16 bytes of the first skipped line: the colons, spaces and tabs at its front, and what follows them up
/// to the next colon, space or tab. Other bytes, such as a comma or a `<`, don't end the shown bytes. Bytes from 33 to 126 are
/// unchanged, and each other byte is a `?`. Input 2 has an empty line, and input 3 is empty. Input 5 begins with a line of a tab
/// and spaces, and input 7 with a byte order mark. A record whose key has no colon is skipped.
const TRACEFILES: &[(&[u8], &[u8])] = &[
    (
        b"TN:t
SF:/a.c
FN:3,main
FNDA:2,main
FNL:0,3,9
FNA:0,2,main

DA:3,2
DA:4,0
BRDA:3,0,0,-
LF:2
LH:2
end_of_record
",
        b"sections 1 items 5 odd 1 skipped 2 first FNL at 5\n",
    ),
    (
        b"<html>\n\n<body class=\"x\">\n</body>\n",
        b"sections 0 items 0 odd 0 skipped 3 first <html> at 1\n",
    ),
    (b"", b"sections 0 items 0 odd 0 skipped 0\n"),
    (
        b"\n DA:1,1\n",
        b"sections 0 items 0 odd 0 skipped 1 first ?DA at 2\n",
    ),
    (
        b"\t  \n:x\n",
        b"sections 0 items 0 odd 0 skipped 2 first ??? at 1\n",
    ),
    (
        b":x\tDA\n",
        b"sections 0 items 0 odd 0 skipped 1 first :x at 1\n",
    ),
    (
        b"\xEF\xBB\xBFTN:t\n",
        b"sections 0 items 0 odd 0 skipped 1 first ???TN at 1\n",
    ),
    (
        b"abcdefghijklmnopq:1\n",
        b"sections 0 items 0 odd 0 skipped 1 first abcdefghijklmnop at 1\n",
    ),
    (
        b"FOO,1:2\n",
        b"sections 0 items 0 odd 0 skipped 1 first FOO,1 at 1\n",
    ),
    (
        b"a<b\n",
        b"sections 0 items 0 odd 0 skipped 1 first a<b at 1\n",
    ),
    (
        b"!~\x7F\x80\x1F:1\n",
        b"sections 0 items 0 odd 0 skipped 1 first !~??? at 1\n",
    ),
    (
        b"TN:t\nBRDA 1\n",
        b"sections 0 items 0 odd 0 skipped 1 first BRDA at 2\n",
    ),
    (
        b"DA\nBRDA\nFN 3,main\nend_of_recor\n",
        b"sections 0 items 0 odd 0 skipped 4 first DA at 1\n",
    ),
    (b"FNL:0,3,9\nSF:/a.c\n", b"OpenEnd\n"),
    (b"SF:/a.c\nFNL:0,3,9\nDA:1\n", b"BadLine at 3\n"),
];

#[test]
fn checked_annotated_source(rt: HostRuntime) -> Result<(), Fail> {
    for (text, wanted) in ANNOTATED_SOURCE {
        check(&rt, checked_gcov(rt.alloc(), text), wanted)?;
    }
    Ok(())
}

/// The second input is a tracefile, so all its lines are skipped.
const ANNOTATED_SOURCE: &[(&[u8], &[u8])] = &[
    (
        b"        -:    0:Source:tmp.c
        -:    0:Runs:1
function main called 1 returned 100% blocks executed 80%
        1:    2:int main(void)

branch  0 taken 2 (fallthrough)
call    2 returned 3
unconditional  3 taken 1
",
        b"sections 1 items 3 odd 0 skipped 2 first call at 7\n",
    ),
    (
        b"TN:t\nSF:/a.c\nDA:1,1\nend_of_record\n",
        b"sections 0 items 0 odd 0 skipped 4 first TN at 1\n",
    ),
    (b"", b"sections 0 items 0 odd 0 skipped 0\n"),
    (b"call    2 returned 3\n1:1:x\n", b"NoSource at 2\n"),
];

#[test]
fn texts_with_and_without_items(rt: HostRuntime) -> Result<(), Fail> {
    for (text, wanted) in WITH_AND_WITHOUT_ITEMS {
        assert!(rt;
            checked(rt.alloc(), text)?.has_item() == *wanted,
            "{text:?}"
        );
    }
    Ok(())
}

const WITH_AND_WITHOUT_ITEMS: &[(&[u8], bool)] = &[
    (b"SF:/a.c\nDA:1,0\nend_of_record\n", true),
    (b"SF:/a.c\nend_of_record\n", false),
    (b"<html>\n", false),
];

#[test]
fn lines_with_and_without_a_shape(rt: HostRuntime) {
    for line in WITH_SHAPE {
        assert!(rt; !without_shape(line), "{line:?}");
    }
    for line in WITHOUT_SHAPE {
        assert!(rt; without_shape(line), "{line:?}");
    }
}

/// The six known shapes.
const WITH_SHAPE: &[&[u8]] = &[
    b"------",
    b"function f called 1",
    b"branch 0 never executed",
    b"branch 0 taken 1",
    b"1: 2-block 3",
    b"1: 2:x",
];

/// Lines of no known shape, two of them blank.
const WITHOUT_SHAPE: &[&[u8]] = &[
    b"",
    b"  ",
    b"call 0 returned 1",
    b"branch 0",
    b"1: 2",
    b"File 'a.c'",
];
