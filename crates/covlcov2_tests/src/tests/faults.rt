//! Tests the errors of inputs.

use super::check_fault;
use std::process::Abort;
use std::test::*;

/// An input, and its error.
type Example = (&'static [u8], &'static str);

/// Checks the errors of examples.
fn check_all(rt: &(impl Abort + AllocGlobal), examples: &[Example]) -> Result<(), Fail> {
    for (text, wanted) in examples {
        check_fault(rt, text, wanted)?;
    }
    Ok(())
}

#[test]
fn bad_lines(rt: HostRuntime) -> Result<(), Fail> {
    check_all(&rt, BAD_LINES)
}

/// Lines that have a known key, but not the key's form.
const BAD_LINES: &[Example] = &[
    (b"FN:3,\n", "BadLine at 1"),
    (b"FN:x,f\n", "BadLine at 1"),
    (b"FNL:0\n", "BadLine at 1"),
    (b"FNL:0,\n", "BadLine at 1"),
    (b"FNL:0,3,\n", "BadLine at 1"),
    (b"FNL:0,3,5,6\n", "BadLine at 1"),
    (b"FNL:,3\n", "BadLine at 1"),
    (b"FNL:0,-3\n", "BadLine at 1"),
    (b"SF:a\nFNL:0,3\nFNA:0,2\n", "BadLine at 3"),
    (b"FNA:0,2,\n", "BadLine at 1"),
    (b"FNA:0,,f\n", "BadLine at 1"),
    (b"FNA:x,2,f\n", "BadLine at 1"),
    (b"SF:a\nBRDA:5,0,1\n", "BadLine at 2"),
    (b"BRDA:5,x0,1,2\n", "BadLine at 1"),
    (b"BRDA:5,e,1,2\n", "BadLine at 1"),
    (b"BRDA:5,0,,1\n", "BadLine at 1"),
    (b"BRDA:5,0,a,b\n", "BadLine at 1"),
    (b"BRDA:5,0,a,\n", "BadLine at 1"),
    (b"BRDA:5,U0,1\n", "BadLine at 1"),
    (b"DA:1\n", "BadLine at 1"),
];

#[test]
fn large_numbers(rt: HostRuntime) -> Result<(), Fail> {
    check_all(&rt, LARGE_NUMBERS)
}

/// Numbers that are too large, also of excluded branches.
const LARGE_NUMBERS: &[Example] = &[
    (b"FN:18446744073709551616,3,f\n", "NumberTooLarge at 1"),
    (b"FNL:18446744073709551616,3\n", "NumberTooLarge at 1"),
    (b"FNL:3,18446744073709551616\n", "NumberTooLarge at 1"),
    (
        b"SF:a\nFNL:0,3\nFNA:18446744073709551616,1,f\n",
        "NumberTooLarge at 3",
    ),
    (
        b"FNA:0,340282366920938463463374607431768211456,f\n",
        "NumberTooLarge at 1",
    ),
    (b"BRDA:18446744073709551616,0,x,1\n", "NumberTooLarge at 1"),
    (b"BRDA:1,18446744073709551616,x,1\n", "NumberTooLarge at 1"),
    (b"BRDA:1,U0,18446744073709551616,1\n", "NumberTooLarge at 1"),
    (
        b"BRDA:1,0,x,340282366920938463463374607431768211456\n",
        "NumberTooLarge at 1",
    ),
];

#[test]
fn misplaced_lines(rt: HostRuntime) -> Result<(), Fail> {
    check_all(&rt, MISPLACED_LINES)
}

/// Lines in the wrong place.
const MISPLACED_LINES: &[Example] = &[
    (b"SF:a\nFNA:0,1,f\n", "Misplaced at 2"),
    (b"SF:a\nFNA:0,1,f\nFNL:0,3\n", "Misplaced at 2"),
    (b"SF:a\nFNL:1,3\nFNA:0,1,f\n", "Misplaced at 3"),
    (
        b"SF:a\nFNL:0,3\nend_of_record\nSF:b\nFNA:0,1,f\n",
        "Misplaced at 5",
    ),
    (b"FNL:0,3\nFNA:0,1,f\n", "Misplaced at 2"),
    (b"FNL:0,3\nSF:a\nFNA:0,1,f\n", "Misplaced at 3"),
    (
        b"SF:a\nFNL:0,3\nend_of_record\nFNA:0,1,f\n",
        "Misplaced at 4",
    ),
    (b"FN:1,2,f\n", "Outside at 1"),
    (b"BRDA:1,0,0,1\n", "Outside at 1"),
    (b"BRDA:1,0,x,1\n", "Outside at 1"),
    (b"DA:1,1\n", "Outside at 1"),
    (b"FNF:1\n", "Outside at 1"),
    (b"SF:a\nend_of_record\nend_of_record\n", "Outside at 3"),
    (b"SF:a\nSF:b\n", "Inside at 2"),
    (b"SF:a\nTN:t\n", "Inside at 2"),
    (b"SF:\n", "EmptyPath at 1"),
    (b"SF:a\nFNL:0,3\n", "OpenEnd"),
];
