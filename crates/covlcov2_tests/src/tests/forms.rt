//! Tests the forms of lines, one by one and combined.

use super::reads_as;
use std::process::Abort;
use std::test::*;

/// An example: its name, a tracefile of LCOV 2, and a tracefile of version 1 with the same submission.
type Example = (&'static str, &'static [u8], &'static [u8]);

/// Checks that each tracefile of LCOV 2 is read as its tracefile of version 1.
fn check_all(rt: &(impl Abort + AllocGlobal), examples: &[Example]) -> Result<(), Fail> {
    for (name, text, wanted) in examples {
        assert!(rt; reads_as(rt.alloc(), text, wanted)?, "{name}");
    }
    Ok(())
}

#[test]
fn functions(rt: HostRuntime) -> Result<(), Fail> {
    check_all(&rt, FUNCTIONS)
}

/// Forms of `FN:`, `FNL:` and `FNA:` lines.
const FUNCTIONS: &[Example] = &[
    (
        "a function with an end line",
        b"SF:a\nFN:3,5,main\nFNDA:2,main\nend_of_record\n",
        b"SF:a\nFN:3,main\nFNDA:2,main\nend_of_record\n",
    ),
    (
        "a function without an end line",
        b"SF:a\nFN:3,main\nFNDA:2,main\nend_of_record\n",
        b"SF:a\nFN:3,main\nFNDA:2,main\nend_of_record\n",
    ),
    (
        "no name follows what could be an end line",
        b"SF:a\nFN:3,5,\nFNDA:1,5,\nend_of_record\n",
        b"SF:a\nFN:3,5,\nFNDA:1,5,\nend_of_record\n",
    ),
    (
        "a name that begins with digits and a comma",
        b"SF:a\nFN:3,5,7,f\nend_of_record\n",
        b"SF:a\nFN:3,7,f\nend_of_record\n",
    ),
    (
        "an end line of any size",
        b"SF:a\nFN:3,99999999999999999999999,f\nend_of_record\n",
        b"SF:a\nFN:3,f\nend_of_record\n",
    ),
    (
        "a leader with an end line",
        b"SF:a\nFNL:0,3,5\nFNA:0,2,main\nend_of_record\n",
        b"SF:a\nFN:3,main\nFNDA:2,main\nend_of_record\n",
    ),
    (
        "two functions of one index",
        b"SF:a\nFNL:7,3\nFNA:7,2,f\nFNA:7,0,g\nend_of_record\n",
        b"SF:a\nFN:3,f\nFNDA:2,f\nFN:3,g\nFNDA:0,g\nend_of_record\n",
    ),
    (
        "two indexes",
        b"SF:a\nFNL:0,3\nFNL:1,9\nFNA:1,5,g\nFNA:0,2,f\nend_of_record\n",
        b"SF:a\nFN:9,g\nFNDA:5,g\nFN:3,f\nFNDA:2,f\nend_of_record\n",
    ),
    (
        "an index given twice means the nearest line above",
        b"SF:a\nFNL:0,3\nFNA:0,1,f\nFNL:0,9\nFNA:0,2,g\nend_of_record\n",
        b"SF:a\nFN:3,f\nFNDA:1,f\nFN:9,g\nFNDA:2,g\nend_of_record\n",
    ),
    (
        "a name with a comma",
        b"SF:a\nFNL:0,3\nFNA:0,2,f(int, char)\nend_of_record\n",
        b"SF:a\nFN:3,f(int, char)\nFNDA:2,f(int, char)\nend_of_record\n",
    ),
    (
        "a count below 0",
        b"SF:a\nFNL:0,3\nFNA:0,-4,f\nend_of_record\n",
        b"SF:a\nFN:3,f\nFNDA:0,f\nend_of_record\n",
    ),
    (
        "the greatest count",
        b"SF:a
FNL:0,3,99999999999999999999999
FNA:0,340282366920938463463374607431768211455,f
end_of_record
",
        b"SF:a\nFN:3,f\nFNDA:340282366920938463463374607431768211455,f\nend_of_record\n",
    ),
    (
        "the greatest index",
        b"SF:a\nFNL:18446744073709551615,3\nFNA:18446744073709551615,1,f\nend_of_record\n",
        b"SF:a\nFN:3,f\nFNDA:1,f\nend_of_record\n",
    ),
    (
        "zeros before an index",
        b"SF:a\nFNL:007,3\nFNA:7,1,f\nend_of_record\n",
        b"SF:a\nFN:3,f\nFNDA:1,f\nend_of_record\n",
    ),
];

#[test]
fn totals(rt: HostRuntime) -> Result<(), Fail> {
    check_all(&rt, TOTALS)
}

/// Totals above and below an `FNL:` line.
const TOTALS: &[Example] = &[
    (
        "totals of functions below a leader aren't checked",
        b"SF:a\nFNL:0,3\nFNA:0,2,f\nFNA:0,0,g\nFNF:1\nFNH:1\nend_of_record\n",
        b"SF:a\nFN:3,f\nFNDA:2,f\nFN:3,g\nFNDA:0,g\nend_of_record\n",
    ),
    (
        "a total above the leader is checked",
        b"SF:a\nFNF:1\nFNL:0,3\nFNA:0,2,f\nFNA:0,0,g\nend_of_record\n",
        b"SF:a\nFNF:1\nFN:3,f\nFNDA:2,f\nFN:3,g\nFNDA:0,g\nend_of_record\n",
    ),
    (
        "other totals below a leader are checked",
        b"SF:a\nFNL:0,3\nDA:1,2\nLF:7\nLH:7\nBRF:7\nBRH:7\nend_of_record\n",
        b"SF:a\nDA:1,2\nLF:7\nLH:7\nBRF:7\nBRH:7\nend_of_record\n",
    ),
];

#[test]
fn branches(rt: HostRuntime) -> Result<(), Fail> {
    check_all(&rt, BRANCHES)
}

/// Forms of `BRDA:` lines.
const BRANCHES: &[Example] = &[
    (
        "branches with numbers",
        b"SF:a\nBRDA:5,0,0,2\nBRDA:5,0,1,-\nend_of_record\n",
        b"SF:a\nBRDA:5,0,0,2\nBRDA:5,0,1,-\nend_of_record\n",
    ),
    (
        "an exception and a branch that falls through",
        b"SF:a\nBRDA:5,e0,0,2\nBRDA:5,f0,1,3\nBRDA:5,ef1,0,4\nend_of_record\n",
        b"SF:a\nBRDA:5,0,0,2\nBRDA:5,0,1,3\nBRDA:5,1,0,4\nend_of_record\n",
    ),
    (
        "excluded branches",
        b"SF:a\nBRDA:5,U0,0,2\nBRDA:5,eU0,1,3\nBRDA:5,0,2,4\nend_of_record\n",
        b"SF:a\nBRDA:5,0,2,4\nend_of_record\n",
    ),
    (
        "expressions",
        b"SF:a\nBRDA:5,0,a > b,2\nBRDA:5,0,!(a > b),-\nend_of_record\n",
        b"SF:a\nBRDA:5,0,0,2\nBRDA:5,0,1,-\nend_of_record\n",
    ),
    (
        "expressions with commas",
        b"SF:a\nBRDA:5,0,f(a, b),2\nBRDA:5,0,0,1,3\nend_of_record\n",
        b"SF:a\nBRDA:5,0,0,2\nBRDA:5,0,1,3\nend_of_record\n",
    ),
    (
        "each block has its own next number",
        b"SF:a\nBRDA:5,0,x,1\nBRDA:5,1,y,2\nBRDA:6,0,z,3\nBRDA:5,0,u,4\nend_of_record\n",
        b"SF:a\nBRDA:5,0,0,1\nBRDA:5,1,0,2\nBRDA:6,0,0,3\nBRDA:5,0,1,4\nend_of_record\n",
    ),
    (
        "an excluded expression takes a number too",
        b"SF:a\nBRDA:5,0,x,1\nBRDA:5,U0,y,2\nBRDA:5,0,z,3\nend_of_record\n",
        b"SF:a\nBRDA:5,0,0,1\nBRDA:5,0,2,3\nend_of_record\n",
    ),
    (
        "an expression comes after the numbers above it",
        b"SF:a\nBRDA:5,0,4,1\nBRDA:5,0,x,2\nBRDA:5,U0,5,3\nBRDA:5,0,y,4\nend_of_record\n",
        b"SF:a\nBRDA:5,0,4,1\nBRDA:5,0,5,2\nBRDA:5,0,7,4\nend_of_record\n",
    ),
    (
        "numbers below an expression",
        b"SF:a\nBRDA:5,0,x,1\nBRDA:5,0,0,2\nBRDA:5,0,0,3\nBRDA:5,0,y,4\nend_of_record\n",
        b"SF:a\nBRDA:5,0,0,1\nBRDA:5,0,1,2\nBRDA:5,0,2,3\nBRDA:5,0,3,4\nend_of_record\n",
    ),
    (
        "after the greatest number, not the last",
        b"SF:a\nBRDA:5,0,7,1\nBRDA:5,0,2,2\nBRDA:5,0,x,3\nend_of_record\n",
        b"SF:a\nBRDA:5,0,7,1\nBRDA:5,0,2,2\nBRDA:5,0,8,3\nend_of_record\n",
    ),
    (
        "an expression of another block changes no number",
        b"SF:a\nBRDA:5,0,3,1\nBRDA:5,1,x,2\nBRDA:5,0,3,4\nBRDA:6,0,9,8\nend_of_record\n",
        b"SF:a\nBRDA:5,0,3,1\nBRDA:5,1,0,2\nBRDA:5,0,3,4\nBRDA:6,0,9,8\nend_of_record\n",
    ),
    (
        "blocks in turn",
        b"SF:a\nBRDA:5,0,3,1\nBRDA:5,1,8,2\nBRDA:5,0,1,4\nBRDA:5,0,x,8\nBRDA:5,1,y,16\nend_of_record\n",
        b"SF:a\nBRDA:5,0,3,1\nBRDA:5,1,8,2\nBRDA:5,0,1,4\nBRDA:5,0,4,8\nBRDA:5,1,9,16\nend_of_record\n",
    ),
    (
        "an excluded number counts",
        b"SF:a\nBRDA:5,U0,6,1\nBRDA:5,0,x,2\nend_of_record\n",
        b"SF:a\nBRDA:5,0,7,2\nend_of_record\n",
    ),
    (
        "no number is above the largest",
        b"SF:a\nBRDA:5,0,18446744073709551615,1\nBRDA:5,0,x,2\nend_of_record\n",
        b"SF:a\nBRDA:5,0,18446744073709551615,1\nBRDA:5,0,18446744073709551615,2\nend_of_record\n",
    ),
    (
        "words of coverage.py",
        b"SF:a\nBRDA:5,e0,jump to line 7,1\nBRDA:5,e0,jump to the function exit,0\nend_of_record\n",
        b"SF:a\nBRDA:5,0,0,1\nBRDA:5,0,1,0\nend_of_record\n",
    ),
];

#[test]
fn skipped_lines(rt: HostRuntime) -> Result<(), Fail> {
    check_all(&rt, SKIPPED_LINES)
}

/// Lines without a meaning are skipped.
const SKIPPED_LINES: &[Example] = &[
    (
        "version, conditions and comments",
        b"SF:a\nVER:2f1\nMCDC:5,2,t,1,0,a && b\nMCF:2\nMCH:1\n# a comment\n\nDA:5,1\nend_of_record\n",
        b"SF:a\nDA:5,1\nend_of_record\n",
    ),
    (
        "keys that no LCOV has",
        b"SF:a\nFNX:1\nFNLA:0,3\nFNA\nend_of_record\n",
        b"SF:a\nFNX:1\nend_of_record\n",
    ),
];

#[test]
fn sections(rt: HostRuntime) -> Result<(), Fail> {
    check_all(&rt, SECTIONS)
}

/// Whole inputs: with several sections, with carriage returns, or with lines outside of sections.
const SECTIONS: &[Example] = &[
    (
        "indexes of two sections",
        b"TN:t\nSF:a\nFNL:0,3\nFNA:0,1,f\nend_of_record\nSF:b\nBRDA:1,0,x,1\nFNL:0,9\nFNA:0,2,f\nend_of_record\n",
        b"TN:t\nSF:a\nFN:3,f\nFNDA:1,f\nend_of_record\nSF:b\nBRDA:1,0,0,1\nFN:9,f\nFNDA:2,f\nend_of_record\n",
    ),
    (
        "expressions of two sections",
        b"SF:a\nBRDA:1,0,x,1\nend_of_record\nSF:b\nBRDA:1,0,x,1\nend_of_record\n",
        b"SF:a\nBRDA:1,0,0,1\nend_of_record\nSF:b\nBRDA:1,0,0,1\nend_of_record\n",
    ),
    (
        "totals of a section without a leader",
        b"SF:a\nFNL:0,3\nend_of_record\nSF:b\nFNF:7\nend_of_record\n",
        b"SF:a\nend_of_record\nSF:b\nFNF:7\nend_of_record\n",
    ),
    (
        "carriage returns",
        b"SF:a\r\nFNL:0,3\r\nFNA:0,1,f\r\r\nBRDA:1,e0,0,-\r\nend_of_record\r",
        b"SF:a\nFN:3,f\nFNDA:1,f\nBRDA:1,0,0,-\nend_of_record\n",
    ),
    (
        "leaders and excluded branches outside of sections",
        b"FNL:0,3\nBRDA:1,U0,0,1\nBRDA:1,U0,x,1\nSF:a\nend_of_record\nFNL:0,3\n",
        b"SF:a\nend_of_record\n",
    ),
    (
        "a text of version 1",
        b"TN:t\nSF:a\nFN:1,f\nFNDA:2,f\nFNF:1\nFNH:1\nBRDA:1,0,0,-\nBRF:1\nBRH:0\nDA:1,2,k\nDA:2,0\nLF:2\nLH:1\nend_of_record\n",
        b"TN:t\nSF:a\nFN:1,f\nFNDA:2,f\nFNF:1\nFNH:1\nBRDA:1,0,0,-\nBRF:1\nBRH:0\nDA:1,2,k\nDA:2,0\nLF:2\nLH:1\nend_of_record\n",
    ),
];
