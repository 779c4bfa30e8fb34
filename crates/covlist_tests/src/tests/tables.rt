//! Tables of files.

use super::forms::{Form, check_text};
use itoa::Buffer;
use std::process::Abort;
use std::test::*;

/// Two files. `src/a.c` has 7 lines (6 are hit), one function, which is hit, and no branches. `src/b.c` has 12 lines and 2
/// functions, none of which is hit, and 4 branches (one is hit).
pub(super) const TWO_FILES: &[u8] = b"\
TN:t
SF:src/b.c
FN:1,g
FN:5,h
FNDA:0,g
FNDA:0,h
BRDA:2,0,0,1
BRDA:2,0,1,0
BRDA:2,0,2,0
BRDA:2,0,3,-
DA:1,0
DA:2,0
DA:3,0
DA:4,0
DA:5,0
DA:6,0
DA:7,0
DA:8,0
DA:9,0
DA:10,0
DA:11,0
DA:12,0
end_of_record
SF:src/a.c
FN:1,f
FNDA:3,f
DA:1,3
DA:2,3
DA:3,3
DA:4,0
DA:5,3
DA:6,3
DA:7,3
end_of_record
";

pub(super) const TABLE_OF_TWO: &[u8] = b"       Lines   Functions    Branches  File
 85.7%   6/7  100.0% 1/1       - 0/0  src/a.c
  0.0%  0/12    0.0% 0/2   25.0% 1/4  src/b.c
 31.6%  6/19   33.3% 1/3   25.0% 1/4  Total
";

const TABLE_OF_ONE: &[u8] = b"     Lines   Functions    Branches  File
 85.7% 6/7  100.0% 1/1       - 0/0  src/a.c
 85.7% 6/7  100.0% 1/1       - 0/0  Total
";

const TABLE_OF_NONE: &[u8] = b"     Lines   Functions    Branches  File
     - 0/0       - 0/0       - 0/0  Total
";

/// The expected table of a file without lines.
const NO_LINES: &[u8] = b"     Lines   Functions    Branches  File
     - 0/0  100.0% 1/1       - 0/0  c.c
     - 0/0  100.0% 1/1       - 0/0  Total
";

/// The expected table of a file whose name has an escape byte.
const AN_ESCAPE_BYTE: &[u8] = b"     Lines   Functions    Branches  File
100.0% 1/1       - 0/0       - 0/0  a\\x1b[1m.c
100.0% 1/1       - 0/0       - 0/0  Total
";

/// Tracefiles, patterns, and the expected tables of the matching files.
const TABLES: [(&[u8], &[u8], &[u8]); 5] = [
    (TWO_FILES, b"", TABLE_OF_TWO),
    (TWO_FILES, b"*a.c", TABLE_OF_ONE),
    (TWO_FILES, b"*.h", TABLE_OF_NONE),
    (
        b"TN:t\nSF:c.c\nFN:1,f\nFNDA:1,f\nend_of_record\n",
        b"",
        NO_LINES,
    ),
    (
        b"TN:t\nSF:a\x1b[1m.c\nDA:1,1\nend_of_record\n",
        b"",
        AN_ESCAPE_BYTE,
    ),
];

#[test]
fn files(rt: HostRuntime) {
    for (tracefile, pattern, wanted) in TABLES {
        check_text(&rt, Form::Table, tracefile, pattern, wanted);
    }
}

/// Appends `piece`.
fn put(rt: &impl Abort, text: &mut Vec<u8>, piece: &[u8]) {
    if text.extend_from_slice(piece).is_err() {
        panic!(rt; "out of memory");
    }
}

/// Appends a `DA` record of the line, with the count 1 or 0.
fn put_line(rt: &impl Abort, text: &mut Vec<u8>, line: u64, is_hit: bool) {
    let mut digits = Buffer::new();
    put(rt, text, b"DA:");
    put(rt, text, digits.format(line).as_bytes());
    put(rt, text, if is_hit { b",1\n" } else { b",0\n" });
}

/// Appends a section of a file with the lines 1 to `found`, of which the first `hit` are hit.
fn put_section(rt: &impl Abort, text: &mut Vec<u8>, head: &[u8], hit: u64, found: u64) {
    put(rt, text, head);
    for line in 0..found {
        put_line(rt, text, line.wrapping_add(1), line < hit);
    }
    put(rt, text, b"end_of_record\n");
}

/// The expected table of two files, one of 9 lines and one of 1000 lines.
const DIFFERENT_WIDTHS: &[u8] = b"           Lines   Functions    Branches  File
100.0%       9/9       - 0/0       - 0/0  a.c
  0.1%    1/1000       - 0/0       - 0/0  b.c
  1.0%   10/1009       - 0/0       - 0/0  Total
";

#[test]
fn numbers_of_different_widths(rt: HostRuntime) {
    let mut text = Vec::new(rt.alloc());
    put_section(&rt, &mut text, b"TN:t\nSF:a.c\n", 9, 9);
    put_section(&rt, &mut text, b"SF:b.c\n", 1, 1_000);
    check_text(&rt, Form::Table, text.as_slice(), b"", DIFFERENT_WIDTHS);
}
