//! Inputs, and their printed reports.

/// A tracefile with two lines of one file, one line hit. The tracefile's report is the same text.
pub(super) const SMALL: &[u8] = b"TN:t\nSF:/a.c\nDA:1,2\nDA:2,0\nLF:2\nLH:1\nend_of_record\n";

/// The report after `SMALL` was submitted twice.
pub(super) const DOUBLED: &[u8] = b"TN:t\nSF:/a.c\nDA:1,4\nDA:2,0\nLF:2\nLH:1\nend_of_record\n";

/// The report of `SMALL` after its test was renamed to `v`.
pub(super) const RENAMED: &[u8] = b"TN:v\nSF:/a.c\nDA:1,2\nDA:2,0\nLF:2\nLH:1\nend_of_record\n";

/// A tracefile with one line of a file, in two tests.
pub(super) const APART: &[u8] = b"\
TN:t
SF:/a.c
DA:1,2
LF:1
LH:1
end_of_record
TN:u
SF:/a.c
DA:1,3
LF:1
LH:1
end_of_record
";

/// The report of `APART` after `t` was renamed to `u`.
pub(super) const JOINED: &[u8] = b"TN:u\nSF:/a.c\nDA:1,5\nLF:1\nLH:1\nend_of_record\n";

/// A tracefile of LCOV 2 whose printed report is `TRACED`.
pub(super) const LCOV2: &[u8] = b"\
TN:t
SF:tmp.c
FNL:0,2,5
FNA:0,1,main
BRDA:3,e2,0,2
BRDA:3,2,1,1
BRDA:4,0,x,-
DA:2,1
DA:3,3
DA:4,0
DA:5,0
end_of_record
";

/// `SMALL` with a checksum of its first line.
pub(super) const CHECKED: &[u8] = b"TN:t\nSF:/a.c\nDA:1,2,abc\nDA:2,0\nLF:2\nLH:1\nend_of_record\n";

/// The first line of `CHECKED` with another checksum, in another test.
pub(super) const CLASHING: &[u8] = b"TN:u\nSF:/a.c\nDA:1,1,abd\nend_of_record\n";

/// gcov's annotated source, with functions, branches and blocks.
pub(super) const ANNOTATED: &[u8] = b"\
        -:    0:Source:tmp.c
        -:    0:Runs:1
        -:    1:#include <stdio.h>
function main called 1 returned 100% blocks executed 80%
        1:    2:int main(void)
       3*:    3:  if (x)
        3:    3-block  2
branch  0 taken 2 (fallthrough)
branch  1 taken 1
call    2 returned 3
    #####:    4:  f();
branch  0 never executed
    =====:    5:  g();
";

/// The report of `ANNOTATED`, as counts of the test `t`.
pub(super) const TRACED: &[u8] = b"\
TN:t
SF:tmp.c
FN:2,main
FNDA:1,main
FNF:1
FNH:1
BRDA:3,2,0,2
BRDA:3,2,1,1
BRDA:4,0,0,-
BRF:3
BRH:2
DA:2,1
DA:3,3
DA:4,0
DA:5,0
LF:4
LH:2
end_of_record
";
