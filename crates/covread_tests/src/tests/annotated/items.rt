//! Tests the submission of gcov's output, printed as a tracefile. A function has two records there: its start line and its count.

use crate::tests::check_told;
use crate::tests::wrappers::annotated;
use std::process::Abort;
use std::test::*;

/// An example: its name, gcov's output, and the printed submission or error.
pub(super) type Example = (&'static str, &'static [u8], &'static [u8]);

/// Checks examples, as counts of the test `t`.
pub(super) fn check_all(rt: &(impl Abort + AllocGlobal), examples: &[Example]) -> Result<(), Fail> {
    for (name, text, wanted) in examples {
        check_told(rt, name, annotated(rt.alloc(), b"t", text), wanted)?;
    }
    Ok(())
}

#[test]
fn kinds_and_orders(rt: HostRuntime) -> Result<(), Fail> {
    check_all(&rt, KINDS_AND_ORDERS)
}

/// Items come in the order of their lines. A function comes right before the source line where it starts.
const KINDS_AND_ORDERS: &[Example] = &[
    (
        "each kind of line",
        b"        -:    0:Source:tmp.c
        -:    0:Runs:1
        -:    1:#include <stdio.h>
function main called 1 returned 100% blocks executed 80%
        1:    2:int main(void)
       3*:    3:  if (x)
        3:    3-block  2
branch  0 taken 2 (fallthrough)
branch  1 taken 1
call    2 returned 3
    #####:    4:  f();
branch  0 never executed
    =====:    5:  g();
",
        b"TN:t
SF:tmp.c
FN:2,main
FNDA:1,main
DA:2,1
DA:3,3
BRDA:3,2,0,2
BRDA:3,2,1,1
DA:4,0
BRDA:4,0,0,-
DA:5,0
end_of_record
",
    ),
    (
        "orders",
        b"-:0:Source:b.c
function g called 2
1:9:x
branch 1 taken 0
function f called 1
function a b called 0
call 0 returned 1
1:9-block 3
branch 0 never executed
branch 0 taken 5
2*:3:y
-:4:z
-:0:Source:a.c
-:0:Source:b.c
function h called 0
-:7:x
7:7:x
",
        b"TN:t
SF:b.c
FN:9,g
FNDA:2,g
DA:9,1
BRDA:9,0,1,0
BRDA:9,3,0,-
BRDA:9,3,0,5
FN:3,f
FNDA:1,f
FN:3,a b
FNDA:0,a b
DA:3,2
end_of_record
TN:t
SF:a.c
end_of_record
TN:t
SF:b.c
FN:7,h
FNDA:0,h
DA:7,7
end_of_record
",
    ),
];
