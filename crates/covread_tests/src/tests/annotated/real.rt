//! Tests unchanged outputs of gcov 12 for four small programs, which were compiled with `--coverage` and run once. The outputs
//! contain the programs' sources. Expected values were worked out by hand, line by line.

use super::items::{Example, check_all};
use std::test::*;

#[test]
fn texts_of_gcov(rt: HostRuntime) -> Result<(), Fail> {
    check_all(&rt, TEXTS_OF_GCOV)
}

/// Each example's name has the command that wrote its input.
const TEXTS_OF_GCOV: &[Example] = &[
    (
        "gcov a.gcda, of a C program with a function that is never called",
        b"        -:    0:Source:a.c
        -:    0:Graph:a.gcno
        -:    0:Data:a.gcda
        -:    0:Runs:1
     1500:    1:static int keep(int x) {
     1500:    2:  if (x > 2 && x != 5)
     1496:    3:    return x * 2;
        4:    4:  return 0;
        -:    5:}
        -:    6:
    #####:    7:static int never(int x) { return x ? 1 : 2; }
        -:    8:
        1:    9:int main(int argc, char **argv) {
        1:   10:  int sum = 0;
     1501:   11:  for (int i = 0; i < 1500; i++)
     1500:   12:    sum += keep(i);
       1*:   13:  if (argc > 7) sum += never(sum);
        1:   14:  return sum < 0;
        -:   15:}
",
        b"TN:t
SF:a.c
DA:1,1500
DA:2,1500
DA:3,1496
DA:4,4
DA:7,0
DA:9,1
DA:10,1
DA:11,1501
DA:12,1500
DA:13,1
DA:14,1
end_of_record
",
    ),
    (
        "gcov -b -c a.gcda",
        b"        -:    0:Source:a.c
        -:    0:Graph:a.gcno
        -:    0:Data:a.gcda
        -:    0:Runs:1
function keep called 1500 returned 100% blocks executed 100%
     1500:    1:static int keep(int x) {
     1500:    2:  if (x > 2 && x != 5)
branch  0 taken 1497 (fallthrough)
branch  1 taken 3
branch  2 taken 1496 (fallthrough)
branch  3 taken 1
     1496:    3:    return x * 2;
        4:    4:  return 0;
        -:    5:}
        -:    6:
function never called 0 returned 0% blocks executed 0%
    #####:    7:static int never(int x) { return x ? 1 : 2; }
branch  0 never executed
branch  1 never executed
        -:    8:
function main called 1 returned 100% blocks executed 78%
        1:    9:int main(int argc, char **argv) {
        1:   10:  int sum = 0;
     1501:   11:  for (int i = 0; i < 1500; i++)
branch  0 taken 1500
branch  1 taken 1 (fallthrough)
     1500:   12:    sum += keep(i);
call    0 returned 1500
       1*:   13:  if (argc > 7) sum += never(sum);
branch  0 taken 0 (fallthrough)
branch  1 taken 1
call    2 never executed
        1:   14:  return sum < 0;
        -:   15:}
",
        b"TN:t
SF:a.c
FN:1,keep
FNDA:1500,keep
DA:1,1500
DA:2,1500
BRDA:2,0,0,1497
BRDA:2,0,1,3
BRDA:2,0,2,1496
BRDA:2,0,3,1
DA:3,1496
DA:4,4
FN:7,never
FNDA:0,never
DA:7,0
BRDA:7,0,0,-
BRDA:7,0,1,-
FN:9,main
FNDA:1,main
DA:9,1
DA:10,1
DA:11,1501
BRDA:11,0,0,1500
BRDA:11,0,1,1
DA:12,1500
DA:13,1
BRDA:13,0,0,0
BRDA:13,0,1,1
DA:14,1
end_of_record
",
    ),
    (
        "gcov -a -b -c a.gcda",
        b"        -:    0:Source:a.c
        -:    0:Graph:a.gcno
        -:    0:Data:a.gcda
        -:    0:Runs:1
function keep called 1500 returned 100% blocks executed 100%
     1500:    1:static int keep(int x) {
     1500:    2:  if (x > 2 && x != 5)
     1500:    2-block  0
branch  0 taken 1497 (fallthrough)
branch  1 taken 3
     1497:    2-block  1
branch  2 taken 1496 (fallthrough)
branch  3 taken 1
     1496:    3:    return x * 2;
     1496:    3-block  0
        4:    4:  return 0;
        4:    4-block  0
        -:    5:}
        -:    6:
function never called 0 returned 0% blocks executed 0%
    #####:    7:static int never(int x) { return x ? 1 : 2; }
    %%%%%:    7-block  0
branch  0 never executed
branch  1 never executed
    %%%%%:    7-block  1
    %%%%%:    7-block  2
    %%%%%:    7-block  3
        -:    8:
function main called 1 returned 100% blocks executed 78%
        1:    9:int main(int argc, char **argv) {
        1:   10:  int sum = 0;
     1501:   11:  for (int i = 0; i < 1500; i++)
        1:   11-block  0
     1501:   11-block  1
branch  0 taken 1500
branch  1 taken 1 (fallthrough)
     1500:   12:    sum += keep(i);
     1500:   12-block  0
call    0 returned 1500
       1*:   13:  if (argc > 7) sum += never(sum);
        1:   13-block  0
branch  0 taken 0 (fallthrough)
branch  1 taken 1
    %%%%%:   13-block  1
call    2 never executed
        1:   14:  return sum < 0;
        1:   14-block  0
        -:   15:}
",
        b"TN:t
SF:a.c
FN:1,keep
FNDA:1500,keep
DA:1,1500
DA:2,1500
BRDA:2,0,0,1497
BRDA:2,0,1,3
BRDA:2,1,2,1496
BRDA:2,1,3,1
DA:3,1496
DA:4,4
FN:7,never
FNDA:0,never
DA:7,0
BRDA:7,0,0,-
BRDA:7,0,1,-
FN:9,main
FNDA:1,main
DA:9,1
DA:10,1
DA:11,1501
BRDA:11,1,0,1500
BRDA:11,1,1,1
DA:12,1500
DA:13,1
BRDA:13,0,0,0
BRDA:13,0,1,1
DA:14,1
end_of_record
",
    ),
    (
        "gcov -b a.gcda",
        b"        -:    0:Source:a.c
        -:    0:Graph:a.gcno
        -:    0:Data:a.gcda
        -:    0:Runs:1
function keep called 1500 returned 100% blocks executed 100%
     1500:    1:static int keep(int x) {
     1500:    2:  if (x > 2 && x != 5)
branch  0 taken 100% (fallthrough)
branch  1 taken 1%
branch  2 taken 100% (fallthrough)
branch  3 taken 1%
     1496:    3:    return x * 2;
        4:    4:  return 0;
        -:    5:}
        -:    6:
function never called 0 returned 0% blocks executed 0%
    #####:    7:static int never(int x) { return x ? 1 : 2; }
branch  0 never executed
branch  1 never executed
        -:    8:
function main called 1 returned 100% blocks executed 78%
        1:    9:int main(int argc, char **argv) {
        1:   10:  int sum = 0;
     1501:   11:  for (int i = 0; i < 1500; i++)
branch  0 taken 100%
branch  1 taken 1% (fallthrough)
     1500:   12:    sum += keep(i);
call    0 returned 100%
       1*:   13:  if (argc > 7) sum += never(sum);
branch  0 taken 0% (fallthrough)
branch  1 taken 100%
call    2 never executed
        1:   14:  return sum < 0;
        -:   15:}
",
        b"Percent at 8\n",
    ),
    (
        "gcov -H a.gcda",
        b"        -:    0:Source:a.c
        -:    0:Graph:a.gcno
        -:    0:Data:a.gcda
        -:    0:Runs:1
     1.5k:    1:static int keep(int x) {
     1.5k:    2:  if (x > 2 && x != 5)
     1.5k:    3:    return x * 2;
        4:    4:  return 0;
        -:    5:}
        -:    6:
    #####:    7:static int never(int x) { return x ? 1 : 2; }
        -:    8:
        1:    9:int main(int argc, char **argv) {
        1:   10:  int sum = 0;
     1.5k:   11:  for (int i = 0; i < 1500; i++)
     1.5k:   12:    sum += keep(i);
       1*:   13:  if (argc > 7) sum += never(sum);
        1:   14:  return sum < 0;
        -:   15:}
",
        b"BadMark at 5\n",
    ),
    (
        "gcov b.gcda, of a C program with a switch",
        b"        -:    0:Source:b.c
        -:    0:Graph:b.gcno
        -:    0:Data:b.gcda
        -:    0:Runs:1
        -:    1:int kinds[3];
        -:    2:
       14:    3:static void count(int n) {
       14:    4:  switch (n % 4) {
        4:    5:  case 0: kinds[0]++; break;
        7:    6:  case 1:
        7:    7:  case 2: kinds[1]++; break;
        3:    8:  default: kinds[2]++;
        -:    9:  }
       14:   10:}
        -:   11:
        1:   12:int main(void) {
        1:   13:  int n = 0;
       15:   14:  while (n < 10 || n % 7 != 0)
       14:   15:    count(n++);
        3:   16:  do n -= 5; while (n > 0);
        1:   17:  return n == -1 ? 0 : 1;
        -:   18:}
",
        b"TN:t
SF:b.c
DA:3,14
DA:4,14
DA:5,4
DA:6,7
DA:7,7
DA:8,3
DA:10,14
DA:12,1
DA:13,1
DA:14,15
DA:15,14
DA:16,3
DA:17,1
end_of_record
",
    ),
    (
        "gcov -b -c b.gcda",
        b"        -:    0:Source:b.c
        -:    0:Graph:b.gcno
        -:    0:Data:b.gcda
        -:    0:Runs:1
        -:    1:int kinds[3];
        -:    2:
function count called 14 returned 100% blocks executed 100%
       14:    3:static void count(int n) {
       14:    4:  switch (n % 4) {
branch  0 taken 4
branch  1 taken 7
branch  2 taken 3
        4:    5:  case 0: kinds[0]++; break;
        7:    6:  case 1:
        7:    7:  case 2: kinds[1]++; break;
        3:    8:  default: kinds[2]++;
        -:    9:  }
       14:   10:}
        -:   11:
function main called 1 returned 100% blocks executed 100%
        1:   12:int main(void) {
        1:   13:  int n = 0;
       15:   14:  while (n < 10 || n % 7 != 0)
branch  0 taken 10
branch  1 taken 5 (fallthrough)
branch  2 taken 4
branch  3 taken 1 (fallthrough)
       14:   15:    count(n++);
call    0 returned 14
        3:   16:  do n -= 5; while (n > 0);
branch  0 taken 2
branch  1 taken 1 (fallthrough)
        1:   17:  return n == -1 ? 0 : 1;
        -:   18:}
",
        b"TN:t
SF:b.c
FN:3,count
FNDA:14,count
DA:3,14
DA:4,14
BRDA:4,0,0,4
BRDA:4,0,1,7
BRDA:4,0,2,3
DA:5,4
DA:6,7
DA:7,7
DA:8,3
DA:10,14
FN:12,main
FNDA:1,main
DA:12,1
DA:13,1
DA:14,15
BRDA:14,0,0,10
BRDA:14,0,1,5
BRDA:14,0,2,4
BRDA:14,0,3,1
DA:15,14
DA:16,3
BRDA:16,0,0,2
BRDA:16,0,1,1
DA:17,1
end_of_record
",
    ),
    (
        "gcov -a -b -c b.gcda",
        b"        -:    0:Source:b.c
        -:    0:Graph:b.gcno
        -:    0:Data:b.gcda
        -:    0:Runs:1
        -:    1:int kinds[3];
        -:    2:
function count called 14 returned 100% blocks executed 100%
       14:    3:static void count(int n) {
       14:    4:  switch (n % 4) {
       14:    4-block  0
branch  0 taken 4
branch  1 taken 7
branch  2 taken 3
        4:    5:  case 0: kinds[0]++; break;
        4:    5-block  0
        7:    6:  case 1:
        7:    7:  case 2: kinds[1]++; break;
        7:    7-block  0
        3:    8:  default: kinds[2]++;
        3:    8-block  0
        -:    9:  }
       14:   10:}
        -:   11:
function main called 1 returned 100% blocks executed 100%
        1:   12:int main(void) {
        1:   13:  int n = 0;
       15:   14:  while (n < 10 || n % 7 != 0)
        1:   14-block  0
       15:   14-block  1
branch  0 taken 10
branch  1 taken 5 (fallthrough)
        5:   14-block  2
branch  2 taken 4
branch  3 taken 1 (fallthrough)
       14:   15:    count(n++);
       14:   15-block  0
call    0 returned 14
        3:   16:  do n -= 5; while (n > 0);
        3:   16-block  0
branch  0 taken 2
branch  1 taken 1 (fallthrough)
        1:   17:  return n == -1 ? 0 : 1;
        1:   17-block  0
        -:   18:}
",
        b"TN:t
SF:b.c
FN:3,count
FNDA:14,count
DA:3,14
DA:4,14
BRDA:4,0,0,4
BRDA:4,0,1,7
BRDA:4,0,2,3
DA:5,4
DA:6,7
DA:7,7
DA:8,3
DA:10,14
FN:12,main
FNDA:1,main
DA:12,1
DA:13,1
DA:14,15
BRDA:14,1,0,10
BRDA:14,1,1,5
BRDA:14,2,2,4
BRDA:14,2,3,1
DA:15,14
DA:16,3
BRDA:16,0,0,2
BRDA:16,0,1,1
DA:17,1
end_of_record
",
    ),
    (
        "gcov -a -b -c -u b.gcda. An unconditional branch gives no item, but takes a number of its line",
        b"        -:    0:Source:b.c
        -:    0:Graph:b.gcno
        -:    0:Data:b.gcda
        -:    0:Runs:1
        -:    1:int kinds[3];
        -:    2:
function count called 14 returned 100% blocks executed 100%
       14:    3:static void count(int n) {
       14:    4:  switch (n % 4) {
       14:    4-block  0
branch  0 taken 4
branch  1 taken 7
branch  2 taken 3
        4:    5:  case 0: kinds[0]++; break;
        4:    5-block  0
unconditional  0 taken 4
        7:    6:  case 1:
        7:    7:  case 2: kinds[1]++; break;
        7:    7-block  0
unconditional  0 taken 7
        3:    8:  default: kinds[2]++;
        3:    8-block  0
unconditional  0 taken 3
        -:    9:  }
       14:   10:}
        -:   11:
function main called 1 returned 100% blocks executed 100%
        1:   12:int main(void) {
        1:   13:  int n = 0;
       15:   14:  while (n < 10 || n % 7 != 0)
        1:   14-block  0
unconditional  0 taken 1
       15:   14-block  1
branch  1 taken 10
branch  2 taken 5 (fallthrough)
        5:   14-block  2
branch  3 taken 4
branch  4 taken 1 (fallthrough)
       14:   15:    count(n++);
       14:   15-block  0
call    0 returned 14
unconditional  1 taken 14
        3:   16:  do n -= 5; while (n > 0);
        3:   16-block  0
branch  0 taken 2
branch  1 taken 1 (fallthrough)
        1:   17:  return n == -1 ? 0 : 1;
        1:   17-block  0
unconditional  0 taken 1
        -:   18:}
",
        b"TN:t
SF:b.c
FN:3,count
FNDA:14,count
DA:3,14
DA:4,14
BRDA:4,0,0,4
BRDA:4,0,1,7
BRDA:4,0,2,3
DA:5,4
DA:6,7
DA:7,7
DA:8,3
DA:10,14
FN:12,main
FNDA:1,main
DA:12,1
DA:13,1
DA:14,15
BRDA:14,1,1,10
BRDA:14,1,2,5
BRDA:14,2,3,4
BRDA:14,2,4,1
DA:15,14
DA:16,3
BRDA:16,0,0,2
BRDA:16,0,1,1
DA:17,1
end_of_record
",
    ),
    (
        "gcov c.gcda, of a C++ program that throws an exception",
        b"        -:    0:Source:c.cc
        -:    0:Graph:c.gcno
        -:    0:Data:c.gcda
        -:    0:Runs:1
        -:    1:class Stack {
        -:    2:  int items[4], used;
        -:    3:public:
        1:    4:  Stack() : used(0) {}
        5:    5:  void push(int x) {
        5:    6:    if (used == 4)
        1:    7:      throw x;
        4:    8:    items[used++] = x;
        4:    9:  }
        -:   10:};
        -:   11:
        1:   12:int main() {
        1:   13:  Stack s;
        -:   14:  try {
        5:   15:    for (int i = 0; i < 9; i++) s.push(i);
        1:   16:  } catch (int x) {
        1:   17:    return x != 4;
        1:   18:  } catch (char) {
    =====:   19:    return 2;
    =====:   20:  }
    #####:   21:}
",
        b"TN:t
SF:c.cc
DA:4,1
DA:5,5
DA:6,5
DA:7,1
DA:8,4
DA:9,4
DA:12,1
DA:13,1
DA:15,5
DA:16,1
DA:17,1
DA:18,1
DA:19,0
DA:20,0
DA:21,0
end_of_record
",
    ),
    (
        "gcov -b -c c.gcda",
        b"        -:    0:Source:c.cc
        -:    0:Graph:c.gcno
        -:    0:Data:c.gcda
        -:    0:Runs:1
        -:    1:class Stack {
        -:    2:  int items[4], used;
        -:    3:public:
function _ZN5StackC2Ev called 1 returned 100% blocks executed 100%
        1:    4:  Stack() : used(0) {}
function _ZN5Stack4pushEi called 5 returned 80% blocks executed 100%
        5:    5:  void push(int x) {
        5:    6:    if (used == 4)
branch  0 taken 1 (fallthrough)
branch  1 taken 4
        1:    7:      throw x;
call    0 returned 1
call    1 returned 0
        4:    8:    items[used++] = x;
        4:    9:  }
        -:   10:};
        -:   11:
function main called 1 returned 100% blocks executed 73%
        1:   12:int main() {
        1:   13:  Stack s;
call    0 returned 1
        -:   14:  try {
        5:   15:    for (int i = 0; i < 9; i++) s.push(i);
call    0 returned 5
branch  1 taken 4 (fallthrough)
branch  2 taken 1 (throw)
branch  3 taken 5
branch  4 taken 0 (fallthrough)
        1:   16:  } catch (int x) {
branch  0 taken 0 (fallthrough)
branch  1 taken 1
branch  2 taken 0
call    3 returned 1
        1:   17:    return x != 4;
        1:   18:  } catch (char) {
call    0 returned 1
call    1 never executed
    =====:   19:    return 2;
    =====:   20:  }
call    0 never executed
    #####:   21:}
",
        b"TN:t
SF:c.cc
FN:4,_ZN5StackC2Ev
FNDA:1,_ZN5StackC2Ev
DA:4,1
FN:5,_ZN5Stack4pushEi
FNDA:5,_ZN5Stack4pushEi
DA:5,5
DA:6,5
BRDA:6,0,0,1
BRDA:6,0,1,4
DA:7,1
DA:8,4
DA:9,4
FN:12,main
FNDA:1,main
DA:12,1
DA:13,1
DA:15,5
BRDA:15,0,1,4
BRDA:15,0,2,1
BRDA:15,0,3,5
BRDA:15,0,4,0
DA:16,1
BRDA:16,0,0,0
BRDA:16,0,1,1
BRDA:16,0,2,0
DA:17,1
DA:18,1
DA:19,0
DA:20,0
DA:21,0
end_of_record
",
    ),
    (
        "gcov -a -b -c c.gcda",
        b"        -:    0:Source:c.cc
        -:    0:Graph:c.gcno
        -:    0:Data:c.gcda
        -:    0:Runs:1
        -:    1:class Stack {
        -:    2:  int items[4], used;
        -:    3:public:
function _ZN5StackC2Ev called 1 returned 100% blocks executed 100%
        1:    4:  Stack() : used(0) {}
function _ZN5Stack4pushEi called 5 returned 80% blocks executed 100%
        5:    5:  void push(int x) {
        5:    6:    if (used == 4)
        5:    6-block  0
branch  0 taken 1 (fallthrough)
branch  1 taken 4
        1:    7:      throw x;
        1:    7-block  0
call    0 returned 1
call    1 returned 0
        4:    8:    items[used++] = x;
        4:    9:  }
        -:   10:};
        -:   11:
function main called 1 returned 100% blocks executed 73%
        1:   12:int main() {
        1:   13:  Stack s;
        1:   13-block  0
call    0 returned 1
        -:   14:  try {
        5:   15:    for (int i = 0; i < 9; i++) s.push(i);
        5:   15-block  0
call    0 returned 5
branch  1 taken 4 (fallthrough)
branch  2 taken 1 (throw)
        4:   15-block  1
        5:   15-block  2
branch  3 taken 5
branch  4 taken 0 (fallthrough)
        1:   16:  } catch (int x) {
        1:   16-block  0
branch  0 taken 0 (fallthrough)
branch  1 taken 1
branch  2 taken 0
        1:   16-block  1
call    3 returned 1
        1:   17:    return x != 4;
        1:   18:  } catch (char) {
call    0 returned 1
    $$$$$:   18-block  0
call    1 never executed
    =====:   19:    return 2;
    =====:   20:  }
call    0 never executed
    #####:   21:}
    %%%%%:   21-block  0
",
        b"TN:t
SF:c.cc
FN:4,_ZN5StackC2Ev
FNDA:1,_ZN5StackC2Ev
DA:4,1
FN:5,_ZN5Stack4pushEi
FNDA:5,_ZN5Stack4pushEi
DA:5,5
DA:6,5
BRDA:6,0,0,1
BRDA:6,0,1,4
DA:7,1
DA:8,4
DA:9,4
FN:12,main
FNDA:1,main
DA:12,1
DA:13,1
DA:15,5
BRDA:15,0,1,4
BRDA:15,0,2,1
BRDA:15,2,3,5
BRDA:15,2,4,0
DA:16,1
BRDA:16,0,0,0
BRDA:16,0,1,1
BRDA:16,0,2,0
DA:17,1
DA:18,1
DA:19,0
DA:20,0
DA:21,0
end_of_record
",
    ),
    (
        "gcov d.gcda, of a C++ program with two instances of a template",
        b"        -:    0:Source:d.cc
        -:    0:Graph:d.gcno
        -:    0:Data:d.gcda
        -:    0:Runs:1
        2:    1:template <class T> T twice(T x) {
        2:    2:  return x + x;
        -:    3:}
------------------
_Z5twiceIlET_S0_:
        1:    1:template <class T> T twice(T x) {
        1:    2:  return x + x;
        -:    3:}
------------------
_Z5twiceIiET_S0_:
        1:    1:template <class T> T twice(T x) {
        1:    2:  return x + x;
        -:    3:}
------------------
        -:    4:
        1:    5:int main() {
       1*:    6:  return twice(2) != 4 || twice(2L) != 4;
        -:    7:}
",
        b"Instances at 8\n",
    ),
];
