//! Sessions in which memory runs out. The output of such a session is a prefix of the session's output with ample memory.

ghost use Rattle.std.specs.Prelude.{◌<◌, ◌^◌, None};

use super::check_bytes;
use super::heap::{Call, check_rising_by, narrow, widen};
use bumpalo::Bump;
use covnamed::session;
use covsession::session::SessionFault;
use covstream::{Failed, FromRead, FromWrite, Sink, Source};
use std::alloc::{Allocator, Global};
use std::cell::Cell;
use std::process::Abort;
use std::test::*;

/// A source that returns one byte per read, so that each answer is written before the next command is read.
#[derive(Drop)]
struct Slow<'a> {
    input: &'a [u8],
    reads: u64,
}

impl<'a> Source for Slow<'a> {
    ghost left = { λ s. None };

    ghost reads = { λ s. s.reads };

    ghost failed_reads = { λ s. 0 };

    fn read(&mut self, buffer: &mut [u8]) -> Result<usize, Failed> {
        self.reads += 1;
        if buffer.is_empty() {
            return Ok(0);
        }
        let input = self.input;
        match input.split_first() {
            Some((first, rest)) => {
                buffer[0] = *first;
                self.input = rest;
                Ok(1)
            }
            None => Ok(0),
        }
    }
}

/// Runs a session and returns its result. Deliberately without an `ensures`.
fn session_end<I: Source, O: Sink, A: Allocator + Copy>(
    alloc: A,
    source: &mut I,
    sink: &mut O,
) -> Result<(), SessionFault>
    requires reads { I.reads source.old < 2 ^ 62 }
    requires failed_reads { I.failed_reads source.old < 2 ^ 62 }
    requires failed_writes { O.failed_writes sink.old < 2 ^ 62 }
{
    session(alloc, source, sink)
}

/// Runs a session on `input`. Returns the session's result and output.
fn run<A: Allocator + Copy>(
    global: Global,
    alloc: A,
    input: &[u8],
) -> (Result<(), SessionFault>, Vec<u8>) {
    let mut output: Vec<u8> = Vec::new(global);
    let ended = {
        let mut source = Slow { input, reads: 0 };
        let mut sink = FromWrite::new(&mut output);
        session_end(alloc, &mut source, &mut sink)
    };
    (ended, output)
}

/// Whether a session on `input` runs out of memory. Checks that the output is then a prefix of `wanted`, and otherwise equals
/// `wanted`.
fn is_refused_slowly(
    rt: &(impl Abort + AllocGlobal),
    heap: &Bump,
    room: usize,
    input: &[u8],
    wanted: &[u8],
) -> bool {
    narrow(rt, heap, room);
    let (ended, output) = run(rt.alloc(), heap, input);
    widen(heap);
    if let Err(fault) = ended {
        assert_eq!(rt; fault, SessionFault::Memory);
        assert!(rt; wanted.starts_with(output.as_slice()), "no beginning");
        return true;
    }
    check_bytes(rt, output.as_slice(), wanted);
    false
}

/// The size of a session's first allocation, its block for reading.
const BLOCK: usize = 65_536;

/// The input of a session that submits a tracefile, and asks for a summary.
const SMALL: &[u8] = b"trace\nTN:t\nSF:/a.c\nDA:1,2\nend_of_record\n.\nsummary\n";

/// The two answers to `SMALL`, of 25 and 119 bytes.
const SMALL_ANSWER: &[u8] = b"\
accepted 1 items 1 odd 0
Summary coverage rate:
  lines......: 100.0% (1 of 1 line)
  functions..: no data found
  branches...: no data found
.
";

/// Whether a session on `SMALL` runs out of memory. The session reads all commands at once, so all its answers are buffered. Checks
/// that a session that runs out of memory has written no answer or only the first one, and raises `noted` to the number of bytes
/// that it has written.
fn is_refused_at_once(
    rt: &(impl Abort + AllocGlobal),
    heap: &Bump,
    room: usize,
    noted: &Cell<usize>,
) -> bool {
    narrow(rt, heap, room);
    let mut output: Vec<u8> = Vec::new(rt.alloc());
    let ended = {
        let mut source = FromRead::new(SMALL);
        let mut sink = FromWrite::new(&mut output);
        session_end(heap, &mut source, &mut sink)
    };
    widen(heap);
    let Err(fault) = ended else {
        check_bytes(rt, output.as_slice(), SMALL_ANSWER);
        return false;
    };
    assert_eq!(rt; fault, SessionFault::Memory);
    assert!(rt; SMALL_ANSWER.starts_with(output.as_slice()), "no beginning");
    assert!(rt; matches!(output.len(), 0 | 25), "a part of an answer");
    noted.set(noted.get().max(output.len()));
    true
}

/// A session that is tried.
#[derive(Clone, Copy)]
pub(super) enum Session<'a> {
    /// A session that reads its input slowly, and the expected output.
    Slow(&'a [u8], &'a [u8]),
    /// A session on `SMALL`, which raises the number to that of the bytes written.
    AtOnce(&'a Cell<usize>),
}

/// Runs the session with a capacity of `room`, and returns whether it runs out of memory.
pub(super) fn is_refused(
    rt: &(impl Abort + AllocGlobal),
    heap: &Bump,
    room: usize,
    session: Session<'_>,
) -> bool {
    match session {
        Session::Slow(input, wanted) => is_refused_slowly(rt, heap, room, input, wanted),
        Session::AtOnce(noted) => is_refused_at_once(rt, heap, room, noted),
    }
}

/// The input of a session that submits a tracefile and prints the report.
const REPORTING: &[u8] = b"\
trace
TN:t
SF:/a.c
DA:1,2
DA:2,0
LF:2
LH:1
end_of_record
.
report
";

const REPORTING_ANSWER: &[u8] = b"\
accepted 1 items 2 odd 0
TN:t
SF:/a.c
DA:1,2
DA:2,0
LF:2
LH:1
end_of_record
.
";

/// The input of a session with a clash, whose submission is accepted once the other test is dropped.
const CLASHING: &[u8] = b"\
trace
TN:t
SF:/a.c
DA:1,1,abc
end_of_record
.
trace
TN:u
SF:/a.c
DA:1,1,abd
end_of_record
.
report
drop t
trace
TN:u
SF:/a.c
DA:1,1,abd
end_of_record
.
report
";

const CLASHING_ANSWER: &[u8] = b"\
accepted 1 items 1 odd 0
clash /a.c 1 abc abd
TN:t
SF:/a.c
DA:1,1,abc
LF:1
LH:1
end_of_record
.
dropped 1
accepted 2 items 1 odd 0
TN:u
SF:/a.c
DA:1,1,abd
LF:1
LH:1
end_of_record
.
";

/// The input of a session that renames a test to the name of another one.
const RENAMING: &[u8] = b"\
trace
TN:t
SF:/a.c
DA:1,2
end_of_record
TN:u
SF:/a.c
DA:1,3
end_of_record
.
rename
t
u
report
drop u
";

const RENAMING_ANSWER: &[u8] = b"\
accepted 1 items 2 odd 0
renamed 1
TN:u
SF:/a.c
DA:1,5
LF:1
LH:1
end_of_record
.
dropped 1
";

/// The input of a session that submits annotated source and prints the report.
const ANNOTATED: &[u8] = b"\
gcov t
        -:    0:Source:tmp.c
        -:    0:Runs:1
        -:    1:#include <stdio.h>
function main called 1 returned 100% blocks executed 80%
        1:    2:int main(void)
       3*:    3:  if (x)
        3:    3-block  2
branch  0 taken 2 (fallthrough)
branch  1 taken 1
call    2 returned 3
    #####:    4:  f();
branch  0 never executed
    =====:    5:  g();
.
report
";

const ANNOTATED_ANSWER: &[u8] = b"\
accepted 1 items 8 odd 0
TN:t
SF:tmp.c
FN:2,main
FNDA:1,main
FNF:1
FNH:1
BRDA:3,2,0,2
BRDA:3,2,1,1
BRDA:4,0,0,-
BRF:3
BRH:2
DA:2,1
DA:3,3
DA:4,0
DA:5,0
LF:4
LH:2
end_of_record
.
";

#[test]
fn sessions(rt: HostRuntime) {
    check_rising_by(
        &rt,
        BLOCK,
        64,
        &[
            Call::Session(Session::Slow(REPORTING, REPORTING_ANSWER)),
            Call::Session(Session::Slow(CLASHING, CLASHING_ANSWER)),
            Call::Session(Session::Slow(RENAMING, RENAMING_ANSWER)),
            Call::Session(Session::Slow(ANNOTATED, ANNOTATED_ANSWER)),
        ],
    );
}

/// The first answer is written even if there is no memory for the second.
#[test]
fn answers_before_a_refusal(rt: HostRuntime) {
    let noted = Cell::new(0);
    check_rising_by(&rt, BLOCK, 64, &[Call::Session(Session::AtOnce(&noted))]);
    assert_eq!(rt; noted.get(), 25);
}
