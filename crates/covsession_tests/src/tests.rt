//! Tests of sessions with sources and sinks that no program has, and of two whole sessions with ample memory. All other sessions
//! are text files in e2e/sessions, which scripts/e2e plays with the built program. Calls that no session makes are tested by
//! covread_tests, covstore_tests, covbook_tests and covjobs_tests.

ghost use Rattle.std.specs.Prelude.{◌<◌, ◌^◌};

use covnamed::session;
use covsession::session::SessionFault;
use covstream::{FromRead, FromWrite, Sink, Source};
use std::alloc::Global;
use std::process::Abort;
use std::test::*;

mod streams;

/// Runs a session and returns its result. Deliberately without an `ensures`: a test looks only at the result, and is proved faster
/// this way.
fn session_end<I: Source, O: Sink>(
    alloc: Global,
    source: &mut I,
    sink: &mut O,
) -> Result<(), SessionFault>
    requires reads { I.reads source.old < 2 ^ 62 }
    requires failed_reads { I.failed_reads source.old < 2 ^ 62 }
    requires failed_writes { O.failed_writes sink.old < 2 ^ 62 }
{
    session(alloc, source, sink)
}

/// Runs a session on `input`. Returns the session's result and output.
fn run(alloc: Global, input: &[u8]) -> (Result<(), SessionFault>, Vec<u8>) {
    let mut output: Vec<u8> = Vec::new(alloc);
    let ended = {
        let mut source = FromRead::new(input);
        let mut sink = FromWrite::new(&mut output);
        session_end(alloc, &mut source, &mut sink)
    };
    (ended, output)
}

/// Checks that a session on `input` ends without an error, and writes exactly `wanted`.
fn check(rt: &(impl Abort + AllocGlobal), input: &[u8], wanted: &[u8]) {
    let (ended, output) = run(rt.alloc(), input);
    if ended.is_err() || output.as_slice() != wanted {
        let written: Result<String, _> = String::from_utf8_lossy(rt.alloc(), output.as_slice());
        panic!(rt; "ended {ended:?} and wrote {written:?}");
    }
}

/// A session with each command.
#[test]
fn each_command(rt: HostRuntime) {
    check(
        &rt,
        b"\
trace
TN:t
SF:/a.c
DA:1,2
DA:2,0
end_of_record
.
gcov u
-:0:Source:/b.c
1:1:x
.
summary
extract *.c
remove /a.*
rename
u
t
drop u
report
drop t
report
",
        b"\
accepted 1 items 2 odd 0
accepted 2 items 1 odd 0
Summary coverage rate:
  lines......: 66.7% (2 of 3 lines)
  functions..: no data found
  branches...: no data found
.
TN:t
SF:/a.c
DA:1,2
DA:2,0
LF:2
LH:1
end_of_record
TN:u
SF:/b.c
DA:1,1
LF:1
LH:1
end_of_record
.
TN:u
SF:/b.c
DA:1,1
LF:1
LH:1
end_of_record
.
renamed 1
no such test
TN:t
SF:/a.c
DA:1,2
DA:2,0
LF:2
LH:1
end_of_record
TN:t
SF:/b.c
DA:1,1
LF:1
LH:1
end_of_record
.
dropped 2
.
",
    );
}

/// A session whose texts are rejected, clash or don't end.
#[test]
fn texts_that_are_not_taken(rt: HostRuntime) {
    check(
        &rt,
        b"\
trace
SF:/a.c
DA:1,1,x
end_of_record
.
trace
DA:1,1
.
gcov t
1.5k:1:x
.
trace
SF:/a.c
DA:1,1,y
end_of_record
.
bogus
trace
",
        b"\
accepted 1 items 1 odd 0
refused Outside at 1
refused BadMark at 1
clash /a.c 1 x y
unknown
unfinished
",
    );
}
