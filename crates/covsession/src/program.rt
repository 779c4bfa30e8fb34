//! Runs a session as a program does: with an exit status, and a line about an error.

ghost use Rattle.std.specs.Prelude.{◌≡◌, ◌^◌, ◌<◌};
ghost use Rattle.covsession.specs.Fault.{calls};
ghost use Rattle.covsession.specs.Program.{fault_status, words_of_fault, TellsSession};
ghost use Rattle.covsession.specs.Session.{said};

use crate::session::output::put_bytes;
use crate::session::{SessionFault, session};
use covreport::Table;
use covstream::{Sink, Source};
use std::alloc::Allocator;

/// The exit status of a program that ended with this error: 1 if a stream failed, 3 if memory ran out or the history was full.
pub fn status_of(fault: SessionFault) -> u8
    ensures { result ≡ fault_status fault }
{
    match fault {
        SessionFault::Read | SessionFault::Write => 1,
        SessionFault::Memory | SessionFault::Full => 3,
    }
}

/// The line that reports this error.
pub fn line_of(fault: SessionFault) -> &'static [u8]
    ensures { result.now ≡ said (words_of_fault fault) }
{
    match fault {
        SessionFault::Read => b"read fault\n",
        SessionFault::Write => b"write fault\n",
        SessionFault::Memory => b"out of memory\n",
        SessionFault::Full => b"book full\n",
    }
}

/// Runs a session from `source` to `sink`, and returns the exit status: 0 if the session ended well, 1 if a stream failed, 3 if
/// memory ran out or the history was full. Writes the line about an error to `faults`. Only the status reports an error whose line
/// can't be written.
pub fn run_session<I: Source, O: Sink, E: Sink, A: Allocator + Copy, T: Table<A>>(
    alloc: A,
    source: &mut I,
    sink: &mut O,
    faults: &mut E,
) -> u8
    requires reads { I.reads source.old < 2 ^ 62 }
    requires failed_reads { I.failed_reads source.old < 2 ^ 62 }
    requires failed_writes { O.failed_writes sink.old < 2 ^ 62 }
    requires failed_words { E.failed_writes faults.old < 2 ^ 62 }
    ensures { TellsSession result (I.left source.old) (I.left source.new) (O.written sink.old) (O.written sink.new)
        (E.written faults.old) (E.written faults.new) (O.held sink.old) (O.held sink.new)
        (calls (I.reads source.old) (I.failed_reads source.old) (O.failed_writes sink.old))
        (calls (I.reads source.new) (I.failed_reads source.new) (O.failed_writes sink.new))
        (E.failed_writes faults.old) (E.failed_writes faults.new) }
{
    match session::<I, O, A, T>(alloc, source, sink) {
        Ok(()) => 0,
        Err(fault) => {
            // There is no other stream on which to report a failure of this write.
            let _ = put_bytes(line_of(fault), faults);
            status_of(fault)
        }
    }
}
