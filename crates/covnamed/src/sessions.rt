//! Runs sessions over a `Store`.

ghost use Rattle.std.specs.Prelude.{◌≡◌, ◌≢◌, ℕ, ◌+◌, ◌^◌, ◌<◌, ◌≤◌, List, IfErr, OnOk, IfSome};
ghost use Rattle.std.specs.Io.KnownBytes.{Appends};
ghost use Rattle.covsession.specs.Fault.{calls, HasAnswered, HasCause, IsCutShort};
ghost use Rattle.covsession.specs.Program.{TellsSession};
ghost use Rattle.covsession.specs.Session.{IsSession, IsWholeSession};
ghost use Rattle.covsession.specs.declared.session.fault.SessionFault.TheVariants as faults;

use covsession::SessionFault;
use covstore::Store;
use covstream::{Sink, Source};
use std::alloc::Allocator;

/// Runs a session, as `covsession::session::session` does.
pub fn session<I: Source, O: Sink, A: Allocator + Copy>(
    alloc: A,
    source: &mut I,
    sink: &mut O,
) -> Result<(), SessionFault>
    requires reads { I.reads source.old < 2 ^ 62 }
    requires failed_reads { I.failed_reads source.old < 2 ^ 62 }
    requires failed_writes { O.failed_writes sink.old < 2 ^ 62 }
    // The whole input was read, and exactly its session text was written.
    ensures whole { OnOk result (IsWholeSession (I.left source.old) (I.left source.new) (O.written sink.old) (O.written sink.new)) }
    // Any session text of the input is the one that was written.
    ensures only { OnOk result (IfSome (I.left source.old) (λ input. (output : List ℕ) → IsSession input output
        → Appends (O.written sink.old) (O.written sink.new) output)) }
    // No read, write or flush failed.
    ensures no_failed_read { OnOk result (I.failed_reads source.new ≡ I.failed_reads source.old) }
    ensures no_failed_write { OnOk result (O.failed_writes sink.new ≡ O.failed_writes sink.old) }
    // The sink holds back nothing.
    ensures sent { OnOk result (O.held sink.new ≡ 0) }
    // The session made at most 4,294,967,296 reads, however it ended.
    ensures few_reads { I.reads source.new ≤ I.reads source.old + 2 ^ 32 }
    // After an error, a prefix of the session text was written, and the counts of calls show the error's cause.
    ensures short { IfErr result (λ f. IsCutShort f (I.left source.old) (I.left source.new) (O.written sink.old) (O.written sink.new)) }
    ensures cause { IfErr result (λ f. HasCause f (calls (I.reads source.old) (I.failed_reads source.old) (O.failed_writes sink.old))
        (calls (I.reads source.new) (I.failed_reads source.new) (O.failed_writes sink.new))) }
    // The answers before the error were written, and the sink holds back none of them, unless a write failed.
    ensures kept { IfErr result (λ f. f ≢ faults.Write
        → HasAnswered f (I.left source.old) (I.left source.new) (O.written sink.old) (O.written sink.new)) }
    ensures kept_sent { IfErr result (λ f. f ≢ faults.Write → O.held sink.new ≤ O.held sink.old) }
{
    covsession::session::session::<I, O, A, Store<A>>(alloc, source, sink)
}

/// Runs a session as a program does, as `covsession::run_session` does.
pub fn run_session<I: Source, O: Sink, E: Sink, A: Allocator + Copy>(
    alloc: A,
    source: &mut I,
    sink: &mut O,
    faults: &mut E,
) -> u8
    requires reads { I.reads source.old < 2 ^ 62 }
    requires failed_reads { I.failed_reads source.old < 2 ^ 62 }
    requires failed_writes { O.failed_writes sink.old < 2 ^ 62 }
    requires failed_words { E.failed_writes faults.old < 2 ^ 62 }
    ensures { TellsSession result (I.left source.old) (I.left source.new) (O.written sink.old) (O.written sink.new)
        (E.written faults.old) (E.written faults.new) (O.held sink.old) (O.held sink.new)
        (calls (I.reads source.old) (I.failed_reads source.old) (O.failed_writes sink.old))
        (calls (I.reads source.new) (I.failed_reads source.new) (O.failed_writes sink.new))
        (E.failed_writes faults.old) (E.failed_writes faults.new) }
{
    covsession::run_session::<I, O, E, A, Store<A>>(alloc, source, sink, faults)
}
