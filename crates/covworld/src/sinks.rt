//! The two streams that a run writes to.

ghost use Rattle.std.specs.Prelude.{◌≡◌, ◌<◌, ◌≤◌, ◌^◌, ◌++◌, IfErr, OnErr, OnOk, suc};
ghost use Rattle.std.specs.Io.KnownBytes.{Appends};
ghost use Rattle.covsession.specs.Fault.{HasBegun, calls};
ghost use Rattle.covsession.specs.Program.{TellsSession};
ghost use Rattle.covsession.specs.declared.session.fault.SessionFault.TheVariants as session_faults;
ghost use Rattle.covworld.specs.Streams.{CanWrite, Complains, IsSilent, PutsOut, Withholds};

use crate::ready_text::ReadyText;
use covreport::Table;
use covsession::{SessionFault, put_bytes, run_session};
use covstream::{Sink, Source};
use std::alloc::Global;
use std::marker::Model;

/// The two streams that a run writes to. Contracts see the bytes that each of them has taken, and how many of its calls failed.
#[derive(Drop)]
pub struct Sinks<O: Sink, E: Sink> {
    /// Takes the text of a run.
    pub output: O,
    /// Takes the complaints of a run.
    pub faults: E,
}

impl<O: Sink, E: Sink> Model for Sinks<O, E> {
    ghost use Rattle.covworld.specs.Streams.{SinksData};

    ghost Value = { SinksData };

    ghost view = { λ s. record {
      output = O.written s.output;
      held = O.held s.output;
      failed_output = O.failed_writes s.output;
      faults = E.written s.faults;
      failed_faults = E.failed_writes s.faults;
    } };
}

impl<O: Sink, E: Sink> Sinks<O, E> {
    /// Runs a session that reads `input` and writes to the two streams, and returns the exit status.
    pub fn serve<I: Source, T: Table<Global>>(&mut self, alloc: Global, input: &mut I) -> u8
        requires reads { I.reads input.old < 2 ^ 62 }
        requires failed_reads { I.failed_reads input.old < 2 ^ 62 }
        requires sinks { CanWrite self.old }
        ensures { TellsSession result (I.left input.old) (I.left input.new) self.old.output self.new.output self.old.faults self.new.faults
            self.old.held self.new.held
            (calls (I.reads input.old) (I.failed_reads input.old) self.old.failed_output)
            (calls (I.reads input.new) (I.failed_reads input.new) self.new.failed_output)
            self.old.failed_faults self.new.failed_faults }
    {
        run_session::<I, O, E, Global, T>(alloc, input, &mut self.output, &mut self.faults)
    }

    /// Writes the whole text to the output, and flushes the output. After an error, which is `Write`, the output has a prefix of
    /// the text.
    pub fn put_out(&mut self, text: &[u8]) -> Result<(), SessionFault>
        requires { self.old.failed_output < 2 ^ 62 }
        ensures written { OnOk result (PutsOut text.now self.old self.new) }
        ensures failed { OnErr result (self.new.failed_output ≡ suc self.old.failed_output) }
        ensures begun { OnErr result (HasBegun self.old.output self.new.output text.now) }
        ensures silent { IsSilent self.old self.new }
        ensures fault { IfErr result (λ fault. fault ≡ session_faults.Write) }
    {
        send(text, &mut self.output)?;
        Ok(())
    }

    /// Prints the text to the output, and flushes the output. Never allocates. After an error, which is `Write`, the output has a
    /// prefix of the text.
    pub fn print<T: Table<Global>>(&mut self, text: ReadyText<'_, T>) -> Result<(), SessionFault>
        requires { self.old.failed_output < 2 ^ 62 }
        ensures written { OnOk result (PutsOut text.entry self.old self.new) }
        ensures failed { OnErr result (self.new.failed_output ≡ suc self.old.failed_output) }
        ensures begun { OnErr result (HasBegun self.old.output self.new.output text.entry) }
        ensures silent { IsSilent self.old self.new }
        ensures fault { IfErr result (λ fault. fault ≡ session_faults.Write) }
    {
        text.print(&mut self.output)?;
        Ok(())
    }

    /// Writes `front` and then `words` to the error stream. Ignores a failed write, since there is no other stream to report it on.
    pub fn say(&mut self, front: &[u8], words: &[u8])
        requires { self.old.failed_faults < 2 ^ 63 }
        ensures said { Complains (front.now ++ words.now) self.old self.new }
        ensures withheld { Withholds self.old self.new }
        ensures grows { self.old.failed_faults ≤ self.new.failed_faults }
        ensures few { self.new.failed_faults ≤ suc self.old.failed_faults }
    {
        if put_bytes(front, &mut self.faults).is_ok() {
            let _ = put_bytes(words, &mut self.faults);
        }
    }
}

/// Writes the whole text to `sink`, and flushes the sink.
fn send<S: Sink>(text: &[u8], sink: &mut S) -> Result<(), SessionFault>
    requires { S.failed_writes sink.old < 2 ^ 62 }
    ensures written { OnOk result (Appends (S.written sink.old) (S.written sink.new) text.now) }
    ensures sent { OnOk result (S.held sink.new ≡ 0) }
    ensures good { OnOk result (S.failed_writes sink.new ≡ S.failed_writes sink.old) }
    ensures failed { OnErr result (S.failed_writes sink.new ≡ suc (S.failed_writes sink.old)) }
    ensures begun { OnErr result (HasBegun (S.written sink.old) (S.written sink.new) text.now) }
    ensures fault { IfErr result (λ fault. fault ≡ session_faults.Write) }
{
    put_bytes(text, sink)?;
    match sink.flush() {
        Ok(()) => Ok(()),
        Err(_) => Err(SessionFault::Write),
    }
}
