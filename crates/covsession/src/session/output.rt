//! The buffered output of a session, so that many answers are written at once.

ghost use Rattle.std.specs.Prelude.{◌≡◌, ◌≢◌, ◌^◌, ◌+◌, ◌<◌, ◌≤◌, [], length, IfErr, OnOk, OnErr};
ghost use Rattle.std.specs.Io.KnownBytes.{Appends};
ghost use Rattle.covsession.specs.Broken.{Breaks, IsIdle, StopsAs};
ghost use Rattle.covsession.specs.Fault.{HasBegun};
ghost use Rattle.covsession.specs.Streams.{Says};
ghost use Rattle.covsession.specs.declared.session.fault.SessionFault.TheVariants as session_faults;

use crate::session::fault::SessionFault;
use covstream::Sink;
use std::alloc::Allocator;
use std::marker::Model;

/// The greatest number of buffered bytes.
const MAX_WAITING: usize = 65_536;

/// Buffered bytes, and the sink that they will be written to. Contracts see both, how many bytes the sink holds back, and how many
/// calls of the sink failed.
#[derive(Drop)]
pub struct Output<'s, O: Sink, A: Allocator> {
    waiting: Vec<u8, A>,
    // Whether the sink is known to hold back nothing.
    is_sent: bool,
    sink: &'s mut O,
}

impl<'s, O: Sink, A: Allocator> Model for Output<'s, O, A> {
    ghost use Rattle.std.specs.Prelude.{◌≡◌, IsTrue};
    ghost use Rattle.covsession.specs.Streams.{OutputData};

    ghost Value = { OutputData };

    ghost view = { λ o. record {
      waiting = o.waiting.items;
      written = O.written o.sink.now;
      held = O.held o.sink.now;
      failed_writes = O.failed_writes o.sink.now;
      sink = o.sink.ghost_name;
    } };

    ghost invariant = { λ o. IsTrue o.is_sent → O.held o.sink.now ≡ 0 };
}

impl<'s, O: Sink, A: Allocator> Output<'s, O, A> {
    /// The output to this sink, with an empty buffer.
    pub fn new(alloc: A, sink: &'s mut O) -> Output<'s, O, A>
        ensures empty { result.waiting ≡ [] }
        ensures written { result.written ≡ O.written sink.old }
        ensures failed { result.failed_writes ≡ O.failed_writes sink.old }
        ensures same { result.sink ≡ sink.entry.ghost_name }
    {
        Output {
            waiting: Vec::new(alloc),
            is_sent: false,
            sink,
        }
    }

    /// Returns the sink. Drops buffered bytes.
    pub fn into_sink(self) -> &'s mut O
        ensures written { O.written result.now ≡ self.entry.written }
        ensures held { O.held result.now ≡ self.entry.held }
        ensures failed { O.failed_writes result.now ≡ self.entry.failed_writes }
        ensures same { result.ghost_name ≡ self.entry.sink }
    {
        let Output { waiting, sink, .. } = self;
        drop(waiting);
        sink
    }

    // Writes the buffered bytes.
    fn put_out(&mut self) -> Result<(), SessionFault>
        requires { self.old.failed_writes < 2 ^ 63 }
        ensures says { OnOk result (Says self.old self.new []) }
        ensures emptied { OnOk result (self.new.waiting ≡ []) }
        ensures fault { IfErr result (λ f. f ≡ session_faults.Write) }
        ensures breaks { IfErr result (λ f. Breaks self.old self.new f []) }
    {
        if self.waiting.is_empty() {
            return Ok(());
        }
        self.is_sent = false;
        put_bytes(self.waiting.as_slice(), self.sink)?;
        self.waiting.clear();
        Ok(())
    }

    // Writes the buffered bytes, and then `bytes`.
    fn put_through(&mut self, bytes: &[u8]) -> Result<(), SessionFault>
        requires { self.old.failed_writes < 2 ^ 63 }
        ensures says { OnOk result (Says self.old self.new bytes.now) }
        ensures emptied { OnOk result (self.new.waiting ≡ []) }
        ensures fault { IfErr result (λ f. f ≡ session_faults.Write) }
        ensures breaks { IfErr result (λ f. Breaks self.old self.new f bytes.now) }
    {
        self.put_out()?;
        self.is_sent = false;
        put_bytes(bytes, self.sink)
    }

    /// Buffers `bytes`, or writes them after the buffered ones. At most 65,536 bytes are buffered after the call. Writes at once if
    /// the buffer can't grow, so an answer is never cut short for lack of memory.
    pub fn say(&mut self, bytes: &[u8]) -> Result<(), SessionFault>
        requires { self.old.failed_writes < 2 ^ 63 }
        ensures says { OnOk result (Says self.old self.new bytes.now) }
        ensures few { OnOk result (length self.new.waiting ≤ 65536) }
        ensures fault { IfErr result (λ f. f ≢ session_faults.Full) }
        ensures write { IfErr result (λ f. f ≡ session_faults.Write) }
        ensures breaks { IfErr result (λ f. Breaks self.old self.new f bytes.now) }
    {
        if bytes.len() >= MAX_WAITING {
            return self.put_through(bytes);
        }
        if self.waiting.extend_from_slice(bytes).is_err() {
            return self.put_through(bytes);
        }
        if self.waiting.len() > MAX_WAITING {
            return self.put_out();
        }
        Ok(())
    }

    /// Writes the buffered bytes and flushes the sink.
    pub fn send_on(&mut self) -> Result<(), SessionFault>
        requires { self.old.failed_writes < 2 ^ 63 }
        ensures says { OnOk result (Says self.old self.new []) }
        ensures idle { OnOk result (IsIdle self.new) }
        ensures fault { IfErr result (λ f. f ≡ session_faults.Write) }
        ensures breaks { IfErr result (λ f. Breaks self.old self.new f []) }
    {
        self.put_out()?;
        if self.is_sent {
            return Ok(());
        }
        match self.sink.flush() {
            Ok(()) => {
                self.is_sent = true;
                Ok(())
            }
            Err(_) => Err(SessionFault::Write),
        }
    }

    /// Returns the error that ends the session after the error `fault`. Flushes the output after `Memory` and `Full`, and returns
    /// `Write` if a write or the flush fails. After `Read` nothing is left to be flushed, since the output was flushed before the
    /// read. After `Write` no further write is tried.
    pub fn stop(&mut self, fault: SessionFault) -> SessionFault
        requires { self.old.failed_writes < 2 ^ 63 }
        ensures { StopsAs self.old self.new fault result }
    {
        match fault {
            SessionFault::Read | SessionFault::Write => fault,
            SessionFault::Memory | SessionFault::Full => match self.send_on() {
                Ok(()) => fault,
                Err(failed) => failed,
            },
        }
    }
}

/// Writes all of `bytes`, in as many calls as needed. After a failed write, the sink has taken a prefix of `bytes`.
pub fn put_bytes<O: Sink>(bytes: &[u8], sink: &mut O) -> Result<(), SessionFault>
    requires { O.failed_writes sink.old < 2 ^ 63 }
    ensures written { OnOk result (Appends (O.written sink.old) (O.written sink.new) bytes.now) }
    ensures failed { OnOk result (O.failed_writes sink.new ≡ O.failed_writes sink.old) }
    ensures one { OnErr result (O.failed_writes sink.new ≡ O.failed_writes sink.old + 1) }
    ensures begun { OnErr result (HasBegun (O.written sink.old) (O.written sink.new) bytes.now) }
    ensures fault { IfErr result (λ f. f ≡ session_faults.Write) }
{
    let mut at = 0;
    while at < bytes.len() {
        let Ok(taken) = sink.write(&bytes[at..]) else {
            return Err(SessionFault::Write);
        };
        at += taken;
    }
    Ok(())
}
