//! The traits of byte streams, a source and a sink, and their implementations over std's readers and writers.

ghost use Rattle.std.specs.Prelude.{◌≡◌, ◌≢◌, ℕ, ◌+◌, ◌-◌, ◌^◌, ◌<◌, ◌≤◌, List, [], Option, None, length, min, take, MatchResult, IfOk, OnOk, OnErr};
ghost use Rattle.std.specs.Io.KnownBytes.{Consumes, Appends, Keeps, IsAtEnd, ReadConsumes, WriteAppends};

use std::io;

/// A read or a write failed.
#[derive(Clone, Copy, Debug, PartialEq, Eq)]
pub struct Failed;

/// A source of bytes, in order, that counts its reads and its failed reads.
pub trait Source {
    // The bytes that are left, if they are known.
    ghost left: { Self → Option (List ℕ) };

    // How many reads were made.
    ghost reads: { Self → ℕ };

    // How many reads failed.
    ghost failed_reads: { Self → ℕ };

    /// Reads bytes into the front of `buffer`, and returns how many: 0 only at the source's end or for an empty `buffer`. A failed
    /// read consumes no bytes.
    fn read(&mut self, buffer: &mut [u8]) -> Result<usize, Failed>
        requires few { reads self.old < 2 ^ 63 }
        requires few_failed { failed_reads self.old < 2 ^ 63 }
        ensures bound { IfOk result (λ n. n ≤ length buffer.new) }
        ensures bytes { ReadConsumes (left self.old) (left self.new) result buffer.new }
        ensures counted { reads self.new ≡ reads self.old + 1 }
        ensures good { OnOk result (failed_reads self.new ≡ failed_reads self.old) }
        ensures failed { OnErr result (failed_reads self.new ≡ failed_reads self.old + 1) };
}

/// A sink of bytes, in order, that counts its failed calls.
pub trait Sink {
    // The bytes that the sink has taken, if they are known.
    ghost written: { Self → Option (List ℕ) };

    // How many of the taken bytes the sink may still hold back.
    ghost held: { Self → ℕ };

    // How many calls failed.
    ghost failed_writes: { Self → ℕ };

    /// Takes some of `bytes`, from the front, and returns how many. Fails if the sink can take none of a non-empty slice. A failed
    /// write takes no bytes.
    fn write(&mut self, bytes: &[u8]) -> Result<usize, Failed>
        requires { failed_writes self.old < 2 ^ 63 }
        ensures bound { IfOk result (λ n. n ≤ length bytes.now) }
        ensures some { IfOk result (λ n. n ≡ 0 → length bytes.now ≡ 0) }
        ensures bytes { WriteAppends (written self.old) (written self.new) result bytes.now }
        ensures good { OnOk result (failed_writes self.new ≡ failed_writes self.old) }
        ensures failed { OnErr result (failed_writes self.new ≡ failed_writes self.old + 1) };

    /// Sends on the bytes that the sink holds back. The taken bytes stay the same.
    fn flush(&mut self) -> Result<(), Failed>
        requires { failed_writes self.old < 2 ^ 63 }
        ensures bytes { Keeps (written self.old) (written self.new) }
        ensures sent { OnOk result (held self.new ≡ 0) }
        ensures good { OnOk result (failed_writes self.new ≡ failed_writes self.old) }
        ensures failed { OnErr result (failed_writes self.new ≡ failed_writes self.old + 1) };
}

/// A reader of std as a source.
#[derive(Drop)]
pub struct FromRead<R> {
    reader: R,
    reads: u64,
    failed: u64,
}

impl<R: io::Read> FromRead<R> {
    /// The reader as a source, with no calls counted yet.
    pub fn new(reader: R) -> FromRead<R>
        ensures bytes { ⟦<FromRead<R> as Source>⟧.left result ≡ R.remaining reader }
        ensures calls { ⟦<FromRead<R> as Source>⟧.reads result ≡ 0 }
        ensures failures { ⟦<FromRead<R> as Source>⟧.failed_reads result ≡ 0 }
    {
        FromRead {
            reader,
            reads: 0,
            failed: 0,
        }
    }
}

impl<R: io::Read> Source for FromRead<R> {
    ghost left = { λ s. R.remaining s.reader };

    ghost reads = { λ s. s.reads };

    ghost failed_reads = { λ s. s.failed };

    fn read(&mut self, buffer: &mut [u8]) -> Result<usize, Failed> {
        self.reads += 1;
        match self.reader.read(buffer) {
            Ok(n) => Ok(n),
            Err(_) => {
                self.failed += 1;
                Err(Failed)
            }
        }
    }
}

/// A writer of std as a sink. The writer may hold back what was written since the last flush.
#[derive(Drop)]
pub struct FromWrite<W> {
    writer: W,
    held: u64,
    failed: u64,
}

impl<W: io::Write> FromWrite<W> {
    /// The writer as a sink, with no failures counted yet.
    pub fn new(writer: W) -> FromWrite<W>
        ensures bytes { ⟦<FromWrite<W> as Sink>⟧.written result ≡ W.contents writer }
        ensures held { ⟦<FromWrite<W> as Sink>⟧.held result ≡ 0 }
        ensures failures { ⟦<FromWrite<W> as Sink>⟧.failed_writes result ≡ 0 }
    {
        FromWrite {
            writer,
            held: 0,
            failed: 0,
        }
    }

    /// Returns the writer, without flushing it.
    pub fn into_inner(self) -> W
        ensures { W.contents result ≡ ⟦<FromWrite<W> as Sink>⟧.written self }
    {
        self.writer
    }
}

impl<W: io::Write> Sink for FromWrite<W> {
    ghost written = { λ s. W.contents s.writer };

    ghost held = { λ s. s.held };

    ghost failed_writes = { λ s. s.failed };

    // The trait's clauses, and that taken bytes count as held back.
    fn write(&mut self, bytes: &[u8]) -> Result<usize, Failed>
        requires { self.old.failed < 2 ^ 63 }
        ensures bound { IfOk result (λ n. n ≤ length bytes.now) }
        ensures some { IfOk result (λ n. n ≡ 0 → length bytes.now ≡ 0) }
        ensures bytes { WriteAppends (W.contents self.old.writer) (W.contents self.new.writer) result bytes.now }
        ensures good { OnOk result (self.new.failed ≡ self.old.failed) }
        ensures failed { OnErr result (self.new.failed ≡ self.old.failed + 1) }
        ensures held { IfOk result (λ n. self.new.held ≡ min (self.old.held + n) (2 ^ 64 - 1)) }
    {
        match self.writer.write(bytes) {
            Ok(n) if n > 0 || bytes.is_empty() => {
                self.held = self.held.saturating_add(n as u64);
                Ok(n)
            }
            _ => {
                self.failed += 1;
                Err(Failed)
            }
        }
    }

    // The trait's clauses, and that after a failed flush all that was held back still counts so.
    fn flush(&mut self) -> Result<(), Failed>
        requires { self.old.failed < 2 ^ 63 }
        ensures bytes { Keeps (W.contents self.old.writer) (W.contents self.new.writer) }
        ensures sent { OnOk result (self.new.held ≡ 0) }
        ensures good { OnOk result (self.new.failed ≡ self.old.failed) }
        ensures failed { OnErr result (self.new.failed ≡ self.old.failed + 1) }
        ensures unsent { OnErr result (self.new.held ≡ self.old.held) }
    {
        match self.writer.flush() {
            Ok(()) => {
                self.held = 0;
                Ok(())
            }
            Err(_) => {
                self.failed += 1;
                Err(Failed)
            }
        }
    }
}
