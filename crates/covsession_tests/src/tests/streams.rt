//! Sources and sinks that are slow or narrow, fail, hold bytes back, or pass very many bytes.

ghost use Rattle.std.specs.Prelude.{None, length, ◌-◌};

use super::session_end;
use covnamed::run_session;
use covsession::session::SessionFault;
use covstream::{Failed, FromRead, FromWrite, Sink, Source};
use std::alloc::Global;
use std::cell::Cell;
use std::io::{self, Read, Write};
use std::test::*;

/// The input of a session, 133 bytes: one tracefile twice, a report and a summary. The commands end after 59, 118, 125 and 133
/// bytes.
const INPUT: &[u8] = b"\
trace
TN:t
SF:/a.c
DA:1,2
DA:2,0
LF:2
LH:1
end_of_record
.
trace
TN:t
SF:/a.c
DA:1,2
DA:2,0
LF:2
LH:1
end_of_record
.
report
summary
";

/// The answers to `INPUT`, 222 bytes. The answers end after 25, 50, 103 and 222 bytes.
const ANSWER: &[u8] = b"\
accepted 1 items 2 odd 0
accepted 2 items 2 odd 0
TN:t
SF:/a.c
DA:1,4
DA:2,0
LF:2
LH:1
end_of_record
.
Summary coverage rate:
  lines......: 50.0% (1 of 2 lines)
  functions..: no data found
  branches...: no data found
.
";

/// A source that returns one byte per read. Only read number `good_reads` + 1 fails.
#[derive(Drop)]
struct Slow<'a> {
    input: &'a [u8],
    good_reads: usize,
    reads: u64,
    failed: u64,
}

impl<'a> Source for Slow<'a> {
    ghost left = { λ s. None };

    ghost reads = { λ s. s.reads };

    ghost failed_reads = { λ s. s.failed };

    fn read(&mut self, buffer: &mut [u8]) -> Result<usize, Failed> {
        self.reads += 1;
        if self.good_reads == 0 && self.failed == 0 {
            self.failed += 1;
            return Err(Failed);
        }
        self.good_reads = self.good_reads.saturating_sub(1);
        if buffer.is_empty() {
            return Ok(0);
        }
        let input = self.input;
        match input.split_first() {
            Some((first, rest)) => {
                buffer[0] = *first;
                self.input = rest;
                Ok(1)
            }
            None => Ok(0),
        }
    }
}

/// A sink that takes at most `width` bytes per write. Only write number `good_writes` + 1 fails.
#[derive(Drop)]
struct Narrow {
    output: Vec<u8>,
    width: usize,
    good_writes: usize,
    failed: u64,
}

impl Sink for Narrow {
    ghost written = { λ s. None };

    ghost held = { λ s. 0 };

    ghost failed_writes = { λ s. s.failed };

    fn write(&mut self, bytes: &[u8]) -> Result<usize, Failed> {
        if bytes.is_empty() {
            return Ok(0);
        }
        let count = bytes.len().min(self.width.max(1));
        if self.good_writes == 0 && self.failed == 0 {
            self.failed += 1;
            return Err(Failed);
        }
        if self.output.extend_from_slice(&bytes[..count]).is_err() {
            self.failed += 1;
            return Err(Failed);
        }
        self.good_writes = self.good_writes.saturating_sub(1);
        Ok(count)
    }

    fn flush(&mut self) -> Result<(), Failed> {
        Ok(())
    }
}

/// Runs a session on `INPUT`, with one byte per read and at most `width` bytes per write. Read number `good_reads` + 1 and write
/// number `good_writes` + 1 fail. Returns the session's result, the number of bytes written, and whether these bytes are a prefix
/// of `ANSWER`.
fn by_pieces(
    alloc: Global,
    good_reads: usize,
    width: usize,
    good_writes: usize,
) -> (Result<(), SessionFault>, usize, bool) {
    let mut source = Slow {
        input: INPUT,
        good_reads,
        reads: 0,
        failed: 0,
    };
    let mut sink = Narrow {
        output: Vec::new(alloc),
        width,
        good_writes,
        failed: 0,
    };
    let ended = session_end(alloc, &mut source, &mut sink);
    let written = sink.output.as_slice();
    (ended, written.len(), ANSWER.starts_with(written))
}

#[test]
fn one_byte_at_a_time(rt: HostRuntime) {
    assert_eq!(rt; (INPUT.len(), ANSWER.len()), (133, 222));
    for width in [1, 2, 1_000] {
        let ended = by_pieces(rt.alloc(), 1_000, width, 1_000);
        assert_eq!(rt; ended, (Ok(()), 222, true), "{width} bytes at a time");
    }
}

/// The number of bytes that a session has written after it has read `bytes` bytes of `INPUT`, and before the next read.
fn answered_to(bytes: usize) -> usize {
    match bytes {
        0..=58 => 0,
        59..=117 => 25,
        118..=124 => 50,
        125..=132 => 103,
        _ => 222,
    }
}

/// Each read in turn fails, even the read at the end of the input. The failed read ends the session, after the answers to all
/// complete commands.
#[test]
fn each_read_fails(rt: HostRuntime) {
    for good_reads in 0..=133 {
        let ended = by_pieces(rt.alloc(), good_reads, 1, 1_000);
        let wanted = (Err(SessionFault::Read), answered_to(good_reads), true);
        assert_eq!(rt; ended, wanted, "after {good_reads} reads");
    }
    assert_eq!(rt; by_pieces(rt.alloc(), 134, 1, 1_000), (Ok(()), 222, true));
}

/// Each write of a byte in turn fails. The failed write ends the session, after the bytes before.
#[test]
fn each_write_fails(rt: HostRuntime) {
    for good_writes in 0..222 {
        let ended = by_pieces(rt.alloc(), 1_000, 1, good_writes);
        let wanted = (Err(SessionFault::Write), good_writes, true);
        assert_eq!(rt; ended, wanted, "after {good_writes} writes");
    }
    assert_eq!(rt; by_pieces(rt.alloc(), 1_000, 1, 222), (Ok(()), 222, true));
}

/// Each write of a whole answer in turn fails. Each answer is one write, since the output is written before the next read.
#[test]
fn each_answer_fails(rt: HostRuntime) {
    let mut good_writes = 0;
    for written in [0, 25, 50, 103] {
        let ended = by_pieces(rt.alloc(), 1_000, 1_000, good_writes);
        let wanted = (Err(SessionFault::Write), written, true);
        assert_eq!(rt; ended, wanted, "after {good_writes} answers");
        good_writes = good_writes.saturating_add(1);
    }
    assert_eq!(rt;
        by_pieces(rt.alloc(), 1_000, 1_000, good_writes),
        (Ok(()), 222, true)
    );
}

/// A sink that holds all bytes back until it is flushed.
#[derive(Drop)]
struct Holding {
    held: Vec<u8>,
    sent: usize,
    can_send: bool,
    failed: u64,
}

impl Sink for Holding {
    ghost written = { λ s. None };

    ghost held = { λ s. length s.held.items - s.sent };

    ghost failed_writes = { λ s. s.failed };

    fn write(&mut self, bytes: &[u8]) -> Result<usize, Failed> {
        if bytes.is_empty() {
            return Ok(0);
        }
        match self.held.extend_from_slice(bytes) {
            Ok(()) => Ok(bytes.len()),
            Err(_) => {
                self.failed += 1;
                Err(Failed)
            }
        }
    }

    fn flush(&mut self) -> Result<(), Failed> {
        if !self.can_send {
            self.failed += 1;
            return Err(Failed);
        }
        self.sent = self.held.len();
        Ok(())
    }
}

/// Runs a session on `INPUT` with a sink that holds bytes back until it is flushed. A flush fails unless `can_send` is true.
/// Returns the session's result, and whether all of `ANSWER` was flushed.
fn by_flushes(alloc: Global, can_send: bool) -> (Result<(), SessionFault>, bool) {
    let mut source = FromRead::new(INPUT);
    let mut sink = Holding {
        held: Vec::new(alloc),
        sent: 0,
        can_send,
        failed: 0,
    };
    let ended = session_end(alloc, &mut source, &mut sink);
    let sent = sink.sent == ANSWER.len() && sink.held.as_slice() == ANSWER;
    (ended, sent)
}

#[test]
fn a_writer_that_holds_back(rt: HostRuntime) {
    assert_eq!(rt; by_flushes(rt.alloc(), true), (Ok(()), true));
    assert_eq!(rt;
        by_flushes(rt.alloc(), false),
        (Err(SessionFault::Write), false)
    );
}

/// The state that a session's source and sink share: how many written bytes are not yet flushed, and how often bytes were flushed.
#[derive(Drop)]
struct Wire {
    unsent: Cell<usize>,
    flushes: Cell<usize>,
}

/// A source that returns one byte per read. `starved` notes whether a read came before all output was flushed: a user who waits for
/// each answer before the next command would then wait for ever.
#[derive(Drop)]
struct Waiting<'a> {
    input: &'a [u8],
    wire: &'a Wire,
    starved: bool,
    reads: u64,
}

impl<'a> Source for Waiting<'a> {
    ghost left = { λ s. None };

    ghost reads = { λ s. s.reads };

    ghost failed_reads = { λ s. 0 };

    fn read(&mut self, buffer: &mut [u8]) -> Result<usize, Failed> {
        self.reads += 1;
        if self.wire.unsent.get() > 0 {
            self.starved = true;
        }
        let input = self.input;
        match input.split_first() {
            Some((first, rest)) if !buffer.is_empty() => {
                buffer[0] = *first;
                self.input = rest;
                Ok(1)
            }
            _ => Ok(0),
        }
    }
}

/// A sink that holds all bytes back until it is flushed. Only flush number `good_flushes` + 1 fails.
#[derive(Drop)]
struct Buffered<'a> {
    wire: &'a Wire,
    written: usize,
    unsent: usize,
    good_flushes: usize,
    failed: u64,
}

impl<'a> Sink for Buffered<'a> {
    ghost written = { λ s. None };

    ghost held = { λ s. s.unsent };

    ghost failed_writes = { λ s. s.failed };

    fn write(&mut self, bytes: &[u8]) -> Result<usize, Failed> {
        self.written = self.written.saturating_add(bytes.len());
        self.unsent = self.unsent.saturating_add(bytes.len());
        self.wire.unsent.set(self.unsent);
        Ok(bytes.len())
    }

    fn flush(&mut self) -> Result<(), Failed> {
        let flushes = self.wire.flushes.get();
        if flushes == self.good_flushes && self.failed == 0 {
            self.failed += 1;
            return Err(Failed);
        }
        self.wire.flushes.set(flushes.saturating_add(1));
        self.unsent = 0;
        self.wire.unsent.set(0);
        Ok(())
    }
}

/// Runs a session on `INPUT` in which only flush number `good_flushes` + 1 fails. Returns the session's result, the number of bytes
/// written, the number of successful flushes, and whether a read came before all output was flushed.
fn over_a_wire(
    alloc: Global,
    good_flushes: usize,
) -> (Result<(), SessionFault>, usize, usize, bool) {
    let wire = Wire {
        unsent: Cell::new(0),
        flushes: Cell::new(0),
    };
    let mut source = Waiting {
        input: INPUT,
        wire: &wire,
        starved: false,
        reads: 0,
    };
    let mut sink = Buffered {
        wire: &wire,
        written: 0,
        unsent: 0,
        good_flushes,
        failed: 0,
    };
    let ended = session_end(alloc, &mut source, &mut sink);
    (ended, sink.written, wire.flushes.get(), source.starved)
}

/// Each answer is flushed before the next read. There are five flushes: one before the first read, and one after each of the four
/// answers. No other read needs a flush, since nothing new was written.
#[test]
fn answers_are_sent_on_before_a_read(rt: HostRuntime) {
    let ended = over_a_wire(rt.alloc(), 1_000);
    assert_eq!(rt; ended, (Ok(()), 222, 5, false));
}

/// Each flush in turn fails. The failed flush ends the session without further answers.
#[test]
fn each_flush_fails(rt: HostRuntime) {
    let mut good_flushes = 0;
    for written in [0, 25, 50, 103, 222] {
        let ended = over_a_wire(rt.alloc(), good_flushes);
        let wanted = (Err(SessionFault::Write), written, good_flushes, false);
        assert_eq!(rt; ended, wanted, "after {good_flushes} flushes");
        good_flushes = good_flushes.saturating_add(1);
    }
}

/// A writer of std whose flush fails.
#[derive(Drop)]
struct Stuck;

impl Write for Stuck {
    fn write(&mut self, bytes: &[u8]) -> io::Result<usize> {
        Ok(bytes.len())
    }

    fn flush(&mut self) -> io::Result<()> {
        Err(io::Error::from(io::ErrorKind::BrokenPipe))
    }
}

#[test]
fn a_writer_that_cannot_send_on(rt: HostRuntime) {
    let mut source = FromRead::new(INPUT);
    let mut sink = FromWrite::new(Stuck);
    assert_eq!(rt;
        session_end(rt.alloc(), &mut source, &mut sink),
        Err(SessionFault::Write)
    );
}

/// A reader and writer of std. Only the first call fails, and no call if `failed` is set from the start.
#[derive(Drop)]
struct FailsOnce {
    failed: bool,
}

impl Read for FailsOnce {
    fn read(&mut self, _buffer: &mut [u8]) -> io::Result<usize> {
        if self.failed {
            return Ok(0);
        }
        self.failed = true;
        Err(io::Error::from(io::ErrorKind::Interrupted))
    }
}

impl Write for FailsOnce {
    fn write(&mut self, bytes: &[u8]) -> io::Result<usize> {
        if self.failed {
            return Ok(bytes.len());
        }
        self.failed = true;
        Err(io::Error::from(io::ErrorKind::Interrupted))
    }

    fn flush(&mut self) -> io::Result<()> {
        Ok(())
    }
}

/// A failed call of std isn't repeated, not even after the error `Interrupted`.
#[test]
fn a_failed_call_is_not_made_again(rt: HostRuntime) {
    let mut source = FromRead::new(FailsOnce { failed: false });
    let mut sink = FromWrite::new(FailsOnce { failed: true });
    assert_eq!(rt;
        session_end(rt.alloc(), &mut source, &mut sink),
        Err(SessionFault::Read)
    );
    let mut source = FromRead::new(INPUT);
    let mut sink = FromWrite::new(FailsOnce { failed: false });
    assert_eq!(rt;
        session_end(rt.alloc(), &mut source, &mut sink),
        Err(SessionFault::Write)
    );
}

/// Runs a session on `INPUT` with a std writer that has capacity for `bytes` bytes. Returns the session's result, and whether the
/// writer is filled with a prefix of `ANSWER`.
fn into_room(alloc: Global, bytes: usize) -> Result<(Result<(), SessionFault>, bool), Fail> {
    let mut room = vec![in alloc; b'?'; bytes]?;
    let ended = {
        let mut source = FromRead::new(INPUT);
        let mut sink = FromWrite::new(room.as_mut_slice());
        session_end(alloc, &mut source, &mut sink)
    };
    Ok((ended, ANSWER.starts_with(room.as_slice())))
}

/// A session ends with the error `Write` when its std writer is full: at the first write if the writer has no capacity, else later.
#[test]
fn a_writer_that_is_full(rt: HostRuntime) -> Result<(), Fail> {
    for bytes in 0..222 {
        let ended = into_room(rt.alloc(), bytes)?;
        assert_eq!(rt;
            ended,
            (Err(SessionFault::Write), true),
            "room for {bytes} bytes"
        );
    }
    assert_eq!(rt; into_room(rt.alloc(), 222)?, (Ok(()), true));
    Ok(())
}

/// A source whose first `commands` reads each return the command `summary`.
#[derive(Drop)]
struct Repeated {
    commands: u64,
    reads: u64,
}

impl Source for Repeated {
    ghost left = { λ s. None };

    ghost reads = { λ s. s.reads };

    ghost failed_reads = { λ s. 0 };

    fn read(&mut self, buffer: &mut [u8]) -> Result<usize, Failed> {
        self.reads += 1;
        if self.commands == 0 {
            return Ok(0);
        }
        self.commands -= 1;
        let line = b"summary\n";
        let count = line.len().min(buffer.len());
        buffer[..count].copy_from_slice(&line[..count]);
        Ok(count)
    }
}

/// A sink that only counts bytes.
#[derive(Drop)]
struct Counting {
    bytes: u64,
}

impl Sink for Counting {
    ghost written = { λ s. None };

    ghost held = { λ s. 0 };

    ghost failed_writes = { λ s. 0 };

    fn write(&mut self, bytes: &[u8]) -> Result<usize, Failed> {
        self.bytes = self.bytes.saturating_add(bytes.len() as u64);
        Ok(bytes.len())
    }

    fn flush(&mut self) -> Result<(), Failed> {
        Ok(())
    }
}

/// Runs a session of `commands` summaries of an empty book. Returns the exit status, and the numbers of bytes in the answers and in
/// the error message.
fn summaries(alloc: Global, commands: u64) -> (u8, u64, u64) {
    let mut source = Repeated { commands, reads: 0 };
    let mut sink = Counting { bytes: 0 };
    let mut faults = Counting { bytes: 0 };
    let status = run_session(alloc, &mut source, &mut sink, &mut faults);
    (status, sink.bytes, faults.bytes)
}

/// A session's history has at most 1,048,576 entries. Each summary of an empty book has 112 bytes, including the last line `.`, and
/// the error message `book full` has 10 bytes.
#[test]
fn a_full_book(rt: HostRuntime) {
    let most = 1_048_576;
    let bytes = 117_440_512;
    assert_eq!(rt; summaries(rt.alloc(), most), (0, bytes, 0));
    assert_eq!(rt; summaries(rt.alloc(), most + 1), (3, bytes, 10));
}

/// A source whose first `blocks` reads each return the same 24 commands.
#[derive(Drop)]
struct Blocks {
    blocks: u64,
    reads: u64,
}

impl Source for Blocks {
    ghost left = { λ s. None };

    ghost reads = { λ s. s.reads };

    ghost failed_reads = { λ s. 0 };

    fn read(&mut self, buffer: &mut [u8]) -> Result<usize, Failed> {
        self.reads += 1;
        if self.blocks == 0 {
            return Ok(0);
        }
        self.blocks -= 1;
        let lines =
            b"drop x\ndrop x\ndrop x\ndrop x\ndrop x\ndrop x\ndrop x\ndrop x\ndrop x\ndrop x\ndrop x\ndrop x\ndrop x\ndrop x\ndrop x\ndrop x\ndrop x\ndrop x\ndrop x\ndrop x\ndrop x\ndrop x\ndrop x\ndrop x\n";
        let count = lines.len().min(buffer.len());
        buffer[..count].copy_from_slice(&lines[..count]);
        Ok(count)
    }
}

/// A session that ends because its history is full has answered all earlier commands: 1,048,576 drops in an empty book, each with a
/// line of 13 bytes. The last 16 of these commands are in block 43,691, in which the session ends.
#[test]
fn a_full_book_loses_no_answer(rt: HostRuntime) {
    let mut source = Blocks {
        blocks: 43_700,
        reads: 0,
    };
    let mut sink = Counting { bytes: 0 };
    let mut faults = Counting { bytes: 0 };
    let status = run_session(rt.alloc(), &mut source, &mut sink, &mut faults);
    assert_eq!(rt; (status, sink.bytes, faults.bytes), (3, 13_631_488, 10));
    assert_eq!(rt; source.reads, 43_691);
}

/// Runs a session whose reads and writes fail as in `by_pieces`. Returns the exit status, and whether the error message is `words`.
fn end_of(alloc: Global, good_reads: usize, good_writes: usize, words: &[u8]) -> (u8, bool) {
    let mut source = Slow {
        input: INPUT,
        good_reads,
        reads: 0,
        failed: 0,
    };
    let mut sink = Narrow {
        output: Vec::new(alloc),
        width: 1,
        good_writes,
        failed: 0,
    };
    let mut said: Vec<u8> = Vec::new(alloc);
    let status = {
        let mut faults = FromWrite::new(&mut said);
        run_session(alloc, &mut source, &mut sink, &mut faults)
    };
    (status, said.as_slice() == words)
}

#[test]
fn exit_status_and_words(rt: HostRuntime) {
    let alloc = rt.alloc();
    assert_eq!(rt; end_of(alloc, 1_000, 1_000, b""), (0, true));
    assert_eq!(rt; end_of(alloc, 40, 1_000, b"read fault\n"), (1, true));
    assert_eq!(rt; end_of(alloc, 1_000, 30, b"write fault\n"), (1, true));
}

#[test]
fn numbers_of_faults(rt: HostRuntime) {
    let numbers = [
        SessionFault::Read.number(),
        SessionFault::Write.number(),
        SessionFault::Memory.number(),
        SessionFault::Full.number(),
    ];
    assert_eq!(rt; numbers, [1, 2, 3, 4]);
}
