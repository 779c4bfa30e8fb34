//! The buffered input of a session.

ghost use Rattle.std.specs.Prelude.{◌≡◌, ◌≢◌, ℕ, ◌-◌, ◌+◌, ◌^◌, ◌<◌, ◌≤◌, List, [], ◌∷◌, ◌++◌, length, take, drop, IfOk, IfErr, OnOk, OnErr};
ghost use Rattle.std.specs.Io.KnownBytes.{IsAtEnd};
ghost use Rattle.covdata.specs.Delimiters.{line_feed};
ghost use Rattle.covline.specs.Lines.{before_feed};
ghost use Rattle.covsession.specs.Broken.{FailsTaking, IsIdle, IsLinePart, Stalls};
ghost use Rattle.covsession.specs.Streams.{unread, turns, moment, CanRead, CanCall, Takes, Moves, TakesPart, TakesLine};
ghost use Rattle.covsession.specs.Text.{AreLines, HasCollected};
ghost use Rattle.covsession.specs.declared.session.fault.SessionFault.TheVariants as session_faults;

use crate::session::fault::SessionFault;
use crate::session::lines::whole_lines_len;
use crate::session::output::Output;
use crate::session::text::{LineEnd, Text};
use covstream::{Sink, Source};
use memchr::memchr;
use std::alloc::Allocator;
use std::marker::Model;

/// The number of bytes that one read requests.
const BLOCK_BYTES: usize = 65_536;

/// The greatest number of reads of a session.
const MAX_READS: u64 = 4_294_967_296;

/// Allocates a block to read into.
pub fn block<A: Allocator>(alloc: A) -> Result<Vec<u8, A>, SessionFault>
    ensures room { IfOk result (λ block. length block.items ≡ 65536) }
    ensures fault { IfErr result (λ f. f ≡ session_faults.Memory) }
{
    Ok(vec![in alloc; 0; BLOCK_BYTES]?)
}

/// Bytes that were read but not yet consumed, and the source of further bytes. Contracts see both, and how many reads were made,
/// failed, and may follow.
#[derive(Drop)]
pub struct SessionInput<'s, I: Source, A: Allocator> {
    bytes: Vec<u8, A>,
    from: usize,
    to: usize,
    reads_left: u64,
    source: &'s mut I,
}

impl<'s, I: Source, A: Allocator> Model for SessionInput<'s, I, A> {
    ghost use Rattle.std.specs.Prelude.{◌≡◌, ◌≤◌, take, drop, length};
    ghost use Rattle.covsession.specs.Streams.{InputData};

    ghost Value = { InputData };

    ghost view = { λ i. record {
      pending = drop i.from (take i.to i.bytes.items);
      left = I.left i.source.now;
      reads_left = i.reads_left;
      reads = I.reads i.source.now;
      failed_reads = I.failed_reads i.source.now;
      source = i.source.ghost_name;
    } };

    ghost invariant = { λ i. (i.from ≤ i.to) × (i.to ≤ 65536) × (length i.bytes.items ≡ 65536) };
}

impl<'s, I: Source, A: Allocator> SessionInput<'s, I, A> {
    /// The input from `source`, before the first read. `block` is the buffer for reads.
    pub fn new(block: Vec<u8, A>, source: &'s mut I) -> SessionInput<'s, I, A>
        requires { length block.items ≡ 65536 }
        ensures empty { result.pending ≡ [] }
        ensures fresh { result.reads_left ≡ 2 ^ 32 }
        ensures left { result.left ≡ I.left source.old }
        ensures reads { result.reads ≡ I.reads source.old }
        ensures failed { result.failed_reads ≡ I.failed_reads source.old }
        ensures same { result.source ≡ source.entry.ghost_name }
    {
        SessionInput {
            bytes: block,
            from: 0,
            to: 0,
            reads_left: MAX_READS,
            source,
        }
    }

    /// Returns the source.
    pub fn into_source(self) -> &'s mut I
        ensures left { I.left result.now ≡ self.entry.left }
        ensures reads { I.reads result.now ≡ self.entry.reads }
        ensures failed { I.failed_reads result.now ≡ self.entry.failed_reads }
        ensures same { result.ghost_name ≡ self.entry.source }
    {
        let SessionInput { bytes, source, .. } = self;
        drop(bytes);
        source
    }

    // The bytes that are not yet consumed.
    fn pending(&self) -> &[u8]
        ensures { result.now ≡ self.now.pending }
    {
        &self.bytes[self.from..self.to]
    }

    // Returns how many pending bytes come before the first line feed, or how many bytes are pending if there is no line feed.
    fn feed_at(&self) -> usize
        ensures front { before_feed self.now.pending ≡ take result self.now.pending }
        ensures bound { result ≤ length self.now.pending }
        ensures feed { result < length self.now.pending → drop result self.now.pending ≡ line_feed ∷ drop (result + 1) self.now.pending }
    {
        let pending = self.pending();
        match memchr(b'\n', pending) {
            Some(at) => at,
            None => pending.len(),
        }
    }

    // Consumes `count` bytes.
    fn take(&mut self, count: usize)
        requires { count ≤ length self.old.pending }
        ensures { self.new ≡ record self.old { pending = drop count self.old.pending } }
    {
        self.from += count;
    }

    // Reads the next block. All bytes of the last block must be consumed, and all output written and flushed: the writer of the
    // commands may be waiting for the answers.
    fn read<O: Sink>(&mut self, output: &Output<'_, O, A>) -> Result<(), SessionFault>
        requires taken { self.old.pending ≡ [] }
        requires answered { output.now.waiting ≡ [] }
        requires sent { output.now.held ≡ 0 }
        requires few { CanRead self.old }
        ensures took { OnOk result (Takes self.old self.new []) }
        ensures ended { OnOk result (self.new.pending ≡ [] → IsAtEnd self.new.left) }
        ensures fewer { OnOk result (turns self.new < turns self.old) }
        ensures fault { IfErr result (λ f. f ≡ session_faults.Read) }
        // Fails only if no read is left, or if the read failed. A failure consumes no bytes.
        ensures stalls { OnErr result (Stalls self.old self.new) }
    {
        if self.reads_left == 0 {
            return Err(SessionFault::Read);
        }
        self.reads_left -= 1;
        self.from = 0;
        self.to = 0;
        let Ok(count) = self.source.read(self.bytes.as_mut_slice()) else {
            return Err(SessionFault::Read);
        };
        self.to = count;
        Ok(())
    }

    // Makes sure that a byte is pending, unless the source is at its end. Writes and flushes the output before a read.
    fn fill<O: Sink>(&mut self, output: &mut Output<'_, O, A>) -> Result<(), SessionFault>
        requires { CanCall (moment self.old output.old) }
        ensures moves { OnOk result (Moves (moment self.old output.old) (moment self.new output.new) [] []) }
        ensures ended { OnOk result (self.new.pending ≡ [] → IsAtEnd (unread self.new)) }
        ensures fewer { OnOk result (turns self.new ≤ turns self.old) }
        ensures shown { OnOk result (self.old.pending ≡ [] → IsIdle output.new) }
        ensures fault { IfErr result (λ f. f ≢ session_faults.Full) }
        ensures fails { IfErr result (λ f. FailsTaking (λ bytes. bytes ≡ []) (moment self.old output.old) (moment self.new output.new) f) }
    {
        if !self.pending().is_empty() {
            return Ok(());
        }
        output.send_on()?;
        self.read(output)
    }

    // Moves the pending part of a line to `text`. Returns whether the line feed was consumed too.
    fn take_part(&mut self, text: &mut Text<A>) -> Result<bool, SessionFault>
        ensures taken { IfOk result (λ whole. (part : List ℕ) × (before_feed part ≡ part)
            × TakesPart whole self.old.pending part self.new.pending
            × ((before : List ℕ) → (now : List ℕ) → HasCollected text.old before now → HasCollected text.new before (now ++ part))) }
        ensures limit { OnOk result (text.new.limit ≡ text.old.limit) }
        ensures kept { OnOk result (self.new ≡ record self.old { pending = self.new.pending }) }
        ensures fault { IfErr result (λ f. f ≡ session_faults.Memory) }
        ensures same { OnErr result (self.new ≡ self.old) }
    {
        let count = self.feed_at();
        let pending = self.pending();
        if count < pending.len() {
            text.add(&pending[..count])?;
            self.take(count + 1);
            return Ok(true);
        }
        text.add(pending)?;
        self.take(count);
        Ok(false)
    }

    /// Moves pending whole lines to `text`, up to the first line that begins with a dot. The current line of `text` must still be
    /// empty.
    pub fn take_lines(&mut self, text: &mut Text<A>) -> Result<(), SessionFault>
        ensures taken { OnOk result ((lines : List ℕ) × AreLines lines × (self.old.pending ≡ lines ++ self.new.pending)
            × ((before : List ℕ) → HasCollected text.old before [] → HasCollected text.new (before ++ lines) [])) }
        ensures limit { OnOk result (text.new.limit ≡ text.old.limit) }
        ensures kept { OnOk result (self.new ≡ record self.old { pending = self.new.pending }) }
        ensures fewer { OnOk result (turns self.new ≤ turns self.old) }
        ensures fault { IfErr result (λ f. f ≡ session_faults.Memory) }
        ensures same { OnErr result (self.new ≡ self.old) }
    {
        let pending = self.pending();
        let count = whole_lines_len(pending);
        text.add_lines(&pending[..count])?;
        self.take(count);
        Ok(())
    }

    /// Moves the next line to `text`, without the line feed, and returns how the line ended.
    pub fn take_line<O: Sink>(
        &mut self,
        text: &mut Text<A>,
        output: &mut Output<'_, O, A>,
    ) -> Result<LineEnd, SessionFault>
        requires { CanCall (moment self.old output.old) }
        ensures taken { IfOk result (λ ending. (line : List ℕ)
            × TakesLine (moment self.old output.old) (moment self.new output.new) line ending
            × ((before : List ℕ) → (now : List ℕ) → HasCollected text.old before now → HasCollected text.new before (now ++ line))) }
        ensures limit { OnOk result (text.new.limit ≡ text.old.limit) }
        ensures fault { IfErr result (λ f. f ≢ session_faults.Full) }
        ensures fails { IfErr result (λ f. FailsTaking IsLinePart (moment self.old output.old) (moment self.new output.new) f) }
    {
        loop {
            self.fill(output)?;
            if self.pending().is_empty() {
                return Ok(LineEnd::Input);
            }
            if self.take_part(text)? {
                return Ok(LineEnd::Feed);
            }
        }
    }
}
