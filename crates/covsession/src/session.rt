//! Runs a session: reads commands and writes the answers to them.

ghost use Rattle.std.specs.Prelude.{◌≡◌, ◌≢◌, ◌↔◌, ◌⊎◌, ℕ, ◌+◌, ◌^◌, ◌<◌, ◌≤◌, length, List, Err, IsTrue, IfOk, IfErr, OnOk, IfSome, IfNone};
ghost use Rattle.std.specs.Io.KnownBytes.{Appends};
ghost use Rattle.covbook.specs.Step.{max_entries, ops_in};
ghost use Rattle.covsession.specs.declared.session.command.word.Format.{Format as TextFormat};
ghost use Rattle.covsession.specs.Broken.{FailsAnswering, FailsTaking, IsBroken, IsIdle, IsOpen, IsPart};
ghost use Rattle.covsession.specs.Fault.{calls, HasAnswered, HasCause, IsCutShort};
ghost use Rattle.covsession.specs.Session.{IsSession, IsWholeSession};
ghost use Rattle.covsession.specs.Streams.{moment, CanCall};
ghost use Rattle.covsession.specs.Run.{TakesCommand, IsDone, IsSentOn};
ghost use Rattle.covsession.specs.declared.session.fault.SessionFault.TheVariants as faults;

mod answers;
pub(crate) mod command;
mod fault;
mod input;
mod lines;
pub(crate) mod output;
mod rename;
mod submit;
mod text;

use crate::session::command::{Format, Word, answer_word, word_of};
use crate::session::input::{SessionInput, block};
use crate::session::output::Output;
use crate::session::rename::answer_rename;
use crate::session::submit::{Given, answer_given, take_text};
use crate::session::text::{LineEnd, Text};
pub use answers::{clash_line, refused_line};
use covbook::{Book, Entry};
use covreport::Table;
use covstream::{Sink, Source};
pub use fault::SessionFault;
pub use output::put_bytes;
use std::alloc::Allocator;
use std::mem;
use std::snapshot::Snapshot;

// The book of a session, over the store `T`. No session returns its history, so the book stores no entries: entries exist only in
// proofs.
pub(crate) type SessionBook<A, T> = Book<A, T, Snapshot<Entry<A>>>;

// Returns the format of the text after the command line `word`, or `None` if no text follows. `ending` tells how the line ended.
fn text_following(word: Word<'_>, ending: LineEnd) -> Option<Format<'_>>
    ensures text { IfSome result (λ format. (word.entry ≡ Word.Text format) × (ending ≡ LineEnd.Feed)) }
    ensures no_text { IfNone result ((format : TextFormat) → word.entry ≡ Word.Text format → ending ≡ LineEnd.Input) }
{
    match word {
        Word::Blank
        | Word::Report
        | Word::Summary
        | Word::Choose(_, _)
        | Word::Drop(_)
        | Word::Rename
        | Word::Other => None,
        Word::Text(format) => match ending {
            LineEnd::Feed => Some(format),
            LineEnd::Input => None,
        },
    }
}

// Whether two names come next: `word` is `rename`, and the line ended with a line feed.
fn names_after(word: Word<'_>, ending: LineEnd) -> bool
    ensures { IsTrue result ↔ ((word.entry ≡ Word.Rename) × (ending ≡ LineEnd.Feed)) }
{
    match word {
        Word::Blank
        | Word::Report
        | Word::Summary
        | Word::Choose(_, _)
        | Word::Drop(_)
        | Word::Text(_)
        | Word::Other => false,
        Word::Rename => match ending {
            LineEnd::Feed => true,
            LineEnd::Input => false,
        },
    }
}

// Reads the next command and answers it. Does nothing at the end of the input. Returns how the command's last line ended. `room` is
// a buffer for the command's text.
fn answer_command<I: Source, O: Sink, A: Allocator + Copy, T: Table<A>>(
    alloc: A,
    book: &mut SessionBook<A, T>,
    input: &mut SessionInput<'_, I, A>,
    output: &mut Output<'_, O, A>,
    room: &mut Vec<u8, A>,
) -> Result<LineEnd, SessionFault>
    requires { CanCall (moment input.old output.old) }
    ensures takes { IfOk result (λ ending. TakesCommand (moment input.old output.old) (moment input.new output.new)
        (ops_in book.old.entries) (ops_in book.new.entries) ending) }
    ensures full { result ≡ Err faults.Full → length book.old.entries ≡ max_entries }
    ensures fails { IfErr result (λ f. FailsTaking (IsPart IsOpen) (moment input.old output.old) (moment input.new output.new) f
        ⊎ FailsAnswering (moment input.old output.old) (moment input.new output.new) (ops_in book.old.entries) f) }
{
    let mut line = Text::new(alloc, usize::MAX);
    let ending = input.take_line(&mut line, output)?;
    let word = word_of(line.whole());
    if let Some(format) = text_following(word, ending) {
        let text_room = mem::replace(room, Vec::new(alloc));
        let (taken, ended) = take_text(text_room, input, output)?;
        answer_given(alloc, book, Given { format, taken }, room, output)?;
        return Ok(ended);
    }
    if names_after(word, ending) {
        let ended = answer_rename(alloc, book, input, output)?;
        return Ok(ended);
    }
    answer_word(alloc, book, word, output)?;
    Ok(ending)
}

// Answers all commands of `input` with a new book.
fn answer_all<I: Source, O: Sink, A: Allocator + Copy, T: Table<A>>(
    alloc: A,
    input: &mut SessionInput<'_, I, A>,
    output: &mut Output<'_, O, A>,
) -> Result<(), SessionFault>
    requires { CanCall (moment input.old output.old) }
    ensures done { OnOk result (IsDone (moment input.old output.old) (moment input.new output.new)) }
    ensures broken { IfErr result (λ f. IsBroken (moment input.old output.old) (moment input.new output.new) f) }
{
    let mut room = Vec::new(alloc);
    let mut book: SessionBook<A, T> = SessionBook::keeping(alloc);
    loop {
        match answer_command(alloc, &mut book, input, output, &mut room)? {
            LineEnd::Feed => {}
            LineEnd::Input => return Ok(()),
        }
    }
}

// Answers all commands, and flushes the answers. An error also flushes the answers before it, unless a write failed.
fn answer_to_the_end<I: Source, O: Sink, A: Allocator + Copy, T: Table<A>>(
    alloc: A,
    input: &mut SessionInput<'_, I, A>,
    output: &mut Output<'_, O, A>,
) -> Result<(), SessionFault>
    requires calls { CanCall (moment input.old output.old) }
    requires few { output.old.failed_writes < 2 ^ 62 }
    ensures ended { OnOk result (IsSentOn (moment input.old output.old) (moment input.new output.new)) }
    ensures broken { IfErr result (λ f. IsBroken (moment input.old output.old) (moment input.new output.new) f) }
    ensures idle { IfErr result (λ f. f ≢ faults.Write → IsIdle output.new) }
{
    match answer_all::<I, O, A, T>(alloc, input, output) {
        Ok(()) => output.send_on(),
        Err(fault) => Err(output.stop(fault)),
    }
}

/// Answers the commands of `source` with a new book, as job 0, and writes the answers to `sink`. `T` is the book's store. Rejects a
/// text of more than 67,108,864 bytes, and stores no further byte of the text. Buffers at most 65,536 bytes of output. Before each
/// read and at the end, writes the buffer and flushes the sink, unless the sink has taken no byte since the session last flushed it.
///
/// # Errors
///
/// `Read` if a read failed, or if more than 4,294,967,296 reads were needed. `Write` if a write or flush failed. `Memory` if an
/// allocation failed. `Full` if the commands ask for more operations than a history can have. After an error, the bytes that the
/// sink has taken begin two session texts: the text of the bytes that were read, and the text of the whole input. These bytes are
/// the whole answers to the commands before the error, and were flushed, unless the error is `Write`. The session returns `Write`
/// if a write fails after another error.
pub fn session<I: Source, O: Sink, A: Allocator + Copy, T: Table<A>>(
    alloc: A,
    source: &mut I,
    sink: &mut O,
) -> Result<(), SessionFault>
    requires reads { I.reads source.old < 2 ^ 62 }
    requires failed_reads { I.failed_reads source.old < 2 ^ 62 }
    requires failed_writes { O.failed_writes sink.old < 2 ^ 62 }
    // The whole input was read, and exactly its session text was written.
    ensures whole { OnOk result (IsWholeSession (I.left source.old) (I.left source.new) (O.written sink.old) (O.written sink.new)) }
    // Any session text of the input is the one that was written.
    ensures only { OnOk result (IfSome (I.left source.old) (λ input. (output : List ℕ) → IsSession input output
        → Appends (O.written sink.old) (O.written sink.new) output)) }
    // No read, write or flush failed.
    ensures no_failed_read { OnOk result (I.failed_reads source.new ≡ I.failed_reads source.old) }
    ensures no_failed_write { OnOk result (O.failed_writes sink.new ≡ O.failed_writes sink.old) }
    // The sink holds back nothing.
    ensures sent { OnOk result (O.held sink.new ≡ 0) }
    // The session made at most 4,294,967,296 reads, however it ended.
    ensures few_reads { I.reads source.new ≤ I.reads source.old + 2 ^ 32 }
    // After an error, a prefix of the session text was written, and the counts of calls show the error's cause.
    ensures short { IfErr result (λ f. IsCutShort f (I.left source.old) (I.left source.new) (O.written sink.old) (O.written sink.new)) }
    ensures cause { IfErr result (λ f. HasCause f (calls (I.reads source.old) (I.failed_reads source.old) (O.failed_writes sink.old))
        (calls (I.reads source.new) (I.failed_reads source.new) (O.failed_writes sink.new))) }
    // The answers before the error were written, and the sink holds back none of them, unless a write failed.
    ensures kept { IfErr result (λ f. f ≢ faults.Write
        → HasAnswered f (I.left source.old) (I.left source.new) (O.written sink.old) (O.written sink.new)) }
    ensures kept_sent { IfErr result (λ f. f ≢ faults.Write → O.held sink.new ≤ O.held sink.old) }
{
    let block = block(alloc)?;
    let mut input = SessionInput::new(block, source);
    let mut output = Output::new(alloc, sink);
    let ended = answer_to_the_end::<I, O, A, T>(alloc, &mut input, &mut output);
    input.into_source();
    output.into_sink();
    ended
}
