//! Reads the text after a line `trace` or `gcov`, and submits or rejects it.

ghost use Rattle.std.specs.Prelude.{◌≡◌, ◌≢◌, ◌⊎◌, ℕ, ◌^◌, ◌<◌, length, List, [], Result, Err, IfOk, IfErr, OnOk};
ghost use Rattle.covdata.specs.Row.{SubmissionData};
ghost use Rattle.covbook.specs.Step.{max_entries, table_of, ops_in};
ghost use Rattle.covdata.specs.declared.fault.ReadFault.{ReadFault as Fault};
ghost use Rattle.covdata.specs.declared.fault.ReadFault.TheVariants as read_faults;
ghost use Rattle.covread.specs.Outcome.{IsOrMemory};
ghost use Rattle.covsession.specs.Command.{Command, format_of, IsBody, IsReadAs};
ghost use Rattle.covsession.specs.Session.{refused_text, text_after, Asks};
ghost use Rattle.covsession.specs.Broken.{Breaks, FailsGiven, FailsSaying, FailsTaking, IsPart};
ghost use Rattle.covsession.specs.Streams.{moment, CanCall, Says, TakesPieces};
ghost use Rattle.covsession.specs.Text.{asked_for, AnswersAs, IsAnsweredAs, IsTaken, IsNotMemory, IsReported};
ghost use Rattle.covsession.specs.declared.session.fault.SessionFault.TheVariants as session_faults;

use crate::session::SessionBook;
use crate::session::answers::{UNFINISHED, refused_line};
use crate::session::command::{Format, step};
use crate::session::fault::SessionFault;
use crate::session::input::SessionInput;
use crate::session::output::Output;
use crate::session::text::{CollectedText, LineEnd, Text};
use covbook::{Op, PackedRef};
use covdata::{MAX_BYTES, ReadFault};
use covpacked::PackedSubmission;
use covread::{read_gcov_packed, read_trace_packed};
use covreport::Table;
use covstream::{Sink, Source};
use std::alloc::Allocator;

/// The length of the longest text whose buffer is reused for the next text.
const MAX_KEPT_BYTES: usize = 8_388_608;

/// Collects the lines of a text in the buffer `room`, up to a line `.`. Returns the text, and how the last line ended.
pub fn take_text<I: Source, O: Sink, A: Allocator>(
    room: Vec<u8, A>,
    input: &mut SessionInput<'_, I, A>,
    output: &mut Output<'_, O, A>,
) -> Result<(CollectedText<A>, LineEnd), SessionFault>
    requires { CanCall (moment input.old output.old) }
    ensures taken { IfOk result (λ r. (pieces : List (List ℕ))
        × TakesPieces (moment input.old output.old) (moment input.new output.new) pieces r.1 []
        × IsTaken pieces r.1 r.0) }
    ensures fault { IfErr result (λ f. f ≢ session_faults.Full) }
    ensures fails { IfErr result (λ f. FailsTaking (IsPart IsBody) (moment input.old output.old) (moment input.new output.new) f) }
{
    let mut text = Text::in_room(room, MAX_BYTES);
    loop {
        input.take_lines(&mut text)?;
        let ending = input.take_line(&mut text, output)?;
        if text.is_last() {
            return Ok((text.body(), ending));
        }
        match ending {
            LineEnd::Feed => text.next_line()?,
            LineEnd::Input => return Ok((CollectedText::Unfinished, LineEnd::Input)),
        }
    }
}

// Returns `Ok` if the session answers the error `fault`. Returns `Memory`, which ends the session, if `fault` is `Memory`.
fn check_answerable(fault: ReadFault) -> Result<(), SessionFault>
    ensures answerable { OnOk result (IsNotMemory fault) }
    ensures fault { IfErr result (λ f. (fault ≡ read_faults.Memory) × (f ≡ session_faults.Memory)) }
{
    if fault.is_memory() {
        return Err(SessionFault::Memory);
    }
    Ok(())
}

// Writes why a text was rejected.
fn refuse<O: Sink, A: Allocator + Copy>(
    alloc: A,
    fault: ReadFault,
    output: &mut Output<'_, O, A>,
) -> Result<(), SessionFault>
    requires { output.old.failed_writes < 2 ^ 63 }
    ensures says { OnOk result (Says output.old output.new (refused_text fault)) }
    ensures fault { IfErr result (λ f. f ≢ session_faults.Full) }
    ensures breaks { IfErr result (λ f. Breaks output.old output.new f (refused_text fault)) }
{
    let line = refused_line(alloc, fault)?;
    output.say(line.as_slice())
}

// Parses a text of this format.
fn read_as<A: Allocator + Copy>(
    alloc: A,
    format: Format<'_>,
    text: &[u8],
) -> Result<PackedSubmission<A>, ReadFault>
    ensures answers { AnswersAs (format_of format.entry) text.now result }
    ensures only { (outcome : Result SubmissionData Fault) → IsReadAs (format_of format.entry) text.now outcome → IsOrMemory result outcome }
{
    match format {
        Format::Tracefile => read_trace_packed(alloc, text),
        Format::Annotated(test) => read_gcov_packed(alloc, test, text),
    }
}

// Submits a parsed text, or answers why the text is rejected. `read` is the result of parsing.
fn submit<O: Sink, A: Allocator + Copy, T: Table<A>>(
    alloc: A,
    book: &mut SessionBook<A, T>,
    read: Result<PackedSubmission<A>, ReadFault>,
    output: &mut Output<'_, O, A>,
) -> Result<(), SessionFault>
    requires { output.old.failed_writes < 2 ^ 63 }
    ensures told { OnOk result (IsReported read) }
    ensures asks { OnOk result (Asks (asked_for read) (ops_in book.old.entries) (ops_in book.new.entries)) }
    ensures says { OnOk result (Says output.old output.new (text_after (table_of (ops_in book.old.entries)) (asked_for read))) }
    ensures full { result ≡ Err session_faults.Full → length book.old.entries ≡ max_entries }
    ensures fails { IfErr result (λ f. (Breaks output.old output.new f [] × (f ≢ session_faults.Full))
        ⊎ (IsReported read × FailsSaying output.old output.new (ops_in book.old.entries) (asked_for read) f)) }
{
    match read {
        Ok(submission) => {
            let op = Op::SubmitPacked(PackedRef::of(alloc, submission)?);
            step(alloc, book, &op, output)
        }
        Err(fault) => {
            check_answerable(fault)?;
            refuse(alloc, fault, output)
        }
    }
}

/// A collected text and its format.
#[derive(Drop)]
pub struct Given<'a, A: Allocator> {
    /// The text's format.
    pub format: Format<'a>,
    /// The collected text.
    pub taken: CollectedText<A>,
}

/// Keeps the buffer of `text` in `room` for the next text, unless `text` is large. New memory would cost more: the first write to a
/// page of memory takes longer than parsing a text that fills the page.
fn keep_room<A: Allocator>(room: &mut Vec<u8, A>, text: Vec<u8, A>) {
    if text.len() <= MAX_KEPT_BYTES {
        *room = text;
    }
}

/// Answers a collected text. Keeps the text's buffer in `room` after parsing, or frees the buffer.
pub fn answer_given<O: Sink, A: Allocator + Copy, T: Table<A>>(
    alloc: A,
    book: &mut SessionBook<A, T>,
    given: Given<'_, A>,
    room: &mut Vec<u8, A>,
    output: &mut Output<'_, O, A>,
) -> Result<(), SessionFault>
    requires { output.old.failed_writes < 2 ^ 63 }
    ensures answered { OnOk result ((commands : List Command) × IsAnsweredAs (format_of given.entry.format) given.entry.taken commands
        × Asks commands (ops_in book.old.entries) (ops_in book.new.entries)
        × Says output.old output.new (text_after (table_of (ops_in book.old.entries)) commands)) }
    ensures full { result ≡ Err session_faults.Full → length book.old.entries ≡ max_entries }
    ensures fails { IfErr result (λ f. FailsGiven (format_of given.entry.format) given.entry.taken output.old output.new (ops_in book.old.entries) f) }
{
    let Given { format, taken } = given;
    match taken {
        CollectedText::Whole(text) => {
            let read = read_as(alloc, format, text.as_slice());
            keep_room(room, text);
            submit(alloc, book, read, output)
        }
        CollectedText::TooLong => refuse(alloc, ReadFault::TooLong, output),
        CollectedText::Unfinished => output.say(UNFINISHED),
    }
}
