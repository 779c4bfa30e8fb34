//! The answer lines of a session.

ghost use Rattle.std.specs.Prelude.{◌≡◌, ◌≢◌, ◌^◌, ◌<◌, codes, decimal, IfOk, IfErr, OnOk, ◌++◌};
ghost use Rattle.covbook.specs.Op.{AcceptedAnswer, DroppedAnswer, RenamedAnswer};
ghost use Rattle.covbook.specs.View.{answer_data};
ghost use Rattle.covsession.specs.Session.{answer_text, clash_text, fault_text, refused_text};
ghost use Rattle.covsession.specs.Broken.{Breaks};
ghost use Rattle.covsession.specs.Streams.{Says};
ghost use Rattle.covsession.specs.declared.session.fault.SessionFault.TheVariants as session_faults;

use crate::session::fault::SessionFault;
use crate::session::output::Output;
use covbook::Answer;
use covdata::{ReadFault, append_number};
use covstream::Sink;
use std::alloc::Allocator;

/// The answer to a command that the input ends in.
pub const UNFINISHED: &[u8] = b"unfinished\n";

/// The answer to a choice of files whose pattern is too long. Needs no memory, unlike `refused_line`.
pub const REFUSED_PATTERN: &[u8] = b"refused TooLong\n";

/// The answer to a line that is no command.
pub const UNKNOWN: &[u8] = b"unknown\n";

// Appends `words` and then `number` in decimal.
fn add_number<A: Allocator>(
    line: &mut Vec<u8, A>,
    words: &[u8],
    number: u64,
) -> Result<(), SessionFault>
    ensures added { OnOk result (line.new.items ≡ line.old.items ++ (words.now ++ decimal number)) }
    ensures fault { IfErr result (λ f. f ≡ session_faults.Memory) }
{
    line.extend_from_slice(words)?;
    append_number(line, number)?;
    Ok(())
}

// Appends a space and a checksum.
fn add_checksum<A: Allocator>(line: &mut Vec<u8, A>, checksum: &[u8]) -> Result<(), SessionFault>
    ensures added { OnOk result (line.new.items ≡ line.old.items ++ (codes " " ++ checksum.now)) }
    ensures fault { IfErr result (λ f. f ≡ session_faults.Memory) }
{
    line.extend_from_slice(b" ")?;
    line.extend_from_slice(checksum)?;
    Ok(())
}

// The line about an accepted submission.
fn accepted_line<A: Allocator>(
    alloc: A,
    number: u64,
    items: u64,
    odd: u64,
) -> Result<Vec<u8, A>, SessionFault>
    ensures line { IfOk result (λ line. line.items ≡ answer_text (AcceptedAnswer number items odd)) }
    ensures fault { IfErr result (λ f. f ≡ session_faults.Memory) }
{
    let mut line = Vec::new(alloc);
    add_number(&mut line, b"accepted ", number)?;
    add_number(&mut line, b" items ", items)?;
    add_number(&mut line, b" odd ", odd)?;
    line.extend_from_slice(b"\n")?;
    Ok(line)
}

/// The line about a checksum mismatch (`Clash`); empty for any other answer.
pub fn clash_line<A: Allocator>(alloc: A, answer: &Answer<A>) -> Result<Vec<u8, A>, SessionFault>
    ensures line { IfOk result (λ text. text.items ≡ clash_text (answer_data answer.now)) }
    ensures fault { IfErr result (λ f. f ≡ session_faults.Memory) }
{
    match answer {
        Answer::Clash {
            file,
            line,
            held,
            given,
        } => {
            let mut text = Vec::from_slice(alloc, b"clash ")?;
            text.extend_from_slice(file.get())?;
            add_number(&mut text, b" ", *line)?;
            add_checksum(&mut text, held.get())?;
            add_checksum(&mut text, given.get())?;
            text.extend_from_slice(b"\n")?;
            Ok(text)
        }
        Answer::Accepted { .. }
        | Answer::Dropped { .. }
        | Answer::Renamed { .. }
        | Answer::NoSuchTest
        | Answer::Text(_) => Ok(Vec::new(alloc)),
    }
}

// The line about a dropped test, with the number of its sections.
fn dropped_line<A: Allocator>(alloc: A, sections: u64) -> Result<Vec<u8, A>, SessionFault>
    ensures line { IfOk result (λ line. line.items ≡ answer_text (DroppedAnswer sections)) }
    ensures fault { IfErr result (λ f. f ≡ session_faults.Memory) }
{
    let mut line = Vec::new(alloc);
    add_number(&mut line, b"dropped ", sections)?;
    line.extend_from_slice(b"\n")?;
    Ok(line)
}

// The line about a renamed test, with the number of its sections.
fn renamed_line<A: Allocator>(alloc: A, sections: u64) -> Result<Vec<u8, A>, SessionFault>
    ensures line { IfOk result (λ line. line.items ≡ answer_text (RenamedAnswer sections)) }
    ensures fault { IfErr result (λ f. f ≡ session_faults.Memory) }
{
    let mut line = Vec::new(alloc);
    add_number(&mut line, b"renamed ", sections)?;
    line.extend_from_slice(b"\n")?;
    Ok(line)
}

// An error's name and the number of its line.
fn text_at<A: Allocator>(alloc: A, name: &[u8], at: u64) -> Result<Vec<u8, A>, SessionFault>
    ensures words { IfOk result (λ text. text.items ≡ name.now ++ codes " at " ++ decimal at) }
    ensures fault { IfErr result (λ f. f ≡ session_faults.Memory) }
{
    let mut text = Vec::from_slice(alloc, name)?;
    add_number(&mut text, b" at ", at)?;
    Ok(text)
}

// An error's name alone.
fn text_alone<A: Allocator>(alloc: A, name: &[u8]) -> Result<Vec<u8, A>, SessionFault>
    ensures words { IfOk result (λ text. text.items ≡ name.now) }
    ensures fault { IfErr result (λ f. f ≡ session_faults.Memory) }
{
    Ok(Vec::from_slice(alloc, name)?)
}

// The name of an error, with the line number if the error has one.
fn fault_words<A: Allocator>(alloc: A, fault: ReadFault) -> Result<Vec<u8, A>, SessionFault>
    ensures words { IfOk result (λ text. text.items ≡ fault_text fault) }
    ensures fault { IfErr result (λ f. f ≡ session_faults.Memory) }
{
    match fault {
        ReadFault::TooLong => text_alone(alloc, b"TooLong"),
        ReadFault::Line { at, fault } => text_at(alloc, fault.name().as_bytes(), at),
        ReadFault::Outside { at } => text_at(alloc, b"Outside", at),
        ReadFault::Inside { at } => text_at(alloc, b"Inside", at),
        ReadFault::OpenEnd => text_alone(alloc, b"OpenEnd"),
        ReadFault::BadMark { at } => text_at(alloc, b"BadMark", at),
        ReadFault::NoSource { at } => text_at(alloc, b"NoSource", at),
        ReadFault::Percent { at } => text_at(alloc, b"Percent", at),
        ReadFault::Instances { at } => text_at(alloc, b"Instances", at),
        ReadFault::Misplaced { at } => text_at(alloc, b"Misplaced", at),
        ReadFault::LostFunction => text_alone(alloc, b"LostFunction"),
        ReadFault::BadTest => text_alone(alloc, b"BadTest"),
        ReadFault::Memory => text_alone(alloc, b"Memory"),
    }
}

/// The line about a rejected text.
pub fn refused_line<A: Allocator + Copy>(
    alloc: A,
    fault: ReadFault,
) -> Result<Vec<u8, A>, SessionFault>
    ensures line { IfOk result (λ line. line.items ≡ refused_text fault) }
    ensures fault { IfErr result (λ f. f ≡ session_faults.Memory) }
{
    let words = fault_words(alloc, fault)?;
    let mut line = Vec::from_slice(alloc, b"refused ")?;
    line.extend_from_slice(words.as_slice())?;
    line.extend_from_slice(b"\n")?;
    Ok(line)
}

/// Writes an answer of the book to the output.
pub fn say_answer<O: Sink, A: Allocator + Copy>(
    alloc: A,
    answer: &Answer<A>,
    output: &mut Output<'_, O, A>,
) -> Result<(), SessionFault>
    requires { output.old.failed_writes < 2 ^ 63 }
    ensures says { OnOk result (Says output.old output.new (answer_text (answer_data answer.now))) }
    ensures fault { IfErr result (λ f. f ≢ session_faults.Full) }
    ensures breaks { IfErr result (λ f. Breaks output.old output.new f (answer_text (answer_data answer.now))) }
{
    match answer {
        Answer::Accepted { number, items, odd } => {
            let line = accepted_line(alloc, *number, *items, *odd)?;
            output.say(line.as_slice())
        }
        Answer::Clash { .. } => {
            let text = clash_line(alloc, answer)?;
            output.say(text.as_slice())
        }
        Answer::Dropped { sections } => {
            let line = dropped_line(alloc, *sections)?;
            output.say(line.as_slice())
        }
        Answer::Renamed { sections } => {
            let line = renamed_line(alloc, *sections)?;
            output.say(line.as_slice())
        }
        Answer::NoSuchTest => output.say(b"no such test\n"),
        Answer::Text(text) => {
            output.say(text.get().get())?;
            output.say(b".\n")
        }
    }
}
