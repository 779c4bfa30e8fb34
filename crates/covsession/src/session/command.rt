//! Answers the commands that are one line.

ghost use Rattle.std.specs.Prelude.{◌≡◌, ◌↔◌, ◌^◌, ◌<◌, [], ◌∷◌, ◌++◌, length, ◌≤◌, Err, IfOk, IfErr, IfSome, OnOk, OnErr, option_map};
ghost use Rattle.covbook.specs.Op.{DropTestOp};
ghost use Rattle.covbook.specs.Step.{answer_of, max_entries, next_entry, table_of, ops_in};
ghost use Rattle.covbook.specs.View.{op_data};
ghost use Rattle.covreport.specs.Choice.{max_pattern_bytes};
ghost use Rattle.covsession.specs.Command.{asked_by, pick_op, IsListOf};
ghost use Rattle.covsession.specs.Session.{answer_text, text_after, Asks};
ghost use Rattle.covsession.specs.Broken.{Breaks, FailsSaying};
ghost use Rattle.covsession.specs.Streams.{Says};
ghost use Rattle.covsession.specs.declared.session.fault.SessionFault.TheVariants as session_faults;

mod word;

use crate::session::SessionBook;
use crate::session::answers::{REFUSED_PATTERN, UNFINISHED, UNKNOWN, say_answer};
use crate::session::fault::SessionFault;
use crate::session::output::Output;
use covbook::Op;
use covdata::Bytes;
use covreport::{PatternFault, Patterns, Table};
use covstream::Sink;
use std::alloc::Allocator;
pub use word::{Format, Pick, Word, word_of};

/// The job number of a session's entries.
const SESSION_JOB: u32 = 0;

/// Performs one step of the book, as job 0, and writes the answer to the output.
pub fn step<O: Sink, A: Allocator + Copy, T: Table<A>>(
    alloc: A,
    book: &mut SessionBook<A, T>,
    op: &Op<A>,
    output: &mut Output<'_, O, A>,
) -> Result<(), SessionFault>
    requires { output.old.failed_writes < 2 ^ 63 }
    ensures said { OnOk result (Says output.old output.new (answer_text (answer_of (table_of (ops_in book.old.entries)) (op_data op.now)))) }
    ensures asked { OnOk result (ops_in book.new.entries ≡ ops_in book.old.entries ++ op_data op.now ∷ []) }
    ensures entry { OnOk result (book.new.entries ≡ book.old.entries ++ next_entry book.old.entries 0 (op_data op.now) ∷ []) }
    ensures full { (result ≡ Err session_faults.Full) ↔ (length book.old.entries ≡ max_entries) }
    ensures breaks { IfErr result (λ f. Breaks output.old output.new f (answer_text (answer_of (table_of (ops_in book.old.entries)) (op_data op.now)))) }
{
    let receipt = book.step(alloc, SESSION_JOB, op)?;
    say_answer(alloc, &receipt.answer, output)
}

// Returns a list of `pattern` alone, or an empty list if there is no pattern. Returns `None` if `pattern` is too long.
fn patterns_of<A: Allocator + Copy>(
    alloc: A,
    pattern: Option<&[u8]>,
) -> Result<Option<Patterns<A>>, SessionFault>
    ensures list { IfOk result (λ r. IsListOf (option_map (λ p. p.now) pattern.entry) r) }
    ensures fault { IfErr result (λ f. f ≡ session_faults.Memory) }
    // Only a copy of the pattern is allocated, after the pattern's length was checked.
    ensures short { OnErr result (IfSome pattern.entry (λ p. length p.now ≤ max_pattern_bytes)) }
{
    let mut patterns = Patterns::new(alloc);
    let Some(pattern) = pattern else {
        return Ok(Some(patterns));
    };
    match patterns.add(alloc, pattern) {
        Ok(()) => Ok(Some(patterns)),
        Err(PatternFault::TooMany | PatternFault::TooLong) => Ok(None),
        Err(PatternFault::Memory) => Err(SessionFault::Memory),
    }
}

// The operation for a choice of files.
fn op_of<A: Allocator>(pick: Pick, patterns: Patterns<A>) -> Op<A>
    ensures { op_data result ≡ pick_op pick patterns }
{
    match pick {
        Pick::Extract => Op::Extract(patterns),
        Pick::Remove => Op::Remove(patterns),
    }
}

// The operation that drops a test.
fn drop_op<A: Allocator>(alloc: A, test: &[u8]) -> Result<Op<A>, SessionFault>
    ensures op { IfOk result (λ op. op_data op ≡ DropTestOp test.now) }
    ensures fault { IfErr result (λ f. f ≡ session_faults.Memory) }
{
    Ok(Op::DropTest(Bytes::of(alloc, test)?))
}

/// Answers a command of one line. Answers `unfinished` to a line after which a text or two names are missing.
pub fn answer_word<O: Sink, A: Allocator + Copy, T: Table<A>>(
    alloc: A,
    book: &mut SessionBook<A, T>,
    word: Word<'_>,
    output: &mut Output<'_, O, A>,
) -> Result<(), SessionFault>
    requires { output.old.failed_writes < 2 ^ 63 }
    ensures asks { OnOk result (Asks (asked_by word.entry) (ops_in book.old.entries) (ops_in book.new.entries)) }
    ensures says { OnOk result (Says output.old output.new (text_after (table_of (ops_in book.old.entries)) (asked_by word.entry))) }
    ensures full { result ≡ Err session_faults.Full → length book.old.entries ≡ max_entries }
    ensures fails { IfErr result (λ f. FailsSaying output.old output.new (ops_in book.old.entries) (asked_by word.entry) f) }
{
    match word {
        Word::Blank => output.say(b""),
        Word::Report => step(alloc, book, &Op::Report, output),
        Word::Summary => step(alloc, book, &Op::Summary, output),
        Word::Choose(pick, pattern) => match patterns_of(alloc, pattern)? {
            Some(patterns) => step(alloc, book, &op_of(pick, patterns), output),
            None => output.say(REFUSED_PATTERN),
        },
        Word::Drop(test) => {
            let op = drop_op(alloc, test)?;
            step(alloc, book, &op, output)
        }
        Word::Rename => output.say(UNFINISHED),
        Word::Text(_) => output.say(UNFINISHED),
        Word::Other => output.say(UNKNOWN),
    }
}
