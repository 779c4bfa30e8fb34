//! Answers a rename: the two lines after `rename` are the old and the new name.

ghost use Rattle.std.specs.Prelude.{◌≡◌, ◌≢◌, ◌⊎◌, [], codes, length, Err, IfOk, IfErr};
ghost use Rattle.covbook.specs.Op.{RenameOp};
ghost use Rattle.covbook.specs.Step.{max_entries, ops_in};
ghost use Rattle.covbook.specs.View.{op_data};
ghost use Rattle.covsession.specs.Broken.{FailsAfter, FailsTaking, IsLinePart, IsPart};
ghost use Rattle.covsession.specs.Streams.{moment, CanCall};
ghost use Rattle.covsession.specs.Rename.{LacksName, IsThere, TakesName, TakesNames};
ghost use Rattle.covsession.specs.Run.{TakesAfter};
ghost use Rattle.covsession.specs.declared.session.fault.SessionFault.TheVariants as session_faults;

use crate::session::SessionBook;
use crate::session::answers::UNFINISHED;
use crate::session::command::step;
use crate::session::fault::SessionFault;
use crate::session::input::SessionInput;
use crate::session::output::Output;
use crate::session::text::{LineEnd, Text};
use covbook::Op;
use covdata::Bytes;
use covline::without_returns;
use covreport::Table;
use covstream::{Sink, Source};
use std::alloc::Allocator;

/// The names of a rename.
#[derive(Drop)]
pub struct Names<A: Allocator> {
    /// The test's name.
    pub old: Bytes<A>,
    /// The test's new name.
    pub new: Bytes<A>,
    /// How the line of the new name ended.
    pub ending: LineEnd,
}

// Whether a line was read. `false` means that the input ended before the line's first byte.
fn is_there(line: &[u8], ending: LineEnd) -> bool
    ensures { IsThere result ending line.now }
{
    match ending {
        LineEnd::Feed => true,
        LineEnd::Input => !line.is_empty(),
    }
}

// Reads the next line as a name, whatever its bytes are. Returns the name and how the line ended, or `None` if the input ends
// before the line.
fn take_name<I: Source, O: Sink, A: Allocator + Copy>(
    alloc: A,
    input: &mut SessionInput<'_, I, A>,
    output: &mut Output<'_, O, A>,
) -> Result<Option<(Bytes<A>, LineEnd)>, SessionFault>
    requires { CanCall (moment input.old output.old) }
    ensures taken { IfOk result (λ name. TakesName (moment input.old output.old) (moment input.new output.new) name) }
    ensures fault { IfErr result (λ f. f ≢ session_faults.Full) }
    ensures fails { IfErr result (λ f. FailsTaking IsLinePart (moment input.old output.old) (moment input.new output.new) f) }
{
    let mut line = Text::new(alloc, usize::MAX);
    let ending = input.take_line(&mut line, output)?;
    if !is_there(line.whole(), ending) {
        return Ok(None);
    }
    let name = Bytes::of(alloc, without_returns(line.whole()))?;
    Ok(Some((name, ending)))
}

// Reads two lines as the old and the new name. Returns `None` if the input ends before the second line.
fn take_names<I: Source, O: Sink, A: Allocator + Copy>(
    alloc: A,
    input: &mut SessionInput<'_, I, A>,
    output: &mut Output<'_, O, A>,
) -> Result<Option<Names<A>>, SessionFault>
    requires { CanCall (moment input.old output.old) }
    ensures taken { IfOk result (λ names. TakesNames (moment input.old output.old) (moment input.new output.new) names) }
    ensures fault { IfErr result (λ f. f ≢ session_faults.Full) }
    ensures fails { IfErr result (λ f. FailsTaking (IsPart LacksName) (moment input.old output.old) (moment input.new output.new) f) }
{
    let Some((old, first)) = take_name(alloc, input, output)? else {
        return Ok(None);
    };
    let LineEnd::Feed = first else {
        return Ok(None);
    };
    let Some((new, ending)) = take_name(alloc, input, output)? else {
        return Ok(None);
    };
    Ok(Some(Names { old, new, ending }))
}

// The operation that renames a test.
fn rename_op<A: Allocator>(old: Bytes<A>, new: Bytes<A>) -> Op<A>
    ensures { op_data result ≡ RenameOp old new }
{
    Op::Rename { old, new }
}

/// Reads the names after a line `rename`, and answers the rename.
pub fn answer_rename<I: Source, O: Sink, A: Allocator + Copy, T: Table<A>>(
    alloc: A,
    book: &mut SessionBook<A, T>,
    input: &mut SessionInput<'_, I, A>,
    output: &mut Output<'_, O, A>,
) -> Result<LineEnd, SessionFault>
    requires { CanCall (moment input.old output.old) }
    ensures takes { IfOk result (λ ending. TakesAfter (λ line. line ≡ codes "rename")
        (moment input.old output.old) (moment input.new output.new) (ops_in book.old.entries) (ops_in book.new.entries) ending) }
    ensures full { result ≡ Err session_faults.Full → length book.old.entries ≡ max_entries }
    ensures fails { IfErr result (λ f. FailsTaking (IsPart LacksName) (moment input.old output.old) (moment input.new output.new) f
        ⊎ FailsAfter (λ line. line ≡ codes "rename") (moment input.old output.old) (moment input.new output.new) (ops_in book.old.entries) f) }
{
    let Some(names) = take_names(alloc, input, output)? else {
        output.say(UNFINISHED)?;
        return Ok(LineEnd::Input);
    };
    let Names { old, new, ending } = names;
    let op = rename_op(old, new);
    step(alloc, book, &op, output)?;
    Ok(ending)
}
