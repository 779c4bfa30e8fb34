//! Reports how a call ended.

ghost use Rattle.std.specs.Prelude.{◌≡◌, ◌<◌, ◌⊎◌, ◌^◌, ◌++◌, [], None, Some, option_map};
ghost use Rattle.covsession.specs.Program.{words_of_fault};
ghost use Rattle.covsession.specs.Session.{said as said_line};
ghost use Rattle.covsession.specs.declared.session.fault.SessionFault.TheVariants as session_faults;
ghost use Rattle.covworld.specs.Streams.{CanWrite, Complains, Withholds};
ghost use Rattle.covcombine.specs.Combine.{EndingData, Gives};
ghost use Rattle.covcombine.specs.Combined.{IsPrinted, IsReported, given_status as status_for, out_of_memory};
ghost use Rattle.covcombine.specs.Messages.{cut_line};
ghost use Rattle.covcombine.specs.Steps.{CanReport};
ghost use Rattle.covcombine.specs.View.{ending_data, given_data};

use crate::ending::{Ending, Given};
use crate::messages::{cut, put_cut, put_unwritten};
use covdata::{Bytes, Memory};
use covreport::Table;
use covsession::{SessionFault, line_of};
use covstream::{Sink, Source};
use covworld::{OutputFault, OutputFolder, ReadyText, Sinks, World, write_file};
use std::alloc::Global;

/// Reports how a call ended, and returns the exit status. The tracefile goes to the output, or into the file that `file` names: then
/// the output gets the overview, after the file is finished. The error stream gets its lines last.
pub(crate) fn report<P: OutputFolder, I: Source, O: Sink, E: Sink, T: Table<Global>>(
    alloc: Global,
    ending: Ending<'_, T>,
    file: Option<&str>,
    world: &mut World<P, I, O, E>,
) -> u8
    requires { CanReport world.old }
    ensures input { world.new.input ≡ world.old.input }
    ensures reported { (told : EndingData) × ((told ≡ out_of_memory) ⊎ (told ≡ ending_data ending.entry))
        × IsReported (option_map (λ name. name.now) file.entry) told result world.old world.new }
{
    match ending {
        Ending::Stopped(line) => say(line, 3, &mut world.sinks),
        Ending::Fails { status, lines } => say(lines.get(), status, &mut world.sinks),
        Ending::Gives(given) => match file {
            None => print_tracefile(given, &mut world.sinks),
            Some(name) => write_tracefile(alloc, name, given, world),
        },
    }
}

/// Prints the tracefile. Returns the exit status.
fn print_tracefile<O: Sink, E: Sink, T: Table<Global>>(
    given: Given<'_, T>,
    sinks: &mut Sinks<O, E>,
) -> u8
    requires { CanWrite sinks.old }
    ensures { IsPrinted (cut_line None) (given_data given.entry).tracefile (given_data given.entry).warnings (given_data given.entry).missed result sinks.old sinks.new }
{
    let Given {
        warnings,
        tracefile,
        missed,
        ..
    } = given;
    print(tracefile, warnings.get(), missed.get(), cut(), sinks)
}

/// Writes the tracefile into the file called `name`, and prints the overview. Returns the exit status.
fn write_tracefile<P: OutputFolder, I: Source, O: Sink, E: Sink, T: Table<Global>>(
    alloc: Global,
    name: &str,
    given: Given<'_, T>,
    world: &mut World<P, I, O, E>,
) -> u8
    requires { CanReport world.old }
    ensures input { world.new.input ≡ world.old.input }
    ensures reported { (told : EndingData) × ((told ≡ out_of_memory) ⊎ (told ≡ Gives (given_data given.entry)))
        × IsReported (Some name.now) told result world.old world.new }
{
    let Ok(lines) = FileLines::of(alloc, name) else {
        return report_no_memory(&mut world.sinks);
    };
    let Given {
        warnings,
        tracefile,
        overview,
        missed,
    } = given;
    match write_file(name, tracefile, &mut world.files) {
        Ok(()) => print(
            overview,
            warnings.get(),
            missed.get(),
            lines.cut.get(),
            &mut world.sinks,
        ),
        Err(OutputFault::Failed) => {
            world.sinks.say(warnings.get(), lines.unwritten.get());
            1
        }
        Err(OutputFault::Memory) => report_no_memory(&mut world.sinks),
    }
}

/// The lines about failures around a file, which are allocated before it is written.
#[derive(Drop)]
struct FileLines {
    /// The file can't be written.
    unwritten: Bytes,
    /// The file is written, but the output can't be.
    cut: Bytes,
}

impl FileLines {
    ghost use Rattle.std.specs.Prelude.{◌≡◌, Some, IfOk};
    ghost use Rattle.covcombine.specs.Messages.{cut_line, unwritten_line};

    /// The lines about the file called `name`.
    fn of(alloc: Global, name: &str) -> Result<FileLines, Memory>
        ensures unwritten { IfOk result (λ lines. lines.unwritten ≡ unwritten_line name.now) }
        ensures cut { IfOk result (λ lines. lines.cut ≡ cut_line (Some name.now)) }
    {
        let mut unwritten = Bytes::new(alloc);
        put_unwritten(name.as_bytes(), &mut unwritten)?;
        let mut cut = Bytes::new(alloc);
        put_cut(name.as_bytes(), &mut cut)?;
        Ok(FileLines { unwritten, cut })
    }
}

/// Prints `text`, and then `warnings` and `missed` to the error stream. Returns the exit status. `cut` is the last line if the text
/// can't be printed.
fn print<O: Sink, E: Sink, T: Table<Global>>(
    text: ReadyText<'_, T>,
    warnings: &[u8],
    missed: &[u8],
    cut: &[u8],
    sinks: &mut Sinks<O, E>,
) -> u8
    requires { CanWrite sinks.old }
    ensures { IsPrinted cut.now text.entry warnings.now missed.now result sinks.old sinks.new }
{
    match sinks.print(text) {
        Ok(()) => {
            say_if_any(warnings, missed, sinks);
            given_status(missed)
        }
        Err(_) => {
            sinks.say(warnings, cut);
            1
        }
    }
}

/// Writes `front` and then `words` to the error stream. Writes nothing if both are empty.
fn say_if_any<O: Sink, E: Sink>(front: &[u8], words: &[u8], sinks: &mut Sinks<O, E>)
    requires { sinks.old.failed_faults < 2 ^ 62 }
    ensures none { front.now ≡ [] → words.now ≡ [] → sinks.new ≡ sinks.old }
    ensures said { Complains (front.now ++ words.now) sinks.old sinks.new }
    ensures withheld { Withholds sinks.old sinks.new }
{
    if !front.is_empty() || !words.is_empty() {
        sinks.say(front, words);
    }
}

/// The exit status of a call that gives a tracefile: 6 if there are lines about rates below their thresholds, otherwise 0.
fn given_status(missed: &[u8]) -> u8
    ensures { result ≡ status_for missed.now }
{
    if missed.is_empty() { 0 } else { 6 }
}

/// Writes `lines` to the error stream. Returns `status`.
fn say<O: Sink, E: Sink>(lines: &[u8], status: u8, sinks: &mut Sinks<O, E>) -> u8
    requires { sinks.old.failed_faults < 2 ^ 62 }
    ensures status { result ≡ status }
    ensures said { Complains lines.now sinks.old sinks.new }
    ensures withheld { Withholds sinks.old sinks.new }
{
    sinks.say(b"", lines);
    status
}

/// Reports that memory ran out, and returns the exit status.
fn report_no_memory<O: Sink, E: Sink>(sinks: &mut Sinks<O, E>) -> u8
    requires { sinks.old.failed_faults < 2 ^ 62 }
    ensures status { result ≡ 3 }
    ensures said { Complains (said_line (words_of_fault session_faults.Memory)) sinks.old sinks.new }
    ensures withheld { Withholds sinks.old sinks.new }
{
    say(line_of(SessionFault::Memory), 3, sinks)
}
