//! The program as a function.

ghost use Rattle.std.specs.Prelude.{◌≡◌, map, option_map};
ghost use Rattle.std.specs.String.{string_bytes};
ghost use Rattle.covcommand.specs.Spelling.{spelled_out as spelled_out_words};
ghost use Rattle.covrun.specs.Call.{of_line, AreParsed, IsCall, IsCommandDone, IsEndingPrinted, IsServed};
ghost use Rattle.covworld.specs.Folder.{folder_data};
ghost use Rattle.covworld.specs.OutputFiles.{file_of, is_output as is_output_name};
ghost use Rattle.covworld.specs.Streams.{CanWrite};
ghost use Rattle.covworld.specs.World.{CanCall};

use crate::checked::check_files;
use crate::collecting::do_work;
use crate::ending::failure_of_work;
use crate::output::{report_failure, report_line};
use crate::pages::do_pages;
use crate::work::{Task, task_for};
use covcombine::combine;
use covcommand::{Asked, CommandFault, command, spelled_out};
use covhtml::PointsTable;
use covreport::Table;
use covstream::{Sink, Source};
use covworld::{Folder, FolderWriter, OutputFolder, Sinks, World};
use std::alloc::{AllocGlobal, Global};
use std::sync::Wait;
use std::thread::Threads;

/// Runs the program and returns its exit status. `words` is the command line; its first argument is the program's name.
///
/// A run that collects files checks for errors in this order, given here with the exit statuses:
/// - the command line (2);
/// - the patterns, then the thresholds or where sources lie, or for `gcov` the test's name (2);
/// - the first file that can't be read (1);
/// - an error of collecting, such as a full history (3), or an input for which memory ran out (3);
/// - invalid files, and clashes of accepted ones (4);
/// - in a strict run, files that aren't clean, and then patterns that match no file (5);
/// - a failed write of the text (1);
/// - rates below their thresholds (6).
///
/// `out of memory` (3) may end the run at any point before the first byte of its text. Only help, the version, or the requested
/// text goes to the output. The text is written after all errors but the last two are ruled out, in blocks while it is made. The
/// output has a prefix of the text if a write fails.
///
/// The text goes into a file of `world.files` instead if `--output` names one. The file gets its name after its whole text is
/// written. No file has changed if a write fails, unless the file is a device or a stream.
///
/// `check` reads as many files at once as there are jobs, and reports them in their order. The output gets a line for each file
/// that can be read. The error stream gets a complaint about a file that can't be read or has no item, and in a strict run also
/// about a file that isn't clean. The status of `check` is 1 if a file can't be read, else 4 if one is invalid, else 5 if one has
/// no item or isn't clean, else 0. A `check` ends early if a write of a line fails (1), or if memory runs out (3).
///
/// `combine` reads each file in chunks, and has an order of its own, which `covcombine::combine` gives.
///
/// `html` fails like `list`. Then it writes pages into a new folder, which replaces an older one as a whole. It fails if the folder
/// can't be written or has files that `html` didn't write (1), and in a strict run if source files can't be shown (5). Nothing has
/// changed then. It writes nothing to the output.
///
/// The run collects or checks the content of the files on the command line, if `folder` knows its files' bytes.
///
/// A run without a subcommand is a session over the input and the output. Only a session reads the input, and
/// `combine` for a list of names in it. The output is flushed,
/// the error stream isn't. `run` returns only after all jobs have ended.
///
/// The caller names the store `T` that keeps the counts. The contract is the same for every store.
pub fn run<
    R: AllocGlobal + Threads + Wait + Sync,
    F: Folder<File: Send> + Sync,
    P: FolderWriter,
    I: Source,
    O: Sink,
    E: Sink,
    T: PointsTable<Global, Plan: Send, Renaming: Send> + Send,
>(rt: &R, folder: &F, words: &[String], world: &mut World<P, I, O, E>) -> u8
    requires { CanCall world.old }
    ensures { IsCall (folder_data F.Folder F.File.Source folder.now) (map string_bytes words.now) result world.old world.new }
{
    let alloc = rt.alloc();
    match parsed(alloc, words) {
        Ok(asked) => run_command::<R, F, P, I, O, E, T>(rt, folder, alloc, asked, world),
        Err(fault) => report_line(fault, &mut world.sinks),
    }
}

/// Parses the command line, after its words are spelled out as `command` takes them.
fn parsed(alloc: Global, words: &[String]) -> Result<Asked, CommandFault>
    ensures { AreParsed (spelled_out_words (map string_bytes words.now)) result }
{
    let words = spelled_out(alloc, words)?;
    command(alloc, words.as_slice())
}

/// Executes the command that `asked` has, and returns the exit status.
fn run_command<
    R: Threads + Wait + Sync,
    F: Folder<File: Send> + Sync,
    P: FolderWriter,
    I: Source,
    O: Sink,
    E: Sink,
    T: PointsTable<Global, Plan: Send, Renaming: Send> + Send,
>(rt: &R, folder: &F, alloc: Global, asked: Asked, world: &mut World<P, I, O, E>) -> u8
    requires { CanCall world.old }
    ensures { IsCommandDone (folder_data F.Folder F.File.Source folder.now) asked.command asked.strictness asked.size
        (file_of (option_map string_bytes asked.output)) result world.old world.new }
{
    let Asked {
        command,
        strictness,
        size,
        output: file,
    } = asked;
    match task_for(alloc, command, strictness, size) {
        Ok(Task::Session) => serve::<P, I, O, E, T>(alloc, world),
        Ok(Task::Collect(work)) => {
            do_work::<R, F, P, I, O, E, T>(rt, folder, alloc, &work, name_of(&file), world)
        }
        Ok(Task::Check { options, files }) => {
            check_files(rt, folder, alloc, &options, files.get(), &mut world.sinks)
        }
        Ok(
            Task::Combine {
                options,
                strictness,
            },
        ) => combine::<R, F, P, I, O, E, T>(
            rt,
            folder,
            alloc,
            &options,
            strictness,
            name_of(&file),
            world,
        ),
        Ok(Task::Show { work, pages }) => {
            do_pages::<R, F, P, I, O, E, T>(rt, folder, alloc, &work, &pages, world)
        }
        Err(fault) => report_failure(failure_of_work(fault), world),
    }
}

/// Runs a session over the input and the output, and returns the exit status.
fn serve<P: OutputFolder, I: Source, O: Sink, E: Sink, T: Table<Global>>(
    alloc: Global,
    world: &mut World<P, I, O, E>,
) -> u8
    requires { CanCall world.old }
    ensures { IsServed result world.old world.new }
{
    world.sinks.serve::<I, T>(alloc, &mut world.input)
}

/// The name of the output file; `None` if no file is named, or if the name is that of standard output.
fn name_of(file: &Option<String>) -> Option<&str>
    ensures { option_map (λ name. name.now) result ≡ file_of (option_map string_bytes file.now) }
{
    match file {
        Some(name) if !is_output(name.as_str()) => Some(name.as_str()),
        _ => None,
    }
}

/// Whether `name` is a name of standard output. Opening a name of standard output would make another stream of the same file, with
/// a position of its own.
fn is_output(name: &str) -> bool
    ensures { result ≡ is_output_name name.now }
{
    name == "/dev/stdout" || name == "/dev/fd/1" || name == "/proc/self/fd/1"
}

/// Reports why the command line can't be read, and returns the exit status, as `run` does for an invalid command line.
pub fn refuse<O: Sink, E: Sink>(fault: CommandFault, sinks: &mut Sinks<O, E>) -> u8
    requires { CanWrite sinks.old }
    ensures { IsEndingPrinted (of_line fault) result sinks.old sinks.new }
{
    report_line(fault, sinks)
}
