//! Checks files: reads each file by itself and prints a line about it.

ghost use Rattle.std.specs.Prelude.{◌≡◌, ◌<◌, ◌≤◌, ◌+◌, ◌^◌, ◌++◌, length, map, max, IfOk};
ghost use Rattle.std.specs.String.{string_bytes};
ghost use Rattle.covrun.specs.Check.{IsCheck};
ghost use Rattle.covrun.specs.Checked.{AreExamined, TellsEach, TellsExamined};
ghost use Rattle.covworld.specs.Folder.{folder_data};
ghost use Rattle.covworld.specs.Streams.{CanWrite};

use crate::check_verdict::CheckVerdict;
use crate::file_report::{FileReport, examine};
use crate::work::{CheckOptions, CheckedFormat};
use covcommand::Strictness;
use covsession::{SessionFault, line_of, status_of};
use covstream::Sink;
use covworld::{Folder, Sinks};
use std::alloc::{AllocError, Global};
use std::thread;
use std::thread::Threads;

/// Checks up to `options.jobs` of `files` at once, reports them in their order, and returns the exit status. Stores at most one
/// file's content per job.
pub(crate) fn check_files<R: Threads + Sync, F: Folder<File: Send> + Sync, O: Sink, E: Sink>(
    rt: &R,
    folder: &F,
    alloc: Global,
    options: &CheckOptions,
    files: &[String],
    sinks: &mut Sinks<O, E>,
) -> u8
    requires { CanWrite sinks.old }
    ensures { IsCheck (folder_data F.Folder F.File.Source folder.now) options.now.format options.now.strictness (map string_bytes files.now) result sinks.old sinks.new }
{
    match check_each(rt, folder, alloc, options, files, sinks) {
        Ok(worst) => worst.status(),
        Err(fault) => {
            sinks.say(b"", line_of(fault));
            status_of(fault)
        }
    }
}

/// Checks and reports `files` in rounds of one file per job. Returns the worst verdict.
fn check_each<R: Threads + Sync, F: Folder<File: Send> + Sync, O: Sink, E: Sink>(
    rt: &R,
    folder: &F,
    alloc: Global,
    options: &CheckOptions,
    files: &[String],
    sinks: &mut Sinks<O, E>,
) -> Result<CheckVerdict, SessionFault>
    requires { CanWrite sinks.old }
    ensures { TellsEach (folder_data F.Folder F.File.Source folder.now) options.now.format options.now.strictness (map string_bytes files.now) result sinks.old sinks.new }
{
    let mut worst = CheckVerdict::Fine;
    let mut left = files;
    while !left.is_empty() {
        let (round, later) = next_round(options.jobs, left);
        let verdict = check_round(rt, folder, alloc, options, round, sinks)?;
        worst = worst.or(verdict);
        left = later;
    }
    Ok(worst)
}

/// Splits `left` into the files of the next round and the rest. A round has at most `jobs` files, or one if `jobs` is 0.
fn next_round(jobs: u32, left: &[String]) -> (&[String], &[String])
    requires { 0 < length left.now }
    ensures all { result.0.now ++ result.1.now ≡ left.now }
    ensures some { 0 < length result.0.now }
    ensures few { length result.0.now ≤ max 1 jobs }
{
    left.split_at(left.len().min(jobs.max(1) as usize))
}

/// Checks `files`, which are a round, at once, reports them in their order, and returns the worst verdict.
fn check_round<R: Threads + Sync, F: Folder<File: Send> + Sync, O: Sink, E: Sink>(
    rt: &R,
    folder: &F,
    alloc: Global,
    options: &CheckOptions,
    files: &[String],
    sinks: &mut Sinks<O, E>,
) -> Result<CheckVerdict, SessionFault>
    requires some { 0 < length files.now }
    requires output { sinks.old.failed_output < 2 ^ 62 }
    requires faults { sinks.old.failed_faults + length files.now < 2 ^ 63 }
    ensures { TellsEach (folder_data F.Folder F.File.Source folder.now) options.now.format options.now.strictness (map string_bytes files.now) result sinks.old sinks.new }
{
    let reports = examine_at_once(rt, folder, alloc, options.format, options.strictness, files)?;
    let mut worst = CheckVerdict::Fine;
    for report in reports.as_slice() {
        let verdict = write_report(report, sinks)?;
        worst = worst.or(verdict);
    }
    Ok(worst)
}

/// Examines each of `files` in a thread of its own. Uses the calling thread for a single file, or if no thread can be started.
/// Returns the reports in the order of the files.
fn examine_at_once<R: Threads + Sync, F: Folder<File: Send> + Sync>(
    rt: &R,
    folder: &F,
    alloc: Global,
    format: CheckedFormat,
    strictness: Strictness,
    files: &[String],
) -> Result<Vec<Result<FileReport, SessionFault>>, AllocError>
    ensures { IfOk result (λ reports. AreExamined (folder_data F.Folder F.File.Source folder.now) format strictness (map string_bytes files.now) reports.items) }
{
    thread::map_indices(
        rt,
        alloc,
        files.len(),
        &|index| examine(folder, alloc, format, strictness, files[index].as_str()),
    )
}

/// Writes the report of an examined file and returns its verdict. Writes nothing if memory ran out.
fn write_report<O: Sink, E: Sink>(
    report: &Result<FileReport, SessionFault>,
    sinks: &mut Sinks<O, E>,
) -> Result<CheckVerdict, SessionFault>
    requires output { sinks.old.failed_output < 2 ^ 62 }
    requires faults { sinks.old.failed_faults < 2 ^ 63 }
    ensures { TellsExamined report.now result sinks.old sinks.new }
{
    match report {
        Ok(report) => report.write(sinks),
        Err(fault) => Err(*fault),
    }
}
