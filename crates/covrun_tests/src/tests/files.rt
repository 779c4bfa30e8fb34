//! Runs on real files with ample memory, one run for each subcommand.

use super::{call, check_text, words_of};
use std::fs;
use std::process::{self, Abort};
use std::random::RandomSource;
use std::rt::Files;
use std::sync::Wait;
use std::test::*;
use std::thread::Threads;

/// A tracefile in printed form.
const TEXT: &str = "TN:t\nSF:/a.c\nDA:1,2\nDA:2,0\nLF:2\nLH:1\nend_of_record\n";

/// Checks that a run with the arguments `before`, `path` and `after` ends with status 0, the output `output` and an empty error
/// stream.
fn check<
    R: Files<File: Send, Dir: Send> + RandomSource + AllocGlobal + Threads + Wait + Abort + Sync,
>(rt: &R, before: &str, path: &str, after: &str, output: &str) -> Result<(), Fail> {
    let asked = format!(in rt.alloc(); "{before} {path} {after}")?;
    let words = words_of(rt.alloc(), asked.as_str())?;
    let told = call(rt, words.as_slice(), b"");
    check_text(rt, before, told.faults.as_slice(), "")?;
    check_text(rt, before, told.output.as_slice(), output)?;
    assert!(rt; told.status == 0, "{before}: the status is {}", told.status);
    Ok(())
}

/// Each subcommand that reads files.
#[test]
fn each_subcommand(rt: HostRuntime) -> Result<(), Fail> {
    let path = format!(in rt.alloc(); "/tmp/covrun_tests-{}.info", process::id(rt.process()))?;
    let path = path.as_str();
    fs::write(&rt, path, TEXT)?;
    for (before, after, output) in [
        ("covcollect merge --jobs 2", "/dev/null", TEXT),
        (
            "covcollect summary",
            "",
            "\
Summary coverage rate:
  lines......: 50.0% (1 of 2 lines)
  functions..: no data found
  branches...: no data found
",
        ),
        (
            "covcollect list",
            "--strict",
            "     Lines   Functions    Branches  File
 50.0% 1/2       - 0/0       - 0/0  /a.c
 50.0% 1/2       - 0/0       - 0/0  Total
",
        ),
        ("covcollect extract --large", "*.c", TEXT),
        ("covcollect remove --lcov2", "*.c", ""),
        ("covcollect gcov --test t", "", ""),
        ("covcollect combine -q", "--expect 1", TEXT),
    ] {
        check(&rt, before, path, after, output)?;
    }
    let line = format!(in rt.alloc(); "{path}: sections 1 items 2 odd 0 skipped 0\n")?;
    check(&rt, "covcollect check", path, "", line.as_str())?;
    fs::remove_file(&rt, path)?;
    Ok(())
}

/// A merge into the file that is its input.
#[test]
fn a_file_is_written(rt: HostRuntime) -> Result<(), Fail> {
    let path = format!(in rt.alloc(); "/tmp/covrun_tests-{}.info", process::id(rt.process()))?;
    let path = path.as_str();
    fs::write(&rt, path, TEXT)?;
    let twice = format!(in rt.alloc(); "{path} -o {path}")?;
    check(&rt, "covcollect merge", path, twice.as_str(), "")?;
    let held = fs::read(&rt, path)?;
    fs::remove_file(&rt, path)?;
    check_text(
        &rt,
        path,
        held.as_slice(),
        "TN:t\nSF:/a.c\nDA:1,4\nDA:2,0\nLF:2\nLH:1\nend_of_record\n",
    )
}

/// A session, and an invalid command line.
#[test]
fn calls_without_files(rt: HostRuntime) -> Result<(), Fail> {
    let told = call(
        &rt,
        words_of(rt.alloc(), "covcollect")?.as_slice(),
        b"report\n",
    );
    check_text(&rt, "session", told.faults.as_slice(), "")?;
    check_text(&rt, "session", told.output.as_slice(), ".\n")?;
    assert!(&rt; told.status == 0, "the status is {}", told.status);
    let told = call(
        &rt,
        words_of(rt.alloc(), "covcollect bogus")?.as_slice(),
        b"",
    );
    let faults = "\
error: unrecognized subcommand 'bogus'

Usage: covcollect [COMMAND]

For more information, try '--help'.
";
    check_text(&rt, "bogus", told.faults.as_slice(), faults)?;
    check_text(&rt, "bogus", told.output.as_slice(), "")?;
    assert!(&rt; told.status == 2, "the status is {}", told.status);
    Ok(())
}
