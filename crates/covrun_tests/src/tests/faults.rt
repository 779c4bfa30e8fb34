//! Runs whose input or output fails: the exit status, the reported errors, and the output before the failure.

ghost use Rattle.std.specs.Prelude.{◌<◌, ◌^◌, None};

use super::{called, check_text, kept_sinks, words_of};
use covrun::{Sinks, World};
use covstream::{Failed, FromRead, FromWrite, Sink, Source};
use covworld::IntoFiles;
use std::process::Abort;
use std::random::RandomSource;
use std::rt::Files;
use std::sync::Wait;
use std::test::*;
use std::thread::Threads;

/// An output that takes no byte or, if `takes` is true, takes all bytes but can't flush them.
#[derive(Drop)]
struct Closed {
    takes: bool,
    failed: u64,
}

impl Sink for Closed {
    ghost written = { λ s. None };

    ghost held = { λ s. 0 };

    ghost failed_writes = { λ s. s.failed };

    fn write(&mut self, bytes: &[u8]) -> Result<usize, Failed> {
        if self.takes || bytes.is_empty() {
            return Ok(bytes.len());
        }
        self.failed += 1;
        Err(Failed)
    }

    fn flush(&mut self) -> Result<(), Failed> {
        self.failed += 1;
        Err(Failed)
    }
}

/// Runs the program with the arguments `words` and the output `output`. Returns the exit status, the output and the error stream.
fn call_into<
    R: Files<File: Send, Dir: Send> + RandomSource + AllocGlobal + Threads + Wait + Sync,
    O: Sink + Drop,
>(rt: &R, words: &[String], output: O) -> (u8, O, Vec<u8>)
    requires { O.failed_writes output < 2 ^ 62 }
{
    let mut world = World {
        files: IntoFiles::new(rt),
        input: FromRead::new(&b""[..]),
        sinks: Sinks {
            output,
            faults: FromWrite::new(Vec::new(rt.alloc())),
        },
    };
    let status = called(rt, words, &mut world);
    let World { sinks, .. } = world;
    let Sinks { output, faults } = sinks;
    (status, output, faults.into_inner())
}

/// Runs the program with a `Closed` output. Returns the exit status and the error stream.
fn call_closed<
    R: Files<File: Send, Dir: Send> + RandomSource + AllocGlobal + Threads + Wait + Sync,
>(rt: &R, asked: &str, takes: bool) -> Result<(u8, Vec<u8>), Fail> {
    let words = words_of(rt.alloc(), asked)?;
    let (status, _, faults) = call_into(rt, words.as_slice(), Closed { takes, failed: 0 });
    Ok((status, faults))
}

/// Checks that a run of `asked` with a `Closed` output ends with status 1 and the error stream `told`.
fn check_closed<
    R: Files<File: Send, Dir: Send> + RandomSource + AllocGlobal + Threads + Wait + Abort + Sync,
>(rt: &R, asked: &str, takes: bool, told: &str) -> Result<(), Fail> {
    let (status, faults) = call_closed(rt, asked, takes)?;
    check_text(rt, asked, faults.as_slice(), told)?;
    assert!(rt; status == 1, "{asked}: the status is {status}");
    Ok(())
}

/// An output that fails at once, and an output that fails when it is flushed.
#[test]
fn a_closed_output(rt: HostRuntime) -> Result<(), Fail> {
    for takes in [false, true] {
        for asked in [
            "covcollect summary /dev/null",
            "covcollect summary --json /dev/null",
            "covcollect list /dev/null",
            "covcollect list --json /dev/null",
            "covcollect --help",
        ] {
            check_closed(&rt, asked, takes, "write fault\n")?;
        }
    }
    check_closed(
        &rt,
        "covcollect merge /dev/null /dev/null",
        true,
        "write fault\n",
    )
}

/// Only the failed write is reported, although /dev/null is below each threshold.
#[test]
fn a_closed_output_with_a_limit(rt: HostRuntime) -> Result<(), Fail> {
    for takes in [false, true] {
        for asked in [
            "covcollect summary --fail-under-lines 0 /dev/null",
            "covcollect summary --json --fail-under-lines 100 --fail-under-branches 1 /dev/null",
        ] {
            check_closed(&rt, asked, takes, "write fault\n")?;
        }
    }
    Ok(())
}

/// A `check` that can't write a file's line reports the errors of this file and of earlier files, but not of later files.
#[test]
fn a_check_with_a_closed_output(rt: HostRuntime) -> Result<(), Fail> {
    for asked in [
        "covcollect check /tmp/covrun_tests-none /dev/null /tmp/covrun_tests-none",
        "covcollect check -j 3 /tmp/covrun_tests-none /dev/null /tmp/covrun_tests-none",
    ] {
        for takes in [false, true] {
            check_closed(
                &rt,
                asked,
                takes,
                "/tmp/covrun_tests-none: can't read\n/dev/null: no items\nwrite fault\n",
            )?;
        }
    }
    Ok(())
}

/// An output that takes `left` whole writes, stores their bytes, and then fails.
#[derive(Drop)]
pub(super) struct Closing {
    pub(super) left: u64,
    pub(super) taken: Vec<u8>,
    pub(super) failed: u64,
}

impl Sink for Closing {
    ghost written = { λ s. None };

    ghost held = { λ s. 0 };

    ghost failed_writes = { λ s. s.failed };

    fn write(&mut self, bytes: &[u8]) -> Result<usize, Failed> {
        if self.left > 0 && self.taken.extend_from_slice(bytes).is_ok() {
            self.left -= 1;
            return Ok(bytes.len());
        }
        self.failed += 1;
        Err(Failed)
    }

    fn flush(&mut self) -> Result<(), Failed> {
        Ok(())
    }
}

/// A `check` of three files whose output fails after one line. The output has the whole line of the first file and nothing of the
/// second. The third file isn't reported.
#[test]
fn a_check_whose_output_takes_one_line(rt: HostRuntime) -> Result<(), Fail> {
    let words = words_of(
        rt.alloc(),
        "covcollect check /dev/null /dev/null /tmp/covrun_tests-none",
    )?;
    let sink = Closing {
        left: 1,
        taken: Vec::new(rt.alloc()),
        failed: 0,
    };
    let (status, sink, faults) = call_into(&rt, words.as_slice(), sink);
    assert!(rt; status == 1, "the status is {status}");
    assert!(rt; sink.failed == 1, "{} writes failed", sink.failed);
    let line = "/dev/null: sections 0 items 0 odd 0 skipped 0\n";
    check_text(&rt, "output", sink.taken.as_slice(), line)?;
    let told = "/dev/null: no items\n/dev/null: no items\nwrite fault\n";
    check_text(&rt, "faults", faults.as_slice(), told)
}

/// An input whose every read fails.
#[derive(Drop)]
struct Broken {
    reads: u64,
}

impl Source for Broken {
    ghost left = { λ s. None };

    ghost reads = { λ s. s.reads };

    ghost failed_reads = { λ s. s.reads };

    fn read(&mut self, _buffer: &mut [u8]) -> Result<usize, Failed> {
        self.reads += 1;
        Err(Failed)
    }
}

/// Runs the program with a `Broken` input. Returns the exit status, and how often the input was read.
fn call_broken<
    R: Files<File: Send, Dir: Send> + RandomSource + AllocGlobal + Threads + Wait + Sync,
>(rt: &R, asked: &str) -> Result<(u8, u64), Fail> {
    let words = words_of(rt.alloc(), asked)?;
    let mut world = World {
        files: IntoFiles::new(rt),
        input: Broken { reads: 0 },
        sinks: kept_sinks(rt.alloc()),
    };
    let status = called(rt, words.as_slice(), &mut world);
    Ok((status, world.input.reads))
}

/// Checks the exit status of a run with a `Broken` input, and how often the input was read.
fn check_broken<
    R: Files<File: Send, Dir: Send> + RandomSource + AllocGlobal + Threads + Wait + Abort + Sync,
>(rt: &R, asked: &str, status: u8, reads: u64) -> Result<(), Fail> {
    let (given, times) = call_broken(rt, asked)?;
    assert!(rt; given == status, "{asked}: the status is {given}");
    assert!(rt; times == reads, "{asked}: the input was read {times} times");
    Ok(())
}

/// Only a session reads standard input.
#[test]
fn a_broken_input(rt: HostRuntime) -> Result<(), Fail> {
    check_broken(&rt, "covcollect", 1, 1)?;
    check_broken(&rt, "covcollect merge /dev/null", 0, 0)?;
    check_broken(&rt, "covcollect --help", 0, 0)?;
    check_broken(&rt, "covcollect bogus", 2, 0)
}
