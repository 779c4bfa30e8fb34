//! Runs the program with streams and folders that no real program has, and once for each subcommand with ample memory. All other
//! runs are text files in e2e/calls, which scripts/e2e plays with the built program. Expected values were worked out by hand.

ghost use Rattle.covworld.specs.Streams.{CanWrite};
ghost use Rattle.covworld.specs.World.{CanCall};

use covrun::{Folder, FolderWriter, Sinks, World};
use covstore::Store;
use covstream::{FromRead, FromWrite, Sink, Source};
use covworld::{FromFiles, IntoFiles};
use std::alloc::Global;
use std::process::Abort;
use std::random::RandomSource;
use std::rt::Files;
use std::sync::Wait;
use std::test::*;
use std::thread::Threads;

mod faults;
mod files;
mod folders;
mod outputs;
mod printing;

/// Runs the program over a `Store` and returns its exit status. Deliberately without an `ensures`: a test looks only at the result,
/// and is proved faster this way.
fn run<
    R: AllocGlobal + Threads + Wait + Sync,
    F: Folder<File: Send> + Sync,
    P: FolderWriter,
    I: Source,
    O: Sink,
    E: Sink,
>(rt: &R, folder: &F, words: &[String], world: &mut World<P, I, O, E>) -> u8
    requires { CanCall world.old }
{
    covrun::run::<R, F, P, I, O, E, Store>(rt, folder, words, world)
}

/// Runs the program on the file system and returns its exit status.
fn called<
    R: Files<File: Send, Dir: Send> + RandomSource + AllocGlobal + Threads + Wait + Sync,
    P: FolderWriter,
    I: Source,
    O: Sink,
    E: Sink,
>(rt: &R, words: &[String], world: &mut World<P, I, O, E>) -> u8
    requires { CanCall world.old }
{
    run(rt, &FromFiles::new(rt), words, world)
}

/// The exit status of a run, its output, and its error stream.
#[derive(Drop)]
struct Told {
    status: u8,
    output: Vec<u8>,
    faults: Vec<u8>,
}

impl Told {
    /// The result of a run that ended with the exit status `status` and wrote to `sinks`.
    fn of(status: u8, sinks: KeptSinks) -> Told {
        let Sinks { output, faults } = sinks;
        Told {
            status,
            output: output.into_inner(),
            faults: faults.into_inner(),
        }
    }
}

/// Runs the program with the arguments `words` and the standard input `input`.
fn call<R: Files<File: Send, Dir: Send> + RandomSource + AllocGlobal + Threads + Wait + Sync>(
    rt: &R,
    words: &[String],
    input: &[u8],
) -> Told {
    let mut world = World {
        files: IntoFiles::new(rt),
        input: FromRead::new(input),
        sinks: kept_sinks(rt.alloc()),
    };
    let status = called(rt, words, &mut world);
    Told::of(status, world.sinks)
}

/// Two streams that keep what they take.
type KeptSinks = Sinks<FromWrite<Vec<u8>>, FromWrite<Vec<u8>>>;

/// Two streams that have taken nothing yet.
fn kept_sinks(alloc: Global) -> KeptSinks
    ensures { CanWrite result }
{
    Sinks {
        output: FromWrite::new(Vec::new(alloc)),
        faults: FromWrite::new(Vec::new(alloc)),
    }
}

/// Splits a command line into arguments.
fn words_of(alloc: Global, text: &str) -> Result<Vec<String>, Fail> {
    let mut words = Vec::new(alloc);
    for word in text.split_whitespace() {
        words.push(String::from_str(alloc, word)?)?;
    }
    Ok(words)
}

/// Checks that a run's text `given` equals `wanted`, or begins with the part of `wanted` before a final `...`.
fn check_text(
    rt: &(impl Abort + AllocGlobal),
    asked: &str,
    given: &[u8],
    wanted: &str,
) -> Result<(), Fail> {
    let given: String = String::from_utf8_lossy(rt.alloc(), given)?;
    let fits = match wanted.strip_suffix("...\n") {
        Some(beginning) => given.as_str().starts_with(beginning),
        None => given.as_str() == wanted,
    };
    assert!(rt; fits, "{asked}: {given}");
    Ok(())
}
