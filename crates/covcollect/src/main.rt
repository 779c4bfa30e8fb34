//! covcollect, a coverage collector for lcov tracefiles. A call without a subcommand reads commands from standard input and answers
//! each command on standard output. A subcommand reads the files that its arguments name, and prints one text. An error that ends
//! the program is reported on standard error and by the exit status.
//!
//! `main` only collects the arguments, makes the streams and names the store; the rest of the program is covrun's `run`. By the
//! laws of covlaws, the output of `merge`, `extract`, `remove` and `gcov` reads back: a merge of this output alone prints the same
//! text.
//!
//! ```text
//! $ covcollect <<'END'
//! trace
//! SF:/src/a.c
//! DA:1,2
//! end_of_record
//! .
//! summary
//! drop
//! END
//! $ covcollect merge --jobs 4 first.info second.info > all.info
//! ```
#![tactic(auto)]

use covcommand::{CommandFault, word_at};
pub use covlaws::{
    a_merge_of_merges_is_the_merge_of_all, each_report_of_a_history_reads_back, reports_read_back,
};
use covprogress::ShowsProgress;
use covrun::{Sinks, World, refuse, run};
use covstore::Store;
use covstream::{FromRead, FromWrite};
use covworld::{FromFiles, IntoFiles};
use std::env::FillError;
use std::io;
use std::process::ExitCode;
use std::rt::Env;

fn main(rt: HostRuntime) -> ExitCode {
    let mut world = World {
        files: IntoFiles::new(&rt),
        input: FromRead::new(rt.reader()),
        sinks: Sinks {
            output: FromWrite::new(io::writer(&rt)),
            faults: FromWrite::new(rt.stderr()),
        },
    };
    let status = match words_of_call(&rt) {
        Ok(words) => {
            let folder = ShowsProgress::new(FromFiles::new(&rt), rt, rt.stderr());
            run::<_, _, _, _, _, _, Store>(&rt, &folder, words.as_slice(), &mut world)
        }
        Err(fault) => refuse(fault, &mut world.sinks),
    };
    ExitCode::from(status)
}

/// Returns the arguments as strings, the program's name first. Fails if an argument isn't UTF-8 or memory runs out.
fn words_of_call<R: Env + AllocGlobal>(rt: &R) -> Result<Vec<String>, CommandFault> {
    let mut words = Vec::new(rt.alloc());
    for index in 0..usize::MAX {
        let Some(bytes) = bytes_of_word(rt, index)? else {
            break;
        };
        let word = word_at(rt.alloc(), index + 1, bytes.as_slice())?;
        if words.push(word).is_err() {
            return Err(CommandFault::Memory);
        }
    }
    Ok(words)
}

/// Returns the bytes of the argument at `index`, or `None` if there are fewer arguments. The program's name has index 0.
fn bytes_of_word<R: Env + AllocGlobal>(
    rt: &R,
    index: usize,
) -> Result<Option<Vec<u8>>, CommandFault> {
    let mut room: usize = 256;
    for _ in 0..usize::BITS {
        let mut word = Vec::new(rt.alloc());
        word.resize(room, 0)?;
        match rt.arg(index, word.as_mut_slice()) {
            Ok(len) => {
                word.truncate(len);
                return Ok(Some(word));
            }
            Err(FillError::NotPresent) => return Ok(None),
            Err(FillError::TooLong) => room = room.saturating_mul(2),
        }
    }
    Err(CommandFault::Memory)
}
