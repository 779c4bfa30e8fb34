//! Prints texts in several blocks, to outputs that fail before one of the blocks.

ghost use Rattle.std.specs.Prelude.{◌<◌, ◌^◌};

use super::faults::Closing;
use super::folders::OneFile;
use super::outputs::NoFiles;
use super::{check_text, run, words_of};
use covrun::{Folder, Sinks, World};
use covstream::{FromRead, FromWrite, Sink};
use std::alloc::Global;
use std::process::Abort;
use std::sync::Wait;
use std::test::*;
use std::thread::Threads;

/// Runs the program with the arguments `words`, the files of `folder` and the output `output`. Returns the exit status, the error
/// stream and the output.
fn call_into<R: AllocGlobal + Threads + Wait + Sync, F: Folder<File: Send> + Sync, O: Sink + Drop>(
    rt: &R,
    folder: &F,
    words: &[String],
    output: O,
) -> (u8, Vec<u8>, O)
    requires { O.failed_writes output < 2 ^ 62 }
{
    let mut world = World {
        files: NoFiles { failed: 0 },
        input: FromRead::new(&b""[..]),
        sinks: Sinks {
            output,
            faults: FromWrite::new(Vec::new(rt.alloc())),
        },
    };
    let status = run(rt, folder, words, &mut world);
    let World { sinks, .. } = world;
    let Sinks { output, faults } = sinks;
    (status, faults.into_inner(), output)
}

/// Merges the tracefile `text` into an output that takes `writes` whole writes and then fails. Returns the exit status, the error
/// stream and the output.
fn merge_into<R: AllocGlobal + Threads + Wait + Sync>(
    rt: &R,
    text: &[u8],
    writes: u64,
) -> Result<(u8, Vec<u8>, Closing), Fail> {
    let words = words_of(rt.alloc(), "covcollect merge a.info")?;
    let folder = OneFile {
        name: "a.info",
        text,
    };
    let output = Closing {
        left: writes,
        taken: Vec::new(rt.alloc()),
        failed: 0,
    };
    Ok(call_into(rt, &folder, words.as_slice(), output))
}

/// Checks merges of the tracefile `text`, which must be printed unchanged in `blocks` writes. An output that fails earlier must
/// have a proper prefix of `text`, and the failure must be reported. An output that takes all writes must have all of `text`.
fn check_blocks<R: AllocGlobal + Threads + Wait + Abort + Sync>(
    rt: &R,
    text: &[u8],
    blocks: u64,
) -> Result<(), Fail> {
    for writes in 0..blocks {
        let (status, faults, output) = merge_into(rt, text, writes)?;
        let taken = output.taken.as_slice();
        check_text(rt, "faults", faults.as_slice(), "write fault\n")?;
        assert!(rt; status == 1, "after {writes} writes the status is {status}");
        assert!(rt; output.failed == 1, "{} writes failed", output.failed);
        assert!(rt;
            taken.len() < text.len(),
            "all was written in {writes} writes"
        );
        assert!(rt;
            text.starts_with(taken),
            "after {writes} writes the output is another text"
        );
    }
    let (status, faults, output) = merge_into(rt, text, blocks)?;
    check_text(rt, "faults", faults.as_slice(), "")?;
    assert!(rt; status == 0, "the status is {status}");
    assert!(rt;
        output.taken.as_slice() == text,
        "the output is another text"
    );
    Ok(())
}

/// A tracefile of 20,000 lines in printed form, of 208,938 bytes.
fn many_lines(alloc: Global) -> Result<String, Fail> {
    let mut text = String::from_str(alloc, "TN:\nSF:/a.c\n")?;
    for line in 1..=20_000 {
        let record = format!(in alloc; "DA:{line},1\n")?;
        text.push_str(record.as_str())?;
    }
    text.push_str("LF:20000\nLH:20000\nend_of_record\n")?;
    Ok(text)
}

/// A text that is printed in four blocks.
#[test]
fn a_text_of_four_blocks(rt: HostRuntime) -> Result<(), Fail> {
    let text = many_lines(rt.alloc())?;
    check_blocks(&rt, text.as_str().as_bytes(), 4)
}

/// A tracefile in printed form. Its source file has a name of 200,000 bytes.
fn a_long_name(alloc: Global) -> Result<String, Fail> {
    let mut text = String::from_str(alloc, "TN:\nSF:")?;
    for _byte in 0..200_000 {
        text.push('x')?;
    }
    text.push_str("\nDA:1,1\nLF:1\nLH:1\nend_of_record\n")?;
    Ok(text)
}

/// A name that is printed in several blocks. The five writes are the bytes before the name, three blocks of the name, and the rest
/// of the name with the bytes after it.
#[test]
fn a_name_longer_than_a_block(rt: HostRuntime) -> Result<(), Fail> {
    let text = a_long_name(rt.alloc())?;
    check_blocks(&rt, text.as_str().as_bytes(), 5)
}
