//! Tests of `read_at_most`.

use covdata::Bytes;
use covstream::{BlockFault, FromRead, read_at_most};
use std::alloc::Global;
use std::io::{self, Read};
use std::process::Abort;
use std::test::*;

/// A reader of std that gives at most two bytes per read. Every read from number `fails` on, counted from 1, fails.
#[derive(Drop)]
struct Given<'a> {
    bytes: &'a [u8],
    fails: u64,
    reads: u64,
}

impl<'a> Read for Given<'a> {
    fn read(&mut self, buffer: &mut [u8]) -> io::Result<usize> {
        self.reads = self.reads.saturating_add(1);
        if self.reads >= self.fails {
            return Err(io::Error::from(io::ErrorKind::Interrupted));
        }
        let count = self.bytes.len().min(2).min(buffer.len());
        buffer[..count].copy_from_slice(&self.bytes[..count]);
        self.bytes = &self.bytes[count..];
        Ok(count)
    }
}

/// Appends at most `most` bytes, and at most 100, of the source `bytes` to `text`. Returns the text and the number of reads. Each
/// read asks for at most three bytes, and returns at most two.
fn read(
    alloc: Global,
    text: &[u8],
    bytes: &[u8],
    fails: u64,
    most: usize,
) -> Result<Result<(Bytes, u64), BlockFault>, Fail> {
    let mut reader = Given {
        bytes,
        fails,
        reads: 0,
    };
    let mut block = vec![in alloc; 0; 3]?;
    let begun = Bytes::of(alloc, text)?;
    let read = {
        let mut source = FromRead::new(&mut reader);
        read_at_most(begun, &mut source, block.as_mut_slice(), most.min(100))
    };
    match read {
        Ok(all) => Ok(Ok((all, reader.reads))),
        Err(fault) => Ok(Err(fault)),
    }
}

/// Checks that `read` returns the text and the number of reads in `wanted`.
fn check(
    rt: &(impl Abort + AllocGlobal),
    text: &[u8],
    bytes: &[u8],
    most: usize,
    wanted: (&[u8], u64),
) -> Result<(), Fail> {
    let (all, reads) = read(rt.alloc(), text, bytes, 100, most)??;
    assert!(rt;
        all.get() == wanted.0 && reads == wanted.1,
        "{:?} by {reads} reads",
        all.get()
    );
    Ok(())
}

/// Bytes are appended until the limit or the end of the source is reached.
#[test]
fn reads(rt: HostRuntime) -> Result<(), Fail> {
    check(&rt, b"", b"abcdef", 4, (b"abcd", 2))?;
    check(&rt, b"x", b"abcdef", 5, (b"xabcde", 3))?;
    check(&rt, b"xy", b"abcdef", 6, (b"xyabcdef", 3))?;
    check(&rt, b"xy", b"abc", 6, (b"xyabc", 3))?;
    check(&rt, b"xy", b"", 6, (b"xy", 1))?;
    check(&rt, b"xy", b"abc", 0, (b"xy", 0))
}

/// A failed read ends with the error `Read`. A read that isn't needed isn't made, and so can't fail.
#[test]
fn failed_reads(rt: HostRuntime) -> Result<(), Fail> {
    let first = read(rt.alloc(), b"x", b"abc", 1, 4)?;
    assert!(rt;
        matches!(first, Err(BlockFault::Unreadable)),
        "the first read"
    );
    let third = read(rt.alloc(), b"", b"abcdef", 3, 5)?;
    assert!(rt;
        matches!(third, Err(BlockFault::Unreadable)),
        "the third read"
    );
    let two = read(rt.alloc(), b"", b"abcdef", 3, 4)?;
    assert!(rt; matches!(two, Ok((_, 2))), "two reads");
    Ok(())
}
