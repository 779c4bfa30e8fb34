//! Tests of `FromRead` and `FromWrite`.

use covstream::{Failed, FromRead, FromWrite, Sink, Source};
use std::io::{self, Read, Write};
use std::test::*;

/// A reader and writer of std whose calls all fail.
#[derive(Drop)]
struct Broken;

impl Read for Broken {
    fn read(&mut self, _buffer: &mut [u8]) -> io::Result<usize> {
        Err(io::Error::from(io::ErrorKind::BrokenPipe))
    }
}

impl Write for Broken {
    fn write(&mut self, _bytes: &[u8]) -> io::Result<usize> {
        Err(io::Error::from(io::ErrorKind::BrokenPipe))
    }

    fn flush(&mut self) -> io::Result<()> {
        Err(io::Error::from(io::ErrorKind::BrokenPipe))
    }
}

/// A failed call of std is a failed call of the source or the sink.
#[test]
fn broken_streams(rt: HostRuntime) {
    let mut block = [0u8; 4];
    assert_eq!(rt; FromRead::new(Broken).read(&mut block), Err(Failed));
    assert_eq!(rt; FromWrite::new(Broken).write(b"a"), Err(Failed));
    assert_eq!(rt; FromWrite::new(Broken).flush(), Err(Failed));
}

/// A source gives the bytes of its reader, and then none.
#[test]
fn a_reader(rt: HostRuntime) {
    let mut block = [0u8; 4];
    let mut source = FromRead::new(b"abcde".as_slice());
    let first = source.read(&mut block);
    assert_eq!(rt; (first, &block[..]), (Ok(4), b"abcd".as_slice()));
    let second = source.read(&mut block);
    assert_eq!(rt; (second, block[0]), (Ok(1), b'e'));
    assert_eq!(rt; source.read(&mut block), Ok(0));
}

/// A full writer of std takes no byte, and so the write fails. A write of no bytes doesn't fail.
#[test]
fn a_full_writer(rt: HostRuntime) -> Result<(), Fail> {
    let mut room = vec![in rt.alloc(); b'?'; 3]?;
    let mut sink = FromWrite::new(room.as_mut_slice());
    assert_eq!(rt; sink.write(b"abcd"), Ok(3));
    assert_eq!(rt; sink.write(b""), Ok(0));
    assert_eq!(rt; sink.write(b"d"), Err(Failed));
    Ok(())
}
