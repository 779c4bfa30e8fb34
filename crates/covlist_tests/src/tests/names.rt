//! Tests of names as they are printed.

use super::wrappers::{put_lines, put_name};
use super::{check_bytes, made};
use covdata::Bytes;
use std::process::Abort;
use std::test::*;

/// Checks how the name is printed after another text.
fn check_name(rt: &(impl Abort + AllocGlobal), name: &[u8], wanted: &[u8]) {
    let mut text = Bytes::new(rt.alloc());
    made(rt, put_name(b"of ", &mut text));
    made(rt, put_name(name, &mut text));
    check_bytes(rt, text.get(), wanted);
}

/// Names, and how they are printed after `of `.
const NAMES: [(&[u8], &[u8]); 5] = [
    (b"", b"of "),
    (b"/src/a b~.c", b"of /src/a b~.c"),
    (b"\xc3\xa9\xff\x80", b"of \xc3\xa9\xff\x80"),
    (
        b"a\n\x1b[1m\0\t\x1f\x7f\\.c",
        b"of a\\x0a\\x1b[1m\\x00\\x09\\x1f\\x7f\\\\.c",
    ),
    (b"\\x01\x01", b"of \\\\x01\\x01"),
];

#[test]
fn shown_names(rt: HostRuntime) {
    for (name, wanted) in NAMES {
        check_name(&rt, name, wanted);
    }
}

#[test]
fn shown_lines(rt: HostRuntime) {
    let mut text = Bytes::new(rt.alloc());
    made(&rt, put_lines(b"clash a\x1b\\.c 1 x \x7f\n\n\r", &mut text));
    check_bytes(&rt, text.get(), b"clash a\\x1b\\\\.c 1 x \\x7f\n\n\\x0d");
}
