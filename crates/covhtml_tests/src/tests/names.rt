//! Names of pages.

use super::{check_bytes, made};
use covdata::{Bytes, Memory};
use std::alloc::Global;
use std::process::Abort;
use std::test::*;

/// Calls `page_name` without its contract.
fn name(alloc: Global, number: u64, path: &[u8]) -> Result<Bytes, Memory> {
    covhtml::page_name(alloc, number, path)
}

/// Checks the name of a file's page.
fn check_name(rt: &(impl Abort + AllocGlobal), number: u64, path: &[u8], wanted: &[u8]) {
    let given = made(rt, name(rt.alloc(), number, path));
    check_bytes(rt, given.get(), wanted);
}

#[test]
fn names_of_paths(rt: HostRuntime) {
    check_name(&rt, 1, b"src/main.c", b"file-src-main.c.html");
    check_name(
        &rt,
        2,
        b"/home/Me/a-b_1.C",
        b"file--home-~4de-a~2db_1.~43.html",
    );
    check_name(&rt, 3, b"a~41", b"file-a~7e41.html");
    check_name(&rt, 4, b"", b"file-.html");
}

#[test]
fn names_of_hostile_paths(rt: HostRuntime) {
    check_name(&rt, 1, b"..", b"file-...html");
    check_name(&rt, 2, b"../../etc/passwd", b"file-..-..-etc-passwd.html");
    check_name(&rt, 3, b"a\0\n\xff", b"file-a~00~0a~ff.html");
    check_name(&rt, 4, b"c:\\nul", b"file-c~3a~5cnul.html");
    check_name(&rt, 5, b"\"><b>", b"file-~22~3e~3cb~3e.html");
}

/// 246 bytes, of which each but the last has its place in a name.
const LONG: &[u8] = b"\
aaaaaaaaaaaaaaaaaaaaaaaaaaaaaaaaaaaaaaaaaaaaaaaaaaaaaaaaaaaaaaaaaaaaaaaaaaaaaaaaaa\
bbbbbbbbbbbbbbbbbbbbbbbbbbbbbbbbbbbbbbbbbbbbbbbbbbbbbbbbbbbbbbbbbbbbbbbbbbbbbbbbbb\
cccccccccccccccccccccccccccccccccccccccccccccccccccccccccccccccccccccccccccccccccc";

/// The name of the first 245 bytes of `LONG`.
const LONGEST: &[u8] = b"file-\
aaaaaaaaaaaaaaaaaaaaaaaaaaaaaaaaaaaaaaaaaaaaaaaaaaaaaaaaaaaaaaaaaaaaaaaaaaaaaaaaaa\
bbbbbbbbbbbbbbbbbbbbbbbbbbbbbbbbbbbbbbbbbbbbbbbbbbbbbbbbbbbbbbbbbbbbbbbbbbbbbbbbbb\
ccccccccccccccccccccccccccccccccccccccccccccccccccccccccccccccccccccccccccccccccc.html";

#[test]
fn names_of_long_paths(rt: HostRuntime) {
    assert_eq!(rt; LONG.len(), 246);
    check_name(&rt, 17, &LONG[..245], LONGEST);
    check_name(&rt, 17, LONG, b"long-17.html");
    check_name(&rt, u64::MAX, LONG, b"long-18446744073709551615.html");
}
