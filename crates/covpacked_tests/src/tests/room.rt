//! Tests how much memory an item uses, since no contract says that small numbers take few bytes.

use super::heap::{narrow, new_heap};
use super::made;
use super::mixed::{branch_of, function_of, line_of};
use super::wrappers::{close, push};
use covpacked::{ItemRef, PackedSects};
use std::process::Abort;
use std::test::*;

/// Checks that 64 copies of `item` take at most `bytes` bytes each, and as much again for outgrown lists.
fn check(rt: &(impl Abort + AllocGlobal), item: ItemRef<'_>, bytes: usize) {
    let heap = new_heap(rt);
    let mut sects = PackedSects::new(&heap);
    narrow(rt, &heap, bytes.wrapping_mul(128));
    for number in 0..64 {
        assert!(rt; push(&mut sects, item).is_ok(), "no room for item {number}");
    }
}

/// Lines, branches and a function. The numbers are the largest that take few bytes. Eight of the second line's 32 bytes, and of the
/// function's 64, are a text.
#[test]
fn items(rt: HostRuntime) {
    let most = 18_446_744_073_709_551_615;
    let all = [
        (line_of(1_073_741_823, 2_147_483_647, None), 8),
        (line_of(1_073_741_823, 4_294_967_295, Some(b"abcdefgh")), 32),
        (
            branch_of(1_073_741_823, 65_535, 65_535, Some(4_294_967_295)),
            16,
        ),
        (branch_of(1_073_741_823, 65_535, 65_535, None), 16),
        (
            function_of(
                b"function",
                most,
                340_282_366_920_938_463_463_374_607_431_768_211_455,
            ),
            64,
        ),
    ];
    for (item, bytes) in all {
        check(&rt, item, bytes);
    }
}

/// The sections of one test share its name: 16 names of 1,000 bytes wouldn't fit.
#[test]
fn names_of_one_test(rt: HostRuntime) {
    let heap = new_heap(&rt);
    let mut sects = PackedSects::new(&heap);
    narrow(&rt, &heap, 6_000);
    for _ in 0..16 {
        made(&rt, close(&mut sects, &[b'n'; 1_000], b"a.c"));
    }
}
