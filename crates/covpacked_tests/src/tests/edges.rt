//! Numbers at the limits of each packed width are read back as they were pushed.

use super::made;
use super::mixed::branch_of;
use super::same::check_item;
use super::wrappers::{push_branch, push_function, push_line};
use covpacked::{ItemRef, PackedSects};
use std::process::Abort;
use std::test::*;

/// Lines at the edges of 30, 31, 32 and 64 bits.
const LINES: [u64; 9] = [
    0,
    1,
    1_073_741_823,
    1_073_741_824,
    2_147_483_647,
    2_147_483_648,
    4_294_967_295,
    4_294_967_296,
    18_446_744_073_709_551_615,
];

/// Counts at the edges of 30, 31, 32, 64 and 128 bits.
const COUNTS: [u128; 11] = [
    0,
    1,
    1_073_741_823,
    1_073_741_824,
    2_147_483_647,
    2_147_483_648,
    4_294_967_295,
    4_294_967_296,
    18_446_744_073_709_551_615,
    18_446_744_073_709_551_616,
    340_282_366_920_938_463_463_374_607_431_768_211_455,
];

/// Blocks and numbers of branches at the edges of 16 and 64 bits.
const QUARTERS: [u64; 5] = [0, 1, 65_535, 65_536, 18_446_744_073_709_551_615];

/// Values of `taken` at the edges of 32 and 128 bits.
const TAKEN: [Option<u128>; 6] = [
    None,
    Some(0),
    Some(1),
    Some(4_294_967_295),
    Some(4_294_967_296),
    Some(340_282_366_920_938_463_463_374_607_431_768_211_455),
];

/// Checks that the last item pushed is read back as `wanted`.
fn check_last(rt: &impl Abort, sects: &PackedSects, wanted: ItemRef<'_>) {
    let place = sects.open_len().wrapping_sub(1);
    check_item(rt, place, sects.items().get(place), wanted);
}

/// Checks that lines with each number and count are read back as they were pushed.
fn check_lines(rt: &(impl Abort + AllocGlobal), checksum: Option<&[u8]>) {
    let mut sects = PackedSects::new(rt.alloc());
    for line in LINES {
        for count in COUNTS {
            made(rt, push_line(&mut sects, line, count, checksum));
            let wanted = ItemRef::Line {
                line,
                count,
                checksum,
            };
            check_last(rt, &sects, wanted);
        }
    }
}

/// Checks that functions with each start line and count are read back as they were pushed.
fn check_functions(rt: &(impl Abort + AllocGlobal), name: &[u8]) {
    let mut sects = PackedSects::new(rt.alloc());
    for line in LINES {
        for count in COUNTS {
            made(rt, push_function(&mut sects, name, line, count));
            check_last(rt, &sects, ItemRef::Func { name, line, count });
        }
    }
}

/// Checks that branches with each number in the block and `taken` are read back as they were pushed.
fn check_branches(rt: &(impl Abort + AllocGlobal), line: u64, block: u64) {
    let mut sects = PackedSects::new(rt.alloc());
    for branch in QUARTERS {
        for taken in TAKEN {
            made(rt, push_branch(&mut sects, line, block, branch, taken));
            check_last(rt, &sects, branch_of(line, block, branch, taken));
        }
    }
}

/// An empty checksum differs from a missing checksum.
#[test]
fn lines(rt: HostRuntime) {
    let checksums: [Option<&[u8]>; 4] = [
        None,
        Some(b""),
        Some(b"a"),
        Some(b"1B2M2Y8AsgTpgAmY7PhCfg=="),
    ];
    for checksum in checksums {
        check_lines(&rt, checksum);
    }
}

#[test]
fn functions(rt: HostRuntime) {
    let names: [&[u8]; 3] = [b"", b"f", b"void f(int, char)\xff"];
    for name in names {
        check_functions(&rt, name);
    }
}

#[test]
fn branches(rt: HostRuntime) {
    for line in LINES {
        for block in QUARTERS {
            check_branches(&rt, line, block);
        }
    }
}
