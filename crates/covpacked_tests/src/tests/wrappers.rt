//! Wraps functions of covdata and covpacked in functions without contracts. Tests look only at values, and their proofs are faster
//! without contracts.

use covdata::{BranchPoint, Bytes, Memory, Submission};
use covpacked::{ItemRef, PackedSects, PackedSubmission};
use std::alloc::Allocator;

pub(super) fn push<A: Allocator>(
    sects: &mut PackedSects<A>,
    item: ItemRef<'_>,
) -> Result<(), Memory> {
    sects.push_item(item)
}

pub(super) fn push_line<A: Allocator>(
    sects: &mut PackedSects<A>,
    line: u64,
    count: u128,
    checksum: Option<&[u8]>,
) -> Result<(), Memory> {
    sects.push_line(line, count, checksum)
}

pub(super) fn push_function<A: Allocator>(
    sects: &mut PackedSects<A>,
    name: &[u8],
    line: u64,
    count: u128,
) -> Result<(), Memory> {
    sects.push_function(name, line, count)
}

pub(super) fn push_branch<A: Allocator>(
    sects: &mut PackedSects<A>,
    line: u64,
    block: u64,
    branch: u64,
    taken: Option<u128>,
) -> Result<(), Memory> {
    let point = BranchPoint {
        line,
        block,
        branch,
    };
    sects.push_branch(point, taken)
}

/// Sets the start line of the function at index `at`. Does nothing if `at` is past the end.
pub(super) fn set_start<A: Allocator>(sects: &mut PackedSects<A>, at: usize, line: u64) {
    if at < sects.items().len() {
        sects.set_start(at, line);
    }
}

pub(super) fn close<A: Allocator>(
    sects: &mut PackedSects<A>,
    test: &[u8],
    file: &[u8],
) -> Result<(), Memory> {
    sects.close(test, file)
}

pub(super) fn bytes<A: Allocator>(alloc: A, text: &[u8]) -> Result<Bytes<A>, Memory> {
    Bytes::of(alloc, text)
}

pub(super) fn packed<A: Allocator + Copy>(
    alloc: A,
    submission: &Submission<A>,
) -> Result<PackedSubmission<A>, Memory> {
    covpacked::pack(alloc, submission)
}

pub(super) fn unpacked<A: Allocator + Copy>(
    alloc: A,
    packed: &PackedSubmission<A>,
) -> Result<Submission<A>, Memory> {
    covpacked::unpack(alloc, packed)
}

pub(super) fn is_same<A: Allocator>(
    packed: &PackedSubmission<A>,
    other: &PackedSubmission<A>,
) -> bool {
    packed.is_same(other)
}

pub(super) fn is_same_as<A: Allocator>(
    packed: &PackedSubmission<A>,
    other: &Submission<A>,
) -> bool {
    packed.is_same_as(other)
}
