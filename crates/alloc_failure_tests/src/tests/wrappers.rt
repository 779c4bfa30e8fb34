//! Calls other crates from functions without contracts. A test looks only at values, and is proved faster without contracts.

use super::made;
use covbook::{Answer, Op, PackedRef, SubRef, TextRef};
use covdata::{Bytes, Memory, ReadFault, Submission, TraceLine};
use covpacked::PackedSubmission;
use covread::{read_trace, read_trace_packed};
use covreport::{Choice, PatternFault, Patterns, trace_text};
use covstore::Store;
use std::alloc::Allocator;
use std::process::Abort;

pub(super) fn bytes<A: Allocator>(alloc: A, text: &[u8]) -> Result<Bytes<A>, Memory> {
    Bytes::of(alloc, text)
}

pub(super) fn put<A: Allocator>(record: &TraceLine<'_>, text: &mut Bytes<A>) -> Result<(), Memory> {
    covline::put_line(record, text)
}

pub(super) fn read<A: Allocator + Copy>(alloc: A, text: &[u8]) -> Result<Submission<A>, ReadFault> {
    read_trace(alloc, text)
}

pub(super) fn read_packed<A: Allocator + Copy>(
    alloc: A,
    text: &[u8],
) -> Result<PackedSubmission<A>, ReadFault> {
    read_trace_packed(alloc, text)
}

pub(super) fn add<A: Allocator + Copy>(
    alloc: A,
    patterns: &mut Patterns<A>,
    pattern: &[u8],
) -> Result<(), PatternFault> {
    patterns.add(alloc, pattern)
}

pub(super) fn printed<A: Allocator + Copy>(
    alloc: A,
    store: &Store<A>,
    choice: &Choice<A>,
) -> Result<Bytes<A>, Memory> {
    trace_text(alloc, store, choice)
}

/// Makes the submission shareable.
pub(super) fn shared<A: Allocator + Copy>(
    alloc: A,
    given: Submission<A>,
) -> Result<SubRef<A>, Memory> {
    SubRef::of(alloc, given)
}

/// Makes the packed submission shareable.
pub(super) fn shared_packed<A: Allocator>(
    alloc: A,
    given: PackedSubmission<A>,
) -> Result<PackedRef<A>, Memory> {
    PackedRef::of(alloc, given)
}

/// Makes the text shareable.
pub(super) fn shared_text<A: Allocator>(alloc: A, text: Bytes<A>) -> Result<TextRef<A>, Memory> {
    TextRef::of(alloc, text)
}

pub(super) fn copied_op<A: Allocator + Copy>(alloc: A, op: &Op<A>) -> Result<Op<A>, Memory> {
    op.copy(alloc)
}

pub(super) fn copied_answer<A: Allocator + Copy>(
    alloc: A,
    answer: &Answer<A>,
) -> Result<Answer<A>, Memory> {
    answer.copy(alloc)
}

/// Returns the list of `patterns`.
pub(super) fn list_of<A: Allocator + Copy>(
    rt: &impl Abort,
    alloc: A,
    patterns: &[&[u8]],
) -> Patterns<A> {
    let mut list = Patterns::new(alloc);
    for pattern in patterns {
        made(rt, add(alloc, &mut list, pattern));
    }
    list
}

/// Returns the operation that submits the tracefile `text`.
fn submit<A: Allocator + Copy>(rt: &impl Abort, alloc: A, text: &[u8]) -> Op<A> {
    let given = made(rt, read(alloc, text));
    Op::Submit(made(rt, shared(alloc, given)))
}

/// Returns the operation that submits the tracefile `text` as a packed submission.
fn submit_packed<A: Allocator + Copy>(rt: &impl Abort, alloc: A, text: &[u8]) -> Op<A> {
    let given = made(rt, read_packed(alloc, text));
    Op::SubmitPacked(made(rt, shared_packed(alloc, given)))
}

/// An operation: its tracefile, names of tests or patterns.
#[derive(Clone, Copy)]
pub(super) enum Asked<'a> {
    Submit(&'a [u8]),
    SubmitPacked(&'a [u8]),
    Drop(&'a [u8]),
    Rename(&'a [u8], &'a [u8]),
    Report,
    Extract(&'a [&'a [u8]]),
    Remove(&'a [&'a [u8]]),
    Summary,
}

/// Makes the operation.
pub(super) fn op_of<A: Allocator + Copy>(rt: &impl Abort, alloc: A, asked: Asked<'_>) -> Op<A> {
    match asked {
        Asked::Submit(text) => submit(rt, alloc, text),
        Asked::SubmitPacked(text) => submit_packed(rt, alloc, text),
        Asked::Drop(test) => Op::DropTest(made(rt, bytes(alloc, test))),
        Asked::Rename(old, new) => Op::Rename {
            old: made(rt, bytes(alloc, old)),
            new: made(rt, bytes(alloc, new)),
        },
        Asked::Report => Op::Report,
        Asked::Extract(patterns) => Op::Extract(list_of(rt, alloc, patterns)),
        Asked::Remove(patterns) => Op::Remove(list_of(rt, alloc, patterns)),
        Asked::Summary => Op::Summary,
    }
}
