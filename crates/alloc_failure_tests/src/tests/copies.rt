//! Copies texts, pattern lists, submissions, operations and answers. A copy equals its original. A failed allocation leaves the
//! original unchanged, and the original can then be copied with more capacity.

use super::heap::{Call, check_none, check_rising, narrow, widen};
use super::said::{Wanted, check_answer};
use super::texts::{CHECKED, SMALL};
use super::wrappers::{Asked, bytes, copied_answer, copied_op, list_of, op_of, read, shared_text};
use super::{check_bytes, made};
use bumpalo::Bump;
use covbook::Answer;
use std::process::Abort;
use std::test::*;

fn copies_text(rt: &impl Abort, heap: &Bump, room: usize) -> bool {
    let text = made(rt, bytes(heap, SMALL));
    narrow(rt, heap, room);
    let first = text.copy(heap);
    widen(heap);
    let (copy, is_refused) = match first {
        Ok(copy) => (copy, false),
        Err(_refused) => (made(rt, text.copy(heap)), true),
    };
    check_bytes(rt, copy.get(), SMALL);
    is_refused
}

fn copies_patterns(rt: &impl Abort, heap: &Bump, room: usize) -> bool {
    let list = list_of(rt, heap, &[b"*.c", b"/src/?", b"[a-z]"]);
    narrow(rt, heap, room);
    let first = list.copy(heap);
    widen(heap);
    let (copy, is_refused) = match first {
        Ok(copy) => (copy, false),
        Err(_refused) => (made(rt, list.copy(heap)), true),
    };
    assert_eq!(rt; copy.get().len(), 3);
    assert!(rt; copy.is_same(&list));
    is_refused
}

/// Copies a submission with its sections and their items.
fn copies_submission(rt: &impl Abort, heap: &Bump, room: usize) -> bool {
    let given = made(rt, read(heap, CHECKED));
    narrow(rt, heap, room);
    let first = given.copy(heap);
    widen(heap);
    let (copy, is_refused) = match first {
        Ok(copy) => (copy, false),
        Err(_refused) => (made(rt, given.copy(heap)), true),
    };
    assert_eq!(rt; (copy.items(), copy.odd()), (2, 0));
    assert!(rt; copy.is_same(&given));
    is_refused
}

/// Copies the operation `op_of(asked)`.
fn copies_op(rt: &impl Abort, heap: &Bump, room: usize, asked: Asked<'_>) -> bool {
    let op = op_of(rt, heap, asked);
    narrow(rt, heap, room);
    let first = copied_op(heap, &op);
    widen(heap);
    let (copy, is_refused) = match first {
        Ok(copy) => (copy, false),
        Err(_refused) => (made(rt, copied_op(heap, &op)), true),
    };
    assert!(rt; copy.is_same(&op));
    is_refused
}

/// Copies the answer of a clash. The copy allocates its own path and checksums.
fn copies_clash(rt: &impl Abort, heap: &Bump, room: usize) -> bool {
    let answer = Answer::Clash {
        file: made(rt, bytes(heap, b"/a.c")),
        line: 1,
        held: made(rt, bytes(heap, b"abc")),
        given: made(rt, bytes(heap, b"abd")),
    };
    narrow(rt, heap, room);
    let first = copied_answer(heap, &answer);
    widen(heap);
    let (copy, is_refused) = match first {
        Ok(copy) => (copy, false),
        Err(_refused) => (made(rt, copied_answer(heap, &answer)), true),
    };
    check_answer(rt, &copy, Wanted::Clash);
    is_refused
}

/// Copies a shared text, and an answer with this text. Both copies share the text's bytes, so they allocate nothing.
fn copies_shared(rt: &impl Abort, heap: &Bump, room: usize) -> bool {
    let text = made(rt, bytes(heap, b"two\nlines\n"));
    let text = made(rt, shared_text(heap, text));
    narrow(rt, heap, room);
    let Ok(owner) = text.copy() else {
        return true;
    };
    let answer = Answer::Text(owner);
    let Ok(copy) = copied_answer(heap, &answer) else {
        return true;
    };
    check_answer(rt, &copy, Wanted::Text(b"two\nlines\n"));
    false
}

/// A value that is copied.
#[derive(Clone, Copy)]
pub(super) enum Copied<'a> {
    Text,
    Patterns,
    Submission,
    Op(Asked<'a>),
    Clash,
    SharedText,
}

/// Copies the value with a capacity of `room`, and returns whether an allocation failed.
pub(super) fn is_refused(rt: &impl Abort, heap: &Bump, room: usize, copied: Copied<'_>) -> bool {
    match copied {
        Copied::Text => copies_text(rt, heap, room),
        Copied::Patterns => copies_patterns(rt, heap, room),
        Copied::Submission => copies_submission(rt, heap, room),
        Copied::Op(asked) => copies_op(rt, heap, room, asked),
        Copied::Clash => copies_clash(rt, heap, room),
        Copied::SharedText => copies_shared(rt, heap, room),
    }
}

#[test]
fn copies_that_allocate(rt: HostRuntime) {
    check_rising(
        &rt,
        &[
            Call::Copy(Copied::Text),
            Call::Copy(Copied::Patterns),
            Call::Copy(Copied::Submission),
            Call::Copy(Copied::Op(Asked::Drop(b"t"))),
            Call::Copy(Copied::Op(Asked::Rename(b"t", b"v"))),
            Call::Copy(Copied::Op(Asked::Extract(&[b"*.c", b"*.h"]))),
            Call::Copy(Copied::Op(Asked::Remove(&[b"*.c", b"*.h"]))),
            Call::Copy(Copied::Clash),
        ],
    );
}

#[test]
fn copies_that_share(rt: HostRuntime) {
    check_none(
        &rt,
        &[
            Call::Copy(Copied::Op(Asked::Submit(SMALL))),
            Call::Copy(Copied::Op(Asked::SubmitPacked(SMALL))),
            Call::Copy(Copied::Op(Asked::Report)),
            Call::Copy(Copied::Op(Asked::Summary)),
            Call::Copy(Copied::SharedText),
        ],
    );
}
