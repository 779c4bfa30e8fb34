//! Makes values from other values: texts from bytes, and shareable texts and submissions from plain ones.

use super::heap::{Call, check_rising, narrow, widen};
use super::texts::SMALL;
use super::wrappers::{bytes, read, read_packed, shared, shared_packed, shared_text};
use super::{check_bytes, made};
use bumpalo::Bump;
use std::process::Abort;
use std::test::*;

/// Makes a text from bytes.
fn text_of(rt: &impl Abort, heap: &Bump, room: usize) -> bool {
    narrow(rt, heap, room);
    let first = bytes(heap, SMALL);
    widen(heap);
    let (text, is_refused) = match first {
        Ok(text) => (text, false),
        Err(_refused) => (made(rt, bytes(heap, SMALL)), true),
    };
    check_bytes(rt, text.get(), SMALL);
    is_refused
}

/// Makes a text shareable. A failed allocation drops the text, so the second try uses another one.
fn text_shared(rt: &impl Abort, heap: &Bump, room: usize) -> bool {
    let text = made(rt, bytes(heap, SMALL));
    let again = made(rt, bytes(heap, SMALL));
    narrow(rt, heap, room);
    let first = shared_text(heap, text);
    widen(heap);
    let (text, is_refused) = match first {
        Ok(text) => (text, false),
        Err(_refused) => (made(rt, shared_text(heap, again)), true),
    };
    check_bytes(rt, text.get().get(), SMALL);
    is_refused
}

/// Makes a submission shareable. A failed allocation drops the submission, so the second try uses another one.
fn submission_shared(rt: &impl Abort, heap: &Bump, room: usize) -> bool {
    let given = made(rt, read(heap, SMALL));
    let again = made(rt, read(heap, SMALL));
    narrow(rt, heap, room);
    let first = shared(heap, given);
    widen(heap);
    let (given, is_refused) = match first {
        Ok(given) => (given, false),
        Err(_refused) => (made(rt, shared(heap, again)), true),
    };
    assert_eq!(rt; (given.get().items(), given.get().odd()), (2, 0));
    is_refused
}

/// Makes a packed submission shareable. A failed allocation drops the submission, so the second try uses another one.
fn packed_shared(rt: &impl Abort, heap: &Bump, room: usize) -> bool {
    let given = made(rt, read_packed(heap, SMALL));
    let again = made(rt, read_packed(heap, SMALL));
    narrow(rt, heap, room);
    let first = shared_packed(heap, given);
    widen(heap);
    let (given, is_refused) = match first {
        Ok(given) => (given, false),
        Err(_refused) => (made(rt, shared_packed(heap, again)), true),
    };
    assert_eq!(rt; (given.get().items(), given.get().odd()), (2, 0));
    is_refused
}

/// A value that is made of another one.
#[derive(Clone, Copy)]
pub(super) enum Made {
    Text,
    SharedText,
    SharedSubmission,
    SharedPacked,
}

/// Makes the value with a capacity of `room`, and returns whether an allocation failed.
pub(super) fn is_refused(rt: &impl Abort, heap: &Bump, room: usize, value: Made) -> bool {
    match value {
        Made::Text => text_of(rt, heap, room),
        Made::SharedText => text_shared(rt, heap, room),
        Made::SharedSubmission => submission_shared(rt, heap, room),
        Made::SharedPacked => packed_shared(rt, heap, room),
    }
}

#[test]
fn texts_and_what_is_shared(rt: HostRuntime) {
    check_rising(
        &rt,
        &[
            Call::Value(Made::Text),
            Call::Value(Made::SharedText),
            Call::Value(Made::SharedSubmission),
            Call::Value(Made::SharedPacked),
        ],
    );
}
