//! Makes each text in heaps of rising capacity, from 0 on, until no allocation fails.

use super::forms::{Form, text_of};
use super::heap::{AMPLE, narrow, new_heap, widen};
use super::objects::{JSON_OF_TWO, SUMMARY_OF_TWO};
use super::tables::{TABLE_OF_TWO, TWO_FILES};
use super::wrappers::holding;
use super::{check_bytes, made};
use bumpalo::Bump;
use covdata::{Bytes, Memory};
use covreport::Choice;
use covstore::Store;
use std::process::Abort;
use std::test::*;

/// The expected text of `TWO_FILES`.
fn wanted_of(form: Form) -> &'static [u8] {
    match form {
        Form::Table => TABLE_OF_TWO,
        Form::Json => JSON_OF_TWO,
        Form::Summary => SUMMARY_OF_TWO,
    }
}

/// Checks the result of a call. If an allocation failed, checks the result of the same call with ample capacity. Returns whether an
/// allocation failed.
fn check_first<'a>(
    rt: &impl Abort,
    heap: &'a Bump,
    store: &Store<&'a Bump>,
    form: Form,
    first: Result<Bytes<&'a Bump>, Memory>,
) -> bool {
    let is_refused = first.is_err();
    let text = match first {
        Ok(text) => text,
        Err(_refused) => made(rt, text_of(heap, store, &Choice::All, form)),
    };
    check_bytes(rt, text.get(), wanted_of(form));
    is_refused
}

/// Makes the text with a capacity of `room` bytes, or with ample capacity if that fails. Checks the text, and returns whether the
/// first call failed.
fn is_refused(rt: &impl Abort, heap: &Bump, room: usize, form: Form) -> bool {
    let store = holding(rt, heap, TWO_FILES);
    narrow(rt, heap, room);
    let first = text_of(heap, &store, &Choice::All, form);
    widen(heap);
    check_first(rt, heap, &store, form, first)
}

/// Makes the text in heaps with a capacity of 0, 1, 2 and so on, until the call succeeds. In the first heap, an allocation must
/// fail.
fn check_rising(rt: &(impl Abort + AllocGlobal), form: Form) {
    assert!(rt; is_refused(rt, &new_heap(rt), 0, form), "no growth is met");
    for room in 1..AMPLE {
        if !is_refused(rt, &new_heap(rt), room, form) {
            return;
        }
    }
    panic!(rt; "refused in each heap");
}

#[test]
fn each_form(rt: HostRuntime) {
    for form in [Form::Table, Form::Json, Form::Summary] {
        check_rising(&rt, form);
    }
}
