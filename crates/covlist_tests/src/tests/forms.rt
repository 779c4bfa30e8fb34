//! The three texts that covlist makes of a store.

use super::wrappers::{holding, json, matching, summary, table};
use super::{check_bytes, made};
use covdata::{Bytes, Memory};
use covreport::Choice;
use covstore::Store;
use std::alloc::{Allocator, Global};
use std::process::Abort;
use std::test::*;

/// The form of a text.
#[derive(Clone, Copy)]
pub(super) enum Form {
    /// The table of the chosen files.
    Table,
    /// The JSON of the chosen files.
    Json,
    /// The JSON of the totals alone.
    Summary,
}

/// Makes the text of the chosen files.
pub(super) fn text_of<A: Allocator + Copy>(
    alloc: A,
    store: &Store<A>,
    choice: &Choice<A>,
    form: Form,
) -> Result<Bytes<A>, Memory> {
    match form {
        Form::Table => table(alloc, store, choice),
        Form::Json => json(alloc, store, choice),
        Form::Summary => summary(alloc, &store.totals()),
    }
}

/// The choice of the files that match the pattern, or of all files if the pattern is empty.
fn choice_of(rt: &impl Abort, alloc: Global, pattern: &[u8]) -> Choice {
    if pattern.is_empty() {
        Choice::All
    } else {
        matching(rt, alloc, pattern)
    }
}

/// Checks the text of the files of the tracefile that match the pattern, or of all files if the pattern is empty.
pub(super) fn check_text(
    rt: &(impl Abort + AllocGlobal),
    form: Form,
    tracefile: &[u8],
    pattern: &[u8],
    wanted: &[u8],
) {
    let store = holding(rt, rt.alloc(), tracefile);
    let choice = choice_of(rt, rt.alloc(), pattern);
    let text = made(rt, text_of(rt.alloc(), &store, &choice, form));
    check_bytes(rt, text.get(), wanted);
}
