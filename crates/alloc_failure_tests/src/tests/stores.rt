//! Tests of a store that prepares a submission or a rename. A failed allocation changes neither the store's sections nor its
//! totals.

ghost use Rattle.std.specs.Prelude.{◌<◌, OnErr};
ghost use Rattle.covtable.specs.Shown.{max_members};

use super::heap::{Call, check_rising, check_rising_by, narrow, widen};
use super::texts::{APART, DOUBLED, JOINED, RENAMED, SMALL};
use super::wrappers::{printed, read};
use super::{check_bytes, made};
use bumpalo::Bump;
use covdata::{Memory, Submission};
use covpacked::PackedSubmission;
use covreport::Choice;
use covstore::Store;
use covtable::{Refuse, Totals};
use std::alloc::Allocator;
use std::process::Abort;
use std::test::*;

/// The totals of an empty store.
const NONE: Totals = Totals {
    lf: 0,
    lh: 0,
    ff: 0,
    fh: 0,
    bf: 0,
    bh: 0,
};

/// The totals of `SMALL`: two lines are found, and one is hit.
const OF_SMALL: Totals = Totals {
    lf: 2,
    lh: 1,
    ff: 0,
    fh: 0,
    bf: 0,
    bh: 0,
};

/// Returns a store with only the submission `given`, and with capacity for another one.
pub(super) fn stored<A: Allocator + Copy>(
    rt: &impl Abort,
    alloc: A,
    given: &Submission<A>,
) -> Store<A>
    ensures { result.members < max_members }
{
    let mut store = Store::new(alloc);
    match store.prepare(alloc, given) {
        Ok(plan) => store.commit(plan),
        Err(_refused) => panic!(rt; "refused with ample memory"),
    }
    store
}

/// Returns a store with only the packed submission `given`.
pub(super) fn stored_packed<A: Allocator + Copy>(
    rt: &impl Abort,
    alloc: A,
    given: &PackedSubmission<A>,
) -> Store<A> {
    let mut store = Store::new(alloc);
    match store.prepare_packed(alloc, given) {
        Ok(plan) => store.commit(plan),
        Err(_refused) => panic!(rt; "refused with ample memory"),
    }
    store
}

/// Returns a store with only the submission of the tracefile `text`.
pub(super) fn holding<A: Allocator + Copy>(rt: &impl Abort, alloc: A, text: &[u8]) -> Store<A> {
    let given = made(rt, read(alloc, text));
    stored(rt, alloc, &given)
}

/// Checks that the store has the totals `totals`, and prints `text`.
fn check_store<A: Allocator + Copy>(
    rt: &impl Abort,
    alloc: A,
    store: &Store<A>,
    text: &[u8],
    totals: Totals,
) {
    assert_eq!(rt; store.totals(), totals);
    let report = made(rt, printed(alloc, store, &Choice::All));
    check_bytes(rt, report.get(), text);
}

/// Adds the submission to the store, or returns the error. Only `prepare` can fail, not `commit`.
fn hold<A: Allocator + Copy>(
    alloc: A,
    store: &mut Store<A>,
    given: &Submission<A>,
) -> Result<(), Refuse<A>>
    requires { store.old.members < max_members }
    ensures { OnErr result (store.new.members < max_members) }
{
    match store.prepare(alloc, given) {
        Ok(plan) => {
            store.commit(plan);
            Ok(())
        }
        Err(refuse) => Err(refuse),
    }
}

/// Adds `SMALL` to the store, and returns whether an allocation failed. The store must print the first of `texts` after a failed
/// allocation, and the second of `texts` at the end.
fn holds<'h>(
    rt: &impl Abort,
    room: usize,
    heap: &'h Bump,
    mut store: Store<&'h Bump>,
    texts: (&[u8], &[u8]),
) -> bool
    requires { store.members < max_members }
{
    let given = made(rt, read(heap, SMALL));
    let totals = store.totals();
    narrow(rt, heap, room);
    let first = hold(heap, &mut store, &given);
    widen(heap);
    let is_refused = first.is_err();
    if let Err(refuse) = first {
        assert!(rt; matches!(refuse, Refuse::Memory));
        check_store(rt, heap, &store, texts.0, totals);
        made(rt, hold(heap, &mut store, &given));
    }
    check_store(rt, heap, &store, texts.1, OF_SMALL);
    is_refused
}

/// Adds `SMALL` to an empty store.
fn first_text(rt: &impl Abort, heap: &Bump, room: usize) -> bool {
    let store = Store::new(heap);
    check_store(rt, heap, &store, b"", NONE);
    holds(rt, room, heap, store, (b"", SMALL))
}

/// Adds `SMALL` to a store that already has the same submission.
fn second_text(rt: &impl Abort, heap: &Bump, room: usize) -> bool {
    let store = stored(rt, heap, &made(rt, read(heap, SMALL)));
    check_store(rt, heap, &store, SMALL, OF_SMALL);
    holds(rt, room, heap, store, (SMALL, DOUBLED))
}

/// The totals of `APART`: one line is found, and hit.
const OF_ONE: Totals = Totals {
    lf: 1,
    lh: 1,
    ff: 0,
    fh: 0,
    bf: 0,
    bh: 0,
};

/// Renames the test `old` to `new`, and returns the number of its sections. Only `prepare_rename` can fail, not `commit_rename`.
fn rename<A: Allocator + Copy>(
    alloc: A,
    store: &mut Store<A>,
    old: &[u8],
    new: &[u8],
) -> Result<u64, Memory> {
    match store.prepare_rename(alloc, old, new) {
        Ok(renaming) => {
            let sections = renaming.sections();
            store.commit_rename(renaming);
            Ok(sections)
        }
        Err(refused) => Err(refused),
    }
}

/// Renames the test `t` as `row` says, in a store with only the tracefile `held`. Returns whether an allocation failed.
fn renames(rt: &impl Abort, heap: &Bump, room: usize, held: &[u8], row: Renamed<'_>) -> bool {
    let mut store = holding(rt, heap, held);
    narrow(rt, heap, room);
    let first = rename(heap, &mut store, b"t", row.new);
    widen(heap);
    let is_refused = first.is_err();
    let sections = match first {
        Ok(sections) => sections,
        Err(_refused) => {
            check_store(rt, heap, &store, held, row.totals);
            made(rt, rename(heap, &mut store, b"t", row.new))
        }
    };
    assert_eq!(rt; sections, 1);
    check_store(rt, heap, &store, row.wanted, row.totals);
    is_refused
}

/// A rename: the new name, the printed report after the rename, and the totals, which must stay the same.
#[derive(Clone, Copy)]
pub(super) struct Renamed<'a> {
    new: &'a [u8],
    wanted: &'a [u8],
    totals: Totals,
}

/// A change of a store.
#[derive(Clone, Copy)]
pub(super) enum Change<'a> {
    First,
    Second,
    /// A rename in a store with only this tracefile.
    Rename(&'a [u8], Renamed<'a>),
}

/// Changes a store with a capacity of `room`, and returns whether an allocation failed.
pub(super) fn is_refused(rt: &impl Abort, heap: &Bump, room: usize, change: Change<'_>) -> bool {
    match change {
        Change::First => first_text(rt, heap, room),
        Change::Second => second_text(rt, heap, room),
        Change::Rename(held, row) => renames(rt, heap, room, held, row),
    }
}

#[test]
fn submissions(rt: HostRuntime) {
    check_rising_by(&rt, 1, 16, &[Call::Store(Change::First)]);
    check_rising(&rt, &[Call::Store(Change::Second)]);
}

/// A rename to a new name.
const TO_NEW: Renamed<'static> = Renamed {
    new: b"v",
    wanted: RENAMED,
    totals: OF_SMALL,
};

/// A rename to the name of another test, which adds up the counts of a line that both tests have.
const TO_OTHER: Renamed<'static> = Renamed {
    new: b"u",
    wanted: JOINED,
    totals: OF_ONE,
};

#[test]
fn renames_of_tests(rt: HostRuntime) {
    check_rising(
        &rt,
        &[
            Call::Store(Change::Rename(SMALL, TO_NEW)),
            Call::Store(Change::Rename(APART, TO_OTHER)),
        ],
    );
}
