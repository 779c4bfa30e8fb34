//! Wraps calls of other crates in functions without contracts. The tests look only at values, and their proofs are faster without
//! contracts.

use super::made;
use covdata::{Bytes, Memory, ReadFault, Submission};
use covread::read_trace;
use covreport::{Choice, PatternFault, Patterns};
use covstore::Store;
use covtable::Totals;
use std::alloc::Allocator;
use std::process::Abort;

pub(super) fn table<A: Allocator + Copy>(
    alloc: A,
    store: &Store<A>,
    choice: &Choice<A>,
) -> Result<Bytes<A>, Memory> {
    covlist::list_table(alloc, store, choice)
}

pub(super) fn json<A: Allocator + Copy>(
    alloc: A,
    store: &Store<A>,
    choice: &Choice<A>,
) -> Result<Bytes<A>, Memory> {
    covlist::list_json(alloc, store, choice)
}

pub(super) fn summary<A: Allocator>(alloc: A, totals: &Totals) -> Result<Bytes<A>, Memory> {
    covlist::summary_json(alloc, totals)
}

pub(super) fn put_name<A: Allocator>(name: &[u8], text: &mut Bytes<A>) -> Result<(), Memory> {
    covlist::put_shown_name(name, text)
}

pub(super) fn put_lines<A: Allocator>(lines: &[u8], text: &mut Bytes<A>) -> Result<(), Memory> {
    covlist::put_shown_lines(lines, text)
}

fn read<A: Allocator + Copy>(alloc: A, text: &[u8]) -> Result<Submission<A>, ReadFault> {
    read_trace(alloc, text)
}

fn add<A: Allocator + Copy>(
    alloc: A,
    patterns: &mut Patterns<A>,
    pattern: &[u8],
) -> Result<(), PatternFault> {
    patterns.add(alloc, pattern)
}

/// The choice of the files that match the pattern.
pub(super) fn matching<A: Allocator + Copy>(
    rt: &impl Abort,
    alloc: A,
    pattern: &[u8],
) -> Choice<A> {
    let mut patterns = Patterns::new(alloc);
    made(rt, add(alloc, &mut patterns, pattern));
    Choice::Extract(patterns)
}

/// A store that has only the submission `given`.
fn stored<A: Allocator + Copy>(rt: &impl Abort, alloc: A, given: &Submission<A>) -> Store<A> {
    let mut store = Store::new(alloc);
    match store.prepare(alloc, given) {
        Ok(plan) => store.commit(plan),
        Err(_refused) => panic!(rt; "refused with ample memory"),
    }
    store
}

/// A store that has only the tracefile `text`.
pub(super) fn holding<A: Allocator + Copy>(rt: &impl Abort, alloc: A, text: &[u8]) -> Store<A> {
    let given = made(rt, read(alloc, text));
    stored(rt, alloc, &given)
}
