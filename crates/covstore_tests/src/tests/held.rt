//! The content of a store as text, with its totals.

ghost use Rattle.std.specs.Prelude.{◌<◌, IfOk};
ghost use Rattle.covtable.specs.Shown.{max_members};

use super::check_bytes;
use super::wrappers::{put_line, read};
use covdata::{Bytes, Memory, TraceLine};
use covstore::{Section, Store, Totals};
use std::alloc::Global;
use std::process::Abort;
use std::test::*;

pub(super) const NOTHING: Totals = Totals {
    lf: 0,
    lh: 0,
    ff: 0,
    fh: 0,
    bf: 0,
    bh: 0,
};

/// A store with `text` as its only submission. The store has capacity for another submission.
pub(super) fn store_of(rt: &(impl Abort + AllocGlobal), text: &[u8]) -> Result<Store, Fail>
    ensures { IfOk result (λ store. store.members < max_members) }
{
    let given = read(rt.alloc(), text)?;
    let mut store = Store::new(rt.alloc());
    match store.prepare(rt.alloc(), &given) {
        Ok(plan) => store.commit(plan),
        Err(refuse) => panic!(rt; "refused {}", refuse.number()),
    }
    Ok(store)
}

/// Appends the section's functions, by name.
fn put_functions(section: &Section<'_>, text: &mut Bytes) -> Result<(), Memory> {
    for found in section.functions() {
        let name = found.name;
        put_line(
            &TraceLine::FuncStart {
                line: found.line,
                name,
            },
            text,
        )?;
        put_line(
            &TraceLine::FuncCount {
                count: found.count,
                name,
            },
            text,
        )?;
    }
    Ok(())
}

/// Appends the section's branches.
fn put_branches(section: &Section<'_>, text: &mut Bytes) -> Result<(), Memory> {
    for found in section.branches() {
        let record = TraceLine::Branch {
            line: found.line,
            block: found.block,
            branch: found.branch,
            taken: found.taken,
        };
        put_line(&record, text)?;
    }
    Ok(())
}

/// Appends the section's lines.
fn put_lines(section: &Section<'_>, text: &mut Bytes) -> Result<(), Memory> {
    for found in section.lines() {
        let record = TraceLine::Line {
            line: found.line,
            count: found.count,
            checksum: found.checksum,
        };
        put_line(&record, text)?;
    }
    Ok(())
}

/// Appends the points of the section.
fn put_section(section: &Section<'_>, text: &mut Bytes) -> Result<(), Memory> {
    put_line(&TraceLine::Test(section.test()), text)?;
    put_line(&TraceLine::Path(section.file()), text)?;
    put_functions(section, text)?;
    put_branches(section, text)?;
    put_lines(section, text)
}

/// Returns the content of the store as text.
fn held(alloc: Global, store: &Store) -> Result<Bytes, Memory> {
    let mut text = Bytes::new(alloc);
    for section in store.sections() {
        put_section(&section, &mut text)?;
    }
    Ok(text)
}

/// The totals of the store.
fn totals_of(store: &Store) -> Totals {
    store.totals()
}

/// Checks the content of the store as text, and its totals.
pub(super) fn check_held(
    rt: &(impl Abort + AllocGlobal),
    store: &Store,
    wanted: &[u8],
    totals: Totals,
) {
    match held(rt.alloc(), store) {
        Ok(text) => check_bytes(rt, text.get(), wanted),
        Err(_refused) => panic!(rt; "out of memory"),
    }
    assert!(rt; totals_of(store) == totals);
}

/// Whether the store has the test.
pub(super) fn has_test(store: &Store, test: &[u8]) -> bool {
    store.has_test(test)
}
